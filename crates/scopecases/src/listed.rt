//! Names in a list.

use protox_names::is_within;
use protox_scopes::{Kind, Table};

/// A full name, and the kind of what has it.
#[derive(Drop)]
pub struct Entry {
    pub full_name: String,
    pub kind: Kind,
}

/// Full names, of which the first of equal ones counts.
#[derive(Drop)]
pub struct Listed {
    pub entries: Vec<Entry>,
}

impl Table for Listed {
    ghost use Rattle.scopecases.specs.Listed.{kind_at, place_of};

    ghost seen = { place_of };

    ghost kind_of = { kind_at };

    fn find(&self, scope: &str, name: &str) -> Option<usize> {
        self.entries
            .iter()
            .position(|entry| is_within(entry.full_name.as_str(), scope, name))
    }

    fn kind(&self, thing: usize) -> Kind {
        match self.entries.get(thing) {
            Some(entry) => entry.kind,
            None => Kind::Member,
        }
    }
}
