//! The same names, where the number of a scope is its place in the list.

ghost use Rattle.std.specs.Prelude.{◌≡◌, ◌↔◌, true, IfSome, IsSome};
ghost use Rattle.scopecases.specs.Nested.{is_nested, name_at, stands_in_listed};

use crate::listed::{Entry, Listed};
use protox_names::enclosing;
use protox_scopes::{Kind, ScopeTree, Table};

/// Names of which each scope is one, too.
#[derive(Clone, Copy)]
pub struct Nested<'a> {
    pub listed: &'a Listed,
    ghost nested: { is_nested listed.now ≡ true },
}

fn stands_in_listed(listed: &Listed, entry: &Entry) -> bool
    ensures { result ≡ stands_in_listed listed.now entry.now }
{
    match enclosing(entry.full_name.as_str()) {
        Some(scope) => listed.find("", scope).is_some(),
        None => true,
    }
}

fn is_nested(listed: &Listed) -> bool
    ensures { result ≡ is_nested listed.now }
{
    listed
        .entries
        .iter()
        .all(|entry| stands_in_listed(listed, entry))
}

fn name_at(listed: &Listed, place: usize) -> &str
    ensures { result.now ≡ name_at listed.now place }
{
    match listed.entries.get(place) {
        Some(entry) => entry.full_name.as_str(),
        None => "",
    }
}

impl<'a> Nested<'a> {
    /// The list, if each of its scopes is in it.
    pub fn new(listed: &'a Listed) -> Option<Nested<'a>> {
        if is_nested(listed) {
            Some(Nested { listed })
        } else {
            None
        }
    }
}

impl ScopeTree for Nested<'_> {
    ghost use Rattle.scopecases.specs.Listed.{kind_at, place_of};
    ghost use Rattle.scopecases.specs.Nested.{name_at};

    ghost seen = { λ nested. place_of nested.listed.now };

    ghost kind_of = { λ nested. kind_at nested.listed.now };

    ghost name_of = { λ nested. name_at nested.listed.now };

    fn outer(&self, scope: usize) -> Option<usize> {
        let around = enclosing(name_at(self.listed, scope))?;
        self.listed.find("", around)
    }

    fn find(&self, scope: Option<usize>, name: &str) -> Option<usize> {
        match scope {
            Some(scope) => self.listed.find(name_at(self.listed, scope), name),
            None => self.listed.find("", name),
        }
    }

    fn kind(&self, thing: usize) -> Kind {
        self.listed.kind(thing)
    }
}
