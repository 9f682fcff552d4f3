//! What names stand for in the table.

use crate::Symbols;
use protox_scopes::{Kind, ScopeTree, Table};

impl Table for Symbols {
    ghost use Rattle.protox_name_tree.specs.Tree.{kind_at, number_of};

    ghost seen = { λ s. number_of s.names };

    ghost kind_of = { λ s. kind_at s.names };

    fn find(&self, scope: &str, name: &str) -> Option<usize> {
        self.find_within(scope, name)
    }

    fn kind(&self, thing: usize) -> Kind {
        Symbols::kind(self, thing)
    }
}

impl ScopeTree for Symbols {
    ghost use Rattle.protox_name_tree.specs.Tree.{kind_at, name_at, number_of};

    ghost seen = { λ s. number_of s.names };

    ghost kind_of = { λ s. kind_at s.names };

    ghost name_of = { λ s. name_at s.names };

    fn outer(&self, scope: usize) -> Option<usize> {
        Symbols::outer(self, scope)
    }

    fn find(&self, scope: Option<usize>, name: &str) -> Option<usize> {
        Symbols::find(self, scope, name)
    }

    fn kind(&self, thing: usize) -> Kind {
        Symbols::kind(self, thing)
    }
}
