//! What names stand for in the tree: both ways of asking, by the full names of scopes and by their
//! numbers.

use crate::NameTree;
use protox_scopes::{Kind, ScopeTree, Table};

impl Table for NameTree {
    ghost use Rattle.protox_name_tree.specs.Tree.{kind_at, number_of};

    ghost seen = { number_of };

    ghost kind_of = { kind_at };

    fn find(&self, scope: &str, name: &str) -> Option<usize> {
        self.find_within(scope, name)
    }

    fn kind(&self, thing: usize) -> Kind {
        NameTree::kind(self, thing)
    }
}

impl ScopeTree for NameTree {
    ghost use Rattle.protox_name_tree.specs.Tree.{kind_at, name_at, number_of};

    ghost seen = { number_of };

    ghost kind_of = { kind_at };

    ghost name_of = { name_at };

    fn outer(&self, scope: usize) -> Option<usize> {
        NameTree::outer(self, scope)
    }

    fn find(&self, scope: Option<usize>, name: &str) -> Option<usize> {
        NameTree::find(self, scope, name)
    }

    fn kind(&self, thing: usize) -> Kind {
        NameTree::kind(self, thing)
    }
}
