//! What names stand for in what a file sees.

use crate::View;
use protox_scopes::{Kind, ScopeTree, Table};

impl ScopeTree for View<'_> {
    ghost use Rattle.protox_name_tree.specs.Tree.{kind_at, name_at};
    ghost use Rattle.protox_views.specs.Views.{seen};

    ghost seen = { λ v. seen v.symbols.now v.sees.now v.packages };

    ghost kind_of = { λ v. kind_at v.symbols.now.names };

    ghost name_of = { λ v. name_at v.symbols.now.names };

    fn outer(&self, scope: usize) -> Option<usize> {
        self.symbols.outer(scope)
    }

    fn find(&self, scope: Option<usize>, name: &str) -> Option<usize> {
        View::find(self, scope, name)
    }

    fn kind(&self, thing: usize) -> Kind {
        self.symbols.kind(thing)
    }
}

impl Table for View<'_> {
    ghost use Rattle.protox_name_tree.specs.Tree.{kind_at};
    ghost use Rattle.protox_views.specs.Views.{seen};

    ghost seen = { λ v. seen v.symbols.now v.sees.now v.packages };

    ghost kind_of = { λ v. kind_at v.symbols.now.names };

    fn find(&self, scope: &str, name: &str) -> Option<usize> {
        self.find_within(scope, name)
    }

    fn kind(&self, thing: usize) -> Kind {
        self.symbols.kind(thing)
    }
}
