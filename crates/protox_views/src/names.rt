//! What tells the meaning of the names that a file uses.

use crate::View;
use protox_linked::{Names, Target};
use protox_scopes::Wanted;
use std::alloc::{AllocError, Global};

impl Names for View<'_> {
    ghost use Rattle.protox_name_tree.specs.Tree.{name_at};
    ghost use Rattle.protox_views.specs.Views.{meaning, stands};

    ghost meaning = { λ v. meaning v.symbols.now v.sees.now v.packages };

    ghost stands = { λ v. stands v.symbols.now };

    ghost name_of = { λ v. name_at v.symbols.now.names };

    fn inside(&self, scope: Option<usize>, name: &str) -> Option<usize> {
        self.symbols.find(scope, name)
    }

    fn meaning(
        &self,
        alloc: Global,
        wanted: Wanted,
        scope: Option<usize>,
        name: &str,
    ) -> Result<Option<Target>, AllocError> {
        let Some(number) = self.resolve(wanted, name, scope) else {
            return Ok(None);
        };
        let name = self.symbols.dotted(alloc, number)?;
        let kind = self.symbols.kind(number);
        Ok(Some(Target { name, kind }))
    }
}
