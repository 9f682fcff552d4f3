//! What tells the meaning of names.

ghost use Rattle.std.specs.Prelude.{◌≡◌, ℕ, Bool, List, Option, IfOk, MatchOption, false};
ghost use Rattle.protox_names.specs.Names.{within};
ghost use Rattle.protox_names.specs.Tree.{name_of_place};
ghost use Rattle.protox_scopes.specs.declared.kind.Wanted.{Wanted};
ghost use Rattle.protox_linked.specs.declared.target.Target.{Target};

use crate::Target;
use protox_scopes::Wanted;
use std::alloc::{AllocError, Global};

/// What tells the meaning of the names that a file uses. Scopes have numbers; the nameless one has
/// none.
pub trait Names {
    /// What a name stands for: what is wanted, the full name of the scope that its user stands in,
    /// and the name.
    ghost meaning: { Self → Wanted → List ℕ → List ℕ → Option Target };

    /// Which full names have a number.
    ghost stands: { Self → List ℕ → Bool };

    /// The full name with a number.
    ghost name_of: { Self → ℕ → List ℕ };

    /// The number of what is called so in a scope. None if it has none.
    fn inside(&self, scope: Option<usize>, name: &str) -> Option<usize>
        ensures { MatchOption result
            (stands self.now (within (name_of_place (name_of self.now) scope) name.now) ≡ false)
            (λ number. name_of self.now number
            ≡ within (name_of_place (name_of self.now) scope) name.now) };

    /// What a name stands for where something in this scope uses it. None if it stands for
    /// nothing.
    ///
    /// # Errors
    /// `AllocError` where memory runs out.
    fn meaning(
        &self,
        alloc: Global,
        wanted: Wanted,
        scope: Option<usize>,
        name: &str,
    ) -> Result<Option<Target>, AllocError>
        ensures { IfOk result (λ found. found
            ≡ meaning self.now wanted (name_of_place (name_of self.now) scope) name.now) };
}
