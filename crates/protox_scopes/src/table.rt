//! What is searched.

ghost use Rattle.std.specs.Prelude.{◌≡◌, ℕ, List, Option};
ghost use Rattle.protox_names.specs.Names.{within};
ghost use Rattle.protox_scopes.specs.declared.kind.Kind.{Kind};

use crate::Kind;

/// A table of what full names stand for. It numbers what it holds.
pub trait Table {
    /// What a full name stands for, if it stands for anything.
    ghost seen: { Self → List ℕ → Option ℕ };

    /// What kind of thing has a number.
    ghost kind_of: { Self → ℕ → Kind };

    /// What is called so in the scope. The nameless scope is the empty text. The name may have
    /// several parts, with dots between them.
    fn find(&self, scope: &str, name: &str) -> Option<usize>
        ensures { result ≡ seen self.now (within scope.now name.now) };

    /// The kind of the thing with a number.
    fn kind(&self, thing: usize) -> Kind
        ensures { result ≡ kind_of self.now thing };
}
