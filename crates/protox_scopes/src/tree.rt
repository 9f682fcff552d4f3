//! What is searched, where scopes have numbers.

ghost use Rattle.std.specs.Prelude.{◌≡◌, ℕ, List, Option};
ghost use Rattle.protox_names.specs.Names.{within};
ghost use Rattle.protox_names.specs.Tree.{name_of_place};
ghost use Rattle.protox_scopes.specs.Scopes.{IsOuter};
ghost use Rattle.protox_scopes.specs.declared.kind.Kind.{Kind};

use crate::Kind;

/// A table that keeps names part by part: a tree, in which each scope with a name has a number. So
/// nobody needs the full name of a scope as a text, and the way outwards is one step each time.
pub trait ScopeTree {
    /// What a full name stands for, if it stands for anything.
    ghost seen: { Self → List ℕ → Option ℕ };

    /// What kind of thing has a number.
    ghost kind_of: { Self → ℕ → Kind };

    /// The full name of the scope with a number.
    ghost name_of: { Self → ℕ → List ℕ };

    /// The scope that a scope stands in. None if that is the nameless one.
    fn outer(&self, scope: usize) -> Option<usize>
        ensures { IsOuter (name_of self.now) scope result };

    /// What is called so in the scope; in the nameless one, if there is no number. The name may
    /// have several parts, with dots between them.
    fn find(&self, scope: Option<usize>, name: &str) -> Option<usize>
        ensures { result
            ≡ seen self.now (within (name_of_place (name_of self.now) scope) name.now) };

    /// The kind of the thing with a number.
    fn kind(&self, thing: usize) -> Kind
        ensures { result ≡ kind_of self.now thing };
}
