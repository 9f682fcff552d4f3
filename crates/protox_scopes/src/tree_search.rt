//! The same search in a tree: from scope to scope by their numbers.

ghost use Rattle.std.specs.Prelude.{◌≡◌, ℕ, List, true};
ghost use Rattle.protox_names.specs.Names as names;
ghost use Rattle.protox_names.specs.Tree.{name_of_place};
ghost use Rattle.protox_scopes.specs.Scopes as words;

use crate::step::Step;
use crate::{ScopeTree, Wanted};
use protox_names::{front, is_one_part};

// Searches one scope for a name, of which `first` is the first part.
fn step<T: ScopeTree>(
    tree: &T,
    wanted: Wanted,
    name: &str,
    first: &str,
    scope: usize,
) -> Step<usize>
    requires { first.now ≡ names.front name.now }
    ensures { result
        ≡ words.step (T.kind_of tree.now) (T.seen tree.now) wanted name.now
        (T.name_of tree.now scope) }
{
    let Some(thing) = tree.find(Some(scope), first) else {
        return Step::GoesOn;
    };
    let kind = tree.kind(thing);
    if is_one_part(name) {
        if wanted.fits(kind) {
            return Step::Ends(Some(thing));
        }
    } else if kind.holds_names() {
        return Step::Ends(tree.find(Some(scope), name));
    }
    Step::GoesOn
}

/// What a name stands for where something that stands in this scope uses it: the same that
/// `resolve` returns for a user of any name in the scope. With no number, the user stands in the
/// nameless scope.
///
/// It takes no memory. For each scope around the user it makes one step.
pub fn resolve_in<T: ScopeTree>(
    tree: &T,
    wanted: Wanted,
    name: &str,
    scope: Option<usize>,
) -> Option<usize>
    ensures { (user : List ℕ) → names.is_one_part user ≡ true → result
        ≡ words.resolve (T.kind_of tree.now) (T.seen tree.now) wanted name.now
        (names.within (name_of_place (T.name_of tree.now) scope) user) }
{
    if let Some(full_name) = name.strip_prefix('.') {
        return tree.find(None, full_name);
    }
    let first = front(name);
    let mut place = scope;
    while let Some(here) = place {
        if let Step::Ends(found) = step(tree, wanted, name, first, here) {
            return found;
        }
        place = tree.outer(here);
    }
    tree.find(None, name)
}
