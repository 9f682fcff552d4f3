//! The search for what a name stands for, from the innermost scope outwards.

ghost use Rattle.std.specs.Prelude.{◌≡◌};
ghost use Rattle.protox_names.specs.Names as names;
ghost use Rattle.protox_scopes.specs.Scopes as words;

use crate::step::Step;
use crate::{Table, Wanted};
use protox_names::{enclosing, front, is_one_part};

// Searches one scope for a name, of which `first` is the first part.
fn step<T: Table>(table: &T, wanted: Wanted, name: &str, first: &str, scope: &str) -> Step<usize>
    requires { first.now ≡ names.front name.now }
    ensures { result
        ≡ words.step (T.kind_of table.now) (T.seen table.now) wanted name.now scope.now }
{
    let Some(thing) = table.find(scope, first) else {
        return Step::GoesOn;
    };
    let kind = table.kind(thing);
    if is_one_part(name) {
        if wanted.fits(kind) {
            return Step::Ends(Some(thing));
        }
    } else if kind.holds_names() {
        return Step::Ends(table.find(scope, name));
    }
    Step::GoesOn
}

/// What a name stands for where something of the full name `user` uses it, as protoc finds it. None
/// if it stands for nothing.
///
/// A name that begins with a dot is a full name. For any other, the scopes around the user are
/// searched from the inside out, beginning with the one that it stands in. The first part of the
/// name alone is looked for. Where it is found, the search ends, and the whole name is looked for
/// there; but a thing that holds no names is passed by if more parts follow, and so is one that is
/// not wanted if none follow. At last the whole name is looked for as a full name.
///
/// It takes no memory.
pub fn resolve<T: Table>(table: &T, wanted: Wanted, name: &str, user: &str) -> Option<usize>
    ensures { result
        ≡ words.resolve (T.kind_of table.now) (T.seen table.now) wanted name.now user.now }
{
    if let Some(full_name) = name.strip_prefix('.') {
        return table.find("", full_name);
    }
    let first = front(name);
    let mut scope = user;
    while let Some(outer) = enclosing(scope) {
        scope = outer;
        if let Step::Ends(found) = step(table, wanted, name, first, scope) {
            return found;
        }
    }
    table.find("", name)
}
