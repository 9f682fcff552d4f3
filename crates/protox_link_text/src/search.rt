//! What the search for a name comes upon, if the name stands for nothing that the file sees.

ghost use Rattle.std.specs.Prelude.{◌≡◌};
ghost use Rattle.protox_link_text.specs.Search.{ends_in, later, search, seen_search, unseen};
ghost use Rattle.protox_link_text.specs.Search.{scopes_at, searched_scopes, unseen_in, wanted_at};
ghost use Rattle.protox_names.specs.Names as names;

use protox_descriptor::tag::field::TYPE_NAME;
use protox_names::{enclosing, front, is_one_part};
use protox_scopes::Wanted;
use protox_views::View;

/// What a search comes upon.
#[derive(Clone, Copy)]
pub(crate) struct Searched<'a> {
    /// The last thing on its way that the file doesn't see.
    pub(crate) unseen: Option<usize>,
    /// The scope in which it ended, if that was inside something.
    pub(crate) ended: Option<&'a str>,
}

/// What the part at the end of a path wants.
pub(crate) fn wanted_at(rest: &[i32]) -> Wanted
    ensures { result ≡ wanted_at rest.now }
{
    match rest {
        [_, _, part, ..] if *part == TYPE_NAME => Wanted::AType,
        _ => Wanted::Anything,
    }
}

// What has a name in a scope, if the file doesn't see it.
fn unseen(view: &View<'_>, scope: &str, name: &str) -> Option<usize>
    ensures { result ≡ unseen view.now.symbols.now view.now.sees.now view.now.packages
        (names.within scope.now name.now) }
{
    let number = view.symbols.find_within(scope, name)?;
    match view.find_within(scope, name) {
        Some(_) => None,
        None => Some(number),
    }
}

fn later(first: Option<usize>, second: Option<usize>) -> Option<usize>
    ensures { result ≡ later first second }
{
    match second {
        Some(_) => second,
        None => first,
    }
}

// One scope: what is come upon there, and whether the search ends.
fn search_scope(view: &View<'_>, wanted: Wanted, name: &str, scope: &str) -> (Option<usize>, bool)
    ensures unseen { result.0 ≡ unseen_in view.now.symbols.now view.now.sees.now
        view.now.packages name.now scope.now }
    ensures ends { result.1 ≡ ends_in view.now.symbols.now view.now.sees.now
        view.now.packages wanted name.now scope.now }
{
    let first = front(name);
    let Some(number) = view.find_within(scope, first) else {
        return (unseen(view, scope, first), false);
    };
    let kind = view.symbols.kind(number);
    if is_one_part(name) {
        return (None, wanted.fits(kind));
    }
    if kind.holds_names() {
        return (unseen(view, scope, name), true);
    }
    (None, false)
}

// The innermost scope that is searched; none for the nameless one.
fn innermost(scope: &str) -> Option<&str>
    ensures { scopes_at result ≡ searched_scopes scope.now }
{
    if scope.is_empty() { None } else { Some(scope) }
}

/// What the search for a name comes upon that is used in a scope.
pub(crate) fn search<'a>(
    view: &View<'_>,
    wanted: Wanted,
    name: &str,
    scope: &'a str,
) -> Searched<'a>
    ensures { seen_search name.now result ≡ search view.now.symbols.now view.now.sees.now
        view.now.packages wanted name.now scope.now }
{
    if let Some(full_name) = name.strip_prefix('.') {
        return Searched {
            unseen: unseen(view, "", full_name),
            ended: None,
        };
    }
    let mut found = None;
    let mut place = innermost(scope);
    while let Some(here) = place {
        let (unseen, ends) = search_scope(view, wanted, name, here);
        found = later(found, unseen);
        if ends {
            return Searched {
                unseen: found,
                ended: Some(here),
            };
        }
        place = enclosing(here);
    }
    Searched {
        unseen: later(found, unseen(view, "", name)),
        ended: None,
    }
}
