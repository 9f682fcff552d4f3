//! The search for the declaration at a line and a column.

ghost use Rattle.std.specs.Prelude.{◌≡◌, None, IfSome, IfNone};
ghost use Rattle.std.specs.Option.{option_copied};
ghost use Rattle.protox_ast.specs.Basics.{Each};
ghost use Rattle.protox_places.specs.Innermost.{Holds, IsInnermost, nearness};
ghost use Rattle.protox_places.specs.inner.Nearer.{nearer, next_best, best_of};

use protox_descriptor::descriptor::SourceCodeInfo;
use protox_descriptor::descriptor::source_code_info::Location;
use std::cmp::Ordering;

// Which of two locations that hold a place is nearer to it: `Less` if it is the first.
fn compare_nearness(first: &Location, second: &Location) -> Ordering
    ensures { result ≡ nearness first.now second.now }
{
    let by_start = second.start().cmp(&first.start());
    by_start.then(first.end().cmp(&second.end()))
}

// The nearer one of the nearest so far and one more.
fn nearer_of<'a>(best: Option<&'a Location>, next: &'a Location) -> Option<&'a Location>
    ensures { option_copied result ≡ nearer (option_copied best.entry) next.now }
{
    match best {
        Some(best) => {
            if compare_nearness(next, best).is_le() {
                Some(next)
            } else {
                Some(best)
            }
        }
        None => Some(next),
    }
}

// The nearest of the locations that hold the place.
fn nearest(locations: &[Location], line: i32, column: i32) -> Option<&Location>
    ensures { option_copied result ≡ best_of (line, column) None locations.now }
{
    let mut best = None;
    for location in locations {
        if location.holds(line, column) {
            best = nearer_of(best, location);
        }
    }
    best
}

/// The innermost location that holds a place, or None. Line and column are from 0; columns count
/// bytes.
///
/// Of the locations whose span holds the place, it is the one that starts last. If several start
/// there, it is the one that ends first. If several have that span, it is the last in the list;
/// `parse` lists a part behind what it is part of. The search looks at each location once, takes no
/// memory and cannot fail.
///
/// ```
/// if let Some(location) = declaration_at(info, 3, 11) {
///     println!(rt; "{:?}", location.path)?;
/// }
/// ```
pub fn declaration_at(info: &SourceCodeInfo, line: i32, column: i32) -> Option<&Location>
    ensures innermost { IfSome result (λ l. IsInnermost (line, column) info.now.location l.now) }
    ensures none { IfNone result (Each (λ l. Holds (line, column) l → ⊥) info.now.location) }
{
    nearest(info.location.as_slice(), line, column)
}
