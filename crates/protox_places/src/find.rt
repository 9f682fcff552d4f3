//! The search for locations by path.

ghost use Rattle.std.specs.Prelude.{◌≡◌, ◌≤◌, if◌then◌else◌, Some, None, length, slice_get};
ghost use Rattle.std.specs.List.{AllWithin};
ghost use Rattle.std.specs.Option.{option_copied};
ghost use Rattle.std.specs.Ordering.{int_cmp, is_lt};
ghost use Rattle.std.specs.Cmp.Lexicographic.{slice_cmp};
ghost use Rattle.protox_places.specs.First.{first_at, is_at, leading_of, trailing_of, detached_of};
ghost use Rattle.protox_places.specs.Order.{AreByPath, AreThoseAt, ComesBefore};

pub use crate::at::declaration_at;
use protox_descriptor::descriptor::SourceCodeInfo;
use protox_descriptor::descriptor::source_code_info::Location;
use protox_descriptor::values::Text;
use std::ops::Range;

// Whether a path is smaller than another, by the first number that differs. It is inlined into the
// search, which asks it at each step.
#[inline(always)]
fn is_before(path: &[i32], other: &[i32]) -> bool
    ensures { result ≡ is_lt (slice_cmp int_cmp path.now other.now) }
{
    for i in 0..path.len().min(other.len()) {
        if path[i] != other[i] {
            return path[i] < other[i];
        }
    }
    path.len() < other.len()
}

// How many locations have a smaller path, by binary search.
fn count_before(locations: &[Location], path: &[i32]) -> usize
    requires { AreByPath locations.now }
    ensures bound { result ≤ length locations.now }
    ensures before { AllWithin (λ l. ComesBefore l.path path.now) locations.now 0 result }
    ensures from { AllWithin (λ l. ComesBefore l.path path.now → ⊥)
        locations.now result (length locations.now) }
{
    locations.partition_point(|location| is_before(location.path.as_slice(), path))
}

// How many locations have a smaller path or this one, by binary search.
fn count_up_to(locations: &[Location], path: &[i32]) -> usize
    requires { AreByPath locations.now }
    ensures bound { result ≤ length locations.now }
    ensures up_to { AllWithin (λ l. ComesBefore path.now l.path → ⊥) locations.now 0 result }
    ensures behind { AllWithin (λ l. ComesBefore path.now l.path)
        locations.now result (length locations.now) }
{
    locations.partition_point(|location| location.path.as_slice().cmp(&path).is_le())
}

/// The indices in `info.location` of the locations with this path. The range is empty if there is
/// none; it then stands where such a location would.
///
/// The locations must be sorted by path: number by number, and a path before those that begin with
/// it. What `parse` answers is sorted so. The search takes no memory and cannot fail.
///
/// A path is made of field numbers of descriptor.proto and of indices. `[4, 0, 2, 1, 1]` is the
/// name (1) of the field (2) with index 1 in the message (4) with index 0:
///
/// ```
/// if let Some(info) = &file.source_code_info {
///     for location in &info.location.as_slice()[locate(info, &[4, 0, 2, 1, 1])] {
///         println!(rt; "{:?}", location.span)?;
///     }
/// }
/// ```
pub fn locate(info: &SourceCodeInfo, path: &[i32]) -> Range<usize>
    requires { AreByPath info.now.location }
    ensures start { result.start ≤ result.end }
    ensures end { result.end ≤ length info.now.location }
    // An index lies in the range exactly if its location has the path.
    ensures found { AreThoseAt info.now.location path.now result.start result.end }
    // Paths before the range are smaller, and those behind it are greater.
    ensures before { AllWithin (λ l. ComesBefore l.path path.now)
        info.now.location 0 result.start }
    ensures behind { AllWithin (λ l. ComesBefore path.now l.path)
        info.now.location result.end (length info.now.location) }
{
    let locations = info.location.as_slice();
    let start = count_before(locations, path);
    let end = count_up_to(locations, path);
    start..end
}

// The location at an index, if it has this path.
fn with_path<'a>(info: &'a SourceCodeInfo, at: usize, path: &[i32]) -> Option<&'a Location>
    ensures some { (l : Location) → slice_get info.now.location at ≡ Some l
        → option_copied result ≡ (if is_at path.now l then Some l else None) }
    ensures none { slice_get info.now.location at ≡ None → option_copied result ≡ None }
{
    let location = info.location.get(at)?;
    if location.path.as_slice() == path {
        Some(location)
    } else {
        None
    }
}

// The comments of a location; none if there is no location.
fn comments_of(location: Option<&Location>) -> LocationComments<'_>
    ensures leading { option_copied result.leading ≡ leading_of (option_copied location.entry) }
    ensures trailing { option_copied result.trailing ≡ trailing_of (option_copied location.entry) }
    ensures detached { result.leading_detached.now ≡ detached_of (option_copied location.entry) }
{
    match location {
        Some(location) => LocationComments {
            leading: location.leading_comments(),
            trailing: location.trailing_comments(),
            leading_detached: location.leading_detached_comments(),
        },
        None => LocationComments {
            leading: None,
            trailing: None,
            leading_detached: &[],
        },
    }
}

/// The first location with this path, or None. The locations must be sorted as `locate` needs them.
///
/// ```
/// // The comment on the first field of the first message.
/// let comment = location(info, &[4, 0, 2, 0]).and_then(|location| location.leading_comments());
/// ```
pub fn location<'a>(info: &'a SourceCodeInfo, path: &[i32]) -> Option<&'a Location>
    requires { AreByPath info.now.location }
    ensures { option_copied result ≡ first_at path.now info.now.location }
{
    let start = count_before(info.location.as_slice(), path);
    with_path(info, start, path)
}

/// The comments of a location, with the names that `SourceCodeInfo.Location` uses.
#[derive(Clone, Copy, Debug)]
pub struct LocationComments<'a> {
    /// The comment right before the declaration.
    pub leading: Option<&'a Text>,
    /// The comment right behind the declaration.
    pub trailing: Option<&'a Text>,
    /// The comments further before the declaration, in order.
    pub leading_detached: &'a [Text],
}

/// The comments of the first location with this path; none if there is no such location. The
/// locations must be sorted as `locate` needs them.
///
/// ```
/// if let Some(text) = comments(info, &[4, 0]).leading {
///     println!(rt; "{text}")?;
/// }
/// ```
pub fn comments<'a>(info: &'a SourceCodeInfo, path: &[i32]) -> LocationComments<'a>
    requires { AreByPath info.now.location }
    ensures leading { option_copied result.leading ≡ leading_of (first_at path.now info.now.location) }
    ensures trailing { option_copied result.trailing ≡ trailing_of (first_at path.now info.now.location) }
    ensures detached { result.leading_detached.now ≡ detached_of (first_at path.now info.now.location) }
{
    comments_of(location(info, path))
}
