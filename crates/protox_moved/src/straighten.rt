//! Locations of which most stand where they belong.

ghost use Rattle.std.specs.Prelude.{◌≡◌, ◌<◌, length};
ghost use Rattle.std.specs.List.Sorted.{IsStableBy};
ghost use Rattle.protox_moved.specs.inner.Sorting.{comes_before};

use protox_descriptor::descriptor::source_code_info::Location;

// How many places a location goes to the front, at most.
const NEAR: usize = 16;

// Whether the one location has a smaller path than the other.
fn comes_before(one: &Location, other: &Location) -> bool
    ensures { result ≡ comes_before one.now other.now }
{
    one.path.as_slice().cmp(&other.path.as_slice()).is_lt()
}

// Takes the location at an index past those before it that have greater paths, if these are few.
fn sink(locations: &mut [Location], index: usize)
    requires { index < length locations.old }
    ensures stable { IsStableBy comes_before locations.old locations.new }
    ensures len { length locations.new ≡ length locations.old }
{
    let mut at = index;
    for _ in 0..NEAR {
        if at == 0 || !comes_before(&locations[at], &locations[at - 1]) {
            return;
        }
        locations.swap(at - 1, at);
        at -= 1;
    }
}

/// Takes each location past those before it that have greater paths, if these are few. Locations of
/// one path stay in their order. The statements of one part are few and stand together, so behind
/// this most lists are sorted, and a sort only finds that they are.
pub(crate) fn straighten(locations: &mut [Location])
    ensures stable { IsStableBy comes_before locations.old locations.new }
    ensures len { length locations.new ≡ length locations.old }
{
    for index in 0..locations.len() {
        sink(locations, index);
    }
}
