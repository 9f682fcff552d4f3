//! The paths that a setting sets.

ghost use Rattle.std.specs.Prelude.{◌≡◌, ◌≢◌, ℕ, List, Some, [], ◌∷◌, ◌||◌, IfOk, OnOk};
ghost use Rattle.protox_interpret.specs.Settings.{paths_from};
ghost use Rattle.protox_set_paths.specs.Paths.{is_set, path_of};

use protox_message_bytes::Entry;
use protox_set_paths::SetTree;
use std::alloc::{AllocError, Global};

// Adds a path, and gives its place.
pub(crate) fn add_path(set: &mut SetTree, path: &[u32]) -> Result<usize, AllocError>
    ensures place { IfOk result (λ place. path_of set.new place ≡ Some path.now) }
    ensures set { path.now ≢ [] → IfOk result (λ place. (q : List ℕ) → is_set set.new q
        ≡ (is_set (path.now ∷ []) q || is_set set.old q)) }
{
    let mut place = 0;
    for number in path {
        place = set.enter(place, *number)?;
    }
    Ok(place)
}

// Adds the paths to what stands in a message, which stands at a place itself.
pub(crate) fn add_inside(
    alloc: Global,
    set: &mut SetTree,
    place: usize,
    entries: &[Entry],
) -> Result<(), AllocError>
    ensures { (path : List ℕ) → path_of set.old place ≡ Some path → OnOk result ((q : List ℕ)
        → is_set set.new q ≡ (is_set (paths_from (path ∷ []) entries.now) q || is_set set.old q)) }
{
    let mut open = Vec::new(alloc);
    let mut top = place;
    for entry in entries {
        match entry {
            Entry::Value(number, _, _) => {
                set.enter(top, *number)?;
            }
            Entry::Open(number, _) => {
                open.push(top)?;
                top = set.enter(top, *number)?;
            }
            Entry::Close => match open.pop() {
                Some(outer) => top = outer,
                None => return Ok(()),
            },
        }
    }
    Ok(())
}
