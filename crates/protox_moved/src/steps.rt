//! The steps of a move: the parts of statements go, the statements get their new paths, and the
//! locations are sorted again.

ghost use Rattle.std.specs.Prelude.{◌≡◌, map, not, OnOk};
ghost use Rattle.std.specs.List.{filter};
ghost use Rattle.protox_moved.specs.Moved.{after_moves, is_part, moved, sorted_by_path};
ghost use Rattle.protox_moved.specs.inner.Sorting.{AreApart, AreByStart};

use crate::Move;
use crate::lookups::{find_move, is_below_any, keep_outermost, sort_moves};
use crate::straighten::straighten;
use protox_descriptor::descriptor::source_code_info::Location;
use protox_descriptor::values::Numbers;
use std::alloc::{AllocError, Global};

// Leaves out the locations of parts of statements.
fn drop_parts(moves: &[Move], locations: &mut Vec<Location>)
    requires sorted { AreByStart moves.now }
    requires apart { AreApart moves.now }
    ensures { locations.new.items ≡ filter (λ l. not (is_part moves.now l)) locations.old.items }
{
    let mut near = 0;
    locations.retain(
        |location|
            requires sorted { AreByStart moves.now }
            requires apart { AreApart moves.now }
            ensures is { result ≡ not (is_part moves.entry.now location.now) }
            ensures same { moves.exit ≡ moves.entry }
        { !is_below_any(moves, &mut near, location.path.as_slice()) },
    );
}

// Gives a location its new path, if it has one. `near` tells where the last one was looked for.
fn give_path(
    alloc: Global,
    moves: &[Move],
    near: &mut usize,
    location: &mut Location,
) -> Result<(), AllocError>
    requires { AreByStart moves.now }
    ensures { OnOk result (location.new ≡ moved moves.now location.old) }
{
    if let Some(found) = find_move(moves, near, location.path.as_slice()) {
        location.path = Numbers::from_slice(alloc, found.to.as_slice())?;
    }
    Ok(())
}

// Gives each location its new path.
fn give_paths(alloc: Global, moves: &[Move], locations: &mut [Location]) -> Result<(), AllocError>
    requires { AreByStart moves.now }
    ensures { OnOk result (locations.new ≡ map (moved moves.now) locations.old) }
{
    let mut near = 0;
    for location in locations.iter_mut() {
        give_path(alloc, moves, &mut near, location)?;
    }
    Ok(())
}

// Sorts the locations by path.
fn sort_locations(locations: &mut Vec<Location>) -> Result<(), AllocError>
    ensures { OnOk result (locations.new.items ≡ sorted_by_path locations.old.items) }
{
    straighten(locations.as_mut_slice());
    locations.sort_by(|a, b| a.path.as_slice().cmp(&b.path.as_slice()))
}

// All steps, one after another. Without a move only the last of them does anything.
pub(crate) fn rearrange(
    alloc: Global,
    moves: &mut Vec<Move>,
    locations: &mut Vec<Location>,
) -> Result<(), AllocError>
    ensures { OnOk result
        (locations.new.items ≡ after_moves moves.old.items locations.old.items) }
{
    let count = moves.as_slice().len();
    if count == 0 {
        return sort_locations(locations);
    }
    sort_moves(moves)?;
    keep_outermost(moves);
    drop_parts(moves.as_slice(), locations);
    give_paths(alloc, moves.as_slice(), locations.as_mut_slice())?;
    sort_locations(locations)
}
