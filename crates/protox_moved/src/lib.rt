//! The locations of statements of options, once the options are interpreted.
//!
//! In a file as `parse` answers it, a statement of an option is a part of the list
//! `uninterpreted_option`, and so are its locations. Interpreted, it sets a field of the options. Its
//! location then gets that field's path, and the locations of its parts go.
#![tactic(auto)]

ghost use Rattle.std.specs.Prelude.{◌≡◌, [], OnOk, OnErr};
ghost use Rattle.protox_places.specs.Order.{AreByPath};
ghost use Rattle.protox_moved.specs.Moved.{after_moves};

pub mod laws;
mod lookups;
mod steps;
mod straighten;

use crate::steps::rearrange;
use protox_descriptor::descriptor::SourceCodeInfo;
use protox_descriptor::values::{Items, Numbers};
use std::alloc::{AllocError, Global};
use std::mem;

/// A statement's path, and the path of the option that it sets. Both go from the file's descriptor.
#[derive(Drop)]
pub struct Move {
    /// The path of the statement, as `[8, 999, 0]` of the first one of a file.
    pub from: Numbers,
    /// The path of the option, as `[8, 1]` of a file's `java_package`.
    pub to: Numbers,
}

/// Makes the moves in the locations of a file.
///
/// A location with the path that a move begins at gets the path that it leads to, and is else
/// unchanged. If several moves begin there, the first counts. A location whose path begins with that
/// of a move and is longer is left out. All others stay. Then the locations are sorted by path, and
/// those of one path stay in the order in which they were.
///
/// The moves and the locations may be in any order. On `AllocError` no location is left. It takes a
/// number of comparisons of paths that grows as `n log n`, with `n` the number of locations and
/// moves.
///
/// ```
/// // The first statement of a file sets `java_package`.
/// let from = Numbers::few(&[8, 999, 0]);
/// let to = Numbers::few(&[8, 1]);
/// moves.push(Move { from, to })?;
/// move_locations(alloc, info, moves)?;
/// ```
pub fn move_locations(
    alloc: Global,
    info: &mut SourceCodeInfo,
    moves: Vec<Move>,
) -> Result<(), AllocError>
    ensures ok { OnOk result (info.new.location ≡ after_moves moves.items info.old.location) }
    // So the search by path finds them, whatever they were before.
    ensures sorted { OnOk result (AreByPath info.new.location) }
    ensures err { OnErr result (info.new.location ≡ []) }
{
    let mut moves = moves;
    let mut locations = mem::replace(&mut info.location, Items::new(alloc)).into_vec();
    match rearrange(alloc, &mut moves, &mut locations) {
        Ok(()) => {
            info.location = Items::from_vec(locations);
            Ok(())
        }
        Err(error) => Err(error),
    }
}
