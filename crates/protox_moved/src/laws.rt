//! A law of the moves. It is a function that does nothing. Its contract is the law.

ghost use Rattle.protox_moved.specs.Moved.{NothingMoves};

/// Locations that are sorted by path stay as they are, all of them, if no move begins at the path of
/// one or at a path that it begins with.
#[tactic(auto, using(crate::proofs::SortedList::nothing_moved))]
pub fn nothing_moves()
    ensures { NothingMoves }
{}
