//! Moves sorted by where they begin, and the search among them.

ghost use Rattle.std.specs.Prelude.{◌≡◌, ℕ, ℤ, ◌≤◌, ◌<◌, ◌-◌, true, false, if◌then◌else◌, List, Some, None, length, slice_get, slice_index_or, OnOk};
ghost use Rattle.std.specs.Cmp.Lexicographic.{pointwise};
ghost use Rattle.std.specs.List.{AllWithin, find, list_any};
ghost use Rattle.std.specs.Option.{option_copied};
ghost use Rattle.std.specs.Ordering.{int_eq};
ghost use Rattle.protox_moved.specs.Moved.{is_below, new_path};
ghost use Rattle.protox_moved.specs.inner.Sorting.{AreApart, AreByStart, is_before, is_start};

use crate::Move;
use std::alloc::AllocError;

// Sorts the moves by where they begin. The first of those that begin at one path stays the first of
// them, so the sorted moves say the same.
pub(crate) fn sort_moves(moves: &mut Vec<Move>) -> Result<(), AllocError>
    ensures sorted { OnOk result (AreByStart moves.new.items) }
    ensures paths { (path : List ℤ)
        → new_path moves.new.items path ≡ new_path moves.old.items path }
    ensures parts { (path : List ℤ) → list_any (λ m. is_below m.from path) moves.new.items
        ≡ list_any (λ m. is_below m.from path) moves.old.items }
{
    moves.sort_by(|a, b| a.from.as_slice().cmp(&b.from.as_slice()))
}

// Whether a move begins at a smaller path.
fn is_before(m: &Move, path: &[i32]) -> bool
    ensures { result ≡ is_before m.now.from path.now }
{
    m.from.as_slice().cmp(&path).is_lt()
}

// Whether so many moves begin at a smaller path.
fn is_count(moves: &[Move], count: usize, path: &[i32]) -> bool
    ensures bound { result ≡ true → count ≤ length moves.now }
    ensures last { result ≡ true → (m : Move) → 0 < count
        → is_before (slice_index_or moves.now (count - 1) m).from path.now ≡ true }
    ensures next { result ≡ true → (m : Move) → count < length moves.now
        → is_before (slice_index_or moves.now count m).from path.now ≡ false }
{
    if count > moves.len() || count > 0 && !is_before(&moves[count - 1], path) {
        return false;
    }
    count == moves.len() || !is_before(&moves[count], path)
}

// How many moves begin at a smaller path, by binary search.
fn search_count(moves: &[Move], path: &[i32]) -> usize
    requires { AreByStart moves.now }
    ensures bound { result ≤ length moves.now }
    ensures before { AllWithin (λ m. is_before m.from path.now ≡ true) moves.now 0 result }
    ensures from { AllWithin (λ m. is_before m.from path.now ≡ false)
        moves.now result (length moves.now) }
{
    moves.partition_point(|m| is_before(m, path))
}

// How many moves begin at a smaller path. `near` is the last answer: it or the next number is mostly
// the answer again, as locations stand by path.
fn count_before(moves: &[Move], near: &mut usize, path: &[i32]) -> usize
    requires { AreByStart moves.now }
    ensures bound { result ≤ length moves.now }
    ensures before { AllWithin (λ m. is_before m.from path.now ≡ true) moves.now 0 result }
    ensures from { AllWithin (λ m. is_before m.from path.now ≡ false)
        moves.now result (length moves.now) }
{
    let next = near.saturating_add(1);
    if is_count(moves, *near, path) {
        return *near;
    }
    *near = if is_count(moves, next, path) {
        next
    } else {
        search_count(moves, path)
    };
    *near
}

// The move at an index, if it begins at this path.
fn with_start<'a>(moves: &'a [Move], at: usize, path: &[i32]) -> Option<&'a Move>
    ensures some { (m : Move) → slice_get moves.now at ≡ Some m
        → option_copied result ≡ (if pointwise int_eq m.from path.now then Some m else None) }
    ensures none { slice_get moves.now at ≡ None → option_copied result ≡ None }
{
    let found = moves.get(at)?;
    if found.from.as_slice() == path {
        Some(found)
    } else {
        None
    }
}

// The first move that begins at this path. `near` tells where the last one was looked for.
pub(crate) fn find_move<'a>(moves: &'a [Move], near: &mut usize, path: &[i32]) -> Option<&'a Move>
    requires { AreByStart moves.now }
    ensures { option_copied result ≡ find (λ m. pointwise int_eq m.from path.now) moves.now }
{
    let at = count_before(moves, near, path);
    with_start(moves, at, path)
}

// Whether a path begins with these numbers.
fn begins_with(path: &[i32], front: &[i32]) -> bool
    ensures { result ≡ is_start front.now path.now }
{
    path.starts_with(front)
}

// Leaves out the moves that begin at or below the start of one before them. What they would move is
// moved by that one, or left out.
pub(crate) fn keep_outermost(moves: &mut Vec<Move>)
    requires { AreByStart moves.old.items }
    ensures sorted { AreByStart moves.new.items }
    ensures apart { AreApart moves.new.items }
    ensures parts { (path : List ℤ) → list_any (λ m. is_below m.from path) moves.new.items
        ≡ list_any (λ m. is_below m.from path) moves.old.items }
    ensures paths { (path : List ℤ) → list_any (λ m. is_below m.from path) moves.old.items ≡ false
        → new_path moves.new.items path ≡ new_path moves.old.items path }
{
    moves.dedup_by(|later, kept| begins_with(later.from.as_slice(), kept.from.as_slice()));
}

// Whether a path lies below the start of a move. It can only be that of the last move that begins
// before the path. For all paths between a start and one below it lie below that start, too, and no
// move begins there. `near` tells where the last path was looked for.
pub(crate) fn is_below_any(moves: &[Move], near: &mut usize, path: &[i32]) -> bool
    requires sorted { AreByStart moves.now }
    requires apart { AreApart moves.now }
    ensures { result ≡ list_any (λ m. is_below m.from path.now) moves.now }
{
    let at = count_before(moves, near, path);
    if at == 0 {
        return false;
    }
    begins_with(path, moves[at - 1].from.as_slice())
}
