//! Where the locations of the statements of an options message go.

ghost use Rattle.std.specs.Prelude.{◌≡◌, ◌++◌, ◌∷◌, [], ◌+◌, ℕ, IfOk, List, OnOk, map, pos, if◌then◌else◌};
ghost use Rattle.protox_file_options.specs.Moves.{is_path, move_at, moves_of, path_below};
ghost use Rattle.protox_file_options.specs.inner.Counts.{count_in};
ghost use Rattle.protox_interpret.specs.Answers.{path_seen};

use protox_descriptor::tag::UNINTERPRETED_OPTION;
use protox_descriptor::values::Numbers;
use protox_interpret::SetPath;
use protox_moved::Move;
use std::alloc::{AllocError, Global};
use std::collections::BTreeMap;

// A number of a path. A greater one is in no path.
fn as_number(n: usize) -> Result<i32, AllocError>
    ensures { IfOk result (λ number. number ≡ pos n) }
{
    if n > 2147483647 {
        return Err(AllocError);
    }
    Ok(n as i32)
}

// Counts a value of the field at a path. Gives its index among the values of the field.
fn next_index<'a>(
    counts: &mut BTreeMap<&'a [u32], usize>,
    path: &'a [u32],
) -> Result<usize, AllocError>
    ensures index { IfOk result (λ index. index ≡ count_in counts.old path.now) }
    ensures counts { OnOk result ((q : List ℕ) → count_in counts.new q
        ≡ (if is_path path.now q then count_in counts.old q + 1 else count_in counts.old q)) }
{
    let index = counts.get(path).copied().unwrap_or(0);
    let Some(next) = index.checked_add(1) else {
        return Err(AllocError);
    };
    counts.insert(path, next)?;
    Ok(index)
}

// The path of a field of the options message.
fn field_path(alloc: Global, options: &[i32], path: &[u32]) -> Result<Vec<i32>, AllocError>
    ensures { IfOk result (λ made. made.items ≡ options.now ++ map pos path.now) }
{
    let mut made = Vec::with_capacity(alloc, options.len())?;
    made.extend_from_slice(options)?;
    for number in path {
        made.push(as_number(*number as usize)?)?;
    }
    Ok(made)
}

// The path of what a statement sets, where this is its index among the values of the field.
fn path_of(
    alloc: Global,
    options: &[i32],
    set: &SetPath,
    index: usize,
) -> Result<Numbers, AllocError>
    ensures { IfOk result (λ made. made ≡ options.now ++ path_below index (path_seen set.now)) }
{
    let mut path = field_path(alloc, options, set.path.as_slice())?;
    if set.repeated {
        path.push(as_number(index)?)?;
    }
    Ok(Numbers::from_vec(path))
}

// The move of a statement, where this is its index among the values of the field.
fn move_of(
    alloc: Global,
    options: &[i32],
    number: usize,
    set: &SetPath,
    index: usize,
) -> Result<Move, AllocError>
    ensures { IfOk result (λ made. made
        ≡ move_at options.now number (path_below index (path_seen set.now))) }
{
    let number = as_number(number)?;
    let from = Numbers::joined(alloc, options, &[UNINTERPRETED_OPTION, number])?;
    let to = path_of(alloc, options, set, index)?;
    Ok(Move { from, to })
}

// Adds the moves of the statements of the options message at a path, where these are the fields that
// they set.
pub(crate) fn add_moves(
    alloc: Global,
    options: &[i32],
    sets: &[SetPath],
    moves: &mut Vec<Move>,
) -> Result<(), AllocError>
    ensures { OnOk result (moves.new.items
        ≡ moves.old.items ++ moves_of options.now (map path_seen sets.now)) }
{
    let mut counts = BTreeMap::new(alloc);
    for (number, set) in sets.iter().enumerate() {
        let index = next_index(&mut counts, set.path.as_slice())?;
        moves.push(move_of(alloc, options, number, set, index)?)?;
    }
    Ok(())
}
