//! Locations and moves, from words.

use protox_descriptor::descriptor::SourceCodeInfo;
use protox_descriptor::descriptor::source_code_info::Location;
use protox_descriptor::values::Numbers;
use protox_moved::Move;
use std::alloc::{AllocError, Global};

// A path from its numbers. A word that is no number counts as none.
fn path_of(alloc: Global, word: &str) -> Result<Numbers, AllocError> {
    let mut numbers = Vec::new(alloc);
    for digits in word.split(',') {
        if let Ok(number) = digits.parse::<i32>() {
            numbers.push(number)?;
        }
    }
    Ok(Numbers::from_vec(numbers))
}

// A location whose span says which of the given ones it is.
fn location_of(alloc: Global, word: &str, place: usize) -> Result<Location, AllocError> {
    let path = path_of(alloc, word)?;
    let place = i32::try_from(place).unwrap_or(i32::MAX);
    Ok(Location::bare(path, Numbers::few(&[place])))
}

/// Locations from their paths.
pub(crate) fn info_of(alloc: Global, words: &str) -> Result<SourceCodeInfo, AllocError> {
    let mut info = SourceCodeInfo::new(alloc);
    for word in words.split(' ') {
        if !word.is_empty() {
            let place = info.location.len();
            info.location.push(location_of(alloc, word, place)?)?;
        }
    }
    Ok(info)
}

fn move_of(alloc: Global, word: &str) -> Result<Move, AllocError> {
    let (from, to) = word.split_once('>').unwrap_or((word, ""));
    let from = path_of(alloc, from)?;
    let to = path_of(alloc, to)?;
    Ok(Move { from, to })
}

/// Moves from their paths.
pub(crate) fn moves_of(alloc: Global, words: &str) -> Result<Vec<Move>, AllocError> {
    let mut moves = Vec::new(alloc);
    for word in words.split(' ') {
        if !word.is_empty() {
            moves.push(move_of(alloc, word)?)?;
        }
    }
    Ok(moves)
}
