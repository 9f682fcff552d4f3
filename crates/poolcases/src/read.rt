//! Locations from words.

use protox_descriptor::values::{Items, Text};
use protox_pool::{LocationComments, LocationPool};
use std::alloc::{AllocError, Global};

// Numbers with commas between them. A word that is no number counts as none.
fn numbers_of(alloc: Global, word: &str) -> Result<Vec<i32>, AllocError> {
    let mut numbers = Vec::new(alloc);
    for digits in word.split(',') {
        if let Ok(number) = digits.parse::<i32>() {
            numbers.push(number)?;
        }
    }
    Ok(numbers)
}

// A comment; none if the word is `-`.
fn comment_of(alloc: Global, word: &str) -> Result<Option<Text>, AllocError> {
    if word == "-" {
        return Ok(None);
    }
    Ok(Some(Text::copy(alloc, word)?))
}

// Comments with spaces between them.
fn comments_of(alloc: Global, words: &str) -> Result<LocationComments, AllocError> {
    let (leading, more) = words.split_once(' ').unwrap_or((words, "-"));
    let (trailing, more) = more.split_once(' ').unwrap_or((more, ""));
    let mut detached = Items::new(alloc);
    for word in more.split(' ') {
        if !word.is_empty() {
            detached.push(Text::copy(alloc, word)?)?;
        }
    }
    let leading = comment_of(alloc, leading)?;
    let trailing = comment_of(alloc, trailing)?;
    Ok(LocationComments {
        leading,
        trailing,
        detached,
    })
}

/// Adds the location of a line.
pub(crate) fn add_line(
    alloc: Global,
    pool: &mut LocationPool,
    line: &str,
) -> Result<(), AllocError> {
    let (path, more) = line.split_once(' ').unwrap_or((line, "-"));
    let (tags, more) = more.split_once(' ').unwrap_or((more, "-"));
    let path = numbers_of(alloc, path)?;
    let tags = numbers_of(alloc, tags)?;
    match more.split_once(' ') {
        None => {
            let span = numbers_of(alloc, more)?;
            pool.push(path.as_slice(), tags.as_slice(), span.as_slice())
        }
        Some((span, comments)) => {
            let span = numbers_of(alloc, span)?;
            let comments = comments_of(alloc, comments)?;
            pool.push_commented(path.as_slice(), tags.as_slice(), span.as_slice(), comments)
        }
    }
}
