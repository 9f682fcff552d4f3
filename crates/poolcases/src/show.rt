//! Locations as words.

use protox_descriptor::descriptor::source_code_info::Location;
use protox_descriptor::values::Text;
use protox_pool::PooledLocation;
use std::alloc::{AllocError, Global};

// Appends numbers with commas between them; `-` if there are none.
fn push_numbers(alloc: Global, text: &mut String, numbers: &[i32]) -> Result<(), AllocError> {
    if numbers.is_empty() {
        return text.push_str("-");
    }
    for (i, number) in numbers.iter().enumerate() {
        if i > 0 {
            text.push_str(",")?;
        }
        let digits = format!(in alloc; "{number}")?;
        text.push_str(digits.as_str())?;
    }
    Ok(())
}

// Appends a space and a comment; `-` if there is none.
fn push_comment(text: &mut String, comment: Option<&Text>) -> Result<(), AllocError> {
    text.push_str(" ")?;
    match comment {
        Some(comment) => text.push_str(comment.as_str()),
        None => text.push_str("-"),
    }
}

// A line with the parts of a location.
fn line(
    alloc: Global,
    path: &[i32],
    span: &[i32],
    leading: Option<&Text>,
    trailing: Option<&Text>,
    detached: &[Text],
) -> Result<String, AllocError> {
    let mut text = String::new(alloc);
    push_numbers(alloc, &mut text, path)?;
    text.push_str(" ")?;
    push_numbers(alloc, &mut text, span)?;
    push_comment(&mut text, leading)?;
    push_comment(&mut text, trailing)?;
    for comment in detached {
        push_comment(&mut text, Some(comment))?;
    }
    text.push_str("\n")?;
    Ok(text)
}

/// A location that a pool lends.
pub(crate) fn shown_lent(
    alloc: Global,
    location: &PooledLocation<'_>,
) -> Result<String, AllocError> {
    line(
        alloc,
        location.path,
        location.span,
        location.leading_comments(),
        location.trailing_comments(),
        location.leading_detached_comments(),
    )
}

/// A location of a descriptor.
pub(crate) fn shown(alloc: Global, location: &Location) -> Result<String, AllocError> {
    line(
        alloc,
        location.path.as_slice(),
        location.span.as_slice(),
        location.leading_comments(),
        location.trailing_comments(),
        location.leading_detached_comments(),
    )
}
