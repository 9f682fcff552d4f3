//! Locations as words.

use protox_descriptor::descriptor::source_code_info::Location;
use std::alloc::{AllocError, Global};

// Appends numbers with commas between them; `-` if there are none.
fn push_numbers(alloc: Global, text: &mut String, numbers: &[i32]) -> Result<(), AllocError> {
    if numbers.is_empty() {
        return text.push_str("-");
    }
    for (i, number) in numbers.iter().enumerate() {
        if i > 0 {
            text.push_str(",")?;
        }
        let digits = format!(in alloc; "{number}")?;
        text.push_str(digits.as_str())?;
    }
    Ok(())
}

/// The path of each location and which of the given ones it is.
pub(crate) fn shown(alloc: Global, locations: &[Location]) -> Result<String, AllocError> {
    let mut text = String::new(alloc);
    for (i, location) in locations.iter().enumerate() {
        if i > 0 {
            text.push_str(" ")?;
        }
        push_numbers(alloc, &mut text, location.path.as_slice())?;
        text.push_str(":")?;
        push_numbers(alloc, &mut text, location.span.as_slice())?;
    }
    Ok(text)
}
