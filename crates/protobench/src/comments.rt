//! Comments of declarations.

use crate::draw::Draw;
use crate::names::{PHRASES, TYPES, WORDS};
use std::alloc::AllocError;

// Adds some words.
fn push_words(out: &mut String, draw: &mut Draw, count: u32) -> Result<(), AllocError> {
    out.push_str(draw.pick_of_many(&TYPES))?;
    for _ in 0..count {
        out.push_str(draw.pick(&PHRASES))?;
        out.push_str(draw.pick_of_many(&WORDS))?;
    }
    Ok(())
}

/// Adds a comment of lines that begin with `//`, each indented, or a comment between `/*` and `*/`.
pub fn push_comment(
    out: &mut String,
    draw: &mut Draw,
    indent: &str,
    lines: u32,
) -> Result<(), AllocError> {
    if draw.chance(8) {
        out.push_str(indent)?;
        out.push_str("/* ")?;
        push_words(out, draw, 1)?;
        out.push_str("\n")?;
        out.push_str(indent)?;
        out.push_str(" * ")?;
        push_words(out, draw, 2)?;
        out.push_str(" */\n")?;
        return Ok(());
    }
    for _ in 0..lines {
        out.push_str(indent)?;
        out.push_str("// ")?;
        push_words(out, draw, 1)?;
        out.push_str(".\n")?;
    }
    Ok(())
}

/// Adds the end of a line; by chance with a comment before it.
pub fn push_line_end(out: &mut String, draw: &mut Draw, share: u64) -> Result<(), AllocError> {
    if draw.chance(share) {
        out.push_str("  // ")?;
        push_words(out, draw, 1)?;
    }
    out.push_str("\n")?;
    Ok(())
}
