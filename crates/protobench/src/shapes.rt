//! Large sources of awkward shapes.

use crate::draw::Draw;
use crate::names::{WORDS, push_field_name, push_number};
use std::alloc::{AllocError, Global};

/// What the source is made of.
#[derive(Clone, Copy)]
pub enum Shape {
    /// An enum with very many values.
    Values,
    /// Messages in messages, 25 deep.
    Deep,
    /// Aggregates with many parts.
    Aggregates,
    /// Strings with escapes, many for one value.
    Strings,
    /// Long names of many parts.
    Dotted,
    /// Lines without anything, and long comments.
    Blank,
    /// Words in which no file can go on, at each line.
    Refused,
    /// Characters that begin no token.
    Invalid,
}

impl Shape {
    /// The shape of a number, by turns.
    pub fn of(number: u32) -> Shape {
        match number % 8 {
            0 => Shape::Values,
            1 => Shape::Deep,
            2 => Shape::Aggregates,
            3 => Shape::Strings,
            4 => Shape::Dotted,
            5 => Shape::Blank,
            6 => Shape::Refused,
            _ => Shape::Invalid,
        }
    }
}

fn push_value(out: &mut String, draw: &mut Draw, number: u32) -> Result<(), AllocError> {
    out.push_str("  V")?;
    push_number(out, number)?;
    out.push_str(if draw.chance(30) { " = -" } else { " = " })?;
    push_number(out, number)?;
    out.push_str(";\n")?;
    Ok(())
}

fn push_deep(out: &mut String, draw: &mut Draw, number: u32) -> Result<(), AllocError> {
    for level in 0..25 {
        out.push_str("message M")?;
        push_number(out, number)?;
        out.push_str("L")?;
        push_number(out, level)?;
        out.push_str(" { string ")?;
        push_field_name(out, draw, 1)?;
        out.push_str(" = 1; ")?;
    }
    for _ in 0..25 {
        out.push_str("}")?;
    }
    out.push_str("\n")?;
    Ok(())
}

fn push_aggregate(out: &mut String, draw: &mut Draw, number: u32) -> Result<(), AllocError> {
    out.push_str("option (acme.table) = {\n")?;
    for part in 0..40 {
        out.push_str("  row { key: \"")?;
        out.push_str(draw.pick_of_many(&WORDS))?;
        out.push_str("\" values: [")?;
        push_number(out, number)?;
        out.push_str(", -1.5, inf, 0x1F] [acme.inner]: < part: ")?;
        push_number(out, part)?;
        out.push_str(" > }\n")?;
    }
    out.push_str("};\n")?;
    Ok(())
}

fn push_strings(out: &mut String, draw: &mut Draw, number: u32) -> Result<(), AllocError> {
    out.push_str("option (acme.text) =\n")?;
    for _ in 0..20 {
        out.push_str("    \"\\n\\t\\x41\\101 a line of the text about the ")?;
        out.push_str(draw.pick_of_many(&WORDS))?;
        out.push_str(", with \\\"quotes\\\" \\u00e9 and 'more' \u{e9}\u{1f600}\"\n")?;
    }
    out.push_str("    '")?;
    push_number(out, number)?;
    out.push_str("';\n")?;
    Ok(())
}

fn push_dotted(out: &mut String, draw: &mut Draw, number: u32) -> Result<(), AllocError> {
    out.push_str("message D")?;
    push_number(out, number)?;
    out.push_str(" { .")?;
    for _ in 0..30 {
        out.push_str(draw.pick_of_many(&WORDS))?;
        out.push_str(".")?;
    }
    out.push_str("Last field = 1; }\n")?;
    Ok(())
}

fn push_blank(out: &mut String, draw: &mut Draw, number: u32) -> Result<(), AllocError> {
    for _ in 0..200 {
        out.push_str("\n")?;
    }
    out.push_str("/* The text of a long comment about the ")?;
    for _ in 0..40 {
        out.push_str(draw.pick_of_many(&WORDS))?;
        out.push_str(",\r\n    ")?;
    }
    out.push_str("*/\n\n\t\t\t\t\t\t// detached\n\n// leading\nmessage B")?;
    push_number(out, number)?;
    out.push_str(" {} // behind\n")?;
    Ok(())
}

fn push_refused(out: &mut String, draw: &mut Draw, number: u32) -> Result<(), AllocError> {
    out.push_str("message R")?;
    push_number(out, number)?;
    out.push_str(" { string ")?;
    out.push_str(draw.pick_of_many(&WORDS))?;
    out.push_str(" 1; }\n")?;
    Ok(())
}

fn push_invalid(out: &mut String, draw: &mut Draw, number: u32) -> Result<(), AllocError> {
    out.push_str("message I")?;
    push_number(out, number)?;
    out.push_str(" { string ")?;
    out.push_str(draw.pick_of_many(&WORDS))?;
    out.push_str(" = 1; } $$$ @ 08 \"\n")?;
    Ok(())
}

// Adds one part of the source.
fn push_part(
    out: &mut String,
    draw: &mut Draw,
    shape: Shape,
    number: u32,
) -> Result<(), AllocError> {
    match shape {
        Shape::Values => push_value(out, draw, number),
        Shape::Deep => push_deep(out, draw, number),
        Shape::Aggregates => push_aggregate(out, draw, number),
        Shape::Strings => push_strings(out, draw, number),
        Shape::Dotted => push_dotted(out, draw, number),
        Shape::Blank => push_blank(out, draw, number),
        Shape::Refused => push_refused(out, draw, number),
        Shape::Invalid => push_invalid(out, draw, number),
    }
}

/// A source of this shape with at least so many bytes.
pub fn source(
    alloc: Global,
    draw: &mut Draw,
    shape: Shape,
    bytes: usize,
) -> Result<String, AllocError> {
    let mut out = String::new(alloc);
    out.push_str("syntax = \"proto2\";\n")?;
    if let Shape::Values = shape {
        out.push_str("enum Values {\n  NONE = 0;\n")?;
    }
    for number in 1..1_000_000 {
        if out.len() >= bytes {
            break;
        }
        push_part(&mut out, draw, shape, number)?;
    }
    if let Shape::Values = shape {
        out.push_str("}\n")?;
    }
    Ok(out)
}
