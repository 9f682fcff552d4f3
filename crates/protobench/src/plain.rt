//! Large sources of plain fields, as generators write them.

use crate::draw::Draw;
use crate::names::{WORDS, push_field_name, push_number, push_type, push_type_name};
use std::alloc::{AllocError, Global};

/// A source with some messages of plain fields.
pub fn source(alloc: Global, draw: &mut Draw, messages: u32) -> Result<String, AllocError> {
    let mut out = String::new(alloc);
    out.push_str("syntax = \"proto3\";\n\npackage acme.tables.")?;
    out.push_str(draw.pick_of_many(&WORDS))?;
    out.push_str(";\n\n")?;
    for number in 0..messages {
        push_message(&mut out, draw, number)?;
    }
    Ok(out)
}

fn push_message(out: &mut String, draw: &mut Draw, number: u32) -> Result<(), AllocError> {
    out.push_str("message ")?;
    push_type_name(out, draw, number)?;
    out.push_str(" {\n")?;
    let last = 4 + draw.up_to(30);
    for field in 0..last {
        out.push_str("  ")?;
        push_type(out, draw)?;
        out.push_str(" ")?;
        push_field_name(out, draw, field)?;
        out.push_str(" = ")?;
        push_number(out, field + 1)?;
        out.push_str(";\n")?;
    }
    out.push_str("}\n\n")?;
    Ok(())
}
