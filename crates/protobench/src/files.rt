//! Whole sources, as schemas in the field are written.

use crate::comments::push_comment;
use crate::draw::Draw;
use crate::members::{Style, push_enum, push_field, push_oneof, push_service};
use crate::names::{push_field_name, push_number, push_type_name};
use std::alloc::{AllocError, Global};

const LICENSE: &str =
    "// Copyright the authors of this directory.\n//\n// Licensed under the terms of the directory; you may not use this file except in\n// compliance with them. You may obtain a copy of the terms where the directory is kept.\n// They come WITHOUT WARRANTIES OR CONDITIONS OF ANY KIND, either express or implied.\n\n";

const IMPORTS: &str =
    "import \"google/api/annotations.proto\";\nimport \"google/api/field_behavior.proto\";\nimport \"google/protobuf/timestamp.proto\";\nimport public \"google/protobuf/duration.proto\";\n\noption cc_enable_arenas = true;\noption go_package = \"example.com/directory/apiv1;directory\";\noption java_multiple_files = true;\noption java_package = \"com.example.directory.v1\";\n\n";

// Adds what stands before the declarations.
fn push_head(out: &mut String, draw: &mut Draw, style: &Style) -> Result<(), AllocError> {
    out.push_str(LICENSE)?;
    if style.proto2 {
        out.push_str("syntax = \"proto2\";\n\npackage acme.directory.")?;
    } else {
        out.push_str("syntax = \"proto3\";\n\npackage acme.directory.")?;
    }
    push_field_name(out, draw, 1)?;
    out.push_str(";\n\n")?;
    out.push_str(IMPORTS)?;
    Ok(())
}

// Adds a message that stands in a message.
fn push_inner(
    out: &mut String,
    draw: &mut Draw,
    style: &Style,
    number: u32,
) -> Result<(), AllocError> {
    push_comment(out, draw, "  ", 1)?;
    out.push_str("  message ")?;
    push_type_name(out, draw, number)?;
    out.push_str(" {\n")?;
    let last = 1 + draw.up_to(5);
    for field in 0..last {
        push_field(out, draw, style, "    ", field + 1)?;
    }
    out.push_str("  }\n\n")?;
    Ok(())
}

// Adds what is reserved in a message, and in proto2 what others may extend.
fn push_reserved(out: &mut String, style: &Style, number: u32) -> Result<(), AllocError> {
    out.push_str("  reserved 1000 to 1010, 2000;\n  reserved \"old_name\", \"older_name\";\n")?;
    if style.proto2 {
        out.push_str(
            "  extensions 5000 to max;\n  extend google.protobuf.MessageOptions {\n    optional int32 level_",
        )?;
        push_number(out, number)?;
        out.push_str(" = 50001;\n  }\n")?;
    }
    Ok(())
}

/// Adds a message.
pub fn push_message(
    out: &mut String,
    draw: &mut Draw,
    style: &Style,
    number: u32,
) -> Result<(), AllocError> {
    if draw.chance(style.comments) {
        push_comment(out, draw, "", 2)?;
    }
    out.push_str("message ")?;
    push_type_name(out, draw, number)?;
    out.push_str(" {\n")?;
    if draw.chance(20) {
        push_enum(out, draw, style, "  ", number)?;
    }
    if draw.chance(20) {
        push_inner(out, draw, style, number)?;
    }
    let last = 2 + draw.up_to(12);
    for field in 0..last {
        push_field(out, draw, style, "  ", field + 1)?;
        if draw.chance(30) {
            out.push_str("\n")?;
        }
    }
    if draw.chance(15) {
        push_oneof(out, draw, 101)?;
    }
    if draw.chance(15) {
        push_reserved(out, style, number)?;
    }
    out.push_str("}\n\n")?;
    Ok(())
}

/// A source with some declarations: most of them messages, some enums and services.
pub fn source(
    alloc: Global,
    draw: &mut Draw,
    style: &Style,
    declarations: u32,
) -> Result<String, AllocError> {
    let mut out = String::new(alloc);
    push_head(&mut out, draw, style)?;
    for number in 0..declarations {
        let percent = draw.percent();
        if percent < 80 {
            push_message(&mut out, draw, style, number)?;
        } else if percent < 90 {
            push_enum(&mut out, draw, style, "", number)?;
        } else {
            push_service(&mut out, draw, style, number)?;
        }
    }
    Ok(out)
}
