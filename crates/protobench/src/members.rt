//! What stands in messages, enums and services.

use crate::comments::{push_comment, push_line_end};
use crate::draw::Draw;
use crate::names::{push_field_name, push_number, push_type, push_type_name};
use std::alloc::AllocError;

/// How a source is written: how many declarations of 100 have a comment, and the label that fields
/// of its language need.
#[derive(Drop)]
pub struct Style {
    pub comments: u64,
    pub proto2: bool,
}

// Adds the options of a field in their brackets.
fn push_field_options(out: &mut String, draw: &mut Draw) -> Result<(), AllocError> {
    let percent = draw.percent();
    if percent < 25 {
        out.push_str(" [deprecated = true]")?;
    } else if percent < 55 {
        out.push_str(" [(google.api.field_behavior) = REQUIRED]")?;
    } else if percent < 70 {
        out.push_str(" [json_name = \"")?;
        push_field_name(out, draw, 7)?;
        out.push_str("\"]")?;
    } else if percent < 85 {
        out.push_str(
            " [\n    (validate.rules).string = {min_len: 1, max_len: 253, pattern: \"^[a-z]+\\\\.[0-9]{2}$\"}\n  ]",
        )?;
    } else {
        out.push_str(" [(acme.units).scale = -1.5e-3, (acme.units).names = \"milli\" \"gram\"]")?;
    }
    Ok(())
}

// Adds a field that is no map.
fn push_plain_field(
    out: &mut String,
    draw: &mut Draw,
    style: &Style,
    indent: &str,
    number: u32,
) -> Result<(), AllocError> {
    out.push_str(indent)?;
    if draw.chance(15) {
        out.push_str("repeated ")?;
    } else if style.proto2 || draw.chance(10) {
        out.push_str("optional ")?;
    }
    push_type(out, draw)?;
    out.push_str(" ")?;
    push_field_name(out, draw, number)?;
    out.push_str(" = ")?;
    push_number(out, number)?;
    if draw.chance(12) {
        push_field_options(out, draw)?;
    }
    out.push_str(";")?;
    push_line_end(out, draw, style.comments / 5)?;
    Ok(())
}

/// Adds a field, by chance with a comment before it.
pub fn push_field(
    out: &mut String,
    draw: &mut Draw,
    style: &Style,
    indent: &str,
    number: u32,
) -> Result<(), AllocError> {
    if draw.chance(style.comments) {
        let lines = 1 + draw.up_to(2);
        push_comment(out, draw, indent, lines)?;
    }
    if !draw.chance(5) {
        return push_plain_field(out, draw, style, indent, number);
    }
    out.push_str(indent)?;
    out.push_str("map<string, ")?;
    push_type(out, draw)?;
    out.push_str("> ")?;
    push_field_name(out, draw, number)?;
    out.push_str(" = ")?;
    push_number(out, number)?;
    out.push_str(";\n")?;
    Ok(())
}

/// Adds a oneof with two fields.
pub fn push_oneof(out: &mut String, draw: &mut Draw, number: u32) -> Result<(), AllocError> {
    out.push_str("\n  // Only one of these is set.\n  oneof ")?;
    push_field_name(out, draw, number)?;
    out.push_str("_choice {\n    string ")?;
    push_field_name(out, draw, number)?;
    out.push_str(" = ")?;
    push_number(out, number)?;
    out.push_str(";\n    ")?;
    push_type_name(out, draw, 4)?;
    out.push_str(" ")?;
    push_field_name(out, draw, number)?;
    out.push_str("_value = ")?;
    push_number(out, number.saturating_add(1))?;
    out.push_str(";\n  }\n")?;
    Ok(())
}

/// Adds an enum with some values.
pub fn push_enum(
    out: &mut String,
    draw: &mut Draw,
    style: &Style,
    indent: &str,
    number: u32,
) -> Result<(), AllocError> {
    out.push_str(indent)?;
    out.push_str("enum ")?;
    push_type_name(out, draw, number)?;
    out.push_str(" {\n")?;
    let last = 3 + draw.up_to(9);
    for value in 0..last {
        if draw.chance(style.comments) {
            push_comment(out, draw, indent, 1)?;
        }
        out.push_str(indent)?;
        out.push_str("  VALUE_")?;
        push_number(out, number)?;
        out.push_str("_")?;
        push_number(out, value)?;
        out.push_str(" = ")?;
        push_number(out, value)?;
        out.push_str(";")?;
        push_line_end(out, draw, style.comments / 5)?;
    }
    out.push_str(indent)?;
    out.push_str("}\n\n")?;
    Ok(())
}

// Adds a method.
fn push_method(out: &mut String, draw: &mut Draw, number: u32) -> Result<(), AllocError> {
    out.push_str("  rpc Get")?;
    push_type_name(out, draw, number)?;
    out.push_str("(Get")?;
    push_type_name(out, draw, number)?;
    out.push_str("Request) returns (")?;
    if draw.chance(15) {
        out.push_str("stream ")?;
    }
    push_type_name(out, draw, number)?;
    if draw.chance(30) {
        out.push_str(");\n\n")?;
        return Ok(());
    }
    out.push_str(") {\n    option (google.api.http) = {\n      get: \"/v1/{name=projects/*/")?;
    push_field_name(out, draw, number)?;
    out.push_str(
        "/*}\"\n      additional_bindings { post: \"/v1/all\" body: \"*\" }\n    };\n    option (google.api.method_signature) = \"name\";\n  }\n\n",
    )?;
    Ok(())
}

/// Adds a service with some methods.
pub fn push_service(
    out: &mut String,
    draw: &mut Draw,
    style: &Style,
    number: u32,
) -> Result<(), AllocError> {
    push_comment(out, draw, "", 2)?;
    out.push_str("service ")?;
    push_type_name(out, draw, number)?;
    out.push_str("Service {\n  option (google.api.default_host) = \"directory.example.com\";\n\n")?;
    let last = 3 + draw.up_to(9);
    for method in 0..last {
        if draw.chance(style.comments) {
            push_comment(out, draw, "  ", 2)?;
        }
        push_method(out, draw, method)?;
    }
    out.push_str("}\n\n")?;
    Ok(())
}
