//! The outline of a file: one line for each declaration, in the order of the source.
#![tactic(auto)]

ghost use Rattle.std.specs.Prelude.{◌≡◌, ◌<◌, ◌%◌, true, None, length, IfOk};

use protox_descriptor::descriptor::source_code_info::Location;
use protox_descriptor::descriptor::{
    DescriptorProto, EnumDescriptorProto, FileDescriptorProto, ServiceDescriptorProto,
};
use protox_descriptor::values::{Items, Text};
use protox_report::shown::push_shown;
use std::alloc::{AllocError, Global};
use std::io::{self, Write};

// What the path read so far leads to.
#[derive(Clone, Copy)]
enum Place<'a> {
    File(&'a FileDescriptorProto),
    Message(&'a DescriptorProto),
    Enum(&'a EnumDescriptorProto),
    Service(&'a ServiceDescriptorProto),
    Leaf,
}

// A declaration: its kind, its name, and what it contains.
#[derive(Clone, Copy)]
struct Declared<'a> {
    kind: &'static str,
    name: Option<&'a Text>,
    place: Place<'a>,
}

// The message at this index as a declaration, if there is one; the next functions do the same for
// enums and services.
fn message_at(messages: &Items<DescriptorProto>, index: usize) -> Option<Declared<'_>> {
    let message = messages.get(index)?;
    Some(Declared {
        kind: "message",
        name: message.name.as_ref(),
        place: Place::Message(message),
    })
}

fn enum_at(enums: &Items<EnumDescriptorProto>, index: usize) -> Option<Declared<'_>> {
    let described = enums.get(index)?;
    Some(Declared {
        kind: "enum",
        name: described.name.as_ref(),
        place: Place::Enum(described),
    })
}

fn service_at(services: &Items<ServiceDescriptorProto>, index: usize) -> Option<Declared<'_>> {
    let service = services.get(index)?;
    Some(Declared {
        kind: "service",
        name: service.name.as_ref(),
        place: Place::Service(service),
    })
}

fn leaf<'a>(kind: &'static str, name: Option<&'a Text>) -> Option<Declared<'a>> {
    Some(Declared {
        kind,
        name,
        place: Place::Leaf,
    })
}

// The declaration in a message at a field number of descriptor.proto and an index.
fn in_message(message: &DescriptorProto, tag: i32, index: usize) -> Option<Declared<'_>> {
    match tag {
        2 => leaf("field", message.field.get(index)?.name.as_ref()),
        3 => message_at(&message.nested_type, index),
        4 => enum_at(&message.enum_type, index),
        6 => leaf("extension", message.extension.get(index)?.name.as_ref()),
        8 => leaf("oneof", message.oneof_decl.get(index)?.name.as_ref()),
        _ => None,
    }
}

// The declaration to which one more step of a path leads.
fn step<'a>(place: Place<'a>, tag: i32, index: usize) -> Option<Declared<'a>> {
    match (place, tag) {
        (Place::File(file), 4) => message_at(&file.message_type, index),
        (Place::File(file), 5) => enum_at(&file.enum_type, index),
        (Place::File(file), 6) => service_at(&file.service, index),
        (Place::File(file), 7) => leaf("extension", file.extension.get(index)?.name.as_ref()),
        (Place::Message(message), tag) => in_message(message, tag, index),
        (Place::Enum(described), 2) => leaf("value", described.value.get(index)?.name.as_ref()),
        (Place::Service(service), 2) => leaf("method", service.method.get(index)?.name.as_ref()),
        _ => None,
    }
}

fn index_of(number: i32) -> usize {
    number.max(0).unsigned_abs() as usize
}

// The kind of the declaration to which a path leads, and the parts of its full name. The full
// name of an enum value leaves out the enum. None if the path leads to no declaration.
fn lead<'a>(
    file: &'a FileDescriptorProto,
    path: &[i32],
    name: &mut Vec<&'a str>,
) -> Result<Option<&'static str>, AllocError>
    ensures { length path.now % 2 ≡ 1 → IfOk result (λ kind. kind ≡ None) }
{
    let mut kind = "";
    let mut place = Place::File(file);
    for pair in path.chunks(2) {
        let [tag, index] = pair else {
            return Ok(None);
        };
        let Some(found) = step(place, *tag, index_of(*index)) else {
            return Ok(None);
        };
        if found.kind == "value" {
            name.pop();
        }
        if let Some(text) = found.name {
            name.push(text.as_str())?;
        }
        kind = found.kind;
        place = found.place;
    }
    Ok(Some(kind))
}

// Whether a path ends with a field number that has no index, behind others that have one. Such a
// path leads to no declaration, and most locations have one.
fn ends_without_index(path: &[i32]) -> bool
    ensures odd { result ≡ true → length path.now % 2 ≡ 1 }
    ensures long { result ≡ true → 1 < length path.now }
{
    path.len() % 2 == 1 && path.len() > 1
}

// The first line of a comment that is not blank.
fn first_line(comment: &str) -> &str {
    for line in comment.lines() {
        let text = line.trim_ascii();
        if !text.is_empty() {
            return text;
        }
    }
    ""
}

// A line of the outline, with the place of its declaration.
#[derive(Drop)]
struct Line {
    line: i32,
    column: i32,
    text: String,
}

// The line of a location; None if its path leads to no declaration.
fn line_of(
    alloc: Global,
    name: &str,
    file: &FileDescriptorProto,
    location: &Location,
) -> Result<Option<Line>, AllocError> {
    let path = location.path.as_slice();
    if ends_without_index(path) {
        return Ok(None);
    }
    let mut parts = Vec::new(alloc);
    if let Some(package) = &file.package {
        parts.push(package.as_str())?;
    }
    let kind = match path {
        [] => None,
        [2] => Some("package"),
        path => lead(file, path, &mut parts)?,
    };
    let (Some(kind), [line, column, ..]) = (kind, location.span.as_slice()) else {
        return Ok(None);
    };
    let mut text = String::new(alloc);
    push_shown(alloc, &mut text, name)?;
    write!(
        text,
        ":{}:{}: {kind} ",
        line.saturating_add(1),
        column.saturating_add(1)
    )?;
    push_shown(alloc, &mut text, parts.join(alloc, ".")?.as_str())?;
    let comment = location.leading_comments().or(location.trailing_comments());
    if let Some(comment) = comment {
        text.push_str("  // ")?;
        push_shown(alloc, &mut text, first_line(comment.as_str()))?;
    }
    text.push_str("\n")?;
    Ok(Some(Line {
        line: *line,
        column: *column,
        text,
    }))
}

/// Writes one line for each declaration: its place, its kind, its full name and the first line of
/// its comment.
pub fn write_outline<W: Write>(
    alloc: Global,
    out: &mut W,
    name: &str,
    file: &FileDescriptorProto,
) -> io::Result<()> {
    let Some(info) = &file.source_code_info else {
        return Ok(());
    };
    let mut lines = Vec::new(alloc);
    for location in info.location.iter() {
        if let Some(line) = line_of(alloc, name, file, location)? {
            lines.push(line)?;
        }
    }
    lines.sort_by_key(|line| (line.line, line.column))?;
    for line in &lines {
        out.write_all(line.text.as_bytes())?;
    }
    Ok(())
}
