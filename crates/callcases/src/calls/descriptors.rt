//! Calls of the messages of descriptor.proto.

use protox_parse::descriptor::source_code_info::Location;
use protox_parse::descriptor::{
    DescriptorProto, FieldDescriptorProto, FieldOptions, FileDescriptorProto,
};
use protox_parse::values::{Items, Numbers, Text};
use std::alloc::{AllocError, Global};
use std::fmt::Write;

pub fn files(alloc: Global) -> Result<String, AllocError> {
    let file = FileDescriptorProto::new(alloc);
    format!(in alloc; "{file:?}")
}

// A message with this name and one reserved name. The parts are made first, so that nothing large
// is alive where memory may be refused.
fn named(alloc: Global, name: &str, reserved: &str) -> Result<DescriptorProto, AllocError> {
    let name = Text::copy(alloc, name)?;
    let mut names = Items::new(alloc);
    names.push(Text::copy(alloc, reserved)?)?;
    let mut message = DescriptorProto::new(alloc);
    message.name = Some(name);
    message.reserved_name = names;
    Ok(message)
}

pub fn messages(alloc: Global) -> Result<String, AllocError> {
    let message = named(alloc, "A\"b", "c")?;
    format!(in alloc; "{message:?}")
}

// Whether a message equals itself, and whether it equals one with another reserved name.
fn compared(alloc: Global) -> Result<(bool, bool), AllocError> {
    let (first, second) = (named(alloc, "A", "a")?, named(alloc, "A", "b")?);
    Ok((first == first, first == second))
}

pub fn equal_messages(alloc: Global) -> Result<String, AllocError> {
    let (same, other) = compared(alloc)?;
    format!(in alloc; "{same} {other}")
}

// A field, and two of its parts.
fn told_field(alloc: Global, field: &FieldDescriptorProto) -> Result<String, AllocError> {
    let (oneof, options) = (field.oneof_index(), field.options().is_none());
    format!(in alloc; "{field:?} {oneof:?} {options}")
}

pub fn fields(alloc: Global) -> Result<String, AllocError> {
    let name = Some(Text::copy(alloc, "a")?);
    let plain = FieldDescriptorProto::plain(None, Some(1), None, None, None, Some(0), None);
    let field = plain.with_rare_parts(alloc, None, None, name, None)?;
    told_field(alloc, &field)
}

// Gives a field each part that most fields lack.
fn fill_field(alloc: Global, field: &mut FieldDescriptorProto) -> Result<(), AllocError> {
    field.set_oneof_index(Some(2));
    field.set_json_name(alloc, Some(Text::copy(alloc, "a")?))?;
    field.set_extendee(alloc, Some(Text::copy(alloc, "b")?))?;
    field.set_default_value(alloc, Some(Text::copy(alloc, "c")?))?;
    field.set_options(alloc, Some(FieldOptions::new(alloc)))?;
    field.set_proto3_optional(Some(true));
    field.set_json_name(alloc, Some(Text::copy(alloc, "d")?))
}

// What is taken out of a field, and what is left.
fn emptied_field(alloc: Global, field: &mut FieldDescriptorProto) -> Result<String, AllocError> {
    let names = (field.take_json_name(), field.take_extendee());
    let others = (field.take_default_value(), field.take_options());
    format!(in alloc; "{names:?} {others:?} {field:?}")
}

fn filled_and_emptied_field(
    alloc: Global,
    field: &mut FieldDescriptorProto,
) -> Result<String, AllocError> {
    fill_field(alloc, field)?;
    let full = format!(in alloc; "{field:?}")?;
    let left = emptied_field(alloc, field)?;
    format!(in alloc; "{full} {left}")
}

pub fn changed_fields(alloc: Global) -> Result<String, AllocError> {
    let mut field = FieldDescriptorProto::new(alloc);
    filled_and_emptied_field(alloc, &mut field)
}

// A location, and whether it is the same as another.
fn told_beside(alloc: Global, found: &Location, bare: &Location) -> Result<String, AllocError> {
    let same = *found == *bare;
    format!(in alloc; "{found:?} {same}")
}

pub fn locations(alloc: Global) -> Result<String, AllocError> {
    let leading = Some(Text::copy(alloc, " a")?);
    let (path, span) = (Numbers::few(&[4, 0]), Numbers::few(&[1, 2, 3]));
    let found = Location::commented(alloc, path, span, leading, None, Items::new(alloc))?;
    let bare = Location::bare(Numbers::few(&[4, 0]), Numbers::few(&[1, 2, 3]));
    told_beside(alloc, &found, &bare)
}

// Gives a location each comment.
fn fill_location(alloc: Global, location: &mut Location) -> Result<(), AllocError> {
    location.set_leading_comments(alloc, Some(Text::copy(alloc, "a")?))?;
    location.set_trailing_comments(alloc, Some(Text::copy(alloc, "b")?))?;
    let mut detached = Items::new(alloc);
    detached.push(Text::copy(alloc, "c")?)?;
    location.set_leading_detached_comments(alloc, detached)
}

// What is taken out of a location, and what is left.
fn emptied_location(alloc: Global, location: &mut Location) -> Result<String, AllocError> {
    let taken = (
        location.take_leading_comments(),
        location.take_trailing_comments(),
    );
    let detached = location.take_leading_detached_comments(alloc);
    format!(in alloc; "{taken:?} {detached:?} {location:?}")
}

fn filled_and_emptied_location(
    alloc: Global,
    location: &mut Location,
) -> Result<String, AllocError> {
    fill_location(alloc, location)?;
    let full = format!(in alloc; "{location:?}")?;
    let left = emptied_location(alloc, location)?;
    format!(in alloc; "{full} {left}")
}

pub fn changed_locations(alloc: Global) -> Result<String, AllocError> {
    let mut location = Location::bare(Numbers::few(&[4, 0]), Numbers::few(&[1, 2, 3, 4]));
    filled_and_emptied_location(alloc, &mut location)
}

// Which of five places a location of one line holds, and one of three.
fn held(alloc: Global, short: &Location, long: &Location) -> Result<String, AllocError> {
    let mut out = String::new(alloc);
    for (line, column) in [(1, 1), (1, 2), (1, 4), (1, 5), (2, 3)] {
        let (short, long) = (short.holds(line, column), long.holds(line, column));
        write!(out, "; {short} {long}")?;
    }
    Ok(out)
}

pub fn places(alloc: Global) -> Result<String, AllocError> {
    let short = Location::bare(Numbers::new(), Numbers::few(&[1, 2, 5]));
    let long = Location::bare(Numbers::new(), Numbers::few(&[1, 2, 3, 1]));
    held(alloc, &short, &long)
}

// Where a location starts and ends.
fn ends_of(alloc: Global, location: &Location) -> Result<String, AllocError> {
    let (start, end) = (location.start(), location.end());
    format!(in alloc; "{start:?} {end:?}")
}

pub fn ends(alloc: Global) -> Result<String, AllocError> {
    let location = Location::bare(Numbers::new(), Numbers::few(&[1, 2, 3, 1]));
    ends_of(alloc, &location)
}
