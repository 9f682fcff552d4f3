//! The statements of an options message, by its path.

use protox_descriptor::descriptor::{
    DescriptorProto, EnumDescriptorProto, FieldDescriptorProto, FileDescriptorProto,
    ServiceDescriptorProto, UninterpretedOption,
};
use protox_descriptor::tag::file::{ENUM_TYPE, EXTENSION, MESSAGE_TYPE, SERVICE};
use protox_descriptor::tag::message;
use protox_descriptor::uninterpreted::HasUninterpreted;

// The part with an index, if there is one.
fn part_at<T>(parts: &[T], index: i32) -> Option<&T> {
    match usize::try_from(index) {
        Ok(index) => parts.get(index),
        Err(_) => None,
    }
}

// The statements of options, if there are any.
fn of<O: HasUninterpreted>(options: Option<&O>) -> &[UninterpretedOption] {
    match options {
        Some(options) => options.uninterpreted(),
        None => &[],
    }
}

fn of_field(fields: &[FieldDescriptorProto], index: i32) -> &[UninterpretedOption] {
    match part_at(fields, index) {
        Some(field) => of(field.options()),
        None => &[],
    }
}

fn of_enum<'a>(found: &'a EnumDescriptorProto, path: &[i32]) -> &'a [UninterpretedOption] {
    match path {
        [_, index, ..] => match part_at(found.value.as_slice(), *index) {
            Some(value) => of(value.options.as_ref()),
            None => &[],
        },
        _ => of(found.options.as_ref()),
    }
}

fn of_service<'a>(found: &'a ServiceDescriptorProto, path: &[i32]) -> &'a [UninterpretedOption] {
    match path {
        [_, index, ..] => match part_at(found.method.as_slice(), *index) {
            Some(method) => of(method.options.as_ref()),
            None => &[],
        },
        _ => of(found.options.as_ref()),
    }
}

// Those of the part of a message with a tag and an index, or of what is in it.
fn of_part<'a>(
    found: &'a DescriptorProto,
    tag: i32,
    index: i32,
    path: &[i32],
) -> &'a [UninterpretedOption] {
    if tag == message::FIELD {
        return of_field(found.field.as_slice(), index);
    }
    if tag == message::EXTENSION {
        return of_field(found.extension.as_slice(), index);
    }
    if tag == message::ENUM_TYPE {
        return match part_at(found.enum_type.as_slice(), index) {
            Some(inner) => of_enum(inner, path),
            None => &[],
        };
    }
    if tag == message::EXTENSION_RANGE {
        return match part_at(found.extension_range.as_slice(), index) {
            Some(range) => of(range.options.as_ref()),
            None => &[],
        };
    }
    match part_at(found.oneof_decl.as_slice(), index) {
        Some(oneof) => of(oneof.options.as_ref()),
        None => &[],
    }
}

fn of_message<'a>(found: &'a DescriptorProto, path: &[i32]) -> &'a [UninterpretedOption] {
    let mut found = found;
    let mut path = path;
    while let [tag, index, rest @ ..] = path {
        if *tag != message::NESTED_TYPE {
            return of_part(found, *tag, *index, rest);
        }
        match part_at(found.nested_type.as_slice(), *index) {
            Some(inner) => found = inner,
            None => break,
        }
        path = rest;
    }
    of(found.options.as_ref())
}

// Those of what is in a file under a tag and an index.
fn of_declaration<'a>(
    found: &'a FileDescriptorProto,
    tag: i32,
    index: i32,
    path: &[i32],
) -> &'a [UninterpretedOption] {
    if tag == MESSAGE_TYPE {
        return match part_at(found.message_type.as_slice(), index) {
            Some(inner) => of_message(inner, path),
            None => &[],
        };
    }
    if tag == ENUM_TYPE {
        return match part_at(found.enum_type.as_slice(), index) {
            Some(inner) => of_enum(inner, path),
            None => &[],
        };
    }
    if tag == SERVICE {
        return match part_at(found.service.as_slice(), index) {
            Some(inner) => of_service(inner, path),
            None => &[],
        };
    }
    if tag == EXTENSION {
        return of_field(found.extension.as_slice(), index);
    }
    &[]
}

/// The statements of the options message at a path of a file. Every path is one of an options message
/// that is there; of another one, the answer may be any statements of the file.
pub(crate) fn statements_at<'a>(
    found: &'a FileDescriptorProto,
    path: &[i32],
) -> &'a [UninterpretedOption] {
    match path {
        [tag, index, rest @ ..] => of_declaration(found, *tag, *index, rest),
        _ => of(found.options.as_ref()),
    }
}
