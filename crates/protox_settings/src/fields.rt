//! Fields of files, by the numbers that they have in the table of what the files declare.

ghost use Rattle.std.specs.Prelude.{◌≡◌};
ghost use Rattle.std.specs.Option.{option_copied};
ghost use Rattle.protox_settings.specs.Fields as words;
ghost use Rattle.protox_walk.specs.Declarations.{text_of};

use protox_descriptor::descriptor::field_descriptor_proto::{FieldType, Label};
use protox_descriptor::descriptor::{DescriptorProto, FieldDescriptorProto, FileDescriptorProto};
use protox_descriptor::tag::{file, message};
use protox_descriptor::values::Text;
use protox_symbols::Symbols;

pub(crate) fn part_at<T>(parts: &[T], index: i32) -> Option<&T>
    ensures { option_copied result ≡ words.part_at parts.now index }
{
    if index < 0 {
        return None;
    }
    parts.get(index as usize)
}

// The field to which the rest of a path leads from a message.
fn field_in<'a>(from: &'a DescriptorProto, path: &[i32]) -> Option<&'a FieldDescriptorProto>
    ensures { option_copied result ≡ words.field_in from.now path.now }
{
    match path {
        [tag, index, rest @ ..] if *tag == message::NESTED_TYPE => {
            field_in(part_at(from.nested_type.as_slice(), *index)?, rest)
        }
        [tag, index] if *tag == message::FIELD => part_at(from.field.as_slice(), *index),
        [tag, index] if *tag == message::EXTENSION => part_at(from.extension.as_slice(), *index),
        _ => None,
    }
}

// The field to which a path leads from a file.
fn field_at<'a>(from: &'a FileDescriptorProto, path: &[i32]) -> Option<&'a FieldDescriptorProto>
    ensures { option_copied result ≡ words.field_at from.now path.now }
{
    match path {
        [tag, index, rest @ ..] if *tag == file::MESSAGE_TYPE => {
            field_in(part_at(from.message_type.as_slice(), *index)?, rest)
        }
        [tag, index] if *tag == file::EXTENSION => part_at(from.extension.as_slice(), *index),
        _ => None,
    }
}

/// The field, or the extension, that has a number in the table. None if it is the number of anything
/// else, or of nothing.
pub fn field_numbered<'a>(
    symbols: &Symbols,
    files: &'a [FileDescriptorProto],
    number: usize,
) -> Option<&'a FieldDescriptorProto>
    ensures { option_copied result ≡ words.field_numbered files.now symbols.now number }
{
    let thing = symbols.thing(number)?;
    let file = files.get(thing.file)?;
    field_at(file, thing.path.as_slice())
}

// The number of what has a full name, behind a dot. None if there is no dot.
pub(crate) fn named(symbols: &Symbols, name: &str) -> Option<usize>
    ensures { result ≡ words.named symbols.now name.now }
{
    match name.strip_prefix('.') {
        Some(full_name) => symbols.find(None, full_name),
        None => None,
    }
}

fn is_same(found: Option<usize>, number: usize) -> bool
    ensures { result ≡ words.is_same found number }
{
    match found {
        Some(found) => found == number,
        None => false,
    }
}

fn text_of(name: Option<&Text>) -> &str
    ensures { result.now ≡ text_of (option_copied name.entry) }
{
    match name {
        Some(name) => name.as_str(),
        None => "",
    }
}

/// Whether a field is one of the message with a number: it extends it, or its name is found in it.
pub fn is_of(symbols: &Symbols, message: usize, number: usize, field: &FieldDescriptorProto) -> bool
    ensures { result ≡ words.is_of symbols.now message number field.now }
{
    match field.extendee() {
        Some(extendee) => is_same(named(symbols, extendee.as_str()), message),
        None => is_same(
            symbols.find(Some(message), text_of(field.name.as_ref())),
            number,
        ),
    }
}

// Whether the type is that of a message.
fn has_message(field_type: Option<i32>) -> bool
    ensures { result ≡ words.has_message field_type }
{
    match field_type {
        Some(number) => number == FieldType::Message as i32 || number == FieldType::Group as i32,
        None => false,
    }
}

/// The number of the message that is the type of a field, in linked files.
pub fn message_of_type(symbols: &Symbols, field: &FieldDescriptorProto) -> Option<usize>
    ensures { result ≡ words.message_of_type symbols.now field.now }
{
    if !has_message(field.field_type) {
        return None;
    }
    named(symbols, field.type_name.as_ref()?.as_str())
}

/// Whether a field is repeated.
pub fn is_repeated(field: &FieldDescriptorProto) -> bool
    ensures { result ≡ words.is_repeated field.now }
{
    field.label == Some(Label::Repeated as i32)
}
