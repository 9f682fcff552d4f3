//! Enums of files, by the numbers that they have in the table of what the files declare.

ghost use Rattle.std.specs.Prelude.{◌≡◌};
ghost use Rattle.std.specs.Option.{option_and_then, option_copied};
ghost use Rattle.protox_settings.specs.Fields as words;

use crate::fields::{named, part_at};
use protox_descriptor::descriptor::{
    DescriptorProto, EnumDescriptorProto, EnumValueDescriptorProto, FileDescriptorProto,
};
use protox_descriptor::tag::{file, message};
use protox_descriptor::values::Text;
use protox_symbols::Symbols;

// The enum to which the rest of a path leads from a message.
fn enum_in<'a>(from: &'a DescriptorProto, path: &[i32]) -> Option<&'a EnumDescriptorProto>
    ensures { option_copied result ≡ words.enum_in from.now path.now }
{
    match path {
        [tag, index, rest @ ..] if *tag == message::NESTED_TYPE => {
            enum_in(part_at(from.nested_type.as_slice(), *index)?, rest)
        }
        [tag, index] if *tag == message::ENUM_TYPE => part_at(from.enum_type.as_slice(), *index),
        _ => None,
    }
}

// The enum to which a path leads from a file.
fn enum_at<'a>(from: &'a FileDescriptorProto, path: &[i32]) -> Option<&'a EnumDescriptorProto>
    ensures { option_copied result ≡ words.enum_at from.now path.now }
{
    match path {
        [tag, index, rest @ ..] if *tag == file::MESSAGE_TYPE => {
            enum_in(part_at(from.message_type.as_slice(), *index)?, rest)
        }
        [tag, index] if *tag == file::ENUM_TYPE => part_at(from.enum_type.as_slice(), *index),
        _ => None,
    }
}

/// The enum that has a number in the table. None if it is the number of anything else, or of
/// nothing.
pub fn enum_numbered<'a>(
    symbols: &Symbols,
    files: &'a [FileDescriptorProto],
    number: usize,
) -> Option<&'a EnumDescriptorProto>
    ensures { option_copied result ≡ words.enum_numbered files.now symbols.now number }
{
    let thing = symbols.thing(number)?;
    let file = files.get(thing.file)?;
    enum_at(file, thing.path.as_slice())
}

// The enum with a full name, behind a dot.
fn enum_named<'a>(
    symbols: &Symbols,
    files: &'a [FileDescriptorProto],
    name: Option<&Text>,
) -> Option<&'a EnumDescriptorProto>
    ensures { option_copied result ≡ option_and_then (words.enum_numbered files.now symbols.now)
        (option_and_then (words.named symbols.now) (option_copied name.entry)) }
{
    let number = named(symbols, name?.as_str())?;
    enum_numbered(symbols, files, number)
}

/// The values of the enum with a full name, behind a dot. None if there is no such enum.
pub fn values_named<'a>(
    symbols: &Symbols,
    files: &'a [FileDescriptorProto],
    name: Option<&Text>,
) -> &'a [EnumValueDescriptorProto]
    ensures { result.now ≡ words.values_named files.now symbols.now (option_copied name.entry) }
{
    match enum_named(symbols, files, name) {
        Some(of) => of.value.as_slice(),
        None => &[],
    }
}
