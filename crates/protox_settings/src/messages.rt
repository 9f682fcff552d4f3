//! Messages of files, by the numbers that they have in the table of what the files declare.

ghost use Rattle.std.specs.Prelude.{◌≡◌};
ghost use Rattle.std.specs.Option.{option_copied};
ghost use Rattle.protox_settings.specs.Fields as words;

use crate::fields::part_at;
use protox_descriptor::descriptor::{DescriptorProto, FileDescriptorProto};
use protox_descriptor::tag::{file, message};
use protox_symbols::Symbols;

// The message to which the rest of a path leads from a message.
fn message_in<'a>(from: &'a DescriptorProto, path: &[i32]) -> Option<&'a DescriptorProto>
    ensures { option_copied result ≡ words.message_in from.now path.now }
{
    match path {
        [] => Some(from),
        [tag, index, rest @ ..] if *tag == message::NESTED_TYPE => {
            message_in(part_at(from.nested_type.as_slice(), *index)?, rest)
        }
        _ => None,
    }
}

// The message to which a path leads from a file.
fn message_at<'a>(from: &'a FileDescriptorProto, path: &[i32]) -> Option<&'a DescriptorProto>
    ensures { option_copied result ≡ words.message_at from.now path.now }
{
    match path {
        [tag, index, rest @ ..] if *tag == file::MESSAGE_TYPE => {
            message_in(part_at(from.message_type.as_slice(), *index)?, rest)
        }
        _ => None,
    }
}

/// The message that has a number in the table. None if it is the number of anything else, or of
/// nothing.
pub fn message_numbered<'a>(
    symbols: &Symbols,
    files: &'a [FileDescriptorProto],
    number: usize,
) -> Option<&'a DescriptorProto>
    ensures { option_copied result ≡ words.message_numbered files.now symbols.now number }
{
    let thing = symbols.thing(number)?;
    let file = files.get(thing.file)?;
    message_at(file, thing.path.as_slice())
}
