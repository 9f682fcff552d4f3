//! What is told of the numbers of extensions.

ghost use Rattle.std.specs.Prelude.{◌≡◌, IfOk};
ghost use Rattle.protox_link_text.specs.Named.{number_in, number_of_field};
ghost use Rattle.protox_link_text.specs.Places.{holder_of};
ghost use Rattle.protox_link_text.specs.Told as words;

use crate::LinkError;
use crate::lists::at_index;
use crate::names::full_name;
use crate::place::Inside;
use protox_descriptor::descriptor::FieldDescriptorProto;
use protox_descriptor::tag::message::FIELD;
use protox_symbols::Symbols;
use std::alloc::{AllocError, Global};

fn number_of_field(fields: &[FieldDescriptorProto], index: i32) -> i32
    ensures { result ≡ number_of_field fields.now index }
{
    match at_index(fields, index) {
        Some(field) => match field.number {
            Some(number) => number,
            None => 0,
        },
        None => 0,
    }
}

// The number of the field or the extension at a place.
fn number_in(inside: Inside<'_>, rest: &[i32]) -> i32
    ensures { result ≡ number_in (holder_of inside.entry) rest.now }
{
    match (inside, rest) {
        (Inside::File(f), [_, n, ..]) => number_of_field(f.extension.as_slice(), *n),
        (Inside::Message(m), [tag, n, ..]) => {
            if *tag == FIELD {
                number_of_field(m.field.as_slice(), *n)
            } else {
                number_of_field(m.extension.as_slice(), *n)
            }
        }
        _ => 0,
    }
}

/// What is told of an extension whose number is in no range of the message with a number.
pub(crate) fn not_declared(
    alloc: Global,
    symbols: &Symbols,
    inside: Inside<'_>,
    rest: &[i32],
    message: usize,
) -> Result<LinkError, AllocError>
    ensures { IfOk result (λ error. error
        ≡ words.not_declared symbols.now (holder_of inside.entry) rest.now message) }
{
    Ok(LinkError::NotDeclared {
        message: full_name(alloc, symbols, message)?,
        number: number_in(inside, rest),
    })
}

/// What is told of an extension whose number an earlier one has, which has a number in the table.
pub(crate) fn extension_reused(
    alloc: Global,
    symbols: &Symbols,
    inside: Inside<'_>,
    rest: &[i32],
    message: usize,
    earlier: usize,
) -> Result<LinkError, AllocError>
    ensures { IfOk result (λ error. error
        ≡ words.extension_reused symbols.now (holder_of inside.entry) rest.now message earlier) }
{
    let message = full_name(alloc, symbols, message)?;
    let extension = full_name(alloc, symbols, earlier)?;
    let number = number_in(inside, rest);
    Ok(LinkError::ExtensionReused {
        number,
        message,
        extension,
    })
}
