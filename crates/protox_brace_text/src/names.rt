//! The names that texts tell.

ghost use Rattle.std.specs.Prelude.{◌≡◌, ℕ, IfOk, string_bytes};
ghost use Rattle.std.specs.Option.{option_copied};
ghost use Rattle.protox_brace_text.specs.Texts as words;
ghost use Rattle.protox_walk.specs.Declarations.{text_of};

use crate::pieces::{all_printed, printed, without};
use protox_descriptor::descriptor::{DescriptorProto, FieldDescriptorProto, OneofDescriptorProto};
use protox_descriptor::values::Text;
use protox_interpret::Site;
use protox_names::enclosing;
use protox_settings::{field_numbered, message_numbered};
use protox_text_format::Piece;
use std::alloc::{AllocError, Global};

fn text_of(name: Option<&Text>) -> &str
    ensures { result.now ≡ text_of (option_copied name.entry) }
{
    match name {
        Some(name) => name.as_str(),
        None => "",
    }
}

/// What stands in the brackets of a name.
pub(crate) fn in_brackets<'t, 'a>(name: &'t [Piece<'a>]) -> &'t [Piece<'a>]
    ensures { result.now ≡ words.in_brackets name.entry.now }
{
    let inside = without(name, 1);
    &inside[..inside.len().saturating_sub(1)]
}

/// The name as it is written: a word, or what stands in the brackets.
pub(crate) fn written_name(alloc: Global, name: &[Piece<'_>]) -> Result<String, AllocError>
    ensures { IfOk result (λ text. string_bytes text ≡ words.written_name name.now) }
{
    match name {
        [word] => printed(alloc, Some(word)),
        _ => all_printed(alloc, in_brackets(name)),
    }
}

/// The full name with a number.
pub(crate) fn full_name(alloc: Global, here: Site<'_>, number: usize) -> Result<String, AllocError>
    ensures { IfOk result (λ name. string_bytes name ≡ words.full_name here.entry number) }
{
    let dotted = here.view.symbols.dotted(alloc, number)?;
    match dotted.as_str().strip_prefix('.') {
        Some(name) => String::from_str(alloc, name),
        None => Ok(String::new(alloc)),
    }
}

/// The name of the field with a number; the empty text where none has it.
pub(crate) fn field_name<'a>(here: Site<'a>, number: usize) -> &'a str
    ensures { result.now ≡ words.field_name here.entry number }
{
    match field_numbered(here.view.symbols, here.files, number) {
        Some(field) => text_of(field.name.as_ref()),
        None => "",
    }
}

// The message in which what has this full name stands.
fn holder_of<'a>(here: Site<'a>, full_name: &str) -> Option<&'a DescriptorProto>
    ensures { (n : ℕ) → full_name.now ≡ words.full_name here.entry n
        → option_copied result ≡ words.holder_of here.entry n }
{
    let scope = match enclosing(full_name) {
        Some(scope) => scope,
        None => "",
    };
    let number = here.view.symbols.find(None, scope)?;
    message_numbered(here.view.symbols, here.files, number)
}

// The oneof of a message that a field of it is of.
fn oneof_in<'a>(
    message: Option<&'a DescriptorProto>,
    field: Option<&FieldDescriptorProto>,
) -> Option<&'a OneofDescriptorProto>
    ensures { option_copied result ≡ words.oneof_in (option_copied message.entry) (option_copied field.entry) }
{
    let message = message?;
    let index = field?.oneof_index()?;
    if index < 0 {
        return None;
    }
    message.oneof_decl.as_slice().get(index as usize)
}

fn name_of_oneof(oneof: Option<&OneofDescriptorProto>) -> &str
    ensures { result.now ≡ words.name_of_oneof (option_copied oneof.entry) }
{
    match oneof {
        Some(oneof) => text_of(oneof.name.as_ref()),
        None => "",
    }
}

/// The name of the oneof that the field with a number is of; the empty text where it is of none.
pub(crate) fn oneof_name<'a>(
    alloc: Global,
    here: Site<'a>,
    number: usize,
) -> Result<&'a str, AllocError>
    ensures { IfOk result (λ name. name.now ≡ words.oneof_name here.entry number) }
{
    let full_name = full_name(alloc, here, number)?;
    let holder = holder_of(here, full_name.as_str());
    let field = field_numbered(here.view.symbols, here.files, number);
    Ok(name_of_oneof(oneof_in(holder, field)))
}
