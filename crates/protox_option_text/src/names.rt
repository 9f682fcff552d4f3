//! The names that texts tell.

ghost use Rattle.std.specs.Prelude.{◌≡◌, [], IfOk, string_bytes};
ghost use Rattle.std.specs.Option.{option_copied};
ghost use Rattle.protox_name_tree.specs.Tree.{name_at};
ghost use Rattle.protox_option_text.specs.Texts as words;
ghost use Rattle.protox_walk.specs.Declarations.{text_of};

use protox_descriptor::descriptor::UninterpretedOption;
use protox_descriptor::values::Text;
use protox_interpret::Site;
use protox_settings::{NameFailure, NameFaultKind, fields_of, message_numbered};
use std::alloc::{AllocError, Global};

/// A name; the empty text where it isn't set.
pub(crate) fn text_of(name: Option<&Text>) -> &str
    ensures { result.now ≡ text_of (option_copied name.entry) }
{
    match name {
        Some(name) => name.as_str(),
        None => "",
    }
}

/// A name without the dot in front.
pub(crate) fn without_dot(name: &str) -> &str
    ensures { result.now ≡ words.without_dot name.now }
{
    match name.strip_prefix('.') {
        Some(rest) => rest,
        None => name,
    }
}

/// The full name with a number.
pub(crate) fn full_name(alloc: Global, here: Site<'_>, number: usize) -> Result<String, AllocError>
    ensures { IfOk result (λ name. string_bytes name ≡ words.full_name here.entry number) }
{
    let dotted = here.view.symbols.dotted(alloc, number)?;
    String::from_str(alloc, without_dot(dotted.as_str()))
}

/// The own name of the message of which the field is that a part of a name leads to, where the part
/// was looked for in another one.
pub(crate) fn other_message(here: Site<'_>, kind: NameFaultKind) -> &str
    ensures { result.now ≡ words.other_message here.entry kind }
{
    let NameFaultKind::OfOtherMessage(number) = kind else {
        return "";
    };
    match message_numbered(here.view.symbols, here.files, number) {
        Some(message) => text_of(message.name.as_ref()),
        None => "",
    }
}

/// The number of the field that a statement sets. None if its name leads to none.
pub(crate) fn last_field(
    alloc: Global,
    here: Site<'_>,
    statement: &UninterpretedOption,
) -> Result<Option<usize>, AllocError>
    ensures { IfOk result (λ last. last ≡ words.last_field here.entry statement.now) }
{
    let name = statement.name.as_slice();
    match fields_of(alloc, here.view, here.files, here.scope, here.message, name) {
        Ok(fields) => Ok(fields.last().copied()),
        Err(NameFailure::Fault(_)) => Ok(None),
        Err(NameFailure::OutOfMemory) => Err(AllocError),
    }
}
