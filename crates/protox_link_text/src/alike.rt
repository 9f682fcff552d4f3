//! What is told of names that are alike.

ghost use Rattle.std.specs.Prelude.{◌≡◌, IfOk};
ghost use Rattle.std.specs.Option.{option_and_then, option_copied};
ghost use Rattle.protox_link_text.specs.Named.{named_in, sibling_at};
ghost use Rattle.protox_link_text.specs.Places as words;
ghost use Rattle.protox_link_text.specs.Places.{holder_of};
ghost use Rattle.protox_link_text.specs.Told.{names_alike};

use crate::LinkError;
use crate::lists::{nth, text_of};
use crate::names::named_in;
use crate::place::Inside;
use protox_descriptor::descriptor::{EnumValueDescriptorProto, FieldDescriptorProto};
use protox_descriptor::values::Text;
use std::alloc::{AllocError, Global};

fn name_of_field(field: Option<&FieldDescriptorProto>) -> &str
    ensures { result.now ≡ words.text_of (option_and_then (λ field. field.name) (option_copied field.entry)) }
{
    match field {
        Some(field) => text_of(field.name.as_ref()),
        None => "",
    }
}

fn name_of_value(value: Option<&EnumValueDescriptorProto>) -> &str
    ensures { result.now ≡ words.text_of (option_and_then (λ value. value.name) (option_copied value.entry)) }
{
    match value {
        Some(value) => text_of(value.name.as_ref()),
        None => "",
    }
}

// The name of the field, or of the value, that has this index.
fn sibling_at(inside: Inside<'_>, number: usize) -> &str
    ensures { result.now ≡ sibling_at (holder_of inside.entry) number }
{
    match inside {
        Inside::Message(m) => name_of_field(nth(m.field.as_slice(), number)),
        Inside::Enum(e) => name_of_value(nth(e.value.as_slice(), number)),
        _ => "",
    }
}

/// What is told of a field or a value whose name is like that of the one with this index.
///
/// # Errors
/// `AllocError` where memory runs out.
pub(crate) fn names_alike(
    alloc: Global,
    inside: Inside<'_>,
    rest: &[i32],
    number: usize,
) -> Result<LinkError, AllocError>
    ensures { IfOk result (λ error. error ≡ names_alike (holder_of inside.entry)
        (named_in (holder_of inside.entry) rest.now) (sibling_at (holder_of inside.entry) number)) }
{
    let name = Text::copy(alloc, named_in(inside, rest))?;
    let other = Text::copy(alloc, sibling_at(inside, number))?;
    match inside {
        Inside::Enum(_) => Ok(LinkError::ValuesAlike { name, other }),
        _ => Ok(LinkError::FieldsAlike { name, other }),
    }
}
