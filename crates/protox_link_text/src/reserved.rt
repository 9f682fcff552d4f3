//! What is told of reserved names.

ghost use Rattle.std.specs.Prelude.{◌≡◌, IfOk};
ghost use Rattle.protox_link_text.specs.Named.{named_in, reserved_at};
ghost use Rattle.protox_link_text.specs.Places.{holder_of};
ghost use Rattle.protox_link_text.specs.Told.{reserved_again, reserved_name};

use crate::LinkError;
use crate::lists::text_of;
use crate::names::named_in;
use crate::place::Inside;
use protox_descriptor::values::Text;
use std::alloc::{AllocError, Global};

// The name with an index among those that a message or an enum reserves.
fn reserved_at(inside: Inside<'_>, number: usize) -> &str
    ensures { result.now ≡ reserved_at (holder_of inside.entry) number }
{
    match inside {
        Inside::Message(m) => text_of(m.reserved_name.as_slice().get(number)),
        Inside::Enum(e) => text_of(e.reserved_name.as_slice().get(number)),
        _ => "",
    }
}

/// What is told of a field or a value whose name is reserved.
///
/// # Errors
/// `AllocError` where memory runs out.
pub(crate) fn reserved_name(
    alloc: Global,
    inside: Inside<'_>,
    rest: &[i32],
) -> Result<LinkError, AllocError>
    ensures { IfOk result (λ error. error ≡ reserved_name (holder_of inside.entry)
        (named_in (holder_of inside.entry) rest.now)) }
{
    let name = Text::copy(alloc, named_in(inside, rest))?;
    match inside {
        Inside::Enum(_) => Ok(LinkError::ValueNameReserved { name }),
        _ => Ok(LinkError::FieldNameReserved { name }),
    }
}

/// What is told of a name that is reserved twice.
///
/// # Errors
/// `AllocError` where memory runs out.
pub(crate) fn reserved_again(
    alloc: Global,
    inside: Inside<'_>,
    number: usize,
) -> Result<LinkError, AllocError>
    ensures { IfOk result (λ error. error ≡ reserved_again (holder_of inside.entry)
        (reserved_at (holder_of inside.entry) number)) }
{
    let name = Text::copy(alloc, reserved_at(inside, number))?;
    match inside {
        Inside::Enum(_) => Ok(LinkError::ValueNameReservedTwice { name }),
        _ => Ok(LinkError::FieldNameReservedTwice { name }),
    }
}
