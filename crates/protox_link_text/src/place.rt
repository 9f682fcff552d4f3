//! Where the path of a fault leads.

ghost use Rattle.std.specs.Prelude.{◌≡◌, IfOk, option_map, string_bytes};
ghost use Rattle.std.specs.Option.{option_copied};
ghost use Rattle.protox_link_text.specs.Places.{holder_of, into_enum, into_message, into_service};
ghost use Rattle.protox_link_text.specs.Places.{next, place_of, seen, step};

use crate::lists::{at_index, text_of};
use protox_descriptor::descriptor::{
    DescriptorProto, EnumDescriptorProto, FileDescriptorProto, ServiceDescriptorProto,
};
use protox_descriptor::tag::{file, message};
use protox_names::within;
use std::alloc::{AllocError, Global};

/// What a path leads into.
#[derive(Clone, Copy)]
pub(crate) enum Inside<'a> {
    File(&'a FileDescriptorProto),
    Message(&'a DescriptorProto),
    Enum(&'a EnumDescriptorProto),
    Service(&'a ServiceDescriptorProto),
}

/// Where a path leads: into the innermost message, enum or service on its way, or else into the file.
#[derive(Drop)]
pub(crate) struct Place<'a> {
    /// The scope in which the names in it stand.
    pub(crate) scope: String,
    pub(crate) inside: Inside<'a>,
    /// What is left of the path.
    pub(crate) rest: &'a [i32],
}

fn into_message<'a>(
    alloc: Global,
    scope: &str,
    rest: &'a [i32],
    message: Option<&'a DescriptorProto>,
) -> Result<Option<Place<'a>>, AllocError>
    ensures { IfOk result (λ made. option_map seen made
        ≡ into_message scope.now rest.now (option_copied message.entry)) }
{
    let Some(message) = message else {
        return Ok(None);
    };
    let scope = within(alloc, scope, text_of(message.name.as_ref()))?;
    let inside = Inside::Message(message);
    Ok(Some(Place {
        scope,
        inside,
        rest,
    }))
}

// The values of an enum stand beside it.
fn into_enum<'a>(
    alloc: Global,
    scope: &str,
    rest: &'a [i32],
    of: Option<&'a EnumDescriptorProto>,
) -> Result<Option<Place<'a>>, AllocError>
    ensures { IfOk result (λ made. option_map seen made
        ≡ into_enum scope.now rest.now (option_copied of.entry)) }
{
    let Some(of) = of else {
        return Ok(None);
    };
    let scope = String::from_str(alloc, scope)?;
    let inside = Inside::Enum(of);
    Ok(Some(Place {
        scope,
        inside,
        rest,
    }))
}

fn into_service<'a>(
    alloc: Global,
    scope: &str,
    rest: &'a [i32],
    service: Option<&'a ServiceDescriptorProto>,
) -> Result<Option<Place<'a>>, AllocError>
    ensures { IfOk result (λ made. option_map seen made
        ≡ into_service scope.now rest.now (option_copied service.entry)) }
{
    let Some(service) = service else {
        return Ok(None);
    };
    let scope = within(alloc, scope, text_of(service.name.as_ref()))?;
    let inside = Inside::Service(service);
    Ok(Some(Place {
        scope,
        inside,
        rest,
    }))
}

// One step of a path.
fn step<'a>(
    alloc: Global,
    scope: &str,
    inside: Inside<'a>,
    tag: i32,
    index: i32,
    rest: &'a [i32],
) -> Result<Option<Place<'a>>, AllocError>
    ensures { IfOk result (λ made. option_map seen made
        ≡ step scope.now (holder_of inside.entry) tag index rest.now) }
{
    match inside {
        Inside::File(f) => {
            if tag == file::MESSAGE_TYPE {
                let message = at_index(f.message_type.as_slice(), index);
                into_message(alloc, scope, rest, message)
            } else if tag == file::ENUM_TYPE {
                into_enum(alloc, scope, rest, at_index(f.enum_type.as_slice(), index))
            } else if tag == file::SERVICE {
                into_service(alloc, scope, rest, at_index(f.service.as_slice(), index))
            } else {
                Ok(None)
            }
        }
        Inside::Message(m) => {
            if tag == message::NESTED_TYPE {
                let inner = at_index(m.nested_type.as_slice(), index);
                into_message(alloc, scope, rest, inner)
            } else if tag == message::ENUM_TYPE {
                into_enum(alloc, scope, rest, at_index(m.enum_type.as_slice(), index))
            } else {
                Ok(None)
            }
        }
        Inside::Enum(_) | Inside::Service(_) => Ok(None),
    }
}

// The place behind the next step of what is left of the path. None where the path ends, or leads into
// nothing more.
fn next<'a>(alloc: Global, place: &Place<'a>) -> Result<Option<Place<'a>>, AllocError>
    ensures { IfOk result (λ made. option_map seen made ≡ next
        (string_bytes place.now.scope) (holder_of place.now.inside) place.now.rest.now) }
{
    let [tag, index, rest @ ..] = place.rest else {
        return Ok(None);
    };
    let scope = place.scope.as_str();
    step(alloc, scope, place.inside, *tag, *index, rest)
}

/// Where the path of a part of a file leads.
///
/// # Errors
/// `AllocError` where memory runs out.
pub(crate) fn place_of<'a>(
    alloc: Global,
    file: &'a FileDescriptorProto,
    path: &'a [i32],
) -> Result<Place<'a>, AllocError>
    ensures { IfOk result (λ made. seen made ≡ place_of file.now path.now) }
{
    let scope = String::from_str(alloc, text_of(file.package.as_ref()))?;
    let inside = Inside::File(file);
    let mut place = Place {
        scope,
        inside,
        rest: path,
    };
    while let Some(inner) = next(alloc, &place)? {
        place = inner;
    }
    Ok(place)
}
