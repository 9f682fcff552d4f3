//! What is told of a fault.

ghost use Rattle.std.specs.Prelude.{◌≡◌, IfOk};
ghost use Rattle.protox_link_text.specs.Places.{holder_of, seen};
ghost use Rattle.protox_link_text.specs.Told.{empty_range, errors_of, told_at};

use crate::LinkError;
use crate::alike::names_alike;
use crate::clash::clash_at;
use crate::defined::{no_package, told_twice};
use crate::extended::{extension_reused, not_declared};
use crate::imports::circle_text;
use crate::lists::one;
use crate::names::{default_in, full_name, import_named, named_in};
use crate::place::{Inside, Place, place_of};
use crate::reserved::{reserved_again, reserved_name};
use crate::search::{search, wanted_at};
use crate::used::not_defined;
use protox_descriptor::descriptor::FileDescriptorProto;
use protox_descriptor::values::Text;
use protox_link_fault::{LinkFault, LinkFaultKind};
use protox_views::View;
use std::alloc::{AllocError, Global};

fn empty_range(inside: Inside<'_>) -> LinkError
    ensures { result ≡ empty_range (holder_of inside.entry) }
{
    match inside {
        Inside::Enum(_) => LinkError::EmptyReservedRange,
        _ => LinkError::EmptyExtensionRange,
    }
}

// What is told of a fault at a place of the file with this number.
fn told_at(
    alloc: Global,
    files: &[FileDescriptorProto],
    view: &View<'_>,
    file: usize,
    place: &Place<'_>,
    kind: &LinkFaultKind,
) -> Result<Vec<LinkError>, AllocError>
    ensures { IfOk result (λ errors. errors.items ≡ told_at files.now view.now.symbols.now
        view.now.sees.now view.now.packages file (seen place.now) kind.now) }
{
    let (inside, rest) = (place.inside, place.rest);
    let error = match kind {
        LinkFaultKind::AlreadyDefined(number) => {
            return told_twice(alloc, files, view.symbols, file, *number, place);
        }
        LinkFaultKind::NotDefined(name) => {
            let (name, scope) = (name.as_str(), place.scope.as_str());
            let searched = search(view, wanted_at(rest), name, scope);
            return not_defined(alloc, files, view.symbols, file, name, searched);
        }
        LinkFaultKind::Clash(how, with) => return clash_at(alloc, place, *with, *how),
        LinkFaultKind::OutOfRanges(message) => {
            let error = not_declared(alloc, view.symbols, inside, rest, *message)?;
            return one(alloc, error);
        }
        LinkFaultKind::ExtensionReused(message, other) => {
            let error = extension_reused(alloc, view.symbols, inside, rest, *message, *other)?;
            return one(alloc, error);
        }
        LinkFaultKind::MissingName => return one(alloc, LinkError::MissingName),
        LinkFaultKind::BadName => LinkError::BadName {
            name: Text::copy(alloc, named_in(inside, rest))?,
        },
        LinkFaultKind::NotInTable => LinkError::NotInTable {
            name: Text::copy(alloc, named_in(inside, rest))?,
        },
        LinkFaultKind::NotAPackage(number) => no_package(alloc, files, view.symbols, *number)?,
        LinkFaultKind::LongPackage => return one(alloc, LinkError::LongPackage),
        LinkFaultKind::DeepPackage => return one(alloc, LinkError::DeepPackage),
        LinkFaultKind::NotAType(name) => LinkError::NotAType {
            name: Text::copy(alloc, name.as_str())?,
        },
        LinkFaultKind::NotAMessage(name) => LinkError::NotAMessage {
            name: Text::copy(alloc, name.as_str())?,
        },
        LinkFaultKind::MessageDefault => return one(alloc, LinkError::MessageDefault),
        LinkFaultKind::BadDefault => return one(alloc, LinkError::BadDefault),
        LinkFaultKind::NoSuchValue(number) => LinkError::NoSuchValue {
            of: full_name(alloc, view.symbols, *number)?,
            value: Text::copy(alloc, default_in(inside, rest))?,
        },
        LinkFaultKind::ForImplementation => return one(alloc, LinkError::ForImplementation),
        LinkFaultKind::EmptyRange => empty_range(inside),
        LinkFaultKind::NoValue => return one(alloc, LinkError::NoValue),
        LinkFaultKind::ReservedAgain(number) => reserved_again(alloc, inside, *number)?,
        LinkFaultKind::ReservedName => reserved_name(alloc, inside, rest)?,
        LinkFaultKind::FirstNotZero => return one(alloc, LinkError::FirstNotZero),
        LinkFaultKind::ExtensionsInProto3 => return one(alloc, LinkError::ExtensionsInProto3),
        LinkFaultKind::Alike(number) => names_alike(alloc, inside, rest, *number)?,
        LinkFaultKind::NotOfOptions => return one(alloc, LinkError::NotOfOptions),
        LinkFaultKind::MissingImport => LinkError::MissingImport {
            name: Text::copy(alloc, import_named(inside, rest))?,
        },
        LinkFaultKind::RepeatedImport => LinkError::RepeatedImport {
            name: Text::copy(alloc, import_named(inside, rest))?,
        },
        LinkFaultKind::ImportCycle(circle) => LinkError::ImportCycle {
            names: circle_text(alloc, files, circle.as_slice())?,
        },
    };
    one(alloc, error)
}

/// What is told of a fault of one of these files, in protoc's words. It is one error; but two, where
/// a value clashes with something beside its enum, or where the search for a name came upon two things.
/// The list is empty if there is no file with the number.
///
/// `view` is what the fault's file sees of the table of the files (`FileNames::view` of protox_link).
/// The fault may be any. Where its path leads to no part of the file, a name that is told may be empty.
///
/// # Errors
/// `AllocError` where memory runs out.
pub fn errors_of(
    alloc: Global,
    files: &[FileDescriptorProto],
    view: &View<'_>,
    fault: &LinkFault,
) -> Result<Vec<LinkError>, AllocError>
    ensures { IfOk result (λ errors. errors.items ≡ errors_of files.now view.now.symbols.now
        view.now.sees.now view.now.packages fault.now) }
{
    let Some(file) = files.get(fault.file) else {
        return Ok(Vec::new(alloc));
    };
    let place = place_of(alloc, file, fault.path.as_slice())?;
    told_at(alloc, files, view, fault.file, &place, &fault.kind)
}
