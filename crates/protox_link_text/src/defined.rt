//! What is told of names that are declared twice.

ghost use Rattle.std.specs.Prelude.{◌≡◌, ◌++◌, ◌∷◌, IfOk, OnOk, string_bytes};
ghost use Rattle.protox_link_text.specs.Places.{holder_of};
ghost use Rattle.protox_link_text.specs.Told.{already_defined, before, beside_enum};
ghost use Rattle.protox_link_text.specs.Told.{defined_in, has_earlier};
ghost use Rattle.protox_link_text.specs.Told.{no_package, note_in};
ghost use Rattle.protox_names.specs.Names.{scopes};

use crate::LinkError;
use crate::lists::{one, text_of};
use crate::names::{file_of, full_name, is_of_file, value_named};
use crate::place::{Inside, Place};
use protox_descriptor::descriptor::{
    EnumDescriptorProto, EnumValueDescriptorProto, FileDescriptorProto,
};
use protox_descriptor::values::Text;
use protox_symbols::Symbols;
use std::alloc::{AllocError, Global};

// A full name that the file declares before.
fn defined_in(alloc: Global, name: Text) -> Result<LinkError, AllocError>
    ensures { IfOk result (λ error. error ≡ defined_in name (scopes name)) }
{
    let Some((scope, own)) = name.as_str().rsplit_once('.') else {
        return Ok(LinkError::AlreadyDefined { name });
    };
    Ok(LinkError::AlreadyDefinedIn {
        name: Text::copy(alloc, own)?,
        scope: Text::copy(alloc, scope)?,
    })
}

// What has a number was declared before.
fn already_defined(
    alloc: Global,
    files: &[FileDescriptorProto],
    symbols: &Symbols,
    file: usize,
    number: usize,
) -> Result<LinkError, AllocError>
    ensures { IfOk result (λ error. error ≡ already_defined files.now symbols.now file number) }
{
    let name = full_name(alloc, symbols, number)?;
    if is_of_file(files, symbols, file, number) {
        return defined_in(alloc, name);
    }
    let file = Text::copy(alloc, file_of(files, symbols, number))?;
    Ok(LinkError::AlreadyDefinedInFile { name, file })
}

/// What has a number has the name of a package, and is none.
pub(crate) fn no_package(
    alloc: Global,
    files: &[FileDescriptorProto],
    symbols: &Symbols,
    number: usize,
) -> Result<LinkError, AllocError>
    ensures { IfOk result (λ error. error ≡ no_package files.now symbols.now number) }
{
    let name = full_name(alloc, symbols, number)?;
    let file = Text::copy(alloc, file_of(files, symbols, number))?;
    Ok(LinkError::NotAPackage { name, file })
}

// The values before an index.
fn before(values: &[EnumValueDescriptorProto], index: i32) -> &[EnumValueDescriptorProto]
    ensures { result.now ≡ before values.now index }
{
    if index < 0 {
        return &values[..0];
    }
    let count = values.len().min(index as usize);
    &values[..count]
}

// Whether an earlier value has the name of the value with an index.
fn has_earlier(values: &[EnumValueDescriptorProto], index: i32) -> bool
    ensures { result ≡ has_earlier values.now index }
{
    let name = value_named(values, index);
    for value in before(values, index) {
        if text_of(value.name.as_ref()) == name {
            return true;
        }
    }
    false
}

// The value with an index clashes with something beside its enum.
fn beside_enum(
    alloc: Global,
    scope: &str,
    of: &EnumDescriptorProto,
    index: i32,
) -> Result<LinkError, AllocError>
    ensures { IfOk result (λ error. error ≡ beside_enum scope.now of.now index) }
{
    let value = Text::copy(alloc, value_named(of.value.as_slice(), index))?;
    let of = Text::copy(alloc, text_of(of.name.as_ref()))?;
    if scope.is_empty() {
        return Ok(LinkError::ValueBesideEnum { value, of });
    }
    let scope = Text::copy(alloc, scope)?;
    Ok(LinkError::ValueBesideEnumIn { value, scope, of })
}

// Adds what is told besides of a name at this place that is declared twice.
fn add_note(
    alloc: Global,
    scope: &str,
    inside: Inside<'_>,
    rest: &[i32],
    errors: &mut Vec<LinkError>,
) -> Result<(), AllocError>
    ensures { OnOk result (errors.new.items
        ≡ errors.old.items ++ note_in scope.now (holder_of inside.entry) rest.now) }
{
    let (Inside::Enum(of), [_, n, ..]) = (inside, rest) else {
        return Ok(());
    };
    if has_earlier(of.value.as_slice(), *n) {
        return Ok(());
    }
    errors.push(beside_enum(alloc, scope, of, *n)?)?;
    Ok(())
}

/// What is told of a name at a place, where something of the same full name has a number.
pub(crate) fn told_twice(
    alloc: Global,
    files: &[FileDescriptorProto],
    symbols: &Symbols,
    file: usize,
    number: usize,
    place: &Place<'_>,
) -> Result<Vec<LinkError>, AllocError>
    ensures { IfOk result (λ errors. errors.items ≡ already_defined files.now symbols.now file number
        ∷ note_in (string_bytes place.now.scope) (holder_of place.now.inside) place.now.rest.now) }
{
    let error = already_defined(alloc, files, symbols, file, number)?;
    let mut errors = one(alloc, error)?;
    let scope = place.scope.as_str();
    add_note(alloc, scope, place.inside, place.rest, &mut errors)?;
    Ok(errors)
}
