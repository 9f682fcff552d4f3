//! Texts and parts that may be missing.

ghost use Rattle.std.specs.Prelude.{◌≡◌, ◌∷◌, [], slice_get, IfOk};
ghost use Rattle.std.specs.Option.{option_copied};
ghost use Rattle.protox_link_text.specs.Named.{file_name};
ghost use Rattle.protox_link_text.specs.Places.{at_index, text_of};

use crate::LinkError;
use protox_descriptor::descriptor::FileDescriptorProto;
use protox_descriptor::values::Text;
use std::alloc::{AllocError, Global};

/// The text of a name; the empty one where the name is not set.
pub(crate) fn text_of(name: Option<&Text>) -> &str
    ensures { result.now ≡ text_of (option_copied name.entry) }
{
    match name {
        Some(name) => name.as_str(),
        None => "",
    }
}

/// The part with an index, if there is one.
pub(crate) fn nth<T>(parts: &[T], index: usize) -> Option<&T>
    ensures { option_copied result ≡ slice_get parts.now index }
{
    parts.get(index)
}

/// The part with an index of a path, which may be negative.
pub(crate) fn at_index<T>(parts: &[T], index: i32) -> Option<&T>
    ensures { option_copied result ≡ at_index parts.now index }
{
    if index < 0 {
        return None;
    }
    parts.get(index as usize)
}

/// The name of the file with a number. It is empty where there is none.
pub(crate) fn file_name(files: &[FileDescriptorProto], number: usize) -> &str
    ensures { result.now ≡ file_name files.now number }
{
    match files.get(number) {
        Some(file) => text_of(file.name.as_ref()),
        None => "",
    }
}

/// A list of one error.
pub(crate) fn one(alloc: Global, error: LinkError) -> Result<Vec<LinkError>, AllocError>
    ensures { IfOk result (λ errors. errors.items ≡ error ∷ []) }
{
    let mut errors = Vec::new(alloc);
    errors.push(error)?;
    Ok(errors)
}
