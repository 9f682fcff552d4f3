//! Warnings.

ghost use Rattle.protox_link.specs.Known.{IsKnownOf};

use crate::alike::{AlikeValue, alike_in};
use crate::load::{Loaded, SourceFile};
use crate::places::span_of;
use crate::told::{Grade, say};
use protolink_words::Format;
use protox_descriptor::descriptor::FileDescriptorProto;
use protox_descriptor::tag::file::DEPENDENCY;
use protox_link::Resolver;
use protox_usage::{Usage, has_options};
use std::alloc::{AllocError, Global};
use std::io::{self, Write};

const UNINTERPRETED: &str =
    "warning: Options stay uninterpreted.  protoc --descriptor_set_in reads them so, and checks them.  Readers of the set that look for the value of an option don't find it.";

// Warns of these values of a file.
fn warn_of_values<E: Write>(
    alloc: Global,
    err: &mut E,
    format: Format,
    file: &FileDescriptorProto,
    source: &SourceFile,
    values: &[AlikeValue],
) -> io::Result<()> {
    let told = source.told(alloc, format, file)?;
    for value in values {
        let span = span_of(&told, file, value.path.as_slice());
        let text = format!(in alloc; "{}", value.error)?;
        told.tell(alloc, err, Grade::Warning, span.as_ref(), text.as_str())?;
    }
    Ok(())
}

/// Warns of values of enums whose names are alike. Answers whether there are any.
pub(crate) fn warn_of_alike<E: Write>(
    alloc: Global,
    err: &mut E,
    format: Format,
    loaded: &Loaded,
) -> io::Result<bool> {
    let mut warned = false;
    for (file, source) in loaded.files.iter().zip(loaded.sources.iter()) {
        let values = alike_in(alloc, file)?;
        if !values.is_empty() {
            warn_of_values(alloc, err, format, file, source, values.as_slice())?;
            warned = true;
        }
    }
    Ok(warned)
}

// Warns of these imports of a file.
fn warn_of_imports<E: Write>(
    alloc: Global,
    err: &mut E,
    format: Format,
    loaded: &Loaded,
    number: usize,
    unused: &[usize],
) -> io::Result<()> {
    let (Some(file), Some(source)) = (loaded.files.get(number), loaded.sources.get(number)) else {
        return Ok(());
    };
    let told = source.told(alloc, format, file)?;
    for index in unused {
        let (Some(name), Ok(at)) = (file.dependency.get(*index), i32::try_from(*index)) else {
            continue;
        };
        let span = span_of(&told, file, &[DEPENDENCY, at]);
        let text = format!(in alloc; "Import {name} is unused.")?;
        told.tell(alloc, err, Grade::Warning, span.as_ref(), text.as_str())?;
    }
    Ok(())
}

// Whether one of these files has an import that it may not use.
fn has_imports(files: &[FileDescriptorProto]) -> bool {
    files.iter().any(|file| !file.dependency.is_empty())
}

/// Warns of the imports that the inputs don't use. Answers whether there are any.
pub(crate) fn warn_of_unused<E: Write>(
    alloc: Global,
    err: &mut E,
    format: Format,
    loaded: &Loaded,
    resolver: &Resolver,
) -> io::Result<bool>
    requires { IsKnownOf loaded.now.files.items resolver.now }
{
    let files = loaded.files.as_slice();
    let inputs = files.get(..loaded.inputs).unwrap_or(files);
    if !has_imports(inputs) {
        return Ok(false);
    }
    let usage = Usage::with_resolver(alloc, files, resolver)?;
    let mut warned = false;
    for number in 0..inputs.len() {
        let unused = usage.unused(alloc, number)?;
        if !unused.is_empty() {
            warn_of_imports(alloc, err, format, loaded, number, unused.as_slice())?;
            warned = true;
        }
    }
    Ok(warned)
}

// Whether one of these files sets options.
fn some_has_options(
    alloc: Global,
    files: &[FileDescriptorProto],
    numbers: &[usize],
) -> Result<bool, AllocError> {
    for number in numbers {
        if let Some(file) = files.get(*number) {
            if has_options(alloc, file)? {
                return Ok(true);
            }
        }
    }
    Ok(false)
}

/// Warns of options in a set that has these files.
pub(crate) fn warn_of_options<E: Write>(
    alloc: Global,
    err: &mut E,
    set: &str,
    files: &[FileDescriptorProto],
    numbers: &[usize],
) -> io::Result<()> {
    if some_has_options(alloc, files, numbers)? {
        say(alloc, err, set, UNINTERPRETED)?;
    }
    Ok(())
}
