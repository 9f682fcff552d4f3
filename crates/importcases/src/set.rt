//! A set of files, from lines.

use protox_descriptor::descriptor::FileDescriptorProto;
use protox_descriptor::values::Text;
use std::alloc::{AllocError, Global};

// Without a name the text is empty.
fn begin(
    alloc: Global,
    files: &mut Vec<FileDescriptorProto>,
    name: &str,
) -> Result<(), AllocError> {
    let name = if name.is_empty() {
        None
    } else {
        Some(Text::copy(alloc, name)?)
    };
    let mut file = FileDescriptorProto::new(alloc);
    file.name = name;
    files.push(file)?;
    Ok(())
}

fn add_import(
    alloc: Global,
    file: &mut FileDescriptorProto,
    verb: &str,
    name: &str,
) -> Result<(), AllocError> {
    let index = i32::try_from(file.dependency.len()).unwrap_or(i32::MAX);
    let name = Text::copy(alloc, name)?;
    file.dependency.push(name)?;
    match verb {
        "public" => file.public_dependency.push(index),
        "weak" => file.weak_dependency.push(index),
        _ => Ok(()),
    }
}

/// Adds what a line says to the set. What says nothing of a file is passed by.
pub(crate) fn note(
    alloc: Global,
    files: &mut Vec<FileDescriptorProto>,
    verb: &str,
    rest: &str,
) -> Result<(), AllocError> {
    if verb == "file" {
        return begin(alloc, files, rest);
    }
    let Some(file) = files.last_mut() else {
        return Ok(());
    };
    if verb != "index" {
        return add_import(alloc, file, verb, rest);
    }
    match rest.parse::<i32>() {
        Ok(index) => file.public_dependency.push(index),
        Err(_) => Ok(()),
    }
}
