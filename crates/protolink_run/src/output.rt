//! What is written of files that are linked.

use crate::load::name_of;
use crate::told::say;
use protolink_words::Work;
use protox_descriptor::descriptor::FileDescriptorProto;
use protox_encode::{EncodeError, encode_entry};
use protox_encode_linked::encode_linked_entry;
use protox_file_options::InterpretedFile;
use protox_float_defaults::print_defaults;
use protox_imports::{Imports, Order, in_order};
use protox_link::LinkedSet;
use protox_moved::{Move, move_locations};
use std::alloc::{AllocError, Global};
use std::io::{self, Write};
use std::mem;

/// Linked files, of which a set is made.
#[derive(Drop)]
pub(crate) struct Set {
    pub(crate) linked: LinkedSet,
    /// Where each file lies.
    pub(crate) paths: Vec<String>,
    /// How many of the files, at the start, are inputs.
    pub(crate) inputs: usize,
    /// What the options of each file say. None is there if options stay as they are written.
    pub(crate) options: Vec<InterpretedFile>,
}

// The inputs, each behind those of the others that it imports. What they import of other files has no
// part in that, as for protoc.
fn inputs_in_order(alloc: Global, set: &Set) -> Result<Vec<usize>, AllocError> {
    let files = set.linked.files.as_slice();
    let inputs = files.get(..set.inputs).unwrap_or(files);
    let imports = Imports::new(alloc, inputs)?;
    match in_order(alloc, &imports)? {
        Order::Sorted(order) => Ok(order),
        // it can't be, as the files are linked
        Order::Cycle(files) => Ok(files),
    }
}

/// The numbers of the files that the set has, in order: with or without what the inputs import.
///
/// # Errors
/// `AllocError` where memory runs out.
pub(crate) fn chosen(alloc: Global, set: &Set, imports: bool) -> Result<Vec<usize>, AllocError> {
    if !imports {
        return inputs_in_order(alloc, set);
    }
    let mut chosen = Vec::new(alloc);
    chosen.extend_from_slice(set.linked.order.as_slice())?;
    Ok(chosen)
}

// What is told where a file has no bytes.
fn tell_no_bytes<E: Write>(
    alloc: Global,
    err: &mut E,
    file: &FileDescriptorProto,
    error: EncodeError,
) -> io::Result<()> {
    let name = name_of(file);
    match error {
        EncodeError::TooLarge => say(alloc, err, name, "its descriptor takes 2 GiB or more"),
        EncodeError::NotAFloat => say(alloc, err, name, "the value of an option is no float"),
        EncodeError::OutOfMemory => Err(AllocError.into()),
    }
}

// The bytes of a file in a set, with what its options say, if that is known.
fn entry_of(
    alloc: Global,
    file: &FileDescriptorProto,
    read: Option<&InterpretedFile>,
) -> Result<Vec<u8>, EncodeError> {
    match read {
        Some(read) => encode_linked_entry(alloc, file, &read.options),
        None => encode_entry(alloc, file),
    }
}

// Adds a file to the bytes of a set. Answers whether it has bytes.
fn add<E: Write>(
    alloc: Global,
    err: &mut E,
    bytes: &mut Vec<u8>,
    file: &FileDescriptorProto,
    read: Option<&InterpretedFile>,
) -> io::Result<bool> {
    match entry_of(alloc, file, read) {
        Ok(entry) => {
            bytes.extend_from_slice(entry.as_slice())?;
            Ok(true)
        }
        Err(error) => {
            tell_no_bytes(alloc, err, file, error)?;
            Ok(false)
        }
    }
}

// Prints the defaults of floats anew in all files, as protoc does.
fn print_all(alloc: Global, files: &mut [FileDescriptorProto]) -> Result<(), AllocError> {
    for file in files.iter_mut() {
        print_defaults(alloc, file)?;
    }
    Ok(())
}

// Takes the places and comments out of all files.
fn strip(files: &mut [FileDescriptorProto]) {
    for file in files {
        file.source_code_info = None;
    }
}

// Gives the locations of the statements of options in a file the paths of what they set.
fn move_in(
    alloc: Global,
    file: &mut FileDescriptorProto,
    moves: Vec<Move>,
) -> Result<(), AllocError> {
    match &mut file.source_code_info {
        Some(info) => move_locations(alloc, info, moves),
        None => Ok(()),
    }
}

// Moves the locations of statements in all files.
fn move_all(
    alloc: Global,
    files: &mut [FileDescriptorProto],
    options: &mut [InterpretedFile],
) -> Result<(), AllocError> {
    for (file, read) in files.iter_mut().zip(options.iter_mut()) {
        let moves = mem::replace(&mut read.moves, Vec::new(alloc));
        move_in(alloc, file, moves)?;
    }
    Ok(())
}

/// The bytes of the set that has the files with these numbers. None if a file has no bytes, and that
/// is told.
pub(crate) fn set_bytes<E: Write>(
    alloc: Global,
    err: &mut E,
    work: &Work<'_>,
    numbers: &[usize],
    set: &mut Set,
) -> io::Result<Option<Vec<u8>>> {
    let files = set.linked.files.as_mut_slice();
    if work.source_info {
        move_all(alloc, files, set.options.as_mut_slice())?;
    } else {
        strip(files);
    }
    print_all(alloc, files)?;
    let mut bytes = Vec::new(alloc);
    for number in numbers {
        if let Some(file) = set.linked.files.get(*number) {
            if !add(alloc, err, &mut bytes, file, set.options.get(*number))? {
                return Ok(None);
            }
        }
    }
    Ok(Some(bytes))
}

/// The text of the file that lists what a set was made of, for `make`.
///
/// # Errors
/// `AllocError` where memory runs out.
pub(crate) fn rule(alloc: Global, name: &str, set: &Set) -> Result<String, AllocError> {
    let mut text = String::from_str(alloc, name)?;
    text.push_str(":")?;
    for (index, number) in set.linked.order.iter().enumerate() {
        if index > 0 {
            text.push_str("\\\n")?;
        }
        if let Some(path) = set.paths.get(*number) {
            text.push_str(" ")?;
            text.push_str(path.as_str())?;
        }
    }
    Ok(text)
}
