//! What is printed for all statements of a file.

use crate::answers::Known;
use protox_descriptor::descriptor::FileDescriptorProto;
use protox_encode::EncodeError;
use protox_encode_linked::{OptionBytes, encode_linked};
use protox_file_options::interpret_file;
use std::alloc::{AllocError, Global};
use std::io::{self, Write};

// The bytes of the file with all that is set.
fn write_bytes<W: Write>(
    alloc: Global,
    out: &mut W,
    file: &FileDescriptorProto,
    options: &OptionBytes,
) -> io::Result<()> {
    match encode_linked(alloc, file, options) {
        Ok(bytes) => {
            let digits = hex::encode(alloc, bytes.as_slice())?;
            writeln!(out, "= {digits}")
        }
        Err(EncodeError::OutOfMemory) => Err(AllocError)?,
        Err(_) => writeln!(out, "no bytes"),
    }
}

/// The bytes of the file with all that its statements set, or how many options messages are wrong.
pub(crate) fn write_whole<W: Write>(
    alloc: Global,
    out: &mut W,
    known: Known<'_>,
    file: &FileDescriptorProto,
) -> io::Result<()> {
    let interpreted = interpret_file(alloc, known.view, known.files, file)?;
    if interpreted.faults.is_empty() {
        return write_bytes(alloc, out, file, &interpreted.options);
    }
    writeln!(out, "wrong: {}", interpreted.faults.len())
}
