//! What is printed for a line.

use crate::given::statements;
use crate::schema::{schema, user};
use protox_descriptor::descriptor::{FileDescriptorProto, UninterpretedOption};
use protox_encode::EncodeError;
use protox_encode_linked::{OptionBytes, encode_linked, encode_linked_entry};
use protox_file_options::{InterpretedFile, OptionsFault, PlaceFault, interpret_file};
use protox_interpret::Site;
use protox_link::{FileNames, LinkedSet, Resolver, link};
use protox_link_fault::LinkFailure;
use protox_option_text::statement_text;
use protox_views::View;
use std::alloc::{AllocError, Global};
use std::io::{self, Write};

fn unless_want(error: EncodeError) -> io::Result<()> {
    match error {
        EncodeError::OutOfMemory => Err(AllocError.into()),
        _ => Ok(()),
    }
}

fn write_hex<W: Write>(alloc: Global, out: &mut W, word: &str, bytes: &[u8]) -> io::Result<()> {
    let digits = hex::encode(alloc, bytes)?;
    writeln!(out, "{word} {digits}")
}

// The bytes of the file, alone and in a set.
fn write_bytes<W: Write>(
    alloc: Global,
    out: &mut W,
    file: &FileDescriptorProto,
    options: &OptionBytes,
) -> io::Result<()> {
    match encode_linked(alloc, file, options) {
        Ok(bytes) => write_hex(alloc, out, "file", bytes.as_slice())?,
        Err(error) => unless_want(error)?,
    }
    match encode_linked_entry(alloc, file, options) {
        Ok(bytes) => write_hex(alloc, out, "set", bytes.as_slice()),
        Err(error) => unless_want(error),
    }
}

fn statements_of(file: &FileDescriptorProto) -> &[UninterpretedOption] {
    match &file.options {
        Some(options) => options.uninterpreted_option.as_slice(),
        None => &[],
    }
}

// What is wrong with the options of the file.
fn write_fault<W: Write>(
    alloc: Global,
    out: &mut W,
    view: &View<'_>,
    files: &[FileDescriptorProto],
    file: &FileDescriptorProto,
    found: &OptionsFault,
) -> io::Result<()> {
    let PlaceFault::Statement(fault) = &found.fault else {
        return writeln!(out, "no type");
    };
    let Some(statement) = statements_of(file).get(fault.index) else {
        return writeln!(out, "no statement");
    };
    let site = Site {
        view,
        files,
        scope: found.scope,
        message: found.message.unwrap_or(0),
    };
    let text = statement_text(alloc, site, statement, &fault.kind)?;
    writeln!(out, "{}: {text}", fault.index)
}

fn write_file<W: Write>(
    alloc: Global,
    out: &mut W,
    names: &FileNames<'_>,
    files: &[FileDescriptorProto],
    file: &FileDescriptorProto,
) -> io::Result<()> {
    let view = names.view();
    let InterpretedFile {
        options,
        faults,
        ..
    } = interpret_file(alloc, &view, files, file)?;
    match faults.first() {
        Some(fault) => write_fault(alloc, out, &view, files, file, fault),
        None => write_bytes(alloc, out, file, &options),
    }
}

fn write_last<W: Write>(
    alloc: Global,
    out: &mut W,
    resolver: &Resolver,
    files: &[FileDescriptorProto],
) -> io::Result<()> {
    let Some(file) = files.last() else {
        return Ok(());
    };
    let Some(names) = resolver.file(alloc, files.len() - 1)? else {
        return Ok(());
    };
    write_file(alloc, out, &names, files, file)
}

fn write_linked<W: Write>(alloc: Global, out: &mut W, set: &LinkedSet) -> io::Result<()> {
    match Resolver::new(alloc, set.files.as_slice()) {
        Ok(resolver) => write_last(alloc, out, &resolver, set.files.as_slice()),
        Err(error) => Err(error.into()),
    }
}

fn files_of(alloc: Global, line: &str) -> Result<Vec<FileDescriptorProto>, AllocError> {
    let mut files = Vec::new(alloc);
    files.push(schema(alloc)?)?;
    files.push(user(alloc, statements(alloc, line)?)?)?;
    Ok(files)
}

/// What the statements of a line set.
pub(crate) fn write_answer<W: Write>(alloc: Global, out: &mut W, line: &str) -> io::Result<()> {
    let files = files_of(alloc, line)?;
    match link(alloc, files) {
        Ok(set) => write_linked(alloc, out, &set),
        Err(LinkFailure::Refused(faults)) => writeln!(out, "faults: {}", faults.len()),
        Err(LinkFailure::OutOfMemory) => Err(AllocError.into()),
    }
}
