//! What is printed for a set.

use crate::Source;
use crate::record::{Record, next_record};
use protox_link_bytes::{LinkBytesFailure, SourceFile, link_to_bytes};
use protox_link_options::link_with_options;
use std::alloc::{AllocError, Global};
use std::io::{self, Write};

// The files as the library takes them.
fn files_of(alloc: Global, sources: &[Source]) -> Result<Vec<SourceFile<'_>>, AllocError> {
    let mut files = Vec::new(alloc);
    for source in sources {
        files.push(SourceFile {
            name: source.name.as_str(),
            source: source.text.as_str(),
        })?;
    }
    Ok(files)
}

fn write_bytes<W: Write>(out: &mut W, bytes: &[u8]) -> io::Result<()> {
    for row in bytes.chunks(32) {
        for byte in row {
            write!(out, "{byte:02x}")?;
        }
        writeln!(out)?;
    }
    Ok(())
}

fn write_record<W: Write>(out: &mut W, sources: &[Source], record: &Record<'_>) -> io::Result<()> {
    let name = match sources.get(record.file) {
        Some(source) => source.name.as_str(),
        None => "no file",
    };
    let line = u64::from(record.line) + 1;
    let column = u64::from(record.column) + 1;
    write!(out, "{name}:{line}:{column}: ")?;
    out.write_all(record.message)?;
    writeln!(out)
}

fn write_records<W: Write>(out: &mut W, sources: &[Source], bytes: &[u8]) -> io::Result<()> {
    let mut left = bytes;
    for _ in 0..bytes.len() {
        let Some((record, rest)) = next_record(left) else {
            break;
        };
        write_record(out, sources, &record)?;
        left = rest;
    }
    if left.is_empty() {
        return Ok(());
    }
    writeln!(out, "and {} bytes", left.len())
}

fn write_failure<W: Write>(
    out: &mut W,
    sources: &[Source],
    failure: &LinkBytesFailure,
) -> io::Result<()> {
    match failure {
        LinkBytesFailure::Refused(records) => write_records(out, sources, records.as_slice()),
        LinkBytesFailure::TooLarge => writeln!(out, "too large"),
        LinkBytesFailure::NotAFloat => writeln!(out, "not a float"),
        LinkBytesFailure::OutOfMemory => writeln!(out, "out of memory"),
    }
}

/// Writes what comes of a set.
pub(crate) fn write_set<W: Write>(
    alloc: Global,
    out: &mut W,
    sources: &[Source],
) -> io::Result<()> {
    let files = files_of(alloc, sources)?;
    match link_to_bytes(alloc, files.as_slice()) {
        Ok(bytes) => write_bytes(out, bytes.as_slice()),
        Err(failure) => write_failure(out, sources, &failure),
    }
}

/// Writes what comes of a set if its options are read.
pub(crate) fn write_set_with_options<W: Write>(
    alloc: Global,
    out: &mut W,
    sources: &[Source],
) -> io::Result<()> {
    let files = files_of(alloc, sources)?;
    match link_with_options(alloc, files.as_slice()) {
        Ok(bytes) => write_bytes(out, bytes.as_slice()),
        Err(failure) => write_failure(out, sources, &failure),
    }
}
