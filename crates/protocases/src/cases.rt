//! One case: a file's name, and what the parser answers.

use crate::locations::write_locations;
use protox_parse::descriptor::FileDescriptorProto;
use protox_parse::error::ParseErrorKind;
use protox_parse::{ParseError, ParseFailure, parse};
use protox_text::descriptors::write_file;
use std::alloc::Global;
use std::io::{self, Write};

// A fault's debug form, and on lines of their own its text, its labels and its help.
fn write_fault<W: Write>(alloc: Global, out: &mut W, fault: &ParseErrorKind) -> io::Result<()> {
    writeln!(out, "{fault:?}")?;
    writeln!(out, "  text: {fault}")?;
    if let Some(label) = fault.label() {
        writeln!(out, "  label: {label}")?;
    }
    if let Some((span, label)) = fault.second_label() {
        writeln!(out, "  second label: {}..{} {label}", span.start, span.end)?;
    }
    if let Some(help) = fault.help(alloc)? {
        writeln!(out, "  help: {help}")?;
    }
    Ok(())
}

// The line that a user sees, and then each fault.
fn write_refusal<W: Write>(alloc: Global, out: &mut W, error: &ParseError) -> io::Result<()> {
    writeln!(out, "{error:?}")?;
    for fault in error.errors() {
        write_fault(alloc, out, fault)?;
    }
    Ok(())
}

// The descriptor, and its locations.
fn write_answer<W: Write>(
    alloc: Global,
    out: &mut W,
    file: &FileDescriptorProto,
) -> io::Result<()> {
    write_file(alloc, out, file, false)?;
    write_locations(alloc, out, file)
}

/// Writes the name, and what the parser answers for these bytes under that name.
pub fn write_case<W: Write>(
    alloc: Global,
    out: &mut W,
    name: &str,
    bytes: &[u8],
) -> io::Result<()> {
    writeln!(out, "== {name}")?;
    let Ok(source) = str::from_utf8(bytes) else {
        return writeln!(out, "no UTF-8");
    };
    match parse(alloc, name, source) {
        Ok(file) => write_answer(alloc, out, &file),
        Err(ParseFailure::Refused(error)) => write_refusal(alloc, out, &error),
        Err(ParseFailure::OutOfMemory) => writeln!(out, "out of memory"),
    }
}
