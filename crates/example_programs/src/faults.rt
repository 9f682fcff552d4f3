//! Prints all faults with their places, labels and help.

use protox_parse::ParseError;
use protox_parse::error::{ParseErrorKind, Span};
use protox_parse::faults::first_place;
use std::alloc::Global;
use std::io::{self, Write};

pub fn faults<W: Write>(alloc: Global, out: &mut W, error: &ParseError) -> io::Result<()> {
    for fault in error.errors() {
        write_fault(alloc, out, error, fault)?;
    }
    Ok(())
}

fn write_fault<W: Write>(
    alloc: Global,
    out: &mut W,
    error: &ParseError,
    fault: &ParseErrorKind,
) -> io::Result<()> {
    if let Some(span) = first_place(error.source(), fault) {
        write_place(out, error, &span)?;
    }
    writeln!(out, "{fault}")?;
    if let Some(label) = fault.label() {
        writeln!(out, "    {label}")?;
    }
    if let Some((span, label)) = fault.second_label() {
        write_place(out, error, &span)?;
        writeln!(out, "{label}")?;
    }
    if let Some(help) = fault.help(alloc)? {
        writeln!(out, "    help: {help}")?;
    }
    Ok(())
}

fn write_place<W: Write>(out: &mut W, error: &ParseError, span: &Span) -> io::Result<()> {
    let (line, column) = error.line_column(span.start);
    write!(out, "{}:{line}:{column}: ", error.file())
}
