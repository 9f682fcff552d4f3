//! What the parser answers for each front of a file.

use protox_parse::error::ParseErrorKind;
use protox_parse::{ParseFailure, parse};
use std::alloc::Global;
use std::io::{self, Write};

// Whether the spans of the fault lie in the first `len` bytes.
fn lies_in(fault: &ParseErrorKind, len: usize) -> bool {
    let first = match fault.span() {
        Some(span) => span.start <= span.end && span.end <= len,
        None => true,
    };
    match fault.second_label() {
        Some((span, _)) => first && span.start <= span.end && span.end <= len,
        None => first,
    }
}

// How many of the faults don't lie there.
fn outside(faults: &[ParseErrorKind], len: usize) -> usize {
    let mut count: usize = 0;
    for fault in faults {
        if !lies_in(fault, len) {
            count = count.saturating_add(1);
        }
    }
    count
}

// A line with the length of the front, and whether it is accepted.
fn write_front<W: Write>(alloc: Global, out: &mut W, name: &str, front: &str) -> io::Result<()> {
    let len = front.len();
    match parse(alloc, name, front) {
        Ok(_) => writeln!(out, "{len} accepted"),
        Err(ParseFailure::Refused(error)) => match outside(error.errors(), len) {
            0 => writeln!(out, "{len} refused"),
            count => writeln!(out, "{len} refused, {count} faults outside"),
        },
        Err(ParseFailure::OutOfMemory) => writeln!(out, "{len} out of memory"),
    }
}

/// Writes the name, and a line for each front of the bytes, from the empty one to the whole.
pub fn write_fronts<W: Write>(
    alloc: Global,
    out: &mut W,
    name: &str,
    bytes: &[u8],
) -> io::Result<()> {
    writeln!(out, "== fronts of {name}")?;
    let Ok(source) = str::from_utf8(bytes) else {
        return writeln!(out, "no UTF-8");
    };
    for len in 0..=source.len() {
        match source.get(..len) {
            Some(front) => write_front(alloc, out, name, front)?,
            None => writeln!(out, "{len} no UTF-8")?,
        }
    }
    Ok(())
}
