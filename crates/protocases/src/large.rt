//! What the parser answers for sources that are deep or long.

use protox_parse::descriptor::FileDescriptorProto;
use protox_parse::error::ParseErrorKind;
use protox_parse::{ParseFailure, parse};
use std::alloc::{AllocError, Global};
use std::io::{self, Write};

// `front`, then `open` and `close`, each `times` times, then `back`.
fn nested(
    alloc: Global,
    front: &str,
    open: &str,
    close: &str,
    back: &str,
    times: usize,
) -> Result<String, AllocError> {
    let mut text = String::from_str(alloc, front)?;
    for _ in 0..times {
        text.push_str(open)?;
    }
    for _ in 0..times {
        text.push_str(close)?;
    }
    text.push_str(back)?;
    Ok(text)
}

// How long the name of the first message is.
fn name_len(file: &FileDescriptorProto) -> Option<usize> {
    let message = file.message_type.get(0)?;
    let name = message.name.as_ref()?;
    Some(name.len())
}

// How long the text of the first option's aggregate is.
fn aggregate_len(file: &FileDescriptorProto) -> Option<usize> {
    let options = file.options.as_ref()?;
    let option = options.uninterpreted_option.get(0)?;
    let text = option.aggregate_value.as_ref()?;
    Some(text.len())
}

fn write_lengths<W: Write>(out: &mut W, file: &FileDescriptorProto) -> io::Result<()> {
    write!(out, "accepted")?;
    if let Some(len) = name_len(file) {
        write!(out, ", a name of {len} bytes")?;
    }
    if let Some(len) = aggregate_len(file) {
        write!(out, ", an aggregate of {len} bytes")?;
    }
    writeln!(out)
}

// How many faults there are, the first of them, and the last.
fn write_faults<W: Write>(out: &mut W, faults: &[ParseErrorKind]) -> io::Result<()> {
    write!(out, "faults: {}", faults.len())?;
    if let Some(first) = faults.first() {
        write!(out, ", first {first:?}")?;
    }
    if let Some(last) = faults.last() {
        write!(out, ", last {last:?}")?;
    }
    writeln!(out)
}

// A line with the kind of source and the answer.
fn write_answer<W: Write>(
    alloc: Global,
    out: &mut W,
    what: &str,
    times: usize,
    source: &str,
) -> io::Result<()> {
    write!(out, "{what}, {times}: ")?;
    match parse(alloc, "a.proto", source) {
        Ok(file) => write_lengths(out, &file),
        Err(ParseFailure::Refused(error)) => write_faults(out, error.errors()),
        Err(ParseFailure::OutOfMemory) => writeln!(out, "out of memory"),
    }
}

// A line for each kind of source with this many levels, and ten times as many letters in the name.
fn write_level<W: Write>(alloc: Global, out: &mut W, times: usize) -> io::Result<()> {
    for (what, front, open, close, back) in [
        ("openers of comments", "", "/*", "", ""),
        ("braces in an aggregate", "option o = {", "{ ", "} ", "};"),
        ("messages", "", "message M { ", "} ", ""),
        (
            "tens of letters in a name",
            "message ",
            "aaaaaaaaaa",
            "",
            " {}",
        ),
    ] {
        let source = nested(alloc, front, open, close, back, times)?;
        write_answer(alloc, out, what, times, source.as_str())?;
    }
    Ok(())
}

/// Writes a line for each kind of source that is deep or long, at 100,000 levels and at a million.
pub fn write_large<W: Write>(alloc: Global, out: &mut W) -> io::Result<()> {
    writeln!(out, "== --large")?;
    write_level(alloc, out, 100_000)?;
    write_level(alloc, out, 1_000_000)
}
