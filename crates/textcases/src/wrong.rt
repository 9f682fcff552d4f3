//! What is wrong, as it is printed.

use protox_text_format::{Piece, TextFault, TextFaultKind};
use std::io::{self, Write};

fn write_wanted<W: Write>(out: &mut W, kind: TextFaultKind, found: &str) -> io::Result<()> {
    match kind {
        TextFaultKind::NoWord => writeln!(out, "Expected identifier, got: {found}"),
        TextFaultKind::NoMark(mark) => {
            writeln!(out, "Expected \"{}\", found \"{found}\".", char::from(mark))
        }
        TextFaultKind::NoValue => writeln!(out, "Expected value, got: {found}"),
        TextFaultKind::TooDeep => writeln!(out, "Too deep."),
    }
}

/// What is wrong with a text, and in which column.
pub(crate) fn write_fault<W: Write>(
    out: &mut W,
    text: &str,
    pieces: &[Piece<'_>],
    fault: TextFault,
) -> io::Result<()> {
    let Some(piece) = pieces.get(fault.piece) else {
        write!(out, "{}: ", text.len().saturating_add(1))?;
        return write_wanted(out, fault.kind, "");
    };
    write!(out, "{}: ", piece.span.start.saturating_add(1))?;
    let found = text.get(piece.span.start..piece.span.end).unwrap_or("");
    write_wanted(out, fault.kind, found)
}
