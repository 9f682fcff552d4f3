//! Tokens and faults as lines.

use protox_parse::error::ParseErrorKind;
use protox_parse::lex::Token;
use std::alloc::Global;
use std::io::{self, Write};

// The text of a comment is quoted, since it may end in a newline.
fn show_token<W: Write>(token: &Token<'_>, out: &mut W) -> io::Result<()> {
    match token {
        Token::LineComment(text) => write!(out, "// {:?}", text.as_str()),
        Token::BlockComment(text) => write!(out, "/* {:?}", text.as_str()),
        Token::Newline => write!(out, "newline"),
        token => write!(out, "{token}"),
    }
}

/// A token; None is an invalid character.
pub fn show_lexeme<W: Write>(token: Option<&Token<'_>>, out: &mut W) -> io::Result<()> {
    match token {
        Some(token) => show_token(token, out),
        None => write!(out, "invalid"),
    }
}

/// The tokens of a gap, on a line.
pub fn show_gap<W: Write>(gap: &[Token<'_>], out: &mut W) -> io::Result<()> {
    if gap.is_empty() {
        return Ok(());
    }
    write!(out, "gap:")?;
    for token in gap {
        write!(out, " ")?;
        show_token(token, out)?;
    }
    writeln!(out)
}

// Where a fault is, what is wrong, and the notes beside it.
fn show_fault<W: Write>(alloc: Global, fault: &ParseErrorKind, out: &mut W) -> io::Result<()> {
    match fault.span() {
        Some(span) => write!(out, "fault {}..{}: {fault}", span.start, span.end)?,
        None => write!(out, "fault: {fault}")?,
    }
    if let Some(label) = fault.label() {
        write!(out, "; {label}")?;
    }
    if let Some(help) = fault.help(alloc)? {
        write!(out, "; help: {help}")?;
    }
    writeln!(out)
}

/// Writes a line for each fault.
pub fn show_faults<W: Write>(
    alloc: Global,
    faults: &[ParseErrorKind],
    out: &mut W,
) -> io::Result<()> {
    for fault in faults {
        show_fault(alloc, fault, out)?;
    }
    Ok(())
}
