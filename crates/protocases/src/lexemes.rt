//! What the lexer gives for a file.

use crate::shown::{show_faults, show_lexeme};
use crate::table::show_table;
use protox_parse::error::Span;
use protox_parse::lex::{Lexer, Token};
use std::alloc::{AllocError, Global};
use std::io::{self, Write};

fn lexer(alloc: Global, source: &str, text_format: bool) -> Lexer<'_> {
    let mut lexer = Token::lexer(alloc, source);
    lexer.set_text_format_mode(text_format);
    lexer
}

// A line for a lexeme.
fn show_at<W: Write>(span: &Span, token: Option<&Token<'_>>, out: &mut W) -> io::Result<()> {
    write!(out, "{}..{} ", span.start, span.end)?;
    show_lexeme(token, out)?;
    writeln!(out)
}

// Writes a line for the next lexeme. Answers whether there was one.
fn show_next<W: Write>(lexer: &mut Lexer<'_>, out: &mut W) -> io::Result<bool> {
    let Some(token) = lexer.next()? else {
        return Ok(false);
    };
    show_at(&lexer.span(), token.as_ref().ok(), out)?;
    Ok(true)
}

// Writes the lexemes, and then their faults.
fn show_left<W: Write>(alloc: Global, lexer: &mut Lexer<'_>, out: &mut W) -> io::Result<()> {
    for _ in 0..u64::MAX {
        if !show_next(lexer, out)? {
            break;
        }
    }
    show_faults(alloc, lexer.errors(), out)
}

// Writes the lexemes in a mode, and then their faults.
fn show_all<W: Write>(
    alloc: Global,
    source: &str,
    text_format: bool,
    out: &mut W,
) -> io::Result<()> {
    let mut lexer = lexer(alloc, source, text_format);
    show_left(alloc, &mut lexer, out)
}

// How many faults the lexemes have.
fn count_left(lexer: &mut Lexer<'_>) -> Result<usize, AllocError> {
    for _ in 0..u64::MAX {
        if lexer.next()?.is_none() {
            break;
        }
    }
    Ok(lexer.errors().len())
}

// How many faults there are in a mode.
fn count_faults(alloc: Global, source: &str, text_format: bool) -> Result<usize, AllocError> {
    let mut lexer = lexer(alloc, source, text_format);
    count_left(&mut lexer)
}

// Writes the lexemes and faults of a source; once more in text format if that makes a difference.
fn show_lexer<W: Write>(alloc: Global, source: &str, out: &mut W) -> io::Result<()> {
    show_all(alloc, source, false, out)?;
    if count_faults(alloc, source, true)? == count_faults(alloc, source, false)? {
        return Ok(());
    }
    writeln!(out, "-- in text format")?;
    show_all(alloc, source, true, out)
}

/// Writes the name, and what the lexer and the table give for these bytes.
pub fn write_lexemes<W: Write>(
    alloc: Global,
    out: &mut W,
    name: &str,
    bytes: &[u8],
) -> io::Result<()> {
    writeln!(out, "== {name}")?;
    match str::from_utf8(bytes) {
        Ok(source) => {
            show_lexer(alloc, source, out)?;
            show_table(alloc, source, out)
        }
        Err(_) => writeln!(out, "no text"),
    }
}
