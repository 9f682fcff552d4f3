//! What the token table answers.

use crate::shown::{show_faults, show_gap, show_lexeme};
use protox_parse::comments::{GapComments, gap_comments};
use protox_parse::error::ParseErrorKind;
use protox_parse::lex::{Token, TokenTable};
use protox_parse::values::{Items, Text};
use std::alloc::{AllocError, Global};
use std::io::{self, Write};

fn show_comment<W: Write>(place: &str, text: &Option<Text>, out: &mut W) -> io::Result<()> {
    match text {
        Some(text) => writeln!(out, "  {place} {:?}", text.as_str()),
        None => Ok(()),
    }
}

fn show_detached<W: Write>(texts: &Items<Text>, out: &mut W) -> io::Result<()> {
    for text in texts.as_slice() {
        writeln!(out, "  detached {:?}", text.as_str())?;
    }
    Ok(())
}

fn show_attributed<W: Write>(comments: &GapComments, out: &mut W) -> io::Result<()> {
    show_comment("trailing", &comments.trailing, out)?;
    show_detached(&comments.detached, out)?;
    show_comment("leading", &comments.leading, out)
}

// The token of row `k`, unless it is invalid or there is none.
fn token_at<'t, 'a>(table: &'t TokenTable<'a>, k: usize) -> Option<&'t Token<'a>> {
    match table.row(k) {
        Some(Ok(token)) => Some(token),
        _ => None,
    }
}

// The gap before row `k`, and the declarations that its comments belong to.
fn show_comments<W: Write>(
    alloc: Global,
    table: &TokenTable<'_>,
    k: usize,
    out: &mut W,
) -> io::Result<()> {
    let Some(gap) = table.gap(k) else {
        return Ok(());
    };
    show_gap(gap, out)?;
    let comments = gap_comments(alloc, gap, k == 0, token_at(table, k))?;
    show_attributed(&comments, out)
}

// The faults at row `k` in a mode.
fn released(
    alloc: Global,
    table: &TokenTable<'_>,
    k: usize,
    text_format: bool,
) -> Result<Vec<ParseErrorKind>, AllocError> {
    let mut faults = Vec::new(alloc);
    table.release(alloc, k, text_format, &mut faults)?;
    Ok(faults)
}

fn show_both<W: Write>(
    alloc: Global,
    outside: &[ParseErrorKind],
    inside: &[ParseErrorKind],
    out: &mut W,
) -> io::Result<()> {
    show_faults(alloc, outside, out)?;
    if inside.len() != outside.len() {
        writeln!(out, "in text format faults: {}", inside.len())?;
        show_faults(alloc, inside, out)?;
    }
    Ok(())
}

// The faults at row `k`; once more in text format if that makes a difference.
fn show_released<W: Write>(
    alloc: Global,
    table: &TokenTable<'_>,
    k: usize,
    out: &mut W,
) -> io::Result<()> {
    let outside = released(alloc, table, k, false)?;
    let inside = released(alloc, table, k, true)?;
    show_both(alloc, &outside, &inside, out)
}

fn show_row<W: Write>(table: &TokenTable<'_>, k: usize, out: &mut W) -> io::Result<()> {
    let Some(span) = table.span(k) else {
        return writeln!(out, "rows: {k}");
    };
    write!(out, "row {}..{} ", span.start, span.end)?;
    show_lexeme(token_at(table, k), out)?;
    writeln!(out)
}

fn show_rows<W: Write>(alloc: Global, table: &TokenTable<'_>, out: &mut W) -> io::Result<()> {
    for k in 0..=table.rows() {
        show_comments(alloc, table, k, out)?;
        show_released(alloc, table, k, out)?;
        show_row(table, k, out)?;
    }
    Ok(())
}

/// Writes the rows of a source's table, and before each its gap, the comments there, and the faults
/// of both.
pub fn show_table<W: Write>(alloc: Global, source: &str, out: &mut W) -> io::Result<()> {
    writeln!(out, "-- table")?;
    let table = TokenTable::new(alloc, source)?;
    show_rows(alloc, &table, out)
}
