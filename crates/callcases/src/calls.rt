//! Prints calls that take memory, and the answer of each. If memory is refused, a call answers that
//! it is out of memory, or what it would answer otherwise.

mod answers;
mod descriptors;
mod parts;
mod trees;
mod values;

use crate::states::{comments_stay, keywords, lexer_stays};
use protox_parse::comments::gap_comments;
use protox_parse::lex::TokenTable;
use protox_parse::values::Text;
use std::alloc::{AllocError, Global};
use std::io::{self, Write};

// How many rows a source has, and the faults of the second.
fn released(alloc: Global, table: &TokenTable<'_>) -> Result<String, AllocError> {
    let mut faults = Vec::new(alloc);
    table.release(alloc, 1, false, &mut faults)?;
    format!(in alloc; "{} {faults:?}", table.rows())
}

// The comment that trails in the gap before the second row.
fn trailing(alloc: Global, table: &TokenTable<'_>) -> Result<Option<Text>, AllocError> {
    match table.gap(1) {
        Some(gap) => Ok(gap_comments(alloc, gap, false, None)?.trailing),
        None => Ok(None),
    }
}

fn tables(alloc: Global) -> Result<String, AllocError> {
    let table = TokenTable::new(alloc, "; // t\n\n// l\n0x1g")?;
    released(alloc, &table)
}

fn gaps(alloc: Global) -> Result<String, AllocError> {
    let table = TokenTable::new(alloc, "; // t\n\n// l\n0x1g")?;
    let comment = trailing(alloc, &table)?;
    format!(in alloc; "{comment:?}")
}

// How many rows a part of a source has, and where it ends.
fn rows_and_end(
    part: Result<(TokenTable<'_>, usize), AllocError>,
) -> Result<(usize, usize), AllocError> {
    let (table, end) = part?;
    Ok((table.rows(), end))
}

// The first part of a source, up to a place.
fn part_of(
    alloc: Global,
    source: &str,
    until: usize,
) -> Result<(TokenTable<'_>, usize), AllocError> {
    TokenTable::part(alloc, source, 0, until.min(source.len()))
}

// The first part of a source, or the whole source where the last lexeme of the part ends more than
// `long` bytes behind the place.
fn part_or_rest(
    alloc: Global,
    source: &str,
    until: usize,
    long: usize,
) -> Result<(TokenTable<'_>, usize), AllocError> {
    TokenTable::part_or_rest(alloc, source, 0, until.min(source.len()), long)
}

// Parts of a source up to a place in its comment. The comment ends 11 bytes behind it, with the
// blank that follows.
fn table_parts(alloc: Global) -> Result<String, AllocError> {
    let source = "a /* one two */ b c";
    let part = rows_and_end(part_of(alloc, source, 5))?;
    let rest = rows_and_end(part_or_rest(alloc, source, 5, 10))?;
    let near = rows_and_end(part_or_rest(alloc, source, 5, 11))?;
    format!(in alloc; "{part:?} {rest:?} {near:?}")
}

// A line with the call and its answer.
fn write_answer<W: Write>(
    out: &mut W,
    call: &str,
    answer: Result<String, AllocError>,
) -> io::Result<()> {
    match answer {
        Ok(text) => writeln!(out, "{call}: {text}"),
        Err(_) => writeln!(out, "{call}: out of memory"),
    }
}

fn write_trees<W: Write>(alloc: Global, out: &mut W) -> io::Result<()> {
    write_answer(out, "names", trees::names(alloc))?;
    write_answer(out, "single names", trees::single_names(alloc))?;
    write_answer(out, "types", trees::types(alloc))?;
    write_answer(out, "syntaxes", trees::syntaxes(alloc))?;
    write_answer(out, "integers", trees::integers(alloc))?;
    write_answer(out, "strings", trees::strings(alloc))?;
    write_answer(out, "quotes", trees::quotes(alloc))?;
    write_answer(out, "option places", trees::option_places(alloc))?;
    write_answer(out, "options", trees::options(alloc))?;
    write_answer(out, "boxes", trees::boxes(alloc))
}

fn write_values<W: Write>(alloc: Global, out: &mut W) -> io::Result<()> {
    write_answer(out, "identifiers", values::identifiers(alloc))?;
    write_answer(out, "pascal case", values::pascal_case(alloc))?;
    write_answer(out, "texts", values::texts(alloc))?;
    write_answer(out, "short texts", values::short_texts(alloc))?;
    write_answer(out, "lists", values::lists(alloc))?;
    write_answer(out, "changed lists", values::changed_lists(alloc))?;
    write_answer(out, "numbers", values::numbers(alloc))?;
    write_answer(out, "named numbers", values::named_numbers(alloc))
}

fn write_descriptors<W: Write>(alloc: Global, out: &mut W) -> io::Result<()> {
    write_answer(out, "files", descriptors::files(alloc))?;
    write_answer(out, "messages", descriptors::messages(alloc))?;
    write_answer(out, "equal messages", descriptors::equal_messages(alloc))?;
    write_answer(out, "fields", descriptors::fields(alloc))?;
    write_answer(out, "changed fields", descriptors::changed_fields(alloc))?;
    write_answer(out, "locations", descriptors::locations(alloc))?;
    write_answer(
        out,
        "changed locations",
        descriptors::changed_locations(alloc),
    )?;
    write_answer(out, "places", descriptors::places(alloc))?;
    write_answer(out, "ends", descriptors::ends(alloc))
}

fn write_answers<W: Write>(alloc: Global, out: &mut W) -> io::Result<()> {
    write_answer(out, "helps", answers::helps(alloc))?;
    write_answer(out, "limits", answers::limits(alloc))?;
    write_answer(out, "refusals", answers::refusals(alloc))?;
    write_answer(out, "faults", answers::faults(alloc))?;
    write_answer(out, "expected tokens", answers::expected_tokens(alloc))?;
    write_answer(out, "finds", answers::finds(alloc))?;
    write_answer(out, "lines", answers::lines(alloc))
}

fn write_tokens<W: Write>(alloc: Global, out: &mut W) -> io::Result<()> {
    write_answer(out, "tables", tables(alloc))?;
    write_answer(out, "gaps", gaps(alloc))?;
    write_answer(out, "parts", table_parts(alloc))?;
    write_answer(out, "keywords", keywords(alloc))?;
    write_answer(out, "comments", comments_stay(alloc))?;
    write_answer(out, "lexer", lexer_stays(alloc))
}

fn write_parts<W: Write>(alloc: Global, out: &mut W) -> io::Result<()> {
    write_answer(out, "located", parts::located(alloc))?;
    write_answer(out, "described", parts::described(alloc))?;
    write_answer(out, "pooled", parts::pooled(alloc))?;
    write_answer(out, "read", parts::read(alloc))
}

/// Writes a line for each call.
pub fn write_calls<W: Write>(alloc: Global, out: &mut W) -> io::Result<()> {
    writeln!(out, "== calls")?;
    write_trees(alloc, out)?;
    write_values(alloc, out)?;
    write_descriptors(alloc, out)?;
    write_answers(alloc, out)?;
    write_tokens(alloc, out)?;
    write_parts(alloc, out)
}
