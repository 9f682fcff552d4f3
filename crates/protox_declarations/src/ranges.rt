//! Reads ranges, and reserved and extensions statements.

ghost use Rattle.std.specs.Prelude.{◌≡◌, ◌++◌, IfOk, OnOk};
ghost use Rattle.protox_ast.specs.Ast.{text_of};
ghost use Rattle.protox_grammar.specs.Told.{name_notes};
ghost use Rattle.protox_rows.specs.inner.Outcome.{Gives};
ghost use Rattle.protox_rows.specs.inner.Words.{Says};
ghost use Rattle.protox_declarations.specs.inner.BlockWords as said;
ghost use Rattle.protox_rows.specs.inner.Words as row_said;
ghost use Rattle.protox_rows.specs.inner.Notes.{Adds};
ghost use Rattle.protox_declarations.specs.inner.Ranges as rule;

use crate::options::list_if_any;
use protox_ast::ast::{
    Boxed, Extensions, Ident, OptionList, Reserved, ReservedKind, ReservedRange, ReservedRangeEnd,
};
use protox_descriptor::values::{Items, Text};
use protox_grammar::note::Note;
use protox_lex::error::Span;
use protox_rows::checks::{check_ident, check_text};
use protox_rows::class::{COMMA, INTEGER, MINUS, TO, sees, sees_any};
use protox_rows::expected::Expected;
use protox_rows::leaf::{expect_mark, expect_word};
use protox_rows::names::int;
use protox_rows::refused::Refused;
use protox_rows::rows::{Unread, comments_between, span_between};
use protox_rows::strings::{strings, text_of};
use std::alloc::{AllocError, Global};

// "to" (int | "max")
#[tactic(auto, unfolding(crate::specs::inner::Ranges::range_end, crate::specs::inner::BlockWords::range_end))]
fn range_end(rows: &mut Unread<'_, '_>) -> Result<ReservedRangeEnd, Refused>
    ensures read { Gives (λ x. x) result rows.new ((rule.range_end).code rows.old) }
    ensures words { Says result (said.range_end rows.old) }
{
    expect_word(rows, "to", Expected::To)?;
    if sees_any(rows, &[INTEGER, MINUS]) {
        let bound = int(rows)?;
        return Ok(ReservedRangeEnd::Int(bound));
    }
    let max = expect_word(rows, "max", Expected::IntOrMax)?;
    Ok(ReservedRangeEnd::Max(max.span()))
}

// ("to" (int | "max"))?
#[tactic(auto, unfolding(crate::specs::inner::Ranges::stop))]
fn stop(rows: &mut Unread<'_, '_>) -> Result<ReservedRangeEnd, Refused>
    ensures read { Gives (λ x. x) result rows.new ((rule.stop).code rows.old) }
    ensures words { Says result (said.range_end rows.old) }
{
    if sees(rows, TO) {
        return range_end(rows);
    }
    Ok(ReservedRangeEnd::None)
}

/// range = int ("to" (int | "max"))?
#[tactic(auto, unfolding(crate::specs::inner::Ranges::range, crate::specs::inner::BlockWords::range))]
fn range(rows: &mut Unread<'_, '_>) -> Result<ReservedRange, Refused>
    ensures read { Gives (λ x. x) result rows.new ((rule.range).code rows.old) }
    ensures words { Says result (said.range rows.old) }
{
    let start = int(rows)?;
    let end = stop(rows)?;
    Ok(ReservedRange { start, end })
}

#[tactic(auto, unfolding(crate::specs::inner::Ranges::more_range, crate::specs::inner::BlockWords::more_range))]
fn more_range(rows: &mut Unread<'_, '_>) -> Result<ReservedRange, Refused>
    ensures read { Gives (λ x. x) result rows.new ((rule.more_range).code rows.old) }
    ensures words { Says result (said.more_range rows.old) }
{
    expect_mark(rows, b',', Expected::Comma)?;
    range(rows)
}

/// range ("," range)*
#[tactic(auto, unfolding(crate::specs::inner::Ranges::ranges, crate::specs::inner::BlockWords::ranges))]
fn ranges(alloc: Global, rows: &mut Unread<'_, '_>) -> Result<Items<ReservedRange>, Refused>
    ensures read { Gives (λ x. x) result rows.new ((rule.ranges).code rows.old) }
    ensures words { Says result (said.ranges rows.old) }
{
    let first = range(rows)?;
    let mut ranges = Items::new(alloc);
    ranges.push(first)?;
    'more: while sees(rows, COMMA) {
        let range = more_range(rows)?;
        ranges.push(range)?;
    }
    Ok(ranges)
}

// What may follow ranges: it depends on whether the last one has an end.
#[tactic(auto, unfolding(crate::specs::inner::BlockWords::behind_ranges))]
fn behind_ranges(ranges: &[ReservedRange], behind_start: Expected, behind_end: Expected) -> Expected
    ensures { result ≡ said.behind_ranges ranges.now behind_start behind_end }
{
    match ranges.last() {
        Some(range) if matches!(&range.end, ReservedRangeEnd::None) => behind_start,
        _ => behind_end,
    }
}

// Checks the text of a reserved name.
fn checked_name(
    alloc: Global,
    notes: &mut Vec<Note>,
    rows: &Unread<'_, '_>,
    bytes: &[u8],
    span: &Span,
) -> Result<Text, AllocError>
    ensures text { IfOk result (λ t. t ≡ text_of bytes.now) }
    ensures notes { OnOk result (notes.new.items ≡ notes.old.items ++ name_notes (bytes.now, span.now) rows.now) }
{
    check_text(notes, rows, bytes, span)?;
    let text = text_of(alloc, bytes)?;
    check_ident(notes, rows, text.as_str(), span)?;
    Ok(text)
}

/// string+ , read as a reserved name
#[tactic(auto, unfolding(crate::specs::inner::Ranges::reserved_name))]
fn reserved_name(
    alloc: Global,
    notes: &mut Vec<Note>,
    rows: &mut Unread<'_, '_>,
    expected: Expected,
) -> Result<Ident, Refused>
    ensures read { Gives (λ x. x) result rows.new ((rule.reserved_name).code rows.old) }
    ensures notes { Adds result notes.old.items ((rule.reserved_name).notes rows.old) notes.new.items }
    ensures words { Says result (row_said.strings expected rows.old) }
{
    let (bytes, span) = strings(alloc, rows, expected)?;
    let value = checked_name(alloc, notes, rows, &bytes, &span)?;
    Ok(Ident { value, span })
}

#[tactic(auto, unfolding(crate::specs::inner::Ranges::more_name, crate::specs::inner::BlockWords::more_name))]
fn more_name(
    alloc: Global,
    notes: &mut Vec<Note>,
    rows: &mut Unread<'_, '_>,
) -> Result<Ident, Refused>
    ensures read { Gives (λ x. x) result rows.new ((rule.more_name).code rows.old) }
    ensures notes { Adds result notes.old.items ((rule.more_name).notes rows.old) notes.new.items }
    ensures words { Says result (said.more_name rows.old) }
{
    expect_mark(rows, b',', Expected::CommaOrSemicolon)?;
    reserved_name(alloc, notes, rows, Expected::StringLiteral)
}

/// string+ ("," string+)*
#[tactic(auto, unfolding(crate::specs::inner::Ranges::names, crate::specs::inner::BlockWords::names_of))]
fn names(
    alloc: Global,
    notes: &mut Vec<Note>,
    rows: &mut Unread<'_, '_>,
) -> Result<Items<Ident>, Refused>
    ensures read { Gives (λ x. x) result rows.new ((rule.names).code rows.old) }
    ensures notes { Adds result notes.old.items ((rule.names).notes rows.old) notes.new.items }
    ensures words { Says result (said.names_of rows.old) }
{
    let first = reserved_name(alloc, notes, rows, Expected::ReservedItem)?;
    let mut names = Items::new(alloc);
    names.push(first)?;
    'more: while sees(rows, COMMA) {
        let name = more_name(alloc, notes, rows)?;
        names.push(name)?;
    }
    Ok(names)
}

#[tactic(auto, unfolding(crate::specs::inner::Ranges::reserved_kind, crate::specs::inner::BlockWords::reserved_kind))]
fn reserved_kind(
    alloc: Global,
    notes: &mut Vec<Note>,
    rows: &mut Unread<'_, '_>,
) -> Result<ReservedKind, Refused>
    ensures read { Gives (λ x. x) result rows.new ((rule.reserved_kind).code rows.old) }
    ensures notes { Adds result notes.old.items ((rule.reserved_kind).notes rows.old) notes.new.items }
    ensures words { Says result (said.reserved_kind rows.old) }
{
    if sees_any(rows, &[INTEGER, MINUS]) {
        let ranges = ranges(alloc, rows)?;
        return Ok(ReservedKind::Ranges(ranges));
    }
    let names = names(alloc, notes, rows)?;
    Ok(ReservedKind::Names(names))
}

#[tactic(auto, unfolding(crate::specs::inner::BlockWords::behind_reserved))]
fn behind_reserved(kind: &ReservedKind) -> Expected
    ensures { result ≡ said.behind_reserved kind.now }
{
    match kind {
        ReservedKind::Ranges(ranges) => behind_ranges(
            ranges.as_slice(),
            Expected::AfterReservedStart,
            Expected::CommaOrSemicolon,
        ),
        ReservedKind::Names(_) => Expected::CommaOrSemicolon,
    }
}

/// reserved = "reserved" (range ("," range)* | string+ ("," string+)*) ";"
#[tactic(auto, unfolding(crate::specs::inner::Ranges::reserved, crate::specs::inner::BlockWords::reserved))]
pub fn reserved(
    alloc: Global,
    notes: &mut Vec<Note>,
    rows: &mut Unread<'_, '_>,
    expected: Expected,
) -> Result<Reserved, Refused>
    ensures read { Gives (λ x. x) result rows.new ((rule.reserved).code rows.old) }
    ensures notes { Adds result notes.old.items ((rule.reserved).notes rows.old) notes.new.items }
    ensures words { Says result (said.reserved expected rows.old) }
{
    let start = expect_word(rows, "reserved", expected)?;
    let kind = reserved_kind(alloc, notes, rows)?;
    let end = expect_mark(rows, b';', behind_reserved(&kind))?;
    let comments = comments_between(alloc, &start, &end)?;
    let span = span_between(&start, &end);
    Ok(Reserved {
        kind,
        comments,
        span,
    })
}

// What may follow the ranges of an extensions statement: a list of options, if there is none yet.
#[tactic(auto, unfolding(crate::specs::inner::BlockWords::behind_extensions))]
fn behind_extensions(ranges: &[ReservedRange], options: &Option<Boxed<OptionList>>) -> Expected
    ensures { result ≡ said.behind_extensions ranges.now options.now }
{
    match options {
        Some(_) => Expected::Semicolon,
        None => behind_ranges(
            ranges,
            Expected::AfterExtensionStart,
            Expected::AfterExtensionEnd,
        ),
    }
}

/// extensions = "extensions" range ("," range)* list? ";"
#[tactic(auto, unfolding(crate::specs::inner::Ranges::extensions, crate::specs::inner::BlockWords::extensions))]
pub fn extensions(
    alloc: Global,
    notes: &mut Vec<Note>,
    rows: &mut Unread<'_, '_>,
    expected: Expected,
) -> Result<Extensions, Refused>
    ensures read { Gives (λ x. x) result rows.new ((rule.extensions).code rows.old) }
    ensures notes { Adds result notes.old.items ((rule.extensions).notes rows.old) notes.new.items }
    ensures words { Says result (said.extensions expected rows.old) }
{
    let start = expect_word(rows, "extensions", expected)?;
    let ranges = ranges(alloc, rows)?;
    let options = list_if_any(alloc, notes, rows)?;
    let end = expect_mark(rows, b';', behind_extensions(ranges.as_slice(), &options))?;
    let comments = comments_between(alloc, &start, &end)?;
    let span = span_between(&start, &end);
    Ok(Extensions {
        ranges,
        options,
        comments,
        span,
    })
}
