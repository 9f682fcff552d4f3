//! Reads the last part of a source, or a source that is one part.

ghost use Rattle.std.specs.Prelude.{◌≡◌, ◌≢◌, ◌≤◌, ◌+◌, ◌^◌, ◌<◌, [], List, None, Err, true, false, length, IfErr, IfOk, OnOk};
ghost use Rattle.std.specs.Option.{is_none};
ghost use Rattle.protox_ast.specs.Accepted.{Fits};
ghost use Rattle.protox_ast.specs.Places.{placed};
ghost use Rattle.protox_ast.specs.declared.ast.FileItem as item_type;
ghost use Rattle.protox_fault.specs.declared.error.SyntaxFailure.TheVariants as failure;
ghost use Rattle.protox_grammar.specs.Reader.{Deep, Unexpected, head_in};
ghost use Rattle.protox_grammar.specs.Told.{is_invalid};
ghost use Rattle.protox_syntax.specs.inner.OnWay.{IsOnWay, table_in};
ghost use Rattle.protox_syntax.specs.inner.ParsedTable.{IsTableOf, RefusesTable, rows_left_at_first_note};
ghost use Rattle.protox_syntax.specs.inner.Parts.{IsAll, IsAllButSpan, IsBetween, IsPartOf, IsReached, lexemes_from};
ghost use Rattle.protox_syntax.specs.inner.SoFar.{begun};
ghost use Rattle.protox_syntax.specs.inner.Statements as rule;
ghost use Rattle.protox_syntax.specs.inner.Words as said;

use crate::fault_list::{add_refusal, merged_faults};
use crate::parts::{Part, Progress, span_to_end};
use crate::some_part::keep_syntax;
use crate::statement_loop::read_statements;
use crate::statements::syntax_if_any;
use protox_ast::ast::File;
use protox_grammar::note::Note;
use protox_lex::error::{ParseErrorKind, SyntaxFailure};
use protox_lex::lex::TokenTable;
use protox_rows::expected::Expected;
use protox_rows::refused::Refused;
use protox_rows::rows::Unread;
use std::alloc::{AllocError, Global};

// How many rows are left at the first note.
fn rows_left_at_first_note(notes: &Vec<Note>) -> usize
    ensures { result ≡ rows_left_at_first_note notes.now.items }
{
    match notes.first() {
        Some(note) => note.left,
        None => 0,
    }
}

// The first row is invalid: reading ends there.
fn faults_of_invalid_start(
    alloc: Global,
    table: &TokenTable<'_>,
    size: usize,
) -> Result<Vec<ParseErrorKind>, AllocError>
    requires table { IsTableOf size table.now }
    requires invalid { head_in is_invalid (placed table.now) ≡ true }
    ensures { IfOk result (λ errors. RefusesTable table.now size (failure.Faults errors)) }
{
    let left = table.rows();
    let total = left + 1;
    let errors = merged_faults(alloc, table, total, Vec::new(alloc), left)?;
    Ok(errors)
}

// A check of the syntax statement failed: reading ends there.
fn faults_of_unknown_syntax(
    alloc: Global,
    table: &TokenTable<'_>,
    size: usize,
    notes: Vec<Note>,
) -> Result<Vec<ParseErrorKind>, AllocError>
    requires table { IsTableOf size table.now }
    requires valid { head_in is_invalid (placed table.now) ≡ false }
    requires notes { notes.items ≡ (rule.syntax_if_any).notes (placed table.now) }
    requires some { notes.items ≡ [] → ⊥ }
    ensures { IfOk result (λ errors. RefusesTable table.now size (failure.Faults errors)) }
{
    let left = rows_left_at_first_note(&notes);
    let total = table.rows() + 1;
    let errors = merged_faults(alloc, table, total, notes, left)?;
    Ok(errors)
}

// A row of the syntax statement doesn't fit: reading ends there.
fn faults_of_refused_syntax(
    alloc: Global,
    table: &TokenTable<'_>,
    size: usize,
    left: usize,
    expected: Expected,
) -> Result<Vec<ParseErrorKind>, AllocError>
    requires table { IsTableOf size table.now }
    requires valid { head_in is_invalid (placed table.now) ≡ false }
    requires read { (rule.syntax_if_any).code (placed table.now) ≡ Err (Unexpected left) }
    requires notes { (rule.syntax_if_any).notes (placed table.now) ≡ [] }
    requires said { expected ≡ said.whole (placed table.now) }
    ensures { IfOk result (λ errors. RefusesTable table.now size (failure.Faults errors)) }
{
    let total = table.rows() + 1;
    let mut errors = merged_faults(alloc, table, total, Vec::new(alloc), left)?;
    add_refusal(alloc, table, left, expected.text(), &mut errors)?;
    Ok(errors)
}

// Never happens: a syntax statement has no body that could be too deep.
fn syntax_holds_no_body(table: &TokenTable<'_>, left: usize)
    requires read { (rule.syntax_if_any).code (placed table.now) ≡ Err (Deep left) }
    requires notes { (rule.syntax_if_any).notes (placed table.now) ≡ [] }
    ensures { ⊥ }
{
    unreachable!()
}

// Whether the first row is invalid.
fn begins_invalid(rows: &Unread<'_, '_>) -> bool
    ensures { result ≡ head_in is_invalid rows.now }
{
    match rows.first() {
        Some(first) => first.token().is_err(),
        None => false,
    }
}

// Reads the syntax statement of a source, if there is one. The answer is the rows behind it.
#[tactic(auto, unfolding(crate::specs::inner::Whole::whole, crate::specs::inner::Whole::all_notes, crate::specs::inner::Words::whole))]
fn read_front<'t, 'a>(
    alloc: Global,
    source: &str,
    part: &'t Part<'a>,
    head: &mut File,
) -> Result<Unread<'t, 'a>, SyntaxFailure>
    requires fits { Fits source.now }
    requires table { part.now.table ≡ table_in source.now }
    ensures on { IfOk result (λ rows. (gone : List item_type.FileItem) → IsReached (begun None) gone head.old → IsOnWay source.now part.now.table false rows [] gone head.new) }
    ensures refused { IfErr result (RefusesTable (table_in source.now) (length source.now)) }
{
    let size = source.len();
    let table = &part.table;
    let mut notes = Vec::new(alloc);
    let mut rows = Unread::all(table);
    if begins_invalid(&rows) {
        let errors = faults_of_invalid_start(alloc, table, size)?;
        return Err(SyntaxFailure::Faults(errors));
    }
    match syntax_if_any(alloc, &mut notes, &mut rows) {
        Err(Refused::OutOfMemory) => Err(SyntaxFailure::OutOfMemory),
        _ if !notes.is_empty() => {
            let unknown = faults_of_unknown_syntax(alloc, table, size, notes)?;
            Err(SyntaxFailure::Faults(unknown))
        }
        Err(Refused::At { left, expected }) => {
            let unfit = faults_of_refused_syntax(alloc, table, size, left, expected)?;
            Err(SyntaxFailure::Faults(unfit))
        }
        Err(Refused::TooDeep { left }) => {
            syntax_holds_no_body(table, left);
            Err(SyntaxFailure::OutOfMemory)
        }
        Ok(syntax) => {
            keep_syntax(head, syntax);
            Ok(rows)
        }
    }
}

// Reads the statements to the end of the source.
fn read_to_end<'t, 'a>(
    alloc: Global,
    source: &str,
    part: &'t Part<'a>,
    rest: Unread<'t, 'a>,
    head: &mut File,
) -> Result<(), SyntaxFailure>
    requires fits { Fits source.now }
    requires ends { part.now.ends ≡ true }
    requires on { (gone : List item_type.FileItem) × IsOnWay source.now part.now.table false rest [] gone head.old }
    ensures read { OnOk result ((gone : List item_type.FileItem) → IsOnWay source.now part.now.table false rest.entry [] gone head.old → IsAllButSpan source.now gone head.new) }
    ensures syntax { OnOk result (head.new.syntax ≡ head.old.syntax) }
    ensures refused { IfErr result (RefusesTable (table_in source.now) (length source.now)) }
{
    let mut notes = Vec::new(alloc);
    let mut rows = rest;
    read_statements(alloc, source, part, &mut notes, &mut rows, head)?;
    let total = part.table.rows() + 1;
    let errors = merged_faults(alloc, &part.table, total, notes, 0)?;
    if errors.is_empty() {
        return Ok(());
    }
    Err(SyntaxFailure::Faults(errors))
}

// The rows with which reading goes on in the last part. The first row of a later part has been read
// before.
fn last_rows<'t, 'a>(
    alloc: Global,
    source: &str,
    part: &'t Part<'a>,
    head: &mut File,
    progress: &Progress,
) -> Result<Unread<'t, 'a>, SyntaxFailure>
    requires fits { Fits source.now }
    requires ends { part.now.ends ≡ true }
    requires begins { part.now.begins ≡ is_none progress.now.last }
    requires part { IsPartOf (lexemes_from source.now progress.now.last) part.now }
    requires between { (gone : List item_type.FileItem) × IsBetween source.now progress.now gone head.old }
    ensures on { IfOk result (λ rows. (gone : List item_type.FileItem) → IsBetween source.now progress.now gone head.old → IsOnWay source.now part.now.table false rows [] gone head.new) }
    ensures syntax { OnOk result (progress.now.last ≢ None → head.new.syntax ≡ head.old.syntax) }
    ensures refused { IfErr result (RefusesTable (table_in source.now) (length source.now)) }
{
    if part.begins {
        return read_front(alloc, source, part, head);
    }
    match Unread::all(&part.table).split() {
        Some((_, rest)) => Ok(rest),
        None => Ok(Unread::all(&part.table)),
    }
}

/// Reads the last part of a source. The answer says what is wrong with the source, if something is.
/// Else the head is its syntax tree, but for the items that were handed over before.
pub(crate) fn read_last(
    alloc: Global,
    source: &str,
    part: &Part<'_>,
    head: &mut File,
    progress: &Progress,
) -> Result<(), SyntaxFailure>
    requires fits { Fits source.now }
    requires ends { part.now.ends ≡ true }
    requires begins { part.now.begins ≡ is_none progress.now.last }
    requires part { IsPartOf (lexemes_from source.now progress.now.last) part.now }
    requires between { (gone : List item_type.FileItem) × IsBetween source.now progress.now gone head.old }
    ensures read { OnOk result ((gone : List item_type.FileItem) → IsBetween source.now progress.now gone head.old → IsAll source.now gone head.new) }
    ensures syntax { OnOk result (progress.now.last ≢ None → head.new.syntax ≡ head.old.syntax) }
    ensures refused { IfErr result (RefusesTable (table_in source.now) (length source.now)) }
{
    let rows = last_rows(alloc, source, part, head, progress)?;
    read_to_end(alloc, source, part, rows, head)?;
    head.span = span_to_end(part, source.len(), progress);
    Ok(())
}
