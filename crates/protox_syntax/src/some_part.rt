//! Reads a part of a source behind which other parts come.

ghost use Rattle.std.specs.Prelude.{◌≡◌, ◌≢◌, List, None, true, false, IfOk, IfSome, OnOk};
ghost use Rattle.std.specs.Option.{is_none};
ghost use Rattle.protox_ast.specs.declared.ast.FileItem as item_type;
ghost use Rattle.protox_grammar.specs.Told.{AreValidTokens};
ghost use Rattle.protox_ast.specs.Places.{placed};
ghost use Rattle.protox_syntax.specs.inner.Parts.{IsBetween, IsPartOf, lexemes_from, with_syntax};
ghost use Rattle.protox_syntax.specs.inner.SomeRead.{IsBehindFirst, IsSyntaxRead};

use crate::parts::{Part, Progress, note_progress};
use crate::statement_loop::{Going, are_right, read_statements};
use crate::statements::syntax_if_any;
use protox_ast::ast::{Comments, File, Syntax};
use protox_fault::error::Span;
use protox_rows::refused::Refused;
use protox_rows::rows::Unread;
use std::alloc::{AllocError, Global};

/// Keeps the syntax that the first statement names.
pub(crate) fn keep_syntax(head: &mut File, found: Option<(Syntax, (Span, Comments))>)
    ensures { head.new ≡ with_syntax head.old found }
{
    if let Some((syntax, place)) = found {
        head.syntax = syntax;
        head.syntax_span = Some(place);
    }
}

// Reads the syntax statement, if there is one. Answers false if the part doesn't have it whole, or
// if something is wrong with it.
fn read_syntax(
    alloc: Global,
    rows: &mut Unread<'_, '_>,
    head: &mut File,
) -> Result<bool, AllocError>
    ensures read { AreValidTokens rows.old → IfOk result (λ read. read ≡ true → IsSyntaxRead rows.old rows.new head.old head.new) }
    ensures same { IfOk result (λ read. read ≡ false → head.new ≡ head.old) }
{
    let mut notes = Vec::new(alloc);
    match syntax_if_any(alloc, &mut notes, rows) {
        Ok(found) => {
            if rows.is_empty() || !are_right(notes.as_slice()) {
                return Ok(false);
            }
            keep_syntax(head, found);
            Ok(true)
        }
        Err(Refused::OutOfMemory) => Err(AllocError),
        Err(_) => Ok(false),
    }
}

// The rows of a part with which reading begins, or None where something is wrong with its syntax
// statement. The first row of a later part has been read before.
fn first_rows<'t, 'a>(
    alloc: Global,
    part: &'t Part<'a>,
    head: &mut File,
) -> Result<Option<Unread<'t, 'a>>, AllocError>
    ensures first { part.now.begins ≡ true → AreValidTokens (placed part.now.table) → IfOk result (λ found. IfSome found (λ rows. IsSyntaxRead (placed part.now.table) rows head.old head.new)) }
    ensures later { part.now.begins ≡ false → IfOk result (λ found. IfSome found (λ rows. IsBehindFirst (placed part.now.table) rows)) }
    ensures same { part.now.begins ≡ false → OnOk result (head.new ≡ head.old) }
    ensures none { IfOk result (λ found. found ≡ None → head.new ≡ head.old) }
{
    let mut rows = Unread::all(&part.table);
    if part.begins {
        if read_syntax(alloc, &mut rows, head)? {
            return Ok(Some(rows));
        }
        return Ok(None);
    }
    match rows.split() {
        Some((_, rest)) => Ok(Some(rest)),
        None => Ok(None),
    }
}

/// Reads a part, as far as it has statements whole, and notes in `progress` how far. Answers false
/// if something in it is odd: what is wrong depends on the rest of the source.
pub(crate) fn read_some(
    alloc: Global,
    source: &str,
    part: &Part<'_>,
    head: &mut File,
    progress: &mut Progress,
) -> Result<bool, AllocError>
    requires more { part.now.ends ≡ false }
    requires begins { part.now.begins ≡ is_none progress.old.last }
    requires part { IsPartOf (lexemes_from source.now progress.old.last) part.now }
    ensures between { OnOk result ((gone : List item_type.FileItem) → IsBetween source.now progress.old gone head.old → IsBetween source.now progress.new gone head.new) }
    ensures syntax { OnOk result (progress.old.last ≢ None → head.new.syntax ≡ head.old.syntax) }
    ensures kept { OnOk result (progress.old.last ≢ None → progress.new.last ≢ None) }
{
    if !part.table.is_faultless() {
        return Ok(false);
    }
    let Some(mut rows) = first_rows(alloc, part, head)? else {
        return Ok(false);
    };
    let mut notes = Vec::new(alloc);
    let going = read_statements(alloc, source, part, &mut notes, &mut rows, head)?;
    note_progress(part, &rows, progress);
    Ok(!matches!(going, Going::Odd))
}
