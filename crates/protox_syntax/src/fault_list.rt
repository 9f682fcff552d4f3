//! The list of faults: the rows' own in their order, with those noted at nodes in between.

ghost use Rattle.std.specs.Prelude.{◌≡◌, ℕ, ◌<◌, ◌+◌, ◌++◌, ◌^◌, OnOk, IfOk, Some, false, option_to_list};
ghost use Rattle.protox_lexeme.specs.Printed.{printed};
ghost use Rattle.protox_lexeme.specs.Tokens.{shape_of};
ghost use Rattle.protox_syntax.specs.inner.Merge.{faults_of_rows, progress, read_until, with_noted, merge_notes, merged_faults, refusal, row_at};

use protox_descriptor::values::Text;
use protox_grammar::note::{Note, Noted};
use protox_lex::error::{ParseErrorKind, Span};
use protox_lex::lex::{Token, TokenTable};
use std::alloc::{AllocError, Global};

// Adds the faults of `count` rows and their gaps, from `low` on. A table without faults takes no
// walk.
fn add_faults_of_rows(
    alloc: Global,
    table: &TokenTable<'_>,
    low: usize,
    count: usize,
    text_format: bool,
    errors: &mut Vec<ParseErrorKind>,
) -> Result<(), AllocError>
    requires { low + count < 2 ^ 64 }
    ensures { OnOk result (errors.new.items ≡ errors.old.items ++ faults_of_rows text_format table.now.faults low count) }
{
    if table.is_faultless() {
        return Ok(());
    }
    for k in 0..count {
        table.release(alloc, low + k, text_format, errors)?;
    }
    Ok(())
}

// Adds the faults up to where `left` of `total` rows are left. Rows before `next` are done already.
fn add_faults_until(
    alloc: Global,
    table: &TokenTable<'_>,
    total: usize,
    left: usize,
    next: usize,
    text_format: bool,
    errors: &mut Vec<ParseErrorKind>,
) -> Result<usize, AllocError>
    ensures { IfOk result (λ n. progress errors.new.items n text_format ≡ read_until table.now.faults total left (progress errors.old.items next text_format)) }
{
    let count = total.saturating_sub(left).saturating_sub(next);
    add_faults_of_rows(alloc, table, next, count, text_format, errors)?;
    Ok(next + count)
}

// Adds the noted fault, or switches text format on or off. Answers whether it is on.
fn add_noted(
    noted: Noted,
    text_format: bool,
    errors: &mut Vec<ParseErrorKind>,
) -> Result<bool, AllocError>
    ensures { IfOk result (λ on. (n : ℕ) → progress errors.new.items n on ≡ with_noted noted (progress errors.old.items n text_format)) }
{
    match noted {
        Noted::Fault(fault) => {
            errors.push(fault)?;
            Ok(text_format)
        }
        Noted::TextFormat(on) => Ok(on),
    }
}

// Adds what is noted, in order, each note after the faults of the rows that are read before it.
fn merge_notes(
    alloc: Global,
    table: &TokenTable<'_>,
    total: usize,
    notes: Vec<Note>,
    errors: &mut Vec<ParseErrorKind>,
) -> Result<(usize, bool), AllocError>
    ensures { IfOk result (λ x. progress errors.new.items x.0 x.1 ≡ merge_notes table.now.faults total notes.items (progress errors.old.items 0 false)) }
{
    let mut next = 0;
    let mut text_format = false;
    'notes: for note in notes {
        next = add_faults_until(alloc, table, total, note.left, next, text_format, errors)?;
        text_format = add_noted(note.noted, text_format, errors)?;
    }
    Ok((next, text_format))
}

/// All faults up to where `left` of `total` rows are left. The end of the source counts as a row.
pub(crate) fn merged_faults(
    alloc: Global,
    table: &TokenTable<'_>,
    total: usize,
    notes: Vec<Note>,
    left: usize,
) -> Result<Vec<ParseErrorKind>, AllocError>
    ensures { IfOk result (λ es. es.items ≡ merged_faults table.now.faults total notes.items left) }
{
    let mut errors = Vec::new(alloc);
    let (next, text_format) = merge_notes(alloc, table, total, notes, &mut errors)?;
    add_faults_until(alloc, table, total, left, next, text_format, &mut errors)?;
    Ok(errors)
}

fn unexpected_end(alloc: Global, expected: &str) -> Result<Option<ParseErrorKind>, AllocError>
    ensures { IfOk result (λ fault. fault ≡ Some (ParseErrorKind.UnexpectedEof expected.now)) }
{
    let expected = Text::copy(alloc, expected)?;
    Ok(Some(ParseErrorKind::UnexpectedEof { expected }))
}

fn unexpected_token(
    alloc: Global,
    token: &Token<'_>,
    span: Span,
    expected: &str,
) -> Result<Option<ParseErrorKind>, AllocError>
    ensures { IfOk result (λ fault. fault ≡ Some (ParseErrorKind.UnexpectedToken span expected.now (printed (shape_of token.now)))) }
{
    let found = token.to_string(alloc)?;
    let expected = Text::copy(alloc, expected)?;
    Ok(Some(ParseErrorKind::UnexpectedToken {
        span,
        expected,
        found: Text::from_string(found),
    }))
}

/// The fault of the row at which `left` rows are left. An invalid row has none here: its own fault
/// says it.
pub(crate) fn refusal(
    alloc: Global,
    table: &TokenTable<'_>,
    left: usize,
    expected: &str,
) -> Result<Option<ParseErrorKind>, AllocError>
    ensures { IfOk result (λ fault. fault ≡ refusal expected.now (row_at table.now.rows left)) }
{
    let index = table.rows().saturating_sub(left);
    let (Some(token), Some(span)) = (table.row(index), table.span(index)) else {
        return unexpected_end(alloc, expected);
    };
    match token {
        Ok(token) => unexpected_token(alloc, token, span, expected),
        Err(_) => Ok(None),
    }
}

/// Adds the fault of the row at which `left` rows are left.
pub(crate) fn add_refusal(
    alloc: Global,
    table: &TokenTable<'_>,
    left: usize,
    expected: &str,
    errors: &mut Vec<ParseErrorKind>,
) -> Result<(), AllocError>
    ensures { OnOk result (errors.new.items ≡ errors.old.items ++ option_to_list (refusal expected.now (row_at table.now.rows left))) }
{
    match refusal(alloc, table, left, expected)? {
        Some(fault) => errors.push(fault)?,
        None => (),
    }
    Ok(())
}
