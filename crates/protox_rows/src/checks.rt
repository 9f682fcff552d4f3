//! Checks of strings. A fault is noted, and reading goes on.

ghost use Rattle.std.specs.Prelude.{◌≡◌, ◌++◌, OnOk};
ghost use Rattle.protox_ast.specs.Checks.{is_text};
ghost use Rattle.protox_grammar.specs.Reader.{head_in};
ghost use Rattle.protox_grammar.specs.Told.{ident_faults, is_invalid, noted, read_note, run_note, text_faults};

use crate::leaf::copied;
use crate::rows::Unread;
use protox_descriptor::case::is_valid_ident;
use protox_grammar::note::{Note, Noted};
use protox_lex::error::{ParseErrorKind, Span};
use std::alloc::AllocError;

fn sees_invalid(rows: &Unread<'_, '_>) -> bool
    ensures { result ≡ head_in is_invalid rows.now }
{
    match rows.first() {
        Some(first) => first.token().is_err(),
        None => false,
    }
}

/// Notes a fault of the run of strings just read. It is dropped if the next token is invalid, since
/// that is reported alone.
pub fn add_run_fault(
    notes: &mut Vec<Note>,
    rows: &Unread<'_, '_>,
    fault: ParseErrorKind,
) -> Result<(), AllocError>
    ensures { OnOk result (notes.new.items ≡ notes.old.items ++ run_note fault rows.now) }
{
    if sees_invalid(rows) {
        return Ok(());
    }
    notes.push(Note {
        left: rows.len(),
        noted: Noted::Fault(fault),
    })?;
    Ok(())
}

/// Notes a fault of the node just read. It comes after the faults of the next token, even if that
/// is invalid.
pub fn add_read_fault(
    notes: &mut Vec<Note>,
    rows: &Unread<'_, '_>,
    fault: ParseErrorKind,
) -> Result<(), AllocError>
    ensures { OnOk result (notes.new.items ≡ notes.old.items ++ read_note fault rows.now) }
{
    notes.push(Note {
        left: rows.len(),
        noted: Noted::Fault(fault),
    })?;
    Ok(())
}

fn is_text(bytes: &[u8]) -> bool
    ensures { result ≡ is_text bytes.now }
{
    match str::from_utf8(bytes) {
        Ok(_) => true,
        Err(_) => false,
    }
}

/// Notes a fault if the string is not UTF-8.
pub fn check_text(
    notes: &mut Vec<Note>,
    rows: &Unread<'_, '_>,
    value: &[u8],
    span: &Span,
) -> Result<(), AllocError>
    ensures { OnOk result (notes.new.items ≡ notes.old.items ++ noted (text_faults value.now span.now) rows.now) }
{
    if is_text(value) {
        return Ok(());
    }
    let span = copied(span);
    add_run_fault(notes, rows, ParseErrorKind::InvalidUtf8String { span })
}

/// Notes a fault if the text is not an identifier.
pub fn check_ident(
    notes: &mut Vec<Note>,
    rows: &Unread<'_, '_>,
    name: &str,
    span: &Span,
) -> Result<(), AllocError>
    ensures { OnOk result (notes.new.items ≡ notes.old.items ++ noted (ident_faults name.now span.now) rows.now) }
{
    if is_valid_ident(name) {
        return Ok(());
    }
    let span = copied(span);
    add_run_fault(notes, rows, ParseErrorKind::InvalidIdentifier { span })
}
