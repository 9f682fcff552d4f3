//! Checks of syntax statements, imports and packages.

ghost use Rattle.std.specs.Prelude.{◌≡◌, ◌++◌, ◌==◌, OnOk};
ghost use Rattle.std.specs.List.{list_any};
ghost use Rattle.protox_ast.specs.Checks.{is_known_syntax, is_import_path, is_plain_component};
ghost use Rattle.protox_grammar.specs.Told.{noted, path_faults, syntax_notes};
ghost use Rattle.protox_grammar.proofs.Lemmas.{again_notes};

use protox_grammar::note::Note;
use protox_lex::error::{ParseErrorKind, Span};
use protox_rows::checks::{add_read_fault, add_run_fault};
use protox_rows::leaf::copied;
use protox_rows::rows::Unread;
use protox_rows::strings::text_of;
use std::alloc::{AllocError, Global};

// `proto2` or `proto3`.
fn is_known_syntax(value: &[u8]) -> bool
    ensures { result ≡ is_known_syntax value.now }
{
    value == b"proto2".as_slice() || value == b"proto3".as_slice()
}

fn has_backslash(component: &str) -> bool
    ensures { result ≡ list_any (λ b. b == 92) component.now }
{
    component.bytes().any(|b| b == b'\\')
}

fn is_plain_component(component: &str) -> bool
    ensures { result ≡ is_plain_component component.now }
{
    !component.is_empty() && component != "." && component != ".." && !has_backslash(component)
}

fn is_import_path(path: &str) -> bool
    ensures { result ≡ is_import_path path.now }
{
    path.split('/')
        .all(|component| is_plain_component(component))
}

/// Checks that the syntax statement names `proto2` or `proto3`.
pub fn check_syntax(
    alloc: Global,
    notes: &mut Vec<Note>,
    rows: &Unread<'_, '_>,
    value: &[u8],
    span: &Span,
) -> Result<(), AllocError>
    ensures { OnOk result (notes.new.items ≡ notes.old.items ++ syntax_notes (value.now, span.now) rows.now) }
{
    if is_known_syntax(value) {
        return Ok(());
    }
    let fault = ParseErrorKind::UnknownSyntax {
        span: copied(span),
        syntax: text_of(alloc, value)?,
    };
    add_run_fault(notes, rows, fault)
}

/// Checks that an import is a path of plain components.
pub fn check_path(
    notes: &mut Vec<Note>,
    rows: &Unread<'_, '_>,
    path: &str,
    span: &Span,
) -> Result<(), AllocError>
    ensures { OnOk result (notes.new.items ≡ notes.old.items ++ noted (path_faults path.now span.now) rows.now) }
{
    if is_import_path(path) {
        return Ok(());
    }
    let span = copied(span);
    add_run_fault(notes, rows, ParseErrorKind::InvalidImport { span })
}

/// Checks that no package statement comes before this one.
pub fn check_package(
    notes: &mut Vec<Note>,
    rows: &Unread<'_, '_>,
    first: &Option<Span>,
    span: &Span,
) -> Result<(), AllocError>
    ensures { OnOk result (notes.new.items ≡ notes.old.items ++ again_notes first.now span.now rows.now) }
{
    match first {
        None => Ok(()),
        Some(first) => {
            let first = copied(first);
            let second = copied(span);
            add_read_fault(
                notes,
                rows,
                ParseErrorKind::DuplicatePackage { first, second },
            )
        }
    }
}
