//! Reads the statements of a part, one by one.

ghost use Rattle.std.specs.Prelude.{◌≡◌, ◌≢◌, ◌<◌, ◌++◌, [], Bool, List, drop, true, false, length, OnOk, IfOk};
ghost use Rattle.std.specs.List.{list_all};
ghost use Rattle.protox_ast.specs.declared.ast.FileItem as item_type;
ghost use Rattle.protox_grammar.specs.Told.{AreValidTokens};
ghost use Rattle.protox_syntax.specs.NextStatement.{is_no_fault};
ghost use Rattle.protox_syntax.specs.declared.statement_loop.Going.TheVariants as goings;
ghost use Rattle.protox_syntax.specs.inner.OnWay.{IsOnWay};
ghost use Rattle.protox_syntax.specs.inner.Parts.{place_in, with_statement};
ghost use Rattle.protox_syntax.specs.inner.SomeRead.{AreRead, IsOneRead};
ghost use Rattle.protox_syntax.specs.inner.Statements.{next_first, or_package};

use crate::parts::Part;
use crate::recovery::{add_refused, next_rows};
use crate::statement_types::Statement;
use crate::statements::statement;
use protox_ast::ast::{File, Package};
use protox_fault::error::Span;
use protox_grammar::note::{Note, Noted};
use protox_rows::leaf::copied;
use protox_rows::refused::Refused;
use protox_rows::rows::Unread;
use std::alloc::{AllocError, Global};

/// Whether reading goes on behind a statement.
#[derive(Clone, Copy)]
pub(crate) enum Going {
    /// It is read.
    On,
    /// The part ends within it, or within the comments behind it. More of the source is needed.
    Cut,
    /// Something is wrong with it. What is reported then depends on the rest of the source.
    Odd,
}

fn is_no_fault(note: &Note) -> bool
    ensures { result ≡ is_no_fault note.now.noted }
{
    matches!(note.noted, Noted::TextFormat(_))
}

/// Whether no fault is noted.
pub(crate) fn are_right(notes: &[Note]) -> bool
    ensures { result ≡ list_all (λ n. is_no_fault n.noted) notes.now }
{
    notes.iter().all(|note| is_no_fault(note))
}

// The place of the first package statement.
fn first_place(head: &File) -> Option<Span>
    ensures { result ≡ place_in head.now }
{
    match &head.package {
        Some(package) => Some(copied(&package.span)),
        None => None,
    }
}

// Keeps the first package.
fn keep_first_package(head: &mut File, found: Package)
    ensures { head.new ≡ record head.old { «package» = or_package head.old.«package» found } }
{
    if head.package.is_none() {
        head.package = Some(found);
    }
}

fn add_statement(head: &mut File, statement: Statement) -> Result<(), AllocError>
    ensures { OnOk result (head.new ≡ with_statement head.old statement) }
{
    match statement {
        Statement::Empty => Ok(()),
        Statement::Import(import) => head.imports.push(import),
        Statement::Package(package) => {
            keep_first_package(head, package);
            Ok(())
        }
        Statement::Option(option) => head.options.push(option),
        Statement::Item(item) => head.items.push(item),
    }
}

// Behind a refusal no tree is made. Only the first package counts: a second one is a fault.
fn keep_package(head: &mut File, statement: Statement)
    ensures place { place_in head.new ≡ next_first (place_in head.old) statement }
    ensures syntax { head.new.syntax ≡ head.old.syntax }
{
    if let Statement::Package(package) = statement {
        keep_first_package(head, package);
    }
}

// Reads one more statement of the last part of a source. If it is refused, that is noted, and
// reading goes on at the next one.
fn read_last_one<'t, 'a>(
    alloc: Global,
    source: &str,
    part: &'t Part<'a>,
    notes: &mut Vec<Note>,
    rows: &mut Unread<'t, 'a>,
    head: &mut File,
    refused: &mut bool,
) -> Result<(), AllocError>
    requires some { rows.old ≢ [] }
    ensures fewer { OnOk result (length rows.new < length rows.old) }
    ensures syntax { OnOk result (head.new.syntax ≡ head.old.syntax) }
    ensures on { OnOk result ((gone : List item_type.FileItem) → IsOnWay source.now part.now.table refused.old rows.old notes.old.items gone head.old → IsOnWay source.now part.now.table refused.new rows.new notes.new.items gone head.new) }
{
    let most = rows.len() - 1;
    match statement(alloc, notes, rows, &first_place(head)) {
        // It adds nothing. The others are large, and moved when they are matched.
        Ok(Statement::Empty) => Ok(()),
        Ok(statement) => {
            if *refused {
                keep_package(head, statement);
                return Ok(());
            }
            add_statement(head, statement)
        }
        Err(found) => {
            add_refused(alloc, &part.table, notes, &found)?;
            *rows = next_rows(&part.table, &found, most);
            *refused = true;
            Ok(())
        }
    }
}

// Whether the notes behind the first `known` hold no fault. Mostly there are none.
fn are_right_behind(notes: &[Note], known: usize) -> bool
    ensures { result ≡ list_all (λ n. is_no_fault n.noted) (drop known notes.now) }
{
    notes.len() <= known || are_right(&notes[known..])
}

// Whether a statement of a part counts. These rows are left behind it, and its notes are those
// behind the first `known`.
fn judged(ahead: &Unread<'_, '_>, notes: &[Note], known: usize) -> Going
    ensures some { result ≡ goings.On → ahead.now ≢ [] }
    ensures right { result ≡ goings.On → list_all (λ n. is_no_fault n.noted) (drop known notes.now) ≡ true }
{
    if ahead.is_empty() {
        return Going::Cut;
    }
    if !are_right_behind(notes, known) {
        return Going::Odd;
    }
    Going::On
}

// Reads one more statement of another part, if the part has it whole, and nothing is wrong with it.
fn read_some_one<'t, 'a>(
    alloc: Global,
    notes: &mut Vec<Note>,
    rows: &mut Unread<'t, 'a>,
    head: &mut File,
) -> Result<Going, AllocError>
    ensures one { AreValidTokens rows.old → IfOk result (λ going. going ≡ goings.On → IsOneRead rows.old rows.new head.old head.new) }
    ensures stays { IfOk result (λ going. going ≢ goings.On → (rows.new ≡ rows.old) × (head.new ≡ head.old)) }
    ensures fewer { IfOk result (λ going. going ≡ goings.On → length rows.new < length rows.old) }
    ensures syntax { OnOk result (head.new.syntax ≡ head.old.syntax) }
{
    let known = notes.len();
    let mut ahead = rows.again();
    match statement(alloc, notes, &mut ahead, &first_place(head)) {
        Ok(Statement::Empty) => match judged(&ahead, notes.as_slice(), known) {
            Going::On => {
                *rows = ahead;
                Ok(Going::On)
            }
            odd => Ok(odd),
        },
        Ok(statement) => match judged(&ahead, notes.as_slice(), known) {
            Going::On => {
                add_statement(head, statement)?;
                *rows = ahead;
                Ok(Going::On)
            }
            odd => Ok(odd),
        },
        Err(Refused::OutOfMemory) => Err(AllocError),
        Err(Refused::At { left: 0, .. }) => Ok(Going::Cut),
        Err(_) => Ok(Going::Odd),
    }
}

// Reads one more statement.
fn read_one<'t, 'a>(
    alloc: Global,
    source: &str,
    part: &'t Part<'a>,
    notes: &mut Vec<Note>,
    rows: &mut Unread<'t, 'a>,
    head: &mut File,
    refused: &mut bool,
) -> Result<Going, AllocError>
    requires some { rows.old ≢ [] }
    ensures one { part.now.ends ≡ false → AreValidTokens rows.old → IfOk result (λ going. going ≡ goings.On → IsOneRead rows.old rows.new head.old head.new) }
    ensures stays { part.now.ends ≡ false → IfOk result (λ going. going ≢ goings.On → (rows.new ≡ rows.old) × (head.new ≡ head.old)) }
    ensures goes { part.now.ends ≡ true → IfOk result (λ going. going ≡ goings.On) }
    ensures on { part.now.ends ≡ true → OnOk result ((gone : List item_type.FileItem) → IsOnWay source.now part.now.table refused.old rows.old notes.old.items gone head.old → IsOnWay source.now part.now.table refused.new rows.new notes.new.items gone head.new) }
    ensures fewer { IfOk result (λ going. going ≡ goings.On → length rows.new < length rows.old) }
    ensures syntax { OnOk result (head.new.syntax ≡ head.old.syntax) }
{
    if part.ends {
        read_last_one(alloc, source, part, notes, rows, head, refused)?;
        return Ok(Going::On);
    }
    read_some_one(alloc, notes, rows, head)
}

/// Reads the statements of a part. In the last part of a source they are read to the end: what is
/// wrong is noted. In another part reading stops where a statement isn't whole, or where something
/// is wrong with it; the head then has those before it.
pub(crate) fn read_statements<'t, 'a>(
    alloc: Global,
    source: &str,
    part: &'t Part<'a>,
    notes: &mut Vec<Note>,
    rows: &mut Unread<'t, 'a>,
    head: &mut File,
) -> Result<Going, AllocError>
    ensures some { part.now.ends ≡ false → AreValidTokens rows.old → OnOk result (AreRead rows.old rows.new head.old head.new) }
    ensures on { part.now.ends ≡ true → OnOk result ((gone : List item_type.FileItem) → IsOnWay source.now part.now.table false rows.old notes.old.items gone head.old → (refused : Bool) × IsOnWay source.now part.now.table refused rows.new notes.new.items gone head.new) }
    ensures all { part.now.ends ≡ true → OnOk result (rows.new ≡ []) }
    ensures syntax { OnOk result (head.new.syntax ≡ head.old.syntax) }
{
    let mut refused = false;
    'statements: while !rows.is_empty() {
        match read_one(alloc, source, part, notes, rows, head, &mut refused)? {
            Going::On => (),
            Going::Cut => return Ok(Going::Cut),
            Going::Odd => return Ok(Going::Odd),
        }
    }
    Ok(Going::On)
}
