//! Where reading goes on behind a statement that is refused, so that later faults are reported too.

ghost use Rattle.std.specs.Prelude.{◌≡◌, ◌++◌, OnOk, drop};
ghost use Rattle.protox_ast.specs.Places.{placed};
ghost use Rattle.protox_grammar.specs.Class.{among};
ghost use Rattle.protox_grammar.specs.Told.{Notes};
ghost use Rattle.protox_syntax.specs.inner.Recovery.{AreRefusalNotes, at_most, behind_block, from_statement, last_rows, next_rows, plain_note, refusal_notes, statement_words};

use crate::fault_list::refusal;
use protox_grammar::note::{Note, Noted};
use protox_lex::lex::TokenTable;
use protox_rows::class::{
    ENUM, EXTEND, IMPORT, LEFT_BRACE, MESSAGE, OPTION, PACKAGE, RIGHT_BRACE, SERVICE,
};
use protox_rows::refused::Refused;
use protox_rows::rows::Unread;
use std::alloc::{AllocError, Global};

// Whether this is the class of a word that begins a statement. Written out, so that no list is
// walked. It is no part of the loop over rows, which asks it of few.
#[inline(never)]
fn is_statement_word(class: u8) -> bool
    ensures { result ≡ among statement_words class }
{
    matches!(
        class,
        ENUM | EXTEND | IMPORT | MESSAGE | OPTION | SERVICE | PACKAGE
    )
}

// Whether reading may go on at a token of this class. Each row that is skipped is asked. `message`
// has the largest class of these words, so most rows are asked for no other.
fn begins_statement(class: u8) -> bool
    ensures { result ≡ among statement_words class }
{
    class <= MESSAGE && is_statement_word(class)
}

// The rows of the table from this number on, less all before the next word that begins a statement.
// A row that is skipped is only asked its class, by its number: a place that moves would be written
// down for each. For the same reason it is no part of its callers.
#[inline(never)]
fn from_statement<'t, 'a>(table: &'t TokenTable<'a>, from: usize) -> Unread<'t, 'a>
    ensures { result ≡ from_statement (drop from (placed table.now)) }
{
    let count = table.rows();
    let mut index = from;
    'rows: while let Some(class) = table.class(index) {
        if begins_statement(class) {
            return Unread::last(table, count - index);
        }
        index += 1;
    }
    Unread::last(table, 0)
}

// Skips the rest of a block, up to and with its `}`. The `{` has been read.
fn skip_block(rows: &mut Unread<'_, '_>)
    ensures { rows.new ≡ behind_block 0 rows.old }
{
    // The number of open blocks is never above the number of rows.
    let most = rows.len();
    let mut depth = 0usize;
    'rows: while let Some((row, rest)) = rows.split() {
        *rows = rest;
        let class = row.class();
        if class == LEFT_BRACE {
            depth += 1;
        } else if class == RIGHT_BRACE {
            if depth == 0 {
                return;
            }
            depth -= 1;
        }
    }
}

fn at_most(most: usize, left: usize) -> usize
    ensures { result ≡ at_most most left }
{
    if left < most { left } else { most }
}

// The last `count` rows, less all before the next word that begins a statement.
fn from_last<'t, 'a>(table: &'t TokenTable<'a>, count: usize) -> Unread<'t, 'a>
    ensures { result ≡ from_statement (last_rows table.now count) }
{
    from_statement(table, table.rows().saturating_sub(count))
}

// Of the last `count` rows, those from the next statement behind the block that is open.
fn behind_last<'t, 'a>(table: &'t TokenTable<'a>, count: usize) -> Unread<'t, 'a>
    ensures { result ≡ from_statement (behind_block 0 (last_rows table.now count)) }
{
    let mut rows = Unread::last(table, count);
    skip_block(&mut rows);
    from_statement(table, table.rows().saturating_sub(rows.len()))
}

/// The rows at which reading goes on behind a refused statement; at most `most` of them.
pub(crate) fn next_rows<'t, 'a>(
    table: &'t TokenTable<'a>,
    refused: &Refused,
    most: usize,
) -> Unread<'t, 'a>
    ensures { result ≡ next_rows table.now refused.now most }
{
    match refused {
        Refused::OutOfMemory => Unread::last(table, 0),
        Refused::At { left, .. } => from_last(table, at_most(most, *left)),
        Refused::TooDeep { left } => behind_last(table, at_most(most, left.saturating_sub(1))),
    }
}

// Notes that the skipped text is not in an aggregate.
fn add_plain(notes: &mut Vec<Note>, left: usize) -> Result<(), AllocError>
    ensures { OnOk result (notes.new.items ≡ notes.old.items ++ plain_note left) }
{
    notes.push(Note {
        left,
        noted: Noted::TextFormat(false),
    })?;
    Ok(())
}

// Notes the fault of the row at which `left` rows are left. An invalid row has none here: its own
// fault says it.
fn add_refusal_note(
    alloc: Global,
    table: &TokenTable<'_>,
    notes: &mut Vec<Note>,
    left: usize,
    expected: &str,
) -> Result<(), AllocError>
    ensures { OnOk result (notes.new.items ≡ notes.old.items ++ refusal_notes left expected.now table.now.rows) }
{
    match refusal(alloc, table, left, expected)? {
        Some(fault) => notes.push(Note {
            left,
            noted: Noted::Fault(fault),
        })?,
        None => (),
    }
    add_plain(notes, left)
}

/// Notes the refusal of a statement. A body that is too deep has been noted while it was read.
pub(crate) fn add_refused(
    alloc: Global,
    table: &TokenTable<'_>,
    notes: &mut Vec<Note>,
    refused: &Refused,
) -> Result<(), AllocError>
    ensures { OnOk result ((at_refusal : Notes) × (notes.new.items ≡ notes.old.items ++ at_refusal) × AreRefusalNotes table.now.rows refused.now at_refusal) }
{
    match refused {
        Refused::OutOfMemory => Err(AllocError),
        Refused::At { left, expected } => {
            add_refusal_note(alloc, table, notes, *left, expected.text())
        }
        Refused::TooDeep { left } => add_plain(notes, left.saturating_sub(1)),
    }
}
