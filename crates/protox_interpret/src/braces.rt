//! Texts in braces.

ghost use Rattle.std.specs.Prelude.{◌≡◌, ℕ, IfErr, IfOk, List, Ok, map};
ghost use Rattle.protox_interpret.specs.Braces as words;
ghost use Rattle.protox_interpret.specs.Failure.{IfRefusal};
ghost use Rattle.protox_message_bytes.specs.Parts.{Parts, steps};
ghost use Rattle.protox_text_format.specs.Spelling.{AMessage, Spells, seen};
ghost use Rattle.protox_text_format.specs.declared.item.Piece.{Piece as APiece};

use crate::fault::{Refusal, StatementFaultKind};
use crate::site::Site;
use protox_aggregate::{AggregateFailure, entries_of};
use protox_message_bytes::Entry;
use protox_text_format::{Item, Piece, PieceFailure, TextFailure, pieces, read};
use std::alloc::Global;

// What steps through a message say.
fn entries_said(
    alloc: Global,
    here: Site<'_>,
    message: usize,
    items: &[Item<'_, '_>],
) -> Result<Vec<Entry>, Refusal>
    ensures said { (text : List ℕ) (pieces : List APiece) → words.IsCut text pieces
        → Spells AMessage 100 pieces (map seen items.now) → IfOk result (λ entries. (parts : Parts)
        × (entries.items ≡ steps parts) × words.IsMessage here.entry message text parts) }
    ensures fault { (text : List ℕ) (pieces : List APiece) → words.IsCut text pieces
        → Spells AMessage 100 pieces (map seen items.now) → IfErr result (λ refusal.
        IfRefusal refusal (words.IsNoMessage here.entry message text)) }
{
    match entries_of(alloc, here.view, here.files, message, items) {
        Ok(entries) => Ok(entries),
        Err(AggregateFailure::Fault(fault)) => {
            Err(Refusal::Fault(StatementFaultKind::Aggregate(fault)))
        }
        Err(AggregateFailure::OutOfMemory) => Err(Refusal::OutOfMemory),
    }
}

// What pieces of a text say.
fn pieces_said(
    alloc: Global,
    here: Site<'_>,
    message: usize,
    found: &[Piece<'_>],
) -> Result<Vec<Entry>, Refusal>
    ensures said { (text : List ℕ) → words.IsCut text found.now → IfOk result (λ entries.
        (parts : Parts) × (entries.items ≡ steps parts)
        × words.IsMessage here.entry message text parts) }
    ensures fault { (text : List ℕ) → words.IsCut text found.now → IfErr result (λ refusal.
        IfRefusal refusal (words.IsNoMessage here.entry message text)) }
{
    match read(alloc, found) {
        Ok(items) => entries_said(alloc, here, message, items.as_slice()),
        Err(TextFailure::Fault(fault)) => Err(Refusal::Fault(StatementFaultKind::Text(fault))),
        Err(TextFailure::OutOfMemory) => Err(Refusal::OutOfMemory),
    }
}

// What a text in braces says, as a message of the type with this number.
pub(crate) fn text_said(
    alloc: Global,
    here: Site<'_>,
    message: usize,
    text: &str,
) -> Result<Vec<Entry>, Refusal>
    ensures said { IfOk result (λ entries. (parts : Parts) × (entries.items ≡ steps parts)
        × words.IsMessage here.entry message text.entry.now parts) }
    ensures fault { IfErr result (λ refusal.
        IfRefusal refusal (words.IsNoMessage here.entry message text.entry.now)) }
{
    match pieces(alloc, text) {
        Ok(found) => pieces_said(alloc, here, message, found.as_slice()),
        Err(PieceFailure::Fault(span)) => Err(Refusal::Fault(StatementFaultKind::Token(span))),
        Err(PieceFailure::OutOfMemory) => Err(Refusal::OutOfMemory),
    }
}
