//! What a text in braces says.

use protox_aggregate::{AggregateFailure, entries_of};
use protox_interpret::Site;
use protox_message_bytes::{Entry, message_bytes};
use protox_text_format::{Item, Piece, PieceFailure, TextFailure, pieces, read};
use std::alloc::{AllocError, Global};

fn entries_text(alloc: Global, entries: &[Entry]) -> Result<Option<String>, AllocError> {
    let bytes = message_bytes(alloc, entries)?;
    let digits = hex::encode(alloc, bytes.as_slice())?;
    Ok(Some(format!(in alloc; "aggregate {digits}")?))
}

fn items_text(
    alloc: Global,
    here: Site<'_>,
    message: usize,
    items: &[Item<'_, '_>],
) -> Result<Option<String>, AllocError> {
    match entries_of(alloc, here.view, here.files, message, items) {
        Ok(entries) => entries_text(alloc, entries.as_slice()),
        Err(AggregateFailure::Fault(_)) => Ok(None),
        Err(AggregateFailure::OutOfMemory) => Err(AllocError),
    }
}

fn pieces_text(
    alloc: Global,
    here: Site<'_>,
    message: usize,
    found: &[Piece<'_>],
) -> Result<Option<String>, AllocError> {
    match read(alloc, found) {
        Ok(items) => items_text(alloc, here, message, items.as_slice()),
        Err(TextFailure::Fault(_)) => Ok(None),
        Err(TextFailure::OutOfMemory) => Err(AllocError),
    }
}

/// The bytes of the message of the type with this number that a text says. None if it says none.
pub(crate) fn aggregate_text(
    alloc: Global,
    here: Site<'_>,
    message: usize,
    text: &str,
) -> Result<Option<String>, AllocError> {
    match pieces(alloc, text) {
        Ok(found) => pieces_text(alloc, here, message, found.as_slice()),
        Err(PieceFailure::Fault(_)) => Ok(None),
        Err(PieceFailure::OutOfMemory) => Err(AllocError),
    }
}
