//! Where steps through a message begin, and what they are of.

ghost use Rattle.std.specs.Prelude.{◌≡◌, Some, IfOk, map, slice_get, string_bytes, take};
ghost use Rattle.std.specs.Option.{option_copied};
ghost use Rattle.protox_brace_text.specs.Steps as words;
ghost use Rattle.protox_text_format.specs.Spelling.{seen};

use crate::pieces::{own_name, without, without_separator};
use protox_text_format::{Item, Piece};
use std::alloc::{AllocError, Global};

/// The steps before one.
pub(crate) fn before<'i, 't, 'a>(items: &'i [Item<'t, 'a>], step: usize) -> &'i [Item<'t, 'a>]
    ensures { map seen result.now ≡ take step (map seen items.entry.now) }
{
    &items[..step.min(items.len())]
}

/// The step with an index, if there is one.
pub(crate) fn item_at<'i, 't, 'a>(
    items: &'i [Item<'t, 'a>],
    step: usize,
) -> Option<&'i Item<'t, 'a>>
    ensures { option_copied result ≡ slice_get items.entry.now step }
{
    items.get(step)
}

// The pieces behind those of a step.
fn behind<'t, 'a>(item: &Item<'_, '_>, pieces: &'t [Piece<'a>]) -> &'t [Piece<'a>]
    ensures { result.now ≡ words.behind (seen item.now) pieces.entry.now }
{
    match item {
        Item::Name(name, true) => without(pieces, name.len().saturating_add(1)),
        Item::Name(name, false) => without(pieces, name.len()),
        Item::Scalar(value) => without(pieces, value.len()),
        Item::Open | Item::Close | Item::OpenList | Item::CloseList => without(pieces, 1),
    }
}

// The pieces behind those of steps.
fn behind_all<'t, 'a>(pieces: &'t [Piece<'a>], items: &[Item<'_, '_>]) -> &'t [Piece<'a>]
    ensures { result.now ≡ words.behind_all pieces.entry.now (map seen items.now) }
{
    let mut left = pieces;
    for item in items {
        left = behind(item, without_separator(left));
    }
    left
}

/// The pieces from those of the next step on.
pub(crate) fn next_pieces<'t, 'a>(
    pieces: &'t [Piece<'a>],
    items: &[Item<'_, '_>],
) -> &'t [Piece<'a>]
    ensures { result.now ≡ words.next_pieces pieces.entry.now (map seen items.now) }
{
    without_separator(behind_all(pieces, items))
}

// The name that a step names, or else the one before.
fn naming(alloc: Global, before: String, item: Item<'_, '_>) -> Result<String, AllocError>
    ensures { IfOk result (λ name. string_bytes name
        ≡ words.naming (string_bytes before) (seen item.entry)) }
{
    match item {
        Item::Name(name, _) => own_name(alloc, name),
        _ => Ok(before),
    }
}

/// The name of the field that steps name last, or an empty one.
pub(crate) fn last_name(alloc: Global, items: &[Item<'_, '_>]) -> Result<String, AllocError>
    ensures { IfOk result (λ name. string_bytes name ≡ words.last_name (map seen items.now)) }
{
    let mut name = String::new(alloc);
    for item in items {
        name = naming(alloc, name, *item)?;
    }
    Ok(name)
}

/// The pieces of a name or a value.
pub(crate) fn own_pieces<'t, 'a>(item: Item<'t, 'a>) -> &'t [Piece<'a>]
    ensures { result.now ≡ words.own_pieces (Some (seen item.entry)) }
{
    match item {
        Item::Name(name, _) => name,
        Item::Scalar(value) => value,
        _ => &[],
    }
}
