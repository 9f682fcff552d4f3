//! A record of what is wrong at a place of a file.

ghost use Rattle.std.specs.Prelude.{◌≡◌, [], ◌++◌, OnOk};
ghost use Rattle.protox_link_records.specs.LinkRecords.{record_with};
ghost use Rattle.protox_records.specs.Records as spelled;

use crate::parts::{push_both, push_place};
use crate::places::Place;
use protox_records::parts::{push_number, push_text};
use std::alloc::AllocError;

// Adds that there is no label, no help and no second place.
fn push_end(out: &mut Vec<u8>) -> Result<(), AllocError>
    ensures { OnOk result (out.new.items
        ≡ out.old.items ++ (spelled.counted [] ++ (spelled.counted [] ++ spelled.number 0))) }
{
    push_text(out, "")?;
    push_text(out, "")?;
    push_number(out, 0)?;
    Ok(())
}

/// Adds the record of what is wrong at a place of the file with this number. `link_records` says
/// which parts it has. `kind` is the number of the kind of fault, and `text` says what is wrong.
///
/// # Errors
/// `AllocError` where memory runs out. Then some of the bytes may have been added.
pub fn push_record(
    out: &mut Vec<u8>,
    file: usize,
    kind: usize,
    place: &Place,
    text: &str,
) -> Result<(), AllocError>
    ensures { OnOk result (out.new.items ≡ out.old.items ++ record_with file kind place.now text.now) }
{
    push_both(out, file, kind)?;
    push_place(out, place)?;
    push_text(out, text)?;
    push_end(out)?;
    Ok(())
}
