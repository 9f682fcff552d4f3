//! The parts of a record, each put behind what stands there.

ghost use Rattle.std.specs.Prelude.{◌≡◌, ◌++◌, OnOk};
ghost use Rattle.protox_link_records.specs.LinkRecords.{place_bytes};
ghost use Rattle.protox_records.specs.Records as spelled;

use crate::places::Place;
use protox_records::parts::push_number;
use std::alloc::AllocError;

/// Adds two numbers.
pub(crate) fn push_both(out: &mut Vec<u8>, first: usize, second: usize) -> Result<(), AllocError>
    ensures { OnOk result (out.new.items ≡ out.old.items ++ (spelled.number first ++ spelled.number second)) }
{
    push_number(out, first)?;
    push_number(out, second)
}

/// Adds a place.
pub(crate) fn push_place(out: &mut Vec<u8>, place: &Place) -> Result<(), AllocError>
    ensures { OnOk result (out.new.items ≡ out.old.items ++ place_bytes place.now) }
{
    push_both(out, place.start, place.end)?;
    push_both(out, place.line, place.column)
}
