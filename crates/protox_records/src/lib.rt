//! The faults of a source as bytes that a program in any language can read.
#![tactic(auto)]

ghost use Rattle.std.specs.Prelude.{◌≡◌, ◌≤◌, ◌++◌, length, IfOk, OnOk};
ghost use Rattle.protox_places.specs.Lines.{starts};
ghost use Rattle.protox_records.specs.Records as spelled;

pub mod kinds;
pub mod parts;

use parts::push_record;
use protox_fault::error::ParseErrorKind;
use protox_places::lines::LineResolver;
use std::alloc::{AllocError, Global};

// Adds a record for each fault.
fn push_records(
    alloc: Global,
    out: &mut Vec<u8>,
    source: &str,
    lines: &LineResolver,
    faults: &[ParseErrorKind],
) -> Result<(), AllocError>
    requires fits { length source.now ≤ 2147483647 }
    requires resolves { lines.now ≡ starts 0 source.now }
    ensures { OnOk result (out.new.items ≡ out.old.items ++ spelled.records source.now faults.now) }
{
    for fault in faults {
        push_record(alloc, out, source, lines, fault)?;
    }
    Ok(())
}

/// The faults of a source as records, one behind the other, in the order of the list.
///
/// Each number takes four bytes, the lowest first. A text is the number of its bytes and then its
/// bytes. A place is four numbers: the offsets in bytes of its start and its end, then the line and
/// the column of its start, both from 0, columns in bytes. A record is, in this order:
///
/// - the number of the kind (`kinds::kind_number`);
/// - the place of the fault, the first where it has two. For the end of the source it is empty and
///   stands there, and for the whole source it is four zeros;
/// - what is wrong, the label at the place, and what may help: three texts, each empty where there
///   is none;
/// - 1 where there is a second place, then that place and the label there; else 0.
///
/// A text has fewer than 4 GiB in bytes of which there are fewer than that.
///
/// # Errors
/// `AllocError` where memory runs out.
pub fn records(
    alloc: Global,
    source: &str,
    faults: &[ParseErrorKind],
) -> Result<Vec<u8>, AllocError>
    requires { length source.now ≤ 2147483647 }
    // The bytes are exactly the spelling.
    ensures { IfOk result (λ bytes. bytes.items ≡ spelled.records source.now faults.now) }
{
    let lines = LineResolver::new(alloc, source)?;
    let mut out = Vec::new(alloc);
    push_records(alloc, &mut out, source, &lines, faults)?;
    Ok(out)
}
