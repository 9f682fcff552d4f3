//! The records of faults of syntax.

ghost use Rattle.std.specs.Prelude.{◌≡◌, ◌≤◌, ◌++◌, length, OnOk};
ghost use Rattle.protox_link_records.specs.LinkRecords.{syntax_record, syntax_records};
ghost use Rattle.protox_places.specs.Lines.{starts};

use protox_fault::error::ParseErrorKind;
use protox_places::lines::LineResolver;
use protox_records::parts::{push_number, push_record};
use std::alloc::{AllocError, Global};

// Adds the record of a fault of the file with this number.
fn push_fault(
    alloc: Global,
    out: &mut Vec<u8>,
    file: usize,
    source: &str,
    lines: &LineResolver,
    fault: &ParseErrorKind,
) -> Result<(), AllocError>
    requires fits { length source.now ≤ 2147483647 }
    requires resolves { lines.now ≡ starts 0 source.now }
    ensures { OnOk result (out.new.items ≡ out.old.items ++ syntax_record file source.now fault.now) }
{
    push_number(out, file)?;
    push_record(alloc, out, source, lines, fault)
}

// Adds a record for each fault.
fn push_records(
    alloc: Global,
    out: &mut Vec<u8>,
    file: usize,
    source: &str,
    lines: &LineResolver,
    faults: &[ParseErrorKind],
) -> Result<(), AllocError>
    requires fits { length source.now ≤ 2147483647 }
    requires resolves { lines.now ≡ starts 0 source.now }
    ensures { OnOk result (out.new.items ≡ out.old.items ++ syntax_records file source.now faults.now) }
{
    for fault in faults {
        push_fault(alloc, out, file, source, lines, fault)?;
    }
    Ok(())
}

/// Adds a record for each fault of the source of the file with this number: the number of the file
/// in four bytes, the lowest first, and then the record of `protox_records::records`.
///
/// # Errors
/// `AllocError` where memory runs out. Then some of the bytes may have been added.
pub fn push_syntax_records(
    alloc: Global,
    out: &mut Vec<u8>,
    file: usize,
    source: &str,
    faults: &[ParseErrorKind],
) -> Result<(), AllocError>
    requires { length source.now ≤ 2147483647 }
    // The bytes that are added are exactly the spelling.
    ensures { OnOk result (out.new.items ≡ out.old.items ++ syntax_records file source.now faults.now) }
{
    let lines = LineResolver::new(alloc, source)?;
    push_records(alloc, out, file, source, &lines, faults)
}
