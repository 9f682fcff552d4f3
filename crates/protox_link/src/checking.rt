//! What is wrong with a list of files, which stay as they are.

ghost use Rattle.std.specs.Prelude.{◌≡◌, ◌<◌, [], length, List, IfOk, OnOk};
ghost use Rattle.std.specs.List.{All};
ghost use Rattle.protox_descriptor.specs.declared.descriptor.FileDescriptorProto.{FileDescriptorProto};
ghost use Rattle.protox_link.specs.Files.{AreFaults, IsToldOf};
ghost use Rattle.protox_link.specs.Known.{HasRows, IsKnownOf};
ghost use Rattle.protox_link.specs.Link.{AreWrong, NothingIsWrong, TellsCircles};
ghost use Rattle.protox_link.specs.Stands.{Stands};
ghost use Rattle.protox_link_checks.specs.Ranges.{AreRangesOf};
ghost use Rattle.protox_symbols.specs.Things.{table_of};

use crate::circle::told_circle;
use crate::known::Known;
use crate::prepare::{Prepared, order_of, prepare};
use protox_descriptor::descriptor::FileDescriptorProto;
use protox_imports::Order;
use protox_link_checks::{Ranges, check_extensions, check_file};
use protox_link_fault::LinkFault;
use std::alloc::{AllocError, Global};

// Adds what is wrong with the file of this number.
fn check_one(
    alloc: Global,
    known: &Known,
    ranges: &Ranges,
    number: usize,
    file: &FileDescriptorProto,
    faults: &mut Vec<LinkFault>,
) -> Result<(), AllocError>
    requires within { number < length known.now.imports.files }
    requires rows { HasRows known.now }
    ensures { (all : List FileDescriptorProto) → IsKnownOf all known.now
        → AreRangesOf all (table_of all) ranges.now → OnOk result
        (IsToldOf all number file.now faults.old.items faults.new.items) }
{
    let names = known.names(alloc, number)?;
    let imports = known.imports.named(number);
    let view = names.view();
    check_file(alloc, &view, imports, number, file, faults)?;
    check_extensions(alloc, &view, ranges, number, file, faults)
}

// All that is wrong with files that don't import one another in a circle, in order.
fn check_ready(
    alloc: Global,
    known: &Known,
    files: &[FileDescriptorProto],
) -> Result<Vec<LinkFault>, AllocError>
    requires { IsKnownOf files.now known.now }
    ensures faults { IfOk result (λ faults. AreFaults files.now 0 files.now faults.items) }
    ensures stands { IfOk result (λ faults. All (Stands files.now) faults.items) }
{
    let ranges = Ranges::of(alloc, &known.symbols, files)?;
    let mut faults = Vec::new(alloc);
    for (number, file) in files.iter().enumerate() {
        check_one(alloc, known, &ranges, number, file, &mut faults)?;
    }
    Ok(faults)
}

/// All that is wrong with a list of files of which this is known.
pub(crate) fn check_known(
    alloc: Global,
    known: &Known,
    files: &[FileDescriptorProto],
) -> Result<Vec<LinkFault>, AllocError>
    requires { IsKnownOf files.now known.now }
    ensures wrong { IfOk result (λ faults. AreWrong files.now faults.items) }
    ensures circles { IfOk result (λ faults. TellsCircles files.now faults.items) }
    ensures right { IfOk result (λ faults. faults.items ≡ [] → NothingIsWrong files.now) }
    ensures stands { IfOk result (λ faults. All (Stands files.now) faults.items) }
{
    match order_of(alloc, &known.imports)? {
        Order::Sorted(_) => check_ready(alloc, known, files),
        Order::Cycle(circle) => told_circle(alloc, circle),
    }
}

/// All that is wrong with a list of files: what `link` tells of them where it refuses them, and
/// nothing for files that it links. The files stay as they are, so that what a fault speaks of can be
/// looked up in them.
///
/// # Errors
/// `AllocError` where memory runs out, or where a list has more than 2,147,483,648 parts: no path
/// can count them.
pub fn check(alloc: Global, files: &[FileDescriptorProto]) -> Result<Vec<LinkFault>, AllocError>
    ensures wrong { IfOk result (λ faults. AreWrong files.now faults.items) }
    ensures circles { IfOk result (λ faults. TellsCircles files.now faults.items) }
    ensures stands { IfOk result (λ faults. All (Stands files.now) faults.items) }
{
    match prepare(alloc, files)? {
        Prepared::Ready(known, _order) => check_ready(alloc, &known, files),
        Prepared::Circle(circle) => told_circle(alloc, circle),
    }
}
