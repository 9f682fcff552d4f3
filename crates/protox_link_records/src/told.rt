//! The records of what is told of faults.

ghost use Rattle.std.specs.Prelude.{◌≡◌, ◌≤◌, ◌<◌, [], ◌∷◌, ◌++◌, List, All, length, take, OnOk};
ghost use Rattle.protox_descriptor.specs.declared.descriptor.FileDescriptorProto.{FileDescriptorProto};
ghost use Rattle.protox_link.specs.Known.{IsKnownOf};
ghost use Rattle.protox_link.specs.Seen.{IsSeenBy};
ghost use Rattle.protox_link_fault.specs.declared.LinkFault.{LinkFault};
ghost use Rattle.protox_link_records.specs.LinkPlaces.{IsSorted};
ghost use Rattle.protox_link_records.specs.LinkRecords.{AreTold, error_record, fault_records};
ghost use Rattle.protox_symbols.specs.Things.{table_of};
ghost use Rattle.std.specs.List.{flat_map};

use crate::kinds::kind_number;
use crate::lines::SourceLines;
use crate::places::Place;
use crate::record::push_record;
use crate::search::{fault_place, file_told};
use protox_descriptor::descriptor::FileDescriptorProto;
use protox_link::Resolver;
use protox_link_fault::LinkFault;
use protox_link_text::{LinkError, errors_of};
use protox_views::View;
use std::alloc::{AllocError, Global};

// Adds the record of an error.
fn push_error(
    alloc: Global,
    out: &mut Vec<u8>,
    file: usize,
    place: &Place,
    error: &LinkError,
) -> Result<(), AllocError>
    ensures { OnOk result (out.new.items ≡ out.old.items ++ error_record file place.now error.now) }
{
    let text = format!(in alloc; "{error}")?;
    push_record(out, file, kind_number(error), place, text.as_str())
}

// Adds a record for each error that is told of a fault.
fn push_errors(
    alloc: Global,
    out: &mut Vec<u8>,
    file: usize,
    place: &Place,
    errors: &[LinkError],
) -> Result<(), AllocError>
    ensures { OnOk result (out.new.items ≡ out.old.items ++ flat_map (error_record file place.now) errors.now) }
{
    for error in errors {
        push_error(alloc, out, file, place, error)?;
    }
    Ok(())
}

// Adds the records of what is told of a fault, whose file sees this.
fn push_fault(
    alloc: Global,
    out: &mut Vec<u8>,
    lines: &[SourceLines<'_>],
    files: &[FileDescriptorProto],
    view: &View<'_>,
    fault: &LinkFault,
) -> Result<(), AllocError>
    requires sorted { All IsSorted files.now }
    requires table { view.now.symbols.now ≡ table_of files.now }
    ensures { OnOk result (out.new.items ≡ out.old.items
        ++ fault_records lines.now files.now view.now.sees.now view.now.packages fault.now) }
{
    let place = fault_place(lines, files, fault)?;
    let errors = errors_of(alloc, files, view, fault)?;
    push_errors(alloc, out, file_told(fault), &place, errors.as_slice())
}

// Tells the faults of one file, which has this number.
fn push_faults(
    alloc: Global,
    out: &mut Vec<u8>,
    lines: &[SourceLines<'_>],
    files: &[FileDescriptorProto],
    view: &View<'_>,
    number: usize,
    faults: &[LinkFault],
) -> Result<(), AllocError>
    requires sorted { All IsSorted files.now }
    requires table { view.now.symbols.now ≡ table_of files.now }
    requires seen { IsSeenBy files.now number view.now.sees.now view.now.packages }
    requires same { All (λ fault. fault.file ≡ number) faults.now }
    ensures { (before : List LinkFault) → AreTold lines.now files.now before out.old.items
        → OnOk result (AreTold lines.now files.now (before ++ faults.now) out.new.items) }
{
    for fault in faults {
        push_fault(alloc, out, lines, files, view, fault)?;
    }
    Ok(())
}

// Tells the faults of one file, where what it sees is still to be found out.
fn push_faults_of_file(
    alloc: Global,
    out: &mut Vec<u8>,
    lines: &[SourceLines<'_>],
    files: &[FileDescriptorProto],
    resolver: &Resolver,
    number: usize,
    faults: &[LinkFault],
) -> Result<(), AllocError>
    requires sorted { All IsSorted files.now }
    requires known { IsKnownOf files.now resolver.now }
    requires there { number < length files.now }
    requires same { All (λ fault. fault.file ≡ number) faults.now }
    ensures { (before : List LinkFault) → AreTold lines.now files.now before out.old.items
        → OnOk result (AreTold lines.now files.now (before ++ faults.now) out.new.items) }
{
    let Some(names) = resolver.file(alloc, number)? else {
        return Ok(());
    };
    push_faults(alloc, out, lines, files, &names.view(), number, faults)
}

// How many faults at the front are of the file with this number.
fn run_length(faults: &[LinkFault], number: usize) -> usize
    ensures within { result ≤ length faults.now }
    ensures same { All (λ fault. fault.file ≡ number) (take result faults.now) }
    ensures some { (first : LinkFault) (more : List LinkFault) → faults.now ≡ first ∷ more
        → first.file ≡ number → 0 < result }
{
    for (index, fault) in faults.iter().enumerate() {
        if fault.file != number {
            return index;
        }
    }
    faults.len()
}

/// Adds the records of what is told of each fault, in order.
///
/// # Errors
/// `AllocError` where memory runs out, or where a file has more imports than a path can count. Then
/// some of the bytes may have been added.
pub(crate) fn push_all(
    alloc: Global,
    out: &mut Vec<u8>,
    lines: &[SourceLines<'_>],
    files: &[FileDescriptorProto],
    resolver: &Resolver,
    faults: &[LinkFault],
) -> Result<(), AllocError>
    requires sorted { All IsSorted files.now }
    requires known { IsKnownOf files.now resolver.now }
    requires there { All (λ fault. fault.file < length files.now) faults.now }
    ensures { AreTold lines.now files.now [] out.old.items
        → OnOk result (AreTold lines.now files.now faults.now out.new.items) }
{
    let mut at = 0;
    while at < faults.len() {
        let rest = &faults[at..];
        let number = rest[0].file;
        let count = run_length(rest, number);
        push_faults_of_file(alloc, out, lines, files, resolver, number, &rest[..count])?;
        at += count;
    }
    Ok(())
}
