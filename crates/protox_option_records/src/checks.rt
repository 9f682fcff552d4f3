//! The records of what options ask of what has them.

ghost use Rattle.std.specs.Prelude.{◌≡◌, ◌++◌, All, IfOk, OnOk};
ghost use Rattle.protox_link_records.specs.LinkPlaces.{IsSorted};
ghost use Rattle.protox_link_records.specs.LinkRecords.{texts};
ghost use Rattle.protox_option_records.specs.CheckRecords as words;

use crate::kinds::check_kind;
use protox_descriptor::descriptor::FileDescriptorProto;
use protox_link_records::{
    Place, SourceFile, SourceLines, lines_of, no_place, place_in, push_record,
};
use protox_option_checks::{CheckFault, check_text};
use protox_symbols::Symbols;
use std::alloc::{AllocError, Global};

// The place at which a fault is told.
fn place_of(lines: &[SourceLines<'_>], files: &[FileDescriptorProto], fault: &CheckFault) -> Place
    requires { All IsSorted files.now }
    ensures { result ≡ words.check_place lines.now files.now fault.now }
{
    match (lines.get(fault.file), files.get(fault.file)) {
        (Some(source), Some(file)) => place_in(source, file, fault.path.as_slice()),
        _ => no_place(),
    }
}

// Adds the record of a fault.
fn push_check(
    alloc: Global,
    out: &mut Vec<u8>,
    lines: &[SourceLines<'_>],
    files: &[FileDescriptorProto],
    symbols: &Symbols,
    fault: &CheckFault,
) -> Result<(), AllocError>
    requires { All IsSorted files.now }
    ensures { OnOk result (out.new.items
        ≡ out.old.items ++ words.check_record lines.now files.now symbols.now fault.now) }
{
    let place = place_of(lines, files, fault);
    let text = check_text(alloc, symbols, files, fault)?;
    push_record(
        out,
        fault.file,
        check_kind(fault.kind),
        &place,
        text.as_str(),
    )
}

/// The records of what `check_options` found in linked files, in order. The sources are those of the
/// files, and the table is theirs. A record has the parts that `protox_link_records::link_records` says.
///
/// # Errors
/// `AllocError` where memory runs out.
pub fn check_records(
    alloc: Global,
    sources: &[SourceFile<'_>],
    files: &[FileDescriptorProto],
    symbols: &Symbols,
    faults: &[CheckFault],
) -> Result<Vec<u8>, AllocError>
    requires sorted { All IsSorted files.now }
    ensures { IfOk result (λ told. told.items
        ≡ words.check_records (texts sources.now) files.now symbols.now faults.now) }
{
    let lines = lines_of(alloc, sources)?;
    let mut out = Vec::new(alloc);
    for fault in faults {
        push_check(alloc, &mut out, lines.as_slice(), files, symbols, fault)?;
    }
    Ok(out)
}
