//! What is told of linked files once their options are read.

use crate::load::SourceFile;
use crate::places::span_of;
use crate::told::{Grade, Told};
use protolink_words::Format;
use protox_descriptor::descriptor::FileDescriptorProto;
use protox_option_checks::{CheckFault, check_options, check_text};
use protox_symbols::Symbols;
use std::alloc::Global;
use std::io::{self, Write};

// Tells a fault of a file.
fn tell_check<E: Write>(
    alloc: Global,
    err: &mut E,
    told: &Told<'_>,
    symbols: &Symbols,
    files: &[FileDescriptorProto],
    file: &FileDescriptorProto,
    fault: &CheckFault,
) -> io::Result<()> {
    let span = span_of(told, file, fault.path.as_slice());
    let text = check_text(alloc, symbols, files, fault)?;
    told.tell(alloc, err, Grade::Error, span.as_ref(), text.as_str())
}

// Tells faults of one file.
fn tell_of_file<E: Write>(
    alloc: Global,
    err: &mut E,
    format: Format,
    symbols: &Symbols,
    files: &[FileDescriptorProto],
    sources: &[SourceFile],
    faults: &[CheckFault],
) -> io::Result<()> {
    let Some(first) = faults.first() else {
        return Ok(());
    };
    let (Some(file), Some(source)) = (files.get(first.file), sources.get(first.file)) else {
        return Ok(());
    };
    let told = source.told(alloc, format, file)?;
    for fault in faults {
        tell_check(alloc, err, &told, symbols, files, file, fault)?;
    }
    Ok(())
}

/// Tells what is wrong with linked files, the options of which are right. Answers whether nothing is.
pub(crate) fn tell_checks<E: Write>(
    alloc: Global,
    err: &mut E,
    format: Format,
    symbols: &Symbols,
    files: &[FileDescriptorProto],
    sources: &[SourceFile],
) -> io::Result<bool> {
    let faults = check_options(alloc, symbols, files)?;
    let groups = faults.as_slice();
    for group in groups.chunk_by(|fault, next| fault.file == next.file) {
        tell_of_file(alloc, err, format, symbols, files, sources, group)?;
    }
    Ok(faults.is_empty())
}
