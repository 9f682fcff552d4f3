//! What is told of files that are refused, or can't be linked.

use crate::load::Loaded;
use crate::places::{import_span, span_of};
use crate::told::{Grade, Told};
use protolink_words::Format;
use protox_descriptor::descriptor::FileDescriptorProto;
use protox_link::Resolver;
use protox_link_fault::{LinkFault, LinkFaultKind};
use protox_link_text::errors_of;
use protox_parse::ParseError;
use protox_views::View;
use std::alloc::Global;
use std::io::{self, Write};

/// Writes each fault of a file that is refused.
pub(crate) fn tell_refusal<E: Write>(
    alloc: Global,
    err: &mut E,
    format: Format,
    name: &str,
    path: &str,
    error: &ParseError,
) -> io::Result<()> {
    let told = Told::new(alloc, format, name, path, error.source())?;
    for fault in error.errors() {
        told.tell_fault(alloc, err, error.source(), fault)?;
    }
    Ok(())
}

// Writes each error that is told of a fault of a file.
fn tell_fault<E: Write>(
    alloc: Global,
    err: &mut E,
    told: &Told<'_>,
    files: &[FileDescriptorProto],
    file: &FileDescriptorProto,
    view: &View<'_>,
    fault: &LinkFault,
) -> io::Result<()> {
    let span = match &fault.kind {
        LinkFaultKind::ImportCycle(circle) => import_span(told, files, file, circle.as_slice()),
        _ => span_of(told, file, fault.path.as_slice()),
    };
    for error in &errors_of(alloc, files, view, fault)? {
        let text = format!(in alloc; "{error}")?;
        told.tell(alloc, err, Grade::Error, span.as_ref(), text.as_str())?;
    }
    Ok(())
}

// The number of the file at which a fault is told: its own; for files that import one another in a
// circle, the first of them, as for protoc.
fn told_at(fault: &LinkFault) -> usize {
    match &fault.kind {
        LinkFaultKind::ImportCycle(circle) => *circle.first().unwrap_or(&fault.file),
        _ => fault.file,
    }
}

// Writes what is told of faults that are told at the same file.
fn tell_of_file<E: Write>(
    alloc: Global,
    err: &mut E,
    format: Format,
    loaded: &Loaded,
    resolver: &Resolver,
    faults: &[LinkFault],
) -> io::Result<()> {
    let Some(number) = faults.first().map(told_at) else {
        return Ok(());
    };
    let files = loaded.files.as_slice();
    let (Some(file), Some(source)) = (files.get(number), loaded.sources.get(number)) else {
        return Ok(());
    };
    let Some(names) = resolver.file(alloc, number)? else {
        return Ok(());
    };
    let told = source.told(alloc, format, file)?;
    for fault in faults {
        tell_fault(alloc, err, &told, files, file, &names.view(), fault)?;
    }
    Ok(())
}

/// Writes each error that is told of each fault.
pub(crate) fn tell_faults<E: Write>(
    alloc: Global,
    err: &mut E,
    format: Format,
    loaded: &Loaded,
    resolver: &Resolver,
    faults: &[LinkFault],
) -> io::Result<()> {
    for group in faults.chunk_by(|fault, next| fault.file == next.file) {
        tell_of_file(alloc, err, format, loaded, resolver, group)?;
    }
    Ok(())
}
