//! What the options of linked files say.

use crate::checks::tell_checks;
use crate::load::SourceFile;
use crate::places::span_of;
use crate::statements::statements_at;
use crate::told::{Grade, Told};
use protolink_words::Format;
use protox_brace_text::brace_text;
use protox_descriptor::descriptor::{FileDescriptorProto, UninterpretedOption};
use protox_descriptor::tag::UNINTERPRETED_OPTION;
use protox_fault::error::Span;
use protox_file_options::{InterpretedFile, OptionsFault, PlaceFault, interpret_file};
use protox_interpret::{Site, StatementFault, StatementFaultKind};
use protox_link::Resolver;
use protox_option_text::statement_text;
use protox_usage::has_options;
use protox_views::View;
use std::alloc::{AllocError, Global};
use std::io::{self, Write};

// The path of a statement.
fn statement_path(alloc: Global, options: &[i32], index: usize) -> Result<Vec<i32>, AllocError> {
    let mut path = Vec::new(alloc);
    path.extend_from_slice(options)?;
    path.push(UNINTERPRETED_OPTION)?;
    path.push(i32::try_from(index).unwrap_or(i32::MAX))?;
    Ok(path)
}

// Where a fault of a statement stands, which has this path: at its name or at its value.
fn fault_span(
    alloc: Global,
    told: &Told<'_>,
    file: &FileDescriptorProto,
    path: &[i32],
    kind: &StatementFaultKind,
) -> Result<Option<Span>, AllocError> {
    let Some(statement) = span_of(told, file, path) else {
        return Ok(None);
    };
    match kind {
        StatementFaultKind::Name(_) | StatementFaultKind::AlreadySet => {
            Ok(Some(told.name_span(alloc, statement)?))
        }
        _ => Ok(Some(told.value_span(alloc, statement)?)),
    }
}

// What stands in the braces of a statement.
fn in_braces(statement: &UninterpretedOption) -> &str {
    match &statement.aggregate_value {
        Some(text) => text.as_str(),
        None => "",
    }
}

// What is wrong with a statement. Of a text in braces it tells what is wrong there, too.
fn fault_text(
    alloc: Global,
    site: Site<'_>,
    statement: &UninterpretedOption,
    kind: &StatementFaultKind,
) -> Result<String, AllocError> {
    let text = statement_text(alloc, site, statement, kind)?;
    match kind {
        StatementFaultKind::Token(_)
        | StatementFaultKind::Text(_)
        | StatementFaultKind::Aggregate(_) => {
            let told = brace_text(alloc, site, in_braces(statement), kind)?;
            format!(in alloc; "{text}: {told}")
        }
        _ => Ok(text),
    }
}

// Tells what is wrong with a statement.
fn tell_statement<E: Write>(
    alloc: Global,
    err: &mut E,
    told: &Told<'_>,
    site: Site<'_>,
    file: &FileDescriptorProto,
    path: &[i32],
    fault: &StatementFault,
) -> io::Result<()> {
    let Some(statement) = statements_at(file, path).get(fault.index) else {
        return Ok(());
    };
    let path = statement_path(alloc, path, fault.index)?;
    let span = fault_span(alloc, told, file, path.as_slice(), &fault.kind)?;
    let text = fault_text(alloc, site, statement, &fault.kind)?;
    told.tell(alloc, err, Grade::Error, span.as_ref(), text.as_str())
}

// Tells what is wrong with the statements of an options message.
fn tell_fault<E: Write>(
    alloc: Global,
    err: &mut E,
    told: &Told<'_>,
    view: &View<'_>,
    files: &[FileDescriptorProto],
    file: &FileDescriptorProto,
    found: &OptionsFault,
) -> io::Result<()> {
    let path = found.path.as_slice();
    match &found.fault {
        PlaceFault::NoType => {
            let span = span_of(told, file, path);
            let text = "no file declares what options there are here";
            told.tell(alloc, err, Grade::Error, span.as_ref(), text)
        }
        PlaceFault::Statement(fault) => {
            let site = Site {
                view,
                files,
                scope: found.scope,
                message: found.message.unwrap_or(0),
            };
            tell_statement(alloc, err, told, site, file, path, fault)
        }
    }
}

// Tells each fault of a file.
fn tell_faults<E: Write>(
    alloc: Global,
    err: &mut E,
    told: &Told<'_>,
    view: &View<'_>,
    files: &[FileDescriptorProto],
    file: &FileDescriptorProto,
    faults: &[OptionsFault],
) -> io::Result<()> {
    for fault in faults {
        tell_fault(alloc, err, told, view, files, file, fault)?;
    }
    Ok(())
}

// Tells what is wrong with the options of a file. Answers whether nothing is.
fn tell_file<E: Write>(
    alloc: Global,
    err: &mut E,
    format: Format,
    view: &View<'_>,
    files: &[FileDescriptorProto],
    file: &FileDescriptorProto,
    source: &SourceFile,
    faults: &[OptionsFault],
) -> io::Result<bool> {
    if faults.is_empty() {
        return Ok(true);
    }
    let told = source.told(alloc, format, file)?;
    tell_faults(alloc, err, &told, view, files, file, faults)?;
    Ok(false)
}

// Adds what the options of a file say. Answers whether nothing is wrong with them, and tells it if
// something is.
fn add_file<E: Write>(
    alloc: Global,
    err: &mut E,
    format: Format,
    view: &View<'_>,
    files: &[FileDescriptorProto],
    file: &FileDescriptorProto,
    source: &SourceFile,
    all: &mut Vec<InterpretedFile>,
) -> io::Result<bool> {
    let read = interpret_file(alloc, view, files, file)?;
    let faults = read.faults.as_slice();
    let well = tell_file(alloc, err, format, view, files, file, source, faults)?;
    all.push(read)?;
    Ok(well)
}

/// Whether one of the files sets options.
///
/// # Errors
/// `AllocError` where memory runs out.
pub(crate) fn some_has_options(
    alloc: Global,
    files: &[FileDescriptorProto],
) -> Result<bool, AllocError> {
    for file in files {
        if has_options(alloc, file)? {
            return Ok(true);
        }
    }
    Ok(false)
}

// Adds what the options of each file say. Answers whether nothing is wrong with them.
fn add_files<E: Write>(
    alloc: Global,
    err: &mut E,
    format: Format,
    resolver: &Resolver,
    files: &[FileDescriptorProto],
    sources: &[SourceFile],
    all: &mut Vec<InterpretedFile>,
) -> io::Result<bool> {
    let mut well = true;
    for (number, (file, source)) in files.iter().zip(sources.iter()).enumerate() {
        let Some(names) = resolver.file(alloc, number)? else {
            return Ok(false);
        };
        let view = names.view();
        if !add_file(alloc, err, format, &view, files, file, source, all)? {
            well = false;
        }
    }
    Ok(well)
}

// Whether a file declares what options there are.
fn declares_options(resolver: &Resolver) -> bool {
    resolver
        .symbols()
        .find(None, "google.protobuf.FileOptions")
        .is_some()
}

// Adds what the options of each file say, if some file declares what options there are. Answers whether
// nothing is wrong with them.
fn add_known<E: Write>(
    alloc: Global,
    err: &mut E,
    format: Format,
    resolver: &Resolver,
    files: &[FileDescriptorProto],
    sources: &[SourceFile],
    all: &mut Vec<InterpretedFile>,
) -> io::Result<bool> {
    if !declares_options(resolver) || !some_has_options(alloc, files)? {
        return Ok(true);
    }
    add_files(alloc, err, format, resolver, files, sources, all)
}

/// Adds what the options of each of the linked files say. Nothing is added if no file sets any, or if
/// no file declares what options there are: then they stay as they are written. Answers whether nothing
/// is wrong with the options, and with what has them. What is wrong is told. What is known of the files
/// is let go of.
pub(crate) fn add_options<E: Write>(
    alloc: Global,
    err: &mut E,
    format: Format,
    resolver: Resolver,
    files: &[FileDescriptorProto],
    sources: &[SourceFile],
    all: &mut Vec<InterpretedFile>,
) -> io::Result<bool> {
    if !add_known(alloc, err, format, &resolver, files, sources, all)? {
        return Ok(false);
    }
    tell_checks(alloc, err, format, resolver.symbols(), files, sources)
}
