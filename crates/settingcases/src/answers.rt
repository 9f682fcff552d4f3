//! What is printed for a set of files.

use crate::source::{Source, Sources};
use crate::statement::write_statement;
use crate::whole::write_whole;
use protox_descriptor::descriptor::FileDescriptorProto;
use protox_link::{FileNames, LinkedSet, Resolver, link};
use protox_link_fault::LinkFailure;
use protox_parse::{ParseFailure, parse};
use protox_views::View;
use protox_walk::{Declaration, declarations};
use std::alloc::Global;
use std::io::{self, Write};

/// What the statements are read with: what the last file sees, and the linked files.
#[derive(Clone, Copy)]
pub(crate) struct Known<'a> {
    pub(crate) view: &'a View<'a>,
    pub(crate) files: &'a [FileDescriptorProto],
}

// Parses the sources, and adds their descriptors. If one is refused, that is printed, and it answers
// false.
fn parse_into<W: Write>(
    alloc: Global,
    out: &mut W,
    sources: &[Source],
    files: &mut Vec<FileDescriptorProto>,
) -> io::Result<bool> {
    for source in sources {
        match parse(alloc, source.name.as_str(), source.text.as_str()) {
            Ok(mut file) => {
                // Its bytes are printed without places.
                file.source_code_info = None;
                files.push(file)?;
            }
            Err(ParseFailure::Refused(error)) => {
                writeln!(out, "{error:?}")?;
                return Ok(false);
            }
            Err(ParseFailure::OutOfMemory) => {
                writeln!(out, "out of memory")?;
                return Ok(false);
            }
        }
    }
    Ok(true)
}

// The scope that something with this full name stands in.
fn scope_of(view: &View<'_>, full_name: &str) -> Option<usize> {
    view.symbols.outer(view.symbols.find(None, full_name)?)
}

// The message of options of a declaration.
fn options_of(kind: &str) -> &'static str {
    match kind {
        "message" => "google.protobuf.MessageOptions",
        "field" => "google.protobuf.FieldOptions",
        "extension" => "google.protobuf.FieldOptions",
        "oneof" => "google.protobuf.OneofOptions",
        "enum" => "google.protobuf.EnumOptions",
        "value" => "google.protobuf.EnumValueOptions",
        "service" => "google.protobuf.ServiceOptions",
        _ => "google.protobuf.MethodOptions",
    }
}

fn write_declaration<W: Write>(
    alloc: Global,
    out: &mut W,
    known: Known<'_>,
    declaration: &Declaration<'_>,
) -> io::Result<()> {
    let scope = scope_of(known.view, declaration.full_name.as_str());
    let options = options_of(declaration.part.kind());
    for statement in declaration.part.options() {
        write_statement(alloc, out, known, scope, options, statement)?;
    }
    Ok(())
}

fn write_declarations<W: Write>(
    alloc: Global,
    out: &mut W,
    known: Known<'_>,
    declarations: &[Declaration<'_>],
) -> io::Result<()> {
    for declaration in declarations {
        write_declaration(alloc, out, known, declaration)?;
    }
    Ok(())
}

// The statements of the file itself stand in the scope of its package.
fn write_file_options<W: Write>(
    alloc: Global,
    out: &mut W,
    known: Known<'_>,
    file: &FileDescriptorProto,
) -> io::Result<()> {
    let Some(options) = &file.options else {
        return Ok(());
    };
    let package = file
        .package
        .as_ref()
        .map(|name| name.as_str())
        .unwrap_or("");
    let scope = known.view.symbols.find(None, package);
    let message = "google.protobuf.FileOptions";
    for statement in &options.uninterpreted_option {
        write_statement(alloc, out, known, scope, message, statement)?;
    }
    Ok(())
}

// What each statement of a file sets.
fn write_statements<W: Write>(
    alloc: Global,
    out: &mut W,
    known: Known<'_>,
    file: &FileDescriptorProto,
) -> io::Result<()> {
    write_file_options(alloc, out, known, file)?;
    let found = declarations(alloc, file)?;
    write_declarations(alloc, out, known, found.as_slice())
}

fn write_file<W: Write>(
    alloc: Global,
    out: &mut W,
    names: &FileNames<'_>,
    files: &[FileDescriptorProto],
    file: &FileDescriptorProto,
    whole: bool,
) -> io::Result<()> {
    let view = names.view();
    let known = Known { view: &view, files };
    if !whole {
        write_statements(alloc, out, known, file)?;
    }
    write_whole(alloc, out, known, file)
}

// Writes what the statements of the last file set: this holds the `?`, while its caller holds the
// resolver.
fn write_last<W: Write>(
    alloc: Global,
    out: &mut W,
    resolver: &Resolver,
    files: &[FileDescriptorProto],
    whole: bool,
) -> io::Result<()> {
    let Some(file) = files.last() else {
        return Ok(());
    };
    let Some(names) = resolver.file(alloc, files.len() - 1)? else {
        return Ok(());
    };
    write_file(alloc, out, &names, files, file, whole)
}

fn write_linked<W: Write>(
    alloc: Global,
    out: &mut W,
    set: &LinkedSet,
    whole: bool,
) -> io::Result<()> {
    match Resolver::new(alloc, set.files.as_slice()) {
        Ok(resolver) => write_last(alloc, out, &resolver, set.files.as_slice(), whole),
        Err(error) => Err(error.into()),
    }
}

fn write_linking<W: Write>(
    alloc: Global,
    out: &mut W,
    files: Vec<FileDescriptorProto>,
    whole: bool,
) -> io::Result<()> {
    match link(alloc, files) {
        Ok(set) => write_linked(alloc, out, &set, whole),
        Err(LinkFailure::Refused(faults)) => writeln!(out, "faults: {}", faults.len()),
        Err(LinkFailure::OutOfMemory) => writeln!(out, "out of memory"),
    }
}

fn parsed<W: Write>(
    alloc: Global,
    out: &mut W,
    sources: &Sources,
    files: &mut Vec<FileDescriptorProto>,
) -> io::Result<bool> {
    if !parse_into(alloc, out, sources.base.as_slice(), files)? {
        return Ok(false);
    }
    parse_into(alloc, out, sources.files.as_slice(), files)
}

/// What the statements of the last file set, or what is wrong with the set.
pub(crate) fn write_set<W: Write>(alloc: Global, out: &mut W, sources: &Sources) -> io::Result<()> {
    let mut files = Vec::new(alloc);
    match parsed(alloc, out, sources, &mut files) {
        Ok(true) => write_linking(alloc, out, files, sources.whole),
        Ok(false) => Ok(()),
        Err(error) => Err(error),
    }
}
