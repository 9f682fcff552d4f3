//! What is wrong with a set, as lines.

use crate::source::Source;
use protox_descriptor::descriptor::FileDescriptorProto;
use protox_link::Resolver;
use protox_link_fault::{LinkFault, LinkFaultKind, NumberFault};
use protox_link_text::errors_of;
use protox_symbols::Symbols;
use std::alloc::{AllocError, Global};
use std::io::{self, Write};

// The name of the file with a number.
fn name_at(sources: &[Source], number: usize) -> &str {
    match sources.get(number) {
        Some(source) => source.name.as_str(),
        None => "no file",
    }
}

// What has a number in the table, and the file that declares it first.
fn write_thing<W: Write>(
    alloc: Global,
    out: &mut W,
    sources: &[Source],
    symbols: &Symbols,
    number: usize,
) -> io::Result<()> {
    let name = symbols.dotted(alloc, number)?;
    match symbols.thing(number) {
        Some(thing) => write!(out, " {name} in {}", name_at(sources, thing.file)),
        None => write!(out, " nothing"),
    }
}

fn write_circle<W: Write>(out: &mut W, sources: &[Source], circle: &[usize]) -> io::Result<()> {
    for number in circle {
        write!(out, " {}", name_at(sources, *number))?;
    }
    Ok(())
}

fn word_of_clash(how: NumberFault) -> &'static str {
    match how {
        NumberFault::Reused => "number used before",
        NumberFault::Reserved => "reserved number",
        NumberFault::ForExtensions => "number for extensions",
        NumberFault::ReservedTwice => "range overlaps",
        NumberFault::ExtensionsTwice => "range overlaps",
        NumberFault::ExtensionsReserved => "reserved range",
        NumberFault::ValueReserved => "reserved number",
        NumberFault::ValuesReservedTwice => "range overlaps",
    }
}

fn word(kind: &LinkFaultKind) -> &'static str {
    match kind {
        LinkFaultKind::MissingName => "no name",
        LinkFaultKind::BadName => "bad name",
        LinkFaultKind::AlreadyDefined(_) => "already defined:",
        LinkFaultKind::NotInTable => "not in the table",
        LinkFaultKind::NotAPackage(_) => "not a package:",
        LinkFaultKind::LongPackage => "long package",
        LinkFaultKind::DeepPackage => "deep package",
        LinkFaultKind::NotDefined(_) => "not defined:",
        LinkFaultKind::NotAType(_) => "not a type:",
        LinkFaultKind::NotAMessage(_) => "not a message:",
        LinkFaultKind::MessageDefault => "default of a message",
        LinkFaultKind::BadDefault => "bad default",
        LinkFaultKind::NoSuchValue(_) => "no such value",
        LinkFaultKind::Clash(how, _) => word_of_clash(*how),
        LinkFaultKind::ForImplementation => "number for the implementation",
        LinkFaultKind::EmptyRange => "empty range",
        LinkFaultKind::NoValue => "no value",
        LinkFaultKind::ReservedAgain(_) => "name reserved before",
        LinkFaultKind::ReservedName => "reserved name",
        LinkFaultKind::FirstNotZero => "first value not zero",
        LinkFaultKind::ExtensionsInProto3 => "extensions in proto3",
        LinkFaultKind::Alike(_) => "like another name",
        LinkFaultKind::OutOfRanges(_) => "in no extension range",
        LinkFaultKind::ExtensionReused(_, _) => "extension number used before",
        LinkFaultKind::NotOfOptions => "not of options",
        LinkFaultKind::MissingImport => "missing import",
        LinkFaultKind::RepeatedImport => "repeated import",
        LinkFaultKind::ImportCycle(_) => "cycle:",
    }
}

// What the kind speaks of.
fn write_rest<W: Write>(
    alloc: Global,
    out: &mut W,
    sources: &[Source],
    symbols: &Symbols,
    kind: &LinkFaultKind,
) -> io::Result<()> {
    match kind {
        LinkFaultKind::AlreadyDefined(number) | LinkFaultKind::NotAPackage(number) => {
            write_thing(alloc, out, sources, symbols, *number)
        }
        LinkFaultKind::NotDefined(name)
        | LinkFaultKind::NotAType(name)
        | LinkFaultKind::NotAMessage(name) => write!(out, " {name}"),
        LinkFaultKind::ImportCycle(circle) => write_circle(out, sources, circle.as_slice()),
        _ => Ok(()),
    }
}

// What is told of a fault, in lines.
fn text_of_fault(
    alloc: Global,
    files: &[FileDescriptorProto],
    resolver: &Resolver,
    fault: &LinkFault,
) -> Result<String, AllocError> {
    let mut text = String::new(alloc);
    let Some(names) = resolver.file(alloc, fault.file)? else {
        return Ok(text);
    };
    for error in &errors_of(alloc, files, &names.view(), fault)? {
        let line = format!(in alloc; "  {error}\n")?;
        text.push_str(line.as_str())?;
    }
    Ok(text)
}

// The path, with dots.
fn write_path<W: Write>(out: &mut W, path: &[i32]) -> io::Result<()> {
    let mut dot = "";
    for step in path {
        write!(out, "{dot}{step}")?;
        dot = ".";
    }
    Ok(())
}

/// A line for each error that is told of each fault.
pub(crate) fn texts_of(
    alloc: Global,
    files: &[FileDescriptorProto],
    resolver: &Resolver,
    faults: &[LinkFault],
) -> Result<Vec<String>, AllocError> {
    let mut texts = Vec::new(alloc);
    for fault in faults {
        texts.push(text_of_fault(alloc, files, resolver, fault)?)?;
    }
    Ok(texts)
}

/// Writes a line for each fault, and its text below it.
pub(crate) fn write_faults<W: Write>(
    alloc: Global,
    out: &mut W,
    sources: &[Source],
    symbols: &Symbols,
    faults: &[LinkFault],
    texts: &[String],
) -> io::Result<()> {
    for (index, fault) in faults.iter().enumerate() {
        write!(out, "{} ", name_at(sources, fault.file))?;
        write_path(out, fault.path.as_slice())?;
        write!(out, " {}", word(&fault.kind))?;
        write_rest(alloc, out, sources, symbols, &fault.kind)?;
        writeln!(out)?;
        if let Some(text) = texts.get(index) {
            write!(out, "{text}")?;
        }
    }
    Ok(())
}
