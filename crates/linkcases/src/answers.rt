//! What is printed for a set of files.

ghost use Rattle.std.specs.Prelude.{IfOk};
ghost use Rattle.protox_link.specs.Known.{IsKnownOf};

use crate::faults::{texts_of, write_faults};
use crate::linked::write_linked;
use crate::resolved::write_resolved;
use crate::source::Source;
use protox_descriptor::descriptor::FileDescriptorProto;
use protox_link::{LinkedSet, Resolver, check, link};
use protox_link_fault::LinkFailure;
use protox_parse::{ParseFailure, parse};
use std::alloc::{AllocError, Global};
use std::io::{self, Write};

/// What is done with a set.
#[derive(Clone, Copy)]
pub(crate) enum Mode {
    /// The files are parsed and counted.
    Parse,
    /// The set is linked, and its files or faults are counted.
    Link,
    /// The set is linked, and what comes of it is printed.
    Print,
}

// Parses the sources, and adds their descriptors. If one is refused, that is printed, and it answers
// false. Who calls it has the descriptors, so no `?` in it lets them go.
fn parse_into<W: Write>(
    alloc: Global,
    out: &mut W,
    sources: &[Source],
    files: &mut Vec<FileDescriptorProto>,
) -> io::Result<bool> {
    for source in sources {
        match parse(alloc, source.name.as_str(), source.text.as_str()) {
            Ok(file) => files.push(file)?,
            Err(ParseFailure::Refused(error)) => {
                writeln!(out, "{error:?}")?;
                return Ok(false);
            }
            Err(ParseFailure::OutOfMemory) => {
                writeln!(out, "out of memory")?;
                return Ok(false);
            }
        }
    }
    Ok(true)
}

fn write_counts<W: Write>(
    alloc: Global,
    out: &mut W,
    files: Vec<FileDescriptorProto>,
) -> io::Result<()> {
    match link(alloc, files) {
        Ok(set) => writeln!(out, "linked: {}", set.files.len()),
        Err(LinkFailure::Refused(faults)) => writeln!(out, "faults: {}", faults.len()),
        Err(LinkFailure::OutOfMemory) => writeln!(out, "out of memory"),
    }
}

// How many names of the linked set are what the names of the same sources stand for. The files are
// those of the sources; there are none before.
fn write_names<W: Write>(
    alloc: Global,
    out: &mut W,
    sources: &[Source],
    resolver: &Resolver,
    files: &mut Vec<FileDescriptorProto>,
    set: &LinkedSet,
) -> io::Result<()> {
    if parse_into(alloc, out, sources, files)? {
        write_resolved(alloc, out, resolver, files.as_slice(), set)?;
    }
    Ok(())
}

// The linked set, and how many of its names are what they stand for.
fn write_set_and_names<W: Write>(
    alloc: Global,
    out: &mut W,
    sources: &[Source],
    resolver: &Resolver,
    set: &LinkedSet,
) -> io::Result<()> {
    write_linked(alloc, out, set)?;
    let mut files = Vec::new(alloc);
    write_names(alloc, out, sources, resolver, &mut files, set)
}

// What is known of files before they are linked: what names stand for, and what is wrong, in words.
#[derive(Drop)]
struct Known {
    resolver: Resolver,
    texts: Vec<String>,
}

fn learn(alloc: Global, files: &[FileDescriptorProto]) -> Result<Known, AllocError>
    ensures { IfOk result (λ known. IsKnownOf files.now known.resolver) }
{
    let resolver = Resolver::new(alloc, files)?;
    let checked = check(alloc, files)?;
    let texts = texts_of(alloc, files, &resolver, checked.as_slice())?;
    Ok(Known { resolver, texts })
}

// What comes of linking. It answers how many faults `link` tells.
fn write_linking<W: Write>(
    alloc: Global,
    out: &mut W,
    sources: &[Source],
    known: &Known,
    linked: &Result<LinkedSet, LinkFailure>,
) -> io::Result<usize> {
    let (resolver, texts) = (&known.resolver, known.texts.as_slice());
    match linked {
        Ok(set) => {
            write_set_and_names(alloc, out, sources, resolver, set)?;
            Ok(0)
        }
        Err(LinkFailure::Refused(faults)) => {
            let symbols = resolver.symbols();
            write_faults(alloc, out, sources, symbols, faults.as_slice(), texts)?;
            Ok(faults.len())
        }
        Err(LinkFailure::OutOfMemory) => {
            writeln!(out, "out of memory")?;
            Ok(texts.len())
        }
    }
}

// Writes what linking says. If `check` tells another number of faults, that is printed too.
fn write_both<W: Write>(
    alloc: Global,
    out: &mut W,
    sources: &[Source],
    known: &Known,
    linked: &Result<LinkedSet, LinkFailure>,
) -> io::Result<()> {
    let count = write_linking(alloc, out, sources, known, linked)?;
    if count != known.texts.len() {
        writeln!(out, "checked: {}", known.texts.len())?;
    }
    Ok(())
}

// Links files by what is known of them. Where nothing is wrong, they aren't checked again.
fn linked_by(
    alloc: Global,
    resolver: &Resolver,
    files: Vec<FileDescriptorProto>,
) -> Result<LinkedSet, LinkFailure>
    requires { IsKnownOf files.items resolver.now }
{
    let Ok(faults) = resolver.check(alloc, files.as_slice()) else {
        return Err(LinkFailure::OutOfMemory);
    };
    if !faults.is_empty() {
        return resolver.link(alloc, files);
    }
    match resolver.link_checked(alloc, files) {
        Ok(set) => Ok(set),
        Err(_) => Err(LinkFailure::OutOfMemory),
    }
}

// What comes of linking the files.
fn write_answer<W: Write>(
    alloc: Global,
    out: &mut W,
    sources: &[Source],
    files: Vec<FileDescriptorProto>,
) -> io::Result<()> {
    let Ok(known) = learn(alloc, files.as_slice()) else {
        return Err(AllocError.into());
    };
    let linked = linked_by(alloc, &known.resolver, files);
    write_both(alloc, out, sources, &known, &linked)
}

fn write_files<W: Write>(
    alloc: Global,
    out: &mut W,
    mode: Mode,
    sources: &[Source],
    files: Vec<FileDescriptorProto>,
) -> io::Result<()> {
    match mode {
        Mode::Parse => writeln!(out, "parsed: {}", files.len()),
        Mode::Link => write_counts(alloc, out, files),
        Mode::Print => write_answer(alloc, out, sources, files),
    }
}

/// Writes what comes of a set.
pub(crate) fn write_set<W: Write>(
    alloc: Global,
    out: &mut W,
    mode: Mode,
    sources: &[Source],
) -> io::Result<()> {
    let mut files = Vec::new(alloc);
    match parse_into(alloc, out, sources, &mut files) {
        Ok(true) => write_files(alloc, out, mode, sources, files),
        Ok(false) => Ok(()),
        Err(error) => Err(error),
    }
}
