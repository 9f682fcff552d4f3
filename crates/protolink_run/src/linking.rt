//! Linking the files that were read, and writing what is asked for.

ghost use Rattle.std.specs.Prelude.{◌≡◌, true, false, IfOk};
ghost use Rattle.protox_link.specs.Known.{IsKnownOf};
ghost use Rattle.protox_link.specs.Link.{NothingIsWrong};

use crate::faults::tell_faults;
use crate::host::{Host, is_want};
use crate::load::{Loaded, SourceFile, paths_of};
use crate::options::add_options;
use crate::output::{Set, chosen, rule, set_bytes};
use crate::told::{cause, say};
use crate::warnings::{warn_of_alike, warn_of_options, warn_of_unused};
use protolink_words::{Format, Work};
use protox_link::{LinkedSet, Resolver};
use std::alloc::Global;
use std::io::{self, Write};

// Writes a file, and tells if that fails. Answers whether it was written.
fn write<H: Host, E: Write>(
    alloc: Global,
    host: &H,
    name: &str,
    bytes: &[u8],
    err: &mut E,
) -> io::Result<bool> {
    match host.write(name, bytes) {
        Ok(()) => Ok(true),
        Err(error) if is_want(&error) => Err(error),
        Err(error) => {
            let why = cause(alloc, &error)?;
            say(alloc, err, name, why.as_str())?;
            Ok(false)
        }
    }
}

// Writes the file that lists what a set was made of, if it is asked for. Answers whether all is well.
fn write_rule<H: Host, E: Write>(
    alloc: Global,
    host: &H,
    work: &Work<'_>,
    name: &str,
    set: &Set,
    err: &mut E,
) -> io::Result<bool> {
    let Some(list) = work.dependencies else {
        return Ok(true);
    };
    let text = rule(alloc, name, set)?;
    write(alloc, host, list, text.as_str().as_bytes(), err)
}

// Writes what is asked for of linked files. The set is written last, so that it is there only if all
// is well. The set `-` goes to standard output.
fn write_all<H: Host, W: Write, E: Write>(
    alloc: Global,
    host: &H,
    work: &Work<'_>,
    mut set: Set,
    out: &mut W,
    err: &mut E,
) -> io::Result<bool> {
    let Some(name) = work.set else {
        return Ok(true);
    };
    let numbers = chosen(alloc, &set, work.imports)?;
    let numbers = numbers.as_slice();
    if set.options.is_empty() {
        warn_of_options(alloc, err, name, set.linked.files.as_slice(), numbers)?;
    }
    let Some(bytes) = set_bytes(alloc, err, work, numbers, &mut set)? else {
        return Ok(false);
    };
    if !write_rule(alloc, host, work, name, &set, err)? {
        return Ok(false);
    }
    if name == "-" {
        out.write_all(bytes.as_slice())?;
        return Ok(true);
    }
    write(alloc, host, name, bytes.as_slice(), err)
}

// Reads the options of linked files, and writes what is asked for. Answers whether all is well.
fn read_and_write<H: Host, W: Write, E: Write>(
    alloc: Global,
    host: &H,
    work: &Work<'_>,
    resolver: Resolver,
    linked: LinkedSet,
    sources: Vec<SourceFile>,
    inputs: usize,
    out: &mut W,
    err: &mut E,
) -> io::Result<bool> {
    let mut options = Vec::new(alloc);
    let (format, files, texts) = (work.format, linked.files.as_slice(), sources.as_slice());
    match add_options(alloc, err, format, resolver, files, texts, &mut options) {
        Ok(true) => {}
        Ok(false) => return Ok(false),
        Err(error) => return Err(error),
    }
    match paths_of(alloc, sources) {
        Ok(paths) => {
            let set = Set {
                linked,
                paths,
                inputs,
                options,
            };
            write_all(alloc, host, work, set, out, err)
        }
        Err(error) => Err(error.into()),
    }
}

// Links files in which nothing is wrong, and writes what is asked for. Answers whether all is well.
fn link_and_write<H: Host, W: Write, E: Write>(
    alloc: Global,
    host: &H,
    work: &Work<'_>,
    loaded: Loaded,
    resolver: Resolver,
    out: &mut W,
    err: &mut E,
) -> io::Result<bool>
    requires known { IsKnownOf loaded.files.items resolver }
    requires right { NothingIsWrong loaded.files.items }
{
    let Loaded {
        files,
        sources,
        inputs,
        schema,
        ..
    } = loaded;
    match resolver.link_checked(alloc, files) {
        Ok(mut linked) => {
            linked.order.retain(|number| Some(*number) != schema);
            read_and_write(
                alloc, host, work, resolver, linked, sources, inputs, out, err,
            )
        }
        Err(error) => Err(error.into()),
    }
}

// Tells what is wrong with files that were read. Answers whether nothing is.
fn tell_wrong<E: Write>(
    alloc: Global,
    err: &mut E,
    format: Format,
    loaded: &Loaded,
    resolver: &Resolver,
) -> io::Result<bool>
    requires { IsKnownOf loaded.now.files.items resolver.now }
    ensures { IfOk result (λ well. well ≡ true → NothingIsWrong loaded.now.files.items) }
{
    let faults = resolver.check(alloc, loaded.files.as_slice())?;
    tell_faults(alloc, err, format, loaded, resolver, faults.as_slice())?;
    Ok(faults.is_empty())
}

// Warns of what stands in files in which nothing is wrong. Answers whether there was a warning.
fn warn<E: Write>(
    alloc: Global,
    err: &mut E,
    format: Format,
    loaded: &Loaded,
    resolver: &Resolver,
) -> io::Result<bool>
    requires { IsKnownOf loaded.now.files.items resolver.now }
{
    let alike = warn_of_alike(alloc, err, format, loaded)?;
    let unused = warn_of_unused(alloc, err, format, loaded, resolver)?;
    Ok(alike || unused)
}

// Links the files, with what is known of them.
fn linked_by<H: Host, W: Write, E: Write>(
    alloc: Global,
    host: &H,
    work: &Work<'_>,
    loaded: Loaded,
    resolver: Resolver,
    out: &mut W,
    err: &mut E,
) -> io::Result<bool>
    requires { IsKnownOf loaded.files.items resolver }
    ensures read { IfOk result (λ well. well ≡ true → loaded.failed ≡ false) }
    ensures right { IfOk result (λ well. well ≡ true → NothingIsWrong loaded.files.items) }
{
    match tell_wrong(alloc, err, work.format, &loaded, &resolver) {
        Ok(true) => {}
        Ok(false) => return Ok(false),
        Err(error) => return Err(error),
    }
    if loaded.failed {
        return Ok(false);
    }
    let warned = match warn(alloc, err, work.format, &loaded, &resolver) {
        Ok(warned) => warned,
        Err(error) => return Err(error),
    };
    let well = link_and_write(alloc, host, work, loaded, resolver, out, err)?;
    Ok(well && !(warned && work.fatal_warnings))
}

/// Tells what is wrong with files that were read. If nothing is, it links them, and writes what is
/// asked for. Answers whether all is well.
pub(crate) fn linked<H: Host, W: Write, E: Write>(
    alloc: Global,
    host: &H,
    work: &Work<'_>,
    loaded: Loaded,
    out: &mut W,
    err: &mut E,
) -> io::Result<bool>
    // All is well only if each file could be read, and nothing is wrong with them.
    ensures read { IfOk result (λ well. well ≡ true → loaded.failed ≡ false) }
    ensures right { IfOk result (λ well. well ≡ true → NothingIsWrong loaded.files.items) }
{
    match Resolver::new(alloc, loaded.files.as_slice()) {
        Ok(resolver) => linked_by(alloc, host, work, loaded, resolver, out, err),
        Err(error) => Err(error.into()),
    }
}
