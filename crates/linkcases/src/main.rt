//! `linkcases [--parse|--link]` reads sets of .proto files, and prints what linking makes of each
//! set, or what is wrong with it. `linkcases --made SEED COUNT` makes a set of so many files from a
//! number, links it, and says how many files are linked.
//!
//! - `== set WORDS` begins a set, and is printed as it is
//! - `== file NAME` begins a file of the set; the lines behind it are its source
//! - `== end` ends the set
//!
//! For a set that is linked it prints the order of its files, and then the name of each file, and
//! its fields, extensions and methods, each on a line: the full name, the type, the message that it
//! extends, the name in JSON; or the types of the method. Behind them it says how many of the names
//! that they use stand for the same if they are asked for one by one. For another set it prints what
//! is wrong, a line for each fault: the file, the path in it with dots, and the kind.
//!
//! With `--parse` the files of a set are only parsed, and with `--parse` and `--link` only counts are
//! printed.
#![tactic(auto)]

mod answers;
mod faults;
mod linked;
mod made;
mod resolved;
mod source;

use crate::answers::{Mode, write_set};
use crate::made::made;
use crate::source::{Source, note};
use std::alloc::Global;
use std::env;
use std::io::{self, BufRead, BufReader, BufWriter, Write};

fn mode(rt: &HostRuntime) -> io::Result<Mode> {
    let mut mode = Mode::Print;
    for word in env::args(rt)?.skip(1) {
        match word.as_str() {
            "--parse" => mode = Mode::Parse,
            "--link" => mode = Mode::Link,
            _ => {}
        }
    }
    Ok(mode)
}

// Takes one line: of a source, or one that begins or ends something.
fn take<W: Write>(
    alloc: Global,
    out: &mut W,
    mode: Mode,
    sources: &mut Vec<Source>,
    line: &str,
) -> io::Result<()> {
    if line == "== end" {
        write_set(alloc, out, mode, sources.as_slice())?;
        sources.clear();
        return Ok(());
    }
    if line.starts_with("== set") {
        return writeln!(out, "{line}");
    }
    note(alloc, sources, line)?;
    Ok(())
}

fn take_all<W: Write>(
    rt: &HostRuntime,
    alloc: Global,
    out: &mut W,
    mode: Mode,
    sources: &mut Vec<Source>,
) -> io::Result<()> {
    for line in BufReader::new(alloc, rt.reader())?.lines(alloc) {
        take(alloc, out, mode, sources, line?.as_str())?;
    }
    Ok(())
}

// The two numbers behind `--made`, if that is the first word.
fn wanted(rt: &HostRuntime) -> io::Result<Option<(u64, usize)>> {
    let mut words = env::args(rt)?.skip(1);
    let Some(first) = words.next() else {
        return Ok(None);
    };
    if first.as_str() != "--made" {
        return Ok(None);
    }
    let seed = words.next().and_then(|word| word.parse::<u64>().ok());
    let count = words.next().and_then(|word| word.parse::<usize>().ok());
    Ok(Some((seed.unwrap_or(7), count.unwrap_or(200))))
}

fn main(rt: HostRuntime) -> io::Result<()> {
    let alloc = rt.alloc();
    let mode = mode(&rt)?;
    let mut out = BufWriter::new(alloc, io::writer(&rt))?;
    if let Some((seed, count)) = wanted(&rt)? {
        let sources = made(alloc, seed, count)?;
        write_set(alloc, &mut out, Mode::Link, sources.as_slice())?;
        return out.flush();
    }
    let mut sources = Vec::new(alloc);
    take_all(&rt, alloc, &mut out, mode, &mut sources)?;
    out.flush()
}
