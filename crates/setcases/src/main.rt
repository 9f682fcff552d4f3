//! `setcases` reads sets of .proto files, and prints what `link_to_bytes` makes of each.
//!
//! - `== set WORDS` begins a set, and is printed as it is. If the words begin with `with options`,
//!   `link_with_options` is called
//! - `== file NAME` begins a file of the set; the lines behind it are its source
//! - `== end` ends the set
//!
//! For a set that is linked it prints its bytes, 32 on a line, as hexadecimal digits; for another one
//! a line for each record: `NAME:LINE:COLUMN: ` with line and column from 1, and what is wrong.
#![tactic(auto)]

mod answers;
mod record;

use crate::answers::{write_set, write_set_with_options};
use std::alloc::{AllocError, Global};
use std::io::{self, BufRead, BufReader, BufWriter, Write};

/// A file of a set.
#[derive(Drop)]
pub(crate) struct Source {
    pub(crate) name: String,
    pub(crate) text: String,
}

// Begins a file, or adds a line to the last one.
fn note(alloc: Global, sources: &mut Vec<Source>, line: &str) -> Result<(), AllocError> {
    if let Some(name) = line.strip_prefix("== file ") {
        let name = String::from_str(alloc, name)?;
        let text = String::new(alloc);
        sources.push(Source { name, text })?;
        return Ok(());
    }
    if let Some(source) = sources.last_mut() {
        source.text.push_str(line)?;
        source.text.push('\n')?;
    }
    Ok(())
}

// Takes the end of a set.
fn end<W: Write>(alloc: Global, out: &mut W, sources: &[Source], options: bool) -> io::Result<()> {
    if options {
        write_set_with_options(alloc, out, sources)
    } else {
        write_set(alloc, out, sources)
    }
}

// Takes one line: of a source, or one that begins or ends something. `options` is whether those of the
// set are read.
fn take<W: Write>(
    alloc: Global,
    out: &mut W,
    sources: &mut Vec<Source>,
    options: &mut bool,
    line: &str,
) -> io::Result<()> {
    if line == "== end" {
        end(alloc, out, sources.as_slice(), *options)?;
        sources.clear();
        return Ok(());
    }
    if line.starts_with("== set") {
        *options = line.starts_with("== set with options");
        return writeln!(out, "{line}");
    }
    note(alloc, sources, line)?;
    Ok(())
}

fn main(rt: HostRuntime) -> io::Result<()> {
    let alloc = rt.alloc();
    let mut out = BufWriter::new(alloc, io::writer(&rt))?;
    let mut sources = Vec::new(alloc);
    let mut options = false;
    for line in BufReader::new(alloc, rt.reader())?.lines(alloc) {
        take(alloc, &mut out, &mut sources, &mut options, line?.as_str())?;
    }
    out.flush()
}
