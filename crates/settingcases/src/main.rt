//! `settingcases` reads sets of .proto files, and prints what the statements of options in the last
//! file of each set to.
//!
//! - `== set WORDS` begins a set, and is printed as it is
//! - `== whole WORDS` does so, too; of its statements only the bytes of their file are printed
//! - `== file NAME` begins a file of the set; the lines behind it are its source
//! - `== base NAME` begins a file that this set and all later ones have
//! - `== end` ends the set
//!
//! For each statement it prints a line: the numbers of the fields that its name goes through, with
//! dots, and what it says to the last of them on the wire, or the bytes of the message that stands in
//! braces; or what is wrong, in protoc's words. What is wrong in braces isn't told. Behind them stand
//! the bytes of the file with all that its statements set, or how many options messages are wrong.
#![tactic(auto)]

mod aggregate;
mod answers;
mod source;
mod statement;
mod whole;

use crate::answers::write_set;
use crate::source::{Sources, note};
use std::alloc::Global;
use std::io::{self, BufRead, BufReader, BufWriter, Write};

// Takes one line: of a source, or one that begins or ends something.
fn take<W: Write>(alloc: Global, out: &mut W, sources: &mut Sources, line: &str) -> io::Result<()> {
    if line == "== end" {
        write_set(alloc, out, sources)?;
        sources.files.clear();
        return Ok(());
    }
    let whole = line.starts_with("== whole");
    if whole || line.starts_with("== set") {
        sources.whole = whole;
        return writeln!(out, "{line}");
    }
    note(alloc, sources, line)?;
    Ok(())
}

fn take_all<W: Write>(
    rt: &HostRuntime,
    alloc: Global,
    out: &mut W,
    sources: &mut Sources,
) -> io::Result<()> {
    for line in BufReader::new(alloc, rt.reader())?.lines(alloc) {
        take(alloc, out, sources, line?.as_str())?;
    }
    Ok(())
}

fn main(rt: HostRuntime) -> io::Result<()> {
    let alloc = rt.alloc();
    let mut out = BufWriter::new(alloc, io::writer(&rt))?;
    let mut sources = Sources::new(alloc);
    take_all(&rt, alloc, &mut out, &mut sources)?;
    out.flush()
}
