//! Reads statements of options, a line each set of them, and prints the bytes of a linked file with
//! all that they set; or what is wrong with the first one that is.
//!
//! A line has statements with a bar between them, each as `NAME = VALUE`. The options there are
//! stand in `schema.rt`.
#![tactic(auto)]

mod answers;
mod given;
mod schema;

use crate::answers::write_answer;
use std::alloc::Global;
use std::io::{self, BufRead, BufReader, BufWriter, Write};

fn write_answers<W: Write>(rt: &HostRuntime, alloc: Global, out: &mut W) -> io::Result<()> {
    for line in BufReader::new(alloc, rt.reader())?.lines(alloc) {
        write_answer(alloc, out, line?.as_str())?;
    }
    Ok(())
}

fn main(rt: HostRuntime) -> io::Result<()> {
    let alloc = rt.alloc();
    let mut out = BufWriter::new(alloc, io::writer(&rt))?;
    write_answers(&rt, alloc, &mut out)?;
    out.flush()
}
