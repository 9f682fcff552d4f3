//! Reads messages in text format, a line each, and prints them with one space between what they are
//! made of, without what may be left out; or what is wrong, and in which column, from 1.
#![tactic(auto)]

mod show;
mod wrong;

use crate::show::write_items;
use crate::wrong::write_fault;
use protox_text_format::{Piece, PieceFailure, TextFailure, pieces, read};
use std::alloc::Global;
use std::io::{self, BufRead, BufReader, BufWriter, Write};

fn write_message<W: Write>(
    alloc: Global,
    out: &mut W,
    text: &str,
    found: &[Piece<'_>],
) -> io::Result<()> {
    match read(alloc, found) {
        Ok(items) => write_items(alloc, out, items.as_slice()),
        Err(TextFailure::Fault(fault)) => write_fault(out, text, found, fault),
        Err(TextFailure::OutOfMemory) => writeln!(out, "out of memory"),
    }
}

fn write_text<W: Write>(alloc: Global, out: &mut W, text: &str) -> io::Result<()> {
    match pieces(alloc, text) {
        Ok(found) => write_message(alloc, out, text, found.as_slice()),
        Err(PieceFailure::Fault(span)) => writeln!(
            out,
            "{}: no token",
            span.start.saturating_add(1)
        ),
        Err(PieceFailure::OutOfMemory) => writeln!(out, "out of memory"),
    }
}

fn write_texts<W: Write>(rt: &HostRuntime, alloc: Global, out: &mut W) -> io::Result<()> {
    for line in BufReader::new(alloc, rt.reader())?.lines(alloc) {
        write_text(alloc, out, line?.as_str())?;
    }
    Ok(())
}

fn main(rt: HostRuntime) -> io::Result<()> {
    let alloc = rt.alloc();
    let mut out = BufWriter::new(alloc, io::writer(&rt))?;
    write_texts(&rt, alloc, &mut out)?;
    out.flush()
}
