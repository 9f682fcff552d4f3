//! `runcases [--bytes LIST] [--scans LIST] [--words LIST] [--links LIST]` prints bytes of
//! descriptors, and what the programs do. Its lines are in `stdout`.
//!
//! - `--bytes`: the bytes of the descriptors of the files that the lines of the list name
//! - `--scans`: what `protoscan` does with the words of each line of the list
//! - `--words`: what `protoparse` does with the words of each line of the list
//! - `--links`: what `protolink` does with the words of each line of the list
#![tactic(auto)]

mod bytes;
mod links;
mod scans;
mod words;

use bytes::write_bytes;
use links::write_links;
use scans::write_scans;
use std::io::{self, BufWriter, Write};
use std::process::ExitCode;
use std::{env, fs};
use words::write_words;

// What is printed for a list.
#[derive(Clone, Copy)]
enum Mode {
    Bytes,
    Scans,
    Words,
    Links,
}

// The mode that a word sets for the lists behind it.
fn mode_of(word: &str) -> Option<Mode> {
    match word {
        "--bytes" => Some(Mode::Bytes),
        "--scans" => Some(Mode::Scans),
        "--words" => Some(Mode::Words),
        "--links" => Some(Mode::Links),
        _ => None,
    }
}

fn write_list<W: Write>(rt: &HostRuntime, out: &mut W, mode: Mode, name: &str) -> io::Result<()> {
    let list = fs::read_to_string(rt, name)?;
    writeln!(out, "== {name}")?;
    match mode {
        Mode::Bytes => write_bytes(rt, out, list.as_str()),
        Mode::Scans => write_scans(rt, out, list.as_str()),
        Mode::Words => {
            out.flush()?;
            write_words(rt, list.as_str())
        }
        Mode::Links => {
            out.flush()?;
            write_links(rt, list.as_str())
        }
    }
}

fn write_all(rt: &HostRuntime) -> io::Result<()> {
    let mut out = BufWriter::new(rt.alloc(), rt.stdout())?;
    let mut mode = Mode::Bytes;
    for word in env::args(rt)?.skip(1) {
        match mode_of(word.as_str()) {
            Some(set) => mode = set,
            None => write_list(rt, &mut out, mode, word.as_str())?,
        }
    }
    out.flush()
}

// Says where memory ran out, without asking for memory. If the line can't be written, nothing is
// said.
fn failed(rt: &HostRuntime, error: &io::Error) -> u8 {
    if error.kind() == io::ErrorKind::OutOfMemory {
        let _said = rt.stderr().write_all(b"runcases: out of memory\n");
    }
    2
}

fn main(rt: HostRuntime) -> ExitCode {
    ExitCode::from(match write_all(&rt) {
        Ok(()) => 0,
        Err(error) => failed(&rt, &error),
    })
}
