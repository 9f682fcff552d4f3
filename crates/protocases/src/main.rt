//! `protocases [FILE..] [--lexemes FILE..] [--fronts FILE..] [--returns FILE..] [--large]` prints
//! what the parser answers for each file: its descriptor in text format, and a line for each
//! location with its comments; or what is wrong with the file. A case is a file in `data/` and its
//! lines in `stdout`. The words between the files change what is printed for the files behind them:
//!
//! - `--lexemes`: the lexemes and faults that the lexer gives, and the rows, gaps, comments and
//!   faults of the table
//! - `--fronts`: whether each front of the file is accepted
//! - `--returns`: whether the answer is the same when the lines end with `\r\n`
//!
//! `--large` prints the answers for sources that are deep or long.
#![tactic(auto)]

mod cases;
mod fronts;
mod large;
mod lexemes;
mod locations;
mod returns;
mod shown;
mod table;

use cases::write_case;
use fronts::write_fronts;
use large::write_large;
use lexemes::write_lexemes;
use returns::write_returns;
use std::alloc::Global;
use std::io::{self, BufWriter, Write};
use std::process::ExitCode;
use std::{env, fs};

// What is printed for a file.
#[derive(Clone, Copy)]
enum Mode {
    Case,
    Lexemes,
    Fronts,
    Returns,
}

// The mode that a word sets for the files behind it.
fn mode_of(word: &str) -> Option<Mode> {
    match word {
        "--lexemes" => Some(Mode::Lexemes),
        "--fronts" => Some(Mode::Fronts),
        "--returns" => Some(Mode::Returns),
        _ => None,
    }
}

fn write_file<W: Write>(
    alloc: Global,
    out: &mut W,
    mode: Mode,
    name: &str,
    bytes: &[u8],
) -> io::Result<()> {
    match mode {
        Mode::Case => write_case(alloc, out, name, bytes),
        Mode::Lexemes => write_lexemes(alloc, out, name, bytes),
        Mode::Fronts => write_fronts(alloc, out, name, bytes),
        Mode::Returns => write_returns(alloc, out, name, bytes),
    }
}

fn write_word<W: Write>(rt: &HostRuntime, out: &mut W, mode: Mode, word: &str) -> io::Result<()> {
    match word {
        "--large" => write_large(rt.alloc(), out),
        name => {
            let bytes = fs::read(rt, name)?;
            write_file(rt.alloc(), out, mode, name, bytes.as_slice())
        }
    }
}

fn write_all(rt: &HostRuntime) -> io::Result<()> {
    let mut out = BufWriter::new(rt.alloc(), rt.stdout())?;
    let mut mode = Mode::Case;
    for word in env::args(rt)?.skip(1) {
        match mode_of(word.as_str()) {
            Some(set) => mode = set,
            None => write_word(rt, &mut out, mode, word.as_str())?,
        }
    }
    out.flush()
}

// Says where memory ran out, without asking for memory. If the line can't be written, nothing is
// said.
fn failed(rt: &HostRuntime, error: &io::Error) -> u8 {
    if error.kind() == io::ErrorKind::OutOfMemory {
        let _said = rt.stderr().write_all(b"protocases: out of memory\n");
    }
    2
}

fn main(rt: HostRuntime) -> ExitCode {
    ExitCode::from(match write_all(&rt) {
        Ok(()) => 0,
        Err(error) => failed(&rt, &error),
    })
}
