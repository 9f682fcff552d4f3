//! `example_programs WHAT FILE ..` shows how the library is used. WHAT is `list`, `lint`,
//! `options`, `todos`, or a line and a column of a cursor, from 0, with a colon between them. If a
//! file is refused, its faults are printed.
#![tactic(auto)]

mod cursor;
mod faults;
mod linter;
mod listing;
mod options;
mod todos;

use protox_parse::{ParseFailure, parse};
use std::alloc::Global;
use std::io::{self, Write};
use std::{env, fs};

// Parses the source, and does what is asked.
fn work<W: Write>(
    alloc: Global,
    out: &mut W,
    what: &str,
    name: &str,
    source: &str,
) -> io::Result<()> {
    if what == "todos" {
        return todos::todos(alloc, out, name, source);
    }
    let file = match parse(alloc, name, source) {
        Ok(file) => file,
        Err(ParseFailure::Refused(error)) => return faults::faults(alloc, out, &error),
        Err(ParseFailure::OutOfMemory) => return writeln!(out, "out of memory"),
    };
    let Some(info) = &file.source_code_info else {
        return Ok(());
    };
    match what {
        "list" => listing::list(alloc, out, &file, info),
        "lint" => linter::lint(alloc, out, &file, info),
        "options" => options::options(alloc, out, &file),
        cursor => cursor::under(alloc, out, &file, info, cursor),
    }
}

fn main(rt: HostRuntime) -> io::Result<()> {
    let mut words = Vec::new(rt.alloc());
    for word in env::args(&rt)?.skip(1) {
        words.push(word)?;
    }
    for pair in words.chunks(2) {
        if let [what, name] = pair {
            let source = fs::read_to_string(&rt, name.as_str())?;
            let (what, name) = (what.as_str(), name.as_str());
            work(rt.alloc(), &mut rt.stdout(), what, name, source.as_str())?;
        }
    }
    Ok(())
}
