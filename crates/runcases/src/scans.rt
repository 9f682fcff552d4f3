//! What `protoscan` does with words.

use crate::words::write_lines;
use protoscan_run::{file_name, run};
use protox_shown::shown::Shown;
use std::alloc::{AllocError, Global};
use std::fs;
use std::io::{self, Write};

// The words of a line. They stand between bars, since a word may hold blanks; an empty line has
// none.
fn words_of(alloc: Global, line: &str) -> Result<Vec<String>, AllocError> {
    let mut words = Vec::new(alloc);
    if line.is_empty() {
        return Ok(words);
    }
    for word in line.split('|') {
        words.push(String::from_str(alloc, word)?)?;
    }
    Ok(words)
}

fn write_scan<W: Write>(rt: &HostRuntime, out: &mut W, line: &str) -> io::Result<()> {
    let words = words_of(rt.alloc(), line)?;
    let read = match file_name(&words) {
        Some(name) => fs::read(rt, name).ok(),
        None => None,
    };
    let bytes = match &read {
        Some(bytes) => Some(bytes.as_slice()),
        None => None,
    };
    let mut found = Vec::new(rt.alloc());
    let mut said = Vec::new(rt.alloc());
    let status = run(rt.alloc(), &words, bytes, &mut found, &mut said);
    writeln!(out, "$ {}", Shown(line))?;
    write_lines(out, '>', found.as_slice())?;
    write_lines(out, '!', said.as_slice())?;
    writeln!(out, "= {status}")
}

/// Writes what `protoscan` does with the words of each line: the line behind `$`, the output behind
/// `>`, what goes where errors go behind `!`, and the status behind `=`.
pub fn write_scans<W: Write>(rt: &HostRuntime, out: &mut W, list: &str) -> io::Result<()> {
    for line in list.lines() {
        write_scan(rt, out, line)?;
    }
    Ok(())
}
