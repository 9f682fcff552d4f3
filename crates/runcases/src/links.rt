//! What `protolink` does with words.

use crate::bytes::write_hex;
use crate::words::write_lines;
use protolink_run::{Host, run};
use std::alloc::Global;
use std::fs;
use std::io::{self, BufWriter, ErrorKind, Write};

// What can't be looked at isn't there, unless that is told because memory ran out.
fn unless_want(error: io::Error) -> io::Result<bool> {
    if error.kind() == ErrorKind::OutOfMemory {
        return Err(error);
    }
    Ok(false)
}

/// The files of the machine, but `locked.proto` can't be read, and `full` can't be written. What is
/// written is printed.
#[derive(Drop)]
struct Machine<'a> {
    rt: &'a HostRuntime,
}

impl Host for Machine<'_> {
    fn exists(&self, path: &str) -> io::Result<bool> {
        match fs::exists(self.rt, path) {
            Ok(exists) => Ok(exists),
            Err(error) => unless_want(error),
        }
    }

    fn is_folder(&self, path: &str) -> io::Result<bool> {
        match fs::metadata(self.rt, path) {
            Ok(metadata) => Ok(metadata.is_dir()),
            Err(error) => unless_want(error),
        }
    }

    fn program(&self) -> Option<&str> {
        Some("links/bin/protolink")
    }

    fn read(&self, path: &str) -> io::Result<Vec<u8>> {
        if path.ends_with("/locked.proto") {
            return Err(ErrorKind::PermissionDenied.into());
        }
        fs::read(self.rt, path)
    }

    fn write(&self, path: &str, bytes: &[u8]) -> io::Result<()> {
        if path == "full" {
            return Err(io::Error::from_raw_os_error(28));
        }
        println!(self.rt; "+ {path}")?;
        let mut lines = BufWriter::new(self.rt.alloc(), self.rt.stdout())?;
        write_hex(&mut lines, bytes)?;
        lines.flush()
    }
}

// What comes of a line.
fn write_case(rt: &HostRuntime, alloc: Global, line: &str) -> io::Result<()> {
    let mut words = Vec::new(alloc);
    for word in line.split_whitespace() {
        words.push(String::from_str(alloc, word)?)?;
    }
    println!(rt; "$ {line}")?;
    let machine = Machine { rt };
    let (mut out, mut err) = (Vec::new(alloc), Vec::new(alloc));
    let status = run(alloc, &machine, words.as_slice(), &mut out, &mut err);
    let mut lines = BufWriter::new(alloc, rt.stdout())?;
    write_lines(&mut lines, '>', out.as_slice())?;
    write_lines(&mut lines, '!', err.as_slice())?;
    writeln!(lines, "= {status}")?;
    lines.flush()
}

/// Prints what `protolink` does with the words of each line: the line behind `$`, what it writes to a
/// file behind `+`, the output behind `>`, what goes where errors go behind `!`, and the status
/// behind `=`. The program is said to lie in `links/bin`.
pub fn write_links(rt: &HostRuntime, list: &str) -> io::Result<()> {
    for line in list.lines() {
        write_case(rt, rt.alloc(), line)?;
    }
    Ok(())
}
