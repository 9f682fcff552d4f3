//! Reads files and what they import, a line each, and prints the order of each set of files, what
//! its files import, what they pass on, what is missing and what they see.
//!
//! - `set WORDS` is printed as it is
//! - `file NAME` begins a file, and `file` alone one without a name
//! - `import NAME`, `public NAME` and `weak NAME` are imports of that file
//! - `index N` puts any number at the end of its list of public imports
//! - `end` or an empty line ends a set
#![tactic(auto)]

mod report;
mod set;

use crate::report::report;
use crate::set::note;
use protox_descriptor::descriptor::FileDescriptorProto;
use std::alloc::{AllocError, Global};
use std::io;

// What is printed for a line, which may be nothing.
fn answer(
    alloc: Global,
    files: &mut Vec<FileDescriptorProto>,
    line: &str,
) -> Result<String, AllocError> {
    let (verb, rest) = line.split_once(' ').unwrap_or((line, ""));
    match verb {
        "set" => format!(in alloc; "{line}\n"),
        "end" | "" => {
            let text = report(alloc, files)?;
            files.clear();
            Ok(text)
        }
        _ => {
            note(alloc, files, verb, rest)?;
            Ok(String::new(alloc))
        }
    }
}

// Answers all lines. Who calls it has the files, so no `?` in it lets them go.
fn answer_all(
    rt: &HostRuntime,
    alloc: Global,
    files: &mut Vec<FileDescriptorProto>,
) -> io::Result<()> {
    for line in rt.lines(alloc) {
        let text = answer(alloc, files, line?.as_str())?;
        print!(rt; "{text}")?;
    }
    Ok(())
}

fn main(rt: HostRuntime) -> io::Result<()> {
    let alloc = rt.alloc();
    let mut files = Vec::new(alloc);
    answer_all(&rt, alloc, &mut files)
}
