//! `callcases` prints what calls other than `parse` answer: a line in `stdout` for each.
#![tactic(auto)]

mod calls;
mod states;

use calls::write_calls;
use std::io::{self, BufWriter, Write};
use std::process::ExitCode;

fn write_all(rt: &HostRuntime) -> io::Result<()> {
    let mut out = BufWriter::new(rt.alloc(), rt.stdout())?;
    write_calls(rt.alloc(), &mut out)?;
    out.flush()
}

// Says where memory ran out, without asking for memory. If the line can't be written, nothing is
// said.
fn failed(rt: &HostRuntime, error: &io::Error) -> u8 {
    if error.kind() == io::ErrorKind::OutOfMemory {
        let _said = rt.stderr().write_all(b"callcases: out of memory\n");
    }
    2
}

fn main(rt: HostRuntime) -> ExitCode {
    ExitCode::from(match write_all(&rt) {
        Ok(()) => 0,
        Err(error) => failed(&rt, &error),
    })
}
