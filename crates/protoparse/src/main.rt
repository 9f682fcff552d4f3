//! `protoparse [OPTIONS] FILE..` checks Protocol Buffers files, and prints what is wrong with them,
//! or what is in them. `protoparse --help` says more.
#![tactic(auto)]

use protoparse_run::{Host, broken, run, wordless};
use std::io::{self, BufWriter, IsTerminal, Read, Write};
use std::process::ExitCode;
use std::{env, fs};

/// The files of the machine.
#[derive(Drop)]
struct Machine<'a> {
    rt: &'a HostRuntime,
}

impl Host for Machine<'_> {
    ghost use Rattle.std.specs.Prelude.{⊤};

    // What a file holds is not known.
    ghost holds = { λ _ _ _. ⊤ };

    fn read(&self, name: &str) -> io::Result<Vec<u8>> {
        if name != "-" {
            return fs::read(self.rt, name);
        }
        let mut bytes = Vec::new(self.rt.alloc());
        self.rt.reader().read_to_end(&mut bytes)?;
        Ok(bytes)
    }

    fn write(&self, name: &str, bytes: &[u8]) -> io::Result<()> {
        fs::write(self.rt, name, bytes)
    }
}

fn words(rt: &HostRuntime) -> io::Result<Vec<String>> {
    let mut words = Vec::new(rt.alloc());
    for word in env::args(rt)?.skip(1) {
        words.push(word)?;
    }
    Ok(words)
}

fn status(rt: &HostRuntime, words: &[String]) -> io::Result<u8> {
    let mut out = BufWriter::new(rt.alloc(), rt.stdout())?;
    let machine = Machine { rt };
    let mut err = rt.stderr();
    let to_terminal = err.is_terminal();
    let status = run(rt.alloc(), &machine, words, &mut out, &mut err, to_terminal);
    out.flush()?;
    Ok(status)
}

fn main(rt: HostRuntime) -> ExitCode {
    ExitCode::from(match words(&rt) {
        Ok(words) => match status(&rt, words.as_slice()) {
            Ok(status) => status,
            Err(error) => broken(&mut rt.stderr(), &error),
        },
        Err(error) => wordless(&mut rt.stderr(), &error),
    })
}
