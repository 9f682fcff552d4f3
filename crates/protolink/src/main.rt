//! `protolink [OPTIONS] FILE..` links Protocol Buffers files, in protoc's words. `protolink --help`
//! says more.
#![tactic(auto)]

use protolink_run::{Host, broken, run};
use std::io::{self, BufWriter, Write};
use std::process::ExitCode;
use std::{env, fs};

// What can't be looked at isn't there, unless that is told because memory ran out.
fn unless_want(error: io::Error) -> io::Result<bool> {
    if error.kind() == io::ErrorKind::OutOfMemory {
        return Err(error);
    }
    Ok(false)
}

// The path of this program; none if the system doesn't tell it.
fn program(rt: &HostRuntime) -> io::Result<Option<String>> {
    match env::current_exe(rt) {
        Ok(path) => Ok(Some(String::from_str(rt.alloc(), path.as_str())?)),
        Err(error) => unless_want(error).map(|_| None),
    }
}

/// The files of the machine.
#[derive(Drop)]
struct Machine<'a> {
    rt: &'a HostRuntime,
    program: Option<String>,
}

impl Host for Machine<'_> {
    fn exists(&self, path: &str) -> io::Result<bool> {
        match fs::exists(self.rt, path) {
            Ok(exists) => Ok(exists),
            Err(error) => unless_want(error),
        }
    }

    fn is_folder(&self, path: &str) -> io::Result<bool> {
        match fs::metadata(self.rt, path) {
            Ok(metadata) => Ok(metadata.is_dir()),
            Err(error) => unless_want(error),
        }
    }

    fn program(&self) -> Option<&str> {
        self.program.as_ref().map(|path| path.as_str())
    }

    fn read(&self, path: &str) -> io::Result<Vec<u8>> {
        fs::read(self.rt, path)
    }

    // It is written under another name beside it, which then becomes its own. What is there and no
    // plain file, as a device or a link, is written as it is.
    fn write(&self, path: &str, bytes: &[u8]) -> io::Result<()> {
        let is_file = match fs::symlink_metadata(self.rt, path) {
            Ok(metadata) => metadata.is_file(),
            Err(error) => !unless_want(error)?,
        };
        if !is_file {
            return fs::write(self.rt, path, bytes);
        }
        let made = format!(in self.rt.alloc(); "{path}.part")?;
        let written = fs::write(self.rt, made.as_str(), bytes).and_then(|_| fs::rename(
            self.rt,
            made.as_str(),
            path,
        ));
        if written.is_err() {
            let _ = fs::remove_file(self.rt, made.as_str());
        }
        written
    }
}

fn words(rt: &HostRuntime) -> io::Result<Vec<String>> {
    let mut words = Vec::new(rt.alloc());
    for word in env::args(rt)?.skip(1) {
        words.push(word)?;
    }
    Ok(words)
}

fn status(rt: &HostRuntime) -> io::Result<u8> {
    let words = words(rt)?;
    let mut out = BufWriter::new(rt.alloc(), rt.stdout())?;
    let program = program(rt)?;
    let machine = Machine { rt, program };
    let status = run(
        rt.alloc(),
        &machine,
        words.as_slice(),
        &mut out,
        &mut rt.stderr(),
    );
    out.flush()?;
    Ok(status)
}

fn main(rt: HostRuntime) -> ExitCode {
    ExitCode::from(match status(&rt) {
        Ok(status) => status,
        Err(error) => broken(rt.alloc(), &mut rt.stderr(), &error),
    })
}
