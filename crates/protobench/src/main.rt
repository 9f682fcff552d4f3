//! `protobench JOB SEED [FILES]` does a job that users of the parser wait for, over sources that it
//! makes from a number, and prints a digest of all that the calls answered. Each number gives other
//! sources of the same kind and size. FILES is how many sources there are; without it the job takes
//! a second or more. It prints no times: `bench/run` takes them. What the gate's small run must
//! print was recorded at the start of the work on speed: answers must stay the same.
//!
//! The jobs:
//! - `bytes`: a compiler, from sources to encoded descriptors;
//! - `fields`: the same, of few large sources of plain fields;
//! - `docs`: a documentation generator, all declarations with places and comments;
//! - `faults`: a linter, the reports of all faults of sources with slips;
//! - `text`: descriptors as text, and outlines;
//! - `shapes`: large sources of awkward shapes, half of them refused.
#![tactic(auto)]

mod answers;
mod comments;
mod digest;
mod draw;
mod files;
mod jobs;
mod members;
mod names;
mod plain;
mod shapes;
mod slips;

use crate::digest::Digest;
use crate::draw::Draw;
use crate::jobs::{Job, run};
use std::env;
use std::io::{self, Write};
use std::process::ExitCode;

fn work(rt: &HostRuntime, words: &[String]) -> io::Result<u8> {
    let [job, seed, rest @ ..] = words else {
        return Ok(2);
    };
    let (Some(job), Ok(seed)) = (Job::named(job.as_str()), seed.parse::<u32>()) else {
        return Ok(2);
    };
    let files = match rest.first() {
        Some(word) => word.parse::<u32>().unwrap_or(1),
        None => job.files(),
    };
    let mut digest = Digest::new();
    let mut draw = Draw::new(seed);
    let bytes = run(rt.alloc(), job, &mut draw, files, &mut digest)?;
    let (accepted, faults) = (digest.accepted(), digest.faults());
    writeln!(rt.stdout(), "{files} sources, {bytes} bytes")?;
    writeln!(rt.stdout(), "{accepted} accepted, {faults} faults")?;
    writeln!(rt.stdout(), "digest {:016x}", digest.value())?;
    Ok(0)
}

fn main(rt: HostRuntime) -> ExitCode {
    let mut words = Vec::new(rt.alloc());
    let Ok(asked) = env::args(&rt) else {
        return ExitCode::from(2);
    };
    for word in asked.skip(1) {
        if words.push(word).is_err() {
            return ExitCode::from(2);
        }
    }
    ExitCode::from(work(&rt, words.as_slice()).unwrap_or(2))
}
