//! What came of the files.

ghost use Rattle.std.specs.Prelude.{◌≡◌, ◌==◌, ◌+◌, if◌then◌else◌};
ghost use Rattle.protoparse_run.specs.Outcomes.{Counts};

use std::io::{self, Write};

/// What came of a file.
#[derive(Clone, Copy)]
pub enum Outcome {
    /// It was accepted, and what was asked for is written.
    Accepted,
    /// It was refused, with so many faults.
    Refused(usize),
    /// It couldn't be read, is not UTF-8, or memory ran out.
    Failed,
}

/// How many files came to what.
#[derive(Clone, Copy)]
pub struct Tally {
    pub accepted: usize,
    pub refused: usize,
    pub failed: usize,
    pub faults: usize,
}

impl Tally {
    /// No file yet.
    pub const NONE: Tally = Tally {
        accepted: 0,
        refused: 0,
        failed: 0,
        faults: 0,
    };

    /// Counts a file.
    pub fn add(&mut self, outcome: Outcome)
        ensures { Counts self.old outcome self.new }
    {
        match outcome {
            Outcome::Accepted => self.accepted = self.accepted.saturating_add(1),
            Outcome::Refused(faults) => {
                self.refused = self.refused.saturating_add(1);
                self.faults = self.faults.saturating_add(faults);
            }
            Outcome::Failed => self.failed = self.failed.saturating_add(1),
        }
    }

    /// The status: 2 where a file failed, else 1 where one was refused, else 0.
    pub fn status(&self) -> u8
        ensures value { result ≡ (if self.now.failed == 0 then (if self.now.refused == 0 then 0 else 1) else 2) }
        ensures clean { result ≡ 0 → (self.now.refused ≡ 0) × (self.now.failed ≡ 0) }
    {
        if 0 < self.failed {
            return 2;
        }
        if 0 < self.refused { 1 } else { 0 }
    }

    /// The line of the summary.
    pub fn write_summary<W: Write>(&self, out: &mut W) -> io::Result<()> {
        let Tally {
            accepted,
            refused,
            failed,
            faults,
        } = *self;
        writeln!(
            out,
            "accepted: {accepted}, refused: {refused} (faults: {faults}), failed: {failed}"
        )
    }
}
