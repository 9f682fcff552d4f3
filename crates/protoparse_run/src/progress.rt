//! How far the work on many files has come: a line on a terminal that is written anew for each
//! file.

use crate::complaints::say;
use std::io::Write;

/// With so many files or fewer no line is shown.
const FEW: usize = 100;

/// The line for a file: `17 of 250 files`.
#[derive(Clone, Copy)]
pub struct Progress {
    number: usize,
    total: usize,
    is_shown: bool,
}

impl Progress {
    /// Before the first of so many files. Lines are shown only where errors go to a terminal.
    pub fn new(total: usize, to_terminal: bool) -> Progress {
        Progress {
            number: 0,
            total,
            is_shown: to_terminal && FEW < total,
        }
    }

    /// Shows the line for the next file. It ends with no newline, so the next line covers it.
    pub fn advance<E: Write>(&mut self, err: &mut E) {
        self.number = self.number.saturating_add(1);
        if !self.is_shown {
            return;
        }
        let Progress { number, total, .. } = *self;
        match write!(err, "\r{number} of {total} files") {
            Ok(()) => (),
            Err(_) => (),
        }
    }

    /// Takes the line away, before anything else is written.
    pub fn clear<E: Write>(self, err: &mut E) {
        if self.is_shown {
            say(err, "\r\u{1b}[K");
        }
    }
}
