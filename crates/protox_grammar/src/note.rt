//! What the parser notes while it reads: all that is not a fault of a single row.

use protox_fault::error::ParseErrorKind;

/// What is noted.
#[derive(Drop)]
pub enum Noted {
    /// A fault of a node.
    Fault(ParseErrorKind),
    /// Whether an aggregate is open from there on. In it `#` comments and float suffixes are no
    /// faults.
    TextFormat(bool),
}

/// A note, and where it was made.
#[derive(Drop)]
pub struct Note {
    /// How many rows are left, with the one that was looked at when the note was made. The end of
    /// the source counts as a row.
    pub left: usize,
    /// What is noted.
    pub noted: Noted,
}
