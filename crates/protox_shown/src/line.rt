//! The line that shows a fault to a reader.

ghost use Rattle.std.specs.Prelude.{◌≡◌, take};
ghost use Rattle.protox_shown.specs.Line.{line_number, column_number};

use crate::shown::{Shown, ShownFault};
use protox_fault::error::ParseErrorKind;
use std::fmt;

// The bytes before an offset, or all bytes if there are fewer.
fn front_of(source: &[u8], offset: usize) -> &[u8]
    ensures { result.now ≡ take offset source.now }
{
    if offset < source.len() {
        &source[..offset]
    } else {
        source
    }
}

// The line and the column after these bytes, both counted from 1.
fn place_behind(front: &[u8]) -> (usize, usize)
    ensures line { result.0 ≡ line_number front.now }
    ensures column { result.1 ≡ column_number front.now }
{
    let mut line = 1;
    let mut column = 1;
    for byte in front {
        if *byte == b'\n' {
            line += 1;
            column = 1;
        } else {
            column += 1;
        }
    }
    (line, column)
}

/// A fault of a file. Display writes `file:line:column: text`, or the text alone if the fault has
/// no place. Line and column are counted from 1, the column in bytes. `Shown` writes the name of
/// the file, and `ShownFault` the text.
#[derive(Clone, Copy)]
pub struct FaultLine<'a> {
    /// The name of the file.
    pub file: &'a str,
    /// The source in which the fault is.
    pub source: &'a str,
    /// The fault.
    pub fault: &'a ParseErrorKind,
}

impl fmt::Display for FaultLine<'_> {
    ghost use Rattle.std.specs.Prelude.{Some};
    ghost use Rattle.protox_shown.specs.Line.{fault_line};

    ghost output = { λ line. Some (fault_line line.file.now line.source.now line.fault.now) };

    fn fmt<W: fmt::Write>(&self, f: &mut fmt::Formatter<W>) -> fmt::Result {
        let fault = ShownFault(self.fault);
        match self.fault.span() {
            Some(span) => {
                let file = Shown(self.file);
                let (line, column) = place_behind(front_of(self.source.as_bytes(), span.start));
                write!(f, "{file}:{line}:{column}: {fault}")
            }
            None => write!(f, "{fault}"),
        }
    }
}
