//! Where the parts of a file stand in its source.

ghost use Rattle.std.specs.Prelude.{◌≡◌};
ghost use Rattle.std.specs.Option.{option_copied};
ghost use Rattle.protox_link_records.specs.LinkPlaces as found;

use crate::lines::SourceLines;
use protox_descriptor::descriptor::source_code_info::Location;

/// A place in a source.
#[derive(Clone, Copy, Drop)]
pub struct Place {
    /// The offset of its first byte.
    pub start: usize,
    /// The offset behind its last byte.
    pub end: usize,
    /// The line of its start, from 0.
    pub line: usize,
    /// The column of its start, from 0, in bytes.
    pub column: usize,
}

/// The place of what the source doesn't write.
pub fn no_place() -> Place
    ensures { result ≡ found.no_place }
{
    Place {
        start: 0,
        end: 0,
        line: 0,
        column: 0,
    }
}

// The place from one line and column up to another.
fn place_between(lines: &SourceLines<'_>, start: (i32, i32), end: (i32, i32)) -> Place
    ensures { result ≡ found.place_between lines.now start end }
{
    Place {
        start: lines.offset(start.0, start.1),
        end: lines.offset(end.0, end.1),
        line: start.0.unsigned_abs() as usize,
        column: start.1.unsigned_abs() as usize,
    }
}

/// The place of a location.
pub(crate) fn place_of(lines: &SourceLines<'_>, location: Option<&Location>) -> Place
    ensures { result ≡ found.place_of lines.now (option_copied location.entry) }
{
    let Some(location) = location else {
        return no_place();
    };
    match (location.start(), location.end()) {
        (Some(start), Some(end)) => place_between(lines, start, end),
        _ => no_place(),
    }
}
