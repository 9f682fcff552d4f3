//! Offsets of lines and columns.

ghost use Rattle.std.specs.Prelude.{◌≡◌, ◌==◌, if◌then◌else◌, [], ◌∷◌, ◌++◌, IfOk, OnOk};
ghost use Rattle.protox_link_records.specs.LinkPlaces as places;
ghost use Rattle.protox_link_records.specs.LinkRecords.{texts};
ghost use Rattle.protox_places.specs.Lines.{starts as starts_in};

use crate::source::SourceFile;
use std::alloc::{AllocError, Global};
use std::marker::Model;

/// A source with a table of its lines. Contracts see the source.
#[derive(Drop)]
pub struct SourceLines<'a> {
    source: &'a str,
    // the offsets behind its newlines
    begins: Vec<usize>,
}

impl<'a> Model for SourceLines<'a> {
    ghost use Rattle.std.specs.Prelude.{◌≡◌, List, ℕ};
    ghost use Rattle.protox_places.specs.Lines.{starts};

    ghost Value = { List ℕ };

    ghost view = { λ lines. lines.source.now };

    ghost invariant = { λ lines. lines.begins.items ≡ starts 0 lines.source.now };
}

// Adds the offset behind a byte if that is a newline.
fn push_start(found: &mut Vec<usize>, byte: u8, behind: usize) -> Result<(), AllocError>
    ensures { OnOk result (found.new.items ≡ found.old.items ++ (if byte == 10 then behind ∷ [] else [])) }
{
    if byte == b'\n' {
        found.push(behind)?;
    }
    Ok(())
}

// The offsets behind the newlines.
fn starts_of(alloc: Global, source: &[u8]) -> Result<Vec<usize>, AllocError>
    ensures { IfOk result (λ found. found.items ≡ starts_in 0 source.now) }
{
    let mut found = Vec::new(alloc);
    let mut seen = 0;
    for byte in source {
        seen += 1;
        push_start(&mut found, *byte, seen)?;
    }
    Ok(found)
}

impl<'a> SourceLines<'a> {
    /// Makes the table.
    ///
    /// # Errors
    /// `AllocError` where memory runs out.
    pub fn new(alloc: Global, source: &'a str) -> Result<SourceLines<'a>, AllocError>
        ensures { IfOk result (λ lines. lines ≡ source.now) }
    {
        let begins = starts_of(alloc, source.as_bytes())?;
        Ok(SourceLines { source, begins })
    }

    // The offset of the first byte of a line; that of the end if there is no such line.
    fn line_start(&self, line: usize) -> usize
        ensures { result ≡ places.line_start self.now line }
    {
        if line == 0 {
            return 0;
        }
        match self.begins.get(line - 1) {
            Some(start) => *start,
            None => self.source.len(),
        }
    }

    /// The offset of a line and a column, or that of the end.
    pub(crate) fn offset(&self, line: i32, column: i32) -> usize
        ensures { result ≡ places.offset_of self.now line column }
    {
        let start = self.line_start(line.unsigned_abs() as usize);
        let offset = start.saturating_add(column.unsigned_abs() as usize);
        offset.min(self.source.len())
    }
}

/// The tables of the lines of all sources.
///
/// # Errors
/// `AllocError` where memory runs out.
pub fn lines_of<'a>(
    alloc: Global,
    sources: &[SourceFile<'a>],
) -> Result<Vec<SourceLines<'a>>, AllocError>
    ensures { IfOk result (λ lines. lines.items ≡ texts sources.now) }
{
    let mut lines = Vec::new(alloc);
    for file in sources {
        let table = SourceLines::new(alloc, file.source)?;
        lines.push(table)?;
    }
    Ok(lines)
}
