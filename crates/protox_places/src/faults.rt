//! Where a fault stands; and line and column of an offset, without a table of lines.

ghost use Rattle.std.specs.Prelude.{◌≡◌, ◌≤◌, min, take, length};
ghost use Rattle.protox_places.specs.Faults as places;
ghost use Rattle.protox_places.specs.Lines.{newlines, behind_last, line, column};

use protox_fault::error::{ParseErrorKind, Span};

/// The offset of a source's end; that of its last newline if the source ends with one.
pub fn end_of(source: &str) -> usize
    ensures { result ≡ places.end_of source.now }
{
    match source.as_bytes() {
        [front @ .., b'\n'] => front.len(),
        whole => whole.len(),
    }
}

/// The span of a fault in its source, in bytes; the first if it has two. For the end of the source
/// it is an empty span at `end_of`. None for a source that is too large.
pub fn first_place(source: &str, fault: &ParseErrorKind) -> Option<Span>
    ensures { result ≡ places.first_place source.now fault.now }
{
    match fault {
        ParseErrorKind::DuplicatePackage { first, .. } => Some(first.start..first.end),
        ParseErrorKind::UnexpectedEof { .. } => {
            let end = end_of(source);
            Some(end..end)
        }
        fault => fault.span(),
    }
}

// How many newlines there are, and the offset behind the last one, or 0.
fn count_lines(front: &[u8]) -> (usize, usize)
    ensures lines { result.0 ≡ newlines front.now }
    ensures start { result.1 ≡ behind_last 0 0 front.now }
    ensures within { result.1 ≤ length front.now }
{
    let mut lines = 0;
    let mut start = 0;
    let mut seen = 0;
    for byte in front {
        seen += 1;
        if *byte == b'\n' {
            lines += 1;
            start = seen;
        }
    }
    (lines, start)
}

// The bytes before an offset, or all if there are fewer.
fn front_of(source: &[u8], offset: usize) -> &[u8]
    ensures value { result.now ≡ take offset source.now }
    ensures size { length result.now ≡ min offset (length source.now) }
{
    if offset < source.len() {
        &source[..offset]
    } else {
        source
    }
}

/// Line and column of a byte offset, both from 0; columns count bytes. An offset behind the source
/// counts as its end. It reads the source up to the offset and takes no memory. For many offsets of
/// one source a `LineResolver` is faster.
pub fn line_column(source: &str, offset: usize) -> (usize, usize)
    ensures line { result.0 ≡ line source.now (min offset (length source.now)) }
    ensures column { result.1 ≡ column source.now (min offset (length source.now)) }
{
    let front = front_of(source.as_bytes(), offset);
    let (lines, start) = count_lines(front);
    (lines, front.len() - start)
}
