//! Records, as they are read.

/// A record of something that is wrong.
#[derive(Clone, Copy)]
pub(crate) struct Record<'a> {
    /// The number of the file.
    pub(crate) file: usize,
    /// Line and column, from 0.
    pub(crate) line: u32,
    pub(crate) column: u32,
    pub(crate) message: &'a [u8],
}

// The number at the front, and what is behind it.
fn number(bytes: &[u8]) -> Option<(u32, &[u8])> {
    match bytes {
        [a, b, c, d, rest @ ..] => Some((u32::from_le_bytes([*a, *b, *c, *d]), rest)),
        _ => None,
    }
}

// The text at the front, and what is behind it.
fn text(bytes: &[u8]) -> Option<(&[u8], &[u8])> {
    let (len, rest) = number(bytes)?;
    let len = len as usize;
    if len > rest.len() {
        return None;
    }
    Some(rest.split_at(len))
}

// What is behind four numbers.
fn behind_place(bytes: &[u8]) -> Option<&[u8]> {
    bytes.get(16..)
}

// What is behind the second place, if there is one.
fn behind_second(bytes: &[u8]) -> Option<&[u8]> {
    let (count, rest) = number(bytes)?;
    if count == 0 {
        return Some(rest);
    }
    let (_, rest) = text(behind_place(rest)?)?;
    Some(rest)
}

// What is behind the label, what may help, and the second place.
fn behind_end(bytes: &[u8]) -> Option<&[u8]> {
    let (_, rest) = text(bytes)?;
    let (_, rest) = text(rest)?;
    behind_second(rest)
}

// The record whose place stands at the front, and what is behind it.
fn placed(file: u32, bytes: &[u8]) -> Option<(Record<'_>, &[u8])> {
    let (line, rest) = number(bytes.get(8..)?)?;
    let (column, rest) = number(rest)?;
    let (message, rest) = text(rest)?;
    let file = file as usize;
    let record = Record {
        file,
        line,
        column,
        message,
    };
    Some((record, behind_end(rest)?))
}

/// The record at the front, and what is behind it. None if there is no whole record.
pub(crate) fn next_record(bytes: &[u8]) -> Option<(Record<'_>, &[u8])> {
    let (file, rest) = number(bytes)?;
    let (_kind, rest) = number(rest)?;
    placed(file, rest)
}
