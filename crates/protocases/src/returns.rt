//! What the parser answers for a file when its lines end with `\r\n`.

use protox_parse::parse;
use std::alloc::{AllocError, Global};
use std::io::{self, Write};

// The text with `\r\n` for each newline. An accepted source has no newline in a string.
fn with_returns(alloc: Global, source: &str) -> Result<String, AllocError> {
    let mut text = String::new(alloc);
    for character in source.chars() {
        if character == '\n' {
            text.push('\r')?;
        }
        text.push(character)?;
    }
    Ok(text)
}

// Whether both texts are accepted with the same descriptor, comments and spans included.
fn are_alike(alloc: Global, name: &str, first: &str, second: &str) -> bool {
    match parse(alloc, name, first) {
        Ok(file) => parse(alloc, name, second).is_ok_and(|other| other == file),
        Err(_) => false,
    }
}

/// Writes the name, and whether the bytes are accepted with the same answer when each newline is
/// `\r\n`. Spans stay too: they are in lines and columns, and no token moves in its line.
pub fn write_returns<W: Write>(
    alloc: Global,
    out: &mut W,
    name: &str,
    bytes: &[u8],
) -> io::Result<()> {
    writeln!(out, "== {name} with returns")?;
    let Ok(source) = str::from_utf8(bytes) else {
        return writeln!(out, "no UTF-8");
    };
    let text = with_returns(alloc, source)?;
    if are_alike(alloc, name, source, text.as_str()) {
        writeln!(out, "the same")
    } else {
        writeln!(out, "not the same")
    }
}
