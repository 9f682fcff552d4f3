//! Lines of the text format of Protocol Buffers: a field and its value, or a message in braces.
//!
//! Each line goes to the writer in pieces: two blanks for each level, the name, what stands behind
//! it, and the value; a value of bytes goes byte by byte. A writer with a buffer of its own empties
//! it between two pieces, so other pieces would let other bytes go out before an error, or before
//! what someone else writes to the same file. So the escapes of a literal stand here too, and not only
//! in `literal.rt` of `protox_descriptor`, which makes longer pieces. One definition says what both
//! write.

ghost use Rattle.std.specs.Prelude.{◌≡◌, ◌∷◌, flat_map, OnOk};
ghost use Rattle.std.specs.Io.KnownBytes.{Appends};
ghost use Rattle.protox_descriptor.specs.Literal.{octal, printed_byte};
ghost use Rattle.protox_text.specs.TextLines.{indent, deeper, value_line, opened, closed, bytes_line};

use std::alloc::Global;
use std::io::{self, Write};

/// The indentation of a line, two spaces for each level, and an allocator.
#[derive(Clone, Copy)]
pub struct Level {
    /// For writing that takes memory. The functions of this crate take none.
    pub alloc: Global,
    /// How many levels.
    pub depth: u32,
}

impl Level {
    /// One level more.
    pub fn inner(self) -> Level
        ensures { result ≡ record { alloc = self.alloc; depth = deeper self.depth } }
    {
        Level {
            alloc: self.alloc,
            depth: self.depth.saturating_add(1),
        }
    }
}

/// Writes the indentation of a line.
#[tactic(auto, using(crate::proofs::Written::blanks))]
pub(crate) fn write_indent<W: Write>(out: &mut W, level: Level) -> io::Result<()>
    ensures { OnOk result (Appends (W.contents out.old) (W.contents out.new) (indent level.depth)) }
{
    for _ in 0..level.depth {
        out.write_all(b"  ")?;
    }
    Ok(())
}

/// Writes `name {`.
pub(crate) fn write_open<W: Write>(out: &mut W, level: Level, name: &str) -> io::Result<()>
    ensures { OnOk result (Appends (W.contents out.old) (W.contents out.new) (opened level.depth name.now)) }
{
    write_indent(out, level)?;
    out.write_all(name.as_bytes())?;
    out.write_all(b" {\n")
}

/// Writes `}`.
pub(crate) fn write_close<W: Write>(out: &mut W, level: Level) -> io::Result<()>
    ensures { OnOk result (Appends (W.contents out.old) (W.contents out.new) (closed level.depth)) }
{
    write_indent(out, level)?;
    out.write_all(b"}\n")
}

/// Writes `name: value`.
pub(crate) fn write_value<W: Write>(
    out: &mut W,
    level: Level,
    name: &str,
    value: &str,
) -> io::Result<()>
    ensures { OnOk result (Appends (W.contents out.old) (W.contents out.new) (value_line value.now level.depth name.now)) }
{
    write_indent(out, level)?;
    out.write_all(name.as_bytes())?;
    out.write_all(b": ")?;
    out.write_all(value.as_bytes())?;
    out.write_all(b"\n")
}

// Writes a byte as a backslash and three octal digits.
fn write_octal<W: Write>(out: &mut W, byte: u8) -> io::Result<()>
    ensures { OnOk result (Appends (W.contents out.old) (W.contents out.new) (92 ∷ octal byte)) }
{
    out.write_all(b"\\")?;
    out.write_all(&[b'0' + byte / 64])?;
    out.write_all(&[b'0' + byte / 8 % 8])?;
    out.write_all(&[b'0' + byte % 8])
}

// Writes a byte as it stands in a string literal.
fn write_byte<W: Write>(out: &mut W, byte: u8) -> io::Result<()>
    ensures { OnOk result (Appends (W.contents out.old) (W.contents out.new) (printed_byte byte)) }
{
    match byte {
        b'\t' => out.write_all(b"\\t"),
        b'\r' => out.write_all(b"\\r"),
        b'\n' => out.write_all(b"\\n"),
        b'\\' => out.write_all(b"\\\\"),
        b'\'' => out.write_all(b"\\'"),
        b'"' => out.write_all(b"\\\""),
        32..=126 => out.write_all(&[byte]),
        _ => write_octal(out, byte),
    }
}

// Writes bytes as they stand in a string literal, between its quotes.
#[tactic(auto, using(crate::proofs::Written::literal))]
fn write_literal<W: Write>(out: &mut W, bytes: &[u8]) -> io::Result<()>
    ensures { OnOk result (Appends (W.contents out.old) (W.contents out.new) (flat_map printed_byte bytes.now)) }
{
    for byte in bytes {
        write_byte(out, *byte)?;
    }
    Ok(())
}

/// Writes `name: "bytes"`, escaped as the tree prints string literals. It fails if the writer
/// fails.
pub fn write_bytes<W: Write>(out: &mut W, level: Level, name: &str, bytes: &[u8]) -> io::Result<()>
    ensures { OnOk result (Appends (W.contents out.old) (W.contents out.new) (bytes_line bytes.now level.depth name.now)) }
{
    write_indent(out, level)?;
    out.write_all(name.as_bytes())?;
    out.write_all(b": \"")?;
    write_literal(out, bytes)?;
    out.write_all(b"\"\n")
}
