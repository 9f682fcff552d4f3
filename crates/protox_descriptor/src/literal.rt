//! How the bytes of a string are written between quotes. `protox_text` repeats these escapes in its
//! `lines.rt`, where each piece goes straight to a writer of bytes.

ghost use Rattle.std.specs.Prelude.{◌≡◌, ◌∷◌, ◌<◌, Some, flat_map};
ghost use Rattle.std.specs.Char.{digit_char};
ghost use Rattle.std.specs.Fmt.{DisplaysOnOk};
ghost use Rattle.protox_descriptor.specs.Literal.{octal, printed_byte};

use std::fmt;

fn octal_char(digit: u8) -> char
    requires { digit < 8 }
    ensures { result ≡ digit_char digit }
{
    char::from(b'0' + digit)
}

/// Writes a byte as three octal digits.
pub fn write_octal<W: fmt::Write>(byte: u8, f: &mut fmt::Formatter<W>) -> fmt::Result
    ensures { DisplaysOnOk W.write_str_gives f.old result (Some (octal byte)) f.new }
{
    f.write_char(octal_char(byte / 64))?;
    f.write_char(octal_char(byte / 8 % 8))?;
    f.write_char(octal_char(byte % 8))
}

fn write_escaped<W: fmt::Write>(byte: u8, f: &mut fmt::Formatter<W>) -> fmt::Result
    ensures { DisplaysOnOk W.write_str_gives f.old result (Some (92 ∷ octal byte)) f.new }
{
    f.write_str("\\")?;
    write_octal(byte, f)
}

fn write_byte<W: fmt::Write>(byte: u8, f: &mut fmt::Formatter<W>) -> fmt::Result
    ensures { DisplaysOnOk W.write_str_gives f.old result (Some (printed_byte byte)) f.new }
{
    match byte {
        b'\t' => f.write_str("\\t"),
        b'\r' => f.write_str("\\r"),
        b'\n' => f.write_str("\\n"),
        b'\\' => f.write_str("\\\\"),
        b'\'' => f.write_str("\\'"),
        b'"' => f.write_str("\\\""),
        32..=126 => f.write_char(char::from(byte)),
        _ => write_escaped(byte, f),
    }
}

/// Writes the bytes of a string as they stand between quotes. Quotes, backslashes and bytes outside
/// printable ASCII become escapes. All other bytes stay.
pub fn write_bytes<W: fmt::Write>(bytes: &[u8], f: &mut fmt::Formatter<W>) -> fmt::Result
    ensures { DisplaysOnOk W.write_str_gives f.old result (Some (flat_map printed_byte bytes.now)) f.new }
{
    for byte in bytes {
        write_byte(*byte, f)?;
    }
    Ok(())
}
