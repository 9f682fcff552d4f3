//! The pieces of a string literal.
ghost use Rattle.std.specs.Prelude.{◌≡◌, ◌<◌, ◌≤◌, ◌+◌, ℕ, List, length, slice_index};
ghost use Rattle.std.specs.Str.Parse.{digits_value};
ghost use Rattle.protox_lexeme.specs.Pieces.{piece_of, IsWithin, IsAsciiIfLast};
ghost use Rattle.protox_lexeme.specs.Strings as spec;

use crate::bytes::{Class, byte_at, is_in, run_len};
use crate::number::digits_value;

/// A piece of a literal: a run of plain bytes; a byte or a character for which an escape or a quote
/// stands; an invalid piece, with whether it begins with a backslash (each with its length); the
/// closing quote; a newline.
#[derive(Clone, Copy)]
pub(crate) enum Piece {
    Run(usize),
    Byte(u8, usize),
    Char(char, usize),
    Wrong(bool, usize),
    Ends,
    Breaks,
}

fn simple_escape(byte: u8) -> Option<u8>
    ensures { result ≡ spec.simple_escape byte }
{
    match byte {
        b'a' => Some(7),
        b'b' => Some(8),
        b'f' => Some(12),
        b'n' => Some(10),
        b'r' => Some(13),
        b't' => Some(9),
        b'v' => Some(11),
        b'?' | b'\\' | b'\'' | b'"' => Some(byte),
        _ => None,
    }
}

fn byte_piece(digits: &[u8], radix: u64, len: usize) -> Piece
    requires { 1 ≤ radix }
    ensures value { (text : List ℕ) → piece_of text result ≡ spec.byte_piece (digits_value radix digits.now) len }
    ensures within { (text : List ℕ) → 1 ≤ len → len ≤ length text → IsWithin text result }
{
    match digits_value(digits, radix) {
        Some(value) if value <= 255 => Piece::Byte(value as u8, len),
        _ => Piece::Wrong(true, len),
    }
}

fn char_piece(digits: &[u8], len: usize) -> Piece
    ensures value { (text : List ℕ) → piece_of text result ≡ spec.char_piece (digits_value 16 digits.now) len }
    ensures within { (text : List ℕ) → 1 ≤ len → len ≤ length text → IsWithin text result }
{
    match digits_value(digits, 16) {
        Some(value) if value <= 0x10FFFF => match char::from_u32(value as u32) {
            Some(c) => Piece::Char(c, len),
            None => Piece::Wrong(true, len),
        },
        _ => Piece::Wrong(true, len),
    }
}

fn hex_len(text: &[u8]) -> usize
    ensures value { result ≡ spec.hex_len text.now }
    ensures within { 0 < result → 2 + result ≤ length text.now }
{
    if text.len() < 2 {
        0
    } else {
        run_len(&text[2..], Class::Hex)
    }
}

#[tactic(auto, unfolding(crate::specs::Strings::hex_escape))]
fn hex_escape(text: &[u8]) -> Piece
    requires { 0 < length text.now }
    ensures value { piece_of text.now result ≡ spec.hex_escape text.now }
    ensures within { IsWithin text.now result }
{
    let len = hex_len(text).min(2);
    if 0 < len {
        byte_piece(&text[2..2 + len], 16, 2 + len)
    } else {
        Piece::Wrong(true, 1)
    }
}

#[tactic(auto, unfolding(crate::specs::Strings::octal_escape))]
fn octal_escape(text: &[u8]) -> Piece
    requires { 0 < length text.now }
    ensures value { piece_of text.now result ≡ spec.octal_escape text.now }
    ensures within { IsWithin text.now result }
{
    let len = run_len(&text[1..], Class::Octal).min(3);
    byte_piece(&text[1..1 + len], 8, 1 + len)
}

#[tactic(auto, unfolding(crate::specs::Strings::char_escape))]
fn char_escape(len: usize, text: &[u8]) -> Piece
    requires some { 0 < length text.now }
    requires digits { 1 ≤ len }
    requires few { len ≤ 8 }
    ensures value { piece_of text.now result ≡ spec.char_escape len text.now }
    ensures within { IsWithin text.now result }
{
    if len <= hex_len(text) {
        char_piece(&text[2..2 + len], 2 + len)
    } else {
        Piece::Wrong(true, 1)
    }
}

// The piece that begins with a backslash.
#[tactic(auto, unfolding(crate::specs::Strings::escape))]
fn escape(text: &[u8]) -> Piece
    requires { slice_index text.now 0 ≡ 92 }
    ensures value { piece_of text.now result ≡ spec.escape text.now }
    ensures within { IsWithin text.now result }
{
    let letter = byte_at(text, 1);
    if is_in(Class::X, letter) {
        hex_escape(text)
    } else if letter == b'u' {
        char_escape(4, text)
    } else if letter == b'U' {
        char_escape(8, text)
    } else if is_in(Class::Octal, letter) {
        octal_escape(text)
    } else {
        match simple_escape(letter) {
            Some(byte) => Piece::Byte(byte, 2),
            None => Piece::Wrong(true, 1),
        }
    }
}

// The piece at the front of the text, in a literal with this quote.
#[tactic(auto, unfolding(crate::specs::Strings::piece))]
pub(crate) fn read_piece(quote: u8, text: &[u8]) -> Piece
    requires some { 0 < length text.now }
    requires ascii { quote < 128 }
    ensures value { piece_of text.now result ≡ spec.piece quote text.now }
    ensures within { IsWithin text.now result }
    ensures last { IsAsciiIfLast text.now result }
{
    let byte = text[0];
    if is_in(Class::Plain, byte) {
        Piece::Run(run_len(text, Class::Plain))
    } else if byte == quote {
        Piece::Ends
    } else if is_in(Class::Quote, byte) {
        Piece::Byte(byte, 1)
    } else if byte == b'\n' {
        Piece::Breaks
    } else if byte == b'\\' {
        escape(text)
    } else {
        Piece::Wrong(false, 1)
    }
}
