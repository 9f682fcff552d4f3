//! Reading lexemes.
ghost use Rattle.std.specs.Prelude.{◌≡◌, ◌<◌, ◌≤◌, ◌+◌, ◌-◌, ◌^◌, ℕ, List, [], length, take, drop, slice_index, true, false, Some, None, IfOk, IsOk, IfSome, IsSome};
ghost use Rattle.std.specs.Char.{len_utf8};
ghost use Rattle.std.specs.Str.{chars, IsCharBoundary};
ghost use Rattle.protox_fault.specs.Faults.{faults_in};
ghost use Rattle.protox_lexeme.specs.Lexemes as spec;
ghost use Rattle.protox_lexeme.specs.Scanning as scanned;
ghost use Rattle.protox_lexeme.specs.Lexicon.{is_mark, is_quote, IsLineOpener};
ghost use Rattle.protox_lexeme.specs.Found.{lexeme_of};
ghost use Rattle.protox_lexeme.specs.Table.{is_gap};
ghost use Rattle.protox_lexeme.specs.Tokens.{shape_of, borrowed_of, holds_none};

use crate::block_comment::read_block_comment;
use crate::comment::read_line_comment;
use crate::lexeme_fault::LexemeFault;
use crate::number::{faultless_value, read_float, read_integer};
use crate::scan::{Kind, scan};
use crate::string::read_string;
use crate::token::{Token, mark_of};
use std::alloc::{AllocError, Global};

/// A lexeme that was read.
#[derive(Drop)]
pub struct Found<'a> {
    /// The token, or `Err` for an invalid character.
    pub token: Result<Token<'a>, ()>,
    /// The offset after its last byte.
    pub stop: usize,
    /// Its faults, in order.
    pub faults: Vec<LexemeFault>,
}

fn plain(alloc: Global, token: Token<'_>, start: usize, len: usize) -> Found<'_>
    requires fits { start + len < 2 ^ 64 }
    requires borrowed { borrowed_of token ≡ true }
    ensures value { lexeme_of start result ≡ spec.plain (shape_of token.entry) start len }
    ensures stop { result.stop ≡ start + len }
{
    Found {
        token: Ok(token),
        stop: start + len,
        faults: Vec::new(alloc),
    }
}

fn first_char_len(text: &str) -> usize
    requires { 0 < length text.now }
    ensures value { result ≡ len_utf8 (slice_index (chars text.now) 0) }
    ensures within { result ≤ length text.now }
    ensures boundary { IsCharBoundary text.now result }
{
    match text.chars().next() {
        Some(c) => c.len_utf8(),
        None => 0,
    }
}

/// An invalid lexeme of one character.
#[inline(never)]
pub fn invalid(alloc: Global, text: &str, start: usize) -> Found<'_>
    requires some { 0 < length text.now }
    requires fits { start + length text.now < 2 ^ 64 }
    ensures value { lexeme_of start result ≡ spec.invalid start text.now }
    ensures from { start ≤ result.stop }
    ensures within { result.stop ≤ start + length text.now }
    ensures boundary { IsCharBoundary text.now (result.stop - start) }
{
    Found {
        token: Err(()),
        stop: start + first_char_len(text),
        faults: Vec::new(alloc),
    }
}

// The first `len` bytes of the text.
fn front(text: &str, len: usize) -> &str
    requires within { len ≤ length text.now }
    requires boundary { IsCharBoundary text.now len }
    ensures { result.now ≡ take len text.now }
{
    &text[..len]
}

/// The token of an identifier or an integer without a fault. None if `read_kind` has to read the
/// lexeme.
#[inline(always)]
pub fn plain_token(text: &str, kind: Kind, len: usize) -> Option<Token<'_>>
    requires within { len ≤ length text.now }
    requires boundary { IsCharBoundary text.now len }
    ensures row { IfSome result (λ t. is_gap (shape_of t) ≡ false) }
    ensures holds { IfSome result (λ t. holds_none (shape_of t) ≡ true) }
    ensures value { IfSome result (λ t. (start : ℕ) → spec.lexeme kind start text.now len ≡ spec.plain (shape_of t) start len) }
{
    match kind {
        Kind::Identifier => Some(Token::Ident(front(text, len))),
        Kind::Integer => Some(Token::IntLiteral(faultless_value(text.as_bytes(), len)?)),
        _ => None,
    }
}

/// Reads the lexeme at the front of the text. `scan` has found its kind and its `len` bytes.
pub fn read_kind(
    alloc: Global,
    text: &str,
    kind: Kind,
    len: usize,
    start: usize,
    text_format: bool,
) -> Result<Found<'_>, AllocError>
    requires found { scanned.scan text.now ≡ Some (kind, len) }
    requires some { 1 ≤ len }
    requires within { len ≤ length text.now }
    requires fits { start + length text.now < 2 ^ 64 }
    requires boundary { IsCharBoundary text.now len }
    requires mark { kind ≡ Kind.Mark → is_mark (slice_index text.now 0) ≡ true }
    requires quote { kind ≡ Kind.String → is_quote (slice_index text.now 0) ≡ true }
    requires opener { kind ≡ Kind.LineComment → IsLineOpener text.now len }
    requires block { kind ≡ Kind.BlockComment → (2 ≤ length text.now) × (slice_index text.now 1 ≡ 42) }
    ensures value { IfOk result (λ f. lexeme_of start f ≡ spec.in_mode text_format (spec.lexeme kind start text.now len)) }
    ensures within { IfOk result (λ f. (start < f.stop) × (f.stop ≤ start + length text.now)) }
    ensures boundary { IfOk result (λ f. IsCharBoundary text.now (f.stop - start)) }
    ensures free { let x = spec.lexeme kind start text.now len in x.borrowed ≡ true → faults_in text_format x.faults ≡ [] → IsOk result }
{
    match kind {
        Kind::Identifier => Ok(plain(alloc, Token::Ident(front(text, len)), start, len)),
        Kind::Integer => read_integer(alloc, text, len, start),
        Kind::Float => read_float(alloc, text, len, start, text_format),
        Kind::Mark => match mark_of(text.as_bytes()[0]) {
            Some(token) => Ok(plain(alloc, token, start, len)),
            None => unreachable!(),
        },
        Kind::Newline => Ok(plain(alloc, Token::Newline, start, len)),
        Kind::String => read_string(alloc, text, start),
        Kind::LineComment => read_line_comment(alloc, text, len, start, text_format),
        Kind::BlockComment => read_block_comment(alloc, text, start),
    }
}

/// Reads the lexeme at the front of the text.
#[tactic(auto, using(crate::proofs::Boundaries::scan_boundary, crate::proofs::Boundaries::scanned_mark, crate::proofs::Boundaries::scanned_quote, crate::proofs::Boundaries::scan_line, crate::proofs::Boundaries::scan_block), unfolding(crate::specs::Lexemes::first_lexeme))]
pub(crate) fn read_lexeme(
    alloc: Global,
    text: &str,
    start: usize,
    text_format: bool,
) -> Result<Found<'_>, AllocError>
    requires some { 0 < length text.now }
    requires fits { start + length text.now < 2 ^ 64 }
    ensures value { IfOk result (λ f. lexeme_of start f ≡ spec.in_mode text_format (spec.first_lexeme start text.now)) }
    ensures within { IfOk result (λ f. (start < f.stop) × (f.stop ≤ start + length text.now)) }
    ensures boundary { IfOk result (λ f. IsCharBoundary text.now (f.stop - start)) }
    ensures free { let x = spec.first_lexeme start text.now in x.borrowed ≡ true → faults_in text_format x.faults ≡ [] → IsOk result }
{
    match scan(text.as_bytes()) {
        Some((kind, len)) => read_kind(alloc, text, kind, len, start, text_format),
        None => Ok(invalid(alloc, text, start)),
    }
}
