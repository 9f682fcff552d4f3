//! Finds the longest match at the front of a text.
ghost use Rattle.std.specs.Prelude.{◌≡◌, ◌<◌, ◌≤◌, length, slice_index, true, Some, IfSome};
ghost use Rattle.std.specs.Char.{is_ascii_digit};
ghost use Rattle.protox_lexeme.specs.Lexicon.{is_mark};
ghost use Rattle.protox_lexeme.specs.Scanning as spec;

use crate::bytes::{Class, byte_at, is_in, run_len};

/// The kind of a lexeme.
#[derive(Clone, Copy)]
pub enum Kind {
    Identifier,
    Integer,
    Float,
    String,
    Mark,
    LineComment,
    BlockComment,
    Newline,
}

fn sign_len(text: &[u8]) -> usize
    ensures value { result ≡ spec.sign_len text.now }
    ensures within { result ≤ length text.now }
{
    if is_in(Class::Sign, byte_at(text, 0)) {
        1
    } else {
        0
    }
}

#[tactic(auto, unfolding(crate::specs::Scanning::signed_len))]
fn signed_len(text: &[u8]) -> usize
    ensures value { result ≡ spec.signed_len text.now }
    ensures within { result ≤ length text.now }
{
    let sign = sign_len(text);
    let digits = run_len(&text[sign..], Class::Digit);
    if 0 < digits { sign + digits } else { 0 }
}

#[tactic(auto, unfolding(crate::specs::Scanning::exponent_len))]
fn exponent_len(text: &[u8]) -> usize
    ensures value { result ≡ spec.exponent_len text.now }
    ensures within { result ≤ length text.now }
{
    if !is_in(Class::E, byte_at(text, 0)) {
        return 0;
    }
    let signed = signed_len(&text[1..]);
    if 0 < signed { 1 + signed } else { 0 }
}

#[tactic(auto, unfolding(crate::specs::Scanning::suffix_len))]
fn suffix_len(text: &[u8]) -> usize
    ensures value { result ≡ spec.suffix_len text.now }
    ensures within { result ≤ length text.now }
{
    if is_in(Class::F, byte_at(text, 0)) {
        1
    } else {
        0
    }
}

// The length of an exponent and a suffix at the front. Each may be missing.
#[tactic(auto, unfolding(crate::specs::Scanning::tail_len))]
fn tail_len(text: &[u8]) -> usize
    ensures value { result ≡ spec.tail_len text.now }
    ensures within { result ≤ length text.now }
{
    let exponent = exponent_len(text);
    exponent + suffix_len(&text[exponent..])
}

#[tactic(auto, unfolding(crate::specs::Scanning::fraction_len))]
fn fraction_len(text: &[u8]) -> usize
    ensures value { result ≡ spec.fraction_len text.now }
    ensures within { result ≤ length text.now }
{
    let digits = run_len(text, Class::Digit);
    digits + tail_len(&text[digits..])
}

// A number that begins with 0 and has no point and no exponent.
#[tactic(auto, unfolding(crate::specs::Scanning::zero_number))]
fn zero_number(text: &[u8]) -> (Kind, usize)
    requires { 0 < length text.now }
    ensures value { result ≡ spec.zero_number text.now }
    ensures within { (1 ≤ result.1) × (result.1 ≤ length text.now) }
{
    let next = byte_at(text, 1);
    if is_in(Class::X, next) && is_in(Class::Hex, byte_at(text, 2)) {
        (Kind::Integer, 2 + run_len(&text[2..], Class::Hex))
    } else if is_in(Class::F, next) {
        (Kind::Float, 2)
    } else {
        (Kind::Integer, 1 + run_len(&text[1..], Class::Octal))
    }
}

#[inline(never)]
#[tactic(auto, unfolding(crate::specs::Scanning::number))]
fn number(text: &[u8]) -> (Kind, usize)
    requires { is_ascii_digit (slice_index text.now 0) ≡ true }
    ensures value { result ≡ spec.number text.now }
    ensures within { (1 ≤ result.1) × (result.1 ≤ length text.now) }
{
    let whole = run_len(text, Class::Digit);
    if byte_at(text, whole) == b'.' {
        (Kind::Float, whole + 1 + fraction_len(&text[whole + 1..]))
    } else if 0 < exponent_len(&text[whole..]) {
        (Kind::Float, whole + tail_len(&text[whole..]))
    } else if byte_at(text, 0) == b'0' {
        zero_number(text)
    } else if is_in(Class::F, byte_at(text, whole)) {
        (Kind::Float, whole + 1)
    } else {
        (Kind::Integer, whole)
    }
}

// The length of the line at the front, with its newline.
fn line_len(text: &[u8]) -> usize
    ensures value { result ≡ spec.line_len text.now }
    ensures within { result ≤ length text.now }
{
    let len = run_len(text, Class::NotNewline);
    if byte_at(text, len) == b'\n' {
        len + 1
    } else {
        len
    }
}

// A lexeme that begins with a point: a float or a mark.
#[inline(never)]
#[tactic(auto, using(crate::proofs::ScanMatch::scan_point), unfolding(crate::specs::Scanning::scan))]
fn point(text: &[u8]) -> (Kind, usize)
    requires { slice_index text.now 0 ≡ 46 }
    ensures value { spec.scan text.now ≡ Some result }
    ensures within { (1 ≤ result.1) × (result.1 ≤ length text.now) }
{
    if is_in(Class::Digit, byte_at(text, 1)) {
        (Kind::Float, 1 + fraction_len(&text[1..]))
    } else {
        (Kind::Mark, 1)
    }
}

// A lexeme that begins with a slash: a comment or a mark.
#[inline(never)]
#[tactic(auto, using(crate::proofs::ScanMatch::scan_slash), unfolding(crate::specs::Scanning::scan))]
fn slash(text: &[u8]) -> (Kind, usize)
    requires { slice_index text.now 0 ≡ 47 }
    ensures value { spec.scan text.now ≡ Some result }
    ensures within { (1 ≤ result.1) × (result.1 ≤ length text.now) }
{
    match byte_at(text, 1) {
        b'/' => (Kind::LineComment, 2 + line_len(&text[2..])),
        b'*' => (Kind::BlockComment, 2),
        _ => (Kind::Mark, 1),
    }
}

// A lexeme that begins with a mark.
#[inline(always)]
#[tactic(auto, using(crate::proofs::ScanMatch::scan_mark))]
fn marked(text: &[u8]) -> (Kind, usize)
    requires { is_mark (slice_index text.now 0) ≡ true }
    ensures value { spec.scan text.now ≡ Some result }
    ensures within { (1 ≤ result.1) × (result.1 ≤ length text.now) }
{
    match byte_at(text, 0) {
        b'.' => point(text),
        b'/' => slash(text),
        _ => (Kind::Mark, 1),
    }
}

/// The kind of the longest match at the front, and its length in bytes. None if nothing matches. A
/// string or a block comment is matched up to its opening alone. Frequent kinds are tried first.
#[inline(always)]
#[tactic(auto, using(crate::proofs::ScanMatch::scan_letter, crate::proofs::ScanMatch::scan_newline, crate::proofs::ScanMatch::scan_digit, crate::proofs::ScanMatch::scan_quote, crate::proofs::ScanMatch::scan_hash, crate::proofs::ScanMatch::scan_other), unfolding(crate::specs::Scanning::scan))]
pub fn scan(text: &[u8]) -> Option<(Kind, usize)>
    ensures value { result ≡ spec.scan text.now }
    ensures within { IfSome result (λ p. (1 ≤ p.1) × (p.1 ≤ length text.now)) }
{
    let first = byte_at(text, 0);
    if is_in(Class::Letter, first) {
        Some((Kind::Identifier, run_len(text, Class::Word)))
    } else if is_in(Class::Mark, first) {
        Some(marked(text))
    } else if first == b'\n' {
        Some((Kind::Newline, 1))
    } else if is_in(Class::Digit, first) {
        Some(number(text))
    } else if is_in(Class::Quote, first) {
        Some((Kind::String, 1))
    } else if first == b'#' {
        Some((Kind::LineComment, 1 + line_len(&text[1..])))
    } else {
        None
    }
}
