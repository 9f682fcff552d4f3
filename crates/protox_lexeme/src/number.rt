//! The values of numbers.
ghost use Rattle.std.specs.Prelude.{◌≡◌, ℕ, not, ◌<◌, ◌≤◌, ◌+◌, ◌^◌, ◌==◌, [], nat_lt, if◌then◌else◌, length, take, drop, slice_index, true, false, Some, None, map, ◌++◌, OnOk, IfOk, IsOk, IfSome, IsSome};
ghost use Rattle.std.specs.Char.{digit_value};
ghost use Rattle.std.specs.Cow.{cow_str_bytes};
ghost use Rattle.protox_lexeme.specs.Tokens.{is_borrowed_str};
ghost use Rattle.std.specs.Str.Parse.{digits_value};
ghost use Rattle.std.specs.Str.{IsCharBoundary};
ghost use Rattle.protox_fault.specs.Faults.{faults_in};
ghost use Rattle.protox_lexeme.specs.Lexemes as spec;
ghost use Rattle.protox_lexeme.specs.Found.{lexeme_of};
ghost use Rattle.protox_lexeme.specs.Shapes as shape;

use crate::bytes::{Class, byte_at, is_in, run_len};
use crate::found::Found;
use crate::lexeme_fault::{FaultKind, LexemeFault};
use crate::token::{EqFloat, Token};
use std::alloc::{AllocError, Global};
use std::borrow::CowStr;

fn digit_value(byte: u8) -> u64
    ensures value { result ≡ digit_value byte }
    ensures small { result < 37 }
{
    match byte {
        b'0'..=b'9' => byte as u64 - 48,
        b'A'..=b'Z' => byte as u64 - 55,
        b'a'..=b'z' => byte as u64 - 87,
        _ => 36,
    }
}

// The value of the digits, or None if it doesn't fit in 64 bits.
pub(crate) fn digits_value(digits: &[u8], radix: u64) -> Option<u64>
    requires { 1 ≤ radix }
    ensures { result ≡ (if nat_lt (digits_value radix digits.now) (2 ^ 64) then Some (digits_value radix digits.now) else None) }
{
    let mut value: u64 = 0;
    'digits: for byte in digits {
        let Some(shifted) = value.checked_mul(radix) else {
            return None;
        };
        let Some(next) = shifted.checked_add(digit_value(*byte)) else {
            return None;
        };
        value = next;
    }
    Some(value)
}

pub(crate) fn prefix_of(word: &[u8]) -> usize
    ensures value { result ≡ spec.prefix_of word.now }
    ensures within { result ≤ length word.now }
{
    if byte_at(word, 0) != b'0' || word.len() == 1 {
        0
    } else if is_in(Class::X, byte_at(word, 1)) {
        2
    } else {
        1
    }
}

fn radix_of(word: &[u8]) -> u64
    ensures value { result ≡ spec.radix_of word.now }
    ensures low { 1 ≤ result }
{
    match prefix_of(word) {
        2 => 16,
        1 => 8,
        _ => 10,
    }
}

// The value of the integer, or None if it doesn't fit in 64 bits.
fn integer_value(word: &[u8]) -> Option<u64>
    ensures { result ≡ (if spec.value_fits word.now then Some (spec.integer_value word.now) else None) }
{
    digits_value(&word[prefix_of(word)..], radix_of(word))
}

// Adds the fault of a letter or `_` right after an integer.
fn check_space(
    faults: &mut Vec<LexemeFault>,
    bytes: &[u8],
    len: usize,
    start: usize,
) -> Result<(), AllocError>
    requires some { 1 ≤ len }
    requires within { len ≤ length bytes.now }
    requires fits { start + length bytes.now < 2 ^ 64 }
    ensures value { OnOk result (faults.new.items ≡ faults.old.items ++ spec.space_faults start bytes.now len) }
    ensures free { spec.space_faults start bytes.now len ≡ [] → IsOk result }
{
    let prefix = prefix_of(&bytes[..len]);
    if !(prefix == 0 && bytes[0] == b'0') && is_in(Class::Letter, byte_at(bytes, len)) {
        let end = len + 1 + run_len(&bytes[len + 1..], Class::Alphabetic);
        faults.push(LexemeFault {
            kind: FaultKind::NoSpaceBetweenIntAndIdent,
            span: start + prefix..start + end,
        })?;
    }
    Ok(())
}

// The value of an integer. If it doesn't fit in 64 bits, it is 0 and a fault is added.
fn value_or_fault(
    faults: &mut Vec<LexemeFault>,
    word: &[u8],
    start: usize,
) -> Result<u64, AllocError>
    requires fits { start + length word.now < 2 ^ 64 }
    ensures value { IfOk result (λ n. n ≡ (if spec.value_fits word.now then spec.integer_value word.now else 0)) }
    ensures faults { OnOk result (faults.new.items ≡ faults.old.items ++ spec.range_faults start word.now) }
    ensures free { spec.range_faults start word.now ≡ [] → IsOk result }
{
    match integer_value(word) {
        Some(value) => Ok(value),
        None => {
            faults.push(LexemeFault {
                kind: FaultKind::IntegerOutOfRange,
                span: start + prefix_of(word)..start + word.len(),
            })?;
            Ok(0)
        }
    }
}

/// The value of the integer of `len` bytes at the front, if it has no fault. None if `read_integer`
/// has to read it.
#[inline(never)]
pub(crate) fn faultless_value(bytes: &[u8], len: usize) -> Option<u64>
    requires { len ≤ length bytes.now }
    ensures { IfSome result (λ v. (start : ℕ) → spec.integer start bytes.now len ≡ spec.plain (shape.Int v) start len) }
{
    if is_in(Class::Letter, byte_at(bytes, len)) {
        return None;
    }
    integer_value(&bytes[..len])
}

/// Reads the integer of `len` bytes at the front of the text.
pub(crate) fn read_integer(
    alloc: Global,
    text: &str,
    len: usize,
    start: usize,
) -> Result<Found<'_>, AllocError>
    requires some { 1 ≤ len }
    requires within { len ≤ length text.now }
    requires fits { start + length text.now < 2 ^ 64 }
    ensures value { IfOk result (λ f. lexeme_of start f ≡ spec.integer start text.now len) }
    ensures free { (spec.integer start text.now len).faults ≡ [] → IsOk result }
{
    let bytes = text.as_bytes();
    let mut faults = Vec::new(alloc);
    check_space(&mut faults, bytes, len, start)?;
    let value = value_or_fault(&mut faults, &bytes[..len], start)?;
    Ok(Found {
        token: Ok(Token::IntLiteral(value)),
        stop: start + len,
        faults,
    })
}

// The fault of a float with a suffix. In text format it is none.
fn suffix_faults(
    alloc: Global,
    word: &str,
    start: usize,
    text_format: bool,
) -> Result<Vec<LexemeFault>, AllocError>
    requires some { 0 < length word.now }
    requires fits { start + length word.now < 2 ^ 64 }
    ensures value { IfOk result (λ v. v.items ≡ faults_in text_format (spec.suffix_faults start word.now)) }
    ensures free { faults_in text_format (spec.suffix_faults start word.now) ≡ [] → IsOk result }
{
    let mut faults = Vec::new(alloc);
    if is_in(Class::F, word.as_bytes()[word.len() - 1]) && !text_format {
        faults.push(LexemeFault {
            kind: FaultKind::FloatSuffixOutsideTextFormat,
            span: start..start + word.len(),
        })?;
    }
    Ok(faults)
}

// The text of a float: without its suffix, and with `.0` added to mere digits.
fn float_text(alloc: Global, word: &str) -> Result<CowStr<'_>, AllocError>
    requires { 0 < length word.now }
    ensures value { IfOk result (λ t. cow_str_bytes t ≡ spec.float_text word.now) }
    ensures borrowed { IfOk result (λ t. is_borrowed_str t ≡ not (spec.is_whole word.now)) }
    ensures free { not (spec.is_whole word.now) ≡ true → IsOk result }
{
    let len = word.len();
    let body = if is_in(Class::F, word.as_bytes()[len - 1]) {
        &word[..len - 1]
    } else {
        word
    };
    if run_len(body.as_bytes(), Class::Digit) == body.len() {
        let mut text = String::from_str(alloc, body)?;
        text.push_str(".0")?;
        Ok(CowStr::Owned(text))
    } else {
        Ok(CowStr::Borrowed(body))
    }
}

/// Reads the float of `len` bytes at the front of the text.
pub(crate) fn read_float(
    alloc: Global,
    text: &str,
    len: usize,
    start: usize,
    text_format: bool,
) -> Result<Found<'_>, AllocError>
    requires some { 1 ≤ len }
    requires within { len ≤ length text.now }
    requires fits { start + length text.now < 2 ^ 64 }
    requires boundary { IsCharBoundary text.now len }
    ensures value { IfOk result (λ f. lexeme_of start f ≡ spec.in_mode text_format (spec.float start text.now len)) }
    ensures free { let x = spec.float start text.now len in x.borrowed ≡ true → faults_in text_format x.faults ≡ [] → IsOk result }
{
    let word = &text[..len];
    let value = float_text(alloc, word)?;
    let faults = suffix_faults(alloc, word, start, text_format)?;
    Ok(Found {
        token: Ok(Token::FloatLiteral(EqFloat(value))),
        stop: start + len,
        faults,
    })
}
