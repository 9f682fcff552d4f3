//! Values of enums in text format.

ghost use Rattle.std.specs.Prelude.{◌≡◌, find, IfOk, neg_ℤ, pos, Some};
ghost use Rattle.std.specs.List.{list_any};
ghost use Rattle.std.specs.Option.{option_copied};
ghost use Rattle.std.specs.Ordering.{int_eq};
ghost use Rattle.std.specs.Result.{result_ok};
ghost use Rattle.protox_lexeme.specs.Tokens.{shape_of};
ghost use Rattle.protox_text_values.specs.Enums.{enum_number, enum_says_in_text, number_if_any, number_named};
ghost use Rattle.protox_text_values.specs.Scalars.{integer_in, shapes_of};
ghost use Rattle.protox_text_values.specs.inner.Limits.{in_32_bits};
ghost use Rattle.protox_text_values.specs.inner.Parts.{single, word_of, word_in};
ghost use Rattle.protox_values.specs.Enums.{enum_reading, is_named, number_of, number_wire};
ghost use Rattle.protox_values.specs.Values.{mapped};

use crate::fault::TextEnumFault;
use crate::numbers::{natural_in, negated_in, negative, single};
use protox_descriptor::descriptor::EnumValueDescriptorProto;
use protox_lexeme::token::Token;
use protox_text_format::Piece;
use protox_values::SettingValue;

fn number_of(value: &EnumValueDescriptorProto) -> i32
    ensures { result ≡ number_of value.now }
{
    match value.number {
        Some(number) => number,
        None => 0,
    }
}

fn is_named(value: &EnumValueDescriptorProto, name: &str) -> bool
    ensures { result ≡ is_named name.now value.now }
{
    match &value.name {
        Some(text) => text.as_str() == name,
        None => false,
    }
}

fn first_named<'a>(
    values: &'a [EnumValueDescriptorProto],
    name: &str,
) -> Option<&'a EnumValueDescriptorProto>
    ensures { option_copied result ≡ find (is_named name.now) values.now }
{
    values.iter().find(|value| is_named(value, name))
}

// The number of the first value with a name.
fn number_named(values: &[EnumValueDescriptorProto], name: &str) -> Result<i32, TextEnumFault>
    ensures { result ≡ number_named values.now name.now }
{
    match first_named(values, name) {
        Some(value) => Ok(number_of(value)),
        None => Err(TextEnumFault::NoSuchValue),
    }
}

// Limits of integers of 32 bits: the least one is `-LIMIT`, and the greatest is one less.
const LIMIT: i64 = 0x8000_0000;

fn limited(n: i64) -> Result<i32, TextEnumFault>
    ensures { result ≡ in_32_bits (Some n) }
{
    if -LIMIT <= n && n < LIMIT {
        Ok(n as i32)
    } else {
        Err(TextEnumFault::OutOfRange)
    }
}

fn limited_natural(n: u64) -> Result<i32, TextEnumFault>
    ensures { result ≡ in_32_bits (Some (pos n)) }
{
    match i64::try_from(n) {
        Ok(n) => limited(n),
        Err(_) => Err(TextEnumFault::OutOfRange),
    }
}

fn limited_negative(n: u64) -> Result<i32, TextEnumFault>
    ensures { result ≡ in_32_bits (Some (neg_ℤ (pos n))) }
{
    match negative(n) {
        Some(n) => limited(n),
        None => Err(TextEnumFault::OutOfRange),
    }
}

// The integer of a value.
fn integer(pieces: &[Piece<'_>]) -> Result<i32, TextEnumFault>
    ensures { result ≡ in_32_bits (integer_in (shapes_of pieces.now)) }
{
    if let Some(n) = natural_in(pieces) {
        return limited_natural(n);
    }
    match negated_in(pieces) {
        Some(n) => limited_negative(n),
        None => Err(TextEnumFault::NotValue),
    }
}

fn is_number_of_any(values: &[EnumValueDescriptorProto], number: i32) -> bool
    ensures { result ≡ list_any (λ value. int_eq (number_of value) number) values.now }
{
    values.iter().any(|value| number_of(value) == number)
}

// A number of one of the values, or any if the enum is open.
fn number_if_any(
    values: &[EnumValueDescriptorProto],
    is_open: bool,
    number: i32,
) -> Result<i32, TextEnumFault>
    ensures { result ≡ number_if_any is_open values.now number }
{
    if is_open || is_number_of_any(values, number) {
        Ok(number)
    } else {
        Err(TextEnumFault::NoSuchValue)
    }
}

// The number that a value is.
fn enum_number(
    pieces: &[Piece<'_>],
    values: &[EnumValueDescriptorProto],
    is_open: bool,
) -> Result<i32, TextEnumFault>
    ensures { result ≡ enum_number is_open values.now (integer_in (shapes_of pieces.now)) }
{
    match integer(pieces) {
        Ok(number) => number_if_any(values, is_open, number),
        Err(fault) => Err(fault),
    }
}

fn word_of<'v>(token: &'v Token<'_>) -> Option<&'v str>
    ensures { option_copied result ≡ word_of (shape_of token.now) }
{
    match token {
        Token::Ident(word) => Some(word),
        _ => None,
    }
}

// The word that a value is.
fn word_in<'v>(pieces: &'v [Piece<'_>]) -> Option<&'v str>
    ensures { option_copied result ≡ word_in (shapes_of pieces.now) }
{
    match single(pieces) {
        Some(token) => word_of(token),
        None => None,
    }
}

// The number that a value names or is.
fn number_in(
    pieces: &[Piece<'_>],
    values: &[EnumValueDescriptorProto],
    is_open: bool,
) -> Result<i32, TextEnumFault>
    ensures { result ≡ enum_says_in_text is_open values.now (shapes_of pieces.now) }
{
    match word_in(pieces) {
        Some(word) => number_named(values, word),
        None => enum_number(pieces, values, is_open),
    }
}

/// What a value in text format says to a field whose type is the enum with these values, on the
/// wire: the number of the first value with its name, or the number itself. An open enum, as those of
/// proto3 are, takes numbers that no value has.
///
/// # Errors
/// `NotValue` if it is neither a word nor an integer, `OutOfRange` if it is an integer of more than
/// 32 bits, and `NoSuchValue` if no value has the name or the number.
pub fn enum_in_text(
    pieces: &[Piece<'_>],
    values: &[EnumValueDescriptorProto],
    is_open: bool,
) -> Result<SettingValue, TextEnumFault>
    ensures says { result ≡ mapped number_wire
        (enum_says_in_text is_open values.now (shapes_of pieces.now)) }
    ensures reads_back { IfOk result (λ value. enum_reading value
        ≡ result_ok (enum_says_in_text is_open values.now (shapes_of pieces.now))) }
{
    match number_in(pieces, values, is_open) {
        Ok(n) => Ok(SettingValue::Varint(i64::from(n).cast_unsigned())),
        Err(fault) => Err(fault),
    }
}
