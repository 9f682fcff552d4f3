//! The texts of values that are none of a field's type.

ghost use Rattle.std.specs.Prelude.{◌≡◌, IfOk, codes, string_bytes};
ghost use Rattle.protox_brace_text.specs.Texts as words;

use crate::pieces::{all_printed, is_minus, printed};
use protox_text_format::Piece;
use protox_text_values::TextEnumFault;
use protox_values::{Held, ValueFault};
use std::alloc::{AllocError, Global};

fn first_text(alloc: Global, value: &[Piece<'_>]) -> Result<String, AllocError>
    ensures { IfOk result (λ text. string_bytes text ≡ words.first_text value.now) }
{
    printed(alloc, value.first())
}

fn is_negative(value: &[Piece<'_>]) -> bool
    ensures { result ≡ words.is_negative value.now }
{
    match value.first() {
        Some(first) => is_minus(first),
        None => false,
    }
}

// The value without a minus sign in front.
fn size_text(alloc: Global, value: &[Piece<'_>]) -> Result<String, AllocError>
    ensures { IfOk result (λ text. string_bytes text ≡ words.size_text value.now) }
{
    if is_negative(value) {
        return printed(alloc, value.get(1));
    }
    first_text(alloc, value)
}

fn out_of_range(alloc: Global, got: &str) -> Result<String, AllocError>
    ensures { IfOk result (λ text. string_bytes text ≡ words.out_of_range got.now) }
{
    format!(in alloc; "Integer out of range ({got})")
}

/// What is told where something else was wanted.
pub(crate) fn expected(alloc: Global, what: &str, got: &str) -> Result<String, AllocError>
    ensures { IfOk result (λ text. string_bytes text ≡ words.expected what.now got.now) }
{
    format!(in alloc; "Expected {what}, got: {got}")
}

fn not_truth(alloc: Global, field: &str, got: &str) -> Result<String, AllocError>
    ensures { IfOk result (λ text. string_bytes text ≡ words.not_truth field.now got.now) }
{
    format!(in alloc; "Invalid value for boolean field \"{field}\". Value: \"{got}\".")
}

fn no_such_value(alloc: Global, got: &str, field: &str) -> Result<String, AllocError>
    ensures { IfOk result (λ text. string_bytes text ≡ words.no_such_value got.now field.now) }
{
    format!(in alloc; "Unknown enumeration value of \"{got}\" for field \"{field}\".")
}

fn signed_text(alloc: Global, fault: ValueFault, value: &[Piece<'_>]) -> Result<String, AllocError>
    ensures { IfOk result (λ text. string_bytes text ≡ words.signed_text fault value.now) }
{
    let got = size_text(alloc, value)?;
    match fault {
        ValueFault::OutOfRange => out_of_range(alloc, got.as_str()),
        _ => expected(alloc, "integer", got.as_str()),
    }
}

fn unsigned_text(
    alloc: Global,
    fault: ValueFault,
    value: &[Piece<'_>],
) -> Result<String, AllocError>
    ensures { IfOk result (λ text. string_bytes text ≡ words.unsigned_text fault value.now) }
{
    let got = first_text(alloc, value)?;
    match fault {
        ValueFault::OutOfRange => out_of_range(alloc, got.as_str()),
        _ => expected(alloc, "integer", got.as_str()),
    }
}

fn truth_text(
    alloc: Global,
    fault: ValueFault,
    field: &str,
    value: &[Piece<'_>],
) -> Result<String, AllocError>
    ensures { IfOk result (λ text. string_bytes text ≡ words.truth_text fault field.now value.now) }
{
    let got = first_text(alloc, value)?;
    match fault {
        ValueFault::NotTruth => not_truth(alloc, field, got.as_str()),
        ValueFault::OutOfRange => out_of_range(alloc, got.as_str()),
        _ => expected(alloc, "identifier", got.as_str()),
    }
}

fn float_text(alloc: Global, value: &[Piece<'_>]) -> Result<String, AllocError>
    ensures { IfOk result (λ text. string_bytes text
        ≡ words.expected (codes "double") (words.size_text value.now)) }
{
    let got = size_text(alloc, value)?;
    expected(alloc, "double", got.as_str())
}

fn string_text(alloc: Global, value: &[Piece<'_>]) -> Result<String, AllocError>
    ensures { IfOk result (λ text. string_bytes text
        ≡ words.expected (codes "string") (words.first_text value.now)) }
{
    let got = first_text(alloc, value)?;
    expected(alloc, "string", got.as_str())
}

/// What is wrong with the value of a field with this name, whose type holds this.
pub(crate) fn value_text(
    alloc: Global,
    held: Held,
    fault: ValueFault,
    field: &str,
    value: &[Piece<'_>],
) -> Result<String, AllocError>
    ensures { IfOk result (λ text. string_bytes text
        ≡ words.value_text held fault field.now value.now) }
{
    match held {
        Held::Int32 | Held::Int64 => signed_text(alloc, fault, value),
        Held::Uint32 | Held::Uint64 => unsigned_text(alloc, fault, value),
        Held::Float | Held::Double => float_text(alloc, value),
        Held::Bool => truth_text(alloc, fault, field, value),
        Held::String => string_text(alloc, value),
    }
}

// What is told of a value that is neither a word nor an integer.
fn no_enum_text(alloc: Global, value: &[Piece<'_>]) -> Result<String, AllocError>
    ensures { IfOk result (λ text. string_bytes text ≡ words.no_enum_text value.now) }
{
    if is_negative(value) {
        let got = size_text(alloc, value)?;
        return expected(alloc, "integer", got.as_str());
    }
    let got = first_text(alloc, value)?;
    expected(alloc, "integer or identifier", got.as_str())
}

/// What is wrong with the value of a field with this name, whose type is an enum.
pub(crate) fn enum_text(
    alloc: Global,
    fault: TextEnumFault,
    field: &str,
    value: &[Piece<'_>],
) -> Result<String, AllocError>
    ensures { IfOk result (λ text. string_bytes text ≡ words.enum_text fault field.now value.now) }
{
    match fault {
        TextEnumFault::NotValue => no_enum_text(alloc, value),
        TextEnumFault::OutOfRange => {
            let got = size_text(alloc, value)?;
            out_of_range(alloc, got.as_str())
        }
        TextEnumFault::NoSuchValue => {
            let got = all_printed(alloc, value)?;
            no_such_value(alloc, got.as_str(), field)
        }
    }
}
