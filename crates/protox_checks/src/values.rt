//! The checks of option values.

ghost use Rattle.std.specs.Prelude.{◌≡◌, ◌++◌, ◌∷◌, [], is_some, not, OnOk};
ghost use Rattle.protox_ast.specs.Checks as texts;
ghost use Rattle.protox_ast.specs.Values.{a_bool, a_float, a_text, an_integer, as_float_text, float_word, some_bytes, wanted};
ghost use Rattle.protox_checks.specs.Checks.{only_if, option_faults, value_faults};
ghost use Rattle.protox_checks.specs.ValueFaults.{invalid_type};
ghost use Rattle.protox_checks.specs.inner.Walk.{interval_of};

use crate::found::{Found, copied};
use crate::integers::{Integers, check_integer};
use protox_ast::ast::{OptionValue, String, Ty};
use protox_descriptor::values::Text;
use protox_fault::error::{ParseErrorKind, Span};
use std::alloc::AllocError;

// Adds the fault that a value isn't of the wanted kind.
fn add_invalid_type(
    expected: &str,
    value: &OptionValue,
    errors: &mut Found,
) -> Result<(), AllocError>
    ensures { OnOk result (errors.new ≡ errors.old ++ invalid_type expected.now value.now ∷ []) }
{
    let alloc = errors.alloc();
    let actual = Text::from_string(value.to_string(alloc)?);
    let expected = Text::copy(alloc, expected)?;
    errors.add(ParseErrorKind::ValueInvalidType {
        span: value.span(),
        expected,
        actual,
    })
}

fn is_float_word(negative: bool, word: &str) -> bool
    ensures { result ≡ is_some (float_word negative word.now) }
{
    word == "inf" || word == "nan"
}

fn is_float(value: &OptionValue) -> bool
    ensures { result ≡ is_some (as_float_text value.now) }
{
    match value {
        OptionValue::Ident {
            negative,
            ident,
            ..
        } => is_float_word(*negative, ident.value.as_str()),
        OptionValue::Int(_) => true,
        OptionValue::Float(_) => true,
        OptionValue::String(_) => false,
        OptionValue::Aggregate(_, _) => false,
    }
}

fn check_float(value: &OptionValue, errors: &mut Found) -> Result<(), AllocError>
    ensures { OnOk result (errors.new ≡ errors.old ++ value_faults a_float value.now) }
{
    if is_float(value) {
        return Ok(());
    }
    add_invalid_type("a floating-point number", value, errors)
}

fn check_integer_value(
    integers: Integers,
    value: &OptionValue,
    errors: &mut Found,
) -> Result<(), AllocError>
    ensures { OnOk result (errors.new ≡ errors.old ++ value_faults (an_integer (interval_of integers)) value.now) }
{
    match value {
        OptionValue::Int(int) => check_integer(integers, int, errors),
        _ => add_invalid_type("an integer", value, errors),
    }
}

fn check_bool(value: &OptionValue, errors: &mut Found) -> Result<(), AllocError>
    ensures { OnOk result (errors.new ≡ errors.old ++ value_faults a_bool value.now) }
{
    match value.as_bool() {
        Some(_) => Ok(()),
        None => add_invalid_type("either 'true' or 'false'", value, errors),
    }
}

fn is_text(bytes: &[u8]) -> bool
    ensures { result ≡ texts.is_text bytes.now }
{
    match str::from_utf8(bytes) {
        Ok(_) => true,
        Err(_) => false,
    }
}

fn check_string(string: &String, errors: &mut Found) -> Result<(), AllocError>
    ensures { OnOk result (errors.new ≡ errors.old ++ only_if (not (texts.is_text string.now.value)) (ParseErrorKind.InvalidUtf8String string.now.span)) }
{
    if is_text(string.value.as_slice()) {
        return Ok(());
    }
    errors.add(ParseErrorKind::InvalidUtf8String {
        span: copied(&string.span),
    })
}

/// Checks that a value is a string of UTF-8.
pub(crate) fn check_text(value: &OptionValue, errors: &mut Found) -> Result<(), AllocError>
    ensures { OnOk result (errors.new ≡ errors.old ++ value_faults a_text value.now) }
{
    match value {
        OptionValue::String(string) => check_string(string, errors),
        _ => add_invalid_type("a string", value, errors),
    }
}

fn check_bytes(value: &OptionValue, errors: &mut Found) -> Result<(), AllocError>
    ensures { OnOk result (errors.new ≡ errors.old ++ value_faults some_bytes value.now) }
{
    match value {
        OptionValue::String(_) => Ok(()),
        _ => add_invalid_type("a string", value, errors),
    }
}

/// Checks that a value fits the type.
pub(crate) fn check_value(
    ty: &Ty,
    value: &OptionValue,
    errors: &mut Found,
) -> Result<(), AllocError>
    ensures { OnOk result (errors.new ≡ errors.old ++ value_faults (wanted ty.now) value.now) }
{
    match ty {
        Ty::Double | Ty::Float => check_float(value, errors),
        Ty::Int32 | Ty::Sint32 | Ty::Sfixed32 => {
            check_integer_value(Integers::Signed32, value, errors)
        }
        Ty::Int64 | Ty::Sint64 | Ty::Sfixed64 => {
            check_integer_value(Integers::Signed64, value, errors)
        }
        Ty::Uint32 | Ty::Fixed32 => check_integer_value(Integers::Unsigned32, value, errors),
        Ty::Uint64 | Ty::Fixed64 => check_integer_value(Integers::Unsigned64, value, errors),
        Ty::Bool => check_bool(value, errors),
        Ty::String => check_text(value, errors),
        Ty::Bytes => check_bytes(value, errors),
        Ty::Named(_) => Ok(()),
    }
}

fn check_identifier(negative: bool, span: &Span, errors: &mut Found) -> Result<(), AllocError>
    ensures { OnOk result (errors.new ≡ errors.old ++ only_if negative (ParseErrorKind.NegativeIdentOutsideDefault span.now)) }
{
    if negative {
        return errors.add(ParseErrorKind::NegativeIdentOutsideDefault { span: copied(span) });
    }
    Ok(())
}

/// Checks the value of an option that isn't interpreted.
pub(crate) fn check_uninterpreted(value: &OptionValue, errors: &mut Found) -> Result<(), AllocError>
    ensures { OnOk result (errors.new ≡ errors.old ++ option_faults value.now) }
{
    match value {
        OptionValue::Ident { negative, span, .. } => check_identifier(*negative, span, errors),
        OptionValue::Int(int) => check_integer(Integers::Any64, int, errors),
        _ => Ok(()),
    }
}
