//! C's format `%.Pg`.

ghost use Rattle.std.specs.Prelude.{◌≡◌, ◌*◌, ◌^◌, ◌<◌, ◌≤◌, ◌++◌, IfOk, OnOk, string_bytes};
ghost use Rattle.std.specs.Float.{NotNan, is_sign_negative};
ghost use Rattle.std.specs.Fmt.{sign_text};
ghost use Rattle.protox_decimal.specs.Rounded.{rounded};
ghost use Rattle.protox_decimal.specs.Texts.{general_text, size_text};

use crate::big::Big;
use crate::digits::rounded_digits;
use crate::layout::push_laid_out;
use crate::scale::scale;
use crate::size::size_of;
use std::alloc::{AllocError, Global};

// A number as a whole number of digits, and the decimal exponent of the first of them.
#[derive(Clone, Copy)]
struct Rounded {
    digits: u64,
    exponent: i32,
}

// The whole number mantissa * 2 ^ exponent. In units of 2 ^ -1074 it is the size of a float.
fn units(mantissa: u64, exponent: u32) -> Big
    requires mantissa { mantissa < 2 ^ 53 }
    requires exponent { exponent ≤ 2045 }
    ensures { result ≡ mantissa * 2 ^ exponent }
{
    let mut big = Big::new(mantissa);
    big.shift(exponent);
    big
}

// The number mantissa * 2 ^ exponent / 2 ^ 1074, rounded.
fn rounded_size(mantissa: u64, exponent: u32, precision: u32) -> Rounded
    requires mantissa { (0 < mantissa) × (mantissa < 2 ^ 53) }
    requires exponent { exponent ≤ 2045 }
    requires few { (1 ≤ precision) × (precision ≤ 17) }
    ensures digits { result.digits
        ≡ (rounded precision (mantissa * 2 ^ exponent) (2 ^ 1074)).digits }
    ensures place { result.exponent
        ≡ (rounded precision (mantissa * 2 ^ exponent) (2 ^ 1074)).exponent }
{
    let mut over = units(mantissa, exponent);
    let mut under = units(1, 1074);
    let first = scale(&mut over, &mut under);
    let digits = rounded_digits(&mut over, &under, precision);
    if digits == 10_u64.pow(precision) {
        return Rounded {
            digits: 10_u64.pow(precision - 1),
            exponent: first + 1,
        };
    }
    Rounded {
        digits,
        exponent: first,
    }
}

// Appends the number mantissa * 2 ^ exponent / 2 ^ 1074.
fn push_size(
    alloc: Global,
    text: &mut String,
    precision: u32,
    mantissa: u64,
    exponent: u32,
) -> Result<(), AllocError>
    requires mantissa { mantissa < 2 ^ 53 }
    requires exponent { exponent ≤ 2045 }
    requires few { (1 ≤ precision) × (precision ≤ 17) }
    ensures { OnOk result (string_bytes text.new ≡ string_bytes text.old
        ++ size_text precision (mantissa * 2 ^ exponent) (2 ^ 1074)) }
{
    if mantissa == 0 {
        return text.push_str("0");
    }
    let number = rounded_size(mantissa, exponent, precision);
    let digits = format!(in alloc; "{}", number.digits)?;
    push_laid_out(alloc, text, precision, digits.as_str(), number.exponent)
}

fn sign_of(x: f64) -> &'static str
    requires { NotNan x }
    ensures { result.now ≡ sign_text (is_sign_negative x) }
{
    if x.is_sign_negative() { "-" } else { "" }
}

// Appends a float that is a number.
fn push_number(alloc: Global, text: &mut String, precision: u32, x: f64) -> Result<(), AllocError>
    requires number { NotNan x }
    requires few { (1 ≤ precision) × (precision ≤ 17) }
    ensures { OnOk result
        (string_bytes text.new ≡ string_bytes text.old ++ general_text precision x) }
{
    text.push_str(sign_of(x))?;
    if !x.is_finite() {
        return text.push_str("inf");
    }
    let (mantissa, exponent) = size_of(x);
    push_size(alloc, text, precision, mantissa, exponent)
}

/// A float in C's format `%.Pg`, where P is the precision.
///
/// # Errors
/// `AllocError` where memory runs out.
pub(crate) fn general_text(alloc: Global, precision: u32, x: f64) -> Result<String, AllocError>
    requires { (1 ≤ precision) × (precision ≤ 17) }
    ensures { IfOk result (λ text. string_bytes text ≡ general_text precision x) }
{
    if x.is_nan() {
        return String::from_str(alloc, "nan");
    }
    let mut printed = String::new(alloc);
    push_number(alloc, &mut printed, precision, x)?;
    Ok(printed)
}
