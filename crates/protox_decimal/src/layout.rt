//! Digits and an exponent as text.

ghost use Rattle.std.specs.Prelude.{◌≡◌, ◌^◌, ◌<◌, ◌++◌, OnOk, negsuc, replicate, string_bytes};
ghost use Rattle.std.specs.Str.{IsAscii};
ghost use Rattle.protox_decimal.specs.Texts.{laid_out, pointed, scientific, stripped, padded};

use std::alloc::{AllocError, Global};

// The digits without the zeros at their end.
fn trimmed(digits: &str) -> &str
    requires { IsAscii digits.now }
    ensures { result.now ≡ stripped digits.now }
{
    let bytes = digits.as_bytes();
    let mut end = bytes.len();
    while end > 0 && bytes[end - 1] == b'0' {
        end -= 1;
    }
    &digits[..end]
}

// Appends the digits, with a point behind the first ones where others than zeros follow.
fn push_pointed(text: &mut String, digits: &str, whole: usize) -> Result<(), AllocError>
    requires { IsAscii digits.now }
    ensures { OnOk result
        (string_bytes text.new ≡ string_bytes text.old ++ pointed whole digits.now) }
{
    let cut = whole.min(digits.len());
    text.push_str(&digits[..cut])?;
    let fraction = trimmed(&digits[cut..]);
    if fraction.is_empty() {
        return Ok(());
    }
    text.push_str(".")?;
    text.push_str(fraction)
}

fn push_two_digits(alloc: Global, text: &mut String, n: u32) -> Result<(), AllocError>
    ensures { OnOk result (string_bytes text.new ≡ string_bytes text.old ++ padded n) }
{
    let digits = format!(in alloc; "{n}")?;
    if n < 10 {
        text.push_str("0")?;
    }
    text.push_str(digits.as_str())
}

// Appends the digits and their exponent, which has a sign and a size.
fn push_scientific(
    alloc: Global,
    text: &mut String,
    digits: &str,
    sign: &str,
    exponent: u32,
) -> Result<(), AllocError>
    requires { IsAscii digits.now }
    ensures { OnOk result
        (string_bytes text.new ≡ string_bytes text.old ++ scientific digits.now sign.now exponent) }
{
    push_pointed(text, digits, 1)?;
    text.push_str("e")?;
    text.push_str(sign)?;
    push_two_digits(alloc, text, exponent)
}

// The zeros between the point and the first digit.
fn zeros(count: u32) -> &'static str
    requires { count < 4 }
    ensures { result.now ≡ replicate count 48 }
{
    match count {
        0 => "",
        1 => "0",
        2 => "00",
        _ => "000",
    }
}

// Appends digits whose exponent is -1 less the zeros before the first.
fn push_small(alloc: Global, text: &mut String, digits: &str, before: u32) -> Result<(), AllocError>
    requires ascii { IsAscii digits.now }
    requires small { before < 2 ^ 31 }
    ensures { OnOk result (string_bytes text.new
        ≡ string_bytes text.old ++ laid_out 0 digits.now (negsuc before)) }
{
    if before < 4 {
        text.push_str("0.")?;
        text.push_str(zeros(before))?;
        return text.push_str(trimmed(digits));
    }
    push_scientific(alloc, text, digits, "-", before + 1)
}

/// Appends digits, the first of which has a decimal exponent.
///
/// # Errors
/// `AllocError` where memory runs out.
pub(crate) fn push_laid_out(
    alloc: Global,
    text: &mut String,
    precision: u32,
    digits: &str,
    exponent: i32,
) -> Result<(), AllocError>
    requires { IsAscii digits.now }
    ensures { OnOk result (string_bytes text.new
        ≡ string_bytes text.old ++ laid_out precision digits.now exponent) }
{
    let power = exponent.unsigned_abs();
    if exponent < 0 {
        return push_small(alloc, text, digits, power - 1);
    }
    if power < precision {
        return push_pointed(text, digits, power as usize + 1);
    }
    push_scientific(alloc, text, digits, "+", power)
}
