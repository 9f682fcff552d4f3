//! The texts of floats as protobuf's C++ prints them.

ghost use Rattle.std.specs.Prelude.{◌≡◌, IfOk, string_bytes};
ghost use Rattle.std.specs.Float.{binary32, binary64};
ghost use Rattle.protox_decimal.specs.Texts.{double_text, float_text, reads_back};

use crate::general::general_text;
use std::alloc::{AllocError, Global};

fn reads_back_double(printed: &str, x: f64) -> bool
    ensures { result ≡ reads_back binary64 printed.now x }
{
    match fast_float::parse::<f64, _>(printed) {
        Ok(read) => read == x,
        Err(_) => false,
    }
}

// The text is rounded once, to 32 bits, as by C's `strtof`.
fn reads_back_float(printed: &str, x: f32) -> bool
    ensures { result ≡ reads_back binary32 printed.now x }
{
    match fast_float::parse::<f32, _>(printed) {
        Ok(read) => read == x,
        Err(_) => false,
    }
}

/// The text of a float of 64 bits as protobuf's `SimpleDtoa` prints it: with 15 digits where a
/// reader takes them for the same number, and else with 17.
///
/// # Errors
/// `AllocError` where memory runs out.
pub fn double_text(alloc: Global, x: f64) -> Result<String, AllocError>
    ensures { IfOk result (λ text. string_bytes text ≡ double_text x) }
{
    let short = general_text(alloc, 15, x)?;
    if reads_back_double(short.as_str(), x) {
        return Ok(short);
    }
    general_text(alloc, 17, x)
}

/// The text of a float of 32 bits as protobuf's `SimpleFtoa` prints it: with 6 digits where a
/// reader takes them for the same number without an underflow, and else with 9.
///
/// # Errors
/// `AllocError` where memory runs out.
pub fn float_text(alloc: Global, x: f32) -> Result<String, AllocError>
    ensures { IfOk result (λ text. string_bytes text ≡ float_text x) }
{
    let wide = f64::from(x);
    let short = general_text(alloc, 6, wide)?;
    if !x.is_subnormal() && reads_back_float(short.as_str(), x) {
        return Ok(short);
    }
    general_text(alloc, 9, wide)
}
