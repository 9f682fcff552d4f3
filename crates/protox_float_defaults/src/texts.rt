//! The texts of floats, printed anew.

ghost use Rattle.std.specs.Prelude.{◌≡◌, IfOk, option_map, string_bytes};
ghost use Rattle.std.specs.Float.{binary32, binary64, round_to_format};
ghost use Rattle.fast_float.specs.Parse.{parse_float};
ghost use Rattle.protox_decimal.specs.Texts.{double_text, float_text};
ghost use Rattle.protox_float_defaults.specs.Printed.{new_double, new_float, new_text};

use protox_decimal::{double_text, float_text};
use protox_descriptor::descriptor::field_descriptor_proto::FieldType;
use std::alloc::{AllocError, Global};
use std::num::nearest_f64_to_f32_with_nan;

// The text of a float of 64 bits, printed anew. None if it is none of a float.
fn new_double(alloc: Global, text: &str) -> Result<Option<String>, AllocError>
    ensures { IfOk result (λ made. option_map string_bytes made ≡ new_double text.now) }
{
    match fast_float::parse::<f64, _>(text) {
        Ok(x) => Ok(Some(double_text(alloc, x)?)),
        Err(_) => Ok(None),
    }
}

// A float of 32 bits, printed anew. Its text is read with 64 bits first, as by protoc.
fn new_float(alloc: Global, text: &str) -> Result<Option<String>, AllocError>
    ensures { IfOk result (λ made. option_map string_bytes made ≡ new_float text.now) }
{
    match fast_float::parse::<f64, _>(text) {
        Ok(x) => Ok(Some(float_text(alloc, nearest_f64_to_f32_with_nan(x))?)),
        Err(_) => Ok(None),
    }
}

/// The text of a default of a field with this type, printed anew. None if it stays as it is.
///
/// # Errors
/// `AllocError` where memory runs out.
pub(crate) fn new_text(
    alloc: Global,
    field_type: Option<i32>,
    text: &str,
) -> Result<Option<String>, AllocError>
    ensures { IfOk result (λ made. option_map string_bytes made ≡ new_text field_type text.now) }
{
    if field_type == Some(FieldType::Double as i32) {
        return new_double(alloc, text);
    }
    if field_type == Some(FieldType::Float as i32) {
        return new_float(alloc, text);
    }
    Ok(None)
}
