//! Floats, truth values and bytes of statements.

ghost use Rattle.std.specs.Prelude.{◌≡◌, option_map};
ghost use Rattle.std.specs.Float.{binary32, binary64, round_to_format};
ghost use Rattle.std.specs.Option.{option_copied};
ghost use Rattle.fast_float.specs.Parse.{parse_float};
ghost use Rattle.protox_values.specs.Values.{bits_of, double_in, float_in, integer_of, truth_in, truth_of};

use crate::fault::ValueFault;
use protox_descriptor::descriptor::UninterpretedOption;
use protox_descriptor::values::Text;
use std::num::{
    f32_to_bits_with_nan, f64_to_bits_with_nan, nearest_f64_to_f32_with_nan, nearest_i64_to_f32,
    nearest_i64_to_f64, nearest_u64_to_f32, nearest_u64_to_f64,
};

// The float of 64 bits that a text stands for.
fn parsed(text: &str) -> Option<f64>
    ensures { result ≡ parse_float binary64 text.now }
{
    match fast_float::parse::<f64, _>(text) {
        Ok(x) => Some(x),
        Err(_) => None,
    }
}

fn narrowed(x: Option<f64>) -> Option<f32>
    ensures { result ≡ option_map (round_to_format binary32) x }
{
    match x {
        Some(x) => Some(nearest_f64_to_f32_with_nan(x)),
        None => None,
    }
}

fn double(option: &UninterpretedOption) -> Option<f64>
    ensures { result ≡ double_in option.now.double_value (integer_of option.now) }
{
    match &option.double_value {
        Some(text) => parsed(text.as_str()),
        None => match option.positive_int_value {
            Some(n) => Some(nearest_u64_to_f64(n)),
            None => match option.negative_int_value {
                Some(n) => Some(nearest_i64_to_f64(n)),
                None => None,
            },
        },
    }
}

fn float(option: &UninterpretedOption) -> Option<f32>
    ensures { result ≡ float_in option.now.double_value (integer_of option.now) }
{
    match &option.double_value {
        Some(text) => narrowed(parsed(text.as_str())),
        None => match option.positive_int_value {
            Some(n) => Some(nearest_u64_to_f32(n)),
            None => match option.negative_int_value {
                Some(n) => Some(nearest_i64_to_f32(n)),
                None => None,
            },
        },
    }
}

/// The bits of the number of a statement, as a float of 64 bits.
pub fn double_bits(option: &UninterpretedOption) -> Result<u64, ValueFault>
    ensures { result ≡ bits_of binary64 (double_in option.now.double_value (integer_of option.now)) }
{
    match double(option) {
        Some(x) => Ok(f64_to_bits_with_nan(x)),
        None => Err(ValueFault::NotNumber),
    }
}

/// The bits of the number of a statement, as a float of 32 bits.
pub fn float_bits(option: &UninterpretedOption) -> Result<u32, ValueFault>
    ensures { result ≡ bits_of binary32 (float_in option.now.double_value (integer_of option.now)) }
{
    match float(option) {
        Some(x) => Ok(f32_to_bits_with_nan(x)),
        None => Err(ValueFault::NotNumber),
    }
}

fn truth_of(word: &str) -> Result<bool, ValueFault>
    ensures { result ≡ truth_of word.now }
{
    match word {
        "true" => Ok(true),
        "false" => Ok(false),
        _ => Err(ValueFault::NotTruth),
    }
}

/// The truth value of a statement's identifier.
pub fn truth(identifier: Option<&Text>) -> Result<bool, ValueFault>
    ensures { result ≡ truth_in (option_copied identifier.entry) }
{
    match identifier {
        Some(word) => truth_of(word.as_str()),
        None => Err(ValueFault::NotIdentifier),
    }
}
