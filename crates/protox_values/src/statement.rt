//! What a statement says to a field of a scalar type.

ghost use Rattle.std.specs.Prelude.{◌≡◌, ◌≢◌, false, true, IfErr, IfOk, IsErrOf};
ghost use Rattle.std.specs.Result.{result_ok};
ghost use Rattle.protox_values.specs.Types.{held_by};
ghost use Rattle.protox_values.specs.Values.{IfFault, mapped, says};
ghost use Rattle.protox_values.specs.Wire.{reading, wire};
ghost use Rattle.protox_values.specs.declared.types.ScalarType.TheVariants as kind;

use crate::fault::{ValueFailure, ValueFault};
use crate::integers::{
    fixed32_setting, fixed64_setting, signed_setting, uint32_setting, uint64_setting,
};
use crate::numbers::{double_bits, float_bits, truth};
use crate::setting::SettingValue;
use crate::types::{Held, ScalarType};
use protox_descriptor::descriptor::UninterpretedOption;
use protox_descriptor::values::Items;
use std::alloc::Global;

// Limits of integers with a sign: the least one is `-LIMIT`, and the greatest is one less.
const LIMIT_32: u64 = 0x8000_0000;

const LIMIT_64: u64 = 0x8000_0000_0000_0000;

fn double_setting(option: &UninterpretedOption) -> Result<SettingValue, ValueFault>
    ensures { result ≡ mapped (wire kind.Double) (says kind.Double option.now) }
{
    match double_bits(option) {
        Ok(bits) => Ok(SettingValue::Eight(bits)),
        Err(fault) => Err(fault),
    }
}

fn float_setting(option: &UninterpretedOption) -> Result<SettingValue, ValueFault>
    ensures { result ≡ mapped (wire kind.Float) (says kind.Float option.now) }
{
    match float_bits(option) {
        Ok(bits) => Ok(SettingValue::Four(bits)),
        Err(fault) => Err(fault),
    }
}

fn truth_setting(option: &UninterpretedOption) -> Result<SettingValue, ValueFault>
    ensures { result ≡ mapped (wire kind.Bool) (says kind.Bool option.now) }
{
    match truth(option.identifier_value.as_ref()) {
        Ok(truth) => Ok(SettingValue::Varint(truth as u64)),
        Err(fault) => Err(fault),
    }
}

// What a statement says to a field of a type that holds no bytes.
fn number_setting(
    option: &UninterpretedOption,
    scalar: ScalarType,
) -> Result<SettingValue, ValueFault>
    ensures { held_by scalar ≢ Held.String → result ≡ mapped (wire scalar) (says scalar option.now) }
{
    match scalar {
        ScalarType::Int32 => signed_setting(option, LIMIT_32, ScalarType::Int32),
        ScalarType::Sint32 => signed_setting(option, LIMIT_32, ScalarType::Sint32),
        ScalarType::Sfixed32 => signed_setting(option, LIMIT_32, ScalarType::Sfixed32),
        ScalarType::Int64 => signed_setting(option, LIMIT_64, ScalarType::Int64),
        ScalarType::Sint64 => signed_setting(option, LIMIT_64, ScalarType::Sint64),
        ScalarType::Sfixed64 => signed_setting(option, LIMIT_64, ScalarType::Sfixed64),
        ScalarType::Uint32 => uint32_setting(option),
        ScalarType::Uint64 => uint64_setting(option),
        ScalarType::Fixed32 => fixed32_setting(option),
        ScalarType::Fixed64 => fixed64_setting(option),
        ScalarType::Double => double_setting(option),
        ScalarType::Float => float_setting(option),
        ScalarType::Bool => truth_setting(option),
        ScalarType::String => Err(ValueFault::NotString),
        ScalarType::Bytes => Err(ValueFault::NotString),
    }
}

fn bytes_setting(alloc: Global, option: &UninterpretedOption) -> Result<SettingValue, ValueFailure>
    ensures ok { IfOk result (λ payload. mapped (wire kind.Bytes) (says kind.Bytes option.now) ≡ Ok payload) }
    ensures fault { IfErr result (λ failure. IfFault failure (λ fault. says kind.Bytes option.now ≡ Err fault)) }
{
    match &option.string_value {
        Some(bytes) => {
            let copy = Items::from_slice(alloc, bytes.as_slice())?;
            Ok(SettingValue::Bytes(copy))
        }
        None => Err(ValueFailure::Fault(ValueFault::NotString)),
    }
}

fn settled(answer: Result<SettingValue, ValueFault>) -> Result<SettingValue, ValueFailure>
    ensures ok { IfOk result (λ payload. answer ≡ Ok payload) }
    ensures fault { IfErr result (λ failure. IfFault failure (λ fault. answer ≡ Err fault)) }
    ensures memory { IsErrOf result ValueFailure.OutOfMemory → false ≡ true }
{
    match answer {
        Ok(setting) => Ok(setting),
        Err(fault) => Err(ValueFailure::Fault(fault)),
    }
}

fn said(
    alloc: Global,
    option: &UninterpretedOption,
    scalar: ScalarType,
) -> Result<SettingValue, ValueFailure>
    ensures says { IfOk result (λ payload. mapped (wire scalar) (says scalar option.now) ≡ Ok payload) }
    ensures fault { IfErr result (λ failure. IfFault failure (λ fault. says scalar option.now ≡ Err fault)) }
    ensures memory { IsErrOf result ValueFailure.OutOfMemory → held_by scalar ≡ Held.String }
{
    match scalar.held() {
        Held::String => bytes_setting(alloc, option),
        _ => settled(number_setting(option, scalar)),
    }
}

/// What the statement of an option says, if the type of the option's field is this one, on the
/// wire. Whoever reads that by the type finds what the statement says.
///
/// # Errors
/// `Fault` if the statement's value is none of the type. `OutOfMemory` if memory runs out, which
/// only texts and bytes take.
pub fn scalar_value(
    alloc: Global,
    option: &UninterpretedOption,
    scalar: ScalarType,
) -> Result<SettingValue, ValueFailure>
    ensures says { IfOk result (λ payload. mapped (wire scalar) (says scalar option.now) ≡ Ok payload) }
    ensures reads_back { IfOk result (λ payload. reading scalar payload ≡ result_ok (says scalar option.now)) }
    ensures fault { IfErr result (λ failure. IfFault failure (λ fault. says scalar option.now ≡ Err fault)) }
    ensures memory { IsErrOf result ValueFailure.OutOfMemory → held_by scalar ≡ Held.String }
{
    said(alloc, option, scalar)
}
