//! Integers of statements, within the limits of a type, and how they lie on the wire.

ghost use Rattle.std.specs.Prelude.{◌≡◌, ◌≤◌, ◌+◌, ◌%◌, ◌^◌, pos, nat_lt};
ghost use Rattle.protox_values.specs.Values.{Integer, fits_signed, integer_of, limited, mapped, says};
ghost use Rattle.protox_values.specs.Wire.{wire, zigzag};
ghost use Rattle.protox_values.specs.declared.types.ScalarType.TheVariants as kind;

use crate::fault::ValueFault;
use crate::setting::SettingValue;
use crate::types::ScalarType;
use protox_descriptor::descriptor::UninterpretedOption;

// The greatest integers without a sign.
const GREATEST_32: u64 = 0xffff_ffff;

const GREATEST_64: u64 = 0xffff_ffff_ffff_ffff;

fn fits_signed(n: i64, limit: u64) -> bool
    ensures { result ≡ fits_signed limit n }
{
    if n < 0 {
        n.unsigned_abs() <= limit
    } else {
        n.unsigned_abs() < limit
    }
}

fn limited_positive(n: u64, limit: u64) -> Result<i64, ValueFault>
    requires { limit ≤ 2 ^ 63 }
    ensures { result ≡ limited (fits_signed limit) ValueFault.NotInteger (Some (pos n)) }
{
    if n < limit {
        Ok(n as i64)
    } else {
        Err(ValueFault::OutOfRange)
    }
}

fn limited_negative(n: i64, limit: u64) -> Result<i64, ValueFault>
    ensures { result ≡ limited (fits_signed limit) ValueFault.NotInteger (Some n) }
{
    if fits_signed(n, limit) {
        Ok(n)
    } else {
        Err(ValueFault::OutOfRange)
    }
}

/// The integer of a statement, if it is at least `-limit` and less than `limit`.
pub fn signed(option: &UninterpretedOption, limit: u64) -> Result<i64, ValueFault>
    requires { limit ≤ 2 ^ 63 }
    ensures { result ≡ limited (fits_signed limit) ValueFault.NotInteger (integer_of option.now) }
{
    match option.positive_int_value {
        Some(n) => limited_positive(n, limit),
        None => match option.negative_int_value {
            Some(n) => limited_negative(n, limit),
            None => Err(ValueFault::NotInteger),
        },
    }
}

/// The integer without a sign of a statement, if it is at most `greatest`.
pub fn unsigned(option: &UninterpretedOption, greatest: u64) -> Result<u64, ValueFault>
    ensures { result ≡ limited (λ n. nat_lt n (greatest + 1)) ValueFault.NotNonNegative option.now.positive_int_value }
{
    match option.positive_int_value {
        Some(n) => if n <= greatest {
            Ok(n)
        } else {
            Err(ValueFault::OutOfRange)
        },
        None => Err(ValueFault::NotNonNegative),
    }
}

// The numbers 0, -1, 1, -2, 2 and so on as 0, 1, 2, 3, 4 and so on.
fn zigzag(n: i64) -> u64
    ensures { result ≡ zigzag n }
{
    if n < 0 {
        2 * (n.unsigned_abs() - 1) + 1
    } else {
        2 * n.unsigned_abs()
    }
}

// The lowest 32 bits.
fn low(n: u64) -> u32
    ensures { result ≡ n % 2 ^ 32 }
{
    (n % 4294967296) as u32
}

// An integer on the wire, by the type of the field.
fn laid(scalar: ScalarType, n: i64) -> SettingValue
    ensures { result ≡ wire scalar (Integer n) }
{
    let bits = n.cast_unsigned();
    match scalar {
        ScalarType::Sint32 => SettingValue::Varint(zigzag(n)),
        ScalarType::Sint64 => SettingValue::Varint(zigzag(n)),
        ScalarType::Fixed32 => SettingValue::Four(low(bits)),
        ScalarType::Sfixed32 => SettingValue::Four(low(bits)),
        ScalarType::Fixed64 => SettingValue::Eight(bits),
        ScalarType::Sfixed64 => SettingValue::Eight(bits),
        _ => SettingValue::Varint(bits),
    }
}

/// The integer of a statement, if it is at least `-limit` and less than `limit`, on the wire by the
/// type of the field.
pub fn signed_setting(
    option: &UninterpretedOption,
    limit: u64,
    scalar: ScalarType,
) -> Result<SettingValue, ValueFault>
    requires { limit ≤ 2 ^ 63 }
    ensures { result ≡ mapped (wire scalar) (mapped Integer (limited (fits_signed limit) ValueFault.NotInteger (integer_of option.now))) }
{
    match signed(option, limit) {
        Ok(n) => Ok(laid(scalar, n)),
        Err(fault) => Err(fault),
    }
}

/// What a statement says to a field of the type `uint32`, on the wire.
pub fn uint32_setting(option: &UninterpretedOption) -> Result<SettingValue, ValueFault>
    ensures { result ≡ mapped (wire kind.Uint32) (says kind.Uint32 option.now) }
{
    match unsigned(option, GREATEST_32) {
        Ok(n) => Ok(SettingValue::Varint(n)),
        Err(fault) => Err(fault),
    }
}

/// What a statement says to a field of the type `fixed32`, on the wire.
pub fn fixed32_setting(option: &UninterpretedOption) -> Result<SettingValue, ValueFault>
    ensures { result ≡ mapped (wire kind.Fixed32) (says kind.Fixed32 option.now) }
{
    match unsigned(option, GREATEST_32) {
        Ok(n) => Ok(SettingValue::Four(low(n))),
        Err(fault) => Err(fault),
    }
}

/// What a statement says to a field of the type `uint64`, on the wire.
pub fn uint64_setting(option: &UninterpretedOption) -> Result<SettingValue, ValueFault>
    ensures { result ≡ mapped (wire kind.Uint64) (says kind.Uint64 option.now) }
{
    match unsigned(option, GREATEST_64) {
        Ok(n) => Ok(SettingValue::Varint(n)),
        Err(fault) => Err(fault),
    }
}

/// What a statement says to a field of the type `fixed64`, on the wire.
pub fn fixed64_setting(option: &UninterpretedOption) -> Result<SettingValue, ValueFault>
    ensures { result ≡ mapped (wire kind.Fixed64) (says kind.Fixed64 option.now) }
{
    match unsigned(option, GREATEST_64) {
        Ok(n) => Ok(SettingValue::Eight(n)),
        Err(fault) => Err(fault),
    }
}
