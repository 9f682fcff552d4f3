//! What a statement says to a field whose type is an enum.

ghost use Rattle.std.specs.Prelude.{◌≡◌, find, IfOk};
ghost use Rattle.std.specs.Option.{option_copied};
ghost use Rattle.std.specs.Result.{result_ok};
ghost use Rattle.protox_values.specs.Enums.{enum_reading, enum_says, is_named, number_of, number_wire};
ghost use Rattle.protox_values.specs.Values.{mapped};

use crate::fault::EnumFault;
use crate::setting::SettingValue;
use protox_descriptor::descriptor::{EnumValueDescriptorProto, UninterpretedOption};

fn is_named(value: &EnumValueDescriptorProto, name: &str) -> bool
    ensures { result ≡ is_named name.now value.now }
{
    match &value.name {
        Some(text) => text.as_str() == name,
        None => false,
    }
}

fn first_named<'a>(
    values: &'a [EnumValueDescriptorProto],
    name: &str,
) -> Option<&'a EnumValueDescriptorProto>
    ensures { option_copied result ≡ find (is_named name.now) values.now }
{
    values.iter().find(|value| is_named(value, name))
}

fn number_of(value: &EnumValueDescriptorProto) -> i32
    ensures { result ≡ number_of value.now }
{
    match value.number {
        Some(number) => number,
        None => 0,
    }
}

fn number(
    option: &UninterpretedOption,
    values: &[EnumValueDescriptorProto],
) -> Result<i32, EnumFault>
    ensures { result ≡ enum_says values.now option.now.identifier_value }
{
    match &option.identifier_value {
        None => Err(EnumFault::NotIdentifier),
        Some(name) => match first_named(values, name.as_str()) {
            Some(value) => Ok(number_of(value)),
            None => Err(EnumFault::NoSuchValue),
        },
    }
}

/// What the statement of an option says, if the type of the option's field is the enum with these
/// values, on the wire: the number of the first value of this name. Whoever reads that finds the
/// number.
///
/// # Errors
/// `NotIdentifier` if the statement has no identifier, and `NoSuchValue` if no value has this name.
pub fn enum_value(
    option: &UninterpretedOption,
    values: &[EnumValueDescriptorProto],
) -> Result<SettingValue, EnumFault>
    ensures says { result ≡ mapped number_wire (enum_says values.now option.now.identifier_value) }
    ensures reads_back { IfOk result (λ payload. enum_reading payload ≡ result_ok (enum_says values.now option.now.identifier_value)) }
{
    match number(option, values) {
        Ok(n) => Ok(SettingValue::Varint(i64::from(n).cast_unsigned())),
        Err(fault) => Err(fault),
    }
}
