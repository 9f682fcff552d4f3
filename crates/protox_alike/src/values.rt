//! Values of an enum that can't be told apart by their names.

ghost use Rattle.std.specs.Prelude.{◌≡◌, filter, map, IfOk};
ghost use Rattle.protox_alike.specs.Alike as words;
ghost use Rattle.protox_alike.specs.Keys.{pascal_from, value_key, without_prefix};
ghost use Rattle.protox_alike.specs.inner.Prints.{print_of};

use crate::keys::{key_of_value, text_of};
use crate::prints::{differ, print_of_value};
use crate::same::same_names;
use protox_descriptor::descriptor::{EnumDescriptorProto, EnumValueDescriptorProto};
use protox_names::cases::without_case;
use protox_numbers::Clash;
use std::alloc::{AllocError, Global};

fn prints(
    alloc: Global,
    prefix: &[u8],
    values: &[EnumValueDescriptorProto],
) -> Result<Vec<u32>, AllocError>
    ensures { IfOk result (λ made. made.items
        ≡ map (λ value. print_of (value_key prefix.now value)) values.now) }
{
    let mut made = Vec::with_capacity(alloc, values.len())?;
    for value in values {
        made.push(print_of_value(prefix, text_of(value.name.as_ref())))?;
    }
    Ok(made)
}

fn keys(
    alloc: Global,
    prefix: &[u8],
    values: &[EnumValueDescriptorProto],
) -> Result<Vec<Vec<u8>>, AllocError>
    ensures { IfOk result (λ made. map (λ key. key.items) made.items
        ≡ map (value_key prefix.now) values.now) }
{
    let mut made = Vec::with_capacity(alloc, values.len())?;
    for value in values {
        made.push(key_of_value(alloc, prefix, text_of(value.name.as_ref()))?)?;
    }
    Ok(made)
}

// Values with the same name are faults of another kind, and those with the same number are aliases.
fn are_two(value: &EnumValueDescriptorProto, earlier: &EnumValueDescriptorProto) -> bool
    ensures { result ≡ words.are_two value.now earlier.now }
{
    let named = text_of(value.name.as_ref()) == text_of(earlier.name.as_ref());
    !named && value.number.unwrap_or(0) != earlier.number.unwrap_or(0)
}

fn is_of_two(values: &[EnumValueDescriptorProto], clash: Clash) -> bool
    ensures { result ≡ words.is_of_two values.now clash }
{
    let (Some(value), Some(earlier)) = (values.get(clash.part), values.get(clash.with)) else {
        return false;
    };
    are_two(value, earlier)
}

// The values whose key an earlier one has, whatever their names and numbers.
fn same_keys(
    alloc: Global,
    prefix: &[u8],
    values: &[EnumValueDescriptorProto],
) -> Result<Vec<Clash>, AllocError>
    ensures { IfOk result (λ made. made.items ≡ words.same_names (map (value_key prefix.now) values.now)) }
{
    // few of them are compared two by two, which costs the square of their number
    if values.len() <= 32 {
        let prints = prints(alloc, prefix, values)?;
        if differ(&prints) {
            return Ok(Vec::new(alloc));
        }
    }
    let keys = keys(alloc, prefix, values)?;
    same_names(alloc, &keys)
}

/// Each value of an enum whose name is that of an earlier one, but for case, `_` and the name of the
/// enum in front, in order, with the first such value. It isn't one if the two have the same name or
/// the same number.
///
/// # Errors
/// `AllocError` where memory runs out.
pub fn values_alike(alloc: Global, of: &EnumDescriptorProto) -> Result<Vec<Clash>, AllocError>
    ensures { IfOk result (λ made. made.items ≡ words.values_alike of.now) }
{
    let prefix = without_case(alloc, text_of(of.name.as_ref()))?;
    let values = of.value.as_slice();
    let same = same_keys(alloc, prefix.as_bytes(), values)?;
    let mut alike = Vec::new(alloc);
    for clash in same.as_slice() {
        if is_of_two(values, *clash) {
            alike.push(*clash)?;
        }
    }
    Ok(alike)
}
