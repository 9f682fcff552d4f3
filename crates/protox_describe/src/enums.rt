//! The descriptors of enums.

ghost use Rattle.std.specs.Prelude.{◌≡◌, map, IfOk};
ghost use Rattle.protox_describe.specs.Enums.{enum_value_proto, enum_proto};

use crate::options::{enum_options, enum_value_options};
use crate::ranges::{enum_number, enum_reserved_protos, reserved_texts};
use protox_ast::ast::{Enum, EnumValue};
use protox_descriptor::descriptor::{EnumDescriptorProto, EnumValueDescriptorProto};
use protox_descriptor::values::{Items, Text};
use std::alloc::{AllocError, Global};

fn enum_value_proto(alloc: Global, ast: &EnumValue) -> Result<EnumValueDescriptorProto, AllocError>
    ensures { IfOk result (λ value. value ≡ enum_value_proto ast.now) }
{
    let name = Text::copy(alloc, ast.name.value.as_str())?;
    let options = enum_value_options(alloc, &ast.options)?;
    Ok(EnumValueDescriptorProto {
        name: Some(name),
        number: enum_number(&ast.number),
        options,
    })
}

fn enum_values(
    alloc: Global,
    values: &[EnumValue],
) -> Result<Items<EnumValueDescriptorProto>, AllocError>
    ensures { IfOk result (λ made. made ≡ map enum_value_proto values.now) }
{
    let mut made = Vec::with_capacity(alloc, values.len())?;
    for value in values {
        made.push(enum_value_proto(alloc, value)?)?;
    }
    Ok(Items::from_vec(made))
}

/// The descriptor of an enum.
pub(crate) fn enum_proto(alloc: Global, ast: &Enum) -> Result<EnumDescriptorProto, AllocError>
    ensures { IfOk result (λ made. made ≡ enum_proto ast.now) }
{
    let name = Text::copy(alloc, ast.name.value.as_str())?;
    let value = enum_values(alloc, ast.values.as_slice())?;
    let options = enum_options(alloc, ast.options.as_slice())?;
    let reserved_range = enum_reserved_protos(alloc, ast.reserved.as_slice())?;
    let reserved_name = reserved_texts(alloc, ast.reserved.as_slice())?;
    Ok(EnumDescriptorProto {
        name: Some(name),
        value,
        options,
        reserved_range,
        reserved_name,
    })
}
