//! Messages and enums of numbers alone.

use protox_descriptor::descriptor::descriptor_proto::{ExtensionRange, ReservedRange};
use protox_descriptor::descriptor::enum_descriptor_proto::EnumReservedRange;
use protox_descriptor::descriptor::{
    DescriptorProto, EnumDescriptorProto, EnumValueDescriptorProto, FieldDescriptorProto,
};
use std::alloc::{AllocError, Global};

fn add_fields(message: &mut DescriptorProto, numbers: &[i32]) -> Result<(), AllocError> {
    for number in numbers {
        message.field.push(FieldDescriptorProto::plain(
            None,
            Some(*number),
            None,
            None,
            None,
            None,
            None,
        ))?;
    }
    Ok(())
}

fn add_reserved(message: &mut DescriptorProto, ranges: &[(i32, i32)]) -> Result<(), AllocError> {
    for range in ranges {
        message.reserved_range.push(ReservedRange {
            start: Some(range.0),
            end: Some(range.1),
        })?;
    }
    Ok(())
}

fn add_extensions(message: &mut DescriptorProto, ranges: &[(i32, i32)]) -> Result<(), AllocError> {
    for range in ranges {
        message.extension_range.push(ExtensionRange {
            start: Some(range.0),
            end: Some(range.1),
            options: None,
        })?;
    }
    Ok(())
}

pub fn message_of(
    alloc: Global,
    fields: &[i32],
    reserved: &[(i32, i32)],
    extensions: &[(i32, i32)],
) -> Result<DescriptorProto, AllocError> {
    let mut made = DescriptorProto::new(alloc);
    add_fields(&mut made, fields)?;
    add_reserved(&mut made, reserved)?;
    add_extensions(&mut made, extensions)?;
    Ok(made)
}

fn add_values(of: &mut EnumDescriptorProto, numbers: &[i32]) -> Result<(), AllocError> {
    for number in numbers {
        of.value.push(EnumValueDescriptorProto {
            name: None,
            number: Some(*number),
            options: None,
        })?;
    }
    Ok(())
}

fn add_enum_ranges(of: &mut EnumDescriptorProto, ranges: &[(i32, i32)]) -> Result<(), AllocError> {
    for range in ranges {
        of.reserved_range.push(EnumReservedRange {
            start: Some(range.0),
            end: Some(range.1),
        })?;
    }
    Ok(())
}

pub fn enum_of(
    alloc: Global,
    values: &[i32],
    ranges: &[(i32, i32)],
) -> Result<EnumDescriptorProto, AllocError> {
    let mut made = EnumDescriptorProto::new(alloc);
    add_values(&mut made, values)?;
    add_enum_ranges(&mut made, ranges)?;
    Ok(made)
}
