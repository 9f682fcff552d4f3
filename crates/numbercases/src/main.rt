//! Builds messages and enums whose numbers clash, and prints what is told of them. The lines that
//! are expected follow from protobuf's rules.
#![tactic(auto)]

mod made;

use crate::made::{enum_of, message_of};
use protox_descriptor::descriptor::{DescriptorProto, EnumDescriptorProto};
use protox_numbers::{
    Clash, begins_with_zero, extension_ranges_in_reserved, fields_in_extension_ranges,
    fields_in_reserved_ranges, is_backward_enum_range, is_empty_extension_range,
    is_empty_reserved_range, is_for_implementation, overlapping_enum_ranges,
    overlapping_extension_ranges, overlapping_reserved_ranges, reused_numbers,
    values_in_reserved_ranges,
};
use std::alloc::{AllocError, Global};
use std::io;

// The clashes of one kind. They are let go here, so that the function that asks for them is cheap to
// prove.
fn tell(rt: &impl Print, what: &str, clashes: Result<Vec<Clash>, AllocError>) -> io::Result<()> {
    for clash in clashes?.as_slice() {
        rt.println(format_args!("{what}: {} with {}", clash.part, clash.with))?;
    }
    Ok(())
}

fn tell_clashes(rt: &impl Print, alloc: Global, message: &DescriptorProto) -> io::Result<()> {
    tell(rt, "reused", reused_numbers(alloc, message))?;
    tell(rt, "reserved", fields_in_reserved_ranges(alloc, message))?;
    tell(
        rt,
        "for extensions",
        fields_in_extension_ranges(alloc, message),
    )?;
    tell(
        rt,
        "reserved overlap",
        overlapping_reserved_ranges(alloc, message),
    )?;
    tell(
        rt,
        "extensions overlap",
        overlapping_extension_ranges(alloc, message),
    )?;
    tell(
        rt,
        "reserved extensions",
        extension_ranges_in_reserved(alloc, message),
    )
}

fn tell_parts(rt: &impl Print, message: &DescriptorProto) -> io::Result<()> {
    for field in message.field.as_slice() {
        if is_for_implementation(field) {
            rt.println("for the implementation")?;
        }
    }
    for range in message.reserved_range.as_slice() {
        if is_empty_reserved_range(range) {
            rt.println("empty reserved range")?;
        }
    }
    for range in message.extension_range.as_slice() {
        if is_empty_extension_range(range) {
            rt.println("empty extension range")?;
        }
    }
    Ok(())
}

fn tell_message(rt: &impl Print, alloc: Global, message: &DescriptorProto) -> io::Result<()> {
    tell_clashes(rt, alloc, message)?;
    tell_parts(rt, message)
}

fn tell_enum(rt: &impl Print, alloc: Global, of: &EnumDescriptorProto) -> io::Result<()> {
    tell(rt, "reserved", values_in_reserved_ranges(alloc, of))?;
    tell(rt, "reserved overlap", overlapping_enum_ranges(alloc, of))?;
    if !begins_with_zero(of) {
        rt.println("does not begin with zero")?;
    }
    for range in of.reserved_range.as_slice() {
        if is_backward_enum_range(range) {
            rt.println("backward range")?;
        }
    }
    Ok(())
}

// Makes a message, and tells of it. It is let go here.
fn made_message(
    rt: &impl Print,
    alloc: Global,
    fields: &[i32],
    reserved: &[(i32, i32)],
    extensions: &[(i32, i32)],
) -> io::Result<()> {
    let message = message_of(alloc, fields, reserved, extensions)?;
    tell_message(rt, alloc, &message)
}

fn made_enum(
    rt: &impl Print,
    alloc: Global,
    values: &[i32],
    reserved: &[(i32, i32)],
) -> io::Result<()> {
    let of = enum_of(alloc, values, reserved)?;
    tell_enum(rt, alloc, &of)
}

fn main(rt: HostRuntime) -> io::Result<()> {
    let alloc = rt.alloc();
    rt.println("message with extensions")?;
    made_message(
        &rt,
        alloc,
        &[1, 2, 1, 5, 1],
        &[(5, 8), (1, 2)],
        &[(2, 4), (3, 5), (7, 9)],
    )?;
    rt.println("message with reserved ranges")?;
    made_message(
        &rt,
        alloc,
        &[10, 11, 21, 18999, 19000, 19999, 20000],
        &[(1, 11), (20, 21), (5, 6), (20, 21), (11, 20), (15, 15)],
        &[(9, 8)],
    )?;
    rt.println("enum")?;
    made_enum(
        &rt,
        alloc,
        &[0, -1, 2, 5],
        &[(-5, -1), (2, 2), (3, 4), (4, 9), (20, 19)],
    )?;
    rt.println("enum that begins with one")?;
    made_enum(&rt, alloc, &[1, 0], &[])
}
