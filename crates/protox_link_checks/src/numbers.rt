//! What is wrong with the numbers of a message, and of an enum.

ghost use Rattle.std.specs.Prelude.{◌≡◌, ◌++◌, ◌∷◌, [], OnOk};
ghost use Rattle.protox_link_checks.specs.Numbers.{clash_fault, clash_faults};
ghost use Rattle.protox_link_checks.specs.Numbers.{clashing_ranges, clashing_values, empty_ranges};
ghost use Rattle.protox_link_checks.specs.Numbers.{enum_number_faults, field_number_faults};
ghost use Rattle.protox_link_checks.specs.Numbers.{implementation_faults};
ghost use Rattle.protox_link_checks.specs.Numbers.{message_number_faults, no_value};

use crate::each::path_to;
use crate::empty::{Siblings, check_empty};
use crate::uses::add_fault;
use protox_descriptor::descriptor::{DescriptorProto, EnumDescriptorProto, FieldDescriptorProto};
use protox_descriptor::tag::{enum_, enum_value, field, message};
use protox_descriptor::values::Numbers;
use protox_link_fault::{LinkFault, LinkFaultKind, NumberFault};
use protox_numbers::{
    Clash, extension_ranges_in_reserved, fields_in_extension_ranges, fields_in_reserved_ranges,
    is_for_implementation, overlapping_enum_ranges, overlapping_extension_ranges,
    overlapping_reserved_ranges, reused_numbers, values_in_reserved_ranges,
};
use std::alloc::{AllocError, Global};

// Where the parts of something clash, and how.
#[derive(Drop)]
struct Place<'a> {
    file: usize,
    path: &'a [i32],
    tag: i32,
    at: &'a [i32],
    how: NumberFault,
}

// Adds the fault of a part that clashes.
fn add_clash(
    alloc: Global,
    place: &Place<'_>,
    clash: Clash,
    faults: &mut Vec<LinkFault>,
) -> Result<(), AllocError>
    ensures { OnOk result (faults.new.items ≡ faults.old.items
        ++ clash_fault place.now.file place.now.path.now place.now.tag place.now.at.now place.now.how
        clash ∷ []) }
{
    let part = path_to(alloc, place.path, place.tag, clash.part)?;
    let path = Numbers::joined(alloc, part.as_slice(), place.at)?;
    let kind = LinkFaultKind::Clash(place.how, clash.with);
    let file = place.file;
    if faults.push(LinkFault { file, path, kind }).is_err() {
        return Err(AllocError);
    }
    Ok(())
}

// Adds the faults of all parts that clash.
fn add_clashes(
    alloc: Global,
    place: &Place<'_>,
    clashes: &[Clash],
    faults: &mut Vec<LinkFault>,
) -> Result<(), AllocError>
    ensures { OnOk result (faults.new.items ≡ faults.old.items
        ++ clash_faults place.now.file place.now.path.now place.now.tag place.now.at.now place.now.how
        clashes.now) }
{
    for clash in clashes {
        add_clash(alloc, place, *clash, faults)?;
    }
    Ok(())
}

// Adds what is wrong with the numbers of fields.
fn check_fields(
    alloc: Global,
    file: usize,
    path: &[i32],
    of: &DescriptorProto,
    faults: &mut Vec<LinkFault>,
) -> Result<(), AllocError>
    ensures { OnOk result (faults.new.items
        ≡ faults.old.items ++ field_number_faults file path.now of.now) }
{
    let reused = reused_numbers(alloc, of)?;
    let mut place = Place {
        file,
        path,
        tag: message::FIELD,
        at: &[field::NUMBER],
        how: NumberFault::Reused,
    };
    add_clashes(alloc, &place, reused.as_slice(), faults)?;
    place.how = NumberFault::Reserved;
    let reserved = fields_in_reserved_ranges(alloc, of)?;
    add_clashes(alloc, &place, reserved.as_slice(), faults)?;
    place.how = NumberFault::ForExtensions;
    let for_extensions = fields_in_extension_ranges(alloc, of)?;
    add_clashes(alloc, &place, for_extensions.as_slice(), faults)
}

// Adds a fault for each range of a message that clashes.
fn check_clashing_ranges(
    alloc: Global,
    file: usize,
    path: &[i32],
    of: &DescriptorProto,
    faults: &mut Vec<LinkFault>,
) -> Result<(), AllocError>
    ensures { OnOk result (faults.new.items
        ≡ faults.old.items ++ clashing_ranges file path.now of.now) }
{
    let mut place = Place {
        file,
        path,
        tag: message::RESERVED_RANGE,
        at: &[],
        how: NumberFault::ReservedTwice,
    };
    let reserved = overlapping_reserved_ranges(alloc, of)?;
    add_clashes(alloc, &place, reserved.as_slice(), faults)?;
    place.tag = message::EXTENSION_RANGE;
    place.how = NumberFault::ExtensionsTwice;
    let extensions = overlapping_extension_ranges(alloc, of)?;
    add_clashes(alloc, &place, extensions.as_slice(), faults)?;
    place.how = NumberFault::ExtensionsReserved;
    let in_reserved = extension_ranges_in_reserved(alloc, of)?;
    add_clashes(alloc, &place, in_reserved.as_slice(), faults)
}

// Adds a fault for each extension range of a message that has no number.
fn check_empty_ranges(
    alloc: Global,
    file: usize,
    path: &[i32],
    of: &DescriptorProto,
    faults: &mut Vec<LinkFault>,
) -> Result<(), AllocError>
    ensures { OnOk result (faults.new.items
        ≡ faults.old.items ++ empty_ranges file path.now of.now) }
{
    let tag = message::EXTENSION_RANGE;
    let extensions = Siblings { file, path, tag };
    check_empty(alloc, &extensions, of.extension_range.as_slice(), faults)
}

/// Adds what is wrong with the numbers and ranges of a message.
pub(crate) fn check_numbers(
    alloc: Global,
    file: usize,
    path: &[i32],
    of: &DescriptorProto,
    faults: &mut Vec<LinkFault>,
) -> Result<(), AllocError>
    ensures { OnOk result (faults.new.items
        ≡ faults.old.items ++ message_number_faults file path.now of.now) }
{
    check_fields(alloc, file, path, of, faults)?;
    check_empty_ranges(alloc, file, path, of, faults)?;
    check_clashing_ranges(alloc, file, path, of, faults)
}

// Adds a fault for each value and each range of an enum that clashes.
fn check_clashing_values(
    alloc: Global,
    file: usize,
    path: &[i32],
    of: &EnumDescriptorProto,
    faults: &mut Vec<LinkFault>,
) -> Result<(), AllocError>
    ensures { OnOk result (faults.new.items
        ≡ faults.old.items ++ clashing_values file path.now of.now) }
{
    let mut place = Place {
        file,
        path,
        tag: enum_::VALUE,
        at: &[enum_value::NUMBER],
        how: NumberFault::ValueReserved,
    };
    let values = values_in_reserved_ranges(alloc, of)?;
    add_clashes(alloc, &place, values.as_slice(), faults)?;
    place.tag = enum_::RESERVED_RANGE;
    place.at = &[];
    place.how = NumberFault::ValuesReservedTwice;
    let ranges = overlapping_enum_ranges(alloc, of)?;
    add_clashes(alloc, &place, ranges.as_slice(), faults)
}

// Adds a fault if an enum has no value.
fn check_has_value(
    alloc: Global,
    file: usize,
    path: &[i32],
    of: &EnumDescriptorProto,
    faults: &mut Vec<LinkFault>,
) -> Result<(), AllocError>
    ensures { OnOk result (faults.new.items ≡ faults.old.items ++ no_value file path.now of.now) }
{
    if !of.value.is_empty() {
        return Ok(());
    }
    add_fault(
        alloc,
        file,
        path,
        enum_::NAME,
        LinkFaultKind::NoValue,
        faults,
    )
}

/// Adds what is wrong with the numbers and ranges of an enum.
pub(crate) fn check_enum_numbers(
    alloc: Global,
    file: usize,
    path: &[i32],
    of: &EnumDescriptorProto,
    faults: &mut Vec<LinkFault>,
) -> Result<(), AllocError>
    ensures { OnOk result (faults.new.items
        ≡ faults.old.items ++ enum_number_faults file path.now of.now) }
{
    check_has_value(alloc, file, path, of, faults)?;
    let tag = enum_::RESERVED_RANGE;
    let reserved = Siblings { file, path, tag };
    check_empty(alloc, &reserved, of.reserved_range.as_slice(), faults)?;
    check_clashing_values(alloc, file, path, of, faults)
}

/// Adds a fault if a field has a number that is for the implementation of protocol buffers.
pub(crate) fn check_number(
    alloc: Global,
    file: usize,
    path: &[i32],
    of: &FieldDescriptorProto,
    faults: &mut Vec<LinkFault>,
) -> Result<(), AllocError>
    ensures { OnOk result (faults.new.items
        ≡ faults.old.items ++ implementation_faults file path.now of.now) }
{
    if !is_for_implementation(of) {
        return Ok(());
    }
    add_fault(
        alloc,
        file,
        path,
        field::NUMBER,
        LinkFaultKind::ForImplementation,
        faults,
    )
}
