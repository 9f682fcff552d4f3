//! The numbers and names that messages and enums reserve.

ghost use Rattle.std.specs.Prelude.{◌≡◌, ◌++◌, ◌+ℤ◌, ◌≤ℤ◌, pos, map, option_map, Some, IfOk, OnOk};
ghost use Rattle.std.specs.List.{flat_map};
ghost use Rattle.protox_ast.specs.FieldNumbers.{number_of};
ghost use Rattle.protox_ast.specs.Ranges.{kind_ranges, kind_names, reserved_ranges, reserved_texts, says_true, is_message_set, greatest_number, last_number, end_number, reserved_range, extension_range, extension_protos, enum_number, enum_reserved_range};
ghost use Rattle.protox_ast.specs.declared.ast.Ident as ident_type;

use crate::options::extension_range_options;
use crate::values::number_in_signed_32;
use protox_ast::ast;
use protox_ast::ast::{Extensions, Ident, Int, Reserved, ReservedKind, ReservedRangeEnd};
use protox_descriptor::descriptor::descriptor_proto::{ExtensionRange, ReservedRange};
use protox_descriptor::descriptor::enum_descriptor_proto::EnumReservedRange;
use protox_descriptor::values::{Items, Text};
use std::alloc::{AllocError, Global};

/// The number of a field, if it is 1 to 536870911.
pub(crate) fn number_of(int: &Int) -> Option<i32>
    ensures { result ≡ number_of int.now }
{
    if !int.negative && int.value > 0 && int.value < 536870912 {
        Some(int.value as i32)
    } else {
        None
    }
}

// The number plus 1.
fn number_after(int: &Int) -> Option<i32>
    ensures { result ≡ option_map (λ number. number +ℤ pos 1) (number_of int.now) }
{
    if !int.negative && int.value > 0 && int.value < 536870912 {
        Some(int.value as i32 + 1)
    } else {
        None
    }
}

fn says_true(statement: &ast::Option) -> bool
    ensures { result ≡ says_true (Some statement.now) }
{
    match statement.body.value.as_bool() {
        None => false,
        Some(truth) => truth,
    }
}

fn is_message_set(statements: &[ast::Option]) -> bool
    ensures { result ≡ is_message_set statements.now }
{
    for option in statements {
        if option.body.has_name("message_set_wire_format") {
            return says_true(option);
        }
    }
    false
}

/// The number that `max` stands for in a message with these options. It is greater for a message
/// set.
pub(crate) fn greatest_number(statements: &[ast::Option]) -> i32
    ensures value { result ≡ greatest_number statements.now }
    ensures bound { result ≤ℤ pos 2147483646 }
{
    if is_message_set(statements) {
        2147483646
    } else {
        536870911
    }
}

// The end of a range: one more than its last number.
fn end_number(greatest: i32, range: &ast::ReservedRange) -> Option<i32>
    requires { greatest ≤ℤ pos 2147483646 }
    ensures { result ≡ end_number greatest range.now }
{
    match &range.end {
        ReservedRangeEnd::None => number_after(&range.start),
        ReservedRangeEnd::Int(int) => number_after(int),
        ReservedRangeEnd::Max(_) => Some(greatest + 1),
    }
}

fn reserved_range(greatest: i32, range: &ast::ReservedRange) -> ReservedRange
    requires { greatest ≤ℤ pos 2147483646 }
    ensures { result ≡ reserved_range greatest range.now }
{
    ReservedRange {
        start: number_of(&range.start),
        end: end_number(greatest, range),
    }
}

fn push_reserved_ranges(
    greatest: i32,
    ranges: &[ast::ReservedRange],
    found: &mut Items<ReservedRange>,
) -> Result<(), AllocError>
    requires { greatest ≤ℤ pos 2147483646 }
    ensures { OnOk result (found.new ≡ found.old ++ map (reserved_range greatest) ranges.now) }
{
    for range in ranges {
        found.push(reserved_range(greatest, range))?;
    }
    Ok(())
}

fn push_reserved(
    greatest: i32,
    kind: &ReservedKind,
    found: &mut Items<ReservedRange>,
) -> Result<(), AllocError>
    requires { greatest ≤ℤ pos 2147483646 }
    ensures { OnOk result (found.new ≡ found.old ++ map (reserved_range greatest) (kind_ranges kind.now)) }
{
    match kind {
        ReservedKind::Ranges(ranges) => push_reserved_ranges(greatest, ranges.as_slice(), found),
        ReservedKind::Names(_) => Ok(()),
    }
}

/// The ranges of numbers that a message reserves.
pub(crate) fn reserved_protos(
    alloc: Global,
    greatest: i32,
    statements: &[Reserved],
) -> Result<Items<ReservedRange>, AllocError>
    requires { greatest ≤ℤ pos 2147483646 }
    ensures { IfOk result (λ found. found ≡ map (reserved_range greatest) (reserved_ranges statements.now)) }
{
    let mut found = Items::new(alloc);
    for statement in statements {
        push_reserved(greatest, &statement.kind, &mut found)?;
    }
    Ok(found)
}

fn push_texts(alloc: Global, names: &[Ident], found: &mut Items<Text>) -> Result<(), AllocError>
    ensures { OnOk result (found.new ≡ found.old ++ map (λ (name : ident_type.Ident). name.value) names.now) }
{
    for name in names {
        found.push(Text::copy(alloc, name.value.as_str())?)?;
    }
    Ok(())
}

fn push_names(alloc: Global, kind: &ReservedKind, found: &mut Items<Text>) -> Result<(), AllocError>
    ensures { OnOk result (found.new ≡ found.old ++ map (λ (name : ident_type.Ident). name.value) (kind_names kind.now)) }
{
    match kind {
        ReservedKind::Ranges(_) => Ok(()),
        ReservedKind::Names(names) => push_texts(alloc, names.as_slice(), found),
    }
}

/// The names that a message or an enum reserves.
pub(crate) fn reserved_texts(
    alloc: Global,
    statements: &[Reserved],
) -> Result<Items<Text>, AllocError>
    ensures { IfOk result (λ found. found ≡ reserved_texts statements.now) }
{
    let mut found = Items::new(alloc);
    for statement in statements {
        push_names(alloc, &statement.kind, &mut found)?;
    }
    Ok(found)
}

fn extension_range(
    alloc: Global,
    greatest: i32,
    statement: &Extensions,
    range: &ast::ReservedRange,
) -> Result<ExtensionRange, AllocError>
    requires { greatest ≤ℤ pos 2147483646 }
    ensures { IfOk result (λ made. made ≡ extension_range greatest statement.now range.now) }
{
    let options = extension_range_options(alloc, &statement.options)?;
    Ok(ExtensionRange {
        start: number_of(&range.start),
        end: end_number(greatest, range),
        options,
    })
}

fn push_extension_ranges(
    alloc: Global,
    greatest: i32,
    statement: &Extensions,
    found: &mut Items<ExtensionRange>,
) -> Result<(), AllocError>
    requires { greatest ≤ℤ pos 2147483646 }
    ensures { OnOk result (found.new ≡ found.old ++ map (extension_range greatest statement.now) statement.now.ranges) }
{
    for range in statement.ranges.as_slice() {
        found.push(extension_range(alloc, greatest, statement, range)?)?;
    }
    Ok(())
}

/// The ranges of extension numbers of a message.
pub(crate) fn extension_protos(
    alloc: Global,
    greatest: i32,
    statements: &[Extensions],
) -> Result<Items<ExtensionRange>, AllocError>
    requires { greatest ≤ℤ pos 2147483646 }
    ensures { IfOk result (λ found. found ≡ extension_protos greatest statements.now) }
{
    let mut found = Items::new(alloc);
    for statement in statements {
        push_extension_ranges(alloc, greatest, statement, &mut found)?;
    }
    Ok(found)
}

/// The number of an enum's value.
pub(crate) fn enum_number(int: &Int) -> Option<i32>
    ensures { result ≡ enum_number int.now }
{
    number_in_signed_32(int)
}

// The end of a range in an enum: its last number.
fn enum_end(range: &ast::ReservedRange) -> Option<i32>
    ensures { result ≡ last_number enum_number (pos 2147483647) range.now.start range.now.end }
{
    match &range.end {
        ReservedRangeEnd::None => enum_number(&range.start),
        ReservedRangeEnd::Int(int) => enum_number(int),
        ReservedRangeEnd::Max(_) => Some(2147483647),
    }
}

fn enum_reserved_range(range: &ast::ReservedRange) -> EnumReservedRange
    ensures { result ≡ enum_reserved_range range.now }
{
    EnumReservedRange {
        start: enum_number(&range.start),
        end: enum_end(range),
    }
}

fn push_enum_ranges(
    ranges: &[ast::ReservedRange],
    found: &mut Items<EnumReservedRange>,
) -> Result<(), AllocError>
    ensures { OnOk result (found.new ≡ found.old ++ map enum_reserved_range ranges.now) }
{
    for range in ranges {
        found.push(enum_reserved_range(range))?;
    }
    Ok(())
}

fn push_enum_reserved(
    kind: &ReservedKind,
    found: &mut Items<EnumReservedRange>,
) -> Result<(), AllocError>
    ensures { OnOk result (found.new ≡ found.old ++ map enum_reserved_range (kind_ranges kind.now)) }
{
    match kind {
        ReservedKind::Ranges(ranges) => push_enum_ranges(ranges.as_slice(), found),
        ReservedKind::Names(_) => Ok(()),
    }
}

/// The ranges of numbers that an enum reserves.
pub(crate) fn enum_reserved_protos(
    alloc: Global,
    statements: &[Reserved],
) -> Result<Items<EnumReservedRange>, AllocError>
    ensures { IfOk result (λ found. found ≡ map enum_reserved_range (reserved_ranges statements.now)) }
{
    let mut found = Items::new(alloc);
    for statement in statements {
        push_enum_reserved(&statement.kind, &mut found)?;
    }
    Ok(found)
}
