//! The checks of numbers of fields and enum values, and of ranges of them.

ghost use Rattle.std.specs.Prelude.{◌≡◌, ◌++◌, ◌∷◌, [], OnOk};
ghost use Rattle.std.specs.List.{flat_map};
ghost use Rattle.protox_ast.specs.FieldNumbers.{in_message_range};
ghost use Rattle.protox_ast.specs.Options.{listed};
ghost use Rattle.protox_ast.specs.Ranges.{kind_ranges};
ghost use Rattle.protox_ast.specs.Values.{is_in, signed_32};
ghost use Rattle.protox_checks.specs.Checks.{message_number_faults, enum_number_faults};
ghost use Rattle.protox_checks.specs.Nodes.{AMessageNumber, end_nodes, extensions_nodes, option_nodes, range_nodes, reserved_nodes};
ghost use Rattle.protox_checks.specs.inner.Walk.{Adds, number_node};

use crate::found::{Found, copied};
use crate::options::check_listed;
use protox_ast::ast::{Extensions, Int, Reserved, ReservedKind, ReservedRange, ReservedRangeEnd};
use protox_fault::error::ParseErrorKind;
use std::alloc::AllocError;

/// Whether a range is of field numbers or of enum numbers.
#[derive(Clone, Copy)]
pub(crate) enum Numbering {
    OfFields,
    OfEnumValues,
}

fn is_message_number(number: &Int) -> bool
    ensures { result ≡ in_message_range number.now }
{
    !number.negative && number.value > 0 && number.value < 536870912
}

fn is_enum_number(number: &Int) -> bool
    ensures { result ≡ is_in signed_32 number.now }
{
    number.as_i32().is_some()
}

/// Checks that a field number is 1 to 536870911.
pub(crate) fn check_message_number(number: &Int, errors: &mut Found) -> Result<(), AllocError>
    ensures { OnOk result (errors.new ≡ errors.old ++ message_number_faults number.now) }
{
    if is_message_number(number) {
        return Ok(());
    }
    errors.add(ParseErrorKind::InvalidMessageNumber {
        span: copied(&number.span),
    })
}

/// Checks that an enum number fits 32 bits.
pub(crate) fn check_enum_number(number: &Int, errors: &mut Found) -> Result<(), AllocError>
    ensures { OnOk result (errors.new ≡ errors.old ++ enum_number_faults number.now) }
{
    if is_enum_number(number) {
        return Ok(());
    }
    errors.add(ParseErrorKind::InvalidEnumNumber {
        span: copied(&number.span),
    })
}

fn check_bound(numbering: Numbering, number: &Int, errors: &mut Found) -> Result<(), AllocError>
    ensures { OnOk result (Adds errors.old errors.new (number_node numbering number.now ∷ [])) }
{
    match numbering {
        Numbering::OfFields => check_message_number(number, errors),
        Numbering::OfEnumValues => check_enum_number(number, errors),
    }
}

fn check_end(
    numbering: Numbering,
    end: &ReservedRangeEnd,
    errors: &mut Found,
) -> Result<(), AllocError>
    ensures { OnOk result (Adds errors.old errors.new (end_nodes (number_node numbering) end.now)) }
{
    match end {
        ReservedRangeEnd::None => Ok(()),
        ReservedRangeEnd::Int(number) => check_bound(numbering, number, errors),
        ReservedRangeEnd::Max(_) => Ok(()),
    }
}

fn check_range(
    numbering: Numbering,
    range: &ReservedRange,
    errors: &mut Found,
) -> Result<(), AllocError>
    ensures { OnOk result (Adds errors.old errors.new (range_nodes (number_node numbering) range.now)) }
{
    check_bound(numbering, &range.start, errors)?;
    check_end(numbering, &range.end, errors)
}

fn check_ranges(
    numbering: Numbering,
    ranges: &[ReservedRange],
    errors: &mut Found,
) -> Result<(), AllocError>
    ensures { OnOk result (Adds errors.old errors.new (flat_map (range_nodes (number_node numbering)) ranges.now)) }
{
    for range in ranges {
        check_range(numbering, range, errors)?;
    }
    Ok(())
}

fn check_kind_ranges(
    numbering: Numbering,
    kind: &ReservedKind,
    errors: &mut Found,
) -> Result<(), AllocError>
    ensures { OnOk result (Adds errors.old errors.new (flat_map (range_nodes (number_node numbering)) (kind_ranges kind.now))) }
{
    match kind {
        ReservedKind::Ranges(ranges) => check_ranges(numbering, ranges.as_slice(), errors),
        ReservedKind::Names(_) => Ok(()),
    }
}

/// Checks the bounds of a reserved statement.
pub(crate) fn check_reserved(
    numbering: Numbering,
    statements: &[Reserved],
    errors: &mut Found,
) -> Result<(), AllocError>
    ensures { OnOk result (Adds errors.old errors.new (reserved_nodes (number_node numbering) statements.now)) }
{
    for statement in statements {
        check_kind_ranges(numbering, &statement.kind, errors)?;
    }
    Ok(())
}

fn check_extension_range(
    statement: &Extensions,
    range: &ReservedRange,
    errors: &mut Found,
) -> Result<(), AllocError>
    ensures { OnOk result (Adds errors.old errors.new (option_nodes (listed statement.now.options) ++ range_nodes AMessageNumber range.now)) }
{
    check_listed(&statement.options, errors)?;
    check_range(Numbering::OfFields, range, errors)
}

fn check_statement(statement: &Extensions, errors: &mut Found) -> Result<(), AllocError>
    ensures { OnOk result (Adds errors.old errors.new (extensions_nodes statement.now)) }
{
    for range in statement.ranges.as_slice() {
        check_extension_range(statement, range, errors)?;
    }
    Ok(())
}

/// Checks extensions statements: for each range the options, and then the bounds.
pub(crate) fn check_extensions(
    statements: &[Extensions],
    errors: &mut Found,
) -> Result<(), AllocError>
    ensures { OnOk result (Adds errors.old errors.new (flat_map extensions_nodes statements.now)) }
{
    for statement in statements {
        check_statement(statement, errors)?;
    }
    Ok(())
}
