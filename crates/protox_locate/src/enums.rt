//! The locations of enums.

ghost use Rattle.std.specs.Prelude.{◌≤◌, map, OnOk};
ghost use Rattle.protox_locate.specs.EnumLocations.{enum_locations, enum_value_locations};
ghost use Rattle.protox_places.specs.Lines.{numbers_at};
ghost use Rattle.protox_locate.specs.LocationWords.{nth, siblings_at};
ghost use Rattle.protox_locate.specs.inner.Walk.{Emits};

use crate::context::Context;
use crate::options::{locate_list, locate_options};
use crate::ranges::{locate_names, locate_ranges};
use protox_ast::ast::{Enum, EnumValue};
use protox_descriptor::tag::enum_::{NAME, OPTIONS, RESERVED_NAME, RESERVED_RANGE, VALUE};
use protox_descriptor::tag::enum_value as value_tag;
use protox_places::lines::LineResolver;
use std::alloc::{AllocError, Global};

/// Adds the locations of an enum. Its path is the current one with this field number and index.
pub(crate) fn enum_at(
    alloc: Global,
    lines: &LineResolver,
    context: &mut Context,
    tag: i32,
    ast: &Enum,
    at: usize,
) -> Result<(), AllocError>
    ensures located { OnOk result (Emits context.old context.new (enum_locations (numbers_at lines.now) ast.now (nth context.old.path tag at))) }
    ensures counted { OnOk result (at ≤ 2147483647) }
{
    context.enter(tag, at)?;
    locate_enum(alloc, lines, context, ast)?;
    context.leave();
    Ok(())
}

fn locate_enum(
    alloc: Global,
    lines: &LineResolver,
    context: &mut Context,
    ast: &Enum,
) -> Result<(), AllocError>
    ensures { OnOk result (Emits context.old context.new (enum_locations (numbers_at lines.now) ast.now context.old.path)) }
{
    context.add_with(alloc, lines, &[], &ast.span, &ast.comments)?;
    context.add(alloc, lines, &[NAME], &ast.name.span)?;
    locate_values(alloc, lines, context, ast.values.as_slice())?;
    locate_options(alloc, lines, context, OPTIONS, ast.options.as_slice())?;
    locate_ranges(
        alloc,
        lines,
        context,
        RESERVED_RANGE,
        ast.reserved.as_slice(),
    )?;
    locate_names(
        alloc,
        lines,
        context,
        RESERVED_NAME,
        ast.reserved.as_slice(),
    )
}

#[tactic(auto, using(crate::proofs::Numbered::walk))]
fn locate_values(
    alloc: Global,
    lines: &LineResolver,
    context: &mut Context,
    values: &[EnumValue],
) -> Result<(), AllocError>
    ensures { OnOk result (Emits context.old context.new (siblings_at context.old.path VALUE (map (enum_value_locations (numbers_at lines.now)) values.now))) }
{
    let mut next: usize = 0;
    for value in values {
        context.enter(VALUE, next)?;
        locate_value(alloc, lines, context, value)?;
        context.leave();
        next += 1;
    }
    Ok(())
}

fn locate_value(
    alloc: Global,
    lines: &LineResolver,
    context: &mut Context,
    ast: &EnumValue,
) -> Result<(), AllocError>
    ensures { OnOk result (Emits context.old context.new (enum_value_locations (numbers_at lines.now) ast.now context.old.path)) }
{
    context.add_with(alloc, lines, &[], &ast.span, &ast.comments)?;
    context.add(alloc, lines, &[value_tag::NAME], &ast.name.span)?;
    context.add(alloc, lines, &[value_tag::NUMBER], &ast.number.span)?;
    locate_list(alloc, lines, context, value_tag::OPTIONS, &ast.options)
}
