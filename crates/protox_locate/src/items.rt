//! The locations of what is in a message, without its nested messages.

ghost use Rattle.std.specs.Prelude.{◌≤◌, flat_map, map, IfOk, OnOk};
ghost use Rattle.protox_ast.specs.Steps.{of_item, of_oneof};
ghost use Rattle.protox_places.specs.Lines.{numbers_at};
ghost use Rattle.protox_locate.specs.LocationWords.{each_at, nth, part};
ghost use Rattle.protox_locate.specs.Locations.{all_of, location_steps};
ghost use Rattle.protox_locate.specs.inner.Walk.{Emits, Numbers};

use crate::context::Context;
use crate::enums::enum_at;
use crate::fields::{extensions_in, fields_in, locate_field};
use crate::options::locate_options;
use protox_ast::ast::{MessageItem, Oneof};
use protox_descriptor::tag::message::{ENUM_TYPE, EXTENSION, FIELD, ONEOF_DECL};
use protox_descriptor::tag::oneof as oneof_tag;
use protox_places::lines::LineResolver;
use std::alloc::{AllocError, Global};

/// Adds the locations of the fields, those of oneofs among them.
#[tactic(auto, using(crate::proofs::Numbered::walk))]
pub(crate) fn locate_fields(
    alloc: Global,
    lines: &LineResolver,
    context: &mut Context,
    items: &[MessageItem],
) -> Result<(), AllocError>
    ensures { OnOk result (Emits context.old context.new (all_of (λ i. i.fields) context.old.path FIELD (map (of_item (location_steps (numbers_at lines.now))) items.now))) }
{
    let mut next: usize = 0;
    for item in items {
        next = fields_of(alloc, lines, context, item, next)?;
    }
    Ok(())
}

#[tactic(auto, using(crate::proofs::Numbered::walk))]
fn fields_of(
    alloc: Global,
    lines: &LineResolver,
    context: &mut Context,
    item: &MessageItem,
    first: usize,
) -> Result<usize, AllocError>
    ensures siblings { IfOk result (λ next. Numbers context.old context.new FIELD first next (of_item (location_steps (numbers_at lines.now)) item.now).fields) }
{
    match item {
        MessageItem::Field(field) => {
            locate_field(alloc, lines, context, field, first)?;
            Ok(first + 1)
        }
        MessageItem::Oneof(oneof) => {
            fields_in(alloc, lines, context, oneof.fields.as_slice(), first)
        }
        MessageItem::Message(_) => Ok(first),
        MessageItem::Enum(_) => Ok(first),
        MessageItem::Extend(_) => Ok(first),
    }
}

/// Adds the locations of the enums.
#[tactic(auto, using(crate::proofs::Numbered::walk))]
pub(crate) fn locate_enums(
    alloc: Global,
    lines: &LineResolver,
    context: &mut Context,
    items: &[MessageItem],
) -> Result<(), AllocError>
    ensures { OnOk result (Emits context.old context.new (all_of (λ i. i.enums) context.old.path ENUM_TYPE (map (of_item (location_steps (numbers_at lines.now))) items.now))) }
{
    let mut next: usize = 0;
    for item in items {
        next = enums_of(alloc, lines, context, item, next)?;
    }
    Ok(())
}

#[tactic(auto, using(crate::proofs::Numbered::walk))]
fn enums_of(
    alloc: Global,
    lines: &LineResolver,
    context: &mut Context,
    item: &MessageItem,
    first: usize,
) -> Result<usize, AllocError>
    ensures siblings { IfOk result (λ next. Numbers context.old context.new ENUM_TYPE first next (of_item (location_steps (numbers_at lines.now)) item.now).enums) }
{
    match item {
        MessageItem::Enum(ast) => {
            enum_at(alloc, lines, context, ENUM_TYPE, ast, first)?;
            Ok(first + 1)
        }
        MessageItem::Field(_) => Ok(first),
        MessageItem::Oneof(_) => Ok(first),
        MessageItem::Message(_) => Ok(first),
        MessageItem::Extend(_) => Ok(first),
    }
}

/// Adds the locations of the `extend` statements, all at the path of the list of extensions.
#[tactic(auto, using(crate::proofs::Numbered::walk))]
pub(crate) fn locate_blocks(
    alloc: Global,
    lines: &LineResolver,
    context: &mut Context,
    items: &[MessageItem],
) -> Result<(), AllocError>
    ensures { OnOk result (Emits context.old context.new (each_at (part context.old.path EXTENSION) (flat_map (λ i. i.blocks) (map (of_item (location_steps (numbers_at lines.now))) items.now)))) }
{
    for item in items {
        if let MessageItem::Extend(ast) = item {
            context.add_with(alloc, lines, &[EXTENSION], &ast.span, &ast.comments)?;
        }
    }
    Ok(())
}

/// Adds the locations of the extensions of all `extend` statements.
#[tactic(auto, using(crate::proofs::Numbered::walk))]
pub(crate) fn locate_extensions(
    alloc: Global,
    lines: &LineResolver,
    context: &mut Context,
    items: &[MessageItem],
) -> Result<(), AllocError>
    ensures { OnOk result (Emits context.old context.new (all_of (λ i. i.extensions) context.old.path EXTENSION (map (of_item (location_steps (numbers_at lines.now))) items.now))) }
{
    let mut next: usize = 0;
    for item in items {
        next = extensions_of(alloc, lines, context, item, next)?;
    }
    Ok(())
}

#[tactic(auto, using(crate::proofs::Numbered::walk))]
fn extensions_of(
    alloc: Global,
    lines: &LineResolver,
    context: &mut Context,
    item: &MessageItem,
    first: usize,
) -> Result<usize, AllocError>
    ensures siblings { IfOk result (λ next. Numbers context.old context.new EXTENSION first next (of_item (location_steps (numbers_at lines.now)) item.now).extensions) }
{
    match item {
        MessageItem::Extend(ast) => { extensions_in(alloc, lines, context, EXTENSION, ast, first) }
        MessageItem::Field(_) => Ok(first),
        MessageItem::Oneof(_) => Ok(first),
        MessageItem::Message(_) => Ok(first),
        MessageItem::Enum(_) => Ok(first),
    }
}

/// Adds the locations of the oneofs.
#[tactic(auto, using(crate::proofs::Numbered::walk))]
pub(crate) fn locate_oneofs(
    alloc: Global,
    lines: &LineResolver,
    context: &mut Context,
    items: &[MessageItem],
) -> Result<(), AllocError>
    ensures { OnOk result (Emits context.old context.new (all_of (λ i. i.oneofs) context.old.path ONEOF_DECL (map (of_item (location_steps (numbers_at lines.now))) items.now))) }
{
    let mut next: usize = 0;
    for item in items {
        if let MessageItem::Oneof(ast) = item {
            locate_oneof(alloc, lines, context, ast, next)?;
            next += 1;
        }
    }
    Ok(())
}

fn locate_oneof(
    alloc: Global,
    lines: &LineResolver,
    context: &mut Context,
    ast: &Oneof,
    at: usize,
) -> Result<(), AllocError>
    ensures located { OnOk result (Emits context.old context.new ((of_oneof (location_steps (numbers_at lines.now)) ast.now).own (nth context.old.path ONEOF_DECL at))) }
    ensures counted { OnOk result (at ≤ 2147483647) }
{
    context.enter(ONEOF_DECL, at)?;
    context.add_with(alloc, lines, &[], &ast.span, &ast.comments)?;
    context.add(alloc, lines, &[oneof_tag::NAME], &ast.name.span)?;
    locate_options(
        alloc,
        lines,
        context,
        oneof_tag::OPTIONS,
        ast.options.as_slice(),
    )?;
    context.leave();
    Ok(())
}
