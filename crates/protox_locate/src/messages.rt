//! The locations of messages, one kind of part after another.

ghost use Rattle.std.specs.Prelude.{map, IfOk, OnOk};
ghost use Rattle.protox_ast.specs.Steps.{of_body, of_field, of_item, of_message};
ghost use Rattle.protox_ast.specs.declared.ast.MessageBody.{out-MessageBody};
ghost use Rattle.protox_places.specs.Lines.{numbers_at};
ghost use Rattle.protox_locate.specs.Locations.{all_of, from_blocks, location_steps, messages_of as all_messages};
ghost use Rattle.protox_locate.specs.inner.Walk.{Emits, Numbers};

use crate::context::{Context, next_index};
use crate::items::{locate_blocks, locate_enums, locate_extensions, locate_fields, locate_oneofs};
use crate::options::locate_options;
use crate::ranges::{locate_extension_ranges, locate_names, locate_ranges};
use protox_ast::ast::{Field, FieldKind, Message, MessageBody, MessageItem};
use protox_descriptor::tag::message::{NAME, NESTED_TYPE, OPTIONS, RESERVED_NAME, RESERVED_RANGE};
use protox_places::lines::LineResolver;
use std::alloc::{AllocError, Global};

/// Adds the locations of a message. Its path is the current one.
#[cycle(messages)]
pub(crate) fn locate_message(
    alloc: Global,
    lines: &LineResolver,
    context: &mut Context,
    ast: &Message,
) -> Result<(), AllocError>
    ensures { OnOk result (Emits context.old context.new (of_message (location_steps (numbers_at lines.now)) ast.now context.old.path)) }
{
    context.add_with(alloc, lines, &[], &ast.span, &ast.comments)?;
    context.add(alloc, lines, &[NAME], &ast.name.span)?;
    locate_body(alloc, lines, context, &ast.body)
}

#[cycle(messages)]
fn locate_body(
    alloc: Global,
    lines: &LineResolver,
    context: &mut Context,
    ast: &MessageBody,
) -> Result<(), AllocError>
    ensures { OnOk result (Emits context.old context.new (of_body (location_steps (numbers_at lines.now)) ast.now context.old.path)) }
{
    let items = ast.items.as_slice();
    locate_fields(alloc, lines, context, items)?;
    locate_messages(alloc, lines, context, items)?;
    locate_enums(alloc, lines, context, items)?;
    locate_extension_ranges(alloc, lines, context, ast.extensions.as_slice())?;
    locate_from_blocks(alloc, lines, context, ast)
}

// Adds the locations in a body, from the `extend` statements on.
fn locate_from_blocks(
    alloc: Global,
    lines: &LineResolver,
    context: &mut Context,
    ast: &MessageBody,
) -> Result<(), AllocError>
    ensures { OnOk result (Emits context.old context.new (from_blocks (numbers_at lines.now) context.old.path (map (of_item (location_steps (numbers_at lines.now))) (out-MessageBody ast.now).items) (out-MessageBody ast.now).options (out-MessageBody ast.now).reserved)) }
{
    let items = ast.items.as_slice();
    locate_blocks(alloc, lines, context, items)?;
    locate_extensions(alloc, lines, context, items)?;
    locate_options(alloc, lines, context, OPTIONS, ast.options.as_slice())?;
    locate_oneofs(alloc, lines, context, items)?;
    locate_ranges(
        alloc,
        lines,
        context,
        RESERVED_RANGE,
        ast.reserved.as_slice(),
    )?;
    locate_names(
        alloc,
        lines,
        context,
        RESERVED_NAME,
        ast.reserved.as_slice(),
    )
}

// Adds the locations of the nested messages, with those of groups and of map entries.
#[cycle(messages)]
#[tactic(auto, using(crate::proofs::Numbered::walk))]
fn locate_messages(
    alloc: Global,
    lines: &LineResolver,
    context: &mut Context,
    items: &[MessageItem],
) -> Result<(), AllocError>
    ensures { OnOk result (Emits context.old context.new (all_of (λ i. i.messages) context.old.path NESTED_TYPE (map (of_item (location_steps (numbers_at lines.now))) items.now))) }
{
    let mut next: usize = 0;
    for item in items {
        next = messages_of(alloc, lines, context, item, next)?;
    }
    Ok(())
}

#[cycle(messages)]
#[tactic(auto, using(crate::proofs::Numbered::walk))]
fn messages_of(
    alloc: Global,
    lines: &LineResolver,
    context: &mut Context,
    item: &MessageItem,
    first: usize,
) -> Result<usize, AllocError>
    ensures siblings { IfOk result (λ next. Numbers context.old context.new NESTED_TYPE first next (of_item (location_steps (numbers_at lines.now)) item.now).messages) }
{
    match item {
        MessageItem::Field(ast) => message_of(alloc, lines, context, NESTED_TYPE, ast, first),
        MessageItem::Message(ast) => {
            context.enter(NESTED_TYPE, first)?;
            locate_message(alloc, lines, context, ast)?;
            context.leave();
            Ok(first + 1)
        }
        MessageItem::Extend(ast) => {
            messages_in(
                alloc,
                lines,
                context,
                NESTED_TYPE,
                ast.fields.as_slice(),
                first,
            )
        }
        MessageItem::Oneof(ast) => {
            messages_in(
                alloc,
                lines,
                context,
                NESTED_TYPE,
                ast.fields.as_slice(),
                first,
            )
        }
        MessageItem::Enum(_) => Ok(first),
    }
}

/// Adds the locations of the messages made for fields. The first has the index `first`. Answers the
/// index behind the last.
#[cycle(messages)]
#[tactic(auto, using(crate::proofs::Numbered::walk))]
pub(crate) fn messages_in(
    alloc: Global,
    lines: &LineResolver,
    context: &mut Context,
    tag: i32,
    fields: &[Field],
    first: usize,
) -> Result<usize, AllocError>
    ensures siblings { IfOk result (λ next. Numbers context.old context.new tag first next (all_messages (map (of_field (location_steps (numbers_at lines.now))) fields.now))) }
{
    let mut next = first;
    for field in fields {
        next = message_of(alloc, lines, context, tag, field, next)?;
    }
    Ok(next)
}

#[cycle(messages)]
#[tactic(auto, using(crate::proofs::Numbered::walk))]
fn message_of(
    alloc: Global,
    lines: &LineResolver,
    context: &mut Context,
    tag: i32,
    ast: &Field,
    first: usize,
) -> Result<usize, AllocError>
    ensures siblings { IfOk result (λ next. Numbers context.old context.new tag first next (of_field (location_steps (numbers_at lines.now)) ast.now).messages) }
{
    match &ast.kind {
        FieldKind::Normal { .. } => Ok(first),
        FieldKind::Map { .. } => next_index(first),
        FieldKind::Group { body, .. } => {
            context.enter(tag, first)?;
            context.add_with(alloc, lines, &[], &ast.span, &ast.comments)?;
            context.add(alloc, lines, &[NAME], &ast.name.span)?;
            locate_body(alloc, lines, context, body.get())?;
            context.leave();
            Ok(first + 1)
        }
    }
}
