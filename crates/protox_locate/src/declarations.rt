//! The locations of an item of a file, one kind of parts after another.

ghost use Rattle.std.specs.Prelude.{IfOk, OnOk};
ghost use Rattle.protox_places.specs.Lines.{numbers_at};
ghost use Rattle.protox_locate.specs.LocationWords.{each_at, part};
ghost use Rattle.protox_locate.specs.Locations.{item_blocks, item_enums, item_extensions, item_messages, item_services};
ghost use Rattle.protox_locate.specs.inner.Walk.{Emits, Numbers};

use crate::context::Context;
use crate::enums::enum_at;
use crate::fields::extensions_in;
use crate::messages::{locate_message, messages_in};
use crate::services::locate_service;
use protox_ast::ast::FileItem;
use protox_descriptor::tag::file::{ENUM_TYPE, EXTENSION, MESSAGE_TYPE, SERVICE};
use protox_places::lines::LineResolver;
use std::alloc::{AllocError, Global};

/// Adds the locations of a message, or of the groups in an `extend` statement. `first` is the index
/// of the first of them. Answers the index behind the last.
#[tactic(auto, using(crate::proofs::Numbered::walk))]
pub(crate) fn messages_of(
    alloc: Global,
    lines: &LineResolver,
    context: &mut Context,
    item: &FileItem,
    first: usize,
) -> Result<usize, AllocError>
    ensures siblings { IfOk result (λ next. Numbers context.old context.new MESSAGE_TYPE first next (item_messages (numbers_at lines.now) item.now)) }
{
    match item {
        FileItem::Message(ast) => {
            context.enter(MESSAGE_TYPE, first)?;
            locate_message(alloc, lines, context, ast)?;
            context.leave();
            Ok(first + 1)
        }
        FileItem::Extend(ast) => {
            messages_in(
                alloc,
                lines,
                context,
                MESSAGE_TYPE,
                ast.fields.as_slice(),
                first,
            )
        }
        FileItem::Enum(_) => Ok(first),
        FileItem::Service(_) => Ok(first),
    }
}

/// Adds the locations of an enum, in the same way.
#[tactic(auto, using(crate::proofs::Numbered::walk))]
pub(crate) fn enums_of(
    alloc: Global,
    lines: &LineResolver,
    context: &mut Context,
    item: &FileItem,
    first: usize,
) -> Result<usize, AllocError>
    ensures siblings { IfOk result (λ next. Numbers context.old context.new ENUM_TYPE first next (item_enums (numbers_at lines.now) item.now)) }
{
    match item {
        FileItem::Enum(ast) => {
            enum_at(alloc, lines, context, ENUM_TYPE, ast, first)?;
            Ok(first + 1)
        }
        FileItem::Message(_) => Ok(first),
        FileItem::Extend(_) => Ok(first),
        FileItem::Service(_) => Ok(first),
    }
}

/// Adds the locations of a service, in the same way.
#[tactic(auto, using(crate::proofs::Numbered::walk))]
pub(crate) fn services_of(
    alloc: Global,
    lines: &LineResolver,
    context: &mut Context,
    item: &FileItem,
    first: usize,
) -> Result<usize, AllocError>
    ensures siblings { IfOk result (λ next. Numbers context.old context.new SERVICE first next (item_services (numbers_at lines.now) item.now)) }
{
    match item {
        FileItem::Service(ast) => {
            context.enter(SERVICE, first)?;
            locate_service(alloc, lines, context, ast)?;
            context.leave();
            Ok(first + 1)
        }
        FileItem::Message(_) => Ok(first),
        FileItem::Enum(_) => Ok(first),
        FileItem::Extend(_) => Ok(first),
    }
}

/// Adds the location of an `extend` statement, at the path of the list of extensions.
#[tactic(auto, using(crate::proofs::Numbered::walk))]
pub(crate) fn blocks_of(
    alloc: Global,
    lines: &LineResolver,
    context: &mut Context,
    item: &FileItem,
) -> Result<(), AllocError>
    ensures { OnOk result (Emits context.old context.new (each_at (part context.old.path EXTENSION) (item_blocks (numbers_at lines.now) item.now))) }
{
    match item {
        FileItem::Extend(ast) => {
            context.add_with(alloc, lines, &[EXTENSION], &ast.span, &ast.comments)
        }
        FileItem::Message(_) => Ok(()),
        FileItem::Enum(_) => Ok(()),
        FileItem::Service(_) => Ok(()),
    }
}

/// Adds the locations of the extensions of an `extend` statement. `first` is the index of the first
/// of them. Answers the index behind the last.
#[tactic(auto, using(crate::proofs::Numbered::walk))]
pub(crate) fn extensions_of(
    alloc: Global,
    lines: &LineResolver,
    context: &mut Context,
    item: &FileItem,
    first: usize,
) -> Result<usize, AllocError>
    ensures siblings { IfOk result (λ next. Numbers context.old context.new EXTENSION first next (item_extensions (numbers_at lines.now) item.now)) }
{
    match item {
        FileItem::Extend(ast) => { extensions_in(alloc, lines, context, EXTENSION, ast, first) }
        FileItem::Message(_) => Ok(first),
        FileItem::Enum(_) => Ok(first),
        FileItem::Service(_) => Ok(first),
    }
}
