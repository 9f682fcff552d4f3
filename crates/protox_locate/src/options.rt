//! The locations of options.

ghost use Rattle.std.specs.Prelude.{◌∷◌, map, OnOk};
ghost use Rattle.protox_ast.specs.Options.{listed};
ghost use Rattle.protox_places.specs.Lines.{numbers_at};
ghost use Rattle.protox_locate.specs.LocationWords.{bare, each_at, option_body, option_list, option_place, option_statement, option_statements, part, siblings_at};
ghost use Rattle.protox_locate.specs.inner.Walk.{Emits};

use crate::context::{Context, index_number};
use protox_ast::ast::{Boxed, Opt, Option as OptionStatement, OptionBody, OptionList};
use protox_descriptor::tag::UNINTERPRETED_OPTION;
use protox_places::lines::LineResolver;
use std::alloc::{AllocError, Global};

/// Adds the locations of option statements. Their path is the current one and then the field
/// number.
pub(crate) fn locate_options(
    alloc: Global,
    lines: &LineResolver,
    context: &mut Context,
    tag: i32,
    statements: &[OptionStatement],
) -> Result<(), AllocError>
    ensures { OnOk result (Emits context.old context.new (option_statements (numbers_at lines.now) (part context.old.path tag) statements.now)) }
{
    add_statements(alloc, lines, context, tag, statements)?;
    context.enter_part(tag)?;
    number_statements(alloc, lines, context, statements)?;
    context.leave_part();
    Ok(())
}

#[tactic(auto, using(crate::proofs::Numbered::walk))]
fn add_statements(
    alloc: Global,
    lines: &LineResolver,
    context: &mut Context,
    tag: i32,
    statements: &[OptionStatement],
) -> Result<(), AllocError>
    ensures { OnOk result (Emits context.old context.new (each_at (part context.old.path tag) (map (option_place (numbers_at lines.now)) statements.now))) }
{
    for statement in statements {
        context.add(alloc, lines, &[tag], &statement.span)?;
    }
    Ok(())
}

#[tactic(auto, using(crate::proofs::Numbered::walk))]
fn number_statements(
    alloc: Global,
    lines: &LineResolver,
    context: &mut Context,
    statements: &[OptionStatement],
) -> Result<(), AllocError>
    ensures { OnOk result (Emits context.old context.new (siblings_at context.old.path UNINTERPRETED_OPTION (map (option_statement (numbers_at lines.now)) statements.now))) }
{
    let mut next: usize = 0;
    for statement in statements {
        let tags = [UNINTERPRETED_OPTION, index_number(next)?];
        context.add_with(alloc, lines, &tags, &statement.span, &statement.comments)?;
        next += 1;
    }
    Ok(())
}

/// Adds the locations of options in brackets and of the brackets, if there are any. The path of the
/// list is the current one and then the field number.
pub(crate) fn locate_list(
    alloc: Global,
    lines: &LineResolver,
    context: &mut Context,
    tag: i32,
    list: &Opt<Boxed<OptionList>>,
) -> Result<(), AllocError>
    ensures { OnOk result (Emits context.old context.new (option_list (numbers_at lines.now) (part context.old.path tag) list.now (listed list.now))) }
{
    match list {
        None => Ok(()),
        Some(list) => locate_brackets(alloc, lines, context, tag, list.get()),
    }
}

fn locate_brackets(
    alloc: Global,
    lines: &LineResolver,
    context: &mut Context,
    tag: i32,
    list: &OptionList,
) -> Result<(), AllocError>
    ensures { OnOk result (Emits context.old context.new (bare (numbers_at lines.now) (part context.old.path tag) list.now.span ∷ siblings_at (part context.old.path tag) UNINTERPRETED_OPTION (map (option_body (numbers_at lines.now)) list.now.options))) }
{
    context.enter_part(tag)?;
    context.add(alloc, lines, &[], &list.span)?;
    number_bodies(alloc, lines, context, list.options.as_slice())?;
    context.leave_part();
    Ok(())
}

#[tactic(auto, using(crate::proofs::Numbered::walk))]
fn number_bodies(
    alloc: Global,
    lines: &LineResolver,
    context: &mut Context,
    bodies: &[OptionBody],
) -> Result<(), AllocError>
    ensures { OnOk result (Emits context.old context.new (siblings_at context.old.path UNINTERPRETED_OPTION (map (option_body (numbers_at lines.now)) bodies.now))) }
{
    let mut next: usize = 0;
    for body in bodies {
        let tags = [UNINTERPRETED_OPTION, index_number(next)?];
        let span = body.span();
        context.add(alloc, lines, &tags, &span)?;
        next += 1;
    }
    Ok(())
}
