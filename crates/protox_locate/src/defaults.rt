//! The locations of a field's options: `default`, `json_name` and the others.

ghost use Rattle.std.specs.Prelude.{◌≡◌, ◌∷◌, codes, find, map, OnOk, Some, false, not, ◌&&◌};
ghost use Rattle.protox_ast.specs.Options.{default_of, has_name as is_called, json_name_of, options_left};
ghost use Rattle.protox_locate.specs.FieldLocations.{defaulted, json_named};
ghost use Rattle.protox_places.specs.Lines.{numbers_at};
ghost use Rattle.protox_locate.specs.LocationWords.{bare, option_body, option_list, part, siblings_at};
ghost use Rattle.protox_locate.specs.inner.Walk.{Emits, left};

use crate::context::{Context, index_number};
use protox_ast::ast::{Boxed, Opt, OptionBody, OptionList};
use protox_descriptor::tag::UNINTERPRETED_OPTION;
use protox_descriptor::tag::field::{DEFAULT_VALUE, JSON_NAME, OPTIONS};
use protox_places::lines::LineResolver;
use std::alloc::{AllocError, Global};

// Whether this is the first option of that name. `taken` says whether one came before.
fn takes(taken: bool, body: &OptionBody, name: &str) -> bool
    ensures { result ≡ not taken && is_called name.now body.now }
{
    if taken { false } else { body.has_name(name) }
}

/// Adds the location of the value of `default`, if there is one.
pub(crate) fn locate_default(
    alloc: Global,
    lines: &LineResolver,
    context: &mut Context,
    options: &Opt<Boxed<OptionList>>,
) -> Result<(), AllocError>
    ensures { OnOk result (Emits context.old context.new (defaulted (numbers_at lines.now) context.old.path (default_of options.now))) }
{
    match options {
        None => Ok(()),
        Some(list) => default_in(alloc, lines, context, list.get().options.as_slice()),
    }
}

fn default_in(
    alloc: Global,
    lines: &LineResolver,
    context: &mut Context,
    bodies: &[OptionBody],
) -> Result<(), AllocError>
    ensures { OnOk result (Emits context.old context.new (defaulted (numbers_at lines.now) context.old.path (find (is_called (codes "default")) bodies.now))) }
{
    for body in bodies {
        if body.has_name("default") {
            let value = body.value.span();
            return context.add(alloc, lines, &[DEFAULT_VALUE], &value);
        }
    }
    Ok(())
}

/// Adds the location of the option `json_name`, if there is one, and then that of its value.
pub(crate) fn locate_json_name(
    alloc: Global,
    lines: &LineResolver,
    context: &mut Context,
    options: &Opt<Boxed<OptionList>>,
) -> Result<(), AllocError>
    ensures { OnOk result (Emits context.old context.new (json_named (numbers_at lines.now) context.old.path (json_name_of options.now))) }
{
    match options {
        None => Ok(()),
        Some(list) => json_name_in(alloc, lines, context, list.get().options.as_slice()),
    }
}

fn json_name_in(
    alloc: Global,
    lines: &LineResolver,
    context: &mut Context,
    bodies: &[OptionBody],
) -> Result<(), AllocError>
    ensures { OnOk result (Emits context.old context.new (json_named (numbers_at lines.now) context.old.path (find (is_called (codes "json_name")) bodies.now))) }
{
    for body in bodies {
        if body.has_name("json_name") {
            return add_json_name(alloc, lines, context, body);
        }
    }
    Ok(())
}

fn add_json_name(
    alloc: Global,
    lines: &LineResolver,
    context: &mut Context,
    body: &OptionBody,
) -> Result<(), AllocError>
    ensures { OnOk result (Emits context.old context.new (json_named (numbers_at lines.now) context.old.path (Some body.now))) }
{
    let whole = body.span();
    let value = body.value.span();
    context.add(alloc, lines, &[JSON_NAME], &whole)?;
    context.add(alloc, lines, &[JSON_NAME], &value)
}

/// Adds the location of the brackets, if there are any, and those of the other options.
pub(crate) fn locate_others(
    alloc: Global,
    lines: &LineResolver,
    context: &mut Context,
    options: &Opt<Boxed<OptionList>>,
) -> Result<(), AllocError>
    ensures { OnOk result (Emits context.old context.new (option_list (numbers_at lines.now) (part context.old.path OPTIONS) options.now (options_left options.now))) }
{
    match options {
        None => Ok(()),
        Some(list) => locate_brackets(alloc, lines, context, list.get()),
    }
}

fn locate_brackets(
    alloc: Global,
    lines: &LineResolver,
    context: &mut Context,
    list: &OptionList,
) -> Result<(), AllocError>
    ensures { OnOk result (Emits context.old context.new (bare (numbers_at lines.now) (part context.old.path OPTIONS) list.now.span ∷ siblings_at (part context.old.path OPTIONS) UNINTERPRETED_OPTION (map (option_body (numbers_at lines.now)) (left false false list.now.options)))) }
{
    context.enter_part(OPTIONS)?;
    context.add(alloc, lines, &[], &list.span)?;
    number_others(alloc, lines, context, list.options.as_slice())?;
    context.leave_part();
    Ok(())
}

#[tactic(auto, using(crate::proofs::Left::walk))]
fn number_others(
    alloc: Global,
    lines: &LineResolver,
    context: &mut Context,
    bodies: &[OptionBody],
) -> Result<(), AllocError>
    ensures { OnOk result (Emits context.old context.new (siblings_at context.old.path UNINTERPRETED_OPTION (map (option_body (numbers_at lines.now)) (left false false bodies.now)))) }
{
    let mut next: usize = 0;
    let mut default = false;
    let mut json_name = false;
    for body in bodies {
        if takes(default, body, "default") {
            default = true;
        } else if takes(json_name, body, "json_name") {
            json_name = true;
        } else {
            let tags = [UNINTERPRETED_OPTION, index_number(next)?];
            let span = body.span();
            context.add(alloc, lines, &tags, &span)?;
            next += 1;
        }
    }
    Ok(())
}
