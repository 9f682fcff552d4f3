//! The checks of options.

ghost use Rattle.std.specs.Prelude.{◌≡◌, ◌++◌, ◌∷◌, [], find, OnOk};
ghost use Rattle.std.specs.Option.{option_copied};
ghost use Rattle.protox_ast.specs.Options.{bodies_of, has_name, json_name_of, listed, options_left, without_first};
ghost use Rattle.protox_checks.specs.Nodes.{AnOption, json_name_nodes, option_nodes};
ghost use Rattle.protox_checks.specs.inner.Walk.{Adds, others};

use crate::found::Found;
use crate::values::{check_text, check_uninterpreted};
use protox_ast::ast::{Boxed, Opt, Option, OptionBody, OptionList};
use std::alloc::AllocError;

fn check_body(body: &OptionBody, errors: &mut Found) -> Result<(), AllocError>
    ensures { OnOk result (Adds errors.old errors.new (AnOption body.now.value ∷ [])) }
{
    check_uninterpreted(&body.value, errors)
}

/// Checks the values of option statements.
pub(crate) fn check_statements(statements: &[Option], errors: &mut Found) -> Result<(), AllocError>
    ensures { OnOk result (Adds errors.old errors.new (option_nodes (bodies_of statements.now))) }
{
    for statement in statements {
        check_body(&statement.body, errors)?;
    }
    Ok(())
}

fn check_bodies(bodies: &[OptionBody], errors: &mut Found) -> Result<(), AllocError>
    ensures { OnOk result (Adds errors.old errors.new (option_nodes bodies.now)) }
{
    for body in bodies {
        check_body(body, errors)?;
    }
    Ok(())
}

/// Checks the values of options in brackets.
pub(crate) fn check_listed(
    list: &Opt<Boxed<OptionList>>,
    errors: &mut Found,
) -> Result<(), AllocError>
    ensures { OnOk result (Adds errors.old errors.new (option_nodes (listed list.now))) }
{
    match list {
        None => Ok(()),
        Some(list) => check_bodies(list.get().options.as_slice(), errors),
    }
}

fn first_named<'a>(bodies: &'a [OptionBody], name: &str) -> Opt<&'a OptionBody>
    ensures { option_copied result ≡ find (has_name name.now) bodies.now }
{
    bodies.iter().find(|body| body.has_name(name))
}

/// The first option of this name, if there is one.
pub(crate) fn named<'a>(list: &'a Opt<Boxed<OptionList>>, name: &str) -> Opt<&'a OptionBody>
    ensures { option_copied result ≡ find (has_name name.now) (listed list.now) }
{
    match list {
        None => None,
        Some(list) => first_named(list.get().options.as_slice(), name),
    }
}

fn check_json_name(list: &Opt<Boxed<OptionList>>, errors: &mut Found) -> Result<(), AllocError>
    ensures { OnOk result (Adds errors.old errors.new (json_name_nodes (json_name_of list.now))) }
{
    match named(list, "json_name") {
        None => Ok(()),
        Some(body) => check_text(&body.value, errors),
    }
}

// Checks all values but that of the first option of this name.
fn check_without(name: &str, bodies: &[OptionBody], errors: &mut Found) -> Result<(), AllocError>
    ensures { OnOk result (Adds errors.old errors.new (option_nodes (without_first name.now bodies.now))) }
{
    for (index, body) in bodies.iter().enumerate() {
        if body.has_name(name) {
            return check_bodies(&bodies[index + 1..], errors);
        }
        check_body(body, errors)?;
    }
    Ok(())
}

// Checks all values but those of the first `default` and of the first `json_name`.
fn check_others(bodies: &[OptionBody], errors: &mut Found) -> Result<(), AllocError>
    ensures { OnOk result (Adds errors.old errors.new (option_nodes (others bodies.now))) }
{
    for (index, body) in bodies.iter().enumerate() {
        if body.has_name("default") {
            return check_without("json_name", &bodies[index + 1..], errors);
        }
        if body.has_name("json_name") {
            return check_without("default", &bodies[index + 1..], errors);
        }
        check_body(body, errors)?;
    }
    Ok(())
}

fn check_options_left(list: &Opt<Boxed<OptionList>>, errors: &mut Found) -> Result<(), AllocError>
    ensures { OnOk result (Adds errors.old errors.new (option_nodes (options_left list.now))) }
{
    match list {
        None => Ok(()),
        Some(list) => check_others(list.get().options.as_slice(), errors),
    }
}

/// Checks a field's options but the `default`: its `json_name`, and those that aren't interpreted.
pub(crate) fn check_field_options(
    list: &Opt<Boxed<OptionList>>,
    errors: &mut Found,
) -> Result<(), AllocError>
    ensures { OnOk result (Adds errors.old errors.new (json_name_nodes (json_name_of list.now) ++ option_nodes (options_left list.now))) }
{
    check_json_name(list, errors)?;
    check_options_left(list, errors)
}
