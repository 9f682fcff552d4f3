//! The checks that recurse: messages, groups, oneofs and `extend` statements.

ghost use Rattle.std.specs.Prelude.{map, OnOk, ◌++◌, ◌∷◌, []};
ghost use Rattle.std.specs.List.{flat_map};
ghost use Rattle.protox_ast.specs.Options.{bodies_of};
ghost use Rattle.protox_ast.specs.Steps.{of_message, of_body, of_extend, of_item, of_field, of_kind, of_oneof};
ghost use Rattle.protox_ast.specs.declared.ast.Extend.{out-Extend};
ghost use Rattle.protox_ast.specs.declared.ast.MessageBody.{out-MessageBody};
ghost use Rattle.protox_ast.specs.declared.ast.Oneof.{out-Oneof};
ghost use Rattle.protox_checks.specs.FieldFaults.{InExtend, InOneof};
ghost use Rattle.protox_checks.specs.Nodes.{AMessageNumber, empty_nodes, extensions_nodes, fields_nodes, node_steps, option_nodes, reserved_nodes};
ghost use Rattle.protox_checks.specs.inner.Walk.{Adds, AddsIn};

use crate::enums::check_enum;
use crate::fields::check_field_itself;
use crate::found::{Found, copied};
use crate::numbers::{Numbering, check_extensions, check_message_number, check_reserved};
use crate::options::{check_field_options, check_statements};
use crate::scope::Scope;
use protox_ast::ast::{Extend, Field, FieldKind, Message, MessageBody, MessageItem, Oneof, Syntax};
use protox_fault::error::ParseErrorKind;
use std::alloc::AllocError;

#[cycle(messages)]
/// Adds all faults of a message.
pub(crate) fn check_message(
    syntax: Syntax,
    ast: &Message,
    errors: &mut Found,
) -> Result<(), AllocError>
    ensures { OnOk result (AddsIn syntax errors.old errors.new (of_message node_steps ast.now)) }
{
    check_body(syntax, &ast.body, errors)
}

#[cycle(messages)]
fn check_body(syntax: Syntax, ast: &MessageBody, errors: &mut Found) -> Result<(), AllocError>
    ensures { OnOk result (AddsIn syntax errors.old errors.new (of_body node_steps ast.now)) }
{
    check_items(syntax, ast, errors)?;
    check_set_aside(ast, errors)
}

// Checks what isn't an item of a body: options, reserved and extensions statements.
fn check_set_aside(ast: &MessageBody, errors: &mut Found) -> Result<(), AllocError>
    ensures { OnOk result (Adds errors.old errors.new (reserved_nodes AMessageNumber (out-MessageBody ast.now).reserved ++ (flat_map extensions_nodes (out-MessageBody ast.now).extensions ++ option_nodes (bodies_of (out-MessageBody ast.now).options)))) }
{
    check_reserved(Numbering::OfFields, ast.reserved.as_slice(), errors)?;
    check_extensions(ast.extensions.as_slice(), errors)?;
    check_statements(ast.options.as_slice(), errors)
}

#[cycle(messages)]
fn check_items(syntax: Syntax, ast: &MessageBody, errors: &mut Found) -> Result<(), AllocError>
    ensures { OnOk result (AddsIn syntax errors.old errors.new (flat_map (of_item node_steps) (out-MessageBody ast.now).items)) }
{
    for item in ast.items.as_slice() {
        check_item(syntax, item, errors)?;
    }
    Ok(())
}

#[cycle(messages)]
fn check_item(syntax: Syntax, item: &MessageItem, errors: &mut Found) -> Result<(), AllocError>
    ensures { OnOk result (AddsIn syntax errors.old errors.new (of_item node_steps item.now)) }
{
    match item {
        MessageItem::Field(field) => check_field(syntax, Scope::InMessage, field, errors),
        MessageItem::Message(message) => check_message(syntax, message, errors),
        MessageItem::Oneof(oneof) => check_oneof(syntax, oneof, errors),
        MessageItem::Enum(ast) => check_enum(ast, errors),
        MessageItem::Extend(extend) => check_extend(syntax, extend, errors),
    }
}

#[cycle(messages)]
fn check_oneof(syntax: Syntax, ast: &Oneof, errors: &mut Found) -> Result<(), AllocError>
    ensures { OnOk result (AddsIn syntax errors.old errors.new (of_oneof node_steps ast.now)) }
{
    check_statements(ast.options.as_slice(), errors)?;
    check_empty(ast, errors)?;
    check_oneof_fields(syntax, ast, errors)
}

fn check_empty(ast: &Oneof, errors: &mut Found) -> Result<(), AllocError>
    ensures { OnOk result (Adds errors.old errors.new (empty_nodes (out-Oneof ast.now).fields (out-Oneof ast.now).span)) }
{
    match ast.fields.as_slice() {
        [] => errors.add(ParseErrorKind::EmptyOneof {
            span: copied(&ast.span),
        }),
        [_, ..] => Ok(()),
    }
}

#[cycle(messages)]
fn check_oneof_fields(syntax: Syntax, ast: &Oneof, errors: &mut Found) -> Result<(), AllocError>
    ensures { OnOk result (AddsIn syntax errors.old errors.new (fields_nodes InOneof (map (of_field node_steps) (out-Oneof ast.now).fields))) }
{
    for field in ast.fields.as_slice() {
        check_field(syntax, Scope::InOneof, field, errors)?;
    }
    Ok(())
}

/// Adds all faults of an `extend` statement.
#[cycle(messages)]
pub(crate) fn check_extend(
    syntax: Syntax,
    ast: &Extend,
    errors: &mut Found,
) -> Result<(), AllocError>
    ensures { OnOk result (AddsIn syntax errors.old errors.new (of_extend node_steps ast.now)) }
{
    for field in ast.fields.as_slice() {
        check_field(syntax, Scope::InExtend, field, errors)?;
    }
    Ok(())
}

#[cycle(messages)]
fn check_field(
    syntax: Syntax,
    scope: Scope,
    ast: &Field,
    errors: &mut Found,
) -> Result<(), AllocError>
    ensures { OnOk result (AddsIn syntax errors.old errors.new (of_field node_steps ast.now scope)) }
{
    check_message_number(&ast.number, errors)?;
    check_field_itself(syntax, scope, ast, errors)?;
    check_inside(syntax, &ast.kind, errors)?;
    check_field_options(&ast.options, errors)
}

// Checks the body of a group.
#[cycle(messages)]
fn check_inside(syntax: Syntax, kind: &FieldKind, errors: &mut Found) -> Result<(), AllocError>
    ensures { OnOk result (AddsIn syntax errors.old errors.new (of_kind node_steps kind.now).1) }
{
    match kind {
        FieldKind::Normal { .. } => Ok(()),
        FieldKind::Group { body, .. } => check_body(syntax, body.get(), errors),
        FieldKind::Map { .. } => Ok(()),
    }
}
