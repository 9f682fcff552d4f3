//! The checks of a field itself: its label, its kind in this place, and its `default`.

ghost use Rattle.std.specs.Prelude.{◌≡◌, ◌++◌, OnOk};
ghost use Rattle.protox_ast.specs.Spans.{body_span};
ghost use Rattle.protox_ast.specs.declared.ast.Field.{out-Field};
ghost use Rattle.protox_checks.specs.Checks.{default_value_faults, field_faults, group_faults, key_faults, kind_faults, label_faults, map_faults, place_faults};
ghost use Rattle.protox_checks.specs.FieldFaults as kinds;
ghost use Rattle.protox_checks.specs.inner.Walk.{field_node};

use crate::found::{Found, copied};
use crate::options::named;
use crate::scope::Scope;
use crate::values::check_value;
use protox_ast::ast::{Field, FieldKind, FieldLabel, Opt, OptionBody, Syntax, Ty};
use protox_fault::error::{ParseErrorKind, Span};
use std::alloc::AllocError;

// Adds at most one fault of a label: the first that holds.
fn check_label(
    syntax: Syntax,
    scope: Scope,
    ast: &Field,
    errors: &mut Found,
) -> Result<(), AllocError>
    ensures { OnOk result (errors.new ≡ errors.old ++ label_faults syntax scope (field_node ast.now).kind (out-Field ast.now).label (out-Field ast.now).span) }
{
    match (&ast.kind, scope, &ast.label, syntax) {
        (FieldKind::Map { .. }, _, _, _) => Ok(()),
        (_, Scope::InExtend, Some((FieldLabel::Required, at)), _) => errors.add(
            ParseErrorKind::RequiredExtendField { span: copied(at) },
        ),
        (_, Scope::InOneof, Some((_, at)), _) => errors.add(ParseErrorKind::OneofFieldWithLabel {
            span: copied(at),
        }),
        (_, Scope::InOneof, None, _) => Ok(()),
        (_, _, None, Syntax::Proto2) => errors.add(ParseErrorKind::Proto2FieldMissingLabel {
            span: copied(&ast.span),
        }),
        (_, _, Some((FieldLabel::Required, at)), Syntax::Proto3) => errors.add(
            ParseErrorKind::Proto3RequiredField { span: copied(at) },
        ),
        _ => Ok(()),
    }
}

fn check_map_place(
    scope: Scope,
    label: &Opt<(FieldLabel, Span)>,
    span: &Span,
    errors: &mut Found,
) -> Result<(), AllocError>
    ensures { OnOk result (errors.new ≡ errors.old ++ map_faults scope label.now span.now) }
{
    match (scope, label) {
        (Scope::InOneof, _) => errors.add(ParseErrorKind::InvalidOneofFieldKind {
            span: copied(span),
            kind: "map",
        }),
        (Scope::InExtend, _) => errors.add(ParseErrorKind::InvalidExtendFieldKind {
            span: copied(span),
            kind: "map",
        }),
        (Scope::InMessage, Some((_, at))) => errors.add(ParseErrorKind::MapFieldWithLabel {
            span: copied(at),
        }),
        (Scope::InMessage, None) => Ok(()),
    }
}

fn may_be_key(ty: &Ty) -> bool
    ensures { result ≡ kinds.may_be_key ty.now }
{
    match ty {
        Ty::Double | Ty::Float | Ty::Bytes | Ty::Named(_) => false,
        _ => true,
    }
}

fn check_key(key: &Ty, span: &Span, errors: &mut Found) -> Result<(), AllocError>
    ensures { OnOk result (errors.new ≡ errors.old ++ key_faults key.now span.now) }
{
    if may_be_key(key) {
        return Ok(());
    }
    errors.add(ParseErrorKind::InvalidMapFieldKeyType { span: copied(span) })
}

fn check_map(
    scope: Scope,
    label: &Opt<(FieldLabel, Span)>,
    span: &Span,
    key: &Ty,
    key_span: &Span,
    errors: &mut Found,
) -> Result<(), AllocError>
    ensures { OnOk result (errors.new ≡ errors.old ++ (map_faults scope label.now span.now ++ key_faults key.now key_span.now)) }
{
    check_map_place(scope, label, span, errors)?;
    check_key(key, key_span, errors)
}

// Checks that a map or a group is allowed here.
fn check_kind(
    syntax: Syntax,
    scope: Scope,
    ast: &Field,
    errors: &mut Found,
) -> Result<(), AllocError>
    ensures { OnOk result (errors.new ≡ errors.old ++ kind_faults syntax scope (field_node ast.now) (field_node ast.now).kind) }
{
    match (&ast.kind, syntax) {
        (FieldKind::Normal { .. }, _) => Ok(()),
        (FieldKind::Group { .. }, Syntax::Proto2) => Ok(()),
        (FieldKind::Group { .. }, Syntax::Proto3) => errors.add(ParseErrorKind::Proto3GroupField {
            span: copied(&ast.span),
        }),
        (
            FieldKind::Map {
                key_ty,
                key_ty_span,
                ..
            },
            _,
        ) => check_map(
            scope,
            &ast.label,
            &ast.span,
            key_ty.get(),
            key_ty_span,
            errors,
        ),
    }
}

// Checks that a `default` is allowed here.
fn check_default_place(
    syntax: Syntax,
    ast: &Field,
    body: &OptionBody,
    errors: &mut Found,
) -> Result<(), AllocError>
    ensures { OnOk result (errors.new ≡ errors.old ++ place_faults syntax (field_node ast.now) (body_span body.now)) }
{
    match (&ast.kind, &ast.label, syntax) {
        (FieldKind::Map { .. }, _, _) => errors.add(ParseErrorKind::InvalidDefault {
            span: body.span(),
            kind: "map",
        }),
        (_, Some((FieldLabel::Repeated, _)), _) => errors.add(ParseErrorKind::InvalidDefault {
            span: body.span(),
            kind: "repeated",
        }),
        (_, _, Syntax::Proto3) => errors.add(ParseErrorKind::Proto3DefaultValue {
            span: body.span(),
        }),
        (_, _, Syntax::Proto2) => Ok(()),
    }
}

// Checks that a `default` is not on a group and fits the type.
fn check_default_value(ast: &Field, body: &OptionBody, errors: &mut Found) -> Result<(), AllocError>
    ensures { OnOk result (errors.new ≡ errors.old ++ (group_faults (field_node ast.now) (body_span body.now) ++ default_value_faults (field_node ast.now).kind body.now)) }
{
    match &ast.kind {
        FieldKind::Normal { ty, .. } => check_value(ty, &body.value, errors),
        FieldKind::Group { .. } => errors.add(ParseErrorKind::InvalidDefault {
            span: body.span(),
            kind: "group",
        }),
        FieldKind::Map { .. } => Ok(()),
    }
}

fn check_with_default(
    syntax: Syntax,
    scope: Scope,
    ast: &Field,
    body: &OptionBody,
    errors: &mut Found,
) -> Result<(), AllocError>
    ensures { OnOk result (errors.new ≡ errors.old ++ (place_faults syntax (field_node ast.now) (body_span body.now) ++ (label_faults syntax scope (field_node ast.now).kind (out-Field ast.now).label (out-Field ast.now).span ++ (kind_faults syntax scope (field_node ast.now) (field_node ast.now).kind ++ (group_faults (field_node ast.now) (body_span body.now) ++ default_value_faults (field_node ast.now).kind body.now))))) }
{
    check_default_place(syntax, ast, body, errors)?;
    check_label(syntax, scope, ast, errors)?;
    check_kind(syntax, scope, ast, errors)?;
    check_default_value(ast, body, errors)
}

fn check_without_default(
    syntax: Syntax,
    scope: Scope,
    ast: &Field,
    errors: &mut Found,
) -> Result<(), AllocError>
    ensures { OnOk result (errors.new ≡ errors.old ++ (label_faults syntax scope (field_node ast.now).kind (out-Field ast.now).label (out-Field ast.now).span ++ kind_faults syntax scope (field_node ast.now) (field_node ast.now).kind)) }
{
    check_label(syntax, scope, ast, errors)?;
    check_kind(syntax, scope, ast, errors)
}

/// Checks a field without its number and its body.
pub(crate) fn check_field_itself(
    syntax: Syntax,
    scope: Scope,
    ast: &Field,
    errors: &mut Found,
) -> Result<(), AllocError>
    ensures { OnOk result (errors.new ≡ errors.old ++ field_faults syntax scope (field_node ast.now)) }
{
    match named(&ast.options, "default") {
        Some(body) => check_with_default(syntax, scope, ast, body, errors),
        None => check_without_default(syntax, scope, ast, errors),
    }
}
