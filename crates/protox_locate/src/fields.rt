//! The locations of fields.

ghost use Rattle.std.specs.Prelude.{◌≡◌, ◌≤◌, ◌∷◌, [], map, IfOk, OnOk, None, Some};
ghost use Rattle.protox_ast.specs.Steps.{of_extend, of_field, of_kind};
ghost use Rattle.protox_ast.specs.declared.ast.Field.{out-Field};
ghost use Rattle.protox_locate.specs.FieldLocations.{from_number, itself, label_locations, labelled, type_tag_of, typed};
ghost use Rattle.protox_places.specs.Lines.{numbers_at};
ghost use Rattle.protox_locate.specs.LocationWords.{bare, nth, part};
ghost use Rattle.protox_locate.specs.Locations.{location_steps};
ghost use Rattle.protox_locate.specs.inner.Walk.{Emits, Numbers};

use crate::context::Context;
use crate::defaults::{locate_default, locate_json_name, locate_others};
use protox_ast::ast::{Extend, Field, FieldKind, Ty, TypeName};
use protox_descriptor::tag::field::{EXTENDEE, LABEL, NAME, NUMBER, TYPE, TYPE_NAME};
use protox_descriptor::tag::message::FIELD;
use protox_places::lines::LineResolver;
use std::alloc::{AllocError, Global};

/// Adds the locations of these fields. The first has the index `first`. Answers the index behind
/// the last.
#[tactic(auto, using(crate::proofs::Numbered::walk))]
pub(crate) fn fields_in(
    alloc: Global,
    lines: &LineResolver,
    context: &mut Context,
    fields: &[Field],
    first: usize,
) -> Result<usize, AllocError>
    ensures siblings { IfOk result (λ next. Numbers context.old context.new FIELD first next (map (λ f. f.own None) (map (of_field (location_steps (numbers_at lines.now))) fields.now))) }
{
    let mut next = first;
    for field in fields {
        locate_field(alloc, lines, context, field, next)?;
        next += 1;
    }
    Ok(next)
}

/// Adds the locations of a field of a message or a oneof.
pub(crate) fn locate_field(
    alloc: Global,
    lines: &LineResolver,
    context: &mut Context,
    ast: &Field,
    at: usize,
) -> Result<(), AllocError>
    ensures located { OnOk result (Emits context.old context.new ((of_field (location_steps (numbers_at lines.now)) ast.now).own None (nth context.old.path FIELD at))) }
    ensures counted { OnOk result (at ≤ 2147483647) }
{
    context.enter(FIELD, at)?;
    locate_front(alloc, lines, context, ast)?;
    locate_from_number(alloc, lines, context, ast)?;
    context.leave();
    Ok(())
}

/// Adds the locations of the fields of an `extend`. Indices as for `fields_in`.
pub(crate) fn extensions_in(
    alloc: Global,
    lines: &LineResolver,
    context: &mut Context,
    tag: i32,
    ast: &Extend,
    first: usize,
) -> Result<usize, AllocError>
    ensures siblings { IfOk result (λ next. Numbers context.old context.new tag first next (of_extend (location_steps (numbers_at lines.now)) ast.now).extensions) }
{
    let fields = ast.fields.as_slice();
    number_extensions(alloc, lines, context, tag, &ast.extendee, fields, first)
}

#[tactic(auto, using(crate::proofs::Numbered::walk))]
fn number_extensions(
    alloc: Global,
    lines: &LineResolver,
    context: &mut Context,
    tag: i32,
    extendee: &TypeName,
    fields: &[Field],
    first: usize,
) -> Result<usize, AllocError>
    ensures siblings { IfOk result (λ next. Numbers context.old context.new tag first next (map (λ f. f.own (Some extendee.now)) (map (of_field (location_steps (numbers_at lines.now))) fields.now))) }
{
    let mut next = first;
    for field in fields {
        locate_extension(alloc, lines, context, tag, extendee, field, next)?;
        next += 1;
    }
    Ok(next)
}

fn locate_extension(
    alloc: Global,
    lines: &LineResolver,
    context: &mut Context,
    tag: i32,
    extendee: &TypeName,
    ast: &Field,
    at: usize,
) -> Result<(), AllocError>
    ensures located { OnOk result (Emits context.old context.new ((of_field (location_steps (numbers_at lines.now)) ast.now).own (Some extendee.now) (nth context.old.path tag at))) }
    ensures counted { OnOk result (at ≤ 2147483647) }
{
    let extended = extendee.span();
    context.enter(tag, at)?;
    locate_front(alloc, lines, context, ast)?;
    context.add(alloc, lines, &[EXTENDEE], &extended)?;
    locate_from_number(alloc, lines, context, ast)?;
    context.leave();
    Ok(())
}

// Adds the locations of the field itself and of its name.
fn locate_front(
    alloc: Global,
    lines: &LineResolver,
    context: &mut Context,
    ast: &Field,
) -> Result<(), AllocError>
    ensures { OnOk result (Emits context.old context.new (itself (numbers_at lines.now) context.old.path (out-Field ast.now).span (out-Field ast.now).comments (of_kind (location_steps (numbers_at lines.now)) (out-Field ast.now).kind) ∷ bare (numbers_at lines.now) (part context.old.path NAME) (out-Field ast.now).name.span ∷ [])) }
{
    locate_itself(alloc, lines, context, ast)?;
    context.add(alloc, lines, &[NAME], &ast.name.span)
}

fn locate_itself(
    alloc: Global,
    lines: &LineResolver,
    context: &mut Context,
    ast: &Field,
) -> Result<(), AllocError>
    ensures { OnOk result (Emits context.old context.new (itself (numbers_at lines.now) context.old.path (out-Field ast.now).span (out-Field ast.now).comments (of_kind (location_steps (numbers_at lines.now)) (out-Field ast.now).kind) ∷ [])) }
{
    match &ast.kind {
        FieldKind::Group { .. } => context.add(alloc, lines, &[], &ast.span),
        FieldKind::Normal { .. } => context.add_with(alloc, lines, &[], &ast.span, &ast.comments),
        FieldKind::Map { .. } => context.add_with(alloc, lines, &[], &ast.span, &ast.comments),
    }
}

// Adds the locations of the number and of what follows it, in the order of their field numbers.
fn locate_from_number(
    alloc: Global,
    lines: &LineResolver,
    context: &mut Context,
    ast: &Field,
) -> Result<(), AllocError>
    ensures { OnOk result (Emits context.old context.new (from_number (numbers_at lines.now) context.old.path (out-Field ast.now).number (out-Field ast.now).label (out-Field ast.now).name (of_kind (location_steps (numbers_at lines.now)) (out-Field ast.now).kind) (out-Field ast.now).options)) }
{
    context.add(alloc, lines, &[NUMBER], &ast.number.span)?;
    locate_label(alloc, lines, context, ast)?;
    locate_type(alloc, lines, context, ast)?;
    locate_default(alloc, lines, context, &ast.options)?;
    locate_others(alloc, lines, context, &ast.options)?;
    locate_json_name(alloc, lines, context, &ast.options)
}

fn locate_label(
    alloc: Global,
    lines: &LineResolver,
    context: &mut Context,
    ast: &Field,
) -> Result<(), AllocError>
    ensures { OnOk result (Emits context.old context.new (labelled (numbers_at lines.now) context.old.path (out-Field ast.now).label (of_kind (location_steps (numbers_at lines.now)) (out-Field ast.now).kind))) }
{
    match &ast.kind {
        FieldKind::Map { .. } => Ok(()),
        FieldKind::Normal { .. } => locate_label_word(alloc, lines, context, ast),
        FieldKind::Group { .. } => locate_label_word(alloc, lines, context, ast),
    }
}

fn locate_label_word(
    alloc: Global,
    lines: &LineResolver,
    context: &mut Context,
    ast: &Field,
) -> Result<(), AllocError>
    ensures { OnOk result (Emits context.old context.new (label_locations (numbers_at lines.now) context.old.path (out-Field ast.now).label)) }
{
    match &ast.label {
        None => Ok(()),
        Some((_, span)) => context.add(alloc, lines, &[LABEL], span),
    }
}

fn locate_type(
    alloc: Global,
    lines: &LineResolver,
    context: &mut Context,
    ast: &Field,
) -> Result<(), AllocError>
    ensures { OnOk result (Emits context.old context.new (typed (numbers_at lines.now) context.old.path (out-Field ast.now).name (of_kind (location_steps (numbers_at lines.now)) (out-Field ast.now).kind))) }
{
    match &ast.kind {
        FieldKind::Normal { ty, ty_span } => context.add(alloc, lines, &[type_tag(ty)], ty_span),
        FieldKind::Group { ty_span, .. } => {
            context.add(alloc, lines, &[TYPE], ty_span)?;
            context.add(alloc, lines, &[TYPE_NAME], &ast.name.span)
        }
        FieldKind::Map { ty_span, .. } => context.add(alloc, lines, &[TYPE_NAME], ty_span),
    }
}

fn type_tag(ty: &Ty) -> i32
    ensures { result ≡ type_tag_of ty.now }
{
    match ty {
        Ty::Named(_) => TYPE_NAME,
        _ => TYPE,
    }
}
