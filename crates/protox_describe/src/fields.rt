//! The descriptor of a field, and the entry messages of maps.

ghost use Rattle.std.specs.Prelude.{◌≡◌, ◌≤ℤ◌, IfOk};
ghost use Rattle.protox_ast.specs.Steps.{of_field, of_kind};
ghost use Rattle.protox_ast.specs.FieldNumbers.{label_number, type_number, scalar_number};
ghost use Rattle.protox_ast.specs.Options.{default_of};
ghost use Rattle.protox_ast.specs.declared.ast.Field.{out-Field};
ghost use Rattle.protox_ast.specs.declared.ast.Syntax.{Syntax};
ghost use Rattle.protox_ast.specs.declared.ast.Syntax.TheVariants.{Proto3};
ghost use Rattle.protox_describe.specs.Descriptor.{descriptor_steps};
ghost use Rattle.protox_describe.specs.Fields.{message_proto, entry_name, entry_field, entry_parts, field_name, label_of, field_type_of, type_name_of, default_value, is_proto3_optional, optional_flag, synthetic_name, synthetic_oneof};

use crate::options;
use crate::options::{field_options, json_name};
use crate::ranges::number_of;
use protox_ast::ast::{Field, FieldKind, FieldLabel, Syntax, Ty};
use protox_descriptor::case::to_pascal_case;
use protox_descriptor::descriptor::field_descriptor_proto::{FieldType, Label};
use protox_descriptor::descriptor::{
    DescriptorProto, FieldDescriptorProto, MessageOptions, OneofDescriptorProto,
};
use protox_descriptor::values::{Items, Text};
use protox_fault::error::Span;
use std::alloc::{AllocError, Global};

fn number_of_type(ty: FieldType) -> i32
    ensures { result ≡ type_number ty }
{
    ty as i32
}

fn number_if_scalar(ty: Option<FieldType>) -> Option<i32>
    ensures { result ≡ scalar_number ty }
{
    match ty {
        Some(ty) => Some(number_of_type(ty)),
        None => None,
    }
}

// The number of the type. None for a named type, since only its name is known.
fn field_type(kind: &FieldKind) -> Option<i32>
    ensures { (syntax : Syntax) → result ≡ field_type_of (of_kind (descriptor_steps syntax) kind.now) }
{
    match kind {
        FieldKind::Normal { ty, .. } => number_if_scalar(ty.proto_ty()),
        FieldKind::Group { .. } => Some(FieldType::Group as i32),
        FieldKind::Map { .. } => Some(FieldType::Message as i32),
    }
}

fn label_number(label: &Option<(FieldLabel, Span)>) -> i32
    ensures { result ≡ label_number label.now }
{
    match label {
        None => Label::Optional as i32,
        Some((FieldLabel::Optional, _)) => Label::Optional as i32,
        Some((FieldLabel::Required, _)) => Label::Required as i32,
        Some((FieldLabel::Repeated, _)) => Label::Repeated as i32,
    }
}

// The number of the label; a map is repeated.
fn label(kind: &FieldKind, label: &Option<(FieldLabel, Span)>) -> i32
    ensures { (syntax : Syntax) → result ≡ label_of (of_kind (descriptor_steps syntax) kind.now) label.now }
{
    match kind {
        FieldKind::Normal { .. } => label_number(label),
        FieldKind::Group { .. } => label_number(label),
        FieldKind::Map { .. } => Label::Repeated as i32,
    }
}

// The field's name; for a group, the name in small letters.
fn field_name(alloc: Global, kind: &FieldKind, name: &str) -> Result<Text, AllocError>
    ensures { IfOk result (λ text. (syntax : Syntax) → text ≡ field_name name.now (of_kind (descriptor_steps syntax) kind.now)) }
{
    match kind {
        FieldKind::Normal { .. } => Text::copy(alloc, name),
        FieldKind::Group { .. } => Ok(Text::from_string(name.to_ascii_lowercase(alloc)?)),
        FieldKind::Map { .. } => Text::copy(alloc, name),
    }
}

// The name of the type; for a group, its own name.
fn type_name(alloc: Global, kind: &FieldKind, name: &str) -> Result<Option<Text>, AllocError>
    ensures { IfOk result (λ text. (syntax : Syntax) → text ≡ type_name_of name.now (of_kind (descriptor_steps syntax) kind.now)) }
{
    match kind {
        FieldKind::Normal { ty, .. } => ty.ty_name(alloc),
        FieldKind::Group { .. } => Ok(Some(Text::copy(alloc, name)?)),
        FieldKind::Map { .. } => Ok(Some(entry_name(alloc, name)?)),
    }
}

fn default_value(alloc: Global, ast: &Field) -> Result<Option<Text>, AllocError>
    ensures { IfOk result (λ text. (syntax : Syntax) → text ≡ default_value (of_kind (descriptor_steps syntax) (out-Field ast.now).kind) (default_of (out-Field ast.now).options)) }
{
    match &ast.kind {
        FieldKind::Normal { ty, .. } => options::default_value(alloc, ty, &ast.options),
        FieldKind::Group { .. } => Ok(None),
        FieldKind::Map { .. } => Ok(None),
    }
}

fn is_optional(label: &Option<(FieldLabel, Span)>) -> bool
    ensures { result ≡ is_proto3_optional Proto3 label.now }
{
    match label {
        None => false,
        Some((FieldLabel::Optional, _)) => true,
        Some((FieldLabel::Required, _)) => false,
        Some((FieldLabel::Repeated, _)) => false,
    }
}

/// Whether a field has the word `optional` in a file of proto3.
pub(crate) fn is_proto3_optional(syntax: Syntax, label: &Option<(FieldLabel, Span)>) -> bool
    ensures { result ≡ is_proto3_optional syntax label.now }
{
    match syntax {
        Syntax::Proto2 => false,
        Syntax::Proto3 => is_optional(label),
    }
}

fn optional_flag(flag: bool) -> Option<bool>
    ensures { result ≡ optional_flag flag }
{
    if flag { Some(true) } else { None }
}

/// The descriptor of a field. An extension has an `extendee`, and a field of a oneof a
/// `oneof_index`.
pub(crate) fn field_proto(
    alloc: Global,
    syntax: Syntax,
    ast: &Field,
    extendee: Option<Text>,
    oneof_index: Option<i32>,
) -> Result<FieldDescriptorProto, AllocError>
    ensures { IfOk result (λ field. field ≡ record (of_field (descriptor_steps syntax) ast.now).field { extendee = extendee; oneof_index = oneof_index }) }
{
    let name = field_name(alloc, &ast.kind, ast.name.value.as_str())?;
    let type_name = type_name(alloc, &ast.kind, ast.name.value.as_str())?;
    let default_value = default_value(alloc, ast)?;
    let json_name = json_name(alloc, &ast.options)?;
    let options = field_options(alloc, &ast.options)?;
    let proto3_optional = optional_flag(is_proto3_optional(syntax, &ast.label));
    let plain = FieldDescriptorProto::plain(
        Some(name),
        number_of(&ast.number),
        Some(label(&ast.kind, &ast.label)),
        field_type(&ast.kind),
        type_name,
        oneof_index,
        proto3_optional,
    );
    if extendee.is_none() && default_value.is_none() && json_name.is_none() && options.is_none() {
        return Ok(plain);
    }
    plain.with_rare_parts(alloc, extendee, default_value, json_name, options)
}

// The name of an entry message: `MyMapEntry` for `my_map`.
fn entry_name(alloc: Global, name: &str) -> Result<Text, AllocError>
    ensures { IfOk result (λ text. text ≡ entry_name name.now) }
{
    let pascal = to_pascal_case(alloc, name)?;
    Text::joined(alloc, pascal.as_str(), "Entry")
}

// A field of an entry message: optional, its JSON name the same as its name.
fn entry_field(
    alloc: Global,
    name: &str,
    number: i32,
    ty: &Ty,
) -> Result<FieldDescriptorProto, AllocError>
    ensures { IfOk result (λ field. field ≡ entry_field name.now number ty.now) }
{
    let type_name = ty.ty_name(alloc)?;
    let json_name = Text::copy(alloc, name)?;
    let name = Text::copy(alloc, name)?;
    let plain = FieldDescriptorProto::plain(
        Some(name),
        Some(number),
        Some(Label::Optional as i32),
        number_if_scalar(ty.proto_ty()),
        type_name,
        None,
        None,
    );
    plain.with_rare_parts(alloc, None, None, Some(json_name), None)
}

fn entry_fields(
    alloc: Global,
    key: &Ty,
    value: &Ty,
) -> Result<Items<FieldDescriptorProto>, AllocError>
    ensures { IfOk result (λ fields. fields ≡ (entry_parts key.now value.now).field) }
{
    let mut fields = Items::with_capacity(alloc, 2)?;
    fields.push(entry_field(alloc, "key", 1, key)?)?;
    fields.push(entry_field(alloc, "value", 2, value)?)?;
    Ok(fields)
}

/// The entry message of a map: a field `key` and a field `value`.
pub(crate) fn entry_message(
    alloc: Global,
    name: &str,
    key: &Ty,
    value: &Ty,
) -> Result<DescriptorProto, AllocError>
    ensures { IfOk result (λ message. message ≡ message_proto (entry_name name.now) (entry_parts key.now value.now)) }
{
    let name = entry_name(alloc, name)?;
    let field = entry_fields(alloc, key, value)?;
    Ok(DescriptorProto {
        name: Some(name),
        field,
        extension: Items::new(alloc),
        nested_type: Items::new(alloc),
        enum_type: Items::new(alloc),
        extension_range: Items::new(alloc),
        oneof_decl: Items::new(alloc),
        options: Some(MessageOptions {
            map_entry: Some(true),
            uninterpreted_option: Items::new(alloc),
        }),
        reserved_range: Items::new(alloc),
        reserved_name: Items::new(alloc),
    })
}

// The name of the oneof made for a field: `_a` for `a`, `X_a` for `_a`.
fn synthetic_name(alloc: Global, name: &str) -> Result<Text, AllocError>
    ensures { IfOk result (λ text. text ≡ synthetic_name name.now) }
{
    match name.as_bytes() {
        [b'_', ..] => Text::joined(alloc, "X", name),
        [] => Text::joined(alloc, "_", name),
        [_, ..] => Text::joined(alloc, "_", name),
    }
}

/// The oneof made for a field that is `optional` in proto3.
pub(crate) fn synthetic_oneof(alloc: Global, name: &str) -> Result<OneofDescriptorProto, AllocError>
    ensures { IfOk result (λ oneof. oneof ≡ synthetic_oneof name.now) }
{
    let name = synthetic_name(alloc, name)?;
    Ok(OneofDescriptorProto {
        name: Some(name),
        options: None,
    })
}
