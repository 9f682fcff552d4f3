//! The descriptors of messages, with those made for groups and for map entries.

ghost use Rattle.std.specs.Prelude.{◌≡◌, ◌++◌, ◌∷◌, [], map, IfOk, OnOk};
ghost use Rattle.std.specs.List.{flat_map};
ghost use Rattle.protox_ast.specs.Steps.{of_message, of_body, of_item, of_field, of_oneof, of_extend};
ghost use Rattle.protox_ast.specs.declared.ast.MessageBody.{out-MessageBody};
ghost use Rattle.protox_describe.specs.Descriptor.{descriptor_steps, nested_of, parts};
ghost use Rattle.protox_describe.specs.Fields.{message_proto, entry_name, entry_parts};
ghost use Rattle.protox_describe.specs.inner.Pass.{with_nested};

use crate::fields::entry_message;
use crate::items::{enums, extensions, fields, oneofs};
use crate::options::message_options;
use crate::ranges::{extension_protos, greatest_number, reserved_protos, reserved_texts};
use protox_ast::ast::{
    Extend, Field, FieldKind, Message, MessageBody, MessageItem, Oneof, Syntax, Ty,
};
use protox_descriptor::descriptor::descriptor_proto::{ExtensionRange, ReservedRange};
use protox_descriptor::descriptor::{
    DescriptorProto, EnumDescriptorProto, FieldDescriptorProto, MessageOptions,
    OneofDescriptorProto,
};
use protox_descriptor::values::{Items, Text};
use std::alloc::{AllocError, Global};

// The parts of a message without its nested messages.
#[derive(Drop)]
pub(crate) struct Unnested {
    field: Items<FieldDescriptorProto>,
    extension: Items<FieldDescriptorProto>,
    enum_type: Items<EnumDescriptorProto>,
    extension_range: Items<ExtensionRange>,
    oneof_decl: Items<OneofDescriptorProto>,
    options: Option<MessageOptions>,
    reserved_range: Items<ReservedRange>,
    reserved_name: Items<Text>,
}

fn all_but_nested(alloc: Global, syntax: Syntax, ast: &MessageBody) -> Result<Unnested, AllocError>
    ensures { IfOk result (λ unnested. let all = map (of_item (descriptor_steps syntax)) (out-MessageBody ast.now).items in with_nested unnested (flat_map nested_of all) ≡ parts all (out-MessageBody ast.now).extensions (out-MessageBody ast.now).options (out-MessageBody ast.now).reserved) }
{
    let greatest = greatest_number(ast.options.as_slice());
    let field = fields(alloc, syntax, ast.items.as_slice())?;
    let extension = extensions(alloc, syntax, ast.items.as_slice())?;
    let enum_type = enums(alloc, ast.items.as_slice())?;
    let extension_range = extension_protos(alloc, greatest, ast.extensions.as_slice())?;
    let oneof_decl = oneofs(alloc, syntax, ast.items.as_slice())?;
    let options = message_options(alloc, ast.options.as_slice())?;
    let reserved_range = reserved_protos(alloc, greatest, ast.reserved.as_slice())?;
    let reserved_name = reserved_texts(alloc, ast.reserved.as_slice())?;
    Ok(Unnested {
        field,
        extension,
        enum_type,
        extension_range,
        oneof_decl,
        options,
        reserved_range,
        reserved_name,
    })
}

// Builds the descriptor from its name and parts.
fn joined(
    alloc: Global,
    name: &str,
    unnested: Unnested,
    nested_type: Items<DescriptorProto>,
) -> Result<DescriptorProto, AllocError>
    ensures { IfOk result (λ message. message ≡ message_proto name.now (with_nested unnested nested_type)) }
{
    let name = Text::copy(alloc, name)?;
    let Unnested {
        field,
        extension,
        enum_type,
        extension_range,
        oneof_decl,
        options,
        reserved_range,
        reserved_name,
    } = unnested;
    Ok(DescriptorProto {
        name: Some(name),
        field,
        extension,
        nested_type,
        enum_type,
        extension_range,
        oneof_decl,
        options,
        reserved_range,
        reserved_name,
    })
}

// Whether a message is nested for an item: one that is written, or one for a group or a map.
fn nests(item: &MessageItem) -> bool {
    match item {
        MessageItem::Message(_) => true,
        MessageItem::Field(field) => !matches!(field.kind, FieldKind::Normal { .. }),
        MessageItem::Oneof(_) => false,
        MessageItem::Enum(_) => false,
        MessageItem::Extend(_) => false,
    }
}

// How many messages are nested, but for groups in oneofs and `extend` statements. For each nested
// message there is room then, and no more: a message takes much.
fn nested_among(items: &[MessageItem]) -> usize {
    let mut nested: usize = 0;
    for item in items {
        if nests(item) {
            nested = nested.saturating_add(1);
        }
    }
    nested
}

/// The descriptor of a message.
#[cycle(messages)]
pub(crate) fn message_proto(
    alloc: Global,
    syntax: Syntax,
    ast: &Message,
) -> Result<DescriptorProto, AllocError>
    ensures { IfOk result (λ message. message ≡ of_message (descriptor_steps syntax) ast.now) }
{
    body_message(alloc, syntax, ast.name.value.as_str(), &ast.body)
}

// The descriptor of a message with this name and this body.
#[cycle(messages)]
fn body_message(
    alloc: Global,
    syntax: Syntax,
    name: &str,
    ast: &MessageBody,
) -> Result<DescriptorProto, AllocError>
    ensures { IfOk result (λ message. message ≡ message_proto name.now (of_body (descriptor_steps syntax) ast.now)) }
{
    let nested = nested(alloc, syntax, ast)?;
    let unnested = all_but_nested(alloc, syntax, ast)?;
    joined(alloc, name, unnested, nested)
}

#[cycle(messages)]
fn nested(
    alloc: Global,
    syntax: Syntax,
    ast: &MessageBody,
) -> Result<Items<DescriptorProto>, AllocError>
    ensures { IfOk result (λ found. found ≡ flat_map nested_of (map (of_item (descriptor_steps syntax)) (out-MessageBody ast.now).items)) }
{
    let mut found = Items::with_capacity(alloc, nested_among(ast.items.as_slice()))?;
    for item in ast.items.as_slice() {
        push_nested(alloc, syntax, item, &mut found)?;
    }
    Ok(found)
}

#[cycle(messages)]
fn push_nested(
    alloc: Global,
    syntax: Syntax,
    item: &MessageItem,
    found: &mut Items<DescriptorProto>,
) -> Result<(), AllocError>
    ensures { OnOk result (found.new ≡ found.old ++ nested_of (of_item (descriptor_steps syntax) item.now)) }
{
    match item {
        MessageItem::Field(ast) => push_field_messages(alloc, syntax, ast, found),
        MessageItem::Message(ast) => push_message(alloc, syntax, ast, found),
        MessageItem::Oneof(ast) => push_oneof_messages(alloc, syntax, ast, found),
        MessageItem::Extend(ast) => push_extend_messages(alloc, syntax, ast, found),
        MessageItem::Enum(_) => Ok(()),
    }
}

/// Appends the descriptor of a message.
#[cycle(messages)]
pub(crate) fn push_message(
    alloc: Global,
    syntax: Syntax,
    ast: &Message,
    found: &mut Items<DescriptorProto>,
) -> Result<(), AllocError>
    ensures { OnOk result (found.new ≡ found.old ++ of_message (descriptor_steps syntax) ast.now ∷ []) }
{
    let made = message_proto(alloc, syntax, ast)?;
    found.push(made)
}

#[cycle(messages)]
fn push_oneof_messages(
    alloc: Global,
    syntax: Syntax,
    ast: &Oneof,
    found: &mut Items<DescriptorProto>,
) -> Result<(), AllocError>
    ensures { OnOk result (found.new ≡ found.old ++ flat_map (λ gives. gives.nested) (of_oneof (descriptor_steps syntax) ast.now).fields) }
{
    for part in ast.fields.as_slice() {
        push_field_messages(alloc, syntax, part, found)?;
    }
    Ok(())
}

/// Appends the messages made for the fields of an `extend` statement.
#[cycle(messages)]
pub(crate) fn push_extend_messages(
    alloc: Global,
    syntax: Syntax,
    ast: &Extend,
    found: &mut Items<DescriptorProto>,
) -> Result<(), AllocError>
    ensures { OnOk result (found.new ≡ found.old ++ flat_map (λ gives. gives.nested) (of_extend (descriptor_steps syntax) ast.now)) }
{
    for part in ast.fields.as_slice() {
        push_field_messages(alloc, syntax, part, found)?;
    }
    Ok(())
}

// Appends the message made for a group or for the entries of a map.
#[cycle(messages)]
fn push_field_messages(
    alloc: Global,
    syntax: Syntax,
    ast: &Field,
    found: &mut Items<DescriptorProto>,
) -> Result<(), AllocError>
    ensures { OnOk result (found.new ≡ found.old ++ (of_field (descriptor_steps syntax) ast.now).nested) }
{
    match &ast.kind {
        FieldKind::Normal { .. } => Ok(()),
        FieldKind::Group { body, .. } => {
            push_group(alloc, syntax, ast.name.value.as_str(), body.get(), found)
        }
        FieldKind::Map {
            key_ty,
            value_ty,
            ..
        } => push_entry(
            alloc,
            ast.name.value.as_str(),
            key_ty.get(),
            value_ty.get(),
            found,
        ),
    }
}

#[cycle(messages)]
fn push_group(
    alloc: Global,
    syntax: Syntax,
    name: &str,
    ast: &MessageBody,
    found: &mut Items<DescriptorProto>,
) -> Result<(), AllocError>
    ensures { OnOk result (found.new ≡ found.old ++ message_proto name.now (of_body (descriptor_steps syntax) ast.now) ∷ []) }
{
    let made = body_message(alloc, syntax, name, ast)?;
    found.push(made)
}

fn push_entry(
    alloc: Global,
    name: &str,
    key: &Ty,
    value: &Ty,
    found: &mut Items<DescriptorProto>,
) -> Result<(), AllocError>
    ensures { OnOk result (found.new ≡ found.old ++ message_proto (entry_name name.now) (entry_parts key.now value.now) ∷ []) }
{
    found.push(entry_message(alloc, name, key, value)?)
}
