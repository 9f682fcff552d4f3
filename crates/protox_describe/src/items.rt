//! The lists that the items of a message fill: fields, extensions, enums and oneofs.

ghost use Rattle.std.specs.Prelude.{◌≡◌, ◌≤◌, ◌+◌, ◌++◌, ◌∷◌, [], pos, map, length, IfOk, OnOk, if◌then◌else◌};
ghost use Rattle.std.specs.List.{flat_map};
ghost use Rattle.protox_ast.specs.Steps.{of_extend, of_field, of_item, of_oneof};
ghost use Rattle.protox_ast.specs.declared.ast.Syntax.{Syntax};
ghost use Rattle.protox_describe.specs.Descriptor.{descriptor_steps, is_oneof, oneofs_of, synthetic_of, all_oneofs, in_oneof, synthetic_index, fields_of, extensions_of, enums_of, extending};
ghost use Rattle.protox_describe.specs.Enums.{enum_proto};
ghost use Rattle.protox_describe.specs.inner.Pass.{item_fields};
ghost use Rattle.protox_describe.specs.Siblings.{count, each_after};

use crate::enums::enum_proto;
use crate::fields::{field_proto, is_proto3_optional, synthetic_oneof};
use crate::options::oneof_options;
use protox_ast::ast::{Enum, Extend, Field, MessageItem, Oneof, Syntax, TypeName};
use protox_descriptor::descriptor::{
    EnumDescriptorProto, FieldDescriptorProto, OneofDescriptorProto,
};
use protox_descriptor::values::{Items, Text};
use std::alloc::{AllocError, Global};

// The indices of the next oneof that is written and of the next one that is made.
#[derive(Clone, Copy)]
struct Places {
    written: usize,
    made: usize,
}

// Takes the index of the next oneof. In the descriptor it is an `i32`, so it is checked before it is
// made one. The check also keeps the count in a `usize`.
fn next_index(next: &mut usize) -> Result<i32, AllocError>
    ensures value { IfOk result (λ index. index ≡ pos next.old) }
    ensures counted { OnOk result (next.new ≡ next.old + 1) }
{
    let index = *next;
    if index > 2147483647 {
        return Err(AllocError);
    }
    *next = index + 1;
    Ok(index as i32)
}

fn oneofs_in(item: &MessageItem) -> usize
    ensures value { (syntax : Syntax) → result ≡ (if is_oneof (of_item (descriptor_steps syntax) item.now) then 1 else 0) }
    ensures one { result ≤ 1 }
{
    match item {
        MessageItem::Oneof(_) => 1,
        MessageItem::Field(_) => 0,
        MessageItem::Message(_) => 0,
        MessageItem::Enum(_) => 0,
        MessageItem::Extend(_) => 0,
    }
}

// How many oneofs are written.
fn oneofs_among(items: &[MessageItem]) -> usize
    ensures { (syntax : Syntax) → result ≡ count is_oneof (map (of_item (descriptor_steps syntax)) items.now) }
{
    let mut oneofs = 0;
    for item in items {
        oneofs += oneofs_in(item);
    }
    oneofs
}

// How many fields the items have, with those of oneofs.
fn fields_among(items: &[MessageItem]) -> usize {
    let mut fields: usize = 0;
    for item in items {
        fields = fields.saturating_add(match item {
            MessageItem::Field(_) => 1,
            MessageItem::Oneof(oneof) => oneof.fields.len(),
            MessageItem::Message(_) => 0,
            MessageItem::Enum(_) => 0,
            MessageItem::Extend(_) => 0,
        });
    }
    fields
}

// Takes the index of the oneof that is made for a field, if one is made.
fn synthetic_index(syntax: Syntax, ast: &Field, made: &mut usize) -> Result<Option<i32>, AllocError>
    ensures value { IfOk result (λ index. index ≡ synthetic_index made.old (of_field (descriptor_steps syntax) ast.now)) }
    ensures counted { OnOk result (made.new ≡ made.old + length (of_field (descriptor_steps syntax) ast.now).synthetic) }
{
    if is_proto3_optional(syntax, &ast.label) {
        let index = next_index(made)?;
        Ok(Some(index))
    } else {
        Ok(None)
    }
}

fn push_field(
    alloc: Global,
    syntax: Syntax,
    ast: &Field,
    oneof_index: Option<i32>,
    found: &mut Items<FieldDescriptorProto>,
) -> Result<(), AllocError>
    ensures { OnOk result (found.new ≡ found.old ++ in_oneof oneof_index (of_field (descriptor_steps syntax) ast.now) ∷ []) }
{
    let made = field_proto(alloc, syntax, ast, None, oneof_index)?;
    found.push(made)
}

fn push_oneof_fields(
    alloc: Global,
    syntax: Syntax,
    ast: &Oneof,
    oneof_index: Option<i32>,
    found: &mut Items<FieldDescriptorProto>,
) -> Result<(), AllocError>
    ensures { OnOk result (found.new ≡ found.old ++ map (in_oneof oneof_index) (of_oneof (descriptor_steps syntax) ast.now).fields) }
{
    for part in ast.fields.as_slice() {
        push_field(alloc, syntax, part, oneof_index, found)?;
    }
    Ok(())
}

// Appends the fields of an item, and counts its oneofs.
fn push_fields(
    alloc: Global,
    syntax: Syntax,
    item: &MessageItem,
    places: &mut Places,
    found: &mut Items<FieldDescriptorProto>,
) -> Result<(), AllocError>
    ensures fields { OnOk result (found.new ≡ found.old ++ item_fields places.old.written places.old.made (of_item (descriptor_steps syntax) item.now)) }
    ensures written { OnOk result (places.new.written ≡ places.old.written + (if is_oneof (of_item (descriptor_steps syntax) item.now) then 1 else 0)) }
    ensures made { OnOk result (places.new.made ≡ places.old.made + length (synthetic_of (of_item (descriptor_steps syntax) item.now))) }
{
    match item {
        MessageItem::Field(ast) => {
            let index = synthetic_index(syntax, ast, &mut places.made)?;
            push_field(alloc, syntax, ast, index, found)
        }
        MessageItem::Oneof(ast) => {
            let index = next_index(&mut places.written)?;
            push_oneof_fields(alloc, syntax, ast, Some(index), found)
        }
        MessageItem::Message(_) => Ok(()),
        MessageItem::Enum(_) => Ok(()),
        MessageItem::Extend(_) => Ok(()),
    }
}

/// The fields of a message, in the order of the source; those of a oneof where the oneof stands.
pub(crate) fn fields(
    alloc: Global,
    syntax: Syntax,
    items: &[MessageItem],
) -> Result<Items<FieldDescriptorProto>, AllocError>
    ensures { IfOk result (λ fields. let all = map (of_item (descriptor_steps syntax)) items.now in fields ≡ each_after (fields_of (count is_oneof all)) [] all) }
{
    let mut found = Items::with_capacity(alloc, fields_among(items))?;
    let mut places = Places {
        written: 0,
        made: oneofs_among(items),
    };
    for item in items {
        push_fields(alloc, syntax, item, &mut places, &mut found)?;
    }
    Ok(found)
}

fn extension_field(
    alloc: Global,
    syntax: Syntax,
    extendee: &TypeName,
    ast: &Field,
) -> Result<FieldDescriptorProto, AllocError>
    ensures { IfOk result (λ field. field ≡ (extending extendee.now (of_field (descriptor_steps syntax) ast.now)).field) }
{
    let extendee = extendee.text(alloc)?;
    field_proto(alloc, syntax, ast, Some(extendee), None)
}

/// Appends the fields of an `extend` statement.
pub(crate) fn push_extensions(
    alloc: Global,
    syntax: Syntax,
    ast: &Extend,
    found: &mut Items<FieldDescriptorProto>,
) -> Result<(), AllocError>
    ensures { OnOk result (found.new ≡ found.old ++ map (λ gives. gives.field) (of_extend (descriptor_steps syntax) ast.now)) }
{
    for part in ast.fields.as_slice() {
        found.push(extension_field(alloc, syntax, &ast.extendee, part)?)?;
    }
    Ok(())
}

fn push_item_extensions(
    alloc: Global,
    syntax: Syntax,
    item: &MessageItem,
    found: &mut Items<FieldDescriptorProto>,
) -> Result<(), AllocError>
    ensures { OnOk result (found.new ≡ found.old ++ extensions_of (of_item (descriptor_steps syntax) item.now)) }
{
    match item {
        MessageItem::Extend(ast) => push_extensions(alloc, syntax, ast, found),
        MessageItem::Field(_) => Ok(()),
        MessageItem::Oneof(_) => Ok(()),
        MessageItem::Message(_) => Ok(()),
        MessageItem::Enum(_) => Ok(()),
    }
}

/// The extensions that a message declares.
pub(crate) fn extensions(
    alloc: Global,
    syntax: Syntax,
    items: &[MessageItem],
) -> Result<Items<FieldDescriptorProto>, AllocError>
    ensures { IfOk result (λ found. found ≡ flat_map extensions_of (map (of_item (descriptor_steps syntax)) items.now)) }
{
    let mut found = Items::new(alloc);
    for item in items {
        push_item_extensions(alloc, syntax, item, &mut found)?;
    }
    Ok(found)
}

fn push_enum(
    alloc: Global,
    ast: &Enum,
    found: &mut Items<EnumDescriptorProto>,
) -> Result<(), AllocError>
    ensures { OnOk result (found.new ≡ found.old ++ enum_proto ast.now ∷ []) }
{
    found.push(enum_proto(alloc, ast)?)
}

fn push_item_enums(
    alloc: Global,
    item: &MessageItem,
    found: &mut Items<EnumDescriptorProto>,
) -> Result<(), AllocError>
    ensures { OnOk result ((syntax : Syntax) → found.new ≡ found.old ++ enums_of (of_item (descriptor_steps syntax) item.now)) }
{
    match item {
        MessageItem::Enum(ast) => push_enum(alloc, ast, found),
        MessageItem::Field(_) => Ok(()),
        MessageItem::Oneof(_) => Ok(()),
        MessageItem::Message(_) => Ok(()),
        MessageItem::Extend(_) => Ok(()),
    }
}

/// The enums in a message.
pub(crate) fn enums(
    alloc: Global,
    items: &[MessageItem],
) -> Result<Items<EnumDescriptorProto>, AllocError>
    ensures { IfOk result (λ found. (syntax : Syntax) → found ≡ flat_map enums_of (map (of_item (descriptor_steps syntax)) items.now)) }
{
    let mut found = Items::new(alloc);
    for item in items {
        push_item_enums(alloc, item, &mut found)?;
    }
    Ok(found)
}

fn oneof_proto(alloc: Global, ast: &Oneof) -> Result<OneofDescriptorProto, AllocError>
    ensures { IfOk result (λ oneof. (syntax : Syntax) → oneof ≡ (of_oneof (descriptor_steps syntax) ast.now).oneof) }
{
    let name = Text::copy(alloc, ast.name.value.as_str())?;
    let options = oneof_options(alloc, ast.options.as_slice())?;
    Ok(OneofDescriptorProto {
        name: Some(name),
        options,
    })
}

fn push_oneof(
    alloc: Global,
    ast: &Oneof,
    found: &mut Items<OneofDescriptorProto>,
) -> Result<(), AllocError>
    ensures { OnOk result ((syntax : Syntax) → found.new ≡ found.old ++ (of_oneof (descriptor_steps syntax) ast.now).oneof ∷ []) }
{
    let made = oneof_proto(alloc, ast)?;
    found.push(made)?;
    Ok(())
}

fn push_item_oneofs(
    alloc: Global,
    item: &MessageItem,
    found: &mut Items<OneofDescriptorProto>,
) -> Result<(), AllocError>
    ensures { OnOk result ((syntax : Syntax) → found.new ≡ found.old ++ oneofs_of (of_item (descriptor_steps syntax) item.now)) }
{
    match item {
        MessageItem::Oneof(ast) => push_oneof(alloc, ast, found),
        MessageItem::Field(_) => Ok(()),
        MessageItem::Message(_) => Ok(()),
        MessageItem::Enum(_) => Ok(()),
        MessageItem::Extend(_) => Ok(()),
    }
}

fn push_written(
    alloc: Global,
    items: &[MessageItem],
    found: &mut Items<OneofDescriptorProto>,
) -> Result<(), AllocError>
    ensures { OnOk result ((syntax : Syntax) → found.new ≡ found.old ++ flat_map oneofs_of (map (of_item (descriptor_steps syntax)) items.now)) }
{
    for item in items {
        push_item_oneofs(alloc, item, found)?;
    }
    Ok(())
}

fn push_synthetic(
    alloc: Global,
    syntax: Syntax,
    ast: &Field,
    found: &mut Items<OneofDescriptorProto>,
) -> Result<(), AllocError>
    ensures { OnOk result (found.new ≡ found.old ++ (of_field (descriptor_steps syntax) ast.now).synthetic) }
{
    if is_proto3_optional(syntax, &ast.label) {
        found.push(synthetic_oneof(alloc, ast.name.value.as_str())?)
    } else {
        Ok(())
    }
}

fn push_item_synthetic(
    alloc: Global,
    syntax: Syntax,
    item: &MessageItem,
    found: &mut Items<OneofDescriptorProto>,
) -> Result<(), AllocError>
    ensures { OnOk result (found.new ≡ found.old ++ synthetic_of (of_item (descriptor_steps syntax) item.now)) }
{
    match item {
        MessageItem::Field(ast) => push_synthetic(alloc, syntax, ast, found),
        MessageItem::Oneof(_) => Ok(()),
        MessageItem::Message(_) => Ok(()),
        MessageItem::Enum(_) => Ok(()),
        MessageItem::Extend(_) => Ok(()),
    }
}

fn push_made(
    alloc: Global,
    syntax: Syntax,
    items: &[MessageItem],
    found: &mut Items<OneofDescriptorProto>,
) -> Result<(), AllocError>
    ensures { OnOk result (found.new ≡ found.old ++ flat_map synthetic_of (map (of_item (descriptor_steps syntax)) items.now)) }
{
    for item in items {
        push_item_synthetic(alloc, syntax, item, found)?;
    }
    Ok(())
}

/// The oneofs of a message: those that are written, and then those made for its fields.
pub(crate) fn oneofs(
    alloc: Global,
    syntax: Syntax,
    items: &[MessageItem],
) -> Result<Items<OneofDescriptorProto>, AllocError>
    ensures { IfOk result (λ found. found ≡ all_oneofs (map (of_item (descriptor_steps syntax)) items.now)) }
{
    let mut found = Items::new(alloc);
    push_written(alloc, items, &mut found)?;
    push_made(alloc, syntax, items, &mut found)?;
    Ok(found)
}
