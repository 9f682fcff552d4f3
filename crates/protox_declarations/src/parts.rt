//! The parts that are read before a syntax tree is built of them.

ghost use Rattle.std.specs.Prelude.{◌≡◌, OnOk};
ghost use Rattle.protox_declarations.specs.inner.Bodies as rule;

use protox_ast::ast::{
    Boxed, Extensions, Field, FieldKind, Ident, Int, MessageItem, Opt, Option as OptionStatement,
    OptionList, Reserved,
};
use protox_descriptor::values::Items;
use std::alloc::AllocError;

/// A field without its label, its comments and its span.
#[derive(Drop)]
pub(crate) struct FieldParts {
    pub name: Ident,
    pub kind: FieldKind,
    pub number: Int,
    pub options: Opt<Boxed<OptionList>>,
}

/// A declaration in a message.
#[derive(Drop)]
pub(crate) enum Element {
    Empty,
    Item(MessageItem),
    Option(OptionStatement),
    Reserved(Reserved),
    Extensions(Extensions),
}

/// The declarations in a message, by kinds.
#[derive(Drop)]
pub(crate) struct ElementsByKind {
    pub items: Items<MessageItem>,
    pub extensions: Items<Extensions>,
    pub options: Items<OptionStatement>,
    pub reserved: Items<Reserved>,
}

/// A declaration in a oneof.
#[derive(Drop)]
pub(crate) enum OneofElement {
    Empty,
    Option(OptionStatement),
    Field(Field),
}

/// The declarations in a oneof, by kinds.
#[derive(Drop)]
pub(crate) struct OneofElementsByKind {
    pub options: Items<OptionStatement>,
    pub fields: Items<Field>,
}

/// Adds the next declaration of a oneof.
pub(crate) fn add_oneof_element(
    inside: &mut OneofElementsByKind,
    element: OneofElement,
) -> Result<(), AllocError>
    ensures { OnOk result (inside.new ≡ rule.add_oneof_element inside.old element) }
{
    match element {
        OneofElement::Empty => Ok(()),
        OneofElement::Option(option) => inside.options.push(option),
        OneofElement::Field(field) => inside.fields.push(field),
    }
}

/// Adds the next declaration of an `extend`.
pub(crate) fn add_extend_element(
    fields: &mut Items<Field>,
    element: Option<Field>,
) -> Result<(), AllocError>
    ensures { OnOk result (fields.new ≡ rule.add_extend_element fields.old element) }
{
    match element {
        None => Ok(()),
        Some(field) => fields.push(field),
    }
}

/// Adds the next declaration of a message.
pub(crate) fn add_element(inside: &mut ElementsByKind, element: Element) -> Result<(), AllocError>
    ensures { OnOk result (inside.new ≡ rule.add_element inside.old element) }
{
    match element {
        Element::Empty => Ok(()),
        Element::Item(item) => inside.items.push(item),
        Element::Option(option) => inside.options.push(option),
        Element::Reserved(reserved) => inside.reserved.push(reserved),
        Element::Extensions(extensions) => inside.extensions.push(extensions),
    }
}
