//! Which declarations have a descriptor that may be much longer than their text.

ghost use Rattle.std.specs.Prelude.{◌≡◌, ◌||◌, length};
ghost use Rattle.std.specs.List.{list_any};
ghost use Rattle.protox_ast.specs.Steps.{of_message, of_body, of_extend, of_item, of_field, of_kind, of_oneof};
ghost use Rattle.protox_ast.specs.declared.ast.Extend.{out-Extend};
ghost use Rattle.protox_ast.specs.declared.ast.MessageBody.{out-MessageBody};
ghost use Rattle.protox_ast.specs.declared.ast.Oneof.{out-Oneof};
ghost use Rattle.protox_generate.specs.Repeats as spec;
ghost use Rattle.protox_generate.specs.Repeats.{repeat_steps};

use protox_ast::ast::{
    Boxed, Extend, Extensions, Field, FieldKind, FileItem, Message, MessageBody, MessageItem,
    Oneof, Opt, OptionList,
};
use protox_fault::error::Span;

/// Up to this many ranges of a statement may repeat its options.
const FEW_RANGES: usize = 8;

/// Up to this many fields of a block may repeat the name that they extend.
const FEW_FIELDS: usize = 64;

/// A text of up to this many bytes may be repeated.
const SHORT: usize = 64;

fn span_len(span: &Span) -> usize
    ensures { result ≡ spec.span_len span.now }
{
    span.end.saturating_sub(span.start)
}

fn list_len(list: &Opt<Boxed<OptionList>>) -> usize
    ensures { result ≡ spec.list_len list.now }
{
    match list {
        None => 0,
        Some(list) => span_len(&list.get().span),
    }
}

fn repeats_options(statement: &Extensions) -> bool
    ensures { result ≡ spec.repeats_options statement.now }
{
    statement.ranges.len() > FEW_RANGES && list_len(&statement.options) > SHORT
}

fn some_repeat_options(statements: &[Extensions]) -> bool
    ensures { result ≡ list_any spec.repeats_options statements.now }
{
    statements.iter().any(repeats_options)
}

fn repeats_extendee(ast: &Extend) -> bool
    ensures { result ≡ spec.repeats_extendee (out-Extend ast.now).extendee (length (out-Extend ast.now).fields) }
{
    ast.fields.len() > FEW_FIELDS && span_len(&ast.extendee.span()) > SHORT
}

#[cycle(repeats)]
fn in_message(ast: &Message) -> bool
    ensures { result ≡ of_message repeat_steps ast.now }
{
    in_body(&ast.body)
}

#[cycle(repeats)]
fn in_body(ast: &MessageBody) -> bool
    ensures { result ≡ of_body repeat_steps ast.now }
{
    some_repeat_options(ast.extensions.as_slice()) || in_items(ast)
}

#[cycle(repeats)]
fn in_items(ast: &MessageBody) -> bool
    ensures { result ≡ list_any (of_item repeat_steps) (out-MessageBody ast.now).items }
{
    for item in ast.items.as_slice() {
        if in_item(item) {
            return true;
        }
    }
    false
}

#[cycle(repeats)]
fn in_item(item: &MessageItem) -> bool
    ensures { result ≡ of_item repeat_steps item.now }
{
    match item {
        MessageItem::Field(field) => in_field(field),
        MessageItem::Message(message) => in_message(message),
        MessageItem::Oneof(oneof) => in_oneof(oneof),
        MessageItem::Enum(_) => false,
        MessageItem::Extend(extend) => in_extend(extend),
    }
}

#[cycle(repeats)]
fn in_oneof(ast: &Oneof) -> bool
    ensures { result ≡ of_oneof repeat_steps ast.now }
{
    for field in ast.fields.as_slice() {
        if in_field(field) {
            return true;
        }
    }
    false
}

#[cycle(repeats)]
fn in_extend(ast: &Extend) -> bool
    ensures { result ≡ of_extend repeat_steps ast.now }
{
    repeats_extendee(ast) || in_extend_fields(ast)
}

#[cycle(repeats)]
fn in_extend_fields(ast: &Extend) -> bool
    ensures { result ≡ list_any (of_field repeat_steps) (out-Extend ast.now).fields }
{
    for field in ast.fields.as_slice() {
        if in_field(field) {
            return true;
        }
    }
    false
}

#[cycle(repeats)]
fn in_field(ast: &Field) -> bool
    ensures { result ≡ of_field repeat_steps ast.now }
{
    in_kind(&ast.kind)
}

// Looks into the body of a group.
#[cycle(repeats)]
fn in_kind(kind: &FieldKind) -> bool
    ensures { result ≡ of_kind repeat_steps kind.now }
{
    match kind {
        FieldKind::Normal { .. } => false,
        FieldKind::Group { body, .. } => in_body(body.get()),
        FieldKind::Map { .. } => false,
    }
}

/// Whether what the descriptor says of this declaration may be much longer than the declaration
/// itself. The descriptor repeats the options of an `extensions` statement for each of its ranges,
/// and the name that an `extend` block extends for each of its fields.
pub fn repeats_much(item: &FileItem) -> bool
    ensures { result ≡ spec.repeats_much item.now }
{
    match item {
        FileItem::Message(message) => in_message(message),
        FileItem::Extend(extend) => in_extend(extend),
        FileItem::Enum(_) | FileItem::Service(_) => false,
    }
}
