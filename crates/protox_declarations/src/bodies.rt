//! Reads fields with groups, oneofs, extends, messages and their bodies. `level` says how many more
//! levels of bodies may be opened.

ghost use Rattle.protox_grammar.specs.Reader.{mapped};
ghost use Rattle.protox_rows.specs.inner.Outcome.{Gives};
ghost use Rattle.protox_rows.specs.inner.Words.{Says};
ghost use Rattle.protox_declarations.specs.inner.BodyWords as said;
ghost use Rattle.protox_rows.specs.inner.Notes.{Adds};
ghost use Rattle.protox_declarations.specs.inner.Bodies as rule;
ghost use Rattle.protox_declarations.specs.inner.Fields.{field_of};

use crate::around::{before_body, bodiless_element, first_span, refuse_deep_body};
use crate::begins::{sees_keyword, sees_label, sees_map_or_group};
use crate::enums::enum_;
use crate::fields::{group_name, map_field, normal};
use crate::options::{list_if_any, option};
use crate::parts::{
    Element, ElementsByKind, FieldParts, OneofElement, OneofElementsByKind, add_element,
    add_extend_element, add_oneof_element,
};
use protox_ast::ast::{
    Boxed, Extend, Field, FieldKind, FieldLabel, Int, Message, MessageBody, MessageItem, Oneof,
    OptionList,
};
use protox_descriptor::values::Items;
use protox_grammar::note::Note;
use protox_lex::error::Span;
use protox_rows::class::{
    ENUM, EXTEND, MAP, MESSAGE, ONEOF, OPTION, RIGHT_BRACE, SEMICOLON, sees, sees_any, sees_other,
};
use protox_rows::expected::Expected;
use protox_rows::leaf::{expect_mark, expect_word, join};
use protox_rows::names::{ident, int, label, typename};
use protox_rows::refused::Refused;
use protox_rows::rows::{RowAt, Unread, comments_between, comments_of, span_between};
use std::alloc::Global;

/// "=" int list? mbody
#[cycle(bodies)]
#[tactic(auto, unfolding(crate::specs::inner::Bodies::number_and_body, crate::specs::inner::BodyWords::number_and_body))]
fn number_and_body<'t, 'a>(
    alloc: Global,
    notes: &mut Vec<Note>,
    rows: &mut Unread<'t, 'a>,
    level: usize,
    word: &Span,
) -> Result<
    (
        Int,
        Option<Boxed<OptionList>>,
        (MessageBody, (RowAt<'t, 'a>, RowAt<'t, 'a>)),
    ),
    Refused,
>
    ensures read { Gives (λ x. (x.0, (x.1, (x.2.0, (x.2.1.0.at, x.2.1.1.at))))) result rows.new (rule.number_and_body_at level rows.old) }
    ensures notes { Adds result notes.old.items (rule.number_and_body_notes level word.now rows.old) notes.new.items }
    ensures words { Says result (said.number_and_body_at level rows.old) }
{
    expect_mark(rows, b'=', Expected::Equals)?;
    let number = int(rows)?;
    let options = list_if_any(alloc, notes, rows)?;
    let body = mbody(alloc, notes, rows, level, word, before_body(&options))?;
    Ok((number, options, body))
}

/// group = "group" ident "=" int list? mbody
#[cycle(bodies)]
#[tactic(auto, unfolding(crate::specs::inner::Bodies::group, crate::specs::inner::BodyWords::group))]
fn group<'t, 'a>(
    alloc: Global,
    notes: &mut Vec<Note>,
    rows: &mut Unread<'t, 'a>,
    level: usize,
) -> Result<(FieldParts, (RowAt<'t, 'a>, RowAt<'t, 'a>)), Refused>
    ensures read { Gives (λ (kind, (first, last)). (kind, (first.at, last.at))) result rows.new (rule.group_at level rows.old) }
    ensures notes { Adds result notes.old.items (rule.group_notes level rows.old) notes.new.items }
    ensures words { Says result (said.group_at level rows.old) }
{
    let start = expect_word(rows, "group", Expected::Type)?;
    let ty_span = start.span();
    let name = group_name(alloc, notes, rows)?;
    let (number, options, (body, braces)) = number_and_body(alloc, notes, rows, level, &ty_span)?;
    let body = Boxed::new(alloc, body)?;
    let parts = FieldParts {
        name,
        kind: FieldKind::Group { ty_span, body },
        number,
        options,
    };
    Ok((parts, braces))
}

/// map | group
#[cycle(bodies)]
#[tactic(auto, unfolding(crate::specs::inner::Bodies::map_or_group, crate::specs::inner::BodyWords::map_or_group))]
fn map_or_group<'t, 'a>(
    alloc: Global,
    notes: &mut Vec<Note>,
    rows: &mut Unread<'t, 'a>,
    level: usize,
) -> Result<(FieldParts, (RowAt<'t, 'a>, RowAt<'t, 'a>)), Refused>
    ensures read { Gives (λ (kind, (first, last)). (kind, (first.at, last.at))) result rows.new (rule.map_or_group_at level rows.old) }
    ensures notes { Adds result notes.old.items (rule.map_or_group_notes level rows.old) notes.new.items }
    ensures words { Says result (said.map_or_group_at level rows.old) }
{
    if sees(rows, MAP) {
        return map_field(alloc, notes, rows);
    }
    group(alloc, notes, rows, level)
}

// A map or a group, as the field that begins at the rows `begun` with this label.
#[cycle(bodies)]
fn map_or_group_field(
    alloc: Global,
    notes: &mut Vec<Note>,
    rows: &mut Unread<'_, '_>,
    level: usize,
    begun: &Unread<'_, '_>,
    label: Option<(FieldLabel, Span)>,
) -> Result<Field, Refused>
    ensures read { Gives (λ x. x) result rows.new (mapped (λ kind. field_of begun.now (label, kind)) (rule.map_or_group_at level) rows.old) }
    ensures notes { Adds result notes.old.items (rule.map_or_group_notes level rows.old) notes.new.items }
    ensures words { Says result (said.map_or_group_at level rows.old) }
{
    let (parts, (first, last)) = map_or_group(alloc, notes, rows, level)?;
    let comments = comments_of(alloc, begun, &first)?;
    let span = join(&first_span(begun), &last.span());
    let FieldParts {
        name,
        kind,
        number,
        options,
    } = parts;
    Ok(Field {
        label,
        name,
        kind,
        number,
        options,
        comments,
        span,
    })
}

/// map | group | normal , read as the field that begins at the rows `begun` with this label.
#[cycle(bodies)]
#[inline(always)]
#[tactic(auto, unfolding(crate::specs::inner::Bodies::field_kind, crate::specs::inner::Bodies::map_or_group, crate::specs::inner::BodyWords::field_kind, crate::specs::inner::BodyWords::map_or_group))]
fn field_behind(
    alloc: Global,
    notes: &mut Vec<Note>,
    rows: &mut Unread<'_, '_>,
    level: usize,
    expected: Expected,
    begun: &Unread<'_, '_>,
    label: Option<(FieldLabel, Span)>,
) -> Result<Field, Refused>
    ensures read { Gives (λ x. x) result rows.new (mapped (λ kind. field_of begun.now (label, kind)) (rule.field_kind_at level) rows.old) }
    ensures notes { Adds result notes.old.items (rule.field_kind_notes level rows.old) notes.new.items }
    ensures words { Says result (said.field_kind_at level expected rows.old) }
{
    if sees_map_or_group(rows) {
        return map_or_group_field(alloc, notes, rows, level, begun, label);
    }
    normal(alloc, notes, rows, expected, begun, label)
}

/// field = label? (map | group | normal)
#[cycle(bodies)]
#[tactic(auto, unfolding(crate::specs::inner::Bodies::field, crate::specs::inner::Bodies::labelled_kind, crate::specs::inner::BodyWords::labelled_kind))]
fn field(
    alloc: Global,
    notes: &mut Vec<Note>,
    rows: &mut Unread<'_, '_>,
    level: usize,
    expected: Expected,
) -> Result<Field, Refused>
    ensures read { Gives (λ x. x) result rows.new (rule.field_at level rows.old) }
    ensures notes { Adds result notes.old.items (rule.field_notes level rows.old) notes.new.items }
    ensures words { Says result (said.labelled_kind_at level expected rows.old) }
{
    let begun = rows.again();
    if sees_label(rows) {
        let label = Some(label(rows)?);
        return field_behind(alloc, notes, rows, level, Expected::Type, &begun, label);
    }
    field_behind(alloc, notes, rows, level, expected, &begun, None)
}

/// ";" | option | field
#[cycle(bodies)]
#[tactic(auto, unfolding(crate::specs::inner::Bodies::oneof_element, crate::specs::inner::BodyWords::oneof_element))]
fn oneof_element(
    alloc: Global,
    notes: &mut Vec<Note>,
    rows: &mut Unread<'_, '_>,
    level: usize,
) -> Result<OneofElement, Refused>
    ensures read { Gives (λ x. x) result rows.new (rule.oneof_element_at level rows.old) }
    ensures notes { Adds result notes.old.items (rule.oneof_element_notes level rows.old) notes.new.items }
    ensures words { Says result (said.oneof_element_at level rows.old) }
{
    if sees(rows, SEMICOLON) {
        expect_mark(rows, b';', Expected::Semicolon)?;
        return Ok(OneofElement::Empty);
    }
    if sees_any(rows, &[OPTION]) {
        let option = option(alloc, notes, rows, Expected::OneofBody)?;
        return Ok(OneofElement::Option(option));
    }
    let field = field(alloc, notes, rows, level, Expected::OneofBody)?;
    Ok(OneofElement::Field(field))
}

#[cycle(bodies)]
#[tactic(auto, unfolding(crate::specs::inner::Bodies::oneof_elements, crate::specs::inner::BodyWords::oneof_elements))]
fn oneof_elements(
    alloc: Global,
    notes: &mut Vec<Note>,
    rows: &mut Unread<'_, '_>,
    level: usize,
) -> Result<OneofElementsByKind, Refused>
    ensures read { Gives (λ x. x) result rows.new (rule.oneof_elements_at level rows.old) }
    ensures notes { Adds result notes.old.items (rule.oneof_elements_notes level rows.old) notes.new.items }
    ensures words { Says result (said.oneof_elements_at level rows.old) }
{
    let mut inside = OneofElementsByKind {
        options: Items::new(alloc),
        fields: Items::new(alloc),
    };
    'oneof: while sees_other(rows, RIGHT_BRACE) {
        let element = oneof_element(alloc, notes, rows, level)?;
        add_oneof_element(&mut inside, element)?;
    }
    Ok(inside)
}

/// oneof = "oneof" ident "{" (";" | option | field)* "}"
#[cycle(bodies)]
#[tactic(auto, unfolding(crate::specs::inner::Bodies::oneof, crate::specs::inner::BodyWords::oneof))]
fn oneof(
    alloc: Global,
    notes: &mut Vec<Note>,
    rows: &mut Unread<'_, '_>,
    level: usize,
) -> Result<Oneof, Refused>
    ensures read { Gives (λ x. x) result rows.new (rule.oneof_at level rows.old) }
    ensures notes { Adds result notes.old.items (rule.oneof_notes level rows.old) notes.new.items }
    ensures words { Says result (said.oneof_at level rows.old) }
{
    let start = expect_word(rows, "oneof", Expected::MessageBody)?;
    let name = ident(alloc, rows, Expected::Ident)?;
    let open = expect_mark(rows, b'{', Expected::LeftBrace)?;
    let inside = oneof_elements(alloc, notes, rows, level)?;
    let close = expect_mark(rows, b'}', Expected::OneofBody)?;
    let comments = comments_between(alloc, &start, &open)?;
    let span = span_between(&start, &close);
    let OneofElementsByKind { options, fields } = inside;
    Ok(Oneof {
        name,
        options,
        fields,
        comments,
        span,
    })
}

/// ";" | field
#[cycle(bodies)]
#[tactic(auto, unfolding(crate::specs::inner::Bodies::extend_element, crate::specs::inner::BodyWords::extend_element))]
fn extend_element(
    alloc: Global,
    notes: &mut Vec<Note>,
    rows: &mut Unread<'_, '_>,
    level: usize,
) -> Result<Option<Field>, Refused>
    ensures read { Gives (λ x. x) result rows.new (rule.extend_element_at level rows.old) }
    ensures notes { Adds result notes.old.items (rule.extend_element_notes level rows.old) notes.new.items }
    ensures words { Says result (said.extend_element_at level rows.old) }
{
    if sees(rows, SEMICOLON) {
        expect_mark(rows, b';', Expected::Semicolon)?;
        return Ok(None);
    }
    let field = field(alloc, notes, rows, level, Expected::ExtendBody)?;
    Ok(Some(field))
}

#[cycle(bodies)]
#[tactic(auto, unfolding(crate::specs::inner::Bodies::extend_elements, crate::specs::inner::BodyWords::extend_elements))]
fn extend_elements(
    alloc: Global,
    notes: &mut Vec<Note>,
    rows: &mut Unread<'_, '_>,
    level: usize,
) -> Result<Items<Field>, Refused>
    ensures read { Gives (λ x. x) result rows.new (rule.extend_elements_at level rows.old) }
    ensures notes { Adds result notes.old.items (rule.extend_elements_notes level rows.old) notes.new.items }
    ensures words { Says result (said.extend_elements_at level rows.old) }
{
    let mut fields = Items::new(alloc);
    'extend: while sees_other(rows, RIGHT_BRACE) {
        let element = extend_element(alloc, notes, rows, level)?;
        add_extend_element(&mut fields, element)?;
    }
    Ok(fields)
}

/// extend = "extend" typename "{" (";" | field)* "}"
#[cycle(bodies)]
#[tactic(auto, unfolding(crate::specs::inner::Bodies::extend, crate::specs::inner::BodyWords::extend))]
pub fn extend(
    alloc: Global,
    notes: &mut Vec<Note>,
    rows: &mut Unread<'_, '_>,
    level: usize,
) -> Result<Extend, Refused>
    ensures read { Gives (λ x. x) result rows.new (rule.extend_at level rows.old) }
    ensures notes { Adds result notes.old.items (rule.extend_notes level rows.old) notes.new.items }
    ensures words { Says result (said.extend_at level rows.old) }
{
    let start = expect_word(rows, "extend", Expected::Statement)?;
    let (extendee, _) = typename(alloc, rows, Expected::TypeName)?;
    let open = expect_mark(rows, b'{', Expected::DotOrLeftBrace)?;
    let fields = extend_elements(alloc, notes, rows, level)?;
    let close = expect_mark(rows, b'}', Expected::ExtendBody)?;
    let comments = comments_between(alloc, &start, &open)?;
    let span = span_between(&start, &close);
    Ok(Extend {
        extendee,
        fields,
        comments,
        span,
    })
}

/// message = "message" ident mbody
#[cycle(bodies)]
#[tactic(auto, unfolding(crate::specs::inner::Bodies::message, crate::specs::inner::BodyWords::message))]
pub fn message(
    alloc: Global,
    notes: &mut Vec<Note>,
    rows: &mut Unread<'_, '_>,
    level: usize,
) -> Result<Message, Refused>
    ensures read { Gives (λ x. x) result rows.new (rule.message_at level rows.old) }
    ensures notes { Adds result notes.old.items (rule.message_notes level rows.old) notes.new.items }
    ensures words { Says result (said.message_at level rows.old) }
{
    let start = expect_word(rows, "message", Expected::Statement)?;
    let word = start.span();
    let name = ident(alloc, rows, Expected::Ident)?;
    let (body, (open, close)) = mbody(alloc, notes, rows, level, &word, Expected::LeftBrace)?;
    let comments = comments_between(alloc, &start, &open)?;
    let span = span_between(&start, &close);
    Ok(Message {
        name,
        body,
        comments,
        span,
    })
}

/// oneof | enum | message | extend | option | reserved | extensions
#[cycle(bodies)]
#[tactic(auto, unfolding(crate::specs::inner::Bodies::keyword_element, crate::specs::inner::BodyWords::keyword_element))]
fn keyword_element(
    alloc: Global,
    notes: &mut Vec<Note>,
    rows: &mut Unread<'_, '_>,
    level: usize,
) -> Result<Element, Refused>
    ensures read { Gives (λ x. x) result rows.new (rule.keyword_element_at level rows.old) }
    ensures notes { Adds result notes.old.items (rule.keyword_element_notes level rows.old) notes.new.items }
    ensures words { Says result (said.keyword_element_at level rows.old) }
{
    if sees(rows, ONEOF) {
        let oneof = oneof(alloc, notes, rows, level)?;
        return Ok(Element::Item(MessageItem::Oneof(oneof)));
    }
    if sees(rows, ENUM) {
        let enumeration = enum_(alloc, notes, rows, Expected::MessageBody)?;
        return Ok(Element::Item(MessageItem::Enum(enumeration)));
    }
    if sees(rows, MESSAGE) {
        let message = message(alloc, notes, rows, level)?;
        return Ok(Element::Item(MessageItem::Message(message)));
    }
    if sees(rows, EXTEND) {
        let extend = extend(alloc, notes, rows, level)?;
        return Ok(Element::Item(MessageItem::Extend(extend)));
    }
    bodiless_element(alloc, notes, rows)
}

/// An element that begins with a keyword, or one without a body, added to those inside.
#[cycle(bodies)]
fn add_keyword_element(
    alloc: Global,
    notes: &mut Vec<Note>,
    rows: &mut Unread<'_, '_>,
    level: usize,
    inside: &mut ElementsByKind,
) -> Result<(), Refused>
    ensures read { Gives (λ x. inside.new) result rows.new (mapped (rule.add_element inside.old) (rule.keyword_element_at level) rows.old) }
    ensures notes { Adds result notes.old.items (rule.keyword_element_notes level rows.old) notes.new.items }
    ensures words { Says result (said.keyword_element_at level rows.old) }
{
    let element = keyword_element(alloc, notes, rows, level)?;
    add_element(inside, element)?;
    Ok(())
}

/// ";" | field | oneof | enum | message | extend | option | reserved | extensions , added to those
/// inside. A field is large, and most elements are fields: it goes straight to its list.
#[cycle(bodies)]
#[tactic(auto, unfolding(crate::specs::inner::Bodies::element, crate::specs::inner::BodyWords::element))]
fn element(
    alloc: Global,
    notes: &mut Vec<Note>,
    rows: &mut Unread<'_, '_>,
    level: usize,
    inside: &mut ElementsByKind,
) -> Result<(), Refused>
    ensures read { Gives (λ x. inside.new) result rows.new (mapped (rule.add_element inside.old) (rule.element_at level) rows.old) }
    ensures notes { Adds result notes.old.items (rule.element_notes level rows.old) notes.new.items }
    ensures words { Says result (said.element_at level rows.old) }
{
    if sees(rows, SEMICOLON) {
        expect_mark(rows, b';', Expected::Semicolon)?;
        return Ok(());
    }
    if sees_keyword(rows) {
        return add_keyword_element(alloc, notes, rows, level, inside);
    }
    let field = field(alloc, notes, rows, level, Expected::MessageBody)?;
    inside.items.push(MessageItem::Field(field))?;
    Ok(())
}

#[cycle(bodies)]
#[tactic(auto, unfolding(crate::specs::inner::Bodies::elements, crate::specs::inner::BodyWords::elements))]
fn elements(
    alloc: Global,
    notes: &mut Vec<Note>,
    rows: &mut Unread<'_, '_>,
    level: usize,
) -> Result<ElementsByKind, Refused>
    ensures read { Gives (λ x. x) result rows.new (rule.elements_at level rows.old) }
    ensures notes { Adds result notes.old.items (rule.elements_notes level rows.old) notes.new.items }
    ensures words { Says result (said.elements_at level rows.old) }
{
    let mut inside = ElementsByKind {
        items: Items::new(alloc),
        extensions: Items::new(alloc),
        options: Items::new(alloc),
        reserved: Items::new(alloc),
    };
    'more: while sees_other(rows, RIGHT_BRACE) {
        element(alloc, notes, rows, level, &mut inside)?;
    }
    Ok(inside)
}

/// mbody =
///     "{" (";" | field | oneof | enum | message | extend | option | reserved | extensions)* "}"
#[cycle(bodies)]
#[tactic(auto, unfolding(crate::specs::inner::Bodies::mbody, crate::specs::inner::BodyWords::braces))]
fn braces<'t, 'a>(
    alloc: Global,
    notes: &mut Vec<Note>,
    rows: &mut Unread<'t, 'a>,
    level: usize,
    expected: Expected,
) -> Result<(MessageBody, (RowAt<'t, 'a>, RowAt<'t, 'a>)), Refused>
    ensures read { Gives (λ (kind, (first, last)). (kind, (first.at, last.at))) result rows.new (rule.braces_at level rows.old) }
    ensures notes { Adds result notes.old.items (rule.braces_notes level rows.old) notes.new.items }
    ensures words { Says result (said.braces_at level expected rows.old) }
{
    let open = expect_mark(rows, b'{', expected)?;
    let inside = elements(alloc, notes, rows, level)?;
    let close = expect_mark(rows, b'}', Expected::MessageBody)?;
    let body = MessageBody {
        items: inside.items,
        extensions: inside.extensions,
        options: inside.options,
        reserved: inside.reserved,
    };
    Ok((body, (open, close)))
}

/// A body after its word. `level` says how many more levels may be opened.
#[cycle(bodies)]
#[tactic(auto, unfolding(crate::specs::inner::Bodies::mbody_at, crate::specs::inner::BodyWords::mbody_at))]
fn mbody<'t, 'a>(
    alloc: Global,
    notes: &mut Vec<Note>,
    rows: &mut Unread<'t, 'a>,
    level: usize,
    word: &Span,
    expected: Expected,
) -> Result<(MessageBody, (RowAt<'t, 'a>, RowAt<'t, 'a>)), Refused>
    ensures read { Gives (λ (kind, (first, last)). (kind, (first.at, last.at))) result rows.new ((rule.mbody_at level).code rows.old) }
    ensures notes { Adds result notes.old.items ((rule.mbody_at level).notes word.now rows.old) notes.new.items }
    ensures words { Says result (said.mbody_at level expected rows.old) }
{
    if level == 0 {
        return Err(refuse_deep_body(notes, rows, word, expected));
    }
    braces(alloc, notes, rows, level - 1, expected)
}
