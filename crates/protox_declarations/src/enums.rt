//! Reads enums.

ghost use Rattle.std.specs.Prelude.{◌≡◌, OnOk};
ghost use Rattle.protox_rows.specs.inner.Outcome.{Gives};
ghost use Rattle.protox_rows.specs.inner.Words.{Says};
ghost use Rattle.protox_declarations.specs.inner.BlockWords as said;
ghost use Rattle.protox_rows.specs.inner.Notes.{Adds};
ghost use Rattle.protox_declarations.specs.inner.Enums as rule;

use crate::options::{after_list, list_if_any, option};
use crate::ranges::reserved;
use protox_ast::ast::{Enum, EnumValue, Option as OptionStatement, Reserved};
use protox_descriptor::values::Items;
use protox_grammar::note::Note;
use protox_rows::class::{OPTION, RESERVED, RIGHT_BRACE, SEMICOLON, sees, sees_any, sees_other};
use protox_rows::expected::Expected;
use protox_rows::leaf::{expect_mark, expect_word, join};
use protox_rows::names::{ident, int};
use protox_rows::refused::Refused;
use protox_rows::rows::{Unread, comments_between, comments_of, span_between};
use std::alloc::{AllocError, Global};

/// A declaration in an enum.
#[derive(Drop)]
pub(crate) enum EnumElement {
    Empty,
    Option(OptionStatement),
    Reserved(Reserved),
    Value(EnumValue),
}

/// The declarations in an enum, by kinds.
#[derive(Drop)]
pub(crate) struct EnumParts {
    options: Items<OptionStatement>,
    values: Items<EnumValue>,
    reserved: Items<Reserved>,
}

/// evalue = ident "=" int list? ";"
#[tactic(auto, unfolding(crate::specs::inner::Enums::evalue, crate::specs::inner::BlockWords::evalue))]
fn evalue(
    alloc: Global,
    notes: &mut Vec<Note>,
    rows: &mut Unread<'_, '_>,
) -> Result<EnumValue, Refused>
    ensures read { Gives (λ x. x) result rows.new ((rule.evalue).code rows.old) }
    ensures notes { Adds result notes.old.items ((rule.evalue).notes rows.old) notes.new.items }
    ensures words { Says result (said.evalue rows.old) }
{
    let begun = rows.again();
    let name = ident(alloc, rows, Expected::EnumBody)?;
    expect_mark(rows, b'=', Expected::Equals)?;
    let number = int(rows)?;
    let options = list_if_any(alloc, notes, rows)?;
    let end = expect_mark(rows, b';', after_list(&options))?;
    let comments = comments_of(alloc, &begun, &end)?;
    let span = join(&name.span, &end.span());
    Ok(EnumValue {
        name,
        number,
        options,
        comments,
        span,
    })
}

/// ";" | option | reserved | evalue
#[tactic(auto, unfolding(crate::specs::inner::Enums::enum_element, crate::specs::inner::BlockWords::enum_element))]
fn enum_element(
    alloc: Global,
    notes: &mut Vec<Note>,
    rows: &mut Unread<'_, '_>,
) -> Result<EnumElement, Refused>
    ensures read { Gives (λ x. x) result rows.new ((rule.enum_element).code rows.old) }
    ensures notes { Adds result notes.old.items ((rule.enum_element).notes rows.old) notes.new.items }
    ensures words { Says result (said.enum_element rows.old) }
{
    if sees(rows, SEMICOLON) {
        expect_mark(rows, b';', Expected::Semicolon)?;
        return Ok(EnumElement::Empty);
    }
    if !sees_any(rows, &[OPTION, RESERVED]) {
        let value = evalue(alloc, notes, rows)?;
        return Ok(EnumElement::Value(value));
    }
    if sees(rows, OPTION) {
        let option = option(alloc, notes, rows, Expected::EnumBody)?;
        return Ok(EnumElement::Option(option));
    }
    let reserved = reserved(alloc, notes, rows, Expected::EnumBody)?;
    Ok(EnumElement::Reserved(reserved))
}

fn put(parts: &mut EnumParts, element: EnumElement) -> Result<(), AllocError>
    ensures { OnOk result (parts.new ≡ rule.add parts.old element) }
{
    match element {
        EnumElement::Empty => Ok(()),
        EnumElement::Option(option) => parts.options.push(option),
        EnumElement::Reserved(reserved) => parts.reserved.push(reserved),
        EnumElement::Value(value) => parts.values.push(value),
    }
}

#[tactic(auto, unfolding(crate::specs::inner::Enums::enum_elements, crate::specs::inner::BlockWords::enum_elements))]
fn enum_elements(
    alloc: Global,
    notes: &mut Vec<Note>,
    rows: &mut Unread<'_, '_>,
) -> Result<EnumParts, Refused>
    ensures read { Gives (λ x. x) result rows.new ((rule.enum_elements).code rows.old) }
    ensures notes { Adds result notes.old.items ((rule.enum_elements).notes rows.old) notes.new.items }
    ensures words { Says result (said.enum_elements rows.old) }
{
    let mut parts = EnumParts {
        options: Items::new(alloc),
        values: Items::new(alloc),
        reserved: Items::new(alloc),
    };
    'more: while sees_other(rows, RIGHT_BRACE) {
        let element = enum_element(alloc, notes, rows)?;
        put(&mut parts, element)?;
    }
    Ok(parts)
}

/// enum = "enum" ident "{" (";" | option | reserved | evalue)* "}"
#[tactic(auto, unfolding(crate::specs::inner::Enums::enum_, crate::specs::inner::BlockWords::enum_))]
pub fn enum_(
    alloc: Global,
    notes: &mut Vec<Note>,
    rows: &mut Unread<'_, '_>,
    expected: Expected,
) -> Result<Enum, Refused>
    ensures read { Gives (λ x. x) result rows.new ((rule.enum_).code rows.old) }
    ensures notes { Adds result notes.old.items ((rule.enum_).notes rows.old) notes.new.items }
    ensures words { Says result (said.enum_ expected rows.old) }
{
    let start = expect_word(rows, "enum", expected)?;
    let name = ident(alloc, rows, Expected::Ident)?;
    let open = expect_mark(rows, b'{', Expected::LeftBrace)?;
    let parts = enum_elements(alloc, notes, rows)?;
    let close = expect_mark(rows, b'}', Expected::EnumBody)?;
    let comments = comments_between(alloc, &start, &open)?;
    let span = span_between(&start, &close);
    let EnumParts {
        options,
        values,
        reserved,
    } = parts;
    Ok(Enum {
        name,
        options,
        values,
        reserved,
        comments,
        span,
    })
}
