//! Reading options, lists of them, and option statements.

ghost use Rattle.std.specs.Prelude.{◌≡◌};
ghost use Rattle.protox_rows.specs.inner.Outcome.{Gives};
ghost use Rattle.protox_rows.specs.inner.Words.{Says};
ghost use Rattle.protox_declarations.specs.inner.OptionWords as said;
ghost use Rattle.protox_rows.specs.inner.Notes.{Adds};
ghost use Rattle.protox_declarations.specs.inner.Options as rule;

use crate::values::value;
use protox_ast::ast::{Boxed, Option as OptionStatement, OptionBody, OptionList, OptionNamePart};
use protox_descriptor::values::Items;
use protox_grammar::note::Note;
use protox_rows::class::{COMMA, DOT, INTEGER, LEFT_BRACKET, sees, sees_below};
use protox_rows::expected::Expected;
use protox_rows::leaf::{expect_mark, expect_word};
use protox_rows::names::{ident, typename};
use protox_rows::refused::Refused;
use protox_rows::rows::{Unread, comments_between, span_between};
use std::alloc::Global;

/// part = ident | "(" typename ")"
#[tactic(auto, unfolding(crate::specs::inner::Options::part, crate::specs::inner::OptionWords::part))]
fn part(alloc: Global, rows: &mut Unread<'_, '_>) -> Result<OptionNamePart, Refused>
    ensures read { Gives (λ x. x) result rows.new ((rule.part).code rows.old) }
    ensures words { Says result (said.part rows.old) }
{
    if sees_below(rows, INTEGER) {
        let name = ident(alloc, rows, Expected::OptionName)?;
        return Ok(OptionNamePart::Ident(name));
    }
    let open = expect_mark(rows, b'(', Expected::OptionName)?;
    let (name, _) = typename(alloc, rows, Expected::TypeName)?;
    let close = expect_mark(rows, b')', Expected::DotOrRightParen)?;
    Ok(OptionNamePart::Extension(name, span_between(&open, &close)))
}

#[tactic(auto, unfolding(crate::specs::inner::Options::more_part, crate::specs::inner::OptionWords::more_part))]
fn more_part(alloc: Global, rows: &mut Unread<'_, '_>) -> Result<OptionNamePart, Refused>
    ensures read { Gives (λ x. x) result rows.new ((rule.more_part).code rows.old) }
    ensures words { Says result (said.more_part rows.old) }
{
    expect_mark(rows, b'.', Expected::EqualsOrDot)?;
    part(alloc, rows)
}

/// part ("." part)*
#[tactic(auto, unfolding(crate::specs::inner::Options::name, crate::specs::inner::OptionWords::name))]
fn name(alloc: Global, rows: &mut Unread<'_, '_>) -> Result<Items<OptionNamePart>, Refused>
    ensures read { Gives (λ x. x) result rows.new ((rule.name).code rows.old) }
    ensures words { Says result (said.name rows.old) }
{
    let first = part(alloc, rows)?;
    let mut parts = Items::new(alloc);
    parts.push(first)?;
    'more: while sees(rows, DOT) {
        let part = more_part(alloc, rows)?;
        parts.push(part)?;
    }
    Ok(parts)
}

/// body = part ("." part)* "=" value
#[tactic(auto, unfolding(crate::specs::inner::Options::body, crate::specs::inner::Options::name, crate::specs::inner::OptionWords::body))]
fn body(
    alloc: Global,
    notes: &mut Vec<Note>,
    rows: &mut Unread<'_, '_>,
) -> Result<OptionBody, Refused>
    ensures read { Gives (λ x. x) result rows.new ((rule.body).code rows.old) }
    ensures notes { Adds result notes.old.items ((rule.body).notes rows.old) notes.new.items }
    ensures words { Says result (said.body rows.old) }
{
    let name = name(alloc, rows)?;
    expect_mark(rows, b'=', Expected::EqualsOrDot)?;
    let value = value(alloc, notes, rows)?;
    Ok(OptionBody { name, value })
}

#[tactic(auto, unfolding(crate::specs::inner::Options::more_body, crate::specs::inner::OptionWords::more_body))]
fn more_body(
    alloc: Global,
    notes: &mut Vec<Note>,
    rows: &mut Unread<'_, '_>,
) -> Result<OptionBody, Refused>
    ensures read { Gives (λ x. x) result rows.new ((rule.more_body).code rows.old) }
    ensures notes { Adds result notes.old.items ((rule.more_body).notes rows.old) notes.new.items }
    ensures words { Says result (said.more_body rows.old) }
{
    expect_mark(rows, b',', Expected::CommaOrRightBracket)?;
    body(alloc, notes, rows)
}

/// body ("," body)*
#[tactic(auto, unfolding(crate::specs::inner::Options::bodies, crate::specs::inner::OptionWords::bodies))]
fn bodies(
    alloc: Global,
    notes: &mut Vec<Note>,
    rows: &mut Unread<'_, '_>,
) -> Result<Items<OptionBody>, Refused>
    ensures read { Gives (λ x. x) result rows.new ((rule.bodies).code rows.old) }
    ensures notes { Adds result notes.old.items ((rule.bodies).notes rows.old) notes.new.items }
    ensures words { Says result (said.bodies rows.old) }
{
    let first = body(alloc, notes, rows)?;
    let mut bodies = Items::new(alloc);
    bodies.push(first)?;
    'more: while sees(rows, COMMA) {
        let body = more_body(alloc, notes, rows)?;
        bodies.push(body)?;
    }
    Ok(bodies)
}

/// list = "[" body ("," body)* "]"
#[tactic(auto, unfolding(crate::specs::inner::Options::list, crate::specs::inner::Options::bodies, crate::specs::inner::OptionWords::list))]
fn list(
    alloc: Global,
    notes: &mut Vec<Note>,
    rows: &mut Unread<'_, '_>,
) -> Result<OptionList, Refused>
    ensures read { Gives (λ x. x) result rows.new ((rule.list).code rows.old) }
    ensures notes { Adds result notes.old.items ((rule.list).notes rows.old) notes.new.items }
    ensures words { Says result (said.list rows.old) }
{
    let open = expect_mark(rows, b'[', Expected::LeftBracket)?;
    let options = bodies(alloc, notes, rows)?;
    let close = expect_mark(rows, b']', Expected::CommaOrRightBracket)?;
    let span = span_between(&open, &close);
    Ok(OptionList { options, span })
}

/// list?
#[tactic(auto, unfolding(crate::specs::inner::Options::list_if_any))]
pub fn list_if_any(
    alloc: Global,
    notes: &mut Vec<Note>,
    rows: &mut Unread<'_, '_>,
) -> Result<Option<Boxed<OptionList>>, Refused>
    ensures read { Gives (λ x. x) result rows.new ((rule.list_if_any).code rows.old) }
    ensures notes { Adds result notes.old.items ((rule.list_if_any).notes rows.old) notes.new.items }
    ensures words { Says result (said.list rows.old) }
{
    if sees(rows, LEFT_BRACKET) {
        let options = list(alloc, notes, rows)?;
        return Ok(Some(Boxed::new(alloc, options)?));
    }
    Ok(None)
}

/// option = "option" body ";"
#[tactic(auto, unfolding(crate::specs::inner::Options::option, crate::specs::inner::OptionWords::option))]
pub fn option(
    alloc: Global,
    notes: &mut Vec<Note>,
    rows: &mut Unread<'_, '_>,
    expected: Expected,
) -> Result<OptionStatement, Refused>
    ensures read { Gives (λ x. x) result rows.new ((rule.option).code rows.old) }
    ensures notes { Adds result notes.old.items ((rule.option).notes rows.old) notes.new.items }
    ensures words { Says result (said.option expected rows.old) }
{
    let start = expect_word(rows, "option", expected)?;
    let body = body(alloc, notes, rows)?;
    let end = expect_mark(rows, b';', Expected::Semicolon)?;
    let comments = comments_between(alloc, &start, &end)?;
    let span = span_between(&start, &end);
    Ok(OptionStatement {
        body,
        comments,
        span,
    })
}

/// What is expected after a list of options, or where such a list may stand.
pub fn after_list(options: &Option<Boxed<OptionList>>) -> Expected
    ensures { result ≡ said.after_list options.now }
{
    match options {
        Some(_) => Expected::Semicolon,
        None => Expected::SemicolonOrOptions,
    }
}
