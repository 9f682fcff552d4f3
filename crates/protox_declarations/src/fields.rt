//! Reads the kinds of fields without a body, and the names of groups.

ghost use Rattle.std.specs.Prelude.{◌≡◌, ◌++◌, OnOk, suc, length};
ghost use Rattle.protox_grammar.specs.Reader.{mapped};
ghost use Rattle.protox_grammar.specs.Told.{group_notes};
ghost use Rattle.protox_rows.specs.inner.Outcome.{Gives};
ghost use Rattle.protox_rows.specs.inner.Words.{Says};
ghost use Rattle.protox_declarations.specs.inner.BodyWords as said;
ghost use Rattle.protox_rows.specs.declared.expected.Expected.TheVariants as expect;
ghost use Rattle.protox_rows.specs.inner.Notes.{Adds};
ghost use Rattle.protox_declarations.specs.inner.Fields as rule;

use crate::around::first_span;
use crate::options::{after_list, list_if_any};
use crate::parts::FieldParts;
use protox_ast::ast::{Boxed, Field, FieldKind, FieldLabel, Ident, Int, OptionList, Ty};
use protox_descriptor::case::is_valid_group_name;
use protox_grammar::note::{Note, Noted};
use protox_lex::error::{ParseErrorKind, Span};
use protox_rows::expected::Expected;
use protox_rows::leaf::{copied, expect_mark, expect_word, join};
use protox_rows::names::{field_type, ident, int};
use protox_rows::refused::Refused;
use protox_rows::rows::{RowAt, Unread, comments_of, span_between};
use std::alloc::{AllocError, Global};

// What may follow a named type: a dot goes on with it.
fn after_type(ty: &Ty, named: Expected, scalar: Expected) -> Expected
    ensures { result ≡ said.after_type ty.now named scalar }
{
    match ty {
        Ty::Named(_) => named,
        _ => scalar,
    }
}

/// ident "=" int list? ";"
#[tactic(auto, unfolding(crate::specs::inner::Fields::name_and_number, crate::specs::inner::BodyWords::name_and_number))]
fn name_and_number<'t, 'a>(
    alloc: Global,
    notes: &mut Vec<Note>,
    rows: &mut Unread<'t, 'a>,
    expected: Expected,
) -> Result<(Ident, Int, Option<Boxed<OptionList>>, RowAt<'t, 'a>), Refused>
    ensures read { Gives (λ x. (x.0, (x.1, (x.2, x.3.at)))) result rows.new ((rule.name_and_number).code rows.old) }
    ensures notes { Adds result notes.old.items ((rule.name_and_number).notes rows.old) notes.new.items }
    ensures words { Says result (said.name_and_number expected rows.old) }
{
    let name = ident(alloc, rows, expected)?;
    expect_mark(rows, b'=', Expected::Equals)?;
    let number = int(rows)?;
    let options = list_if_any(alloc, notes, rows)?;
    let end = expect_mark(rows, b';', after_list(&options))?;
    Ok((name, number, options, end))
}

/// normal = type ident "=" int list? ";" , read as the field that begins at the rows `begun` with
/// this label. Most fields are normal ones, so their parts go straight into the field, and the field
/// to where it is wanted: a result that is passed on is copied.
#[inline(always)]
#[tactic(auto, unfolding(crate::specs::inner::Fields::normal, crate::specs::inner::Fields::name_and_number, crate::specs::inner::BodyWords::normal, crate::specs::inner::BodyWords::name_and_number))]
pub(crate) fn normal(
    alloc: Global,
    notes: &mut Vec<Note>,
    rows: &mut Unread<'_, '_>,
    expected: Expected,
    begun: &Unread<'_, '_>,
    label: Option<(FieldLabel, Span)>,
) -> Result<Field, Refused>
    ensures read { Gives (λ x. x) result rows.new (mapped (λ kind. rule.field_of begun.now (label, kind)) (rule.normal).code rows.old) }
    ensures notes { Adds result notes.old.items ((rule.normal).notes rows.old) notes.new.items }
    ensures words { Says result (said.normal expected rows.old) }
{
    let (ty, ty_span) = field_type(alloc, rows, expected)?;
    let behind = after_type(&ty, Expected::DotOrIdent, Expected::Ident);
    let name = ident(alloc, rows, behind)?;
    expect_mark(rows, b'=', Expected::Equals)?;
    let number = int(rows)?;
    let options = list_if_any(alloc, notes, rows)?;
    let end = expect_mark(rows, b';', after_list(&options))?;
    let comments = comments_of(alloc, begun, &end)?;
    let span = join(&first_span(begun), &end.span());
    Ok(Field {
        label,
        name,
        kind: FieldKind::Normal { ty, ty_span },
        number,
        options,
        comments,
        span,
    })
}

/// map = "map" "<" type "," type ">" ident "=" int list? ";"
#[tactic(auto, unfolding(crate::specs::inner::Fields::map_field, crate::specs::inner::BodyWords::map_field))]
pub(crate) fn map_field<'t, 'a>(
    alloc: Global,
    notes: &mut Vec<Note>,
    rows: &mut Unread<'t, 'a>,
) -> Result<(FieldParts, (RowAt<'t, 'a>, RowAt<'t, 'a>)), Refused>
    ensures read { Gives (λ (kind, (first, last)). (kind, (first.at, last.at))) result rows.new ((rule.map_field).code rows.old) }
    ensures notes { Adds result notes.old.items ((rule.map_field).notes rows.old) notes.new.items }
    ensures words { Says result (said.map_field rows.old) }
{
    let start = expect_word(rows, "map", Expected::Type)?;
    expect_mark(rows, b'<', Expected::LeftAngleBracket)?;
    let (key_ty, key_ty_span) = field_type(alloc, rows, Expected::Type)?;
    let comma = after_type(&key_ty, Expected::DotOrComma, Expected::Comma);
    expect_mark(rows, b',', comma)?;
    let (value_ty, value_ty_span) = field_type(alloc, rows, Expected::Type)?;
    let angle = after_type(
        &value_ty,
        Expected::DotOrRightAngleBracket,
        Expected::RightAngleBracket,
    );
    let close = expect_mark(rows, b'>', angle)?;
    let (name, number, options, end) = name_and_number(alloc, notes, rows, Expected::Ident)?;
    let last = end.again();
    let kind = FieldKind::Map {
        ty_span: span_between(&start, &close),
        key_ty: Boxed::new(alloc, key_ty)?,
        key_ty_span,
        value_ty: Boxed::new(alloc, value_ty)?,
        value_ty_span,
    };
    let parts = FieldParts {
        name,
        kind,
        number,
        options,
    };
    Ok((parts, (end, last)))
}

// Whether the group's name at which `left` rows are left begins with a capital.
fn check_group_name(
    notes: &mut Vec<Note>,
    left: usize,
    rows: &Unread<'_, '_>,
    name: &str,
    span: &Span,
) -> Result<(), AllocError>
    requires { left ≡ suc (length rows.now) }
    ensures { OnOk result (notes.new.items ≡ notes.old.items ++ group_notes (name.now, span.now) rows.now) }
{
    if is_valid_group_name(name) {
        return Ok(());
    }
    let span = copied(span);
    notes.push(Note {
        left,
        noted: Noted::Fault(ParseErrorKind::InvalidGroupName { span }),
    })?;
    Ok(())
}

/// ident , the name of a group. It is checked before the row behind it is read.
#[tactic(auto, unfolding(crate::specs::inner::Fields::group_name))]
pub(crate) fn group_name(
    alloc: Global,
    notes: &mut Vec<Note>,
    rows: &mut Unread<'_, '_>,
) -> Result<Ident, Refused>
    ensures read { Gives (λ x. x) result rows.new ((rule.group_name).code rows.old) }
    ensures notes { Adds result notes.old.items ((rule.group_name).notes rows.old) notes.new.items }
    ensures words { Says result expect.Ident }
{
    let left = rows.len();
    let name = ident(alloc, rows, Expected::Ident)?;
    check_group_name(notes, left, rows, name.value.as_str(), &name.span)?;
    Ok(name)
}
