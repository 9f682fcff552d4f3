//! Reading names, numbers, types and labels. Each rule of the grammar has a function that takes its
//! rows.

ghost use Rattle.std.specs.Prelude.{◌≡◌, ◌<◌, IfOk, length, option_map};
ghost use Rattle.protox_ast.specs.Ast.{last_place, scalar, span_if_any};
ghost use Rattle.protox_ast.specs.Spelling.{dot, minus};
ghost use Rattle.protox_ast.specs.declared.ast.Ident as ident_type;
ghost use Rattle.protox_grammar.specs.Class.{in_set, only};
ghost use Rattle.protox_grammar.specs.Reader.{fixed, mapped, optional};
ghost use Rattle.protox_grammar.specs.Rules.{find_scalar, all_scalars};
ghost use Rattle.protox_grammar.specs.Token as token;
ghost use Rattle.protox_lexeme.specs.Shapes.{Mark};
ghost use Rattle.protox_rows.specs.inner.Outcome.{Gives};
ghost use Rattle.protox_rows.specs.inner.Names as rule;
ghost use Rattle.protox_rows.specs.inner.Words.{Says};
ghost use Rattle.protox_rows.specs.inner.Words as said;
ghost use Rattle.protox_rows.specs.declared.expected.Expected.TheVariants as expect;

use crate::class::{DOT, MINUS, OPTIONAL, REQUIRED, sees, sees_scalar};
use crate::expected::Expected;
use crate::leaf::{copied, expect_mark, expect_word, join, refused};
use crate::refused::Refused;
use crate::rows::Unread;
use protox_ast::ast::{FieldLabel, FullIdent, Ident, Int, Ty, TypeName};
use protox_descriptor::values::{Items, Text};
use protox_lex::error::Span;
use protox_lex::lex::Token;
use std::alloc::Global;

/// ident
#[tactic(auto, unfolding(protox_grammar::specs::Reader::leaf, crate::specs::inner::Names::ident))]
pub fn ident(alloc: Global, rows: &mut Unread<'_, '_>, expected: Expected) -> Result<Ident, Refused>
    ensures read { Gives (λ x. x) result rows.new ((rule.ident).code rows.old) }
    ensures words { Says result expected }
{
    if let Some((first, rest)) = rows.split() {
        if let Ok(Token::Ident(text)) = first.token() {
            let value = Text::copy(alloc, text)?;
            let span = first.span();
            *rows = rest;
            return Ok(Ident { value, span });
        }
    }
    Err(refused(rows, expected))
}

#[tactic(auto, unfolding(crate::specs::inner::Names::more_part, crate::specs::inner::Words::more_part))]
fn more_part(alloc: Global, rows: &mut Unread<'_, '_>) -> Result<Ident, Refused>
    ensures read { Gives (λ x. x) result rows.new ((rule.more_part).code rows.old) }
    ensures words { Says result (said.more_part rows.old) }
{
    expect_mark(rows, b'.', Expected::Dot)?;
    ident(alloc, rows, Expected::Ident)
}

/// fullident = ident ("." ident)*
#[tactic(auto, unfolding(crate::specs::inner::Names::fullident, crate::specs::inner::Words::fullident))]
pub fn fullident(
    alloc: Global,
    rows: &mut Unread<'_, '_>,
    expected: Expected,
) -> Result<Items<Ident>, Refused>
    ensures read { Gives (λ x. x) result rows.new ((rule.fullident).code rows.old) }
    ensures some { IfOk result (λ x. 0 < length x) }
    ensures words { Says result (said.fullident expected rows.old) }
{
    let first = ident(alloc, rows, expected)?;
    let room = if sees(rows, DOT) { 4 } else { 1 };
    let mut parts = Items::with_capacity(alloc, room)?;
    parts.push(first)?;
    'more: while sees(rows, DOT) {
        let part = more_part(alloc, rows)?;
        parts.push(part)?;
    }
    Ok(parts)
}

// The span of the last part.
fn last_part(first: &Span, parts: &[Ident]) -> Span
    ensures { result ≡ last_place (λ (x : ident_type.Ident). x.span) first.now parts.now }
{
    let mut last = copied(first);
    for part in parts {
        last = copied(&part.span);
    }
    last
}

// The span of a name: from its dot or first part to its last part.
fn name_span(dot: &Option<Span>, parts: &[Ident]) -> Span
    ensures { result ≡ rule.name_span dot.now parts.now }
{
    match parts {
        [] => 0..0,
        [first, rest @ ..] => {
            let last = last_part(&first.span, rest);
            match dot {
                Some(dot) => join(dot, &last),
                None => join(&first.span, &last),
            }
        }
    }
}

fn dot_if_any(rows: &mut Unread<'_, '_>) -> Result<Option<Span>, Refused>
    ensures read { Gives (λ x. x) result rows.new (mapped span_if_any (optional (in_set (only token.dot)) (fixed (Mark dot))) rows.old) }
    ensures words { Says result expect.Dot }
{
    if sees(rows, DOT) {
        let dot = expect_mark(rows, b'.', Expected::Dot)?;
        return Ok(Some(dot.span()));
    }
    Ok(None)
}

// What is expected first in a name. After a dot it can only be an identifier.
fn first_part(dot: &Option<Span>, expected: Expected) -> Expected
    ensures { result ≡ said.first_part dot.now expected }
{
    match dot {
        Some(_) => Expected::Ident,
        None => expected,
    }
}

/// typename = "."? fullident
#[tactic(auto, unfolding(crate::specs::inner::Names::typename, crate::specs::inner::Words::typename))]
pub fn typename(
    alloc: Global,
    rows: &mut Unread<'_, '_>,
    expected: Expected,
) -> Result<(TypeName, Span), Refused>
    ensures read { Gives (λ x. (x.0, x.1)) result rows.new ((rule.typename).code rows.old) }
    ensures words { Says result (said.typename expected rows.old) }
{
    let leading_dot = dot_if_any(rows)?;
    let parts = fullident(alloc, rows, first_part(&leading_dot, expected))?;
    let span = name_span(&leading_dot, parts.as_slice());
    let name = FullIdent::from_parts(parts.into_vec());
    Ok((TypeName { leading_dot, name }, span))
}

/// integer
#[tactic(auto, unfolding(protox_grammar::specs::Reader::leaf, crate::specs::inner::Names::integer))]
pub fn integer(rows: &mut Unread<'_, '_>) -> Result<(u64, Span), Refused>
    ensures read { Gives (λ x. (x.0, x.1)) result rows.new ((rule.integer).code rows.old) }
    ensures words { Says result expect.Int }
{
    if let Some((first, rest)) = rows.split() {
        if let Ok(Token::IntLiteral(value)) = first.token() {
            *rows = rest;
            return Ok((*value, first.span()));
        }
    }
    Err(refused(rows, Expected::Int))
}

/// float
#[tactic(auto, unfolding(protox_grammar::specs::Reader::leaf, crate::specs::inner::Names::float))]
pub fn float(
    alloc: Global,
    rows: &mut Unread<'_, '_>,
    expected: Expected,
) -> Result<(Text, Span), Refused>
    ensures read { Gives (λ x. (x.0, x.1)) result rows.new ((rule.float).code rows.old) }
    ensures words { Says result expected }
{
    if let Some((first, rest)) = rows.split() {
        if let Ok(Token::FloatLiteral(text)) = first.token() {
            let value = Text::copy(alloc, text.0.as_str())?;
            let span = first.span();
            *rows = rest;
            return Ok((value, span));
        }
    }
    Err(refused(rows, expected))
}

/// "-"?
pub fn minus_if_any(rows: &mut Unread<'_, '_>) -> Result<Option<Span>, Refused>
    ensures read { Gives (λ x. x) result rows.new (mapped span_if_any (optional (in_set (only token.minus)) (fixed (Mark minus))) rows.old) }
    ensures words { Says result expect.Minus }
{
    if sees(rows, MINUS) {
        let minus = expect_mark(rows, b'-', Expected::Minus)?;
        return Ok(Some(minus.span()));
    }
    Ok(None)
}

/// int = "-"? integer
#[tactic(auto, unfolding(crate::specs::inner::Names::int, crate::specs::inner::Words::int))]
pub fn int(rows: &mut Unread<'_, '_>) -> Result<Int, Refused>
    ensures read { Gives (λ x. x) result rows.new ((rule.int).code rows.old) }
    ensures words { Says result (said.int rows.old) }
{
    let minus = minus_if_any(rows)?;
    let (value, number) = integer(rows)?;
    let (negative, span) = match &minus {
        Some(minus) => (true, join(minus, &number)),
        None => (false, number),
    };
    Ok(Int {
        negative,
        value,
        span,
    })
}

// The scalar type with this word.
fn scalar_type(word: &str) -> Option<Ty>
    ensures { result ≡ option_map scalar (find_scalar all_scalars word.now) }
{
    // The frequent ones come first.
    match word {
        "string" => Some(Ty::String),
        "int32" => Some(Ty::Int32),
        "bool" => Some(Ty::Bool),
        "int64" => Some(Ty::Int64),
        "bytes" => Some(Ty::Bytes),
        "double" => Some(Ty::Double),
        "uint32" => Some(Ty::Uint32),
        "uint64" => Some(Ty::Uint64),
        "float" => Some(Ty::Float),
        "fixed32" => Some(Ty::Fixed32),
        "fixed64" => Some(Ty::Fixed64),
        "sint32" => Some(Ty::Sint32),
        "sint64" => Some(Ty::Sint64),
        "sfixed32" => Some(Ty::Sfixed32),
        "sfixed64" => Some(Ty::Sfixed64),
        _ => None,
    }
}

#[tactic(auto, unfolding(protox_grammar::specs::Reader::leaf, crate::specs::inner::Names::scalar))]
fn scalar(rows: &mut Unread<'_, '_>) -> Result<(Ty, Span), Refused>
    ensures read { Gives (λ x. (x.0, x.1)) result rows.new ((rule.scalar).code rows.old) }
    ensures words { Says result expect.Type }
{
    if let Some((first, rest)) = rows.split() {
        if let Ok(Token::Ident(word)) = first.token() {
            if let Some(ty) = scalar_type(word) {
                *rows = rest;
                return Ok((ty, first.span()));
            }
        }
    }
    Err(refused(rows, Expected::Type))
}

/// type = one of the 15 scalar words | typename
#[tactic(auto, unfolding(crate::specs::inner::Names::field_type, crate::specs::inner::Words::field_type))]
pub fn field_type(
    alloc: Global,
    rows: &mut Unread<'_, '_>,
    expected: Expected,
) -> Result<(Ty, Span), Refused>
    ensures read { Gives (λ x. (x.0, x.1)) result rows.new ((rule.field_type).code rows.old) }
    ensures words { Says result (said.field_type expected rows.old) }
{
    if sees_scalar(rows) {
        return scalar(rows);
    }
    let (name, span) = typename(alloc, rows, expected)?;
    Ok((Ty::Named(name), span))
}

/// label = "optional" | "required" | "repeated"
#[tactic(auto, unfolding(crate::specs::inner::Names::label))]
pub fn label(rows: &mut Unread<'_, '_>) -> Result<(FieldLabel, Span), Refused>
    ensures read { Gives (λ x. x) result rows.new ((rule.label).code rows.old) }
    ensures words { Says result expect.MessageBody }
{
    if sees(rows, OPTIONAL) {
        let word = expect_word(rows, "optional", Expected::MessageBody)?;
        return Ok((FieldLabel::Optional, word.span()));
    }
    if sees(rows, REQUIRED) {
        let word = expect_word(rows, "required", Expected::MessageBody)?;
        return Ok((FieldLabel::Required, word.span()));
    }
    let word = expect_word(rows, "repeated", Expected::MessageBody)?;
    Ok((FieldLabel::Repeated, word.span()))
}
