//! Reading the values of options.

ghost use Rattle.std.specs.Prelude.{◌≡◌, ◌<◌, ◌+◌, ◌^◌, ◌∷◌, ◌++◌, [], None, Some, IfOk, OnOk};
ghost use Rattle.protox_ast.specs.Keywords.{is_significant};
ghost use Rattle.protox_grammar.specs.Class.{among, in_set, union, words};
ghost use Rattle.protox_grammar.specs.Reader.{head_in, fixed};
ghost use Rattle.protox_grammar.specs.Told.{brace_notes, checked};
ghost use Rattle.protox_grammar.specs.Token as token;
ghost use Rattle.protox_lexeme.specs.Printed.{printed};
ghost use Rattle.protox_lexeme.specs.Shapes.{Mark};
ghost use Rattle.protox_lexeme.specs.Tokens.{shape_of};
ghost use Rattle.protox_rows.specs.inner.Outcome.{Gives};
ghost use Rattle.protox_rows.specs.inner.Words.{Says};
ghost use Rattle.protox_declarations.specs.inner.OptionWords as said;
ghost use Rattle.protox_rows.specs.declared.expected.Expected.TheVariants as expect;
ghost use Rattle.protox_rows.specs.inner.Notes.{Adds};
ghost use Rattle.protox_declarations.specs.inner.Options as rule;

use protox_ast::ast::{Float, Ident, Int, OptionValue, String as Literal};
use protox_descriptor::values::{Items, Text};
use protox_grammar::note::{Note, Noted};
use protox_lex::error::Span;
use protox_lex::lex::Token;
use protox_rows::class::{FLOAT, INTEGER, MINUS, STRING, is_among, sees, sees_below};
use protox_rows::expected::Expected;
use protox_rows::leaf::{copied, is_mark, join, refused};
use protox_rows::names::{float, ident, integer, minus_if_any};
use protox_rows::refused::Refused;
use protox_rows::rows::{RowAt, Unread, span_between};
use protox_rows::strings::strings;
use std::alloc::{AllocError, Global};

/// A constant without its sign.
#[derive(Drop)]
pub(crate) enum Unsigned {
    Ident(Ident),
    Int(u64, Span),
    Float(Text, Span),
}

/// constant = ident | integer | float
#[tactic(auto, unfolding(crate::specs::inner::Options::constant, crate::specs::inner::OptionWords::constant))]
fn constant(
    alloc: Global,
    rows: &mut Unread<'_, '_>,
    expected: Expected,
) -> Result<Unsigned, Refused>
    ensures read { Gives (λ x. x) result rows.new ((rule.constant).code rows.old) }
    ensures words { Says result (said.constant expected rows.old) }
{
    if sees_below(rows, INTEGER) {
        let name = ident(alloc, rows, expected)?;
        return Ok(Unsigned::Ident(name));
    }
    if sees(rows, INTEGER) {
        let (value, span) = integer(rows)?;
        return Ok(Unsigned::Int(value, span));
    }
    let (text, span) = float(alloc, rows, expected)?;
    Ok(Unsigned::Float(text, span))
}

// The text of a literal, with a minus sign.
fn negated(alloc: Global, text: &Text) -> Result<Text, AllocError>
    ensures { IfOk result (λ t. t ≡ 45 ∷ text.now) }
{
    let mut value = Text::copy(alloc, "-")?;
    value.push_str(alloc, text.as_str())?;
    Ok(value)
}

fn positive(constant: Unsigned) -> OptionValue
    ensures { result ≡ rule.signed_with None constant }
{
    match constant {
        Unsigned::Ident(ident) => {
            let span = copied(&ident.span);
            OptionValue::Ident {
                negative: false,
                ident,
                span,
            }
        }
        Unsigned::Int(value, span) => OptionValue::Int(Int {
            negative: false,
            value,
            span,
        }),
        Unsigned::Float(value, span) => OptionValue::Float(Float { value, span }),
    }
}

fn negative(alloc: Global, minus: &Span, constant: Unsigned) -> Result<OptionValue, AllocError>
    ensures { IfOk result (λ v. v ≡ rule.signed_with (Some minus.now) constant) }
{
    match constant {
        Unsigned::Ident(ident) => {
            let span = join(minus, &ident.span);
            Ok(OptionValue::Ident {
                negative: true,
                ident,
                span,
            })
        }
        Unsigned::Int(value, span) => Ok(OptionValue::Int(Int {
            negative: true,
            value,
            span: join(minus, &span),
        })),
        Unsigned::Float(text, span) => {
            let value = negated(alloc, &text)?;
            Ok(OptionValue::Float(Float {
                value,
                span: join(minus, &span),
            }))
        }
    }
}

// A constant with its sign.
fn signed(
    alloc: Global,
    minus: &Option<Span>,
    constant: Unsigned,
) -> Result<OptionValue, AllocError>
    ensures { IfOk result (λ v. v ≡ rule.signed_with minus.now constant) }
{
    match minus {
        Some(minus) => negative(alloc, minus, constant),
        None => Ok(positive(constant)),
    }
}

// What is expected of a constant. After a sign only a number is named.
fn after_sign(minus: &Option<Span>) -> Expected
    ensures { result ≡ said.after_sign minus.now }
{
    match minus {
        Some(_) => Expected::Numeric,
        None => Expected::Constant,
    }
}

// How many braces are open after a token. None if the token closes the aggregate.
fn open_behind(unclosed: usize, token: &Token<'_>) -> Option<usize>
    requires { unclosed + 1 < 2 ^ 64 }
    ensures { result ≡ rule.open_behind unclosed (shape_of token.now) }
{
    match token {
        Token::LeftBrace => Some(unclosed + 1),
        Token::RightBrace => unclosed.checked_sub(1),
        _ => Some(unclosed),
    }
}

fn is_significant(token: &Token<'_>) -> bool
    ensures { result ≡ is_significant (shape_of token.now) }
{
    match token {
        Token::LineComment(_) | Token::BlockComment(_) | Token::Newline => false,
        _ => true,
    }
}

// Adds a token to the text. All but the first have a space in front.
fn print_on(
    alloc: Global,
    text: &mut Text,
    first: bool,
    token: &Token<'_>,
) -> Result<(), AllocError>
    ensures { OnOk result (text.new ≡ text.old ++ rule.print_on first (shape_of token.now)) }
{
    if !first {
        text.push_str(alloc, " ")?;
    }
    let printed = token.to_string(alloc)?;
    text.push_str(alloc, printed.as_str())
}

/// The text up to the brace that closes the aggregate: its tokens, with a space between each two.
#[tactic(auto, unfolding(crate::specs::inner::Options::inside), using(crate::proofs::Aggregates::goes, crate::proofs::Aggregates::closes, crate::proofs::Aggregates::barred, crate::proofs::Aggregates::ended))]
fn inside(alloc: Global, rows: &mut Unread<'_, '_>) -> Result<Text, Refused>
    ensures read { Gives (λ x. x) result rows.new (rule.inside rows.old) }
    ensures words { Says result expect.RightBrace }
{
    // At most as many braces are open as there are rows, so their number fits.
    let _most = rows.len();
    let mut text = Text::new(alloc);
    let mut first = true;
    let mut unclosed = 0;
    'tokens: while let Some((row, rest)) = rows.split() {
        let token = match row.token() {
            Ok(token) => token,
            Err(()) => return Err(refused(rows, Expected::RightBrace)),
        };
        let open = match open_behind(unclosed, token) {
            Some(open) => open,
            None => return Ok(text),
        };
        if !is_significant(token) {
            return Err(refused(rows, Expected::RightBrace));
        }
        print_on(alloc, &mut text, first, token)?;
        first = false;
        unclosed = open;
        *rows = rest;
    }
    Err(refused(rows, Expected::RightBrace))
}

// Takes a brace of an aggregate. The tokens after `{` are in text format.
#[tactic(auto, unfolding(protox_grammar::specs::Reader::fixed))]
fn brace<'t, 'a>(
    notes: &mut Vec<Note>,
    rows: &mut Unread<'t, 'a>,
    mark: u8,
    opens: bool,
) -> Result<RowAt<'t, 'a>, Refused>
    ensures read { Gives (λ x. x.at) result rows.new (fixed (Mark mark) rows.old) }
    ensures notes { Adds result notes.old.items (checked (λ m rest. brace_notes opens rest) (fixed (Mark mark) rows.old)) notes.new.items }
    ensures words { Says result (said.brace opens) }
{
    match rows.split() {
        Some((row, rest)) if is_mark(row.token(), mark) => {
            notes.push(Note {
                left: rows.len(),
                noted: Noted::TextFormat(opens),
            })?;
            *rows = rest;
            Ok(row)
        }
        _ => Err(refused(rows, brace_expected(opens))),
    }
}

// What is expected in place of a brace. Where an aggregate may begin, any constant may stand.
fn brace_expected(opens: bool) -> Expected
    ensures { result ≡ said.brace opens }
{
    if opens {
        Expected::Constant
    } else {
        Expected::RightBrace
    }
}

/// Reads what stands between the braces, and the closing brace.
#[tactic(auto, unfolding(crate::specs::inner::Options::closed, crate::specs::inner::Options::noted_closed))]
fn closed<'t, 'a>(
    alloc: Global,
    notes: &mut Vec<Note>,
    rows: &mut Unread<'t, 'a>,
) -> Result<(Text, RowAt<'t, 'a>), Refused>
    ensures read { Gives (λ x. (x.0, x.1.at)) result rows.new ((rule.noted_closed).code rows.old) }
    ensures notes { Adds result notes.old.items ((rule.noted_closed).notes rows.old) notes.new.items }
    ensures words { Says result expect.RightBrace }
{
    let text = inside(alloc, rows)?;
    let close = brace(notes, rows, b'}', false)?;
    Ok((text, close))
}

/// "{" tokens whose braces match "}"
#[tactic(auto, unfolding(crate::specs::inner::Options::aggregate, crate::specs::inner::Options::opened, crate::specs::inner::OptionWords::aggregate))]
fn aggregate(
    alloc: Global,
    notes: &mut Vec<Note>,
    rows: &mut Unread<'_, '_>,
) -> Result<(Text, Span), Refused>
    ensures read { Gives (λ x. (x.0, x.1)) result rows.new ((rule.aggregate).code rows.old) }
    ensures notes { Adds result notes.old.items ((rule.aggregate).notes rows.old) notes.new.items }
    ensures words { Says result (said.aggregate rows.old) }
{
    let open = brace(notes, rows, b'{', true)?;
    let (text, close) = closed(alloc, notes, rows)?;
    Ok((text, span_between(&open, &close)))
}

fn sees_constant(rows: &Unread<'_, '_>) -> bool
    ensures { result ≡ head_in (in_set (union words (among (token.an_integer ∷ token.a_float ∷ token.minus ∷ [])))) rows.now }
{
    match rows.first() {
        Some(first) => {
            let class = first.class();
            class < INTEGER || is_among(class, &[INTEGER, FLOAT, MINUS])
        }
        None => false,
    }
}

/// value = "-"? constant | string+ | "{" tokens whose braces match "}"
#[tactic(auto, unfolding(crate::specs::inner::Options::value, crate::specs::inner::OptionWords::value))]
pub(crate) fn value(
    alloc: Global,
    notes: &mut Vec<Note>,
    rows: &mut Unread<'_, '_>,
) -> Result<OptionValue, Refused>
    ensures read { Gives (λ x. x) result rows.new ((rule.value).code rows.old) }
    ensures notes { Adds result notes.old.items ((rule.value).notes rows.old) notes.new.items }
    ensures words { Says result (said.value rows.old) }
{
    if sees_constant(rows) {
        let minus = minus_if_any(rows)?;
        let constant = constant(alloc, rows, after_sign(&minus))?;
        let value = signed(alloc, &minus, constant)?;
        return Ok(value);
    }
    if sees(rows, STRING) {
        let (bytes, span) = strings(alloc, rows, Expected::Constant)?;
        let value = Items::from_vec(bytes);
        return Ok(OptionValue::String(Literal { value, span }));
    }
    let (text, span) = aggregate(alloc, notes, rows)?;
    Ok(OptionValue::Aggregate(text, span))
}
