//! Reading runs of strings.

ghost use Rattle.std.specs.Prelude.{◌≡◌, IfOk};
ghost use Rattle.protox_ast.specs.Ast.{text_of};
ghost use Rattle.protox_rows.specs.inner.Outcome.{Gives};
ghost use Rattle.protox_rows.specs.inner.Strings as rule;
ghost use Rattle.protox_rows.specs.inner.Words.{Says};
ghost use Rattle.protox_rows.specs.inner.Words as said;

use crate::class::{STRING, sees};
use crate::expected::Expected;
use crate::leaf::{join, refused};
use crate::refused::Refused;
use crate::rows::Unread;
use bstr::ByteSlice;
use protox_descriptor::values::Text;
use protox_lex::error::Span;
use protox_lex::lex::Token;
use std::alloc::{AllocError, Global};

#[tactic(auto, unfolding(protox_grammar::specs::Reader::leaf, crate::specs::inner::Strings::string))]
fn string<'t>(rows: &mut Unread<'t, '_>, expected: Expected) -> Result<(&'t [u8], Span), Refused>
    ensures read { Gives (λ x. (x.0.now, x.1)) result rows.new ((rule.string).code rows.old) }
    ensures words { Says result expected }
{
    if let Some((first, rest)) = rows.split() {
        if let Ok(Token::StringLiteral(value)) = first.token() {
            *rows = rest;
            return Ok((value.as_slice(), first.span()));
        }
    }
    Err(refused(rows, expected))
}

/// string+. Gives the joined values, and the span from the first string to the last.
#[tactic(auto, unfolding(crate::specs::inner::Strings::strings, crate::specs::inner::Words::strings))]
pub fn strings(
    alloc: Global,
    rows: &mut Unread<'_, '_>,
    expected: Expected,
) -> Result<(Vec<u8>, Span), Refused>
    ensures read { Gives (λ x. (x.0.items, x.1)) result rows.new ((rule.strings).code rows.old) }
    ensures words { Says result (said.strings expected rows.old) }
{
    let (first, first_span) = string(rows, expected)?;
    let mut value = Vec::from_slice(alloc, first)?;
    let mut span = first_span;
    'more: while sees(rows, STRING) {
        let (more, end) = string(rows, Expected::StringLiteral)?;
        value.extend_from_slice(more)?;
        span = join(&span, &end);
    }
    Ok((value, span))
}

/// The text of bytes. What is not UTF-8 among them becomes U+FFFD.
pub fn text_of(alloc: Global, bytes: &[u8]) -> Result<Text, AllocError>
    ensures { IfOk result (λ t. t ≡ text_of bytes.now) }
{
    let text = bytes.to_str_lossy(alloc)?;
    Text::from_cow(alloc, text)
}
