//! Reading single rows.

ghost use Rattle.std.specs.Prelude.{◌≡◌, length};
ghost use Rattle.protox_ast.specs.Ast.{join};
ghost use Rattle.protox_grammar.specs.Reader.{is_token, head_in, fixed};
ghost use Rattle.protox_lexeme.specs.Shapes.{Ident, Mark};
ghost use Rattle.protox_lex.specs.TableView.{shape_of_lent};
ghost use Rattle.protox_lexeme.specs.Tokens.{shape_of};
ghost use Rattle.protox_rows.specs.inner.Outcome.{Gives};
ghost use Rattle.protox_rows.specs.inner.Words.{Says};

use crate::expected::Expected;
use crate::refused::Refused;
use crate::rows::{RowAt, Unread};
use protox_lex::error::Span;
use protox_lex::lex::Token;

/// The span from the start of one to the end of the other.
pub fn join(start: &Span, end: &Span) -> Span
    ensures { result ≡ join start.now end.now }
{
    start.start..end.end
}

/// A copy of the span.
pub fn copied(span: &Span) -> Span
    ensures { result ≡ span.now }
{
    span.start..span.end
}

/// Whether the token is this word.
pub fn is_word(token: Result<&Token<'_>, ()>, word: &str) -> bool
    ensures { result ≡ is_token (Ident word.now) (shape_of_lent token.entry) }
{
    match token {
        Ok(Token::Ident(text)) => *text == word,
        _ => false,
    }
}

/// Whether the token is the mark with this byte.
pub fn is_mark(token: Result<&Token<'_>, ()>, mark: u8) -> bool
    ensures { result ≡ is_token (Mark mark) (shape_of_lent token.entry) }
{
    match token {
        Ok(token) => is_mark_token(token, mark),
        Err(_) => false,
    }
}

fn is_mark_token(token: &Token<'_>, mark: u8) -> bool
    ensures { result ≡ is_token (Mark mark) (shape_of token.now) }
{
    match token {
        Token::Dot => b'.' == mark,
        Token::Minus => b'-' == mark,
        Token::Plus => b'+' == mark,
        Token::LeftParen => b'(' == mark,
        Token::RightParen => b')' == mark,
        Token::LeftBrace => b'{' == mark,
        Token::RightBrace => b'}' == mark,
        Token::LeftBracket => b'[' == mark,
        Token::RightBracket => b']' == mark,
        Token::LeftAngleBracket => b'<' == mark,
        Token::RightAngleBracket => b'>' == mark,
        Token::Comma => b',' == mark,
        Token::Equals => b'=' == mark,
        Token::Colon => b':' == mark,
        Token::Semicolon => b';' == mark,
        Token::ForwardSlash => b'/' == mark,
        _ => false,
    }
}

/// The refusal of the first of these rows: it doesn't fit.
pub fn refused(rows: &Unread<'_, '_>, expected: Expected) -> Refused
    ensures { result ≡ Refused.At (length rows.now) expected }
{
    Refused::At {
        left: rows.len(),
        expected,
    }
}

/// Takes this word. Fails if another token comes next.
#[tactic(auto, unfolding(protox_grammar::specs::Reader::fixed))]
pub fn expect_word<'t, 'a>(
    rows: &mut Unread<'t, 'a>,
    word: &str,
    expected: Expected,
) -> Result<RowAt<'t, 'a>, Refused>
    ensures read { Gives (λ x. x.at) result rows.new (fixed (Ident word.now) rows.old) }
    ensures words { Says result expected }
{
    match rows.split() {
        Some((first, rest)) if is_word(first.token(), word) => {
            *rows = rest;
            Ok(first)
        }
        _ => Err(refused(rows, expected)),
    }
}

/// Takes this mark. Fails if another token comes next.
#[tactic(auto, unfolding(protox_grammar::specs::Reader::fixed))]
pub fn expect_mark<'t, 'a>(
    rows: &mut Unread<'t, 'a>,
    mark: u8,
    expected: Expected,
) -> Result<RowAt<'t, 'a>, Refused>
    ensures read { Gives (λ x. x.at) result rows.new (fixed (Mark mark) rows.old) }
    ensures words { Says result expected }
{
    match rows.split() {
        Some((first, rest)) if is_mark(first.token(), mark) => {
            *rows = rest;
            Ok(first)
        }
        _ => Err(refused(rows, expected)),
    }
}
