//! The first of some pieces.

ghost use Rattle.std.specs.Prelude.{◌≡◌, ◌↔◌, IsTrue, MatchOption};
ghost use Rattle.protox_text_format.specs.inner.Marks.{Begins, IsOf, NotFirst};

use crate::item::Piece;
use protox_lexeme::token::Token;

// What a piece may be.
#[derive(Clone, Copy)]
pub(crate) enum Sort {
    Word,
    // A word or a number.
    Plain,
    Text,
    Mark(u8),
}

fn is_mark(token: &Token<'_>, mark: u8) -> bool
    ensures { IsTrue result ↔ IsOf (Sort.Mark mark) token.now }
{
    match token {
        Token::Dot => mark == b'.',
        Token::Minus => mark == b'-',
        Token::Plus => mark == b'+',
        Token::LeftParen => mark == b'(',
        Token::RightParen => mark == b')',
        Token::LeftBrace => mark == b'{',
        Token::RightBrace => mark == b'}',
        Token::LeftBracket => mark == b'[',
        Token::RightBracket => mark == b']',
        Token::LeftAngleBracket => mark == b'<',
        Token::RightAngleBracket => mark == b'>',
        Token::Comma => mark == b',',
        Token::Equals => mark == b'=',
        Token::Colon => mark == b':',
        Token::Semicolon => mark == b';',
        Token::ForwardSlash => mark == b'/',
        _ => false,
    }
}

fn is_word(token: &Token<'_>) -> bool
    ensures { IsTrue result ↔ IsOf Sort.Word token.now }
{
    match token {
        Token::Ident(_) => true,
        _ => false,
    }
}

fn is_plain(token: &Token<'_>) -> bool
    ensures { IsTrue result ↔ IsOf Sort.Plain token.now }
{
    match token {
        Token::Ident(_) => true,
        Token::IntLiteral(_) => true,
        Token::FloatLiteral(_) => true,
        _ => false,
    }
}

fn is_text(token: &Token<'_>) -> bool
    ensures { IsTrue result ↔ IsOf Sort.Text token.now }
{
    match token {
        Token::StringLiteral(_) => true,
        _ => false,
    }
}

fn is_of(sort: Sort, token: &Token<'_>) -> bool
    ensures { IsTrue result ↔ IsOf sort token.now }
{
    match sort {
        Sort::Word => is_word(token),
        Sort::Plain => is_plain(token),
        Sort::Text => is_text(token),
        Sort::Mark(mark) => is_mark(token, mark),
    }
}

// What stands behind the first piece, if that is of this sort.
pub(crate) fn behind<'t, 'a>(pieces: &'t [Piece<'a>], sort: Sort) -> Option<&'t [Piece<'a>]>
    ensures { MatchOption result (NotFirst (λ piece. IsOf sort piece.token) pieces.now)
        (λ more. Begins (λ piece. IsOf sort piece.token) pieces.now more.now) }
{
    let [first, more @ ..] = pieces else {
        return None;
    };
    if is_of(sort, &first.token) {
        Some(more)
    } else {
        None
    }
}
