//! Pieces of a text, and what they spell.

use protox_fault::error::Span;
use protox_lexeme::token::Token;

/// A token of a text, and its place in byte offsets.
#[derive(Drop)]
pub struct Piece<'a> {
    pub token: Token<'a>,
    pub span: Span,
}

/// A step through a message in text format.
#[derive(Clone, Copy)]
pub enum Item<'t, 'a> {
    /// The name of a field, and whether a colon follows. It is a word; or in brackets the name of an
    /// extension, or a domain, a slash and the name of a type.
    Name(&'t [Piece<'a>], bool),
    /// A value that is no message: a word or a number, with a minus sign in front or without; or
    /// strings, which are to be joined.
    Scalar(&'t [Piece<'a>]),
    /// A message begins.
    Open,
    /// A message ends.
    Close,
    /// A list of values begins.
    OpenList,
    /// A list of values ends.
    CloseList,
}
