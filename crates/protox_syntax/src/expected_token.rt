//! What the parser expects at a place.

ghost use Rattle.std.specs.Prelude.{◌↔◌, IsTrue};
ghost use Rattle.protox_lexeme.specs.Tokens.{shape_of};
ghost use Rattle.protox_syntax.specs.ExpectedTokens.{IsExpected};

use protox_lex::lex::Token;
use std::fmt;

/// One token, or any identifier. It prints as the token between single quotes, or as `an
/// identifier`.
#[derive(Drop)]
pub enum ExpectedToken {
    Token(Token<'static>),
    Ident,
}

impl ExpectedToken {
    /// Whether this token is an expected one.
    pub fn matches(&self, token: &Token<'_>) -> bool
        ensures { IsTrue result ↔ IsExpected self.now (shape_of token.now) }
    {
        match self {
            ExpectedToken::Token(expected) => token == expected,
            ExpectedToken::Ident => matches!(token, Token::Ident(_)),
        }
    }
}

impl fmt::Display for ExpectedToken {
    ghost use Rattle.std.specs.Prelude.{Some};
    ghost use Rattle.protox_syntax.specs.ExpectedTokens.{expected_text};

    ghost output = { λ expected. Some (expected_text expected) };

    fn fmt<W: fmt::Write>(&self, f: &mut fmt::Formatter<W>) -> fmt::Result {
        match self {
            ExpectedToken::Token(token) => write!(f, "'{token}'"),
            ExpectedToken::Ident => f.write_str("an identifier"),
        }
    }
}
