//! The texts of floats in text format.

ghost use Rattle.std.specs.Prelude.{◌≡◌, ◌++◌, IfOk, option_map};
ghost use Rattle.protox_lexeme.specs.Tokens.{shape_of};
ghost use Rattle.protox_text_values.specs.Scalars.{float_text, number_text, shapes_of};

use crate::numbers::{negated, single};
use protox_descriptor::values::Text;
use protox_lexeme::token::Token;
use protox_text_format::Piece;
use std::alloc::{AllocError, Global};

// The text of a number or of a word, behind a sign.
fn signed_text(alloc: Global, sign: &str, token: &Token<'_>) -> Result<Option<Text>, AllocError>
    ensures { IfOk result (λ text. text ≡ option_map (λ number. sign.now ++ number) (number_text (shape_of token.now))) }
{
    let mut text = String::from_str(alloc, sign)?;
    match token {
        Token::IntLiteral(n) => text.push_str(n.to_string(alloc)?.as_str())?,
        Token::FloatLiteral(float) => text.push_str(float.0.as_str())?,
        Token::Ident(word) => text.push_str(word)?,
        _ => return Ok(None),
    }
    Ok(Some(Text::from_string(text)))
}

// The text of a number or of a word, with a minus sign in front or without.
pub(crate) fn float_text(alloc: Global, pieces: &[Piece<'_>]) -> Result<Option<Text>, AllocError>
    ensures { IfOk result (λ text. text ≡ float_text (shapes_of pieces.now)) }
{
    if let Some(token) = single(pieces) {
        return signed_text(alloc, "", token);
    }
    match negated(pieces) {
        Some(token) => signed_text(alloc, "-", token),
        None => Ok(None),
    }
}
