//! Truth values in text format.

ghost use Rattle.std.specs.Prelude.{◌≡◌};
ghost use Rattle.protox_lexeme.specs.Tokens.{shape_of};
ghost use Rattle.protox_text_values.specs.Scalars.{shapes_of, truth_in_text, truth_of_number, truth_of_word};
ghost use Rattle.protox_text_values.specs.inner.Parts.{truth_of};

use crate::numbers::single;
use protox_lexeme::token::Token;
use protox_text_format::Piece;
use protox_values::ValueFault;

fn truth_of_word(word: &str) -> Result<bool, ValueFault>
    ensures { result ≡ truth_of_word word.now }
{
    match word {
        "true" => Ok(true),
        "True" => Ok(true),
        "t" => Ok(true),
        "false" => Ok(false),
        "False" => Ok(false),
        "f" => Ok(false),
        _ => Err(ValueFault::NotTruth),
    }
}

fn truth_of_number(n: u64) -> Result<bool, ValueFault>
    ensures { result ≡ truth_of_number n }
{
    match n {
        0 => Ok(false),
        1 => Ok(true),
        _ => Err(ValueFault::OutOfRange),
    }
}

// The truth value of a token: a word, or 0 or 1.
fn truth_of(token: &Token<'_>) -> Result<bool, ValueFault>
    ensures { result ≡ truth_of (shape_of token.now) }
{
    match token {
        Token::Ident(word) => truth_of_word(word),
        Token::IntLiteral(n) => truth_of_number(*n),
        _ => Err(ValueFault::NotIdentifier),
    }
}

// The truth value that a value is.
pub(crate) fn truth_in_text(pieces: &[Piece<'_>]) -> Result<bool, ValueFault>
    ensures { result ≡ truth_in_text (shapes_of pieces.now) }
{
    match single(pieces) {
        Some(token) => truth_of(token),
        None => Err(ValueFault::NotIdentifier),
    }
}
