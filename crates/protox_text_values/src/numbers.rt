//! Values of one token, with a minus sign in front or without, and the integers among them.

ghost use Rattle.std.specs.Prelude.{◌≡◌, neg_ℤ, option_map, pos};
ghost use Rattle.std.specs.Option.{option_copied};
ghost use Rattle.protox_lexeme.specs.Tokens.{shape_of};
ghost use Rattle.protox_text_values.specs.Scalars.{is_minus, natural_in, shapes_of};
ghost use Rattle.protox_text_values.specs.inner.Limits.{in_64_bits};
ghost use Rattle.protox_text_values.specs.inner.Parts.{natural_of, negated, negated_in, single};

use protox_lexeme::token::Token;
use protox_text_format::Piece;

fn is_minus(token: &Token<'_>) -> bool
    ensures { result ≡ is_minus (shape_of token.now) }
{
    match token {
        Token::Minus => true,
        _ => false,
    }
}

// The token of a value that has no other.
pub(crate) fn single<'v, 't>(pieces: &'v [Piece<'t>]) -> Option<&'v Token<'t>>
    ensures { option_map shape_of (option_copied result) ≡ single (shapes_of pieces.now) }
{
    match pieces {
        [piece] => Some(&piece.token),
        _ => None,
    }
}

// The token behind a minus sign.
pub(crate) fn negated<'v, 't>(pieces: &'v [Piece<'t>]) -> Option<&'v Token<'t>>
    ensures { option_map shape_of (option_copied result) ≡ negated (shapes_of pieces.now) }
{
    match pieces {
        [sign, piece] => if is_minus(&sign.token) {
            Some(&piece.token)
        } else {
            None
        },
        _ => None,
    }
}

fn natural_of(token: &Token<'_>) -> Option<u64>
    ensures { result ≡ natural_of (shape_of token.now) }
{
    match token {
        Token::IntLiteral(n) => Some(*n),
        _ => None,
    }
}

// An integer without a sign.
pub(crate) fn natural_in(pieces: &[Piece<'_>]) -> Option<u64>
    ensures { result ≡ natural_in (shapes_of pieces.now) }
{
    match single(pieces) {
        Some(token) => natural_of(token),
        None => None,
    }
}

// An integer behind a minus sign, without that.
pub(crate) fn negated_in(pieces: &[Piece<'_>]) -> Option<u64>
    ensures { result ≡ negated_in (shapes_of pieces.now) }
{
    match negated(pieces) {
        Some(token) => natural_of(token),
        None => None,
    }
}

const LIMIT: u64 = 0x8000_0000_0000_0000;

// The integer below 0 that is so far from it, if 64 bits hold it.
pub(crate) fn negative(n: u64) -> Option<i64>
    ensures { result ≡ in_64_bits (neg_ℤ (pos n)) }
{
    if n == 0 {
        return Some(0);
    }
    if n > LIMIT {
        return None;
    }
    Some(-((n - 1) as i64) - 1)
}
