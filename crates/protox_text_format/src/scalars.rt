//! Values that are no messages.

ghost use Rattle.std.specs.Prelude.{MatchResult};
ghost use Rattle.protox_text_format.specs.inner.Scalars.{NoScalar, ScalarThen, StringsThen};

use crate::item::Piece;
use crate::marks::{Sort, behind};

// The pieces behind all strings at the front.
fn behind_strings<'t, 'a>(pieces: &'t [Piece<'a>]) -> &'t [Piece<'a>]
    ensures { StringsThen pieces.now result.now }
{
    let mut at = 0;
    'strings: while let Some(more) = behind(&pieces[at..], Sort::Text) {
        at = pieces.len() - more.len();
    }
    &pieces[at..]
}

// The pieces behind a value that is no message; or those from the one on that is none.
pub(crate) fn behind_scalar<'t, 'a>(
    pieces: &'t [Piece<'a>],
) -> Result<&'t [Piece<'a>], &'t [Piece<'a>]>
    ensures { MatchResult result (λ more. ScalarThen pieces.now more.now) (λ wrong. NoScalar pieces.now wrong.now) }
{
    if let Some(more) = behind(pieces, Sort::Plain) {
        return Ok(more);
    }
    if let Some(number) = behind(pieces, Sort::Mark(b'-')) {
        return match behind(number, Sort::Plain) {
            Some(more) => Ok(more),
            None => Err(number),
        };
    }
    match behind(pieces, Sort::Text) {
        Some(more) => Ok(behind_strings(more)),
        None => Err(pieces),
    }
}
