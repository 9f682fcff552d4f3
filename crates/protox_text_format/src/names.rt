//! Names of fields.

ghost use Rattle.std.specs.Prelude.{◌≡◌, IfErr, IfOk, MatchResult};
ghost use Rattle.protox_text_format.specs.Spelling.{Stands};
ghost use Rattle.protox_text_format.specs.inner.Marks.{Begins, NotFirst};
ghost use Rattle.protox_text_format.specs.inner.Names.{IsNamed, IsNamedInBrackets, IsUnnamed, IsUnnamedInBrackets, NoWords, Words};

use crate::fault::TextFaultKind;
use crate::item::Piece;
use crate::marks::{Sort, behind};

// The pieces from the one that is wrong, and what is wrong with it.
pub(crate) type Wrong<'t, 'a> = (&'t [Piece<'a>], TextFaultKind);

// The pieces behind words with dots between them. If a word is missing, those from that place on.
fn behind_words<'t, 'a>(pieces: &'t [Piece<'a>]) -> Result<&'t [Piece<'a>], &'t [Piece<'a>]>
    ensures { MatchResult result (λ more. Words pieces.now more.now) (λ wrong. NoWords pieces.now wrong.now) }
{
    let mut at = 0;
    'words: while let Some(more) = behind(&pieces[at..], Sort::Word) {
        let Some(next) = behind(more, Sort::Mark(b'.')) else {
            return Ok(more);
        };
        at = pieces.len() - next.len();
    }
    Err(&pieces[at..])
}

// The pieces behind a bracket that ends a name.
fn behind_closing<'t, 'a>(pieces: &'t [Piece<'a>]) -> Result<&'t [Piece<'a>], Wrong<'t, 'a>>
    ensures ok { IfOk result (λ more. Begins (Stands 93) pieces.now more.now) }
    ensures err { IfErr result (λ wrong. (wrong.0.now ≡ pieces.now) × (wrong.1 ≡ TextFaultKind.NoMark 93)
        × NotFirst (Stands 93) pieces.now) }
{
    match behind(pieces, Sort::Mark(b']')) {
        Some(more) => Ok(more),
        None => Err((pieces, TextFaultKind::NoMark(b']'))),
    }
}

// The pieces behind a name in brackets, from what stands behind its first bracket.
fn behind_bracket<'t, 'a>(pieces: &'t [Piece<'a>]) -> Result<&'t [Piece<'a>], Wrong<'t, 'a>>
    ensures ok { IfOk result (λ more. IsNamedInBrackets pieces.now more.now) }
    ensures err { IfErr result (λ wrong. IsUnnamedInBrackets pieces.now wrong.0.now wrong.1) }
{
    let more = match behind_words(pieces) {
        Ok(more) => more,
        Err(wrong) => return Err((wrong, TextFaultKind::NoWord)),
    };
    let Some(name) = behind(more, Sort::Mark(b'/')) else {
        return behind_closing(more);
    };
    match behind_words(name) {
        Ok(more) => behind_closing(more),
        Err(wrong) => Err((wrong, TextFaultKind::NoWord)),
    }
}

// The pieces behind the name of a field.
pub(crate) fn behind_name<'t, 'a>(pieces: &'t [Piece<'a>]) -> Result<&'t [Piece<'a>], Wrong<'t, 'a>>
    ensures ok { IfOk result (λ more. IsNamed pieces.now more.now) }
    ensures err { IfErr result (λ wrong. IsUnnamed pieces.now wrong.0.now wrong.1) }
{
    if let Some(more) = behind(pieces, Sort::Word) {
        return Ok(more);
    }
    match behind(pieces, Sort::Mark(b'[')) {
        Some(more) => behind_bracket(more),
        None => Err((pieces, TextFaultKind::NoWord)),
    }
}
