//! The pieces of a text.

ghost use Rattle.std.specs.Prelude.{◌≡◌, ◌<◌, ◌∷◌, ◌++◌, [], List, true, length, All, IfErr, IfNone, IfOk, IfSome, OnOk, map};
ghost use Rattle.std.specs.Option.{option_to_list};
ghost use Rattle.protox_lexeme.specs.Lexemes.{Lexeme, cut};
ghost use Rattle.protox_lexeme.specs.Table.{is_gap, rows_of};
ghost use Rattle.protox_lexeme.specs.Tokens.{shape_of};
ghost use Rattle.protox_text_format.specs.Pieces.{IfFault, IsFaultless, IsFirstWrong, row_of};
ghost use Rattle.protox_text_format.specs.inner.Cutting.{IsLexeme, IsReady, Passes, Takes};

use crate::fault::PieceFailure;
use crate::item::Piece;
use protox_fault::error::Span;
use protox_lexeme::lexer::Lexer;
use protox_lexeme::token::Token;
use std::alloc::{AllocError, Global};

fn is_a_gap(token: &Token<'_>) -> bool
    ensures { result ≡ is_gap (shape_of token.now) }
{
    match token {
        Token::LineComment(_) => true,
        Token::BlockComment(_) => true,
        Token::Newline => true,
        _ => false,
    }
}

// The piece that a token is, or None for a comment or the end of a line.
fn piece_of<'a>(token: Token<'a>, span: Span) -> Option<Piece<'a>>
    ensures { (lexeme : Lexeme) (left : List Lexeme) → IsLexeme token.entry span lexeme
        → rows_of (lexeme ∷ left) ≡ map row_of (option_to_list result) ++ rows_of left }
{
    if is_a_gap(&token) {
        None
    } else {
        Some(Piece { token, span })
    }
}

// The next token with its place, or None at the end. At what is no token it stops.
fn next_token<'a>(lexer: &mut Lexer<'a>) -> Result<Option<(Token<'a>, Span)>, PieceFailure>
    requires { IsReady lexer.old }
    ensures ready { IfOk result (λ next. IsReady lexer.new) }
    ensures some { IfOk result (λ next. IfSome next (λ found. Takes lexer.old.left found.0 found.1 lexer.new.left)) }
    ensures none { IfOk result (λ next. IfNone next (lexer.old.left ≡ [])) }
    ensures left { IfOk result (λ next. IfNone next (lexer.new.left ≡ lexer.old.left)) }
    ensures first { IfErr result (λ failure. IfFault failure (IsFirstWrong lexer.old.left)) }
{
    let Ok(next) = lexer.next() else {
        return Err(PieceFailure::OutOfMemory);
    };
    let Some(lexeme) = next else {
        return Ok(None);
    };
    let span = lexer.span();
    let Ok(token) = lexeme else {
        return Err(PieceFailure::Fault(span));
    };
    if !lexer.errors().is_empty() {
        return Err(PieceFailure::Fault(span));
    }
    Ok(Some((token, span)))
}

// The next piece, or None at the end. At what is no token it stops.
fn next_piece<'a>(lexer: &mut Lexer<'a>) -> Result<Option<Piece<'a>>, PieceFailure>
    requires { IsReady lexer.old }
    ensures ready { IfOk result (λ next. IsReady lexer.new) }
    ensures passes { IfOk result (λ next. Passes lexer.old.left lexer.new.left) }
    ensures rows { IfOk result (λ next. rows_of lexer.old.left
        ≡ map row_of (option_to_list next) ++ rows_of lexer.new.left) }
    ensures none { IfOk result (λ next. IfNone next (lexer.new.left ≡ [])) }
    ensures fewer { IfOk result (λ next. IfSome next (λ piece. length lexer.new.left < length lexer.old.left)) }
    ensures first { IfErr result (λ failure. IfFault failure (IsFirstWrong lexer.old.left)) }
{
    'lexemes: loop {
        match next_token(lexer) {
            Ok(Some((token, span))) => {
                if let Some(piece) = piece_of(token, span) {
                    return Ok(Some(piece));
                }
            }
            Ok(None) => return Ok(None),
            Err(failure) => return Err(failure),
        }
    }
}

fn add<'a>(found: &mut Vec<Piece<'a>>, piece: Piece<'a>) -> Result<(), PieceFailure>
    ensures added { OnOk result (found.new.items ≡ found.old.items ++ piece.entry ∷ []) }
    ensures none { IfErr result (λ failure. failure ≡ PieceFailure.OutOfMemory) }
{
    match found.push(piece) {
        Ok(()) => Ok(()),
        Err(_) => Err(PieceFailure::OutOfMemory),
    }
}

/// The tokens of a text in order, each with its place. Comments may stand between them, also those
/// that begin with `#`, and floats may end in `f`.
///
/// # Errors
/// `Fault` with the place of the first part of the text that is no token, or that has a fault as a
/// token. `OutOfMemory` where memory runs out.
pub fn pieces<'a>(alloc: Global, text: &'a str) -> Result<Vec<Piece<'a>>, PieceFailure>
    ensures cut { IfOk result (λ found. map row_of found.items ≡ rows_of (cut 0 text.entry.now)) }
    ensures faultless { IfOk result (λ found. All IsFaultless (cut 0 text.entry.now)) }
    ensures first { IfErr result (λ failure. IfFault failure
        (IsFirstWrong (cut 0 text.entry.now))) }
{
    let mut lexer = Token::lexer(alloc, text);
    lexer.set_text_format_mode(true);
    let mut found = Vec::new(alloc);
    'pieces: loop {
        match next_piece(&mut lexer) {
            Ok(Some(piece)) => {
                if let Err(failure) = add(&mut found, piece) {
                    return Err(failure);
                }
            }
            Ok(None) => return Ok(found),
            Err(failure) => return Err(failure),
        }
    }
}
