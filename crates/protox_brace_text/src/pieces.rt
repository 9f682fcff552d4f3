//! Pieces as they are printed.

ghost use Rattle.std.specs.Prelude.{◌≡◌, ◌++◌, IfOk, OnOk, drop, string_bytes};
ghost use Rattle.std.specs.Option.{option_copied};
ghost use Rattle.protox_brace_text.specs.Steps as words;

use protox_lexeme::token::Token;
use protox_text_format::Piece;
use std::alloc::{AllocError, Global};

/// The piece as it is printed; the empty text where there is none.
pub(crate) fn printed(alloc: Global, piece: Option<&Piece<'_>>) -> Result<String, AllocError>
    ensures { IfOk result (λ text. string_bytes text ≡ words.printed_if_any (option_copied piece.entry)) }
{
    match piece {
        Some(piece) => {
            let token = &piece.token;
            format!(in alloc; "{token}")
        }
        None => Ok(String::new(alloc)),
    }
}

/// The piece with an index, as it is printed; the empty text behind the last one.
pub(crate) fn found_at(
    alloc: Global,
    pieces: &[Piece<'_>],
    index: usize,
) -> Result<String, AllocError>
    ensures { IfOk result (λ text. string_bytes text ≡ words.found_at pieces.now index) }
{
    printed(alloc, pieces.get(index))
}

/// Adds a piece, as it is printed.
pub(crate) fn push_printed(
    alloc: Global,
    text: &mut String,
    piece: &Piece<'_>,
) -> Result<(), AllocError>
    ensures { OnOk result (string_bytes text.new
        ≡ string_bytes text.old ++ words.printed_piece piece.now) }
{
    let token = &piece.token;
    let printed = format!(in alloc; "{token}")?;
    text.push_str(printed.as_str())
}

/// The pieces one behind another, as they are printed.
pub(crate) fn all_printed(alloc: Global, pieces: &[Piece<'_>]) -> Result<String, AllocError>
    ensures { IfOk result (λ text. string_bytes text ≡ words.all_printed pieces.now) }
{
    let mut text = String::new(alloc);
    for piece in pieces {
        push_printed(alloc, &mut text, piece)?;
    }
    Ok(text)
}

// Whether it is `,` or `;`.
fn is_separator(piece: &Piece<'_>) -> bool
    ensures { result ≡ words.is_separator piece.now }
{
    match piece.token {
        Token::Comma => true,
        Token::Semicolon => true,
        _ => false,
    }
}

/// Whether it is `-`.
pub(crate) fn is_minus(piece: &Piece<'_>) -> bool
    ensures { result ≡ words.is_minus piece.now }
{
    match piece.token {
        Token::Minus => true,
        _ => false,
    }
}

/// The pieces without the first, if that is `,` or `;`.
pub(crate) fn without_separator<'t, 'a>(pieces: &'t [Piece<'a>]) -> &'t [Piece<'a>]
    ensures { result.now ≡ words.without_separator pieces.entry.now }
{
    match pieces {
        [first, more @ ..] if is_separator(first) => more,
        _ => pieces,
    }
}

/// The pieces without so many at the front.
pub(crate) fn without<'t, 'a>(pieces: &'t [Piece<'a>], count: usize) -> &'t [Piece<'a>]
    ensures { result.now ≡ drop count pieces.entry.now }
{
    &pieces[count.min(pieces.len())..]
}

/// The name of a field, or of an extension in brackets, without what stands in front of it.
pub(crate) fn own_name(alloc: Global, name: &[Piece<'_>]) -> Result<String, AllocError>
    ensures { IfOk result (λ text. string_bytes text ≡ words.own_name name.now) }
{
    printed(alloc, name.get(name.len().saturating_sub(2)))
}
