//! Which field of a message a name stands for.

ghost use Rattle.std.specs.Prelude.{◌≡◌, ◌==◌, ◌++◌, IfOk, OnOk, ok_or, string_bytes};
ghost use Rattle.std.specs.List.{list_any};
ghost use Rattle.std.specs.Option.{option_copied, option_eq};
ghost use Rattle.protox_lexeme.specs.Tokens.{shape_of};
ghost use Rattle.protox_aggregate.specs.Names as words;
ghost use Rattle.protox_text_values.specs.Scalars.{shapes_of};

use crate::fault::AggregateFaultKind;
use crate::fields::{has_extendee, is_group};
use protox_descriptor::descriptor::FileDescriptorProto;
use protox_lexeme::token::Token;
use protox_scopes::Wanted;
use protox_settings::{field_numbered, is_of, message_of_type};
use protox_symbols::Symbols;
use protox_text_format::Piece;
use protox_views::View;
use std::alloc::{AllocError, Global};

// The field of a message under its own name.
fn plain_field(
    symbols: &Symbols,
    files: &[FileDescriptorProto],
    message: usize,
    word: &str,
) -> Option<usize>
    ensures { result ≡ words.plain_field files.now symbols.now message word.now }
{
    let number = symbols.find(Some(message), word)?;
    match field_numbered(symbols, files, number) {
        Some(field) if !has_extendee(field) && !is_group(field) => Some(number),
        _ => None,
    }
}

fn is_same(found: Option<usize>, other: Option<usize>) -> bool
    ensures { result ≡ option_eq ◌==◌ found other }
{
    match (found, other) {
        (Some(n), Some(m)) => n == m,
        (None, None) => true,
        _ => false,
    }
}

// Whether a number is that of a group of the type with a number.
fn is_group_of(
    symbols: &Symbols,
    files: &[FileDescriptorProto],
    of: Option<usize>,
    number: usize,
) -> bool
    ensures { result ≡ words.is_field files.now symbols.now (words.is_group_of files.now symbols.now of) number }
{
    match field_numbered(symbols, files, number) {
        Some(field) => {
            !has_extendee(field) && is_group(field) && is_same(message_of_type(symbols, field), of)
        }
        None => false,
    }
}

// The group of a message whose type has this name.
fn group_called(
    alloc: Global,
    symbols: &Symbols,
    files: &[FileDescriptorProto],
    message: usize,
    word: &str,
) -> Result<Option<usize>, AllocError>
    ensures { IfOk result (λ found. found ≡ words.group_called files.now symbols.now message word.now) }
{
    let name = word.to_ascii_lowercase(alloc)?;
    let Some(number) = symbols.find(Some(message), name.as_str()) else {
        return Ok(None);
    };
    if is_group_of(symbols, files, symbols.find(Some(message), word), number) {
        return Ok(Some(number));
    }
    Ok(None)
}

// The field of a message that a word stands for.
fn field_called(
    alloc: Global,
    symbols: &Symbols,
    files: &[FileDescriptorProto],
    message: usize,
    word: &str,
) -> Result<Option<usize>, AllocError>
    ensures { IfOk result (λ found. found ≡ words.field_called files.now symbols.now message word.now) }
{
    match plain_field(symbols, files, message, word) {
        Some(number) => Ok(Some(number)),
        None => group_called(alloc, symbols, files, message, word),
    }
}

// A word or a dot is added to a name, and no other mark.
pub(crate) fn push_word(name: &mut String, token: &Token<'_>) -> Result<(), AllocError>
    ensures { OnOk result (string_bytes name.new
        ≡ string_bytes name.old ++ words.word_or_dot (shape_of token.now)) }
{
    match token {
        Token::Ident(word) => name.push_str(word),
        Token::Dot => name.push('.'),
        _ => Ok(()),
    }
}

// The words of a name in brackets, and the dots between them.
pub(crate) fn dotted_words(alloc: Global, pieces: &[Piece<'_>]) -> Result<String, AllocError>
    ensures { IfOk result (λ name. string_bytes name ≡ words.dotted_words (shapes_of pieces.now)) }
{
    let mut name = String::new(alloc);
    for piece in pieces {
        push_word(&mut name, &piece.token)?;
    }
    Ok(name)
}

// Whether a number is that of an extension of the message.
fn is_extension_of(
    symbols: &Symbols,
    files: &[FileDescriptorProto],
    message: usize,
    number: usize,
) -> bool
    ensures { result ≡ words.is_extension_of files.now symbols.now message number }
{
    match field_numbered(symbols, files, number) {
        Some(field) => has_extendee(field) && is_of(symbols, message, number, field),
        None => false,
    }
}

// What a name stands for in the scope in which a message stands.
#[tactic(auto, using(crate::proofs::Outer::outer_is))]
fn beside(view: &View<'_>, message: usize, name: &str) -> Option<usize>
    ensures { result ≡ words.beside view.now.symbols.now view.now.sees.now view.now.packages message
        name.now }
{
    view.resolve(Wanted::Anything, name, view.symbols.outer(message))
}

// The extension of a message with a name. That is looked for from the scope in which the message
// stands.
fn extension_called(
    view: &View<'_>,
    files: &[FileDescriptorProto],
    message: usize,
    name: &str,
) -> Option<usize>
    ensures { result ≡ words.extension_called files.now view.now.symbols.now view.now.sees.now
        view.now.packages message name.now }
{
    let number = beside(view, message, name)?;
    if is_extension_of(view.symbols, files, message, number) {
        Some(number)
    } else {
        None
    }
}

pub(crate) fn is_slash(token: &Token<'_>) -> bool
    ensures { result ≡ words.is_slash (shape_of token.now) }
{
    match token {
        Token::ForwardSlash => true,
        _ => false,
    }
}

fn has_slash(pieces: &[Piece<'_>]) -> bool
    ensures { result ≡ list_any words.is_slash (shapes_of pieces.now) }
{
    for piece in pieces {
        if is_slash(&piece.token) {
            return true;
        }
    }
    false
}

// A number, or what is wrong if there is none.
fn found_or(found: Option<usize>, wrong: AggregateFaultKind) -> Result<usize, AggregateFaultKind>
    ensures { result ≡ ok_or found wrong }
{
    match found {
        Some(number) => Ok(number),
        None => Err(wrong),
    }
}

fn bracketed_field(
    alloc: Global,
    view: &View<'_>,
    files: &[FileDescriptorProto],
    message: usize,
    pieces: &[Piece<'_>],
) -> Result<Result<usize, AggregateFaultKind>, AllocError>
    ensures { IfOk result (λ found. found ≡ words.bracketed_field files.now view.now.symbols.now
        view.now.sees.now view.now.packages message (shapes_of pieces.now)) }
{
    if has_slash(pieces) {
        return Ok(Err(AggregateFaultKind::NoType));
    }
    let name = dotted_words(alloc, pieces)?;
    let found = extension_called(view, files, message, name.as_str());
    Ok(found_or(found, AggregateFaultKind::NoExtension(message)))
}

// The word that a name is, if it isn't in brackets.
pub(crate) fn word_of<'a>(pieces: &'a [Piece<'_>]) -> Option<&'a str>
    ensures { option_copied result ≡ words.word_of (shapes_of pieces.now) }
{
    match pieces {
        [piece] => match &piece.token {
            Token::Ident(word) => Some(word),
            _ => None,
        },
        _ => None,
    }
}

/// The field of a message that a name stands for, by its number in the table; or why there is none.
pub(crate) fn field_in_text(
    alloc: Global,
    view: &View<'_>,
    files: &[FileDescriptorProto],
    message: usize,
    pieces: &[Piece<'_>],
) -> Result<Result<usize, AggregateFaultKind>, AllocError>
    ensures { IfOk result (λ found. found ≡ words.field_in_text files.now view.now.symbols.now
        view.now.sees.now view.now.packages message (shapes_of pieces.now)) }
{
    match word_of(pieces) {
        Some(word) => {
            let found = field_called(alloc, view.symbols, files, message, word)?;
            Ok(found_or(found, AggregateFaultKind::NoField(message)))
        }
        None => bracketed_field(alloc, view, files, message, pieces),
    }
}
