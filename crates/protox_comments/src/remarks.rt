//! The comments of a source, each with its place.

ghost use Rattle.std.specs.Prelude.{◌≡◌, ◌<◌, ◌++◌, [], ℕ, length, map, IfNone, IfOk, IfSome};
ghost use Rattle.std.specs.Option.{option_to_list};
ghost use Rattle.protox_lexeme.specs.Lexemes.{cut};
ghost use Rattle.protox_lexeme.specs.Tokens.{shape_of};
ghost use Rattle.protox_comments.specs.Remarks.{placed, remark_of, remarks_of, seen};

use protox_fault::error::Span;
use protox_lexeme::lexer::Lexer;
use protox_lexeme::token::Token;
use std::alloc::{AllocError, Global};
use std::borrow::CowStr;

/// A comment of a source.
#[derive(Drop)]
pub struct Remark<'a> {
    /// Its place, in byte offsets: from its `//`, `#` or `/*` to its end. The newline at the end of
    /// a line comment belongs to it, and so do blanks after a block comment.
    pub span: Span,
    /// Its text without these marks, as the `Token` of the comment has it.
    pub text: CowStr<'a>,
}

// The text of a comment. None for another token.
fn text_of(token: Token<'_>) -> Option<CowStr<'_>>
    ensures { (start stop : ℕ) → remark_of start stop (shape_of token.entry) ≡ map (placed start stop) (option_to_list result) }
{
    match token {
        Token::LineComment(text) => Some(text),
        Token::BlockComment(text) => Some(text),
        _ => None,
    }
}

// The next comment, if there is one.
fn next_remark<'a>(lexer: &mut Lexer<'a>) -> Result<Option<Remark<'a>>, AllocError>
    ensures found { IfOk result (λ next. remarks_of lexer.old.left
        ≡ map seen (option_to_list next) ++ remarks_of lexer.new.left) }
    ensures none { IfOk result (λ next. IfNone next (remarks_of lexer.old.left ≡ [])) }
    ensures fewer { IfOk result (λ next. IfSome next (λ remark. length lexer.new.left < length lexer.old.left)) }
{
    'lexemes: while let Some(lexeme) = lexer.next()? {
        let Ok(token) = lexeme else { continue 'lexemes };
        if let Some(text) = text_of(token) {
            let span = lexer.span();
            return Ok(Some(Remark { span, text }));
        }
    }
    Ok(None)
}

/// All comments of a source in order, or `AllocError`. Comments in aggregates and in sources with
/// faults are among them.
///
/// ```
/// for remark in &remarks(alloc, source)? {
///     if remark.text.as_str().contains("TODO") {
///         println!(rt; "{}: TODO", remark.span.start)?;
///     }
/// }
/// ```
pub fn remarks<'a>(alloc: Global, source: &'a str) -> Result<Vec<Remark<'a>>, AllocError>
    ensures { IfOk result (λ found. map seen found.items ≡ remarks_of (cut 0 source.entry.now)) }
{
    let mut lexer = Token::lexer(alloc, source);
    let mut found = Vec::new(alloc);
    'remarks: while let Some(remark) = next_remark(&mut lexer)? {
        found.push(remark)?;
    }
    Ok(found)
}
