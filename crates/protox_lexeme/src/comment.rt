//! Line comments.
ghost use Rattle.std.specs.Prelude.{◌≡◌, ◌<◌, ◌≤◌, ◌+◌, ◌-◌, ◌^◌, ◌&&◌, not, length, take, drop, slice_index, true, [], IfOk, IsOk};
ghost use Rattle.std.specs.Cow.{cow_str_bytes};
ghost use Rattle.std.specs.Str.{IsCharBoundary};
ghost use Rattle.protox_fault.specs.Faults.{faults_in};
ghost use Rattle.protox_lexeme.specs.Lexemes as spec;
ghost use Rattle.protox_lexeme.specs.Lexicon.{IsLineOpener};
ghost use Rattle.protox_lexeme.specs.Found.{lexeme_of};
ghost use Rattle.protox_lexeme.specs.Tokens.{is_borrowed_str};

use crate::bytes::skip;
use crate::found::Found;
use crate::lexeme_fault::{FaultKind, LexemeFault};
use crate::token::Token;
use std::alloc::{AllocError, Global};
use std::borrow::CowStr;

// The text of a line comment, with `\n` for a `\r\n` at its end.
fn line_text(alloc: Global, body: &str) -> Result<CowStr<'_>, AllocError>
    ensures value { IfOk result (λ t. cow_str_bytes t ≡ spec.line_text body.now) }
    ensures borrowed { IfOk result (λ t. is_borrowed_str t ≡ not (spec.ends_crlf body.now)) }
    ensures free { not (spec.ends_crlf body.now) ≡ true → IsOk result }
{
    let bytes = body.as_bytes();
    let len = bytes.len();
    if 2 <= len && bytes[len - 2] == b'\r' && bytes[len - 1] == b'\n' {
        let mut text = String::from_str(alloc, &body[..len - 2])?;
        text.push_str("\n")?;
        Ok(CowStr::Owned(text))
    } else {
        Ok(CowStr::Borrowed(body))
    }
}

// What follows the `//` or `#`.
fn line_body(word: &str) -> &str
    requires { IsLineOpener word.now (length word.now) }
    ensures { result.now ≡ spec.line_body word.now }
{
    if word.as_bytes()[0] == b'#' {
        skip(word, 1)
    } else {
        skip(word, 2)
    }
}

// The fault of a comment that begins with `#`. In text format it is none.
fn hash_faults(
    alloc: Global,
    word: &str,
    start: usize,
    text_format: bool,
) -> Result<Vec<LexemeFault>, AllocError>
    requires some { 0 < length word.now }
    requires fits { start + length word.now < 2 ^ 64 }
    ensures value { IfOk result (λ v. v.items ≡ faults_in text_format (spec.hash_faults start word.now)) }
    ensures free { faults_in text_format (spec.hash_faults start word.now) ≡ [] → IsOk result }
{
    let mut faults = Vec::new(alloc);
    if word.as_bytes()[0] == b'#' && !text_format {
        faults.push(LexemeFault {
            kind: FaultKind::HashCommentOutsideTextFormat,
            span: start..start + word.len(),
        })?;
    }
    Ok(faults)
}

/// Reads the line comment of `len` bytes at the front of the text.
pub(crate) fn read_line_comment(
    alloc: Global,
    text: &str,
    len: usize,
    start: usize,
    text_format: bool,
) -> Result<Found<'_>, AllocError>
    requires opener { IsLineOpener text.now len }
    requires within { len ≤ length text.now }
    requires fits { start + length text.now < 2 ^ 64 }
    requires boundary { IsCharBoundary text.now len }
    ensures value { IfOk result (λ f. lexeme_of start f ≡ spec.in_mode text_format (spec.line_comment start text.now len)) }
    ensures stop { IfOk result (λ f. f.stop ≡ start + len) }
    ensures free { let x = spec.line_comment start text.now len in x.borrowed ≡ true → faults_in text_format x.faults ≡ [] → IsOk result }
{
    let word = &text[..len];
    let text = line_text(alloc, line_body(word))?;
    let faults = hash_faults(alloc, word, start, text_format)?;
    Ok(Found {
        token: Ok(Token::LineComment(text)),
        stop: start + len,
        faults,
    })
}
