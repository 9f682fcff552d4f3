//! The comments of a gap that belong to one of its sides. Most gaps have nothing on a side, and
//! that is seen before a text is made.
ghost use Rattle.std.specs.Prelude.{◌≡◌, ◌≤◌, ◌<◌, ◌+◌, ◌∷◌, true, false, None, Some, Option, [], map, drop, length, IfOk, IfSome};
ghost use Rattle.protox_comments.specs.inner.Attributing.{Lines, Newlines, shape_lent};
ghost use Rattle.protox_lexeme.specs.Gaps as gaps;
ghost use Rattle.protox_lexeme.specs.Shapes.{Shape, Newline};
ghost use Rattle.protox_lexeme.specs.Tokens.{shape_of};

use crate::comments::{gap_comments, may_lead};
use protox_descriptor::values::{Items, Text};
use protox_lexeme::token::Token;
use std::alloc::{AllocError, Global};

// Whether all tokens from `from` on are line comments.
fn are_lines(gap: &[Token<'_>], from: usize) -> bool
    requires { from ≤ length gap.now }
    ensures { result ≡ true → Lines (map shape_of (drop from gap.now)) }
{
    let mut at = from;
    'lines: while at < gap.len() {
        if !matches!(&gap[at], Token::LineComment(_)) {
            return false;
        }
        at += 1;
    }
    true
}

// Whether all tokens from `from` on are newlines.
fn are_newlines(gap: &[Token<'_>], from: usize) -> bool
    requires { from ≤ length gap.now }
    ensures { result ≡ true → Newlines (map shape_of (drop from gap.now)) }
{
    let mut at = from;
    'newlines: while at < gap.len() {
        if !matches!(&gap[at], Token::Newline) {
            return false;
        }
        at += 1;
    }
    true
}

// Whether the token at `at` is a newline.
fn is_newline_at(gap: &[Token<'_>], at: usize) -> bool
    requires { at < length gap.now }
    ensures { result ≡ true → map shape_of (drop at gap.now) ≡ Newline ∷ map shape_of (drop (at + 1) gap.now) }
{
    matches!(&gap[at], Token::Newline)
}

// Whether it is clear at once that no comment of a gap trails: the gap is empty; or it begins with
// a newline, after which comes another one, nothing, or only line comments that lead the next
// token. This holds of most gaps.
fn nothing_trails(gap: &[Token<'_>], next: Option<&Token<'_>>) -> bool
    ensures { result ≡ true → (gaps.attribution (map shape_of gap.now) false (shape_lent next.entry)).trailing ≡ None }
{
    if gap.is_empty() {
        return true;
    }
    if !is_newline_at(gap, 0) {
        return false;
    }
    if gap.len() == 1 {
        return true;
    }
    if is_newline_at(gap, 1) {
        return true;
    }
    may_lead(next) && are_lines(gap, 1)
}

// The line comment with which a gap begins, if it does. It trails.
fn line_at_front<'g>(gap: &'g [Token<'_>]) -> Option<&'g str>
    ensures { IfSome result (λ t. (next : Option Shape) → (gaps.attribution (map shape_of gap.now) false next).trailing ≡ Some t.now) }
{
    if gap.is_empty() {
        return None;
    }
    match &gap[0] {
        Token::LineComment(text) => Some(text.as_str()),
        _ => None,
    }
}

/// The comment of a gap that trails the declaration before it: that of `gap_comments`, for a gap
/// that isn't at the start of the file.
pub fn trailing_comment(
    alloc: Global,
    gap: &[Token<'_>],
    next: Option<&Token<'_>>,
) -> Result<Option<Text>, AllocError>
    requires { gaps.IsGap (map shape_of gap.now) }
    ensures { IfOk result (λ t. t ≡ (gaps.attribution (map shape_of gap.now) false (shape_lent next.entry)).trailing) }
{
    if nothing_trails(gap, next) {
        return Ok(None);
    }
    if let Some(text) = line_at_front(gap) {
        return Ok(Some(Text::copy(alloc, text)?));
    }
    let found = gap_comments(alloc, gap, false, next)?;
    Ok(found.trailing)
}

// Whether it is clear at once that no comment of a gap, not at the start of the file, belongs to
// the declaration after it: the gap is empty, or a line comment and newlines.
fn only_trails(gap: &[Token<'_>]) -> bool
    ensures detached { result ≡ true → (next : Option Shape) → (gaps.attribution (map shape_of gap.now) false next).detached ≡ [] }
    ensures leading { result ≡ true → (next : Option Shape) → (gaps.attribution (map shape_of gap.now) false next).leading ≡ None }
{
    if gap.is_empty() {
        return true;
    }
    match &gap[0] {
        Token::LineComment(_) => are_newlines(gap, 1),
        _ => false,
    }
}

/// The comments of a gap that belong to the declaration after it: the detached ones, and the one
/// that leads. They are those of `gap_comments`.
pub fn comments_before(
    alloc: Global,
    gap: &[Token<'_>],
    at_start: bool,
    next: Option<&Token<'_>>,
) -> Result<(Items<Text>, Option<Text>), AllocError>
    requires { gaps.IsGap (map shape_of gap.now) }
    ensures detached { IfOk result (λ c. c.0 ≡ (gaps.attribution (map shape_of gap.now) at_start (shape_lent next.entry)).detached) }
    ensures leading { IfOk result (λ c. c.1 ≡ (gaps.attribution (map shape_of gap.now) at_start (shape_lent next.entry)).leading) }
{
    if !at_start && only_trails(gap) {
        return Ok((Items::new(alloc), None));
    }
    let found = gap_comments(alloc, gap, at_start, next)?;
    Ok((found.detached, found.leading))
}
