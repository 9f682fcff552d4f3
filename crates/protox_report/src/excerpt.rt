//! Which part of a line of the source is shown with a fault.

ghost use Rattle.std.specs.Prelude.{◌≡◌, ◌≢◌, ◌-◌, ◌<◌, ◌≤◌, ◌&&◌, not, nat_lt, if◌then◌else◌, ℕ, true, false, length, slice_index};
ghost use Rattle.std.specs.Str.{IsCharBoundary};
ghost use Rattle.protox_report.specs.Excerpts.{begins_line, ends_line, IsExcerpt, IsFirst, IsLast};

use memchr::{memchr, memrchr};
use protox_fault::error::Span;

/// How many bytes of a line are shown at most before a span, in it and behind it.
pub const SHOWN: usize = 120;

// Whether a line ends at this byte: it is a newline, or a carriage return before one.
fn ends_line_at(bytes: &[u8], at: usize) -> bool
    requires { at ≤ length bytes.now }
    ensures { result ≡ ends_line bytes.now at }
{
    match &bytes[at..] {
        [b'\n', ..] => true,
        [b'\r', b'\n', ..] => true,
        _ => false,
    }
}

// Whether a line begins at this byte: the first of the source, or one right behind a newline.
fn begins_line_at(bytes: &[u8], at: usize) -> bool
    requires { at ≤ length bytes.now }
    ensures { result ≡ begins_line bytes.now at }
{
    at == 0 || bytes[at - 1] == b'\n'
}

// The offset behind the last newline before `start`; `least` if there is none from there on.
fn line_start(bytes: &[u8], least: usize, start: usize) -> usize
    requires least { least ≤ start }
    requires start { start ≤ length bytes.now }
    ensures bound { least ≤ result }
    ensures before { result ≤ start }
    ensures clean { (k : ℕ) → result ≤ k → k < start → slice_index bytes.now k ≢ 10 }
    ensures behind { least < result → slice_index bytes.now (result - 1) ≡ 10 }
{
    match memrchr(b'\n', &bytes[least..start]) {
        Some(newline) => least + newline + 1,
        None => least,
    }
}

// The offset where the line ends at or behind `start`; `most` if that comes first.
fn line_end(bytes: &[u8], start: usize, most: usize) -> usize
    requires start { start ≤ most }
    requires most { most ≤ length bytes.now }
    ensures bound { result ≤ most }
    ensures behind { start ≤ result }
    ensures clean { (k : ℕ) → start ≤ k → k < result → ends_line bytes.now k ≡ false }
    ensures ends { result < most → ends_line bytes.now result ≡ true }
{
    // A carriage return at the end of what may be shown counts if the newline is the next byte.
    let window = &bytes[start..bytes.len().min(most + 1)];
    let Some(newline) = memchr(b'\n', window) else {
        return most;
    };
    let at = start + newline;
    if newline > 0 && bytes[at - 1] == b'\r' {
        at - 1
    } else {
        at
    }
}

// From where the line is shown before `start`.
#[tactic(auto, using(crate::proofs::Floors::first_is))]
fn shown_from(source: &str, start: usize) -> usize
    requires { IsCharBoundary source.now start }
    ensures { IsFirst source.now start result }
{
    let least = start.saturating_sub(SHOWN);
    source.ceil_char_boundary(line_start(source.as_bytes(), least, start))
}

// Up to where the line is shown from `start` on; not past `end`.
#[tactic(auto, using(crate::proofs::Floors::last_is))]
fn shown_to(source: &str, start: usize, end: usize) -> usize
    requires start { IsCharBoundary source.now start }
    requires order { start ≤ end }
    requires end { end ≤ length source.now }
    ensures { IsLast source.now start end result }
{
    let most = end.min(start.saturating_add(SHOWN));
    source.floor_char_boundary(line_end(source.as_bytes(), start, most))
}

/// What is shown of the line in which a span starts. The parts join on.
#[derive(Clone, Copy)]
pub struct Excerpt<'a> {
    /// the part before the span
    pub before: &'a str,
    /// the part in the span
    pub marked: &'a str,
    /// the part behind the span
    pub behind: &'a str,
    /// Whether the line has more before these parts.
    pub cut_before: bool,
    /// Whether the line has more behind these parts.
    pub cut_behind: bool,
}

// How far the rest of the line may be shown: not at all if the span is cut at `end`.
fn limit_behind(end: usize, reach: usize, len: usize) -> usize
    ensures { result ≡ (if nat_lt end reach then end else len) }
{
    if end < reach { end } else { len }
}

// Whether the line has more from `to` on.
fn is_cut_at(bytes: &[u8], to: usize) -> bool
    requires { to ≤ length bytes.now }
    ensures { result ≡ (nat_lt to (length bytes.now) && not (ends_line bytes.now to)) }
{
    to < bytes.len() && !ends_line_at(bytes, to)
}

/// What is shown of the line in which the span starts.
pub fn excerpt_of<'a>(source: &'a str, span: &Span) -> Excerpt<'a>
    ensures { IsExcerpt source.now span.now result }
{
    let bytes = source.as_bytes();
    let start = source.floor_char_boundary(span.start);
    let last = source.floor_char_boundary(span.end);
    let reach = last.max(start);
    let from = shown_from(source, start);
    let end = shown_to(source, start, reach);
    let limit = limit_behind(end, reach, source.len());
    let to = shown_to(source, end, limit);
    let begins = begins_line_at(bytes, from);
    let cut_behind = is_cut_at(bytes, to);
    Excerpt {
        before: &source[from..start],
        marked: &source[start..end],
        behind: &source[end..to],
        cut_before: !begins,
        cut_behind,
    }
}
