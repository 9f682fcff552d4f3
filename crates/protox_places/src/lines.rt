//! Lines and columns of byte offsets.

ghost use Rattle.std.specs.Prelude.{◌≡◌, ◌≤◌, ◌-◌, true, ℕ, List, pos, length, IfOk};
ghost use Rattle.protox_places.specs.Lines.{line, column, starts, starts as starts_in, span_numbers, numbers_at, count_le, last_le, Rises, Found};

use memchr::memchr_iter;
use protox_descriptor::values::Numbers;
use protox_fault::error::Span;
use std::alloc::{AllocError, Global};
use std::marker::Model;

/// The table of lines of a source, for many look-ups. Contracts see the offsets behind its
/// newlines.
#[derive(Drop)]
pub struct LineResolver {
    starts: Vec<u32>,
}

impl Model for LineResolver {
    ghost use Rattle.std.specs.Prelude.{List, ℕ};
    ghost use Rattle.protox_places.specs.Lines.{Rises};

    ghost Value = { List ℕ };

    ghost view = { λ lines. lines.starts.items };

    ghost invariant = { λ lines. Rises 0 lines.starts.items };
}

#[tactic(auto, using(crate::proofs::Newlines::starts_places, crate::proofs::Newlines::places_below))]
fn starts_of(alloc: Global, source: &[u8]) -> Result<Vec<u32>, AllocError>
    requires { length source.now ≤ 2147483647 }
    ensures { IfOk result (λ found. found.items ≡ starts 0 source.now) }
{
    let mut found = Vec::new(alloc);
    for newline in memchr_iter(b'\n', source) {
        found.push(newline as u32 + 1)?;
    }
    Ok(found)
}

// How many of the numbers are at most `offset`, by binary search.
fn count_up_to(starts: &[u32], offset: usize) -> usize
    requires { Rises 0 starts.now }
    ensures found { Found starts.now offset result }
    ensures small { result ≤ offset }
{
    starts.partition_point(|start| *start as usize <= offset)
}

// Whether exactly `count` of the numbers are at most `offset`.
#[inline(always)]
fn is_count(starts: &[u32], count: usize, offset: usize) -> bool
    requires { Rises 0 starts.now }
    ensures found { result ≡ true → Found starts.now offset count }
    ensures small { result ≡ true → count ≤ offset }
{
    if starts.len() < count {
        return false;
    }
    let begun = count == 0 || starts[count - 1] as usize <= offset;
    let ended = count == starts.len() || offset < starts[count] as usize;
    begun && ended
}

// How many lines start up to the offset. The count is found at once if the offset lies in the line
// `near` or in one of the next seven, as behind a comment.
fn count_near(starts: &[u32], near: usize, offset: usize) -> usize
    requires { Rises 0 starts.now }
    ensures found { Found starts.now offset result }
    ensures small { result ≤ offset }
{
    for count in near..near.saturating_add(8) {
        if is_count(starts, count, offset) {
            return count;
        }
    }
    count_up_to(starts, offset)
}

// Line and column of an offset in this line.
#[inline(always)]
fn place(starts: &[u32], line: usize, offset: usize) -> (i32, i32)
    requires rises { Rises 0 starts.now }
    requires found { Found starts.now offset line }
    requires small { line ≤ offset }
    requires offset { offset ≤ 2147483647 }
    ensures line { result.0 ≡ pos (count_le offset starts.now) }
    ensures column { result.1 ≡ pos (offset - last_le 0 offset starts.now) }
{
    let start = if line == 0 {
        0
    } else {
        starts[line - 1] as usize
    };
    (line as i32, (offset - start) as i32)
}

// The numbers of a span that starts in the line `first` and ends in the line `last`.
#[inline(always)]
fn numbers_in(starts: &[u32], first: usize, last: usize, span: Span) -> Numbers
    requires rises { Rises 0 starts.now }
    requires start { span.start ≤ 2147483647 }
    requires end { span.end ≤ 2147483647 }
    requires first { Found starts.now span.start first }
    requires first_small { first ≤ span.start }
    requires last { Found starts.now span.end last }
    requires last_small { last ≤ span.end }
    ensures { result ≡ numbers_at starts.now span }
{
    let (start_line, start_column) = place(starts, first, span.start);
    let (end_line, end_column) = place(starts, last, span.end);
    if start_line == end_line {
        Numbers::few(&[start_line, start_column, end_column])
    } else {
        Numbers::few(&[start_line, start_column, end_line, end_column])
    }
}

impl LineResolver {
    /// Builds the table of lines of `source`, which must be at most 2,147,483,647 bytes.
    /// `AllocError` if memory runs out.
    pub fn new(alloc: Global, source: &str) -> Result<LineResolver, AllocError>
        requires { length source.now ≤ 2147483647 }
        ensures { IfOk result (λ lines. lines ≡ starts 0 source.now) }
    {
        let starts = starts_of(alloc, source.as_bytes())?;
        Ok(LineResolver { starts })
    }

    /// Line and column of a byte offset, both from 0; columns count bytes. The offset must be at
    /// most 2,147,483,647.
    pub fn resolve(&self, offset: usize) -> (i32, i32)
        requires { offset ≤ 2147483647 }
        ensures line { (source : List ℕ) → self.now ≡ starts 0 source → result.0 ≡ pos (line source offset) }
        ensures column { (source : List ℕ) → self.now ≡ starts 0 source → result.1 ≡ pos (column source offset) }
        ensures line_at { result.0 ≡ pos (count_le offset self.now) }
        ensures column_at { result.1 ≡ pos (offset - last_le 0 offset self.now) }
    {
        let line = count_up_to(&self.starts, offset);
        place(&self.starts, line, offset)
    }

    /// Line and column of a span's start and end, as `resolve_span` answers them, without memory.
    /// The span's offsets must be at most 2,147,483,647.
    pub fn numbers(&self, span: Span) -> Numbers
        requires start { span.start ≤ 2147483647 }
        requires end { span.end ≤ 2147483647 }
        ensures numbers { (source : List ℕ) → self.now ≡ starts 0 source → result ≡ span_numbers source span }
        ensures at { result ≡ numbers_at self.now span }
    {
        let first = count_up_to(&self.starts, span.start);
        let last = count_up_to(&self.starts, span.end);
        numbers_in(&self.starts, first, last, span)
    }

    /// Answers what `numbers` answers, faster if the span starts in the line `near` or in one of the
    /// next seven. Sets `near` to the line in which the span starts. Offsets as for `numbers`.
    pub fn numbers_near(&self, near: &mut usize, span: Span) -> Numbers
        requires start { span.start ≤ 2147483647 }
        requires end { span.end ≤ 2147483647 }
        ensures { result ≡ numbers_at self.now span }
    {
        let line = *near;
        if is_count(&self.starts, line, span.start) && is_count(&self.starts, line, span.end) {
            return numbers_in(&self.starts, line, line, span);
        }
        let first = count_near(&self.starts, line, span.start);
        let last = count_near(&self.starts, first, span.end);
        *near = first;
        numbers_in(&self.starts, first, last, span)
    }

    /// Line and column of the span's start, then those of its end. Three numbers if both are in one
    /// line, four otherwise. `AllocError` if memory runs out.
    pub fn resolve_span(&self, alloc: Global, span: Span) -> Result<Vec<i32>, AllocError>
        requires start { span.start ≤ 2147483647 }
        requires end { span.end ≤ 2147483647 }
        ensures numbers { IfOk result (λ numbers. (source : List ℕ) → self.now ≡ starts 0 source → numbers.items ≡ span_numbers source span) }
        ensures at { IfOk result (λ numbers. numbers.items ≡ numbers_at self.now span) }
    {
        self.numbers(span).into_vec(alloc)
    }
}
