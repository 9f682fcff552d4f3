//! Where the spans of a list begin and end, sorted. So it takes two searches to say whether one of
//! them meets a span.

ghost use Rattle.std.specs.Prelude.{◌≡◌, ◌<◌, IfOk, IsTrue, count_by, nat_lt};
ghost use Rattle.std.specs.List.Sorted.{IsNonDecreasing};
ghost use Rattle.protox_spans.specs.Spans.{has_numbers};
ghost use Rattle.protox_spans.specs.inner.Blocks.{Counts, FitsBlock, count_met};

use crate::span::Span;
use std::alloc::{AllocError, Global};

// Where the spans that have numbers begin and end, each sorted.
#[derive(Drop)]
pub struct Block {
    pub starts: Vec<u64>,
    pub ends: Vec<u64>,
}

// How many of these numbers are below a bound.
fn count_below(numbers: &[u64], bound: u64) -> usize
    requires { IsNonDecreasing numbers.now }
    ensures { result ≡ count_by (λ x. nat_lt x bound) numbers.now }
{
    numbers.partition_point(|number| *number < bound)
}

// The starts of the spans that have numbers, sorted.
fn sorted_starts(alloc: Global, spans: &[Span]) -> Result<Vec<u64>, AllocError>
    ensures up { IfOk result (λ made. IsNonDecreasing made.items) }
    ensures counts { IfOk result (λ made. Counts made.items (λ s. s.start) spans.now) }
{
    let mut made = Vec::new(alloc);
    for span in spans {
        if span.start < span.end {
            made.push(span.start)?;
        }
    }
    made.sort()?;
    Ok(made)
}

// The ends of the spans that have numbers, sorted.
fn sorted_ends(alloc: Global, spans: &[Span]) -> Result<Vec<u64>, AllocError>
    ensures up { IfOk result (λ made. IsNonDecreasing made.items) }
    ensures counts { IfOk result (λ made. Counts made.items (λ s. s.end) spans.now) }
{
    let mut made = Vec::new(alloc);
    for span in spans {
        if span.start < span.end {
            made.push(span.end)?;
        }
    }
    made.sort()?;
    Ok(made)
}

impl Block {
    // The block of these spans.
    pub fn new(alloc: Global, spans: &[Span]) -> Result<Block, AllocError>
        ensures { IfOk result (λ made. FitsBlock made spans.now) }
    {
        let starts = sorted_starts(alloc, spans)?;
        let ends = sorted_ends(alloc, spans)?;
        Ok(Block { starts, ends })
    }

    // How many of the spans begin before the end of this one, less those that end up to its start:
    // that many meet it.
    pub fn count_met(&self, span: Span) -> usize
        requires numbers { span.start < span.end }
        requires up_starts { IsNonDecreasing self.now.starts.items }
        requires up_ends { IsNonDecreasing self.now.ends.items }
        ensures { result ≡ count_met self.now span }
    {
        let begun = count_below(self.starts.as_slice(), span.end);
        begun.saturating_sub(count_below(self.ends.as_slice(), span.start + 1))
    }
}
