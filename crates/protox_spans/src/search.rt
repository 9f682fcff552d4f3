//! The search for the first span that another one meets.

ghost use Rattle.std.specs.Prelude.{◌≡◌, IfOk, map};
ghost use Rattle.protox_spans.specs.Spans.{first_met_in};
ghost use Rattle.protox_spans.specs.inner.Blocks.{IsTable};

use crate::levels::{Level, levels};
use crate::span::Span;
use std::alloc::{AllocError, Global};

// Spans, and their blocks.
#[derive(Drop)]
struct Table<'a> {
    spans: &'a [Span],
    levels: Vec<Level>,
}

impl Table<'_> {
    // The first span of the table that this one meets. Of each two blocks that make a larger one
    // where some span is met, the first one is taken in which one is.
    fn first_met(&self, span: Span) -> Option<usize>
        requires { IsTable self.now }
        ensures { result ≡ first_met_in self.now.spans.now span }
    {
        if span.start >= span.end {
            return None;
        }
        let mut level = self.levels.len() - 1;
        if self.levels[level].met(0, span) == 0 {
            return None;
        }
        let count = self.spans.len();
        let mut at = 0;
        while level > 0 {
            prove!(at < count);
            level -= 1;
            at *= 2;
            if self.levels[level].met(at, span) == 0 {
                at += 1;
            }
        }
        Some(at)
    }
}

/// For each of the spans, in order, the first span of the table that it meets, counted from 0.
///
/// For n spans and a table of m it takes at most some (n + m) log² m steps, whatever the spans are.
///
/// # Errors
/// `AllocError` where memory runs out.
pub fn first_met(
    alloc: Global,
    table: &[Span],
    spans: &[Span],
) -> Result<Vec<Option<usize>>, AllocError>
    ensures { IfOk result (λ made. made.items ≡ map (first_met_in table.now) spans.now) }
{
    let table = Table {
        spans: table,
        levels: levels(alloc, table)?,
    };
    let mut made = Vec::new(alloc);
    for span in spans {
        made.push(table.first_met(*span))?;
    }
    Ok(made)
}
