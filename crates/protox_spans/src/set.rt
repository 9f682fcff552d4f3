//! Spans that are asked whether another one meets any of them.

ghost use Rattle.std.specs.List.{list_any};
ghost use Rattle.std.specs.Prelude.{◌≡◌, IfOk};
ghost use Rattle.protox_spans.specs.Spans.{meets};

use crate::block::Block;
use crate::span::Span;
use std::alloc::{AllocError, Global};
use std::marker::Model;

/// Spans, kept so that it takes few steps to tell whether another one meets any of them.
#[derive(Drop)]
pub struct SpanSet {
    spans: Vec<Span>,
    block: Block,
}

impl Model for SpanSet {
    ghost use Rattle.std.specs.Prelude.{List};
    ghost use Rattle.protox_spans.specs.declared.span.Span.{Span};
    ghost use Rattle.protox_spans.specs.inner.Blocks.{FitsBlock};

    ghost Value = { List Span };

    ghost view = { λ s. s.spans.items };

    ghost invariant = { λ s. FitsBlock s.block s.spans.items };
}

impl SpanSet {
    /// These spans. For n of them it takes some n log n steps.
    ///
    /// # Errors
    /// `AllocError` where memory runs out.
    pub fn of(alloc: Global, spans: Vec<Span>) -> Result<SpanSet, AllocError>
        ensures { IfOk result (λ made. made ≡ spans.items) }
    {
        let block = Block::new(alloc, spans.as_slice())?;
        Ok(SpanSet { spans, block })
    }

    /// Whether a span meets any of them. Of n it takes some log n steps.
    pub fn meets(&self, span: Span) -> bool
        ensures { result ≡ list_any (meets span) self.now }
    {
        span.start < span.end && self.block.count_met(span) > 0
    }
}
