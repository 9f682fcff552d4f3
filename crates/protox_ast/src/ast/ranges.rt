//! The spans of ranges.

ghost use Rattle.std.specs.Prelude.{◌≡◌};
ghost use Rattle.protox_ast.specs.Spans.{start_span, end_span, range_span};

use super::{ReservedRange, ReservedRangeEnd};
use crate::ast::spans::copied;
use protox_fault::error::Span;

impl ReservedRange {
    /// The span of the first number.
    pub fn start_span(&self) -> Span
        ensures { result ≡ start_span self.now }
    {
        self.start.span.start..self.start.span.end
    }

    /// The span of the last number or of `max`. Without an end it is that of the first number.
    pub fn end_span(&self) -> Span
        ensures { result ≡ end_span self.now }
    {
        match &self.end {
            ReservedRangeEnd::None => copied(&self.start.span),
            ReservedRangeEnd::Int(int) => copied(&int.span),
            ReservedRangeEnd::Max(span) => copied(span),
        }
    }

    /// The span of the range: from its first number to its end.
    pub fn span(&self) -> Span
        ensures { result ≡ range_span self.now }
    {
        self.start.span.start..self.end_span().end
    }
}
