//! Copies of spans.

ghost use Rattle.std.specs.Prelude.{◌≡◌};

use protox_fault::error::Span;

/// A copy of the span.
pub(crate) fn copied(span: &Span) -> Span
    ensures { result ≡ span.now }
{
    span.start..span.end
}
