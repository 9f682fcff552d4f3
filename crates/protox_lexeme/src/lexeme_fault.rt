//! Faults of lexemes, as they are kept until they are reported.
ghost use Rattle.std.specs.Prelude.{◌≡◌, IfOk};
ghost use Rattle.protox_fault.specs.Faults.{is_of_mode};
ghost use Rattle.protox_lexeme.specs.LexemeFaults.{fault_of};

use protox_descriptor::values::Text;
use protox_fault::error::{ParseErrorKind, Span};
use std::alloc::{AllocError, Global};
use std::marker::Model;

/// What is wrong with a lexeme. The last two say that the source ends in a string or a comment.
#[derive(Clone, Copy)]
pub(crate) enum FaultKind {
    InvalidToken,
    IntegerOutOfRange,
    InvalidStringCharacters,
    UnterminatedString,
    InvalidStringEscape,
    NestedBlockComment,
    NoSpaceBetweenIntAndIdent,
    HashCommentOutsideTextFormat,
    FloatSuffixOutsideTextFormat,
    EndInString,
    EndInComment,
}

/// A fault of a lexeme: kind and span only. The `ParseErrorKind` is made when the fault is
/// reported. Contracts see that.
#[derive(Drop)]
pub struct LexemeFault {
    pub(crate) kind: FaultKind,
    pub(crate) span: Span,
}

impl Model for LexemeFault {
    ghost use Rattle.protox_fault.specs.declared.error.ParseErrorKind.{ParseErrorKind};

    ghost Value = { ParseErrorKind };

    ghost use Rattle.protox_lexeme.specs.LexemeFaults.{fault_seen};

    ghost view = { fault_seen };
}

// The fault that the source ends where this was expected.
fn unexpected_end(alloc: Global, expected: &str) -> Result<ParseErrorKind, AllocError>
    ensures { IfOk result (λ fault. fault ≡ ParseErrorKind.UnexpectedEof expected.now) }
{
    let expected = Text::copy(alloc, expected)?;
    Ok(ParseErrorKind::UnexpectedEof { expected })
}

// The fault of a kind at a place.
fn fault_at(alloc: Global, kind: FaultKind, span: Span) -> Result<ParseErrorKind, AllocError>
    ensures { IfOk result (λ fault. fault ≡ fault_of kind span) }
{
    let fault = match kind {
        FaultKind::InvalidToken => ParseErrorKind::InvalidToken { span },
        FaultKind::IntegerOutOfRange => ParseErrorKind::IntegerOutOfRange { span },
        FaultKind::InvalidStringCharacters => ParseErrorKind::InvalidStringCharacters { span },
        FaultKind::UnterminatedString => ParseErrorKind::UnterminatedString { span },
        FaultKind::InvalidStringEscape => ParseErrorKind::InvalidStringEscape { span },
        FaultKind::NestedBlockComment => ParseErrorKind::NestedBlockComment { span },
        FaultKind::NoSpaceBetweenIntAndIdent => ParseErrorKind::NoSpaceBetweenIntAndIdent { span },
        FaultKind::HashCommentOutsideTextFormat => ParseErrorKind::HashCommentOutsideTextFormat {
            span,
        },
        FaultKind::FloatSuffixOutsideTextFormat => ParseErrorKind::FloatSuffixOutsideTextFormat {
            span,
        },
        FaultKind::EndInString => return unexpected_end(alloc, "string terminator"),
        FaultKind::EndInComment => return unexpected_end(alloc, "comment terminator"),
    };
    Ok(fault)
}

impl LexemeFault {
    /// The fault that no token begins with the character at this span.
    pub fn invalid_token(span: Span) -> LexemeFault
        ensures { result ≡ ParseErrorKind.InvalidToken span }
    {
        LexemeFault {
            kind: FaultKind::InvalidToken,
            span,
        }
    }

    /// The fault as it is reported.
    pub(crate) fn told(&self, alloc: Global) -> Result<ParseErrorKind, AllocError>
        ensures { IfOk result (λ fault. fault ≡ self.now) }
    {
        fault_at(alloc, self.kind, self.span.start..self.span.end)
    }

    /// Whether it is a fault only outside aggregates.
    pub(crate) fn is_of_mode(&self) -> bool
        ensures { result ≡ is_of_mode self.now }
    {
        matches!(
            self.kind,
            FaultKind::HashCommentOutsideTextFormat | FaultKind::FloatSuffixOutsideTextFormat
        )
    }
}
