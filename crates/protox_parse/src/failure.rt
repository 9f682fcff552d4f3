//! Why a source is refused, or why there is no descriptor.

ghost use Rattle.std.specs.Prelude.{◌≡◌, ◌≢◌, ◌∷◌, [], ℕ, List, Some, option_and_then, length, min, Ok, Err, IfOk};
ghost use Rattle.protox_ast.specs.Accepted.{Fits, FaultsLieIn};
ghost use Rattle.protox_ast.specs.Keywords.{Each};
ghost use Rattle.protox_ast.specs.declared.ast.File.{File};
ghost use Rattle.protox_checks.specs.Faults.{AreWrong, IsFaultless};
ghost use Rattle.protox_fault.specs.Faults.{LiesIn, span_of};
ghost use Rattle.protox_fault.specs.declared.error.SyntaxFailure.TheVariants.{Faults};
ghost use Rattle.protox_places.specs.Faults.{first_place};
ghost use Rattle.protox_places.specs.Lines.{line, column};
ghost use Rattle.protox_parse.specs.Answers.{HasFailureLaws};
ghost use Rattle.protox_parse.specs.FaultLists.{HasFaultsOf};
ghost use Rattle.protox_parse.specs.Failures.{AreWrongOf, IsOutOfMemory, IsRefusalOf, first_of};

use protox_descriptor::values::Text;
use protox_lex::error::{ParseErrorKind, Span};
use protox_places::faults;
use protox_shown::line::FaultLine;
use std::alloc::{AllocError, Global};
use std::fmt;
use std::marker::Model;
use thiserror::Error;

/// What is wrong with a source: its faults, at least one, with the file's name and its text.
///
/// `Display` writes the text of the first fault. `Debug` writes it with file, line and column.
#[derive(Drop)]
pub struct ParseError {
    file: Text,
    source: Text,
    errors: Vec<ParseErrorKind>,
}

impl Model for ParseError {
    ghost use Rattle.protox_parse.specs.Refusal.{Refusal};
    ghost use Rattle.protox_parse.specs.Refusals.{refusal_of, has_fault};

    ghost Value = { Refusal };

    ghost view = { refusal_of };

    ghost invariant = { has_fault };
}

impl ParseError {
    /// The name of the file.
    pub fn file(&self) -> &str
        ensures { result.now ≡ self.now.file }
    {
        self.file.as_str()
    }

    /// The text of the file; the empty text if the source is too large.
    pub fn source(&self) -> &str
        ensures { result.now ≡ self.now.source }
    {
        self.source.as_str()
    }

    /// The first fault.
    pub fn kind(&self) -> &ParseErrorKind
        ensures { first_of self.now.errors ≡ Some result.now }
    {
        &self.errors[0]
    }

    /// All faults, at least one, in the order in which they were found.
    pub fn errors(&self) -> &[ParseErrorKind]
        ensures value { result.now ≡ self.now.errors }
        ensures some { result.now ≢ [] }
    {
        self.errors.as_slice()
    }

    /// The span of the first fault, in byte offsets. None for a second package statement, for an
    /// unexpected end of the file, and for a source that is too large.
    pub fn span(&self) -> Option<Span>
        ensures { option_and_then span_of (first_of self.now.errors) ≡ result }
    {
        self.kind().span()
    }

    /// The span of the first fault, in byte offsets. A second package statement has two places;
    /// this is the first package statement. An unexpected end of the file has an empty span there.
    /// None for a source that is too large.
    pub fn first_place(&self) -> Option<Span>
        ensures { option_and_then (first_place self.now.source) (first_of self.now.errors) ≡ result }
    {
        faults::first_place(self.source(), self.kind())
    }

    /// Line and column of a byte offset in the source, both from 0; columns count bytes. An offset
    /// behind the source counts as its end. It reads the source up to the offset.
    ///
    /// ```
    /// if let Some(place) = error.first_place() {
    ///     let (line, column) = error.line_column(place.start);
    ///     println!(rt; "{}:{}:{}: {error}", error.file(), line + 1, column + 1)?;
    /// }
    /// ```
    pub fn line_column(&self, offset: usize) -> (usize, usize)
        ensures line { result.0 ≡ line self.now.source (min offset (length self.now.source)) }
        ensures column { result.1 ≡ column self.now.source (min offset (length self.now.source)) }
    {
        faults::line_column(self.source(), offset)
    }

    /// The faults alone, in the order in which they were found.
    pub fn into_inner(self) -> Vec<ParseErrorKind>
        ensures { result.items ≡ self.errors }
    {
        let ParseError {
            file: _,
            source: _,
            errors,
        } = self;
        errors
    }
}

impl fmt::Display for ParseError {
    ghost use Rattle.std.specs.Prelude.{option_map};
    ghost use Rattle.protox_fault.specs.FaultTexts.{text_of};

    ghost output = { λ refusal. option_map text_of (first_of refusal.errors) };

    fn fmt<W: fmt::Write>(&self, f: &mut fmt::Formatter<W>) -> fmt::Result {
        let kind = self.kind();
        write!(f, "{kind}")
    }
}

/// The line that a user sees: `file:line:column: text`, line and column from 1. If the first fault
/// has no span, it is the text alone.
///
/// It is safe on a terminal: characters that a terminal obeys or doesn't show are written as
/// `\u{..}`. Of a long token the first 200 characters are shown.
impl fmt::Debug for ParseError {
    ghost use Rattle.std.specs.Prelude.{option_map};
    ghost use Rattle.protox_shown.specs.Line.{fault_line};

    ghost debug_output = { λ refusal. option_map (fault_line refusal.file refusal.source) (first_of refusal.errors) };

    fn fmt<W: fmt::Write>(&self, f: &mut fmt::Formatter<W>) -> fmt::Result {
        let line = FaultLine {
            file: self.file(),
            source: self.source(),
            fault: self.kind(),
        };
        write!(f, "{line}")
    }
}

/// Why there is no descriptor. `Refused`: something is wrong with the source. `OutOfMemory`: memory
/// ran out, and the source may be right or wrong.
#[derive(Debug, Drop, Error)]
pub enum ParseFailure {
    #[error("{0}")]
    Refused(ParseError),
    #[error("out of memory")]
    OutOfMemory,
}

// The refusal of a source with these faults.
fn refusal(
    alloc: Global,
    name: &str,
    source: &str,
    errors: Vec<ParseErrorKind>,
) -> Result<ParseError, AllocError>
    requires { errors.items ≢ [] }
    ensures { IfOk result (λ e. e ≡ record { file = name.now; source = source.now; errors = errors.items }) }
{
    Ok(ParseError {
        file: Text::copy(alloc, name)?,
        source: Text::copy(alloc, source)?,
        errors,
    })
}

/// The refusal of a source that is too large.
#[tactic(auto, using(crate::proofs::Truths::no_memory, crate::proofs::Truths::too_large))]
pub(crate) fn too_large(alloc: Global, name: &str) -> ParseFailure
    ensures { (source : List ℕ) → (Fits source → ⊥) → HasFailureLaws name.now source result }
{
    let mut errors = Vec::new(alloc);
    if errors.push(ParseErrorKind::FileTooLarge).is_err() {
        return ParseFailure::OutOfMemory;
    }
    match refusal(alloc, name, "", errors) {
        Ok(error) => ParseFailure::Refused(error),
        Err(_) => ParseFailure::OutOfMemory,
    }
}

/// The refusal of a source with these faults.
pub(crate) fn refused(
    alloc: Global,
    name: &str,
    source: &str,
    faults: Vec<ParseErrorKind>,
) -> ParseFailure
    requires { FaultsLieIn source.now (Faults faults) }
    ensures of_source { IsRefusalOf name.now source.now result }
    ensures same { HasFaultsOf (Faults faults) result }
    // If nothing is wrong with the file, there are no such faults.
    ensures none { (file : File) → AreWrong file (Faults faults) → IsFaultless file → IsOutOfMemory result }
    ensures wrong { (file : File) → AreWrong file (Faults faults) → AreWrongOf file result }
{
    match refusal(alloc, name, source, faults) {
        Ok(error) => ParseFailure::Refused(error),
        Err(_) => ParseFailure::OutOfMemory,
    }
}
