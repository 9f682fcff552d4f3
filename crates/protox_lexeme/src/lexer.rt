//! The lexer.
ghost use Rattle.std.specs.Prelude.{◌≡◌, ◌<◌, ◌≤◌, ◌+◌, ◌-◌, ◌^◌, ◌++◌, take, drop, OnOk, OnErr, length, ℕ, List, map, [], true, false, IfOk, IsOk, IsErr, IfSome, IsSome};
ghost use Rattle.protox_fault.specs.Faults.{faults_in};
ghost use Rattle.protox_lexeme.specs.Lexemes as spec;
ghost use Rattle.std.specs.Str.{IsCharBoundary};
ghost use Rattle.protox_lexeme.specs.Lexicon.{is_mark};
ghost use Rattle.protox_lexeme.specs.Tokens.{shape_of, shape_of_result, borrowed_of, borrowed_of_result};
ghost use Rattle.protox_lexeme.specs.Shapes as shape;
ghost use Rattle.protox_lexeme.specs.State.{State, Answers, TakesNone};

use crate::bytes::skip_blanks;
use crate::fault_list::tell;
use crate::found::{Found, read_lexeme};
use crate::token::Token;
use protox_fault::error::{ParseErrorKind, Span};
use std::alloc::{AllocError, Global};
use std::marker::Model;

/// Cuts a source into lexemes: tokens, comments, newlines and invalid characters.
#[derive(Drop)]
pub struct Lexer<'a> {
    alloc: Global,
    source: &'a str,
    at: usize,
    start: usize,
    stop: usize,
    errors: Vec<ParseErrorKind>,
    text_format: bool,
    failed: bool,
}

impl<'a> Model for Lexer<'a> {
    ghost use Rattle.protox_lexeme.specs.Shapes as shape;
    ghost use Rattle.protox_lexeme.specs.State.{State};
    ghost use Rattle.std.specs.Str.{IsCharBoundary};

    ghost Value = { State };

    ghost use Rattle.protox_lexeme.specs.Lexing.{state_of};

    ghost view = { state_of };

    ghost invariant = { λ a. IsCharBoundary a.source.now a.at };
}

impl<'a> Token<'a> {
    /// A lexer at the start of the source, not in text format. It takes no memory; later growth
    /// takes it from `alloc`.
    pub fn lexer(alloc: Global, source: &'a str) -> Lexer<'a>
        ensures { result ≡ record { source = source.entry.now; left = spec.cut 0 source.entry.now; start = 0; stop = 0; errors = []; text_format = false; failed = false } }
    {
        Lexer {
            alloc,
            source,
            at: 0,
            start: 0,
            stop: 0,
            errors: Vec::new(alloc),
            text_format: false,
            failed: false,
        }
    }
}

// Reads the lexeme at the front of the text. Adds those of its faults to `errors` that count in
// this mode.
fn read_into<'a>(
    alloc: Global,
    errors: &mut Vec<ParseErrorKind>,
    text: &'a str,
    start: usize,
    text_format: bool,
) -> Result<(Result<Token<'a>, ()>, usize), AllocError>
    requires some { 0 < length text.now }
    requires fits { start + length text.now < 2 ^ 64 }
    ensures value { let x = spec.first_lexeme start text.now in IfOk result (λ r. (shape_of_result r.0 ≡ x.shape) × (borrowed_of_result r.0 ≡ x.borrowed) × (r.1 ≡ x.stop)
        × (errors.new.items ≡ errors.old.items ++ faults_in text_format x.faults)) }
    ensures within { IfOk result (λ r. (start < r.1) × (r.1 ≤ start + length text.now)) }
    ensures boundary { IfOk result (λ r. IsCharBoundary text.now (r.1 - start)) }
    ensures err { OnErr result (errors.new.items ≡ errors.old.items) }
    ensures free { let x = spec.first_lexeme start text.now in x.borrowed ≡ true → faults_in text_format x.faults ≡ [] → IsOk result }
{
    let Found {
        token,
        stop,
        faults,
    } = read_lexeme(alloc, text, start, text_format)?;
    tell(alloc, errors, &faults, false)?;
    Ok((token, stop))
}

impl<'a> Lexer<'a> {
    /// The next lexeme, `Err(())` for an invalid character, or None at the end. The faults of the
    /// lexeme are added to `errors`. On `AllocError` span and faults stay as they were, and every
    /// later call answers `AllocError` too.
    pub fn next(&mut self) -> Result<Option<Result<Token<'a>, ()>>, AllocError>
        ensures ok { IfOk result (λ r. Answers self.old r self.new) }
        ensures err { OnErr result (self.new ≡ record self.old { failed = true }) }
        ensures failed { self.old.failed ≡ true → IsErr result }
        ensures free { self.old.failed ≡ false → TakesNone self.old → IsOk result }
    {
        if self.failed {
            return Err(AllocError);
        }
        let source = self.source;
        let (blanks, text) = skip_blanks(&source[self.at..]);
        if text.is_empty() {
            return Ok(None);
        }
        let start = self.at + blanks;
        match read_into(self.alloc, &mut self.errors, text, start, self.text_format) {
            Ok((token, stop)) => {
                self.at = stop;
                self.start = start;
                self.stop = stop;
                Ok(Some(token))
            }
            Err(error) => {
                self.failed = true;
                Err(error)
            }
        }
    }

    /// The span of the last lexeme, in byte offsets, or `0..0` before the first. It stays at the
    /// end of the source, and when memory runs out.
    pub fn span(&self) -> Span
        ensures { result ≡ record { start = self.now.start; end = self.now.stop } }
    {
        self.start..self.stop
    }

    /// The faults of the lexemes so far, in order. An invalid character adds none.
    pub fn errors(&self) -> &[ParseErrorKind]
        ensures { result.now ≡ self.now.errors }
    {
        &self.errors
    }

    /// Switches text format on or off for the lexemes to come. In text format, as in an aggregate,
    /// `#` comments and float suffixes are no faults.
    pub fn set_text_format_mode(&mut self, text_format: bool)
        ensures { self.new ≡ record self.old { text_format = text_format } }
    {
        self.text_format = text_format;
    }
}
