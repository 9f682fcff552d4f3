//! Block comments.
ghost use Rattle.std.specs.Prelude.{◌≡◌, ◌<◌, ◌≤◌, ◌+◌, ◌-◌, ◌^◌, ◌++◌, ◌∷◌, ◌==◌, ◌&&◌, ℕ, List, length, take, drop, slice_index, if◌then◌else◌, true, false, [], Some, None, IfOk, OnOk, IsOk, IfSome};
ghost use Rattle.std.specs.Option.{option_map};
ghost use Rattle.std.specs.Str.{IsCharBoundary};
ghost use Rattle.protox_lexeme.specs.BlockComments as spec;
ghost use Rattle.protox_lexeme.specs.Lexemes as lexemes;
ghost use Rattle.protox_lexeme.specs.Lexemes.{blanks};
ghost use Rattle.protox_lexeme.specs.Found.{lexeme_of};
ghost use Rattle.protox_lexeme.specs.declared.block_comment.Mark.TheVariants as code;
ghost use Rattle.protox_lexeme.specs.inner.Nesting.{in_front, read_len, run, run_out};

use crate::bytes::{Class, run_len};
use crate::comment_text::comment_text;
use crate::fault_list::append;
use crate::found::Found;
use crate::lexeme_fault::{FaultKind, LexemeFault};
use crate::token::Token;
use std::alloc::{AllocError, Global};

/// `/*` or `*/`.
#[derive(Clone, Copy)]
pub(crate) enum Mark {
    Opens,
    Closes,
}

// Whether these two bytes stand at `at`.
fn stand_at(bytes: &[u8], at: usize, first: u8, second: u8) -> bool
    requires { at + 1 < length bytes.now }
    ensures { result ≡ (slice_index bytes.now at == first && slice_index bytes.now (at + 1) == second) }
{
    bytes[at] == first && bytes[at + 1] == second
}

// The `/*` or `*/` at `at`, if there is one.
#[tactic(auto, using(crate::proofs::Nesting::marks_at))]
fn mark_at(bytes: &[u8], at: usize) -> Option<Mark>
    requires { at + 1 < length bytes.now }
    ensures { spec.marks at (drop at bytes.now) ≡ in_front result at (spec.marks (at + read_len result) (drop (at + read_len result) bytes.now)) }
{
    if stand_at(bytes, at, b'/', b'*') {
        Some(Mark::Opens)
    } else if stand_at(bytes, at, b'*', b'/') {
        Some(Mark::Closes)
    } else {
        None
    }
}

/// The levels of a comment as far as it has been read: how many are open within it, where the last
/// one was closed, the faults up to there, and the faults since.
#[derive(Drop)]
struct Levels {
    inner: usize,
    last: Option<usize>,
    settled: Vec<LexemeFault>,
    since: Vec<LexemeFault>,
}

impl Levels {
    // Reads a `/*`.
    #[tactic(auto, using(crate::proofs::Nesting::run_opens))]
    fn open(&mut self, start: usize, at: usize) -> Result<(), AllocError>
        requires fits { start + (at + 2) < 2 ^ 64 }
        requires few { self.old.inner ≤ at }
        ensures ok { OnOk result ((ms : List spec.Mark) → run start ms self.new.inner self.new.last self.new.settled.items self.new.since.items ≡ run start (spec.opens at ∷ ms) self.old.inner self.old.last self.old.settled.items self.old.since.items) }
        ensures inner { OnOk result (self.new.inner ≡ self.old.inner + 1) }
    {
        self.since.push(LexemeFault {
            kind: FaultKind::NestedBlockComment,
            span: start + at..start + (at + 2),
        })?;
        self.inner += 1;
        Ok(())
    }

    // Reads a `*/` that closes a level within the comment.
    #[tactic(auto, using(crate::proofs::Nesting::run_closes))]
    fn close(&mut self, start: usize, at: usize) -> Result<(), AllocError>
        requires { 0 < self.old.inner }
        ensures ok { OnOk result ((ms : List spec.Mark) → run start ms self.new.inner self.new.last self.new.settled.items self.new.since.items ≡ run start (spec.closes at ∷ ms) self.old.inner self.old.last self.old.settled.items self.old.since.items) }
        ensures inner { OnOk result (self.new.inner + 1 ≡ self.old.inner) }
    {
        self.settled.append(&mut self.since)?;
        self.inner -= 1;
        self.last = Some(at);
        Ok(())
    }

    // Whether this is the `*/` that closes the comment.
    fn end_at(&self, mark: Option<Mark>) -> bool
        ensures yes { result ≡ true → (mark ≡ Some code.Closes) × (self.now.inner ≡ 0) }
        ensures no { result ≡ false → mark ≡ Some code.Closes → 0 < self.now.inner }
    {
        matches!(mark, Some(Mark::Closes)) && self.inner == 0
    }

    // Reads a `/*` or `*/`, or a byte of neither. Answers how many bytes that are.
    fn take(&mut self, mark: Option<Mark>, start: usize, at: usize) -> Result<usize, AllocError>
        requires fits { start + (at + 2) < 2 ^ 64 }
        requires few { self.old.inner ≤ at }
        requires goes_on { mark ≡ Some code.Closes → 0 < self.old.inner }
        ensures len { IfOk result (λ n. n ≡ read_len mark) }
        ensures run { OnOk result ((ms : List spec.Mark) → run start ms self.new.inner self.new.last self.new.settled.items self.new.since.items ≡ run start (in_front mark at ms) self.old.inner self.old.last self.old.settled.items self.old.since.items) }
        ensures inner { OnOk result (self.new.inner ≤ at + 1) }
        ensures none { mark ≡ None → IsOk result × (self.new.inner ≡ self.old.inner) × (self.new.since.items ≡ self.old.since.items) }
    {
        match mark {
            Some(Mark::Opens) => {
                self.open(start, at)?;
                Ok(2)
            }
            Some(Mark::Closes) => {
                self.close(start, at)?;
                Ok(2)
            }
            None => Ok(1),
        }
    }

    // The faults of a comment that its own `*/` closes.
    fn end(self) -> Result<Vec<LexemeFault>, AllocError>
        ensures ok { IfOk result (λ v. v.items ≡ self.settled.items ++ self.since.items) }
        ensures free { self.since.items ≡ [] → IsOk result }
    {
        let Levels {
            mut settled,
            since,
            ..
        } = self;
        append(&mut settled, since)?;
        Ok(settled)
    }

    // The last `*/` of a comment that nothing closes, if there is one, and the comment's faults.
    fn run_out(self) -> Result<(Option<usize>, Vec<LexemeFault>), AllocError>
        ensures { IfOk result (λ r. (r.0, r.1.items) ≡ run_out self.last self.settled.items self.since.items) }
    {
        let Levels {
            last,
            mut settled,
            since,
            ..
        } = self;
        match last {
            Some(at) => Ok((Some(at), settled)),
            None => {
                append(&mut settled, since)?;
                settled.push(LexemeFault {
                    kind: FaultKind::EndInComment,
                    span: 0..0,
                })?;
                Ok((None, settled))
            }
        }
    }
}

// The `*/` at which the comment at the front ends, if there is one, and the comment's faults.
#[tactic(auto, using(crate::proofs::Nesting::run_ending, crate::proofs::BlockExtent::mark_within))]
fn read_marks(
    alloc: Global,
    bytes: &[u8],
    start: usize,
) -> Result<(Option<usize>, Vec<LexemeFault>), AllocError>
    requires opener { 2 ≤ length bytes.now }
    requires fits { start + length bytes.now < 2 ^ 64 }
    ensures mark { IfOk result (λ r. r.0 ≡ option_map (λ e. e.at) (spec.ending (spec.marks_of bytes.now))) }
    ensures faults { IfOk result (λ r. r.1.items ≡ spec.faults_to start (spec.marks_of bytes.now) (spec.ending (spec.marks_of bytes.now))) }
    ensures within { IfOk result (λ r. IfSome r.0 (λ k. (2 ≤ k) × (k + 2 ≤ length bytes.now) × (slice_index bytes.now k ≡ 42))) }
    ensures free { spec.faults_to start (spec.marks_of bytes.now) (spec.ending (spec.marks_of bytes.now)) ≡ [] → IsOk result }
{
    let mut levels = Levels {
        inner: 0,
        last: None,
        settled: Vec::new(alloc),
        since: Vec::new(alloc),
    };
    let mut at = 2;
    'marks: while at + 1 < bytes.len() {
        let mark = mark_at(bytes, at);
        if levels.end_at(mark) {
            return Ok((Some(at), levels.end()?));
        }
        at += levels.take(mark, start, at)?;
    }
    levels.run_out()
}

// The content between `/*` and `*/`. A comment with a fault has none.
#[tactic(auto, using(crate::proofs::Boundaries::ascii_boundary))]
fn content<'a>(text: &'a str, mark: usize, faults: &[LexemeFault]) -> &'a str
    requires opener { slice_index text.now 1 < 128 }
    requires low { 2 ≤ mark }
    requires high { mark < length text.now }
    requires ascii { slice_index text.now mark < 128 }
    ensures { result.now ≡ (if length faults.now == 0 then take (mark - 2) (drop 2 text.now) else []) }
{
    if faults.is_empty() {
        &text[2..mark]
    } else {
        ""
    }
}

// How many blanks stand at `at`.
fn blanks_at(text: &str, at: usize) -> usize
    requires { at ≤ length text.now }
    ensures len { result ≡ blanks (drop at text.now) }
    ensures within { at + result ≤ length text.now }
{
    run_len(&text.as_bytes()[at..], Class::Blank)
}

/// Reads the block comment at the front of the text.
#[tactic(auto, using(crate::proofs::BlockExtent::len_boundary, crate::proofs::BlockExtent::len_bounds))]
pub(crate) fn read_block_comment(
    alloc: Global,
    text: &str,
    start: usize,
) -> Result<Found<'_>, AllocError>
    requires some { 2 ≤ length text.now }
    requires star { slice_index text.now 1 ≡ 42 }
    requires fits { start + length text.now < 2 ^ 64 }
    ensures value { IfOk result (λ f. lexeme_of start f ≡ lexemes.block_comment start text.now) }
    ensures within { IfOk result (λ f. (start < f.stop) × (f.stop ≤ start + length text.now)) }
    ensures boundary { IfOk result (λ f. IsCharBoundary text.now (f.stop - start)) }
    ensures free { (lexemes.block_comment start text.now).borrowed ≡ true → (lexemes.block_comment start text.now).faults ≡ [] → IsOk result }
{
    let (mark, faults) = read_marks(alloc, text.as_bytes(), start)?;
    match mark {
        Some(mark) => {
            let value = comment_text(alloc, content(text, mark, &faults))?;
            let blanks = blanks_at(text, mark + 2);
            Ok(Found {
                token: Ok(Token::BlockComment(value)),
                stop: start + mark + 2 + blanks,
                faults,
            })
        }
        None => Ok(Found {
            token: Ok(Token::BlockComment(comment_text(alloc, "")?)),
            stop: start + text.len(),
            faults,
        }),
    }
}
