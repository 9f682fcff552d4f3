//! The table of a source while the source is cut into lexemes.
ghost use Rattle.std.specs.Prelude.{◌≡◌, ◌<◌, ◌≤◌, ◌+◌, ◌-◌, ◌^◌, ◌∷◌, ◌++◌, [], List, length, slice_index, true, false, Some, OnOk, IfOk};
ghost use Rattle.std.specs.Str.{IsCharBoundary};
ghost use Rattle.protox_fault.specs.Faults.{span_from};
ghost use Rattle.protox_lexeme.specs.Found.{lexeme_of};
ghost use Rattle.protox_lexeme.specs.Lexemes as spec;
ghost use Rattle.protox_lexeme.specs.Lexicon.{is_mark, is_quote, IsLineOpener};
ghost use Rattle.protox_lexeme.specs.Scanning as scanned;
ghost use Rattle.protox_lexeme.specs.Shapes.{Mark, Newline};
ghost use Rattle.protox_lexeme.specs.Table.{is_gap, table_of, invalid_faults};
ghost use Rattle.protox_lex.specs.inner.Sharing.{and_row};
ghost use Rattle.protox_lex.specs.Parts.{EndsAt, IsReach, IsReachOrRest};
ghost use Rattle.protox_lex.specs.inner.Stretches.{IsStretch};
ghost use Rattle.protox_lex.specs.TableView.{finished, ended_table};
ghost use Rattle.protox_lexeme.specs.Tokens.{shape_of, shape_of_result, borrowed_of_result, holds_none};

use crate::late_groups::LateGroups;
use crate::shared_gaps::SharedGaps;
use crate::shared_rows::{SharedRows, slot_of};
use protox_lexeme::bytes::skip_blanks;
use protox_lexeme::found::{Found, invalid, plain_token, read_kind};
use protox_lexeme::lexeme_fault::LexemeFault;
use protox_lexeme::scan::{Kind, scan};
use protox_lexeme::token::Token;
use std::alloc::{AllocError, Global};

/// For how many bytes of a source there is room at once. What comes behind gets its room as it is
/// needed: room counts against a limit of memory even if it is never touched, and a long comment
/// takes no row.
const AT_ONCE: usize = 0x10_0000;

/// A source of the usual kind has a row for 6 to 12 bytes. Room that no row takes is given back.
const BYTES_A_ROW: usize = 6;

/// For fewer rows there is no room at once, and none is given back: lists that grow to so few leave
/// less than what both would cost.
const FEW_ROWS: usize = 64;

/// A table, as far as the source has been cut.
#[derive(Drop)]
pub(crate) struct TableDraft<'a> {
    pub rows: SharedRows<'a>,
    pub gaps: SharedGaps<'a>,
    pub faults: LateGroups<LexemeFault>,
}

fn is_gap_token(token: &Token<'_>) -> bool
    ensures { result ≡ is_gap (shape_of token.now) }
{
    matches!(
        token,
        Token::LineComment(_) | Token::BlockComment(_) | Token::Newline
    )
}

// Adds the fault of an invalid token.
fn add_invalid(
    faults: &mut LateGroups<LexemeFault>,
    token: &Result<Token<'_>, ()>,
    start: usize,
    stop: usize,
) -> Result<(), AllocError>
    ensures { OnOk result (faults.new ≡ record faults.old { begun = faults.old.begun ++ invalid_faults (shape_of_result token.now) (span_from start stop) }) }
{
    if token.is_err() {
        faults.push(LexemeFault::invalid_token(start..stop))?;
    }
    Ok(())
}

impl<'a> TableDraft<'a> {
    // Ends the gap before a row, and the list of faults of both.
    #[inline(always)]
    fn end_gap(&mut self) -> Result<(), AllocError>
        ensures rows { OnOk result (self.new.rows ≡ self.old.rows) }
        ensures gaps { OnOk result (self.new.gaps ≡ record { ended = self.old.gaps.ended ++ self.old.gaps.begun ∷ []; begun = [] }) }
        ensures faults { OnOk result (self.new.faults ≡ record { ended = self.old.faults.ended ++ self.old.faults.begun ∷ []; begun = [] }) }
    {
        self.gaps.end()?;
        self.faults.end()
    }

    // Adds a comment or a newline, with its faults.
    fn add_gap(&mut self, token: Token<'a>, faults: Vec<LexemeFault>) -> Result<(), AllocError>
        ensures rows { OnOk result (self.new.rows ≡ self.old.rows) }
        ensures gaps { OnOk result (self.new.gaps ≡ record self.old.gaps { begun = self.old.gaps.begun ++ shape_of token.entry ∷ [] }) }
        ensures faults { OnOk result (self.new.faults ≡ record self.old.faults { begun = self.old.faults.begun ++ faults.items }) }
    {
        self.gaps.push(token)?;
        self.faults.append(faults)
    }

    // Adds any other lexeme, with its faults.
    fn add_row(
        &mut self,
        token: Result<Token<'a>, ()>,
        start: usize,
        stop: usize,
        faults: Vec<LexemeFault>,
    ) -> Result<(), AllocError>
        requires { start ≤ stop }
        ensures rows { OnOk result (self.new.rows ≡ and_row self.old.rows record { shape = shape_of_result token.entry; at = span_from start stop } (borrowed_of_result token.entry)) }
        ensures gaps { OnOk result (self.new.gaps ≡ record { ended = self.old.gaps.ended ++ self.old.gaps.begun ∷ []; begun = [] }) }
        ensures faults { OnOk result (self.new.faults ≡ record { ended = self.old.faults.ended ++ ((self.old.faults.begun ++ faults.items) ++ invalid_faults (shape_of_result token.entry) (span_from start stop)) ∷ []; begun = [] }) }
    {
        self.faults.append(faults)?;
        add_invalid(&mut self.faults, &token, start, stop)?;
        self.end_gap()?;
        self.rows.push(token, start, stop - start)
    }

    // Adds a lexeme that begins at `start`. Answers where it ends.
    fn add(&mut self, start: usize, found: Found<'a>) -> Result<usize, AllocError>
        requires { start ≤ found.stop }
        ensures value { OnOk result ((xs : List spec.Lexeme) → finished self.new xs ≡ finished self.old (lexeme_of start found.entry ∷ xs)) }
        ensures stop { IfOk result (λ n. n ≡ found.entry.stop) }
    {
        let Found {
            token,
            stop,
            faults,
        } = found;
        match token {
            Ok(token) if is_gap_token(&token) => self.add_gap(token, faults)?,
            token => self.add_row(token, start, stop, faults)?,
        }
        Ok(stop)
    }

    // Adds a lexeme without a fault, of `len` bytes at the front, whose token is known. Answers
    // where it ends.
    #[inline(always)]
    fn add_plain(
        &mut self,
        token: Token<'a>,
        text: &[u8],
        start: usize,
        len: usize,
    ) -> Result<usize, AllocError>
        requires fits { start + len < 2 ^ 64 }
        requires some { 0 < len }
        requires within { len ≤ length text.now }
        requires row { is_gap (shape_of token) ≡ false }
        requires holds { holds_none (shape_of token) ≡ true }
        ensures value { OnOk result ((xs : List spec.Lexeme) → finished self.new xs ≡ finished self.old (spec.plain (shape_of token.entry) start len ∷ xs)) }
        ensures stop { IfOk result (λ n. n ≡ start + len) }
    {
        let stop = start + len;
        self.end_gap()?;
        self.rows.push_plain(token, slot_of(text, len), start, len)?;
        Ok(stop)
    }

    // Adds a mark of `len` bytes. Answers where it ends.
    #[inline(always)]
    fn add_mark(&mut self, byte: u8, start: usize, len: usize) -> Result<usize, AllocError>
        requires fits { start + len < 2 ^ 64 }
        requires mark { is_mark byte ≡ true }
        ensures value { OnOk result ((xs : List spec.Lexeme) → finished self.new xs ≡ finished self.old (spec.plain (Mark byte) start len ∷ xs)) }
        ensures stop { IfOk result (λ n. n ≡ start + len) }
    {
        let stop = start + len;
        self.end_gap()?;
        self.rows.push_mark(byte, start, len)?;
        Ok(stop)
    }

    // Adds a newline of `len` bytes. Answers where it ends.
    #[inline(always)]
    fn add_newline(&mut self, start: usize, len: usize) -> Result<usize, AllocError>
        requires { start + len < 2 ^ 64 }
        ensures value { OnOk result ((xs : List spec.Lexeme) → finished self.new xs ≡ finished self.old (spec.plain Newline start len ∷ xs)) }
        ensures stop { IfOk result (λ n. n ≡ start + len) }
    {
        self.gaps.push_newline()?;
        Ok(start + len)
    }

    // Reads and adds a lexeme of this kind, of which `len` bytes match. Answers where it ends.
    #[inline(never)]
    fn read_kind(
        &mut self,
        alloc: Global,
        text: &'a str,
        kind: Kind,
        len: usize,
        start: usize,
    ) -> Result<usize, AllocError>
        requires found { scanned.scan text.now ≡ Some (kind, len) }
        requires some { 1 ≤ len }
        requires within { len ≤ length text.now }
        requires fits { start + length text.now < 2 ^ 64 }
        requires boundary { IsCharBoundary text.now len }
        requires mark { kind ≡ Kind.Mark → is_mark (slice_index text.now 0) ≡ true }
        requires quote { kind ≡ Kind.String → is_quote (slice_index text.now 0) ≡ true }
        requires opener { kind ≡ Kind.LineComment → IsLineOpener text.now len }
        requires block { kind ≡ Kind.BlockComment → (2 ≤ length text.now) × (slice_index text.now 1 ≡ 42) }
        ensures value { OnOk result ((xs : List spec.Lexeme) → finished self.new xs ≡ finished self.old (spec.lexeme kind start text.now len ∷ xs)) }
        ensures stop { IfOk result (λ n. n ≡ (spec.lexeme kind start text.now len).stop) }
        ensures within { IfOk result (λ n. (start < n) × (n ≤ start + length text.now)) }
        ensures boundary { IfOk result (λ n. IsCharBoundary text.now (n - start)) }
    {
        let found = read_kind(alloc, text, kind, len, start, false)?;
        self.add(start, found)
    }

    // Adds the character at the front of a text, with which no lexeme begins. Answers where it ends.
    #[inline(never)]
    fn read_invalid(
        &mut self,
        alloc: Global,
        text: &'a str,
        start: usize,
    ) -> Result<usize, AllocError>
        requires some { 0 < length text.now }
        requires fits { start + length text.now < 2 ^ 64 }
        ensures value { OnOk result ((xs : List spec.Lexeme) → finished self.new xs ≡ finished self.old (spec.invalid start text.now ∷ xs)) }
        ensures stop { IfOk result (λ n. n ≡ (spec.invalid start text.now).stop) }
        ensures within { IfOk result (λ n. (start ≤ n) × (n ≤ start + length text.now)) }
        ensures boundary { IfOk result (λ n. IsCharBoundary text.now (n - start)) }
    {
        self.add(start, invalid(alloc, text, start))
    }

    // Reads and adds the lexeme at the front of a text that begins at `start`. Answers where it
    // ends. Frequent kinds are handled in the loop that calls this. All others are called, so that
    // the loop stays short.
    #[inline(always)]
    #[tactic(auto, using(protox_lexeme::proofs::Lemmas::scan_boundary, protox_lexeme::proofs::Lemmas::scanned_mark, protox_lexeme::proofs::Lemmas::scanned_quote, protox_lexeme::proofs::Lemmas::scan_line, protox_lexeme::proofs::Lemmas::scan_block), unfolding(protox_lexeme::specs::Lexemes::first_lexeme))]
    fn read(&mut self, alloc: Global, text: &'a str, start: usize) -> Result<usize, AllocError>
        requires some { 0 < length text.now }
        requires fits { start + length text.now < 2 ^ 64 }
        ensures value { OnOk result ((xs : List spec.Lexeme) → finished self.new xs ≡ finished self.old (spec.first_lexeme start text.now ∷ xs)) }
        ensures stop { IfOk result (λ n. n ≡ (spec.first_lexeme start text.now).stop) }
        ensures within { IfOk result (λ n. (start < n) × (n ≤ start + length text.now)) }
        ensures boundary { IfOk result (λ n. IsCharBoundary text.now (n - start)) }
    {
        match scan(text.as_bytes()) {
            Some((Kind::Mark, len)) => self.add_mark(text.as_bytes()[0], start, len),
            Some((Kind::Newline, len)) => self.add_newline(start, len),
            Some((kind, len)) => match plain_token(text, kind, len) {
                Some(token) => self.add_plain(token, text.as_bytes(), start, len),
                None => self.read_kind(alloc, text, kind, len, start),
            },
            None => self.read_invalid(alloc, text, start),
        }
    }
}

// For how many rows there is room at once in the table of a part of `len` bytes.
fn room_at_once(len: usize) -> usize {
    let rows = len.min(AT_ONCE) / BYTES_A_ROW;
    if rows < FEW_ROWS { 0 } else { rows }
}

// A draft without a lexeme, with room for those of a part of `len` bytes.
fn begun_draft<'a>(alloc: Global, len: usize) -> Result<TableDraft<'a>, AllocError>
    ensures { IfOk result (λ draft. (xs : List spec.Lexeme) → finished draft xs ≡ table_of xs) }
{
    let room = room_at_once(len);
    Ok(TableDraft {
        rows: SharedRows::new(alloc, room)?,
        gaps: SharedGaps::new(alloc, room)?,
        faults: LateGroups::new(alloc),
    })
}

// Adds the lexemes that stand between `from` and `until`, with the whole of the last one. The last
// gap has not ended. Answers where the lexemes end.
fn draft<'a>(
    alloc: Global,
    begun: TableDraft<'a>,
    source: &'a str,
    from: usize,
    until: usize,
) -> Result<(TableDraft<'a>, usize), AllocError>
    requires fits { until ≤ length source.now }
    requires order { from ≤ until }
    requires boundary { IsCharBoundary source.now from }
    ensures table { IfOk result (λ part. (xs : List spec.Lexeme) × ((more : List spec.Lexeme) → finished part.0 more ≡ finished begun.entry (xs ++ more)) × IsStretch source.entry.now from until xs part.1) }
    ensures past { IfOk result (λ part. until ≤ part.1) }
    ensures boundary { IfOk result (λ part. IsCharBoundary source.entry.now part.1) }
{
    let mut draft = begun;
    let mut at = from;
    'lexemes: while at < until {
        let (blanks, text) = skip_blanks(&source[at..]);
        if text.is_empty() {
            return Ok((draft, source.len()));
        }
        at = draft.read(alloc, text, at + blanks)?;
    }
    Ok((draft, at))
}

// The draft of the lexemes that stand between `from` and `until`, with the whole of the last one.
// If that one ends more than `long` bytes behind `until`, then of all lexemes from `from` on. The
// last gap has not ended. Answers where the lexemes end.
fn draft_or_rest<'a>(
    alloc: Global,
    source: &'a str,
    from: usize,
    until: usize,
    long: usize,
) -> Result<(TableDraft<'a>, usize), AllocError>
    requires fits { until ≤ length source.now }
    requires order { from ≤ until }
    requires boundary { IsCharBoundary source.now from }
    ensures table { IfOk result (λ part. (xs : List spec.Lexeme) × (finished part.0 [] ≡ table_of xs) × EndsAt source.entry.now from xs part.1) }
    ensures reach { IfOk result (λ part. IsReachOrRest source.entry.now from until long part.1) }
    // No lexeme ends behind the source.
    ensures near { length source.entry.now ≤ until + long → IfOk result (λ part. IsReach source.entry.now from until part.1) }
    ensures past { IfOk result (λ part. until ≤ part.1) }
{
    let begun = begun_draft(alloc, until - from)?;
    let (part, end) = draft(alloc, begun, source, from, until)?;
    let beyond = end - until;
    if beyond <= long {
        return Ok((part, end));
    }
    draft(alloc, part, source, end, source.len())
}

/// The table of the lexemes that stand between `from` and `until`, with the whole of the last one.
/// If that one ends more than `long` bytes behind `until`, then of all lexemes from `from` on. Its
/// last gap has ended. Room that it doesn't take is given back, but for the room of a few rows.
/// Answers where the lexemes end.
pub(crate) fn ended_draft<'a>(
    alloc: Global,
    source: &'a str,
    from: usize,
    until: usize,
    long: usize,
) -> Result<(TableDraft<'a>, usize), AllocError>
    requires fits { until ≤ length source.now }
    requires order { from ≤ until }
    requires boundary { IsCharBoundary source.now from }
    ensures table { IfOk result (λ part. (xs : List spec.Lexeme) × (ended_table part.0 ≡ table_of xs) × EndsAt source.entry.now from xs part.1) }
    ensures reach { IfOk result (λ part. IsReachOrRest source.entry.now from until long part.1) }
    ensures near { length source.entry.now ≤ until + long → IfOk result (λ part. IsReach source.entry.now from until part.1) }
    ensures past { IfOk result (λ part. until ≤ part.1) }
{
    let (mut draft, end) = draft_or_rest(alloc, source, from, until, long)?;
    draft.end_gap()?;
    if FEW_ROWS <= draft.rows.len() || 0 < room_at_once(until - from) {
        draft.rows.shrink_to_fit();
        draft.gaps.shrink_to_fit();
    }
    Ok((draft, end))
}
