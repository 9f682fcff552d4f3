//! The rows of a table, in little memory.
ghost use Rattle.std.specs.Prelude.{◌≡◌, ◌<◌, ◌≤◌, ◌+◌, ◌^◌, ◌++◌, ◌∷◌, [], true, None, length, slice_get, OnOk, OnErr, IfOk, IfSome};
ghost use Rattle.std.specs.Option.{option_map};
ghost use Rattle.protox_fault.specs.Faults.{span_from};
ghost use Rattle.protox_lexeme.specs.Lexicon.{is_mark};
ghost use Rattle.protox_lexeme.specs.Shapes.{Mark};
ghost use Rattle.protox_lexeme.specs.TokenClass.{class};
ghost use Rattle.protox_lex.specs.inner.Sharing.{shape_at, len_at, kept_len, own_len, and_row, AreMarks};
ghost use Rattle.protox_lex.specs.TableView.{shape_of_lent, borrowed_of_lent};
ghost use Rattle.protox_lexeme.specs.Tokens.{shape_of, shape_of_result, borrowed_of_result, holds_none};

use crate::laws::tokens_are_equal_by_shape;
use crate::row_list::{NumberedRow, RowList, with_room};
use protox_fault::error::Span;
use protox_lexeme::class::class_of_result;
use protox_lexeme::token::{Token, mark_of};
use std::alloc::{AllocError, Global};
use std::marker::Model;

/// A token, its length in the source in bytes, and its class. A length that doesn't fit in 4 bytes
/// is kept with the rows, and is 0 here.
#[derive(Drop)]
pub(crate) struct KeptToken<'a> {
    pub token: Result<Token<'a>, ()>,
    pub len: u32,
    pub class: u8,
}

// About every eighth row has a token that is not kept yet.
const ROWS_A_TOKEN: usize = 8;

// How many words and integers are remembered.
const SLOTS: usize = 1024;

/// Rows. Equal tokens share what is kept of them: each mark is kept once, and so is a word or an
/// integer while it is remembered.
#[derive(Drop)]
pub(crate) struct SharedRows<'a> {
    rows: RowList,
    tokens: Vec<KeptToken<'a>>,
    marks: Vec<Option<u32>>,
    recent: Vec<u32>,
}

impl<'a> Model for SharedRows<'a> {
    ghost use Rattle.protox_lex.specs.inner.Sharing.{RowsSeen, rows_seen, AreShared};

    ghost Value = { RowsSeen };

    ghost view = { λ s. rows_seen s.tokens.items s.rows };

    ghost invariant = { λ s. AreShared s.tokens.items s.rows s.marks.items s.recent.items };
}

/// The slot in which the number of a token is remembered, by the first `len` bytes of the text. Any
/// slot would do, but tokens that share a slot are kept more often.
#[inline(always)]
pub(crate) fn slot_of(text: &[u8], len: usize) -> usize
    requires some { 0 < len }
    requires within { len ≤ length text.now }
    ensures { result < 1024 }
{
    let first = text[0] as usize;
    let middle = text[len / 2] as usize;
    let last = text[len - 1] as usize;
    (first * 61 + middle * 197 + last * 7 + len % SLOTS * 389) % SLOTS
}

// Whether what is kept is this token with this length.
#[inline(always)]
fn is_kept(kept: &KeptToken<'_>, token: &Token<'_>, len: usize) -> bool
    ensures equal { result ≡ true → shape_of_result kept.now.token ≡ shape_of token.now }
    ensures size { result ≡ true → kept.now.len ≡ len }
{
    kept.len as usize == len
        && matches!(&kept.token, Ok(known) if tokens_are_equal_by_shape(known, token))
}

// The number of a token that is equal to this one, if the slot remembers one.
#[inline(always)]
fn known(
    tokens: &[KeptToken<'_>],
    recent: &[u32],
    slot: usize,
    token: &Token<'_>,
    len: usize,
) -> Option<u32>
    requires { slot < length recent.now }
    ensures within { IfSome result (λ number. number < length tokens.now) }
    ensures equal { IfSome result (λ number. shape_at tokens.now number ≡ shape_of token.now) }
    ensures size { IfSome result (λ number. len_at tokens.now number ≡ len) }
{
    let number = recent[slot];
    let kept = tokens.get(number as usize)?;
    if is_kept(kept, token, len) {
        Some(number)
    } else {
        None
    }
}

// The number of the mark with this byte, if one of this length is kept.
#[inline(always)]
#[tactic(auto, using(crate::proofs::Sharing::mark_found))]
fn known_mark(tokens: &[KeptToken<'_>], marks: &[Option<u32>], byte: u8, len: usize) -> Option<u32>
    requires marks { length marks.now ≡ 256 }
    requires kept { AreMarks tokens.now marks.now }
    ensures within { IfSome result (λ number. number < length tokens.now) }
    ensures equal { IfSome result (λ number. shape_at tokens.now number ≡ Mark byte) }
    ensures size { IfSome result (λ number. len_at tokens.now number ≡ len) }
{
    let number = marks[byte as usize]?;
    let kept = tokens.get(number as usize)?;
    if kept.len as usize == len {
        Some(number)
    } else {
        None
    }
}

// The length as it is kept with a token: 0 if it doesn't fit in 4 bytes.
fn kept_len(len: usize) -> u32
    ensures { result ≡ kept_len len }
{
    u32::try_from(len).unwrap_or(0)
}

// The length as it is kept with a row: only if it doesn't fit in 4 bytes.
fn own_len(len: usize) -> Option<usize>
    ensures { result ≡ own_len len }
{
    match u32::try_from(len) {
        Ok(_) => None,
        Err(_) => Some(len),
    }
}

// A token as it is kept, with its class.
fn kept_token<'a>(token: Result<Token<'a>, ()>, len: usize) -> KeptToken<'a>
    ensures token { result.token ≡ token.entry }
    ensures len { result.len ≡ kept_len len }
    ensures class { result.class ≡ class (shape_of_result result.token) }
{
    let class = class_of_result(&token);
    let len = kept_len(len);
    KeptToken { token, len, class }
}

// The mark with this byte, as it is kept.
fn kept_mark(byte: u8, len: usize) -> KeptToken<'static>
    requires { is_mark byte ≡ true }
    ensures shape { shape_of_result result.token ≡ Mark byte }
    ensures len { result.len ≡ kept_len len }
    ensures class { result.class ≡ class (shape_of_result result.token) }
{
    match mark_of(byte) {
        Some(token) => kept_token(Ok(token), len),
        None => unreachable!(),
    }
}

// Appends a row with a token that is kept.
#[inline(always)]
fn push_known(rows: &mut RowList, number: u32, start: usize) -> Result<(), AllocError>
    ensures ok { OnOk result (rows.new ≡ rows.old ++ record { start = start; token = number; len = None } ∷ []) }
    ensures err { OnErr result (rows.new ≡ rows.old) }
{
    rows.push(NumberedRow {
        start,
        token: number as usize,
        len: None,
    })
}

// The number of the next token to be kept.
fn next_number(tokens: &[KeptToken<'_>]) -> usize
    ensures { result ≡ length tokens.now }
{
    tokens.len()
}

// Appends a row with the token that was kept last.
fn push_last(rows: &mut RowList, number: usize, start: usize, len: usize) -> Result<(), AllocError>
    ensures ok { OnOk result (rows.new ≡ rows.old ++ record { start = start; token = number; len = own_len len } ∷ []) }
    ensures err { OnErr result (rows.new ≡ rows.old) }
{
    rows.push(NumberedRow {
        start,
        token: number,
        len: own_len(len),
    })
}

impl<'a> SharedRows<'a> {
    /// No rows, with room for so many if memory allows.
    pub(crate) fn new(alloc: Global, room: usize) -> Result<SharedRows<'a>, AllocError>
        ensures { IfOk result (λ rows. rows ≡ record { rows = []; borrowed = [] }) }
    {
        Ok(SharedRows {
            rows: RowList::new(alloc, room),
            tokens: with_room(alloc, room / ROWS_A_TOKEN),
            marks: vec![in alloc; None; 256]?,
            recent: vec![in alloc; 0; SLOTS]?,
        })
    }

    /// Gives back the room that no row and no token takes.
    pub(crate) fn shrink_to_fit(&mut self)
        ensures { self.new ≡ self.old }
    {
        self.rows.shrink_to_fit();
        self.tokens.shrink_to_fit();
    }

    /// The number of rows.
    pub(crate) fn len(&self) -> usize
        ensures { result ≡ length self.now.rows }
    {
        self.rows.len()
    }

    /// The token of row `index`, or `Err(())` for an invalid one. None after the last row.
    pub(crate) fn token(&self, index: usize) -> Option<Result<&Token<'a>, ()>>
        ensures value { option_map shape_of_lent result ≡ option_map (λ row. row.shape) (slice_get self.now.rows index) }
        ensures borrowed { option_map borrowed_of_lent result ≡ slice_get self.now.borrowed index }
    {
        let row = self.rows.get(index)?;
        match &self.tokens[row.token].token {
            Ok(token) => Some(Ok(token)),
            Err(()) => Some(Err(())),
        }
    }

    /// The class of the token of row `index`. None after the last row.
    #[tactic(auto, using(crate::proofs::Sharing::class_found))]
    pub(crate) fn class(&self, index: usize) -> Option<u8>
        ensures { result ≡ option_map (λ row. class row.shape) (slice_get self.now.rows index) }
    {
        let row = self.rows.get(index)?;
        Some(self.tokens[row.token].class)
    }

    /// The span of row `index`. None after the last row.
    pub(crate) fn span(&self, index: usize) -> Option<Span>
        ensures { result ≡ option_map (λ row. row.at) (slice_get self.now.rows index) }
    {
        let row = self.rows.get(index)?;
        let len = match row.len {
            Some(len) => len,
            None => self.tokens[row.token].len as usize,
        };
        Some(row.start..row.start + len)
    }

    #[tactic(auto, using(crate::proofs::Sharing::rows_push))]
    /// Appends a row.
    pub(crate) fn push(
        &mut self,
        token: Result<Token<'a>, ()>,
        start: usize,
        len: usize,
    ) -> Result<(), AllocError>
        requires fits { start + len < 2 ^ 64 }
        ensures { OnOk result (self.new ≡ and_row self.old record { shape = shape_of_result token.entry; at = span_from start (start + len) } (borrowed_of_result token.entry)) }
    {
        let number = next_number(&self.tokens);
        self.tokens.push(kept_token(token, len))?;
        push_last(&mut self.rows, number, start, len)?;
        Ok(())
    }

    // Appends a row with a mark that is not kept yet.
    #[inline(never)]
    #[tactic(auto, using(crate::proofs::Sharing::rows_push))]
    fn push_first_mark(&mut self, byte: u8, start: usize, len: usize) -> Result<(), AllocError>
        requires mark { is_mark byte ≡ true }
        requires fits { start + len < 2 ^ 64 }
        ensures { OnOk result (self.new ≡ and_row self.old record { shape = Mark byte; at = span_from start (start + len) } true) }
    {
        let number = next_number(&self.tokens);
        self.tokens.push(kept_mark(byte, len))?;
        push_last(&mut self.rows, number, start, len)?;
        if let Ok(number) = u32::try_from(number) {
            self.marks[byte as usize] = Some(number);
        }
        Ok(())
    }

    /// Appends a row with a mark.
    #[inline(always)]
    #[tactic(auto, using(crate::proofs::Sharing::mark_push, crate::proofs::Sharing::shared_known))]
    pub(crate) fn push_mark(&mut self, byte: u8, start: usize, len: usize) -> Result<(), AllocError>
        requires mark { is_mark byte ≡ true }
        requires fits { start + len < 2 ^ 64 }
        ensures { OnOk result (self.new ≡ and_row self.old record { shape = Mark byte; at = span_from start (start + len) } true) }
    {
        match known_mark(&self.tokens, &self.marks, byte, len) {
            Some(number) => push_known(&mut self.rows, number, start),
            None => self.push_first_mark(byte, start, len),
        }
    }

    // Appends a row with a word or an integer that is not remembered, and remembers it.
    #[inline(never)]
    fn push_first(
        &mut self,
        token: Token<'a>,
        slot: usize,
        start: usize,
        len: usize,
    ) -> Result<(), AllocError>
        requires slot { slot < 1024 }
        requires holds { holds_none (shape_of token) ≡ true }
        requires fits { start + len < 2 ^ 64 }
        ensures { OnOk result (self.new ≡ and_row self.old record { shape = shape_of token.entry; at = span_from start (start + len) } true) }
    {
        if let Ok(number) = u32::try_from(self.tokens.len()) {
            self.recent[slot] = number;
        }
        self.push(Ok(token), start, len)
    }

    /// Appends a row with a word or an integer. `slot` is where its number is remembered.
    #[inline(always)]
    #[tactic(auto, using(crate::proofs::Sharing::known_push, crate::proofs::Sharing::shared_known))]
    pub(crate) fn push_plain(
        &mut self,
        token: Token<'a>,
        slot: usize,
        start: usize,
        len: usize,
    ) -> Result<(), AllocError>
        requires slot { slot < 1024 }
        requires holds { holds_none (shape_of token) ≡ true }
        requires fits { start + len < 2 ^ 64 }
        ensures { OnOk result (self.new ≡ and_row self.old record { shape = shape_of token.entry; at = span_from start (start + len) } true) }
    {
        match known(&self.tokens, &self.recent, slot, &token, len) {
            Some(number) => push_known(&mut self.rows, number, start),
            None => self.push_first(token, slot, start, len),
        }
    }
}
