//! String literals, read piece by piece.
ghost use Rattle.std.specs.Prelude.{◌≡◌, ◌<◌, ◌≤◌, ◌+◌, ◌-◌, ◌^◌, ◌++◌, ◌∷◌, ◌&&◌, ℕ, List, [], not, nat_lt, map, OnOk, length, take, drop, slice_index, true, false, Some, None, IfOk, IsOk, IfSome, IsSome};
ghost use Rattle.protox_lexeme.specs.Strings as spec;
ghost use Rattle.std.specs.Cow.{cow_slice_items};
ghost use Rattle.std.specs.Str.{IsCharBoundary};
ghost use Rattle.protox_fault.specs.Faults.{faults_in};
ghost use Rattle.protox_lexeme.specs.Lexemes as lexemes;
ghost use Rattle.protox_lexeme.specs.Shapes as shape;
ghost use Rattle.protox_lexeme.specs.Lexicon.{is_quote};
ghost use Rattle.protox_lexeme.specs.Found.{lexeme_of};
ghost use Rattle.protox_lexeme.specs.Tokens.{is_borrowed_slice};
ghost use Rattle.protox_lexeme.specs.Pieces.{piece_of, IsWithin, reading_of, finished};

use crate::found::Found;
use crate::lexeme_fault::{FaultKind, LexemeFault};
use crate::piece::{Piece, read_piece};
use crate::token::Token;
use std::alloc::{AllocError, Global};
use std::borrow::CowSlice;

/// A literal as far as it has been read. `bad` is a run of invalid pieces at its end: whether the
/// first begins with a backslash, and where it begins.
#[derive(Drop)]
struct Reader<'a> {
    value: CowSlice<'a, u8>,
    bad: Option<(bool, usize)>,
    faults: Vec<LexemeFault>,
}

// Adds a run of plain bytes. It is borrowed if nothing stands before it.
fn add_run<'a>(
    alloc: Global,
    value: CowSlice<'a, u8>,
    run: &'a [u8],
) -> Result<CowSlice<'a, u8>, AllocError>
    ensures items { IfOk result (λ v. cow_slice_items v ≡ cow_slice_items value.entry ++ run.now) }
    ensures borrowed { IfOk result (λ v. is_borrowed_slice v ≡ (is_borrowed_slice value.entry && not (nat_lt 0 (length (cow_slice_items value.entry))))) }
    ensures free { is_borrowed_slice value.entry && not (nat_lt 0 (length (cow_slice_items value.entry))) ≡ true → IsOk result }
{
    match value {
        CowSlice::Borrowed(before) => {
            if before.is_empty() {
                return Ok(CowSlice::Borrowed(run));
            }
            let mut items = Vec::from_slice(alloc, before)?;
            items.extend_from_slice(run)?;
            Ok(CowSlice::Owned(items))
        }
        CowSlice::Owned(mut items) => {
            items.extend_from_slice(run)?;
            Ok(CowSlice::Owned(items))
        }
    }
}

fn add_bytes<'a>(
    alloc: Global,
    value: CowSlice<'a, u8>,
    bytes: &[u8],
) -> Result<CowSlice<'a, u8>, AllocError>
    ensures items { IfOk result (λ v. cow_slice_items v ≡ cow_slice_items value.entry ++ bytes.now) }
    ensures owned { IfOk result (λ v. is_borrowed_slice v ≡ false) }
{
    let mut items = match value {
        CowSlice::Borrowed(before) => Vec::from_slice(alloc, before)?,
        CowSlice::Owned(items) => items,
    };
    items.extend_from_slice(bytes)?;
    Ok(CowSlice::Owned(items))
}

// Adds the fault of a run of invalid pieces that ends at `at`.
fn close(
    faults: &mut Vec<LexemeFault>,
    bad: Option<(bool, usize)>,
    at: usize,
) -> Result<(), AllocError>
    ensures ok { OnOk result (faults.new.items ≡ faults.old.items ++ spec.closed bad at) }
    ensures free { spec.closed bad at ≡ [] → IsOk result }
{
    if let Some((is_escape, from)) = bad {
        let kind = if is_escape {
            FaultKind::InvalidStringEscape
        } else {
            FaultKind::InvalidStringCharacters
        };
        faults.push(LexemeFault {
            kind,
            span: from..at,
        })?;
    }
    Ok(())
}

// Adds a run of plain bytes. Invalid pieces before it end there.
#[tactic(auto, using(crate::proofs::Literal::closed_nil, crate::proofs::Literal::finished_run))]
fn take_run<'a>(
    alloc: Global,
    reader: Reader<'a>,
    run: &'a [u8],
    at: usize,
) -> Result<Reader<'a>, AllocError>
    requires { 0 < length run.now }
    ensures value { IfOk result (λ r. (start : ℕ) (ps : List spec.Piece) → finished start (reading_of r) (at + length run.now) ps ≡ finished start (reading_of reader.entry) at (spec.run run.now ∷ ps)) }
    ensures free { (start : ℕ) (ps : List spec.Piece) → (finished start (reading_of reader.entry) at (spec.run run.now ∷ ps)).borrowed ≡ true
        → (finished start (reading_of reader.entry) at (spec.run run.now ∷ ps)).faults ≡ [] → IsOk result }
{
    let Reader {
        value,
        bad,
        mut faults,
    } = reader;
    close(&mut faults, bad, at)?;
    let value = add_run(alloc, value, run)?;
    Ok(Reader {
        value,
        bad: None,
        faults,
    })
}

// Adds a piece of `len` bytes that stands for these bytes. Invalid pieces before it end there.
fn take_bytes<'a>(
    alloc: Global,
    reader: Reader<'a>,
    bytes: &[u8],
    len: usize,
    at: usize,
) -> Result<Reader<'a>, AllocError>
    ensures value { IfOk result (λ r. (start : ℕ) (ps : List spec.Piece) → finished start (reading_of r) (at + len) ps ≡ finished start (reading_of reader.entry) at (spec.adds bytes.now len ∷ ps)) }
{
    let Reader {
        value,
        bad,
        mut faults,
    } = reader;
    close(&mut faults, bad, at)?;
    let value = add_bytes(alloc, value, bytes)?;
    Ok(Reader {
        value,
        bad: None,
        faults,
    })
}

// The literal, which ends at `stop`.
fn found<'a>(value: CowSlice<'a, u8>, faults: Vec<LexemeFault>, stop: usize) -> Found<'a>
    ensures value { (start : ℕ) → lexeme_of start result ≡ record { start = start; stop = stop; shape = shape.Str (cow_slice_items value.entry); borrowed = is_borrowed_slice value.entry; faults = faults.items } }
    ensures stop { result.stop ≡ stop }
{
    Found {
        token: Ok(Token::StringLiteral(value)),
        stop,
        faults,
    }
}

// Ends the literal at its closing quote.
fn end<'a>(reader: Reader<'a>, at: usize) -> Result<Found<'a>, AllocError>
    requires { at + 1 < 2 ^ 64 }
    ensures value { IfOk result (λ f. (start : ℕ) → lexeme_of start f ≡ finished start (reading_of reader.entry) at (spec.ends ∷ [])) }
    ensures stop { IfOk result (λ f. f.stop ≡ at + 1) }
    ensures free { (finished 0 (reading_of reader.entry) at (spec.ends ∷ [])).faults ≡ [] → IsOk result }
{
    let Reader {
        value,
        bad,
        mut faults,
    } = reader;
    close(&mut faults, bad, at)?;
    Ok(found(value, faults, at + 1))
}

// Ends the literal at a newline.
fn break_off<'a>(reader: Reader<'a>, at: usize) -> Result<Found<'a>, AllocError>
    requires { at + 1 < 2 ^ 64 }
    ensures value { IfOk result (λ f. (start : ℕ) → lexeme_of start f ≡ finished start (reading_of reader.entry) at (spec.breaks ∷ [])) }
    ensures stop { IfOk result (λ f. f.stop ≡ at + 1) }
{
    let Reader {
        value,
        bad,
        mut faults,
    } = reader;
    close(&mut faults, bad, at)?;
    faults.push(LexemeFault {
        kind: FaultKind::UnterminatedString,
        span: at..at + 1,
    })?;
    Ok(found(value, faults, at + 1))
}

// Ends the literal at the end of the text.
fn run_out<'a>(reader: Reader<'a>, at: usize) -> Result<Found<'a>, AllocError>
    ensures value { IfOk result (λ f. (start : ℕ) → lexeme_of start f ≡ finished start (reading_of reader.entry) at []) }
    ensures stop { IfOk result (λ f. f.stop ≡ at) }
{
    let Reader {
        value,
        bad,
        mut faults,
    } = reader;
    close(&mut faults, bad, at)?;
    faults.push(LexemeFault {
        kind: FaultKind::EndInString,
        span: at..at,
    })?;
    Ok(found(value, faults, at))
}

fn take_wrong<'a>(reader: Reader<'a>, is_escape: bool, len: usize, at: usize) -> Reader<'a>
    ensures { (start : ℕ) (ps : List spec.Piece) → finished start (reading_of result) (at + len) ps ≡ finished start (reading_of reader.entry) at (spec.wrong is_escape len ∷ ps) }
{
    let bad = match reader.bad {
        Some(bad) => Some(bad),
        None => Some((is_escape, at)),
    };
    Reader {
        value: reader.value,
        bad,
        faults: reader.faults,
    }
}

// Adds a piece that doesn't end the literal. Answers its length too.
fn take_piece<'a>(
    alloc: Global,
    reader: Reader<'a>,
    rest: &'a [u8],
    piece: Piece,
    at: usize,
) -> Result<(Reader<'a>, usize), AllocError>
    requires goes_on { spec.is_last (piece_of rest.now piece) ≡ false }
    requires within { IsWithin rest.now piece }
    ensures value { IfOk result (λ r. (start : ℕ) (ps : List spec.Piece) → finished start (reading_of r.0) (at + r.1) ps ≡ finished start (reading_of reader.entry) at (piece_of rest.now piece ∷ ps)) }
    ensures len { IfOk result (λ r. r.1 ≡ spec.piece_len (piece_of rest.now piece)) }
    ensures moves { IfOk result (λ r. (1 ≤ r.1) × (r.1 ≤ length rest.now)) }
    ensures free { (start : ℕ) (ps : List spec.Piece) → (finished start (reading_of reader.entry) at (piece_of rest.now piece ∷ ps)).borrowed ≡ true
        → (finished start (reading_of reader.entry) at (piece_of rest.now piece ∷ ps)).faults ≡ [] → IsOk result }
{
    match piece {
        Piece::Run(len) => Ok((take_run(alloc, reader, &rest[..len], at)?, len)),
        Piece::Byte(byte, len) => Ok((take_bytes(alloc, reader, &[byte], len, at)?, len)),
        Piece::Char(c, len) => {
            let mut buffer = [0; 4];
            let text = c.encode_utf8(&mut buffer);
            Ok((take_bytes(alloc, reader, text.as_bytes(), len, at)?, len))
        }
        Piece::Wrong(is_escape, len) => Ok((take_wrong(reader, is_escape, len, at), len)),
        Piece::Ends | Piece::Breaks => unreachable!(),
    }
}

// Reads the literal at the front of the bytes.
fn read_literal(alloc: Global, bytes: &[u8], start: usize) -> Result<Found<'_>, AllocError>
    requires some { 0 < length bytes.now }
    requires ascii { slice_index bytes.now 0 < 128 }
    requires fits { start + length bytes.now < 2 ^ 64 }
    ensures value { IfOk result (λ f. lexeme_of start f ≡ lexemes.string start bytes.now) }
    ensures within { IfOk result (λ f. (start < f.stop) × (f.stop ≤ start + length bytes.now)) }
    ensures last { IfOk result (λ f. f.stop < start + length bytes.now → slice_index bytes.now (f.stop - start - 1) < 128) }
    ensures free { (lexemes.string start bytes.now).borrowed ≡ true → (lexemes.string start bytes.now).faults ≡ [] → IsOk result }
{
    let quote = bytes[0];
    let mut reader = Reader {
        value: CowSlice::Borrowed(&bytes[..0]),
        bad: None,
        faults: Vec::new(alloc),
    };
    let mut at = 1;
    'pieces: while at < bytes.len() {
        let rest = &bytes[at..];
        let piece = read_piece(quote, rest);
        match piece {
            Piece::Ends => return end(reader, start + at),
            Piece::Breaks => return break_off(reader, start + at),
            _ => {
                let (next, len) = take_piece(alloc, reader, rest, piece, start + at)?;
                reader = next;
                at += len;
            }
        }
    }
    run_out(reader, start + at)
}

/// Reads the literal at the front of the text.
#[tactic(auto, using(crate::proofs::Boundaries::last_boundary))]
pub(crate) fn read_string(alloc: Global, text: &str, start: usize) -> Result<Found<'_>, AllocError>
    requires some { is_quote (slice_index text.now 0) ≡ true }
    requires fits { start + length text.now < 2 ^ 64 }
    ensures value { IfOk result (λ f. lexeme_of start f ≡ lexemes.string start text.now) }
    ensures within { IfOk result (λ f. (start < f.stop) × (f.stop ≤ start + length text.now)) }
    ensures boundary { IfOk result (λ f. IsCharBoundary text.now (f.stop - start)) }
    ensures free { (lexemes.string start text.now).borrowed ≡ true → (lexemes.string start text.now).faults ≡ [] → IsOk result }
{
    let found = read_literal(alloc, text.as_bytes(), start)?;
    Ok(found)
}
