//! The parts of a source, which are cut and read one behind the other.

ghost use Rattle.std.specs.Prelude.{◌≡◌, ◌≢◌, ◌≤◌, ◌++◌, ◌∷◌, ℕ, List, Some, None, true, false, length, IfOk};
ghost use Rattle.std.specs.Option.{is_none};
ghost use Rattle.std.specs.Str.{IsCharBoundary};
ghost use Rattle.protox_ast.specs.AstParts.{rows_span};
ghost use Rattle.protox_ast.specs.declared.ast.File as file_type;
ghost use Rattle.protox_ast.specs.declared.ast.FileItem as item_type;
ghost use Rattle.protox_fault.specs.Faults.{Span, span_from};
ghost use Rattle.protox_lexeme.specs.Lexemes as spec;
ghost use Rattle.protox_lexeme.specs.Table.{is_gap, rows_of, table_of};
ghost use Rattle.protox_syntax.specs.inner.ParsedTable.{bare_span};
ghost use Rattle.protox_syntax.specs.inner.Parts.{IsInPart, IsNoted, IsOpen, IsPartOf, last_end, lexemes_from, span_to_end};

use protox_fault::error::Span;
use protox_lex::lex::TokenTable;
use protox_rows::leaf::join;
use protox_rows::rows::{Unread, span_in};
use std::alloc::{AllocError, Global};

/// A source of at most this many bytes is one part: of 100 real files 99 have fewer.
const WHOLE: usize = 0x4_0000;

/// How many bytes of a longer source are cut at a time.
const PART: usize = 0x1_0000;

/// Where the last lexeme of a part ends further behind than this, the rest of the source is one part
/// with it. So a long comment or string isn't cut twice.
const LONG: usize = 0x4000;

/// A part of a source, whether the source begins with it, and whether it ends with it.
#[derive(Drop)]
pub(crate) struct Part<'a> {
    pub table: TokenTable<'a>,
    pub begins: bool,
    pub ends: bool,
}

/// How far a source has been read: where its first token begins, and where the last token stands
/// that has been read. Before any is read, the start is the length of the source.
#[derive(Drop)]
pub(crate) struct Progress {
    pub start: usize,
    pub last: Option<Span>,
}

/// Where the last token ends that has been read; 0 before the first.
pub(crate) fn last_end(progress: &Progress) -> usize
    ensures { result ≡ last_end progress.now.last }
{
    match &progress.last {
        Some(last) => last.end,
        None => 0,
    }
}

/// Where the part behind this place is to end, in a source of `size` bytes.
pub(crate) fn next_end(before: usize, size: usize) -> usize {
    if size <= WHOLE {
        size
    } else {
        before.saturating_add(PART)
    }
}

/// Cuts a part of a source that goes to `until` at least. It begins with the last token read, so
/// that the comments around what follows are known.
pub(crate) fn cut_part<'a>(
    alloc: Global,
    source: &'a str,
    progress: &Progress,
    until: usize,
) -> Result<Part<'a>, AllocError>
    requires { (last : Span) → progress.now.last ≡ Some last → IsCharBoundary source.now last.start }
    ensures part { IfOk result (λ part. IsPartOf (lexemes_from source.entry.now progress.now.last) part) }
    ensures begins { IfOk result (λ part. part.begins ≡ is_none progress.now.last) }
    ensures ends { length source.entry.now ≤ until → IfOk result (λ part. part.ends ≡ true) }
{
    let from = match &progress.last {
        Some(last) => last.start,
        None => 0,
    };
    let until = until.max(from).min(source.len());
    let (table, end) = TokenTable::part_or_rest(alloc, source, from, until, LONG)?;
    Ok(Part {
        table,
        begins: progress.last.is_none(),
        ends: source.len() <= end,
    })
}

// Where the last row stands that has been read of a part. None before the first.
fn last_read(part: &Part<'_>, rows: &Unread<'_, '_>) -> Option<Span>
    ensures none { length rows.now ≡ length part.now.table.rows → result ≡ None }
    ensures some { (front : List spec.Lexeme) (last : spec.Lexeme) (left : List spec.Lexeme) → is_gap last.shape ≡ false → part.now.table ≡ table_of (front ++ last ∷ left) → length rows.now ≡ length (rows_of left) → result ≡ Some (span_from last.start last.stop) }
{
    let read = part.table.rows().saturating_sub(rows.len());
    if read == 0 {
        return None;
    }
    Some(span_in(&part.table, read - 1))
}

/// Notes how far a part has been read.
pub(crate) fn note_progress(part: &Part<'_>, rows: &Unread<'_, '_>, progress: &mut Progress)
    ensures noted { (source : List ℕ) (gone : List item_type.FileItem) (head : file_type.File) (i : IsInPart source part.now rows.now gone head) → IsOpen source part.now.begins progress.old → IsNoted source i.first (i.outside ++ i.read) i.f progress.new }
    ensures kept { progress.old.last ≢ None → progress.new.last ≢ None }
{
    let Some(last) = last_read(part, rows) else {
        return;
    };
    if part.begins {
        progress.start = span_in(&part.table, 0).start;
    }
    progress.last = Some(last);
}

// The span from the first row to the last. Without rows it starts at the end of the source and ends
// at 0.
fn table_span(table: &TokenTable<'_>, size: usize) -> Span
    ensures { result ≡ bare_span size table.now.rows }
{
    match table.rows() {
        0 => size..0,
        count => join(&span_in(table, 0), &span_in(table, count - 1)),
    }
}

/// The span of a source of `size` bytes that ends with this part: from its first token to its last.
pub(crate) fn span_to_end(part: &Part<'_>, size: usize, progress: &Progress) -> Span
    ensures { result ≡ span_to_end size part.now.begins part.now.table progress.now }
{
    let own = table_span(&part.table, size);
    if part.begins {
        own
    } else {
        progress.start..own.end
    }
}
