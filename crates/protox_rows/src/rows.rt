//! Positions among the rows of a table.

ghost use Rattle.std.specs.Prelude.{◌≡◌, ◌==◌, ◌-◌, IfOk, false, [], drop, length, map, slice_index_or};
ghost use Rattle.protox_ast.specs.Places.{placed};
ghost use Rattle.protox_lexeme.specs.Gaps.{IsGap, attribution};
ghost use Rattle.protox_lex.specs.TableView.{shape_of_lent};
ghost use Rattle.protox_lexeme.specs.TokenClass.{class};
ghost use Rattle.protox_lexeme.specs.Tokens.{shape_of};
ghost use Rattle.protox_rows.specs.Rows.{IsFirst, IsSplit, bare_row, shape_of_row};
ghost use Rattle.protox_ast.specs.Ast.{comments, join};
ghost use Rattle.protox_rows.specs.inner.Reads.{declared};

use crate::class::INVALID;
use crate::leaf::join;
use protox_ast::ast::Comments;
use protox_comments::sides::{comments_before, trailing_comment};
use protox_descriptor::values::{Items, Text};
use protox_lex::error::Span;
use protox_lex::lex::{Token, TokenTable};
use std::alloc::{AllocError, Global};
use std::marker::Model;

/// A row of a table. It is held as the number of the gap after it.
#[derive(Drop)]
pub struct RowAt<'t, 'a> {
    table: &'t TokenTable<'a>,
    behind: usize,
}

impl<'t, 'a> Model for RowAt<'t, 'a> {
    ghost use Rattle.protox_lexeme.specs.Shapes.{Row};
    ghost use Rattle.protox_ast.specs.Places.{Place};
    ghost use Rattle.protox_rows.specs.Rows.{the_row, IsRow};

    ghost Value = { Row Place };

    ghost view = { the_row };

    ghost invariant = { IsRow };
}

/// The rows of a table that have not been read.
#[derive(Drop)]
pub struct Unread<'t, 'a> {
    table: &'t TokenTable<'a>,
    index: usize,
}

impl<'t, 'a> Model for Unread<'t, 'a> {
    ghost use Rattle.protox_lexeme.specs.Shapes.{Rows};
    ghost use Rattle.protox_ast.specs.Places.{Place};
    ghost use Rattle.protox_rows.specs.Rows.{rows_left};

    ghost Value = { Rows Place };

    ghost view = { rows_left };
}

// The comment of a gap that trails. `index` is the row after the gap, which may be after the last.
fn trailing_in(
    alloc: Global,
    table: &TokenTable<'_>,
    gap: &[Token<'_>],
    index: usize,
) -> Result<Option<Text>, AllocError>
    requires { IsGap (map shape_of gap.now) }
    ensures { IfOk result (λ t. t ≡ (attribution (map shape_of gap.now) false (shape_of_row table.now.rows index)).trailing) }
{
    match table.row(index) {
        None => trailing_comment(alloc, gap, None),
        Some(Ok(token)) => trailing_comment(alloc, gap, Some(token)),
        Some(Err(())) => trailing_comment(alloc, gap, Some(&Token::Semicolon)),
    }
}

// The comments of a gap that belong to the row after it. `index` is that row, and `first` says that
// the gap begins the file.
fn leading_in(
    alloc: Global,
    table: &TokenTable<'_>,
    gap: &[Token<'_>],
    index: usize,
    first: bool,
) -> Result<(Items<Text>, Option<Text>), AllocError>
    requires { IsGap (map shape_of gap.now) }
    ensures detached { IfOk result (λ c. c.0 ≡ (attribution (map shape_of gap.now) first (shape_of_row table.now.rows index)).detached) }
    ensures leading { IfOk result (λ c. c.1 ≡ (attribution (map shape_of gap.now) first (shape_of_row table.now.rows index)).leading) }
{
    match table.row(index) {
        None => comments_before(alloc, gap, first, None),
        Some(Ok(token)) => comments_before(alloc, gap, first, Some(token)),
        Some(Err(())) => comments_before(alloc, gap, first, Some(&Token::Semicolon)),
    }
}

// The comment that trails the row before the gap with this number.
fn trailing_at(
    alloc: Global,
    table: &TokenTable<'_>,
    index: usize,
) -> Result<Option<Text>, AllocError>
    ensures { IfOk result (λ t. t ≡ (attribution (slice_index_or table.now.gaps index []) false (shape_of_row table.now.rows index)).trailing) }
{
    match table.gap(index) {
        Some(gap) => trailing_in(alloc, table, gap, index),
        None => Ok(None),
    }
}

// The comments of the gap with this number that belong to the row after it. `first` says that it
// begins the file.
fn leading_at(
    alloc: Global,
    table: &TokenTable<'_>,
    index: usize,
    first: bool,
) -> Result<(Items<Text>, Option<Text>), AllocError>
    ensures detached { IfOk result (λ c. c.0 ≡ (attribution (slice_index_or table.now.gaps index []) first (shape_of_row table.now.rows index)).detached) }
    ensures leading { IfOk result (λ c. c.1 ≡ (attribution (slice_index_or table.now.gaps index []) first (shape_of_row table.now.rows index)).leading) }
{
    match table.gap(index) {
        Some(gap) => leading_in(alloc, table, gap, index, first),
        None => Ok((Items::new(alloc), None)),
    }
}

// The token of a row. A row that the table doesn't have is invalid.
fn token_in<'t, 'a>(table: &'t TokenTable<'a>, index: usize) -> Result<&'t Token<'a>, ()>
    ensures { shape_of_lent result ≡ (slice_index_or table.now.rows index bare_row).shape }
{
    match table.row(index) {
        Some(token) => token,
        None => Err(()),
    }
}

// The class of a row's token. A row that the table doesn't have has the class of what is no token.
#[inline(always)]
fn class_in(table: &TokenTable<'_>, index: usize) -> u8
    ensures { result ≡ class (slice_index_or table.now.rows index bare_row).shape }
{
    match table.class(index) {
        Some(class) => class,
        None => INVALID,
    }
}

/// The span of a row. It is empty for a row that the table doesn't have.
pub fn span_in(table: &TokenTable<'_>, index: usize) -> Span
    ensures { result ≡ (slice_index_or table.now.rows index bare_row).at }
{
    match table.span(index) {
        Some(span) => span,
        None => 0..0,
    }
}

impl<'t, 'a> RowAt<'t, 'a> {
    /// A copy of this position.
    pub fn again(&self) -> RowAt<'t, 'a>
        ensures { result ≡ self.now }
    {
        RowAt {
            table: self.table,
            behind: self.behind,
        }
    }

    /// The token of the row.
    pub fn token(&self) -> Result<&'t Token<'a>, ()>
        ensures { shape_of_lent result ≡ self.now.shape }
    {
        token_in(self.table, self.behind - 1)
    }

    /// The class of the row's token.
    #[inline(always)]
    pub fn class(&self) -> u8
        ensures { result ≡ class self.now.shape }
    {
        class_in(self.table, self.behind - 1)
    }

    /// The comments before this row: the detached ones, and the one that leads.
    fn before(&self, alloc: Global) -> Result<(Items<Text>, Option<Text>), AllocError>
        ensures detached { IfOk result (λ c. c.0 ≡ self.now.at.detached) }
        ensures leading { IfOk result (λ c. c.1 ≡ self.now.at.leading) }
    {
        let index = self.behind - 1;
        leading_at(alloc, self.table, index, index == 0)
    }

    /// The comment after this row.
    fn after(&self, alloc: Global) -> Result<Option<Text>, AllocError>
        ensures { IfOk result (λ t. t ≡ self.now.at.trailing) }
    {
        trailing_at(alloc, self.table, self.behind)
    }

    /// The span of the row.
    pub fn span(&self) -> Span
        ensures { result ≡ self.now.at.span }
    {
        span_in(self.table, self.behind - 1)
    }
}

impl<'t, 'a> Unread<'t, 'a> {
    /// All rows of a table.
    pub fn all(table: &'t TokenTable<'a>) -> Unread<'t, 'a>
        ensures { result ≡ placed table.now }
    {
        Unread { table, index: 0 }
    }

    /// The last `count` rows of a table, or all if there are fewer.
    pub fn last(table: &'t TokenTable<'a>, count: usize) -> Unread<'t, 'a>
        ensures { result ≡ drop (length table.now.rows - count) (placed table.now) }
    {
        Unread {
            table,
            index: table.rows().saturating_sub(count),
        }
    }

    /// A copy of this position.
    pub fn again(&self) -> Unread<'t, 'a>
        ensures { result ≡ self.now }
    {
        Unread {
            table: self.table,
            index: self.index,
        }
    }

    /// How many rows are left.
    pub fn len(&self) -> usize
        ensures { result ≡ length self.now }
    {
        self.table.rows().saturating_sub(self.index)
    }

    /// Whether no row is left.
    pub fn is_empty(&self) -> bool
        ensures { result ≡ (length self.now == 0) }
    {
        self.len() == 0
    }

    /// The first of the rows, or None if none is left.
    pub fn first(&self) -> Option<RowAt<'t, 'a>>
        ensures { IsFirst self.now result }
    {
        if self.index < self.table.rows() {
            Some(RowAt {
                table: self.table,
                behind: self.index + 1,
            })
        } else {
            None
        }
    }

    /// The first of the rows and the others, or None if none is left.
    pub fn split(&self) -> Option<(RowAt<'t, 'a>, Unread<'t, 'a>)>
        ensures { IsSplit self.now result }
    {
        if self.index < self.table.rows() {
            let next = self.index + 1;
            let first = RowAt {
                table: self.table,
                behind: next,
            };
            let others = Unread {
                table: self.table,
                index: next,
            };
            Some((first, others))
        } else {
            None
        }
    }
}

/// The comments of a declaration that begins with the row `first`. It ends or opens its body with
/// the row `last`.
pub fn comments_between(
    alloc: Global,
    first: &RowAt<'_, '_>,
    last: &RowAt<'_, '_>,
) -> Result<Comments, AllocError>
    ensures { IfOk result (λ c. c ≡ comments first.now.at last.now.at) }
{
    let (detached, leading) = first.before(alloc)?;
    let trailing = last.after(alloc)?;
    Comments::new(alloc, detached, leading, trailing)
}

fn comments_behind(alloc: Global, last: &RowAt<'_, '_>) -> Result<Comments, AllocError>
    ensures { IfOk result (λ c. c ≡ declared [] last.now.at) }
{
    let trailing = last.after(alloc)?;
    Comments::new(alloc, Items::new(alloc), None, trailing)
}

/// The comments of a declaration that begins with the first of these rows. It ends or opens its
/// body with the row `last`.
pub fn comments_of(
    alloc: Global,
    rows: &Unread<'_, '_>,
    last: &RowAt<'_, '_>,
) -> Result<Comments, AllocError>
    ensures { IfOk result (λ c. c ≡ declared rows.now last.now.at) }
{
    match rows.first() {
        Some(first) => comments_between(alloc, &first, last),
        None => comments_behind(alloc, last),
    }
}

/// The span from the start of one row to the end of the other.
pub fn span_between(first: &RowAt<'_, '_>, last: &RowAt<'_, '_>) -> Span
    ensures { result ≡ join first.now.at.span last.now.at.span }
{
    join(&first.span(), &last.span())
}
