//! Rows that take little memory.
ghost use Rattle.std.specs.Prelude.{◌≡◌, ◌<◌, ◌≤◌, ◌^◌, ◌++◌, ◌∷◌, [], length, slice_get, OnOk, OnErr, IfSome};
ghost use Rattle.protox_lex.specs.inner.RowList.{widened};

use std::alloc::{AllocError, Global};
use std::marker::Model;

/// Where a row begins, and the number of its token. The length of the row is that of its token,
/// unless the row has its own.
#[derive(Clone, Copy)]
pub(crate) struct NumberedRow {
    pub start: usize,
    pub token: usize,
    pub len: Option<usize>,
}

/// A row in 8 bytes.
#[derive(Clone, Copy)]
pub(crate) struct NarrowRow {
    pub start: u32,
    pub token: u32,
}

/// Rows. Each takes 8 bytes, up to the first that needs more. That row and all later ones are wide.
#[derive(Drop)]
pub(crate) struct RowList {
    narrow: Vec<NarrowRow>,
    wide: Vec<NumberedRow>,
    wide_from: usize,
}

impl Model for RowList {
    ghost use Rattle.std.specs.Prelude.{List};
    ghost use Rattle.protox_lex.specs.declared.row_list.NumberedRow.{NumberedRow};
    ghost use Rattle.protox_lex.specs.inner.RowList.{listed, AreNarrow};

    ghost Value = { List NumberedRow };

    ghost view = { λ l. listed l.narrow.items l.wide.items };

    ghost invariant = { λ l. AreNarrow l.wide_from l.wide.items };
}

// The least number that doesn't fit in 4 bytes.
const TOO_LARGE: usize = 0x1_0000_0000;

#[inline(always)]
fn widened(row: NarrowRow) -> NumberedRow
    ensures { result ≡ widened row }
{
    NumberedRow {
        start: row.start as usize,
        token: row.token as usize,
        len: None,
    }
}

// The row in 8 bytes, if it begins before `wide_from` and fits.
#[inline(always)]
fn narrowed(row: NumberedRow, wide_from: usize) -> Option<NarrowRow>
    requires { wide_from ≤ 2 ^ 32 }
    ensures row { IfSome result (λ narrow. widened narrow ≡ row) }
    ensures before { IfSome result (λ narrow. 0 < wide_from) }
{
    let NumberedRow { start, token, len } = row;
    if len.is_some() || wide_from <= start || TOO_LARGE <= token {
        return None;
    }
    Some(NarrowRow {
        start: start as u32,
        token: token as u32,
    })
}

// A wide row.
#[inline(always)]
fn wide_row(wide: &[NumberedRow], index: usize) -> Option<NumberedRow>
    ensures { result ≡ slice_get wide.now index }
{
    wide.get(index).copied()
}

/// An empty vector, with room for so many elements if memory allows.
pub(crate) fn with_room<T>(alloc: Global, room: usize) -> Vec<T>
    ensures { result.items ≡ [] }
{
    match Vec::with_capacity(alloc, room) {
        Ok(made) => made,
        Err(_) => Vec::new(alloc),
    }
}

impl RowList {
    /// No rows, with room for so many narrow ones if memory allows.
    pub(crate) fn new(alloc: Global, room: usize) -> RowList
        ensures { result ≡ [] }
    {
        RowList {
            narrow: with_room(alloc, room),
            wide: Vec::new(alloc),
            wide_from: TOO_LARGE,
        }
    }

    /// Gives back the room that no row takes.
    pub(crate) fn shrink_to_fit(&mut self)
        ensures { self.new ≡ self.old }
    {
        self.narrow.shrink_to_fit();
    }

    /// The number of rows.
    pub(crate) fn len(&self) -> usize
        ensures { result ≡ length self.now }
    {
        self.narrow.len() + self.wide.len()
    }

    /// Row `index`, counted from 0. None after the last.
    #[inline(always)]
    pub(crate) fn get(&self, index: usize) -> Option<NumberedRow>
        ensures { result ≡ slice_get self.now index }
    {
        if index < self.narrow.len() {
            Some(widened(self.narrow[index]))
        } else {
            wide_row(&self.wide, index - self.narrow.len())
        }
    }

    // Appends a wide row. All later rows are wide too.
    #[inline(never)]
    fn push_wide(
        &mut self,
        start: usize,
        token: usize,
        len: Option<usize>,
    ) -> Result<(), AllocError>
        ensures ok { OnOk result (self.new ≡ self.old ++ record { start = start; token = token; len = len } ∷ []) }
        ensures err { OnErr result (self.new ≡ self.old) }
    {
        self.wide_from = 0;
        self.wide.push(NumberedRow { start, token, len })?;
        Ok(())
    }

    /// Appends a row. On `AllocError` the rows are unchanged.
    #[inline(always)]
    pub(crate) fn push(&mut self, row: NumberedRow) -> Result<(), AllocError>
        ensures ok { OnOk result (self.new ≡ self.old ++ row ∷ []) }
        ensures err { OnErr result (self.new ≡ self.old) }
    {
        match narrowed(row, self.wide_from) {
            Some(row) => {
                self.narrow.push(row)?;
                Ok(())
            }
            None => self.push_wide(row.start, row.token, row.len),
        }
    }
}
