//! What each file passes on to files that import it, found once for all files.

ghost use Rattle.std.specs.Prelude.{◌≡◌, ℕ, ◌<◌, None, Some, length, replicate, slice_index_or, Contains, IfOk};
ghost use Rattle.protox_imports.specs.Order.{IsInOrder};
ghost use Rattle.protox_imports.specs.Passing.{AreRows, IsRow, PassedIn};
ghost use Rattle.protox_imports.specs.Rows.{ImportsIn, PassesOnIn};
ghost use Rattle.protox_imports.specs.Seen.{AreSeen, AreLeast};
ghost use Rattle.protox_imports.specs.inner.Passing.{Adds, AreAsLong};

use crate::imports::Imports;
use protox_marks::Marks;
use std::alloc::{AllocError, Global};
use std::marker::Model;

/// What each file of a list passes on to the files that import it: itself, and what it imports
/// publicly, and so on. It takes a bit for each file of the list, for each file with a public import.
#[derive(Drop)]
pub struct Passes {
    rows: Vec<Option<Marks>>,
}

impl Model for Passes {
    ghost use Rattle.std.specs.Prelude.{Bool, List, Option};

    ghost Value = { List (Option (List Bool)) };

    ghost view = { λ p. p.rows.items };
}

// Marks what a file passes on.
fn add_row(marks: &mut Marks, rows: &[Option<Marks>], file: usize)
    requires below { file < length marks.old }
    requires long { AreAsLong rows.now (length marks.old) }
    ensures { Adds marks.old (PassedIn rows.now file) marks.new }
{
    match rows.get(file) {
        Some(Some(row)) => marks.add(row),
        _ => marks.mark(file),
    }
}

// Marks what each of these files passes on.
fn add_rows(marks: &mut Marks, rows: &[Option<Marks>], files: &[usize])
    requires below { (g : ℕ) → Contains files.now g → g < length marks.old }
    requires long { AreAsLong rows.now (length marks.old) }
    ensures { Adds marks.old (λ h. (g : ℕ) × Contains files.now g × PassedIn rows.now g h) marks.new }
{
    for file in files {
        add_row(marks, rows, *file);
    }
}

// Marks what each file of a list that has gaps passes on.
fn add_named(marks: &mut Marks, rows: &[Option<Marks>], named: &[Option<usize>])
    requires below { (g : ℕ) → Contains named.now (Some g) → g < length marks.old }
    requires long { AreAsLong rows.now (length marks.old) }
    ensures { Adds marks.old (λ h. (g : ℕ) × Contains named.now (Some g) × PassedIn rows.now g h)
        marks.new }
{
    for file in named {
        if let Some(file) = file {
            add_row(marks, rows, *file);
        }
    }
}

// What a file passes on, where that of the files is known that it imports publicly.
fn row(
    alloc: Global,
    imports: &Imports,
    rows: &[Option<Marks>],
    file: usize,
) -> Result<Option<Marks>, AllocError>
    requires within { file < length imports.now.files }
    requires long { AreAsLong rows.now (length imports.now.files) }
    requires known { (g : ℕ) → PassesOnIn imports.now.files file g
        → IsRow imports.now.files g (slice_index_or rows.now g None) }
    ensures { IfOk result (λ row. IsRow imports.now.files file row) }
{
    let public = imports.public(file);
    if public.is_empty() {
        return Ok(None);
    }
    let mut marks = Marks::new(alloc, imports.len())?;
    marks.mark(file);
    add_rows(&mut marks, rows, public);
    Ok(Some(marks))
}

// No file passes on more than itself.
fn no_rows(alloc: Global, count: usize) -> Result<Vec<Option<Marks>>, AllocError>
    ensures { IfOk result (λ rows. rows.items ≡ replicate count None) }
{
    let mut rows = Vec::new(alloc);
    for _ in 0..count {
        rows.push(None)?;
    }
    Ok(rows)
}

impl Passes {
    /// What each file passes on, or `AllocError`. It needs an order of the files in which imports
    /// come first: `in_order` finds it. For each public import it takes a step for each 64 files.
    pub fn of(alloc: Global, imports: &Imports, order: &[usize]) -> Result<Passes, AllocError>
        requires { IsInOrder (ImportsIn imports.now.files) (length imports.now.files) order.now }
        ensures { IfOk result (λ passes. AreRows imports.now.files passes) }
    {
        let mut rows = no_rows(alloc, imports.len())?;
        for file in order {
            let row = row(alloc, imports, &rows, *file)?;
            rows[*file] = row;
        }
        Ok(Passes { rows })
    }

    /// Which files the file with the number `file` sees, or `AllocError`: the same as `sees`, with a
    /// bit for each file. For each import it takes a step for each 64 files.
    pub fn seen(&self, alloc: Global, imports: &Imports, file: usize) -> Result<Marks, AllocError>
        requires within { file < length imports.now.files }
        requires rows { AreRows imports.now.files self.now }
        ensures len { IfOk result (λ seen. length seen ≡ length imports.now.files) }
        ensures value { IfOk result (λ seen. AreSeen imports.now.files file seen) }
        ensures least { IfOk result (λ seen. AreLeast imports.now.files file seen) }
    {
        let mut seen = Marks::new(alloc, imports.len())?;
        seen.mark(file);
        add_named(&mut seen, &self.rows, imports.named(file));
        Ok(seen)
    }
}
