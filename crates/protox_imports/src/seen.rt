//! What a file sees: itself, what it imports, and what those pass on by public imports.

ghost use Rattle.std.specs.Prelude.{◌≡◌, ℕ, ◌<◌, ◌++◌, ◌∷◌, [], if◌then◌else◌};
ghost use Rattle.std.specs.Prelude.{true, false, Some, length, Contains, IfOk, OnOk, vec_len};
ghost use Rattle.std.specs.Prelude.{slice_index_or, slice_set};
ghost use Rattle.protox_imports.specs.Seen.{AreSeen, AreLeast};
ghost use Rattle.protox_imports.specs.inner.Marks.{Marks, IsSeeing};

use crate::imports::Imports;
use std::alloc::{AllocError, Global};

// Marks a file, and puts it on the list, unless it is marked.
fn mark(marks: &mut [bool], list: &mut Vec<usize>, file: usize) -> Result<(), AllocError>
    requires { file < length marks.old }
    ensures marks { OnOk result (marks.new ≡ slice_set marks.old file true) }
    ensures list { OnOk result (list.new.items ≡
        (if slice_index_or marks.old file false then list.old.items
        else list.old.items ++ file ∷ [])) }
{
    if !marks[file] {
        list.push(file)?;
        marks[file] = true;
    }
    Ok(())
}

// Marks all files of a list that has gaps.
fn mark_named(
    named: &[Option<usize>],
    marks: &mut [bool],
    list: &mut Vec<usize>,
) -> Result<(), AllocError>
    requires { (g : ℕ) → Contains named.now (Some g) → g < length marks.old }
    ensures { OnOk result (Marks marks.old list.old.items (λ g. Contains named.now (Some g))
        marks.new list.new.items) }
{
    for file in named {
        if let Some(file) = file {
            mark(marks, list, *file)?;
        }
    }
    Ok(())
}

// Marks all files of a list.
fn mark_all(files: &[usize], marks: &mut [bool], list: &mut Vec<usize>) -> Result<(), AllocError>
    requires { (g : ℕ) → Contains files.now g → g < length marks.old }
    ensures { OnOk result (Marks marks.old list.old.items (Contains files.now)
        marks.new list.new.items) }
{
    for file in files {
        mark(marks, list, *file)?;
    }
    Ok(())
}

// Marks what the file imports, and what is passed on from there.
fn reached(alloc: Global, imports: &Imports, file: usize) -> Result<Vec<bool>, AllocError>
    requires { file < length imports.now.files }
    ensures { IfOk result (λ marks. IsSeeing imports.now.files file marks.items []) }
{
    let mut marks = vec![in alloc; false; imports.len()]?;
    let mut list = Vec::new(alloc);
    mark_named(imports.named(file), &mut marks, &mut list)?;
    while let Some(next) = list.pop() {
        mark_all(imports.public(next), &mut marks, &mut list)?;
    }
    Ok(marks)
}

/// For each file, in order, whether the file with the number `file` sees it; or `AllocError`. A
/// file sees itself, what it imports, and what those pass on by public imports, from file to file.
/// It needs the number of a file. It follows the public imports of each file at most once.
pub fn sees(alloc: Global, imports: &Imports, file: usize) -> Result<Vec<bool>, AllocError>
    requires { file < length imports.now.files }
    ensures len { IfOk result (λ seen. vec_len seen ≡ length imports.now.files) }
    ensures value { IfOk result (λ seen. AreSeen imports.now.files file seen.items) }
    ensures least { IfOk result (λ seen. AreLeast imports.now.files file seen.items) }
{
    let mut seen = reached(alloc, imports, file)?;
    seen[file] = true;
    Ok(seen)
}
