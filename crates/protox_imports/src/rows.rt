//! The row of each file: its imports by number.

ghost use Rattle.std.specs.Prelude.{◌≡◌, map, IfOk};
ghost use Rattle.std.specs.List.{filter_map};
ghost use Rattle.protox_imports.specs.Rows.{named_at, row_by};
ghost use Rattle.protox_imports.specs.inner.Numbers.{number_in};

use crate::names::find;
use crate::row::FileImports;
use protox_descriptor::descriptor::FileDescriptorProto;
use protox_descriptor::values::{Items, Text};
use std::alloc::{AllocError, Global};
use std::collections::BTreeMap;

// The file that each import names, if there is one.
fn named(
    alloc: Global,
    numbers: &BTreeMap<&str, usize>,
    dependency: &[Text],
) -> Result<Vec<Option<usize>>, AllocError>
    ensures { IfOk result (λ named. named.items ≡ map (number_in numbers.now) dependency.now) }
{
    let mut named = Vec::new(alloc);
    for name in dependency {
        named.push(find(numbers, name.as_str()))?;
    }
    Ok(named)
}

// The file that the import with this index names, if there are both.
fn named_at(named: &[Option<usize>], index: i32) -> Option<usize>
    ensures { result ≡ named_at named.now index }
{
    if index < 0 {
        return None;
    }
    match named.get(index as usize) {
        Some(file) => *file,
        None => None,
    }
}

// The files that the public imports name.
fn public(alloc: Global, named: &[Option<usize>], indices: &[i32]) -> Result<Vec<usize>, AllocError>
    ensures { IfOk result (λ public. public.items ≡ filter_map (named_at named.now) indices.now) }
{
    let mut public = Vec::new(alloc);
    for index in indices {
        if let Some(file) = named_at(named, *index) {
            public.push(file)?;
        }
    }
    Ok(public)
}

fn row(
    alloc: Global,
    numbers: &BTreeMap<&str, usize>,
    file: &FileDescriptorProto,
) -> Result<FileImports, AllocError>
    ensures { IfOk result (λ row. row ≡ row_by (number_in numbers.now) file.now) }
{
    let named = named(alloc, numbers, file.dependency.as_slice())?;
    let public = public(alloc, &named, file.public_dependency.as_slice())?;
    Ok(FileImports {
        named: Items::from_vec(named),
        public: Items::from_vec(public),
    })
}

// The row of each file, in order.
pub fn rows(
    alloc: Global,
    numbers: &BTreeMap<&str, usize>,
    files: &[FileDescriptorProto],
) -> Result<Vec<FileImports>, AllocError>
    ensures { IfOk result (λ rows. rows.items ≡ map (row_by (number_in numbers.now)) files.now) }
{
    let mut rows = Vec::new(alloc);
    for file in files {
        rows.push(row(alloc, numbers, file)?)?;
    }
    Ok(rows)
}
