//! The files of a set, one after another.

ghost use Rattle.std.specs.Prelude.{◌≡◌, ◌++◌, IfOk};
ghost use Rattle.protox_imports.specs.Rows.{named_of};
ghost use Rattle.protox_option_checks.specs.Checks.{check_faults, faults_from, file_faults};

use crate::CheckFault;
use crate::checker::Checker;
use crate::marks::Marks;
use crate::site::Site;
use protox_descriptor::descriptor::FileDescriptorProto;
use protox_imports::{FileImports, Imports};
use protox_symbols::Symbols;
use protox_walk::walk;
use std::alloc::{AllocError, Global};

// The files that the imports of the file with a number name.
fn named_of(rows: &[FileImports], number: usize) -> &[Option<usize>]
    ensures { result.now ≡ named_of rows.now number }
{
    match rows.get(number) {
        Some(row) => row.named.as_slice(),
        None => &[],
    }
}

// Adds what is wrong with a file.
fn check_file(
    site: &Site<'_>,
    imports: &[Option<usize>],
    file: &FileDescriptorProto,
    faults: Vec<CheckFault>,
) -> Result<Vec<CheckFault>, AllocError>
    ensures { IfOk result (λ made. made.items ≡ faults.items ++ file_faults
        site.now.files.now site.now.symbols.now site.now.marks.now site.now.number imports.now
        file.now) }
{
    let mut checker = Checker { site, faults };
    walk(site.alloc, file, &mut checker)?;
    site.check_imports(imports, &mut checker.faults)?;
    Ok(checker.faults)
}

// What is wrong with all files.
fn check_all(
    alloc: Global,
    symbols: &Symbols,
    marks: &Marks,
    rows: &[FileImports],
    files: &[FileDescriptorProto],
) -> Result<Vec<CheckFault>, AllocError>
    ensures { IfOk result (λ made. made.items
        ≡ faults_from files.now symbols.now marks.now rows.now 0 files.now) }
{
    let mut faults = Vec::new(alloc);
    for (number, file) in files.iter().enumerate() {
        let site = Site {
            alloc,
            files,
            symbols,
            marks,
            number,
        };
        faults = check_file(&site, named_of(rows, number), file, faults)?;
    }
    Ok(faults)
}

/// What is wrong with linked files once their options are read, as protoc checks it. The faults are
/// in the order of the files. Those of a file are in the order in which `walk` visits what has
/// them. That of its imports comes last.
///
/// `symbols` is the table of the files. In linked files the names of types and of extended messages
/// are full names behind a dot, and each field has a type. The value of an option is what its
/// statement says. Whether the statements are right is for `interpret` to say.
///
/// Of most fields it looks at the label, the type and the statements alone. A name is looked up
/// where a field extends a message, where the type of a field of proto3 is an enum, and where a
/// field may be that of a map. The time grows with n log² n for the n values of an enum, and in
/// line with all else.
///
/// # Errors
/// `AllocError` where memory runs out, or where a list has more than 2,147,483,648 parts: no path
/// can count them.
///
/// ```
/// for fault in &check_options(alloc, resolver.symbols(), files)? { .. }
/// ```
pub fn check_options(
    alloc: Global,
    symbols: &Symbols,
    files: &[FileDescriptorProto],
) -> Result<Vec<CheckFault>, AllocError>
    ensures { IfOk result (λ faults. faults.items ≡ check_faults symbols.now files.now) }
{
    let marks = Marks::of(alloc, symbols, files)?;
    let imports = Imports::new(alloc, files)?;
    check_all(alloc, symbols, &marks, imports.files.as_slice(), files)
}
