ghost use Rattle.std.specs.Prelude.{◌≡◌, ◌<◌, ◌==◌, length, IfOk};
ghost use Rattle.protox_imports.specs.Agree.{Agree};
ghost use Rattle.protox_imports.specs.Rows.{AreWithin, AreAmongImports, rows_of, named_of};
ghost use Rattle.protox_imports.specs.Rows.{public_of, SayAsNames};

use crate::names::by_name;
use crate::row::FileImports;
use crate::rows::rows;
use protox_descriptor::descriptor::FileDescriptorProto;
use protox_descriptor::values::Items;
use std::alloc::{AllocError, Global};

/// Which file of a list imports which, by their numbers.
#[derive(Drop)]
pub struct Imports {
    /// What each file imports, in the order of the files. Each number in it is that of a file, and
    /// what a file imports publicly is among its imports.
    pub files: Items<FileImports>,
    ghost within: { AreWithin files },
    ghost among: { ∥ AreAmongImports files ∥₁ },
}

impl Imports {
    /// The imports of these files, or `AllocError`. Of files with equal names the first counts; no
    /// import names a file without a name. It takes time in line with the length of the names,
    /// times the logarithm of the number of files, whatever the names are.
    ///
    /// ```
    /// let imports = Imports::new(alloc, &files)?;
    /// if imports.files.iter().any(|file| file.is_missing(0)) { .. }
    /// ```
    pub fn new(alloc: Global, files: &[FileDescriptorProto]) -> Result<Imports, AllocError>
        ensures rows { IfOk result (λ imports. imports.files ≡ rows_of files.now) }
        ensures by_name { IfOk result (λ imports. SayAsNames files.now imports.files) }

        // So what `in_order` and `sees` say of the rows they say of the names of the files.
        ensures agree { IfOk result (λ imports. Agree files.now imports.files) }
    {
        let numbers = by_name(alloc, files)?;
        let rows = rows(alloc, &numbers, files)?;
        Ok(Imports {
            files: Items::from_vec(rows),
        })
    }

    /// The number of files.
    pub fn len(&self) -> usize
        ensures { result ≡ length self.now.files }
    {
        self.files.len()
    }

    /// Whether there is no file.
    pub fn is_empty(&self) -> bool
        ensures { result ≡ (length self.now.files == 0) }
    {
        self.files.is_empty()
    }

    /// For each import of the file with this number, in order: the first file with its name, or
    /// None if there is none.
    pub fn named(&self, file: usize) -> &[Option<usize>]
        requires { file < length self.now.files }
        ensures { result.now ≡ named_of self.now.files file }
    {
        self.files.as_slice()[file].named.as_slice()
    }

    /// The files that the file with this number imports publicly, as `FileImports` has them.
    pub fn public(&self, file: usize) -> &[usize]
        requires { file < length self.now.files }
        ensures { result.now ≡ public_of self.now.files file }
    {
        self.files.as_slice()[file].public.as_slice()
    }
}
