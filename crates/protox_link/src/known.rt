//! What is known of a list of files before they are linked.

ghost use Rattle.std.specs.Prelude.{◌≡◌, ◌<◌, ⊤, length, List, IfOk, MatchOption};
ghost use Rattle.protox_descriptor.specs.declared.descriptor.FileDescriptorProto.{FileDescriptorProto};
ghost use Rattle.protox_imports.specs.Passing.{AreRows};
ghost use Rattle.protox_imports.specs.Rows.{rows_of};
ghost use Rattle.protox_imports.specs.Seen.{AreSeen};
ghost use Rattle.protox_link.specs.Known.{HasRows, IsKnownOf};
ghost use Rattle.protox_link.specs.Resolver.{IsOfFile};

use crate::FileNames;
use crate::packages::packages_of;
use protox_descriptor::descriptor::FileDescriptorProto;
use protox_imports::{Imports, Order, Passes, in_order, sees};
use protox_marks::Marks;
use protox_symbols::Symbols;
use protox_views::PackageFiles;
use std::alloc::{AllocError, Global};

/// What is known of a list of files.
#[derive(Drop)]
pub(crate) struct Known {
    /// Which file imports which.
    pub(crate) imports: Imports,
    /// What each file passes on. None where files import one another in a circle.
    pub(crate) passes: Option<Passes>,
    /// All that they declare.
    pub(crate) symbols: Symbols,
    /// The files of each package.
    pub(crate) packages: PackageFiles,
}

/// What each file passes on. None where files import one another in a circle.
///
/// # Errors
/// `AllocError` where memory runs out.
pub(crate) fn passes_of(alloc: Global, imports: &Imports) -> Result<Option<Passes>, AllocError>
    ensures { IfOk result (λ passes. MatchOption passes ⊤ (AreRows imports.now.files)) }
{
    match in_order(alloc, imports)? {
        Order::Sorted(order) => Ok(Some(Passes::of(alloc, imports, order.as_slice())?)),
        Order::Cycle(_) => Ok(None),
    }
}

impl Known {
    /// What is known of these files, which import one another so.
    ///
    /// # Errors
    /// `AllocError` where memory runs out, or where a list has more than 2,147,483,648 parts: no
    /// path can count them.
    pub(crate) fn of(
        alloc: Global,
        files: &[FileDescriptorProto],
        imports: Imports,
        passes: Option<Passes>,
    ) -> Result<Known, AllocError>
        requires rows { imports.files ≡ rows_of files.now }
        requires passes { MatchOption passes ⊤ (AreRows imports.files) }
        ensures { IfOk result (IsKnownOf files.now) }
    {
        let symbols = Symbols::of(alloc, files)?;
        let packages = packages_of(alloc, &symbols, files)?;
        let packages = PackageFiles::of(alloc, &symbols, packages.as_slice())?;
        Ok(Known {
            imports,
            passes,
            symbols,
            packages,
        })
    }

    // Which files the file with this number sees.
    fn seen(&self, alloc: Global, number: usize) -> Result<Marks, AllocError>
        requires within { number < length self.now.imports.files }
        requires rows { HasRows self.now }
        ensures len { IfOk result (λ seen. length seen ≡ length self.now.imports.files) }
        ensures value { IfOk result (AreSeen self.now.imports.files number) }
    {
        match &self.passes {
            Some(passes) => passes.seen(alloc, &self.imports, number),
            None => {
                let seen = sees(alloc, &self.imports, number)?;
                Marks::of(alloc, seen.as_slice())
            }
        }
    }

    /// What the names in the file with this number stand for.
    ///
    /// # Errors
    /// `AllocError` where memory runs out.
    pub(crate) fn names(&self, alloc: Global, number: usize) -> Result<FileNames<'_>, AllocError>
        requires within { number < length self.now.imports.files }
        requires rows { HasRows self.now }
        ensures table { IfOk result (λ names. names.symbols.now ≡ self.now.symbols) }
        ensures as_many { IfOk result (λ names. length names.sees ≡ length self.now.imports.files) }
        ensures of_file { (files : List FileDescriptorProto) → IsKnownOf files self.now
            → IfOk result (λ names. IsOfFile files number names) }
    {
        let sees = self.seen(alloc, number)?;
        Ok(FileNames {
            symbols: &self.symbols,
            sees,
            packages: &self.packages,
        })
    }
}
