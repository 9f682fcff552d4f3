//! What names stand for in a list of files, for tools.

ghost use Rattle.std.specs.Prelude.{◌≡◌, ◌≤◌, [], List, length, IfErr, IfOk, MatchOption};
ghost use Rattle.std.specs.List.{All};
ghost use Rattle.protox_descriptor.specs.declared.descriptor.FileDescriptorProto.{FileDescriptorProto};
ghost use Rattle.protox_link.specs.Closed.{AreClosed};
ghost use Rattle.protox_link.specs.Known.{IsKnownOf};
ghost use Rattle.protox_link.specs.Link.{AreKept, AreWrong, FailureTellsCircles, IsFailureOf, IsSetOf, NothingIsWrong, TellsCircles};
ghost use Rattle.protox_link.specs.Resolver.{IsOfFile};
ghost use Rattle.protox_link.specs.Stands.{AllStand, Stands};
ghost use Rattle.protox_name_tree.specs.Tree.{kind_at};
ghost use Rattle.protox_scopes.specs.Scopes.{resolve};
ghost use Rattle.protox_views.specs.FilesOf.{seen_packages};
ghost use Rattle.protox_views.specs.Views.{seen};

use crate::LinkedSet;
use crate::checking::check_known;
use crate::known::{Known, passes_of};
use crate::linking::{link_known, link_right};
use protox_descriptor::descriptor::FileDescriptorProto;
use protox_imports::Imports;
use protox_link_fault::{LinkFailure, LinkFault};
use protox_marks::Marks;
use protox_scopes::{Wanted, resolve};
use protox_symbols::Symbols;
use protox_views::{PackageFiles, SeenPackages, View};
use std::alloc::{AllocError, Global};
use std::marker::Model;

/// What is known of a list of files, so that names can be resolved in them, and the files checked and
/// linked. Names can be resolved before and after linking: it answers the same, since linking changes
/// no declaration and no import.
#[derive(Drop)]
pub struct Resolver {
    known: Known,
}

impl Model for Resolver {
    ghost use Rattle.protox_link.specs.Known.{HasRows};
    ghost use Rattle.protox_link.specs.declared.known.Known.{Known};

    ghost Value = { Known };

    ghost view = { λ r. r.known };

    ghost invariant = { λ r. HasRows r.known };
}

/// What the names in one file stand for.
#[derive(Drop)]
pub struct FileNames<'a> {
    /// All that the files declare.
    pub symbols: &'a Symbols,
    /// For each file, whether this one sees it.
    pub sees: Marks,
    /// The files of each package.
    pub packages: &'a PackageFiles,
}

impl Resolver {
    /// What is known of these files.
    ///
    /// # Errors
    /// `AllocError` where memory runs out, or where a list has more than 2,147,483,648 parts: no
    /// path can count them.
    pub fn new(alloc: Global, files: &[FileDescriptorProto]) -> Result<Resolver, AllocError>
        ensures { IfOk result (λ resolver. IsKnownOf files.now resolver) }
    {
        let imports = Imports::new(alloc, files)?;
        let passes = passes_of(alloc, &imports)?;
        let known = Known::of(alloc, files, imports, passes)?;
        Ok(Resolver { known })
    }

    /// All that the files declare, by numbers.
    pub fn symbols(&self) -> &Symbols
        ensures { result.now ≡ self.now.symbols }
    {
        &self.known.symbols
    }

    /// Which of the files imports which.
    pub fn imports(&self) -> &Imports
        ensures { result.now ≡ self.now.imports }
    {
        &self.known.imports
    }

    /// All that is wrong with the files that it was made for, as `check` tells it. Where that is
    /// nothing, `link_checked` links them.
    ///
    /// # Errors
    /// `AllocError` where memory runs out.
    ///
    /// ```
    /// let resolver = Resolver::new(alloc, files.as_slice())?;
    /// let faults = resolver.check(alloc, files.as_slice())?;
    /// if faults.is_empty() {
    ///     let set = resolver.link_checked(alloc, files)?;
    ///     ..
    /// }
    /// ```
    pub fn check(
        &self,
        alloc: Global,
        files: &[FileDescriptorProto],
    ) -> Result<Vec<LinkFault>, AllocError>
        requires { IsKnownOf files.now self.now }
        ensures wrong { IfOk result (λ faults. AreWrong files.now faults.items) }
        ensures circles { IfOk result (λ faults. TellsCircles files.now faults.items) }
        ensures right { IfOk result (λ faults. faults.items ≡ [] → NothingIsWrong files.now) }
        ensures stands { IfOk result (λ faults. All (Stands files.now) faults.items) }
    {
        check_known(alloc, &self.known, files)
    }

    /// Links the files that it was made for, as `link` does.
    ///
    /// # Errors
    /// `Refused`, with all that is wrong, where something is. `OutOfMemory` where memory runs out.
    pub fn link(
        &self,
        alloc: Global,
        files: Vec<FileDescriptorProto>,
    ) -> Result<LinkedSet, LinkFailure>
        requires { IsKnownOf files.items self.now }
        ensures linked { IfOk result (λ set. IsSetOf files.items set) }
        ensures closed { IfOk result (λ set. AreClosed files.items set.files.items) }
        ensures kept { IfOk result (λ set. AreKept files.items set.files.items) }
        ensures refused { IfErr result (λ failure. IsFailureOf files.items failure) }
        ensures circles { IfErr result (λ failure. FailureTellsCircles files.items failure) }
        ensures stands { IfErr result (λ failure. AllStand files.items failure) }
    {
        link_known(alloc, &self.known, files)
    }

    /// Links the files that it was made for, once `check` tells nothing of them. They aren't checked
    /// again, and none of them is refused.
    ///
    /// # Errors
    /// `AllocError` where memory runs out.
    pub fn link_checked(
        &self,
        alloc: Global,
        files: Vec<FileDescriptorProto>,
    ) -> Result<LinkedSet, AllocError>
        requires known { IsKnownOf files.items self.now }
        requires right { NothingIsWrong files.items }
        ensures linked { IfOk result (λ set. IsSetOf files.items set) }
        ensures closed { IfOk result (λ set. AreClosed files.items set.files.items) }
        ensures kept { IfOk result (λ set. AreKept files.items set.files.items) }
    {
        link_right(alloc, &self.known, files)
    }

    /// What the names in the file with this number stand for. None if no file has the number.
    ///
    /// # Errors
    /// `AllocError` where memory runs out.
    pub fn file(&self, alloc: Global, number: usize) -> Result<Option<FileNames<'_>>, AllocError>
        ensures { (files : List FileDescriptorProto) → IsKnownOf files self.now → IfOk result
            (λ found. MatchOption found (length files ≤ number)
            (λ names. IsOfFile files number names)) }
    {
        if number >= self.known.imports.len() {
            return Ok(None);
        }
        Ok(Some(self.known.names(alloc, number)?))
    }
}

impl FileNames<'_> {
    /// What the file sees, as a view of the table.
    pub fn view(&self) -> View<'_>
        ensures table { result.symbols.now ≡ self.now.symbols.now }
        ensures sees { result.sees.now ≡ self.now.sees }
        ensures packages { result.packages ≡ seen_packages self.now.sees self.now.packages.now }
    {
        View {
            symbols: self.symbols,
            sees: &self.sees,
            packages: SeenPackages {
                files: self.packages,
                sees: &self.sees,
            },
        }
    }

    /// What a name stands for where something of the full name `user` uses it, by its number in
    /// `symbols`. None if it stands for nothing that the file sees. It is the name that linking
    /// finds: where a type is wanted, what is no type is passed by.
    ///
    /// It takes no memory.
    ///
    /// ```
    /// let found = names.resolve(Wanted::AType, "Inner.Part", "shop.Order.item");
    /// ```
    pub fn resolve(&self, wanted: Wanted, name: &str, user: &str) -> Option<usize>
        ensures { result ≡ resolve (kind_at self.now.symbols.now.names)
            (seen self.now.symbols.now self.now.sees
            (seen_packages self.now.sees self.now.packages.now))
            wanted name.now user.now }
    {
        resolve(&self.view(), wanted, name, user)
    }
}
