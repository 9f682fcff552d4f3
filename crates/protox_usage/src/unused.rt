//! Imports that a file doesn't use.

ghost use Rattle.std.specs.Prelude.{◌≡◌, pos, false, filter, length, replicate, IfOk};
ghost use Rattle.std.specs.List.{flat_map, range_with_len};
ghost use Rattle.std.specs.Ordering.{int_eq};
ghost use Rattle.protox_link.specs.Known.{IsKnownOf};
ghost use Rattle.protox_usage.specs.Lookups.{lookups_in_file, may_use_all};
ghost use Rattle.protox_usage.specs.Searched.{met_by, noted};
ghost use Rattle.protox_usage.specs.Known.{IsUsageOf, is_not_found, is_not_met};
ghost use Rattle.protox_usage.specs.Unused.{AreUnused, has_public, is_public};

use crate::first::{first_files, order_of, text_of};
use crate::names::Names;
use crate::options::options_of_file;
use crate::search::Sight;
use crate::searcher::{Found, Searcher};
use protox_descriptor::descriptor::FileDescriptorProto;
use protox_link::Resolver;
use protox_marks::Marks;
use protox_names::within;
use protox_walk::walk;
use std::alloc::{AllocError, Global};
use std::marker::Model;

/// What tells which imports the files of a list don't use.
#[derive(Drop)]
pub struct Usage<'a> {
    files: &'a [FileDescriptorProto],
    names: Names<'a>,
    first: Vec<Option<usize>>,
}

impl<'a> Model for Usage<'a> {
    ghost use Rattle.std.specs.Coded.{codes};
    ghost use Rattle.std.specs.Prelude.{List};
    ghost use Rattle.protox_descriptor.specs.contracts.descriptor.DescriptorProto as message;
    ghost use Rattle.protox_descriptor.specs.declared.descriptor.FileDescriptorProto.{FileDescriptorProto};
    ghost use Rattle.protox_usage.specs.Known.{IsUsageOf};
    ghost use Rattle.protox_usage.specs.Names.{known_by};

    ghost Value = { List FileDescriptorProto };

    ghost coded = { Prim.hlevel (codes, message.the_row.coded) };

    ghost view = { λ u. u.files.now };

    ghost invariant = { λ u. IsUsageOf u.files.now (known_by u.names) u.first.items };
}

// Whether a number of a list of public imports is this index.
fn is_index(number: i32, index: usize) -> bool
    ensures { result ≡ int_eq number (pos index) }
{
    number >= 0 && number as usize == index
}

// Whether an import is public, by its index.
fn is_public(file: &FileDescriptorProto, index: usize) -> bool
    ensures { result ≡ is_public file.now index }
{
    file.public_dependency
        .iter()
        .any(|number| is_index(*number, index))
}

// Searches for all names that a file uses.
fn search_file(
    alloc: Global,
    file: &FileDescriptorProto,
    sight: &Sight<'_>,
    count: usize,
) -> Result<Found, AllocError>
    ensures used { IfOk result (λ found. found.used ≡ noted sight.now (replicate count false)
        (flat_map (met_by sight.now) (lookups_in_file file.now))) }
    ensures guesses { IfOk result (λ found. found.guesses ≡ may_use_all file.now) }
{
    let package = text_of(file.package.as_ref());
    let user = within(alloc, package, "")?;
    let mut found = Found {
        used: Marks::new(alloc, count)?,
        guesses: false,
    };
    sight.search_options(options_of_file(file), user.as_str(), &mut found);
    let mut searcher = Searcher { sight, found };
    walk(alloc, file, &mut searcher)?;
    Ok(searcher.found)
}

// The first file of each package.
fn firsts(
    alloc: Global,
    files: &[FileDescriptorProto],
    resolver: &Resolver,
) -> Result<Vec<Option<usize>>, AllocError>
    requires { IsKnownOf files.now resolver.now }
    ensures { IfOk result (λ first. IsUsageOf files.now resolver.now first.items) }
{
    let order = order_of(alloc, resolver.imports())?;
    first_files(alloc, files, resolver.symbols(), order.as_slice())
}

impl<'a> Usage<'a> {
    /// What tells which imports these files don't use. They have to be as they were parsed: once
    /// they are linked, the search for names goes another way.
    ///
    /// # Errors
    /// `AllocError` where memory runs out, or where a list has more than 2,147,483,648 parts: no
    /// path can count them.
    pub fn new(alloc: Global, files: &'a [FileDescriptorProto]) -> Result<Usage<'a>, AllocError>
        ensures { IfOk result (λ usage. usage ≡ files.entry.now) }
    {
        let resolver = Resolver::new(alloc, files)?;
        let first = firsts(alloc, files, &resolver)?;
        Ok(Usage {
            files,
            names: Names::Own(resolver),
            first,
        })
    }

    /// What tells which imports these files don't use, with what a caller knows of them.
    ///
    /// # Errors
    /// `AllocError` where memory runs out.
    ///
    /// ```
    /// let resolver = Resolver::new(alloc, files)?;
    /// let usage = Usage::with_resolver(alloc, files, &resolver)?;
    /// ```
    pub fn with_resolver(
        alloc: Global,
        files: &'a [FileDescriptorProto],
        resolver: &'a Resolver,
    ) -> Result<Usage<'a>, AllocError>
        requires { IsKnownOf files.now resolver.now }
        ensures { IfOk result (λ usage. usage ≡ files.entry.now) }
    {
        let first = firsts(alloc, files, resolver)?;
        Ok(Usage {
            files,
            names: Names::Lent(resolver),
            first,
        })
    }

    // Whether the file with a number has public imports.
    fn has_public(&self, number: usize) -> bool
        ensures { result ≡ has_public self.now number }
    {
        match self.files.get(number) {
            Some(file) => !file.public_dependency.is_empty(),
            None => false,
        }
    }

    // Whether an import of a file, which names this file, was not come upon. It isn't asked where
    // the import is public, or where the file that it names has public imports.
    fn is_not_found(
        &self,
        file: &FileDescriptorProto,
        index: usize,
        named: Option<usize>,
        found: &Found,
    ) -> bool
        ensures { result ≡ is_not_met self.now file.now found.now index named }
    {
        let Some(number) = named else {
            return false;
        };
        if is_public(file, index) || self.has_public(number) {
            return false;
        }
        !found.guesses && !found.used.has(number)
    }

    // The imports of a file that a search for the names in it didn't come upon.
    #[tactic(auto, using(crate::proofs::Adding::one_kept, crate::proofs::Adding::none_kept))]
    fn not_found(
        &self,
        alloc: Global,
        file: &FileDescriptorProto,
        named: &[Option<usize>],
        found: &Found,
    ) -> Result<Vec<usize>, AllocError>
        ensures { IfOk result (λ unused. unused.items
            ≡ filter (is_not_found self.now file.now named.now found.now)
            (range_with_len 0 (length named.now))) }
    {
        let mut unused = Vec::new(alloc);
        for (index, number) in named.iter().enumerate() {
            if self.is_not_found(file, index, *number, found) {
                unused.push(index)?;
            }
        }
        Ok(unused)
    }

    /// The indices of the imports that the file with this number doesn't use, in order. An import is
    /// used if the search for the name of a type, of an extendee or of a method's type comes upon
    /// something that the imported file declares, or upon a package that no file was in before it.
    /// So is one in which the search for the name of an option comes upon something; that of
    /// descriptor.proto, if any option is set. An import that is public, or of a file that has public
    /// imports, counts as used. So does each import of a file that sets an option whose value may name
    /// something of another file.
    ///
    /// # Errors
    /// `AllocError` where memory runs out.
    pub fn unused(&self, alloc: Global, number: usize) -> Result<Vec<usize>, AllocError>
        ensures { IfOk result (λ unused. AreUnused self.now number unused.items) }
    {
        let Some(file) = self.files.get(number) else {
            return Ok(Vec::new(alloc));
        };
        let resolver = self.names.resolver();
        let Some(names) = resolver.file(alloc, number)? else {
            return Ok(Vec::new(alloc));
        };
        if file.dependency.is_empty() {
            return Ok(Vec::new(alloc));
        }
        // for the proof: each number of the table has a kind
        let _count = names.symbols.len();
        let view = names.view();
        let sight = Sight {
            view: &view,
            first: self.first.as_slice(),
        };
        let found = search_file(alloc, file, &sight, self.files.len())?;
        self.not_found(alloc, file, resolver.imports().named(number), &found)
    }
}
