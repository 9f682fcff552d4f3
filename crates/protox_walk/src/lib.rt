//! The declarations of a file, one by one: each with its path, its full name and its descriptor.
#![tactic(auto)]

ghost use Rattle.std.specs.Prelude.{◌≡◌, map, IfOk, OnOk};
ghost use Rattle.std.specs.List.{FoldsTo};
ghost use Rattle.std.specs.Option.{option_copied};
ghost use Rattle.protox_places.specs.First.{first_at, leading_of, trailing_of, detached_of};
ghost use Rattle.protox_places.specs.Order.{AreByPath};
ghost use Rattle.protox_walk.specs.Declarations.{file_declarations};
ghost use Rattle.protox_walk.specs.Names.{name_at};
ghost use Rattle.protox_walk.specs.Parts.{seen};

mod each;
mod messages;
mod part;
mod parts;
mod visit;
mod visitors;

use crate::each::{text_of, walk_each};
pub use crate::part::Part;
pub use crate::visit::Visit;
use crate::visitors::{Collector, Finder};
use protox_descriptor::descriptor::source_code_info::Location;
use protox_descriptor::descriptor::{FileDescriptorProto, SourceCodeInfo};
use protox_descriptor::tag::file::{ENUM_TYPE, EXTENSION, MESSAGE_TYPE, SERVICE};
use protox_descriptor::values::{Numbers, Text};
use protox_places::find::{self, LocationComments};
use std::alloc::{AllocError, Global};

/// A declaration of a file.
#[derive(Drop)]
pub struct Declaration<'a> {
    /// The way from the file's descriptor to the declaration, as its location has it.
    pub path: Numbers,
    /// The package, the names of the messages around it and its own, with dots between them, as
    /// linkers write it. A value of an enum has its name beside the enum's. A name that is not set
    /// counts as the empty one.
    pub full_name: Text,
    /// The descriptor, by its kind.
    pub part: Part<'a>,
}

impl Declaration<'_> {
    /// Where it stands: the first location with its path, or None. It needs what `find::location`
    /// needs; what `parse` answers has it.
    pub fn location<'i>(&self, info: &'i SourceCodeInfo) -> Option<&'i Location>
        requires { AreByPath info.now.location }
        ensures { option_copied result ≡ first_at self.now.path info.now.location }
    {
        find::location(info, self.path.as_slice())
    }

    /// Its comments: those of the first location with its path. It needs what `find::comments`
    /// needs.
    pub fn comments<'i>(&self, info: &'i SourceCodeInfo) -> LocationComments<'i>
        requires { AreByPath info.now.location }
        ensures leading { option_copied result.leading ≡ leading_of (first_at self.now.path info.now.location) }
        ensures trailing { option_copied result.trailing ≡ trailing_of (first_at self.now.path info.now.location) }
        ensures detached { result.leading_detached.now ≡ detached_of (first_at self.now.path info.now.location) }
    {
        find::comments(info, self.path.as_slice())
    }
}

/// Visits each declaration of a file once, in the order of their paths: messages, enums, services
/// and extensions; and after a message, an enum or a service, what it declares. The first error of
/// a visit ends the walk, and `walk` returns it. If memory runs out, or if a list has more than
/// 2,147,483,648 parts (a path can't count them), `walk` returns `AllocError`, converted to the
/// visitor's error.
///
/// It makes no list of declarations. It takes memory only for the names around, for each full name
/// of over 30 bytes, and for long paths.
///
/// It also visits the entry messages of maps, and the oneofs that are made for `optional` fields.
/// No source has them, so they have no location.
///
/// ```
/// walk(alloc, &file, &mut visitor)?;
/// ```
#[tactic(auto, using(crate::proofs::Folds::folds))]
pub fn walk<'a, V: Visit<'a>>(
    alloc: Global,
    file: &'a FileDescriptorProto,
    visitor: &mut V,
) -> Result<(), V::Error>
    ensures { OnOk result (FoldsTo V.visits visitor.old (file_declarations file.entry.now) visitor.new) }
{
    let scope = text_of(file.package.as_ref());
    walk_each(alloc, visitor, scope, &[], MESSAGE_TYPE, &file.message_type)?;
    walk_each(alloc, visitor, scope, &[], ENUM_TYPE, &file.enum_type)?;
    walk_each(alloc, visitor, scope, &[], SERVICE, &file.service)?;
    walk_each(alloc, visitor, scope, &[], EXTENSION, &file.extension)
}

/// All declarations of a file, each once, in the order in which `walk` visits them. It returns
/// `AllocError` in the same cases as `walk`.
///
/// ```
/// for declaration in &declarations(alloc, &file)? {
///     println!(rt; "{} {}", declaration.part.kind(), declaration.full_name)?;
/// }
/// ```
pub fn declarations<'a>(
    alloc: Global,
    file: &'a FileDescriptorProto,
) -> Result<Vec<Declaration<'a>>, AllocError>
    ensures { IfOk result (λ found. map seen found.items ≡ file_declarations file.entry.now) }
{
    let found = Vec::new(alloc);
    let mut collector = Collector { alloc, found };
    walk(alloc, file, &mut collector)?;
    Ok(collector.found)
}

/// The full name of the declaration with this path, as `declarations` has it; None if there is
/// none. It returns `AllocError` in the same cases as `walk`. It walks over the whole file, so for
/// many paths call `declarations` once.
///
/// ```
/// // The full name of the second field of the first message.
/// let name = name_at(alloc, &file, &[4, 0, 2, 1])?;
/// ```
pub fn name_at(
    alloc: Global,
    file: &FileDescriptorProto,
    path: &[i32],
) -> Result<Option<Text>, AllocError>
    ensures { IfOk result (λ name. name ≡ name_at path.now (file_declarations file.now)) }
{
    let mut finder = Finder {
        alloc,
        path,
        name: None,
    };
    walk(alloc, file, &mut finder)?;
    Ok(finder.name)
}
