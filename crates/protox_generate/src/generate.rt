//! The descriptor of a file, from its syntax tree.

ghost use Rattle.std.specs.Prelude.{◌≡◌, ◌≤◌, ℕ, List, [], length, IfErr, IfOk, OnOk};
ghost use Rattle.protox_ast.specs.Accepted.{FaultsLieIn, IsFileOf};
ghost use Rattle.protox_ast.specs.Siblings.{FileStands};
ghost use Rattle.protox_checks.specs.Faults.{AreWrong, HaveAll, IsFaultless};
ghost use Rattle.protox_describe.specs.Oneofs.{HasRealFirst};
ghost use Rattle.protox_generate.specs.Commented.{AreCommentedOnce};
ghost use Rattle.protox_generate.specs.File.{file_descriptor, AreLocated, AreListedAll, AreSorted};
ghost use Rattle.protox_generate.specs.NamePaths.{HasPlaces};
ghost use Rattle.protox_generate.specs.Names.{HasNames};
ghost use Rattle.protox_generate.specs.inner.Taken.{IsTaken};

use crate::draft::FileDraft;
use protox_ast::ast::{File, FileItem};
use protox_checks::checks::check_file;
use protox_descriptor::descriptor::FileDescriptorProto;
use protox_descriptor::values::Items;
use protox_fault::error::SyntaxFailure;
pub use protox_places::lines::LineResolver;
use std::alloc::{AllocError, Global};
use std::mem;

fn take_items(
    alloc: Global,
    draft: &mut FileDraft<'_>,
    head: &File,
    items: Items<FileItem>,
) -> Result<(), AllocError>
    ensures { OnOk result ((source : List ℕ) → IsTaken source head.now.syntax [] draft.old → IsTaken source head.now.syntax items draft.new) }
{
    for item in items.into_vec() {
        draft.take(alloc, head, item)?;
    }
    Ok(())
}

// Builds the descriptor. Needs that the tree's spans lie in the source.
fn described(
    alloc: Global,
    ast: File,
    name: &str,
    source: &str,
) -> Result<FileDescriptorProto, AllocError>
    requires length { length source.now ≤ 2147483647 }
    requires stands { FileStands (length source.now) ast }
    ensures found { IfOk result (λ file. file ≡ file_descriptor name.now source.now ast) }
    ensures located { IfOk result AreLocated }
    ensures sorted { IfOk result AreSorted }
{
    let mut head = ast;
    let items = mem::replace(&mut head.items, Items::new(alloc));
    let mut draft = FileDraft::new(alloc, source);
    take_items(alloc, &mut draft, &head, items)?;
    let file = draft.finish(alloc, name, &head)?;
    Ok(file)
}

/// The descriptor of a file with its locations, if the checks of its syntax tree find nothing
/// wrong. Otherwise all faults, in the order in which they are found; or that memory ran out.
///
/// `name` is the file's name. `ast` is what `parse_file` answers for `source`.
pub fn generate_file(
    alloc: Global,
    ast: File,
    name: &str,
    source: &str,
) -> Result<FileDescriptorProto, SyntaxFailure>
    requires { IsFileOf source.now ast }
    // The answer is the descriptor of the tree, and nothing is wrong with the tree.
    ensures found { IfOk result (λ file. file ≡ file_descriptor name.now source.now ast) }
    ensures fine { IfOk result (λ file. IsFaultless ast) }
    // Its locations are sorted by path, and those of one path by where they start.
    ensures located { IfOk result AreLocated }
    // `locate` needs this order.
    ensures sorted { IfOk result AreSorted }
    // In each message the oneofs that the source writes come first.
    ensures oneofs { IfOk result HasRealFirst }
    // If the path of a location leads to a name, the source writes that name there.
    ensures named { IfOk result (HasNames source.now) }
    // The path of each name that the source writes in the descriptor has exactly one location.
    ensures placed { IfOk result HasPlaces }
    // Each comment of the source stands in at most one field of one location, around that location.
    ensures commented_once { IfOk result (AreCommentedOnce source.now) }
    // A refusal has at least one fault. It lists exactly the faults of the tree, in order.
    ensures wrong { IfErr result (AreWrong ast) }
    ensures all { IfErr result (HaveAll ast) }
    ensures in_order { IfErr result (AreListedAll ast) }
    // The faults lie in the source.
    ensures lie { IfErr result (FaultsLieIn source.now) }
{
    let faults = check_file(alloc, &ast)?;
    if !faults.is_empty() {
        return Err(SyntaxFailure::Faults(faults.into_vec()));
    }
    Ok(described(alloc, ast, name, source)?)
}
