//! What takes the items of a source, one by one.

ghost use Rattle.std.specs.Prelude.{◌≡◌, ◌++◌, ◌∷◌, [], ⊤, IfOk, OnOk};
ghost use Rattle.std.specs.List.{FoldsTo};
ghost use Rattle.protox_ast.specs.declared.ast.File as file_type;
ghost use Rattle.protox_ast.specs.declared.ast.FileItem as item_type;
ghost use Rattle.protox_ast.specs.declared.ast.Syntax as syntax_type;

use protox_ast::ast::{File, FileItem};
use protox_descriptor::values::Items;
use std::alloc::{AllocError, Global};
use std::mem;

/// What is done with each item of a source: each message, enum, service and `extend` block.
pub trait TakesItems {
    /// What a call that succeeds does: a relation between the taker before it, the item, and the
    /// taker after it, in a file of this syntax. By default it says nothing.
    ghost takes: { syntax_type.Syntax → Self → item_type.FileItem → Self → Type 0 } = { λ _ _ _ _. ⊤ };

    /// Takes the next item. `head` is the file without its items, as far as it has been read: its
    /// syntax is known, but an import or a package may still follow. `AllocError` ends the reading.
    fn take(&mut self, alloc: Global, head: &File, item: FileItem) -> Result<(), AllocError>
        ensures { OnOk result (takes head.now.syntax self.old item self.new) };

    /// Takes the next items, one behind another, as `take` does. Answers an empty list, which may
    /// have room for others. A taker that can do with the whole list may write it anew.
    fn take_all(
        &mut self,
        alloc: Global,
        head: &File,
        items: Vec<FileItem>,
    ) -> Result<Vec<FileItem>, AllocError>
        ensures taken { OnOk result (FoldsTo (takes head.now.syntax) self.old items.items self.new) }
        ensures empty { IfOk result (λ left. left.items ≡ []) }
    {
        let mut left = items;
        for item in left.drain(..) {
            self.take(alloc, head, item)?;
        }
        Ok(left)
    }
}

/// A list keeps each item, behind those that it has.
impl TakesItems for Items<FileItem> {
    ghost takes = { λ syntax old item new. new ≡ old ++ item ∷ [] };

    fn take(&mut self, _alloc: Global, _head: &File, item: FileItem) -> Result<(), AllocError> {
        self.push(item)
    }
}

/// Hands over the items that the head holds. The list keeps its room for those of the next part:
/// to give back much room at once is dear, since the allocator then tidies all that it has.
pub(crate) fn hand_over<T: TakesItems>(
    alloc: Global,
    head: &mut File,
    to: &mut T,
) -> Result<(), AllocError>
    ensures head { OnOk result (head.new ≡ record head.old { items = [] }) }
    ensures taken { OnOk result (FoldsTo (T.takes head.old.syntax) to.old head.old.items to.new) }
{
    let items = mem::replace(&mut head.items, Items::new(alloc)).into_vec();
    let left = to.take_all(alloc, head, items)?;
    head.items = Items::from_vec(left);
    Ok(())
}
