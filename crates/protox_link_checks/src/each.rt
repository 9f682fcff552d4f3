//! What declares something, and how it is checked.

ghost use Rattle.std.specs.Prelude.{◌≡◌, ◌++◌, ℕ, List, IfOk, OnOk};
ghost use Rattle.std.specs.List.{flat_map};
ghost use Rattle.protox_link_checks.specs.Faults.{declared_faults};
ghost use Rattle.protox_symbols.specs.Scopes.{IsFoundScope};
ghost use Rattle.protox_walk.specs.Declarations.{At, all_in, nth, siblings_at};

use crate::file_view::FileView;
use protox_descriptor::values::{Items, Numbers};
use protox_link_fault::LinkFault;
use protox_symbols::paths::{path_of_siblings, put_index};
use std::alloc::{AllocError, Global};

/// What declares something.
pub(crate) trait Checked {
    /// What it declares, in the scope of a name and from a path on.
    ghost declares: { Self → List ℕ → At };

    /// Adds what is wrong with what it declares, in a scope of the table; with no scope, the table
    /// doesn't have it. `near` is a guess at the number of the first name that it declares, and
    /// then of the first one behind it.
    fn check(
        &self,
        alloc: Global,
        of: &FileView<'_>,
        scope: Option<Option<usize>>,
        path: &[i32],
        near: &mut usize,
        faults: &mut Vec<LinkFault>,
    ) -> Result<(), AllocError>
        ensures { (full : List ℕ) → IsFoundScope of.now.view.now.symbols.now full scope
            → OnOk result (faults.new.items ≡ faults.old.items
            ++ flat_map (declared_faults of.now.view.now.symbols.now of.now.view.now.sees.now
            of.now.view.now.packages of.now.number) (declares self.now full path.now)) };
}

/// The path of the sibling at an index.
pub(crate) fn path_to(
    alloc: Global,
    path: &[i32],
    tag: i32,
    index: usize,
) -> Result<Numbers, AllocError>
    ensures { IfOk result (λ made. made ≡ nth path.now tag index) }
{
    if index > 2147483647 {
        return Err(AllocError);
    }
    Numbers::joined(alloc, path, &[tag, index as i32])
}

/// Adds what is wrong with what each of like siblings declares.
pub(crate) fn check_each<C: Checked>(
    alloc: Global,
    of: &FileView<'_>,
    scope: Option<Option<usize>>,
    path: &[i32],
    tag: i32,
    siblings: &Items<C>,
    near: &mut usize,
    faults: &mut Vec<LinkFault>,
) -> Result<(), AllocError>
    ensures { (full : List ℕ) → IsFoundScope of.now.view.now.symbols.now full scope
        → OnOk result (faults.new.items ≡ faults.old.items
        ++ flat_map (declared_faults of.now.view.now.symbols.now of.now.view.now.sees.now
        of.now.view.now.packages of.now.number)
        (siblings_at path.now tag (all_in C.declares full siblings.now))) }
{
    let elements = siblings.as_slice();
    if elements.is_empty() {
        return Ok(());
    }
    let mut place = path_of_siblings(alloc, path, tag)?;
    for (index, sibling) in elements.iter().enumerate() {
        put_index(&mut place, path.len() + 1, index)?;
        sibling.check(alloc, of, scope, &place, near, faults)?;
    }
    Ok(())
}
