//! Faults that are added.

ghost use Rattle.std.specs.Prelude.{◌≡◌, ◌++◌, ◌∷◌, [], IfOk, OnOk};
ghost use Rattle.protox_option_checks.specs.Faults as words;
ghost use Rattle.protox_walk.specs.Declarations.{nth};

use crate::{CheckFault, CheckFaultKind};
use protox_descriptor::values::Numbers;
use std::alloc::{AllocError, Global};

/// The path of the sibling at an index. No path can count more than 2,147,483,648 of them.
pub(crate) fn path_to(
    alloc: Global,
    path: &[i32],
    tag: i32,
    index: usize,
) -> Result<Numbers, AllocError>
    ensures { IfOk result (λ made. made ≡ nth path.now tag index) }
{
    if index > 2147483647 {
        return Err(AllocError);
    }
    Numbers::joined(alloc, path, &[tag, index as i32])
}

/// Adds the fault of a file at a part of what has a path.
pub(crate) fn add(
    alloc: Global,
    file: usize,
    path: &[i32],
    tag: i32,
    kind: CheckFaultKind,
    faults: &mut Vec<CheckFault>,
) -> Result<(), AllocError>
    ensures { OnOk result (faults.new.items
        ≡ faults.old.items ++ words.fault_at file path.now tag kind ∷ []) }
{
    let path = Numbers::joined(alloc, path, &[tag])?;
    if faults.push(CheckFault { file, path, kind }).is_err() {
        return Err(AllocError);
    }
    Ok(())
}

/// Adds it, if something is wrong.
pub(crate) fn add_if(
    wrong: bool,
    alloc: Global,
    file: usize,
    path: &[i32],
    tag: i32,
    kind: CheckFaultKind,
    faults: &mut Vec<CheckFault>,
) -> Result<(), AllocError>
    ensures { OnOk result (faults.new.items ≡ faults.old.items
        ++ words.fault_if wrong (words.fault_at file path.now tag kind)) }
{
    if !wrong {
        return Ok(());
    }
    add(alloc, file, path, tag, kind, faults)
}
