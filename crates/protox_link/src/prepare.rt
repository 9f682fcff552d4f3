//! What is known of a list of files before they are linked.

ghost use Rattle.std.specs.Prelude.{◌≡◌, List, length, IfOk};
ghost use Rattle.protox_descriptor.specs.declared.descriptor.FileDescriptorProto.{FileDescriptorProto};
ghost use Rattle.protox_imports.specs.Answer.{IsAnswer};
ghost use Rattle.protox_imports.specs.Imports.{Imports as ImportsOf};
ghost use Rattle.protox_imports.specs.Order.{IsCycle};
ghost use Rattle.protox_imports.specs.Rows.{rows_of};
ghost use Rattle.protox_link.specs.Known.{IsKnownOf};
ghost use Rattle.protox_link.specs.Prepared.{IsPreparedFor};

use crate::known::Known;
use protox_descriptor::descriptor::FileDescriptorProto;
use protox_imports::{Imports, Order, Passes, in_order};
use std::alloc::{AllocError, Global};

/// What is found out first.
#[derive(Drop)]
pub(crate) enum Prepared {
    /// What is known, and an order in which imports come first.
    Ready(Known, Vec<usize>),
    /// Files that import one another in a circle.
    Circle(Vec<usize>),
}

/// An order of files that import one another so, in which imports come first, or a circle.
///
/// # Errors
/// `AllocError` where memory runs out.
pub(crate) fn order_of(alloc: Global, imports: &Imports) -> Result<Order, AllocError>
    ensures { (files : List FileDescriptorProto) → imports.now.files ≡ rows_of files
        → IfOk result (IsAnswer (ImportsOf files) (length files)) }
{
    in_order(alloc, imports)
}

/// Finds out what is known of a list of files.
///
/// # Errors
/// `AllocError` where memory runs out, or where a list has more than 2,147,483,648 parts: no path
/// can count them.
pub(crate) fn prepare(alloc: Global, files: &[FileDescriptorProto]) -> Result<Prepared, AllocError>
    ensures { IfOk result (IsPreparedFor files.now) }
{
    let imports = Imports::new(alloc, files)?;
    let order = match in_order(alloc, &imports)? {
        Order::Sorted(order) => order,
        Order::Cycle(circle) => return Ok(Prepared::Circle(circle)),
    };
    let passes = Passes::of(alloc, &imports, order.as_slice())?;
    let known = Known::of(alloc, files, imports, Some(passes))?;
    Ok(Prepared::Ready(known, order))
}
