ghost use Rattle.std.specs.Prelude.{◌≡◌, length, IfOk};
ghost use Rattle.protox_imports.specs.Imports.{Imports as ImportsByName};
ghost use Rattle.protox_imports.specs.Rows.{ImportsIn, rows_of};
ghost use Rattle.protox_imports.specs.Answer.{IsAnswer};
ghost use Rattle.protox_imports.specs.DepthFirst.{IsDepthFirst};

use crate::imports::Imports;
use crate::walk::Walk;
use protox_descriptor::descriptor::FileDescriptorProto;
use std::alloc::{AllocError, Global};

/// The answer of `in_order`.
#[derive(Drop)]
pub enum Order {
    /// The number of each file once, each behind all that it imports.
    Sorted(Vec<usize>),
    /// Files of which each imports the next, and the last imports the first.
    Cycle(Vec<usize>),
}

/// An order of the files in which imports come first, or a cycle of imports; or `AllocError`. The
/// order is that of a depth-first walk: the files as they are given, each behind what it imports,
/// and its imports in their order. There is no other such order, by the law `depth_first_is_one`.
/// Where there is a cycle, there is no order, by the law `sorted_has_no_cycle`.
///
/// It takes time in line with the number of files and imports. It calls itself for no file, so a
/// long chain of imports takes no stack.
///
/// ```
/// match in_order(alloc, &imports)? {
///     Order::Sorted(files) => ..
///     Order::Cycle(files) => ..
/// }
/// ```
pub fn in_order(alloc: Global, imports: &Imports) -> Result<Order, AllocError>
    ensures answer { IfOk result
        (IsAnswer (ImportsIn imports.now.files) (length imports.now.files)) }
    ensures depth_first { IfOk result (IsDepthFirst imports.now.files) }
{
    let mut walk = Walk::new(alloc, imports.len())?;
    for file in 0..imports.len() {
        if let Some(files) = walk.visit(alloc, imports, file)? {
            return Ok(Order::Cycle(files));
        }
    }
    let Walk {
        states: _,
        stack: _,
        placed,
    } = walk;
    Ok(Order::Sorted(placed))
}

impl Order {
    /// An order of these files in which imports come first, or a cycle of their imports; or
    /// `AllocError`. It is what `in_order` answers for `Imports::new`, said of the names of the
    /// files: file f imports file g if g is the first file with a name that f imports.
    pub fn of(alloc: Global, files: &[FileDescriptorProto]) -> Result<Order, AllocError>
        ensures answer { IfOk result (IsAnswer (ImportsByName files.now) (length files.now)) }
        ensures depth_first { IfOk result (IsDepthFirst (rows_of files.now)) }
    {
        let imports = Imports::new(alloc, files)?;
        in_order(alloc, &imports)
    }
}
