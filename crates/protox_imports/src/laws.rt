//! Laws of imports. Each is a function that does nothing. Its contract is the law.

ghost use Rattle.std.specs.Prelude.{List};
ghost use Rattle.protox_descriptor.specs.declared.descriptor.FileDescriptorProto.{FileDescriptorProto};
ghost use Rattle.protox_imports.specs.declared.row.FileImports.{FileImports};
ghost use Rattle.protox_imports.specs.Laws.{OrderedHasNoCycle, SeesTheLeast, OneDepthFirst};

/// A set of files with a cycle of imports has no order, so `in_order` never answers `Sorted` for
/// it; and one with an order has no cycle.
pub fn sorted_has_no_cycle()
    ensures { (set : List FileDescriptorProto) → OrderedHasNoCycle set }
{}

/// What a file sees is the least set that holds the file and what it imports, and with each file
/// what that one imports publicly: it sees no file but by a chain of public imports.
pub fn passes_is_least()
    ensures { (set : List FileDescriptorProto) → SeesTheLeast set }
{}

/// There is at most one order of a depth-first walk. So the answer of `in_order` is the only one
/// that its contract allows, where it is an order.
pub fn depth_first_is_one()
    ensures { (rows : List FileImports) → OneDepthFirst rows }
{}
