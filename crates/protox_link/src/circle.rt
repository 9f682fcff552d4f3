//! Files that import one another in a circle.

ghost use Rattle.std.specs.Prelude.{◌≡◌, ◌<◌, ◌-◌, ◌∷◌, [], Some, length, slice_get, List, IfOk};
ghost use Rattle.std.specs.List.{All};
ghost use Rattle.protox_descriptor.specs.declared.descriptor.FileDescriptorProto.{FileDescriptorProto};
ghost use Rattle.protox_imports.specs.Imports.{Imports as ImportsOf};
ghost use Rattle.protox_imports.specs.Order.{IsCycle};
ghost use Rattle.protox_link.specs.Link.{IsCircleAlone, NamesCircle};
ghost use Rattle.protox_link.specs.Stands.{Stands};

use protox_descriptor::tag::file::DEPENDENCY;
use protox_descriptor::values::Numbers;
use protox_link_fault::{LinkFault, LinkFaultKind};
use std::alloc::{AllocError, Global};

// The fault of files that import one another in a circle.
fn fault_of_circle(alloc: Global, circle: Vec<usize>) -> Result<LinkFault, AllocError>
    requires { 0 < length circle.items }
    ensures file { IfOk result (λ fault. slice_get circle.items (length circle.items - 1)
        ≡ Some fault.file) }
    ensures path { IfOk result (λ fault. fault.path ≡ DEPENDENCY ∷ []) }
    ensures kind { IfOk result (λ fault. NamesCircle circle.items fault.kind) }
{
    let path = Numbers::from_slice(alloc, &[DEPENDENCY])?;
    let file = circle[circle.len() - 1];
    let kind = LinkFaultKind::ImportCycle(circle);
    Ok(LinkFault { file, path, kind })
}

/// The one fault that is told of files that import one another in this circle.
pub(crate) fn told_circle(alloc: Global, circle: Vec<usize>) -> Result<Vec<LinkFault>, AllocError>
    requires { 0 < length circle.items }
    ensures circle { (files : List FileDescriptorProto) → IsCycle (ImportsOf files) circle.items
        → IfOk result (λ faults. IsCircleAlone files faults.items) }
    ensures stands { (files : List FileDescriptorProto) → IsCycle (ImportsOf files) circle.items
        → IfOk result (λ faults. All (Stands files) faults.items) }
{
    let fault = fault_of_circle(alloc, circle)?;
    let mut faults = Vec::new(alloc);
    faults.push(fault)?;
    Ok(faults)
}
