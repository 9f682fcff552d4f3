//! Linking.

ghost use Rattle.std.specs.Prelude.{◌<◌, [], length, List, IfOk, IfErr, OnOk};
ghost use Rattle.protox_descriptor.specs.declared.descriptor.FileDescriptorProto.{FileDescriptorProto};
ghost use Rattle.protox_imports.specs.Imports.{Imports as ImportsOf};
ghost use Rattle.protox_imports.specs.Order.{IsCycle, IsInOrder};
ghost use Rattle.protox_link.specs.Closed.{AreClosed};
ghost use Rattle.protox_link.specs.Files.{AreDone, AreFaults, AreLinked};
ghost use Rattle.protox_link.specs.Known.{HasRows, IsKnownOf};
ghost use Rattle.protox_link.specs.Link.{AreKept, FailureTellsCircles, IsFailureOf, IsSetOf, NothingIsWrong};
ghost use Rattle.protox_link.specs.Stands.{AllStand};

use crate::LinkedSet;
use crate::circle::told_circle;
use crate::files::{do_files, link_files};
use crate::known::Known;
use crate::prepare::{Prepared, order_of, prepare};
use protox_descriptor::descriptor::FileDescriptorProto;
use protox_imports::Order;
use protox_link_checks::Ranges;
use protox_link_fault::{LinkFailure, LinkFault};
use std::alloc::{AllocError, Global};

// All that is wrong with files that don't import one another in a circle, in order. If nothing is,
// they are linked.
fn finish(
    alloc: Global,
    known: &Known,
    files: &mut Vec<FileDescriptorProto>,
) -> Result<Vec<LinkFault>, AllocError>
    requires { HasRows known.now }
    ensures { IsKnownOf files.old.items known.now → IfOk result (λ faults.
        AreDone files.old.items files.new.items faults.items) }
{
    let ranges = Ranges::of(alloc, &known.symbols, files.as_slice())?;
    let mut faults = Vec::new(alloc);
    if files.len() == known.imports.len() {
        do_files(alloc, known, &ranges, files.as_mut_slice(), &mut faults)?;
    }
    Ok(faults)
}

// What linking gives, if there is no circle.
fn link_ready(
    alloc: Global,
    known: &Known,
    order: Vec<usize>,
    files: Vec<FileDescriptorProto>,
) -> Result<LinkedSet, LinkFailure>
    requires known { IsKnownOf files.items known.now }
    requires order { IsInOrder (ImportsOf files.items) (length files.items) order.items }
    ensures linked { IfOk result (λ set. IsSetOf files.items set) }
    ensures closed { IfOk result (λ set. AreClosed files.items set.files.items) }
    ensures kept { IfOk result (λ set. AreKept files.items set.files.items) }
    ensures refused { IfErr result (λ failure. IsFailureOf files.items failure) }
    ensures circles { IfErr result (λ failure. FailureTellsCircles files.items failure) }
    ensures stands { IfErr result (λ failure. AllStand files.items failure) }
{
    let mut files = files;
    let Ok(faults) = finish(alloc, known, &mut files) else {
        return Err(LinkFailure::OutOfMemory);
    };
    if !faults.is_empty() {
        return Err(LinkFailure::Refused(faults));
    }
    Ok(LinkedSet { files, order })
}

// Why files that import one another in a circle are not linked.
fn refused_circle(alloc: Global, circle: Vec<usize>) -> LinkFailure
    requires { 0 < length circle.items }
    ensures refused { (files : List FileDescriptorProto) → IsCycle (ImportsOf files) circle.items
        → IsFailureOf files result }
    ensures circles { (files : List FileDescriptorProto) → IsCycle (ImportsOf files) circle.items
        → FailureTellsCircles files result }
    ensures stands { (files : List FileDescriptorProto) → IsCycle (ImportsOf files) circle.items
        → AllStand files result }
{
    match told_circle(alloc, circle) {
        Ok(faults) => LinkFailure::Refused(faults),
        Err(_) => LinkFailure::OutOfMemory,
    }
}

/// Links a list of files of which this is known.
pub(crate) fn link_known(
    alloc: Global,
    known: &Known,
    files: Vec<FileDescriptorProto>,
) -> Result<LinkedSet, LinkFailure>
    requires { IsKnownOf files.items known.now }
    ensures linked { IfOk result (λ set. IsSetOf files.items set) }
    ensures closed { IfOk result (λ set. AreClosed files.items set.files.items) }
    ensures kept { IfOk result (λ set. AreKept files.items set.files.items) }
    ensures refused { IfErr result (λ failure. IsFailureOf files.items failure) }
    ensures circles { IfErr result (λ failure. FailureTellsCircles files.items failure) }
    ensures stands { IfErr result (λ failure. AllStand files.items failure) }
{
    match order_of(alloc, &known.imports) {
        Ok(Order::Sorted(order)) => link_ready(alloc, known, order, files),
        Ok(Order::Cycle(circle)) => Err(refused_circle(alloc, circle)),
        Err(_) => Err(LinkFailure::OutOfMemory),
    }
}

// The order of files that have one.
fn order_of_right(
    alloc: Global,
    known: &Known,
    files: &[FileDescriptorProto],
) -> Result<Vec<usize>, AllocError>
    requires known { IsKnownOf files.now known.now }
    requires right { NothingIsWrong files.now }
    ensures { IfOk result (λ order. IsInOrder (ImportsOf files.now) (length files.now) order.items) }
{
    match order_of(alloc, &known.imports)? {
        Order::Sorted(order) => Ok(order),
        Order::Cycle(_) => unreachable!(),
    }
}

// Links each of these files, with which nothing is wrong.
fn link_each(
    alloc: Global,
    known: &Known,
    files: &mut Vec<FileDescriptorProto>,
) -> Result<(), AllocError>
    requires known { IsKnownOf files.old.items known.now }
    requires right { AreFaults files.old.items 0 files.old.items [] }
    ensures { OnOk result (AreLinked files.old.items 0 files.old.items files.new.items) }
{
    link_files(alloc, known, files.as_mut_slice())
}

/// Links files with which nothing is wrong, and of which this is known.
pub(crate) fn link_right(
    alloc: Global,
    known: &Known,
    files: Vec<FileDescriptorProto>,
) -> Result<LinkedSet, AllocError>
    requires known { IsKnownOf files.items known.now }
    requires right { NothingIsWrong files.items }
    ensures linked { IfOk result (λ set. IsSetOf files.items set) }
    ensures closed { IfOk result (λ set. AreClosed files.items set.files.items) }
    ensures kept { IfOk result (λ set. AreKept files.items set.files.items) }
{
    let Ok(order) = order_of_right(alloc, known, files.as_slice()) else {
        return Err(AllocError);
    };
    let mut files = files;
    match link_each(alloc, known, &mut files) {
        Ok(()) => Ok(LinkedSet { files, order }),
        Err(error) => Err(error),
    }
}

/// Links a list of files: each name that they use becomes a dot and the full name of what it stands
/// for, fields of named types get the type of a message or of an enum, and each field gets a name in
/// JSON. All else stays as it is. Files are named by their numbers in the list, from 0.
///
/// In the linked files each full name is declared once. Each name that a field or a method uses is a
/// dot and the full name of a message or an enum that its file sees: one of its own, of a file that
/// it imports, or of one that such a file imports publicly, and so on.
///
/// # Errors
/// `Refused`, with all that is wrong, where something is: an import of no file of the list, an
/// import told twice, a circle of imports (this is told alone, at its last file), a name that is no
/// identifier or that was declared before in any of the files, a name that stands for nothing that
/// the file sees, or for something of another kind, a default of a message or of no value of the
/// enum, a package of more than 511 bytes or 100 dots, a number or a range that clashes with
/// another one, a number from 19000 to 19999, a range without numbers, an enum without values, a
/// name that is reserved twice, or reserved and used; in proto3 a first value other than 0, an
/// extension range, or names that are alike; an extension whose number is in no extension range of
/// the message, or used by an earlier extension of the file; and in proto3 an extension of what is
/// no message of options. The faults are in the order of the files. Those of a file are in the
/// order of its parts, then come those of proto3, and then those of extensions. The path of each
/// leads to a part of its file. What a fault names by a number has it in `Symbols::of` the same
/// files.
/// `OutOfMemory` where memory runs out, or where a list has more than 2,147,483,648 parts: no path
/// can count them.
///
/// ```
/// match link(alloc, files) {
///     Ok(set) => ..
///     Err(LinkFailure::Refused(faults)) => ..
///     Err(LinkFailure::OutOfMemory) => ..
/// }
/// ```
pub fn link(alloc: Global, files: Vec<FileDescriptorProto>) -> Result<LinkedSet, LinkFailure>
    ensures linked { IfOk result (λ set. IsSetOf files.items set) }
    ensures closed { IfOk result (λ set. AreClosed files.items set.files.items) }
    ensures kept { IfOk result (λ set. AreKept files.items set.files.items) }
    ensures refused { IfErr result (λ failure. IsFailureOf files.items failure) }
    ensures circles { IfErr result (λ failure. FailureTellsCircles files.items failure) }
    ensures stands { IfErr result (λ failure. AllStand files.items failure) }
{
    match prepare(alloc, files.as_slice()) {
        Ok(Prepared::Ready(known, order)) => link_ready(alloc, &known, order, files),
        Ok(Prepared::Circle(circle)) => Err(refused_circle(alloc, circle)),
        Err(_) => Err(LinkFailure::OutOfMemory),
    }
}
