//! One file of a list: what is wrong with it, and what linking makes of it.

ghost use Rattle.std.specs.Prelude.{◌≡◌, ◌<◌, ℕ, List, Some, length, Contains, OnOk};
ghost use Rattle.protox_descriptor.specs.declared.descriptor.FileDescriptorProto.{FileDescriptorProto};
ghost use Rattle.protox_link.specs.Files.{IsChecked, IsDone, IsInTable, IsLinkedAt};
ghost use Rattle.protox_link.specs.Known.{HasRows, IsKnownOf};
ghost use Rattle.protox_link_checks.specs.Ranges.{AreRangesOf};
ghost use Rattle.protox_linked.specs.Linked.{linked_file};
ghost use Rattle.protox_symbols.specs.Things.{table_of};
ghost use Rattle.protox_views.specs.Views.{meaning};

use crate::known::Known;
use crate::packages::text_of;
use protox_descriptor::descriptor::FileDescriptorProto;
use protox_link_checks::{Ranges, check_extensions, check_file};
use protox_link_fault::LinkFault;
use protox_linked::link_file;
use protox_views::View;
use std::alloc::{AllocError, Global};

// Links a file that sees this.
fn link_seen(
    alloc: Global,
    view: &View<'_>,
    file: &mut FileDescriptorProto,
) -> Result<(), AllocError>
    requires { IsInTable view.now.symbols.now file.old }
    ensures { OnOk result (file.new
        ≡ linked_file (meaning view.now.symbols.now view.now.sees.now view.now.packages) file.old) }
{
    let package = view.symbols.find(None, text_of(file.package.as_ref()));
    link_file(alloc, view, package, file)
}

// Adds what is wrong with a file that sees this, and links it if nothing is wrong so far.
fn check_and_link(
    alloc: Global,
    view: &View<'_>,
    ranges: &Ranges,
    imports: &[Option<usize>],
    number: usize,
    file: &mut FileDescriptorProto,
    faults: &mut Vec<LinkFault>,
) -> Result<(), AllocError>
    requires { (n : ℕ) → Contains imports.now (Some n) → n < length view.now.sees.now }
    ensures { (all : List FileDescriptorProto) → AreRangesOf all view.now.symbols.now ranges.now
        → OnOk result (IsChecked all view.now.symbols.now view.now.sees.now view.now.packages
        number imports.now file.old file.new faults.old.items faults.new.items) }
{
    check_file(alloc, view, imports, number, file, faults)?;
    // without faults, the table has all that linking looks up
    let is_whole = faults.is_empty();
    check_extensions(alloc, view, ranges, number, file, faults)?;
    if !is_whole || !faults.is_empty() {
        return Ok(());
    }
    link_seen(alloc, view, file)
}

/// Adds what is wrong with the file of this number, and links it if nothing is wrong so far.
pub(crate) fn do_file(
    alloc: Global,
    known: &Known,
    ranges: &Ranges,
    number: usize,
    file: &mut FileDescriptorProto,
    faults: &mut Vec<LinkFault>,
) -> Result<(), AllocError>
    requires within { number < length known.now.imports.files }
    requires rows { HasRows known.now }
    ensures { (all : List FileDescriptorProto) → IsKnownOf all known.now
        → AreRangesOf all (table_of all) ranges.now → OnOk result
        (IsDone all number file.old file.new faults.old.items faults.new.items) }
{
    let names = known.names(alloc, number)?;
    let view = names.view();
    let imports = known.imports.named(number);
    check_and_link(alloc, &view, ranges, imports, number, file, faults)
}

/// Links the file of this number.
pub(crate) fn link_numbered(
    alloc: Global,
    known: &Known,
    number: usize,
    file: &mut FileDescriptorProto,
) -> Result<(), AllocError>
    requires within { number < length known.now.imports.files }
    requires rows { HasRows known.now }
    requires in_table { IsInTable known.now.symbols file.old }
    ensures { (all : List FileDescriptorProto) → IsKnownOf all known.now → OnOk result
        (IsLinkedAt all number file.old file.new) }
{
    let names = known.names(alloc, number)?;
    let view = names.view();
    link_seen(alloc, &view, file)
}
