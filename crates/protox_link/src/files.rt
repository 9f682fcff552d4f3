//! All files of a list, one by one.

ghost use Rattle.std.specs.Prelude.{◌≡◌, [], List, length, OnOk};
ghost use Rattle.protox_descriptor.specs.declared.descriptor.FileDescriptorProto.{FileDescriptorProto};
ghost use Rattle.protox_link.specs.Files.{AreDone, AreFaults, AreLinked};
ghost use Rattle.protox_link.specs.Known.{HasRows, IsKnownOf};
ghost use Rattle.protox_link_checks.specs.Ranges.{AreRangesOf};
ghost use Rattle.protox_symbols.specs.Things.{table_of};

use crate::file::{do_file, link_numbered};
use crate::known::Known;
use protox_descriptor::descriptor::FileDescriptorProto;
use protox_link_checks::Ranges;
use protox_link_fault::LinkFault;
use std::alloc::{AllocError, Global};

/// Adds what is wrong with each file, in order. The files are linked as long as nothing is wrong.
pub(crate) fn do_files(
    alloc: Global,
    known: &Known,
    ranges: &Ranges,
    files: &mut [FileDescriptorProto],
    faults: &mut Vec<LinkFault>,
) -> Result<(), AllocError>
    requires as_many { length files.old ≡ length known.now.imports.files }
    requires rows { HasRows known.now }
    ensures { IsKnownOf files.old known.now → AreRangesOf files.old (table_of files.old) ranges.now
        → faults.old.items ≡ [] → OnOk result
        (AreDone files.old files.new faults.new.items) }
{
    for (number, file) in files.iter_mut().enumerate() {
        do_file(alloc, known, ranges, number, file, faults)?;
    }
    Ok(())
}

/// Links each file. Nothing is wrong with them.
pub(crate) fn link_files(
    alloc: Global,
    known: &Known,
    files: &mut [FileDescriptorProto],
) -> Result<(), AllocError>
    requires known { IsKnownOf files.old known.now }
    requires right { AreFaults files.old 0 files.old [] }
    ensures { OnOk result (AreLinked files.old 0 files.old files.new) }
{
    for (number, file) in files.iter_mut().enumerate() {
        link_numbered(alloc, known, number, file)?;
    }
    Ok(())
}
