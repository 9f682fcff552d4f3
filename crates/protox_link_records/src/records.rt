//! The records of what is wrong with files that can't be linked.

ghost use Rattle.std.specs.Prelude.{◌<◌, length, All, IfOk};
ghost use Rattle.protox_link_records.specs.LinkPlaces.{IsSorted};
ghost use Rattle.protox_link_records.specs.LinkRecords.{AreTold, texts};

use crate::lines::lines_of;
use crate::source::SourceFile;
use crate::told::push_all;
use protox_descriptor::descriptor::FileDescriptorProto;
use protox_link::Resolver;
use protox_link_fault::LinkFault;
use std::alloc::{AllocError, Global};

/// The records of what is told of faults of files, in order. A fault of which two errors are told
/// has two records. The files are as they were before linking, and the sources are theirs.
///
/// Each number takes four bytes, the lowest first. A text is the number of its bytes and then its
/// bytes. A record is, in this order:
///
/// - the number of the file;
/// - the number of the kind (`kinds::kind_number`);
/// - the place of the part of the file that the fault is told of, or of the innermost part around it
///   that the source writes: the offsets in bytes of its start and its end, then the line and the
///   column of its start, both from 0, columns in bytes. It is four zeros where the source writes
///   none of these. A circle of imports is told of its first file, at the import of the next;
/// - what is wrong: a text;
/// - three zeros, of four bytes each: there is no label, no help and no second place.
///
/// # Errors
/// `AllocError` where memory runs out, or where a list has more than 2,147,483,648 parts: no path
/// can count them.
pub fn link_records(
    alloc: Global,
    sources: &[SourceFile<'_>],
    files: &[FileDescriptorProto],
    faults: &[LinkFault],
) -> Result<Vec<u8>, AllocError>
    requires sorted { All IsSorted files.now }
    requires there { All (λ fault. fault.file < length files.now) faults.now }
    ensures { IfOk result (λ bytes. AreTold (texts sources.now) files.now faults.now bytes.items) }
{
    let lines = lines_of(alloc, sources)?;
    let resolver = Resolver::new(alloc, files)?;
    let mut out = Vec::new(alloc);
    push_all(alloc, &mut out, lines.as_slice(), files, &resolver, faults)?;
    Ok(out)
}
