//! Links files, and writes the set or what is wrong.

ghost use Rattle.std.specs.Prelude.{List, All, IfOk, IfErr};
ghost use Rattle.protox_descriptor.specs.declared.descriptor.FileDescriptorProto.{FileDescriptorProto};
ghost use Rattle.protox_link.specs.Link.{AreOfFiles};
ghost use Rattle.protox_link.specs.Stands.{Stands};
ghost use Rattle.protox_link_bytes.specs.Given.{GivenFile, given};
ghost use Rattle.protox_link_bytes.specs.Outcomes.{AreLinkable, HasNoLinking, HasNoSet};
ghost use Rattle.protox_link_bytes.specs.Outcomes.{IsLinkedSet, IsLinking, IsNoRefusal, IsWant};
ghost use Rattle.protox_link_bytes.specs.Parsed.{AreParsed, AreTranslations};
ghost use Rattle.protox_link_records.specs.LinkPlaces.{IsSorted};

use crate::failure::{LinkBytesFailure, LinkSourcesFailure};
use crate::parsing::{Parsed, parse_all};
use crate::spelling::set_bytes;
use protox_descriptor::descriptor::FileDescriptorProto;
use protox_encode::EncodeError;
use protox_link::{LinkedSet, link};
use protox_link_fault::{LinkFailure, LinkFault};
use protox_link_records::{SourceFile, link_records};
use std::alloc::Global;

// The bytes of a set.
fn spelled(alloc: Global, set: &LinkedSet) -> Result<Vec<u8>, LinkBytesFailure>
    ensures set { (sources : List GivenFile) → IsLinking sources set.now → IfOk result (λ bytes. IsLinkedSet sources bytes.items) }
    ensures without { (sources : List GivenFile) → IsLinking sources set.now → IfErr result (HasNoSet sources) }
    ensures accepted { IfErr result IsNoRefusal }
{
    match set_bytes(alloc, set.files.as_slice(), set.order.as_slice()) {
        Ok(bytes) => Ok(bytes),
        Err(EncodeError::TooLarge) => Err(LinkBytesFailure::TooLarge),
        Err(EncodeError::NotAFloat) => Err(LinkBytesFailure::NotAFloat),
        Err(EncodeError::OutOfMemory) => Err(LinkBytesFailure::OutOfMemory),
    }
}

// What is wrong with files that linking refused for these faults. Linking took the descriptors, so
// the sources are parsed once more.
fn told(alloc: Global, sources: &[SourceFile<'_>], faults: &[LinkFault]) -> LinkSourcesFailure
    requires { (files : List FileDescriptorProto) × AreTranslations (given sources.now) files × AreOfFiles files faults.now
        × All (Stands files) faults.now }
    ensures { HasNoLinking (given sources.now) result }
{
    let Ok(Parsed::Files(files)) = parse_all(alloc, sources) else {
        return LinkSourcesFailure::OutOfMemory;
    };
    match link_records(alloc, sources, files.as_slice(), faults) {
        Ok(records) => LinkSourcesFailure::Refused(records),
        Err(_) => LinkSourcesFailure::OutOfMemory,
    }
}

// Links files, of which no source is refused.
fn linked(
    alloc: Global,
    sources: &[SourceFile<'_>],
    files: Vec<FileDescriptorProto>,
) -> Result<LinkedSet, LinkSourcesFailure>
    requires { AreParsed (given sources.now) files.items }
    ensures set { IfOk result (IsLinking (given sources.now)) }
    ensures sorted { IfOk result (λ set. All IsSorted set.files.items) }
    ensures without { IfErr result (HasNoLinking (given sources.now)) }
{
    match link(alloc, files) {
        Ok(set) => Ok(set),
        Err(LinkFailure::Refused(faults)) => Err(told(alloc, sources, faults.as_slice())),
        Err(LinkFailure::OutOfMemory) => Err(LinkSourcesFailure::OutOfMemory),
    }
}

/// Parses files, and links them. The locations of each file of the set are sorted by path, as `parse`
/// answers them.
///
/// # Errors
/// `Refused` if something is wrong with the files, as for `link_to_bytes`. `OutOfMemory` if memory
/// runs out, or if a list has more than 2,147,483,648 parts.
pub fn link_sources(
    alloc: Global,
    files: &[SourceFile<'_>],
) -> Result<LinkedSet, LinkSourcesFailure>
    // The set is the one that linking makes of the translations of the sources.
    ensures set { IfOk result (IsLinking (given files.now)) }
    ensures sorted { IfOk result (λ set. All IsSorted set.files.items) }
    // Else something is wrong, and the records tell what.
    ensures without { IfErr result (HasNoLinking (given files.now)) }
    // Files that can be linked are not refused.
    ensures only { AreLinkable (given files.now) → IfErr result IsWant }
{
    match parse_all(alloc, files) {
        Ok(Parsed::Files(parsed)) => linked(alloc, files, parsed),
        Ok(Parsed::Refused(records)) => Err(LinkSourcesFailure::Refused(records)),
        Err(_) => Err(LinkSourcesFailure::OutOfMemory),
    }
}

/// Parses files, links them, and writes them as a serialized `FileDescriptorSet`, with locations.
/// In the set each file stands behind all that it imports.
///
/// # Errors
/// `Refused` if something is wrong with the files. If some have faults of syntax, the records are
/// those of all faults of syntax, in the order of the files. Else they are those of what is told of
/// the faults that `link` finds, in order.
/// `TooLarge` if the bytes would be 2 GiB or more. `NotAFloat` if an option needs a float and its
/// value is none. `OutOfMemory` if memory runs out, or if a list has more than 2,147,483,648 parts.
pub fn link_to_bytes(alloc: Global, files: &[SourceFile<'_>]) -> Result<Vec<u8>, LinkBytesFailure>
    // The bytes are those of the set that linking makes of the translations of the sources.
    ensures set { IfOk result (λ bytes. IsLinkedSet (given files.now) bytes.items) }
    // Else something is wrong, and the records tell what; or the set has no bytes.
    ensures without { IfErr result (HasNoSet (given files.now)) }
    // Files that can be linked are not refused.
    ensures only { AreLinkable (given files.now) → IfErr result IsNoRefusal }
{
    match link_sources(alloc, files) {
        Ok(set) => spelled(alloc, &set),
        Err(LinkSourcesFailure::Refused(records)) => Err(LinkBytesFailure::Refused(records)),
        Err(LinkSourcesFailure::OutOfMemory) => Err(LinkBytesFailure::OutOfMemory),
    }
}
