//! Links files, reads their options, and writes the set or what is wrong.

ghost use Rattle.std.specs.Prelude.{◌≡◌, [], All, IfErr, IfOk, List, MatchOption};
ghost use Rattle.protox_link_bytes.specs.Given.{GivenFile, given};
ghost use Rattle.protox_file_options.specs.declared.answer.InterpretedFile.{InterpretedFile as AnInterpretedFile};
ghost use Rattle.protox_link_bytes.specs.Outcomes.{IsLinking, IsNoRefusal, IsWant};
ghost use Rattle.protox_link_options.specs.Options.{AreRight, AreWrongUses, IsOptionFailure};
ghost use Rattle.protox_link_options.specs.OptionSets.{AreLinkableWithOptions, HasNoOptionSet, IsOptionSet};
ghost use Rattle.protox_link_records.specs.LinkPlaces.{IsSorted};
ghost use Rattle.protox_link_records.specs.LinkRecords.{texts};
ghost use Rattle.protox_option_checks.specs.Checks.{check_faults};
ghost use Rattle.protox_symbols.specs.Things.{table_of};

use crate::spelling::set_bytes;
use protox_descriptor::descriptor::FileDescriptorProto;
use protox_encode::EncodeError;
use protox_file_options::InterpretedFile;
use protox_link::{LinkedSet, Resolver};
use protox_link_bytes::{LinkBytesFailure, LinkSourcesFailure, SourceFile, link_sources};
use protox_option_checks::check_options;
use protox_option_records::{ReadOptions, check_records, read_options};
use protox_symbols::Symbols;
use std::alloc::{AllocError, Global};

// What is wrong with what options ask of linked files: its records. None, if nothing is.
fn check_wrong(
    alloc: Global,
    sources: &[SourceFile<'_>],
    symbols: &Symbols,
    files: &[FileDescriptorProto],
) -> Result<Option<Vec<u8>>, AllocError>
    requires sorted { All IsSorted files.now }
    requires table { symbols.now ≡ table_of files.now }
    ensures { IfOk result (λ told. MatchOption told (check_faults (table_of files.now) files.now ≡ [])
        (λ bytes. AreWrongUses (texts sources.now) files.now bytes.items)) }
{
    let faults = check_options(alloc, symbols, files)?;
    if faults.is_empty() {
        return Ok(None);
    }
    let told = check_records(alloc, sources, files, symbols, faults.as_slice())?;
    Ok(Some(told))
}

// What the options of linked files set, where they are right, and what they ask is so.
fn read_files(
    alloc: Global,
    sources: &[SourceFile<'_>],
    files: &[FileDescriptorProto],
) -> Result<Vec<InterpretedFile>, LinkSourcesFailure>
    requires { All IsSorted files.now }
    ensures right { IfOk result (λ answers. AreRight files.now answers.items) }
    ensures wrong { IfErr result (IsOptionFailure (texts sources.now) files.now) }
    ensures only { (answers : List AnInterpretedFile) → AreRight files.now answers → IfErr result IsWant }
{
    let Ok(resolver) = Resolver::new(alloc, files) else {
        return Err(LinkSourcesFailure::OutOfMemory);
    };
    let (answers, records) = match read_options(alloc, sources, &resolver, files) {
        Ok(ReadOptions { files, records }) => (files, records),
        Err(_) => return Err(LinkSourcesFailure::OutOfMemory),
    };
    if !records.as_slice().is_empty() {
        return Err(LinkSourcesFailure::Refused(records));
    }
    match check_wrong(alloc, sources, resolver.symbols(), files) {
        Ok(None) => Ok(answers),
        Ok(Some(told)) => Err(LinkSourcesFailure::Refused(told)),
        Err(_) => Err(LinkSourcesFailure::OutOfMemory),
    }
}

// The bytes of a linked set with what its options set.
fn spelled(
    alloc: Global,
    set: LinkedSet,
    answers: Vec<InterpretedFile>,
) -> Result<Vec<u8>, LinkBytesFailure>
    requires { AreRight set.files.items answers.items }
    ensures set { (sources : List GivenFile) → IsLinking sources set
        → IfOk result (λ bytes. IsOptionSet sources bytes.items) }
    ensures without { (sources : List GivenFile) → IsLinking sources set
        → IfErr result (HasNoOptionSet sources) }
    ensures only { IfErr result IsNoRefusal }
{
    match set_bytes(alloc, set, answers) {
        Ok(bytes) => Ok(bytes),
        Err(EncodeError::TooLarge) => Err(LinkBytesFailure::TooLarge),
        Err(EncodeError::NotAFloat) => Err(LinkBytesFailure::NotAFloat),
        Err(EncodeError::OutOfMemory) => Err(LinkBytesFailure::OutOfMemory),
    }
}

// Reads the options of a linked set, and writes it.
fn read_and_spell(
    alloc: Global,
    sources: &[SourceFile<'_>],
    set: LinkedSet,
) -> Result<Vec<u8>, LinkBytesFailure>
    requires linking { IsLinking (given sources.now) set }
    requires sorted { All IsSorted set.files.items }
    ensures set { IfOk result (λ bytes. IsOptionSet (given sources.now) bytes.items) }
    ensures without { IfErr result (HasNoOptionSet (given sources.now)) }
    ensures only { (answers : List AnInterpretedFile) → AreRight set.files.items answers
        → IfErr result IsNoRefusal }
{
    match read_files(alloc, sources, set.files.as_slice()) {
        Ok(answers) => spelled(alloc, set, answers),
        Err(LinkSourcesFailure::Refused(told)) => Err(LinkBytesFailure::Refused(told)),
        Err(LinkSourcesFailure::OutOfMemory) => Err(LinkBytesFailure::OutOfMemory),
    }
}

/// Parses files, links them, reads their options, and writes the set as a serialized
/// `FileDescriptorSet`, with locations. In the set each file stands behind all that it imports. In
/// place of the statements of options stands what they set, and their locations have its paths.
///
/// One of the files has to be protobuf's `google/protobuf/descriptor.proto`, if any sets an option: it
/// declares what options there are.
///
/// # Errors
/// `Refused` if something is wrong with the files. If `link_to_bytes` refuses them, the records are
/// its. Else they are those of the first wrong statement of each options message
/// (`protox_option_records::read_options`); if all are right, of what options ask of what has them
/// (`check_records`).
/// `TooLarge` if the bytes of the set or of one of its files would be 2 GiB or more. `OutOfMemory` if
/// memory runs out, or if a list has more than 2,147,483,648 parts. It is never `NotAFloat`.
pub fn link_with_options(
    alloc: Global,
    files: &[SourceFile<'_>],
) -> Result<Vec<u8>, LinkBytesFailure>
    // The bytes are those of the set that linking makes of the translations of the sources. What the
    // statements of options say is found in them, and nothing else.
    ensures set { IfOk result (λ bytes. IsOptionSet (given files.now) bytes.items) }
    // Else something is wrong, and the records tell what; or the set has no bytes.
    ensures without { IfErr result (HasNoOptionSet (given files.now)) }
    // Files that can be linked, and whose options are right, are not refused.
    ensures only { AreLinkableWithOptions (given files.now) → IfErr result IsNoRefusal }
{
    match link_sources(alloc, files) {
        Ok(set) => read_and_spell(alloc, files, set),
        Err(LinkSourcesFailure::Refused(records)) => Err(LinkBytesFailure::Refused(records)),
        Err(LinkSourcesFailure::OutOfMemory) => Err(LinkBytesFailure::OutOfMemory),
    }
}
