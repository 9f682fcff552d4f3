//! The options of linked files, read file by file.

ghost use Rattle.std.specs.Prelude.{◌≡◌, ◌++◌, ◌∷◌, [], All, IfOk, List, ℕ, OnOk};
ghost use Rattle.protox_file_options.specs.Interpreted.{IsInterpreted};
ghost use Rattle.protox_file_options.specs.declared.answer.InterpretedFile.{InterpretedFile};
ghost use Rattle.protox_link.specs.Known.{IsKnownOf};
ghost use Rattle.protox_link_records.specs.LinkPlaces.{IsSorted};
ghost use Rattle.protox_link_records.specs.LinkRecords.{texts};
ghost use Rattle.protox_option_records.specs.OptionRecords.{AreRead, AreRecordsAt, IsFileRead, text_at};
ghost use Rattle.protox_set_options.specs.Read.{AreInterpreted};
ghost use Rattle.protox_set_options.specs.ReadBack.{AreReadBack};

use crate::record::Subject;
use crate::teller::fault_records;
use protox_descriptor::descriptor::FileDescriptorProto;
use protox_file_options::{InterpretedFile, interpret_file};
use protox_link::Resolver;
use protox_link_records::{SourceFile, SourceLines};
use protox_views::View;
use std::alloc::{AllocError, Global};

/// What the options of linked files set, and what is wrong with them.
#[derive(Drop)]
pub struct ReadOptions {
    /// What the options of each file set, in the order of the files.
    pub files: Vec<InterpretedFile>,
    /// The records of all faults, in order.
    pub records: Vec<u8>,
}

// The source of the file with a number.
fn source_at<'a>(sources: &[SourceFile<'a>], number: usize) -> &'a str
    ensures { result.now ≡ text_at (texts sources.now) number }
{
    match sources.get(number) {
        Some(file) => file.source,
        None => "",
    }
}

// The records of what is wrong with the options of a file. Without a fault its lines aren't looked at.
fn records_of(
    alloc: Global,
    source: &str,
    view: &View<'_>,
    files: &[FileDescriptorProto],
    number: usize,
    file: &FileDescriptorProto,
    answer: &InterpretedFile,
) -> Result<Vec<u8>, AllocError>
    requires { IsSorted file.now }
    ensures { (is : IsInterpreted view.now files.now file.now answer.now) → IfOk result (λ told. AreRecordsAt (record {
      number = number;
      source = source.now;
      file = file.now;
      view = view.now;
      files = files.now;
    }) is.taken told.items) }
{
    let faults = answer.faults.as_slice();
    if faults.is_empty() {
        return Ok(Vec::new(alloc));
    }
    let lines = SourceLines::new(alloc, source)?;
    let subject = Subject {
        number,
        file,
        lines: &lines,
        view,
        files,
    };
    fault_records(alloc, &subject, faults)
}

// Reads the options of a file, and adds what comes of it.
fn read_file(
    alloc: Global,
    sources: &[SourceFile<'_>],
    resolver: &Resolver,
    files: &[FileDescriptorProto],
    number: usize,
    file: &FileDescriptorProto,
    to: &mut ReadOptions,
) -> Result<(), AllocError>
    requires { IsSorted file.now }
    ensures { IsKnownOf files.now resolver.now → OnOk result ((answer : InterpretedFile) × (told : List ℕ)
        × IsFileRead (texts sources.now) files.now number file.now answer told
        × (to.new.files.items ≡ to.old.files.items ++ answer ∷ [])
        × (to.new.records.items ≡ to.old.records.items ++ told)) }
{
    let Some(names) = resolver.file(alloc, number)? else {
        return Err(AllocError);
    };
    let view = names.view();
    let answer = interpret_file(alloc, &view, files, file)?;
    let source = source_at(sources, number);
    let told = records_of(alloc, source, &view, files, number, file, &answer)?;
    to.files.push(answer)?;
    to.records.extend_from_slice(told.as_slice())
}

/// What the options of linked files set, file by file, and the records of what is wrong with them.
///
/// The files are those of a linked set (`LinkedSet::files`), the sources are theirs, and the resolver
/// was made of them. In the set each options message with a statement has its type: one of the files has to be protobuf's
/// descriptor.proto. Else it has the fault `NoType`.
///
/// A record has the parts that `protox_link_records::link_records` says. Its place is that of the
/// statement that is wrong, or of the options message. Of an options message only the first statement
/// that is wrong is told.
///
/// # Errors
/// `AllocError` where memory runs out, or where a list has more than 2,147,483,648 parts: no path can
/// count them.
///
/// ```
/// let resolver = Resolver::new(alloc, files)?;
/// let read = read_options(alloc, sources, &resolver, files)?;
/// if read.records.is_empty() { .. }
/// ```
pub fn read_options(
    alloc: Global,
    sources: &[SourceFile<'_>],
    resolver: &Resolver,
    files: &[FileDescriptorProto],
) -> Result<ReadOptions, AllocError>
    requires sorted { All IsSorted files.now }
    requires known { IsKnownOf files.now resolver.now }
    ensures read { IfOk result (λ read. AreRead (texts sources.now) files.now read.files.items read.records.items) }
    // Where nothing is wrong with a file's options, what its statements say is found in the bytes,
    // and nothing else.
    ensures reads_back { IfOk result (λ read. AreReadBack files.now read.files.items) }
    // Without a record nothing is wrong.
    ensures none { IfOk result (λ read. read.records.items ≡ []
        → All (λ answer. answer.faults.items ≡ []) read.files.items) }
    // Where all statements are right, there is no record.
    ensures only { (answers : List InterpretedFile) → AreInterpreted files.now answers
        → All (λ answer. answer.faults.items ≡ []) answers → IfOk result (λ read. read.records.items ≡ []) }
{
    let mut read = ReadOptions {
        files: Vec::new(alloc),
        records: Vec::new(alloc),
    };
    for (number, file) in files.iter().enumerate() {
        read_file(alloc, sources, resolver, files, number, file, &mut read)?;
    }
    Ok(read)
}
