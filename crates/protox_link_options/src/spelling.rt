//! The bytes of a linked set with what its options set.

ghost use Rattle.std.specs.Prelude.{◌≡◌, ◌≤◌, ◌^◌, [], map, length, slice_index_or, IfOk, IsErrOf, OnOk};
ghost use Rattle.protox_link_options.specs.SpelledOptions as spelled;

use protox_descriptor::descriptor::FileDescriptorProto;
use protox_encode::EncodeError;
use protox_encode_linked::encode_linked_entry;
use protox_file_options::InterpretedFile;
use protox_link::LinkedSet;
use protox_moved::{Move, move_locations};
use std::alloc::{AllocError, Global};

// Gives the locations of the statements of a file's options the paths of what they set.
fn move_in(
    alloc: Global,
    file: &mut FileDescriptorProto,
    moves: Vec<Move>,
) -> Result<(), AllocError>
    ensures { OnOk result (file.new ≡ spelled.moved_file moves.items file.old) }
{
    match &mut file.source_code_info {
        Some(info) => move_locations(alloc, info, moves),
        None => Ok(()),
    }
}

// The bytes of a file in a set, with what its options set.
fn entry_of(
    alloc: Global,
    file: FileDescriptorProto,
    answer: InterpretedFile,
) -> Result<Vec<u8>, EncodeError>
    ensures exact { IfOk result (λ bytes. bytes.items ≡ spelled.entry_of file answer) }
    ensures too_large { IsErrOf result EncodeError.TooLarge
        → 2 ^ 31 ≤ length (spelled.entry_of file answer) }
    ensures not_a_float { IsErrOf result EncodeError.NotAFloat → ⊥ }
{
    let mut file = file;
    match move_in(alloc, &mut file, answer.moves) {
        Ok(()) => encode_linked_entry(alloc, &file, &answer.options),
        Err(_) => Err(EncodeError::OutOfMemory),
    }
}

// The bytes of each file, in order.
fn entries_of(
    alloc: Global,
    files: Vec<FileDescriptorProto>,
    answers: Vec<InterpretedFile>,
) -> Result<Vec<Vec<u8>>, EncodeError>
    requires { length files.items ≡ length answers.items }
    ensures exact { IfOk result (λ made. map (λ entry. entry.items) made.items
        ≡ spelled.entries_of files.items answers.items) }
    ensures too_large { IsErrOf result EncodeError.TooLarge
        → spelled.IsLargeEntry files.items answers.items }
    ensures not_a_float { IsErrOf result EncodeError.NotAFloat → ⊥ }
{
    let mut files = files;
    let mut answers = answers;
    let mut made = Vec::new(alloc);
    // From the last to the first, as a list gives away its last element.
    while let Some(answer) = answers.pop() {
        // There are as many files.
        let Some(file) = files.pop() else {
            return Err(EncodeError::OutOfMemory);
        };
        let entry = match entry_of(alloc, file, answer) {
            Ok(entry) => entry,
            Err(error) => return Err(error),
        };
        let Ok(()) = made.push(entry) else {
            return Err(EncodeError::OutOfMemory);
        };
    }
    made.reverse();
    Ok(made)
}

// The entry with a number; nothing if there is none.
fn entry_at<'a>(entries: &'a [Vec<u8>], number: usize) -> &'a [u8]
    ensures { result.now ≡ slice_index_or (map (λ entry. entry.items) entries.now) number [] }
{
    match entries.get(number) {
        Some(entry) => entry.as_slice(),
        None => &[],
    }
}

// The entries with these numbers, one behind the other.
fn joined(alloc: Global, entries: &[Vec<u8>], order: &[usize]) -> Result<Vec<u8>, AllocError>
    ensures { IfOk result (λ bytes. bytes.items
        ≡ spelled.joined (map (λ entry. entry.items) entries.now) order.now) }
{
    let mut bytes = Vec::new(alloc);
    for number in order {
        bytes.extend_from_slice(entry_at(entries, *number))?;
    }
    Ok(bytes)
}

/// The bytes of a linked set with what the options of its files set: the entries of the files, in the
/// set's order.
///
/// # Errors
/// `TooLarge` if a file takes 2 GiB or more, or the set does. `OutOfMemory` if memory runs out. It is
/// never `NotAFloat`.
pub(crate) fn set_bytes(
    alloc: Global,
    set: LinkedSet,
    answers: Vec<InterpretedFile>,
) -> Result<Vec<u8>, EncodeError>
    requires { length set.files.items ≡ length answers.items }
    ensures exact { IfOk result (λ bytes. bytes.items ≡ spelled.set_bytes set answers.items) }
    ensures too_large { IsErrOf result EncodeError.TooLarge → spelled.IsTooLarge set answers.items }
    ensures not_a_float { IsErrOf result EncodeError.NotAFloat → ⊥ }
{
    let LinkedSet { files, order } = set;
    let entries = entries_of(alloc, files, answers)?;
    let bytes = joined(alloc, entries.as_slice(), order.as_slice())?;
    if bytes.len() >= 0x8000_0000 {
        return Err(EncodeError::TooLarge);
    }
    Ok(bytes)
}
