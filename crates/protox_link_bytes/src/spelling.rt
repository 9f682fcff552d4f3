//! The bytes of a linked set.

ghost use Rattle.std.specs.Prelude.{◌≡◌, ◌≤◌, ◌<◌, ◌^◌, ◌++◌, length, IfOk, false, IsErrOf, OnOk};
ghost use Rattle.std.specs.List.{list_all};
ghost use Rattle.protox_encode.specs.Floats.{has_floats};
ghost use Rattle.protox_link_bytes.specs.Spelled.{bytes_of, file_at, in_order};

use protox_descriptor::descriptor::FileDescriptorProto;
use protox_encode::{EncodeError, encode_entry};
use std::alloc::Global;

// Adds bytes. The only error is that memory runs out.
fn add(bytes: &mut Vec<u8>, more: &[u8]) -> Result<(), EncodeError>
    ensures exact { OnOk result (bytes.new.items ≡ bytes.old.items ++ more.now) }
    ensures large { IsErrOf result EncodeError.TooLarge → ⊥ }
    ensures floats { IsErrOf result EncodeError.NotAFloat → ⊥ }
{
    match bytes.extend_from_slice(more) {
        Ok(()) => Ok(()),
        Err(_) => Err(EncodeError::OutOfMemory),
    }
}

// Adds the file with this number.
fn push_file(
    alloc: Global,
    bytes: &mut Vec<u8>,
    files: &[FileDescriptorProto],
    number: usize,
) -> Result<(), EncodeError>
    ensures exact { OnOk result (bytes.new.items ≡ bytes.old.items ++ bytes_of (file_at files.now number)) }
    ensures too_large { IsErrOf result EncodeError.TooLarge → 2 ^ 31 ≤ length (bytes_of (file_at files.now number)) }
    ensures not_a_float { IsErrOf result EncodeError.NotAFloat → list_all has_floats (file_at files.now number) ≡ false }
{
    let Some(file) = files.get(number) else {
        return Ok(());
    };
    match encode_entry(alloc, file) {
        Ok(entry) => add(bytes, entry.as_slice()),
        Err(error) => Err(error),
    }
}

/// The bytes of the set of the files with these numbers, in this order.
///
/// # Errors
/// `TooLarge` if that takes 2 GiB or more. `NotAFloat` if some `double_value` is not the text of a
/// float. `OutOfMemory` if memory runs out.
pub(crate) fn set_bytes(
    alloc: Global,
    files: &[FileDescriptorProto],
    order: &[usize],
) -> Result<Vec<u8>, EncodeError>
    ensures exact { IfOk result (λ bytes. bytes.items ≡ bytes_of (in_order files.now order.now)) }
    ensures too_large { IsErrOf result EncodeError.TooLarge → 2 ^ 31 ≤ length (bytes_of (in_order files.now order.now)) }
    ensures not_a_float { IsErrOf result EncodeError.NotAFloat → list_all has_floats (in_order files.now order.now) ≡ false }
{
    let mut bytes = Vec::new(alloc);
    for number in order {
        if let Err(error) = push_file(alloc, &mut bytes, files, *number) {
            return Err(error);
        }
    }
    if bytes.len() >= 0x8000_0000 {
        return Err(EncodeError::TooLarge);
    }
    Ok(bytes)
}
