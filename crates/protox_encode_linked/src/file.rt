ghost use Rattle.std.specs.Prelude.{◌≡◌, ◌<◌, ◌≤◌, ◌^◌, ◌↔◌, length, IsTrue, IfOk, IsErrOf};
ghost use Rattle.protox_encode.specs.Wire.{message};
ghost use Rattle.protox_encode_linked.specs.Linked.{file_descriptor, file_set};

use crate::option_bytes::OptionBytes;
use crate::wire::{Linked, prepend_nested_at};
use protox_descriptor::descriptor::FileDescriptorProto;
use protox_encode::EncodeError;
use protox_encode::backward::Backward;
use std::alloc::Global;

// Whether there are fewer than 2 GiB of bytes.
fn fits(out: &Backward) -> bool
    ensures { IsTrue result ↔ (length out.now < 2 ^ 31) }
{
    out.len() <= 0x7fff_ffff
}

// The bytes, or `TooLarge` if they are 2 GiB or more.
fn finished(out: Backward) -> Result<Vec<u8>, EncodeError>
    ensures exact { IfOk result (λ bytes. bytes.items ≡ out) }
    ensures fits { IfOk result (λ bytes. length bytes.items < 2 ^ 31) }
    ensures too_large { IsErrOf result EncodeError.TooLarge → 2 ^ 31 ≤ length out }
    ensures not_a_float { IsErrOf result EncodeError.NotAFloat → ⊥ }
{
    if !fits(&out) {
        return Err(EncodeError::TooLarge);
    }
    Ok(out.into_vec())
}

/// The bytes of a linked file. In place of the statements of its options stands what `set` has at
/// the paths of the options messages. The fields stand in the order of their numbers. What `set`
/// has at a path where the file has no options message is left out.
///
/// # Errors
/// `TooLarge` if that takes 2 GiB or more. `OutOfMemory` if memory runs out. It is never
/// `NotAFloat`.
#[tactic(auto, unfolding(crate::specs::Linked::file_descriptor))]
pub fn encode_linked(
    alloc: Global,
    file: &FileDescriptorProto,
    set: &OptionBytes,
) -> Result<Vec<u8>, EncodeError>
    ensures exact { IfOk result (λ bytes. bytes.items
        ≡ message (file_descriptor set.now file.now)) }
    ensures fits { IfOk result (λ bytes. length bytes.items < 2 ^ 31) }
    ensures too_large { IsErrOf result EncodeError.TooLarge
        → 2 ^ 31 ≤ length (message (file_descriptor set.now file.now)) }
    ensures not_a_float { IsErrOf result EncodeError.NotAFloat → ⊥ }
{
    let mut out = Backward::new(alloc);
    let mut path = Vec::new(alloc);
    file.prepend_at(alloc, &mut out, set, &mut path)?;
    finished(out)
}

/// The bytes of a `FileDescriptorSet` that holds only this linked file. The bytes of several such
/// sets, one after another, are the bytes of the set of all their files.
///
/// # Errors
/// As for `encode_linked`.
#[tactic(auto, unfolding(crate::specs::Linked::file_descriptor, crate::specs::Linked::file_set))]
pub fn encode_linked_entry(
    alloc: Global,
    file: &FileDescriptorProto,
    set: &OptionBytes,
) -> Result<Vec<u8>, EncodeError>
    ensures exact { IfOk result (λ bytes. bytes.items
        ≡ message (file_set set.now file.now)) }
    ensures fits { IfOk result (λ bytes. length bytes.items < 2 ^ 31) }
    ensures too_large { IsErrOf result EncodeError.TooLarge
        → 2 ^ 31 ≤ length (message (file_set set.now file.now)) }
    ensures not_a_float { IsErrOf result EncodeError.NotAFloat → ⊥ }
{
    let mut out = Backward::new(alloc);
    let mut path = Vec::new(alloc);
    prepend_nested_at(alloc, &mut out, 1, file, set, &mut path)?;
    finished(out)
}
