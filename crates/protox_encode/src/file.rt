ghost use Rattle.std.specs.Prelude.{◌≡◌, ◌<◌, ◌≤◌, ◌^◌, ◌↔◌, [], ◌∷◌, length, true, false, IsTrue, IfOk, OnOk, OnErr, IsErrOf};
ghost use Rattle.std.specs.List.{list_all};
ghost use Rattle.protox_encode.specs.Floats.{has_floats};
ghost use Rattle.protox_encode.specs.Messages.{file_descriptor, file_set};
ghost use Rattle.protox_encode.specs.Pooled.{with_pool};
ghost use Rattle.protox_encode.specs.Wire.{message};

use crate::backward::Backward;
use crate::fault::EncodeError;
use crate::floats::HasFloats;
use crate::pooled::FileWithPool;
use crate::wire::{Message, prepend_files, prepend_nested};
use protox_descriptor::descriptor::FileDescriptorProto;
use protox_pool::LocationPool;
use std::alloc::{AllocError, Global};

// Whether there are fewer than 2 GiB of bytes.
fn fits(out: &Backward) -> bool
    ensures { IsTrue result ↔ (length out.now < 2 ^ 31) }
{
    out.len() <= 0x7fff_ffff
}

// The bytes, or `TooLarge` if they are 2 GiB or more.
fn finished(out: Backward) -> Result<Vec<u8>, EncodeError>
    ensures exact { IfOk result (λ bytes. bytes.items ≡ out) }
    ensures fits { IfOk result (λ bytes. length bytes.items < 2 ^ 31) }
    ensures too_large { IsErrOf result EncodeError.TooLarge → 2 ^ 31 ≤ length out }
    ensures floats { IsErrOf result EncodeError.NotAFloat → false ≡ true }
{
    if !fits(&out) {
        return Err(EncodeError::TooLarge);
    }
    Ok(out.into_vec())
}

/// The bytes of the file. Its fields stand in the order of their numbers. The same file always
/// gives the same bytes.
///
/// # Errors
/// `TooLarge` if that takes 2 GiB or more. `NotAFloat` if some `double_value` is not the text of a
/// float. `OutOfMemory` if memory runs out.
pub fn encode(alloc: Global, file: &FileDescriptorProto) -> Result<Vec<u8>, EncodeError>
    ensures exact { IfOk result (λ bytes. bytes.items ≡ message (file_descriptor file.now)) }
    ensures fits { IfOk result (λ bytes. length bytes.items < 2 ^ 31) }
    ensures floats { IfOk result (λ _. has_floats file.now ≡ true) }
    ensures too_large { IsErrOf result EncodeError.TooLarge → 2 ^ 31 ≤ length (message (file_descriptor file.now)) }
    ensures not_a_float { IsErrOf result EncodeError.NotAFloat → has_floats file.now ≡ false }
{
    if !file.has_floats() {
        return Err(EncodeError::NotAFloat);
    }
    let mut out = Backward::new(alloc);
    file.prepend_to(alloc, &mut out)?;
    finished(out)
}

/// The bytes of a `FileDescriptorSet` that holds only this file. The bytes of several such sets,
/// one after another, are the bytes of the set of all their files.
///
/// # Errors
/// As for `encode`.
#[tactic(auto, unfolding(crate::specs::Messages::file_set))]
pub fn encode_entry(alloc: Global, file: &FileDescriptorProto) -> Result<Vec<u8>, EncodeError>
    ensures exact { IfOk result (λ bytes. bytes.items ≡ message (file_set (file.now ∷ []))) }
    ensures fits { IfOk result (λ bytes. length bytes.items < 2 ^ 31) }
    ensures floats { IfOk result (λ _. has_floats file.now ≡ true) }
    ensures too_large { IsErrOf result EncodeError.TooLarge → 2 ^ 31 ≤ length (message (file_set (file.now ∷ []))) }
    ensures not_a_float { IsErrOf result EncodeError.NotAFloat → has_floats file.now ≡ false }
{
    if !file.has_floats() {
        return Err(EncodeError::NotAFloat);
    }
    let mut out = Backward::new(alloc);
    prepend_nested(alloc, &mut out, 1, Some(file))?;
    finished(out)
}

/// The bytes of the file with the locations of a pool in place of its own `source_code_info`.
///
/// # Errors
/// As for `encode`.
#[tactic(auto, using(crate::proofs::PooledLocations::pooled_floats))]
pub fn encode_pooled(
    alloc: Global,
    file: &FileDescriptorProto,
    locations: &LocationPool,
) -> Result<Vec<u8>, EncodeError>
    ensures exact { IfOk result (λ bytes. bytes.items ≡ message (file_descriptor (with_pool file.now locations.now))) }
    ensures fits { IfOk result (λ bytes. length bytes.items < 2 ^ 31) }
    ensures floats { IfOk result (λ _. has_floats (with_pool file.now locations.now) ≡ true) }
    ensures too_large { IsErrOf result EncodeError.TooLarge → 2 ^ 31 ≤ length (message (file_descriptor (with_pool file.now locations.now))) }
    ensures not_a_float { IsErrOf result EncodeError.NotAFloat → has_floats (with_pool file.now locations.now) ≡ false }
{
    if !file.has_floats() {
        return Err(EncodeError::NotAFloat);
    }
    let mut out = Backward::new(alloc);
    FileWithPool { file, locations }.prepend_to(alloc, &mut out)?;
    finished(out)
}

/// The bytes of a `FileDescriptorSet` that holds only this file, with the locations of a pool in
/// place of its own `source_code_info`.
///
/// # Errors
/// As for `encode`.
#[tactic(auto, unfolding(crate::specs::Messages::file_set), using(crate::proofs::PooledLocations::pooled_floats))]
pub fn encode_pooled_entry(
    alloc: Global,
    file: &FileDescriptorProto,
    locations: &LocationPool,
) -> Result<Vec<u8>, EncodeError>
    ensures exact { IfOk result (λ bytes. bytes.items ≡ message (file_set (with_pool file.now locations.now ∷ []))) }
    ensures fits { IfOk result (λ bytes. length bytes.items < 2 ^ 31) }
    ensures floats { IfOk result (λ _. has_floats (with_pool file.now locations.now) ≡ true) }
    ensures too_large { IsErrOf result EncodeError.TooLarge → 2 ^ 31 ≤ length (message (file_set (with_pool file.now locations.now ∷ []))) }
    ensures not_a_float { IsErrOf result EncodeError.NotAFloat → has_floats (with_pool file.now locations.now) ≡ false }
{
    if !file.has_floats() {
        return Err(EncodeError::NotAFloat);
    }
    let mut out = Backward::new(alloc);
    prepend_nested(alloc, &mut out, 1, Some(&FileWithPool { file, locations }))?;
    finished(out)
}

// Whether each `double_value` in the files is the text of a float.
fn files_have_floats(files: &[FileDescriptorProto]) -> bool
    ensures { result ≡ list_all has_floats files.now }
{
    files.iter().all(|file| file.has_floats())
}

/// The bytes of a `FileDescriptorSet` of these files, in order.
///
/// # Errors
/// As for `encode`, for the whole set.
pub fn encode_set(alloc: Global, files: &[FileDescriptorProto]) -> Result<Vec<u8>, EncodeError>
    ensures exact { IfOk result (λ bytes. bytes.items ≡ message (file_set files.now)) }
    ensures fits { IfOk result (λ bytes. length bytes.items < 2 ^ 31) }
    ensures floats { IfOk result (λ _. list_all has_floats files.now ≡ true) }
    ensures too_large { IsErrOf result EncodeError.TooLarge → 2 ^ 31 ≤ length (message (file_set files.now)) }
    ensures not_a_float { IsErrOf result EncodeError.NotAFloat → list_all has_floats files.now ≡ false }
{
    if !files_have_floats(files) {
        return Err(EncodeError::NotAFloat);
    }
    let mut out = Backward::new(alloc);
    prepend_files(alloc, &mut out, files)?;
    finished(out)
}

/// Writes the bytes of the file into a buffer of the caller's. What the buffer holds is dropped,
/// but its memory is used again. `as_slice` then gives the bytes without a copy.
///
/// # Errors
/// As for `encode`. The buffer is empty then.
pub fn encode_over(
    alloc: Global,
    file: &FileDescriptorProto,
    out: &mut Backward,
) -> Result<(), EncodeError>
    ensures exact { OnOk result (out.new ≡ message (file_descriptor file.now)) }
    ensures fits { OnOk result (length out.new < 2 ^ 31) }
    ensures floats { OnOk result (has_floats file.now ≡ true) }
    ensures empty { OnErr result (out.new ≡ []) }
    ensures too_large { IsErrOf result EncodeError.TooLarge → 2 ^ 31 ≤ length (message (file_descriptor file.now)) }
    ensures not_a_float { IsErrOf result EncodeError.NotAFloat → has_floats file.now ≡ false }
{
    out.clear();
    if !file.has_floats() {
        return Err(EncodeError::NotAFloat);
    }
    if let Err(AllocError) = file.prepend_to(alloc, out) {
        out.clear();
        return Err(EncodeError::OutOfMemory);
    }
    if !fits(out) {
        out.clear();
        return Err(EncodeError::TooLarge);
    }
    Ok(())
}
