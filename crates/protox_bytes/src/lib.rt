//! From a file's name and text to the bytes of its descriptor.
#![tactic(auto)]

ghost use Rattle.std.specs.Prelude.{◌≡◌, ◌<◌, ◌^◌, IfOk, MatchResult, length};
ghost use Rattle.protox_bytes.specs.Failures.{IfNotParsed, IsParsed, IsWithout};
ghost use Rattle.protox_descriptor.specs.declared.descriptor.FileDescriptorProto as descriptor;
ghost use Rattle.protox_encode.specs.Messages as encoded;
ghost use Rattle.protox_encode.specs.Wire.{message};
ghost use Rattle.protox_parse.specs.Failures.{IsRefusalOf};
ghost use Rattle.protox_parse.specs.Files.{IsTranslation};
ghost use Rattle.protox_parse.specs.FirstFault.{BeginsWithFirst};

use protox_descriptor::descriptor::FileDescriptorProto;
use protox_encode::{EncodeError, encode};
use protox_parse::{ParseFailure, parse};
use std::alloc::Global;

/// Why there are no bytes: the source was not parsed, or its descriptor was not encoded.
#[derive(Drop)]
pub enum BytesFailure {
    NotParsed(ParseFailure),
    NotEncoded(EncodeError),
}

// The bytes of a descriptor. It fails as `parse_to_bytes` does.
fn encoded_file(alloc: Global, file: &FileDescriptorProto) -> Result<Vec<u8>, BytesFailure>
    ensures exact { IfOk result (λ bytes. bytes.items ≡ message (encoded.file_descriptor file.now)) }
    ensures fits { IfOk result (λ bytes. length bytes.items < 2 ^ 31) }
    ensures whole { MatchResult result (λ bytes. bytes.items ≡ message (encoded.file_descriptor file.now)) (IsWithout file.now) }
    ensures parsed { IsParsed result }
{
    match encode(alloc, file) {
        Ok(bytes) => Ok(bytes),
        Err(error) => Err(BytesFailure::NotEncoded(error)),
    }
}

/// Parses a file and encodes its descriptor, with locations, as a serialized `FileDescriptorProto`.
///
/// # Errors
/// `NotParsed` if the source is refused, or memory ran out while it was parsed. `NotEncoded` if the
/// bytes would be 2 GiB or more, if an option needs a float and its value is none, or if memory ran
/// out while encoding.
pub fn parse_to_bytes(alloc: Global, name: &str, source: &str) -> Result<Vec<u8>, BytesFailure>
    // The bytes are the spelling of the translation of the source.
    ensures found { IfOk result (λ bytes. (d : descriptor.FileDescriptorProto) × IsTranslation name.now source.now d
        × (bytes.items ≡ message (encoded.file_descriptor d))) }
    // There are fewer than 2 GiB of them.
    ensures fits { IfOk result (λ bytes. length bytes.items < 2 ^ 31) }
    // Every source that is a file gets them, unless memory runs out or its descriptor has none.
    ensures only { (d : descriptor.FileDescriptorProto) → IsTranslation name.now source.now d
        → MatchResult result (λ bytes. bytes.items ≡ message (encoded.file_descriptor d)) (IsWithout d) }
    // A refusal has the file's name and the source, and its faults lie in the source.
    ensures refused { IfNotParsed result (IsRefusalOf name.now source.now) }
    // The first fault is true of the source, and no fault comes before it.
    ensures first { IfNotParsed result (BeginsWithFirst source.now) }
{
    match parse(alloc, name, source) {
        Ok(file) => encoded_file(alloc, &file),
        Err(failure) => Err(BytesFailure::NotParsed(failure)),
    }
}
