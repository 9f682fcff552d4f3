//! The bytes of a descriptor, and the records of faults, or why there are none.

ghost use Rattle.std.specs.Prelude.{◌≡◌, ◌≤◌, ℕ, List, length, MatchResult};
ghost use Rattle.protox_ffi.specs.Outcomes.{HasNoDescriptor, HasNoReport, IsDescriptor, IsReport, reason};
ghost use Rattle.protox_records.specs.Records as spelled;

use crate::outcome::Reason;
use protox_bytes::{BytesFailure, parse_to_bytes};
use protox_encode::EncodeError;
use protox_parse::{ParseError, ParseFailure, parse};
use protox_records::records;
use std::alloc::Global;

// Why a source has no bytes of a descriptor.
fn reason_of(failure: &BytesFailure) -> Reason
    ensures { result ≡ reason failure.now }
{
    match failure {
        BytesFailure::NotParsed(ParseFailure::Refused(_)) => Reason::Refused,
        BytesFailure::NotParsed(ParseFailure::OutOfMemory) => Reason::OutOfMemory,
        BytesFailure::NotEncoded(EncodeError::TooLarge) => Reason::TooLarge,
        BytesFailure::NotEncoded(EncodeError::NotAFloat) => Reason::NotAFloat,
        BytesFailure::NotEncoded(EncodeError::OutOfMemory) => Reason::OutOfMemory,
    }
}

// The bytes of the descriptor of a text.
fn descriptor_of_text(alloc: Global, name: &str, source: &str) -> Result<Vec<u8>, Reason>
    ensures { MatchResult result (λ bytes. IsDescriptor name.now source.now bytes.items) (HasNoDescriptor name.now source.now) }
{
    match parse_to_bytes(alloc, name, source) {
        Ok(bytes) => Ok(bytes),
        Err(failure) => Err(reason_of(&failure)),
    }
}

/// The bytes of a descriptor, or why there are none.
pub fn descriptor(alloc: Global, name: &[u8], source: &[u8]) -> Result<Vec<u8>, Reason>
    ensures { MatchResult result (λ bytes. IsDescriptor name.now source.now bytes.items) (HasNoDescriptor name.now source.now) }
{
    let Ok(name_text) = str::from_utf8(name) else {
        return Err(Reason::NotUtf8);
    };
    let Ok(source_text) = str::from_utf8(source) else {
        return Err(Reason::NotUtf8);
    };
    descriptor_of_text(alloc, name_text, source_text)
}

// The records of a refusal's faults, or that there are too many, or no memory.
fn records_of(alloc: Global, error: &ParseError) -> Result<Vec<u8>, Reason>
    requires { length error.now.source ≤ 2147483647 }
    ensures { (name source : List ℕ)
        → ((bytes : List ℕ) → bytes ≡ spelled.records error.now.source error.now.errors → IsReport name source bytes)
        → MatchResult result (λ bytes. IsReport name source bytes.items) (HasNoReport name source) }
{
    match records(alloc, error.source(), error.errors()) {
        Ok(bytes) => {
            if bytes.len() < 0x8000_0000 {
                Ok(bytes)
            } else {
                Err(Reason::TooLarge)
            }
        }
        Err(_) => Err(Reason::OutOfMemory),
    }
}

// The records of a text's faults.
fn report_of_text(alloc: Global, name: &str, source: &str) -> Result<Vec<u8>, Reason>
    ensures { MatchResult result (λ bytes. IsReport name.now source.now bytes.items) (HasNoReport name.now source.now) }
{
    match parse(alloc, name, source) {
        Ok(_) => Err(Reason::Accepted),
        Err(ParseFailure::Refused(error)) => records_of(alloc, &error),
        Err(ParseFailure::OutOfMemory) => Err(Reason::OutOfMemory),
    }
}

/// The records of a source's faults, or why there are none.
pub fn report(alloc: Global, name: &[u8], source: &[u8]) -> Result<Vec<u8>, Reason>
    ensures { MatchResult result (λ bytes. IsReport name.now source.now bytes.items) (HasNoReport name.now source.now) }
{
    let Ok(name_text) = str::from_utf8(name) else {
        return Err(Reason::NotUtf8);
    };
    let Ok(source_text) = str::from_utf8(source) else {
        return Err(Reason::NotUtf8);
    };
    report_of_text(alloc, name_text, source_text)
}
