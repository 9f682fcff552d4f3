//! The bytes of a linked set, or the records of what is wrong with files.

ghost use Rattle.std.specs.Prelude.{◌≡◌, ◌≤◌, ◌<◌, ◌^◌, length, IfOk, MatchOption, MatchResult};
ghost use Rattle.protox_ffi.specs.Linked.{HasNoAnswer, HasNoTexts, IsFound, IsNoText, IsSetFound, given, given_input};
ghost use Rattle.protox_link_bytes.specs.Given.{given as given_texts, given_file};
ghost use Rattle.protox_link_bytes.specs.Outcomes.{AreLinkable};

use crate::outcome::Reason;
use protox_link_bytes::{LinkBytesFailure, SourceFile, link_to_bytes};
use std::alloc::Global;

/// A file as a C caller gives it. `struct protox_file` has the same layout.
#[repr(C)]
pub struct Input<'a> {
    /// The name under which other files import it.
    pub name: &'a [u8],
    /// Its source.
    pub source: &'a [u8],
}

/// What is found for files.
#[derive(Drop)]
pub enum Found {
    /// The bytes of a set.
    Set(Vec<u8>),
    /// The records of what is wrong.
    Records(Vec<u8>),
}

// A file as the library takes it. None if its name or its source is not UTF-8.
fn text_of<'a>(file: &Input<'a>) -> Option<SourceFile<'a>>
    ensures { MatchOption result (IsNoText (given_input file.now)) (λ text. given_file text ≡ given_input file.now) }
{
    let Ok(name) = str::from_utf8(file.name) else {
        return None;
    };
    let Ok(source) = str::from_utf8(file.source) else {
        return None;
    };
    Some(SourceFile { name, source })
}

/// The files as the library takes them, or why they aren't taken.
pub(crate) fn texts_of<'a>(
    alloc: Global,
    files: &[Input<'a>],
) -> Result<Vec<SourceFile<'a>>, Reason>
    ensures { MatchResult result (λ texts. given_texts texts.items ≡ given files.now) (HasNoTexts (given files.now)) }
{
    let mut texts = Vec::new(alloc);
    for file in files {
        let Some(text) = text_of(file) else {
            return Err(Reason::NotUtf8);
        };
        let Ok(()) = texts.push(text) else {
            return Err(Reason::OutOfMemory);
        };
    }
    Ok(texts)
}

/// The bytes, if there are fewer than 2 GiB of them.
pub(crate) fn within(bytes: Vec<u8>) -> Option<Vec<u8>>
    ensures { MatchOption result (2 ^ 31 ≤ length bytes.items) (λ same. same.items ≡ bytes.items) }
{
    if bytes.len() < 0x8000_0000 {
        Some(bytes)
    } else {
        None
    }
}

// What is found for texts.
fn found_for(alloc: Global, texts: &[SourceFile<'_>]) -> Result<Found, Reason>
    ensures found { MatchResult result (IsFound (given_texts texts.now)) (HasNoAnswer (given_texts texts.now)) }
    ensures only { AreLinkable (given_texts texts.now) → IfOk result IsSetFound }
{
    match link_to_bytes(alloc, texts) {
        Ok(bytes) => Ok(Found::Set(bytes)),
        Err(LinkBytesFailure::Refused(records)) => match within(records) {
            Some(records) => Ok(Found::Records(records)),
            None => Err(Reason::TooLarge),
        },
        Err(LinkBytesFailure::TooLarge) => Err(Reason::TooLarge),
        Err(LinkBytesFailure::NotAFloat) => Err(Reason::NotAFloat),
        Err(LinkBytesFailure::OutOfMemory) => Err(Reason::OutOfMemory),
    }
}

/// The bytes of the set of files, or the records of what is wrong with them, or why there are none.
pub fn linked(alloc: Global, files: &[Input<'_>]) -> Result<Found, Reason>
    ensures found { MatchResult result (IsFound (given files.now)) (HasNoAnswer (given files.now)) }
    ensures only { AreLinkable (given files.now) → IfOk result IsSetFound }
{
    match texts_of(alloc, files) {
        Ok(texts) => found_for(alloc, texts.as_slice()),
        Err(reason) => Err(reason),
    }
}
