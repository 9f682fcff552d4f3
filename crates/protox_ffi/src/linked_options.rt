//! The bytes of a linked set in which options are read, or the records of what is wrong.

ghost use Rattle.std.specs.Prelude.{IfOk, MatchResult};
ghost use Rattle.protox_ffi.specs.Linked.{IsSetFound, given};
ghost use Rattle.protox_ffi.specs.LinkedOptions.{HasNoOptionAnswer, IsOptionFound};
ghost use Rattle.protox_link_bytes.specs.Given.{given as given_texts};
ghost use Rattle.protox_link_options.specs.OptionSets.{AreLinkableWithOptions};

use crate::linked::{Found, Input, texts_of, within};
use crate::outcome::Reason;
use protox_link_options::{LinkBytesFailure, SourceFile, link_with_options};
use std::alloc::Global;

// What is found for texts.
fn found_for(alloc: Global, texts: &[SourceFile<'_>]) -> Result<Found, Reason>
    ensures found { MatchResult result (IsOptionFound (given_texts texts.now))
        (HasNoOptionAnswer (given_texts texts.now)) }
    ensures only { AreLinkableWithOptions (given_texts texts.now) → IfOk result IsSetFound }
{
    match link_with_options(alloc, texts) {
        Ok(bytes) => Ok(Found::Set(bytes)),
        Err(LinkBytesFailure::Refused(records)) => match within(records) {
            Some(records) => Ok(Found::Records(records)),
            None => Err(Reason::TooLarge),
        },
        Err(LinkBytesFailure::TooLarge) => Err(Reason::TooLarge),
        Err(LinkBytesFailure::NotAFloat) => Err(Reason::NotAFloat),
        Err(LinkBytesFailure::OutOfMemory) => Err(Reason::OutOfMemory),
    }
}

/// The bytes of the set of files with what their options set, or the records of what is wrong with
/// them, or why there are none.
pub fn linked_with_options(alloc: Global, files: &[Input<'_>]) -> Result<Found, Reason>
    ensures found { MatchResult result (IsOptionFound (given files.now))
        (HasNoOptionAnswer (given files.now)) }
    ensures only { AreLinkableWithOptions (given files.now) → IfOk result IsSetFound }
{
    match texts_of(alloc, files) {
        Ok(texts) => found_for(alloc, texts.as_slice()),
        Err(reason) => Err(reason),
    }
}
