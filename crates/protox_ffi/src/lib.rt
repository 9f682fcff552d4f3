//! The parser for callers in C and in each language that calls C. `examples/ffi/protox.h` declares
//! the calls, and says what a caller owes.
#![tactic(auto)]

ghost use Rattle.std.specs.Prelude.{◌≡◌};
ghost use Rattle.protox_ffi.specs.Answers.{Answered, AnsweredBy, IsNotRefused};
ghost use Rattle.protox_ffi.specs.Linked.{HasNoAnswer, IsAnswer, given};
ghost use Rattle.protox_ffi.specs.LinkedOptions.{HasNoOptionAnswer, IsOptionAnswer};
ghost use Rattle.protox_ffi.specs.Outcomes.{HasNoDescriptor, HasNoReport, IsDescriptor, IsReport};
ghost use Rattle.protox_link_bytes.specs.Outcomes.{AreLinkable};
ghost use Rattle.protox_link_options.specs.OptionSets.{AreLinkableWithOptions};

mod found;
mod linked;
mod linked_options;
mod outcome;

use found::{descriptor, report};
pub use linked::Input;
use linked::{Found, linked as link};
use linked_options::linked_with_options;
use outcome::{deliver, status};
use std::alloc::Global;

/// The version of the calls and of what they write.
#[unsafe(no_mangle)]
pub extern "C" fn protox_version() -> u32
    ensures { result ≡ 1 }
{
    1
}

/// Writes the bytes of a source's descriptor to `out`, and how many there are to `out_len`.
#[unsafe(no_mangle)]
pub extern "C" fn protox_parse_to_descriptor(
    alloc: Global,
    name: &[u8],
    source: &[u8],
    out: &mut [u8],
    out_len: &mut usize,
) -> u32
    ensures { Answered (IsDescriptor name.now source.now) (HasNoDescriptor name.now source.now) 0 out.old out.new out_len.new result }
{
    match descriptor(alloc, name, source) {
        Ok(bytes) => deliver(bytes.as_slice(), 0, out, out_len),
        Err(reason) => {
            *out_len = 0;
            status(reason)
        }
    }
}

/// Writes the records of a source's faults to `out`, and how many bytes they take to `out_len`.
#[unsafe(no_mangle)]
pub extern "C" fn protox_report(
    alloc: Global,
    name: &[u8],
    source: &[u8],
    out: &mut [u8],
    out_len: &mut usize,
) -> u32
    ensures { Answered (IsReport name.now source.now) (HasNoReport name.now source.now) 1 out.old out.new out_len.new result }
{
    match report(alloc, name, source) {
        Ok(bytes) => deliver(bytes.as_slice(), 1, out, out_len),
        Err(reason) => {
            *out_len = 0;
            status(reason)
        }
    }
}

/// Writes the bytes of the linked set of these files to `out`, or the records of what is wrong with
/// them, and how many bytes there are to `out_len`.
#[unsafe(no_mangle)]
pub extern "C" fn protox_link(
    alloc: Global,
    files: &[Input<'_>],
    out: &mut [u8],
    out_len: &mut usize,
) -> u32
    ensures answered { AnsweredBy (IsAnswer (given files.now)) (HasNoAnswer (given files.now)) out.old out.new out_len.new result }
    // Files that can be linked are not refused.
    ensures only { AreLinkable (given files.now) → IsNotRefused result }
{
    match link(alloc, files) {
        Ok(Found::Set(bytes)) => deliver(bytes.as_slice(), 0, out, out_len),
        Ok(Found::Records(bytes)) => deliver(bytes.as_slice(), 1, out, out_len),
        Err(reason) => {
            *out_len = 0;
            status(reason)
        }
    }
}

/// Writes the bytes of the linked set of these files to `out`, in which what their options set stands
/// in place of their statements, or the records of what is wrong with them, and how many bytes there
/// are to `out_len`.
#[unsafe(no_mangle)]
pub extern "C" fn protox_link_with_options(
    alloc: Global,
    files: &[Input<'_>],
    out: &mut [u8],
    out_len: &mut usize,
) -> u32
    ensures answered { AnsweredBy (IsOptionAnswer (given files.now)) (HasNoOptionAnswer (given files.now)) out.old out.new out_len.new result }
    // Files that can be linked, and whose options are right, are not refused.
    ensures only { AreLinkableWithOptions (given files.now) → IsNotRefused result }
{
    match linked_with_options(alloc, files) {
        Ok(Found::Set(set)) => deliver(set.as_slice(), 0, out, out_len),
        Ok(Found::Records(told)) => deliver(told.as_slice(), 1, out, out_len),
        Err(reason) => {
            *out_len = 0;
            status(reason)
        }
    }
}
