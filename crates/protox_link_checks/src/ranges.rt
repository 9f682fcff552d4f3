//! The extension ranges of messages, by the numbers that these have in a table.

ghost use Rattle.std.specs.Prelude.{◌≡◌, ◌≤◌, ◌++◌, [], false, ℕ, List, map, All, IfOk, OnOk};
ghost use Rattle.std.specs.List.{list_any};
ghost use Rattle.std.specs.Option.{option_copied};
ghost use Rattle.protox_descriptor.specs.declared.descriptor.FileDescriptorProto.{FileDescriptorProto};
ghost use Rattle.protox_link_checks.specs.Extensions as words;
ghost use Rattle.protox_link_checks.specs.Ranges.{AreRangesOf, IsSmall, moved};
ghost use Rattle.protox_numbers.specs.Message.{extension_spans};
ghost use Rattle.protox_numbers.specs.Numbers as numbers;
ghost use Rattle.protox_spans.specs.Spans.{meets};
ghost use Rattle.protox_spans.specs.declared.span.Span.{Span};
ghost use Rattle.protox_symbols.specs.Symbols.{Table};

use crate::bare::may_have_ranges;
use protox_descriptor::descriptor::{DescriptorProto, FileDescriptorProto};
use protox_descriptor::tag::{file, message};
use protox_numbers::{of_extension_range, single};
use protox_spans::{Span, SpanSet};
use protox_symbols::Symbols;
use std::alloc::{AllocError, Global};

/// The extension ranges of all messages of a list of files, by the numbers that the messages have in
/// their table.
#[derive(Drop)]
pub struct Ranges {
    spans: SpanSet,
}

// The part with an index of a path, if there is one.
fn part_at<T>(parts: &[T], index: i32) -> Option<&T>
    ensures { option_copied result ≡ words.part_at parts.now index }
{
    if index < 0 {
        return None;
    }
    parts.get(index as usize)
}

// The message to which the rest of a path leads from a message: itself, or one inside it.
fn message_in<'a>(from: &'a DescriptorProto, path: &[i32]) -> Option<&'a DescriptorProto>
    ensures { option_copied result ≡ words.message_in from.now path.now }
{
    match path {
        [] => Some(from),
        [tag, index, rest @ ..] if *tag == message::NESTED_TYPE => {
            message_in(part_at(from.nested_type.as_slice(), *index)?, rest)
        }
        _ => None,
    }
}

// The message to which a path leads from a file.
fn message_at<'a>(from: &'a FileDescriptorProto, path: &[i32]) -> Option<&'a DescriptorProto>
    ensures { option_copied result ≡ words.message_at from.now path.now }
{
    let [tag, index, rest @ ..] = path else {
        return None;
    };
    if *tag != file::MESSAGE_TYPE {
        return None;
    }
    message_in(part_at(from.message_type.as_slice(), *index)?, rest)
}

// The message that has a number in the table.
fn message_numbered<'a>(
    files: &'a [FileDescriptorProto],
    symbols: &Symbols,
    number: usize,
) -> Option<&'a DescriptorProto>
    ensures { option_copied result ≡ words.message_numbered files.now symbols.now number }
{
    let thing = symbols.thing(number)?;
    let file = files.get(thing.file)?;
    message_at(file, thing.path.as_slice())
}

/// A span of numbers of 32 bits, moved to where those of the message with a number are kept.
pub(crate) fn moved(number: usize, span: Span) -> Span
    requires number { number ≤ 2147483647 }
    requires start { span.start ≤ 4294967296 }
    requires end { span.end ≤ 4294967296 }
    ensures { result ≡ moved number span }
{
    let from = number as u64 * 4_294_967_296;
    Span {
        start: from + span.start,
        end: from + span.end,
    }
}

// Adds the extension ranges of a message that has a number.
fn push_ranges(
    alloc: Global,
    number: usize,
    of: &DescriptorProto,
    spans: &mut Vec<Span>,
) -> Result<(), AllocError>
    requires { number ≤ 2147483647 }
    ensures added { OnOk result (spans.new.items
        ≡ spans.old.items ++ map (moved number) (extension_spans of.now)) }
    ensures small { OnOk result (All IsSmall (extension_spans of.now)) }
{
    let ranges = of.extension_range.as_slice();
    for range in ranges {
        spans.push(moved(number, of_extension_range(range)))?;
    }
    Ok(())
}

// Adds those of what has a number in the table, if that is a message.
fn push_numbered(
    alloc: Global,
    files: &[FileDescriptorProto],
    symbols: &Symbols,
    number: usize,
    spans: &mut Vec<Span>,
) -> Result<(), AllocError>
    ensures added { OnOk result (spans.new.items ≡ spans.old.items
        ++ map (moved number) (words.ranges_numbered files.now symbols.now number)) }
    ensures small { OnOk result (All IsSmall (words.ranges_numbered files.now symbols.now number)) }
{
    let Some(of) = message_numbered(files, symbols, number) else {
        return Ok(());
    };
    if number > 2147483647 {
        return Err(AllocError);
    }
    push_ranges(alloc, number, of, spans)
}

// Whether any message of the files has an extension range.
fn any_ranges(files: &[FileDescriptorProto]) -> bool
    ensures { result ≡ false → (table : Table) (n : ℕ)
        → words.ranges_numbered files.now table n ≡ [] }
{
    for file in files {
        if may_have_ranges(file.message_type.as_slice()) {
            return true;
        }
    }
    false
}

// All extension ranges, each moved to where those of its message are kept.
fn spans_of(
    alloc: Global,
    symbols: &Symbols,
    files: &[FileDescriptorProto],
) -> Result<Vec<Span>, AllocError>
    ensures { IfOk result (λ made. (n : ℕ) (s : Span) → IsSmall s
        → list_any (meets (moved n s)) made.items
        ≡ list_any (meets s) (words.ranges_numbered files.now symbols.now n)) }
{
    let mut made = Vec::new(alloc);
    if !any_ranges(files) {
        return Ok(made);
    }
    for number in 0..symbols.len() {
        push_numbered(alloc, files, symbols, number, &mut made)?;
    }
    Ok(made)
}

impl Ranges {
    /// Those of these files. `symbols` is their table.
    ///
    /// # Errors
    /// `AllocError` where memory runs out, or where the table has more than 2,147,483,648 names.
    pub fn of(
        alloc: Global,
        symbols: &Symbols,
        files: &[FileDescriptorProto],
    ) -> Result<Ranges, AllocError>
        ensures { IfOk result (AreRangesOf files.now symbols.now) }
    {
        let spans = spans_of(alloc, symbols, files)?;
        let spans = SpanSet::of(alloc, spans)?;
        Ok(Ranges { spans })
    }

    /// Whether a range of the message with a number has the number of a field.
    pub(crate) fn has(&self, message: usize, number: Option<i32>) -> bool
        requires { message ≤ 2147483647 }
        ensures { (files : List FileDescriptorProto) (table : Table)
            → AreRangesOf files table self.now → result
            ≡ list_any (meets (numbers.single number)) (words.ranges_numbered files table message) }
    {
        self.spans.meets(moved(message, single(number)))
    }
}
