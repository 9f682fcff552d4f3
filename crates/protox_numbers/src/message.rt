//! Numbers and ranges of a message that clash.

ghost use Rattle.std.specs.Prelude.{◌≡◌, IfOk, IsTrue};
ghost use Rattle.protox_numbers.specs.Message as words;
ghost use Rattle.protox_numbers.specs.Rising.{AreRising};

use crate::clash::{Clash, with_earlier, with_first};
use crate::span::{of_extension_range, of_field, of_reserved_range};
use protox_descriptor::descriptor::{DescriptorProto, FieldDescriptorProto};
use protox_spans::{Span, first_met};
use std::alloc::{AllocError, Global};

fn field_spans(alloc: Global, message: &DescriptorProto) -> Result<Vec<Span>, AllocError>
    ensures { IfOk result (λ made. made.items ≡ words.field_spans message.now) }
{
    let mut made = Vec::new(alloc);
    let fields = message.field.as_slice();
    for field in fields {
        made.push(of_field(field))?;
    }
    Ok(made)
}

fn reserved_spans(alloc: Global, message: &DescriptorProto) -> Result<Vec<Span>, AllocError>
    ensures { IfOk result (λ made. made.items ≡ words.reserved_spans message.now) }
{
    message
        .reserved_range
        .iter()
        .map(|range| of_reserved_range(range))
        .collect(alloc)
}

fn extension_spans(alloc: Global, message: &DescriptorProto) -> Result<Vec<Span>, AllocError>
    ensures { IfOk result (λ made. made.items ≡ words.extension_spans message.now) }
{
    let mut made = Vec::new(alloc);
    let ranges = message.extension_range.as_slice();
    for range in ranges {
        made.push(of_extension_range(range))?;
    }
    Ok(made)
}

// Whether the number of each field is greater than those of all before it.
fn are_rising(fields: &[FieldDescriptorProto]) -> bool
    ensures { IsTrue result → AreRising fields.now }
{
    let mut least = 0;
    for field in fields {
        let span = of_field(field);
        if span.start < least {
            return false;
        }
        least = span.end;
    }
    true
}

/// The fields whose number an earlier field has, in order, each with the first field of this
/// number.
///
/// # Errors
/// `AllocError` where memory runs out.
pub fn reused_numbers(alloc: Global, message: &DescriptorProto) -> Result<Vec<Clash>, AllocError>
    ensures { IfOk result (λ made. made.items ≡ words.reused_numbers message.now) }
{
    if are_rising(message.field.as_slice()) {
        return Ok(Vec::new(alloc));
    }
    let fields = field_spans(alloc, message)?;
    let met = first_met(alloc, fields.as_slice(), fields.as_slice())?;
    with_earlier(alloc, met.as_slice())
}

/// The fields whose number is reserved, in order, each with the first reserved range that has the
/// number.
///
/// # Errors
/// `AllocError` where memory runs out.
pub fn fields_in_reserved_ranges(
    alloc: Global,
    message: &DescriptorProto,
) -> Result<Vec<Clash>, AllocError>
    ensures { IfOk result (λ made. made.items ≡ words.fields_in_reserved_ranges message.now) }
{
    if message.reserved_range.is_empty() {
        return Ok(Vec::new(alloc));
    }
    let fields = field_spans(alloc, message)?;
    let reserved = reserved_spans(alloc, message)?;
    let met = first_met(alloc, reserved.as_slice(), fields.as_slice())?;
    with_first(alloc, met.as_slice())
}

/// The fields whose number is left to extensions, in order, each with the first extension range
/// that has the number.
///
/// # Errors
/// `AllocError` where memory runs out.
pub fn fields_in_extension_ranges(
    alloc: Global,
    message: &DescriptorProto,
) -> Result<Vec<Clash>, AllocError>
    ensures { IfOk result (λ made. made.items ≡ words.fields_in_extension_ranges message.now) }
{
    if message.extension_range.is_empty() {
        return Ok(Vec::new(alloc));
    }
    let fields = field_spans(alloc, message)?;
    let extensions = extension_spans(alloc, message)?;
    let met = first_met(alloc, extensions.as_slice(), fields.as_slice())?;
    with_first(alloc, met.as_slice())
}

/// The reserved ranges that overlap an earlier one, in order, each with the first that it
/// overlaps.
///
/// # Errors
/// `AllocError` where memory runs out.
pub fn overlapping_reserved_ranges(
    alloc: Global,
    message: &DescriptorProto,
) -> Result<Vec<Clash>, AllocError>
    ensures { IfOk result (λ made. made.items ≡ words.overlapping_reserved_ranges message.now) }
{
    if message.reserved_range.is_empty() {
        return Ok(Vec::new(alloc));
    }
    let reserved = reserved_spans(alloc, message)?;
    let met = first_met(alloc, reserved.as_slice(), reserved.as_slice())?;
    with_earlier(alloc, met.as_slice())
}

/// The extension ranges that overlap an earlier one, in order, each with the first that it
/// overlaps.
///
/// # Errors
/// `AllocError` where memory runs out.
pub fn overlapping_extension_ranges(
    alloc: Global,
    message: &DescriptorProto,
) -> Result<Vec<Clash>, AllocError>
    ensures { IfOk result (λ made. made.items ≡ words.overlapping_extension_ranges message.now) }
{
    if message.extension_range.is_empty() {
        return Ok(Vec::new(alloc));
    }
    let extensions = extension_spans(alloc, message)?;
    let met = first_met(alloc, extensions.as_slice(), extensions.as_slice())?;
    with_earlier(alloc, met.as_slice())
}

/// The extension ranges that overlap a reserved range, in order, each with the first that it
/// overlaps.
///
/// # Errors
/// `AllocError` where memory runs out.
pub fn extension_ranges_in_reserved(
    alloc: Global,
    message: &DescriptorProto,
) -> Result<Vec<Clash>, AllocError>
    ensures { IfOk result (λ made. made.items ≡ words.extension_ranges_in_reserved message.now) }
{
    if message.reserved_range.is_empty() {
        return Ok(Vec::new(alloc));
    }
    let extensions = extension_spans(alloc, message)?;
    let reserved = reserved_spans(alloc, message)?;
    let met = first_met(alloc, reserved.as_slice(), extensions.as_slice())?;
    with_first(alloc, met.as_slice())
}
