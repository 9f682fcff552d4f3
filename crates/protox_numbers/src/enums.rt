//! Numbers and ranges of an enum that clash. Values with equal numbers are not among them: whether
//! these are allowed is said by an option.

ghost use Rattle.std.specs.Prelude.{◌≡◌, IfOk};
ghost use Rattle.protox_numbers.specs.Enums as words;

use crate::clash::{Clash, with_earlier, with_first};
use crate::span::{of_enum_range, of_value};
use protox_descriptor::descriptor::EnumDescriptorProto;
use protox_spans::{Span, first_met};
use std::alloc::{AllocError, Global};

fn value_spans(alloc: Global, of: &EnumDescriptorProto) -> Result<Vec<Span>, AllocError>
    ensures { IfOk result (λ made. made.items ≡ words.value_spans of.now) }
{
    let mut made = Vec::new(alloc);
    let values = of.value.as_slice();
    for value in values {
        made.push(of_value(value))?;
    }
    Ok(made)
}

fn range_spans(alloc: Global, of: &EnumDescriptorProto) -> Result<Vec<Span>, AllocError>
    ensures { IfOk result (λ made. made.items ≡ words.range_spans of.now) }
{
    of.reserved_range
        .iter()
        .map(|range| of_enum_range(range))
        .collect(alloc)
}

/// The values whose number is reserved, in order, each with the first reserved range that has the
/// number.
///
/// # Errors
/// `AllocError` where memory runs out.
pub fn values_in_reserved_ranges(
    alloc: Global,
    of: &EnumDescriptorProto,
) -> Result<Vec<Clash>, AllocError>
    ensures { IfOk result (λ made. made.items ≡ words.values_in_reserved_ranges of.now) }
{
    if of.reserved_range.is_empty() {
        return Ok(Vec::new(alloc));
    }
    let values = value_spans(alloc, of)?;
    let ranges = range_spans(alloc, of)?;
    let met = first_met(alloc, ranges.as_slice(), values.as_slice())?;
    with_first(alloc, met.as_slice())
}

/// The reserved ranges that overlap an earlier one, in order, each with the first that it
/// overlaps.
///
/// # Errors
/// `AllocError` where memory runs out.
pub fn overlapping_enum_ranges(
    alloc: Global,
    of: &EnumDescriptorProto,
) -> Result<Vec<Clash>, AllocError>
    ensures { IfOk result (λ made. made.items ≡ words.overlapping_enum_ranges of.now) }
{
    if of.reserved_range.is_empty() {
        return Ok(Vec::new(alloc));
    }
    let ranges = range_spans(alloc, of)?;
    let met = first_met(alloc, ranges.as_slice(), ranges.as_slice())?;
    with_earlier(alloc, met.as_slice())
}

/// Whether the first value has the number 0, as proto3 asks. An unset number counts as 0. False if
/// there is no value.
pub fn begins_with_zero(of: &EnumDescriptorProto) -> bool
    ensures { result ≡ words.begins_with_zero of.now }
{
    match of.value.get(0) {
        None => false,
        Some(value) => match value.number {
            None => true,
            Some(number) => number == 0,
        },
    }
}
