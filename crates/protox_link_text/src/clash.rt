//! What is told of numbers and ranges that clash.

ghost use Rattle.std.specs.Prelude.{◌≡◌, ◌∷◌, [], slice_get, IfOk, string_bytes};
ghost use Rattle.std.specs.Option.{option_copied};
ghost use Rattle.protox_link_text.specs.Clashes.{clash_in, clash_in_enum, clash_in_message};
ghost use Rattle.protox_link_text.specs.Clashes.{extensions, extensions_reserved, extensions_twice};
ghost use Rattle.protox_link_text.specs.Clashes.{field_name, field_number, half_open, in_extensions};
ghost use Rattle.protox_link_text.specs.Clashes.{in_reserved, or_zero, reserved, reserved_twice};
ghost use Rattle.protox_link_text.specs.Clashes.{reused, value_name, value_number, value_reserved};
ghost use Rattle.protox_link_text.specs.Clashes.{values};
ghost use Rattle.protox_link_text.specs.Places.{at_index, holder_of};

use crate::LinkError;
use crate::lists::{at_index, nth, one, text_of};
use crate::place::{Inside, Place};
use protox_descriptor::descriptor::descriptor_proto::{ExtensionRange, ReservedRange};
use protox_descriptor::descriptor::enum_descriptor_proto::EnumReservedRange;
use protox_descriptor::descriptor::{
    DescriptorProto, EnumDescriptorProto, EnumValueDescriptorProto, FieldDescriptorProto,
};
use protox_descriptor::values::Text;
use protox_link_fault::NumberFault;
use std::alloc::{AllocError, Global};

/// The first and the last number of a range.
#[derive(Clone, Copy)]
pub(crate) struct Stretch {
    pub(crate) first: i64,
    pub(crate) last: i64,
}

// An unset number counts as 0.
fn or_zero(number: Option<i32>) -> i32
    ensures { result ≡ or_zero number }
{
    match number {
        Some(number) => number,
        None => 0,
    }
}

fn half_open(start: Option<i32>, end: Option<i32>) -> Stretch
    ensures { result ≡ half_open start end }
{
    Stretch {
        first: or_zero(start) as i64,
        last: or_zero(end) as i64 - 1,
    }
}

fn reserved(range: Option<&ReservedRange>) -> Stretch
    ensures { result ≡ reserved (option_copied range.entry) }
{
    match range {
        Some(range) => half_open(range.start, range.end),
        None => half_open(None, None),
    }
}

fn extensions(range: Option<&ExtensionRange>) -> Stretch
    ensures { result ≡ extensions (option_copied range.entry) }
{
    match range {
        Some(range) => half_open(range.start, range.end),
        None => half_open(None, None),
    }
}

fn values(range: Option<&EnumReservedRange>) -> Stretch
    ensures { result ≡ values (option_copied range.entry) }
{
    let (first, last) = match range {
        Some(range) => (or_zero(range.start), or_zero(range.end)),
        None => (0, 0),
    };
    Stretch {
        first: first as i64,
        last: last as i64,
    }
}

// The name and the number of a field.
fn told_field(field: Option<&FieldDescriptorProto>) -> (&str, i32)
    ensures name { result.0.now ≡ field_name (option_copied field.entry) }
    ensures number { result.1 ≡ field_number (option_copied field.entry) }
{
    match field {
        Some(field) => (text_of(field.name.as_ref()), or_zero(field.number)),
        None => ("", 0),
    }
}

// The name of a value, and its number.
fn told_value(value: Option<&EnumValueDescriptorProto>) -> (&str, i32)
    ensures name { result.0.now ≡ value_name (option_copied value.entry) }
    ensures number { result.1 ≡ value_number (option_copied value.entry) }
{
    match value {
        Some(value) => (text_of(value.name.as_ref()), or_zero(value.number)),
        None => ("", 0),
    }
}

fn reused(
    alloc: Global,
    message: &str,
    field: Option<&FieldDescriptorProto>,
    earlier: Option<&FieldDescriptorProto>,
) -> Result<LinkError, AllocError>
    ensures { IfOk result (λ error. error
        ≡ reused message.now (option_copied field.entry) (option_copied earlier.entry)) }
{
    let (_, number) = told_field(field);
    let (earlier, _) = told_field(earlier);
    Ok(LinkError::NumberReused {
        number,
        message: Text::copy(alloc, message)?,
        field: Text::copy(alloc, earlier)?,
    })
}

fn in_reserved(alloc: Global, field: Option<&FieldDescriptorProto>) -> Result<LinkError, AllocError>
    ensures { IfOk result (λ error. error ≡ in_reserved (option_copied field.entry)) }
{
    let (name, number) = told_field(field);
    let field = Text::copy(alloc, name)?;
    Ok(LinkError::FieldReserved { field, number })
}

fn in_extensions(
    alloc: Global,
    range: Stretch,
    field: Option<&FieldDescriptorProto>,
) -> Result<LinkError, AllocError>
    ensures { IfOk result (λ error. error ≡ in_extensions range (option_copied field.entry)) }
{
    let (name, number) = told_field(field);
    let field = Text::copy(alloc, name)?;
    Ok(LinkError::ForExtensions {
        first: range.first,
        last: range.last,
        field,
        number,
    })
}

fn reserved_twice(range: Stretch, earlier: Stretch) -> LinkError
    ensures { result ≡ reserved_twice range earlier }
{
    LinkError::ReservedTwice {
        first: range.first,
        last: range.last,
        other_first: earlier.first,
        other_last: earlier.last,
    }
}

fn extensions_twice(range: Stretch, earlier: Stretch) -> LinkError
    ensures { result ≡ extensions_twice range earlier }
{
    LinkError::ExtensionsTwice {
        first: range.first,
        last: range.last,
        other_first: earlier.first,
        other_last: earlier.last,
    }
}

fn extensions_reserved(range: Stretch, other: Stretch) -> LinkError
    ensures { result ≡ extensions_reserved range other }
{
    LinkError::ExtensionsReserved {
        first: range.first,
        last: range.last,
        other_first: other.first,
        other_last: other.last,
    }
}

fn value_reserved(
    alloc: Global,
    value: Option<&EnumValueDescriptorProto>,
) -> Result<LinkError, AllocError>
    ensures { IfOk result (λ error. error ≡ value_reserved (option_copied value.entry)) }
{
    let (name, number) = told_value(value);
    let value = Text::copy(alloc, name)?;
    Ok(LinkError::ValueReserved { value, number })
}

// Two reserved ranges, by their indices.
fn two_reserved(
    alloc: Global,
    gaps: &[ReservedRange],
    n: i32,
    m: usize,
) -> Result<Vec<LinkError>, AllocError>
    ensures { IfOk result (λ errors. errors.items ≡ reserved_twice
        (reserved (at_index gaps.now n)) (reserved (slice_get gaps.now m)) ∷ []) }
{
    let (range, earlier) = (reserved(at_index(gaps, n)), reserved(nth(gaps, m)));
    one(alloc, reserved_twice(range, earlier))
}

// Two extension ranges.
fn two_extensions(
    alloc: Global,
    ranges: &[ExtensionRange],
    n: i32,
    m: usize,
) -> Result<Vec<LinkError>, AllocError>
    ensures { IfOk result (λ errors. errors.items ≡ extensions_twice
        (extensions (at_index ranges.now n)) (extensions (slice_get ranges.now m)) ∷ []) }
{
    let (range, earlier) = (extensions(at_index(ranges, n)), extensions(nth(ranges, m)));
    one(alloc, extensions_twice(range, earlier))
}

// An extension range and a reserved one.
fn extensions_and_reserved(
    alloc: Global,
    ranges: &[ExtensionRange],
    n: i32,
    gaps: &[ReservedRange],
    m: usize,
) -> Result<Vec<LinkError>, AllocError>
    ensures { IfOk result (λ errors. errors.items ≡ extensions_reserved
        (extensions (at_index ranges.now n)) (reserved (slice_get gaps.now m)) ∷ []) }
{
    let (range, other) = (extensions(at_index(ranges, n)), reserved(nth(gaps, m)));
    one(alloc, extensions_reserved(range, other))
}

// Two reserved ranges of an enum.
fn two_of_enum(
    alloc: Global,
    ranges: &[EnumReservedRange],
    n: i32,
    m: usize,
) -> Result<Vec<LinkError>, AllocError>
    ensures { IfOk result (λ errors. errors.items ≡ reserved_twice
        (values (at_index ranges.now n)) (values (slice_get ranges.now m)) ∷ []) }
{
    let (range, earlier) = (values(at_index(ranges, n)), values(nth(ranges, m)));
    one(alloc, reserved_twice(range, earlier))
}

// Two fields of one number.
fn two_fields(
    alloc: Global,
    message: &str,
    fields: &[FieldDescriptorProto],
    n: i32,
    m: usize,
) -> Result<Vec<LinkError>, AllocError>
    ensures { IfOk result (λ errors. errors.items ≡ reused message.now
        (at_index fields.now n) (slice_get fields.now m) ∷ []) }
{
    let error = reused(alloc, message, at_index(fields, n), nth(fields, m))?;
    one(alloc, error)
}

// A field with a reserved number.
fn field_and_reserved(
    alloc: Global,
    fields: &[FieldDescriptorProto],
    n: i32,
) -> Result<Vec<LinkError>, AllocError>
    ensures { IfOk result (λ errors. errors.items ≡ in_reserved (at_index fields.now n) ∷ []) }
{
    let error = in_reserved(alloc, at_index(fields, n))?;
    one(alloc, error)
}

// A field with a number of an extension range.
fn field_and_extensions(
    alloc: Global,
    ranges: &[ExtensionRange],
    m: usize,
    fields: &[FieldDescriptorProto],
    n: i32,
) -> Result<Vec<LinkError>, AllocError>
    ensures { IfOk result (λ errors. errors.items ≡ in_extensions
        (extensions (slice_get ranges.now m)) (at_index fields.now n) ∷ []) }
{
    let error = in_extensions(alloc, extensions(nth(ranges, m)), at_index(fields, n))?;
    one(alloc, error)
}

// What is told of the part with index `n` of a message, which clashes with that with index `m`.
fn clash_in_message(
    alloc: Global,
    scope: &str,
    of: &DescriptorProto,
    n: i32,
    m: usize,
    how: NumberFault,
) -> Result<Vec<LinkError>, AllocError>
    ensures { IfOk result (λ errors. errors.items ≡ clash_in_message scope.now of.now n m how) }
{
    let fields = of.field.as_slice();
    let ranges = of.extension_range.as_slice();
    let gaps = of.reserved_range.as_slice();
    match how {
        NumberFault::Reused => two_fields(alloc, scope, fields, n, m),
        NumberFault::Reserved => field_and_reserved(alloc, fields, n),
        NumberFault::ForExtensions => field_and_extensions(alloc, ranges, m, fields, n),
        NumberFault::ReservedTwice => two_reserved(alloc, gaps, n, m),
        NumberFault::ExtensionsTwice => two_extensions(alloc, ranges, n, m),
        NumberFault::ExtensionsReserved => extensions_and_reserved(alloc, ranges, n, gaps, m),
        NumberFault::ValueReserved | NumberFault::ValuesReservedTwice => Ok(Vec::new(alloc)),
    }
}

// What is told of the part with index `n` of an enum, which clashes with that with index `m`.
fn clash_in_enum(
    alloc: Global,
    of: &EnumDescriptorProto,
    n: i32,
    m: usize,
    how: NumberFault,
) -> Result<Vec<LinkError>, AllocError>
    ensures { IfOk result (λ errors. errors.items ≡ clash_in_enum of.now n m how) }
{
    match how {
        NumberFault::ValueReserved => {
            let error = value_reserved(alloc, at_index(of.value.as_slice(), n))?;
            one(alloc, error)
        }
        NumberFault::ValuesReservedTwice => {
            two_of_enum(alloc, of.reserved_range.as_slice(), n, m)
        }
        _ => Ok(Vec::new(alloc)),
    }
}

/// What is told of the part at a place, which clashes with the one with this index.
pub(crate) fn clash_at(
    alloc: Global,
    place: &Place<'_>,
    with: usize,
    how: NumberFault,
) -> Result<Vec<LinkError>, AllocError>
    ensures { IfOk result (λ errors. errors.items
        ≡ clash_in (string_bytes place.now.scope) (holder_of place.now.inside) place.now.rest.now with how) }
{
    let [_, n, ..] = place.rest else {
        return Ok(Vec::new(alloc));
    };
    let scope = place.scope.as_str();
    match place.inside {
        Inside::Message(message) => clash_in_message(alloc, scope, message, *n, with, how),
        Inside::Enum(of) => clash_in_enum(alloc, of, *n, with, how),
        Inside::File(_) | Inside::Service(_) => Ok(Vec::new(alloc)),
    }
}
