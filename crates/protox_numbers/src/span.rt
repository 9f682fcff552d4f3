//! The numbers of a part, as a span.

ghost use Rattle.std.specs.Prelude.{◌≡◌, ◌≤◌, ◌<◌, ◌^◌};
ghost use Rattle.protox_numbers.specs.Numbers as words;

use protox_descriptor::descriptor::descriptor_proto::{ExtensionRange, ReservedRange};
use protox_descriptor::descriptor::enum_descriptor_proto::EnumReservedRange;
use protox_descriptor::descriptor::{EnumValueDescriptorProto, FieldDescriptorProto};
use protox_spans::Span;

// How many numbers are smaller. An unset number counts as 0.
fn rank(number: Option<i32>) -> u64
    ensures is { result ≡ words.rank number }
    ensures small { result < 2 ^ 32 }
{
    let number = match number {
        Some(number) => number,
        None => 0,
    };
    (number as i64 + 2_147_483_648) as u64
}

/// The span of one number alone. An unset number counts as 0.
pub fn single(number: Option<i32>) -> Span
    ensures is { result ≡ words.single number }
    ensures start { result.start < 2 ^ 32 }
    ensures end { result.end ≤ 2 ^ 32 }
{
    let start = rank(number);
    Span {
        start,
        end: start + 1,
    }
}

fn half_open(start: Option<i32>, end: Option<i32>) -> Span
    ensures is { result ≡ words.half_open start end }
    ensures start { result.start < 2 ^ 32 }
    ensures end { result.end ≤ 2 ^ 32 }
{
    let start = rank(start);
    let end = rank(end);
    Span { start, end }
}

#[tactic(auto, unfolding(crate::specs::Numbers::of_field))]
pub fn of_field(field: &FieldDescriptorProto) -> Span
    ensures { result ≡ words.of_field field.now }
{
    single(field.number)
}

#[tactic(auto, unfolding(crate::specs::Numbers::of_reserved_range))]
pub fn of_reserved_range(range: &ReservedRange) -> Span
    ensures { result ≡ words.of_reserved_range range.now }
{
    half_open(range.start, range.end)
}

/// The numbers of an extension range.
#[tactic(auto, unfolding(crate::specs::Numbers::of_extension_range))]
pub fn of_extension_range(range: &ExtensionRange) -> Span
    ensures is { result ≡ words.of_extension_range range.now }
    ensures start { result.start < 2 ^ 32 }
    ensures end { result.end ≤ 2 ^ 32 }
{
    half_open(range.start, range.end)
}

#[tactic(auto, unfolding(crate::specs::Numbers::of_value))]
pub fn of_value(value: &EnumValueDescriptorProto) -> Span
    ensures { result ≡ words.of_value value.now }
{
    single(value.number)
}

#[tactic(auto, unfolding(crate::specs::Numbers::of_enum_range))]
pub fn of_enum_range(range: &EnumReservedRange) -> Span
    ensures { result ≡ words.of_enum_range range.now }
{
    let start = rank(range.start);
    let last = rank(range.end);
    Span {
        start,
        end: last + 1,
    }
}
