//! What a field or a range may not be, whatever stands beside it.

ghost use Rattle.std.specs.Prelude.{◌≡◌};
ghost use Rattle.protox_numbers.specs.Parts as words;

use protox_descriptor::descriptor::FieldDescriptorProto;
use protox_descriptor::descriptor::descriptor_proto::{ExtensionRange, ReservedRange};
use protox_descriptor::descriptor::enum_descriptor_proto::EnumReservedRange;

// An unset number counts as 0.
fn or_zero(number: Option<i32>) -> i32
    ensures { result ≡ words.or_zero number }
{
    match number {
        Some(number) => number,
        None => 0,
    }
}

/// Whether the field has a number from 19000 to 19999. These are reserved for the implementation
/// of protocol buffers.
pub fn is_for_implementation(field: &FieldDescriptorProto) -> bool
    ensures { result ≡ words.is_for_implementation field.now }
{
    let number = or_zero(field.number);
    19000 <= number && number <= 19999
}

/// Whether the range of a message has no number: its end, which isn't in it, is at most its start.
pub fn is_empty_reserved_range(range: &ReservedRange) -> bool
    ensures { result ≡ words.is_empty_reserved_range range.now }
{
    or_zero(range.end) <= or_zero(range.start)
}

/// Whether the range has no number: its end, which isn't in it, is at most its start.
pub fn is_empty_extension_range(range: &ExtensionRange) -> bool
    ensures { result ≡ words.is_empty_extension_range range.now }
{
    or_zero(range.end) <= or_zero(range.start)
}

/// Whether the range of an enum has no number: its end, which is its last number, is below its
/// start.
pub fn is_backward_enum_range(range: &EnumReservedRange) -> bool
    ensures { result ≡ words.is_backward_enum_range range.now }
{
    or_zero(range.end) < or_zero(range.start)
}
