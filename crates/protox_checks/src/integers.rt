//! The ranges of integers that an option's value may have.

ghost use Rattle.std.specs.Prelude.{◌≡◌, ◌++◌, ◌∷◌, [], pos, OnOk};
ghost use Rattle.protox_ast.specs.Values.{any_64, is_in, signed_32, signed_64, unsigned_32, unsigned_64};
ghost use Rattle.protox_checks.specs.Checks.{integer_faults};
ghost use Rattle.protox_checks.specs.ValueFaults.{out_of_range};
ghost use Rattle.protox_checks.specs.inner.Walk.{interval_of};

use crate::found::{Found, copied};
use protox_ast::ast::Int;
use protox_descriptor::values::Text;
use protox_fault::error::ParseErrorKind;
use std::alloc::AllocError;

/// A range of integers, by the type of the option.
#[derive(Clone, Copy)]
pub(crate) enum Integers {
    Signed32,
    Signed64,
    Unsigned32,
    Unsigned64,
    /// Any option that isn't interpreted: a signed integer of 64 bits if it has a sign, otherwise
    /// an unsigned one.
    Any64,
}

fn is_any_64(int: &Int) -> bool
    ensures { result ≡ is_in any_64 int.now }
{
    int.as_u64().is_some() || int.as_i64().is_some()
}

fn is_signed_32(int: &Int) -> bool
    ensures { result ≡ is_in signed_32 int.now }
{
    int.as_i32().is_some()
}

fn is_signed_64(int: &Int) -> bool
    ensures { result ≡ is_in signed_64 int.now }
{
    int.as_i64().is_some()
}

fn is_unsigned_32(int: &Int) -> bool
    ensures { result ≡ is_in unsigned_32 int.now }
{
    int.as_u32().is_some()
}

fn is_unsigned_64(int: &Int) -> bool
    ensures { result ≡ is_in unsigned_64 int.now }
{
    int.as_u64().is_some()
}

impl Integers {
    fn holds(self, int: &Int) -> bool
        ensures { result ≡ is_in (interval_of self) int.now }
    {
        match self {
            Integers::Signed32 => is_signed_32(int),
            Integers::Signed64 => is_signed_64(int),
            Integers::Unsigned32 => is_unsigned_32(int),
            Integers::Unsigned64 => is_unsigned_64(int),
            Integers::Any64 => is_any_64(int),
        }
    }

    fn name(self) -> &'static str
        ensures { result.now ≡ (interval_of self).name }
    {
        match self {
            Integers::Signed32 => "a signed 32-bit integer",
            Integers::Signed64 => "a signed 64-bit integer",
            Integers::Unsigned32 => "an unsigned 32-bit integer",
            Integers::Unsigned64 => "an unsigned 64-bit integer",
            Integers::Any64 => "a 64-bit integer",
        }
    }

    // The least integer of the range.
    fn low(self) -> i64
        ensures { result ≡ (interval_of self).low }
    {
        match self {
            Integers::Signed32 => -2147483648,
            Integers::Signed64 | Integers::Any64 => i64::MIN,
            Integers::Unsigned32 | Integers::Unsigned64 => 0,
        }
    }

    // The greatest integer of the range.
    fn high(self) -> u64
        ensures { pos result ≡ (interval_of self).high }
    {
        match self {
            Integers::Signed32 => 2147483647,
            Integers::Signed64 => 9223372036854775807,
            Integers::Unsigned32 => 4294967295,
            Integers::Unsigned64 | Integers::Any64 => u64::MAX,
        }
    }
}

fn add_out_of_range(integers: Integers, int: &Int, errors: &mut Found) -> Result<(), AllocError>
    ensures { OnOk result (errors.new ≡ errors.old ++ out_of_range (interval_of integers) int.now ∷ []) }
{
    let alloc = errors.alloc();
    let actual = Text::from_string(int.to_string(alloc)?);
    let expected = Text::copy(alloc, integers.name())?;
    let min = Text::from_string(integers.low().to_string(alloc)?);
    let max = Text::from_string(integers.high().to_string(alloc)?);
    errors.add(ParseErrorKind::IntegerValueOutOfRange {
        span: copied(&int.span),
        expected,
        actual,
        min,
        max,
    })
}

/// Checks that an integer lies in the range.
pub(crate) fn check_integer(
    integers: Integers,
    int: &Int,
    errors: &mut Found,
) -> Result<(), AllocError>
    ensures { OnOk result (errors.new ≡ errors.old ++ integer_faults (interval_of integers) int.now) }
{
    if integers.holds(int) {
        return Ok(());
    }
    add_out_of_range(integers, int, errors)
}
