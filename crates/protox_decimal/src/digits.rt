//! The decimal digits of a quotient `over` / `under`.

ghost use Rattle.std.specs.Prelude.{◌≡◌, ◌+◌, ◌-◌, ◌*◌, ◌^◌, ◌<◌, ◌≤◌};
ghost use Rattle.std.specs.Float.Ieee.Nearest.{closest};
ghost use Rattle.protox_decimal.specs.inner.Limbs.{room};

use crate::big::Big;
use std::cmp::Ordering;

// How often the divisor goes into the number. The rest is left.
fn digit(over: &mut Big, under: &Big) -> u64
    requires positive { 0 < under.now }
    requires small { over.old < 10 * under.now }
    ensures parts { over.old ≡ result * under.now + over.new }
    ensures rest { over.new < under.now }
    ensures one { result < 10 }
{
    let mut count = 0;
    while !over.is_below(under) {
        over.subtract(under);
        count += 1;
    }
    count
}

// The first digits of the quotient, as one number. The rest is left.
fn digits(over: &mut Big, under: &Big, precision: u32) -> u64
    requires positive { 0 < under.now }
    requires small { over.old < 10 * under.now }
    requires room { 10 * under.now < room }
    requires few { (1 ≤ precision) × (precision ≤ 17) }
    ensures parts { over.old * 10 ^ (precision - 1) ≡ result * under.now + over.new }
    ensures rest { over.new < under.now }
    ensures many { result < 10 ^ precision }
{
    let mut all = digit(over, under);
    for _place in 1..precision {
        over.multiply(10);
        all = all * 10 + digit(over, under);
    }
    all
}

// The quotient, of which the whole part is known, to the nearest. A tie goes to the even number.
fn nearest(whole: u64, rest: &mut Big, under: &Big) -> u64
    requires rest { rest.old < under.now }
    requires room { 2 * under.now < room }
    requires small { whole + 1 < 2 ^ 64 }
    ensures value { result ≡ closest (whole * under.now + rest.old) under.now }
    ensures near { result ≤ whole + 1 }
{
    rest.multiply(2);
    match rest.compare(under) {
        Ordering::Less => whole,
        Ordering::Equal => whole + whole % 2,
        Ordering::Greater => whole + 1,
    }
}

/// The first digits of a quotient from 1 up to 10, as one number, to the nearest.
pub(crate) fn rounded_digits(over: &mut Big, under: &Big, precision: u32) -> u64
    requires positive { 0 < under.now }
    requires small { over.old < 10 * under.now }
    requires room { 10 * under.now < room }
    requires few { (1 ≤ precision) × (precision ≤ 17) }
    ensures value { result ≡ closest (over.old * 10 ^ (precision - 1)) under.now }
    ensures many { result ≤ 10 ^ precision }
{
    let whole = digits(over, under, precision);
    nearest(whole, over, under)
}
