//! The decimal exponent of a quotient `over` / `under`.

ghost use Rattle.std.specs.Prelude.{◌≡◌, ◌+◌, ◌*◌, ◌^◌, ◌<◌, ◌≤◌, ◌⊎◌, pos, negsuc, ◌≤ℤ◌, IsTrue};
ghost use Rattle.protox_decimal.specs.inner.Limbs.{room};
ghost use Rattle.protox_decimal.specs.Rounded.{exponent_of, is_exponent, tens, tenths};

use crate::big::Big;

// Makes the divisor greater, ten times by ten times, until the quotient is below 1.
fn raise(over: &Big, under: &mut Big) -> u32
    requires positive { 0 < under.old }
    requires small { over.now < under.old * 10 ^ 350 }
    requires room { under.old * 10 ^ 350 * 10 < room }
    ensures power { under.new ≡ under.old * 10 ^ result }
    ensures below { over.now < under.new }
    ensures near { (result ≡ 0) ⊎ (under.new ≤ 10 * over.now) }
    ensures bound { result ≤ 350 }
{
    let mut count = 0;
    while !over.is_below(under) {
        under.multiply(10);
        count += 1;
    }
    count
}

// Makes the number greater, ten times by ten times, until the quotient is 1 or above.
fn lower(over: &mut Big, under: &Big) -> u32
    requires positive { 0 < over.old }
    requires below { over.old < under.now }
    requires large { under.now < over.old * 10 ^ 350 }
    requires room { 10 * under.now < room }
    ensures power { over.new ≡ over.old * 10 ^ result }
    ensures from { under.now ≤ over.new }
    ensures below { over.new < 10 * under.now }
    ensures bound { result ≤ 350 }
{
    let mut count = 0;
    while over.is_below(under) {
        over.multiply(10);
        count += 1;
    }
    count
}

/// Makes the quotient one from 1 up to 10, by powers of ten. Returns the decimal exponent that it
/// had before.
pub(crate) fn scale(over: &mut Big, under: &mut Big) -> i32
    requires positive { (0 < over.old) × (0 < under.old) }
    requires small { over.old < under.old * 10 ^ 350 }
    requires large { under.old < over.old * 10 ^ 350 }
    requires room { under.old * 10 ^ 350 * 10 < room }
    ensures exponent { result ≡ exponent_of over.old under.old }
    ensures found { IsTrue (is_exponent over.old under.old result) }
    ensures same { over.new * (under.old * tens result) ≡ over.old * tenths result * under.new }
    ensures from { under.new ≤ over.new }
    ensures below { over.new < 10 * under.new }
    ensures positive { 0 < under.new }
    ensures bounds { (negsuc 400 ≤ℤ result) × (result ≤ℤ pos 400) }
    ensures room { 10 * under.new < room }
{
    // A quotient that isn't below 1 is made so first, and is then raised by one power of ten.
    let up = raise(over, under);
    let down = lower(over, under);
    up as i32 - down as i32
}
