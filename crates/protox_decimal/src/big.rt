//! A natural number of up to 2304 bits.
//!
//! The size of a float, in units of 2 ^ -1074, has at most 2098 bits. A number that is multiplied
//! by ten until it passes another one has at most four bits more than that one.

ghost use Rattle.std.specs.Prelude.{◌≡◌, ℕ, ◌+◌, ◌*◌, ◌^◌, ◌<◌, ◌≤◌, nat_lt};
ghost use Rattle.std.specs.Ordering.{nat_cmp};
ghost use Rattle.protox_decimal.specs.inner.Limbs.{room, value};

use std::cmp::Ordering;
use std::marker::Model;

const LIMBS: usize = 72;

// A limb is below this number.
const BASE: u64 = 1 << 32;

/// A natural number, as limbs of 32 bits. The lowest one is the first.
#[derive(Drop)]
pub(crate) struct Big {
    limbs: [u32; LIMBS],
}

impl Model for Big {
    ghost Value = { ℕ };

    ghost view = { λ big. value big.limbs };
}

impl Big {
    /// A number of 64 bits.
    pub(crate) fn new(n: u64) -> Big
        ensures { result ≡ n }
    {
        let mut limbs = [0; LIMBS];
        limbs[0] = (n % BASE) as u32;
        limbs[1] = (n / BASE) as u32;
        Big { limbs }
    }

    /// Multiplies by a number that a limb holds.
    pub(crate) fn multiply(&mut self, by: u32)
        requires { self.old * by < room }
        ensures { self.new ≡ self.old * by }
    {
        let mut carry = 0;
        for i in 0..LIMBS {
            let product = u64::from(self.limbs[i]) * u64::from(by) + carry;
            self.limbs[i] = (product % BASE) as u32;
            carry = product / BASE;
        }
    }

    // Multiplies by a power of 2 ^ 32. The limbs that come round from the top are zeros.
    fn move_up(&mut self, places: usize)
        requires places { places ≤ LIMBS }
        requires room { self.old * (2 ^ 32) ^ places < room }
        ensures { self.new ≡ self.old * (2 ^ 32) ^ places }
    {
        self.limbs.rotate_right(places);
    }

    /// Multiplies by a power of two.
    pub(crate) fn shift(&mut self, count: u32)
        requires { self.old * 2 ^ count < room }
        ensures { self.new ≡ self.old * 2 ^ count }
    {
        let places = (count / 32) as usize;
        // Only zero has room for more, and it stays zero.
        if places < LIMBS {
            self.move_up(places);
            self.multiply(1 << (count % 32));
        }
    }

    /// Subtracts a number that isn't greater.
    pub(crate) fn subtract(&mut self, other: &Big)
        requires { other.now ≤ self.old }
        ensures { self.new + other.now ≡ self.old }
    {
        // Each limb first takes BASE from the next one, which is one unit there. The limb gives that
        // unit back where it can do without.
        let mut unit = 1;
        for i in 0..LIMBS {
            let left = u64::from(self.limbs[i]) + unit + (BASE - 1) - u64::from(other.limbs[i]);
            self.limbs[i] = (left % BASE) as u32;
            unit = left / BASE;
        }
    }

    /// The order of two numbers.
    pub(crate) fn compare(&self, against: &Big) -> Ordering
        ensures { result ≡ nat_cmp self.now against.now }
    {
        // From the lowest limb up, since a later difference outweighs all that come before it.
        let mut order = Ordering::Equal;
        for i in 0..LIMBS {
            let (mine, theirs) = (self.limbs[i], against.limbs[i]);
            order = mine.cmp(&theirs).then(order);
        }
        order
    }

    /// Whether this number is the smaller one.
    pub(crate) fn is_below(&self, other: &Big) -> bool
        ensures { result ≡ nat_lt self.now other.now }
    {
        self.compare(other) == Ordering::Less
    }
}
