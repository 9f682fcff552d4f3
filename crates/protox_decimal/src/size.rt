//! What a float is, without its sign.

ghost use Rattle.std.specs.Prelude.{◌≡◌, ◌*◌, ◌^◌, ◌<◌, ◌≤◌, IsTrue, from_bits};
ghost use Rattle.std.specs.Float.{NotNan, binary64, float_is_finite};
ghost use Rattle.std.specs.Float.Ieee.Digits.{Equals};

// The weights of the field of the exponent, and of the sign, in the bits.
const FIELD: u64 = 1 << 52;

const SIGN: u64 = 1 << 63;

fn bits_of(x: f64) -> u64
    requires { NotNan x }
    ensures { from_bits binary64 result ≡ x }
{
    x.to_bits()
}

/// The size of a finite float in units of 2 ^ -1074, as a mantissa and an exponent of two.
pub(crate) fn size_of(number: f64) -> (u64, u32)
    requires { IsTrue (float_is_finite number) }
    ensures same { Equals number (result.0 * 2 ^ result.1) (2 ^ 1074) }
    ensures mantissa { result.0 < 2 ^ 53 }
    ensures exponent { result.1 ≤ 2045 }
{
    let bits = bits_of(number);
    let field = bits % SIGN / FIELD;
    let low = bits % FIELD;
    if field == 0 {
        return (low, 0);
    }
    (FIELD + low, (field - 1) as u32)
}
