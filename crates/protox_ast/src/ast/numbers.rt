//! Integer literals as numbers.

ghost use Rattle.std.specs.Prelude.{◌≡◌, ◌↔◌, ◌≤◌, ℤ, pos, negsuc, false, IsSome, IfSome};
ghost use Rattle.protox_ast.specs.Numbers.{signed_value, IsBetween};

use super::Int;
use std::option::Option;

impl Int {
    /// The number with its sign, if it fits in an `i32`.
    pub fn as_i32(&self) -> Option<i32>
        ensures fits { IsSome result ↔ IsBetween (negsuc 2147483647) (pos 2147483647) (signed_value self.now) }
        ensures value { IfSome result (λ number. number ≡ signed_value self.now) }
    {
        match self.as_i64() {
            Some(number) if -2147483648 <= number && number <= 2147483647 => Some(number as i32),
            _ => None,
        }
    }

    /// The number with its sign, if it fits in an `i64`.
    pub fn as_i64(&self) -> Option<i64>
        ensures fits { IsSome result ↔ IsBetween (negsuc 9223372036854775807) (pos 9223372036854775807) (signed_value self.now) }
        ensures value { IfSome result (λ number. number ≡ signed_value self.now) }
    {
        if !self.negative {
            i64::try_from(self.value).ok()
        } else if self.value <= 9223372036854775807 {
            Some(-(self.value as i64))
        } else if self.value == 9223372036854775808 {
            Some(i64::MIN)
        } else {
            None
        }
    }

    /// The number, if it has no minus sign and fits in a `u32`.
    pub fn as_u32(&self) -> Option<u32>
        ensures fits { IsSome result ↔ ((self.now.negative ≡ false) × (self.now.value ≤ 4294967295)) }
        ensures value { IfSome result (λ number. number ≡ self.now.value) }
    {
        if self.negative {
            None
        } else {
            u32::try_from(self.value).ok()
        }
    }

    /// The number, if it has no minus sign.
    pub fn as_u64(&self) -> Option<u64>
        ensures fits { IsSome result ↔ (self.now.negative ≡ false) }
        ensures value { IfSome result (λ number. number ≡ self.now.value) }
    {
        if self.negative {
            None
        } else {
            Some(self.value)
        }
    }
}
