// Integers as a value holds them, aligned to 4 bytes.
ghost use Rattle.std.specs.Prelude.{◌≡◌, pos};

use amh_bits::Int;
use std::marker::Model;

/// An integer from -2^127 to 2^128 - 1, as a value holds it.
#[derive(Clone, Copy, PartialEq, Eq)]
pub struct Number {
    negative: bool,
    size: Size,
}

impl Model for Number {
    ghost use Rattle.std.specs.Prelude.{ℤ, unsigned_abs};
    ghost use Rattle.amh_bits.specs.Integers.{with_sign, sign_of, IsSignAndSize, inverse_is};

    ghost Value = { ℤ };

    ghost view = { λ a. with_sign a.negative a.size };

    ghost invariant = { λ a. IsSignAndSize a.negative a.size };

    ghost inverse = { λ z. record { negative = sign_of z; size = unsigned_abs z } };

    ghost inverse_ok = { λ a h. let e = inverse_is a.negative a.size h in Prim.rw (e.0, e.1) };
}

impl Number {
    /// The integer as a value holds it.
    pub fn of(n: Int) -> Number
        ensures { result ≡ n }
    {
        Number {
            negative: n.negative,
            size: Size::of(n.size),
        }
    }

    /// The integer n.
    pub fn of_u128(n: u128) -> Number
        ensures { result ≡ pos n }
    {
        Number {
            negative: false,
            size: Size::of(n),
        }
    }

    /// The integer, to calculate with.
    pub fn int(self) -> Int
        ensures { result ≡ self }
    {
        Int {
            negative: self.negative,
            size: self.size.number(),
        }
    }
}

// The size of a number in four parts of 32 bits, the lowest first. A `u128` would align what holds it to 16 bytes.
#[derive(Clone, Copy, PartialEq, Eq)]
struct Size {
    first: u32,
    second: u32,
    third: u32,
    fourth: u32,
}

impl Model for Size {
    ghost use Rattle.std.specs.Prelude.{ℕ, ◌/◌, ◌%◌, ◌^◌};
    ghost use Rattle.py_values.specs.Limbs.{of_limbs, AreLimbs, inverse_is};

    ghost Value = { ℕ };

    ghost view = { λ a. of_limbs a.first a.second a.third a.fourth };

    ghost invariant = { λ a. AreLimbs a.first a.second a.third a.fourth };

    ghost inverse = { λ n. record { first = n % 2 ^ 32; second = n / 2 ^ 32 % 2 ^ 32; third = n / 2 ^ 64 % 2 ^ 32; fourth = n / 2 ^ 96 } };

    ghost inverse_ok = { λ a h. let e = inverse_is a.first a.second a.third a.fourth h in Prim.rw (e.first, e.second, e.third, e.fourth) };
}

impl Size {
    // The size of this many.
    fn of(n: u128) -> Size
        ensures { result ≡ n }
    {
        let low = (n & 0xFFFF_FFFF_FFFF_FFFF) as u64;
        let high = (n >> 64) as u64;
        Size {
            first: (low & 0xFFFF_FFFF) as u32,
            second: (low >> 32) as u32,
            third: (high & 0xFFFF_FFFF) as u32,
            fourth: (high >> 32) as u32,
        }
    }

    // How many it is.
    fn number(self) -> u128
        ensures { result ≡ self }
    {
        let low = joined(self.first, self.second);
        let high = joined(self.third, self.fourth);
        low as u128 + ((high as u128) << 64)
    }
}

ghost use Rattle.py_values.specs.Limbs.{joined};

// The number with these halves.
fn joined(low: u32, high: u32) -> u64
    ensures { result ≡ joined low high }
{
    low as u64 + ((high as u64) << 32)
}
