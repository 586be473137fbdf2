// Integers from -2^127 to 2^128 - 1, by sign and size.

ghost use Rattle.std.specs.Prelude.{◌≡◌, ◌+◌, ◌≤◌, ◌^◌, pos, ◌+ℤ◌, ◌-ℤ◌, ◌*ℤ◌, ◌<ℤ◌, ◌↔◌, IsTrue, OkIff};
ghost use Rattle.amh_bits.specs.Integers.{IsKept, int_and, int_or, int_xor, int_not, sign_of, with_sign, with_turned, floor_quotient, floor_div, floor_rem};
ghost use Rattle.amh_bits.specs.Patterns.{wrap, pattern, number};
ghost use Rattle.amh_bits.specs.BitVectors.{bits_of};

use crate::bits::{Bits, mask_of};
use std::fmt;
use std::marker::Model;

/// An integer from -2^127 to 2^128 - 1: a sign and a size, where 0 has no sign.
#[derive(Clone, Copy, PartialEq, Eq)]
pub struct Int {
    pub negative: bool,
    pub size: u128,
}

impl Model for Int {
    ghost use Rattle.std.specs.Prelude.{ℤ, unsigned_abs};
    ghost use Rattle.amh_bits.specs.Integers.{with_sign, sign_of, IsSignAndSize, inverse_is};

    ghost Value = { ℤ };

    ghost view = { λ a. with_sign a.negative a.size };

    ghost invariant = { λ a. IsSignAndSize a.negative a.size };

    ghost inverse = { λ z. record { negative = sign_of z; size = unsigned_abs z } };

    ghost inverse_ok = { λ a h. let e = inverse_is a.negative a.size h in Prim.rw (e.0, e.1) };
}

/// The decimal numeral of the integer, with a `-` before a negative one.
impl fmt::Display for Int {
    ghost use Rattle.std.specs.Prelude.{Some};
    ghost use Rattle.amh_bits.specs.Decimals.{int_text};

    ghost output = { λ n. Some (int_text n) };

    fn fmt<W: fmt::Write>(&self, f: &mut fmt::Formatter<W>) -> fmt::Result {
        let size = self.size;
        if self.negative {
            write!(f, "-{size}")
        } else {
            write!(f, "{size}")
        }
    }
}

/// The integer does not fit the range of `Int`, or the bit vector does not fit 128 bits.
#[derive(Clone, Copy, PartialEq, Eq)]
pub struct TooWide;

impl Int {
    /// The integer n.
    pub fn of_u128(n: u128) -> Int
        ensures { result ≡ pos n }
    {
        Int {
            negative: false,
            size: n,
        }
    }

    /// The integer n.
    pub fn of_i128(n: i128) -> Int
        ensures { result ≡ n }
    {
        Int {
            negative: n < 0,
            size: n.unsigned_abs(),
        }
    }

    /// The sum.
    pub fn add(self, b: Int) -> Result<Int, TooWide>
        ensures { OkIff result (IsKept (self +ℤ b)) (self +ℤ b) }
    {
        if self.negative == b.negative {
            sum_of_sizes(self.negative, self.size, b.size)
        } else {
            difference_of_sizes(self.negative, self.size, b.size)
        }
    }

    /// The difference.
    pub fn sub(self, b: Int) -> Result<Int, TooWide>
        ensures { OkIff result (IsKept (self -ℤ b)) (self -ℤ b) }
    {
        if self.negative == b.negative {
            difference_of_sizes(self.negative, self.size, b.size)
        } else {
            sum_of_sizes(self.negative, self.size, b.size)
        }
    }

    /// The product.
    pub fn mul(self, b: Int) -> Result<Int, TooWide>
        ensures { OkIff result (IsKept (self *ℤ b)) (self *ℤ b) }
    {
        let Some(size) = self.size.checked_mul(b.size) else {
            return Err(TooWide);
        };
        signed(self.negative != b.negative, size)
    }

    /// Whether this integer is the smaller one.
    pub fn less(self, b: Int) -> bool
        ensures { IsTrue result ↔ (self <ℤ b) }
    {
        match (self.negative, b.negative) {
            (false, false) => self.size < b.size,
            (true, true) => b.size < self.size,
            (true, false) => true,
            (false, true) => false,
        }
    }

    /// Bit by bit: 1 where both have 1.
    pub fn and(self, b: Int) -> Result<Int, TooWide>
        ensures { OkIff result (IsKept (int_and self b)) (int_and self b) }
    {
        let x = self.turned();
        let y = b.turned();
        match (self.negative, b.negative) {
            (false, false) => Int::of_turned(false, x & y),
            (false, true) => Int::of_turned(false, x ^ (x & y)),
            (true, false) => Int::of_turned(false, y ^ (y & x)),
            (true, true) => Int::of_turned(true, x | y),
        }
    }

    /// Bit by bit: 1 where one of the two has 1.
    pub fn or(self, b: Int) -> Result<Int, TooWide>
        ensures { OkIff result (IsKept (int_or self b)) (int_or self b) }
    {
        let x = self.turned();
        let y = b.turned();
        match (self.negative, b.negative) {
            (false, false) => Int::of_turned(false, x | y),
            (false, true) => Int::of_turned(true, y ^ (y & x)),
            (true, false) => Int::of_turned(true, x ^ (x & y)),
            (true, true) => Int::of_turned(true, x & y),
        }
    }

    /// Bit by bit: 1 where exactly one of the two has 1.
    pub fn xor(self, b: Int) -> Result<Int, TooWide>
        ensures { OkIff result (IsKept (int_xor self b)) (int_xor self b) }
    {
        Int::of_turned(self.negative != b.negative, self.turned() ^ b.turned())
    }

    /// Each bit turned, which is -1 less the integer.
    pub fn not(self) -> Result<Int, TooWide>
        ensures { OkIff result (IsKept (int_not self)) (int_not self) }
    {
        Int::of_turned(!self.negative, self.turned())
    }

    /// The integer times 2^by.
    pub fn shl(self, by: u32) -> Result<Int, TooWide>
        ensures { OkIff result (IsKept (self *ℤ pos (2 ^ by))) (self *ℤ pos (2 ^ by)) }
    {
        if self.size == 0 {
            return Ok(self);
        }
        if by >= 128 {
            return Err(TooWide);
        }
        if self.size > u128::MAX >> by {
            return Err(TooWide);
        }
        signed(self.negative, self.size << by)
    }

    /// The floor of the integer divided by 2^by.
    #[tactic(auto, using(crate::proofs::Masks::far))]
    pub fn shr(self, by: u32) -> Int
        ensures { result ≡ floor_quotient self (2 ^ by) }
    {
        if by >= 128 {
            return if self.negative {
                Int {
                    negative: true,
                    size: 1,
                }
            } else {
                Int {
                    negative: false,
                    size: 0,
                }
            };
        }
        if self.negative {
            Int {
                negative: true,
                size: ((self.size - 1) >> by) + 1,
            }
        } else {
            Int {
                negative: false,
                size: self.size >> by,
            }
        }
    }

    /// The floor of the quotient, and 0 for b = 0.
    pub fn floor_div(self, b: Int) -> Result<Int, TooWide>
        ensures { OkIff result (IsKept (floor_div self b)) (floor_div self b) }
    {
        if b.size == 0 {
            return Ok(Int {
                negative: false,
                size: 0,
            });
        }
        if self.negative == b.negative {
            return Ok(Int {
                negative: false,
                size: self.size / b.size,
            });
        }
        if self.size == 0 {
            return Ok(self);
        }
        let size = (self.size - 1) / b.size;
        if size >= 1 << 127 {
            return Err(TooWide);
        }
        Ok(Int {
            negative: true,
            size: size + 1,
        })
    }

    /// What the floor of the quotient leaves: 0 or of the sign of b, and 0 for b = 0.
    pub fn floor_rem(self, b: Int) -> Int
        ensures { result ≡ floor_rem self b }
    {
        if self.size == 0 || b.size == 0 {
            return Int {
                negative: false,
                size: 0,
            };
        }
        if self.negative == b.negative {
            of_size(b.negative, self.size % b.size)
        } else {
            of_size(b.negative, b.size - 1 - (self.size - 1) % b.size)
        }
    }

    /// The one integer of the shape that is congruent to this one modulo 2^width.
    pub fn wrap(self, width: u8, signed: bool) -> Int
        requires narrow { width ≤ 128 }
        requires some { IsTrue signed → 1 ≤ width }
        ensures { result ≡ wrap signed width self }
    {
        Int::of_bits(self.to_bits(width), signed)
    }

    /// The low bits in two's complement.
    pub fn to_bits(self, width: u8) -> Bits
        requires { width ≤ 128 }
        ensures { result ≡ bits_of width self }
    {
        Bits {
            width,
            bits: self.pattern(width),
        }
    }

    /// The integer that the bits stand for; where signed, the highest bit counts as minus.
    pub fn of_bits(b: Bits, signed: bool) -> Int
        requires { IsTrue signed → 1 ≤ b.width }
        ensures { result ≡ number signed b.width b.bits }
    {
        if signed && b.bits >= 1 << (b.width - 1) {
            Int {
                negative: true,
                size: mask_of(b.width) - b.bits + 1,
            }
        } else {
            Int {
                negative: false,
                size: b.bits,
            }
        }
    }

    // The low bits, as a number.
    #[tactic(auto, using(crate::proofs::Masks::pattern_pos))]
    fn pattern(self, width: u8) -> u128
        requires { width ≤ 128 }
        ensures { result ≡ pattern width self }
    {
        let mask = mask_of(width);
        if self.negative {
            mask - ((self.size - 1) & mask)
        } else {
            self.size & mask
        }
    }

    // The bits from the first on, all of them turned where the integer is negative.
    fn turned(self) -> u128
        ensures { with_turned (sign_of self) result ≡ self }
    {
        if self.negative {
            self.size - 1
        } else {
            self.size
        }
    }

    // The integer with these bits, all of them turned where it is negative.
    fn of_turned(negative: bool, bits: u128) -> Result<Int, TooWide>
        ensures { OkIff result (IsKept (with_turned negative bits)) (with_turned negative bits) }
    {
        if negative {
            if bits >= 1 << 127 {
                return Err(TooWide);
            }
            Ok(Int {
                negative: true,
                size: bits + 1,
            })
        } else {
            Ok(Int {
                negative: false,
                size: bits,
            })
        }
    }
}

// The integer of this sign and size.
fn signed(negative: bool, size: u128) -> Result<Int, TooWide>
    ensures { OkIff result (IsKept (with_sign negative size)) (with_sign negative size) }
{
    if negative && size > 1 << 127 {
        return Err(TooWide);
    }
    Ok(of_size(negative, size))
}

// The same, where it is known to be kept; 0 has no sign.
fn of_size(negative: bool, size: u128) -> Int
    requires { IsKept (with_sign negative size) }
    ensures { result ≡ with_sign negative size }
{
    Int {
        negative: negative && size > 0,
        size,
    }
}

// The sum of two integers of one sign.
fn sum_of_sizes(negative: bool, a: u128, b: u128) -> Result<Int, TooWide>
    ensures { OkIff result (IsKept (with_sign negative a +ℤ with_sign negative b)) (with_sign negative a +ℤ with_sign negative b) }
{
    let Some(size) = a.checked_add(b) else {
        return Err(TooWide);
    };
    signed(negative, size)
}

// The difference of two integers of one sign.
fn difference_of_sizes(negative: bool, a: u128, b: u128) -> Result<Int, TooWide>
    ensures { OkIff result (IsKept (with_sign negative a -ℤ with_sign negative b)) (with_sign negative a -ℤ with_sign negative b) }
{
    if a < b {
        signed(!negative, b - a)
    } else {
        signed(negative, a - b)
    }
}
