// Bit vectors of at most 128 bits.

ghost use Rattle.std.specs.Prelude.{◌≡◌, ◌+◌, ◌≤◌, ◌^◌, OkIff};
ghost use Rattle.amh_bits.specs.BitVectors.{joined, sliced, extended};

use crate::int::{Int, TooWide};
use std::marker::Model;

/// A bit vector of at most 128 bits, as a number whose lowest bit is the first one.
#[derive(Clone, Copy, PartialEq, Eq)]
pub struct Bits {
    pub width: u8,
    pub bits: u128,
}

impl Model for Bits {
    ghost use Rattle.amh_bits.specs.BitVectors.{BitVector, IsBitVector};

    ghost Value = { BitVector };

    ghost view = { λ a. record { width = a.width; bits = a.bits } };

    ghost invariant = { λ a. IsBitVector a.width a.bits };

    ghost inverse = { λ v. record { width = v.width; bits = v.bits } };
}

impl Bits {
    /// The bits of `low`, and after them those of `high`.
    pub fn concat(low: Bits, high: Bits) -> Result<Bits, TooWide>
        ensures { OkIff result (low.width + high.width ≤ 128) (joined low high) }
    {
        if high.width > 128 - low.width {
            return Err(TooWide);
        }
        if high.width == 0 {
            return Ok(low);
        }
        Ok(Bits {
            width: low.width + high.width,
            bits: (high.bits << low.width) | low.bits,
        })
    }

    /// The `width` bits from bit `low` on.
    #[tactic(auto, using(crate::proofs::Masks::masked))]
    pub fn slice(self, low: u8, width: u8) -> Bits
        requires { low + width ≤ self.width }
        ensures { result ≡ sliced low width self }
    {
        if width == 0 {
            return Bits { width: 0, bits: 0 };
        }
        Bits {
            width,
            bits: (self.bits >> low) & mask_of(width),
        }
    }

    /// The bits of the same number at a greater width: above come zeros or, where signed, copies of the highest bit.
    pub fn extend(self, width: u8, signed: bool) -> Bits
        requires wider { self.width ≤ width }
        requires narrow { width ≤ 128 }
        ensures { result ≡ extended signed width self }
    {
        if self.width == 0 {
            return Bits { width, bits: 0 };
        }
        Int::of_bits(self, signed).to_bits(width)
    }
}

/// The number whose low bits, as many as the width says, are ones.
pub(crate) fn mask_of(width: u8) -> u128
    requires { width ≤ 128 }
    ensures { result + 1 ≡ 2 ^ width }
{
    if width == 128 {
        u128::MAX
    } else {
        (1 << width) - 1
    }
}
