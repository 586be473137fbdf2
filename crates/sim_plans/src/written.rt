// What a write port leaves of a row.
ghost use Rattle.std.specs.Prelude.{◌≡◌, ◌+◌, ◌-◌, ◌*◌, ◌^◌, ◌<◌, ◌≤◌, bit_and, if◌then◌else◌, pos, length, slice_index_or};
ghost use Rattle.amh_bits.specs.Integers.{bits_without};
ghost use Rattle.design_ir.specs.Rows.{enabled, granules, written};
ghost use Rattle.design_ir.specs.Designs.{IsGranularity, IsWritePort};
ghost use Rattle.sim_plans.specs.Ports.{AreKnown, write_exprs};

use amh_bits::{Bits, Int};
use design_ir::{Design, ExprId, Exprs, MemWrite, Memory};

/// A row after a write port: the bits that its enable lets through are those of its word.
pub fn written(
    design: &Design,
    m: &Memory,
    w: &MemWrite,
    env: &[Int],
    nums: &[Int],
    row: Int,
) -> Int
    requires port { IsWritePort design.now m.now w.now }
    requires known { AreKnown design.now.pool env.now nums.now (write_exprs w.now) }
    ensures { result ≡ written design.now.pool env.now m.now row w.now }
{
    let _ = design.count();
    let _ = env;
    let count = granules(m, w);
    let enable = at(nums, w.enable).to_bits(count).bits;
    let mask = enabled(w.granularity, count, enable);
    let width = m.shape.width;
    let word = at(nums, w.word).to_bits(width).bits;
    let bits = merged(width, row.to_bits(width).bits, word, mask);
    Int::of_bits(Bits { width, bits }, m.shape.signed)
}

// How many bits the enable of a write port has.
fn granules(m: &Memory, w: &MemWrite) -> u8
    requires { IsGranularity m.now w.now.granularity }
    ensures { result ≡ granules m.now w.now }
{
    if w.granularity == m.shape.width {
        1
    } else {
        m.shape.width / w.granularity
    }
}

// The bits that an enable lets through, each of its bits so many of them.
fn enabled(granule: u8, count: u8, enable: u128) -> u128
    requires few { count ≤ 128 }
    requires narrow { granule * count ≤ 128 }
    ensures { result ≡ enabled granule count enable }
{
    let mut mask = Bits { width: 0, bits: 0 };
    let mut left = count;
    while left > 0 {
        left -= 1;
        let low = granule_bits(granule, (enable >> left) % 2 == 1);
        mask = match Bits::concat(low, mask) {
            Ok(more) => more,
            Err(_) => unreachable!(),
        };
    }
    mask.bits
}

// So many bits that are all 1, or all 0.
fn granule_bits(granule: u8, on: bool) -> Bits
    requires { granule ≤ 128 }
    ensures { result ≡ record { width = granule; bits = if on then 2 ^ granule - 1 else 0 } }
{
    if on {
        Int::of_i128(-1).to_bits(granule)
    } else {
        Bits {
            width: granule,
            bits: 0,
        }
    }
}

// The bits of a word where a mask has them, else those of a row.
fn merged(width: u8, row: u128, word: u128, mask: u128) -> u128
    requires narrow { width ≤ 128 }
    requires row { row < 2 ^ width }
    requires word { word < 2 ^ width }
    ensures bits { result ≡ bits_without row mask + bit_and word mask }
    ensures below { result < 2 ^ width }
{
    (row ^ (row & mask)) | (word & mask)
}

/// The integer of an expression that was computed.
pub fn at(nums: &[Int], e: ExprId) -> Int
    requires { e.0 < length nums.now }
    ensures { result ≡ slice_index_or nums.now e.0 (pos 0) }
{
    nums[e.0 as usize]
}
