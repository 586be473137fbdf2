// The constants at the ends and under the parameters of a memory's cells.
ghost use Rattle.std.specs.Prelude.{◌≡◌, ◌==◌, ◌≤◌, ◌++◌, false, replicate, IfOk, OnOk};
ghost use Rattle.std.specs.List.{list_any};
ghost use Rattle.rtlil_text.specs.Cells.{number_bits};
ghost use Rattle.rtlil_text.specs.MemoryRules.{priority_mask};
ghost use Rattle.memory_cells.specs.Bits.{row_bits, rows_bits};
ghost use Rattle.memory_cells.specs.Plans.{through_from};

use amh_bits::Int;
use amh_host::{Items, NoMemory, Numbers};
use rtlil_text::RtlBits;
use std::alloc::Global;

/// Adds one bit so many times.
pub(crate) fn push_repeated(bits: &mut RtlBits, bit: bool, count: u32) -> Result<(), NoMemory>
    ensures { OnOk result (bits.new ≡ bits.old ++ replicate count bit) }
{
    for i in 0..count {
        bits.push(bit)?;
    }
    Ok(())
}

/// One bit so many times.
pub(crate) fn repeated(alloc: Global, bit: bool, count: u32) -> Result<RtlBits, NoMemory>
    ensures { IfOk result (λ bits. bits ≡ replicate count bit) }
{
    let mut bits = Items::new(alloc);
    push_repeated(&mut bits, bit, count)?;
    Ok(bits)
}

// Adds the low bits of a number, the lowest first.
fn push_number(bits: &mut RtlBits, width: u8, number: u128) -> Result<(), NoMemory>
    ensures { OnOk result (bits.new ≡ bits.old ++ number_bits width number) }
{
    let mut rest = number;
    for i in 0..width {
        bits.push(rest % 2 == 1)?;
        rest /= 2;
    }
    Ok(())
}

// Adds the bits of a row.
fn push_row(bits: &mut RtlBits, width: u8, row: Int) -> Result<(), NoMemory>
    requires { width ≤ 128 }
    ensures { OnOk result (bits.new ≡ bits.old ++ row_bits width row) }
{
    push_number(bits, width, row.to_bits(width).bits)
}

/// The bits of all rows, those of the first row the lowest.
pub(crate) fn rows_bits(alloc: Global, width: u8, rows: &[Int]) -> Result<RtlBits, NoMemory>
    requires { width ≤ 128 }
    ensures { IfOk result (λ bits. bits ≡ rows_bits width rows.now) }
{
    let mut bits = Items::new(alloc);
    for row in rows {
        push_row(&mut bits, width, *row)?;
    }
    Ok(bits)
}

/// Of `count` write cells, those before number `k`.
#[tactic(auto, using(crate::proofs::Masks::priority_is))]
pub(crate) fn priority_mask(alloc: Global, count: u32, k: u32) -> Result<RtlBits, NoMemory>
    requires { k ≤ count }
    ensures { IfOk result (λ bits. bits ≡ priority_mask count k) }
{
    let mut bits = repeated(alloc, true, k)?;
    push_repeated(&mut bits, false, count - k)?;
    Ok(bits)
}

// Whether a number is among these.
fn is_among(numbers: &Numbers, k: u32) -> bool
    ensures { result ≡ list_any (λ i. i == k) numbers.now }
{
    numbers.as_slice().iter().any(|i| *i == k)
}

/// Of `count` write cells, those with these numbers.
pub(crate) fn through_mask(
    alloc: Global,
    through: &Numbers,
    count: u32,
) -> Result<RtlBits, NoMemory>
    ensures { IfOk result (λ bits. bits ≡ through_from through.now 0 count) }
{
    let mut bits = Items::new(alloc);
    for i in 0..count {
        bits.push(is_among(through, i))?;
    }
    Ok(bits)
}
