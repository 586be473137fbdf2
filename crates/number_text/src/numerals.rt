// Numerals of whole numbers.
ghost use Rattle.std.specs.Prelude.{◌≡◌, ◌++◌, OnOk};
ghost use Rattle.std.specs.Fmt.{decimal};
ghost use Rattle.amh_bits.specs.Decimals.{int_text};

use crate::digits::push_short;
use amh_bits::Int;
use itoa::Buffer;
use std::alloc::AllocError;

/// Adds the numeral of an integer.
#[inline]
pub fn push_int(text: &mut Vec<u8>, n: Int) -> Result<(), AllocError>
    ensures { OnOk result (text.new.items ≡ text.old.items ++ int_text n) }
{
    if n.negative {
        text.push(b'-')?;
    }
    push_decimal(text, n.size)
}

/// Adds the numeral of a natural number.
#[inline]
pub fn push_decimal(text: &mut Vec<u8>, n: u128) -> Result<(), AllocError>
    ensures { OnOk result (text.new.items ≡ text.old.items ++ decimal n) }
{
    if n < 100_000_000 {
        push_short(text, n as usize)
    } else {
        push_long(text, n)
    }
}

// Long numerals are written elsewhere first.
#[inline(never)]
fn push_long(text: &mut Vec<u8>, n: u128) -> Result<(), AllocError>
    ensures { OnOk result (text.new.items ≡ text.old.items ++ decimal n) }
{
    let mut digits = Buffer::new();
    text.extend_from_slice(digits.format(n).as_bytes())
}
