// Powers and shifts.
ghost use Rattle.std.specs.Prelude.{◌≡◌};
ghost use Rattle.py_values.specs.Numbers.{powered, shifted_up, shifted_down};

use crate::number::Number;
use crate::numbers::widened;
use crate::val::{NumberStop, Val};
use amh_bits::Int;

/// The integer times a power of two.
pub(crate) fn shifted_up(a: Int, b: Int) -> Result<Val, NumberStop>
    ensures { result ≡ shifted_up a b }
{
    if b.negative {
        return Err(NumberStop::Raised);
    }
    if a.size == 0 {
        return Ok(Val::Int(Number::of(a)));
    }
    if b.size >= 128 {
        return Err(NumberStop::Width);
    }
    widened(a.shl(b.size as u32))
}

/// The floor of the integer by a power of two.
pub(crate) fn shifted_down(a: Int, b: Int) -> Result<Val, NumberStop>
    ensures { result ≡ shifted_down a b }
{
    if b.negative {
        return Err(NumberStop::Raised);
    }
    if b.size >= 128 {
        let _size = a.size;
        return Ok(Val::Int(Number::of(a.shr(128))));
    }
    Ok(Val::Int(Number::of(a.shr(b.size as u32))))
}

/// The first integer to the power of the second.
pub(crate) fn powered(a: Int, b: Int) -> Result<Val, NumberStop>
    ensures { result ≡ powered a b }
{
    if b.negative {
        return Err(NumberStop::Raised);
    }
    let Some(size) = power_of_size(a.size, b.size) else {
        return Err(NumberStop::Width);
    };
    let negative = a.negative && b.size % 2 == 1;
    if negative && size > 1 << 127 {
        return Err(NumberStop::Width);
    }
    Ok(Val::Int(Number::of(Int {
        negative: negative && size > 0,
        size,
    })))
}

ghost use Rattle.std.specs.Prelude.{SomeIff, ◌^◌, ◌<◌};

// A size to a power, where 128 bits hold it.
fn power_of_size(size: u128, n: u128) -> Option<u128>
    ensures { SomeIff result (size ^ n < 2 ^ 128) (size ^ n) }
{
    if n < 128 {
        return size.checked_pow(n as u32);
    }
    if size < 2 { Some(size) } else { None }
}
