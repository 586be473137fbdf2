// The numbers of a script.
ghost use Rattle.std.specs.Prelude.{◌≡◌, ◌+◌, ◌*◌, ◌↔◌, ℤ, true, Some, option_and_then};
ghost use Rattle.amh_bits.specs.Decimals.{int_text};
ghost use Rattle.play_text.specs.Script.{digits_from, natural_of, integer_of, opposite, holds};
ghost use Rattle.play_text.specs.ScriptParts.{as_u128, as_int, in_shape};

use amh_bits::Int;
use shape_rules::Shape;

/// The integer of the shape that a text stands for: the one whose numeral it is.
pub fn number_in(shape: Shape, text: &[u8]) -> Option<Int>
    ensures value { result ≡ option_and_then (in_shape shape) (integer_of text.now) }
    ensures numeral { (z : ℤ) → (result ≡ Some z) ↔ ((holds shape z ≡ true) × (text.now ≡ int_text z)) }
{
    // The proof learns here that a shape has at most 128 bits, so an integer that `Int` has not is in none.
    let _ = &shape.width;
    let value = integer_of(text)?;
    if holds(shape, value) {
        Some(value)
    } else {
        None
    }
}

// The integer that a text stands for, where `Int` has it.
fn integer_of(text: &[u8]) -> Option<Int>
    ensures { result ≡ option_and_then as_int (integer_of text.now) }
{
    match text {
        [b'-', digits @ ..] => opposite(natural_of(digits)?),
        _ => Some(Int::of_u128(natural_of(text)?)),
    }
}

// The opposite of a number above 0, where `Int` has it.
fn opposite(size: u128) -> Option<Int>
    ensures { result ≡ option_and_then as_int (opposite size) }
{
    if size == 0 || size > 1 << 127 {
        None
    } else {
        Some(Int {
            negative: true,
            size,
        })
    }
}

// The number that a numeral without needless zeros stands for, where 128 bits hold it.
fn natural_of(text: &[u8]) -> Option<u128>
    ensures { result ≡ option_and_then as_u128 (natural_of text.now) }
{
    match text {
        [] | [b'0', _, ..] => None,
        _ => number_of(text),
    }
}

// The number that digits stand for, where 128 bits hold it.
fn number_of(text: &[u8]) -> Option<u128>
    ensures { result ≡ option_and_then as_u128 (digits_from 0 text.now) }
{
    let mut number = 0u128;
    for b in text {
        if !b.is_ascii_digit() {
            return None;
        }
        number = with_digit(number, *b - b'0')?;
    }
    Some(number)
}

// The number with a digit behind it, where 128 bits hold it.
fn with_digit(number: u128, digit: u8) -> Option<u128>
    ensures { result ≡ as_u128 (10 * number + digit) }
{
    number.checked_mul(10)?.checked_add(u128::from(digit))
}

// Whether a shape has the integer.
fn holds(shape: Shape, value: Int) -> bool
    ensures { result ≡ holds shape value }
{
    if shape.signed {
        let half = 1u128 << (shape.width - 1);
        value.size < half || value.negative && value.size == half
    } else {
        !value.negative && (shape.width == 128 || value.size < 1 << shape.width)
    }
}
