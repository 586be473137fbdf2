// What the tokens of numbers stand for.
ghost use Rattle.std.specs.Prelude.{◌≡◌, ◌+◌, ◌<◌, ◌≤◌, ◌^◌, ◌==◌, not, length, drop, take, slice_index};
ghost use Rattle.std.specs.Option.{SomeIff};
ghost use Rattle.py_lexer.specs.Numbers.{next_value, value_from};
ghost use Rattle.py_words.specs.Words_of.{base_behind, number_mark, begins_exponent, mantissa_width, whole_width, fraction_width, exponent_value, decimal_by, decimal_mark};

use py_grammar::Mark;
use py_tree::Decimal;

/// The byte at a place, or 0 behind the last.
pub fn byte_at(bytes: &[u8], i: usize) -> u8
    ensures { result ≡ slice_index bytes.now i }
{
    if i < bytes.len() { bytes[i] } else { 0 }
}

/// The number that a digit makes of that before it, where it is below 2^128.
fn next_value(base: u32, n: u128, byte: u8) -> Option<u128>
    requires least { 2 ≤ base }
    requires most { base ≤ 16 }
    ensures { SomeIff result (next_value base n byte < 2 ^ 128) (next_value base n byte) }
{
    let Some(digit) = char::from(byte).to_digit(base) else {
        return Some(n);
    };
    n.checked_mul(u128::from(base))?
        .checked_add(u128::from(digit))
}

/// The number that the digits spell, where it is below 2^128.
#[tactic(auto, using(crate::proofs::Values::value_from_grows), unfolding(py_lexer::specs::Numbers::value_from))]
fn value(base: u32, bytes: &[u8]) -> Option<u128>
    requires least { 2 ≤ base }
    requires most { base ≤ 16 }
    ensures { SomeIff result (value_from base 0 bytes.now < 2 ^ 128) (value_from base 0 bytes.now) }
{
    let mut n = 0u128;
    for byte in bytes {
        let Some(next) = next_value(base, n, *byte) else {
            return None;
        };
        n = next;
    }
    Some(n)
}

/// The base that stands behind a zero, or 0 where none does.
fn base_behind(bytes: &[u8]) -> u32
    ensures value { result ≡ base_behind bytes.now }
    ensures least { 0 < result → 2 ≤ result }
    ensures most { result ≤ 16 }
    ensures prefix { 0 < result → 2 ≤ length bytes.now }
{
    if byte_at(bytes, 0) != b'0' {
        return 0;
    }
    match byte_at(bytes, 1) {
        b'x' => 16,
        b'o' => 8,
        b'b' => 2,
        _ => 0,
    }
}

/// The mark of a whole number.
pub fn number_mark(bytes: &[u8]) -> Mark
    ensures { result ≡ number_mark bytes.now }
{
    let base = base_behind(bytes);
    let value = if base > 0 {
        value(base, &bytes[2..])
    } else {
        value(10, bytes)
    };
    match value {
        Some(n) => Mark::Number(n),
        None => Mark::Other,
    }
}

fn begins_exponent(byte: u8) -> bool
    ensures { result ≡ begins_exponent byte }
{
    byte == b'e' || byte == b'E'
}

/// How many bytes stand before the exponent.
fn mantissa_width(bytes: &[u8]) -> usize
    ensures value { result ≡ mantissa_width bytes.now }
    ensures within { result ≤ length bytes.now }
{
    for (i, byte) in bytes.iter().enumerate() {
        if begins_exponent(*byte) {
            return i;
        }
    }
    bytes.len()
}

/// How many bytes stand before the point.
fn whole_width(bytes: &[u8]) -> usize
    ensures value { result ≡ whole_width bytes.now }
    ensures within { result ≤ length bytes.now }
{
    for (i, byte) in bytes.iter().enumerate() {
        if *byte == b'.' {
            return i;
        }
    }
    bytes.len()
}

/// How many digits stand behind the point of a mantissa.
fn fraction_width(bytes: &[u8]) -> usize
    ensures { result ≡ fraction_width bytes.now }
{
    bytes.len().saturating_sub(whole_width(bytes) + 1)
}

/// An exponent of this size, less what a fraction takes from it.
fn exponent_value(bytes: &[u8], size: u8, fraction: u8) -> i8
    requires size_is { size ≡ value_from 10 0 bytes.now }
    requires small { size ≤ 18 }
    requires short { fraction ≤ 18 }
    ensures { result ≡ exponent_value bytes.now fraction }
{
    if byte_at(bytes, 0) == b'-' {
        -((size + fraction) as i8)
    } else {
        size as i8 - fraction as i8
    }
}

/// The mark of a mantissa and an exponent.
fn decimal_by(mantissa: &[u8], exponent: &[u8]) -> Mark
    ensures { result ≡ decimal_by mantissa.now exponent.now }
{
    let fraction = fraction_width(mantissa);
    let (Some(digits), Some(size)) = (value(10, mantissa), value(10, exponent)) else {
        return Mark::Other;
    };
    if digits >= 1_000_000_000_000_000_000 || fraction > 18 || size > 18 {
        return Mark::Other;
    }
    Mark::Decimal(Decimal {
        digits: digits as u64,
        exponent: exponent_value(exponent, size as u8, fraction as u8),
    })
}

/// The first so many bytes.
pub fn first_bytes(bytes: &[u8], n: usize) -> &[u8]
    ensures { result.now ≡ take n bytes.now }
{
    if n < bytes.len() { &bytes[..n] } else { bytes }
}

/// The bytes behind the first so many.
pub fn bytes_behind(bytes: &[u8], n: usize) -> &[u8]
    ensures { result.now ≡ drop n bytes.now }
{
    if n < bytes.len() { &bytes[n..] } else { &[] }
}

/// The mark of a decimal.
pub fn decimal_mark(bytes: &[u8]) -> Mark
    ensures { result ≡ decimal_mark bytes.now }
{
    let width = mantissa_width(bytes);
    decimal_by(&bytes[..width], bytes_behind(bytes, width + 1))
}
