// Whole numbers and decimals.
ghost use Rattle.std.specs.Prelude.{◌≡◌, ℕ, ◌+◌, ◌-◌, ◌*◌, ◌<◌, ◌≤◌, ◌^◌, length, drop, take, slice_index, IsTrue, nat_lt, nat_le, ◌&&◌};
ghost use Rattle.std.specs.Option.{SomeIff};
ghost use Rattle.py_lexer.specs.Numbers.{is_digit, digit_count, is_run, run_width, next_value, value_from, named_base, numeral_by, numeral_of, digits_of, sign_of_exponent, exponent_lead, fraction_count, pointed, parts_of, is_decimal, decimal_width, exponent_of, is_small, number_front};
ghost use Rattle.py_lexer.specs.Fronts.{IsWithin};

use crate::chars::{after, char_at, front};
use crate::piece::{Front, Piece};
use crate::token::TokenForm;

/// A whole number: its base, how many characters stand before its digits, and how many it takes in all.
#[derive(Clone, Copy, PartialEq, Eq, Drop)]
pub struct Numeral {
    pub base: u32,
    pub prefix: usize,
    pub width: usize,
}

/// The parts of a decimal: how many digits stand before the point and behind it, how many characters these and
/// the point take, how many stand before the exponent's digits, and how many digits the exponent has.
#[derive(Clone, Copy, PartialEq, Eq, Drop)]
pub struct Parts {
    pub whole: usize,
    pub fraction: usize,
    pub mantissa: usize,
    pub lead: usize,
    pub exponent: usize,
}

/// Whether the character is a digit in this base.
pub fn is_digit(base: u32, c: char) -> bool
    requires least { 2 ≤ base }
    requires most { base ≤ 16 }
    ensures { result ≡ is_digit base c }
{
    c.is_digit(base)
}

// How many digits stand here.
#[tactic(auto, unfolding(crate::specs::Numbers::digit_count))]
fn digit_count(base: u32, cs: &[char]) -> usize
    requires least { 2 ≤ base }
    requires most { base ≤ 16 }
    ensures value { result ≡ digit_count base cs.now }
    ensures within { result ≤ length cs.now }
{
    for (i, c) in cs.iter().enumerate() {
        if !is_digit(base, *c) {
            return i;
        }
    }
    cs.len()
}

// How many characters the digits take that stand here, with single `_` between two of them.
#[tactic(auto, using(crate::proofs::NumberLaws::run_width_begins), unfolding(crate::specs::Numbers::run_width))]
fn run_width(base: u32, cs: &[char]) -> usize
    requires least { 2 ≤ base }
    requires most { base ≤ 16 }
    ensures value { result ≡ run_width base cs.now }
    ensures begins { 0 < length cs.now → IsTrue (is_digit base (slice_index cs.now 0)) → 0 < result }
    ensures within { result ≤ length cs.now }
{
    for (i, c) in cs.iter().enumerate() {
        if !is_run(base, *c, after(cs, i + 1)) {
            return i;
        }
    }
    cs.len()
}

// Whether a character is a digit, or a `_` with a digit behind it.
fn is_run(base: u32, c: char, rest: &[char]) -> bool
    requires least { 2 ≤ base }
    requires most { base ≤ 16 }
    ensures { result ≡ is_run base c rest.now }
{
    is_digit(base, c) || c == '_' && is_digit(base, char_at(rest, 0))
}

// The number that a digit makes of that before it, where it is below 2^128.
fn next_value(base: u32, n: u128, c: char) -> Option<u128>
    requires least { 2 ≤ base }
    requires most { base ≤ 16 }
    ensures { SomeIff result (next_value base n c < 2 ^ 128) (next_value base n c) }
{
    let Some(digit) = c.to_digit(base) else {
        return Some(n);
    };
    n.checked_mul(u128::from(base))?
        .checked_add(u128::from(digit))
}

// The number that the digits spell, where it is below 2^128.
#[tactic(auto, using(crate::proofs::NumberLaws::value_from_grows), unfolding(crate::specs::Numbers::value_from))]
fn value(base: u32, digits: &[char]) -> Option<u128>
    requires least { 2 ≤ base }
    requires most { base ≤ 16 }
    ensures { SomeIff result (value_from base 0 digits.now < 2 ^ 128) (value_from base 0 digits.now) }
{
    let mut n = 0u128;
    for c in digits {
        let Some(next) = next_value(base, n, *c) else {
            return None;
        };
        n = next;
    }
    Some(n)
}

// The base that the character behind a zero names, or 0.
fn named_base(c: char) -> u32
    ensures { result ≡ named_base c }
{
    match c {
        'x' => 16,
        'o' => 8,
        'b' => 2,
        _ => 0,
    }
}

// The whole number that begins with a zero.
fn numeral_by(base: u32, cs: &[char]) -> Numeral
    requires least { 0 < base → 2 ≤ base }
    requires most { base ≤ 16 }
    requires some { 0 < length cs.now }
    ensures value { result ≡ numeral_by base cs.now }
    ensures begins { 0 < result.width }
    ensures within { result.width ≤ length cs.now }
    ensures prefix { result.prefix ≤ result.width }
    ensures base { (2 ≤ result.base) × (result.base ≤ 16) }
{
    if base > 0 && cs.len() > 2 && is_digit(base, cs[2]) {
        Numeral {
            base,
            prefix: 2,
            width: 2 + run_width(base, after(cs, 2)),
        }
    } else {
        Numeral {
            base: 10,
            prefix: 0,
            width: 1,
        }
    }
}

// The whole number that begins here with a decimal digit.
#[tactic(auto, unfolding(crate::specs::Numbers::numeral_of))]
fn numeral_of(cs: &[char]) -> Numeral
    requires digit { IsTrue (is_digit 10 (slice_index cs.now 0)) }
    requires some { 0 < length cs.now }
    ensures value { result ≡ numeral_of cs.now }
    ensures begins { 0 < result.width }
    ensures within { result.width ≤ length cs.now }
    ensures prefix { result.prefix ≤ result.width }
    ensures base { (2 ≤ result.base) × (result.base ≤ 16) }
{
    if char_at(cs, 0) == '0' {
        numeral_by(named_base(char_at(cs, 1)), cs)
    } else {
        Numeral {
            base: 10,
            prefix: 0,
            width: run_width(10, cs),
        }
    }
}

// Whether the numeral is of a number below 2^128.
fn is_narrow(numeral: Numeral, cs: &[char]) -> bool
    requires width { numeral.width ≤ length cs.now }
    requires prefix { numeral.prefix ≤ numeral.width }
    requires least { 2 ≤ numeral.base }
    requires most { numeral.base ≤ 16 }
    ensures { result ≡ nat_lt (value_from numeral.base 0 (digits_of numeral cs.now)) (2 ^ 128) }
{
    value(
        numeral.base,
        after(front(cs, numeral.width), numeral.prefix),
    )
    .is_some()
}

fn sign_of_exponent(c: char) -> usize
    ensures { result ≡ sign_of_exponent c }
{
    if c == '+' || c == '-' { 1 } else { 0 }
}

// How many characters stand before the digits of an exponent.
#[tactic(auto, unfolding(crate::specs::Numbers::exponent_lead))]
fn exponent_lead(cs: &[char]) -> usize
    ensures value { result ≡ exponent_lead cs.now }
    ensures within { result ≤ length cs.now }
{
    let lead = 1 + sign_of_exponent(char_at(cs, 1));
    let first = char_at(cs, 0);
    if (first == 'e' || first == 'E') && lead < cs.len() && is_digit(10, cs[lead]) {
        lead
    } else {
        0
    }
}

// How many digits stand behind a point.
#[tactic(auto, unfolding(crate::specs::Numbers::fraction_count))]
fn fraction_count(cs: &[char]) -> usize
    ensures value { result ≡ fraction_count cs.now }
    ensures within { 0 < result → result < length cs.now }
{
    if !cs.is_empty() && cs[0] == '.' {
        digit_count(10, after(cs, 1))
    } else {
        0
    }
}

fn pointed(fraction: usize) -> usize
    requires { fraction < 2 ^ 32 }
    ensures { result ≡ pointed fraction }
{
    if fraction > 0 { fraction + 1 } else { 0 }
}

// The parts of a decimal that begins here.
#[tactic(auto, unfolding(crate::specs::Numbers::parts_of))]
fn parts_of(cs: &[char]) -> Parts
    requires { length cs.now < 2 ^ 31 }
    ensures value { result ≡ parts_of cs.now }
    ensures within { decimal_width result ≤ length cs.now }
    ensures digits { result.whole + result.fraction ≤ result.mantissa }
{
    let whole = digit_count(10, cs);
    let fraction = fraction_count(after(cs, whole));
    let mantissa = whole + pointed(fraction);
    let rest = after(cs, mantissa);
    let lead = exponent_lead(rest);
    Parts {
        whole,
        fraction,
        mantissa,
        lead,
        exponent: if lead > 0 {
            digit_count(10, after(rest, lead))
        } else {
            0
        },
    }
}

// Whether the decimal has at most 18 digits before the exponent, and an exponent from -18 to 18.
fn is_small(p: Parts, cs: &[char]) -> bool
    requires within { decimal_width p ≤ length cs.now }
    requires digits { p.whole + p.fraction ≤ p.mantissa }
    ensures { result ≡ is_small p cs.now }
{
    if p.whole + p.fraction > 18 {
        return false;
    }
    match value(10, front(after(cs, p.mantissa + p.lead), p.exponent)) {
        Some(n) => n <= 18,
        None => false,
    }
}

fn is_decimal(p: Parts) -> bool
    ensures { result ≡ is_decimal p }
{
    p.fraction > 0 || p.lead > 0
}

/// A token of a number, or a fault at its first digit.
#[tactic(auto, unfolding(crate::specs::Numbers::number_front))]
pub fn number_front(cs: &[char]) -> Front
    requires digit { IsTrue (is_digit 10 (slice_index cs.now 0)) }
    requires some { 0 < length cs.now }
    requires bound { length cs.now < 2 ^ 31 }
    ensures value { result ≡ number_front cs.now }
    ensures within { IsWithin result (length cs.now) }
{
    let parts = parts_of(cs);
    if is_decimal(parts) {
        if !is_small(parts, cs) {
            return FAULT_HERE;
        }
        return Front {
            piece: Piece::Token(TokenForm::Decimal),
            width: parts.mantissa + parts.lead + parts.exponent,
        };
    }
    let numeral = numeral_of(cs);
    if !is_narrow(numeral, cs) {
        return FAULT_HERE;
    }
    Front {
        piece: Piece::Token(TokenForm::Number),
        width: numeral.width,
    }
}

const FAULT_HERE: Front = Front {
    piece: Piece::Fault,
    width: 0,
};
