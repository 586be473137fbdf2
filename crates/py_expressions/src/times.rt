// Times in femtoseconds, exactly: quotients of whole numbers by any power of ten, digit by digit.
ghost use Rattle.std.specs.Prelude.{◌≡◌, ◌<◌, ◌≤◌, ◌+◌, ◌*◌, ◌/◌, ◌^◌};
ghost use Rattle.py_frames.specs.Times.{decimal_time, divided_time, quotient_time};
ghost use Rattle.py_tree.specs.declared.number.Amount.TheVariants as amount;
ghost use Rattle.py_expressions.specs.Time_parts.{within_64, kept_of, Exponent_is};

use py_tree::{Amount, Decimal};

// A quotient past this is no time.
const LIMIT: u128 = 18_446_744_073_709_551_616;

// One digit more of a quotient, and the remainder behind it.
#[derive(Drop)]
struct Digit {
    digit: u128,
    rest: u128,
}

fn next_digit(rest: u128, by: u128) -> Digit
    requires { rest < by }
    ensures whole { 10 * rest ≡ result.digit * by + result.rest }
    ensures below { result.rest < by }
    ensures small { result.digit ≤ 10 }
{
    let gap = by - rest;
    let mut digit = 0;
    let mut sum = 0;
    for _turn in 0..10u8 {
        if sum >= gap {
            sum -= gap;
            digit += 1;
        } else {
            sum += rest;
        }
    }
    Digit { digit, rest: sum }
}

// The whole part of a number with so many zeros behind it by another one, where it is below 2^64.
#[tactic(auto, using(crate::proofs::ExprTimes::next_whole, crate::proofs::ExprTimes::past_limit, crate::proofs::ExprTimes::at_end, crate::proofs::ExprTimes::within_some, crate::proofs::ExprTimes::within_none))]
fn scaled(n: u128, by: u128, zeros: u32) -> Option<u64>
    requires { 0 < by }
    ensures { result ≡ within_64 (n * 10 ^ zeros / by) }
{
    let mut quotient = n / by;
    let mut rest = n % by;
    for _turn in 0..zeros {
        if quotient >= LIMIT {
            return None;
        }
        let next = next_digit(rest, by);
        quotient = quotient * 10 + next.digit;
        rest = next.rest;
    }
    if quotient >= LIMIT {
        return None;
    }
    Some(quotient as u64)
}

// The whole part of a number by so many tens.
#[tactic(auto, using(crate::proofs::ExprTimes::tens_more))]
fn without_digits(n: u128, digits: u32) -> u128
    ensures { result ≡ n / 10 ^ digits }
{
    let mut rest = n;
    for _turn in 0..digits {
        rest = rest / 10;
    }
    rest
}

// A time of so many femtoseconds, made even, where it is below 2^63.
fn kept(quotient: Option<u64>) -> Option<u64>
    ensures { result ≡ kept_of quotient }
{
    match quotient {
        None => None,
        Some(n) => {
            let even = n - n % 2;
            if even < 9_223_372_036_854_775_808 {
                Some(even)
            } else {
                None
            }
        }
    }
}

// An exponent: so many zeros behind a number, or one more than so many digits of it behind the point.
#[derive(Drop)]
enum Exponent {
    Zeros(u8),
    Behind(u8),
}

fn power_of_ten(d: Decimal) -> Exponent
    ensures { Exponent_is result d.exponent }
{
    if d.exponent >= 0 {
        Exponent::Zeros(d.exponent as u8)
    } else {
        Exponent::Behind((-(d.exponent as i32 + 1)) as u8)
    }
}

// A number that may be a time of so many femtoseconds.
#[tactic(auto, using(crate::proofs::ExprTimes::within_some, crate::proofs::ExprTimes::within_none))]
fn limited(n: u128) -> Option<u64>
    ensures { result ≡ within_64 n }
{
    if n >= LIMIT {
        return None;
    }
    Some(n as u64)
}

/// So many seconds, as femtoseconds.
#[tactic(auto, using(crate::proofs::ExprTimes::decimal_zeros, crate::proofs::ExprTimes::decimal_behind))]
pub fn decimal_time(d: Decimal) -> Option<u64>
    ensures { result ≡ decimal_time d }
{
    let n = u128::from(d.digits);
    match power_of_ten(d) {
        Exponent::Zeros(e) => kept(scaled(n, 1, u32::from(e) + 15)),
        Exponent::Behind(e) => {
            let whole = without_digits(n * 1_000_000_000_000_000, u32::from(e) + 1);
            kept(limited(whole))
        }
    }
}

// By a number with so many zeros behind it.
#[tactic(auto, using(crate::proofs::ExprTimes::zeros_few, crate::proofs::ExprTimes::zeros_many))]
fn by_zeros(n: u128, by: u128, zeros: u8) -> Option<u64>
    requires { 0 < by }
    ensures { result ≡ quotient_time n (by * 10 ^ zeros) }
{
    if zeros <= 15 {
        return kept(scaled(n, by, 15 - u32::from(zeros)));
    }
    kept(limited(without_digits(n / by, u32::from(zeros) - 15)))
}

#[tactic(auto, using(crate::proofs::ExprTimes::decimal_zero, crate::proofs::ExprTimes::by_decimal_zeros, crate::proofs::ExprTimes::by_decimal_behind))]
fn by_decimal(n: u128, d: Decimal) -> Option<u64>
    ensures { result ≡ divided_time n (amount.Decimal d) }
{
    let by = u128::from(d.digits);
    if by == 0 {
        return None;
    }
    match power_of_ten(d) {
        Exponent::Zeros(e) => by_zeros(n, by, e),
        Exponent::Behind(e) => kept(scaled(n, by, u32::from(e) + 16)),
    }
}

/// A whole number of seconds by an amount, as femtoseconds.
#[tactic(auto, using(crate::proofs::ExprTimes::number_zero, crate::proofs::ExprTimes::number_by))]
pub fn divided_time(n: u128, by: Amount) -> Option<u64>
    ensures { result ≡ divided_time n by }
{
    match by {
        Amount::Number(m) => {
            if m == 0 {
                return None;
            }
            kept(scaled(n, m, 15))
        }
        Amount::Decimal(d) => by_decimal(n, d),
    }
}
