// Operators on integers and booleans.
ghost use Rattle.std.specs.Prelude.{◌≡◌, ◌↔◌, ◌<ℤ◌, IsTrue, int_lt};
ghost use Rattle.py_values.specs.Numbers.{bit_number, number_of, is_zero, quotient, remainder, calculated, turned, with_bits, with_bit, on_numbers, on_number};
ghost use Rattle.py_values.specs.Widened.{widened};

use crate::number::Number;
use crate::op::PyOp;
use crate::powers::{powered, shifted_down, shifted_up};
use crate::val::{NumberStop, Val};
use amh_bits::{Int, TooWide};

/// The number that a boolean is.
pub fn bit_number(b: bool) -> Int
    ensures { result ≡ bit_number b }
{
    if b { Int::of_u128(1) } else { Int::of_u128(0) }
}

/// The number that a value is, where it is one.
pub fn number_of(v: Val) -> Option<Int>
    ensures { result ≡ number_of v }
{
    match v {
        Val::Bool(b) => Some(bit_number(b)),
        Val::Int(n) => Some(n.int()),
        _ => None,
    }
}

// An integer that may have left the range.
pub(crate) fn widened(n: Result<Int, TooWide>) -> Result<Val, NumberStop>
    ensures { result ≡ widened n }
{
    match n {
        Ok(n) => Ok(Val::Int(Number::of(n))),
        Err(_) => Err(NumberStop::Width),
    }
}

pub fn is_zero(n: Int) -> bool
    ensures { result ≡ is_zero n }
{
    n.size == 0
}

// Whether the first is the smaller one.
pub fn is_less(a: Int, b: Int) -> bool
    ensures { result ≡ int_lt a b }
{
    a.less(b)
}

fn quotient(a: Int, b: Int) -> Result<Val, NumberStop>
    ensures { result ≡ quotient a b }
{
    if is_zero(b) {
        Err(NumberStop::Raised)
    } else {
        widened(a.floor_div(b))
    }
}

fn remainder(a: Int, b: Int) -> Result<Val, NumberStop>
    ensures { result ≡ remainder a b }
{
    if is_zero(b) {
        Err(NumberStop::Raised)
    } else {
        Ok(Val::Int(Number::of(a.floor_rem(b))))
    }
}

/// An operator on two integers.
pub fn calculated(op: PyOp, a: Int, b: Int) -> Result<Val, NumberStop>
    ensures { result ≡ calculated op a b }
{
    match op {
        PyOp::Add => widened(a.add(b)),
        PyOp::Sub => widened(a.sub(b)),
        PyOp::Mul => widened(a.mul(b)),
        PyOp::FloorDiv => quotient(a, b),
        PyOp::Rem => remainder(a, b),
        PyOp::Pow => powered(a, b),
        PyOp::Shl => shifted_up(a, b),
        PyOp::Shr => shifted_down(a, b),
        PyOp::And => widened(a.and(b)),
        PyOp::Or => widened(a.or(b)),
        PyOp::Xor => widened(a.xor(b)),
        PyOp::Lt => Ok(Val::Bool(is_less(a, b))),
        PyOp::Le => Ok(Val::Bool(!is_less(b, a))),
        PyOp::Gt => Ok(Val::Bool(is_less(b, a))),
        PyOp::Ge => Ok(Val::Bool(!is_less(a, b))),
        _ => Err(NumberStop::Raised),
    }
}

// An operator on one integer.
fn turned(op: PyOp, a: Int) -> Result<Val, NumberStop>
    ensures { result ≡ turned op a }
{
    match op {
        PyOp::Neg => widened(Int::of_u128(0).sub(a)),
        PyOp::Pos => Ok(Val::Int(Number::of(a))),
        PyOp::Invert => widened(a.not()),
        _ => Err(NumberStop::Raised),
    }
}

// An operator on two booleans.
fn with_bits(op: PyOp, x: bool, y: bool) -> Result<Val, NumberStop>
    ensures { result ≡ with_bits op x y }
{
    match op {
        PyOp::And => Ok(Val::Bool(x && y)),
        PyOp::Or => Ok(Val::Bool(x || y)),
        PyOp::Xor => Ok(Val::Bool((x && !y) || (!x && y))),
        _ => calculated(op, bit_number(x), bit_number(y)),
    }
}

// An operator on a boolean and another value.
fn with_bit(op: PyOp, x: bool, b: Val) -> Result<Val, NumberStop>
    ensures { result ≡ with_bit op x b }
{
    match b {
        Val::Bool(y) => with_bits(op, x, y),
        Val::Int(n) => calculated(op, bit_number(x), n.int()),
        _ => Err(NumberStop::Raised),
    }
}

/// An operator on two values that are to be numbers.
pub fn on_numbers(op: PyOp, a: Val, b: Val) -> Result<Val, NumberStop>
    ensures { result ≡ on_numbers op a b }
{
    match a {
        Val::Bool(x) => with_bit(op, x, b),
        Val::Int(m) => match number_of(b) {
            Some(n) => calculated(op, m.int(), n),
            None => Err(NumberStop::Raised),
        },
        _ => Err(NumberStop::Raised),
    }
}

/// An operator on one value that is to be a number.
pub fn on_number(op: PyOp, a: Val) -> Result<Val, NumberStop>
    ensures { result ≡ on_number op a }
{
    match number_of(a) {
        Some(m) => turned(op, m),
        None => Err(NumberStop::Raised),
    }
}
