// The integer that each operator gives.

ghost use Rattle.std.specs.Prelude.{◌≡◌, ◌≤◌, ◌^◌, pos, neg_ℤ, ◌+ℤ◌, ◌-ℤ◌, ◌*ℤ◌, int_lt, int_le, not, unsigned_abs, ◌==◌, ◌-◌, count_ones, ◌%◌};
ghost use Rattle.amh_bits.specs.Integers.{IsKept, int_and, int_or, int_xor, floor_div, floor_rem, floor_quotient};
ghost use Rattle.amh_bits.specs.Patterns.{IsOf, pattern};
ghost use Rattle.shape_rules.specs.Operators.{form_of, integer_of, turned, truth, is_zero, int_same};
ghost use Rattle.shape_rules.specs.Stops.{IsTaken};

use crate::op::Op;
use crate::operators;
use crate::shape::Shape;
use amh_bits::Int;

/// The integer that the operator gives at x of shape a and y of shape b; it is of the shape that `shape_of` gives.
///
/// It needs operands that `shape_of` takes. For an operator of one operand b and y are not looked at.
pub fn compute(op: Op, a: Shape, x: Int, b: Shape, y: Int) -> Int
    requires taken { IsTaken op a b }
    requires left { IsOf a.signed a.width x }
    requires right { IsOf b.signed b.width y }
    ensures value { result ≡ integer_of op a x b y }
    ensures fits { IsOf (form_of op a b).signed (form_of op a b).width result }
{
    // Of the shapes it is to be known that a signed one has a bit.
    let _ = (a.width, b.width);
    let x = Operand {
        shape: a,
        number: x,
    };
    let y = Operand {
        shape: b,
        number: y,
    };
    integer(op, x, y)
}

// An operand: an integer, and its shape.
#[derive(Clone, Copy)]
struct Operand {
    shape: Shape,
    number: Int,
}

macro_rules! integer_arms {
    (($of:ident $x:ident $y:ident) $(($op:ident $operands:tt $cell:ident $result:ident $work:ident $integer:ident))*) => {
        match $of {
            $(Op::$op => integer_arm!($operands $integer $x $y),)*
        }
    };
}

macro_rules! integer_arm {
    (1 $rule:ident $x:ident $y:ident) => {
        $rule($x)
    };
    (2 $rule:ident $x:ident $y:ident) => {
        $rule($x, $y)
    };
}

fn integer(op: Op, x: Operand, y: Operand) -> Int
    requires { IsKept (integer_of op x.shape x.number y.shape y.number) }
    ensures { result ≡ integer_of op x.shape x.number y.shape y.number }
{
    operators!(integer_arms(op x y))
}

fn sum(x: Operand, y: Operand) -> Int
    requires { IsKept (x.number +ℤ y.number) }
    ensures { result ≡ x.number +ℤ y.number }
{
    x.number.add(y.number).unwrap()
}

fn difference(x: Operand, y: Operand) -> Int
    requires { IsKept (x.number -ℤ y.number) }
    ensures { result ≡ x.number -ℤ y.number }
{
    x.number.sub(y.number).unwrap()
}

fn opposite(x: Operand) -> Int
    requires { IsKept (neg_ℤ x.number) }
    ensures { result ≡ neg_ℤ x.number }
{
    Int::of_u128(0).sub(x.number).unwrap()
}

fn product(x: Operand, y: Operand) -> Int
    requires { IsKept (x.number *ℤ y.number) }
    ensures { result ≡ x.number *ℤ y.number }
{
    x.number.mul(y.number).unwrap()
}

fn quotient(x: Operand, y: Operand) -> Int
    requires { IsKept (floor_div x.number y.number) }
    ensures { result ≡ floor_div x.number y.number }
{
    x.number.floor_div(y.number).unwrap()
}

fn remainder(x: Operand, y: Operand) -> Int
    ensures { result ≡ floor_rem x.number y.number }
{
    x.number.floor_rem(y.number)
}

fn magnitude(x: Operand) -> Int
    ensures { result ≡ pos (unsigned_abs x.number) }
{
    Int::of_u128(size_of(x.number))
}

// Each bit turned; of an unsigned operand, up to its width.
fn turned(x: Operand) -> Int
    requires { IsKept (turned x.shape x.number) }
    ensures { result ≡ turned x.shape x.number }
{
    if x.shape.signed {
        x.number.not().unwrap()
    } else {
        all_ones(x.shape.width).sub(x.number).unwrap()
    }
}

fn bits_of_both(x: Operand, y: Operand) -> Int
    requires { IsKept (int_and x.number y.number) }
    ensures { result ≡ int_and x.number y.number }
{
    x.number.and(y.number).unwrap()
}

fn bits_of_either(x: Operand, y: Operand) -> Int
    requires { IsKept (int_or x.number y.number) }
    ensures { result ≡ int_or x.number y.number }
{
    x.number.or(y.number).unwrap()
}

fn bits_of_one(x: Operand, y: Operand) -> Int
    requires { IsKept (int_xor x.number y.number) }
    ensures { result ≡ int_xor x.number y.number }
{
    x.number.xor(y.number).unwrap()
}

fn equal(x: Operand, y: Operand) -> Int
    ensures { result ≡ truth (int_same x.number y.number) }
{
    truth(x.number == y.number)
}

fn unequal(x: Operand, y: Operand) -> Int
    ensures { result ≡ truth (not (int_same x.number y.number)) }
{
    truth(x.number != y.number)
}

fn less(x: Operand, y: Operand) -> Int
    ensures { result ≡ truth (int_lt x.number y.number) }
{
    truth(x.number.less(y.number))
}

fn at_most(x: Operand, y: Operand) -> Int
    ensures { result ≡ truth (int_le x.number y.number) }
{
    truth(!y.number.less(x.number))
}

fn greater(x: Operand, y: Operand) -> Int
    ensures { result ≡ truth (int_lt y.number x.number) }
{
    truth(y.number.less(x.number))
}

fn at_least(x: Operand, y: Operand) -> Int
    ensures { result ≡ truth (int_le y.number x.number) }
{
    truth(!x.number.less(y.number))
}

fn any_bit(x: Operand) -> Int
    ensures { result ≡ truth (not (is_zero x.number)) }
{
    truth(x.number.size != 0)
}

fn all_bits(x: Operand) -> Int
    ensures { result ≡ truth (pattern x.shape.width x.number == 2 ^ x.shape.width - 1) }
{
    let width = x.shape.width;
    truth(x.number.to_bits(width).bits == all_ones(width).size)
}

fn parity(x: Operand) -> Int
    ensures { result ≡ pos (count_ones (pattern x.shape.width x.number) % 2) }
{
    let bits = x.number.to_bits(x.shape.width);
    Int::of_u128((bits.bits.count_ones() % 2) as u128)
}

// A greater amount than 127 takes every integer but 0 out of the range.
#[tactic(auto, using(crate::proofs::Amounts::near))]
fn shifted_up(x: Operand, y: Operand) -> Int
    requires { IsKept (x.number *ℤ pos (2 ^ unsigned_abs y.number)) }
    ensures { result ≡ x.number *ℤ pos (2 ^ unsigned_abs y.number) }
{
    if size_of(x.number) == 0 {
        return x.number;
    }
    x.number.shl(size_of(y.number) as u32).unwrap()
}

// A greater amount than 127 leaves the sign alone.
#[tactic(auto, using(amh_bits::proofs::Masks::far))]
fn shifted_down(x: Operand, y: Operand) -> Int
    ensures { result ≡ floor_quotient x.number (2 ^ unsigned_abs y.number) }
{
    let by = size_of(y.number);
    if by < 128 {
        return x.number.shr(by as u32);
    }
    if x.number.negative {
        Int::of_i128(-1)
    } else {
        Int::of_i128(0)
    }
}

fn size_of(number: Int) -> u128
    ensures { result ≡ unsigned_abs number }
{
    number.size
}

// 1 where the test holds.
fn truth(holds: bool) -> Int
    ensures { result ≡ truth holds }
{
    Int::of_u128(holds as u128)
}

// The greatest integer of an unsigned shape.
fn all_ones(width: u8) -> Int
    requires { width ≤ 128 }
    ensures { result ≡ pos (2 ^ width - 1) }
{
    Int::of_i128(-1).wrap(width, false)
}
