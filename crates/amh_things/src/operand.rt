// Operands: what an operator or a call takes for a value.
ghost use Rattle.std.specs.Prelude.{◌≡◌, ◌<◌, ◌≤◌, ◌^◌, ◌++◌, length, nat_lt, slice_get, option_map, IfSome, OnOk, None, Some};
ghost use Rattle.amh_bits.specs.Integers.{IsKept, sign_of};
ghost use Rattle.amh_bits.specs.Patterns.{IsOf, wrap};
ghost use Rattle.shape_rules.specs.Forms.{IsForm};
ghost use Rattle.py_values.specs.declared.val.Val.TheVariants as val;
ghost use Rattle.py_values.specs.Numbers.{number_of, bit_number};
ghost use Rattle.py_builtins.specs.Scalars.{bit_length, width_of};
ghost use Rattle.amh_things.specs.Operands.{constant_form, operand_form, operand_constants, operand_id, operand_of, held_operand, member_operand, number_operand, IsOperand};
ghost use Rattle.amh_things.specs.Held.{AreHeld};
ghost use Rattle.amh_things.specs.Plans.{IsPlanned};
ghost use Rattle.amh_things.specs.Things.{held_expr, shown_member};

use crate::queue::Queue;
use crate::values::Values;
use amh_bits::Int;
use design_ir::{Expr, ExprId, Exprs};
use lists::NoMemory;
use py_values::{Hw, Val};
use shape_rules::Shape;

/// A value as it is, or a number as a constant.
#[derive(Clone, Copy, PartialEq, Eq, Drop)]
pub enum Operand {
    /// The value of an expression, which has this shape.
    Held { e: ExprId, shape: Shape },
    /// A number of this shape.
    Number { value: Int, shape: Shape },
}

impl Operand {
    /// The shape of its value.
    pub fn shape(&self) -> Shape
        ensures { result ≡ operand_form self.now }
    {
        match self {
            Operand::Held { shape, .. } => *shape,
            Operand::Number { shape, .. } => *shape,
        }
    }

    /// The expression that it is, where the next constant gets this number.
    pub fn id(&self, next: u32) -> ExprId
        ensures { result ≡ operand_id next self.now }
    {
        match self {
            Operand::Held { e, .. } => *e,
            Operand::Number { .. } => ExprId(next),
        }
    }

    /// How many constants it brings: 1 where it is a number.
    pub fn count(&self) -> u32
        ensures value { result ≡ length (operand_constants self.now) }
        ensures few { result ≤ 1 }
    {
        match self {
            Operand::Held { .. } => 0,
            Operand::Number { .. } => 1,
        }
    }

    /// Puts the constant that it brings behind other expressions.
    pub fn draft(&self, exprs: &mut Queue<Expr>) -> Result<(), NoMemory>
        ensures { OnOk result (exprs.new ≡ exprs.old ++ operand_constants self.now) }
    {
        match self {
            Operand::Held { .. } => Ok(()),
            Operand::Number { value, shape } => exprs.push(Expr::Const {
                value: *value,
                shape: *shape,
            }),
        }
    }
}

/// What a value of the program is as an operand.
pub fn operand_of<P: Exprs>(pool: &P, values: &Values, v: &Val) -> Option<Operand>
    requires held { AreHeld (length (P.pooled pool.now).exprs) values.now }
    ensures value { result ≡ operand_of (P.pooled pool.now) values.now v.now }
    ensures sound { IfSome result (IsOperand (P.pooled pool.now)) }
{
    match v {
        Val::Hw(hw) => thing_operand(pool, values, *hw),
        _ => match number_of(v) {
            Some(n) => Some(number_operand(n)),
            None => None,
        },
    }
}

// The value that a thing stands for.
fn held_operand<P: Exprs>(pool: &P, values: &Values, hw: Hw) -> Option<Operand>
    requires held { AreHeld (length (P.pooled pool.now).exprs) values.now }
    ensures value { result ≡ option_map (held_operand (P.pooled pool.now)) (held_expr (slice_get values.now hw.0)) }
    ensures sound { IfSome result (IsOperand (P.pooled pool.now)) }
{
    match values.expr(hw) {
        Some(e) => Some(Operand::Held {
            e,
            shape: pool.shape(e),
        }),
        None => None,
    }
}

fn number_of_shape(value: Int, shape: Shape) -> Operand
    ensures { result ≡ Operand.Number value shape }
{
    Operand::Number { value, shape }
}

// A member's number, of the shape of its enumeration.
fn member_operand<P: Exprs>(_pool: &P, values: &Values, hw: Hw) -> Option<Operand>
    requires held { AreHeld (length (P.pooled _pool.now).exprs) values.now }
    ensures value { result ≡ option_map member_operand (shown_member (slice_get values.now hw.0)) }
    ensures sound { IfSome result (IsOperand (P.pooled _pool.now)) }
{
    match values.shown_member(hw) {
        Some(m) => Some(number_of_shape(m.number, m.shape)),
        None => None,
    }
}

// What a thing is as an operand.
fn thing_operand<P: Exprs>(pool: &P, values: &Values, hw: Hw) -> Option<Operand>
    requires held { AreHeld (length (P.pooled pool.now).exprs) values.now }
    ensures value { result ≡ operand_of (P.pooled pool.now) values.now (val.Hw hw) }
    ensures sound { IfSome result (IsOperand (P.pooled pool.now)) }
{
    match held_operand(pool, values, hw) {
        Some(x) => Some(x),
        None => member_operand(pool, values, hw),
    }
}

/// A number as an operand.
pub fn number_operand(value: Int) -> Operand
    ensures value { result ≡ number_operand value }
    ensures sound { IsForm (constant_form value).width (constant_form value).signed × IsOf (constant_form value).signed (constant_form value).width value }
{
    note_kept(value);
    Operand::Number {
        value,
        shape: constant_shape(value),
    }
}

// ---- numbers

fn power_of_two(k: u32) -> u128
    requires { k < 128 }
    ensures { result ≡ 2 ^ k }
{
    1 << k
}

// Whether a number is below 2^k.
fn is_below_power(n: u128, k: u32) -> bool
    requires { k < 128 }
    ensures { result ≡ nat_lt n (2 ^ k) }
{
    n < power_of_two(k)
}

/// The least k with the number below 2^k.
pub fn bit_length(n: u128) -> u8
    ensures least { result ≡ bit_length n }
    ensures small { result ≤ 128 }
{
    for k in 0..128 {
        if is_below_power(n, k) {
            return k as u8;
        }
    }
    128
}

/// The shape of a number as a constant.
pub fn constant_shape(n: Int) -> Shape
    ensures { result ≡ constant_form n }
{
    if n.negative {
        Shape {
            width: bit_length(n.size - 1) + 1,
            signed: true,
        }
    } else {
        Shape {
            width: bit_length(n.size).max(1),
            signed: false,
        }
    }
}

/// Nothing is done; callers learn from it that an integer is kept.
pub fn note_kept(n: Int)
    ensures { IsKept n }
{
    let _size = n.size;
}

/// Nothing is done; callers learn from it that a shape is one.
pub fn note_form(shape: Shape)
    ensures { IsForm shape.width shape.signed }
{
    let _width = shape.width;
}

/// The bits of a shape.
pub fn width_of(shape: Shape) -> u8
    ensures { result ≡ shape.width }
{
    shape.width
}

/// Whether the highest bit of a shape counts as minus.
pub fn is_signed(shape: Shape) -> bool
    ensures { result ≡ shape.signed }
{
    shape.signed
}

/// A number wrapped to a shape.
pub fn wrapped(n: Int, shape: Shape) -> Int
    ensures { result ≡ wrap shape.signed shape.width n }
{
    n.wrap(shape.width, shape.signed)
}

// The number that a boolean is.
fn bit_number(b: bool) -> Int
    ensures { result ≡ bit_number b }
{
    if b { Int::of_u128(1) } else { Int::of_u128(0) }
}

/// The number that a value is, where it is one.
pub fn number_of(v: &Val) -> Option<Int>
    ensures { result ≡ number_of v.now }
{
    match v {
        Val::Bool(b) => Some(bit_number(*b)),
        Val::Int(n) => Some(n.int()),
        _ => None,
    }
}
