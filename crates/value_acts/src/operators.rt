// Operators with a value among their operands.
ghost use Rattle.std.specs.Prelude.{◌≡◌, ◌++◌, ◌∷◌, [], codes, length, IfOk, Result};
ghost use Rattle.shape_rules.specs.Stops.{is_bad_operand, widest};
ghost use Rattle.value_acts.specs.Operators.{is_sign, comparison, bitwise_or_shift, binary_operator, unary_operator, unary_made, binary_made, unary_where, binary_where, both_operated, operated};
ghost use Rattle.amh_things.specs.Plans.{ends_of, refusal_of, IsPlanned, IsDrafted};
ghost use Rattle.amh_things.specs.Held.{AreHeld};
ghost use Rattle.amh_things.specs.Members.{unless_compared};
ghost use Rattle.design_ir.specs.Pools.{Pooled};
ghost use Rattle.py_frames.specs.declared.request.Cause.{Cause};
ghost use Rattle.amh_things.specs.declared.plan.Plan.{Plan as Owed};

use amh_things::comparing::compared;
use amh_things::operand::{Operand, operand_of};
use amh_things::plan::{Ends, Plan, PlanStop, raised, value_given};
use amh_things::queue::Queue;
use amh_things::texts::is_text;
use amh_things::values::Values;
use design_ir::{Expr, Exprs};
use py_frames::request::Cause;
use py_values::Val;
use shape_rules::{Op, Shape, ShapeStop, shape_of};
use std::alloc::Global;

// ---- signs

// Whether a text is a sign, or its augmented form.
fn is_sign(plain: &str, augmented: &str, sign: &str) -> bool
    requires { augmented.now ≡ plain.now ++ codes "=" }
    ensures { result ≡ is_sign plain.now sign.now }
{
    is_text(sign, plain) || is_text(sign, augmented)
}

fn comparison(sign: &str) -> Option<Op>
    ensures { result ≡ comparison sign.now }
{
    if is_text(sign, "==") {
        Some(Op::Eq)
    } else if is_text(sign, "!=") {
        Some(Op::Ne)
    } else if is_text(sign, "<") {
        Some(Op::Lt)
    } else if is_text(sign, "<=") {
        Some(Op::Le)
    } else if is_text(sign, ">") {
        Some(Op::Gt)
    } else if is_text(sign, ">=") {
        Some(Op::Ge)
    } else {
        None
    }
}

fn bitwise_or_shift(sign: &str) -> Option<Op>
    ensures { result ≡ bitwise_or_shift sign.now }
{
    if is_sign("&", "&=", sign) {
        Some(Op::And)
    } else if is_sign("|", "|=", sign) {
        Some(Op::Or)
    } else if is_sign("^", "^=", sign) {
        Some(Op::Xor)
    } else if is_sign("<<", "<<=", sign) {
        Some(Op::Shl)
    } else if is_sign(">>", ">>=", sign) {
        Some(Op::Shr)
    } else {
        comparison(sign)
    }
}

// The operator of two operands that has this sign.
fn binary_operator(sign: &str) -> Option<Op>
    ensures { result ≡ binary_operator sign.now }
{
    if is_sign("+", "+=", sign) {
        Some(Op::Add)
    } else if is_sign("-", "-=", sign) {
        Some(Op::Sub)
    } else if is_sign("*", "*=", sign) {
        Some(Op::Mul)
    } else if is_sign("//", "//=", sign) {
        Some(Op::Div)
    } else if is_sign("%", "%=", sign) {
        Some(Op::Mod)
    } else {
        bitwise_or_shift(sign)
    }
}

// The operator of one operand that has this sign.
fn unary_operator(sign: &str) -> Option<Op>
    ensures { result ≡ unary_operator sign.now }
{
    if is_text(sign, "-") {
        Some(Op::Neg)
    } else if is_text(sign, "~") {
        Some(Op::Not)
    } else if is_text(sign, "abs") {
        Some(Op::Abs)
    } else {
        None
    }
}

// ---- values

// Why an operator is refused at these shapes.
fn refusal_of(op: Op, a: Shape, b: Shape) -> Option<Cause>
    ensures { result ≡ refusal_of (is_bad_operand op b) (widest op a b) }
{
    match shape_of(op, a, b) {
        Ok(_) => None,
        Err(ShapeStop::BadOperand) => Some(Cause::Raised),
        Err(ShapeStop::Width) => Some(Cause::Width),
    }
}

/// An operator of one operand.
pub fn unary_made(alloc: Global, ends: Ends, op: Op, x: &Operand) -> Result<Plan, PlanStop>
    ensures { IsPlanned result (unary_made ends op x.now) }
{
    let none = Shape {
        width: 0,
        signed: false,
    };
    if let Some(why) = refusal_of(op, x.shape(), none) {
        return Err(PlanStop::Refused(why));
    }
    let mut exprs = Queue::new(alloc);
    let Ok(()) = x.draft(&mut exprs) else {
        return Err(PlanStop::NoMemory);
    };
    let a = x.id(ends.exprs());
    ends.value(alloc, exprs, Expr::Unary { op, a })
}

// An operator of two operands.
fn binary_made(
    alloc: Global,
    ends: Ends,
    op: Op,
    x: &Operand,
    y: &Operand,
) -> Result<Plan, PlanStop>
    ensures { IsPlanned result (binary_made ends op x.now y.now) }
{
    if let Some(why) = refusal_of(op, x.shape(), y.shape()) {
        return Err(PlanStop::Refused(why));
    }
    let mut exprs = Queue::new(alloc);
    let Ok(()) = x.draft(&mut exprs) else {
        return Err(PlanStop::NoMemory);
    };
    let Ok(()) = y.draft(&mut exprs) else {
        return Err(PlanStop::NoMemory);
    };
    let a = x.id(ends.exprs());
    let b = y.id(ends.exprs() + x.count());
    ends.value(alloc, exprs, Expr::Binary { op, a, b })
}

fn unary_where(alloc: Global, ends: Ends, sign: &str, x: Option<Operand>) -> Result<Plan, PlanStop>
    ensures { IsPlanned result (unary_where ends (unary_operator sign.now) x) }
{
    match (unary_operator(sign), x) {
        (Some(op), Some(x)) => unary_made(alloc, ends, op, &x),
        _ => Err(raised()),
    }
}

fn binary_where(
    alloc: Global,
    ends: Ends,
    sign: &str,
    x: Option<Operand>,
    y: Option<Operand>,
) -> Result<Plan, PlanStop>
    ensures { IsPlanned result (binary_where ends (binary_operator sign.now) x y) }
{
    match (binary_operator(sign), x, y) {
        (Some(op), Some(x), Some(y)) => binary_made(alloc, ends, op, &x, &y),
        _ => Err(raised()),
    }
}

// What Python alone compares is a boolean.
fn unless_compared(
    alloc: Global,
    equal: Option<bool>,
    made: Result<Plan, PlanStop>,
) -> Result<Plan, PlanStop>
    ensures is { (owed : Result Owed Cause) → IsPlanned made owed → IsPlanned result (unless_compared equal owed) }
    ensures drafted { (p : Pooled) → IfOk made (IsDrafted p) → IfOk result (IsDrafted p) }
{
    match equal {
        Some(equal) => Ok(value_given(alloc, Val::Bool(equal))),
        None => made,
    }
}

// An operator over two things or values.
fn both_operated<P: Exprs>(
    alloc: Global,
    pool: &P,
    values: &Values,
    ends: Ends,
    of: (&Val, &Val),
    sign: &str,
) -> Result<Plan, PlanStop>
    requires held { AreHeld (length (P.pooled pool.now).exprs) values.now }
    requires ends { ends ≡ ends_of (P.pooled pool.now) values.now }
    ensures planned { IsPlanned result (both_operated (P.pooled pool.now) values.now of.entry.0.now of.entry.1.now sign.now) }
    ensures drafted { IfOk result (IsDrafted (P.pooled pool.now)) }
{
    let (a, b) = of;
    let equal = compared(values, a, b, sign);
    let x = operand_of(pool, values, a);
    let y = operand_of(pool, values, b);
    let made = binary_where(alloc, ends, sign, x, y);
    unless_compared(alloc, equal, made)
}

/// An operator over things and values: one operand or two, and its sign.
pub fn operated<P: Exprs>(
    alloc: Global,
    pool: &P,
    values: &Values,
    ends: Ends,
    vals: &[Val],
    sign: &str,
) -> Result<Plan, PlanStop>
    requires held { AreHeld (length (P.pooled pool.now).exprs) values.now }
    requires ends { ends ≡ ends_of (P.pooled pool.now) values.now }
    ensures planned { IsPlanned result (operated (P.pooled pool.now) values.now vals.now sign.now) }
    ensures drafted { IfOk result (IsDrafted (P.pooled pool.now)) }
{
    match vals {
        [a] => {
            let x = operand_of(pool, values, a);
            unary_where(alloc, ends, sign, x)
        }
        [a, b] => both_operated(alloc, pool, values, ends, (a, b), sign),
        _ => Err(raised()),
    }
}
