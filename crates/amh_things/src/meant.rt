// What a value of the program stands for where a shape or a value is wanted.
ghost use Rattle.std.specs.Prelude.{◌≡◌, ◌<◌, ◌+◌, ◌≤◌, length, slice_get, Some};
ghost use Rattle.py_heap.specs.Heaps.{seen};
ghost use Rattle.amh_things.specs.Meant.{number_shape, thing_shape, shape_meant, form_meant, operand_meant, expr_meant, Gives};
ghost use Rattle.amh_things.specs.Operands.{IsOperand, operand_constants, operand_id};
ghost use Rattle.amh_things.specs.Plans.{AreDrafted, grown_by};
ghost use Rattle.amh_things.specs.Things.{shown_shape};
ghost use Rattle.amh_things.specs.Held.{AreHeld};

use crate::operand::{Operand, number_of, operand_of};
use crate::plan::{PlanStop, raised};
use crate::putting::put_exprs;
use crate::queue::Queue;
use crate::ranges::range_shape;
use crate::values::Values;
use amh_bits::Int;
use design_ir::{ExprId, Exprs};
use py_frames::request::Cause;
use py_heap::{Frozen, Heap};
use py_values::{Hw, Val};
use shape_rules::Shape;
use std::alloc::Global;

/// So many bits without a sign.
pub fn number_shape(n: Option<Int>) -> Result<Shape, Cause>
    ensures { result ≡ number_shape n }
{
    match n {
        Some(n) => {
            if n.negative {
                Err(Cause::Raised)
            } else if n.size > 128 {
                Err(Cause::Width)
            } else {
                Ok(Shape {
                    width: n.size as u8,
                    signed: false,
                })
            }
        }
        None => Err(Cause::Raised),
    }
}

fn thing_shape(values: &Values, hw: Hw) -> Result<Shape, Cause>
    ensures { result ≡ thing_shape (shown_shape (slice_get values.now hw.0)) }
{
    match values.shape(hw) {
        Some(shape) => Ok(shape),
        None => Err(Cause::Raised),
    }
}

/// The shape that a value of the program is: that of a shape; an integer from 0, which is so many bits without a sign; or a range, which
/// is the least that has all elements. `Width` comes exactly for a shape past 128 bits, and `Raised` for what is no shape.
pub fn shape_meant(values: &Values, heap: &Heap, frozen: &Frozen, v: &Val) -> Result<Shape, Cause>
    ensures { result ≡ shape_meant (seen frozen.now heap.now) values.now v.now }
{
    match v {
        Val::Hw(hw) => thing_shape(values, *hw),
        Val::Range(o) => range_shape(heap, frozen, *o),
        _ => number_shape(number_of(v)),
    }
}

/// The shape of the value that a value of the program is: that of a value, or of the constant that an integer or a boolean is.
pub fn form_meant<P: Exprs>(pool: &P, values: &Values, v: &Val) -> Option<Shape>
    requires { AreHeld (length (P.pooled pool.now).exprs) values.now }
    ensures { result ≡ form_meant (P.pooled pool.now) values.now v.now }
{
    match operand_of(pool, values, v) {
        Some(x) => Some(x.shape()),
        None => None,
    }
}

// The expression of an operand.
fn operand_meant<P: Exprs>(alloc: Global, pool: &mut P, x: &Operand) -> Result<ExprId, PlanStop>
    requires { IsOperand (P.pooled pool.old) x.now }
    ensures { Gives (operand_meant (P.pooled pool.old) (Some x.now)) result (P.pooled pool.old) (P.pooled pool.new) }
{
    let next = pool.count();
    if next + x.count() > 262_144 {
        return Err(PlanStop::Refused(Cause::Limit));
    }
    let mut exprs = Queue::new(alloc);
    let Ok(()) = x.draft(&mut exprs) else {
        return Err(PlanStop::NoMemory);
    };
    match put_exprs(pool, exprs) {
        Ok(()) => Ok(x.id(next)),
        Err(_) => Err(PlanStop::NoMemory),
    }
}

/// The expression that a value of the program is: that of a value, or a constant for an integer or a boolean, which the pool gets.
/// `Raised` comes exactly for what is no value, and `Limit` where the pool would have more than 262,144 expressions.
pub fn expr_meant<P: Exprs>(
    alloc: Global,
    pool: &mut P,
    values: &Values,
    v: &Val,
) -> Result<ExprId, PlanStop>
    requires { AreHeld (length (P.pooled pool.old).exprs) values.now }
    ensures { Gives (expr_meant (P.pooled pool.old) values.now v.now) result (P.pooled pool.old) (P.pooled pool.new) }
{
    match operand_of(pool, values, v) {
        Some(x) => operand_meant(alloc, pool, &x),
        None => Err(raised()),
    }
}
