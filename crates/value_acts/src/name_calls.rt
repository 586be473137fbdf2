// Calls of names: shapes, constants and choices.
ghost use Rattle.std.specs.Prelude.{◌≡◌, ◌≤◌, ◌<◌, length, false, IfOk, IfSome, Ok};
ghost use Rattle.shape_rules.specs.Forms.{IsForm, common};
ghost use Rattle.py_heap.specs.Heaps.{seen};
ghost use Rattle.amh_things.specs.Meant.{number_shape};
ghost use Rattle.value_acts.specs.Names.{signed_shape, number_in, shape_made, width_of_call, shape_given, counted_in, constant_made, number_constant, constant_called, operand_in, mux_made, mux_where, mux_called, name_called};
ghost use Rattle.amh_things.specs.Members.{numbering};
ghost use Rattle.amh_things.specs.Operands.{IsOperand};
ghost use Rattle.amh_things.specs.Plans.{ends_of, refusal_of, IsPlanned, IsDrafted, MakesConstant};
ghost use Rattle.amh_things.specs.Held.{AreHeld};

use amh_bits::Int;
use amh_things::arguments::Arguments;
use amh_things::comparing::counted;
use amh_things::given::Given;
use amh_things::meant::{number_shape, shape_meant};
use amh_things::operand::{Operand, constant_shape, note_form, number_of, operand_of, wrapped};
use amh_things::plan::{Ends, Plan, PlanStop, raised};
use amh_things::queue::Queue;
use amh_things::shown::Shown;
use amh_things::thing::{Thing, ThingName};
use amh_things::values::Values;
use design_ir::{Expr, Exprs};
use py_frames::request::Cause;
use py_values::{Hw, Val};
use shape_rules::{Op, Shape, work_of};
use std::alloc::Global;

// ---- shapes

// So many bits with a sign.
fn signed_shape(n: Option<Int>) -> Result<Shape, Cause>
    ensures { result ≡ signed_shape n }
{
    match n {
        Some(n) => {
            if n.negative || n.size == 0 {
                Err(Cause::Raised)
            } else if n.size > 128 {
                Err(Cause::Width)
            } else {
                Ok(Shape {
                    width: n.size as u8,
                    signed: true,
                })
            }
        }
        None => Err(Cause::Raised),
    }
}

pub fn number_in(v: Option<Val>) -> Option<Int>
    ensures { result ≡ number_in v }
{
    match v {
        Some(v) => number_of(&v),
        None => None,
    }
}

// A shape as a thing.
fn shape_made(alloc: Global, ends: Ends, shape: Result<Shape, Cause>) -> Result<Plan, PlanStop>
    ensures { IsPlanned result (shape_made ends shape) }
{
    match shape {
        Ok(shape) => ends.thing(alloc, Thing::Shape(shape)),
        Err(why) => Err(PlanStop::Refused(why)),
    }
}

// The width that `unsigned` or `signed` is called with.
fn width_of_call(arguments: &Arguments<'_>) -> Option<Int>
    ensures { result ≡ width_of_call arguments.now }
{
    if arguments.fits(&["width"]) {
        number_in(arguments.argument(0, "width"))
    } else {
        None
    }
}

// ---- constants

// The shape of a constant: the one that is given, and else the least one.
fn shape_given(
    values: &Values,
    shown: &Shown<'_>,
    n: Int,
    shape: Option<Val>,
) -> Result<Shape, Cause>
    ensures { result ≡ shape_given (seen shown.now.frozen.now shown.now.heap.now) values.now n shape }
{
    match shape {
        None | Some(Val::None) => Ok(constant_shape(n)),
        Some(v) => shape_meant(values, shown.heap, shown.frozen, &v),
    }
}

// The enumeration that a shape is.
fn numbering(values: &Values, shape: Option<Val>) -> Option<Hw>
    ensures { result ≡ numbering values.now shape }
{
    match shape {
        Some(Val::Hw(hw)) => values.numbering_at(hw),
        _ => None,
    }
}

fn counted_in(values: &Values, v: Option<Val>) -> Option<Int>
    ensures { result ≡ counted_in values.now v }
{
    match v {
        Some(v) => counted(values, &v),
        None => None,
    }
}

fn constant_made(
    alloc: Global,
    ends: Ends,
    of: Option<Hw>,
    n: Int,
    shape: Result<Shape, Cause>,
) -> Result<Plan, PlanStop>
    ensures planned { IsPlanned result (constant_made ends of n shape) }
    ensures constant { IfOk result (MakesConstant ends) }
{
    match shape {
        Ok(shape) => {
            note_form(shape);
            let value = wrapped(n, shape);
            ends.valued(alloc, of, Queue::new(alloc), Expr::Const { value, shape })
        }
        Err(why) => Err(PlanStop::Refused(why)),
    }
}

// `Const(value, shape=None)`.
fn constant_called(
    alloc: Global,
    values: &Values,
    ends: Ends,
    given: &Given<'_>,
) -> Result<Plan, PlanStop>
    ensures planned { IsPlanned result (constant_called (seen given.now.shown.frozen.now given.now.shown.heap.now) ends values.now given.now.arguments) }
    ensures constant { IfOk result (MakesConstant ends) }
{
    let arguments = &given.arguments;
    if !arguments.fits(&["value", "shape"]) {
        return Err(raised());
    }
    match counted_in(values, arguments.argument(0, "value")) {
        Some(n) => {
            let of = numbering(values, arguments.argument(1, "shape"));
            let shape = shape_given(values, &given.shown, n, arguments.argument(1, "shape"));
            constant_made(alloc, ends, of, n, shape)
        }
        None => Err(raised()),
    }
}

// ---- choices

// Why a choice of two values of these shapes is refused.
fn refusal_of(x: Shape, y: Shape) -> Option<Cause>
    ensures { result ≡ refusal_of false (common x y).width }
{
    match work_of(Op::Eq, x, y) {
        Ok(_) => None,
        Err(_) => Some(Cause::Width),
    }
}

fn mux_made(
    alloc: Global,
    ends: Ends,
    s: &Operand,
    x: &Operand,
    y: &Operand,
) -> Result<Plan, PlanStop>
    ensures { IsPlanned result (mux_made ends s.now x.now y.now) }
{
    if let Some(why) = refusal_of(x.shape(), y.shape()) {
        return Err(PlanStop::Refused(why));
    }
    let mut exprs = Queue::new(alloc);
    let Ok(()) = s.draft(&mut exprs) else {
        return Err(PlanStop::NoMemory);
    };
    let Ok(()) = x.draft(&mut exprs) else {
        return Err(PlanStop::NoMemory);
    };
    let Ok(()) = y.draft(&mut exprs) else {
        return Err(PlanStop::NoMemory);
    };
    let next = ends.exprs();
    let mux = Expr::Mux {
        s: s.id(next),
        a: x.id(next + s.count()),
        b: y.id(next + s.count() + x.count()),
    };
    ends.value(alloc, exprs, mux)
}

fn mux_where(
    alloc: Global,
    ends: Ends,
    s: Option<Operand>,
    x: Option<Operand>,
    y: Option<Operand>,
) -> Result<Plan, PlanStop>
    ensures { IsPlanned result (mux_where ends s x y) }
{
    match (s, x, y) {
        (Some(s), Some(x), Some(y)) => mux_made(alloc, ends, &s, &x, &y),
        _ => Err(raised()),
    }
}

// What an argument is as an operand.
pub fn operand_in<P: Exprs>(pool: &P, values: &Values, v: Option<Val>) -> Option<Operand>
    requires held { AreHeld (length (P.pooled pool.now).exprs) values.now }
    ensures value { result ≡ operand_in (P.pooled pool.now) values.now v }
    ensures sound { IfSome result (IsOperand (P.pooled pool.now)) }
{
    match v {
        Some(v) => operand_of(pool, values, &v),
        None => None,
    }
}

// `Mux(sel, val1, val0)`.
fn mux_called<P: Exprs>(
    alloc: Global,
    pool: &P,
    values: &Values,
    ends: Ends,
    arguments: &Arguments<'_>,
) -> Result<Plan, PlanStop>
    requires held { AreHeld (length (P.pooled pool.now).exprs) values.now }
    requires ends { ends ≡ ends_of (P.pooled pool.now) values.now }
    ensures planned { IsPlanned result (mux_called (P.pooled pool.now) values.now arguments.now) }
    ensures drafted { IfOk result (IsDrafted (P.pooled pool.now)) }
{
    if !arguments.fits(&["sel", "val1", "val0"]) {
        return Err(raised());
    }
    let s = operand_in(pool, values, arguments.argument(0, "sel"));
    let x = operand_in(pool, values, arguments.argument(1, "val1"));
    let y = operand_in(pool, values, arguments.argument(2, "val0"));
    mux_where(alloc, ends, s, x, y)
}

/// A call of a name.
pub fn name_called<P: Exprs>(
    alloc: Global,
    pool: &P,
    values: &Values,
    ends: Ends,
    name: ThingName,
    given: &Given<'_>,
) -> Result<Plan, PlanStop>
    requires held { AreHeld (length (P.pooled pool.now).exprs) values.now }
    requires ends { ends ≡ ends_of (P.pooled pool.now) values.now }
    ensures planned { IsPlanned result (name_called (seen given.now.shown.frozen.now given.now.shown.heap.now) (P.pooled pool.now) values.now name given.now.arguments) }
    ensures drafted { IfOk result (IsDrafted (P.pooled pool.now)) }
{
    let arguments = &given.arguments;
    match name {
        ThingName::Const | ThingName::C => constant_called(alloc, values, ends, given),
        ThingName::Mux => mux_called(alloc, pool, values, ends, arguments),
        ThingName::Unsigned => shape_made(alloc, ends, number_shape(width_of_call(arguments))),
        ThingName::Signed => shape_made(alloc, ends, signed_shape(width_of_call(arguments))),
        _ => Err(raised()),
    }
}
