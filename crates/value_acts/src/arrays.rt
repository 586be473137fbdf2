// `Array(iterable)`, and its elements by an integer or by a value.
ghost use Rattle.std.specs.Prelude.{◌≡◌, ◌<◌, ◌≤◌, ◌∷◌, ◌||◌, [], length, slice_get, false, true, nat_lt, IfOk, IfSome, MatchOption, Some, Ok};
ghost use Rattle.std.specs.Option.{option_and_then};
ghost use Rattle.std.specs.List.{list_any};
ghost use Rattle.design_ir.specs.Values.{form};
ghost use Rattle.py_heap.specs.Heaps.{seen};
ghost use Rattle.py_operators.specs.Elements.{elements};
ghost use Rattle.py_heap.specs.Changes.{index_place};
ghost use Rattle.py_builtins.specs.Indices.{item_of};
ghost use Rattle.py_values.specs.Numbers.{number_of};
ghost use Rattle.value_acts.specs.Arrays.{array_made, array_of, array_called, element_given, common_from, common_form, picked_where, picked, array_indexed};
ghost use Rattle.shape_rules.specs.Forms.{common};
ghost use Rattle.value_acts.specs.Joins.{is_no_operand, operands_of};
ghost use Rattle.amh_things.specs.Things.{held_expr};
ghost use Rattle.amh_things.specs.Plans.{ends_of, value_made, IsPlanned, IsDrafted, MakesThings};
ghost use Rattle.amh_things.specs.Operands.{constants, operand_ids};
ghost use Rattle.design_ir.specs.declared.expr.Expr.TheVariants.{Pick};
ghost use Rattle.amh_things.specs.Held.{AreHeld};

use crate::joins::{Drafted, drafted_all, operands_of};
use amh_bits::Int;
use amh_things::arguments::Arguments;
use amh_things::operand::{Operand, is_signed, number_of};
use amh_things::plan::{Ends, Plan, PlanStop, raised, value_given};
use amh_things::shown::Shown;
use amh_things::thing::Thing;
use amh_things::values::Values;
use design_ir::{Expr, ExprId, Exprs};
use py_frames::request::Cause;
use py_operators::elements;
use py_values::{Hw, Val, ValueStop};
use shape_rules::{Op, Shape, work_of};
use std::alloc::Global;

// ---- arrays

// An array of the elements of a value.
fn array_made(alloc: Global, ends: Ends, shown: &Shown<'_>, v: Val) -> Result<Plan, PlanStop>
    ensures things { IfOk result MakesThings }
    ensures planned { IsPlanned result (array_made ends (elements (seen shown.now.frozen.now shown.now.heap.now) v)) }
{
    match elements(shown.heap, shown.frozen, v) {
        Ok(vals) => ends.thing(alloc, Thing::Array(vals)),
        Err(ValueStop::NoMemory) => Err(PlanStop::NoMemory),
        Err(ValueStop::Limit) => Err(PlanStop::Refused(Cause::Limit)),
        Err(_) => Err(raised()),
    }
}

fn array_of(alloc: Global, ends: Ends, shown: &Shown<'_>, v: Option<Val>) -> Result<Plan, PlanStop>
    ensures things { IfOk result MakesThings }
    ensures planned { IsPlanned result (array_of ends (seen shown.now.frozen.now shown.now.heap.now) v) }
{
    match v {
        Some(Val::List(o)) => array_made(alloc, ends, shown, Val::List(o)),
        Some(Val::Tuple(o)) => array_made(alloc, ends, shown, Val::Tuple(o)),
        Some(Val::Range(o)) => array_made(alloc, ends, shown, Val::Range(o)),
        _ => Err(raised()),
    }
}

/// `Array(iterable)`.
pub fn array_called(
    alloc: Global,
    ends: Ends,
    shown: &Shown<'_>,
    arguments: &Arguments<'_>,
) -> Result<Plan, PlanStop>
    ensures things { IfOk result MakesThings }
    ensures planned { IsPlanned result (array_called (seen shown.now.frozen.now shown.now.heap.now) ends arguments.now) }
{
    if arguments.fits(&["iterable"]) {
        array_of(alloc, ends, shown, arguments.argument(0, "iterable"))
    } else {
        Err(raised())
    }
}

// ---- elements

// Python's place of an index, counted from the end where it is negative.
fn index_place(len: usize, n: Int) -> Option<usize>
    ensures place { result ≡ index_place len n }
    ensures within { IfSome result (λ k. k < len) }
{
    if n.negative {
        if n.size <= len as u128 {
            Some(len - n.size as usize)
        } else {
            None
        }
    } else if n.size < len as u128 {
        Some(n.size as usize)
    } else {
        None
    }
}

// The element at an index.
fn element_at(vals: &[Val], n: Option<Int>) -> Option<Val>
    ensures { result ≡ option_and_then (item_of vals.now) n }
{
    match n {
        Some(n) => match index_place(vals.len(), n) {
            Some(k) => Some(vals[k]),
            None => None,
        },
        None => None,
    }
}

fn element_given(alloc: Global, v: Option<Val>) -> Result<Plan, PlanStop>
    ensures { IsPlanned result (element_given v) }
{
    match v {
        Some(v) => Ok(value_given(alloc, v)),
        None => Err(raised()),
    }
}

// The shape of both.
fn common(a: Shape, b: Shape) -> Option<Shape>
    ensures { MatchOption result (128 < (common a b).width) (λ s. s ≡ common a b) }
{
    match work_of(Op::Eq, a, b) {
        Ok(shape) => Some(shape),
        Err(_) => None,
    }
}

// The shape of one and of others.
fn common_from(shape: Shape, xs: &[Operand]) -> Option<Shape>
    ensures { MatchOption result (128 < (common_from shape xs.now).width) (λ s. s ≡ common_from shape xs.now) }
{
    let mut all = shape;
    for x in xs {
        match common(all, x.shape()) {
            Some(wider) => all = wider,
            None => return None,
        }
    }
    Some(all)
}

// The shape of all of these, and none without bits where there are none.
fn common_form(xs: &[Operand]) -> Option<Shape>
    ensures { MatchOption result (128 < (common_form xs.now).width) (λ s. s ≡ common_form xs.now) }
{
    match xs {
        [first, others @ ..] => common_from(first.shape(), others),
        [] => Some(Shape {
            width: 0,
            signed: false,
        }),
    }
}

// The element that an expression chooses.
fn pick_made(alloc: Global, ends: Ends, e: ExprId, xs: &[Operand]) -> Result<Plan, PlanStop>
    requires { length xs.now ≤ 65536 }
    ensures { IsPlanned result (Ok (value_made ends (constants xs.now) (Pick e (operand_ids ends.exprs xs.now)))) }
{
    match drafted_all(alloc, ends.exprs(), xs) {
        Ok(Drafted { exprs, ids }) => {
            let pick = Expr::Pick {
                index: e,
                items: ids,
            };
            ends.value(alloc, exprs, pick)
        }
        Err(_) => Err(PlanStop::NoMemory),
    }
}

fn picked_where(alloc: Global, ends: Ends, e: ExprId, xs: &[Operand]) -> Result<Plan, PlanStop>
    ensures { IsPlanned result (picked_where ends e false xs.now) }
{
    if xs.is_empty() {
        return Err(raised());
    }
    if common_form(xs).is_none() {
        return Err(PlanStop::Refused(Cause::Width));
    }
    if xs.len() > 65_536 {
        return Err(PlanStop::Refused(Cause::Limit));
    }
    pick_made(alloc, ends, e, xs)
}

// The element that a value chooses.
fn picked<P: Exprs>(
    alloc: Global,
    pool: &P,
    values: &Values,
    ends: Ends,
    hw: Hw,
    vals: &[Val],
) -> Result<Plan, PlanStop>
    requires held { AreHeld (length (P.pooled pool.now).exprs) values.now }
    requires ends { ends ≡ ends_of (P.pooled pool.now) values.now }
    ensures planned { IsPlanned result (picked (P.pooled pool.now) values.now vals.now (held_expr (slice_get values.now hw.0))) }
    ensures drafted { IfOk result (IsDrafted (P.pooled pool.now)) }
{
    let Some(e) = values.expr(hw) else {
        return Err(raised());
    };
    if is_signed(pool.shape(e)) {
        return Err(raised());
    }
    match operands_of(alloc, pool, values, vals) {
        Ok(Some(xs)) => picked_where(alloc, ends, e, xs.as_slice()),
        Ok(None) => Err(raised()),
        Err(_) => Err(PlanStop::NoMemory),
    }
}

/// An element of an array, by its number or by a value.
pub fn array_indexed<P: Exprs>(
    alloc: Global,
    pool: &P,
    values: &Values,
    ends: Ends,
    vals: &[Val],
    parts: &[Val],
) -> Result<Plan, PlanStop>
    requires held { AreHeld (length (P.pooled pool.now).exprs) values.now }
    requires ends { ends ≡ ends_of (P.pooled pool.now) values.now }
    ensures planned { IsPlanned result (array_indexed (P.pooled pool.now) values.now vals.now parts.now) }
    ensures drafted { IfOk result (IsDrafted (P.pooled pool.now)) }
{
    match parts {
        [Val::Hw(hw)] => picked(alloc, pool, values, ends, *hw, vals),
        [i] => element_given(alloc, element_at(vals, number_of(i))),
        _ => Err(raised()),
    }
}
