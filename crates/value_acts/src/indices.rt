// Indices, slices, lengths and bits of a value.
ghost use Rattle.std.specs.Prelude.{◌≡◌, ◌<◌, ◌≤◌, ◌+◌, [], ◌∷◌, length, map, slice_get, IfOk, IfSome, Some, Ok, ◌^◌};
ghost use Rattle.std.specs.List.{range_with_len};
ghost use Rattle.py_values.specs.declared.val.Val.TheVariants as val;
ghost use Rattle.amh_things.specs.declared.thing.Thing.TheVariants as thing;
ghost use Rattle.std.specs.Option.{option_and_then};
ghost use Rattle.design_ir.specs.Values.{form};
ghost use Rattle.py_heap.specs.Changes.{index_place};
ghost use Rattle.py_values.specs.Numbers.{number_of};
ghost use Rattle.value_acts.specs.Indices.{bits_below, bits_between, is_by_one, IsPlace, bit, ids_from, bit_made, cut_made, run_made, bits_made, value_indexed, thing_indexed, indexed, measured, values_made, bits_given, iterated};
ghost use Rattle.amh_things.specs.Plans.{ends_of, IsPlanned, IsDrafted};
ghost use Rattle.amh_things.specs.Things.{bare_expr};
ghost use Rattle.amh_things.specs.Held.{AreHeld};

use crate::arrays::array_indexed;
use crate::slices::{Way, bits_between, way_of};
use amh_bits::Int;
use amh_things::operand::{note_form, number_of, width_of};
use amh_things::plan::{Ends, Plan, PlanStop, raised, value_given};
use amh_things::queue::Queue;
use amh_things::thing::Thing;
use amh_things::values::Values;
use design_ir::{Expr, ExprId, Exprs, Ids};
use lists::NoMemory;
use py_frames::request::Answer;
use py_values::{Hw, Number, Val, Vals};
use shape_rules::Shape;
use std::alloc::Global;

/// The length of a value, which is its width.
pub fn measured<P: Exprs>(
    alloc: Global,
    pool: &P,
    values: &Values,
    vals: &[Val],
) -> Result<Plan, PlanStop>
    requires { AreHeld (length (P.pooled pool.now).exprs) values.now }
    ensures planned { IsPlanned result (measured (P.pooled pool.now) values.now vals.now) }
    ensures drafted { IfOk result (IsDrafted (P.pooled pool.now)) }
{
    match vals {
        [Val::Hw(hw)] => match values.bare(*hw) {
            Some(e) => {
                let width = pool.shape(e).width;
                Ok(value_given(alloc, Val::Int(Number::of_u128(width as u128))))
            }
            None => Err(raised()),
        },
        _ => Err(raised()),
    }
}

// ---- an index

// Python's place of an index, counted from the end where it is negative.
fn index_place(width: u8, n: Int) -> Option<u8>
    ensures place { result ≡ index_place width n }
    ensures within { IfSome result (λ k. k < width) }
{
    if n.negative {
        if n.size <= width as u128 {
            Some(width - n.size as u8)
        } else {
            None
        }
    } else if n.size < width as u128 {
        Some(n.size as u8)
    } else {
        None
    }
}

// The bit that an index names.
fn place_of(width: u8, i: &Val) -> Option<u8>
    ensures place { result ≡ option_and_then (index_place width) (number_of i.now) }
    ensures within { IfSome result (λ k. k < width) }
{
    match number_of(i) {
        Some(n) => index_place(width, n),
        None => None,
    }
}

// One bit of a value.
fn bit(e: ExprId, k: u8) -> Expr
    ensures { result ≡ bit e k }
{
    Expr::Slice {
        a: e,
        low: k,
        width: 1,
    }
}

// `v[i]`.
fn bit_made(alloc: Global, ends: Ends, e: ExprId, k: Option<u8>) -> Result<Plan, PlanStop>
    ensures { IsPlanned result (bit_made ends e k) }
{
    match k {
        Some(k) => ends.value(alloc, Queue::new(alloc), bit(e, k)),
        None => Err(raised()),
    }
}

// The expressions of some bits of a value, in their order.
fn some_bits(alloc: Global, e: ExprId, places: &[u8]) -> Result<Queue<Expr>, NoMemory>
    ensures { IfOk result (λ es. es ≡ map (bit e) places.now) }
{
    let mut all = Queue::new(alloc);
    for k in places {
        let Ok(()) = all.push(bit(e, *k)) else {
            return Err(NoMemory);
        };
    }
    Ok(all)
}

// So many expressions, from this number on.
fn ids_from(alloc: Global, next: u32, count: usize) -> Result<Ids, NoMemory>
    requires first { next ≤ 2 ^ 30 }
    requires few { count ≤ 65536 }
    ensures { IfOk result (λ es. es ≡ ids_from next count) }
{
    let mut all = Ids::new(alloc);
    for k in 0..count {
        let Ok(()) = all.push(ExprId(next + k as u32)) else {
            return Err(NoMemory);
        };
    }
    Ok(all)
}

// One run of bits.
fn run_made(alloc: Global, ends: Ends, e: ExprId, places: &[u8]) -> Result<Plan, PlanStop>
    requires { length places.now ≤ 128 }
    ensures { IsPlanned result (Ok (run_made ends e places.now)) }
{
    let low = match places.get(0) {
        Some(low) => *low,
        None => 0,
    };
    let slice = Expr::Slice {
        a: e,
        low,
        width: places.len() as u8,
    };
    ends.value(alloc, Queue::new(alloc), slice)
}

// Bits one above the other.
fn bits_made(alloc: Global, ends: Ends, e: ExprId, places: &[u8]) -> Result<Plan, PlanStop>
    requires { length places.now ≤ 128 }
    ensures { IsPlanned result (Ok (bits_made ends e places.now)) }
{
    let Ok(exprs) = some_bits(alloc, e, places) else {
        return Err(PlanStop::NoMemory);
    };
    match ids_from(alloc, ends.exprs(), places.len()) {
        Ok(ids) => ends.value(alloc, exprs, Expr::Cat(ids)),
        Err(_) => Err(PlanStop::NoMemory),
    }
}

// A slice: one run where it goes by 1, and otherwise a bit for each place.
fn cut_made(alloc: Global, ends: Ends, e: ExprId, width: u8, way: Way) -> Result<Plan, PlanStop>
    requires narrow { width ≤ 128 }
    requires start { IsPlace width way.step way.start }
    requires stop { IsPlace width way.step way.stop }
    ensures { IsPlanned result (cut_made ends e (is_by_one (Some way.step)) (Some (bits_between width way.start way.stop way.step))) }
{
    let Ok(places) = bits_between(alloc, width, way) else {
        return Err(PlanStop::NoMemory);
    };
    if way.step == Int::of_u128(1) {
        run_made(alloc, ends, e, places.as_slice())
    } else {
        bits_made(alloc, ends, e, places.as_slice())
    }
}

// `v[i:j:k]`.
fn sliced<P: Exprs>(
    alloc: Global,
    pool: &P,
    values: &Values,
    ends: Ends,
    e: ExprId,
    parts: [&Val; 3],
) -> Result<Plan, PlanStop>
    requires there { e.0 < length (P.pooled pool.now).exprs }
    requires ends { ends ≡ ends_of (P.pooled pool.now) values.now }
    ensures planned { IsPlanned result (value_indexed ends e (form (P.pooled pool.now) e.0).width (map (λ v. v.now) parts.entry)) }
    ensures drafted { IfOk result (IsDrafted (P.pooled pool.now)) }
{
    let shape = pool.shape(e);
    note_form(shape);
    let width = width_of(shape);
    let [i, j, k] = parts;
    match way_of(width, i, j, k) {
        Some(way) => cut_made(alloc, ends, e, width, way),
        None => Err(raised()),
    }
}

// `v[i]`.
fn bit_indexed<P: Exprs>(
    alloc: Global,
    pool: &P,
    values: &Values,
    ends: Ends,
    e: ExprId,
    i: &Val,
) -> Result<Plan, PlanStop>
    requires there { e.0 < length (P.pooled pool.now).exprs }
    requires ends { ends ≡ ends_of (P.pooled pool.now) values.now }
    ensures planned { IsPlanned result (value_indexed ends e (form (P.pooled pool.now) e.0).width (i.now ∷ [])) }
    ensures drafted { IfOk result (IsDrafted (P.pooled pool.now)) }
{
    let shape = pool.shape(e);
    note_form(shape);
    bit_made(alloc, ends, e, place_of(width_of(shape), i))
}

// An index or a slice of a value.
fn value_indexed<P: Exprs>(
    alloc: Global,
    pool: &P,
    values: &Values,
    ends: Ends,
    e: ExprId,
    vals: &[Val],
) -> Result<Plan, PlanStop>
    requires there { e.0 < length (P.pooled pool.now).exprs }
    requires ends { ends ≡ ends_of (P.pooled pool.now) values.now }
    ensures planned { IsPlanned result (value_indexed ends e (form (P.pooled pool.now) e.0).width vals.now) }
    ensures drafted { IfOk result (IsDrafted (P.pooled pool.now)) }
{
    match vals {
        [i] => bit_indexed(alloc, pool, values, ends, e, i),
        [i, j, k] => sliced(alloc, pool, values, ends, e, [i, j, k]),
        _ => Err(raised()),
    }
}

// An index or a slice of what a thing is.
fn thing_indexed<P: Exprs>(
    alloc: Global,
    pool: &P,
    values: &Values,
    ends: Ends,
    hw: Hw,
    vals: &[Val],
) -> Result<Plan, PlanStop>
    requires held { AreHeld (length (P.pooled pool.now).exprs) values.now }
    requires ends { ends ≡ ends_of (P.pooled pool.now) values.now }
    ensures planned { IsPlanned result (thing_indexed (P.pooled pool.now) values.now (slice_get values.now hw.0) vals.now) }
    ensures drafted { IfOk result (IsDrafted (P.pooled pool.now)) }
{
    if let Some(e) = values.bare(hw) {
        return value_indexed(alloc, pool, values, ends, e, vals);
    }
    match values.array(hw) {
        Some(items) => array_indexed(alloc, pool, values, ends, items, vals),
        None => Err(raised()),
    }
}

/// An index or a slice of a thing.
pub fn indexed<P: Exprs>(
    alloc: Global,
    pool: &P,
    values: &Values,
    ends: Ends,
    vals: &[Val],
) -> Result<Plan, PlanStop>
    requires held { AreHeld (length (P.pooled pool.now).exprs) values.now }
    requires ends { ends ≡ ends_of (P.pooled pool.now) values.now }
    ensures planned { IsPlanned result (indexed (P.pooled pool.now) values.now vals.now) }
    ensures drafted { IfOk result (IsDrafted (P.pooled pool.now)) }
{
    match vals {
        [Val::Hw(hw), rest @ ..] => thing_indexed(alloc, pool, values, ends, *hw, rest),
        _ => Err(raised()),
    }
}

// ---- the bits of a value

// The bits of a value of this width, the lowest first.
fn all_bits(alloc: Global, e: ExprId, width: u8) -> Result<Queue<Expr>, NoMemory>
    ensures { IfOk result (λ es. es ≡ map (bit e) (bits_below width)) }
{
    let mut all = Queue::new(alloc);
    for k in 0..width {
        let Ok(()) = all.push(bit(e, k)) else {
            return Err(NoMemory);
        };
    }
    Ok(all)
}

// So many values of expressions, from this number on.
fn all_values(alloc: Global, next: u32, count: u8) -> Result<Queue<Thing>, NoMemory>
    requires { next ≤ 2 ^ 30 }
    ensures { IfOk result (λ ts. ts ≡ map thing.Value (ids_from next count)) }
{
    let mut all = Queue::new(alloc);
    for k in 0..count {
        let Ok(()) = all.push(Thing::Value(ExprId(next + k as u32))) else {
            return Err(NoMemory);
        };
    }
    Ok(all)
}

// So many things, from this number on.
fn all_things(alloc: Global, next: u32, count: u8) -> Result<Vals, NoMemory>
    requires { next + count < 2 ^ 32 }
    ensures { IfOk result (λ vs. vs ≡ map (λ k. val.Hw (record { 0 = next + k })) (range_with_len 0 count)) }
{
    let mut all = Vals::new(alloc);
    for k in 0..count {
        let Ok(()) = all.push(Val::Hw(Hw(next + k as u32))) else {
            return Err(NoMemory);
        };
    }
    Ok(all)
}

// Values of all bits, as a tuple.
fn bits_given(alloc: Global, ends: Ends, e: ExprId, shape: Shape) -> Result<Plan, PlanStop>
    ensures { IsPlanned result (Ok (values_made ends (map (bit e) (bits_below shape.width)))) }
{
    let width = width_of(shape);
    let Ok(exprs) = all_bits(alloc, e, width) else {
        return Err(PlanStop::NoMemory);
    };
    let Ok(things) = all_values(alloc, ends.exprs(), width) else {
        return Err(PlanStop::NoMemory);
    };
    match all_things(alloc, ends.things(), width) {
        Ok(vals) => Ok(Plan {
            exprs,
            things,
            answer: Answer::GiveList(vals),
        }),
        Err(_) => Err(PlanStop::NoMemory),
    }
}

fn held_bits<P: Exprs>(
    alloc: Global,
    pool: &P,
    values: &Values,
    ends: Ends,
    hw: Hw,
) -> Result<Plan, PlanStop>
    requires held { AreHeld (length (P.pooled pool.now).exprs) values.now }
    requires ends { ends ≡ ends_of (P.pooled pool.now) values.now }
    ensures planned { IsPlanned result (bits_given (P.pooled pool.now) values.now (bare_expr (slice_get values.now hw.0))) }
    ensures drafted { IfOk result (IsDrafted (P.pooled pool.now)) }
{
    match values.bare(hw) {
        Some(e) => {
            let shape = pool.shape(e);
            note_form(shape);
            bits_given(alloc, ends, e, shape)
        }
        None => Err(raised()),
    }
}

/// The bits of a value.
pub fn iterated<P: Exprs>(
    alloc: Global,
    pool: &P,
    values: &Values,
    ends: Ends,
    vals: &[Val],
) -> Result<Plan, PlanStop>
    requires held { AreHeld (length (P.pooled pool.now).exprs) values.now }
    requires ends { ends ≡ ends_of (P.pooled pool.now) values.now }
    ensures planned { IsPlanned result (iterated (P.pooled pool.now) values.now vals.now) }
    ensures drafted { IfOk result (IsDrafted (P.pooled pool.now)) }
{
    match vals {
        [Val::Hw(hw)] => held_bits(alloc, pool, values, ends, *hw),
        _ => Err(raised()),
    }
}
