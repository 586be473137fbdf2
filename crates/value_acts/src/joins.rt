// `Cat(*parts)`: values one above the other.
ghost use Rattle.std.specs.Prelude.{◌≡◌, ◌+◌, ◌≤◌, ◌<◌, ◌++◌, ◌||◌, ◌^◌, nat_lt, [], length, is_none, None, IfOk, OnOk, MatchOption, false, Some, true, not, IfSome, Ok};
ghost use Rattle.std.specs.List.{flat_map, list_any, AllByRecursion};
ghost use Rattle.py_heap.specs.Heaps.{seen};
ghost use Rattle.py_operators.specs.Elements.{elements};
ghost use Rattle.value_acts.specs.Joins.{is_no_operand, operands_of, bits_of_all, listed, part_values, is_refused, is_long, joined, joined_where, all_joined, cat_called};
ghost use Rattle.amh_things.specs.Operands.{IsOperand, constants, operand_ids};
ghost use Rattle.amh_things.specs.Plans.{ends_of, IsPlanned, IsDrafted};
ghost use Rattle.amh_things.specs.Held.{AreHeld};

use amh_things::arguments::Arguments;
use amh_things::operand::{Operand, operand_of, width_of};
use amh_things::plan::{Ends, Plan, PlanStop, raised};
use amh_things::queue::Queue;
use amh_things::shown::Shown;
use amh_things::values::Values;
use design_ir::{Expr, Exprs, Ids};
use lists::{Items, NoMemory};
use py_frames::request::Cause;
use py_operators::elements;
use py_values::{Val, Vals, ValueStop};
use std::alloc::Global;

// ---- operands

/// Those of some values that are operands, and none where one of them is not.
pub fn operands_of<P: Exprs>(
    alloc: Global,
    pool: &P,
    values: &Values,
    vals: &[Val],
) -> Result<Option<Items<Operand>>, NoMemory>
    requires { AreHeld (length (P.pooled pool.now).exprs) values.now }
    ensures all { IfOk result (λ o. MatchOption o (list_any (is_no_operand (P.pooled pool.now) values.now) vals.now ≡ true) (λ xs. (list_any (is_no_operand (P.pooled pool.now) values.now) vals.now ≡ false) × (xs ≡ operands_of (P.pooled pool.now) values.now vals.now))) }
    ensures sound { IfOk result (λ o. IfSome o (AllByRecursion (IsOperand (P.pooled pool.now)))) }
{
    let mut all = Items::new(alloc);
    for v in vals {
        let Some(x) = operand_of(pool, values, v) else {
            return Ok(None);
        };
        let Ok(()) = all.push(x) else {
            return Err(NoMemory);
        };
    }
    Ok(Some(all))
}

// The bits of all operands, where they are at most 128.
fn few_bits(xs: &[Operand]) -> bool
    ensures { result ≡ not (nat_lt 128 (bits_of_all xs.now)) }
{
    let mut bits = 0u32;
    for x in xs {
        bits += width_of(x.shape()) as u32;
        if bits > 128 {
            return false;
        }
    }
    true
}

/// The constants of operands, and the expressions that they are.
#[derive(Drop)]
pub struct Drafted {
    pub exprs: Queue<Expr>,
    pub ids: Ids,
}

/// The constants of operands, and the expressions that they are where the next one gets this number.
pub fn drafted_all(alloc: Global, next: u32, xs: &[Operand]) -> Result<Drafted, NoMemory>
    requires first { next ≤ 2 ^ 30 }
    requires few { length xs.now ≤ 65536 }
    ensures exprs { IfOk result (λ d. d.exprs ≡ constants xs.now) }
    ensures ids { IfOk result (λ d. d.ids ≡ operand_ids next xs.now) }
    ensures bound { IfOk result (λ d. length d.exprs ≤ length xs.now) }
{
    let mut exprs = Queue::new(alloc);
    let mut ids = Ids::new(alloc);
    for x in xs {
        let id = x.id(next + exprs.len() as u32);
        let Ok(()) = ids.push(id) else {
            return Err(NoMemory);
        };
        let Ok(()) = x.draft(&mut exprs) else {
            return Err(NoMemory);
        };
    }
    Ok(Drafted { exprs, ids })
}

// Operands one above the other.
fn joined(alloc: Global, ends: Ends, xs: &[Operand]) -> Result<Plan, PlanStop>
    requires few { length xs.now ≤ 65536 }
    ensures { IsPlanned result (Ok (joined ends xs.now)) }
{
    match drafted_all(alloc, ends.exprs(), xs) {
        Ok(Drafted { exprs, ids }) => ends.value(alloc, exprs, Expr::Cat(ids)),
        Err(_) => Err(PlanStop::NoMemory),
    }
}

// Operands one above the other, where they have few bits and are not many.
fn joined_where(alloc: Global, ends: Ends, long: bool, xs: &[Operand]) -> Result<Plan, PlanStop>
    ensures { IsPlanned result (joined_where ends false long xs.now) }
{
    if !few_bits(xs) {
        return Err(PlanStop::Refused(Cause::Width));
    }
    if long || xs.len() > 65_536 {
        return Err(PlanStop::Refused(Cause::Limit));
    }
    joined(alloc, ends, xs)
}

// ---- parts

/// The values that parts stand for, and whether one is a range that is too long.
#[derive(Drop)]
struct Parts {
    vals: Vals,
    long: bool,
}

// Puts the values that a list or tuple has behind others.
fn put_row(shown: &Shown<'_>, v: Val, all: &mut Vals) -> Result<(), NoMemory>
    ensures { OnOk result (all.new ≡ all.old ++ listed (elements (seen shown.now.frozen.now shown.now.heap.now) v)) }
{
    match elements(shown.heap, shown.frozen, v) {
        Ok(vals) => all.extend(vals.as_slice()),
        Err(ValueStop::NoMemory) => Err(NoMemory),
        Err(_) => Ok(()),
    }
}

// Puts the values of a range behind others, and says whether it is too long.
fn put_range(shown: &Shown<'_>, v: Val, all: &mut Vals) -> Result<bool, NoMemory>
    ensures vals { OnOk result (all.new ≡ all.old ++ listed (elements (seen shown.now.frozen.now shown.now.heap.now) v)) }
    ensures long { IfOk result (λ long. long ≡ is_refused (elements (seen shown.now.frozen.now shown.now.heap.now) v)) }
{
    match elements(shown.heap, shown.frozen, v) {
        Ok(vals) => match all.extend(vals.as_slice()) {
            Ok(()) => Ok(false),
            Err(_) => Err(NoMemory),
        },
        Err(ValueStop::NoMemory) => Err(NoMemory),
        Err(_) => Ok(true),
    }
}

// Puts the values of a part behind others, and says whether it is a range that is too long.
fn put_part(shown: &Shown<'_>, v: &Val, all: &mut Vals) -> Result<bool, NoMemory>
    ensures vals { OnOk result (all.new ≡ all.old ++ part_values (seen shown.now.frozen.now shown.now.heap.now) v.now) }
    ensures long { IfOk result (λ long. long ≡ is_long (seen shown.now.frozen.now shown.now.heap.now) v.now) }
{
    match v {
        Val::Range(_) => put_range(shown, *v, all),
        Val::List(_) | Val::Tuple(_) => match put_row(shown, *v, all) {
            Ok(()) => Ok(false),
            Err(_) => Err(NoMemory),
        },
        _ => match all.push(*v) {
            Ok(()) => Ok(false),
            Err(_) => Err(NoMemory),
        },
    }
}

// The values of all parts.
fn parts_of(alloc: Global, shown: &Shown<'_>, args: &[Val]) -> Result<Parts, NoMemory>
    ensures vals { IfOk result (λ ps. ps.vals ≡ flat_map (part_values (seen shown.now.frozen.now shown.now.heap.now)) args.now) }
    ensures long { IfOk result (λ ps. ps.long ≡ list_any (is_long (seen shown.now.frozen.now shown.now.heap.now)) args.now) }
{
    let mut vals = Vals::new(alloc);
    let mut long = false;
    for v in args {
        match put_part(shown, v, &mut vals) {
            Ok(is_long) => long = long || is_long,
            Err(_) => return Err(NoMemory),
        }
    }
    Ok(Parts { vals, long })
}

// Values one above the other.
fn all_joined<P: Exprs>(
    alloc: Global,
    pool: &P,
    values: &Values,
    ends: Ends,
    parts: &Parts,
) -> Result<Plan, PlanStop>
    requires held { AreHeld (length (P.pooled pool.now).exprs) values.now }
    requires ends { ends ≡ ends_of (P.pooled pool.now) values.now }
    ensures planned { IsPlanned result (all_joined ends (P.pooled pool.now) values.now parts.now.long parts.now.vals) }
    ensures drafted { IfOk result (IsDrafted (P.pooled pool.now)) }
{
    match operands_of(alloc, pool, values, parts.vals.as_slice()) {
        Ok(Some(xs)) => joined_where(alloc, ends, parts.long, xs.as_slice()),
        Ok(None) => Err(raised()),
        Err(_) => Err(PlanStop::NoMemory),
    }
}

/// `Cat(*parts)`.
pub fn cat_called<P: Exprs>(
    alloc: Global,
    pool: &P,
    values: &Values,
    shown: &Shown<'_>,
    ends: Ends,
    arguments: &Arguments<'_>,
) -> Result<Plan, PlanStop>
    requires held { AreHeld (length (P.pooled pool.now).exprs) values.now }
    requires ends { ends ≡ ends_of (P.pooled pool.now) values.now }
    ensures planned { IsPlanned result (cat_called (seen shown.now.frozen.now shown.now.heap.now) (P.pooled pool.now) values.now arguments.now) }
    ensures drafted { IfOk result (IsDrafted (P.pooled pool.now)) }
{
    if arguments.has_keys() {
        return Err(raised());
    }
    match parts_of(alloc, shown, arguments.positional()) {
        Ok(parts) => all_joined(alloc, pool, values, ends, &parts),
        Err(_) => Err(PlanStop::NoMemory),
    }
}
