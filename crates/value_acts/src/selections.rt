// Methods of a value with arguments: copies, and parts at an offset.
ghost use Rattle.std.specs.Prelude.{◌≡◌, ◌<◌, ◌≤◌, ◌*◌, length, false, IfOk, IfSome, replicate, pos, Some};
ghost use Rattle.design_ir.specs.Values.{form};
ghost use Rattle.value_acts.specs.Selections.{replicated, replicate_called, selected, select_called};
ghost use Rattle.amh_things.specs.Operands.{IsOperand, operand_form};
ghost use Rattle.amh_things.specs.Plans.{ends_of, refusal_of, IsPlanned, IsDrafted};
ghost use Rattle.amh_things.specs.Held.{AreHeld};

use crate::name_calls::{number_in, operand_in};
use amh_bits::Int;
use amh_things::arguments::Arguments;
use amh_things::operand::{Operand, note_form, width_of};
use amh_things::plan::{Ends, Plan, PlanStop, raised};
use amh_things::queue::Queue;
use amh_things::values::Values;
use design_ir::{Expr, ExprId, Exprs, Ids};
use lists::NoMemory;
use py_frames::request::Cause;
use std::alloc::Global;

// ---- copies

// Why so many copies of so many bits are refused.
fn copies_refused(count: u128, width: u8) -> Option<Cause>
    ensures { result ≡ refusal_of false (count * width) }
{
    let fits = width == 0 || (count <= 128 && count * width as u128 <= 128);
    if fits { None } else { Some(Cause::Width) }
}

// So many copies of an expression.
fn copies(alloc: Global, e: ExprId, count: u8) -> Result<Ids, NoMemory>
    ensures { IfOk result (λ es. es ≡ replicate count e) }
{
    let mut all = Ids::new(alloc);
    for _copy in 0..count {
        let Ok(()) = all.push(e) else {
            return Err(NoMemory);
        };
    }
    Ok(all)
}

fn replicated(alloc: Global, ends: Ends, e: ExprId, width: u8, n: Int) -> Result<Plan, PlanStop>
    ensures { IsPlanned result (replicated ends e width (Some n)) }
{
    if n.negative {
        return Err(raised());
    }
    copied(alloc, ends, e, width, n.size)
}

fn copied(alloc: Global, ends: Ends, e: ExprId, width: u8, n: u128) -> Result<Plan, PlanStop>
    ensures { IsPlanned result (replicated ends e width (Some (pos n))) }
{
    if let Some(why) = copies_refused(n, width) {
        return Err(PlanStop::Refused(why));
    }
    match copies(alloc, e, n.min(128) as u8) {
        Ok(ids) => ends.value(alloc, Queue::new(alloc), Expr::Cat(ids)),
        Err(_) => Err(PlanStop::NoMemory),
    }
}

/// `v.replicate(count)`.
pub fn replicate_called<P: Exprs>(
    alloc: Global,
    pool: &P,
    values: &Values,
    ends: Ends,
    e: ExprId,
    arguments: &Arguments<'_>,
) -> Result<Plan, PlanStop>
    requires there { e.0 < length (P.pooled pool.now).exprs }
    requires ends { ends ≡ ends_of (P.pooled pool.now) values.now }
    ensures planned { IsPlanned result (replicate_called ends e (form (P.pooled pool.now) e.0).width arguments.now) }
    ensures drafted { IfOk result (IsDrafted (P.pooled pool.now)) }
{
    if !arguments.fits(&["count"]) {
        return Err(raised());
    }
    let shape = pool.shape(e);
    note_form(shape);
    match number_in(arguments.argument(0, "count")) {
        Some(n) => replicated(alloc, ends, e, width_of(shape), n),
        None => Err(raised()),
    }
}

// ---- parts at an offset

// Why a part of so many bits is refused.
fn part_refused(x: &Operand, width: u128) -> Option<Cause>
    ensures { result ≡ refusal_of (operand_form x.now).signed width }
{
    if x.shape().signed {
        Some(Cause::Raised)
    } else if width > 128 {
        Some(Cause::Width)
    } else {
        None
    }
}

fn part_made(
    alloc: Global,
    ends: Ends,
    e: ExprId,
    by_words: bool,
    x: &Operand,
    width: u128,
) -> Result<Plan, PlanStop>
    ensures { IsPlanned result (selected ends e by_words (Some x.now) (Some (pos width))) }
{
    if let Some(why) = part_refused(x, width) {
        return Err(PlanStop::Refused(why));
    }
    let mut exprs = Queue::new(alloc);
    let Ok(()) = x.draft(&mut exprs) else {
        return Err(PlanStop::NoMemory);
    };
    let width = width as u8;
    let part = Expr::Part {
        a: e,
        offset: x.id(ends.exprs()),
        width,
        stride: if by_words { width } else { 1 },
    };
    ends.value(alloc, exprs, part)
}

fn selected(
    alloc: Global,
    ends: Ends,
    e: ExprId,
    by_words: bool,
    x: Option<Operand>,
    width: Option<Int>,
) -> Result<Plan, PlanStop>
    ensures { IsPlanned result (selected ends e by_words x width) }
{
    match (x, width) {
        (Some(x), Some(width)) => {
            if width.negative {
                Err(raised())
            } else {
                part_made(alloc, ends, e, by_words, &x, width.size)
            }
        }
        _ => Err(raised()),
    }
}

/// `v.bit_select(offset, width)`, or `v.word_select(offset, width)`.
pub fn select_called<P: Exprs>(
    alloc: Global,
    pool: &P,
    values: &Values,
    ends: Ends,
    of: (ExprId, bool),
    arguments: &Arguments<'_>,
) -> Result<Plan, PlanStop>
    requires there { of.0.0 < length (P.pooled pool.now).exprs }
    requires held { AreHeld (length (P.pooled pool.now).exprs) values.now }
    requires ends { ends ≡ ends_of (P.pooled pool.now) values.now }
    ensures planned { IsPlanned result (select_called (P.pooled pool.now) values.now of.0 of.1 arguments.now) }
    ensures drafted { IfOk result (IsDrafted (P.pooled pool.now)) }
{
    if !arguments.fits(&["offset", "width"]) {
        return Err(raised());
    }
    let (e, by_words) = of;
    let x = operand_in(pool, values, arguments.argument(0, "offset"));
    let width = number_in(arguments.argument(1, "width"));
    selected(alloc, ends, e, by_words, x, width)
}
