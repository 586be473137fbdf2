// `v.matches(*patterns)`: whether a pattern matches the bits of a value.
ghost use Rattle.std.specs.Prelude.{◌≡◌, ◌<◌, length, IfOk};
ghost use Rattle.design_ir.specs.Values.{form};
ghost use Rattle.py_heap.specs.Heaps.{seen};
ghost use Rattle.value_acts.specs.Matching.{matched, matches_called};
ghost use Rattle.amh_things.specs.Plans.{ends_of, IsPlanned, IsDrafted};

use amh_things::comparing::all_plain;
use amh_things::given::Given;
use amh_things::patterns::patterns_meant;
use amh_things::plan::{Ends, Plan, PlanStop, raised};
use amh_things::queue::Queue;
use amh_things::values::Values;
use design_ir::{Expr, ExprId, Exprs, Patterns};
use std::alloc::Global;

fn matched(
    alloc: Global,
    ends: Ends,
    e: ExprId,
    patterns: Option<Patterns>,
) -> Result<Plan, PlanStop>
    ensures { IsPlanned result (matched ends e patterns) }
{
    match patterns {
        Some(patterns) => {
            let matches = Expr::Matches { a: e, patterns };
            ends.value(alloc, Queue::new(alloc), matches)
        }
        None => Err(raised()),
    }
}

/// `v.matches(*patterns)`.
pub fn matches_called<P: Exprs>(
    alloc: Global,
    pool: &P,
    values: &Values,
    ends: Ends,
    e: ExprId,
    given: &Given<'_>,
) -> Result<Plan, PlanStop>
    requires there { e.0 < length (P.pooled pool.now).exprs }
    requires ends { ends ≡ ends_of (P.pooled pool.now) values.now }
    ensures planned { IsPlanned result (matches_called (seen given.now.shown.frozen.now given.now.shown.heap.now) ends values.now e (form (P.pooled pool.now) e.0) given.now.arguments) }
    ensures drafted { IfOk result (IsDrafted (P.pooled pool.now)) }
{
    if given.arguments.has_keys() {
        return Err(raised());
    }
    let shown = &given.shown;
    let shape = pool.shape(e);
    let Ok(vals) = all_plain(alloc, values, given.arguments.positional()) else {
        return Err(PlanStop::NoMemory);
    };
    match patterns_meant(alloc, shown.heap, shown.frozen, shape, vals.as_slice()) {
        Ok(patterns) => matched(alloc, ends, e, patterns),
        Err(_) => Err(PlanStop::NoMemory),
    }
}
