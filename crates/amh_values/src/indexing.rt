// An index of a thing.
ghost use Rattle.std.specs.Prelude.{◌≡◌, length, slice_get, IfOk};
ghost use Rattle.py_heap.specs.Heaps.{seen};
ghost use Rattle.amh_values.specs.Indexing.{any_indexed};
ghost use Rattle.amh_things.specs.Held.{AreHeld};
ghost use Rattle.amh_things.specs.Plans.{ends_of, IsPlanned, IsDrafted};

use amh_things::plan::{Ends, Plan, PlanStop, raised};
use amh_things::shown::Shown;
use amh_things::values::Values;
use design_ir::Exprs;
use layout_acts::views;
use py_values::Val;
use std::alloc::Global;
use value_acts::indices::indexed;

/// An index of a view, or of another thing.
pub(crate) fn any_indexed<P: Exprs>(
    alloc: Global,
    pool: &P,
    values: &Values,
    shown: &Shown<'_>,
    ends: Ends,
    vals: &[Val],
) -> Result<Plan, PlanStop>
    requires held { AreHeld (length (P.pooled pool.now).exprs) values.now }
    requires ends { ends ≡ ends_of (P.pooled pool.now) values.now }
    ensures planned { IsPlanned result (any_indexed (seen shown.now.frozen.now shown.now.heap.now) (P.pooled pool.now) values.now vals.now) }
    ensures drafted { IfOk result (IsDrafted (P.pooled pool.now)) }
{
    let [Val::Hw(hw), rest @ ..] = vals else {
        return Err(raised());
    };
    match values.view(*hw) {
        Some(view) => views::indexed(alloc, pool, values, shown, ends, view, rest),
        None => indexed(alloc, pool, values, ends, vals),
    }
}
