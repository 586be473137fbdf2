// Attributes of things.
ghost use Rattle.std.specs.Prelude.{◌≡◌, length, slice_get, IfOk};
ghost use Rattle.amh_values.specs.Attributes.{method_made, thing_attribute, attribute_where, attributed};
ghost use Rattle.amh_things.specs.Held.{AreHeld};
ghost use Rattle.amh_things.specs.Members.{member_named};
ghost use Rattle.amh_things.specs.Plans.{ends_of, IsPlanned, IsDrafted};
ghost use Rattle.amh_things.specs.Things.{bare_expr, method_named, shown_enumeration, shown_view};

use amh_things::names::method_named;
use amh_things::plan::{Ends, Plan, PlanStop, raised, value_given};
use amh_things::thing::Thing;
use amh_things::values::Values;
use data_layouts::EnumShape;
use design_ir::Exprs;
use layout_acts::views;
use py_values::{Hw, Val};
use std::alloc::Global;

// A method of the value that a thing is.
fn method_made(
    alloc: Global,
    values: &Values,
    ends: Ends,
    of: Hw,
    name: &str,
) -> Result<Plan, PlanStop>
    ensures { IsPlanned result (method_made ends of (bare_expr (slice_get values.now of.0)) (method_named name.now)) }
{
    match (values.bare(of), method_named(name)) {
        (Some(value), Some(method)) => ends.thing(alloc, Thing::Method { of, value, method }),
        _ => Err(raised()),
    }
}

// A member of an enumeration.
fn member_named(
    alloc: Global,
    values: &Values,
    of: Hw,
    e: &EnumShape,
    name: &str,
) -> Result<Plan, PlanStop>
    ensures { IsPlanned result (member_named values.now of e.now name.now) }
{
    let Some(number) = e.number_named(name) else {
        return Err(raised());
    };
    match values.member(of, number) {
        Some(member) => Ok(value_given(alloc, Val::Hw(member))),
        None => Err(raised()),
    }
}

fn thing_attribute(
    alloc: Global,
    values: &Values,
    ends: Ends,
    of: Hw,
    name: &str,
) -> Result<Plan, PlanStop>
    ensures { IsPlanned result (thing_attribute ends values.now of (shown_enumeration (slice_get values.now of.0)) name.now) }
{
    match values.shown_enumeration(of) {
        Some(e) => member_named(alloc, values, of, e, name),
        None => method_made(alloc, values, ends, of, name),
    }
}

// The attribute of a view, or of another thing.
fn attribute_where<P: Exprs>(
    alloc: Global,
    pool: &P,
    values: &Values,
    ends: Ends,
    of: Hw,
    name: &str,
) -> Result<Plan, PlanStop>
    requires held { AreHeld (length (P.pooled pool.now).exprs) values.now }
    requires ends { ends ≡ ends_of (P.pooled pool.now) values.now }
    ensures planned { IsPlanned result (attribute_where (P.pooled pool.now) values.now of (shown_view (slice_get values.now of.0)) name.now) }
    ensures drafted { IfOk result (IsDrafted (P.pooled pool.now)) }
{
    match values.view(of) {
        Some(view) => views::attributed(alloc, pool, values, ends, of, view, name),
        None => thing_attribute(alloc, values, ends, of, name),
    }
}

/// The attribute of a thing.
pub(crate) fn attributed<P: Exprs>(
    alloc: Global,
    pool: &P,
    values: &Values,
    ends: Ends,
    vals: &[Val],
    name: &str,
) -> Result<Plan, PlanStop>
    requires held { AreHeld (length (P.pooled pool.now).exprs) values.now }
    requires ends { ends ≡ ends_of (P.pooled pool.now) values.now }
    ensures planned { IsPlanned result (attributed (P.pooled pool.now) values.now vals.now name.now) }
    ensures drafted { IfOk result (IsDrafted (P.pooled pool.now)) }
{
    match vals {
        [Val::Hw(hw)] => attribute_where(alloc, pool, values, ends, *hw, name),
        _ => Err(raised()),
    }
}
