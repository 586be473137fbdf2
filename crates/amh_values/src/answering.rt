// The table of acts.
ghost use Rattle.std.specs.Prelude.{◌≡◌, ◌++◌, ◌+◌, ◌≤◌, length, map, IfOk, OnOk, string_bytes, nat_lt, Err, None, Some};
ghost use Rattle.py_heap.specs.Heaps.{seen};
ghost use Rattle.amh_things.specs.declared.plan.Plan.{Plan};
ghost use Rattle.amh_values.specs.Acts.{first_name, planned, acted, Acts};
ghost use Rattle.amh_things.specs.Held.{AreHeld};
ghost use Rattle.amh_things.specs.Plans.{ends_of, passes, limited, grown_by, IsPlanned, IsDrafted};

use crate::above::is_other;
use crate::acts::Acted;
use crate::attributes::attributed;
use crate::calls::called;
use crate::indexing::any_indexed;
use amh_things::plan::{Ends, Plan, PlanStop, raised};
use amh_things::putting::{ends_of, put_exprs, put_things};
use amh_things::shown::Shown;
use amh_things::values::Values;
use design_ir::Exprs;
use layout_acts::struct_classes::class_made;
use lists::NoMemory;
use py_frames::request::{Act, Answer, Cause, Request};
use std::alloc::Global;
use value_acts::indices::{iterated, measured};
use value_acts::operators::operated;

// The sign of an operator, or the name of an attribute.
fn first_name(names: &[String]) -> &str
    ensures { result.now ≡ first_name (map string_bytes names.now) }
{
    match names {
        [name, ..] => name.as_str(),
        _ => "",
    }
}

// What a request makes and answers, before anything is done.
fn planned<P: Exprs>(
    alloc: Global,
    pool: &P,
    values: &Values,
    shown: Shown<'_>,
    ends: Ends,
    request: &Request,
) -> Result<Plan, PlanStop>
    requires held { AreHeld (length (P.pooled pool.now).exprs) values.now }
    requires ends { ends ≡ ends_of (P.pooled pool.now) values.now }
    ensures planned { IsPlanned result (planned (seen shown.entry.frozen.now shown.entry.heap.now) (P.pooled pool.now) values.now request.now.act request.now.vals request.now.names) }
    ensures drafted { IfOk result (IsDrafted (P.pooled pool.now)) }
{
    let vals = request.vals.as_slice();
    let name = first_name(request.names.items());
    match request.act {
        Act::Operator => operated(alloc, pool, values, ends, vals, name),
        Act::Attribute => attributed(alloc, pool, values, ends, vals, name),
        Act::CallThing => called(alloc, pool, values, shown, ends, request),
        Act::Index => any_indexed(alloc, pool, values, &shown, ends, vals),
        Act::Iterate => iterated(alloc, pool, values, ends, vals),
        Act::Length => measured(alloc, pool, values, vals),
        Act::ClassMade => class_made(alloc, values, &shown, ends, vals, request.names.items()),
        _ => Err(raised()),
    }
}

// Whether a plan would make too many expressions.
fn passes(ends: Ends, plan: &Plan) -> bool
    ensures { result ≡ passes ends.exprs plan.now }
{
    let count = ends.exprs() as usize;
    count > 262_144 || plan.exprs.len() > 262_144 - count
}

// A plan is carried out.
fn carried_out<P: Exprs>(pool: &mut P, values: &mut Values, plan: Plan) -> Result<Answer, NoMemory>
    requires held { AreHeld (length (P.pooled pool.old).exprs) values.old }
    requires drafted { IsDrafted (P.pooled pool.old) plan }
    requires room { length (P.pooled pool.old).exprs + length plan.exprs ≤ 262144 }
    ensures answer { IfOk result (λ answer. answer ≡ plan.answer) }
    ensures pool { OnOk result (P.pooled pool.new ≡ grown_by (P.pooled pool.old) plan.exprs) }
    ensures things { OnOk result (values.new ≡ values.old ++ plan.things) }
    ensures held { OnOk result (AreHeld (length (P.pooled pool.new).exprs) values.new) }
{
    let Plan {
        exprs,
        things,
        answer,
    } = plan;
    let Ok(()) = put_exprs(pool, exprs) else {
        return Err(NoMemory);
    };
    match put_things(values, things) {
        Ok(()) => Ok(answer),
        Err(_) => Err(NoMemory),
    }
}

// A plan is carried out, unless it would make too many expressions.
fn limited<P: Exprs>(
    pool: &mut P,
    values: &mut Values,
    ends: Ends,
    plan: Plan,
) -> Result<Answer, NoMemory>
    requires ends { ends ≡ ends_of (P.pooled pool.old) values.old }
    requires held { AreHeld (length (P.pooled pool.old).exprs) values.old }
    requires drafted { IsDrafted (P.pooled pool.old) plan }
    ensures held { OnOk result (AreHeld (length (P.pooled pool.new).exprs) values.new) }
    ensures acts { IfOk result (λ answer. Acts (Some (limited (length (P.pooled pool.old).exprs) (Ok plan))) (Acted.Answer answer) (P.pooled pool.old) (P.pooled pool.new) values.old values.new) }
{
    if passes(ends, &plan) {
        Ok(Answer::Refuse(Cause::Limit))
    } else {
        carried_out(pool, values, plan)
    }
}

/// What a request comes to.
pub(crate) fn answered<P: Exprs>(
    alloc: Global,
    pool: &mut P,
    values: &mut Values,
    shown: Shown<'_>,
    request: &Request,
) -> Result<Acted, NoMemory>
    requires { AreHeld (length (P.pooled pool.old).exprs) values.old }
    ensures held { OnOk result (AreHeld (length (P.pooled pool.new).exprs) values.new) }
    ensures comes { IfOk result (λ a. Acts (acted (seen shown.entry.frozen.now shown.entry.heap.now) (P.pooled pool.old) values.old request.now) a (P.pooled pool.old) (P.pooled pool.new) values.old values.new) }
{
    if is_other(values, request.act, request.vals.as_slice()) {
        return Ok(Acted::Other);
    }
    let Ok(ends) = ends_of(pool, values) else {
        return Err(NoMemory);
    };
    match planned(alloc, pool, values, shown, ends, request) {
        Ok(plan) => match limited(pool, values, ends, plan) {
            Ok(answer) => Ok(Acted::Answer(answer)),
            Err(_) => Err(NoMemory),
        },
        Err(PlanStop::Refused(why)) => Ok(Acted::Answer(Answer::Refuse(why))),
        Err(PlanStop::NoMemory) => Err(NoMemory),
    }
}
