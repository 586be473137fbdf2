// Classes over `Struct`.
ghost use Rattle.std.specs.Prelude.{◌≡◌, map, string_bytes, IfOk, Option, List, Some, true};
ghost use Rattle.py_frames.specs.declared.request.NamedVal.{NamedVal as Annotated};
ghost use Rattle.py_heap.specs.Heaps.{seen};
ghost use Rattle.amh_things.specs.Plans.{IsPlanned, MakesThings};
ghost use Rattle.amh_things.specs.Things.{thing_of, shown_name};
ghost use Rattle.layout_acts.specs.StructClasses.{annotation_before, annotations, behind_members, structure_made, is_struct, class_made};

use crate::enumerations;
use crate::layouts::{LayoutKind, members_laid, named_val};
use amh_things::plan::{Ends, Plan, PlanStop, raised};
use amh_things::shown::Shown;
use amh_things::thing::ThingName;
use amh_things::values::Values;
use lists::NoMemory;
use py_frames::request::NamedVals;
use py_values::Val;
use std::alloc::Global;

// ---- what the class has

// Puts the member that an annotation is behind others, and says whether it is one.
fn push_annotation(
    alloc: Global,
    name: &str,
    val: Val,
    members: &mut NamedVals,
) -> Result<bool, NoMemory>
    ensures { (rest : Option (List Annotated)) → IfOk result (λ all. behind_members all members.new rest ≡ behind_members true members.old (annotation_before name.now val rest)) }
{
    if let Some(name) = name.strip_prefix(':') {
        members.push(named_val(alloc, name, val)?)?;
        return Ok(true);
    }
    Ok(false)
}

// The annotations of a class, in order; none where it has something else.
fn annotations(alloc: Global, vals: &[Val], names: &[String]) -> Result<Option<NamedVals>, NoMemory>
    ensures { IfOk result (λ ms. ms ≡ annotations vals.now (map string_bytes names.now)) }
{
    let mut members = NamedVals::new(alloc);
    for i in 0..names.len() {
        if i >= vals.len() {
            return Ok(None);
        }
        if !push_annotation(alloc, names[i].as_str(), vals[i], &mut members)? {
            return Ok(None);
        }
    }
    Ok(Some(members))
}

// ---- classes

fn structure_made(
    alloc: Global,
    values: &Values,
    shown: &Shown<'_>,
    ends: Ends,
    members: Option<NamedVals>,
) -> Result<Plan, PlanStop>
    ensures planned { IsPlanned result (structure_made (seen shown.now.frozen.now shown.now.heap.now) ends values.now members) }
    ensures things { IfOk result MakesThings }
{
    match members {
        Some(members) => {
            let members = members.as_slice();
            members_laid(alloc, values, shown, ends, LayoutKind::Structure, members)
        }
        None => Err(raised()),
    }
}

// Whether a class stands over `Struct`.
fn is_struct(values: &Values, base: Val) -> bool
    ensures { result ≡ is_struct (shown_name (thing_of values.now base)) }
{
    match base {
        Val::Hw(hw) => values.named(hw) == Some(ThingName::Struct),
        _ => false,
    }
}

/// The end of a class: the class, its base and its values; its name and the names of the values.
pub fn class_made(
    alloc: Global,
    values: &Values,
    shown: &Shown<'_>,
    ends: Ends,
    vals: &[Val],
    names: &[String],
) -> Result<Plan, PlanStop>
    ensures planned { IsPlanned result (class_made (seen shown.now.frozen.now shown.now.heap.now) ends values.now vals.now (map string_bytes names.now)) }
    ensures things { IfOk result MakesThings }
{
    let ([_, base, fields @ ..], [_, labels @ ..]) = (vals, names) else {
        return Err(raised());
    };
    if !is_struct(values, *base) {
        return enumerations::class_made(alloc, values, shown, ends, vals, names);
    }
    match annotations(alloc, fields, labels) {
        Ok(members) => structure_made(alloc, values, shown, ends, members),
        Err(_) => Err(PlanStop::NoMemory),
    }
}
