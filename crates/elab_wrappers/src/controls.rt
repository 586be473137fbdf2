// The values that control domains.
ghost use Rattle.std.specs.Prelude.{◌≡◌, ◌++◌, ◌∷◌, [], length, IfOk, Ok, Err, Some, None, codes};
ghost use Rattle.std.specs.Option.{option_copied};
ghost use Rattle.py_heap.specs.Heaps.{seen};
ghost use Rattle.amh_things.specs.Held.{AreHeld};
ghost use Rattle.elab_store.specs.Held.{held_of};
ghost use Rattle.elab_wrappers.specs.Wrappers.{domain_named, and_item, is_value, control_named, controls_of_row, controls_given, controls_from};

use crate::names::{copied, domain_named};
use amh_things::meant::form_meant;
use amh_things::plan::PlanStop;
use design_ir::Pool;
use domain_transforms::{Control, Controls};
use elab_store::store::{Elaboration, Store};
use lists::NoMemory;
use py_frames::request::{Cause, NamedVal, NamedVals};
use py_heap::{Frozen, Heap};
use py_values::Val;
use std::alloc::Global;

// ---- which ones

// Whether a value stands for one of the hardware.
fn is_value(elaboration: &Elaboration, v: &Val) -> bool
    requires { AreHeld (length elaboration.now.pool.exprs) elaboration.now.store.things }
    ensures { result ≡ is_value (held_of elaboration.now) v.now }
{
    form_meant(&elaboration.pool, &elaboration.store.things, v).is_some()
}

fn named_val(alloc: Global, name: &str, val: Val) -> Result<NamedVal, NoMemory>
    ensures { IfOk result (λ x. x ≡ record { name = name.now; val = val }) }
{
    Ok(NamedVal {
        name: copied(alloc, name)?,
        val,
    })
}

// The name of a domain, and what is to control it.
fn control_named(
    elaboration: &Elaboration,
    name: Option<&str>,
    v: Val,
) -> Result<Option<NamedVal>, NoMemory>
    requires { AreHeld (length elaboration.now.pool.exprs) elaboration.now.store.things }
    ensures { IfOk result (λ x. x ≡ control_named (held_of elaboration.now) (option_copied name.entry) v) }
{
    let Some(name) = name else {
        return Ok(None);
    };
    if !is_value(elaboration, &v) {
        return Ok(None);
    }
    let named = named_val(elaboration.alloc, name, v)?;
    Ok(Some(named))
}

// Those of a dict, by its keys and their values.
fn controls_of_row(
    elaboration: &Elaboration,
    heap: &Heap,
    frozen: &Frozen,
    row: &[Val],
) -> Result<Option<NamedVals>, NoMemory>
    requires { AreHeld (length elaboration.now.pool.exprs) elaboration.now.store.things }
    ensures { IfOk result (λ xs. xs ≡ controls_of_row (seen frozen.now heap.now) (held_of elaboration.now) row.now) }
{
    let mut named = NamedVals::new(elaboration.alloc);
    let mut rest = row;
    while let [k, v, more @ ..] = rest {
        let name = domain_named(elaboration.alloc, heap, frozen, *k)?;
        match control_named(elaboration, name, *v)? {
            Some(x) => named.push(x)?,
            None => return Ok(None),
        }
        rest = more;
    }
    if rest.is_empty() {
        Ok(Some(named))
    } else {
        Ok(None)
    }
}

// What controls `sync`.
fn control_of_sync(elaboration: &Elaboration, v: Val) -> Result<Option<NamedVals>, NoMemory>
    requires { AreHeld (length elaboration.now.pool.exprs) elaboration.now.store.things }
    ensures { IfOk result (λ xs. xs ≡ and_item (control_named (held_of elaboration.now) (Some (codes "sync")) v) (Some [])) }
{
    let Some(x) = control_named(elaboration, Some("sync"), v)? else {
        return Ok(None);
    };
    let mut named = NamedVals::new(elaboration.alloc);
    named.push(x)?;
    Ok(Some(named))
}

/// The domains that a value names, and the values that are to control them.
pub fn controls_given(
    elaboration: &Elaboration,
    heap: &Heap,
    frozen: &Frozen,
    v: Val,
) -> Result<Option<NamedVals>, NoMemory>
    requires { AreHeld (length elaboration.now.pool.exprs) elaboration.now.store.things }
    ensures { IfOk result (λ xs. xs ≡ controls_given (seen frozen.now heap.now) (held_of elaboration.now) v) }
{
    match v {
        Val::Dict(o) => controls_of_row(elaboration, heap, frozen, heap.row(frozen, o)),
        _ => control_of_sync(elaboration, v),
    }
}

// ---- their expressions

/// The expressions of the values, in order.
pub fn controls_from(
    alloc: Global,
    store: &Store,
    pool: &mut Pool,
    named: &[NamedVal],
) -> Result<Result<Controls, Cause>, NoMemory>
    requires { AreHeld (length pool.old.exprs) store.now.things }
    ensures { IfOk result (λ made. controls_from store.now.things pool.old named.now ≡ record { made = made; pool = pool.new }) }
{
    let mut controls = Controls::new(alloc);
    for x in named {
        let condition = match store.value_meant(alloc, pool, &x.val) {
            Ok(e) => e,
            Err(PlanStop::Refused(why)) => return Ok(Err(why)),
            Err(PlanStop::NoMemory) => return Err(NoMemory),
        };
        let domain = copied(alloc, x.name.as_str())?;
        controls.push(Control { domain, condition })?;
    }
    Ok(Ok(controls))
}
