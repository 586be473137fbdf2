// The ports of an object that is the top.
ghost use Rattle.std.specs.Prelude.{◌≡◌, ◌<◌, ◌++◌, [], length, true, IfOk, OnOk, Some, None};
ghost use Rattle.std.specs.List.{AllByRecursion};
ghost use Rattle.py_heap.specs.Heaps.{seen};
ghost use Rattle.py_heap.specs.Objects.{attributes};
ghost use Rattle.design_ir.specs.declared.ids.SigId.{SigId};
ghost use Rattle.clock_domains.specs.Resolved.{port_of};
ghost use Rattle.amh_things.specs.Held.{AreHeld};
ghost use Rattle.elab_eval.specs.ObjectTops.{signal_in, held_signal, is_private, has_public_name, attribute_signal, attribute_signals, before_others, signal_ports, held_ports, object_ports};
ghost use Rattle.elab_eval.specs.Elaborates.{top_ports};
ghost use Rattle.elab_store.specs.Held.{held_of};

use crate::component_tops::component_ports;
use clock_domains::TopPorts;
use design_ir::{Expr, Exprs, Port, Ports, SigId};
use elab_acts::tops::first_in;
use elab_components::interfaces::{component_class, copied_text};
use elab_store::store::Elaboration;
use lists::NoMemory;
use py_heap::{Frozen, Heap};
use py_values::{ObjId, Val};
use std::collections::BTreeSet;

fn signal_in(e: &Expr) -> Option<SigId>
    ensures { result ≡ signal_in (Some e.now) }
{
    match e {
        Expr::Sig(s) => Some(*s),
        _ => None,
    }
}

fn is_private(name: &[u8]) -> bool
    ensures { result ≡ is_private name.now }
{
    match name {
        [] => false,
        [first, ..] => *first == b'_',
    }
}

fn has_public_name(heap: &Heap, frozen: &Frozen, name: Val) -> bool
    ensures { result ≡ has_public_name (seen frozen.now heap.now) name }
{
    match name {
        Val::Str(x) => !is_private(heap.text(frozen, x).as_bytes()),
        _ => false,
    }
}

fn attributes(row: &[Val]) -> &[Val]
    ensures { result.now ≡ attributes row.now }
{
    match row {
        [] => row,
        [_, rest @ ..] => rest,
    }
}

fn push_some(found: &mut Vec<SigId>, s: Option<SigId>) -> Result<(), NoMemory>
    ensures { OnOk result (found.new.items ≡ found.old.items ++ before_others s []) }
{
    if let Some(s) = s {
        found.push(s)?;
    }
    Ok(())
}

// The signal that a value of the program is.
fn held_signal(elaboration: &Elaboration, v: Val) -> Option<SigId>
    requires { AreHeld (length elaboration.now.pool.exprs) elaboration.now.store.things }
    ensures { result ≡ held_signal (held_of elaboration.now) v }
{
    let Val::Hw(hw) = v else {
        return None;
    };
    match elaboration.store.things.expr(hw) {
        Some(e) => signal_in(elaboration.pool.at(e)),
        None => None,
    }
}

// The signal that an attribute is, where its name is not private.
fn attribute_signal(
    elaboration: &Elaboration,
    heap: &Heap,
    frozen: &Frozen,
    name: Val,
    v: Val,
) -> Option<SigId>
    requires { AreHeld (length elaboration.now.pool.exprs) elaboration.now.store.things }
    ensures { result ≡ attribute_signal (seen frozen.now heap.now) (held_of elaboration.now) name v }
{
    if has_public_name(heap, frozen, name) {
        held_signal(elaboration, v)
    } else {
        None
    }
}

// The signals among attributes, by their names and values.
fn attribute_signals(
    elaboration: &Elaboration,
    heap: &Heap,
    frozen: &Frozen,
    row: &[Val],
) -> Result<Vec<SigId>, NoMemory>
    requires { AreHeld (length elaboration.now.pool.exprs) elaboration.now.store.things }
    ensures { IfOk result (λ found. found.items ≡ attribute_signals (seen frozen.now heap.now) (held_of elaboration.now) row.now) }
{
    let mut found = Vec::new(elaboration.alloc);
    let mut rest = row;
    while let [name, v, more @ ..] = rest {
        push_some(
            &mut found,
            attribute_signal(elaboration, heap, frozen, *name, *v),
        )?;
        rest = more;
    }
    Ok(found)
}

fn port_of(elaboration: &Elaboration, s: SigId) -> Result<Port, NoMemory>
    requires { s.0 < length elaboration.now.pool.signals }
    ensures { IfOk result (λ port. port ≡ port_of elaboration.now.pool [] true s.0) }
{
    Ok(Port {
        name: copied_text(elaboration.alloc, &elaboration.pool.sig_at(s).name)?,
        sig: s,
        is_input: true,
    })
}

// The ports that signals are, each once.
fn signal_ports(elaboration: &Elaboration, signals: &[SigId]) -> Result<Ports, NoMemory>
    requires { AllByRecursion (λ (s : SigId). s.0 < length elaboration.now.pool.signals) signals.now }
    ensures { IfOk result (λ ports. ports ≡ signal_ports (held_of elaboration.now) signals.now) }
{
    let mut known = BTreeSet::new(elaboration.alloc);
    let mut ports = Ports::new(elaboration.alloc);
    for s in signals {
        if known.insert(s.0)? {
            ports.push(port_of(elaboration, *s)?)?;
        }
    }
    Ok(ports)
}

// The ports that an object holds.
fn held_ports(
    elaboration: &Elaboration,
    heap: &Heap,
    frozen: &Frozen,
    object: ObjId,
) -> Result<Ports, NoMemory>
    requires { AreHeld (length elaboration.now.pool.exprs) elaboration.now.store.things }
    ensures { IfOk result (λ ports. ports ≡ held_ports (seen frozen.now heap.now) (held_of elaboration.now) object) }
{
    let row = attributes(heap.row(frozen, object));
    let signals = attribute_signals(elaboration, heap, frozen, row)?;
    elaboration.pool.known();
    signal_ports(elaboration, &signals)
}

// The ports of an object that is the top.
fn object_ports(
    elaboration: &Elaboration,
    heap: &Heap,
    frozen: &Frozen,
    object: ObjId,
) -> Result<Option<TopPorts>, NoMemory>
    requires { AreHeld (length elaboration.now.pool.exprs) elaboration.now.store.things }
    ensures { IfOk result (λ ports. ports ≡ object_ports (seen frozen.now heap.now) (held_of elaboration.now) object) }
{
    let class = first_in(heap.row(frozen, object));
    match component_class(&elaboration.store, class) {
        Some(_) => component_ports(&elaboration.store, elaboration.alloc, object),
        None => Ok(Some(TopPorts::Held(held_ports(elaboration, heap, frozen, object)?))),
    }
}

/// The ports of the top, where it has some.
pub(crate) fn top_ports(
    elaboration: &Elaboration,
    heap: &Heap,
    frozen: &Frozen,
) -> Result<Option<TopPorts>, NoMemory>
    requires { AreHeld (length elaboration.now.pool.exprs) elaboration.now.store.things }
    ensures { IfOk result (λ ports. ports ≡ top_ports (seen frozen.now heap.now) (held_of elaboration.now)) }
{
    match elaboration.store.top.object {
        None => Ok(Some(TopPorts::Loose)),
        Some(object) => object_ports(elaboration, heap, frozen, object),
    }
}
