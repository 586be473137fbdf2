// `m.submodules`, and what is added to it.
ghost use Rattle.std.specs.Prelude.{◌≡◌, None, Some, IfOk, false};
ghost use Rattle.std.specs.Option.{option_copied};
ghost use Rattle.py_heap.specs.Heaps.{seen};
ghost use Rattle.elab_acts.specs.Submodules.{is_elaboratable, is_elaborated, is_no_name, addition_refusal, submodule_added, submodule_stored, submodule_given, is_submodules_of, submodules_stored};
ghost use Rattle.elab_store.specs.Held.{held_of, Gives};

use crate::tops::{MOST_SUBMODULES, elaborate_of};
use elab_store::hierarchy::Hierarchy;
use elab_store::kept::Kept;
use elab_store::store::{Elaboration, Store};
use identifiers::is_identifier;
use lists::NoMemory;
use py_frames::request::{Answer, Cause};
use py_heap::{Frozen, Heap};
use py_values::Val;
use std::alloc::Global;

/// A module, a memory, or an object with `elaborate`, and each of them where it is wrapped.
pub(crate) fn is_elaboratable(store: &Store, heap: &Heap, frozen: &Frozen, v: &Val) -> bool
    ensures { result ≡ is_elaboratable (seen frozen.now heap.now) v.now store.now }
{
    let inner = store.inner_of(v);
    store.node_of(&inner).is_some() || elaborate_of(heap, frozen, inner).is_some()
}

// Whether a module is elaborated already.
fn is_elaborated(store: &Store, m: u32) -> bool
    ensures { result ≡ is_elaborated m store.now }
{
    match store.top.root {
        Some(root) if root == m => true,
        _ => store.hierarchy().is_node(m),
    }
}

// Whether nothing may be added to a module under this name.
fn is_no_name(alloc: Global, hierarchy: &Hierarchy, of: u32, name: &str) -> Result<bool, NoMemory>
    ensures { IfOk result (λ b. b ≡ is_no_name of (Some name.now) hierarchy.now) }
{
    if !is_identifier(alloc, name)? {
        return Ok(true);
    }
    Ok(hierarchy.added_as(of, name).is_some())
}

// Why something may not be added to a module under any name, if so.
fn addition_refusal(
    elaboration: &Elaboration,
    heap: &Heap,
    frozen: &Frozen,
    of: u32,
    v: &Val,
) -> Option<Cause>
    ensures { result ≡ addition_refusal (seen frozen.now heap.now) of None v.now elaboration.now.store }
{
    let store = &elaboration.store;
    if !is_elaboratable(store, heap, frozen, v) || is_elaborated(store, of) {
        Some(Cause::Raised)
    } else if store.hierarchy().additions().len() < MOST_SUBMODULES {
        None
    } else {
        Some(Cause::Limit)
    }
}

// A value is added to a module, and another one given.
fn add(
    elaboration: &mut Elaboration,
    heap: &Heap,
    frozen: &Frozen,
    of: u32,
    name: Option<&str>,
    v: &Val,
    gives: Val,
) -> Result<Answer, NoMemory>
    requires { is_no_name of (option_copied name) elaboration.old.store.hierarchy ≡ false }
    ensures { Gives result elaboration.new (submodule_added (seen frozen.now heap.now) of (option_copied name.entry) v.now gives (held_of elaboration.old)) }
{
    if let Some(why) = addition_refusal(elaboration, heap, frozen, of, v) {
        return elaboration.refuse(why);
    }
    elaboration
        .store
        .add_submodule(elaboration.alloc, of, name, *v)?;
    elaboration.give(gives)
}

/// `m.submodules += v`, which gives `m.submodules`, the thing `x`, again.
pub fn add_submodule(
    elaboration: &mut Elaboration,
    heap: &Heap,
    frozen: &Frozen,
    x: &Val,
    of: u32,
    v: &Val,
) -> Result<Answer, NoMemory>
    ensures { Gives result elaboration.new (submodule_added (seen frozen.now heap.now) of None v.now x.now (held_of elaboration.old)) }
{
    add(elaboration, heap, frozen, of, None, v, *x)
}

/// `m.submodules.name = v`, and the same by an index.
pub fn store_submodule(
    elaboration: &mut Elaboration,
    heap: &Heap,
    frozen: &Frozen,
    of: u32,
    name: Option<&str>,
    v: &Val,
) -> Result<Answer, NoMemory>
    ensures { Gives result elaboration.new (submodule_stored (seen frozen.now heap.now) of (option_copied name.entry) v.now (held_of elaboration.old)) }
{
    let Some(name) = name else {
        return elaboration.refuse(Cause::Raised);
    };
    if is_no_name(elaboration.alloc, elaboration.store.hierarchy(), of, name)? {
        return elaboration.refuse(Cause::Raised);
    }
    add(elaboration, heap, frozen, of, Some(name), v, Val::None)
}

/// `m.submodules.name`, and the same by an index.
pub fn give_submodule(
    elaboration: &mut Elaboration,
    of: u32,
    name: Option<&str>,
) -> Result<Answer, NoMemory>
    ensures { Gives result elaboration.new (submodule_given of (option_copied name.entry) (held_of elaboration.old)) }
{
    let Some(name) = name else {
        return elaboration.refuse(Cause::Raised);
    };
    match elaboration.store.hierarchy().added_as(of, name) {
        Some(v) => elaboration.give(v),
        None => elaboration.refuse(Cause::Raised),
    }
}

/// A value is assigned to `m.submodules`: it is `m.submodules` again, or it raises.
pub fn store_submodules(elaboration: &mut Elaboration, of: u32, v: &Val) -> Result<Answer, NoMemory>
    ensures { Gives result elaboration.new (submodules_stored of v.now (held_of elaboration.old)) }
{
    match elaboration.store.kept_of(*v) {
        Some(Kept::Submodules(m)) if m == of => elaboration.give(Val::None),
        _ => elaboration.refuse(Cause::Raised),
    }
}
