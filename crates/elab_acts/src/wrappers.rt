// Calls of what `DomainRenamer(..)` and the inserters give, and attributes of what such a call gives.
ghost use Rattle.py_heap.specs.Heaps.{seen};
ghost use Rattle.elab_store.specs.Seen.{called_of};
ghost use Rattle.elab_store.specs.Held.{held_of, Gives};
ghost use Rattle.elab_acts.specs.Wrappers.{wrapped_by, wrapped_given, argument_wrapped, wrapping_called, wrapped_attribute};

use crate::submodules::is_elaboratable;
use elab_store::calls::Called;
use elab_store::store::Elaboration;
use elab_store::wrappings::Wrapped;
use lists::NoMemory;
use py_frames::request::{Answer, Cause};
use py_heap::{Frozen, Heap};
use py_values::Val;

// A value is wrapped, once more where it was wrapped before.
fn give_wrapped(elaboration: &mut Elaboration, k: u32, v: &Val) -> Result<Answer, NoMemory>
    ensures { Gives result elaboration.new (wrapped_given (wrapped_by k v.now elaboration.old.store) (held_of elaboration.old)) }
{
    let wrapped = Wrapped {
        by: k,
        over: elaboration.store.wrapped_of(v),
        inner: elaboration.store.inner_of(v),
    };
    let thing = elaboration.store.add_wrapped(wrapped)?;
    elaboration.give(thing)
}

// What is wrapped is something to elaborate.
fn wrap(
    elaboration: &mut Elaboration,
    heap: &Heap,
    frozen: &Frozen,
    k: u32,
    v: &Val,
) -> Result<Answer, NoMemory>
    ensures { Gives result elaboration.new (argument_wrapped (seen frozen.now heap.now) k v.now (held_of elaboration.old)) }
{
    if is_elaboratable(&elaboration.store, heap, frozen, v) {
        give_wrapped(elaboration, k, v)
    } else {
        elaboration.refuse(Cause::Raised)
    }
}

/// A call of what `DomainRenamer(..)` or an inserter gave: one argument, and no keyword.
pub fn call_wrapping(
    elaboration: &mut Elaboration,
    heap: &Heap,
    frozen: &Frozen,
    k: u32,
    call: &Called,
) -> Result<Answer, NoMemory>
    ensures { Gives result elaboration.new (wrapping_called (seen frozen.now heap.now) k (called_of call.now) (held_of elaboration.old)) }
{
    match call.placed {
        [v] if call.keywords.is_empty() => wrap(elaboration, heap, frozen, k, v),
        _ => elaboration.refuse(Cause::Raised),
    }
}

/// An attribute of what is wrapped: it is taken from what stands within.
pub fn wrapped_attribute(elaboration: &mut Elaboration, j: u32) -> Result<Answer, NoMemory>
    ensures { Gives result elaboration.new (wrapped_attribute j (held_of elaboration.old)) }
{
    match elaboration.store.wrapped_at(j) {
        Some(one) => Ok(Answer::Through(one.inner)),
        None => elaboration.refuse(Cause::Raised),
    }
}
