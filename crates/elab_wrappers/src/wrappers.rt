// `DomainRenamer(..)`, `ResetInserter(..)` and `EnableInserter(..)`.
ghost use Rattle.std.specs.Prelude.{◌≡◌, ◌∷◌, [], length, Ok, Err, Some, None};
ghost use Rattle.py_heap.specs.Heaps.{seen};
ghost use Rattle.elab_store.specs.declared.wrappings.Wrapping.TheVariants as wrapping;
ghost use Rattle.elab_store.specs.Seen.{called_of};
ghost use Rattle.elab_store.specs.Sound.{IsSound};
ghost use Rattle.elab_store.specs.Held.{held_of, Gives};
ghost use Rattle.elab_wrappers.specs.Wrappers.{wrapping_given, renamed, renamer_of, renamer_called, inserting, inserter_made, inserter_from, inserter_of, inserter_called};

use crate::controls::{controls_from, controls_given};
use crate::names::pairs_given;
use domain_transforms::Controls;
use elab_store::calls::Called;
use elab_store::kept::Kept;
use elab_store::store::Elaboration;
use elab_store::wrappings::Wrapping;
use lists::NoMemory;
use py_frames::request::{Answer, Cause, NamedVal};
use py_heap::{Frozen, Heap};
use py_values::Val;

/// Which of the two inserters.
#[derive(Clone, Copy, PartialEq, Eq, Drop)]
pub enum Inserter {
    Reset,
    Enable,
}

// A new wrapping is given.
fn give_wrapping(elaboration: &mut Elaboration, wrapping: Wrapping) -> Result<Answer, NoMemory>
    ensures { Gives result elaboration.new (wrapping_given wrapping (held_of elaboration.old)) }
{
    let number = elaboration.store.add_wrapping(wrapping)?;
    elaboration.give_kept(Kept::Wrapping(number))
}

// What renames domains as a value says.
fn rename(
    elaboration: &mut Elaboration,
    heap: &Heap,
    frozen: &Frozen,
    v: Val,
) -> Result<Answer, NoMemory>
    ensures { Gives result elaboration.new (renamer_of (seen frozen.now heap.now) (v ∷ []) [] (held_of elaboration.old)) }
{
    match pairs_given(elaboration.alloc, heap, frozen, v)? {
        Some(pairs) => give_wrapping(elaboration, Wrapping::Rename(pairs)),
        None => elaboration.refuse(Cause::Raised),
    }
}

/// `DomainRenamer(..)`.
pub fn make_renamer(
    elaboration: &mut Elaboration,
    heap: &Heap,
    frozen: &Frozen,
    call: &Called,
) -> Result<Answer, NoMemory>
    ensures { Gives result elaboration.new (renamer_called (seen frozen.now heap.now) (called_of call.now) (held_of elaboration.old)) }
{
    match call.placed {
        [v] if call.keywords.is_empty() => rename(elaboration, heap, frozen, *v),
        _ => elaboration.refuse(Cause::Raised),
    }
}

fn inserting(inserter: Inserter, controls: Controls) -> Wrapping
    ensures { result ≡ inserting inserter controls }
{
    match inserter {
        Inserter::Reset => Wrapping::Reset(controls),
        Inserter::Enable => Wrapping::Enable(controls),
    }
}

// What inserts the values that were given for these domains.
fn insert_all(
    elaboration: &mut Elaboration,
    inserter: Inserter,
    named: &[NamedVal],
) -> Result<Answer, NoMemory>
    requires { IsSound (held_of elaboration.old) }
    ensures { Gives result elaboration.new (inserter_from inserter (Some named.now) (held_of elaboration.old)) }
{
    let made = controls_from(
        elaboration.alloc,
        &elaboration.store,
        &mut elaboration.pool,
        named,
    )?;
    match made {
        Ok(controls) => give_wrapping(elaboration, inserting(inserter, controls)),
        Err(why) => elaboration.refuse(why),
    }
}

// What inserts as a value says.
fn insert(
    elaboration: &mut Elaboration,
    heap: &Heap,
    frozen: &Frozen,
    inserter: Inserter,
    v: Val,
) -> Result<Answer, NoMemory>
    requires { IsSound (held_of elaboration.old) }
    ensures { Gives result elaboration.new (inserter_of (seen frozen.now heap.now) inserter (v ∷ []) [] (held_of elaboration.old)) }
{
    match controls_given(elaboration, heap, frozen, v)? {
        Some(named) => insert_all(elaboration, inserter, named.as_slice()),
        None => elaboration.refuse(Cause::Raised),
    }
}

/// `ResetInserter(..)` and `EnableInserter(..)`.
pub fn make_inserter(
    elaboration: &mut Elaboration,
    heap: &Heap,
    frozen: &Frozen,
    inserter: Inserter,
    call: &Called,
) -> Result<Answer, NoMemory>
    requires { IsSound (held_of elaboration.old) }
    ensures { Gives result elaboration.new (inserter_called (seen frozen.now heap.now) inserter (called_of call.now) (held_of elaboration.old)) }
{
    match call.placed {
        [v] if call.keywords.is_empty() => insert(elaboration, heap, frozen, inserter, *v),
        _ => elaboration.refuse(Cause::Raised),
    }
}
