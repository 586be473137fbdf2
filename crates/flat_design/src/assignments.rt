// The sources of signals behind one assignment.
ghost use Rattle.std.specs.Prelude.{◌≡◌, ◌++◌, ◌∷◌, [], ◌+◌, ◌<◌, ◌≤◌, ◌&&◌, ℕ, ℤ, Bool, List, All, length, slice_get, slice_index_or, Some, IfOk, OnOk};
ghost use Rattle.amh_host.specs.declared.place.Place.{Place};
ghost use Rattle.shape_rules.specs.Forms.{unsigned};
ghost use Rattle.design_ir.specs.Values.{form};
ghost use Rattle.design_ir.specs.PoolRules.{IsPool};
ghost use Rattle.design_ir.specs.Targets.{Bit};
ghost use Rattle.design_ir.specs.Guards.{Guard, Guarded};
ghost use Rattle.flat_design.specs.Growing.{IsMore, IsReadable};
ghost use Rattle.flat_design.specs.Activity.{IsActive, IsTest, tests_hold, tests_need};
ghost use Rattle.flat_design.specs.Sources.{IsSource};
ghost use Rattle.flat_design.specs.Shown.{SoFar, AreSlots, after};
ghost use Rattle.flat_design.specs.Written.{IsGuarded, AreGuarded, IsWrittenSlot, AreWrittenSlots, IsSlotOf};
ghost use Rattle.flat_design.specs.Begun.{IsBegun};
ghost use Rattle.flat_design.specs.Replaced.{replaced};

use crate::activity::with_tests;
use crate::sources::{Source, Sources, chosen, extension};
use crate::writes::{Write, writes_of};
use amh_host::{Items, NoMemory};
use design_ir::{ExprId, Exprs, Pool};
use std::alloc::Global;

/// The pool as it grows, and the sources of each signal's bits.
#[derive(Drop)]
pub(crate) struct Latest {
    pub pool: Pool,
    pub slots: Vec<Sources>,
}

/// Carries out an assignment where `active` is not 0.
pub(crate) fn put_assignment(
    alloc: Global,
    latest: &mut Latest,
    active: Option<ExprId>,
    target: ExprId,
    value: ExprId,
) -> Result<(), NoMemory>
    requires { (t : SoFar) × (gs : List Guard) × (place : Place) × IsBegun t gs latest.old.pool latest.old.slots.items active (target ∷ value ∷ []) (record { guards = gs; target = target; value = value; place = place } ∷ []) }
    ensures more { IfOk result (λ _. IsMore latest.old.pool latest.new.pool) }
    ensures rules { IfOk result (λ _. IsPool latest.new.pool) }
    ensures put { (t : SoFar) (gs : List Guard) (place : Place) → IsBegun t gs latest.old.pool latest.old.slots.items active (target ∷ value ∷ []) (record { guards = gs; target = target; value = value; place = place } ∷ []) → IfOk result (λ _. AreSlots (after t (record { guards = gs; target = target; value = value; place = place } ∷ [])) latest.new.pool latest.new.slots.items) }
{
    latest.pool.known();
    let writes = writes_of(alloc, &latest.pool, target)?;
    for write in writes.as_slice() {
        put_write(alloc, latest, active, value, write)?;
    }
    Ok(())
}

// Carries out one write of a value where `active` is not 0 and the write's tests hold.
fn put_write(
    alloc: Global,
    latest: &mut Latest,
    active: Option<ExprId>,
    value: ExprId,
    write: &Write,
) -> Result<(), NoMemory>
    requires value { IsReadable latest.old.pool value }
    requires tests { All (IsTest latest.old.pool) write.now.tests }
    requires slot { IsSlotOf latest.old.pool write.now latest.old.slots.items }
    requires few { write.now.from + write.now.width ≤ 128 }
    requires active { (test : List ℤ → Bool) × (bits : List Bit) × IsActive latest.old.pool test bits active }
    ensures more { IfOk result (λ _. IsMore latest.old.pool latest.new.pool) }
    ensures rules { IfOk result (λ _. IsPool latest.new.pool) }
    ensures written { (test : List ℤ → Bool) (bits : List Bit) → IsActive latest.old.pool test bits active → IfOk result (λ _. AreWrittenSlots latest.old.pool latest.new.pool (λ env. test env && tests_hold latest.old.pool write.now.tests env) (bits ++ tests_need latest.old.pool write.now.tests) value write.now latest.old.slots.items latest.new.slots.items) }
{
    latest.pool.known();
    let guard = with_tests(&mut latest.pool, active, write.tests.as_slice())?;
    let slot = &mut latest.slots[write.sig.0 as usize];
    let new = written_slot(
        alloc,
        &mut latest.pool,
        guard,
        value,
        write,
        slot.as_slice(),
    )?;
    *slot = new;
    Ok(())
}

// The slot of a signal behind a write, where the guard is not 0.
fn written_slot(
    alloc: Global,
    pool: &mut Pool,
    guard: Option<ExprId>,
    value: ExprId,
    write: &Write,
    slot: &[Source],
) -> Result<Sources, NoMemory>
    requires value { IsReadable pool.old value }
    requires sources { All (IsSource pool.old) slot.now }
    requires inside { write.now.low + write.now.width ≤ length slot.now }
    requires few { write.now.from + write.now.width ≤ 128 }
    requires guard { (test : List ℤ → Bool) × (bits : List Bit) × IsActive pool.old test bits guard }
    ensures more { IfOk result (λ _. IsMore pool.old pool.new) }
    ensures rules { IfOk result (λ _. IsPool pool.new) }
    ensures written { (test : List ℤ → Bool) (bits : List Bit) → IsActive pool.old test bits guard → IfOk result (IsWrittenSlot pool.old pool.new test bits value write.now slot.now) }
{
    pool.known();
    let low = write.low as usize;
    let new = extension(alloc, pool, value, write.from, write.width)?;
    let old = &slot[low..low + write.width as usize];
    let sources = guarded(alloc, pool, guard, new, old)?;
    with_sources(alloc, slot, low, sources.as_slice())
}

// The new sources where the guard is not 0, else the old ones.
fn guarded(
    alloc: Global,
    pool: &mut Pool,
    guard: Option<ExprId>,
    new: Sources,
    old: &[Source],
) -> Result<Sources, NoMemory>
    requires guard { (test : List ℤ → Bool) × (bits : List Bit) × IsActive pool.old test bits guard }
    requires new { All (IsSource pool.old) new }
    requires old { All (IsSource pool.old) old.now }
    requires size { length new ≡ length old.now }
    requires few { length new ≤ 128 }
    ensures more { IfOk result (λ _. IsMore pool.old pool.new) }
    ensures rules { IfOk result (λ _. IsPool pool.new) }
    ensures guarded { (test : List ℤ → Bool) (bits : List Bit) → IsActive pool.old test bits guard → IfOk result (AreGuarded pool.old pool.new test bits new old.now) }
{
    pool.known();
    match guard {
        Some(guard) => chosen(alloc, pool, guard, new.as_slice(), old),
        None => Ok(new),
    }
}

// The slot with these sources from one place on.
fn with_sources(
    alloc: Global,
    slot: &[Source],
    low: usize,
    sources: &[Source],
) -> Result<Sources, NoMemory>
    requires { low + length sources.now ≤ length slot.now }
    ensures { IfOk result (λ all. all ≡ replaced slot.now low sources.now) }
{
    let mut all = Items::new(alloc);
    add_all(&mut all, &slot[..low])?;
    add_all(&mut all, sources)?;
    add_all(&mut all, &slot[low + sources.len()..])?;
    Ok(all)
}

fn add_all(all: &mut Sources, more: &[Source]) -> Result<(), NoMemory>
    ensures { OnOk result (all.new ≡ all.old ++ more.now) }
{
    for source in more {
        all.push(*source)?;
    }
    Ok(())
}
