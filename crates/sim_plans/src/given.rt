// Which signals a state gives.
ghost use Rattle.std.specs.Prelude.{◌≡◌, ◌||◌, ◌<◌, [], false, ℕ, length, slice_index_or, is_some, IfOk, OnOk};
ghost use Rattle.std.specs.List.{list_any};
ghost use Rattle.design_ir.specs.Circuits.{is_among, is_input, is_held};
ghost use Rattle.design_ir.specs.Designs.{IsProcess};
ghost use Rattle.design_ir.specs.Guards.{driven};
ghost use Rattle.sim_plans.specs.Driven.{AreTargets, numbers_of};
ghost use Rattle.sim_plans.specs.Reading.{AreFirst, AreThere};
ghost use Rattle.sim_plans.specs.Given.{marked, drives, gives};

use crate::driven::driven;
use crate::targets::SigIds;
use amh_host::NoMemory;
use design_ir::{Design, DesignProcess, Memory, SigId};
use std::alloc::Global;

/// For each signal, whether it is an input or a register.
pub fn given_signals(
    alloc: Global,
    design: &Design,
    targets: &[SigIds],
) -> Result<Vec<bool>, NoMemory>
    requires targets { AreTargets design.now.pool (length design.now.pool.exprs) targets.now }
    ensures { IfOk result (λ v. AreFirst false (is_held design.now) (length design.now.pool.signals) v.items) }
{
    let mut given = inputs(alloc, design)?;
    for p in design.processes().as_slice() {
        mark_registers(alloc, design, targets, p, &mut given)?;
    }
    for m in design.memories().as_slice() {
        mark_words(m, &mut given);
    }
    Ok(given)
}

// For each signal, whether it is an input.
fn inputs(alloc: Global, design: &Design) -> Result<Vec<bool>, NoMemory>
    ensures { IfOk result (λ v. AreFirst false (is_input design.now) (length design.now.pool.signals) v.items) }
{
    let mut given = Vec::new(alloc);
    for s in 0..design.signals() {
        given.push(design.is_input(SigId(s)))?;
    }
    Ok(given)
}

// Marks the signals that a clocked process drives.
fn mark_registers(
    alloc: Global,
    design: &Design,
    targets: &[SigIds],
    p: &DesignProcess,
    given: &mut [bool],
) -> Result<(), NoMemory>
    requires targets { AreTargets design.now.pool (length design.now.pool.exprs) targets.now }
    requires rules { IsProcess design.now p.now }
    requires signals { length given.old ≡ length design.now.pool.signals }
    ensures count { length given.new ≡ length given.old }
    ensures marks { OnOk result ((s : ℕ) → s < length given.old → slice_index_or given.new s false ≡ (slice_index_or given.old s false || drives design.now.pool s p.now)) }
{
    if p.domain.is_none() {
        return Ok(());
    }
    let signals = driven(alloc, targets, &p.body)?;
    mark(signals.as_slice(), given);
    Ok(())
}

// Marks the data of the clocked read ports of a memory.
fn mark_words(m: &Memory, given: &mut [bool])
    ensures count { length given.new ≡ length given.old }
    ensures marks { (s : ℕ) → s < length given.old → slice_index_or given.new s false ≡ (slice_index_or given.old s false || gives m.now s) }
{
    for r in m.reads.as_slice() {
        if r.domain.is_some() {
            mark(&[r.word], given);
        }
    }
}

// Marks these signals.
fn mark(signals: &[SigId], given: &mut [bool])
    ensures { given.new ≡ marked (numbers_of signals.now) given.old }
{
    for s in signals {
        let s = s.0 as usize;
        if s < given.len() {
            given[s] = true;
        }
    }
}
