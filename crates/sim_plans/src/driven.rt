// The signals that statements drive.
ghost use Rattle.std.specs.Prelude.{◌≡◌, ◌<◌, ◌++◌, [], map, length, slice_index_or, IfOk, OnOk};
ghost use Rattle.std.specs.List.{AllByRecursion};
ghost use Rattle.design_ir.specs.Guards.{block_exprs, statement_exprs, choices_exprs};
ghost use Rattle.design_ir.specs.Statements.{statement_of};
ghost use Rattle.design_ir.specs.Trees.{statements};
ghost use Rattle.sim_plans.specs.Driven.{listed, statement_listed, choices_listed};
ghost use Rattle.sim_plans.specs.Reading.{AreBelow};
ghost use Rattle.sim_plans.specs.Tasks.{picked};

use crate::targets::SigIds;
use crate::task::statement;
use amh_host::{Items, NoMemory};
use design_ir::{Arms, ExprId, SigId, Stmt, Stmts};
use std::alloc::Global;

/// For each of these statements the signals of its targets.
pub fn driven_each(alloc: Global, targets: &[SigIds], body: &Stmts) -> Result<Vec<SigIds>, NoMemory>
    requires { AreBelow (length targets.now) (block_exprs body.now) }
    ensures { IfOk result (λ each. each.items ≡ map (statement_listed (λ k. slice_index_or targets.now k [])) (statements body.now)) }
{
    let mut each = Vec::new(alloc);
    for s in body.as_slice() {
        let mut signals = Items::new(alloc);
        add_stmt(targets, s, &mut signals)?;
        each.push(signals)?;
    }
    Ok(each)
}

/// The signals of the targets of the statements at these places, one target after another.
pub fn driven_picked(
    alloc: Global,
    targets: &[SigIds],
    body: &Stmts,
    places: &[usize],
) -> Result<SigIds, NoMemory>
    requires inside { AllByRecursion (λ i. i < length (statements body.now)) places.now }
    requires there { AreBelow (length targets.now) (block_exprs (picked body.now places.now)) }
    ensures { IfOk result (λ signals. signals ≡ listed (λ k. slice_index_or targets.now k []) (picked body.now places.now)) }
{
    let mut signals = Items::new(alloc);
    let all = body.as_slice();
    for i in places {
        add_stmt(targets, statement(all, *i), &mut signals)?;
    }
    Ok(signals)
}

/// The signals of the targets of all these statements, one target after another.
pub fn driven(alloc: Global, targets: &[SigIds], body: &Stmts) -> Result<SigIds, NoMemory>
    requires { AreBelow (length targets.now) (block_exprs body.now) }
    ensures { IfOk result (λ signals. signals ≡ listed (λ k. slice_index_or targets.now k []) body.now) }
{
    let mut signals = Items::new(alloc);
    add_body(targets, body, &mut signals)?;
    Ok(signals)
}

#[cycle(drive)]
fn add_body(targets: &[SigIds], body: &Stmts, signals: &mut SigIds) -> Result<(), NoMemory>
    requires { AreBelow (length targets.now) (block_exprs body.now) }
    ensures { OnOk result (signals.new ≡ signals.old ++ listed (λ k. slice_index_or targets.now k []) body.now) }
{
    for s in body.as_slice() {
        add_stmt(targets, s, signals)?;
    }
    Ok(())
}

#[cycle(drive)]
fn add_stmt(targets: &[SigIds], s: &Stmt, signals: &mut SigIds) -> Result<(), NoMemory>
    requires { AreBelow (length targets.now) (statement_exprs (statement_of s.now)) }
    ensures { OnOk result (signals.new ≡ signals.old ++ statement_listed (λ k. slice_index_or targets.now k []) (statement_of s.now)) }
{
    match s {
        Stmt::Assign { target, .. } => add_target(targets, *target, signals),
        Stmt::Choose(arms) => add_arms(targets, arms, signals),
    }
}

#[cycle(drive)]
fn add_arms(targets: &[SigIds], arms: &Arms, signals: &mut SigIds) -> Result<(), NoMemory>
    requires { AreBelow (length targets.now) (choices_exprs arms.now) }
    ensures { OnOk result (signals.new ≡ signals.old ++ choices_listed (λ k. slice_index_or targets.now k []) arms.now) }
{
    for arm in arms.as_slice() {
        add_body(targets, &arm.body, signals)?;
    }
    Ok(())
}

// The signals of one target.
fn add_target(targets: &[SigIds], target: ExprId, signals: &mut SigIds) -> Result<(), NoMemory>
    requires { target.0 < length targets.now }
    ensures { OnOk result (signals.new ≡ signals.old ++ slice_index_or targets.now target.0 []) }
{
    add_all(targets[target.0 as usize].as_slice(), signals)
}

fn add_all(more: &[SigId], signals: &mut SigIds) -> Result<(), NoMemory>
    ensures { OnOk result (signals.new ≡ signals.old ++ more.now) }
{
    for s in more {
        signals.push(*s)?;
    }
    Ok(())
}
