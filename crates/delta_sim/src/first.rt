// A first guess at the settled numbers: each task once, behind those that it reads from as far as there is such an order.
ghost use Rattle.std.specs.Prelude.{◌≡◌, ◌+◌, ◌<◌, ℕ, false, length, IfOk};
ghost use Rattle.std.specs.List.{AllByRecursion};
ghost use Rattle.design_ir.specs.Circuits.{at};
ghost use Rattle.comb_graph.specs.Orders.{is_comb};
ghost use Rattle.sim_plans.specs.Driven.{numbers_of};
ghost use Rattle.sim_plans.specs.Plans.{IsPlan, taken};
ghost use Rattle.delta_sim.specs.Standing.{AreNumbersOf, AreRowsOf};
ghost use Rattle.sim_plans.specs.Tasks.{AreFitting};

use crate::run::run;
use amh_bits::Int;
use amh_host::NoMemory;
use comb_graph::RankedBit;
use design_ir::{Design, Exprs, SigId};
use sim_plans::plan::Plan;
use sim_plans::rows::Rows;
use std::alloc::Global;

/// Runs each task once, in the order of the last of its bits, and gives its signals what it comes to. Where no task
/// reads from a later one nothing is left to settle; in any case only what tasks drive has changed.
pub fn run_in_order(
    alloc: Global,
    design: &Design,
    order: &[RankedBit],
    plan: &Plan,
    rows: &[Rows],
    env: &mut Vec<Int>,
    nums: &mut Vec<Int>,
    next: &mut [Int],
) -> Result<(), NoMemory>
    requires plan { IsPlan design.now (length nums.old.items) plan.now }
    requires rows { AreRowsOf design.now rows.now }
    requires env { AreNumbersOf design.now env.old.items }
    requires numbers { AreFitting design.now.pool nums.old.items }
    requires next { AreNumbersOf design.now next.old }
    ensures env { AreNumbersOf design.now env.new.items }
    ensures count { length nums.new.items ≡ length nums.old.items }
    ensures numbers { AreFitting design.now.pool nums.new.items }
    ensures next { AreNumbersOf design.now next.new }
    ensures others { (s : ℕ) → is_comb design.now s ≡ false → at env.new.items s ≡ at env.old.items s }
{
    let owners = owners(alloc, design, plan)?;
    let last = last_bits(alloc, order, owners.as_slice(), plan.jobs)?;
    for i in 0..order.len() {
        let t = owner(owners.as_slice(), order[i].sig);
        if t < plan.jobs && last[t] == i {
            run_now(design, plan, t, rows, env, nums, next);
        }
    }
    Ok(())
}

// Runs a task, and gives its signals what it comes to.
fn run_now(
    design: &Design,
    plan: &Plan,
    j: usize,
    rows: &[Rows],
    env: &mut Vec<Int>,
    nums: &mut Vec<Int>,
    next: &mut [Int],
)
    requires there { j < plan.now.jobs }
    requires plan { IsPlan design.now (length nums.old.items) plan.now }
    requires rows { AreRowsOf design.now rows.now }
    requires env { AreNumbersOf design.now env.old.items }
    requires numbers { AreFitting design.now.pool nums.old.items }
    requires next { AreNumbersOf design.now next.old }
    ensures env { AreNumbersOf design.now env.new.items }
    ensures count { length nums.new.items ≡ length nums.old.items }
    ensures numbers { AreFitting design.now.pool nums.new.items }
    ensures next { AreNumbersOf design.now next.new }
    ensures others { (s : ℕ) → is_comb design.now s ≡ false → at env.new.items s ≡ at env.old.items s }
{
    let _ = design.count();
    let _ = design.processes();
    run(design, plan, j, env.as_slice(), rows, nums, next);
    give(plan.outs(j), next, env);
}

// These signals take their numbers from others.
fn give(signals: &[SigId], from: &[Int], env: &mut Vec<Int>)
    requires below { AllByRecursion (λ s. s < length env.old.items) (numbers_of signals.now) }
    requires long { length from.now ≡ length env.old.items }
    ensures { env.new.items ≡ taken from.now (numbers_of signals.now) env.old.items }
{
    for s in signals {
        env[s.0 as usize] = from[s.0 as usize];
    }
}

// For each signal the task that drives it, past all tasks where none does.
fn owners(alloc: Global, design: &Design, plan: &Plan) -> Result<Vec<usize>, NoMemory>
    requires { plan.now.jobs ≡ length plan.now.tasks + length plan.now.reads }
{
    let count = plan.jobs;
    let mut owners = vec![in alloc; count; design.signals() as usize]?;
    for t in 0..count {
        own(plan.outs(t), t, &mut owners);
    }
    Ok(owners)
}

// Notes the task of these signals.
fn own(signals: &[SigId], t: usize, owners: &mut Vec<usize>) {
    for s in signals {
        let s = s.0 as usize;
        if s < owners.len() {
            owners[s] = t;
        }
    }
}

// The task that drives a signal.
fn owner(owners: &[usize], s: SigId) -> usize {
    match owners.get(s.0 as usize) {
        Some(t) => *t,
        None => usize::MAX,
    }
}

// For each of so many tasks where the last of its bits stands in the order.
fn last_bits(
    alloc: Global,
    order: &[RankedBit],
    owners: &[usize],
    count: usize,
) -> Result<Vec<usize>, NoMemory>
    ensures { IfOk result (λ last. length last.items ≡ count) }
{
    let mut last = vec![in alloc; 0; count]?;
    for i in 0..order.len() {
        let t = owner(owners, order[i].sig);
        if t < last.len() {
            last[t] = i;
        }
    }
    Ok(last)
}
