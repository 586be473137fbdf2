// The first process that drives each signal, by its number.
ghost use Rattle.std.specs.Prelude.{◌≡◌, ◌<◌, ◌+◌, ◌^◌, ◌||◌, ◌∷◌, [], ℕ, length, take, IfOk};
ghost use Rattle.std.specs.List.{AllByRecursion, filter};
ghost use Rattle.design_ir.specs.Guards.{block_exprs};
ghost use Rattle.design_ir.specs.Named.{AllBelow as AreBelow, named};
ghost use Rattle.design_ir.specs.PoolRules.{IsPool};
ghost use Rattle.design_ir.specs.Targets.{target_signals};
ghost use Rattle.fragment_walks.specs.Marks.{AllBelow, Flag, comes_out, is_marked, marked, numbers, target_parts};
ghost use Rattle.fragment_walks.specs.Numbers.{bounded, lowered, process_targets};
ghost use Rattle.fragment_walks.specs.Reads.{data_signals, is_driven, own_signals};
ghost use Rattle.clock_domains.specs.Firsts.{AreFirsts, AreSites};
ghost use Rattle.clock_domains.specs.Resolvable.{IsSideOf};
ghost use Rattle.clock_domains.specs.Resolved.{is_clocked};

use crate::read_data::{number_data, number_memories};
use amh_host::NoMemory;
use design_ir::{Expr, ExprId, Exprs, Memory, Pool, Process, Side};
use fragment_walks::marks::SIGNALS;
use fragment_walks::numbers::{lower, lower_all, lower_block, unnumbered};
use std::alloc::Global;

// Each process numbers its targets, from 1 on: what read ports give has the number 0.
fn number_targets(pool: &Pool, processes: &[Process], targets: &mut Vec<Option<usize>>)
    requires sides { AllByRecursion (IsSideOf pool.now) processes.now }
    requires size { length targets.old.items ≡ length pool.now.exprs }
    ensures size { length targets.new.items ≡ length targets.old.items }
    ensures each { (i : ℕ) → bounded (i + 1) targets.new.items ≡ marked (process_targets (take i processes.now)) (bounded (i + 1) targets.old.items) }
{
    let _ = pool;
    for (number, process) in processes.iter().enumerate() {
        lower_block(targets, number + 1, &process.body);
    }
}

// A process numbers its targets, where it is clocked.
fn lower_clocked(targets: &mut Vec<Option<usize>>, number: usize, process: &Process)
    requires { AreBelow (length targets.old.items) (block_exprs process.now.body) }
    ensures { targets.new.items ≡ lowered (process_targets (filter is_clocked (process.now ∷ []))) number targets.old.items }
{
    match &process.side {
        Side::Comb => {}
        Side::Clocked(_) => lower_block(targets, number, &process.body),
    }
}

// Each clocked process numbers its targets, by its number among all.
fn number_clocked(pool: &Pool, processes: &[Process], targets: &mut Vec<Option<usize>>)
    requires sides { AllByRecursion (IsSideOf pool.now) processes.now }
    requires size { length targets.old.items ≡ length pool.now.exprs }
    ensures size { length targets.new.items ≡ length targets.old.items }
    ensures each { (i : ℕ) → bounded i targets.new.items ≡ marked (process_targets (filter is_clocked (take i processes.now))) (bounded i targets.old.items) }
{
    let _ = pool;
    for (number, process) in processes.iter().enumerate() {
        lower_clocked(targets, number, process);
    }
}

// Gives the parts of a target its number, and the signal that it is.
fn lower_parts(
    e: &Expr,
    number: usize,
    targets: &mut Vec<Option<usize>>,
    signals: &mut Vec<Option<usize>>,
)
    requires targets { AreBelow (length targets.old.items) (named e.now) }
    requires signals { AllBelow (length signals.old.items) (own_signals e.now) }
    ensures targets { targets.new.items ≡ lowered (numbers (target_parts e.now)) number targets.old.items }
    ensures signals { signals.new.items ≡ lowered (own_signals e.now) number signals.old.items }
{
    match e {
        Expr::Sig(s) => lower(signals, s.0 as usize, number),
        Expr::Slice { a, .. } | Expr::Part { a, .. } | Expr::Cast { a, .. } => {
            lower(targets, a.0 as usize, number)
        }
        Expr::Cat(items) | Expr::Pick { items, .. } => {
            lower_all(targets, items.as_slice(), number)
        }
        Expr::Const { .. }
        | Expr::Unary { .. }
        | Expr::Binary { .. }
        | Expr::Mux { .. }
        | Expr::Matches { .. }
        | Expr::Reset { .. } => {}
    }
}

// Hands the number of a target down to its parts.
fn hand_down(
    pool: &Pool,
    e: ExprId,
    targets: &mut Vec<Option<usize>>,
    signals: &mut Vec<Option<usize>>,
)
    requires rules { IsPool pool.now }
    requires there { e.0 < length pool.now.exprs }
    requires targets { length targets.old.items ≡ length pool.now.exprs }
    requires signals { length signals.old.items ≡ 16384 }
    ensures targets { length targets.new.items ≡ length pool.now.exprs }
    ensures signals { length signals.new.items ≡ 16384 }
    ensures driven { (i s : ℕ) → s < 16384 → comes_out (target_signals pool.now) (bounded i targets.new.items) (bounded i signals.new.items) e.0 s ≡ comes_out (target_signals pool.now) (bounded i targets.old.items) (bounded i signals.old.items) (e.0 + 1) s }
{
    if let Some(number) = targets[e.0 as usize] {
        lower_parts(pool.at(e), number, targets, signals);
    }
}

// Hands the numbers of targets down to the signals that they stand for, each after all that stand over it.
fn hand_all_down(pool: &Pool, targets: &mut Vec<Option<usize>>, signals: &mut Vec<Option<usize>>)
    requires targets { length targets.old.items ≡ length pool.now.exprs }
    requires signals { length signals.old.items ≡ 16384 }
    ensures signals { length signals.new.items ≡ 16384 }
    ensures driven { (i s : ℕ) → s < 16384 → is_marked (bounded i signals.new.items) s ≡ comes_out (target_signals pool.now) (bounded i targets.old.items) (bounded i signals.old.items) (length pool.now.exprs) s }
{
    let count = pool.count();
    for i in 0..count {
        hand_down(pool, ExprId(count - 1 - i), targets, signals);
    }
}

/// For each signal the number of the first process that drives it, from 1 on, or 0 where a read port gives it.
pub fn first_drivers(
    alloc: Global,
    pool: &Pool,
    processes: &[Process],
    given: &[bool],
) -> Result<Vec<Option<usize>>, NoMemory>
    requires sides { AllByRecursion (IsSideOf pool.now) processes.now }
    requires given { length given.now ≡ 16384 }
    ensures { IfOk result (λ v. (i : ℕ) → Flag (bounded (i + 1) v.items) (λ s. is_driven pool.now (take i processes.now) s || is_marked given.now s)) }
{
    let mut targets = unnumbered(alloc, pool.count() as usize)?;
    number_targets(pool, processes, &mut targets);
    let mut signals = unnumbered(alloc, SIGNALS)?;
    hand_all_down(pool, &mut targets, &mut signals);
    number_data(given, &mut signals);
    Ok(signals)
}

// For each signal the number of the first clocked process that drives it.
fn first_clocked(
    alloc: Global,
    pool: &Pool,
    processes: &[Process],
) -> Result<Vec<Option<usize>>, NoMemory>
    requires { AllByRecursion (IsSideOf pool.now) processes.now }
    ensures { IfOk result (λ v. AreFirsts pool.now processes.now v.items) }
{
    let mut targets = unnumbered(alloc, pool.count() as usize)?;
    number_clocked(pool, processes, &mut targets);
    let mut signals = unnumbered(alloc, SIGNALS)?;
    hand_all_down(pool, &mut targets, &mut signals);
    Ok(signals)
}

/// For each signal the number of the first clocked process that drives it, else of the first memory of which it is the data of
/// a clocked read port, behind all processes.
pub fn first_sites(
    alloc: Global,
    pool: &Pool,
    processes: &[Process],
    memories: &[Memory],
) -> Result<Vec<Option<usize>>, NoMemory>
    requires sides { AllByRecursion (IsSideOf pool.now) processes.now }
    requires there { AllByRecursion (λ s. s < 16384) (data_signals memories.now) }
    requires few { length processes.now + length memories.now < 2 ^ 64 }
    ensures { IfOk result (λ v. AreSites pool.now processes.now memories.now v.items) }
{
    let mut sites = first_clocked(alloc, pool, processes)?;
    number_memories(processes.len(), memories, &mut sites);
    Ok(sites)
}
