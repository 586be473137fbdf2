// What statements drive, and what read ports give.
ghost use Rattle.std.specs.Prelude.{◌≡◌, ◌<◌, ◌+◌, ◌^◌, ℕ, List, None, length, IfOk, IfErr};
ghost use Rattle.std.specs.List.{AllByRecursion};
ghost use Rattle.design_ir.specs.Circuits.{is_among};
ghost use Rattle.fragment_walks.specs.Marks.{Flag};
ghost use Rattle.fragment_walks.specs.Numbers.{bounded};
ghost use Rattle.fragment_walks.specs.Reads.{data_signals, is_driven, is_given};
ghost use Rattle.clock_domains.specs.Firsts.{AreSites};
ghost use Rattle.clock_domains.specs.Resolvable.{IsSideOf};
ghost use Rattle.clock_domains.specs.Resolved.{data_refusal, driver_refusal, first_of};
ghost use Rattle.clock_domains.specs.Stops.{processes_stop, target_stop, IsOwed};

use crate::firsts::{first_drivers, first_sites};
use crate::hits::hitting;
use crate::leasts::leasts_of;
use crate::read_data::{data_marks, mark_data};
use crate::reads::mark_processes;
use crate::stop::ResolveStop;
use crate::stops::block_stop;
use amh_host::NoMemory;
use design_ir::{Exprs, Memory, Pool, Process};
use fragment_walks::marks::{Roots, SIGNALS, unmarked};
use fragment_walks::spread::spread_targets;
use std::alloc::Global;

/// For each signal whether it is driven, by a statement or a read port, and the number of the first clocked process or memory
/// that gives it as a register.
#[derive(Drop)]
pub struct Drivers {
    pub driven: Vec<bool>,
    pub sites: Vec<Option<usize>>,
}

/// For each signal whether one of these processes drives it.
pub fn driven_by(alloc: Global, pool: &Pool, processes: &[Process]) -> Result<Vec<bool>, NoMemory>
    requires { AllByRecursion (IsSideOf pool.now) processes.now }
    ensures { IfOk result (λ v. Flag v.items (is_driven pool.now processes.now)) }
{
    let mut roots = Roots::new(alloc, pool.count())?;
    mark_processes(pool, &mut roots, processes);
    let mut driven = unmarked(alloc, SIGNALS)?;
    spread_targets(pool, &mut roots, &mut driven);
    Ok(driven)
}

// Why the first statement is refused that is, each by the number of its process, from 1 on.
fn first_stop(
    pool: &Pool,
    on_inputs: &[bool],
    leasts: &[Option<usize>],
    processes: &[Process],
) -> Option<ResolveStop>
    requires sides { AllByRecursion (IsSideOf pool.now) processes.now }
    requires inputs { length on_inputs.now ≡ length pool.now.exprs }
    requires leasts { length leasts.now ≡ length pool.now.exprs }
    ensures { result ≡ processes_stop (λ i. target_stop on_inputs.now (bounded i leasts.now)) 1 processes.now }
{
    let _ = pool;
    for (number, process) in processes.iter().enumerate() {
        if let Some(stop) = block_stop(on_inputs, leasts, number + 1, &process.body) {
            return Some(stop);
        }
    }
    None
}

// Refuses the first statement that drives an input, or what an earlier process or a read port gives.
fn no_bad_driver(
    alloc: Global,
    pool: &Pool,
    processes: &[Process],
    inputs: &[bool],
    given: &[bool],
) -> Result<(), ResolveStop>
    requires sides { AllByRecursion (IsSideOf pool.now) processes.now }
    requires inputs { length inputs.now ≡ 16384 }
    requires given { length given.now ≡ 16384 }
    ensures accepted { IfOk result (λ _. (ins before : List ℕ) → Flag inputs.now (is_among ins) → Flag given.now (is_among before) → driver_refusal pool.now ins before processes.now ≡ None) }
    ensures refused { IfErr result (λ stop. (ins before : List ℕ) → Flag inputs.now (is_among ins) → Flag given.now (is_among before) → IsOwed (driver_refusal pool.now ins before processes.now) stop) }
{
    let _ = pool.count();
    let on_inputs = hitting(alloc, pool, inputs)?;
    let firsts = first_drivers(alloc, pool, processes, given)?;
    let leasts = leasts_of(alloc, pool, firsts.as_slice())?;
    match first_stop(pool, on_inputs.as_slice(), leasts.as_slice(), processes) {
        Some(stop) => Err(stop),
        None => Ok(()),
    }
}

/// What all processes and read ports give, or why two read ports are refused, or the first statement that drives an input, or
/// what an earlier process or a read port gives.
pub fn drivers_of(
    alloc: Global,
    pool: &Pool,
    processes: &[Process],
    memories: &[Memory],
    inputs: &[bool],
) -> Result<Drivers, ResolveStop>
    requires sides { AllByRecursion (IsSideOf pool.now) processes.now }
    requires there { AllByRecursion (λ s. s < 16384) (data_signals memories.now) }
    requires few { length processes.now + length memories.now < 2 ^ 64 }
    requires inputs { length inputs.now ≡ 16384 }
    ensures accepted { IfOk result (λ _. (ins : List ℕ) → Flag inputs.now (is_among ins) → first_of (data_refusal memories.now) (driver_refusal pool.now ins (data_signals memories.now) processes.now) ≡ None) }
    ensures driven { IfOk result (λ d. Flag d.driven.items (is_given pool.now processes.now memories.now)) }
    ensures sites { IfOk result (λ d. AreSites pool.now processes.now memories.now d.sites.items) }
    ensures refused { IfErr result (λ stop. (ins : List ℕ) → Flag inputs.now (is_among ins) → IsOwed (first_of (data_refusal memories.now) (driver_refusal pool.now ins (data_signals memories.now) processes.now)) stop) }
{
    let _ = pool.count();
    let given = data_marks(alloc, memories)?;
    no_bad_driver(alloc, pool, processes, inputs, given.as_slice())?;
    let mut driven = driven_by(alloc, pool, processes)?;
    mark_data(given.as_slice(), &mut driven);
    Ok(Drivers {
        driven,
        sites: first_sites(alloc, pool, processes, memories)?,
    })
}
