// What statements and memory ports read.
ghost use Rattle.std.specs.Prelude.{◌≡◌, length, IfOk};
ghost use Rattle.std.specs.List.{AllByRecursion, flat_map};
ghost use Rattle.design_ir.specs.Named.{AllBelow};
ghost use Rattle.fragment_walks.specs.Held.{memory_exprs};
ghost use Rattle.fragment_walks.specs.Marks.{Flag, marked};
ghost use Rattle.fragment_walks.specs.Reads.{block_targets, block_values, is_read};
ghost use Rattle.clock_domains.specs.Resolvable.{IsSideOf};

use amh_host::{Items, NoMemory};
use design_ir::{Exprs, Memory, Pool, Process};
use fragment_walks::exprs::add_memories;
use fragment_walks::marks::{Roots, SIGNALS, mark_all, mark_block, unmarked};
use fragment_walks::spread::{spread_targets, spread_values};
use std::alloc::Global;

/// Marks the targets, right sides and conditions of all processes.
pub fn mark_processes(pool: &Pool, roots: &mut Roots, processes: &[Process])
    requires sides { AllByRecursion (IsSideOf pool.now) processes.now }
    requires targets { length roots.old.targets.items ≡ length pool.now.exprs }
    requires values { length roots.old.values.items ≡ length pool.now.exprs }
    ensures targets { roots.new.targets.items ≡ marked (flat_map (λ p. block_targets p.body) processes.now) roots.old.targets.items }
    ensures values { roots.new.values.items ≡ marked (flat_map (λ p. block_values p.body) processes.now) roots.old.values.items }
{
    let _ = pool;
    for process in processes {
        mark_block(roots, &process.body);
    }
}

/// For each signal whether one of these processes reads it, or a port of one of these memories.
pub fn reads(
    alloc: Global,
    pool: &Pool,
    processes: &[Process],
    memories: &[Memory],
) -> Result<Vec<bool>, NoMemory>
    requires sides { AllByRecursion (IsSideOf pool.now) processes.now }
    requires ports { AllBelow (length pool.now.exprs) (flat_map memory_exprs memories.now) }
    ensures { IfOk result (λ v. Flag v.items (is_read pool.now processes.now memories.now)) }
{
    let mut roots = Roots::new(alloc, pool.count())?;
    mark_processes(pool, &mut roots, processes);
    let mut driven = unmarked(alloc, SIGNALS)?;
    spread_targets(pool, &mut roots, &mut driven);
    let mut ports = Items::new(alloc);
    add_memories(&mut ports, memories)?;
    mark_all(&mut roots.values, ports.as_slice());
    let mut read = unmarked(alloc, SIGNALS)?;
    spread_values(pool, &mut roots.values, &mut read);
    Ok(read)
}
