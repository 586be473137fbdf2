// From a module with those below it to a design.
ghost use Rattle.std.specs.Prelude.{◌≡◌, ◌<◌, ◌^◌, ◌++◌, List, Ok, None, map, length, IfOk, IfErr, OnOk};
ghost use Rattle.std.specs.List.{AllByRecursion};
ghost use Rattle.design_ir.specs.PoolRules.{IsPool};
ghost use Rattle.design_ir.specs.declared.ids.ExprId.{ExprId};
ghost use Rattle.fragment_walks.specs.Marks.{Flag};
ghost use Rattle.fragment_walks.specs.Reads.{is_given};
ghost use Rattle.fragment_walks.specs.Held.{leaf_exprs};
ghost use Rattle.fragment_walks.specs.Names.{all_leaves};
ghost use Rattle.fragment_walks.specs.Walks.{Contents, all_contents, all_memories, all_memory_paths, all_paths, all_processes};
ghost use Rattle.clock_domains.specs.Firsts.{AreSites};
ghost use Rattle.clock_domains.specs.Ready.{AreClocked, AreWalked, IsReady};
ghost use Rattle.clock_domains.specs.Resolvable.{IsResolvable, IsTree};
ghost use Rattle.clock_domains.specs.Resolved.{IsResolveRefusal, columns_of, domain_stop, made_domains, made_pool, named_registers, ports_named, ports_of, process_in, resolved, resolved_in, whole_pool};
ghost use Rattle.clock_domains.specs.Stops.{IsOwed};

use crate::clashes::no_clash;
use crate::columns::{columns_of, named_registers, ports_named, register_columns};
use crate::domains::{domains_made, processes_made};
use crate::drivers::{Drivers, drivers_of};
use crate::placing::{no_missing_reset, place_resets};
use crate::ports::{mark_design_inputs, mark_ports, ports_of};
use crate::stop::ResolveStop;
use crate::top::TopPorts;
use amh_host::{Items, NoMemory, Text};
use design_ir::{
    Columns, Design, DesignProcesses, Domain, Domains, Exprs, Fragment, Memories, Pool, Ports,
    Process,
};
use fragment_walks::copies::copied_name;
use fragment_walks::holders::first_holders;
use fragment_walks::names::{add_resets, joined_names};
use fragment_walks::walk::{Walk, walked};
use std::alloc::Global;

// What modules hold: processes and memories, each with the path under which its registers are named.
#[derive(Drop)]
struct Held {
    processes: Vec<Process>,
    memories: Memories,
    paths: Items<Option<Text>>,
}

// The parts of a design beside its pool, its memories and its domains.
#[derive(Drop)]
struct Parts {
    processes: DesignProcesses,
    memories: Memories,
    ports: Ports,
    columns: Columns,
}

// The paths of processes, and behind them those of memories.
fn joined_paths(
    alloc: Global,
    processes: Items<Option<Text>>,
    memories: &[Option<Text>],
) -> Result<Items<Option<Text>>, NoMemory>
    ensures { IfOk result (λ paths. paths ≡ processes ++ memories.now) }
{
    let mut paths = processes;
    for path in memories {
        paths.push(copied_name(alloc, path)?)?;
    }
    Ok(paths)
}

// The columns of ports and of the registers that are none.
fn columns_in(
    alloc: Global,
    pool: &Pool,
    domains: &[Domain],
    paths: &[Option<Text>],
    sites: &[Option<usize>],
    ports: &Ports,
) -> Result<Columns, NoMemory>
    ghost all: { Contents }
    requires paths { paths.now ≡ all.paths ++ all.memory_paths }
    requires walk { AreWalked all }
    requires clocked { AreClocked pool.now all.memories }
    requires ports { AllByRecursion (λ p. p.sig.0 < length pool.now.signals) ports.now }
    requires sites { AreSites pool.now all.processes all.memories sites.now }
    ensures { IfOk result (λ cs. cs ≡ columns_of pool.now domains.now all ports.now (named_registers pool.now all ports.now)) }
{
    pool.known();
    let is_port = mark_ports(alloc, ports.as_slice())?;
    let registers = named_registers(alloc, pool, paths, sites, is_port.as_slice())?;
    let named = register_columns(alloc, pool, domains, paths, sites, registers.as_slice())?;
    columns_of(alloc, ports.as_slice(), named.as_slice())
}

// The processes, memories, ports and columns of a module by what is driven.
fn parts_of(
    alloc: Global,
    pool: &Pool,
    domains: &[Domain],
    root: &Fragment,
    held: Held,
    drivers: Drivers,
    top: &TopPorts,
) -> Result<Parts, NoMemory>
    ghost all: { Contents }
    requires processes { held.processes.items ≡ all.processes }
    requires memories { held.memories ≡ all.memories }
    requires paths { held.paths ≡ all.paths ++ all.memory_paths }
    requires ready { IsReady pool.now domains.now root.now.processes all top.now }
    requires driven { Flag drivers.driven.items (is_given pool.now all.processes all.memories) }
    requires sites { AreSites pool.now all.processes all.memories drivers.sites.items }
    ensures processes { IfOk result (λ x. x.processes ≡ map (process_in domains.now) all.processes) }
    ensures memories { IfOk result (λ x. x.memories ≡ all.memories) }
    ensures columns { IfOk result (λ x. let ports = ports_of pool.now domains.now root.now.processes all top.now in x.columns ≡ columns_of pool.now domains.now all ports (named_registers pool.now all ports)) }
    ensures ports { IfOk result (λ x. x.ports ≡ ports_named (ports_of pool.now domains.now root.now.processes all top.now) x.columns) }
{
    let Held {
        processes,
        memories,
        paths,
    } = held;
    let Drivers { driven, sites } = drivers;
    let ports = ports_of(
        alloc,
        pool,
        domains,
        root.processes.as_slice(),
        processes.as_slice(),
        memories.as_slice(),
        driven,
        top,
    )?;
    let columns = columns_in(
        alloc,
        pool,
        domains,
        paths.as_slice(),
        sites.as_slice(),
        &ports,
    )?;
    Ok(Parts {
        processes: processes_made(alloc, domains, processes)?,
        memories,
        ports: ports_named(alloc, ports.as_slice(), columns.as_slice())?,
        columns,
    })
}

// The design of a module whose domains were made and whose resets are signals, or the refusal of its drivers.
fn design_in(
    alloc: Global,
    pool: Pool,
    domains: Domains,
    root: &Fragment,
    held: Held,
    top: &TopPorts,
) -> Result<Design, ResolveStop>
    requires processes { held.processes.items ≡ all_processes root.now }
    requires memories { held.memories ≡ all_memories root.now }
    requires paths { held.paths ≡ all_paths root.now ++ all_memory_paths root.now }
    requires ready { IsReady pool domains root.now.processes (all_contents root.now) top.now }
    requires few { length held.processes.items < 2 ^ 32 }
    ensures design { IfOk result (λ d. resolved_in pool domains root.now.processes (all_contents root.now) top.now ≡ Ok d) }
    ensures refused { IfErr result (IsResolveRefusal (resolved_in pool domains root.now.processes (all_contents root.now) top.now)) }
{
    pool.known();
    let inputs = mark_design_inputs(alloc, &pool, domains.as_slice(), top)?;
    let drivers = drivers_of(
        alloc,
        &pool,
        held.processes.as_slice(),
        held.memories.as_slice(),
        inputs.as_slice(),
    )?;
    let parts = parts_of(alloc, &pool, domains.as_slice(), root, held, drivers, top)?;
    Ok(Design::new(
        pool,
        parts.processes,
        parts.memories,
        domains,
        parts.ports,
        parts.columns,
    ))
}

// What a walk holds, with the paths of memories behind those of processes.
fn held_of(alloc: Global, walk: Walk) -> Result<Held, NoMemory>
    ensures processes { IfOk result (λ h. h.processes.items ≡ walk.processes.items) }
    ensures memories { IfOk result (λ h. h.memories ≡ walk.memories) }
    ensures paths { IfOk result (λ h. h.paths ≡ walk.paths ++ walk.memory_paths) }
{
    let Walk {
        processes,
        paths,
        memories,
        memory_paths,
        ..
    } = walk;
    Ok(Held {
        processes,
        memories,
        paths: joined_paths(alloc, paths, memory_paths.as_slice())?,
    })
}

// What modules hold, and the domains of their names.
#[derive(Drop)]
struct Placed {
    held: Held,
    domains: Domains,
}

// Makes the domains of a module and of those below it, and puts the signals of their resets in the places of those that are
// held; or refuses a name or a domain that is defined twice, a reset that there is none of, or a passed limit.
fn placed_domains(alloc: Global, pool: &mut Pool, root: &Fragment) -> Result<Placed, ResolveStop>
    ghost roots: { List (List ExprId) }
    requires roots { roots ≡ map leaf_exprs (all_leaves root.now) }
    requires tree { IsTree pool.old root.now }
    ensures processes { IfOk result (λ x. x.held.processes.items ≡ all_processes root.now) }
    ensures few { IfOk result (λ x. length x.held.processes.items < 2 ^ 32) }
    ensures memories { IfOk result (λ x. x.held.memories ≡ all_memories root.now) }
    ensures paths { IfOk result (λ x. x.held.paths ≡ all_paths root.now ++ all_memory_paths root.now) }
    ensures domains { IfOk result (λ x. x.domains ≡ made_domains pool.old root.now) }
    ensures accepted { OnOk result (domain_stop pool.old root.now ≡ None) }
    ensures pool { OnOk result (pool.new ≡ whole_pool pool.old root.now) }
    ensures made { OnOk result (IsPool (made_pool pool.old root.now)) }
    ensures refused { IfErr result (IsOwed (domain_stop pool.old root.now)) }
{
    pool.known();
    let mut walk = walked(alloc, root)?;
    let holders = first_holders(alloc, pool, walk.roots.as_slice())?;
    add_resets(alloc, pool, holders.as_slice(), &mut walk.names)?;
    let definitions = walk.definitions.as_slice();
    no_clash(alloc, definitions)?;
    no_missing_reset(alloc, pool, holders.as_slice(), definitions)?;
    let names = joined_names(alloc, walk.names.as_slice())?;
    let domains = domains_made(alloc, pool, definitions, names.as_slice())?;
    pool.known();
    place_resets(pool, holders.as_slice(), domains.as_slice());
    Ok(Placed {
        held: held_of(alloc, walk)?,
        domains,
    })
}

/// The design of a module and of those below it, or why it is none.
///
/// The domains are those that the modules define, in whichever of them a name stands, and one for each other name of a
/// clocked side, of a memory port or of a reset that a module holds. That one is made at the top, with its clock and its
/// reset; it rises, and resets at edges alone. They come in the order of their names: modules from the top, a parent before
/// those below it, in each its own definitions, then its clocked sides, its memory ports and its resets in order of making.
/// Each reset that a module holds becomes, in its own place in the pool, the signal of its domain's reset; one that no module
/// holds stays. Clocks are inputs, and so are the resets that nothing drives. Both are shown as their domain names them, so a
/// definition may have been renamed since its signals were made. A register of a module below the top is named
/// behind the path of that module, and so is what a clocked read port gives; those of library parts are not named. Each
/// memory has the path of its module as its name, `top` at the top.
///
/// `DomainClash` comes exactly where a name is defined twice, or one domain under two names, at the first definition whose name
/// or whose clock one before it has. Else
/// `NoReset` exactly where a module holds a reset whose domain has none, at the first of these in order of making. Else
/// `Limit` exactly where there would be more than 64 domains, or too many signals or bits with those of the domains that are
/// made. Else `TwoDrivers` at 1:1 exactly where one signal is the data of two read ports. Else `DrivenInput` or `TwoDrivers`
/// exactly at the first statement that drives a clock, a reset that acts at once or an input of `Members`, or the data of a
/// read port, or a signal that an earlier one drives from another domain or another module.
pub fn resolve(
    alloc: Global,
    pool: Pool,
    root: Fragment,
    top: TopPorts,
) -> Result<Design, ResolveStop>
    requires { IsResolvable pool root top }
    ensures design { IfOk result (λ d. resolved pool root top ≡ Ok d) }
    ensures refused { IfErr result (IsResolveRefusal (resolved pool root top)) }
{
    let mut pool = pool;
    pool.known();
    let Placed { held, domains } = placed_domains(alloc, &mut pool, &root)?;
    design_in(alloc, pool, domains, &root, held, &top)
}
