// Whether parts keep the rules of designs.
ghost use Rattle.std.specs.Prelude.{◌≡◌, ◌+◌, ◌<◌, ◌^◌, length, map, IsTrue, IfOk};
ghost use Rattle.std.specs.List.{AllByRecursion};
ghost use Rattle.design_table.specs.MemoryTests.{AreGiven, AreMemories};
ghost use Rattle.design_table.specs.Tests.{AreDomains, AreSides, AreSignals, IsAmong, IsSide, circuit_of, column_of};

use crate::blocks::block_fits;
use crate::domains::are_domains;
use crate::memory_rules::are_memories;
use crate::reads::{are_distinct, are_no_inputs, given_ports};
use crate::shown::{are_apart, are_shown};
use crate::signals::{Signals, copied};
use crate::tables::side_targets;
use amh_host::{Items, NoMemory};
use design_ir::{
    Column, Columns, Design, DesignProcess, DesignProcesses, Domain, DomainId, Exprs, Memories,
    Port, Ports, Stmts,
};
use std::alloc::Global;
use table_text::Stop;

// Whether the signals keep the rules: ports apart and shown.
fn are_signals(signals: &Signals) -> bool
    ensures { IsTrue result → AreSignals signals.now.sheet.pool signals.now.ports }
{
    let ports = signals.ports.as_slice();
    are_apart(ports) && are_shown(&signals.sheet, ports)
}

// Whether statements drive signals of this side alone, and no input of these ports.
fn is_side(
    alloc: Global,
    signals: &Signals,
    ports: &Ports,
    side: usize,
    body: &Stmts,
) -> Result<bool, NoMemory>
    ensures { IfOk result (λ b. IsTrue b → IsSide signals.now.sheet.pool ports.now signals.now.sides.items side body.now) }
{
    let pool = &signals.sheet.pool;
    let marks = side_targets(
        alloc,
        pool,
        ports.as_slice(),
        signals.sides.as_slice(),
        side,
    )?;
    Ok(block_fits(marks.as_slice(), pool.count(), body.as_slice()))
}

// Whether the processes of the sides from this one on drive signals of their side alone, and no input of these ports.
fn are_sides(
    alloc: Global,
    signals: &Signals,
    ports: &Ports,
    side: usize,
    processes: &[DesignProcess],
) -> Result<bool, NoMemory>
    requires { side + length processes.now < 2 ^ 64 }
    ensures { IfOk result (λ b. IsTrue b → AreSides signals.now.sheet.pool ports.now signals.now.sides.items side processes.now) }
{
    match processes {
        [] => Ok(true),
        [p, rest @ ..] => {
            Ok(
                is_side(alloc, signals, ports, side, &p.body)?
                    && are_sides(alloc, signals, ports, side + 1, rest)?,
            )
        }
    }
}

// Whether a domain is one of these.
fn is_among(domains: &[Domain], domain: Option<DomainId>) -> bool
    ensures { IsTrue result → IsAmong domains.now domain }
{
    match domain {
        Some(d) => (d.0 as usize) < domains.len(),
        None => true,
    }
}

// Whether the domains of these processes are among these.
fn are_among(domains: &[Domain], processes: &[DesignProcess]) -> bool
    ensures { IsTrue result → AllByRecursion (λ p. IsAmong domains.now p.domain) processes.now }
{
    match processes {
        [] => true,
        [p, rest @ ..] => is_among(domains, p.domain) && are_among(domains, rest),
    }
}

// A column for each port.
fn columns_of(alloc: Global, ports: &[Port]) -> Result<Columns, NoMemory>
    ensures { IfOk result (λ cs. cs ≡ map column_of ports.now) }
{
    let mut columns = Items::new(alloc);
    for port in ports {
        columns.push(Column {
            name: copied(alloc, port.name.as_str())?,
            sig: port.sig,
        })?;
    }
    Ok(columns)
}

// Whether signals are given once each, are no inputs, and no statement drives them.
fn are_given(
    alloc: Global,
    signals: &Signals,
    given: &Ports,
    processes: &[DesignProcess],
) -> Result<bool, NoMemory>
    requires { length processes.now < 2 ^ 64 }
    ensures { IfOk result (λ b. IsTrue b → AreGiven signals.now.sheet.pool signals.now.ports signals.now.sides.items processes.now given.now) }
{
    let words = given.as_slice();
    if !are_distinct(words) || !are_no_inputs(signals.ports.as_slice(), words) {
        return Ok(false);
    }
    are_sides(alloc, signals, given, 0, processes)
}

// Whether memories keep the rules, and their read ports alone give their signals.
fn keep_rules(
    alloc: Global,
    signals: &Signals,
    memories: &Memories,
    processes: &[DesignProcess],
) -> Result<bool, NoMemory>
    requires { length processes.now < 2 ^ 64 }
    ensures { IfOk result (λ b. IsTrue b → AreMemories signals.now.sheet.pool signals.now.ports signals.now.sides.items signals.now.domains processes.now memories.now) }
{
    let all = memories.as_slice();
    if !are_memories(signals, all) {
        return Ok(false);
    }
    let given = given_ports(alloc, all)?;
    are_given(alloc, signals, &given, processes)
}

// The design of signals, domains, processes and memories that keep its rules.
fn made(
    alloc: Global,
    signals: Signals,
    processes: DesignProcesses,
    memories: Memories,
) -> Result<Design, NoMemory>
    requires signals { AreSignals signals.sheet.pool signals.ports }
    requires domains { AreDomains signals.sheet.pool signals.ports signals.domains }
    requires there { AllByRecursion (λ p. IsAmong signals.domains p.domain) processes }
    requires sides { AreSides signals.sheet.pool signals.ports signals.sides.items 0 processes }
    requires few { length processes < 2 ^ 32 }
    requires memories { AreMemories signals.sheet.pool signals.ports signals.sides.items signals.domains processes memories }
    ensures { IfOk result (λ d. d ≡ circuit_of signals.sheet.pool signals.ports signals.domains processes memories) }
{
    let columns = columns_of(alloc, signals.ports.as_slice())?;
    let Signals {
        sheet,
        ports,
        domains,
        ..
    } = signals;
    Ok(Design::new(sheet.pool, processes, memories, domains, ports, columns))
}

/// The design of these signals, the process of each side, and memories, where they keep its rules.
pub fn design_of(
    alloc: Global,
    signals: Signals,
    processes: DesignProcesses,
    memories: Memories,
) -> Result<Design, Stop> {
    let domains = signals.domains.as_slice();
    if !are_signals(&signals) || processes.len() > 65536 {
        return Err(Stop::NoCase);
    }
    if !are_domains(&signals.sheet, signals.ports.as_slice(), domains) {
        return Err(Stop::NoCase);
    }
    if !are_among(domains, processes.as_slice()) {
        return Err(Stop::NoCase);
    }
    if !are_sides(alloc, &signals, &signals.ports, 0, processes.as_slice())? {
        return Err(Stop::NoCase);
    }
    if !keep_rules(alloc, &signals, &memories, processes.as_slice())? {
        return Err(Stop::NoCase);
    }
    Ok(made(alloc, signals, processes, memories)?)
}
