// The ports of a design.
ghost use Rattle.std.specs.Prelude.{◌≡◌, ◌<◌, ◌&&◌, ◌++◌, ◌∷◌, [], not, map, length, IfOk, OnOk};
ghost use Rattle.std.specs.List.{AllByRecursion, filter, filter_map, flat_map, range_with_len};
ghost use Rattle.design_ir.specs.Named.{AllBelow};
ghost use Rattle.design_ir.specs.Circuits.{is_among};
ghost use Rattle.fragment_walks.specs.Marks.{Flag, is_marked, marked};
ghost use Rattle.fragment_walks.specs.Held.{memory_exprs};
ghost use Rattle.fragment_walks.specs.Reads.{is_given};
ghost use Rattle.fragment_walks.specs.Walks.{Contents};
ghost use Rattle.clock_domains.specs.Resolvable.{AreTopPorts, IsSideOf, top_inputs};
ghost use Rattle.clock_domains.specs.Resolved.{design_inputs, domain_inputs, domain_ports, has_width, held_port, port_of, ports_of, ports_of_domain, reset_port, signals_of};
ghost use Rattle.clock_domains.specs.Chosen.{AreThere, IsKnown, IsSignal, is_new, known_port, known_ports, known_side};

use crate::drivers::driven_by;
use crate::reads::reads;
use crate::shown::{name_among, shown_name};
use crate::top::TopPorts;
use amh_host::{Items, NoMemory};
use design_ir::{Domain, Exprs, Memory, Pool, Port, Ports, Process, SigId};
use fragment_walks::copies::copied;
use fragment_walks::marks::{SIGNALS, mark, unmarked};
use std::alloc::Global;

/// Marks the signals of ports.
pub fn mark_ports(alloc: Global, ports: &[Port]) -> Result<Vec<bool>, NoMemory>
    requires { AllByRecursion (λ p. p.sig.0 < 16384) ports.now }
    ensures { IfOk result (λ v. Flag v.items (is_among (signals_of ports.now))) }
{
    let mut marks = unmarked(alloc, SIGNALS)?;
    for port in ports {
        mark(&mut marks, port.sig.0 as usize);
    }
    Ok(marks)
}

// Marks the signal of a port that is an input.
fn mark_input(marks: &mut Vec<bool>, port: &Port)
    requires { port.now.sig.0 < length marks.old.items }
    ensures { marks.new.items ≡ marked (signals_of (filter (λ p. p.is_input) (port.now ∷ []))) marks.old.items }
{
    if port.is_input {
        mark(marks, port.sig.0 as usize);
    }
}

// Marks the inputs among ports.
fn mark_inputs(marks: &mut Vec<bool>, ports: &[Port])
    requires { AllByRecursion (λ p. p.sig.0 < length marks.old.items) ports.now }
    ensures { marks.new.items ≡ marked (signals_of (filter (λ p. p.is_input) ports.now)) marks.old.items }
{
    for port in ports {
        mark_input(marks, port);
    }
}

// Marks the clock of a domain, and its reset where that acts at once.
fn mark_domain(marks: &mut Vec<bool>, domain: &Domain)
    requires { AllByRecursion (λ s. s < length marks.old.items) (domain_inputs domain.now) }
    ensures { marks.new.items ≡ marked (domain_inputs domain.now) marks.old.items }
{
    mark(marks, domain.clk.0 as usize);
    if domain.async_reset {
        if let Some(reset) = domain.rst {
            mark(marks, reset.0 as usize);
        }
    }
}

// Marks the clocks of domains, and their resets that act at once.
fn mark_domains(marks: &mut Vec<bool>, domains: &[Domain])
    requires { AllByRecursion (λ d. AllByRecursion (λ s. s < length marks.old.items) (domain_inputs d)) domains.now }
    ensures { marks.new.items ≡ marked (flat_map domain_inputs domains.now) marks.old.items }
{
    for domain in domains {
        mark_domain(marks, domain);
    }
}

// Marks the inputs among the members of the top.
fn mark_members(pool: &Pool, marks: &mut Vec<bool>, top: &TopPorts)
    requires top { AreTopPorts pool.now top.now }
    requires size { length marks.old.items ≡ 16384 }
    ensures { marks.new.items ≡ marked (top_inputs top.now) marks.old.items }
{
    let _ = pool.count();
    match top {
        TopPorts::Members(ports) => mark_inputs(marks, ports.as_slice()),
        TopPorts::Held(_) | TopPorts::Loose => {}
    }
}

/// Marks the clocks of domains, their resets that act at once, and the inputs among the members of the top.
pub fn mark_design_inputs(
    alloc: Global,
    pool: &Pool,
    domains: &[Domain],
    top: &TopPorts,
) -> Result<Vec<bool>, NoMemory>
    requires domains { AllByRecursion (IsSignal pool.now) domains.now }
    requires top { AreTopPorts pool.now top.now }
    ensures { IfOk result (λ v. Flag v.items (is_among (design_inputs domains.now top.now))) }
{
    let _ = pool.count();
    let mut marks = unmarked(alloc, SIGNALS)?;
    mark_domains(&mut marks, domains);
    mark_members(pool, &mut marks, top);
    Ok(marks)
}

// A signal of the pool as a port under the name under which it is shown.
fn port_of(
    alloc: Global,
    pool: &Pool,
    domains: &[Domain],
    is_input: bool,
    s: SigId,
) -> Result<Port, NoMemory>
    requires { s.0 < length pool.now.signals }
    ensures { IfOk result (λ p. p ≡ port_of pool.now domains.now is_input s.0) }
{
    Ok(Port {
        name: shown_name(alloc, pool, domains, s)?,
        sig: s,
        is_input,
    })
}

/// Whether a signal has bits.
pub fn has_width(pool: &Pool, s: SigId) -> bool
    requires { s.0 < length pool.now.signals }
    ensures { result ≡ has_width pool.now s.0 }
{
    pool.sig_at(s).shape.width >= 1
}

// A reset, where nothing drives it.
fn add_reset(
    alloc: Global,
    pool: &Pool,
    domains: &[Domain],
    driven: &[bool],
    reset: SigId,
    ports: &mut Ports,
) -> Result<(), NoMemory>
    requires there { reset.0 < length pool.now.signals }
    requires size { length driven.now ≡ 16384 }
    ensures { OnOk result (ports.new ≡ ports.old ++ reset_port pool.now domains.now (is_marked driven.now) reset) }
{
    let _ = pool.count();
    if driven[reset.0 as usize] {
        return Ok(());
    }
    ports.push(port_of(alloc, pool, domains, true, reset)?)
}

// The clock of one of these domains, and its reset.
fn add_domain(
    alloc: Global,
    pool: &Pool,
    domains: &[Domain],
    driven: &[bool],
    domain: &Domain,
    ports: &mut Ports,
) -> Result<(), NoMemory>
    requires there { IsSignal pool.now domain.now }
    requires size { length driven.now ≡ 16384 }
    ensures { OnOk result (ports.new ≡ ports.old ++ ports_of_domain pool.now domains.now (is_marked driven.now) domain.now) }
{
    ports.push(port_of(alloc, pool, domains, true, domain.clk)?)?;
    match domain.rst {
        Some(reset) => add_reset(alloc, pool, domains, driven, reset, ports),
        None => Ok(()),
    }
}

// The clocks of all domains, and their resets.
fn domain_ports(
    alloc: Global,
    pool: &Pool,
    driven: &[bool],
    domains: &[Domain],
) -> Result<Ports, NoMemory>
    requires there { AllByRecursion (IsSignal pool.now) domains.now }
    requires size { length driven.now ≡ 16384 }
    ensures { IfOk result (λ ps. ps ≡ domain_ports pool.now (is_marked driven.now) domains.now) }
{
    let mut ports = Items::new(alloc);
    for domain in domains {
        add_domain(alloc, pool, domains, driven, domain, &mut ports)?;
    }
    Ok(ports)
}

/// What is known of each signal: whether it is a port, whether the top's own statements drive it, and whether any drive or
/// read it.
#[derive(Drop)]
pub struct Known {
    pub is_port: Vec<bool>,
    pub own: Vec<bool>,
    pub driven: Vec<bool>,
    pub read: Vec<bool>,
}

// Whether a signal can be a port: it is none yet, and has bits.
fn is_new(pool: &Pool, is_port: &[bool], s: SigId) -> bool
    requires there { s.0 < length pool.now.signals }
    requires size { length is_port.now ≡ 16384 }
    ensures { result ≡ (not (is_marked is_port.now s.0) && has_width pool.now s.0) }
{
    let _ = pool.count();
    !is_port[s.0 as usize] && has_width(pool, s)
}

// A member of the top, where it is new.
fn add_member(
    alloc: Global,
    pool: &Pool,
    known: &Known,
    given: &Port,
    ports: &mut Ports,
) -> Result<(), NoMemory>
    requires there { given.now.sig.0 < length pool.now.signals }
    requires size { length known.now.is_port.items ≡ 16384 }
    ensures { OnOk result (ports.new ≡ ports.old ++ filter (is_new pool.now (is_marked known.now.is_port.items)) (given.now ∷ [])) }
{
    if is_new(pool, known.is_port.as_slice(), given.sig) {
        ports.push(Port {
            name: copied(alloc, given.name.as_str())?,
            sig: given.sig,
            is_input: given.is_input,
        })?;
    }
    Ok(())
}

// The members of the top.
fn add_members(
    alloc: Global,
    pool: &Pool,
    known: &Known,
    given: &[Port],
    ports: &mut Ports,
) -> Result<(), NoMemory>
    requires there { AllByRecursion (AreThere pool.now) given.now }
    requires size { length known.now.is_port.items ≡ 16384 }
    ensures { OnOk result (ports.new ≡ ports.old ++ filter (is_new pool.now (is_marked known.now.is_port.items)) given.now) }
{
    for port in given {
        add_member(alloc, pool, known, port, ports)?;
    }
    Ok(())
}

// A signal that the top holds, where it is new: an input where nothing drives it.
fn add_held_signal(
    alloc: Global,
    pool: &Pool,
    domains: &[Domain],
    known: &Known,
    given: &Port,
    ports: &mut Ports,
) -> Result<(), NoMemory>
    requires there { given.now.sig.0 < length pool.now.signals }
    requires size { length known.now.is_port.items ≡ 16384 }
    requires driven { length known.now.driven.items ≡ 16384 }
    ensures { OnOk result (ports.new ≡ ports.old ++ filter (is_new pool.now (is_marked known.now.is_port.items)) (held_port domains.now (is_marked known.now.driven.items) given.now ∷ [])) }
{
    let _ = pool.count();
    if is_new(pool, known.is_port.as_slice(), given.sig) {
        ports.push(Port {
            name: name_among(alloc, domains, given.sig, given.name.as_str())?,
            sig: given.sig,
            is_input: !known.driven[given.sig.0 as usize],
        })?;
    }
    Ok(())
}

// The signals that the top holds.
fn add_held(
    alloc: Global,
    pool: &Pool,
    domains: &[Domain],
    known: &Known,
    given: &[Port],
    ports: &mut Ports,
) -> Result<(), NoMemory>
    requires there { AllByRecursion (AreThere pool.now) given.now }
    requires size { length known.now.is_port.items ≡ 16384 }
    requires driven { length known.now.driven.items ≡ 16384 }
    ensures { OnOk result (ports.new ≡ ports.old ++ filter (is_new pool.now (is_marked known.now.is_port.items)) (map (held_port domains.now (is_marked known.now.driven.items)) given.now)) }
{
    for port in given {
        add_held_signal(alloc, pool, domains, known, port, ports)?;
    }
    Ok(())
}

// Whether a signal is an input, where it can be a loose port.
fn loose_side(known: &Known, s: SigId) -> Option<bool>
    requires own { s.0 < length known.now.own.items }
    requires driven { s.0 < length known.now.driven.items }
    requires read { s.0 < length known.now.read.items }
    ensures { result ≡ known_side (is_marked known.now.own.items) (is_marked known.now.driven.items) (is_marked known.now.read.items) s.0 }
{
    let s = s.0 as usize;
    if known.own[s] {
        Some(false)
    } else if known.read[s] && !known.driven[s] {
        Some(true)
    } else {
        None
    }
}

// A signal as a port, where its top drives it, or it is read and driven nowhere, and is new.
fn add_signal(
    alloc: Global,
    pool: &Pool,
    domains: &[Domain],
    known: &Known,
    s: SigId,
    ports: &mut Ports,
) -> Result<(), NoMemory>
    requires there { IsKnown pool.now known.now.own.items known.now.driven.items known.now.read.items }
    requires small { s.0 < 16384 }
    requires size { length known.now.is_port.items ≡ 16384 }
    ensures { OnOk result (ports.new ≡ ports.old ++ filter (is_new pool.now (is_marked known.now.is_port.items)) (filter_map (known_port pool.now domains.now (is_marked known.now.own.items) (is_marked known.now.driven.items) (is_marked known.now.read.items)) (s.0 ∷ []))) }
{
    let Some(is_input) = loose_side(known, s) else {
        return Ok(());
    };
    if is_new(pool, known.is_port.as_slice(), s) {
        ports.push(port_of(alloc, pool, domains, is_input, s)?)?;
    }
    Ok(())
}

// All signals that the top drives, or that are read and driven nowhere, in order of making.
fn add_loose(
    alloc: Global,
    pool: &Pool,
    domains: &[Domain],
    known: &Known,
    ports: &mut Ports,
) -> Result<(), NoMemory>
    requires there { IsKnown pool.now known.now.own.items known.now.driven.items known.now.read.items }
    requires size { length known.now.is_port.items ≡ 16384 }
    ensures { OnOk result (ports.new ≡ ports.old ++ filter (is_new pool.now (is_marked known.now.is_port.items)) (filter_map (known_port pool.now domains.now (is_marked known.now.own.items) (is_marked known.now.driven.items) (is_marked known.now.read.items)) (range_with_len 0 (length known.now.own.items)))) }
{
    for s in 0..known.own.len() {
        add_signal(alloc, pool, domains, known, SigId(s as u32), ports)?;
    }
    Ok(())
}

// The ports of the top that are new.
fn add_top(
    alloc: Global,
    pool: &Pool,
    domains: &[Domain],
    known: &Known,
    top: &TopPorts,
    ports: &mut Ports,
) -> Result<(), NoMemory>
    requires top { AreTopPorts pool.now top.now }
    requires there { IsKnown pool.now known.now.own.items known.now.driven.items known.now.read.items }
    requires size { length known.now.is_port.items ≡ 16384 }
    ensures { OnOk result (ports.new ≡ ports.old ++ filter (is_new pool.now (is_marked known.now.is_port.items)) (known_ports pool.now domains.now known.now.own.items known.now.driven.items known.now.read.items top.now)) }
{
    match top {
        TopPorts::Members(given) => add_members(alloc, pool, known, given.as_slice(), ports),
        TopPorts::Held(given) => add_held(alloc, pool, domains, known, given.as_slice(), ports),
        TopPorts::Loose => add_loose(alloc, pool, domains, known, ports),
    }
}

/// The ports of a design, under the names that they are to have: by the processes of the top itself, and by all that modules
/// hold.
pub fn ports_of(
    alloc: Global,
    pool: &Pool,
    domains: &[Domain],
    own: &[Process],
    processes: &[Process],
    memories: &[Memory],
    driven: Vec<bool>,
    top: &TopPorts,
) -> Result<Ports, NoMemory>
    ghost all: { Contents }
    requires processes { processes.now ≡ all.processes }
    requires memories { memories.now ≡ all.memories }
    requires domains { AllByRecursion (IsSignal pool.now) domains.now }
    requires own { AllByRecursion (IsSideOf pool.now) own.now }
    requires sides { AllByRecursion (IsSideOf pool.now) processes.now }
    requires ports { AllBelow (length pool.now.exprs) (flat_map memory_exprs memories.now) }
    requires top { AreTopPorts pool.now top.now }
    requires driven { Flag driven.items (is_given pool.now processes.now memories.now) }
    ensures { IfOk result (λ ps. ps ≡ ports_of pool.now domains.now own.now all top.now) }
{
    let _ = pool.count();
    let mut ports = domain_ports(alloc, pool, driven.as_slice(), domains)?;
    let known = Known {
        is_port: mark_ports(alloc, ports.as_slice())?,
        own: driven_by(alloc, pool, own)?,
        driven,
        read: reads(alloc, pool, processes, memories)?,
    };
    add_top(alloc, pool, domains, &known, top, &mut ports)?;
    Ok(ports)
}
