// The end: what is held becomes a design.
ghost use Rattle.std.specs.Prelude.{◌≡◌, false, [], IfOk, IfErr, Err};
ghost use Rattle.std.specs.List.{list_any};
ghost use Rattle.py_heap.specs.Heaps.{nothing, seen};
ghost use Rattle.elab_eval.specs.Elaborates.{IsFound, IsDesignOf, held_of_modules, is_nameless, design_of, design_stop, top_ports, without_modules, unresolved_stop};
ghost use Rattle.elab_eval.specs.Fit.{FitsDesign, IsFit};
ghost use Rattle.elab_store.specs.Sound.{IsSound};
ghost use Rattle.elab_store.specs.Held.{held_of};

use crate::clocks::clock_refused;
use crate::object_tops::top_ports;
use crate::refusal::ElabStop;
use crate::running::Elaborated;
use crate::trees::{raised, tree};
use amh_host::{Kind, Place};
use clock_domains::{ResolveStop, TopPorts, resolve};
use design_ir::{Design, Expr, ExprId, Exprs, Pool};
use elab_store::simulation::ClockCall;
use elab_store::store::{Elaboration, Store};
use identifiers::is_identifier;
use lists::NoMemory;
use module_dsl::Builder;
use py_heap::{Frozen, Heap};
use py_machine::Machine;
use std::alloc::Global;

// Whether an expression is a reset of a domain that has no name.
fn is_nameless(alloc: Global, e: &Expr) -> Result<bool, NoMemory>
    ensures { IfOk result (λ b. b ≡ is_nameless e.now) }
{
    match e {
        Expr::Reset { domain, .. } => Ok(!is_identifier(alloc, domain.as_str())?),
        _ => Ok(false),
    }
}

// Whether there is such an expression.
fn has_nameless(alloc: Global, pool: &Pool) -> Result<bool, NoMemory>
    ensures { IfOk result (λ b. b ≡ list_any is_nameless pool.now.exprs) }
{
    for i in 0..pool.count() {
        if is_nameless(alloc, pool.at(ExprId(i)))? {
            return Ok(true);
        }
    }
    Ok(false)
}

// What a refusal of the design is told as.
fn unresolved_stop(stop: ResolveStop) -> ElabStop
    ensures { result ≡ unresolved_stop stop }
{
    match stop {
        ResolveStop::DomainClash(place) => ElabStop::Refused(Kind::DomainClash, place),
        ResolveStop::NoReset(place) => ElabStop::Refused(Kind::Raised, place),
        ResolveStop::TwoDrivers(place) => ElabStop::Refused(Kind::TwoDrivers, place),
        ResolveStop::DrivenInput(place) => ElabStop::Refused(Kind::DrivenInput, place),
        ResolveStop::Limit(place) => ElabStop::Refused(Kind::Limit, place),
        ResolveStop::NoMemory => ElabStop::NoMemory,
    }
}

// What a resolved design is refused for: more expressions than it may have, then a clock that may not be.
fn design_stop(design: &Design, clocks: &[ClockCall]) -> Option<ElabStop>
    ensures { result ≡ design_stop design.now clocks.now }
{
    if design.count() > 262_144 {
        return Some(ElabStop::Refused(Kind::Limit, Place { line: 1, col: 1 }));
    }
    match clock_refused(design, clocks) {
        Some(place) => Some(ElabStop::Refused(Kind::Raised, place)),
        None => None,
    }
}

// The modules, and the store without them.
fn part(store: Store, alloc: Global) -> (Vec<Builder>, Store)
    ensures modules { result.0.items ≡ store.modules }
    ensures rest { result.1 ≡ without_modules store }
{
    let Store {
        things,
        kept,
        modules,
        patterns,
        statements: _,
        top,
        components,
        hierarchy,
        clock_domains,
        machines,
        memories,
        wrappings,
        wrapped,
        domains,
        told,
        simulation,
    } = store;
    let rest = Store {
        things,
        kept,
        modules: Vec::new(alloc),
        patterns,
        statements: 0,
        top,
        components,
        hierarchy,
        clock_domains,
        machines,
        memories,
        wrappings,
        wrapped,
        domains,
        told,
        simulation,
    };
    (modules, rest)
}

// The ports of the top, where it has some, which are asked before anything is taken apart. A reset without a name raises.
fn ports_asked(
    elaboration: &Elaboration,
    heap: &Heap,
    frozen: &Frozen,
) -> Result<Option<TopPorts>, ElabStop>
    requires sound { IsSound (held_of elaboration.now) }
    requires frozen { frozen.now ≡ nothing }
    ensures named { IfOk result (λ ports. list_any is_nameless elaboration.now.pool.exprs ≡ false) }
    ensures ports { IfOk result (λ ports. ports ≡ top_ports (seen nothing heap.now) (held_of elaboration.now)) }
    ensures refused { IfErr result (λ stop. IsFound (Err stop) (design_of (held_of elaboration.now) heap.now)) }
{
    let Ok(nameless) = has_nameless(elaboration.alloc, &elaboration.pool) else {
        return Err(ElabStop::NoMemory);
    };
    if nameless {
        return Err(raised());
    }
    match top_ports(elaboration, heap, frozen) {
        Ok(ports) => Ok(ports),
        Err(_) => Err(ElabStop::NoMemory),
    }
}

// The design of modules that were taken out of their store, with the ports of the top.
fn resolved_design(
    alloc: Global,
    pool: Pool,
    modules: Vec<Builder>,
    store: &Store,
    ports: Option<TopPorts>,
    _heap: &Heap,
) -> Result<Design, ElabStop>
    requires sound { IsSound (held_of_modules pool store.now modules.items) }
    requires apart { store.now.modules ≡ [] }
    requires named { list_any is_nameless pool.exprs ≡ false }
    requires ports { ports ≡ top_ports (seen nothing _heap.now) (held_of_modules pool store.now modules.items) }
    ensures found { let h = held_of_modules pool store.now modules.items in IsDesignOf h _heap.now result (design_of h _heap.now) }
    ensures fit { IfOk result (λ d. FitsDesign d store.now) }
{
    let mut pool = pool;
    pool.known();
    let root = match tree(alloc, &mut pool, modules, store) {
        Ok(root) => root,
        Err(stop) => return Err(stop),
    };
    let Some(ports) = ports else {
        return Err(raised());
    };
    match resolve(alloc, pool, root, ports) {
        Ok(design) => match design_stop(&design, store.simulation().clocks()) {
            Some(stop) => Err(stop),
            None => Ok(design),
        },
        Err(stop) => Err(unresolved_stop(stop)),
    }
}

/// What is held at the end of a program, as a design.
pub(crate) fn finish(
    elaboration: Elaboration,
    machine: Machine,
    frozen: &Frozen,
) -> Result<Elaborated, ElabStop>
    requires sound { IsSound (held_of elaboration) }
    requires frozen { frozen.now ≡ nothing }
    ensures found { IsFound result (design_of (held_of elaboration) machine.going.state.heap) }
    ensures fit { IfOk result IsFit }
{
    let ports = match ports_asked(&elaboration, &machine.going.state.heap, frozen) {
        Ok(ports) => ports,
        Err(stop) => return Err(stop),
    };
    let Elaboration { alloc, pool, store } = elaboration;
    let (modules, store) = part(store, alloc);
    match resolved_design(
        alloc,
        pool,
        modules,
        &store,
        ports,
        &machine.going.state.heap,
    ) {
        Ok(design) => Ok(Elaborated {
            design,
            store,
            frozen: machine.freeze(),
        }),
        Err(stop) => Err(stop),
    }
}
