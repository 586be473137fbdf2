// Designs.
ghost use Rattle.std.specs.Prelude.{◌≡◌, ◌<◌, ◌↔◌, length, IfOk, IsTrue, Some, None, slice_get, option_map, position};
ghost use Rattle.lists.specs.Texts.{text_eq};
ghost use Rattle.design_ir.specs.Circuits.{Circuit, is_input, is_clock, domain_named};
ghost use Rattle.design_ir.specs.Designs.{IsDesign};
ghost use Rattle.amh_bits.specs.Patterns.{IsOf};
ghost use Rattle.design_ir.specs.Legal.{IsLegal};
ghost use Rattle.design_ir.specs.Tests.{is_settable, ascends};
ghost use Rattle.design_ir.specs.Values.{signal_form};

use crate::copies::Copied;
use crate::domain::{Domain, Domains};
use crate::event::Event;
use crate::expr::Expr;
use crate::exprs::Exprs;
use crate::ids::{DomainId, ExprId, SigId};
use crate::memory::Memories;
use crate::pool::Pool;
use crate::port::{Column, Columns, Port, Ports};
use crate::process::DesignProcesses;
use crate::refusal::PoolStop;
use crate::signal::Sig;
use amh_bits::Int;
use amh_host::NoMemory;
use shape_rules::Shape;
use std::alloc::Global;
use std::marker::Model;

/// A whole design: its pool, its processes, memories and domains, its ports, and the columns of its trace.
///
/// Each signal is driven once at most, and every number that stands in it names something (`IsDesign` of
/// specs/Designs.antt).
#[derive(Drop)]
pub struct Design {
    pool: Pool,
    processes: DesignProcesses,
    memories: Memories,
    domains: Domains,
    ports: Ports,
    columns: Columns,
}

impl Model for Design {
    ghost use Rattle.std.specs.Coded.{codes};
    ghost use Rattle.design_ir.specs.TreeCodes.{block_code};
    ghost use Rattle.design_ir.specs.Circuits.{Circuit};
    ghost use Rattle.design_ir.specs.Designs.{IsDesign};

    ghost Value = { Circuit };

    ghost coded = { Prim.hlevel (codes, block_code) };

    ghost view = { λ a. record { pool = a.pool; processes = a.processes; memories = a.memories; domains = a.domains; ports = a.ports; columns = a.columns } };

    ghost use Rattle.design_ir.specs.PoolRules.{IsPool};

    ghost invariant = { λ a. IsPool a.pool × IsDesign record { pool = a.pool; processes = a.processes; memories = a.memories; domains = a.domains; ports = a.ports; columns = a.columns } };
}

impl Design {
    /// The design of these parts, which takes no memory.
    pub fn new(
        pool: Pool,
        processes: DesignProcesses,
        memories: Memories,
        domains: Domains,
        ports: Ports,
        columns: Columns,
    ) -> Design
        requires { IsDesign record { pool = pool; processes = processes; memories = memories; domains = domains; ports = ports; columns = columns } }
        ensures { result ≡ record { pool = pool; processes = processes; memories = memories; domains = domains; ports = ports; columns = columns } }
    {
        pool.known();
        Design {
            pool,
            processes,
            memories,
            domains,
            ports,
            columns,
        }
    }

    /// The same signals and expressions once more.
    pub fn copied_pool(&self, alloc: Global) -> Result<Pool, NoMemory>
        ensures { IfOk result (λ p. p ≡ self.now.pool) }
    {
        self.pool.copied(alloc)
    }

    /// The design with another pool and other statements, and with the same memories, domains, ports and columns.
    pub fn with_processes(
        &self,
        alloc: Global,
        pool: Pool,
        processes: DesignProcesses,
    ) -> Result<Design, NoMemory>
        requires { IsDesign record self.now { pool = pool; processes = processes } }
        ensures { IfOk result (λ d. d ≡ record self.now { pool = pool; processes = processes }) }
    {
        let memories = self.memories.copied(alloc)?;
        let domains = self.domains.copied(alloc)?;
        let ports = self.ports.copied(alloc)?;
        let columns = self.columns.copied(alloc)?;
        Ok(Design::new(pool, processes, memories, domains, ports, columns))
    }

    /// A signal of the design.
    pub fn sig_at(&self, s: SigId) -> &Sig
        requires { s.0 < length self.now.pool.signals }
        ensures { slice_get self.now.pool.signals s.0 ≡ Some result.now }
    {
        self.pool.sig_at(s)
    }

    /// The processes of the design. Every design keeps to `IsDesign`.
    pub fn processes(&self) -> &DesignProcesses
        ensures value { result.now ≡ self.now.processes }
        ensures rules { IsDesign self.now }
    {
        &self.processes
    }

    /// The memories of the design.
    pub fn memories(&self) -> &Memories
        ensures { result.now ≡ self.now.memories }
    {
        &self.memories
    }

    /// How many ports there are.
    pub fn ports(&self) -> u32
        ensures { result ≡ length self.now.ports }
    {
        self.ports.len() as u32
    }

    /// A port by its number.
    pub fn port(&self, i: u32) -> &Port
        requires { i < length self.now.ports }
        ensures { slice_get self.now.ports i ≡ Some result.now }
    {
        self.ports.get(i as usize)
    }

    /// How many columns there are.
    pub fn columns(&self) -> u32
        ensures { result ≡ length self.now.columns }
    {
        self.columns.len() as u32
    }

    /// A column by its number.
    pub fn column(&self, i: u32) -> &Column
        requires { i < length self.now.columns }
        ensures { slice_get self.now.columns i ≡ Some result.now }
    {
        self.columns.get(i as usize)
    }

    /// How many domains there are.
    pub fn domains(&self) -> u16
        ensures { result ≡ length self.now.domains }
    {
        self.domains.len() as u16
    }

    /// A domain by its number.
    pub fn domain(&self, d: DomainId) -> &Domain
        requires { d.0 < length self.now.domains }
        ensures { slice_get self.now.domains d.0 ≡ Some result.now }
    {
        self.domains.get(d.0 as usize)
    }

    /// The domain with a name; `None` exactly for a name that no domain has.
    pub fn domain_named(&self, name: &str) -> Option<DomainId>
        ensures { option_map (λ d. d.0) result ≡ domain_named self.now name.now }
    {
        match position_named(self.domains.as_slice(), name) {
            Some(place) => Some(DomainId(place as u16)),
            None => None,
        }
    }

    /// Whether a signal is an input.
    pub fn is_input(&self, s: SigId) -> bool
        ensures { result ≡ is_input self.now s.0 }
    {
        self.ports
            .as_slice()
            .iter()
            .any(|p| p.is_input && p.sig.0 == s.0)
    }

    /// Whether an event is legal: an input that is no clock takes a number of its shape, or the clocks of at least
    /// one domain toggle, the domains being distinct and in domain order.
    pub fn event_ok(&self, e: &Event) -> bool
        ensures { IsTrue result ↔ IsLegal self.now e.now }
    {
        match e {
            Event::Set { sig, value } => self.is_settable(*sig) && self.holds(*sig, *value),
            Event::Edge(clocks) => {
                let domains = clocks.as_slice();
                domains.len() > 0 && ascend(domains, self.domains.len())
            }
        }
    }

    // Whether a signal is an input that is no clock.
    fn is_settable(&self, s: SigId) -> bool
        ensures { result ≡ is_settable self.now s.0 }
    {
        self.is_input(s) && !self.is_clock(s)
    }

    // Whether a signal is the clock of a domain.
    fn is_clock(&self, s: SigId) -> bool
        ensures { result ≡ is_clock self.now s.0 }
    {
        self.domains.as_slice().iter().any(|d| d.clk.0 == s.0)
    }

    // Whether a number is of the shape of a signal.
    #[tactic(auto, using(crate::proofs::Events::of_shape))]
    fn holds(&self, s: SigId, value: Int) -> bool
        requires { s.0 < length self.now.pool.signals }
        ensures { IsTrue result ↔ IsOf (signal_form self.now.pool.signals s.0).signed (signal_form self.now.pool.signals s.0).width value }
    {
        let shape = self.sig_at(s).shape;
        value.wrap(shape.width, shape.signed) == value
    }

    /// How many signals there are.
    pub fn signals(&self) -> u32
        ensures { result ≡ length self.now.pool.signals }
    {
        self.pool.signals()
    }

    /// How many expressions there are.
    pub fn exprs(&self) -> u32
        ensures { result ≡ length self.now.pool.exprs }
    {
        self.pool.count()
    }
}

impl Exprs for Design {
    ghost pooled = { λ d. d.pool };

    ghost grown = { λ d q. record d { pool = q } };

    fn expr(&mut self, e: Expr) -> Result<ExprId, PoolStop> {
        self.pool.expr(e)
    }

    fn count(&self) -> u32 {
        self.pool.count()
    }

    fn shape(&self, e: ExprId) -> Shape {
        self.pool.shape(e)
    }

    fn at(&self, e: ExprId) -> &Expr {
        self.pool.at(e)
    }
}

// The place of the domain with a name.
fn position_named(domains: &[Domain], name: &str) -> Option<usize>
    ensures { result ≡ position (λ d. text_eq d.name name.now) domains.now }
{
    domains.iter().position(|d| d.name.is(name))
}

// Whether these are numbers of so many domains, each past the one before it.
fn ascend(domains: &[DomainId], count: usize) -> bool
    ensures { result ≡ ascends count 0 domains.now }
{
    let mut least = 0;
    for d in domains {
        let number = d.0 as usize;
        if number < least || number >= count {
            return false;
        }
        least = number + 1;
    }
    true
}
