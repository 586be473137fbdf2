// What the simulator of a file was told: what is simulated, its clocks and testbenches, and how the run ends.
ghost use Rattle.std.specs.Prelude.{◌≡◌, OnOk, IfOk, length};
ghost use Rattle.elab_store.specs.Simulations.{no_simulation, with_subject, with_clock, with_testbench, with_end, with_wait};

use crate::store::Store;
use amh_bits::Int;
use amh_host::{Items, Place, Text};
use amh_things::thing::Reading;
use design_ir::{DomainId, ExprId};
use lists::NoMemory;
use py_values::{FuncId, Val};
use std::alloc::Global;
use std::marker::Model;

/// `sim.add_clock(..)`: a clock of a domain, with its period and its first rise in femtoseconds, and the place of the call.
#[derive(Drop)]
pub struct ClockCall {
    pub domain: Text,
    pub period: u64,
    pub phase: u64,
    pub place: Place,
}

/// `sim.add_testbench(..)`: a function, and whether the run may end before it does.
#[derive(Clone, Copy, PartialEq, Eq, Drop)]
pub struct Testbench {
    pub function: FuncId,
    pub background: bool,
}

/// How a run ends.
#[derive(Clone, Copy, PartialEq, Eq, Drop)]
pub enum RunEnd {
    /// `sim.run()`: with its testbenches.
    WithTestbenches,
    /// `sim.run_until(t)`: behind the moments at most t, in femtoseconds.
    Until(u64),
}

/// A value that is sampled: of an expression, by what its bits are read as, or a number.
#[derive(Clone, Copy, PartialEq, Eq, Drop)]
pub enum Sample {
    Value { e: ExprId, reading: Reading },
    Number(Int),
}

/// What is sampled, one after the other.
pub type Samples = Items<Sample>;

/// How long ticks are waited for: once, so many times, or until a value is not 0.
#[derive(Clone, Copy, PartialEq, Eq, Drop)]
pub enum TickEnd {
    Once,
    Times(u128),
    Until(Sample),
}

/// Ticks of a domain, with what is sampled at the last of them.
#[derive(Drop)]
pub struct Tick {
    pub domain: DomainId,
    pub samples: Samples,
    pub end: TickEnd,
}

/// What a testbench may wait for: ticks, or so many femtoseconds.
#[derive(Drop)]
pub enum Wait {
    Tick(Tick),
    Delay(u64),
}

/// What the simulator was told, in order. Contracts see it as `Simulation`.
#[derive(Drop)]
pub struct Simulation {
    subject: Option<Val>,
    clocks: Vec<ClockCall>,
    testbenches: Vec<Testbench>,
    run_end: Option<RunEnd>,
    waits: Vec<Wait>,
}

impl Model for Simulation {
    ghost use Rattle.elab_store.specs.Simulations.{Simulation};

    ghost Value = { Simulation };

    ghost view = { λ a. record { subject = a.subject; clocks = a.clocks.items; testbenches = a.testbenches.items; run_end = a.run_end; waits = a.waits.items } };
}

impl Simulation {
    /// Nothing yet, which takes no memory.
    pub fn new(alloc: Global) -> Simulation
        ensures { result ≡ no_simulation }
    {
        Simulation {
            subject: None,
            clocks: Vec::new(alloc),
            testbenches: Vec::new(alloc),
            run_end: None,
            waits: Vec::new(alloc),
        }
    }

    /// What is simulated, where `Simulator` was called.
    pub fn subject(&self) -> Option<Val>
        ensures { result ≡ self.now.subject }
    {
        self.subject
    }

    /// The clocks, in order.
    pub fn clocks(&self) -> &[ClockCall]
        ensures { result.now ≡ self.now.clocks }
    {
        self.clocks.as_slice()
    }

    /// The testbenches, in order.
    pub fn testbenches(&self) -> &[Testbench]
        ensures { result.now ≡ self.now.testbenches }
    {
        self.testbenches.as_slice()
    }

    /// What testbenches may wait for, in order of making.
    pub fn waits(&self) -> &[Wait]
        ensures { result.now ≡ self.now.waits }
    {
        self.waits.as_slice()
    }

    /// How the run ends, where it was called.
    pub fn run_end(&self) -> Option<RunEnd>
        ensures { result ≡ self.now.run_end }
    {
        self.run_end
    }
}

impl Store {
    /// What the simulator was told.
    pub fn simulation(&self) -> &Simulation
        ensures { result.now ≡ self.now.simulation }
    {
        &self.simulation
    }

    /// What is simulated.
    pub fn simulate(&mut self, v: Val)
        ensures { self.new ≡ record self.old { simulation = with_subject v self.old.simulation } }
    {
        self.simulation.subject = Some(v);
    }

    /// A clock.
    pub fn add_clock(&mut self, clock: ClockCall) -> Result<(), NoMemory>
        ensures { OnOk result (self.new ≡ record self.old { simulation = with_clock clock self.old.simulation }) }
    {
        self.simulation.clocks.push(clock)?;
        Ok(())
    }

    /// A testbench.
    pub fn add_testbench(&mut self, testbench: Testbench) -> Result<(), NoMemory>
        ensures { OnOk result (self.new ≡ record self.old { simulation = with_testbench testbench self.old.simulation }) }
    {
        self.simulation.testbenches.push(testbench)?;
        Ok(())
    }

    /// Something that a testbench may wait for.
    pub fn add_wait(&mut self, wait: Wait) -> Result<u32, NoMemory>
        ensures { IfOk result (λ k. (k ≡ length self.old.simulation.waits) × (self.new ≡ record self.old { simulation = with_wait wait self.old.simulation })) }
    {
        let number = self.simulation.waits.len();
        if number >= 4_294_967_295 {
            drop(wait);
            return Err(NoMemory);
        }
        self.simulation.waits.push(wait)?;
        Ok(number as u32)
    }

    /// The run is called, and ends so.
    pub fn end_run(&mut self, end: RunEnd)
        ensures { self.new ≡ record self.old { simulation = with_end end self.old.simulation } }
    {
        self.simulation.run_end = Some(end);
    }
}
