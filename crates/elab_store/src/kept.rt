// The things of a store that this crate knows by itself.

use crate::faces::Face;
use crate::shapes::Shaped;
use amh_bits::Int;
use amh_host::Place;
use amh_things::thing::Reading;
use design_ir::ExprId;
use py_values::StrId;

/// A name of Amaranth's modules that is served here.
#[derive(Clone, Copy, PartialEq, Eq, Drop)]
pub enum HdlName {
    Module,
    Signal,
    /// `Signal.like`.
    Like,
    Elaboratable,
    /// `Shape` and `Value` may be named and nothing else.
    Shape,
    Value,
    /// The module `amaranth.lib.wiring`.
    Wiring,
    /// The module `amaranth.lib.enum`.
    Enumerations,
    /// The module `amaranth.lib.data`.
    Data,
    In,
    Out,
    /// `Signature` of `amaranth.lib.wiring`.
    Signature,
    Component,
    Connect,
    Flipped,
    /// The module `amaranth.lib.stream`, and its `Signature`.
    Stream,
    StreamSignature,
    ClockDomain,
    ResetSignal,
    /// The module `amaranth.lib.memory`, and its `Memory`.
    MemoryLibrary,
    Memory,
    DomainRenamer,
    ResetInserter,
    EnableInserter,
    /// `Simulator` of `amaranth.sim`.
    Simulator,
}

/// A domain of a module, as it is named behind `m.d`.
#[derive(Clone, Copy, PartialEq, Eq, Drop)]
pub enum DomainName {
    Comb,
    /// A domain with a clock, by the number of its name among those that the store holds.
    Clocked(u32),
}

/// The name of a block, as it is an attribute of a module.
#[derive(Clone, Copy, PartialEq, Eq, Drop)]
pub enum BlockName {
    If,
    Elif,
    Else,
    Switch,
    Case,
    Default,
}

/// How a block begins that was called.
#[derive(Clone, Copy, PartialEq, Eq, Drop)]
pub enum Begin {
    If(ExprId),
    Elif(ExprId),
    Else,
    Switch(ExprId),
    /// The number of its patterns among those of all cases.
    Case(u32),
    Default,
    /// A `Case` that was called where no `Switch` was the innermost block.
    Misplaced,
}

/// What `x.eq(v)` gives: the statement that x takes v, with the place of the call.
#[derive(Clone, Copy, PartialEq, Eq, Drop)]
pub struct Equation {
    pub target: ExprId,
    pub value: ExprId,
    pub place: Place,
}

/// `m.FSM(..)`: the first state, the domain and the name, where they were given, and the place of the call.
#[derive(Clone, Copy, PartialEq, Eq, Drop)]
pub struct MachineCall {
    pub of: u32,
    pub init: Option<StrId>,
    pub domain: Option<StrId>,
    pub name: Option<StrId>,
    pub place: Place,
}

/// `m.State("S")`, with the place of the call.
#[derive(Clone, Copy, PartialEq, Eq, Drop)]
pub struct StateCall {
    pub of: u32,
    pub name: StrId,
    pub place: Place,
}

/// What belongs to the state machines of a module.
#[derive(Clone, Copy, PartialEq, Eq, Drop)]
pub enum MachinePart {
    /// `m.FSM` of a module.
    Fsm(u32),
    /// `m.State` of a module.
    State(u32),
    Called(MachineCall),
    CalledState(StateCall),
    /// A machine that was entered, by its number in order of making.
    Running(usize),
    /// `f.ongoing`.
    Ongoing(usize),
}

/// What belongs to the simulator of a file.
#[derive(Clone, Copy, PartialEq, Eq, Drop)]
pub enum SimulatorPart {
    /// What `Simulator(x)` gives.
    Whole,
    /// `sim.add_clock`.
    AddClock,
    /// `sim.add_testbench`.
    AddTestbench,
    /// `sim.run`.
    Run,
    /// `sim.run_until`.
    RunUntil,
    /// `sim.write_vcd`.
    WriteVcd,
    /// What `sim.write_vcd(..)` gives, over which a `with` may stand.
    Vcd,
}

/// What belongs to `ctx` of a testbench. A number is that of what may be waited for.
#[derive(Clone, Copy, PartialEq, Eq, Drop)]
pub enum BenchPart {
    /// `ctx` itself.
    Context,
    /// `ctx.get`.
    Get,
    /// `ctx.set`.
    Set,
    /// `ctx.tick`.
    Tick,
    /// `ctx.delay`.
    Delay,
    /// What a call of `ctx.tick` or `ctx.delay` gave, or of a method of such a thing.
    Wait(u32),
    /// `.sample` of a tick.
    Sample(u32),
    /// `.until` of a tick.
    Until(u32),
    /// `.repeat` of a tick.
    Repeat(u32),
}

/// The name of a method of a signature.
#[derive(Clone, Copy, PartialEq, Eq, Drop)]
pub enum SignatureMethod {
    Flip,
    Create,
}

/// The name of a method of a memory.
#[derive(Clone, Copy, PartialEq, Eq, Drop)]
pub enum MemoryMethod {
    WritePort,
    ReadPort,
}

/// A port of a memory: its number among the write ports or the read ports, the expressions that are its signals, and what its data are
/// read as. A read port without a clock has no enable.
#[derive(Clone, Copy, PartialEq, Eq, Drop)]
pub struct MemoryPort {
    pub of: u32,
    pub is_write: bool,
    pub number: u32,
    pub addr: ExprId,
    pub word: ExprId,
    pub enable: Option<ExprId>,
    pub reading: Reading,
}

/// What a kept thing is.
#[derive(Clone, Copy, PartialEq, Eq, Drop)]
pub enum Kept {
    /// A name.
    Name(HdlName),
    /// A module, by its number in order of making.
    Module(u32),
    /// `m.d` of a module.
    Domains(u32),
    /// `m.d.comb`, `m.d.sync` or another domain of a module.
    Domain {
        of: u32,
        name: DomainName,
    },
    /// `m.submodules` of a module.
    Submodules(u32),
    /// `m.domains` of a module.
    Definitions(u32),
    /// A clock domain, by its number in order of making.
    ClockDomain(u32),
    /// A memory, by its number in order of making.
    Memory(u32),
    /// `mem.write_port` and `mem.read_port` of a memory.
    OfMemory {
        of: u32,
        method: MemoryMethod,
    },
    /// A port of a memory.
    MemoryPort(MemoryPort),
    /// What `DomainRenamer(..)`, `ResetInserter(..)` or `EnableInserter(..)` gives, by its number in order of making.
    Wrapping(u32),
    /// What a call of such a thing with something to elaborate gives, by its number in order of making.
    Wrapped(u32),
    /// `x.eq(v)`.
    Statement(Equation),
    /// `In(shape)` or `Out(shape)`.
    Port {
        is_out: bool,
        shape: Shaped,
        init: Int,
    },
    /// `In(signature)` or `Out(signature)`, by the number of the signature.
    Nested {
        is_out: bool,
        signature: u32,
    },
    /// A signature, by its number in order of making.
    Signature(u32),
    /// `sig.flip` and `sig.create` of a signature.
    OfSignature {
        of: u32,
        method: SignatureMethod,
    },
    /// An interface.
    Interface(Face),
    /// `m.If` and the like.
    BlockName {
        of: u32,
        name: BlockName,
    },
    /// `m.If(c)` and the like.
    Block {
        of: u32,
        begin: Begin,
    },
    /// What belongs to state machines.
    OfMachine(MachinePart),
    /// What belongs to the simulator.
    OfSimulator(SimulatorPart),
    /// What belongs to a testbench.
    OfBench(BenchPart),
}

/// What is elaborated: the object of which it was asked first, where it was one, and the module that came of it.
#[derive(Clone, Copy, PartialEq, Eq, Drop)]
pub struct Top {
    pub object: Option<py_values::ObjId>,
    pub root: Option<u32>,
}
