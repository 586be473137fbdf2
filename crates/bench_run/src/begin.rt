// What a run begins with.
ghost use Rattle.std.specs.Prelude.{◌≡◌, IfOk};
ghost use Rattle.comb_graph.specs.Rankings.{IsRanking};
ghost use Rattle.elab_eval.specs.Fit.{FitsDesign};
ghost use Rattle.bench_run.specs.Standing.{AreAnew, AreBenchesOf, HasBegun, IsSimulated};

use crate::setting::clocks_of;
use crate::testbench::{Running, Stand};
use bench_acts::Bench;
use calendar::Clock;
use comb_graph::Ranks;
use delta_sim::Sim;
use design_ir::Design;
use elab_store::simulation::{RunEnd, Testbench};
use elab_store::store::Store;
use lists::NoMemory;
use py_frames::request::Answer;
use py_heap::Frozen;
use py_machine::Machine;
use py_values::{Hw, Val};
use std::alloc::Global;

/// What a run begins with: the design, its simulator, its clocks, how it ends, and its testbenches.
#[derive(Drop)]
pub(crate) struct Begun {
    pub bench: Bench,
    pub sim: Sim,
    pub clocks: Vec<Clock>,
    pub end: Option<RunEnd>,
    pub testbenches: Vec<Running>,
}

/// What a run of a design begins with, over what elaboration holds.
pub(crate) fn begin(
    alloc: Global,
    design: Design,
    store: Store,
    frozen: &Frozen,
    ranks: &Ranks,
) -> Result<Begun, NoMemory>
    requires fit { FitsDesign design store }
    requires ranked { IsRanking design ranks.now }
    ensures { IfOk result (HasBegun design store frozen.now) }
{
    match simulate(alloc, &design, &store, ranks) {
        Ok(simulated) => with_benches(alloc, design, store, frozen, simulated),
        Err(NoMemory) => {
            drop(store);
            drop(design);
            Err(NoMemory)
        }
    }
}

// A simulator, its clocks, and how the run ends.
#[derive(Drop)]
pub(crate) struct Simulated {
    pub sim: Sim,
    pub clocks: Vec<Clock>,
    pub end: Option<RunEnd>,
}

fn simulate(
    alloc: Global,
    design: &Design,
    store: &Store,
    ranks: &Ranks,
) -> Result<Simulated, NoMemory>
    requires fit { FitsDesign design.now store.now }
    requires ranked { IsRanking design.now ranks.now }
    ensures { IfOk result (IsSimulated design.now store.now.simulation) }
{
    let sim = Sim::start(alloc, design, ranks)?;
    let simulation = store.simulation();
    Ok(Simulated {
        sim,
        clocks: clocks_of(alloc, design, simulation.clocks())?,
        end: simulation.run_end(),
    })
}

// The design, and its testbenches, beside its simulator.
fn with_benches(
    alloc: Global,
    design: Design,
    store: Store,
    frozen: &Frozen,
    simulated: Simulated,
) -> Result<Begun, NoMemory>
    requires fit { FitsDesign design store }
    requires simulated { IsSimulated design store.simulation simulated }
    ensures { IfOk result (HasBegun design store frozen.now) }
{
    match benches(alloc, design, store, frozen) {
        Ok((bench, testbenches)) => Ok(Begun {
            bench,
            sim: simulated.sim,
            clocks: simulated.clocks,
            end: simulated.end,
            testbenches,
        }),
        Err(NoMemory) => {
            drop(simulated);
            Err(NoMemory)
        }
    }
}

fn benches(
    alloc: Global,
    design: Design,
    store: Store,
    frozen: &Frozen,
) -> Result<(Bench, Vec<Running>), NoMemory>
    requires fit { FitsDesign design store }
    ensures { IfOk result (λ r. AreBenchesOf design store frozen.now r.0 r.1.items) }
{
    let mut bench = Bench::new(alloc, design, store)?;
    let ctx = bench.context()?;
    let added = bench.held.store.simulation().testbenches();
    let testbenches = testbenches_of(alloc, frozen, ctx, added)?;
    Ok((bench, testbenches))
}

// The testbenches before a run, in the order in which they were added.
fn testbenches_of(
    alloc: Global,
    frozen: &Frozen,
    ctx: Hw,
    added: &[Testbench],
) -> Result<Vec<Running>, NoMemory>
    ensures { IfOk result (λ v. AreAnew frozen.now ctx added.now v.items) }
{
    let mut testbenches = Vec::new(alloc);
    for x in added {
        testbenches.push(Running {
            machine: Machine::bench(alloc, frozen, Val::Func(x.function), ctx)?,
            background: x.background,
            stand: Stand::Ready(Answer::Begin),
        })?;
    }
    Ok(testbenches)
}
