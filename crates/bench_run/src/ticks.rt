// What ticks bring where clocks are about to toggle.
ghost use Rattle.std.specs.Prelude.{◌≡◌, ◌<◌, ◌++◌, IsTrue, IfOk, OnOk, length, map};
ghost use Rattle.design_ir.specs.Steps.{is_active};
ghost use Rattle.design_ir.specs.Legal.{IsLegal};
ghost use Rattle.design_ir.specs.declared.event.Event.TheVariants.{Edge};
ghost use Rattle.delta_sim.specs.Standing.{IsSimOf};
ghost use Rattle.elab_store.specs.Held.{held_of};
ghost use Rattle.elab_store.specs.Sound.{IsWait};
ghost use Rattle.elab_store.specs.declared.simulation.Wait.TheVariants as waits;
ghost use Rattle.bench_acts.specs.Held.{IsBench};
ghost use Rattle.bench_run.specs.Runs.{samples_of, tick_stand, stand_ticked};
ghost use Rattle.bench_run.specs.Standing.{ticked_in};

use crate::answers::{number_of, value_of};
use crate::testbench::{Running, Stand};
use bench_acts::Bench;
use delta_sim::Sim;
use design_ir::{Clocks, Design, DomainId};
use elab_store::simulation::{Tick, TickEnd, Wait};
use lists::NoMemory;
use py_frames::request::{Answer, Cause};
use py_values::{Val, Vals};
use std::alloc::Global;

/// Testbenches that wait for ticks of these domains are answered, with what they sample before the clocks toggle.
pub(crate) fn tick_all(
    alloc: Global,
    bench: &Bench,
    sim: &mut Sim,
    toggled: &Clocks,
    testbenches: &mut Vec<Running>,
) -> Result<(), NoMemory>
    requires bench { IsBench bench.now }
    requires sim { IsSimOf bench.now.design sim.old }
    requires legal { IsLegal bench.now.design (Edge toggled.now) }
    ensures ticked { OnOk result (testbenches.new.items ≡ map (ticked_in bench.now.design (held_of bench.now.held) sim.old.env toggled.now) testbenches.old.items) }
    ensures same { sim.new ≡ sim.old }
{
    for i in 0..testbenches.len() {
        let Stand::Ticks { wait, left } = testbenches[i].stand else {
            continue;
        };
        testbenches[i].stand = ticked(alloc, bench, sim, toggled, wait, left)?;
    }
    Ok(())
}

// Where a testbench stands that waits for these ticks, of which so many are still wanted.
fn ticked(
    alloc: Global,
    bench: &Bench,
    sim: &mut Sim,
    toggled: &Clocks,
    wait: u32,
    left: u128,
) -> Result<Stand, NoMemory>
    requires bench { IsBench bench.now }
    requires sim { IsSimOf bench.now.design sim.old }
    requires legal { IsLegal bench.now.design (Edge toggled.now) }
    ensures stand { IfOk result (λ s. s ≡ stand_ticked bench.now.design (held_of bench.now.held) sim.old.env toggled.now (Stand.Ticks wait left)) }
    ensures same { sim.new ≡ sim.old }
{
    let Some(Wait::Tick(tick)) = bench.wait(wait) else {
        return Ok(Stand::Ticks { wait, left });
    };
    if !is_active(&bench.design, sim, toggled, tick.domain) {
        return Ok(Stand::Ticks { wait, left });
    }
    let reset = delta_sim::is_reset(&bench.design, sim.values(), tick.domain);
    tick_stand(alloc, bench, sim, tick, wait, left, reset)
}

// Whether the clock of a domain is about to have its active edge.
fn is_active(design: &Design, sim: &Sim, toggled: &Clocks, d: DomainId) -> bool
    requires { IsLegal design.now (Edge toggled.now) }
    ensures active { result ≡ is_active design.now sim.now.env toggled.now d.0 }
    ensures there { IsTrue result → d.0 < length design.now.domains }
{
    toggled.as_slice().contains(&d)
        && delta_sim::is_active(design, sim.values(), toggled.as_slice(), d)
}

// What a tick brings at the active edge of its clock.
fn tick_stand(
    alloc: Global,
    bench: &Bench,
    sim: &mut Sim,
    tick: &Tick,
    wait: u32,
    left: u128,
    reset: bool,
) -> Result<Stand, NoMemory>
    requires bench { IsBench bench.now }
    requires sim { IsSimOf bench.now.design sim.old }
    requires tick { IsWait bench.now.held.pool (waits.Tick tick.now) }
    ensures stand { IfOk result (λ s. s ≡ tick_stand (held_of bench.now.held) sim.old.env wait left tick.now reset tick.now.end) }
    ensures same { sim.new ≡ sim.old }
{
    match tick.end {
        TickEnd::Once => {
            let mut vals = Vals::new(alloc);
            vals.push(Val::Bool(true))?;
            vals.push(Val::Bool(reset))?;
            samples(bench, sim, tick, vals)
        }
        _ if reset => Ok(Stand::Ready(Answer::Refuse(Cause::Raised))),
        TickEnd::Times(_) if left > 1 => Ok(Stand::Ticks {
            wait,
            left: left - 1,
        }),
        TickEnd::Times(_) => samples(bench, sim, tick, Vals::new(alloc)),
        TickEnd::Until(c) => {
            if number_of(bench, sim, c).size == 0 {
                return Ok(Stand::Ticks { wait, left });
            }
            samples(bench, sim, tick, Vals::new(alloc))
        }
    }
}

// What stands before the samples of a tick, and these.
fn samples(bench: &Bench, sim: &mut Sim, tick: &Tick, vals: Vals) -> Result<Stand, NoMemory>
    requires bench { IsBench bench.now }
    requires sim { IsSimOf bench.now.design sim.old }
    requires tick { IsWait bench.now.held.pool (waits.Tick tick.now) }
    ensures stand { IfOk result (λ s. s ≡ Stand.Ready (Answer.GiveList (vals ++ samples_of (held_of bench.now.held) sim.old.env tick.now))) }
    ensures same { sim.new ≡ sim.old }
{
    let mut vals = vals;
    for x in tick.samples.as_slice() {
        vals.push(value_of(bench, sim, *x))?;
    }
    Ok(Stand::Ready(Answer::GiveList(vals)))
}
