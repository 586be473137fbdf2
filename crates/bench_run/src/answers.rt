// What testbenches are answered by the simulator.
ghost use Rattle.std.specs.Prelude.{◌≡◌, ◌+◌, ◌≤◌};
ghost use Rattle.design_ir.specs.Circuits.{at};
ghost use Rattle.design_ir.specs.Legal.{IsLegal};
ghost use Rattle.design_ir.specs.Values.{signal_form};
ghost use Rattle.design_ir.specs.declared.event.Event.TheVariants.{Set};
ghost use Rattle.delta_sim.specs.Standing.{IsSimOf};
ghost use Rattle.elab_store.specs.Held.{held_of};
ghost use Rattle.elab_store.specs.Sound.{IsSample};
ghost use Rattle.bench_acts.specs.Held.{IsBench};
ghost use Rattle.bench_run.specs.Runs.{number_at, value_at};
ghost use Rattle.bench_run.specs.Setting.{bits_put, number_with};
ghost use Rattle.bench_run.specs.Standing.{IsSettable};

use amh_bits::{Bits, Int};
use bench_acts::{Bench, InputBits};
use delta_sim::Sim;
use design_ir::{Design, Event};
use elab_store::simulation::Sample;
use py_values::{Number, Val};

/// A sampled value now, as it is shown.
pub(crate) fn value_of(bench: &Bench, sim: &mut Sim, x: Sample) -> Val
    requires bench { IsBench bench.now }
    requires sim { IsSimOf bench.now.design sim.old }
    requires there { IsSample bench.now.held.pool x }
    ensures value { result ≡ value_at (held_of bench.now.held) sim.old.env x }
    ensures same { sim.new ≡ sim.old }
{
    match x {
        Sample::Value { e, reading } => bench.shown(reading, sim.eval(&bench.design, e)),
        Sample::Number(n) => Val::Int(Number::of(n)),
    }
}

/// A sampled number now.
pub(crate) fn number_of(bench: &Bench, sim: &mut Sim, x: Sample) -> Int
    requires bench { IsBench bench.now }
    requires sim { IsSimOf bench.now.design sim.old }
    requires there { IsSample bench.now.held.pool x }
    ensures number { result ≡ number_at (held_of bench.now.held) sim.old.env x }
    ensures same { sim.new ≡ sim.old }
{
    match x {
        Sample::Value { e, .. } => sim.eval(&bench.design, e),
        Sample::Number(n) => n,
    }
}

/// The event of bits of an input that take a number.
pub(crate) fn set_event(design: &Design, sim: &Sim, bits: InputBits, value: Int) -> Event
    requires bits { IsSettable design.now bits }
    requires sim { IsSimOf design.now sim.now }
    ensures event { result ≡ Set bits.sig (number_with (signal_form design.now.pool.signals bits.sig.0) bits (at sim.now.env bits.sig.0) value) }
    ensures legal { IsLegal design.now result }
{
    let shape = design.sig_at(bits.sig).shape;
    let old = sim.value(bits.sig).to_bits(shape.width);
    let new = value.to_bits(bits.width as u8);
    Event::Set {
        sig: bits.sig,
        value: Int::of_bits(with_bits(old, bits.low as u8, new), shape.signed),
    }
}

// Bits of which some, from a place on, are others.
fn with_bits(old: Bits, low: u8, new: Bits) -> Bits
    requires { low + new.width ≤ old.width }
    ensures { result ≡ bits_put old low new }
{
    let behind = low + new.width;
    let Ok(front) = Bits::concat(old.slice(0, low), new) else {
        unreachable!()
    };
    let Ok(whole) = Bits::concat(front, old.slice(behind, old.width - behind)) else {
        unreachable!()
    };
    whole
}
