// What comes of what a testbench asked, where it was served.
ghost use Rattle.std.specs.Prelude.{◌≡◌, ◌<◌, ◌^◌, IfSome};
ghost use Rattle.design_ir.specs.Legal.{IsLegal};
ghost use Rattle.delta_sim.specs.Standing.{IsSimOf};
ghost use Rattle.elab_store.specs.Held.{held_of};
ghost use Rattle.bench_acts.specs.Context.{ticks_at};
ghost use Rattle.bench_acts.specs.Held.{IsBench};
ghost use Rattle.bench_run.specs.Runs.{waiting, moment_of};
ghost use Rattle.bench_run.specs.Standing.{MayBeDone, event_served, refusal, stand_behind};

use crate::answers::{set_event, value_of};
use crate::testbench::Stand;
use bench_acts::{Bench, Served};
use delta_sim::Sim;
use design_ir::{Design, Event};
use elab_store::simulation::{TickEnd, Wait};
use py_frames::request::{Answer, Cause};
use py_values::Val;

// Moments are below this.
const LIMIT: u64 = 1 << 63;

/// Why a testbench is refused, where it is.
pub(crate) fn refusal(served: &Served) -> Option<Cause>
    ensures { result ≡ refusal served.now }
{
    match served {
        Served::Answer(Answer::Refuse(why)) => Some(*why),
        _ => None,
    }
}

/// The event of what was served, where it is one.
pub(crate) fn event_served(design: &Design, sim: &Sim, served: &Served) -> Option<Event>
    requires may { MayBeDone design.now served.now }
    requires sim { IsSimOf design.now sim.now }
    ensures event { result ≡ event_served design.now.pool.signals sim.now.env served.now }
    ensures legal { IfSome result (IsLegal design.now) }
{
    match served {
        Served::Set { bits, value } => Some(set_event(design, sim, *bits, *value)),
        _ => None,
    }
}

/// Where a testbench stands behind what was served.
pub(crate) fn stand_behind(bench: &Bench, sim: &mut Sim, now: u64, served: Served) -> Stand
    requires bench { IsBench bench.now }
    requires sim { IsSimOf bench.now.design sim.old }
    requires may { MayBeDone bench.now.design served }
    requires now { now < 2 ^ 63 }
    ensures stand { result ≡ stand_behind (held_of bench.now.held) sim.old.env now served }
    ensures below { IfSome (moment_of result) (λ t. t < 2 ^ 63) }
    ensures same { sim.new ≡ sim.old }
{
    match served {
        Served::Answer(answer) => Stand::Ready(answer),
        Served::Get(x) => Stand::Ready(Answer::Give(value_of(bench, sim, x))),
        Served::Set { .. } => Stand::Ready(Answer::Give(Val::None)),
        Served::Wait(k) => waiting(bench, now, k),
    }
}

// Where a testbench stands that waits.
fn waiting(bench: &Bench, now: u64, k: u32) -> Stand
    requires { now < 2 ^ 63 }
    ensures stand { result ≡ waiting now k (ticks_at (held_of bench.now.held) k) }
    ensures below { IfSome (moment_of result) (λ t. t < 2 ^ 63) }
{
    match bench.wait(k) {
        Some(Wait::Delay(t)) if *t < LIMIT && now + *t < LIMIT => Stand::Until(now + *t),
        Some(Wait::Tick(tick)) => Stand::Ticks {
            wait: k,
            left: match tick.end {
                TickEnd::Times(n) => n,
                _ => 0,
            },
        },
        _ => Stand::Ready(Answer::Refuse(Cause::Raised)),
    }
}
