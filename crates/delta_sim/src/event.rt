// What an event does to what a state has.
ghost use Rattle.std.specs.Prelude.{◌≡◌, ◌<◌, ◌≤◌, [], length, slice_set};
ghost use Rattle.design_ir.specs.Legal.{IsLegal};
ghost use Rattle.design_ir.specs.Steps.{moved, step};
ghost use Rattle.design_ir.proofs.NumbersFit.{FitsSignals};
ghost use Rattle.sim_plans.specs.Plans.{IsPlan};
ghost use Rattle.sim_plans.specs.Settling.{nobody};
ghost use Rattle.delta_sim.specs.Standing.{AreRowsOf, state_of};
ghost use Rattle.sim_plans.specs.Tasks.{AreFitting};
ghost use Rattle.sim_plans.specs.Woken.{AreChanged};

use crate::clears::clear_all;
use crate::clocks::after_edge;
use amh_bits::Int;
use design_ir::{Design, Event, Exprs};
use sim_plans::agenda::Agenda;
use sim_plans::plan::Plan;
use sim_plans::rows::Rows;

/// Puts what is held after an event, and the rows then, in place of those before it, and notes which memories have other
/// rows.
pub fn hold(
    design: &Design,
    plan: &Plan,
    event: &Event,
    env: &[Int],
    nums: &mut Vec<Int>,
    held: &mut Vec<Int>,
    rows: &mut Vec<Rows>,
    room: &mut Vec<Int>,
    changed: &mut Agenda,
)
    requires legal { IsLegal design.now event.now }
    requires plan { IsPlan design.now (length nums.old.items) plan.now }
    requires env { length env.now ≡ length design.now.pool.signals }
    requires env_fits { FitsSignals design.now.pool env.now }
    requires numbers { AreFitting design.now.pool nums.old.items }
    requires signals { length held.old.items ≡ length design.now.pool.signals }
    requires fits { FitsSignals design.now.pool held.old.items }
    requires rows { AreRowsOf design.now rows.old.items }
    requires room { 64 ≤ length room.old.items }
    requires changed { changed.old ≡ nobody (length design.now.memories) }
    ensures held { held.new.items ≡ (step design.now (state_of held.old.items rows.old.items) env.now event.now).held }
    ensures rows { rows.new.items ≡ (step design.now (state_of held.old.items rows.old.items) env.now event.now).rows }
    ensures count { length nums.new.items ≡ length nums.old.items }
    ensures numbers { AreFitting design.now.pool nums.new.items }
    ensures room { length room.new.items ≡ length room.old.items }
    ensures changed { AreChanged design.now rows.old.items rows.new.items changed.new.marks }
    ensures changed_count { length changed.new.marks ≡ length design.now.memories }
{
    change(design, plan, event, env, nums, held, rows, room, changed);
    clear_all(design, plan, held);
}

// What it does before asynchronous resets act.
fn change(
    design: &Design,
    plan: &Plan,
    event: &Event,
    env: &[Int],
    nums: &mut Vec<Int>,
    held: &mut Vec<Int>,
    rows: &mut Vec<Rows>,
    room: &mut Vec<Int>,
    changed: &mut Agenda,
)
    requires legal { IsLegal design.now event.now }
    requires plan { IsPlan design.now (length nums.old.items) plan.now }
    requires env { length env.now ≡ length design.now.pool.signals }
    requires env_fits { FitsSignals design.now.pool env.now }
    requires numbers { AreFitting design.now.pool nums.old.items }
    requires signals { length held.old.items ≡ length design.now.pool.signals }
    requires fits { FitsSignals design.now.pool held.old.items }
    requires rows { AreRowsOf design.now rows.old.items }
    requires room { 64 ≤ length room.old.items }
    requires changed { changed.old ≡ nobody (length design.now.memories) }
    ensures held { held.new.items ≡ (moved design.now (state_of held.old.items rows.old.items) env.now event.now).held }
    ensures rows { rows.new.items ≡ (moved design.now (state_of held.old.items rows.old.items) env.now event.now).rows }
    ensures signals { length held.new.items ≡ length design.now.pool.signals }
    ensures count { length nums.new.items ≡ length nums.old.items }
    ensures numbers { AreFitting design.now.pool nums.new.items }
    ensures room { length room.new.items ≡ length room.old.items }
    ensures changed { AreChanged design.now rows.old.items rows.new.items changed.new.marks }
    ensures changed_count { length changed.new.marks ≡ length design.now.memories }
{
    match event {
        Event::Set { sig, value } => {
            let s = sig.0 as usize;
            if s < held.len() {
                held[s] = *value;
            }
        }
        Event::Edge(clocks) => {
            let clocks = clocks.as_slice();
            after_edge(design, plan, env, nums, clocks, held, rows, room, changed);
        }
    }
}
