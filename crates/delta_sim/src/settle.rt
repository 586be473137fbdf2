// Delta after delta until nothing changes.
ghost use Rattle.std.specs.Prelude.{◌≡◌, ◌+◌, ◌<◌, ◌≤◌, ◌^◌, [], ◌∷◌, List, ℤ, length};
ghost use Rattle.design_ir.specs.Histories.{DeltasFrom};
ghost use Rattle.design_ir.specs.Settled.{Settled};
ghost use Rattle.design_ir.proofs.NumbersFit.{FitsSignals};
ghost use Rattle.comb_graph.specs.Laws.{FitsState};
ghost use Rattle.sim_plans.specs.Plans.{IsPlan, Notes, Rests};
ghost use Rattle.sim_plans.specs.Settling.{EndsIn, AreCounts, IsWoken, nobody};
ghost use Rattle.delta_sim.specs.Standing.{AreRowsOf, state_of};
ghost use Rattle.sim_plans.specs.Tasks.{AreFitting};
ghost use Rattle.sim_plans.specs.Woken.{one_if_some};

use crate::delta::delta;
use amh_bits::Int;
use amh_host::Steps;
use design_ir::{Design, Exprs};
use sim_plans::agenda::Agenda;
use sim_plans::plan::Plan;
use sim_plans::rows::Rows;
use std::sync::ledger::Ledger;

/// How many deltas there were in which a process or a read port without a clock ran, and how often they ran.
#[derive(Clone, Copy, PartialEq, Eq, Drop)]
pub struct Counts {
    pub deltas: u32,
    pub runs: u64,
}

/// Settles the state that is held, one step for each run of a process or of a read port without a clock, and notes the
/// signals whose numbers change.
pub fn settle<L: Ledger>(
    design: &Design,
    plan: &Plan,
    most: u64,
    held: &[Int],
    rows: &[Rows],
    env: &mut Vec<Int>,
    nums: &mut Vec<Int>,
    next: &mut [Int],
    waits: &mut Agenda,
    then: &mut Agenda,
    woken: &mut Agenda,
    moved: &mut Agenda,
    steps: &mut Steps<L>,
) -> Counts
    requires plan { IsPlan design.now (length nums.old.items) plan.now }
    requires rows { AreRowsOf design.now rows.now }
    requires state { FitsState design.now (state_of held.now rows.now) }
    requires signals { length env.old.items ≡ length design.now.pool.signals }
    requires fits { FitsSignals design.now.pool env.old.items }
    requires numbers { AreFitting design.now.pool nums.old.items }
    requires next { length next.old ≡ length design.now.pool.signals }
    requires next_fits { FitsSignals design.now.pool next.old }
    requires waits { length waits.old.marks ≡ plan.now.jobs }
    requires then { then.old ≡ nobody plan.now.jobs }
    requires woken { length woken.old.marks ≡ plan.now.agents }
    requires moved { length moved.old.marks ≡ length design.now.pool.signals }
    requires rests { Rests design.now (state_of held.now rows.now) plan.now waits.old.marks env.old.items }
    requires ends { EndsIn design.now (state_of held.now rows.now) env.old.items most }
    requires most { most ≤ 2 ^ 22 + 2 }
    ensures settled { Settled design.now (state_of held.now rows.now) env.new.items }
    ensures signals { length env.new.items ≡ length design.now.pool.signals }
    ensures fits { FitsSignals design.now.pool env.new.items }
    ensures count { length nums.new.items ≡ length nums.old.items }
    ensures numbers { AreFitting design.now.pool nums.new.items }
    ensures next { length next.new ≡ length design.now.pool.signals }
    ensures next_fits { FitsSignals design.now.pool next.new }
    ensures waits { waits.new ≡ nobody plan.now.jobs }
    ensures then { then.new ≡ nobody plan.now.jobs }
    ensures woken { woken.new ≡ nobody plan.now.agents }
    ensures moved { Notes env.old.items env.new.items moved.old.marks moved.new.marks }
    ensures counts { (before : List (List ℤ)) (old : List ℤ) (rest : List (List ℤ)) → IsWoken design.now plan.now old env.old.items before rows.now woken.old.marks → DeltasFrom design.now (state_of held.now rows.now) env.old.items rest → AreCounts design.now before rows.now old (env.old.items ∷ rest) result.deltas result.runs }
    ensures steps { steps.new ≡ steps.old + result.runs }
{
    let _ = design.count();
    let _ = design.processes();
    let _ = held;
    let mut counts = Counts { deltas: 0, runs: 0 };
    for _ in 0..most {
        let count = woken.len();
        counts = counted(counts, count);
        tick(count, steps);
        woken.clear();
        if waits.len() == 0 {
            waits.clear();
            return counts;
        }
        delta(
            design, plan, rows, env, nums, next, waits, then, woken, moved,
        );
    }
    counts
}

// One delta more, in which so many processes run.
fn counted(counts: Counts, runs: usize) -> Counts
    requires deltas { counts.deltas < 2 ^ 31 }
    requires runs { counts.runs + runs < 2 ^ 64 }
    ensures deltas { result.deltas ≡ counts.deltas + one_if_some runs }
    ensures runs { result.runs ≡ counts.runs + runs }
{
    Counts {
        deltas: if runs == 0 {
            counts.deltas
        } else {
            counts.deltas + 1
        },
        runs: counts.runs + runs as u64,
    }
}

// So many steps.
fn tick<L: Ledger>(count: usize, steps: &mut Steps<L>)
    ensures { steps.new ≡ steps.old + count }
{
    for _ in 0..count {
        steps.tick();
    }
}
