// One delta.
ghost use Rattle.std.specs.Prelude.{◌≡◌, ◌+◌, ◌<◌, ℕ, [], true, false, length, replicate, slice_index_or};
ghost use Rattle.std.specs.List.{AllByRecursion};
ghost use Rattle.design_ir.specs.Circuits.{State, at, is_among};
ghost use Rattle.design_ir.specs.Settled.{delta};
ghost use Rattle.design_ir.proofs.NumbersFit.{FitsSignals};
ghost use Rattle.comb_graph.specs.Laws.{FitsState};
ghost use Rattle.sim_plans.specs.Plans.{IsPlan, IsTable, Notes, Rests, Wakes, IsUntouched, outs_at};
ghost use Rattle.delta_sim.specs.Standing.{AreRowsOf};
ghost use Rattle.sim_plans.specs.Tasks.{AreFitting};

use crate::run::run;
use crate::wake::take;
use amh_bits::Int;
use design_ir::{Design, Exprs};
use sim_plans::agenda::Agenda;
use sim_plans::plan::Plan;
use sim_plans::rows::Rows;

/// Runs the tasks that wait, all from the same numbers; then their signals take what they came to, the tasks wait that
/// read a signal whose number changed, and that signal is noted.
pub fn delta(
    design: &Design,
    plan: &Plan,
    rows: &[Rows],
    env: &mut Vec<Int>,
    nums: &mut Vec<Int>,
    next: &mut [Int],
    waits: &mut Agenda,
    then: &mut Agenda,
    woken: &mut Agenda,
    moved: &mut Agenda,
)
    requires plan { IsPlan design.now (length nums.old.items) plan.now }
    requires rows { AreRowsOf design.now rows.now }
    requires signals { length env.old.items ≡ length design.now.pool.signals }
    requires fits { FitsSignals design.now.pool env.old.items }
    requires numbers { AreFitting design.now.pool nums.old.items }
    requires next { length next.old ≡ length design.now.pool.signals }
    requires next_fits { FitsSignals design.now.pool next.old }
    requires waits { length waits.old.marks ≡ plan.now.jobs }
    requires then { then.old ≡ record { marks = replicate plan.now.jobs false; list = [] } }
    requires woken { length woken.old.marks ≡ plan.now.agents }
    requires moved { length moved.old.marks ≡ length design.now.pool.signals }
    ensures env { (st : State) → FitsState design.now st → st.rows ≡ rows.now → Rests design.now st plan.now waits.old.marks env.old.items → env.new.items ≡ delta design.now st env.old.items }
    ensures count { length nums.new.items ≡ length nums.old.items }
    ensures numbers { AreFitting design.now.pool nums.new.items }
    ensures next { length next.new ≡ length design.now.pool.signals }
    ensures next_fits { FitsSignals design.now.pool next.new }
    ensures waits { Wakes plan.now.readers env.old.items env.new.items (replicate plan.now.jobs false) waits.new.marks }
    ensures then { then.new ≡ record { marks = replicate plan.now.jobs false; list = [] } }
    ensures woken { Wakes plan.now.processes env.old.items env.new.items woken.old.marks woken.new.marks }
    ensures moved { Notes env.old.items env.new.items moved.old.marks moved.new.marks }
{
    let _ = design.count();
    let _ = design.processes();
    run_all(design, plan, rows, waits, env.as_slice(), nums, next);
    take_all(plan, waits, next, env, then, woken, moved);
    waits.clear();
    std::mem::swap(waits, then);
}

// Runs the tasks that wait.
fn run_all(
    design: &Design,
    plan: &Plan,
    rows: &[Rows],
    waits: &Agenda,
    env: &[Int],
    nums: &mut Vec<Int>,
    next: &mut [Int],
)
    requires plan { IsPlan design.now (length nums.old.items) plan.now }
    requires rows { AreRowsOf design.now rows.now }
    requires signals { length env.now ≡ length design.now.pool.signals }
    requires fits { FitsSignals design.now.pool env.now }
    requires numbers { AreFitting design.now.pool nums.old.items }
    requires next { length next.old ≡ length design.now.pool.signals }
    requires next_fits { FitsSignals design.now.pool next.old }
    requires waits { length waits.now.marks ≡ plan.now.jobs }
    ensures ran { (st : State) (j s : ℕ) → st.rows ≡ rows.now → slice_index_or waits.now.marks j false ≡ true → is_among (outs_at plan.now j) s ≡ true → at next.new s ≡ at (delta design.now st env.now) s }
    ensures count { length nums.new.items ≡ length nums.old.items }
    ensures numbers { AreFitting design.now.pool nums.new.items }
    ensures next { length next.new ≡ length design.now.pool.signals }
    ensures next_fits { FitsSignals design.now.pool next.new }
{
    let _ = design.count();
    let _ = design.processes();
    for i in 0..waits.len() {
        run(design, plan, waits.get(i), env, rows, nums, next);
    }
}

// The signals of the tasks that wait take what they came to.
fn take_all(
    plan: &Plan,
    waits: &Agenda,
    next: &[Int],
    env: &mut Vec<Int>,
    then: &mut Agenda,
    woken: &mut Agenda,
    moved: &mut Agenda,
)
    requires tasks { IsTable (length env.old.items) (length then.old.marks) plan.now.readers }
    requires processes { IsTable (length env.old.items) (length woken.old.marks) plan.now.processes }
    requires moved { length moved.old.marks ≡ length env.old.items }
    requires waits { length waits.now.marks ≡ plan.now.jobs }
    requires jobs { plan.now.jobs ≡ length plan.now.tasks + length plan.now.reads }
    requires below { (j : ℕ) → AllByRecursion (λ s. s < length env.old.items) (outs_at plan.now j) }
    requires long { length next.now ≡ length env.old.items }
    ensures count { length env.new.items ≡ length env.old.items }
    ensures kept { (s : ℕ) → IsUntouched plan.now waits.now.marks s → at env.new.items s ≡ at env.old.items s }
    ensures taken { (j s : ℕ) → slice_index_or waits.now.marks j false ≡ true → is_among (outs_at plan.now j) s ≡ true → at env.new.items s ≡ at next.now s }
    ensures waits { Wakes plan.now.readers env.old.items env.new.items then.old.marks then.new.marks }
    ensures woken { Wakes plan.now.processes env.old.items env.new.items woken.old.marks woken.new.marks }
    ensures moved { Notes env.old.items env.new.items moved.old.marks moved.new.marks }
{
    for i in 0..waits.len() {
        take(plan, plan.outs(waits.get(i)), next, env, then, woken, moved);
    }
}
