// A run of a task.
ghost use Rattle.std.specs.Prelude.{◌≡◌, ◌<◌, ◌∷◌, [], true, false, ℕ, length, slice_get, slice_set, slice_index_or, Some};
ghost use Rattle.design_ir.specs.declared.ids.SigId.{SigId};
ghost use Rattle.design_ir.specs.declared.process.DesignProcess.{DesignProcess};
ghost use Rattle.design_ir.specs.Circuits.{State, at, is_among};
ghost use Rattle.design_ir.specs.Put.{put};
ghost use Rattle.design_ir.specs.Rows.{row_at};
ghost use Rattle.design_ir.specs.Settled.{delta};
ghost use Rattle.design_ir.proofs.NumbersFit.{FitsSignals};
ghost use Rattle.sim_plans.specs.Driven.{numbers_of};
ghost use Rattle.sim_plans.specs.Plans.{begun, init_at, outs_at, IsCombTask, IsPlan};
ghost use Rattle.delta_sim.specs.Standing.{AreRowsOf};
ghost use Rattle.sim_plans.specs.Tasks.{AreAmong, AreFitting, IsProgram, picked};

use crate::statements::put_task;
use amh_bits::Int;
use design_ir::{Design, Exprs, SigId};
use sim_plans::compute::compute;
use sim_plans::plan::Plan;
use sim_plans::rows::Rows;
use sim_plans::task::{PortTask, Task};
use sim_plans::written::at;

/// Runs a task: what it drives has what a delta leaves there, and nothing else changes.
pub fn run(
    design: &Design,
    plan: &Plan,
    j: usize,
    env: &[Int],
    rows: &[Rows],
    nums: &mut Vec<Int>,
    next: &mut [Int],
)
    requires there { j < plan.now.jobs }
    requires plan { IsPlan design.now (length nums.old.items) plan.now }
    requires rows { AreRowsOf design.now rows.now }
    requires signals { length env.now ≡ length design.now.pool.signals }
    requires fits { FitsSignals design.now.pool env.now }
    requires numbers { AreFitting design.now.pool nums.old.items }
    requires next { length next.old ≡ length design.now.pool.signals }
    requires next_fits { FitsSignals design.now.pool next.old }
    ensures gives { (st : State) (s : ℕ) → st.rows ≡ rows.now → is_among (outs_at plan.now j) s ≡ true → at next.new s ≡ at (delta design.now st env.now) s }
    ensures keeps { (s : ℕ) → is_among (outs_at plan.now j) s ≡ false → at next.new s ≡ at next.old s }
    ensures count { length nums.new.items ≡ length nums.old.items }
    ensures numbers { AreFitting design.now.pool nums.new.items }
    ensures next_count { length next.new ≡ length design.now.pool.signals }
    ensures next_fits { FitsSignals design.now.pool next.new }
{
    let _ = design.count();
    let _ = design.processes();
    let first = plan.tasks.len();
    if j < first {
        run_task(design, plan.tasks.get(j), env, nums, next);
    } else {
        run_port(design, plan.reads.get(j - first), env, rows, nums, next);
    }
}

// Runs a task of a combinational process: what it drives has what its statements leave from the inits on.
fn run_task(design: &Design, task: &Task, env: &[Int], nums: &mut Vec<Int>, next: &mut [Int])
    requires signals { length env.now ≡ length design.now.pool.signals }
    requires fits { FitsSignals design.now.pool env.now }
    requires numbers { AreFitting design.now.pool nums.old.items }
    requires task { IsCombTask design.now (length nums.old.items) task.now }
    requires next { length next.old ≡ length design.now.pool.signals }
    requires next_fits { FitsSignals design.now.pool next.old }
    ensures count { length nums.new.items ≡ length nums.old.items }
    ensures numbers { AreFitting design.now.pool nums.new.items }
    ensures next { (p : DesignProcess) → slice_get design.now.processes task.now.process ≡ Some p → next.new ≡ put design.now.pool env.now (picked p.body task.now.statements) (begun design.now.pool.signals next.old (numbers_of task.now.outs)) }
    ensures next_count { length next.new ≡ length design.now.pool.signals }
    ensures next_fits { FitsSignals design.now.pool next.new }
{
    begin(design, task.outs.as_slice(), next);
    compute(design, task.exprs.as_slice(), env, nums);
    let process = design.processes().get(task.process as usize);
    put_task(design, task, &process.body, env, nums.as_slice(), next);
}

// Runs a combinational read port: its data has the row at its address, and 0 past the depth.
fn run_port(
    design: &Design,
    task: &PortTask,
    env: &[Int],
    rows: &[Rows],
    nums: &mut Vec<Int>,
    next: &mut [Int],
)
    requires signals { length env.now ≡ length design.now.pool.signals }
    requires fits { FitsSignals design.now.pool env.now }
    requires numbers { AreFitting design.now.pool nums.old.items }
    requires program { IsProgram design.now.pool (length nums.old.items) task.now.exprs }
    requires computed { AreAmong task.now.exprs (task.now.addr ∷ []) }
    requires memory { task.now.memory < length rows.now }
    requires outs { length task.now.outs ≡ 1 }
    ensures count { length nums.new.items ≡ length nums.old.items }
    ensures numbers { AreFitting design.now.pool nums.new.items }
    ensures next { (w : SigId) → task.now.outs ≡ w ∷ [] → next.new ≡ slice_set next.old w.0 (row_at design.now.pool env.now (slice_index_or rows.now task.now.memory []) task.now.addr) }
{
    compute(design, task.exprs.as_slice(), env, nums);
    let row = rows[task.memory].at(at(nums.as_slice(), task.addr).size);
    set_number(next, *task.outs.get(0), row);
}

/// Gives a signal a number.
pub fn set_number(numbers: &mut [Int], sig: SigId, value: Int)
    ensures { numbers.new ≡ slice_set numbers.old sig.0 value }
{
    let s = sig.0 as usize;
    if s < numbers.len() {
        numbers[s] = value;
    }
}

// Gives these signals their inits.
fn begin(design: &Design, signals: &[SigId], cur: &mut [Int])
    requires signals { length cur.old ≡ length design.now.pool.signals }
    requires fits { FitsSignals design.now.pool cur.old }
    ensures all { cur.new ≡ begun design.now.pool.signals cur.old (numbers_of signals.now) }
    ensures count { length cur.new ≡ length design.now.pool.signals }
    ensures fits { FitsSignals design.now.pool cur.new }
{
    let _ = design.count();
    for s in signals {
        begin_one(design, *s, cur);
    }
}

// Gives a signal its init.
fn begin_one(design: &Design, s: SigId, cur: &mut [Int])
    requires { length cur.old ≡ length design.now.pool.signals }
    ensures { cur.new ≡ init_at s.0 cur.old (slice_get design.now.pool.signals s.0) }
{
    if s.0 < design.signals() {
        cur[s.0 as usize] = design.sig_at(s).init;
    }
}
