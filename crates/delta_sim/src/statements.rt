// What statements leave.
ghost use Rattle.std.specs.Prelude.{◌≡◌, ◌<◌, true, length};
ghost use Rattle.std.specs.List.{AllByRecursion};
ghost use Rattle.shape_rules.specs.Operators.{is_zero};
ghost use Rattle.design_ir.specs.Circuits.{is_among};
ghost use Rattle.design_ir.specs.Guards.{block_exprs, statement_exprs, choices_exprs};
ghost use Rattle.design_ir.specs.Put.{put, put_statement, put_choices};
ghost use Rattle.design_ir.specs.Statements.{statement_of};
ghost use Rattle.design_ir.specs.Trees.{statements};
ghost use Rattle.design_ir.specs.Values.{num};
ghost use Rattle.design_ir.proofs.NumbersFit.{FitsSignals};
ghost use Rattle.sim_plans.specs.Tasks.{IsRead, AreAmong, AreTargetsOf, statement_targets, choices_targets, block_targets, picked, places_of};

use crate::write::put_target;
use amh_bits::Int;
use design_ir::{Arms, Design, ExprId, Stmt, Stmts};
use sim_plans::task::{Task, statement};

/// Carries out the statements of a task.
pub fn put_task(
    design: &Design,
    task: &Task,
    body: &Stmts,
    env: &[Int],
    nums: &[Int],
    cur: &mut [Int],
)
    requires read { IsRead design.now.pool env.now nums.now task.now.exprs }
    requires inside { AllByRecursion (λ i. i < length (statements body.now)) task.now.statements }
    requires computed { AreAmong task.now.exprs (block_exprs (picked body.now task.now.statements)) }
    requires targets { AreTargetsOf design.now.pool (block_targets (picked body.now task.now.statements)) }
    requires signals { length cur.old ≡ length design.now.pool.signals }
    requires fits { FitsSignals design.now.pool cur.old }
    ensures { cur.new ≡ put design.now.pool env.now (picked body.now task.now.statements) cur.old }
{
    let all = body.as_slice();
    for i in task.statements.as_slice() {
        put_stmt(design, task, env, nums, statement(all, *i), cur);
    }
}

// Carries out statements one after another.
#[cycle(statements)]
fn put_body(design: &Design, task: &Task, env: &[Int], nums: &[Int], body: &Stmts, cur: &mut [Int])
    requires read { IsRead design.now.pool env.now nums.now task.now.exprs }
    requires computed { AreAmong task.now.exprs (block_exprs body.now) }
    requires targets { AreTargetsOf design.now.pool (block_targets body.now) }
    requires signals { length cur.old ≡ length design.now.pool.signals }
    requires fits { FitsSignals design.now.pool cur.old }
    ensures { cur.new ≡ put design.now.pool env.now body.now cur.old }
{
    for s in body.as_slice() {
        put_stmt(design, task, env, nums, s, cur);
    }
}

// Carries out one statement.
#[cycle(statements)]
fn put_stmt(design: &Design, task: &Task, env: &[Int], nums: &[Int], s: &Stmt, cur: &mut [Int])
    requires read { IsRead design.now.pool env.now nums.now task.now.exprs }
    requires computed { AreAmong task.now.exprs (statement_exprs (statement_of s.now)) }
    requires targets { AreTargetsOf design.now.pool (statement_targets (statement_of s.now)) }
    requires signals { length cur.old ≡ length design.now.pool.signals }
    requires fits { FitsSignals design.now.pool cur.old }
    ensures { cur.new ≡ put_statement design.now.pool env.now (statement_of s.now) cur.old }
{
    match s {
        Stmt::Assign { target, value, .. } => {
            let n = number_of(design, task, env, nums, *value);
            put_target(design, task, env, nums, *target, n, cur);
        }
        Stmt::Choose(arms) => put_arms(design, task, env, nums, arms, cur),
    }
}

// Carries out the first arm whose condition is not 0.
#[cycle(statements)]
fn put_arms(design: &Design, task: &Task, env: &[Int], nums: &[Int], arms: &Arms, cur: &mut [Int])
    requires read { IsRead design.now.pool env.now nums.now task.now.exprs }
    requires computed { AreAmong task.now.exprs (choices_exprs arms.now) }
    requires targets { AreTargetsOf design.now.pool (choices_targets arms.now) }
    requires signals { length cur.old ≡ length design.now.pool.signals }
    requires fits { FitsSignals design.now.pool cur.old }
    ensures { cur.new ≡ put_choices design.now.pool env.now arms.now cur.old }
{
    for arm in arms.as_slice() {
        if !is_zero(number_of(design, task, env, nums, arm.condition)) {
            put_body(design, task, env, nums, &arm.body, cur);
            return;
        }
    }
}

// The integer of an expression that was computed.
fn number_of(design: &Design, task: &Task, env: &[Int], nums: &[Int], e: ExprId) -> Int
    requires read { IsRead design.now.pool env.now nums.now task.now.exprs }
    requires among { is_among (places_of task.now.exprs) e.0 ≡ true }
    ensures { result ≡ num design.now.pool env.now e.0 }
{
    let _ = design;
    let _ = task;
    let _ = env;
    nums[e.0 as usize]
}

/// Whether an integer is 0.
pub fn is_zero(n: Int) -> bool
    ensures { result ≡ is_zero n }
{
    n.size == 0
}
