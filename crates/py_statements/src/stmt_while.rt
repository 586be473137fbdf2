// `while`: its turns.
ghost use Rattle.std.specs.Prelude.{◌≡◌, ◌<◌, ◌≤◌, OnOk};
ghost use Rattle.py_tree.specs.Seen.{tree};
ghost use Rattle.py_tree.specs.Programs.{step_of, steps_of};
ghost use Rattle.py_tree.specs.Steps.{While};
ghost use Rattle.py_frames.specs.Statements.{run_all, while_turns};
ghost use Rattle.py_frames.specs.Stmt_begun.{while_body, loop_left};
ghost use Rattle.py_frames.specs.Stmt_frames.{while_tested, while_left};
ghost use Rattle.py_frames.specs.Frames.{GoesOn};

use py_frames::frame::{Frame, Now, StmtFrame};
use py_frames::functions::Functions;
use py_frames::going::{Going, spend};
use py_frames::leaf::place_of;
use py_frames::request::Cause;
use py_frames::state::{Got, Halt};
use py_heap::Frozen;
use py_operators::truth;
use py_tree::{Block, Expr, Stmt, StmtKind};
use py_turns::at_once::wait_or_come;
use py_turns::block::{block_under, loop_left};
use py_turns::stmt_plain::{comes, stops};
use py_values::Val;

/// So many turns: the test of the first of them.
#[tactic(auto, using(crate::proofs::WhileLaws::turn_rules))]
pub fn while_turn(
    going: &mut Going,
    functions: &Functions,
    frozen: &Frozen,
    s: &Stmt,
    test: &Expr,
    _body: &Block,
    n: u64,
    budget: u64,
) -> Result<Now, Halt>
    requires lives { going.old.state.used < budget }
    requires kind { step_of s.now ≡ While s.now.place (tree test.now) (steps_of _body.now) }
    ensures moves { GoesOn functions.now frozen.now result going.old going.new budget (λ k. while_turns n k (tree test.now) (run_all k (steps_of _body.now)) s.now.place) }
    ensures left { OnOk result (going.new.state.used < budget) }
    ensures grows { going.old.state.used ≤ going.new.state.used }
{
    if n > 0 {
        let Ok(stmt) = s.share() else {
            return Err(Halt::NoMemory);
        };
        let turns = n - 1;
        return wait_or_come(
            going,
            functions,
            frozen,
            test,
            Frame::Stmt(StmtFrame::WhileTest { stmt, turns }),
            budget,
        );
    }
    stops(going, functions, frozen, Cause::Spent, s.place, budget)
}

/// The test of a turn has come.
#[tactic(auto)]
pub fn while_came(
    going: &mut Going,
    functions: &Functions,
    frozen: &Frozen,
    s: &Stmt,
    n: u64,
    x: Val,
    budget: u64,
) -> Result<Now, Halt>
    requires { going.old.state.used < budget }
    ensures moves { GoesOn functions.now frozen.now result going.old going.new budget (λ k. while_tested k n (step_of s.now) x) }
    ensures left { OnOk result (going.new.state.used < budget) }
    ensures grows { going.old.state.used ≤ going.new.state.used }
{
    match &*s.kind {
        StmtKind::While(test, body) => {
            while_tested(going, functions, frozen, s, test, body, n, x, budget)
        }
        _ => comes(going, functions, frozen, Got::Next, budget),
    }
}

#[tactic(auto, using(crate::proofs::WhileLaws::tested_rules))]
fn while_tested(
    going: &mut Going,
    functions: &Functions,
    frozen: &Frozen,
    s: &Stmt,
    test: &Expr,
    body: &Block,
    n: u64,
    x: Val,
    budget: u64,
) -> Result<Now, Halt>
    requires lives { going.old.state.used < budget }
    requires kind { step_of s.now ≡ While s.now.place (tree test.now) (steps_of body.now) }
    ensures moves { GoesOn functions.now frozen.now result going.old going.new budget (λ k. while_tested k n (step_of s.now) x) }
    ensures left { OnOk result (going.new.state.used < budget) }
    ensures grows { going.old.state.used ≤ going.new.state.used }
{
    match truth(&going.state.heap, frozen, x) {
        Some(holds) => {
            if holds {
                return while_body(going, functions, frozen, s, test, body, n, budget);
            }
            comes(going, functions, frozen, Got::Next, budget)
        }
        None => stops(
            going,
            functions,
            frozen,
            Cause::Raised,
            place_of(test),
            budget,
        ),
    }
}

// A turn: its unit, and then the body.
#[tactic(auto, using(crate::proofs::WhileLaws::body_rules))]
fn while_body(
    going: &mut Going,
    functions: &Functions,
    frozen: &Frozen,
    s: &Stmt,
    _test: &Expr,
    body: &Block,
    n: u64,
    budget: u64,
) -> Result<Now, Halt>
    requires lives { going.old.state.used < budget }
    requires kind { step_of s.now ≡ While s.now.place (tree _test.now) (steps_of body.now) }
    ensures moves { GoesOn functions.now frozen.now result going.old going.new budget (λ k. while_body k n (step_of s.now)) }
    ensures left { OnOk result (going.new.state.used < budget) }
    ensures grows { going.old.state.used ≤ going.new.state.used }
{
    let Ok(stmt) = s.share() else {
        return Err(Halt::NoMemory);
    };
    match spend(going, 1, s.place, budget) {
        Ok(()) => block_under(
            going,
            functions,
            frozen,
            body,
            Frame::Stmt(StmtFrame::WhileBody { stmt, turns: n }),
            budget,
        ),
        Err(halt) => Err(halt),
    }
}

/// What the body of a turn left.
#[tactic(auto)]
pub fn while_left(
    going: &mut Going,
    functions: &Functions,
    frozen: &Frozen,
    s: &Stmt,
    n: u64,
    got: Got,
    budget: u64,
) -> Result<Now, Halt>
    requires { going.old.state.used < budget }
    ensures moves { GoesOn functions.now frozen.now result going.old going.new budget (λ k. while_left k n (step_of s.now) got) }
    ensures left { OnOk result (going.new.state.used < budget) }
    ensures grows { going.old.state.used ≤ going.new.state.used }
{
    match &*s.kind {
        StmtKind::While(test, body) => {
            while_again(going, functions, frozen, s, test, body, n, got, budget)
        }
        _ => comes(going, functions, frozen, Got::Next, budget),
    }
}

#[tactic(auto, using(crate::proofs::WhileLaws::again_rules))]
fn while_again(
    going: &mut Going,
    functions: &Functions,
    frozen: &Frozen,
    s: &Stmt,
    test: &Expr,
    body: &Block,
    n: u64,
    got: Got,
    budget: u64,
) -> Result<Now, Halt>
    requires lives { going.old.state.used < budget }
    requires kind { step_of s.now ≡ While s.now.place (tree test.now) (steps_of body.now) }
    ensures moves { GoesOn functions.now frozen.now result going.old going.new budget (λ k. while_left k n (step_of s.now) got) }
    ensures left { OnOk result (going.new.state.used < budget) }
    ensures grows { going.old.state.used ≤ going.new.state.used }
{
    match loop_left(&got) {
        Some(left) => comes(going, functions, frozen, left, budget),
        None => while_turn(going, functions, frozen, s, test, body, n, budget),
    }
}
