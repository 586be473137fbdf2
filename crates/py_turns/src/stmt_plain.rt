// Statements that evaluate one expression: how they begin.
ghost use Rattle.std.specs.Prelude.{◌≡◌, ◌<◌, ◌≤◌, OnOk, option_map};
ghost use Rattle.py_tree.specs.Seen.{tree};
ghost use Rattle.py_tree.specs.Programs.{step_of};
ghost use Rattle.py_tree.specs.Tree.{perhaps};
ghost use Rattle.py_tree.specs.Steps.{Assert};
ghost use Rattle.py_frames.specs.declared.request.Cause.TheVariants as cause;
ghost use Rattle.py_frames.specs.Doing.{came, stop};
ghost use Rattle.py_frames.specs.Statements.{asserted};
ghost use Rattle.py_frames.specs.Stmt_frames.{asserts};
ghost use Rattle.py_frames.specs.Stmt_begun.{return_value, run_after};
ghost use Rattle.py_frames.specs.Frames.{GoesOn, within};
ghost use Rattle.py_frames.specs.declared.frame.Frame.TheVariants as frame;
ghost use Rattle.py_frames.specs.declared.frame.StmtFrame.TheVariants as stmt;
ghost use Rattle.py_frames.specs.declared.frame.Purpose.TheVariants.{Plain};
ghost use Rattle.py_frames.specs.Expressions.{value_of};

use crate::at_once::at_once;
use amh_host::Place;
use py_frames::frame::{Frame, Now, StmtFrame};
use py_frames::functions::Functions;
use py_frames::going::{Going, stopped, wait_for};
use py_frames::leaf::place_of;
use py_frames::request::Cause;
use py_frames::state::{Got, Halt};
use py_heap::Frozen;
use py_operators::truth;
use py_tree::{Expr, Stmt, StmtKind};
use py_values::Val;

/// What has come at once.
#[tactic(auto, using(py_frames::proofs::StmtLaws::came_goes))]
pub fn comes(
    going: &Going,
    _functions: &Functions,
    _frozen: &Frozen,
    got: Got,
    _budget: u64,
) -> Result<Now, Halt>
    ensures { GoesOn _functions.now _frozen.now result going.now going.now _budget (λ k. came got) }
{
    Ok(Now::Came(got))
}

/// What stops.
#[tactic(auto, using(py_frames::proofs::BeginLaws::stop_goes))]
pub fn stops(
    going: &Going,
    _functions: &Functions,
    _frozen: &Frozen,
    cause: Cause,
    place: Place,
    _budget: u64,
) -> Result<Now, Halt>
    ensures { GoesOn _functions.now _frozen.now result going.now going.now _budget (λ k. stop cause place) }
{
    Err(stopped(cause, place))
}

// `return`, with a value or without one.
#[tactic(auto, using(crate::proofs::StmtBegins::return_rules))]
pub fn begun_return(
    going: &mut Going,
    functions: &Functions,
    frozen: &Frozen,
    value: &Option<Expr>,
    budget: u64,
) -> Result<Now, Halt>
    requires { going.old.state.used < budget }
    ensures moves { GoesOn functions.now frozen.now result going.old going.new budget (λ k. return_value k (perhaps (option_map tree value.now))) }
    ensures left { OnOk result (going.new.state.used < budget) }
    ensures grows { going.old.state.used ≤ going.new.state.used }
{
    match value {
        Some(e) => returned(going, functions, frozen, e, budget),
        None => comes(going, functions, frozen, Got::Returned(Val::None), budget),
    }
}

// The value of a `return` begins; where it is there at once, no frame waits for it.
fn returned(
    going: &mut Going,
    functions: &Functions,
    frozen: &Frozen,
    e: &Expr,
    budget: u64,
) -> Result<Now, Halt>
    requires { going.old.state.used < budget }
    ensures moves { GoesOn functions.now frozen.now result going.old going.new budget (within (frame.Stmt stmt.Return) (λ k. value_of k Plain (tree e.now))) }
    ensures left { OnOk result (going.new.state.used < budget) }
    ensures grows { going.old.state.used ≤ going.new.state.used }
{
    let Some(found) = at_once(going, frozen, e, budget) else {
        let waits = Frame::Stmt(StmtFrame::Return);
        return wait_for(going, functions, frozen, e, waits, budget);
    };
    going.state.used += found.cost;
    comes(going, functions, frozen, Got::Returned(found.val), budget)
}

// `assert`: its test.
#[tactic(auto, using(crate::proofs::StmtBegins::plain_rules, py_frames::proofs::StmtLaws::stmt_rules))]
pub fn begun_assert(
    going: &mut Going,
    functions: &Functions,
    frozen: &Frozen,
    s: &Stmt,
    test: &Expr,
    _message: &Option<Expr>,
    budget: u64,
) -> Result<Now, Halt>
    requires { step_of s.now ≡ Assert s.now.place (tree test.now) (perhaps (option_map tree _message.now)) }
    ensures moves { GoesOn functions.now frozen.now result going.old going.new budget (λ k. run_after k (step_of s.now)) }
    ensures state { going.new.state ≡ going.old.state }
{
    let Ok(stmt) = s.share() else {
        return Err(Halt::NoMemory);
    };
    wait_for(
        going,
        functions,
        frozen,
        test,
        Frame::Stmt(StmtFrame::Asserted { stmt }),
        budget,
    )
}

/// The test of an assertion has come.
#[tactic(auto)]
pub fn assert_came(
    going: &mut Going,
    functions: &Functions,
    frozen: &Frozen,
    s: &Stmt,
    x: Val,
    budget: u64,
) -> Result<Now, Halt>
    ensures moves { GoesOn functions.now frozen.now result going.old going.new budget (λ k. asserts k (step_of s.now) x) }
    ensures state { going.new.state ≡ going.old.state }
{
    match &*s.kind {
        StmtKind::Assert(test, message) => {
            assert_tested(going, functions, frozen, s, test, message, x, budget)
        }
        _ => comes(going, functions, frozen, Got::Next, budget),
    }
}

#[tactic(auto, using(crate::proofs::AssertLaws::assert_rules))]
fn assert_tested(
    going: &mut Going,
    functions: &Functions,
    frozen: &Frozen,
    s: &Stmt,
    test: &Expr,
    message: &Option<Expr>,
    x: Val,
    budget: u64,
) -> Result<Now, Halt>
    requires { step_of s.now ≡ Assert s.now.place (tree test.now) (perhaps (option_map tree message.now)) }
    ensures moves { GoesOn functions.now frozen.now result going.old going.new budget (λ k. asserts k (step_of s.now) x) }
    ensures state { going.new.state ≡ going.old.state }
{
    match truth(&going.state.heap, frozen, x) {
        Some(holds) => {
            if holds {
                return comes(going, functions, frozen, Got::Next, budget);
            }
            assert_fails(going, functions, frozen, s.place, message, budget)
        }
        None => stops(
            going,
            functions,
            frozen,
            Cause::Raised,
            place_of(test),
            budget,
        ),
    }
}

// An assertion that does not hold evaluates its message.
#[tactic(auto, using(crate::proofs::AssertLaws::fails_rules))]
fn assert_fails(
    going: &mut Going,
    functions: &Functions,
    frozen: &Frozen,
    place: Place,
    message: &Option<Expr>,
    budget: u64,
) -> Result<Now, Halt>
    ensures moves { GoesOn functions.now frozen.now result going.old going.new budget (λ k. asserted k place (perhaps (option_map tree message.now))) }
    ensures state { going.new.state ≡ going.old.state }
{
    match message {
        Some(e) => wait_for(
            going,
            functions,
            frozen,
            e,
            Frame::Stmt(StmtFrame::Message { place }),
            budget,
        ),
        None => stops(going, functions, frozen, Cause::Assert, place, budget),
    }
}
