// `if`: its branches one after the other.
ghost use Rattle.std.specs.Prelude.{◌≡◌, ◌<◌, ◌≤◌, ◌+◌, map, option_map, true, MatchOption, OnOk};
ghost use Rattle.py_tree.specs.Seen.{tree};
ghost use Rattle.py_tree.specs.Programs.{step_of, steps_of, branch_of};
ghost use Rattle.py_tree.specs.Steps.{If, no_branch, branch, branches, else_of};
ghost use Rattle.py_frames.specs.Parts.{branches_from, place_of};
ghost use Rattle.py_frames.specs.Statements.{run_branches};
ghost use Rattle.py_frames.specs.Stmt_begun.{is_if};
ghost use Rattle.py_frames.specs.Stmt_frames.{branch_came, branches_of, other_of};
ghost use Rattle.py_frames.specs.Frames.{GoesOn};

use py_frames::frame::{Frame, Now, StmtFrame};
use py_frames::functions::Functions;
use py_frames::going::Going;
use py_frames::leaf::place_of;
use py_frames::request::Cause;
use py_frames::state::{Got, Halt};
use py_heap::Frozen;
use py_operators::truth;
use py_tree::{Block, Branch, Expr, Stmt, StmtKind};
use py_turns::at_once::wait_or_come;
use py_turns::block::run_block;
use py_turns::stmt_plain::{comes, stops};
use py_values::Val;

// The branch of this number, and none past the last.
#[tactic(auto, using(py_turns::proofs::IfLaws::branch_rules))]
fn branch_at(tests: &Vec<Branch>, n: u64) -> Option<&Branch>
    ensures { MatchOption result (branches_from n (branches (map branch_of tests.now.items)) ≡ no_branch) (λ b. (branches_from n (branches (map branch_of tests.now.items)) ≡ branch (branch_of b.now).0 (branch_of b.now).1 (branches_from (n + 1) (branches (map branch_of tests.now.items)))) × (n < 18446744073709551615)) }
{
    if n >= tests.len() as u64 {
        return None;
    }
    Some(&tests[n as usize])
}

// The test of a branch.
fn branch_test(b: &Branch) -> &Expr
    ensures { tree result.now ≡ (branch_of b.now).0 }
{
    &b.test
}

// Whether a statement is an `if`.
fn is_if(s: &Stmt) -> bool
    ensures { result ≡ is_if (step_of s.now) }
{
    match &*s.kind {
        StmtKind::If(_, _) => true,
        _ => false,
    }
}

// What is carried out where it holds.
fn branch_body(b: &Branch) -> &Block
    ensures { steps_of result.now ≡ (branch_of b.now).1 }
{
    &b.body
}

/// The branches from this number on: the test of the first of them, or what else there is.
#[tactic(auto, using(py_turns::proofs::IfLaws::if_rules))]
pub fn branch_turn(
    going: &mut Going,
    functions: &Functions,
    frozen: &Frozen,
    s: &Stmt,
    tests: &Vec<Branch>,
    other: &Option<Block>,
    n: u64,
    budget: u64,
) -> Result<Now, Halt>
    requires lives { going.old.state.used < budget }
    requires kind { step_of s.now ≡ If s.now.place (branches (map branch_of tests.now.items)) (else_of (option_map steps_of other.now)) }
    ensures moves { GoesOn functions.now frozen.now result going.old going.new budget (λ k. run_branches k (branches_from n (branches_of (step_of s.now))) (other_of k (step_of s.now))) }
    ensures left { OnOk result (going.new.state.used < budget) }
    ensures grows { going.old.state.used ≤ going.new.state.used }
{
    if let Some(branch) = branch_at(tests, n) {
        let Ok(stmt) = s.share() else {
            return Err(Halt::NoMemory);
        };
        return wait_or_come(
            going,
            functions,
            frozen,
            branch_test(branch),
            Frame::Stmt(StmtFrame::Branch { stmt, at: n }),
            budget,
        );
    }
    match other {
        Some(b) => run_block(going, functions, frozen, b, budget),
        None => comes(going, functions, frozen, Got::Next, budget),
    }
}

/// The test of a branch has come.
#[tactic(auto, using(py_turns::proofs::IfLaws::came_rules))]
pub fn branch_came(
    going: &mut Going,
    functions: &Functions,
    frozen: &Frozen,
    s: &Stmt,
    n: u64,
    x: Val,
    budget: u64,
) -> Result<Now, Halt>
    requires { going.old.state.used < budget }
    ensures moves { GoesOn functions.now frozen.now result going.old going.new budget (λ k. branch_came k (branches_from n (branches_of (step_of s.now))) (other_of k (step_of s.now)) x) }
    ensures left { OnOk result (going.new.state.used < budget) }
    ensures grows { going.old.state.used ≤ going.new.state.used }
{
    if is_if(s) {
        return branch_on(going, functions, frozen, s, n, x, budget);
    }
    comes(going, functions, frozen, Got::Next, budget)
}

// The same of an `if`.
#[tactic(auto, using(py_frames::proofs::BeginLaws::no_memory))]
fn branch_on(
    going: &mut Going,
    functions: &Functions,
    frozen: &Frozen,
    s: &Stmt,
    n: u64,
    x: Val,
    budget: u64,
) -> Result<Now, Halt>
    requires lives { going.old.state.used < budget }
    requires kind { is_if (step_of s.now) ≡ true }
    ensures moves { GoesOn functions.now frozen.now result going.old going.new budget (λ k. branch_came k (branches_from n (branches_of (step_of s.now))) (other_of k (step_of s.now)) x) }
    ensures left { OnOk result (going.new.state.used < budget) }
    ensures grows { going.old.state.used ≤ going.new.state.used }
{
    match &*s.kind {
        StmtKind::If(tests, other) => {
            branch_tested(going, functions, frozen, s, tests, other, n, x, budget)
        }
        _ => Err(Halt::NoMemory),
    }
}

#[tactic(auto, using(py_turns::proofs::IfLaws::tested_rules))]
fn branch_tested(
    going: &mut Going,
    functions: &Functions,
    frozen: &Frozen,
    s: &Stmt,
    tests: &Vec<Branch>,
    other: &Option<Block>,
    n: u64,
    x: Val,
    budget: u64,
) -> Result<Now, Halt>
    requires lives { going.old.state.used < budget }
    requires kind { step_of s.now ≡ If s.now.place (branches (map branch_of tests.now.items)) (else_of (option_map steps_of other.now)) }
    ensures moves { GoesOn functions.now frozen.now result going.old going.new budget (λ k. branch_came k (branches_from n (branches_of (step_of s.now))) (other_of k (step_of s.now)) x) }
    ensures left { OnOk result (going.new.state.used < budget) }
    ensures grows { going.old.state.used ≤ going.new.state.used }
{
    let Some(branch) = branch_at(tests, n) else {
        return branch_turn(going, functions, frozen, s, tests, other, n, budget);
    };
    match truth(&going.state.heap, frozen, x) {
        Some(holds) => {
            if holds {
                return run_block(going, functions, frozen, branch_body(branch), budget);
            }
            branch_turn(going, functions, frozen, s, tests, other, n + 1, budget)
        }
        None => stops(
            going,
            functions,
            frozen,
            Cause::Raised,
            place_of(branch_test(branch)),
            budget,
        ),
    }
}
