// Assignments: the value, and then the targets from the left.
ghost use Rattle.std.specs.Prelude.{◌≡◌, ◌<◌, ◌≤◌, ◌+◌, map, true, MatchOption, OnOk};
ghost use Rattle.py_tree.specs.Seen.{tree};
ghost use Rattle.py_tree.specs.Programs.{step_of};
ghost use Rattle.py_tree.specs.Tree.{Name as Named, none, some, trees};
ghost use Rattle.py_tree.specs.Steps.{Assign};
ghost use Rattle.py_frames.specs.Doing.{on_next};
ghost use Rattle.py_frames.specs.Parts.{trees_from};
ghost use Rattle.py_frames.specs.Expressions.{value_of};
ghost use Rattle.py_frames.specs.Statements.{assigned, purpose_of};
ghost use Rattle.py_frames.specs.Stmt_begun.{run_after, is_assign};
ghost use Rattle.py_frames.specs.Stmt_frames.{targets_of_step};
ghost use Rattle.py_frames.specs.Frames.{GoesOn, KeepsRoom, within};

use py_frames::frame::{Frame, Now, Purpose, StmtFrame};
use py_frames::functions::Functions;
use py_frames::going::Going;
use py_frames::leaf::copied;
use py_frames::state::{Got, Halt};
use py_frames::stmt_purpose::purpose_of;
use py_heap::Frozen;
use py_tree::{Expr, ExprKind, Name, Stmt, StmtKind};
use py_turns::at_once::at_once;
use py_turns::binds::name_bound;
use py_turns::block::leaves;
use py_turns::stmt_plain::comes;
use py_values::Val;
use py_walks::target_turns::assign_under;

// The target of this number, and none past the last.
#[tactic(auto, using(crate::proofs::AssignLaws::target_rules))]
fn target_at(targets: &Vec<Expr>, n: u64) -> Option<&Expr>
    ensures { MatchOption result (trees_from n (trees (map tree targets.now.items)) ≡ none) (λ t. (trees_from n (trees (map tree targets.now.items)) ≡ some (tree t.now) (trees_from (n + 1) (trees (map tree targets.now.items)))) × (n < 18446744073709551615)) }
{
    if n >= targets.len() as u64 {
        return None;
    }
    Some(&targets[n as usize])
}

// The name that a target is.
fn name_in(target: &Expr) -> Option<&Name>
    ensures { MatchOption result (Unit {0}) (λ name. tree target.now ≡ Named target.now.place name.now) }
{
    match &*target.kind {
        ExprKind::Name(name) => Some(name),
        _ => None,
    }
}

// The name of a target, where it is one and no target stands behind it.
fn last_name<'a>(targets: &Vec<Expr>, target: &'a Expr, next: u64) -> Option<&'a Name>
    ensures { MatchOption result (Unit {0}) (λ name. (tree target.now ≡ Named target.now.place name.now) × (trees_from next (trees (map tree targets.now.items)) ≡ none)) }
{
    if (targets.len() as u64) > next {
        return None;
    }
    match name_in(target) {
        Some(name) => Some(name),
        None => None,
    }
}

// Whether a statement is an assignment.
fn is_assign(s: &Stmt) -> bool
    ensures { result ≡ is_assign (step_of s.now) }
{
    match &*s.kind {
        StmtKind::Assign(_, _) => true,
        _ => false,
    }
}

/// Begins a part of a node for a purpose; a frame waits for its value.
#[tactic(auto, using(crate::proofs::AssignLaws::waits_rules))]
pub fn wait_as(
    going: &mut Going,
    functions: &Functions,
    frozen: &Frozen,
    part: &Expr,
    purpose: Purpose,
    frame: Frame,
    budget: u64,
) -> Result<Now, Halt>
    requires { KeepsRoom frame going.old.state.here.room }
    ensures moves { GoesOn functions.now frozen.now result going.old going.new budget (within frame (λ k. value_of k purpose (tree part.now))) }
    ensures state { going.new.state ≡ going.old.state }
{
    let Ok(part) = part.share() else {
        return Err(Halt::NoMemory);
    };
    match going.frames.push(frame) {
        Ok(()) => Ok(Now::Begin(part, purpose)),
        Err(_) => Err(Halt::NoMemory),
    }
}

// An assignment: its value, which is for its first target; where it is there at once, no frame waits for it.
#[tactic(auto, using(crate::proofs::AssignLaws::begin_rules))]
pub fn begun_assign(
    going: &mut Going,
    functions: &Functions,
    frozen: &Frozen,
    s: &Stmt,
    targets: &Vec<Expr>,
    e: &Expr,
    budget: u64,
) -> Result<Now, Halt>
    requires lives { going.old.state.used < budget }
    requires kind { step_of s.now ≡ Assign s.now.place (trees (map tree targets.now.items)) (tree e.now) }
    ensures moves { GoesOn functions.now frozen.now result going.old going.new budget (λ k. run_after k (step_of s.now)) }
    ensures left { OnOk result (going.new.state.used < budget) }
    ensures grows { going.old.state.used ≤ going.new.state.used }
{
    if let Some(found) = at_once(going, frozen, e, budget) {
        going.state.used += found.cost;
        return assign_from(
            going, functions, frozen, s, targets, e, 0, found.val, budget,
        );
    }
    let Ok(stmt) = s.share() else {
        return Err(Halt::NoMemory);
    };
    let Ok(purpose) = purpose_of(targets) else {
        return Err(Halt::NoMemory);
    };
    wait_as(
        going,
        functions,
        frozen,
        e,
        purpose,
        Frame::Stmt(StmtFrame::Assigned { stmt }),
        budget,
    )
}

// The targets from this number on, each with the same value; where the last is a name, no frame waits for it.
#[tactic(auto, using(crate::proofs::AssignLaws::from_rules))]
fn assign_from(
    going: &mut Going,
    functions: &Functions,
    frozen: &Frozen,
    s: &Stmt,
    targets: &Vec<Expr>,
    _e: &Expr,
    n: u64,
    v: Val,
    budget: u64,
) -> Result<Now, Halt>
    requires lives { going.old.state.used < budget }
    requires kind { step_of s.now ≡ Assign s.now.place (trees (map tree targets.now.items)) (tree _e.now) }
    ensures moves { GoesOn functions.now frozen.now result going.old going.new budget (λ k. assigned k (trees_from n (targets_of_step (step_of s.now))) v) }
    ensures left { OnOk result (going.new.state.used < budget) }
    ensures grows { going.old.state.used ≤ going.new.state.used }
{
    let Some(target) = target_at(targets, n) else {
        return comes(going, functions, frozen, Got::Next, budget);
    };
    let next = n + 1;
    if let Some(name) = last_name(targets, target, next) {
        let place = target.place;
        return name_bound(going, functions, frozen, name.as_str(), v, place, budget);
    }
    let Ok(stmt) = s.share() else {
        return Err(Halt::NoMemory);
    };
    let val = copied(&v);
    assign_under(
        going,
        functions,
        frozen,
        target,
        v,
        Frame::Stmt(StmtFrame::Assigning { stmt, next, val }),
        budget,
    )
}

/// The value of an assignment has come.
#[tactic(auto)]
pub fn assign_came(
    going: &mut Going,
    functions: &Functions,
    frozen: &Frozen,
    s: &Stmt,
    v: Val,
    budget: u64,
) -> Result<Now, Halt>
    requires { going.old.state.used < budget }
    ensures moves { GoesOn functions.now frozen.now result going.old going.new budget (λ k. assigned k (targets_of_step (step_of s.now)) v) }
    ensures left { OnOk result (going.new.state.used < budget) }
    ensures grows { going.old.state.used ≤ going.new.state.used }
{
    match &*s.kind {
        StmtKind::Assign(targets, e) => {
            assign_from(going, functions, frozen, s, targets, e, 0, v, budget)
        }
        _ => comes(going, functions, frozen, Got::Next, budget),
    }
}

/// A value went to the target before this one.
#[tactic(auto, using(crate::proofs::AssignLaws::left_rules))]
pub fn assigning_left(
    going: &mut Going,
    functions: &Functions,
    frozen: &Frozen,
    s: &Stmt,
    n: u64,
    v: Val,
    got: Got,
    budget: u64,
) -> Result<Now, Halt>
    requires { going.old.state.used < budget }
    ensures moves { GoesOn functions.now frozen.now result going.old going.new budget (λ k. on_next got (assigned k (trees_from n (targets_of_step (step_of s.now))) v)) }
    ensures left { OnOk result (going.new.state.used < budget) }
    ensures grows { going.old.state.used ≤ going.new.state.used }
{
    if leaves(&got) {
        return comes(going, functions, frozen, got, budget);
    }
    assigning_on(going, functions, frozen, s, n, v, budget)
}

#[tactic(auto, using(crate::proofs::AssignLaws::on_rules))]
fn assigning_on(
    going: &mut Going,
    functions: &Functions,
    frozen: &Frozen,
    s: &Stmt,
    n: u64,
    v: Val,
    budget: u64,
) -> Result<Now, Halt>
    requires { going.old.state.used < budget }
    ensures moves { GoesOn functions.now frozen.now result going.old going.new budget (λ k. assigned k (trees_from n (targets_of_step (step_of s.now))) v) }
    ensures left { OnOk result (going.new.state.used < budget) }
    ensures grows { going.old.state.used ≤ going.new.state.used }
{
    if is_assign(s) {
        return assigning_next(going, functions, frozen, s, n, v, budget);
    }
    comes(going, functions, frozen, Got::Next, budget)
}

// The same of an assignment.
#[tactic(auto, using(py_frames::proofs::BeginLaws::no_memory))]
fn assigning_next(
    going: &mut Going,
    functions: &Functions,
    frozen: &Frozen,
    s: &Stmt,
    n: u64,
    v: Val,
    budget: u64,
) -> Result<Now, Halt>
    requires lives { going.old.state.used < budget }
    requires kind { is_assign (step_of s.now) ≡ true }
    ensures moves { GoesOn functions.now frozen.now result going.old going.new budget (λ k. assigned k (trees_from n (targets_of_step (step_of s.now))) v) }
    ensures left { OnOk result (going.new.state.used < budget) }
    ensures grows { going.old.state.used ≤ going.new.state.used }
{
    match &*s.kind {
        StmtKind::Assign(targets, e) => {
            assign_from(going, functions, frozen, s, targets, e, n, v, budget)
        }
        _ => Err(Halt::NoMemory),
    }
}
