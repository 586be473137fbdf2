// `for`: what it goes over, and then its turns.
ghost use Rattle.std.specs.Prelude.{◌≡◌, ◌<◌, ◌≤◌, OnOk};
ghost use Rattle.py_tree.specs.Seen.{tree};
ghost use Rattle.py_tree.specs.Programs.{step_of, steps_of};
ghost use Rattle.py_tree.specs.Steps.{For};
ghost use Rattle.py_tree.specs.Tree.{Name as Named};
ghost use Rattle.py_frames.specs.declared.frame.Frame.TheVariants as frame;
ghost use Rattle.py_frames.specs.declared.frame.StmtFrame.TheVariants as waits;
ghost use Rattle.py_frames.specs.Doing.{on_next};
ghost use Rattle.py_frames.specs.Expressions.{assign};
ghost use Rattle.py_frames.specs.Statements.{run_all, for_turns, for_loop, turn_on};
ghost use Rattle.py_frames.specs.Stmt_frames.{for_source, for_row, for_walks, for_bound};
ghost use Rattle.py_walks.specs.Walk_parts.{for_turn};
ghost use Rattle.py_frames.specs.Frames.{GoesOn, within};

use crate::comprehensions::element_at;
use crate::loops::{for_body_under, for_source, row_size};
use crate::target_turns::assign_under;
use crate::walk_parts::{behind, is_for, is_row};
use py_frames::frame::{Frame, Now, StmtFrame, Walk};
use py_frames::functions::Functions;
use py_frames::going::{Going, MOST, spend, stopped};
use py_frames::request::Cause;
use py_frames::state::{Got, Halt};
use py_heap::Frozen;
use py_tree::{Block, Expr, ExprKind, Name, Stmt, StmtKind};
use py_turns::block::{leaves, loop_left};
use py_turns::expr_values::bind;
use py_values::Val;

/// The source of a `for` has come: a thing gives its elements first.
#[tactic(auto, using(crate::proofs::ForLaws::other_rules))]
pub fn for_source_came(
    going: &mut Going,
    functions: &Functions,
    frozen: &Frozen,
    stmt: &Stmt,
    v: Val,
    budget: u64,
) -> Result<Now, Halt>
    requires { going.old.state.used < budget }
    ensures moves { GoesOn functions.now frozen.now result going.old going.new budget (λ k. for_source k (step_of stmt.now) v) }
    ensures left { OnOk result (going.new.state.used < budget) }
    ensures grows { going.old.state.used ≤ going.new.state.used }
{
    let turns = is_for(stmt);
    if turns {
        return match &*stmt.kind {
            StmtKind::For {
                targets,
                source,
                body,
            } => for_source(
                going, functions, frozen, stmt, targets, source, body, v, budget,
            ),
            _ => Err(Halt::NoMemory),
        };
    }
    Ok(Now::Came(Got::Next))
}

/// What a `for` goes over has come.
#[tactic(auto, using(crate::proofs::ForLaws::other_rules))]
pub fn for_row_came(
    going: &mut Going,
    functions: &Functions,
    frozen: &Frozen,
    stmt: &Stmt,
    row: Val,
    budget: u64,
) -> Result<Now, Halt>
    requires { going.old.state.used < budget }
    ensures moves { GoesOn functions.now frozen.now result going.old going.new budget (λ k. for_row k (step_of stmt.now) row) }
    ensures left { OnOk result (going.new.state.used < budget) }
    ensures grows { going.old.state.used ≤ going.new.state.used }
{
    let turns = is_for(stmt);
    if turns {
        return match &*stmt.kind {
            StmtKind::For {
                targets,
                source,
                body,
            } => for_loop(
                going, functions, frozen, stmt, targets, source, body, row, budget,
            ),
            _ => Err(Halt::NoMemory),
        };
    }
    Ok(Now::Came(Got::Next))
}

#[tactic(auto, using(crate::proofs::ForLaws::loop_rules))]
pub fn for_loop(
    going: &mut Going,
    functions: &Functions,
    frozen: &Frozen,
    stmt: &Stmt,
    targets: &Expr,
    source: &Expr,
    body: &Block,
    row: Val,
    budget: u64,
) -> Result<Now, Halt>
    requires lives { going.old.state.used < budget }
    requires kind { step_of stmt.now ≡ For stmt.now.place (tree targets.now) (tree source.now) (steps_of body.now) }
    ensures moves { GoesOn functions.now frozen.now result going.old going.new budget (λ k. for_loop k row (tree targets.now) (run_all k (steps_of body.now)) stmt.now.place) }
    ensures left { OnOk result (going.new.state.used < budget) }
    ensures grows { going.old.state.used ≤ going.new.state.used }
{
    let fits = is_row(&row);
    if fits {
        let size = row_size(going, frozen, &row);
        let walk = Walk {
            over: row,
            next: 0,
            size,
            turns: MOST,
        };
        return for_turns(
            going, functions, frozen, stmt, targets, source, body, &walk, budget,
        );
    }
    Err(stopped(Cause::Raised, stmt.place))
}

// The turns behind those of a walk: the next element, where the dict that is gone over has kept its size.
#[tactic(auto, using(crate::proofs::ForLaws::walk_rules))]
pub fn for_turns(
    going: &mut Going,
    functions: &Functions,
    frozen: &Frozen,
    stmt: &Stmt,
    targets: &Expr,
    source: &Expr,
    body: &Block,
    walk: &Walk,
    budget: u64,
) -> Result<Now, Halt>
    requires lives { going.old.state.used < budget }
    requires kind { step_of stmt.now ≡ For stmt.now.place (tree targets.now) (tree source.now) (steps_of body.now) }
    ensures moves { GoesOn functions.now frozen.now result going.old going.new budget (λ k. for_turns walk.now.turns k walk.now.over walk.now.next walk.now.size (tree targets.now) (run_all k (steps_of body.now)) stmt.now.place) }
    ensures left { OnOk result (going.new.state.used < budget) }
    ensures grows { going.old.state.used ≤ going.new.state.used }
{
    if walk.turns == 0 {
        return Err(stopped(Cause::Spent, stmt.place));
    }
    if row_size(going, frozen, &walk.over) != walk.size {
        return Err(stopped(Cause::Raised, stmt.place));
    }
    match element_at(going, frozen, walk) {
        Some(v) => for_turn(
            going, functions, frozen, stmt, targets, source, body, walk, v, budget,
        ),
        None => Ok(Now::Came(Got::Next)),
    }
}

// A turn spends its unit, and its element goes to the targets.
#[tactic(auto, using(crate::proofs::ForLaws::turn_rules))]
pub fn for_turn(
    going: &mut Going,
    functions: &Functions,
    frozen: &Frozen,
    s: &Stmt,
    targets: &Expr,
    _source: &Expr,
    _body: &Block,
    walk: &Walk,
    v: Val,
    budget: u64,
) -> Result<Now, Halt>
    requires lives { going.old.state.used < budget }
    requires kind { step_of s.now ≡ For s.now.place (tree targets.now) (tree _source.now) (steps_of _body.now) }
    requires turns { 0 < walk.now.turns }
    ensures moves { GoesOn functions.now frozen.now result going.old going.new budget (λ k. for_turn k walk.now (tree targets.now) (run_all k (steps_of _body.now)) s.now.place v) }
    ensures left { OnOk result (going.new.state.used < budget) }
    ensures grows { going.old.state.used ≤ going.new.state.used }
{
    let Ok(walk) = behind(walk) else {
        return Err(Halt::NoMemory);
    };
    let Ok(stmt) = s.share() else {
        return Err(Halt::NoMemory);
    };
    match spend(going, 1, s.place, budget) {
        Ok(()) => element_given(going, functions, frozen, stmt, targets, walk, v, budget),
        Err(halt) => Err(halt),
    }
}

// The element goes to the targets, and then the body runs; where the target is a name alone, no frame waits for that.
fn element_given(
    going: &mut Going,
    functions: &Functions,
    frozen: &Frozen,
    stmt: Stmt,
    targets: &Expr,
    walk: Walk,
    v: Val,
    budget: u64,
) -> Result<Now, Halt>
    requires { going.old.state.used < budget }
    ensures moves { GoesOn functions.now frozen.now result going.old going.new budget (within (frame.Stmt (waits.ForBound stmt walk)) (λ k. assign k (tree targets.now) v)) }
    ensures left { OnOk result (going.new.state.used < budget) }
    ensures grows { going.old.state.used ≤ going.new.state.used }
{
    match &*targets.kind {
        ExprKind::Name(name) => name_given(
            going, functions, frozen, stmt, targets, name, walk, v, budget,
        ),
        _ => {
            let frame = Frame::Stmt(StmtFrame::ForBound { stmt, walk });
            assign_under(going, functions, frozen, targets, v, frame, budget)
        }
    }
}

// The element is bound to a name, and then the body runs.
#[tactic(auto, using(crate::proofs::ForLaws::named_bound, crate::proofs::ForLaws::named_refused))]
fn name_given(
    going: &mut Going,
    functions: &Functions,
    frozen: &Frozen,
    stmt: Stmt,
    target: &Expr,
    name: &Name,
    walk: Walk,
    v: Val,
    budget: u64,
) -> Result<Now, Halt>
    requires lives { going.old.state.used < budget }
    requires kind { tree target.now ≡ Named target.now.place name.now }
    ensures moves { GoesOn functions.now frozen.now result going.old going.new budget (within (frame.Stmt (waits.ForBound stmt walk)) (λ k. assign k (tree target.now) v)) }
    ensures left { OnOk result (going.new.state.used < budget) }
    ensures grows { going.old.state.used ≤ going.new.state.used }
{
    match bind(going, frozen, name.as_str(), v, target.place) {
        Ok(()) => for_body(going, functions, frozen, &stmt, walk, budget),
        Err(halt) => Err(halt),
    }
}

/// An element went to the targets: the body, where nothing else came.
#[tactic(auto, using(crate::proofs::WalkLaws::left_rules))]
pub fn for_bound_left(
    going: &mut Going,
    functions: &Functions,
    frozen: &Frozen,
    stmt: Stmt,
    walk: Walk,
    got: Got,
    budget: u64,
) -> Result<Now, Halt>
    requires { going.old.state.used < budget }
    ensures moves { GoesOn functions.now frozen.now result going.old going.new budget (λ k. on_next got (for_bound k walk (step_of stmt))) }
    ensures left { OnOk result (going.new.state.used < budget) }
    ensures grows { going.old.state.used ≤ going.new.state.used }
{
    let left = leaves(&got);
    if left {
        return Ok(Now::Came(got));
    }
    for_body(going, functions, frozen, &stmt, walk, budget)
}

// The body of a turn.
#[tactic(auto, using(crate::proofs::ForLaws::other_rules))]
pub fn for_body(
    going: &mut Going,
    functions: &Functions,
    frozen: &Frozen,
    s: &Stmt,
    walk: Walk,
    budget: u64,
) -> Result<Now, Halt>
    requires { going.old.state.used < budget }
    ensures moves { GoesOn functions.now frozen.now result going.old going.new budget (λ k. for_bound k walk (step_of s.now)) }
    ensures left { OnOk result (going.new.state.used < budget) }
    ensures grows { going.old.state.used ≤ going.new.state.used }
{
    let turns = is_for(s);
    if turns {
        return match &*s.kind {
            StmtKind::For {
                targets,
                source,
                body,
            } => for_body_under(
                going, functions, frozen, s, targets, source, body, walk, budget,
            ),
            _ => Err(Halt::NoMemory),
        };
    }
    Ok(Now::Came(Got::Next))
}

/// What the body of a turn left: the next turn, or the end.
#[tactic(auto, using(crate::proofs::ForLaws::left_rules))]
pub fn for_left(
    going: &mut Going,
    functions: &Functions,
    frozen: &Frozen,
    stmt: &Stmt,
    walk: Walk,
    got: Got,
    budget: u64,
) -> Result<Now, Halt>
    requires { going.old.state.used < budget }
    ensures moves { GoesOn functions.now frozen.now result going.old going.new budget (λ k. turn_on got (for_walks k walk (step_of stmt.now))) }
    ensures left { OnOk result (going.new.state.used < budget) }
    ensures grows { going.old.state.used ≤ going.new.state.used }
{
    match loop_left(&got) {
        Some(left) => Ok(Now::Came(left)),
        None => for_again(going, functions, frozen, stmt, walk, budget),
    }
}

#[tactic(auto, using(crate::proofs::ForLaws::other_rules))]
pub fn for_again(
    going: &mut Going,
    functions: &Functions,
    frozen: &Frozen,
    stmt: &Stmt,
    walk: Walk,
    budget: u64,
) -> Result<Now, Halt>
    requires { going.old.state.used < budget }
    ensures moves { GoesOn functions.now frozen.now result going.old going.new budget (λ k. for_walks k walk (step_of stmt.now)) }
    ensures left { OnOk result (going.new.state.used < budget) }
    ensures grows { going.old.state.used ≤ going.new.state.used }
{
    let turns = is_for(stmt);
    if turns {
        return match &*stmt.kind {
            StmtKind::For {
                targets,
                source,
                body,
            } => for_turns(
                going, functions, frozen, stmt, targets, source, body, &walk, budget,
            ),
            _ => Err(Halt::NoMemory),
        };
    }
    Ok(Now::Came(Got::Next))
}
