// Augmented assignments, where they begin: at a name, and at the last of what trails a primary.
ghost use Rattle.std.specs.Prelude.{◌≡◌, ◌<◌, ◌≤◌, OnOk, Some, map, true};
ghost use Rattle.py_tree.specs.Seen.{tree, trailer_of};
ghost use Rattle.py_tree.specs.Programs.{step_of};
ghost use Rattle.py_tree.specs.Steps.{Augment};
ghost use Rattle.py_tree.specs.Tree.{Name as Read_name, Trailed, trailers};
ghost use Rattle.py_frames.specs.Parts.{operator_of, place_of};
ghost use Rattle.py_frames.specs.Statements.{augment};
ghost use Rattle.py_statements.specs.Augmented.{augment_after, can_change};
ghost use Rattle.py_frames.specs.Frames.{GoesOn};

use py_frames::expr_names::name_value;
use py_frames::frame::{Along, CallFrame, Changed, Frame, Now, StmtFrame};
use py_frames::functions::Functions;
use py_frames::going::{Going, spend, stopped, wait_for};
use py_frames::leaf::{cost_of, place_of};
use py_frames::request::Cause;
use py_frames::state::Halt;
use py_heap::Frozen;
use py_tree::{Expr, ExprKind, Name, Operator, Stmt, Trailer};

// Whether a node is one that may be changed.
fn can_change(e: &Expr) -> bool
    ensures { result ≡ can_change (tree e.now) }
{
    match &*e.kind {
        ExprKind::Name(_) => true,
        ExprKind::Trailed(_, _) => true,
        _ => false,
    }
}

// A name is read, and then the right side begins.
#[tactic(auto, using(crate::proofs::AugmentBegins::name_begins, crate::proofs::AugmentBegins::name_stops, py_frames::proofs::BeginLaws::no_memory))]
fn name_changed(
    going: &mut Going,
    functions: &Functions,
    frozen: &Frozen,
    s: &Stmt,
    target: &Expr,
    name: &Name,
    sign: Operator,
    right: &Expr,
    budget: u64,
) -> Result<Now, Halt>
    requires step { step_of s.now ≡ Augment s.now.place (tree target.now) sign (tree right.now) }
    requires seen { tree target.now ≡ Read_name target.now.place name.now }
    ensures moves { GoesOn functions.now frozen.now result going.old going.new budget (λ k. augment_after k (tree target.now) s.now.place (operator_of sign) (tree right.now)) }
    ensures used { going.new.state.used ≡ going.old.state.used }
{
    let Some(old) = name_value(going, frozen, name) else {
        return Err(stopped(Cause::Raised, target.place));
    };
    let Ok(stmt) = s.share() else {
        return Err(Halt::NoMemory);
    };
    let frame = Frame::Stmt(StmtFrame::AugmentRight {
        stmt,
        changed: Changed::Name,
        old,
    });
    wait_for(going, functions, frozen, right, frame, budget)
}

// What trails a primary is walked along to its last.
#[tactic(auto, using(crate::proofs::AugmentBegins::walk_begins, py_frames::proofs::BeginLaws::no_memory))]
fn walk_changed(
    going: &mut Going,
    functions: &Functions,
    frozen: &Frozen,
    s: &Stmt,
    target: &Expr,
    first: &Expr,
    _trailing: &[Trailer],
    _sign: Operator,
    _right: &Expr,
    budget: u64,
) -> Result<Now, Halt>
    requires step { step_of s.now ≡ Augment s.now.place (tree target.now) _sign (tree _right.now) }
    requires seen { tree target.now ≡ Trailed target.now.place (tree first.now) (trailers (map trailer_of _trailing.now)) }
    ensures moves { GoesOn functions.now frozen.now result going.old going.new budget (λ k. augment_after k (tree target.now) s.now.place (operator_of _sign) (tree _right.now)) }
    ensures used { going.new.state.used ≡ going.old.state.used }
{
    let Ok(node) = target.share() else {
        return Err(Halt::NoMemory);
    };
    let Ok(stmt) = s.share() else {
        return Err(Halt::NoMemory);
    };
    let along = Along::Augment(stmt);
    let frame = Frame::Call(CallFrame::Trail { node, at: 0, along });
    wait_for(going, functions, frozen, first, frame, budget)
}

// A target that may be changed, its units spent.
#[tactic(auto, using(py_frames::proofs::BeginLaws::no_memory))]
fn target_changed(
    going: &mut Going,
    functions: &Functions,
    frozen: &Frozen,
    s: &Stmt,
    target: &Expr,
    sign: Operator,
    right: &Expr,
    budget: u64,
) -> Result<Now, Halt>
    requires step { step_of s.now ≡ Augment s.now.place (tree target.now) sign (tree right.now) }
    ensures moves { GoesOn functions.now frozen.now result going.old going.new budget (λ k. augment_after k (tree target.now) s.now.place (operator_of sign) (tree right.now)) }
    ensures used { going.new.state.used ≡ going.old.state.used }
{
    match &*target.kind {
        ExprKind::Name(name) => {
            name_changed(
                going, functions, frozen, s, target, name, sign, right, budget,
            )
        }
        ExprKind::Trailed(first, items) => walk_changed(
            going,
            functions,
            frozen,
            s,
            target,
            first,
            items.as_slice(),
            sign,
            right,
            budget,
        ),
        _ => Err(Halt::NoMemory),
    }
}

/// Begins an augmented assignment, whose own units are spent.
#[tactic(auto, using(crate::proofs::AugmentBegins::begins_spent, crate::proofs::AugmentBegins::begins_stops, crate::proofs::AugmentBegins::begins_none))]
pub fn augment_begun(
    going: &mut Going,
    functions: &Functions,
    frozen: &Frozen,
    s: &Stmt,
    target: &Expr,
    sign: Operator,
    right: &Expr,
    budget: u64,
) -> Result<Now, Halt>
    requires step { step_of s.now ≡ Augment s.now.place (tree target.now) sign (tree right.now) }
    requires room { going.old.state.used < budget }
    ensures moves { GoesOn functions.now frozen.now result going.old going.new budget (λ k. augment k (tree target.now) s.now.place (operator_of sign) (tree right.now)) }
    ensures left { OnOk result (going.new.state.used < budget) }
    ensures grows { going.old.state.used ≤ going.new.state.used }
{
    if !can_change(target) {
        return Err(stopped(Cause::Raised, place_of(target)));
    }
    match spend(going, cost_of(target), place_of(target), budget) {
        Err(halt) => Err(halt),
        Ok(()) => target_changed(going, functions, frozen, s, target, sign, right, budget),
    }
}
