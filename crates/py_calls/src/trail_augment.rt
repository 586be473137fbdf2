// Augmented assignments to what trails: on to the last of it, which is changed.
ghost use Rattle.std.specs.Prelude.{◌≡◌, ◌<◌, ◌≤◌, OnOk, Some};
ghost use Rattle.py_tree.specs.Seen.{tree, trailer_of};
ghost use Rattle.py_tree.specs.Programs.{step_of};
ghost use Rattle.py_tree.specs.Steps.{Augment};
ghost use Rattle.py_tree.specs.Tree.{Attribute, Index};
ghost use Rattle.py_frames.specs.Parts.{place_of, trailers_from, operator_of};
ghost use Rattle.py_frames.specs.Statements.{augment_along, augment_last};
ghost use Rattle.py_frames.specs.Call_frames.{trailers_of, augmented_along};
ghost use Rattle.py_frames.specs.Tables.{IsTable};
ghost use Rattle.py_frames.specs.Frames.{GoesOn};

use crate::trail::trailed_one;
use py_callables::attribute::attribute;
use py_frames::frame::{Along, CallFrame, Changed, Frame, Now, Purpose, StmtFrame};
use py_frames::functions::Functions;
use py_frames::going::{Going, wait_for};
use py_frames::leaf::following;
use py_frames::state::Halt;
use py_frames::trail_leaf::{place_at, trailer_at};
use py_heap::Frozen;
use py_tree::{Expr, Name, Operator, Stmt, StmtKind, Trailer};
use py_turns::call_leaf::raise;
use py_values::Val;

// An attribute that is changed is read.
#[tactic(auto, using(py_frames::proofs::BeginLaws::no_memory))]
fn attribute_changes(
    going: &mut Going,
    functions: &Functions,
    frozen: &Frozen,
    stmt: &Stmt,
    target: &Expr,
    _op: Operator,
    _right: &Expr,
    name: &Name,
    over: &Val,
    budget: u64,
) -> Result<Now, Halt>
    requires here { step_of stmt.now ≡ Augment stmt.now.place (tree target.now) _op (tree _right.now) }
    ensures moves { GoesOn functions.now frozen.now result going.old going.new budget (λ k. augment_last k (place_of (tree target.now)) (Attribute name.now) over.now stmt.now.place (operator_of _op) (tree _right.now)) }
    ensures used { going.new.state.used ≡ going.old.state.used }
{
    let place = place_at(target);
    let Ok(stmt) = stmt.share() else {
        return Err(Halt::NoMemory);
    };
    let Ok(changed) = name.share() else {
        return Err(Halt::NoMemory);
    };
    match going.frames.push(Frame::Stmt(StmtFrame::AugmentOld {
        stmt,
        changed: Changed::Attribute(*over, changed),
    })) {
        Ok(()) => attribute(going, functions, frozen, *over, name, place, budget),
        Err(_) => Err(Halt::NoMemory),
    }
}

// The index of an item that is changed begins.
#[tactic(auto, using(crate::proofs::AugmentLaws::item_begins, py_frames::proofs::BeginLaws::turn_rules))]
fn item_changes(
    going: &mut Going,
    functions: &Functions,
    frozen: &Frozen,
    stmt: &Stmt,
    _target: &Expr,
    _op: Operator,
    _right: &Expr,
    part: &Expr,
    over: Val,
    budget: u64,
) -> Result<Now, Halt>
    requires here { step_of stmt.now ≡ Augment stmt.now.place (tree _target.now) _op (tree _right.now) }
    ensures moves { GoesOn functions.now frozen.now result going.old going.new budget (λ k. augment_last k (place_of (tree _target.now)) (Index (tree part.now)) over stmt.now.place (operator_of _op) (tree _right.now)) }
    ensures used { going.new.state.used ≡ going.old.state.used }
{
    let Ok(stmt) = stmt.share() else {
        return Err(Halt::NoMemory);
    };
    let frame = Frame::Stmt(StmtFrame::AugmentIndex { stmt, over });
    wait_for(going, functions, frozen, part, frame, budget)
}

// The last of what trails is changed.
fn augment_last(
    going: &mut Going,
    functions: &Functions,
    frozen: &Frozen,
    stmt: &Stmt,
    target: &Expr,
    op: Operator,
    right: &Expr,
    trailer: &Trailer,
    over: Val,
    budget: u64,
) -> Result<Now, Halt>
    requires here { step_of stmt.now ≡ Augment stmt.now.place (tree target.now) op (tree right.now) }
    ensures moves { GoesOn functions.now frozen.now result going.old going.new budget (λ k. augment_last k (place_of (tree target.now)) (trailer_of trailer.now) over stmt.now.place (operator_of op) (tree right.now)) }
    ensures used { going.new.state.used ≡ going.old.state.used }
{
    let place = place_at(target);
    match trailer {
        Trailer::Attribute(name) => attribute_changes(
            going, functions, frozen, stmt, target, op, right, name, &over, budget,
        ),
        Trailer::Index(part) => item_changes(
            going, functions, frozen, stmt, target, op, right, part, over, budget,
        ),
        Trailer::Call(_) => raise(going, functions, frozen, place, budget),
        Trailer::CallOf(_, _) => raise(going, functions, frozen, place, budget),
        Trailer::Slice { .. } => raise(going, functions, frozen, place, budget),
    }
}

// On along what trails the target of a statement, to the last of it, which is changed.
#[tactic(auto, using(crate::proofs::AugmentLaws::augment_end, py_frames::proofs::BeginLaws::no_memory))]
fn augment_along(
    going: &mut Going,
    functions: &Functions,
    frozen: &Frozen,
    stmt: &Stmt,
    target: &Expr,
    op: Operator,
    right: &Expr,
    at: u64,
    over: Val,
    budget: u64,
) -> Result<Now, Halt>
    requires room { going.old.state.used < budget }
    requires here { step_of stmt.now ≡ Augment stmt.now.place (tree target.now) op (tree right.now) }
    requires table { IsTable functions.now }
    ensures moves { GoesOn functions.now frozen.now result going.old going.new budget (λ k. augment_along k (place_of (tree target.now)) (trailers_from at (trailers_of (tree target.now))) over stmt.now.place (operator_of op) (tree right.now)) }
    ensures left { OnOk result (going.new.state.used < budget) }
    ensures grows { going.old.state.used ≤ going.new.state.used }
{
    let place = place_at(target);
    let Some(trailer) = trailer_at(target, at) else {
        return raise(going, functions, frozen, place, budget);
    };
    let Ok(next) = following(at) else {
        return Err(Halt::NoMemory);
    };
    let Some(_) = trailer_at(target, next) else {
        return augment_last(
            going, functions, frozen, stmt, target, op, right, trailer, over, budget,
        );
    };
    let Ok(node) = target.share() else {
        return Err(Halt::NoMemory);
    };
    let Ok(more) = stmt.share() else {
        return Err(Halt::NoMemory);
    };
    match going.frames.push(Frame::Call(CallFrame::Trail {
        node,
        at: next,
        along: Along::Augment(more),
    })) {
        Ok(()) => trailed_one(
            going,
            functions,
            frozen,
            target,
            at,
            trailer,
            &Purpose::Plain,
            over,
            budget,
        ),
        Err(_) => Err(Halt::NoMemory),
    }
}

/// On along what trails the target of a statement, from a value behind so many.
pub fn augmented_along(
    going: &mut Going,
    functions: &Functions,
    frozen: &Frozen,
    stmt: &Stmt,
    at: u64,
    node: &Expr,
    over: Val,
    budget: u64,
) -> Result<Now, Halt>
    requires room { going.old.state.used < budget }
    requires table { IsTable functions.now }
    ensures moves { GoesOn functions.now frozen.now result going.old going.new budget (λ k. augmented_along k at over (step_of stmt.now) (place_of (tree node.now))) }
    ensures left { OnOk result (going.new.state.used < budget) }
    ensures grows { going.old.state.used ≤ going.new.state.used }
{
    let place = place_at(node);
    match &*stmt.kind {
        StmtKind::Augment(target, op, right) => augment_along(
            going, functions, frozen, stmt, target, *op, right, at, over, budget,
        ),
        _ => raise(going, functions, frozen, place, budget),
    }
}
