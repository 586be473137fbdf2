// Chains of operators, of comparisons, and of `and` or `or`, from link to link.
ghost use Rattle.std.specs.Prelude.{◌≡◌, ◌<◌, ◌≤◌, OnOk, Option, Some};
ghost use Rattle.py_tree.specs.declared.expr.Operator.{Operator};
ghost use Rattle.py_tree.specs.Tree.{Tree};
ghost use Rattle.py_frames.specs.Expr_parts.{link_at};
ghost use Rattle.py_tree.specs.Seen.{tree};
ghost use Rattle.py_frames.specs.declared.frame.ExprFrame.TheVariants as expr;
ghost use Rattle.py_frames.specs.declared.frame.Frame.TheVariants as frame;
ghost use Rattle.py_frames.specs.declared.frame.Purpose.TheVariants.{Plain};
ghost use Rattle.py_frames.specs.Doing.{spend_each};
ghost use Rattle.py_frames.specs.Parts.{place_of, links_from};
ghost use Rattle.py_frames.specs.Expressions.{value_of, linked, compared, joined};
ghost use Rattle.py_frames.specs.Expr_frames.{links_of, operand_place, first_operand, comparing, decided};
ghost use Rattle.py_frames.specs.Frames.{GoesOn, within};

use crate::seek::related;
use amh_host::Place;
use py_frames::frame::{ExprFrame, Frame, Now};
use py_frames::functions::Functions;
use py_frames::going::{Going, spend, wait_for};
use py_frames::leaf::{
    PartAt, copied, following, goes_on, link_at, operand_place, operator_of, place_of,
};
use py_frames::state::{Got, Halt};
use py_heap::Frozen;
use py_tree::{Expr, Link};
use py_turns::at_once::at_once;
use py_turns::expr_values::truth_of;
use py_turns::operators::operated;
use py_values::{PyOp, Val};

/// The first operand of a chain of operators begins; where it is there at once, no frame waits for it.
#[tactic(auto, using(py_frames::proofs::BeginLaws::no_memory))]
pub fn first_operand(
    going: &mut Going,
    functions: &Functions,
    frozen: &Frozen,
    node: Expr,
    first: &Expr,
    budget: u64,
) -> Result<Now, Halt>
    requires { going.old.state.used < budget }
    ensures moves { GoesOn functions.now frozen.now result going.old going.new budget (within (frame.Expr (expr.Linked node 0)) (λ k. value_of k Plain (tree first.now))) }
    ensures left { OnOk result (going.new.state.used < budget) }
    ensures grows { going.old.state.used ≤ going.new.state.used }
{
    let Some(left) = at_once(going, frozen, first, budget) else {
        let linked = Frame::Expr(ExprFrame::Linked { node, at: 0 });
        return wait_for(going, functions, frozen, first, linked, budget);
    };
    going.state.used += left.cost;
    next_link(going, functions, frozen, node, 0, left.val, budget)
}

// The right operand of an operator begins, and then the operator is carried out.
#[tactic(auto, using(py_frames::proofs::BeginLaws::no_memory))]
fn right_operand(
    going: &mut Going,
    functions: &Functions,
    frozen: &Frozen,
    op: PyOp,
    left: Val,
    operand: &Expr,
    place: Place,
    budget: u64,
) -> Result<Now, Halt>
    requires { going.old.state.used < budget }
    ensures moves { GoesOn functions.now frozen.now result going.old going.new budget (within (frame.Expr (expr.Right op left place)) (λ k. value_of k Plain (tree operand.now))) }
    ensures left { OnOk result (going.new.state.used < budget) }
    ensures grows { going.old.state.used ≤ going.new.state.used }
{
    let Some(right) = at_once(going, frozen, operand, budget) else {
        let waits = Frame::Expr(ExprFrame::Right { op, left, place });
        return wait_for(going, functions, frozen, operand, waits, budget);
    };
    going.state.used += right.cost;
    operated(
        going, functions, frozen, op, &left, &right.val, place, budget,
    )
}

// The same, where operators stand behind it: a frame waits for what it gives.
#[tactic(auto, using(py_frames::proofs::BeginLaws::no_memory))]
fn right_before(
    going: &mut Going,
    functions: &Functions,
    frozen: &Frozen,
    node: Expr,
    at: u64,
    op: PyOp,
    left: Val,
    operand: &Expr,
    place: Place,
    budget: u64,
) -> Result<Now, Halt>
    requires { going.old.state.used < budget }
    ensures moves { GoesOn functions.now frozen.now result going.old going.new budget (within (frame.Expr (expr.Linked node at)) (within (frame.Expr (expr.Right op left place)) (λ k. value_of k Plain (tree operand.now)))) }
    ensures left { OnOk result (going.new.state.used < budget) }
    ensures grows { going.old.state.used ≤ going.new.state.used }
{
    let linked = Frame::Expr(ExprFrame::Linked { node, at });
    let Ok(()) = going.frames.push(linked) else {
        return Err(Halt::NoMemory);
    };
    right_operand(going, functions, frozen, op, left, operand, place, budget)
}

/// The operator of this number and those behind it, whose left operand has come.
#[tactic(auto, using(py_frames::proofs::BeginLaws::no_memory))]
pub fn next_link(
    going: &mut Going,
    functions: &Functions,
    frozen: &Frozen,
    node: Expr,
    n: u64,
    left: Val,
    budget: u64,
) -> Result<Now, Halt>
    requires { going.old.state.used < budget }
    ensures moves { GoesOn functions.now frozen.now result going.old going.new budget (λ k. linked k (place_of (tree node)) (links_from n (links_of (tree node))) left) }
    ensures left { OnOk result (going.new.state.used < budget) }
    ensures grows { going.old.state.used ≤ going.new.state.used }
{
    let place = place_of(&node);
    let link = match link_at(&node, n) {
        PartAt::NoMemory => return Err(Halt::NoMemory),
        PartAt::Past => return Ok(Now::Came(Got::Value(left))),
        PartAt::Part(link) => link,
    };
    let Ok(at) = following(n) else {
        return Err(Halt::NoMemory);
    };
    let op = operator_of(link.operator);
    let operand = &link.operand;
    match link_at(&node, at) {
        PartAt::NoMemory => Err(Halt::NoMemory),
        PartAt::Past => right_operand(going, functions, frozen, op, left, operand, place, budget),
        PartAt::Part(_) => right_before(
            going, functions, frozen, node, at, op, left, operand, place, budget,
        ),
    }
}

/// The comparison of this number and those behind it, whose left operand has come.
#[tactic(auto, using(py_frames::proofs::BeginLaws::no_memory))]
pub fn next_comparison(
    going: &mut Going,
    functions: &Functions,
    frozen: &Frozen,
    node: Expr,
    n: u64,
    left: Val,
    budget: u64,
) -> Result<Now, Halt>
    ensures moves { GoesOn functions.now frozen.now result going.old going.new budget (λ k. compared k (place_of (tree node)) (links_from n (links_of (tree node))) left) }
    ensures used { going.new.state.used ≡ going.old.state.used }
{
    match link_at(&node, n) {
        PartAt::NoMemory => Err(Halt::NoMemory),
        PartAt::Past => Ok(Now::Came(Got::Value(left))),
        PartAt::Part(link) => {
            let frame = Frame::Expr(ExprFrame::Comparing { node, at: n, left });
            wait_for(going, functions, frozen, &link.operand, frame, budget)
        }
    }
}

// The comparison of a link, which is there.
#[tactic(auto, using(py_frames::proofs::BeginLaws::no_memory))]
fn more_compared(
    going: &mut Going,
    functions: &Functions,
    frozen: &Frozen,
    node: Expr,
    n: u64,
    link: &Link,
    left: &Val,
    right: &Val,
    budget: u64,
) -> Result<Now, Halt>
    requires there { ◌≡◌ {A = Option (Operator × Tree)} (Some (link.now.operator, tree link.now.operand)) (link_at n (links_of (tree node))) }
    requires room { going.old.state.used < budget }
    ensures moves { GoesOn functions.now frozen.now result going.old going.new budget (λ k. comparing k (place_of (tree node)) (links_from n (links_of (tree node))) left.now right.now) }
    ensures left { OnOk result (going.new.state.used < budget) }
    ensures grows { going.old.state.used ≤ going.new.state.used }
{
    let place = place_of(&node);
    let op = operator_of(link.operator);
    let kept = copied(right);
    let frame = Frame::Expr(ExprFrame::Decided {
        node,
        at: n,
        right: kept,
    });
    let Ok(()) = going.frames.push(frame) else {
        return Err(Halt::NoMemory);
    };
    related(going, functions, frozen, op, left, right, place, budget)
}

/// The comparison of this number, both of whose operands have come.
#[tactic(auto, using(py_frames::proofs::BeginLaws::no_memory))]
pub fn comparing(
    going: &mut Going,
    functions: &Functions,
    frozen: &Frozen,
    node: Expr,
    n: u64,
    left: Val,
    right: Val,
    budget: u64,
) -> Result<Now, Halt>
    requires { going.old.state.used < budget }
    ensures moves { GoesOn functions.now frozen.now result going.old going.new budget (λ k. comparing k (place_of (tree node)) (links_from n (links_of (tree node))) left right) }
    ensures left { OnOk result (going.new.state.used < budget) }
    ensures grows { going.old.state.used ≤ going.new.state.used }
{
    match link_at(&node, n) {
        PartAt::NoMemory => Err(Halt::NoMemory),
        PartAt::Past => Ok(Now::Came(Got::Value(left))),
        PartAt::Part(link) => {
            more_compared(
                going, functions, frozen, node, n, &link, &left, &right, budget,
            )
        }
    }
}

// The comparison of this number is begun, since the one before it holds.
#[tactic(auto, using(py_frames::proofs::ExprLaws::spent_goes, py_frames::proofs::ExprLaws::spent_stops))]
fn begun_comparison(
    going: &mut Going,
    functions: &Functions,
    frozen: &Frozen,
    node: Expr,
    n: u64,
    left: Val,
    place: Place,
    budget: u64,
) -> Result<Now, Halt>
    requires { going.old.state.used < budget }
    ensures moves { GoesOn functions.now frozen.now result going.old going.new budget (λ k. spend_each 1 place (compared k (place_of (tree node)) (links_from n (links_of (tree node))) left)) }
    ensures left { OnOk result (going.new.state.used < budget) }
    ensures grows { going.old.state.used ≤ going.new.state.used }
{
    match spend(going, 1, place, budget) {
        Err(halt) => Err(halt),
        Ok(()) => next_comparison(going, functions, frozen, node, n, left, budget),
    }
}

// The same, where there is a comparison of this number.
#[tactic(auto, using(crate::proofs::ExprChains::decide_stops, crate::proofs::ExprChains::decide_ends_so, crate::proofs::ExprChains::decide_goes_so))]
fn more_decided(
    going: &mut Going,
    functions: &Functions,
    frozen: &Frozen,
    node: Expr,
    n: u64,
    _link: &Link,
    right: Val,
    gave: Val,
    budget: u64,
) -> Result<Now, Halt>
    requires there { ◌≡◌ {A = Option (Operator × Tree)} (Some (_link.now.operator, tree _link.now.operand)) (link_at n (links_of (tree node))) }
    requires room { going.old.state.used < budget }
    ensures moves { GoesOn functions.now frozen.now result going.old going.new budget (λ k. decided k (place_of (tree node)) (links_from n (links_of (tree node))) right gave) }
    ensures left { OnOk result (going.new.state.used < budget) }
    ensures grows { going.old.state.used ≤ going.new.state.used }
{
    let place = place_of(&node);
    match truth_of(going, frozen, &gave, place) {
        Err(halt) => Err(halt),
        Ok(holds) => {
            if !holds {
                return Ok(Now::Came(Got::Value(gave)));
            }
            begun_comparison(going, functions, frozen, node, n, right, place, budget)
        }
    }
}

/// What the comparison before the one of this number gave decides whether the chain goes on.
#[tactic(auto, using(crate::proofs::ExprChains::decide_last, py_frames::proofs::BeginLaws::no_memory))]
pub fn decided(
    going: &mut Going,
    functions: &Functions,
    frozen: &Frozen,
    node: Expr,
    n: u64,
    right: Val,
    gave: Val,
    budget: u64,
) -> Result<Now, Halt>
    requires { going.old.state.used < budget }
    ensures moves { GoesOn functions.now frozen.now result going.old going.new budget (λ k. decided k (place_of (tree node)) (links_from n (links_of (tree node))) right gave) }
    ensures left { OnOk result (going.new.state.used < budget) }
    ensures grows { going.old.state.used ≤ going.new.state.used }
{
    match link_at(&node, n) {
        PartAt::NoMemory => Err(Halt::NoMemory),
        PartAt::Past => Ok(Now::Came(Got::Value(gave))),
        PartAt::Part(link) => {
            more_decided(
                going, functions, frozen, node, n, &link, right, gave, budget,
            )
        }
    }
}

// The same, where there is a link of this number.
#[tactic(auto, using(crate::proofs::ExprChains::join_stops, crate::proofs::ExprChains::join_ends, crate::proofs::ExprChains::join_goes, py_frames::proofs::BeginLaws::no_memory))]
fn more_joined(
    going: &mut Going,
    functions: &Functions,
    frozen: &Frozen,
    node: Expr,
    n: u64,
    link: &Link,
    left: Val,
    budget: u64,
) -> Result<Now, Halt>
    requires { ◌≡◌ {A = Option (Operator × Tree)} (Some (link.now.operator, tree link.now.operand)) (link_at n (links_of (tree node))) }
    ensures moves { GoesOn functions.now frozen.now result going.old going.new budget (λ k. joined k (operand_place n (first_operand (tree node)) (links_of (tree node))) (links_from n (links_of (tree node))) left) }
    ensures used { going.new.state.used ≡ going.old.state.used }
{
    let Ok(at) = following(n) else {
        return Err(Halt::NoMemory);
    };
    let Ok(place) = operand_place(&node, n) else {
        return Err(Halt::NoMemory);
    };
    match truth_of(going, frozen, &left, place) {
        Err(halt) => Err(halt),
        Ok(holds) => {
            if !goes_on(link.operator, holds) {
                return Ok(Now::Came(Got::Value(left)));
            }
            let frame = Frame::Expr(ExprFrame::Joined { node, at });
            wait_for(going, functions, frozen, &link.operand, frame, budget)
        }
    }
}

/// The `and` or `or` of this number and those behind it, whose left operand has come.
#[tactic(auto, using(crate::proofs::ExprChains::join_none, py_frames::proofs::BeginLaws::no_memory))]
pub fn next_joined(
    going: &mut Going,
    functions: &Functions,
    frozen: &Frozen,
    node: Expr,
    n: u64,
    left: Val,
    budget: u64,
) -> Result<Now, Halt>
    ensures moves { GoesOn functions.now frozen.now result going.old going.new budget (λ k. joined k (operand_place n (first_operand (tree node)) (links_of (tree node))) (links_from n (links_of (tree node))) left) }
    ensures used { going.new.state.used ≡ going.old.state.used }
{
    match link_at(&node, n) {
        PartAt::NoMemory => Err(Halt::NoMemory),
        PartAt::Past => Ok(Now::Came(Got::Value(left))),
        PartAt::Part(link) => {
            more_joined(going, functions, frozen, node, n, &link, left, budget)
        }
    }
}
