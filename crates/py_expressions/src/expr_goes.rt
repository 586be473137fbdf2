// How the frames of expressions go on with the values that they wait for.
ghost use Rattle.std.specs.Prelude.{◌≡◌, ◌<◌, ◌≤◌, suc, [], OnOk};
ghost use Rattle.py_tree.specs.Seen.{tree};
ghost use Rattle.py_frames.specs.Parts.{place_of, pairs_from, links_from};
ghost use Rattle.py_frames.specs.Values.{operated, turned};
ghost use Rattle.py_frames.specs.Expressions.{pairs_then, dict_made};
ghost use Rattle.py_frames.specs.Expr_frames.{pairs_of, links_of, exponent_of, chosen, decided, expr_goes};
ghost use Rattle.py_frames.specs.Frames.{GoesOn};

use crate::expr_chain::{comparing, decided, next_comparison, next_joined, next_link};
use crate::expr_items::{next_item, next_pair, pair_value};
use crate::seek::element_compared;
use amh_host::Place;
use py_frames::frame::{ExprFrame, Frame, Now, Purpose};
use py_frames::functions::Functions;
use py_frames::going::{Going, stopped, wait_for};
use py_frames::leaf::{PartAt, choice_of, exponent_of, following, place_of};
use py_frames::request::Cause;
use py_frames::state::Halt;
use py_heap::Frozen;
use py_tree::Expr;
use py_turns::expr_values::truth;
use py_turns::operators::{operated, turned};
use py_values::{PyOp, Val, Vals};

// The right operand of a power, whose left one has come.
#[tactic(auto, using(py_frames::proofs::BeginLaws::no_memory))]
fn next_exponent(
    going: &mut Going,
    functions: &Functions,
    frozen: &Frozen,
    node: &Expr,
    left: Val,
    budget: u64,
) -> Result<Now, Halt>
    ensures moves { GoesOn functions.now frozen.now result going.old going.new budget (λ k. exponent_of k (tree node.now) left) }
    ensures used { going.new.state.used ≡ going.old.state.used }
{
    let place = place_of(node);
    match exponent_of(node) {
        PartAt::NoMemory => Err(Halt::NoMemory),
        PartAt::Past => Err(stopped(Cause::Raised, place)),
        PartAt::Part(exponent) => {
            let op = PyOp::Pow;
            let frame = Frame::Expr(ExprFrame::Right { op, left, place });
            wait_for(going, functions, frozen, &exponent, frame, budget)
        }
    }
}

// The part of a choice that its test decides for.
#[tactic(auto, using(py_frames::proofs::BeginLaws::no_memory))]
fn chosen(
    going: &mut Going,
    _functions: &Functions,
    frozen: &Frozen,
    node: &Expr,
    test: Val,
    _budget: u64,
) -> Result<Now, Halt>
    ensures moves { GoesOn _functions.now frozen.now result going.old going.new _budget (λ k. chosen k (tree node.now) test) }
    ensures used { going.new.state.used ≡ going.old.state.used }
{
    match choice_of(node) {
        PartAt::NoMemory => Err(Halt::NoMemory),
        PartAt::Past => Err(stopped(Cause::Raised, place_of(node))),
        PartAt::Part(parts) => match truth(going, frozen, test, parts.test) {
            Err(halt) => Err(halt),
            Ok(holds) => Ok(Now::Begin(parts.part(holds), Purpose::Plain)),
        },
    }
}

// The pairs behind one that has come.
#[tactic(auto, using(py_frames::proofs::BeginLaws::no_memory))]
fn pair_came(
    going: &mut Going,
    functions: &Functions,
    frozen: &Frozen,
    node: Expr,
    n: u64,
    row: Vals,
    budget: u64,
) -> Result<Now, Halt>
    ensures moves { GoesOn functions.now frozen.now result going.old going.new budget (λ k. pairs_then k row (pairs_from (suc n) (pairs_of (tree node))) (dict_made k (place_of (tree node)))) }
    ensures used { going.new.state.used ≡ going.old.state.used }
{
    match following(n) {
        Err(_) => Err(Halt::NoMemory),
        Ok(next) => next_pair(going, functions, frozen, node, next, row, budget),
    }
}

// The comparisons behind one that has come.
#[tactic(auto, using(py_frames::proofs::BeginLaws::no_memory))]
fn comparison_came(
    going: &mut Going,
    functions: &Functions,
    frozen: &Frozen,
    node: Expr,
    n: u64,
    right: Val,
    gave: Val,
    budget: u64,
) -> Result<Now, Halt>
    requires { going.old.state.used < budget }
    ensures moves { GoesOn functions.now frozen.now result going.old going.new budget (λ k. decided k (place_of (tree node)) (links_from (suc n) (links_of (tree node))) right gave) }
    ensures left { OnOk result (going.new.state.used < budget) }
    ensures grows { going.old.state.used ≤ going.new.state.used }
{
    match following(n) {
        Err(_) => Err(Halt::NoMemory),
        Ok(next) => decided(going, functions, frozen, node, next, right, gave, budget),
    }
}

// The right operand of an operator has come.
fn operand_came(
    going: &mut Going,
    functions: &Functions,
    frozen: &Frozen,
    op: PyOp,
    left: Val,
    right: Val,
    place: Place,
    budget: u64,
) -> Result<Now, Halt>
    requires { going.old.state.used < budget }
    ensures moves { GoesOn functions.now frozen.now result going.old going.new budget (λ k. operated k op left right place) }
    ensures left { OnOk result (going.new.state.used < budget) }
    ensures grows { going.old.state.used ≤ going.new.state.used }
{
    operated(going, functions, frozen, op, &left, &right, place, budget)
}

// The one operand of an operator has come.
fn single_came(
    going: &mut Going,
    functions: &Functions,
    frozen: &Frozen,
    op: PyOp,
    v: Val,
    place: Place,
    budget: u64,
) -> Result<Now, Halt>
    requires { going.old.state.used < budget }
    ensures moves { GoesOn functions.now frozen.now result going.old going.new budget (λ k. turned k op v place) }
    ensures left { OnOk result (going.new.state.used < budget) }
    ensures grows { going.old.state.used ≤ going.new.state.used }
{
    turned(going, functions, frozen, op, &v, place, budget)
}

/// A frame goes on with the value that it waits for.
#[tactic(auto, using(py_frames::proofs::BeginLaws::no_memory))]
pub fn expr_goes(
    going: &mut Going,
    functions: &Functions,
    frozen: &Frozen,
    frame: ExprFrame,
    v: Val,
    budget: u64,
) -> Result<Now, Halt>
    requires { going.old.state.used < budget }
    ensures moves { GoesOn functions.now frozen.now result going.old going.new budget (λ k. expr_goes k frame v) }
    ensures left { OnOk result (going.new.state.used < budget) }
    ensures grows { going.old.state.used ≤ going.new.state.used }
{
    match frame {
        ExprFrame::Items {
            node,
            next,
            mut vals,
        } => match vals.push(v) {
            Err(_) => Err(Halt::NoMemory),
            Ok(()) => next_item(going, functions, frozen, node, next, vals, budget),
        },
        ExprFrame::Key { node, at, row } => {
            pair_value(going, functions, frozen, node, at, row, v, budget)
        }
        ExprFrame::PairValue {
            node,
            at,
            mut row,
            key,
        } => match row.push_pair(key, v) {
            Err(_) => Err(Halt::NoMemory),
            Ok(()) => pair_came(going, functions, frozen, node, at, row, budget),
        },
        ExprFrame::Base { node } => next_exponent(going, functions, frozen, &node, v, budget),
        ExprFrame::Right { op, left, place } => {
            operand_came(going, functions, frozen, op, left, v, place, budget)
        }
        ExprFrame::Single { op, place } => {
            single_came(going, functions, frozen, op, v, place, budget)
        }
        ExprFrame::Linked { node, at } => {
            next_link(going, functions, frozen, node, at, v, budget)
        }
        ExprFrame::Compared { node, at } => {
            next_comparison(going, functions, frozen, node, at, v, budget)
        }
        ExprFrame::Comparing { node, at, left } => {
            comparing(going, functions, frozen, node, at, left, v, budget)
        }
        ExprFrame::Decided { node, at, right } => {
            comparison_came(going, functions, frozen, node, at, right, v, budget)
        }
        ExprFrame::Seeking {
            sign,
            sought,
            row,
            next,
            place,
        } => element_compared(
            going, functions, frozen, sign, sought, row, next, place, v, budget,
        ),
        ExprFrame::Joined { node, at } => {
            next_joined(going, functions, frozen, node, at, v, budget)
        }
        ExprFrame::Chosen { node } => chosen(going, functions, frozen, &node, v, budget),
    }
}
