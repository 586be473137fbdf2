// Nodes with operands, where they begin: the first part begins, and a frame waits for it.
ghost use Rattle.std.specs.Prelude.{◌≡◌, ◌<◌, ◌≤◌, OnOk, map};
ghost use Rattle.py_tree.specs.Seen.{tree, link_tree};
ghost use Rattle.py_tree.specs.Tree.{Power, Unary, Not, Binary, Compare, Boolean, Choice, links};
ghost use Rattle.py_frames.specs.declared.frame.Purpose.TheVariants.{Plain};
ghost use Rattle.py_frames.specs.Begun.{value_after};
ghost use Rattle.py_frames.specs.Frames.{GoesOn};

use crate::expr_chain::first_operand;
use py_frames::frame::{ExprFrame, Frame, Now};
use py_frames::functions::Functions;
use py_frames::going::{Going, wait_for};
use py_frames::leaf::prefix_of;
use py_frames::state::Halt;
use py_heap::Frozen;
use py_tree::{Expr, Link, Sign};
use py_values::PyOp;

// The left operand of a power.
#[tactic(auto, using(py_frames::proofs::ExprBegins::power_begins, py_frames::proofs::BeginLaws::no_memory))]
pub fn begun_power(
    going: &mut Going,
    functions: &Functions,
    frozen: &Frozen,
    e: &Expr,
    base: &Expr,
    _exponent: &Expr,
    budget: u64,
) -> Result<Now, Halt>
    requires { tree e.now ≡ Power e.now.place (tree base.now) (tree _exponent.now) }
    ensures moves { GoesOn functions.now frozen.now result going.old going.new budget (λ k. value_after k Plain (tree e.now)) }
    ensures used { going.new.state.used ≡ going.old.state.used }
{
    let Ok(node) = e.share() else {
        return Err(Halt::NoMemory);
    };
    wait_for(
        going,
        functions,
        frozen,
        base,
        Frame::Expr(ExprFrame::Base { node }),
        budget,
    )
}

// The operand of a sign.
#[tactic(auto, using(py_frames::proofs::ExprKinds::unary_begins, py_frames::proofs::BeginLaws::no_memory))]
pub fn begun_unary(
    going: &mut Going,
    functions: &Functions,
    frozen: &Frozen,
    e: &Expr,
    sign: Sign,
    operand: &Expr,
    budget: u64,
) -> Result<Now, Halt>
    requires { tree e.now ≡ Unary e.now.place sign (tree operand.now) }
    ensures moves { GoesOn functions.now frozen.now result going.old going.new budget (λ k. value_after k Plain (tree e.now)) }
    ensures used { going.new.state.used ≡ going.old.state.used }
{
    let frame = ExprFrame::Single {
        op: prefix_of(sign),
        place: e.place,
    };
    wait_for(
        going,
        functions,
        frozen,
        operand,
        Frame::Expr(frame),
        budget,
    )
}

// The operand of `not`.
#[tactic(auto, using(py_frames::proofs::ExprKinds::not_begins, py_frames::proofs::BeginLaws::no_memory))]
pub fn begun_not(
    going: &mut Going,
    functions: &Functions,
    frozen: &Frozen,
    e: &Expr,
    operand: &Expr,
    budget: u64,
) -> Result<Now, Halt>
    requires { tree e.now ≡ Not e.now.place (tree operand.now) }
    ensures moves { GoesOn functions.now frozen.now result going.old going.new budget (λ k. value_after k Plain (tree e.now)) }
    ensures used { going.new.state.used ≡ going.old.state.used }
{
    let frame = ExprFrame::Single {
        op: PyOp::Not,
        place: e.place,
    };
    wait_for(
        going,
        functions,
        frozen,
        operand,
        Frame::Expr(frame),
        budget,
    )
}

// The first operand of a chain of operators.
#[tactic(auto, using(py_frames::proofs::ExprKinds::binary_begins, py_frames::proofs::BeginLaws::no_memory))]
pub fn begun_binary(
    going: &mut Going,
    functions: &Functions,
    frozen: &Frozen,
    e: &Expr,
    first: &Expr,
    _links: &[Link],
    budget: u64,
) -> Result<Now, Halt>
    requires room { going.old.state.used < budget }
    requires kind { tree e.now ≡ Binary e.now.place (tree first.now) (links (map link_tree _links.now)) }
    ensures moves { GoesOn functions.now frozen.now result going.old going.new budget (λ k. value_after k Plain (tree e.now)) }
    ensures left { OnOk result (going.new.state.used < budget) }
    ensures grows { going.old.state.used ≤ going.new.state.used }
{
    let Ok(node) = e.share() else {
        return Err(Halt::NoMemory);
    };
    first_operand(going, functions, frozen, node, first, budget)
}

// The first operand of a chain of comparisons.
#[tactic(auto, using(py_frames::proofs::ExprKinds::compare_begins, py_frames::proofs::BeginLaws::no_memory))]
pub fn begun_compare(
    going: &mut Going,
    functions: &Functions,
    frozen: &Frozen,
    e: &Expr,
    first: &Expr,
    _links: &[Link],
    budget: u64,
) -> Result<Now, Halt>
    requires { tree e.now ≡ Compare e.now.place (tree first.now) (links (map link_tree _links.now)) }
    ensures moves { GoesOn functions.now frozen.now result going.old going.new budget (λ k. value_after k Plain (tree e.now)) }
    ensures used { going.new.state.used ≡ going.old.state.used }
{
    let Ok(node) = e.share() else {
        return Err(Halt::NoMemory);
    };
    wait_for(
        going,
        functions,
        frozen,
        first,
        Frame::Expr(ExprFrame::Compared { node, at: 0 }),
        budget,
    )
}

// The first operand of a chain of `and` or of `or`.
#[tactic(auto, using(py_frames::proofs::ExprKinds::boolean_begins, py_frames::proofs::BeginLaws::no_memory))]
pub fn begun_boolean(
    going: &mut Going,
    functions: &Functions,
    frozen: &Frozen,
    e: &Expr,
    first: &Expr,
    _links: &[Link],
    budget: u64,
) -> Result<Now, Halt>
    requires { tree e.now ≡ Boolean e.now.place (tree first.now) (links (map link_tree _links.now)) }
    ensures moves { GoesOn functions.now frozen.now result going.old going.new budget (λ k. value_after k Plain (tree e.now)) }
    ensures used { going.new.state.used ≡ going.old.state.used }
{
    let Ok(node) = e.share() else {
        return Err(Halt::NoMemory);
    };
    wait_for(
        going,
        functions,
        frozen,
        first,
        Frame::Expr(ExprFrame::Joined { node, at: 0 }),
        budget,
    )
}

// The test of a choice.
#[tactic(auto, using(py_frames::proofs::ExprKinds::choice_begins, py_frames::proofs::BeginLaws::no_memory))]
pub fn begun_choice(
    going: &mut Going,
    functions: &Functions,
    frozen: &Frozen,
    e: &Expr,
    _chosen: &Expr,
    test: &Expr,
    _other: &Expr,
    budget: u64,
) -> Result<Now, Halt>
    requires { tree e.now ≡ Choice e.now.place (tree _chosen.now) (tree test.now) (tree _other.now) }
    ensures moves { GoesOn functions.now frozen.now result going.old going.new budget (λ k. value_after k Plain (tree e.now)) }
    ensures used { going.new.state.used ≡ going.old.state.used }
{
    let Ok(node) = e.share() else {
        return Err(Halt::NoMemory);
    };
    wait_for(
        going,
        functions,
        frozen,
        test,
        Frame::Expr(ExprFrame::Chosen { node }),
        budget,
    )
}
