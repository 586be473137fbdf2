// The parts of tuples, lists and dicts, one after the other.
ghost use Rattle.std.specs.Prelude.{◌≡◌};
ghost use Rattle.py_tree.specs.Seen.{tree};
ghost use Rattle.py_frames.specs.Parts.{place_of, trees_from, pairs_from};
ghost use Rattle.py_frames.specs.Expressions.{values_then, pairs_then, dict_made};
ghost use Rattle.py_frames.specs.Expr_frames.{items_of, items_made, pairs_of, value_and_pairs};
ghost use Rattle.py_frames.specs.Frames.{GoesOn};

use py_frames::frame::{ExprFrame, Frame, Now};
use py_frames::functions::Functions;
use py_frames::going::{Going, new_list, wait_for};
use py_frames::leaf::{PartAt, following, is_tuple, item_at, pair_at, place_of};
use py_frames::state::Halt;
use py_heap::Frozen;
use py_tree::Expr;
use py_turns::expr_values::{new_dict, new_tuple};
use py_values::{Val, Vals};

// What the items of a tuple or of a list become.
#[tactic(auto, using(py_frames::proofs::ExprGoes::items_tuple, py_frames::proofs::ExprGoes::items_list))]
fn items_made(
    going: &mut Going,
    functions: &Functions,
    frozen: &Frozen,
    node: &Expr,
    vals: Vals,
    budget: u64,
) -> Result<Now, Halt>
    ensures moves { GoesOn functions.now frozen.now result going.old going.new budget (λ k. items_made k (tree node.now) vals) }
    ensures used { going.new.state.used ≡ going.old.state.used }
{
    let place = place_of(node);
    if is_tuple(node) {
        return new_tuple(going, functions, frozen, vals, place, budget);
    }
    new_list(going, functions, frozen, vals, place, budget)
}

/// The item of this number and those behind it, behind the values that are there.
#[tactic(auto, using(py_frames::proofs::BeginLaws::no_memory))]
pub fn next_item(
    going: &mut Going,
    functions: &Functions,
    frozen: &Frozen,
    node: Expr,
    n: u64,
    vals: Vals,
    budget: u64,
) -> Result<Now, Halt>
    ensures moves { GoesOn functions.now frozen.now result going.old going.new budget (λ k. values_then k vals (trees_from n (items_of (tree node))) (items_made k (tree node))) }
    ensures used { going.new.state.used ≡ going.old.state.used }
{
    match item_at(&node, n) {
        PartAt::NoMemory => Err(Halt::NoMemory),
        PartAt::Past => items_made(going, functions, frozen, &node, vals, budget),
        PartAt::Part(item) => {
            let Ok(next) = following(n) else {
                return Err(Halt::NoMemory);
            };
            let frame = Frame::Expr(ExprFrame::Items { node, next, vals });
            wait_for(going, functions, frozen, &item, frame, budget)
        }
    }
}

/// The pair of this number and those behind it, behind the keys and values that are there.
#[tactic(auto, using(py_frames::proofs::BeginLaws::no_memory))]
pub fn next_pair(
    going: &mut Going,
    functions: &Functions,
    frozen: &Frozen,
    node: Expr,
    n: u64,
    row: Vals,
    budget: u64,
) -> Result<Now, Halt>
    ensures moves { GoesOn functions.now frozen.now result going.old going.new budget (λ k. pairs_then k row (pairs_from n (pairs_of (tree node))) (dict_made k (place_of (tree node)))) }
    ensures used { going.new.state.used ≡ going.old.state.used }
{
    let place = place_of(&node);
    match pair_at(&node, n) {
        PartAt::NoMemory => Err(Halt::NoMemory),
        PartAt::Past => new_dict(going, functions, frozen, row, place, budget),
        PartAt::Part(pair) => {
            let frame = Frame::Expr(ExprFrame::Key { node, at: n, row });
            wait_for(going, functions, frozen, &pair.key, frame, budget)
        }
    }
}

/// The value of the pair of this number, whose key has come.
#[tactic(auto, using(py_frames::proofs::BeginLaws::no_memory))]
pub fn pair_value(
    going: &mut Going,
    functions: &Functions,
    frozen: &Frozen,
    node: Expr,
    n: u64,
    row: Vals,
    key: Val,
    budget: u64,
) -> Result<Now, Halt>
    ensures moves { GoesOn functions.now frozen.now result going.old going.new budget (λ k. value_and_pairs k row (pairs_from n (pairs_of (tree node))) key (dict_made k (place_of (tree node)))) }
    ensures used { going.new.state.used ≡ going.old.state.used }
{
    let place = place_of(&node);
    match pair_at(&node, n) {
        PartAt::NoMemory => Err(Halt::NoMemory),
        PartAt::Past => new_dict(going, functions, frozen, row, place, budget),
        PartAt::Part(pair) => {
            let frame = Frame::Expr(ExprFrame::PairValue {
                node,
                at: n,
                row,
                key,
            });
            wait_for(going, functions, frozen, &pair.value, frame, budget)
        }
    }
}
