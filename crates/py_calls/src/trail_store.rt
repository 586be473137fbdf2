// What trails a target: on to the last of it, where a value is stored, or nothing.
ghost use Rattle.std.specs.Prelude.{◌≡◌, ◌<◌, ◌≤◌, OnOk, Some};
ghost use Rattle.py_tree.specs.Seen.{tree, trailer_of};
ghost use Rattle.py_frames.specs.Parts.{place_of, trailers_from};
ghost use Rattle.py_frames.specs.Expressions.{stored, store_last, reached, reach_last};
ghost use Rattle.py_frames.specs.Call_frames.{trailers_of};
ghost use Rattle.py_frames.specs.Trailing.{item_stored};
ghost use Rattle.py_frames.specs.Tables.{IsTable};
ghost use Rattle.py_frames.specs.Frames.{GoesOn};

use crate::trail::trailed_one;
use amh_host::Place;
use py_frames::frame::{Along, CallFrame, Frame, Now, Purpose, StmtFrame, WalkFrame};
use py_frames::functions::Functions;
use py_frames::going::{Going, spend, wait_for};
use py_frames::leaf::following;
use py_frames::state::{Got, Halt};
use py_frames::trail_leaf::{place_at, trailer_at};
use py_heap::Frozen;
use py_tree::{Expr, Trailer};
use py_turns::at_once::at_once;
use py_turns::attribute_store::{store_attribute, store_index};
use py_turns::call_leaf::raise;
use py_turns::stmt_plain::comes;
use py_values::Val;

// A value is stored under an index, which begins; where it is there at once, no frame waits for it.
#[tactic(auto, using(py_frames::proofs::BeginLaws::turn_rules))]
fn item_stored(
    going: &mut Going,
    functions: &Functions,
    frozen: &Frozen,
    part: &Expr,
    over: Val,
    val: Val,
    place: Place,
    budget: u64,
) -> Result<Now, Halt>
    requires { going.old.state.used < budget }
    ensures moves { GoesOn functions.now frozen.now result going.old going.new budget (λ k. item_stored k (tree part.now) over val place) }
    ensures left { OnOk result (going.new.state.used < budget) }
    ensures grows { going.old.state.used ≤ going.new.state.used }
{
    let Some(index) = at_once(going, frozen, part, budget) else {
        let frame = Frame::Walk(WalkFrame::StoredAt { over, val, place });
        return wait_for(going, functions, frozen, part, frame, budget);
    };
    going.state.used += index.cost;
    store_index(
        going, functions, frozen, over, index.val, val, place, budget,
    )
}

// A value is stored in the last of what trails.
fn store_last(
    going: &mut Going,
    functions: &Functions,
    frozen: &Frozen,
    trailer: &Trailer,
    over: Val,
    val: Val,
    place: Place,
    budget: u64,
) -> Result<Now, Halt>
    requires { going.old.state.used < budget }
    ensures moves { GoesOn functions.now frozen.now result going.old going.new budget (λ k. store_last k place (trailer_of trailer.now) over val) }
    ensures left { OnOk result (going.new.state.used < budget) }
    ensures grows { going.old.state.used ≤ going.new.state.used }
{
    match trailer {
        Trailer::Attribute(name) => store_attribute(
            going,
            functions,
            frozen,
            over,
            name.as_str(),
            val,
            place,
            budget,
        ),
        Trailer::Index(part) => item_stored(
            going, functions, frozen, part, over, val, place, budget,
        ),
        Trailer::Call(_) => raise(going, functions, frozen, place, budget),
        Trailer::CallOf(_, _) => raise(going, functions, frozen, place, budget),
        Trailer::Slice { .. } => raise(going, functions, frozen, place, budget),
    }
}

/// On along what trails a target, to the last of it, where a value is stored.
#[tactic(auto, using(py_frames::proofs::StoreLaws::stored_end, py_frames::proofs::BeginLaws::no_memory))]
pub fn store_along(
    going: &mut Going,
    functions: &Functions,
    frozen: &Frozen,
    node: &Expr,
    at: u64,
    over: Val,
    val: Val,
    budget: u64,
) -> Result<Now, Halt>
    requires room { going.old.state.used < budget }
    requires table { IsTable functions.now }
    ensures moves { GoesOn functions.now frozen.now result going.old going.new budget (λ k. stored k (place_of (tree node.now)) (trailers_from at (trailers_of (tree node.now))) over val) }
    ensures left { OnOk result (going.new.state.used < budget) }
    ensures grows { going.old.state.used ≤ going.new.state.used }
{
    let place = place_at(node);
    let Some(trailer) = trailer_at(node, at) else {
        return raise(going, functions, frozen, place, budget);
    };
    let Ok(next) = following(at) else {
        return Err(Halt::NoMemory);
    };
    let Some(_) = trailer_at(node, next) else {
        return store_last(going, functions, frozen, trailer, over, val, place, budget);
    };
    let Ok(more) = node.share() else {
        return Err(Halt::NoMemory);
    };
    match going.frames.push(Frame::Call(CallFrame::Trail {
        node: more,
        at: next,
        along: Along::Store(val),
    })) {
        Ok(()) => trailed_one(
            going,
            functions,
            frozen,
            node,
            at,
            trailer,
            &Purpose::Plain,
            over,
            budget,
        ),
        Err(_) => Err(Halt::NoMemory),
    }
}

// The parts of the last of what trails are evaluated.
#[tactic(auto, using(py_frames::proofs::BeginLaws::turn_rules))]
fn reach_last(
    going: &mut Going,
    functions: &Functions,
    frozen: &Frozen,
    trailer: &Trailer,
    place: Place,
    budget: u64,
) -> Result<Now, Halt>
    ensures moves { GoesOn functions.now frozen.now result going.old going.new budget (λ k. reach_last k place (trailer_of trailer.now)) }
    ensures used { going.new.state.used ≡ going.old.state.used }
{
    match trailer {
        Trailer::Attribute(_) => comes(going, functions, frozen, Got::Next, budget),
        Trailer::Index(part) => {
            let frame = Frame::Stmt(StmtFrame::LetGo);
            wait_for(going, functions, frozen, part, frame, budget)
        }
        Trailer::Call(_) => raise(going, functions, frozen, place, budget),
        Trailer::CallOf(_, _) => raise(going, functions, frozen, place, budget),
        Trailer::Slice { .. } => raise(going, functions, frozen, place, budget),
    }
}

/// On along what trails a target, to the last of it, where nothing is stored.
#[tactic(auto, using(py_frames::proofs::StoreLaws::reached_end, py_frames::proofs::BeginLaws::no_memory))]
pub fn reach_along(
    going: &mut Going,
    functions: &Functions,
    frozen: &Frozen,
    node: &Expr,
    at: u64,
    over: Val,
    budget: u64,
) -> Result<Now, Halt>
    requires room { going.old.state.used < budget }
    requires table { IsTable functions.now }
    ensures moves { GoesOn functions.now frozen.now result going.old going.new budget (λ k. reached k (place_of (tree node.now)) (trailers_from at (trailers_of (tree node.now))) over) }
    ensures left { OnOk result (going.new.state.used < budget) }
    ensures grows { going.old.state.used ≤ going.new.state.used }
{
    let place = place_at(node);
    let Some(trailer) = trailer_at(node, at) else {
        return raise(going, functions, frozen, place, budget);
    };
    let Ok(next) = following(at) else {
        return Err(Halt::NoMemory);
    };
    let Some(_) = trailer_at(node, next) else {
        return reach_last(going, functions, frozen, trailer, place, budget);
    };
    let Ok(more) = node.share() else {
        return Err(Halt::NoMemory);
    };
    match going.frames.push(Frame::Call(CallFrame::Trail {
        node: more,
        at: next,
        along: Along::Reach,
    })) {
        Ok(()) => trailed_one(
            going,
            functions,
            frozen,
            node,
            at,
            trailer,
            &Purpose::Plain,
            over,
            budget,
        ),
        Err(_) => Err(Halt::NoMemory),
    }
}
