// What trails a primary, one after the other.
ghost use Rattle.std.specs.Prelude.{◌≡◌, ◌+◌, ◌<◌, ◌≤◌, [], OnOk, Some};
ghost use Rattle.py_tree.specs.Seen.{tree, trailer_of};
ghost use Rattle.py_frames.specs.declared.frame.Along.TheVariants as along_to;
ghost use Rattle.py_frames.specs.declared.frame.CallFrame.TheVariants as call;
ghost use Rattle.py_frames.specs.declared.frame.Frame.TheVariants as frame;
ghost use Rattle.py_frames.specs.declared.frame.Purpose.TheVariants.{Plain};
ghost use Rattle.py_frames.specs.Parts.{place_of, trailers_from};
ghost use Rattle.py_frames.specs.Expressions.{value_of, trailed, trailed_one};
ghost use Rattle.py_frames.specs.Trailing.{first_trailer, index_given};
ghost use Rattle.py_frames.specs.Call_frames.{trailers_of, goes_along};
ghost use Rattle.py_frames.specs.Tables.{IsTable};
ghost use Rattle.py_tree.specs.Tree.{Trailed, Await};
ghost use Rattle.py_frames.specs.Begun.{value_after};
ghost use Rattle.py_frames.specs.Frames.{GoesOn, within};

use crate::call_arguments::arguments_begun;
use crate::call_of::call_of_begun;
use crate::trail_augment::augmented_along;
use crate::trail_slice::slice_begun;
use crate::trail_store::{reach_along, store_along};
use amh_host::Place;
use py_callables::attribute::attribute;
use py_frames::frame::{Along, CallFrame, Frame, Now, Purpose};
use py_frames::functions::Functions;
use py_frames::going::{Going, wait_for};
use py_frames::leaf::following;
use py_frames::state::Halt;
use py_frames::trail_leaf::{ends_in_call, place_at, purpose_before, share_purpose, trailer_at};
use py_heap::Frozen;
use py_tree::{Expr, Trailer};
use py_turns::at_once::at_once;
use py_turns::attribute_store::indexed;
use py_turns::call_leaf::give;
use py_values::Val;

// An index begins; where it is there at once, no frame waits for it.
#[tactic(auto, using(py_frames::proofs::BeginLaws::no_memory))]
fn index_begun(
    going: &mut Going,
    functions: &Functions,
    frozen: &Frozen,
    part: &Expr,
    v: Val,
    place: Place,
    budget: u64,
) -> Result<Now, Halt>
    requires { going.old.state.used < budget }
    ensures moves { GoesOn functions.now frozen.now result going.old going.new budget (λ k. index_given k (tree part.now) v place) }
    ensures left { OnOk result (going.new.state.used < budget) }
    ensures grows { going.old.state.used ≤ going.new.state.used }
{
    let Some(index) = at_once(going, frozen, part, budget) else {
        let frame = Frame::Call(CallFrame::Indexed { over: v, place });
        return wait_for(going, functions, frozen, part, frame, budget);
    };
    going.state.used += index.cost;
    indexed(going, functions, frozen, v, index.val, place, budget)
}

// One of what trails, behind a value.
pub fn trailed_one(
    going: &mut Going,
    functions: &Functions,
    frozen: &Frozen,
    node: &Expr,
    at: u64,
    trailer: &Trailer,
    purpose: &Purpose,
    v: Val,
    budget: u64,
) -> Result<Now, Halt>
    requires room { going.old.state.used < budget }
    requires here { Some (trailer_of trailer.now) ≡ first_trailer (trailers_from at (trailers_of (tree node.now))) }
    requires table { IsTable functions.now }
    ensures moves { GoesOn functions.now frozen.now result going.old going.new budget (λ k. trailed_one k purpose.now (place_of (tree node.now)) (trailer_of trailer.now) v) }
    ensures left { OnOk result (going.new.state.used < budget) }
    ensures grows { going.old.state.used ≤ going.new.state.used }
{
    let place = place_at(node);
    match trailer {
        Trailer::Attribute(name) => attribute(going, functions, frozen, v, name, place, budget),
        Trailer::Call(_) => arguments_begun(
            going, functions, frozen, node, at, trailer, purpose, v, budget,
        ),
        Trailer::CallOf(e, each) => call_of_begun(
            going, functions, frozen, node, at, e, each, purpose, v, budget,
        ),
        Trailer::Index(part) => index_begun(going, functions, frozen, part, v, place, budget),
        Trailer::Slice { .. } => slice_begun(
            going, functions, frozen, node, at, trailer, v, budget,
        ),
    }
}

// What trails at a number, where more trails behind it: a frame waits for its value.
#[tactic(auto, using(py_frames::proofs::BeginLaws::no_memory))]
fn trailed_before(
    going: &mut Going,
    functions: &Functions,
    frozen: &Frozen,
    node: &Expr,
    at: u64,
    next: u64,
    trailer: &Trailer,
    purpose: Purpose,
    v: Val,
    budget: u64,
) -> Result<Now, Halt>
    requires room { going.old.state.used < budget }
    requires table { IsTable functions.now }
    requires here { Some (trailer_of trailer.now) ≡ first_trailer (trailers_from at (trailers_of (tree node.now))) }
    requires behind { next ≡ at + 1 }
    ensures moves { GoesOn functions.now frozen.now result going.old going.new budget (λ k. trailed k purpose (place_of (tree node.now)) (trailers_from at (trailers_of (tree node.now))) v) }
    ensures left { OnOk result (going.new.state.used < budget) }
    ensures grows { going.old.state.used ≤ going.new.state.used }
{
    let Ok(part) = purpose_before(node, next, &purpose) else {
        return Err(Halt::NoMemory);
    };
    let Ok(more) = node.share() else {
        return Err(Halt::NoMemory);
    };
    let along = Along::Value(purpose);
    match going.frames.push(Frame::Call(CallFrame::Trail {
        node: more,
        at: next,
        along,
    })) {
        Ok(()) => trailed_one(
            going, functions, frozen, node, at, trailer, &part, v, budget,
        ),
        Err(_) => Err(Halt::NoMemory),
    }
}

/// On along what trails, to the value of the expression.
#[tactic(auto, using(py_frames::proofs::TrailLaws::trail_end, py_frames::proofs::BeginLaws::no_memory))]
pub fn trail(
    going: &mut Going,
    functions: &Functions,
    frozen: &Frozen,
    node: &Expr,
    at: u64,
    purpose: Purpose,
    v: Val,
    budget: u64,
) -> Result<Now, Halt>
    requires room { going.old.state.used < budget }
    requires table { IsTable functions.now }
    ensures moves { GoesOn functions.now frozen.now result going.old going.new budget (λ k. trailed k purpose (place_of (tree node.now)) (trailers_from at (trailers_of (tree node.now))) v) }
    ensures left { OnOk result (going.new.state.used < budget) }
    ensures grows { going.old.state.used ≤ going.new.state.used }
{
    let Some(trailer) = trailer_at(node, at) else {
        return give(going, functions, frozen, v, budget);
    };
    let Ok(next) = following(at) else {
        return Err(Halt::NoMemory);
    };
    match trailer_at(node, next) {
        None => trailed_one(
            going, functions, frozen, node, at, trailer, &purpose, v, budget,
        ),
        Some(_) => trailed_before(
            going, functions, frozen, node, at, next, trailer, purpose, v, budget,
        ),
    }
}

/// On from a value along what trails it.
#[tactic(auto, using(py_frames::proofs::BeginLaws::turn_rules))]
pub fn goes_along(
    going: &mut Going,
    functions: &Functions,
    frozen: &Frozen,
    node: &Expr,
    at: u64,
    along: Along,
    v: Val,
    budget: u64,
) -> Result<Now, Halt>
    requires room { going.old.state.used < budget }
    requires table { IsTable functions.now }
    ensures moves { GoesOn functions.now frozen.now result going.old going.new budget (λ k. goes_along k along at (tree node.now) v) }
    ensures left { OnOk result (going.new.state.used < budget) }
    ensures grows { going.old.state.used ≤ going.new.state.used }
{
    match along {
        Along::Value(purpose) => trail(going, functions, frozen, node, at, purpose, v, budget),
        Along::Store(stored) => store_along(going, functions, frozen, node, at, v, stored, budget),
        Along::Reach => reach_along(going, functions, frozen, node, at, v, budget),
        Along::Augment(stmt) => augmented_along(
            going, functions, frozen, &stmt, at, node, v, budget,
        ),
    }
}

// The primary begins that is trailed; where it is there at once, no frame waits for it.
#[tactic(auto, using(py_frames::proofs::BeginLaws::no_memory))]
fn primary_begun(
    going: &mut Going,
    functions: &Functions,
    frozen: &Frozen,
    node: Expr,
    first: &Expr,
    purpose: Purpose,
    budget: u64,
) -> Result<Now, Halt>
    requires room { going.old.state.used < budget }
    requires table { IsTable functions.now }
    ensures moves { GoesOn functions.now frozen.now result going.old going.new budget (within (frame.Call (call.Trail node 0 (along_to.Value purpose))) (λ k. value_of k Plain (tree first.now))) }
    ensures left { OnOk result (going.new.state.used < budget) }
    ensures grows { going.old.state.used ≤ going.new.state.used }
{
    let Some(found) = at_once(going, frozen, first, budget) else {
        let along = Along::Value(purpose);
        let frame = Frame::Call(CallFrame::Trail { node, at: 0, along });
        return wait_for(going, functions, frozen, first, frame, budget);
    };
    going.state.used += found.cost;
    trail(
        going, functions, frozen, &node, 0, purpose, found.val, budget,
    )
}

/// The first part of what trails begins.
#[tactic(auto, using(py_frames::proofs::TrailLaws::trailed_begins, py_frames::proofs::BeginLaws::turn_rules))]
pub fn begun_trailed(
    going: &mut Going,
    functions: &Functions,
    frozen: &Frozen,
    e: &Expr,
    first: &Expr,
    purpose: &Purpose,
    budget: u64,
) -> Result<Now, Halt>
    requires room { going.old.state.used < budget }
    requires table { IsTable functions.now }
    requires kind { tree e.now ≡ Trailed e.now.place (tree first.now) (trailers_of (tree e.now)) }
    ensures moves { GoesOn functions.now frozen.now result going.old going.new budget (λ k. value_after k purpose.now (tree e.now)) }
    ensures left { OnOk result (going.new.state.used < budget) }
    ensures grows { going.old.state.used ≤ going.new.state.used }
{
    let Ok(node) = e.share() else {
        return Err(Halt::NoMemory);
    };
    let Ok(purpose) = share_purpose(purpose) else {
        return Err(Halt::NoMemory);
    };
    primary_begun(going, functions, frozen, node, first, purpose, budget)
}

/// What is awaited begins: a call, for its `await`.
#[tactic(auto, using(py_frames::proofs::TrailLaws::await_rules, py_frames::proofs::BeginLaws::turn_rules))]
pub fn begun_await(
    going: &mut Going,
    functions: &Functions,
    frozen: &Frozen,
    e: &Expr,
    part: &Expr,
    purpose: &Purpose,
    budget: u64,
) -> Result<Now, Halt>
    requires { tree e.now ≡ Await e.now.place (tree part.now) }
    ensures moves { GoesOn functions.now frozen.now result going.old going.new budget (λ k. value_after k purpose.now (tree e.now)) }
    ensures used { going.new.state.used ≡ going.old.state.used }
{
    if ends_in_call(part) {
        return match part.share() {
            Ok(part) => Ok(Now::Begin(part, Purpose::Awaited(e.place))),
            Err(_) => Err(Halt::NoMemory),
        };
    }
    let frame = Frame::Call(CallFrame::Awaited { place: e.place });
    wait_for(going, functions, frozen, part, frame, budget)
}
