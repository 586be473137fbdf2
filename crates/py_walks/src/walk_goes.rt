// How the frames of comprehensions and of targets go on.
ghost use Rattle.std.specs.Prelude.{◌≡◌, ◌<◌, ◌≤◌, true, OnOk};
ghost use Rattle.py_frames.specs.Walk_frames.{walk_goes, walk_value_goes};
ghost use Rattle.py_walks.specs.Walk_parts.{takes_any};
ghost use Rattle.py_frames.specs.Frames.{GoesOn};

use crate::comp_turns::{bound_left, made_came, pair_made_came, source_row_came, tested_came};
use crate::comprehensions::source_came;
use crate::target_turns::{unpacked, unpacking_left};
use py_frames::frame::{Now, WalkFrame};
use py_frames::functions::Functions;
use py_frames::going::Going;
use py_frames::state::{Got, Halt};
use py_heap::Frozen;
use py_turns::attribute_store::store_index;
use py_turns::block::value_come;
use py_values::Val;

// Whether a frame waits for more than a value.
fn takes_any(frame: &WalkFrame) -> bool
    ensures { result ≡ takes_any frame.now }
{
    match frame {
        WalkFrame::Bound {
            comp: _,
            walk: _,
            done: _,
            outer: _,
        } => true,
        WalkFrame::Unpacking {
            node: _,
            next: _,
            vals: _,
        } => true,
        _ => false,
    }
}

/// A frame of a comprehension or of a target goes on with what it waits for.
#[tactic(auto, using(crate::proofs::WalkGoes::goes_rules))]
pub fn walk_goes(
    going: &mut Going,
    functions: &Functions,
    frozen: &Frozen,
    frame: WalkFrame,
    got: Got,
    budget: u64,
) -> Result<Now, Halt>
    requires { going.old.state.used < budget }
    ensures moves { GoesOn functions.now frozen.now result going.old going.new budget (λ k. walk_goes k frame got) }
    ensures left { OnOk result (going.new.state.used < budget) }
    ensures grows { going.old.state.used ≤ going.new.state.used }
{
    if takes_any(&frame) {
        return walk_left(going, functions, frozen, frame, got, budget);
    }
    match value_come(&got) {
        Some(v) => walk_value(going, functions, frozen, frame, v, budget),
        None => Ok(Now::Came(got)),
    }
}

// A frame that waits for more than a value.
#[tactic(auto, using(crate::proofs::WalkGoes::left_rules))]
fn walk_left(
    going: &mut Going,
    functions: &Functions,
    frozen: &Frozen,
    frame: WalkFrame,
    got: Got,
    budget: u64,
) -> Result<Now, Halt>
    requires lives { going.old.state.used < budget }
    requires kind { takes_any frame ≡ true }
    ensures moves { GoesOn functions.now frozen.now result going.old going.new budget (λ k. walk_goes k frame got) }
    ensures left { OnOk result (going.new.state.used < budget) }
    ensures grows { going.old.state.used ≤ going.new.state.used }
{
    match frame {
        WalkFrame::Bound {
            comp,
            walk,
            done,
            outer,
        } => bound_left(
            going, functions, frozen, comp, walk, done, outer, got, budget,
        ),
        WalkFrame::Unpacking { node, next, vals } => {
            unpacking_left(going, functions, frozen, node, next, vals, got, budget)
        }
        _ => Err(Halt::NoMemory),
    }
}

// A frame that waits for a value.
#[tactic(auto, using(crate::proofs::WalkGoes::value_rules))]
fn walk_value(
    going: &mut Going,
    functions: &Functions,
    frozen: &Frozen,
    frame: WalkFrame,
    v: Val,
    budget: u64,
) -> Result<Now, Halt>
    requires { going.old.state.used < budget }
    ensures moves { GoesOn functions.now frozen.now result going.old going.new budget (λ k. walk_value_goes k frame v) }
    ensures left { OnOk result (going.new.state.used < budget) }
    ensures grows { going.old.state.used ≤ going.new.state.used }
{
    match frame {
        WalkFrame::Source { comp } => source_came(going, functions, frozen, comp, v, budget),
        WalkFrame::SourceRow { comp } => {
            source_row_came(going, functions, frozen, comp, v, budget)
        }
        WalkFrame::Tested {
            comp,
            walk,
            done,
            outer,
        } => tested_came(going, functions, frozen, comp, walk, done, outer, v, budget),
        WalkFrame::Made {
            comp,
            walk,
            done,
            outer,
        } => made_came(going, functions, frozen, comp, walk, done, outer, v, budget),
        WalkFrame::PairMade {
            comp,
            walk,
            done,
            outer,
            key,
        } => pair_made_came(
            going,
            functions,
            frozen,
            comp,
            walk.into_inner(),
            done,
            outer,
            key,
            v,
            budget,
        ),
        WalkFrame::Unpacked { node } => unpacked(going, functions, frozen, node, v, budget),
        WalkFrame::StoredAt { over, val, place } => {
            store_index(going, functions, frozen, over, v, val, place, budget)
        }
        WalkFrame::Bound { .. } => Ok(Now::Came(Got::Next)),
        WalkFrame::Unpacking { .. } => Ok(Now::Came(Got::Next)),
    }
}
