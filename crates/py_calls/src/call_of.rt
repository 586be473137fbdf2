// The comprehension that is the one argument of a call.
ghost use Rattle.std.specs.Prelude.{◌≡◌, ◌<◌, ◌≤◌, Some, OnOk};
ghost use Rattle.py_tree.specs.Seen.{tree, each_of};
ghost use Rattle.py_tree.specs.Tree.{CallOf};
ghost use Rattle.py_frames.specs.Doing.{spend};
ghost use Rattle.py_frames.specs.Parts.{place_of, trailers_from};
ghost use Rattle.py_frames.specs.Expressions.{trailed_one};
ghost use Rattle.py_frames.specs.Call_frames.{trailers_of};
ghost use Rattle.py_frames.specs.Expr_parts.{comp_begun};
ghost use Rattle.py_frames.specs.Trailing.{first_trailer};
ghost use Rattle.py_frames.specs.Frames.{GoesOn};

use amh_host::Place;
use py_frames::frame::{CallFrame, Comprehended, Frame, Now, Purpose};
use py_frames::functions::Functions;
use py_frames::going::{Going, spend};
use py_frames::leaf::place_of;
use py_frames::state::Halt;
use py_frames::trail_leaf::share_purpose;
use py_heap::Frozen;
use py_tree::{Comprehension, Expr};
use py_values::Val;
use py_walks::comprehensions::begun_comprehension;

/// The comprehension begins that is the one argument of the call at this number of what trails: the call takes its
/// list.
#[tactic(auto, using(crate::proofs::CallOfLaws::call_rules))]
pub fn call_of_begun(
    going: &mut Going,
    functions: &Functions,
    frozen: &Frozen,
    node: &Expr,
    at: u64,
    e: &Expr,
    _each: &Comprehension,
    purpose: &Purpose,
    v: Val,
    budget: u64,
) -> Result<Now, Halt>
    requires lives { going.old.state.used < budget }
    requires here { Some (CallOf (tree e.now) (each_of _each.now)) ≡ first_trailer (trailers_from at (trailers_of (tree node.now))) }
    ensures moves { GoesOn functions.now frozen.now result going.old going.new budget (λ k. trailed_one k purpose.now (place_of (tree node.now)) (CallOf (tree e.now) (each_of _each.now)) v) }
    ensures left { OnOk result (going.new.state.used < budget) }
    ensures grows { going.old.state.used ≤ going.new.state.used }
{
    let place = place_of(node);
    let Ok(node) = node.share() else {
        return Err(Halt::NoMemory);
    };
    let Ok(purpose) = share_purpose(purpose) else {
        return Err(Halt::NoMemory);
    };
    let comp = Comprehended {
        node,
        trailer: Some(at),
    };
    match going.frames.push(Frame::Call(CallFrame::ListGiven {
        callee: v,
        purpose,
        place,
    })) {
        Ok(()) => list_begun(going, functions, frozen, comp, place_of(e), budget),
        Err(_) => Err(Halt::NoMemory),
    }
}

// A comprehension spends its unit at this place, and begins.
#[tactic(auto, using(crate::proofs::CallOfLaws::list_rules))]
fn list_begun(
    going: &mut Going,
    functions: &Functions,
    frozen: &Frozen,
    comp: Comprehended,
    place: Place,
    budget: u64,
) -> Result<Now, Halt>
    requires { going.old.state.used < budget }
    ensures moves { GoesOn functions.now frozen.now result going.old going.new budget (λ k. spend place (comp_begun k comp)) }
    ensures left { OnOk result (going.new.state.used < budget) }
    ensures grows { going.old.state.used ≤ going.new.state.used }
{
    match spend(going, 1, place, budget) {
        Ok(()) => begun_comprehension(going, functions, frozen, comp, budget),
        Err(halt) => Err(halt),
    }
}
