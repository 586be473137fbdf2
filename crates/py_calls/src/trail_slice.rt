// Slices: their parts, one after the other.
ghost use Rattle.std.specs.Prelude.{◌≡◌, ◌<◌, ◌≤◌, ◌∷◌, ◌++◌, [], suc, length, OnOk, Some};
ghost use Rattle.std.specs.Option.{option_copied, option_map};
ghost use Rattle.py_tree.specs.Seen.{tree, trailer_of};
ghost use Rattle.py_tree.specs.Tree.{present, perhaps};
ghost use Rattle.py_frames.specs.Parts.{place_of, trailers_from};
ghost use Rattle.py_frames.specs.Call_frames.{trailers_of, slice_parts, perhaps_from, parts_then};
ghost use Rattle.py_calls.specs.Slicing.{first_part, slice_in, slice_done};
ghost use Rattle.py_frames.specs.Trailing.{first_trailer};
ghost use Rattle.py_frames.specs.Frames.{GoesOn};

use py_frames::frame::{CallFrame, Frame, Now};
use py_frames::functions::Functions;
use py_frames::going::{Going, wait_for};
use py_frames::state::Halt;
use py_frames::trail_leaf::{place_at, trailer_at};
use py_heap::Frozen;
use py_tree::{Expr, Trailer};
use py_turns::attribute_store::sliced;
use py_turns::call_leaf::{raise, vals_of};
use py_values::{Val, Vals};

// The part of a slice of a number.
#[tactic(auto, using(crate::proofs::SliceLaws::part_rules))]
fn part_in(trailer: &Trailer, n: u64) -> Option<&Option<Expr>>
    ensures { option_map (λ e. perhaps (option_map tree e)) (option_copied result) ≡ first_part (perhaps_from n (slice_in (trailer_of trailer.now))) }
{
    let Trailer::Slice { start, stop, step } = trailer else {
        return None;
    };
    match n {
        0 => Some(start),
        1 => Some(stop),
        2 => Some(step),
        _ => None,
    }
}

// The same of the slice that trails at a number.
#[tactic(auto, using(crate::proofs::SliceLaws::slice_rules))]
fn part_at(node: &Expr, trailer: u64, n: u64) -> Option<&Option<Expr>>
    ensures { option_map (λ e. perhaps (option_map tree e)) (option_copied result) ≡ first_part (perhaps_from n (slice_parts (trailers_from trailer (trailers_of (tree node.now))))) }
{
    match trailer_at(node, trailer) {
        Some(t) => part_in(t, n),
        None => None,
    }
}

// A part of a slice begins, behind those before it.
#[tactic(auto, using(crate::proofs::SliceLaws::part_waits, py_frames::proofs::BeginLaws::turn_rules))]
fn part_begun(
    going: &mut Going,
    functions: &Functions,
    frozen: &Frozen,
    node: &Expr,
    trailer: u64,
    over: Val,
    before: &[Val],
    part: &Expr,
    budget: u64,
) -> Result<Now, Halt>
    requires here { Some (present (tree part.now)) ≡ first_part (perhaps_from (length before.now) (slice_parts (trailers_from trailer (trailers_of (tree node.now))))) }
    ensures moves { GoesOn functions.now frozen.now result going.old going.new budget (λ k. parts_then k over before.now (perhaps_from (length before.now) (slice_parts (trailers_from trailer (trailers_of (tree node.now))))) (place_of (tree node.now))) }
    ensures used { going.new.state.used ≡ going.old.state.used }
{
    let Ok(parts) = vals_of(going.alloc, before) else {
        return Err(Halt::NoMemory);
    };
    let Ok(node) = node.share() else {
        return Err(Halt::NoMemory);
    };
    let frame = Frame::Call(CallFrame::Sliced {
        node,
        trailer,
        over,
        parts,
    });
    wait_for(going, functions, frozen, part, frame, budget)
}

// The last part of a slice, behind the others.
#[tactic(auto, using(crate::proofs::SliceLaws::parts_rules, py_frames::proofs::BeginLaws::turn_rules))]
fn step_begun(
    going: &mut Going,
    functions: &Functions,
    frozen: &Frozen,
    node: &Expr,
    trailer: u64,
    over: Val,
    i: Val,
    j: Val,
    budget: u64,
) -> Result<Now, Halt>
    requires { going.old.state.used < budget }
    ensures moves { GoesOn functions.now frozen.now result going.old going.new budget (λ k. parts_then k over (i ∷ j ∷ []) (perhaps_from 2 (slice_parts (trailers_from trailer (trailers_of (tree node.now))))) (place_of (tree node.now))) }
    ensures left { OnOk result (going.new.state.used < budget) }
    ensures grows { going.old.state.used ≤ going.new.state.used }
{
    let place = place_at(node);
    let Some(part) = part_at(node, trailer, 2) else {
        return raise(going, functions, frozen, place, budget);
    };
    match part {
        Some(part) => part_begun(
            going,
            functions,
            frozen,
            node,
            trailer,
            over,
            &[i, j],
            part,
            budget,
        ),
        None => sliced(
            going,
            functions,
            frozen,
            over,
            i,
            j,
            Val::None,
            place,
            budget,
        ),
    }
}

// The part of a slice behind its start.
#[tactic(auto, using(crate::proofs::SliceLaws::parts_rules, py_frames::proofs::BeginLaws::turn_rules))]
fn stop_begun(
    going: &mut Going,
    functions: &Functions,
    frozen: &Frozen,
    node: &Expr,
    trailer: u64,
    over: Val,
    i: Val,
    budget: u64,
) -> Result<Now, Halt>
    requires { going.old.state.used < budget }
    ensures moves { GoesOn functions.now frozen.now result going.old going.new budget (λ k. parts_then k over (i ∷ []) (perhaps_from 1 (slice_parts (trailers_from trailer (trailers_of (tree node.now))))) (place_of (tree node.now))) }
    ensures left { OnOk result (going.new.state.used < budget) }
    ensures grows { going.old.state.used ≤ going.new.state.used }
{
    let place = place_at(node);
    let Some(part) = part_at(node, trailer, 1) else {
        return raise(going, functions, frozen, place, budget);
    };
    match part {
        Some(part) => part_begun(
            going,
            functions,
            frozen,
            node,
            trailer,
            over,
            &[i],
            part,
            budget,
        ),
        None => step_begun(
            going,
            functions,
            frozen,
            node,
            trailer,
            over,
            i,
            Val::None,
            budget,
        ),
    }
}

/// A slice begins.
#[tactic(auto, using(crate::proofs::SliceLaws::slice_begins, crate::proofs::SliceLaws::parts_rules, py_frames::proofs::BeginLaws::turn_rules))]
pub fn slice_begun(
    going: &mut Going,
    functions: &Functions,
    frozen: &Frozen,
    node: &Expr,
    at: u64,
    _trailer: &Trailer,
    over: Val,
    budget: u64,
) -> Result<Now, Halt>
    requires room { going.old.state.used < budget }
    requires here { Some (trailer_of _trailer.now) ≡ first_trailer (trailers_from at (trailers_of (tree node.now))) }
    ensures moves { GoesOn functions.now frozen.now result going.old going.new budget (λ k. parts_then k over [] (slice_in (trailer_of _trailer.now)) (place_of (tree node.now))) }
    ensures left { OnOk result (going.new.state.used < budget) }
    ensures grows { going.old.state.used ≤ going.new.state.used }
{
    let place = place_at(node);
    let Some(part) = part_at(node, at, 0) else {
        return raise(going, functions, frozen, place, budget);
    };
    match part {
        Some(part) => part_begun(going, functions, frozen, node, at, over, &[], part, budget),
        None => stop_begun(going, functions, frozen, node, at, over, Val::None, budget),
    }
}

// A part of a slice has come, behind those before it.
fn part_behind(
    going: &mut Going,
    functions: &Functions,
    frozen: &Frozen,
    node: &Expr,
    trailer: u64,
    over: Val,
    before: &[Val],
    v: Val,
    budget: u64,
) -> Result<Now, Halt>
    requires { going.old.state.used < budget }
    ensures moves { GoesOn functions.now frozen.now result going.old going.new budget (λ k. slice_done k over before.now v (slice_parts (trailers_from trailer (trailers_of (tree node.now)))) (place_of (tree node.now))) }
    ensures left { OnOk result (going.new.state.used < budget) }
    ensures grows { going.old.state.used ≤ going.new.state.used }
{
    let place = place_at(node);
    match before {
        [] => stop_begun(going, functions, frozen, node, trailer, over, v, budget),
        [i] => step_begun(going, functions, frozen, node, trailer, over, *i, v, budget),
        [i, j] => sliced(going, functions, frozen, over, *i, *j, v, place, budget),
        _ => raise(going, functions, frozen, place, budget),
    }
}

/// A part of a slice has come.
pub fn part_came(
    going: &mut Going,
    functions: &Functions,
    frozen: &Frozen,
    node: &Expr,
    trailer: u64,
    over: Val,
    parts: Vals,
    v: Val,
    budget: u64,
) -> Result<Now, Halt>
    requires { going.old.state.used < budget }
    ensures moves { GoesOn functions.now frozen.now result going.old going.new budget (λ k. parts_then k over (parts ++ v ∷ []) (perhaps_from (suc (length parts)) (slice_parts (trailers_from trailer (trailers_of (tree node.now))))) (place_of (tree node.now))) }
    ensures left { OnOk result (going.new.state.used < budget) }
    ensures grows { going.old.state.used ≤ going.new.state.used }
{
    part_behind(
        going,
        functions,
        frozen,
        node,
        trailer,
        over,
        parts.as_slice(),
        v,
        budget,
    )
}
