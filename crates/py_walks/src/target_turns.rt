// Targets: a value is bound to a name, unpacked, or stored in an attribute or at an index.
ghost use Rattle.std.specs.Prelude.{◌<◌, ◌≤◌, OnOk};
ghost use Rattle.py_tree.specs.Seen.{tree};
ghost use Rattle.py_frames.specs.Doing.{on_next, spend_each};
ghost use Rattle.py_frames.specs.Parts.{trees_from};
ghost use Rattle.py_frames.specs.Expressions.{assign, assign_each};
ghost use Rattle.py_frames.specs.Walk_frames.{targets_in, unpacked};
ghost use Rattle.py_frames.specs.Frames.{GoesOn, KeepsRoom, within};

use crate::targets::{assign_name, assign_trailed, assign_tuple, counts_to, elements_of};
use crate::walk_parts::{Parted, is_target, split, target_at, target_count};
use amh_host::Place;
use py_frames::frame::{Frame, Now, WalkFrame};
use py_frames::functions::Functions;
use py_frames::going::{Going, spend, stopped};
use py_frames::leaf::{PartAt, following, place_of};
use py_frames::request::Cause;
use py_frames::state::{Got, Halt};
use py_heap::Frozen;
use py_tree::{Expr, ExprKind};
use py_turns::block::leaves;
use py_values::{Val, Vals};

/// A value goes to a target.
#[tactic(auto, using(crate::proofs::TargetLaws::target_rules))]
pub fn assign(
    going: &mut Going,
    functions: &Functions,
    frozen: &Frozen,
    target: &Expr,
    v: Val,
    budget: u64,
) -> Result<Now, Halt>
    requires { going.old.state.used < budget }
    ensures moves { GoesOn functions.now frozen.now result going.old going.new budget (λ k. assign k (tree target.now) v) }
    ensures left { OnOk result (going.new.state.used < budget) }
    ensures grows { going.old.state.used ≤ going.new.state.used }
{
    let fits = is_target(target);
    if fits {
        return match &*target.kind {
            ExprKind::Name(name) => {
                assign_name(going, functions, frozen, target, name, v, budget)
            }
            ExprKind::Tuple(items) => assign_tuple(
                going, functions, frozen, target, items, v, budget,
            ),
            ExprKind::Trailed(first, behind) => assign_trailed(
                going, functions, frozen, target, first, behind, v, budget,
            ),
            _ => Err(Halt::NoMemory),
        };
    }
    Err(stopped(Cause::Raised, place_of(target)))
}

/// A value goes to a target; a frame waits until it is there.
#[tactic(auto, using(crate::proofs::TargetLaws::under_rules))]
pub fn assign_under(
    going: &mut Going,
    functions: &Functions,
    frozen: &Frozen,
    target: &Expr,
    v: Val,
    frame: Frame,
    budget: u64,
) -> Result<Now, Halt>
    requires lives { going.old.state.used < budget }
    requires room { KeepsRoom frame going.old.state.here.room }
    ensures moves { GoesOn functions.now frozen.now result going.old going.new budget (within frame (λ k. assign k (tree target.now) v)) }
    ensures left { OnOk result (going.new.state.used < budget) }
    ensures grows { going.old.state.used ≤ going.new.state.used }
{
    match going.frames.push(frame) {
        Ok(()) => assign(going, functions, frozen, target, v, budget),
        Err(_) => Err(Halt::NoMemory),
    }
}

/// A value is unpacked, whose elements are there: as many as there are targets.
#[tactic(auto, using(crate::proofs::TargetLaws::unpack_rules))]
pub fn unpacked(
    going: &mut Going,
    functions: &Functions,
    frozen: &Frozen,
    node: Expr,
    row: Val,
    budget: u64,
) -> Result<Now, Halt>
    requires { going.old.state.used < budget }
    ensures moves { GoesOn functions.now frozen.now result going.old going.new budget (λ k. unpacked k (tree node) row) }
    ensures left { OnOk result (going.new.state.used < budget) }
    ensures grows { going.old.state.used ≤ going.new.state.used }
{
    let place = place_of(&node);
    let count = target_count(&node);
    let fits = counts_to(going, frozen, &row, count);
    if fits {
        return match elements_of(going, frozen, &row, place) {
            Ok(vals) => unpacked_to(going, functions, frozen, node, vals, place, count, budget),
            Err(halt) => Err(halt),
        };
    }
    Err(stopped(Cause::Raised, place))
}

// The units of so many targets, and then the elements go to them.
#[tactic(auto, using(crate::proofs::TargetLaws::spread_rules))]
pub fn unpacked_to(
    going: &mut Going,
    functions: &Functions,
    frozen: &Frozen,
    node: Expr,
    vals: Vals,
    place: Place,
    count: u64,
    budget: u64,
) -> Result<Now, Halt>
    requires { going.old.state.used < budget }
    ensures moves { GoesOn functions.now frozen.now result going.old going.new budget (λ k. spend_each count place (assign_each k (targets_in (tree node)) vals)) }
    ensures left { OnOk result (going.new.state.used < budget) }
    ensures grows { going.old.state.used ≤ going.new.state.used }
{
    match spend(going, count, place, budget) {
        Ok(()) => assign_each(going, functions, frozen, node, 0, vals, budget),
        Err(halt) => Err(halt),
    }
}

// Each of the targets from this number on takes a value.
#[tactic(auto, using(crate::proofs::TargetLaws::each_rules))]
pub fn assign_each(
    going: &mut Going,
    functions: &Functions,
    frozen: &Frozen,
    node: Expr,
    n: u64,
    vals: Vals,
    budget: u64,
) -> Result<Now, Halt>
    requires { going.old.state.used < budget }
    ensures moves { GoesOn functions.now frozen.now result going.old going.new budget (λ k. assign_each k (trees_from n (targets_in (tree node))) vals) }
    ensures left { OnOk result (going.new.state.used < budget) }
    ensures grows { going.old.state.used ≤ going.new.state.used }
{
    match target_at(&node, n) {
        PartAt::NoMemory => Err(Halt::NoMemory),
        PartAt::Past => Ok(Now::Came(Got::Next)),
        PartAt::Part(target) => match split(going.alloc, &vals) {
            Parted::NoMemory => Err(Halt::NoMemory),
            Parted::Empty => Ok(Now::Came(Got::Next)),
            Parted::First(v, vals) => {
                let Ok(next) = following(n) else {
                    return Err(Halt::NoMemory);
                };
                let frame = Frame::Walk(WalkFrame::Unpacking { node, next, vals });
                assign_under(going, functions, frozen, &target, v, frame, budget)
            }
        },
    }
}

/// A value went to the target before this one.
#[tactic(auto, using(crate::proofs::TargetLaws::left_rules))]
pub fn unpacking_left(
    going: &mut Going,
    functions: &Functions,
    frozen: &Frozen,
    node: Expr,
    n: u64,
    vals: Vals,
    got: Got,
    budget: u64,
) -> Result<Now, Halt>
    requires { going.old.state.used < budget }
    ensures moves { GoesOn functions.now frozen.now result going.old going.new budget (λ k. on_next got (assign_each k (trees_from n (targets_in (tree node))) vals)) }
    ensures left { OnOk result (going.new.state.used < budget) }
    ensures grows { going.old.state.used ≤ going.new.state.used }
{
    let left = leaves(&got);
    if left {
        return Ok(Now::Came(got));
    }
    assign_each(going, functions, frozen, node, n, vals, budget)
}
