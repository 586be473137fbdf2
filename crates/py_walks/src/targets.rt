// Targets: a value is bound to a name, unpacked, or stored in an attribute or at an index; or nothing goes there.
ghost use Rattle.std.specs.Prelude.{◌≡◌, ◌<◌, ◌≤◌, map, OnOk};
ghost use Rattle.py_tree.specs.Seen.{tree, trailer_of};
ghost use Rattle.py_tree.specs.Tree.{Name as Named, Tuple, Trailed, trees, trailers};
ghost use Rattle.py_heap.specs.Heaps.{seen};
ghost use Rattle.py_operators.specs.Elements.{elements, counts_to};
ghost use Rattle.py_frames.specs.Expressions.{assign, reach};
ghost use Rattle.py_walks.specs.Walk_parts.{TellsElements};
ghost use Rattle.py_frames.specs.Frames.{GoesOn};

use amh_host::Place;
use py_frames::frame::{Along, CallFrame, Frame, Now, WalkFrame};
use py_frames::functions::Functions;
use py_frames::going::{Going, spend, stopped, wait_for};
use py_frames::leaf::{cost_of, is_trailed};
use py_frames::request::Cause;
use py_frames::state::{Got, Halt};
use py_heap::Frozen;
use py_operators::elements;
use py_tree::{Expr, ExprKind, Name, Trailer};
use py_turns::at_once::wait_or_come;
use py_turns::attribute_store::as_row;
use py_turns::expr_values::bind;
use py_values::{Val, Vals, ValueStop};

// A name is bound.
#[tactic(auto, using(crate::proofs::TargetLaws::name_rules))]
pub fn assign_name(
    going: &mut Going,
    functions: &Functions,
    frozen: &Frozen,
    target: &Expr,
    name: &Name,
    v: Val,
    budget: u64,
) -> Result<Now, Halt>
    requires lives { going.old.state.used < budget }
    requires kind { tree target.now ≡ Named target.now.place name.now }
    ensures moves { GoesOn functions.now frozen.now result going.old going.new budget (λ k. assign k (tree target.now) v) }
    ensures left { OnOk result (going.new.state.used < budget) }
    ensures grows { going.old.state.used ≤ going.new.state.used }
{
    match bind(going, frozen, name.as_str(), v, target.place) {
        Ok(()) => Ok(Now::Came(Got::Next)),
        Err(halt) => Err(halt),
    }
}

// A value is unpacked: its elements first.
#[tactic(auto, using(crate::proofs::TargetLaws::tuple_rules))]
pub fn assign_tuple(
    going: &mut Going,
    functions: &Functions,
    frozen: &Frozen,
    target: &Expr,
    _items: &Vec<Expr>,
    v: Val,
    budget: u64,
) -> Result<Now, Halt>
    requires lives { going.old.state.used < budget }
    requires kind { tree target.now ≡ Tuple target.now.place (trees (map tree _items.now.items)) }
    ensures moves { GoesOn functions.now frozen.now result going.old going.new budget (λ k. assign k (tree target.now) v) }
    ensures left { OnOk result (going.new.state.used < budget) }
    ensures grows { going.old.state.used ≤ going.new.state.used }
{
    let Ok(node) = target.share() else {
        return Err(Halt::NoMemory);
    };
    match going.frames.push(Frame::Walk(WalkFrame::Unpacked { node })) {
        Ok(()) => as_row(going, functions, frozen, v, target.place, budget),
        Err(_) => Err(Halt::NoMemory),
    }
}

// A value is stored in what trails last: what it trails first.
#[tactic(auto, using(crate::proofs::TargetLaws::trailed_rules))]
pub fn assign_trailed(
    going: &mut Going,
    functions: &Functions,
    frozen: &Frozen,
    target: &Expr,
    first: &Expr,
    _behind: &Vec<Trailer>,
    v: Val,
    budget: u64,
) -> Result<Now, Halt>
    requires lives { going.old.state.used < budget }
    requires kind { tree target.now ≡ Trailed target.now.place (tree first.now) (trailers (map trailer_of _behind.now.items)) }
    ensures moves { GoesOn functions.now frozen.now result going.old going.new budget (λ k. assign k (tree target.now) v) }
    ensures left { OnOk result (going.new.state.used < budget) }
    ensures grows { going.old.state.used ≤ going.new.state.used }
{
    let Ok(node) = target.share() else {
        return Err(Halt::NoMemory);
    };
    match spend(going, cost_of(target), target.place, budget) {
        Ok(()) => wait_or_come(
            going,
            functions,
            frozen,
            first,
            Frame::Call(CallFrame::Trail {
                node,
                at: 0,
                along: Along::Store(v),
            }),
            budget,
        ),
        Err(halt) => Err(halt),
    }
}

// What the last trailer of a target stands behind comes first, where nothing is stored.
#[tactic(auto, using(py_frames::proofs::BeginLaws::no_memory))]
fn reach_trailed(
    going: &mut Going,
    functions: &Functions,
    frozen: &Frozen,
    target: &Expr,
    first: &Expr,
    _behind: &Vec<Trailer>,
    budget: u64,
) -> Result<Now, Halt>
    requires lives { going.old.state.used < budget }
    requires kind { tree target.now ≡ Trailed target.now.place (tree first.now) (trailers (map trailer_of _behind.now.items)) }
    ensures moves { GoesOn functions.now frozen.now result going.old going.new budget (λ k. reach k (tree target.now)) }
    ensures left { OnOk result (going.new.state.used < budget) }
    ensures grows { going.old.state.used ≤ going.new.state.used }
{
    let Ok(node) = target.share() else {
        return Err(Halt::NoMemory);
    };
    let all = cost_of(target);
    let units = all.saturating_sub(1);
    match spend(going, units, target.place, budget) {
        Ok(()) => wait_for(
            going,
            functions,
            frozen,
            first,
            Frame::Call(CallFrame::Trail {
                node,
                at: 0,
                along: Along::Reach,
            }),
            budget,
        ),
        Err(halt) => Err(halt),
    }
}

/// A target to which nothing goes, as that of an annotation without a value: its primary and its index are evaluated.
#[tactic(auto, using(crate::proofs::TargetLaws::reach_rules))]
pub fn reach(
    going: &mut Going,
    functions: &Functions,
    frozen: &Frozen,
    target: &Expr,
    budget: u64,
) -> Result<Now, Halt>
    requires { going.old.state.used < budget }
    ensures moves { GoesOn functions.now frozen.now result going.old going.new budget (λ k. reach k (tree target.now)) }
    ensures left { OnOk result (going.new.state.used < budget) }
    ensures grows { going.old.state.used ≤ going.new.state.used }
{
    let trails = is_trailed(target);
    if trails {
        return match &*target.kind {
            ExprKind::Trailed(first, behind) => reach_trailed(
                going, functions, frozen, target, first, behind, budget,
            ),
            _ => Err(Halt::NoMemory),
        };
    }
    Ok(Now::Came(Got::Next))
}

// Whether a value has so many elements.
pub fn counts_to(going: &Going, frozen: &Frozen, v: &Val, n: u64) -> bool
    ensures { result ≡ counts_to (seen frozen.now going.now.state.heap) v.now n }
{
    py_operators::counts_to(&going.state.heap, frozen, *v, n as usize)
}

// The elements of a value, or a stop where it has none.
pub fn elements_of(going: &Going, frozen: &Frozen, v: &Val, place: Place) -> Result<Vals, Halt>
    ensures { TellsElements result (elements (seen frozen.now going.now.state.heap) v.now) place }
{
    match elements(&going.state.heap, frozen, *v) {
        Ok(vals) => Ok(vals),
        Err(ValueStop::Raised) => Err(stopped(Cause::Raised, place)),
        Err(ValueStop::Width) => Err(stopped(Cause::Width, place)),
        Err(ValueStop::Limit) => Err(stopped(Cause::Limit, place)),
        Err(ValueStop::Spent) => Err(stopped(Cause::Spent, place)),
        Err(ValueStop::NoMemory) => Err(Halt::NoMemory),
    }
}
