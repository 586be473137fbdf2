// Parts that are there at once: no frame waits for them, and nothing is made in the heap.
ghost use Rattle.std.specs.Prelude.{◌≡◌, ◌+◌, ◌<◌, ◌≤◌, OnOk, IfSome, Some, map};
ghost use Rattle.py_tree.specs.Seen.{tree, link_tree, trailer_of};
ghost use Rattle.py_tree.specs.Tree.{links, trailers};
ghost use Rattle.py_heap.specs.Heaps.{seen};
ghost use Rattle.py_frames.specs.declared.frame.Purpose.TheVariants.{Plain};
ghost use Rattle.py_frames.specs.Expressions.{value_of};
ghost use Rattle.py_frames.specs.Frames.{GoesOn, KeepsRoom, within};
ghost use Rattle.py_frames.specs.Leaves.{at_cost, of_both, joined, item_of, own_attribute, attribute_of, at_once, link_at_once, trailers_at_once};

use py_builtins::{integers_operated, item_at};
use py_frames::frame::{Frame, Now};
use py_frames::functions::Functions;
use py_frames::going::{Going, wait_for};
use py_frames::leaf::{Priced, operator_of};
use py_frames::leaf_value::leaf_value;
use py_frames::state::{Got, Halt};
use py_heap::Frozen;
use py_tree::{Expr, ExprKind, Link, Name, Operator, Trailer};
use py_values::Val;

// How deep parts stand in one another that are tried.
const DEPTH: u64 = 4;

/// The value of a part that is there at once, where the budget has its units.
pub fn at_once(going: &Going, frozen: &Frozen, e: &Expr, budget: u64) -> Option<Priced>
    ensures value { IfSome result (λ x. Some x ≡ at_once (seen frozen.now going.now.state.heap) going.now.state.here.scope.0 (tree e.now)) }
    ensures room { IfSome result (λ x. going.now.state.used + x.cost < budget) }
{
    let Some(found) = part_at_once(going, frozen, e, DEPTH) else {
        return None;
    };
    let Some(used) = going.state.used.checked_add(found.cost) else {
        return None;
    };
    if used < budget { Some(found) } else { None }
}

/// Begins a part of a node; a frame waits for its value, which has come where the part is there at once.
#[tactic(auto, using(py_frames::proofs::BeginLaws::no_memory))]
pub fn wait_or_come(
    going: &mut Going,
    functions: &Functions,
    frozen: &Frozen,
    part: &Expr,
    frame: Frame,
    budget: u64,
) -> Result<Now, Halt>
    requires lives { going.old.state.used < budget }
    requires room { KeepsRoom frame going.old.state.here.room }
    ensures moves { GoesOn functions.now frozen.now result going.old going.new budget (within frame (λ k. value_of k Plain (tree part.now))) }
    ensures left { OnOk result (going.new.state.used < budget) }
    ensures grows { going.old.state.used ≤ going.new.state.used }
{
    let Some(found) = at_once(going, frozen, part, budget) else {
        return wait_for(going, functions, frozen, part, frame, budget);
    };
    match going.frames.push(frame) {
        Ok(()) => {
            going.state.used += found.cost;
            Ok(Now::Came(Got::Value(found.val)))
        }
        Err(_) => Err(Halt::NoMemory),
    }
}

// The value of a part in which parts stand no deeper than this.
#[cycle(part)]
fn part_at_once(going: &Going, frozen: &Frozen, e: &Expr, depth: u64) -> Option<Priced>
    ensures { IfSome result (λ x. Some x ≡ at_once (seen frozen.now going.now.state.heap) going.now.state.here.scope.0 (tree e.now)) }
{
    if depth == 0 {
        return leaf_at_once(going, frozen, e);
    }
    match &*e.kind {
        ExprKind::Binary(first, links) => {
            link_at_once(going, frozen, first, links.as_slice(), depth - 1)
        }
        ExprKind::Compare(first, links) => {
            link_at_once(going, frozen, first, links.as_slice(), depth - 1)
        }
        ExprKind::Trailed(first, trailers) => {
            trailer_at_once(going, frozen, first, trailers.as_slice(), depth - 1)
        }
        _ => leaf_at_once(going, frozen, e),
    }
}

// The operator of two parts.
#[cycle(part)]
fn link_at_once(
    going: &Going,
    frozen: &Frozen,
    first: &Expr,
    behind: &[Link],
    depth: u64,
) -> Option<Priced>
    ensures { IfSome result (λ x. Some x ≡ link_at_once (seen frozen.now going.now.state.heap) going.now.state.here.scope.0 (links (map link_tree behind.now)) (at_once (seen frozen.now going.now.state.heap) going.now.state.here.scope.0 (tree first.now))) }
{
    let [link] = behind else {
        return None;
    };
    let Some(a) = part_at_once(going, frozen, first, depth) else {
        return None;
    };
    let Some(b) = part_at_once(going, frozen, &link.operand, depth) else {
        return None;
    };
    joined(link.operator, a, b)
}

// What trails a part.
#[cycle(part)]
fn trailer_at_once(
    going: &Going,
    frozen: &Frozen,
    first: &Expr,
    behind: &[Trailer],
    depth: u64,
) -> Option<Priced>
    ensures { IfSome result (λ x. Some x ≡ trailers_at_once (seen frozen.now going.now.state.heap) going.now.state.here.scope.0 (trailers (map trailer_of behind.now)) (at_once (seen frozen.now going.now.state.heap) going.now.state.here.scope.0 (tree first.now))) }
{
    let [trailer] = behind else {
        return None;
    };
    match trailer {
        Trailer::Attribute(name) => match part_at_once(going, frozen, first, depth) {
            Some(a) => attribute_of(going, frozen, name, a),
            None => None,
        },
        Trailer::Index(part) => item_at_once(going, frozen, first, part, depth),
        _ => None,
    }
}

// The item of a part at another.
#[cycle(part)]
fn item_at_once(
    going: &Going,
    frozen: &Frozen,
    first: &Expr,
    part: &Expr,
    depth: u64,
) -> Option<Priced>
    ensures { IfSome result (λ x. Some x ≡ of_both (item_of (seen frozen.now going.now.state.heap)) (at_once (seen frozen.now going.now.state.heap) going.now.state.here.scope.0 (tree first.now)) (at_once (seen frozen.now going.now.state.heap) going.now.state.here.scope.0 (tree part.now))) }
{
    let Some(a) = part_at_once(going, frozen, first, depth) else {
        return None;
    };
    match part_at_once(going, frozen, part, depth) {
        Some(i) => item_of(going, frozen, a, i),
        None => None,
    }
}

// A value, where there is one, and so many units.
fn at_cost(cost: u64, v: Option<Val>) -> Option<Priced>
    ensures { result ≡ at_cost cost v }
{
    match v {
        Some(val) => Some(Priced { val, cost }),
        None => None,
    }
}

// One unit and those of two parts.
fn cost_of_both(a: u64, b: u64) -> Option<u64>
    ensures { IfSome result (λ n. n ≡ 1 + a + b) }
{
    match a.checked_add(b) {
        Some(n) => n.checked_add(1),
        None => None,
    }
}

#[tactic(auto, using(crate::proofs::AtOnceLaws::leaf_at_once))]
fn leaf_at_once(going: &Going, frozen: &Frozen, e: &Expr) -> Option<Priced>
    ensures { IfSome result (λ x. Some x ≡ at_once (seen frozen.now going.now.state.heap) going.now.state.here.scope.0 (tree e.now)) }
{
    at_cost(1, leaf_value(going, frozen, e))
}

fn joined(sign: Operator, a: Priced, b: Priced) -> Option<Priced>
    ensures { IfSome result (λ x. Some x ≡ joined sign a b) }
{
    match cost_of_both(a.cost, b.cost) {
        Some(cost) => at_cost(cost, integers_operated(operator_of(sign), a.val, b.val)),
        None => None,
    }
}

fn item_of(going: &Going, frozen: &Frozen, a: Priced, i: Priced) -> Option<Priced>
    ensures { IfSome result (λ x. Some x ≡ item_of (seen frozen.now going.now.state.heap) a i) }
{
    match cost_of_both(a.cost, i.cost) {
        Some(cost) => at_cost(cost, item_at(&going.state.heap, frozen, a.val, i.val)),
        None => None,
    }
}

// The attribute that an object has itself.
fn own_attribute(going: &Going, frozen: &Frozen, name: &Name, v: Val) -> Option<Val>
    ensures { result ≡ own_attribute (seen frozen.now going.now.state.heap) name.now v }
{
    match v {
        Val::Object(o) => going.state.heap.attribute(frozen, o, name.as_str()),
        _ => None,
    }
}

fn attribute_of(going: &Going, frozen: &Frozen, name: &Name, a: Priced) -> Option<Priced>
    ensures { IfSome result (λ x. Some x ≡ attribute_of (seen frozen.now going.now.state.heap) name.now a) }
{
    match a.cost.checked_add(1) {
        Some(cost) => at_cost(cost, own_attribute(going, frozen, name, a.val)),
        None => None,
    }
}
