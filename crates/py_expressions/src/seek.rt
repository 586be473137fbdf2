// `in` and `not in`, which ask for each comparison where there is a thing on either side of it.
ghost use Rattle.std.specs.Prelude.{◌≡◌, ◌<◌, ◌≤◌, OnOk, drop};
ghost use Rattle.py_heap.specs.Heaps.{seen};
ghost use Rattle.py_frames.specs.Doing.{give, choose};
ghost use Rattle.py_frames.specs.Values.{is_same_thing, seeks_things, truth_of, matched, sought, contained, related};
ghost use Rattle.py_values.specs.declared.val.Val.TheVariants as val;
ghost use Rattle.py_frames.specs.Frames.{GoesOn};

use amh_host::Place;
use py_frames::frame::{ExprFrame, Frame, Now};
use py_frames::functions::Functions;
use py_frames::going::{Going, spend};
use py_frames::state::{Got, Halt};
use py_heap::Frozen;
use py_operators::elements;
use py_turns::binds::refused;
use py_turns::expr_values::truth_of;
use py_turns::operators::{has_thing, is_thing, operated};
use py_values::{PyOp, Val, Vals};

/// An operator that compares two operands.
#[tactic(auto, using(py_frames::proofs::BeginLaws::no_memory))]
pub fn related(
    going: &mut Going,
    functions: &Functions,
    frozen: &Frozen,
    op: PyOp,
    a: &Val,
    b: &Val,
    place: Place,
    budget: u64,
) -> Result<Now, Halt>
    requires { going.old.state.used < budget }
    ensures moves { GoesOn functions.now frozen.now result going.old going.new budget (λ k. related k op a.now b.now place) }
    ensures left { OnOk result (going.new.state.used < budget) }
    ensures grows { going.old.state.used ≤ going.new.state.used }
{
    match op {
        PyOp::In => contained(
            going,
            functions,
            frozen,
            true,
            PyOp::In,
            a,
            b,
            place,
            budget,
        ),
        PyOp::NotIn => contained(
            going,
            functions,
            frozen,
            false,
            PyOp::NotIn,
            a,
            b,
            place,
            budget,
        ),
        o => operated(going, functions, frozen, o, a, b, place, budget),
    }
}

// Whether things are compared.
fn seeks_things(going: &Going, frozen: &Frozen, a: &Val, b: &Val) -> bool
    ensures { result ≡ seeks_things (seen frozen.now going.now.state.heap) a.now b.now }
{
    match b {
        Val::List(o) => is_thing(a) || has_thing(going.state.heap.row(frozen, *o)),
        Val::Tuple(o) => is_thing(a) || has_thing(going.state.heap.row(frozen, *o)),
        _ => false,
    }
}

#[tactic(auto, using(crate::proofs::SeekLaws::contained_plain))]
fn contained(
    going: &mut Going,
    functions: &Functions,
    frozen: &Frozen,
    sign: bool,
    op: PyOp,
    a: &Val,
    b: &Val,
    place: Place,
    budget: u64,
) -> Result<Now, Halt>
    requires { going.old.state.used < budget }
    ensures moves { GoesOn functions.now frozen.now result going.old going.new budget (λ k. contained k sign op a.now b.now place) }
    ensures left { OnOk result (going.new.state.used < budget) }
    ensures grows { going.old.state.used ≤ going.new.state.used }
{
    if !seeks_things(going, frozen, a, b) {
        return operated(going, functions, frozen, op, a, b, place, budget);
    }
    match elements(&going.state.heap, frozen, *b) {
        Ok(row) => sought(going, functions, frozen, sign, *a, row, 0, place, budget),
        Err(stop) => Err(refused(stop, place)),
    }
}

// Whether two values are one thing.
fn is_same_thing(a: &Val, b: &Val) -> bool
    ensures { result ≡ is_same_thing a.now b.now }
{
    match (a, b) {
        (Val::Hw(x), Val::Hw(y)) => x.0 == y.0,
        _ => false,
    }
}

// A value, which is sought among the elements from the one of this number on.
fn sought(
    going: &mut Going,
    functions: &Functions,
    frozen: &Frozen,
    sign: bool,
    a: Val,
    row: Vals,
    next: u64,
    place: Place,
    budget: u64,
) -> Result<Now, Halt>
    requires { going.old.state.used < budget }
    ensures moves { GoesOn functions.now frozen.now result going.old going.new budget (λ k. sought k sign a (drop next row) place) }
    ensures left { OnOk result (going.new.state.used < budget) }
    ensures grows { going.old.state.used ≤ going.new.state.used }
{
    if next >= row.len() as u64 {
        return Ok(Now::Came(Got::Value(Val::Bool(!sign))));
    }
    let x = row.as_slice()[next as usize];
    match spend(going, 1, place, budget) {
        Err(halt) => Err(halt),
        Ok(()) => matched(
            going,
            functions,
            frozen,
            sign,
            a,
            x,
            row,
            next + 1,
            place,
            budget,
        ),
    }
}

// The value and one element; the others stand from this number on.
#[tactic(auto, using(crate::proofs::SeekLaws::matched_other, py_frames::proofs::BeginLaws::turn_rules))]
fn matched(
    going: &mut Going,
    functions: &Functions,
    frozen: &Frozen,
    sign: bool,
    a: Val,
    x: Val,
    row: Vals,
    next: u64,
    place: Place,
    budget: u64,
) -> Result<Now, Halt>
    requires { going.old.state.used < budget }
    ensures moves { GoesOn functions.now frozen.now result going.old going.new budget (λ k. matched k sign a x place (sought k sign a (drop next row) place)) }
    ensures left { OnOk result (going.new.state.used < budget) }
    ensures grows { going.old.state.used ≤ going.new.state.used }
{
    if is_same_thing(&a, &x) {
        return Ok(Now::Came(Got::Value(Val::Bool(sign))));
    }
    let frame = ExprFrame::Seeking {
        sign,
        sought: a,
        row,
        next,
        place,
    };
    match going.frames.push(Frame::Expr(frame)) {
        Ok(()) => operated(going, functions, frozen, PyOp::Eq, &a, &x, place, budget),
        Err(_) => Err(Halt::NoMemory),
    }
}

/// What the comparison with one element gave decides whether the next one is compared.
pub fn element_compared(
    going: &mut Going,
    functions: &Functions,
    frozen: &Frozen,
    sign: bool,
    a: Val,
    row: Vals,
    next: u64,
    place: Place,
    gave: Val,
    budget: u64,
) -> Result<Now, Halt>
    requires { going.old.state.used < budget }
    ensures moves { GoesOn functions.now frozen.now result going.old going.new budget (λ k. truth_of k gave place (λ found. choose found (give (val.Bool sign)) (sought k sign a (drop next row) place))) }
    ensures left { OnOk result (going.new.state.used < budget) }
    ensures grows { going.old.state.used ≤ going.new.state.used }
{
    match truth_of(going, frozen, &gave, place) {
        Err(halt) => Err(halt),
        Ok(true) => Ok(Now::Came(Got::Value(Val::Bool(sign)))),
        Ok(false) => sought(going, functions, frozen, sign, a, row, next, place, budget),
    }
}
