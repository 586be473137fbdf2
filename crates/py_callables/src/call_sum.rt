// `sum`, which asks for its additions where there are things among what it adds.
ghost use Rattle.std.specs.Prelude.{◌≡◌, ◌<◌, ◌≤◌, false, IfOk, OnOk, drop};
ghost use Rattle.py_values.specs.declared.op.PyOp.TheVariants as op;
ghost use Rattle.py_heap.specs.Heaps.{seen};
ghost use Rattle.py_frames.specs.declared.frame.Frame.TheVariants as frame;
ghost use Rattle.py_frames.specs.declared.frame.CallFrame.TheVariants as call;
ghost use Rattle.py_frames.specs.Values.{asks_operator, operated, adds_things, sum_asked, summed, built_over};
ghost use Rattle.py_callables.specs.Going_over.{Adds, start_of};
ghost use Rattle.py_frames.specs.Frames.{GoesOn, within};

use crate::call_enter::first_of;
use amh_host::{Budget, NoMemory, Place};
use py_frames::frame::{CallFrame, Frame, Now};
use py_frames::functions::Functions;
use py_frames::going::Going;
use py_frames::state::Halt;
use py_heap::Frozen;
use py_operators::{elements, operate};
use py_turns::binds::refused;
use py_turns::call_leaf::{give, raise};
use py_turns::operators::{asks_operator, built, has_thing, is_thing, operated, used_after};
use py_values::{Builtin, Number, PyOp, Val, Vals, ValueStop};

// What `sum` goes over, where there are things among that or it begins with one.
fn adds_things(going: &Going, frozen: &Frozen, args: &[Val]) -> Result<bool, NoMemory>
    ensures { IfOk result (λ adds. adds ≡ adds_things (seen frozen.now going.now.state.heap) args.now) }
{
    let (row, begins) = match args {
        [row] => (*row, false),
        [row, start] => (*row, is_thing(start)),
        _ => return Ok(false),
    };
    match elements(&going.state.heap, frozen, row) {
        Ok(vals) => Ok(begins || has_thing(vals.as_slice())),
        Err(ValueStop::NoMemory) => Err(NoMemory),
        Err(_) => Ok(begins),
    }
}

// What `sum` begins with.
fn start_of(args: &[Val]) -> Val
    ensures { result ≡ start_of args.now }
{
    match args {
        [_, start] => *start,
        _ => Val::Int(Number::of_u128(0)),
    }
}

// An addition that asks nothing: its value, at its cost.
#[tactic(auto, using(crate::proofs::SumLaws::added_rules))]
fn added(
    going: &mut Going,
    _functions: &Functions,
    frozen: &Frozen,
    total: Val,
    x: Val,
    place: Place,
    budget: u64,
) -> Result<Val, Halt>
    requires room { going.old.state.used < budget }
    requires plain { asks_operator op.Add total x ≡ false }
    ensures adds { Adds _functions.now frozen.now result total x place going.old going.new budget }
    ensures left { OnOk result (going.new.state.used < budget) }
    ensures grows { going.old.state.used ≤ going.new.state.used }
{
    let mut left = Budget {
        left: budget - going.state.used,
    };
    let given = operate(
        &mut going.state.heap,
        frozen,
        PyOp::Add,
        total,
        x,
        &mut left,
    );
    going.state.used = used_after(going.state.used, budget, left.left);
    match given {
        Ok(v) => Ok(v),
        Err(stop) => Err(refused(stop, place)),
    }
}

// The addition of an item for which the store is asked; a frame waits for it, with the items from this number on.
#[tactic(auto, using(py_frames::proofs::BeginLaws::turn_rules))]
fn addition_asked(
    going: &mut Going,
    functions: &Functions,
    frozen: &Frozen,
    total: &Val,
    x: &Val,
    row: Vals,
    next: u64,
    place: Place,
    budget: u64,
) -> Result<Now, Halt>
    requires { going.old.state.used < budget }
    ensures moves { GoesOn functions.now frozen.now result going.old going.new budget (within (frame.Call (call.Summing row next place)) (λ k. operated k op.Add total.now x.now place)) }
    ensures left { OnOk result (going.new.state.used < budget) }
    ensures grows { going.old.state.used ≤ going.new.state.used }
{
    match going
        .frames
        .push(Frame::Call(CallFrame::Summing { row, next, place }))
    {
        Ok(()) => operated(going, functions, frozen, PyOp::Add, total, x, place, budget),
        Err(_) => Err(Halt::NoMemory),
    }
}

/// Additions from the left, from the item of this number on: those that ask nothing in one turn, up to one for which the
/// store is asked.
pub fn summed(
    going: &mut Going,
    functions: &Functions,
    frozen: &Frozen,
    total: Val,
    row: Vals,
    next: u64,
    place: Place,
    budget: u64,
) -> Result<Now, Halt>
    requires { going.old.state.used < budget }
    ensures moves { GoesOn functions.now frozen.now result going.old going.new budget (λ k. summed k total (drop next row) place) }
    ensures left { OnOk result (going.new.state.used < budget) }
    ensures grows { going.old.state.used ≤ going.new.state.used }
{
    let mut sum = total;
    let mut at = next;
    while at < row.len() as u64 {
        let x = row.as_slice()[at as usize];
        at += 1;
        if asks_operator(PyOp::Add, &sum, &x) {
            return addition_asked(going, functions, frozen, &sum, &x, row, at, place, budget);
        }
        match added(going, functions, frozen, sum, x, place, budget) {
            Ok(v) => sum = v,
            Err(halt) => return Err(halt),
        }
    }
    give(going, functions, frozen, sum, budget)
}

// The additions of what `sum` goes over.
#[tactic(auto, using(crate::proofs::SumLaws::asked_none, py_frames::proofs::BeginLaws::turn_rules))]
fn sum_asked(
    going: &mut Going,
    functions: &Functions,
    frozen: &Frozen,
    args: &[Val],
    place: Place,
    budget: u64,
) -> Result<Now, Halt>
    requires { going.old.state.used < budget }
    ensures moves { GoesOn functions.now frozen.now result going.old going.new budget (λ k. sum_asked k args.now place) }
    ensures left { OnOk result (going.new.state.used < budget) }
    ensures grows { going.old.state.used ≤ going.new.state.used }
{
    let Some(row) = first_of(args) else {
        return raise(going, functions, frozen, place, budget);
    };
    let start = start_of(args);
    match elements(&going.state.heap, frozen, row) {
        Ok(vals) => summed(going, functions, frozen, start, vals, 0, place, budget),
        Err(stop) => Err(refused(stop, place)),
    }
}

/// A builtin whose arguments are rows.
#[tactic(auto, using(py_frames::proofs::BeginLaws::turn_rules))]
pub fn built_over(
    going: &mut Going,
    functions: &Functions,
    frozen: &Frozen,
    builtin: Builtin,
    vals: Vals,
    place: Place,
    budget: u64,
) -> Result<Now, Halt>
    requires { going.old.state.used < budget }
    ensures moves { GoesOn functions.now frozen.now result going.old going.new budget (λ k. built_over k builtin vals place) }
    ensures left { OnOk result (going.new.state.used < budget) }
    ensures grows { going.old.state.used ≤ going.new.state.used }
{
    match builtin {
        Builtin::Sum => match adds_things(going, frozen, vals.as_slice()) {
            Ok(true) => sum_asked(going, functions, frozen, vals.as_slice(), place, budget),
            Ok(false) => built(going, functions, frozen, Builtin::Sum, vals, place, budget),
            Err(_) => Err(Halt::NoMemory),
        },
        b => built(going, functions, frozen, b, vals, place, budget),
    }
}
