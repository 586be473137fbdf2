// Builtins that go over the elements of some of their arguments.
ghost use Rattle.std.specs.Prelude.{◌≡◌, ◌<◌, ◌≤◌, OnOk, IfOk};
ghost use Rattle.py_frames.specs.Values.{goes_over, gone_over};
ghost use Rattle.py_callables.specs.Going_over.{first_gone, thing_gone, gone_by};
ghost use Rattle.py_frames.specs.Frames.{GoesOn};

use crate::call_sum::built_over;
use amh_host::{NoMemory, Place};
use py_frames::frame::{CallFrame, Frame, Now};
use py_frames::functions::Functions;
use py_frames::going::Going;
use py_frames::state::Halt;
use py_heap::Frozen;
use py_turns::attribute_store::iterated;
use py_turns::call_leaf::vals_of;
use py_turns::operators::is_thing;
use py_values::{Builtin, Val, Vals};
use std::alloc::Global;

/// The arguments of a builtin, by the first thing among them that it goes over.
#[derive(Drop)]
pub enum Gone {
    /// It goes over none of them.
    Whole(Vals),
    /// Those before the thing, the thing, and those behind it.
    Thing { done: Vals, thing: Val, rest: Vals },
}

// Whether a builtin of so many arguments goes over the elements of the one at this place.
fn goes_over(b: Builtin, n: u64, i: usize) -> bool
    ensures { result ≡ goes_over b n i }
{
    match b {
        Builtin::List => i == 0,
        Builtin::Tuple => i == 0,
        Builtin::Dict => i == 0,
        Builtin::Enumerate => i == 0,
        Builtin::Reversed => i == 0,
        Builtin::Sum => i == 0,
        Builtin::Min => n == 1,
        Builtin::Max => n == 1,
        Builtin::Zip => true,
        Builtin::Extend => i == 1,
        _ => false,
    }
}

// The first thing among the arguments that a builtin goes over.
#[tactic(auto, using(crate::proofs::GoneLaws::first_rules))]
fn first_gone(alloc: Global, b: Builtin, n: u64, done: Vals, rest: &[Val]) -> Result<Gone, NoMemory>
    ensures { IfOk result (λ gone. gone ≡ first_gone b n done rest.now) }
{
    let mut done = done;
    for i in 0..rest.len() {
        let v = rest[i];
        if is_thing(&v) && goes_over(b, n, done.len()) {
            return match vals_of(alloc, &rest[i + 1..]) {
                Ok(rest) => Ok(Gone::Thing {
                    done,
                    thing: v,
                    rest,
                }),
                Err(_) => Err(NoMemory),
            };
        }
        let Ok(()) = done.push(v) else {
            return Err(NoMemory);
        };
    }
    Ok(Gone::Whole(done))
}

// The elements of a thing are asked for, and then the builtin goes on.
#[tactic(auto, using(py_frames::proofs::BeginLaws::turn_rules))]
fn thing_gone(
    going: &mut Going,
    functions: &Functions,
    frozen: &Frozen,
    builtin: Builtin,
    count: u64,
    done: Vals,
    thing: Val,
    rest: Vals,
    place: Place,
    budget: u64,
) -> Result<Now, Halt>
    ensures moves { GoesOn functions.now frozen.now result going.old going.new budget (λ k. thing_gone k builtin count done thing rest place) }
    ensures used { going.new.state.used ≡ going.old.state.used }
{
    match going.frames.push(Frame::Call(CallFrame::GoneOver {
        builtin,
        count,
        done,
        rest,
        place,
    })) {
        Ok(()) => iterated(going, functions, frozen, thing, place, budget),
        Err(_) => Err(Halt::NoMemory),
    }
}

// On with the arguments, by the first thing that the builtin goes over.
fn gone_by(
    going: &mut Going,
    functions: &Functions,
    frozen: &Frozen,
    builtin: Builtin,
    count: u64,
    gone: Gone,
    place: Place,
    budget: u64,
) -> Result<Now, Halt>
    requires { going.old.state.used < budget }
    ensures moves { GoesOn functions.now frozen.now result going.old going.new budget (λ k. gone_by k builtin count gone place) }
    ensures left { OnOk result (going.new.state.used < budget) }
    ensures grows { going.old.state.used ≤ going.new.state.used }
{
    match gone {
        Gone::Whole(vals) => built_over(going, functions, frozen, builtin, vals, place, budget),
        Gone::Thing { done, thing, rest } => thing_gone(
            going, functions, frozen, builtin, count, done, thing, rest, place, budget,
        ),
    }
}

/// The things that a builtin goes over become tuples first.
#[tactic(auto, using(py_frames::proofs::BeginLaws::turn_rules))]
pub fn gone_over(
    going: &mut Going,
    functions: &Functions,
    frozen: &Frozen,
    builtin: Builtin,
    count: u64,
    done: Vals,
    rest: Vals,
    place: Place,
    budget: u64,
) -> Result<Now, Halt>
    requires { going.old.state.used < budget }
    ensures moves { GoesOn functions.now frozen.now result going.old going.new budget (λ k. gone_over k builtin count done rest place) }
    ensures left { OnOk result (going.new.state.used < budget) }
    ensures grows { going.old.state.used ≤ going.new.state.used }
{
    let Ok(gone) = first_gone(going.alloc, builtin, count, done, rest.as_slice()) else {
        return Err(Halt::NoMemory);
    };
    gone_by(
        going, functions, frozen, builtin, count, gone, place, budget,
    )
}
