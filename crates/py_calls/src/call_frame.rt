// How the frames of calls go on.
ghost use Rattle.std.specs.Prelude.{◌≡◌, ◌<◌, ◌≤◌, [], ◌∷◌, ◌++◌, OnOk};
ghost use Rattle.py_heap.specs.Heaps.{seen};
ghost use Rattle.py_frames.specs.Doing.{came, give, on_value, heap_seen};
ghost use Rattle.py_frames.specs.Asking.{asked, returned, callee_place};
ghost use Rattle.py_frames.specs.Values.{on_through, attribute_in_rounds, on_names, attributes_bound, initialised, gone_over};
ghost use Rattle.py_frames.specs.Expressions.{call_for, call_awaited, awaited};
ghost use Rattle.py_frames.specs.Statements.{value_left, call_ended};
ghost use Rattle.py_frames.specs.Call_frames.{call_goes, call_value_goes};
ghost use Rattle.py_calls.specs.Awaiting.{is_async_in};
ghost use Rattle.py_tree.specs.Programs.{steps_of};
ghost use Rattle.py_frames.specs.Values.{called, summed};
ghost use Rattle.py_frames.specs.Tables.{IsTable};
ghost use Rattle.py_frames.specs.Frames.{GoesOn, KeepsRoom};

use crate::call::{awaited, called};
use crate::call_arguments::{argument_came, elements_came};
use crate::trail::goes_along;
use crate::trail_slice::part_came;
use amh_host::Place;
use py_callables::attribute::attribute_in_rounds;
use py_callables::call_enter::enter;
use py_callables::call_gone::gone_over;
use py_callables::call_kind::is_async_at;
use py_callables::call_sum::summed;
use py_frames::boxed::Boxed;
use py_frames::frame::{CallFrame, Frame, Now, Purpose};
use py_frames::functions::Functions;
use py_frames::going::Going;
use py_frames::request::{Act, NamedVals};
use py_frames::state::{Got, Halt, Here};
use py_heap::Frozen;
use py_tree::Name;
use py_turns::attribute_store::indexed;
use py_turns::call_leaf::{about, give, raise, vals_of};
use py_values::{Builtin, Code, ObjId, Val, Vals};
use py_walks::bound_names::attributes_bound;

// What a function's body leaves is its value.
fn value_left(got: &Got) -> Val
    ensures { result ≡ value_left got.now }
{
    match got {
        Got::Returned(v) => *v,
        _ => Val::None,
    }
}

// The place of the function that a value is, for the request that tells its end.
fn callee_place(going: &Going, frozen: &Frozen, place: Place, callee: &Val) -> Place
    ensures { result ≡ callee_place (seen frozen.now going.now.state.heap) place callee.now }
{
    let Val::Func(id) = *callee else {
        return place;
    };
    let Some(f) = going.state.heap.func(frozen, id) else {
        return place;
    };
    match f.code {
        Code::Def(at) => at,
        Code::Builtin(_) => place,
    }
}

/// Whether a value is an `async` function.
pub fn is_async(going: &Going, functions: &Functions, frozen: &Frozen, v: &Val) -> bool
    requires { IsTable functions.now }
    ensures { result ≡ is_async_in (steps_of functions.now.program) (seen frozen.now going.now.state.heap) v.now }
{
    let Val::Func(id) = *v else {
        return false;
    };
    let Some(f) = going.state.heap.func(frozen, id) else {
        return false;
    };
    match f.code {
        Code::Def(at) => is_async_at(functions, at),
        Code::Builtin(_) => false,
    }
}

/// What a node comes to.
#[tactic(auto, using(crate::proofs::FrameLaws::came_on))]
pub fn came(
    going: &mut Going,
    _functions: &Functions,
    _frozen: &Frozen,
    got: Got,
    _budget: u64,
) -> Result<Now, Halt>
    ensures moves { GoesOn _functions.now _frozen.now result going.old going.new _budget (λ k. came got) }
    ensures used { going.new.state.used ≡ going.old.state.used }
{
    Ok(Now::Came(got))
}

// The store told an attribute, or of what it is to be taken.
fn told_came(
    going: &mut Going,
    functions: &Functions,
    frozen: &Frozen,
    name: &Name,
    place: Place,
    rounds: u64,
    got: Got,
    budget: u64,
) -> Result<Now, Halt>
    ensures moves { GoesOn functions.now frozen.now result going.old going.new budget (λ k. on_through got (λ v. attribute_in_rounds rounds k v name.now place)) }
    ensures used { going.new.state.used ≡ going.old.state.used }
{
    match got {
        Got::Through(v) => attribute_in_rounds(
            going, functions, frozen, v, name, place, rounds, budget,
        ),
        _ => came(going, functions, frozen, got, budget),
    }
}

// The store gave names for an object.
fn init_names_came(
    going: &mut Going,
    functions: &Functions,
    frozen: &Frozen,
    object: ObjId,
    place: Place,
    gives: Val,
    got: Got,
    budget: u64,
) -> Result<Now, Halt>
    ensures moves { GoesOn functions.now frozen.now result going.old going.new budget (λ k. on_names got (λ names. attributes_bound k object names place (give gives))) }
    ensures used { going.new.state.used ≡ going.old.state.used }
{
    match got {
        Got::Bound(names) => attributes_bound(
            going, functions, frozen, object, names, place, gives, budget,
        ),
        _ => came(going, functions, frozen, got, budget),
    }
}

// `__init__` gives None, and the call gives the object.
fn initialised(
    going: &mut Going,
    functions: &Functions,
    frozen: &Frozen,
    v: Val,
    object: ObjId,
    place: Place,
    budget: u64,
) -> Result<Now, Halt>
    ensures moves { GoesOn functions.now frozen.now result going.old going.new budget (λ k. initialised v object place) }
    ensures used { going.new.state.used ≡ going.old.state.used }
{
    match v {
        Val::None => give(going, functions, frozen, Val::Object(object), budget),
        _ => raise(going, functions, frozen, place, budget),
    }
}

// The elements of a thing have come, for a builtin that goes over them.
#[tactic(auto, using(crate::proofs::FrameLaws::gone_pushed, py_frames::proofs::BeginLaws::turn_rules))]
fn gone_more(
    going: &mut Going,
    functions: &Functions,
    frozen: &Frozen,
    builtin: Builtin,
    count: u64,
    done: Vals,
    rest: Vals,
    v: Val,
    place: Place,
    budget: u64,
) -> Result<Now, Halt>
    requires { going.old.state.used < budget }
    ensures moves { GoesOn functions.now frozen.now result going.old going.new budget (λ k. gone_over k builtin count (done ++ v ∷ []) rest place) }
    ensures left { OnOk result (going.new.state.used < budget) }
    ensures grows { going.old.state.used ≤ going.new.state.used }
{
    let mut done = done;
    match done.push(v) {
        Ok(()) => gone_over(
            going, functions, frozen, builtin, count, done, rest, place, budget,
        ),
        Err(_) => Err(Halt::NoMemory),
    }
}

// Under `await` an `async` function runs, and what another call gives is awaited.
#[tactic(auto, using(crate::proofs::FrameLaws::await_rules, py_frames::proofs::BeginLaws::turn_rules))]
fn call_awaited(
    going: &mut Going,
    functions: &Functions,
    frozen: &Frozen,
    at: Place,
    callee: Val,
    args: Vals,
    keywords: NamedVals,
    place: Place,
    budget: u64,
) -> Result<Now, Halt>
    requires room { going.old.state.used < budget }
    requires table { IsTable functions.now }
    ensures moves { GoesOn functions.now frozen.now result going.old going.new budget (λ k. call_awaited k at callee args keywords place) }
    ensures left { OnOk result (going.new.state.used < budget) }
    ensures grows { going.old.state.used ≤ going.new.state.used }
{
    if is_async(going, functions, frozen, &callee) {
        return enter(
            going, functions, frozen, callee, args, keywords, place, budget,
        );
    }
    match going
        .frames
        .push(Frame::Call(CallFrame::Awaited { place: at }))
    {
        Ok(()) => called(
            going, functions, frozen, "", callee, args, keywords, place, budget,
        ),
        Err(_) => Err(Halt::NoMemory),
    }
}

// A call that is assigned to a name.
#[tactic(auto, using(crate::proofs::FrameLaws::name_same))]
fn call_named(
    going: &mut Going,
    functions: &Functions,
    frozen: &Frozen,
    name: &Name,
    callee: Val,
    args: Vals,
    keywords: NamedVals,
    place: Place,
    budget: u64,
) -> Result<Now, Halt>
    requires room { going.old.state.used < budget }
    requires table { IsTable functions.now }
    ensures moves { GoesOn functions.now frozen.now result going.old going.new budget (λ k. called k name.now callee args keywords place) }
    ensures left { OnOk result (going.new.state.used < budget) }
    ensures grows { going.old.state.used ≤ going.new.state.used }
{
    called(
        going,
        functions,
        frozen,
        name.as_str(),
        callee,
        args,
        keywords,
        place,
        budget,
    )
}

/// A call, by what its value is for.
pub fn call_for(
    going: &mut Going,
    functions: &Functions,
    frozen: &Frozen,
    purpose: &Purpose,
    callee: Val,
    args: Vals,
    keywords: NamedVals,
    place: Place,
    budget: u64,
) -> Result<Now, Halt>
    requires room { going.old.state.used < budget }
    requires table { IsTable functions.now }
    ensures moves { GoesOn functions.now frozen.now result going.old going.new budget (λ k. call_for k purpose.now callee args keywords place) }
    ensures left { OnOk result (going.new.state.used < budget) }
    ensures grows { going.old.state.used ≤ going.new.state.used }
{
    match purpose {
        Purpose::Plain => called(
            going, functions, frozen, "", callee, args, keywords, place, budget,
        ),
        Purpose::Named(name) => call_named(
            going, functions, frozen, name, callee, args, keywords, place, budget,
        ),
        Purpose::Awaited(at) => call_awaited(
            going, functions, frozen, *at, callee, args, keywords, place, budget,
        ),
    }
}

// The list of the one argument that is a comprehension has come.
#[tactic(auto, using(crate::proofs::FrameLaws::list_given, py_frames::proofs::BeginLaws::turn_rules))]
fn list_given(
    going: &mut Going,
    functions: &Functions,
    frozen: &Frozen,
    callee: Val,
    purpose: &Purpose,
    v: Val,
    place: Place,
    budget: u64,
) -> Result<Now, Halt>
    requires room { going.old.state.used < budget }
    requires table { IsTable functions.now }
    ensures moves { GoesOn functions.now frozen.now result going.old going.new budget (λ k. call_for k purpose.now callee (v ∷ []) [] place) }
    ensures left { OnOk result (going.new.state.used < budget) }
    ensures grows { going.old.state.used ≤ going.new.state.used }
{
    let Ok(args) = vals_of(going.alloc, &[v]) else {
        return Err(Halt::NoMemory);
    };
    let keywords = NamedVals::new(going.alloc);
    call_for(
        going, functions, frozen, purpose, callee, args, keywords, place, budget,
    )
}

// A function that an answer began has ended: its end is told.
#[tactic(auto, using(crate::proofs::FrameLaws::answering_waits, py_frames::proofs::BeginLaws::turn_rules))]
fn answering(
    going: &mut Going,
    _functions: &Functions,
    frozen: &Frozen,
    act: Act,
    place: Place,
    callee: Val,
    rounds: u64,
    v: Val,
    _budget: u64,
) -> Result<Now, Halt>
    ensures moves { GoesOn _functions.now frozen.now result going.old going.new _budget (λ k. λ w s. asked rounds k act (returned (heap_seen k s) place callee v) w s) }
    ensures used { going.new.state.used ≡ going.old.state.used }
{
    let at = callee_place(going, frozen, place, &callee);
    let Ok(request) = about(going.alloc, Act::Returned, &[v], at) else {
        return Err(Halt::NoMemory);
    };
    match Boxed::new(going.alloc, request) {
        Ok(request) => Ok(Now::Waits {
            request,
            act,
            rounds,
        }),
        Err(_) => Err(Halt::NoMemory),
    }
}

// A frame goes on with the value that it waits for.
fn call_value_goes(
    going: &mut Going,
    functions: &Functions,
    frozen: &Frozen,
    frame: CallFrame,
    v: Val,
    budget: u64,
) -> Result<Now, Halt>
    requires room { going.old.state.used < budget }
    requires table { IsTable functions.now }
    ensures moves { GoesOn functions.now frozen.now result going.old going.new budget (λ k. call_value_goes k frame v) }
    ensures left { OnOk result (going.new.state.used < budget) }
    ensures grows { going.old.state.used ≤ going.new.state.used }
{
    match frame {
        CallFrame::Trail { node, at, along } => goes_along(
            going, functions, frozen, &node, at, along, v, budget,
        ),
        CallFrame::Argument {
            node,
            trailer,
            at,
            callee,
            vals,
            keywords,
            purpose,
        } => argument_came(
            going, functions, frozen, &node, trailer, at, callee, vals, keywords, &purpose, v,
            budget,
        ),
        CallFrame::Spread {
            node,
            trailer,
            at,
            callee,
            vals,
            keywords,
            purpose,
        } => elements_came(
            going, functions, frozen, &node, trailer, at, callee, vals, keywords, &purpose, v,
            budget,
        ),
        CallFrame::ListGiven {
            callee,
            purpose,
            place,
        } => list_given(going, functions, frozen, callee, &purpose, v, place, budget),
        CallFrame::Indexed { over, place } => indexed(
            going, functions, frozen, over, v, place, budget,
        ),
        CallFrame::Sliced {
            node,
            trailer,
            over,
            parts,
        } => part_came(
            going, functions, frozen, &node, trailer, over, parts, v, budget,
        ),
        CallFrame::Awaited { place } => awaited(going, functions, frozen, v, place, budget),
        CallFrame::GoneOver {
            builtin,
            count,
            done,
            rest,
            place,
        } => gone_more(
            going, functions, frozen, builtin, count, done, rest, v, place, budget,
        ),
        CallFrame::Summing { row, next, place } => summed(
            going, functions, frozen, v, row, next, place, budget,
        ),
        CallFrame::Initialised { object, place } => initialised(
            going, functions, frozen, v, object, place, budget,
        ),
        CallFrame::Answering {
            act,
            place,
            callee,
            rounds,
        } => answering(
            going, functions, frozen, act, place, callee, rounds, v, budget,
        ),
        CallFrame::AttributeTold { .. } => give(going, functions, frozen, v, budget),
        CallFrame::InitNames { .. } => give(going, functions, frozen, v, budget),
        CallFrame::CallEnd { .. } => give(going, functions, frozen, v, budget),
    }
}

// A frame that waits for a value.
fn call_value_came(
    going: &mut Going,
    functions: &Functions,
    frozen: &Frozen,
    frame: CallFrame,
    got: Got,
    budget: u64,
) -> Result<Now, Halt>
    requires room { going.old.state.used < budget }
    requires table { IsTable functions.now }
    ensures moves { GoesOn functions.now frozen.now result going.old going.new budget (λ k. on_value got (call_value_goes k frame)) }
    ensures left { OnOk result (going.new.state.used < budget) }
    ensures grows { going.old.state.used ≤ going.new.state.used }
{
    match got {
        Got::Value(v) => call_value_goes(going, functions, frozen, frame, v, budget),
        _ => came(going, functions, frozen, got, budget),
    }
}

// Back where the call stands.
#[tactic(auto, using(crate::proofs::FrameLaws::call_ended_goes))]
fn call_ended(
    going: &mut Going,
    _functions: &Functions,
    _frozen: &Frozen,
    outer: Here,
    got: Got,
    _budget: u64,
) -> Result<Now, Halt>
    requires { outer.room ≡ going.old.state.here.room }
    ensures moves { GoesOn _functions.now _frozen.now result going.old going.new _budget (λ k. call_ended outer got) }
    ensures used { going.new.state.used ≡ going.old.state.used }
{
    going.state.here = outer;
    Ok(Now::Came(Got::Value(value_left(&got))))
}

/// A frame of a call goes on with what it waits for.
pub fn call_goes(
    going: &mut Going,
    functions: &Functions,
    frozen: &Frozen,
    frame: CallFrame,
    got: Got,
    budget: u64,
) -> Result<Now, Halt>
    requires room { going.old.state.used < budget }
    requires keeps { KeepsRoom (Frame.Call frame) going.old.state.here.room }
    requires table { IsTable functions.now }
    ensures moves { GoesOn functions.now frozen.now result going.old going.new budget (λ k. call_goes k frame got) }
    ensures left { OnOk result (going.new.state.used < budget) }
    ensures grows { going.old.state.used ≤ going.new.state.used }
{
    match frame {
        CallFrame::AttributeTold {
            name,
            place,
            rounds,
        } => told_came(going, functions, frozen, &name, place, rounds, got, budget),
        CallFrame::InitNames {
            object,
            place,
            result,
        } => init_names_came(going, functions, frozen, object, place, result, got, budget),
        CallFrame::CallEnd { outer } => call_ended(going, functions, frozen, outer, got, budget),
        _ => call_value_came(going, functions, frozen, frame, got, budget),
    }
}
