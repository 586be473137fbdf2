// Calls of values.
ghost use Rattle.std.specs.Prelude.{◌≡◌, ◌<◌, ◌≤◌, OnOk};
ghost use Rattle.py_heap.specs.Heaps.{seen, func_at};
ghost use Rattle.py_tree.specs.Programs.{steps_of};
ghost use Rattle.py_heap.specs.declared.objects.Inherited.TheVariants as inherited;
ghost use Rattle.py_frames.specs.Values.{called, method_called, object_made, made_object, class_called};
ghost use Rattle.py_frames.specs.Expressions.{awaited};
ghost use Rattle.py_callables.specs.Called.{called_as, callable_of};
ghost use Rattle.py_frames.specs.Tables.{IsTable};
ghost use Rattle.py_frames.specs.Frames.{GoesOn};

use amh_host::Place;
use py_callables::attribute_leaf::method_val;
use py_callables::call_builtin::{builtin_called, give_bare, init_thing, thing_called};
use py_callables::call_enter::enter;
use py_callables::call_kind::{Callable, is_async_at};
use py_frames::frame::{CallFrame, Frame, Now};
use py_frames::functions::Functions;
use py_frames::going::{Going, told};
use py_frames::request::{Act, NamedVals};
use py_frames::state::Halt;
use py_heap::{Frozen, Inherited};
use py_turns::attribute_store::ask_about;
use py_turns::call_leaf::raise;
use py_turns::operators::is_thing;
use py_values::{Code, FuncId, ObjId, Val, Vals};

// What a call of a function is.
fn callable_of(going: &Going, functions: &Functions, frozen: &Frozen, id: FuncId) -> Callable
    requires { IsTable functions.now }
    ensures { result ≡ callable_of (steps_of functions.now.program) (func_at (seen frozen.now going.now.state.heap) id.0) }
{
    let Some(f) = going.state.heap.func(frozen, id) else {
        return Callable::Missing;
    };
    match f.code {
        Code::Builtin(b) => Callable::Builtin(b, f.this),
        Code::Def(place) if is_async_at(functions, place) => Callable::Async,
        Code::Def(_) => Callable::Body,
    }
}

// A function by what its call is.
fn called_as(
    going: &mut Going,
    functions: &Functions,
    frozen: &Frozen,
    callable: Callable,
    id: FuncId,
    args: Vals,
    keywords: NamedVals,
    place: Place,
    budget: u64,
) -> Result<Now, Halt>
    requires room { going.old.state.used < budget }
    requires table { IsTable functions.now }
    ensures moves { GoesOn functions.now frozen.now result going.old going.new budget (λ k. called_as k callable id args keywords place) }
    ensures left { OnOk result (going.new.state.used < budget) }
    ensures grows { going.old.state.used ≤ going.new.state.used }
{
    match callable {
        Callable::Missing => raise(going, functions, frozen, place, budget),
        Callable::Async => raise(going, functions, frozen, place, budget),
        Callable::Body => enter(
            going,
            functions,
            frozen,
            Val::Func(id),
            args,
            keywords,
            place,
            budget,
        ),
        Callable::Builtin(b, this) => builtin_called(
            going, functions, frozen, b, this, args, keywords, place, budget,
        ),
    }
}

// A function is called.
fn func_called(
    going: &mut Going,
    functions: &Functions,
    frozen: &Frozen,
    id: FuncId,
    args: Vals,
    keywords: NamedVals,
    place: Place,
    budget: u64,
) -> Result<Now, Halt>
    requires room { going.old.state.used < budget }
    requires table { IsTable functions.now }
    ensures moves { GoesOn functions.now frozen.now result going.old going.new budget (λ k. method_called k (Val.Func id) args keywords place) }
    ensures left { OnOk result (going.new.state.used < budget) }
    ensures grows { going.old.state.used ≤ going.new.state.used }
{
    let callable = callable_of(going, functions, frozen, id);
    called_as(
        going, functions, frozen, callable, id, args, keywords, place, budget,
    )
}

// What was found under a name is called, as `__init__`.
fn method_called(
    going: &mut Going,
    functions: &Functions,
    frozen: &Frozen,
    v: Val,
    args: Vals,
    keywords: NamedVals,
    place: Place,
    budget: u64,
) -> Result<Now, Halt>
    requires room { going.old.state.used < budget }
    requires table { IsTable functions.now }
    ensures moves { GoesOn functions.now frozen.now result going.old going.new budget (λ k. method_called k v args keywords place) }
    ensures left { OnOk result (going.new.state.used < budget) }
    ensures grows { going.old.state.used ≤ going.new.state.used }
{
    match v {
        Val::Func(id) => func_called(going, functions, frozen, id, args, keywords, place, budget),
        _ => raise(going, functions, frozen, place, budget),
    }
}

// The `__init__` that was found is called.
#[tactic(auto, using(py_frames::proofs::BeginLaws::turn_rules))]
fn init_called(
    going: &mut Going,
    functions: &Functions,
    frozen: &Frozen,
    o: ObjId,
    v: Val,
    _c: Val,
    args: Vals,
    keywords: NamedVals,
    place: Place,
    budget: u64,
) -> Result<Now, Halt>
    requires room { going.old.state.used < budget }
    requires table { IsTable functions.now }
    ensures moves { GoesOn functions.now frozen.now result going.old going.new budget (λ k. made_object k o (inherited.Found v _c) args keywords place) }
    ensures left { OnOk result (going.new.state.used < budget) }
    ensures grows { going.old.state.used ≤ going.new.state.used }
{
    let this = Some(Val::Object(o));
    let Ok(method) = method_val(&mut going.state.heap, frozen, going.alloc, v, this) else {
        return Err(Halt::NoMemory);
    };
    match going
        .frames
        .push(Frame::Call(CallFrame::Initialised { object: o, place }))
    {
        Ok(()) => method_called(
            going, functions, frozen, method, args, keywords, place, budget,
        ),
        Err(_) => Err(Halt::NoMemory),
    }
}

// A new object, by what its class has as `__init__`.
fn made_object(
    going: &mut Going,
    functions: &Functions,
    frozen: &Frozen,
    o: ObjId,
    found: Inherited,
    args: Vals,
    keywords: NamedVals,
    place: Place,
    budget: u64,
) -> Result<Now, Halt>
    requires room { going.old.state.used < budget }
    requires table { IsTable functions.now }
    ensures moves { GoesOn functions.now frozen.now result going.old going.new budget (λ k. made_object k o found args keywords place) }
    ensures left { OnOk result (going.new.state.used < budget) }
    ensures grows { going.old.state.used ≤ going.new.state.used }
{
    match found {
        Inherited::Found(v, c) => init_called(
            going, functions, frozen, o, v, c, args, keywords, place, budget,
        ),
        Inherited::Thing(_) => init_thing(
            going,
            functions,
            frozen,
            o,
            args,
            keywords,
            place,
            Val::Object(o),
            budget,
        ),
        Inherited::Nowhere => give_bare(
            going,
            functions,
            frozen,
            Val::Object(o),
            args,
            keywords,
            place,
            budget,
        ),
    }
}

// A new object of a class.
fn object_begun(
    going: &mut Going,
    functions: &Functions,
    frozen: &Frozen,
    c: ObjId,
    o: ObjId,
    args: Vals,
    keywords: NamedVals,
    place: Place,
    budget: u64,
) -> Result<Now, Halt>
    requires room { going.old.state.used < budget }
    requires table { IsTable functions.now }
    ensures moves { GoesOn functions.now frozen.now result going.old going.new budget (λ k. object_made k c (Val.Object o) args keywords place) }
    ensures left { OnOk result (going.new.state.used < budget) }
    ensures grows { going.old.state.used ≤ going.new.state.used }
{
    let found = going.state.heap.inherited(frozen, c, "__init__");
    made_object(
        going, functions, frozen, o, found, args, keywords, place, budget,
    )
}

// What was made of a class.
fn object_made(
    going: &mut Going,
    functions: &Functions,
    frozen: &Frozen,
    c: ObjId,
    v: Val,
    args: Vals,
    keywords: NamedVals,
    place: Place,
    budget: u64,
) -> Result<Now, Halt>
    requires room { going.old.state.used < budget }
    requires table { IsTable functions.now }
    ensures moves { GoesOn functions.now frozen.now result going.old going.new budget (λ k. object_made k c v args keywords place) }
    ensures left { OnOk result (going.new.state.used < budget) }
    ensures grows { going.old.state.used ≤ going.new.state.used }
{
    match v {
        Val::Object(o) => object_begun(
            going, functions, frozen, c, o, args, keywords, place, budget,
        ),
        _ => raise(going, functions, frozen, place, budget),
    }
}

// A class is called: a new object, and then its `__init__`.
#[tactic(auto, using(py_callables::proofs::CalledLaws::class_err))]
fn class_called(
    going: &mut Going,
    functions: &Functions,
    frozen: &Frozen,
    c: ObjId,
    args: Vals,
    keywords: NamedVals,
    place: Place,
    budget: u64,
) -> Result<Now, Halt>
    requires room { going.old.state.used < budget }
    requires table { IsTable functions.now }
    ensures moves { GoesOn functions.now frozen.now result going.old going.new budget (λ k. class_called k c args keywords place) }
    ensures left { OnOk result (going.new.state.used < budget) }
    ensures grows { going.old.state.used ≤ going.new.state.used }
{
    match going.state.heap.object(frozen, Val::Class(c)) {
        Ok(v) => object_made(
            going, functions, frozen, c, v, args, keywords, place, budget,
        ),
        Err(e) => told(Err(e), place),
    }
}

/// The call of a value; `name` is what the call is assigned to, where it is the whole right side.
pub fn called(
    going: &mut Going,
    functions: &Functions,
    frozen: &Frozen,
    name: &str,
    v: Val,
    args: Vals,
    keywords: NamedVals,
    place: Place,
    budget: u64,
) -> Result<Now, Halt>
    requires room { going.old.state.used < budget }
    requires table { IsTable functions.now }
    ensures moves { GoesOn functions.now frozen.now result going.old going.new budget (λ k. called k name.now v args keywords place) }
    ensures left { OnOk result (going.new.state.used < budget) }
    ensures grows { going.old.state.used ≤ going.new.state.used }
{
    match v {
        Val::Func(id) => func_called(going, functions, frozen, id, args, keywords, place, budget),
        Val::Class(c) => class_called(going, functions, frozen, c, args, keywords, place, budget),
        Val::Hw(h) => thing_called(
            going, functions, frozen, h, name, args, keywords, place, budget,
        ),
        _ => raise(going, functions, frozen, place, budget),
    }
}

/// A thing is awaited.
#[tactic(auto, using(py_frames::proofs::CallLaws::choose_rules))]
pub fn awaited(
    going: &mut Going,
    functions: &Functions,
    frozen: &Frozen,
    v: Val,
    place: Place,
    budget: u64,
) -> Result<Now, Halt>
    ensures moves { GoesOn functions.now frozen.now result going.old going.new budget (λ k. awaited k v place) }
    ensures used { going.new.state.used ≡ going.old.state.used }
{
    if is_thing(&v) {
        ask_about(going, functions, frozen, Act::Await, &[v], place, budget)
    } else {
        raise(going, functions, frozen, place, budget)
    }
}
