// Attributes: what a value has under a name.
ghost use Rattle.std.specs.Prelude.{◌≡◌, Some};
ghost use Rattle.py_frames.specs.Values.{from_class, builtin_made, builtin_method, nowhere, attribute_by, attribute_in_rounds, attribute, found_in, of_class};
ghost use Rattle.py_frames.specs.Calling.{told_attribute};
ghost use Rattle.py_frames.specs.Frames.{GoesOn};

use crate::attribute_leaf::{dict_method, first_of_row, is_init, list_method, method_val};
use crate::attribute_super::func_attribute;
use amh_host::Place;
use py_frames::frame::{CallFrame, Frame, Now};
use py_frames::functions::Functions;
use py_frames::going::{Going, MOST};
use py_frames::request::Act;
use py_frames::state::Halt;
use py_heap::{Frozen, Inherited};
use py_tree::Name;
use py_turns::call_leaf::{about_name, ask_under, give, new_func, raise, run_out};
use py_values::{Builtin, Code, Func, ObjId, Val, Vals};

/// A value that was found in a class.
#[tactic(auto, using(py_frames::proofs::BeginLaws::turn_rules))]
pub fn from_class(
    going: &mut Going,
    functions: &Functions,
    frozen: &Frozen,
    v: Val,
    this: Option<Val>,
    _place: Place,
    budget: u64,
) -> Result<Now, Halt>
    ensures moves { GoesOn functions.now frozen.now result going.old going.new budget (λ k. from_class k v this _place) }
    ensures used { going.new.state.used ≡ going.old.state.used }
{
    let Ok(v) = method_val(&mut going.state.heap, frozen, going.alloc, v, this) else {
        return Err(Halt::NoMemory);
    };
    give(going, functions, frozen, v, budget)
}

/// A builtin function of its own, bound to a value where there is one.
#[tactic(auto, using(crate::proofs::AttributeLaws::builtin_made_by))]
fn builtin_made(
    going: &mut Going,
    functions: &Functions,
    frozen: &Frozen,
    b: Builtin,
    this: Option<Val>,
    place: Place,
    budget: u64,
) -> Result<Now, Halt>
    ensures moves { GoesOn functions.now frozen.now result going.old going.new budget (λ k. builtin_made k b this place) }
    ensures used { going.new.state.used ≡ going.old.state.used }
{
    let f = Func {
        code: Code::Builtin(b),
        this,
        home: None,
        defaults: Vals::new(going.alloc),
        scope: None,
    };
    new_func(going, functions, frozen, f, place, budget)
}

/// A method of a list or of a dict, or that of a builtin.
pub fn builtin_method(
    going: &mut Going,
    functions: &Functions,
    frozen: &Frozen,
    method: Option<Builtin>,
    this: Val,
    place: Place,
    budget: u64,
) -> Result<Now, Halt>
    ensures moves { GoesOn functions.now frozen.now result going.old going.new budget (λ k. builtin_method k method this place) }
    ensures used { going.new.state.used ≡ going.old.state.used }
{
    match method {
        Some(b) => builtin_made(going, functions, frozen, b, Some(this), place, budget),
        None => raise(going, functions, frozen, place, budget),
    }
}

/// An attribute that no class has: `__init__` is then that of every object.
#[tactic(auto, using(py_frames::proofs::CallLaws::choose_rules))]
pub fn nowhere(
    going: &mut Going,
    functions: &Functions,
    frozen: &Frozen,
    this: Option<Val>,
    name: &Name,
    place: Place,
    budget: u64,
) -> Result<Now, Halt>
    ensures moves { GoesOn functions.now frozen.now result going.old going.new budget (λ k. nowhere k this name.now place) }
    ensures used { going.new.state.used ≡ going.old.state.used }
{
    if is_init(name.as_str()) {
        builtin_made(
            going,
            functions,
            frozen,
            Builtin::InitNothing,
            this,
            place,
            budget,
        )
    } else {
        raise(going, functions, frozen, place, budget)
    }
}

/// The store is asked for an attribute.
#[tactic(auto, using(crate::proofs::AttributeLaws::told_asked, py_frames::proofs::BeginLaws::turn_rules))]
pub fn told_attribute(
    going: &mut Going,
    functions: &Functions,
    frozen: &Frozen,
    x: Val,
    name: &Name,
    place: Place,
    rounds: u64,
    budget: u64,
) -> Result<Now, Halt>
    ensures moves { GoesOn functions.now frozen.now result going.old going.new budget (λ k. told_attribute rounds k name.now place x) }
    ensures used { going.new.state.used ≡ going.old.state.used }
{
    let Ok(request) = about_name(going.alloc, Act::Attribute, &[x], name.as_str(), place) else {
        return Err(Halt::NoMemory);
    };
    let Ok(name) = name.share() else {
        return Err(Halt::NoMemory);
    };
    let frame = Frame::Call(CallFrame::AttributeTold {
        name,
        place,
        rounds,
    });
    ask_under(going, functions, frozen, frame, request, budget)
}

// What was found in the class of a value, or in a class itself.
fn found_in(
    going: &mut Going,
    functions: &Functions,
    frozen: &Frozen,
    x: Val,
    this: Option<Val>,
    found: Inherited,
    name: &Name,
    place: Place,
    rounds: u64,
    budget: u64,
) -> Result<Now, Halt>
    ensures moves { GoesOn functions.now frozen.now result going.old going.new budget (λ k. found_in k (told_attribute rounds k name.now place) x this name.now place found) }
    ensures used { going.new.state.used ≡ going.old.state.used }
{
    match found {
        Inherited::Found(v, _) => from_class(going, functions, frozen, v, this, place, budget),
        Inherited::Thing(_) => told_attribute(
            going, functions, frozen, x, name, place, rounds, budget,
        ),
        Inherited::Nowhere => nowhere(going, functions, frozen, this, name, place, budget),
    }
}

// What was found in the class of an object.
fn found_of_object(
    going: &mut Going,
    functions: &Functions,
    frozen: &Frozen,
    x: Val,
    found: Inherited,
    name: &Name,
    place: Place,
    rounds: u64,
    budget: u64,
) -> Result<Now, Halt>
    ensures moves { GoesOn functions.now frozen.now result going.old going.new budget (λ k. found_in k (told_attribute rounds k name.now place) x (Some x) name.now place found) }
    ensures used { going.new.state.used ≡ going.old.state.used }
{
    match found {
        Inherited::Found(v, _) => from_class(going, functions, frozen, v, Some(x), place, budget),
        Inherited::Thing(_) => told_attribute(
            going, functions, frozen, x, name, place, rounds, budget,
        ),
        Inherited::Nowhere => nowhere(going, functions, frozen, Some(x), name, place, budget),
    }
}

// In the class of an object.
fn of_this_class(
    going: &mut Going,
    functions: &Functions,
    frozen: &Frozen,
    x: Val,
    class: ObjId,
    name: &Name,
    place: Place,
    rounds: u64,
    budget: u64,
) -> Result<Now, Halt>
    ensures moves { GoesOn functions.now frozen.now result going.old going.new budget (λ k. of_class k (told_attribute rounds k name.now place) x name.now place (Val.Class class)) }
    ensures used { going.new.state.used ≡ going.old.state.used }
{
    let found = going.state.heap.inherited(frozen, class, name.as_str());
    found_of_object(
        going, functions, frozen, x, found, name, place, rounds, budget,
    )
}

// In what stands where the class of an object does.
fn of_class(
    going: &mut Going,
    functions: &Functions,
    frozen: &Frozen,
    x: Val,
    class: Val,
    name: &Name,
    place: Place,
    rounds: u64,
    budget: u64,
) -> Result<Now, Halt>
    ensures moves { GoesOn functions.now frozen.now result going.old going.new budget (λ k. of_class k (told_attribute rounds k name.now place) x name.now place class) }
    ensures used { going.new.state.used ≡ going.old.state.used }
{
    match class {
        Val::Class(o) => of_this_class(going, functions, frozen, x, o, name, place, rounds, budget),
        _ => raise(going, functions, frozen, place, budget),
    }
}

// Of an object: its own attribute, or that of its class.
fn object_attribute(
    going: &mut Going,
    functions: &Functions,
    frozen: &Frozen,
    o: ObjId,
    name: &Name,
    place: Place,
    rounds: u64,
    budget: u64,
) -> Result<Now, Halt>
    ensures moves { GoesOn functions.now frozen.now result going.old going.new budget (λ k. attribute_by k (told_attribute rounds k name.now place) (Val.Object o) name.now place) }
    ensures used { going.new.state.used ≡ going.old.state.used }
{
    if let Some(v) = going.state.heap.attribute(frozen, o, name.as_str()) {
        return give(going, functions, frozen, v, budget);
    }
    let class = first_of_row(going, frozen, o);
    of_class(
        going,
        functions,
        frozen,
        Val::Object(o),
        class,
        name,
        place,
        rounds,
        budget,
    )
}

// Of a class: its own attribute, or that of its base.
fn class_attribute(
    going: &mut Going,
    functions: &Functions,
    frozen: &Frozen,
    o: ObjId,
    name: &Name,
    place: Place,
    rounds: u64,
    budget: u64,
) -> Result<Now, Halt>
    ensures moves { GoesOn functions.now frozen.now result going.old going.new budget (λ k. attribute_by k (told_attribute rounds k name.now place) (Val.Class o) name.now place) }
    ensures used { going.new.state.used ≡ going.old.state.used }
{
    let found = going.state.heap.inherited(frozen, o, name.as_str());
    found_in(
        going,
        functions,
        frozen,
        Val::Class(o),
        None,
        found,
        name,
        place,
        rounds,
        budget,
    )
}

// Of a list.
fn list_attribute(
    going: &mut Going,
    functions: &Functions,
    frozen: &Frozen,
    o: ObjId,
    name: &Name,
    place: Place,
    _rounds: u64,
    budget: u64,
) -> Result<Now, Halt>
    ensures moves { GoesOn functions.now frozen.now result going.old going.new budget (λ k. attribute_by k (told_attribute _rounds k name.now place) (Val.List o) name.now place) }
    ensures used { going.new.state.used ≡ going.old.state.used }
{
    let method = list_method(name.as_str());
    builtin_method(
        going,
        functions,
        frozen,
        method,
        Val::List(o),
        place,
        budget,
    )
}

// Of a dict.
fn dict_attribute(
    going: &mut Going,
    functions: &Functions,
    frozen: &Frozen,
    o: ObjId,
    name: &Name,
    place: Place,
    _rounds: u64,
    budget: u64,
) -> Result<Now, Halt>
    ensures moves { GoesOn functions.now frozen.now result going.old going.new budget (λ k. attribute_by k (told_attribute _rounds k name.now place) (Val.Dict o) name.now place) }
    ensures used { going.new.state.used ≡ going.old.state.used }
{
    let method = dict_method(name.as_str());
    builtin_method(
        going,
        functions,
        frozen,
        method,
        Val::Dict(o),
        place,
        budget,
    )
}

// An attribute of a value.
fn attribute_by(
    going: &mut Going,
    functions: &Functions,
    frozen: &Frozen,
    x: Val,
    name: &Name,
    place: Place,
    rounds: u64,
    budget: u64,
) -> Result<Now, Halt>
    ensures moves { GoesOn functions.now frozen.now result going.old going.new budget (λ k. attribute_by k (told_attribute rounds k name.now place) x name.now place) }
    ensures used { going.new.state.used ≡ going.old.state.used }
{
    match x {
        Val::Hw(h) => told_attribute(
            going,
            functions,
            frozen,
            Val::Hw(h),
            name,
            place,
            rounds,
            budget,
        ),
        Val::Object(o) => object_attribute(
            going, functions, frozen, o, name, place, rounds, budget,
        ),
        Val::Class(o) => class_attribute(going, functions, frozen, o, name, place, rounds, budget),
        Val::Func(f) => func_attribute(going, functions, frozen, f, name, place, rounds, budget),
        Val::List(o) => list_attribute(going, functions, frozen, o, name, place, rounds, budget),
        Val::Dict(o) => dict_attribute(going, functions, frozen, o, name, place, rounds, budget),
        _ => raise(going, functions, frozen, place, budget),
    }
}

/// So many answers at most say that the attribute is to be taken from another value.
#[tactic(auto, using(crate::proofs::AttributeLaws::round_rules))]
pub fn attribute_in_rounds(
    going: &mut Going,
    functions: &Functions,
    frozen: &Frozen,
    x: Val,
    name: &Name,
    place: Place,
    rounds: u64,
    budget: u64,
) -> Result<Now, Halt>
    ensures moves { GoesOn functions.now frozen.now result going.old going.new budget (λ k. attribute_in_rounds rounds k x name.now place) }
    ensures used { going.new.state.used ≡ going.old.state.used }
{
    if rounds > 0 {
        attribute_by(going, functions, frozen, x, name, place, rounds - 1, budget)
    } else {
        run_out(going, functions, frozen, place, budget)
    }
}

/// An attribute of a value.
pub fn attribute(
    going: &mut Going,
    functions: &Functions,
    frozen: &Frozen,
    x: Val,
    name: &Name,
    place: Place,
    budget: u64,
) -> Result<Now, Halt>
    ensures moves { GoesOn functions.now frozen.now result going.old going.new budget (λ k. attribute k x name.now place) }
    ensures used { going.new.state.used ≡ going.old.state.used }
{
    attribute_in_rounds(going, functions, frozen, x, name, place, MOST, budget)
}
