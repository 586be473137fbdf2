// Assignments to attributes and to items, and indices.
ghost use Rattle.std.specs.Prelude.{◌≡◌, ◌<◌, ◌≤◌, [], OnOk};
ghost use Rattle.py_heap.specs.Objects.{attribute_set};
ghost use Rattle.py_frames.specs.declared.state.Got.TheVariants.{Next};
ghost use Rattle.py_frames.specs.Doing.{came, heap_seen, making};
ghost use Rattle.py_frames.specs.Asking.{request, ask};
ghost use Rattle.py_frames.specs.Values.{built, store_attribute, indexed, sliced, store_index, iterated, as_row};
ghost use Rattle.py_frames.specs.Calling.{index_set};
ghost use Rattle.py_frames.specs.Frames.{GoesOn};

use crate::call_leaf::{about, about_name, ask_under, give, raise, told_done, vals_of};
use crate::operators::{built, is_thing};
use amh_host::Place;
use py_frames::frame::{Frame, Now, StmtFrame};
use py_frames::functions::Functions;
use py_frames::going::{Going, ask};
use py_frames::request::Act;
use py_frames::state::Halt;
use py_heap::Frozen;
use py_values::{Builtin, Hw, ObjId, Val};

// The store is told an attribute.
#[tactic(auto, using(py_frames::proofs::StoreLaws::store_asked, py_frames::proofs::BeginLaws::turn_rules))]
fn store_thing(
    going: &mut Going,
    functions: &Functions,
    frozen: &Frozen,
    h: Hw,
    name: &str,
    v: Val,
    place: Place,
    budget: u64,
) -> Result<Now, Halt>
    ensures moves { GoesOn functions.now frozen.now result going.old going.new budget (λ k. store_attribute k (Val.Hw h) name.now v place) }
    ensures used { going.new.state.used ≡ going.old.state.used }
{
    let Ok(request) = about_name(
        going.alloc,
        Act::SetAttribute,
        &[Val::Hw(h), v],
        name,
        place,
    ) else {
        return Err(Halt::NoMemory);
    };
    ask_under(
        going,
        functions,
        frozen,
        Frame::Stmt(StmtFrame::LetGo),
        request,
        budget,
    )
}

// Of an object or a class.
#[tactic(auto, using(py_frames::proofs::StoreLaws::attribute_stored))]
fn set_attribute(
    going: &mut Going,
    functions: &Functions,
    frozen: &Frozen,
    o: ObjId,
    name: &str,
    v: Val,
    place: Place,
    budget: u64,
) -> Result<Now, Halt>
    ensures moves { GoesOn functions.now frozen.now result going.old going.new budget (λ k. making (λ s. attribute_set (heap_seen k s) o.0 name.now v) place (λ _. came Next)) }
    ensures used { going.new.state.used ≡ going.old.state.used }
{
    let given = going.state.heap.set_attribute(frozen, o, name, v);
    told_done(given, place)
}

/// `x.name = v`.
pub fn store_attribute(
    going: &mut Going,
    functions: &Functions,
    frozen: &Frozen,
    x: Val,
    name: &str,
    v: Val,
    place: Place,
    budget: u64,
) -> Result<Now, Halt>
    ensures moves { GoesOn functions.now frozen.now result going.old going.new budget (λ k. store_attribute k x name.now v place) }
    ensures used { going.new.state.used ≡ going.old.state.used }
{
    match x {
        Val::Hw(h) => store_thing(going, functions, frozen, h, name, v, place, budget),
        Val::Object(o) => set_attribute(going, functions, frozen, o, name, v, place, budget),
        Val::Class(o) => set_attribute(going, functions, frozen, o, name, v, place, budget),
        _ => raise(going, functions, frozen, place, budget),
    }
}

/// Asks about values alone.
#[tactic(auto, using(py_frames::proofs::CallLaws::asked_same, py_frames::proofs::BeginLaws::turn_rules))]
pub fn ask_about(
    going: &mut Going,
    functions: &Functions,
    frozen: &Frozen,
    act: Act,
    items: &[Val],
    place: Place,
    budget: u64,
) -> Result<Now, Halt>
    ensures moves { GoesOn functions.now frozen.now result going.old going.new budget (λ k. ask k (request act items.now [] place)) }
    ensures used { going.new.state.used ≡ going.old.state.used }
{
    let Ok(request) = about(going.alloc, act, items, place) else {
        return Err(Halt::NoMemory);
    };
    ask(going, functions, frozen, request, budget)
}

/// A builtin over values.
#[tactic(auto, using(py_frames::proofs::StoreLaws::built_same, py_frames::proofs::BeginLaws::turn_rules))]
pub fn built_of(
    going: &mut Going,
    functions: &Functions,
    frozen: &Frozen,
    builtin: Builtin,
    items: &[Val],
    place: Place,
    budget: u64,
) -> Result<Now, Halt>
    requires { going.old.state.used < budget }
    ensures moves { GoesOn functions.now frozen.now result going.old going.new budget (λ k. built k builtin items.now place) }
    ensures left { OnOk result (going.new.state.used < budget) }
    ensures grows { going.old.state.used ≤ going.new.state.used }
{
    let Ok(vals) = vals_of(going.alloc, items) else {
        return Err(Halt::NoMemory);
    };
    built(going, functions, frozen, builtin, vals, place, budget)
}

/// `x[i]`.
#[tactic(auto, using(py_frames::proofs::CallLaws::choose_rules))]
pub fn indexed(
    going: &mut Going,
    functions: &Functions,
    frozen: &Frozen,
    x: Val,
    i: Val,
    place: Place,
    budget: u64,
) -> Result<Now, Halt>
    requires { going.old.state.used < budget }
    ensures moves { GoesOn functions.now frozen.now result going.old going.new budget (λ k. indexed k x i place) }
    ensures left { OnOk result (going.new.state.used < budget) }
    ensures grows { going.old.state.used ≤ going.new.state.used }
{
    if is_thing(&x) {
        ask_about(going, functions, frozen, Act::Index, &[x, i], place, budget)
    } else {
        built_of(
            going,
            functions,
            frozen,
            Builtin::Index,
            &[x, i],
            place,
            budget,
        )
    }
}

/// `x[i:j:step]`.
#[tactic(auto, using(py_frames::proofs::CallLaws::choose_rules))]
pub fn sliced(
    going: &mut Going,
    functions: &Functions,
    frozen: &Frozen,
    x: Val,
    i: Val,
    j: Val,
    step: Val,
    place: Place,
    budget: u64,
) -> Result<Now, Halt>
    requires { going.old.state.used < budget }
    ensures moves { GoesOn functions.now frozen.now result going.old going.new budget (λ k. sliced k x i j step place) }
    ensures left { OnOk result (going.new.state.used < budget) }
    ensures grows { going.old.state.used ≤ going.new.state.used }
{
    if is_thing(&x) {
        ask_about(
            going,
            functions,
            frozen,
            Act::Index,
            &[x, i, j, step],
            place,
            budget,
        )
    } else {
        built_of(
            going,
            functions,
            frozen,
            Builtin::Slice,
            &[x, i, j, step],
            place,
            budget,
        )
    }
}

// `x[i] = v`, before what follows.
#[tactic(auto, using(py_frames::proofs::CallLaws::choose_rules))]
fn index_set(
    going: &mut Going,
    functions: &Functions,
    frozen: &Frozen,
    x: Val,
    i: Val,
    v: Val,
    place: Place,
    budget: u64,
) -> Result<Now, Halt>
    requires { going.old.state.used < budget }
    ensures moves { GoesOn functions.now frozen.now result going.old going.new budget (λ k. index_set k x i v place) }
    ensures left { OnOk result (going.new.state.used < budget) }
    ensures grows { going.old.state.used ≤ going.new.state.used }
{
    if is_thing(&x) {
        ask_about(
            going,
            functions,
            frozen,
            Act::SetIndex,
            &[x, i, v],
            place,
            budget,
        )
    } else {
        built_of(
            going,
            functions,
            frozen,
            Builtin::SetIndex,
            &[x, i, v],
            place,
            budget,
        )
    }
}

/// `x[i] = v`.
#[tactic(auto, using(py_frames::proofs::StoreLaws::index_stored, py_frames::proofs::BeginLaws::turn_rules))]
pub fn store_index(
    going: &mut Going,
    functions: &Functions,
    frozen: &Frozen,
    x: Val,
    i: Val,
    v: Val,
    place: Place,
    budget: u64,
) -> Result<Now, Halt>
    requires { going.old.state.used < budget }
    ensures moves { GoesOn functions.now frozen.now result going.old going.new budget (λ k. store_index k x i v place) }
    ensures left { OnOk result (going.new.state.used < budget) }
    ensures grows { going.old.state.used ≤ going.new.state.used }
{
    match going.frames.push(Frame::Stmt(StmtFrame::LetGo)) {
        Ok(()) => index_set(going, functions, frozen, x, i, v, place, budget),
        Err(_) => Err(Halt::NoMemory),
    }
}

/// The elements of a thing, as a tuple.
pub fn iterated(
    going: &mut Going,
    functions: &Functions,
    frozen: &Frozen,
    v: Val,
    place: Place,
    budget: u64,
) -> Result<Now, Halt>
    ensures moves { GoesOn functions.now frozen.now result going.old going.new budget (λ k. iterated k v place) }
    ensures used { going.new.state.used ≡ going.old.state.used }
{
    ask_about(going, functions, frozen, Act::Iterate, &[v], place, budget)
}

/// What is gone over, with its elements: a thing gives a tuple first.
#[tactic(auto, using(py_frames::proofs::CallLaws::choose_rules))]
pub fn as_row(
    going: &mut Going,
    functions: &Functions,
    frozen: &Frozen,
    v: Val,
    place: Place,
    budget: u64,
) -> Result<Now, Halt>
    ensures moves { GoesOn functions.now frozen.now result going.old going.new budget (λ k. as_row k v place) }
    ensures used { going.new.state.used ≡ going.old.state.used }
{
    if is_thing(&v) {
        iterated(going, functions, frozen, v, place, budget)
    } else {
        give(going, functions, frozen, v, budget)
    }
}
