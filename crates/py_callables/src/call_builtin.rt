// Calls of builtins and of things.
ghost use Rattle.std.specs.Prelude.{◌≡◌, ◌<◌, ◌≤◌, [], ◌∷◌, length, OnOk};
ghost use Rattle.py_frames.specs.Doing.{give};
ghost use Rattle.py_frames.specs.Values.{called, builtin_called, init_this, init_thing, length_called, magnitude_called, super_called, with_func, without_arguments, without_keywords, gone_over, with_this, nothing_begun};
ghost use Rattle.py_callables.specs.Called.{called_by_kind};
ghost use Rattle.py_frames.specs.Frames.{GoesOn};

use crate::call_gone::gone_over;
use crate::call_kind::{
    CallKind, call_request, init_request, is_one, kind_of, no_arguments, no_keywords, one_thing,
    super_of, with_this,
};
use amh_host::Place;
use py_frames::frame::{CallFrame, Frame, Now};
use py_frames::functions::Functions;
use py_frames::going::{Going, ask};
use py_frames::request::{Act, NamedVals};
use py_frames::state::Halt;
use py_heap::Frozen;
use py_turns::attribute_store::ask_about;
use py_turns::call_leaf::{about_name, ask_under, give, new_func, raise};
use py_turns::operators::built;
use py_values::{Builtin, Func, Hw, ObjId, Val, Vals};

/// A thing is called: the store is asked.
#[tactic(auto, using(py_frames::proofs::CallLaws::asked_same, py_frames::proofs::BeginLaws::turn_rules))]
pub fn thing_called(
    going: &mut Going,
    functions: &Functions,
    frozen: &Frozen,
    h: Hw,
    name: &str,
    args: Vals,
    keywords: NamedVals,
    place: Place,
    budget: u64,
) -> Result<Now, Halt>
    ensures moves { GoesOn functions.now frozen.now result going.old going.new budget (λ k. called k name.now (Val.Hw h) args keywords place) }
    ensures used { going.new.state.used ≡ going.old.state.used }
{
    let Ok(request) = call_request(going.alloc, h, name, &args, &keywords, place) else {
        return Err(Halt::NoMemory);
    };
    ask(going, functions, frozen, request, budget)
}

/// The store makes what an object has from the thing that its class stands over.
#[tactic(auto, using(crate::proofs::CalledLaws::init_asked, py_frames::proofs::BeginLaws::turn_rules))]
pub fn init_thing(
    going: &mut Going,
    functions: &Functions,
    frozen: &Frozen,
    o: ObjId,
    args: Vals,
    keywords: NamedVals,
    place: Place,
    gives: Val,
    budget: u64,
) -> Result<Now, Halt>
    ensures moves { GoesOn functions.now frozen.now result going.old going.new budget (λ k. init_thing k o args keywords place (give gives)) }
    ensures used { going.new.state.used ≡ going.old.state.used }
{
    let Ok(request) = init_request(going.alloc, o, &args, &keywords, place) else {
        return Err(Halt::NoMemory);
    };
    let frame = Frame::Call(CallFrame::InitNames {
        object: o,
        place,
        result: gives,
    });
    ask_under(going, functions, frozen, frame, request, budget)
}

// `super().__init__` that reaches a thing.
fn init_this(
    going: &mut Going,
    functions: &Functions,
    frozen: &Frozen,
    this: Option<Val>,
    args: Vals,
    keywords: NamedVals,
    place: Place,
    budget: u64,
) -> Result<Now, Halt>
    ensures moves { GoesOn functions.now frozen.now result going.old going.new budget (λ k. init_this k this args keywords place) }
    ensures used { going.new.state.used ≡ going.old.state.used }
{
    match this {
        Some(Val::Object(o)) => init_thing(
            going,
            functions,
            frozen,
            o,
            args,
            keywords,
            place,
            Val::None,
            budget,
        ),
        _ => raise(going, functions, frozen, place, budget),
    }
}

// A new function, where there is one.
fn with_func(
    going: &mut Going,
    functions: &Functions,
    frozen: &Frozen,
    f: Option<Func>,
    place: Place,
    budget: u64,
) -> Result<Now, Halt>
    ensures moves { GoesOn functions.now frozen.now result going.old going.new budget (λ k. with_func k f place) }
    ensures used { going.new.state.used ≡ going.old.state.used }
{
    match f {
        Some(f) => new_func(going, functions, frozen, f, place, budget),
        None => raise(going, functions, frozen, place, budget),
    }
}

// `super()`.
fn super_made(
    going: &mut Going,
    functions: &Functions,
    frozen: &Frozen,
    place: Place,
    budget: u64,
) -> Result<Now, Halt>
    ensures moves { GoesOn functions.now frozen.now result going.old going.new budget (λ k. super_called k None place) }
    ensures used { going.new.state.used ≡ going.old.state.used }
{
    let class = going
        .state
        .heap
        .look_up(frozen, going.state.here.scope, "class");
    let f = super_of(going, frozen, going.state.here.first, class);
    with_func(going, functions, frozen, f, place, budget)
}

// `super()`, which no value has.
fn super_called(
    going: &mut Going,
    functions: &Functions,
    frozen: &Frozen,
    this: Option<Val>,
    place: Place,
    budget: u64,
) -> Result<Now, Halt>
    ensures moves { GoesOn functions.now frozen.now result going.old going.new budget (λ k. super_called k this place) }
    ensures used { going.new.state.used ≡ going.old.state.used }
{
    match this {
        None => super_made(going, functions, frozen, place, budget),
        Some(_) => raise(going, functions, frozen, place, budget),
    }
}

// `super()` takes no arguments.
#[tactic(auto, using(crate::proofs::CalledLaws::argument_rules))]
fn super_bare(
    going: &mut Going,
    functions: &Functions,
    frozen: &Frozen,
    this: Option<Val>,
    args: Vals,
    keywords: NamedVals,
    place: Place,
    budget: u64,
) -> Result<Now, Halt>
    ensures moves { GoesOn functions.now frozen.now result going.old going.new budget (λ k. without_arguments args keywords place (super_called k this place)) }
    ensures used { going.new.state.used ≡ going.old.state.used }
{
    if no_arguments(&args, &keywords) {
        super_called(going, functions, frozen, this, place, budget)
    } else {
        raise(going, functions, frozen, place, budget)
    }
}

/// A value, where there are no arguments.
#[tactic(auto, using(crate::proofs::CalledLaws::argument_rules))]
pub fn give_bare(
    going: &mut Going,
    functions: &Functions,
    frozen: &Frozen,
    v: Val,
    args: Vals,
    keywords: NamedVals,
    place: Place,
    budget: u64,
) -> Result<Now, Halt>
    ensures moves { GoesOn functions.now frozen.now result going.old going.new budget (λ k. without_arguments args keywords place (give v)) }
    ensures used { going.new.state.used ≡ going.old.state.used }
{
    if no_arguments(&args, &keywords) {
        give(going, functions, frozen, v, budget)
    } else {
        raise(going, functions, frozen, place, budget)
    }
}

// The `__init__` of every object.
#[tactic(auto, using(crate::proofs::CalledLaws::begun_rules))]
fn nothing_begun(
    going: &mut Going,
    functions: &Functions,
    frozen: &Frozen,
    args: Vals,
    place: Place,
    budget: u64,
) -> Result<Now, Halt>
    ensures moves { GoesOn functions.now frozen.now result going.old going.new budget (λ k. nothing_begun args place) }
    ensures used { going.new.state.used ≡ going.old.state.used }
{
    let alone = is_one(args.as_slice());
    if alone {
        give(going, functions, frozen, Val::None, budget)
    } else {
        raise(going, functions, frozen, place, budget)
    }
}

// The same, without keywords.
#[tactic(auto, using(crate::proofs::CalledLaws::keyword_rules, crate::proofs::CalledLaws::begun_same, py_frames::proofs::BeginLaws::turn_rules))]
fn init_bare(
    going: &mut Going,
    functions: &Functions,
    frozen: &Frozen,
    this: Option<Val>,
    args: Vals,
    keywords: NamedVals,
    place: Place,
    budget: u64,
) -> Result<Now, Halt>
    ensures moves { GoesOn functions.now frozen.now result going.old going.new budget (λ k. without_keywords keywords place (nothing_begun (with_this this args) place)) }
    ensures used { going.new.state.used ≡ going.old.state.used }
{
    if !no_keywords(&keywords) {
        return raise(going, functions, frozen, place, budget);
    }
    let Ok(vals) = with_this(going.alloc, this, args) else {
        return Err(Halt::NoMemory);
    };
    nothing_begun(going, functions, frozen, vals, place, budget)
}

// `len`.
#[tactic(auto, using(crate::proofs::CalledLaws::length_rules))]
fn length_called(
    going: &mut Going,
    functions: &Functions,
    frozen: &Frozen,
    args: Vals,
    place: Place,
    budget: u64,
) -> Result<Now, Halt>
    requires { going.old.state.used < budget }
    ensures moves { GoesOn functions.now frozen.now result going.old going.new budget (λ k. length_called k args place) }
    ensures left { OnOk result (going.new.state.used < budget) }
    ensures grows { going.old.state.used ≤ going.new.state.used }
{
    match one_thing(&args) {
        Some(h) => ask_about(
            going,
            functions,
            frozen,
            Act::Length,
            &[Val::Hw(h)],
            place,
            budget,
        ),
        None => built(going, functions, frozen, Builtin::Len, args, place, budget),
    }
}

// `abs` of a thing.
#[tactic(auto, using(py_frames::proofs::CallLaws::asked_same, py_frames::proofs::BeginLaws::turn_rules))]
fn magnitude_of(
    going: &mut Going,
    functions: &Functions,
    frozen: &Frozen,
    h: Hw,
    place: Place,
    budget: u64,
) -> Result<Now, Halt>
    ensures moves { GoesOn functions.now frozen.now result going.old going.new budget (λ k. magnitude_called k (Val.Hw h ∷ []) place) }
    ensures used { going.new.state.used ≡ going.old.state.used }
{
    let Ok(request) = about_name(going.alloc, Act::Operator, &[Val::Hw(h)], "abs", place) else {
        return Err(Halt::NoMemory);
    };
    ask(going, functions, frozen, request, budget)
}

// `abs`.
#[tactic(auto, using(crate::proofs::CalledLaws::magnitude_rules))]
fn magnitude_called(
    going: &mut Going,
    functions: &Functions,
    frozen: &Frozen,
    args: Vals,
    place: Place,
    budget: u64,
) -> Result<Now, Halt>
    requires { going.old.state.used < budget }
    ensures moves { GoesOn functions.now frozen.now result going.old going.new budget (λ k. magnitude_called k args place) }
    ensures left { OnOk result (going.new.state.used < budget) }
    ensures grows { going.old.state.used ≤ going.new.state.used }
{
    match one_thing(&args) {
        Some(h) => magnitude_of(going, functions, frozen, h, place, budget),
        None => built(going, functions, frozen, Builtin::Abs, args, place, budget),
    }
}

// `len`, without keywords.
#[tactic(auto, using(crate::proofs::CalledLaws::keyword_rules, crate::proofs::CalledLaws::len_same, py_frames::proofs::BeginLaws::turn_rules))]
fn len_bare(
    going: &mut Going,
    functions: &Functions,
    frozen: &Frozen,
    this: Option<Val>,
    args: Vals,
    keywords: NamedVals,
    place: Place,
    budget: u64,
) -> Result<Now, Halt>
    requires { going.old.state.used < budget }
    ensures moves { GoesOn functions.now frozen.now result going.old going.new budget (λ k. without_keywords keywords place (length_called k (with_this this args) place)) }
    ensures left { OnOk result (going.new.state.used < budget) }
    ensures grows { going.old.state.used ≤ going.new.state.used }
{
    if !no_keywords(&keywords) {
        return raise(going, functions, frozen, place, budget);
    }
    let Ok(vals) = with_this(going.alloc, this, args) else {
        return Err(Halt::NoMemory);
    };
    length_called(going, functions, frozen, vals, place, budget)
}

// `abs`, without keywords.
#[tactic(auto, using(crate::proofs::CalledLaws::keyword_rules, crate::proofs::CalledLaws::abs_same, py_frames::proofs::BeginLaws::turn_rules))]
fn abs_bare(
    going: &mut Going,
    functions: &Functions,
    frozen: &Frozen,
    this: Option<Val>,
    args: Vals,
    keywords: NamedVals,
    place: Place,
    budget: u64,
) -> Result<Now, Halt>
    requires { going.old.state.used < budget }
    ensures moves { GoesOn functions.now frozen.now result going.old going.new budget (λ k. without_keywords keywords place (magnitude_called k (with_this this args) place)) }
    ensures left { OnOk result (going.new.state.used < budget) }
    ensures grows { going.old.state.used ≤ going.new.state.used }
{
    if !no_keywords(&keywords) {
        return raise(going, functions, frozen, place, budget);
    }
    let Ok(vals) = with_this(going.alloc, this, args) else {
        return Err(Halt::NoMemory);
    };
    magnitude_called(going, functions, frozen, vals, place, budget)
}

// Another builtin, without keywords.
#[tactic(auto, using(crate::proofs::CalledLaws::keyword_rules, crate::proofs::CalledLaws::gone_same, py_frames::proofs::BeginLaws::turn_rules))]
fn plain_bare(
    going: &mut Going,
    functions: &Functions,
    frozen: &Frozen,
    b: Builtin,
    this: Option<Val>,
    args: Vals,
    keywords: NamedVals,
    place: Place,
    budget: u64,
) -> Result<Now, Halt>
    requires { going.old.state.used < budget }
    ensures moves { GoesOn functions.now frozen.now result going.old going.new budget (λ k. without_keywords keywords place (gone_over k b (length (with_this this args)) [] (with_this this args) place)) }
    ensures left { OnOk result (going.new.state.used < budget) }
    ensures grows { going.old.state.used ≤ going.new.state.used }
{
    if !no_keywords(&keywords) {
        return raise(going, functions, frozen, place, budget);
    }
    let Ok(vals) = with_this(going.alloc, this, args) else {
        return Err(Halt::NoMemory);
    };
    let done = Vals::new(going.alloc);
    gone_over(
        going,
        functions,
        frozen,
        b,
        vals.len() as u64,
        done,
        vals,
        place,
        budget,
    )
}

// A builtin by the kind of its call.
fn called_by_kind(
    going: &mut Going,
    functions: &Functions,
    frozen: &Frozen,
    kind: CallKind,
    b: Builtin,
    this: Option<Val>,
    args: Vals,
    keywords: NamedVals,
    place: Place,
    budget: u64,
) -> Result<Now, Halt>
    requires { going.old.state.used < budget }
    ensures moves { GoesOn functions.now frozen.now result going.old going.new budget (λ k. called_by_kind k kind b this args keywords place) }
    ensures left { OnOk result (going.new.state.used < budget) }
    ensures grows { going.old.state.used ≤ going.new.state.used }
{
    match kind {
        CallKind::Super => super_bare(
            going, functions, frozen, this, args, keywords, place, budget,
        ),
        CallKind::InitThing => init_this(
            going, functions, frozen, this, args, keywords, place, budget,
        ),
        CallKind::InitNothing => init_bare(
            going, functions, frozen, this, args, keywords, place, budget,
        ),
        CallKind::Print => give(going, functions, frozen, Val::None, budget),
        CallKind::Len => len_bare(
            going, functions, frozen, this, args, keywords, place, budget,
        ),
        CallKind::Abs => abs_bare(
            going, functions, frozen, this, args, keywords, place, budget,
        ),
        CallKind::Plain => plain_bare(
            going, functions, frozen, b, this, args, keywords, place, budget,
        ),
    }
}

/// A builtin is called.
pub fn builtin_called(
    going: &mut Going,
    functions: &Functions,
    frozen: &Frozen,
    b: Builtin,
    this: Option<Val>,
    args: Vals,
    keywords: NamedVals,
    place: Place,
    budget: u64,
) -> Result<Now, Halt>
    requires { going.old.state.used < budget }
    ensures moves { GoesOn functions.now frozen.now result going.old going.new budget (λ k. builtin_called k b this args keywords place) }
    ensures left { OnOk result (going.new.state.used < budget) }
    ensures grows { going.old.state.used ≤ going.new.state.used }
{
    let kind = kind_of(b);
    called_by_kind(
        going, functions, frozen, kind, b, this, args, keywords, place, budget,
    )
}
