// Answers to requests.
ghost use Rattle.std.specs.Prelude.{◌≡◌, ◌<◌, ◌≤◌, [], OnOk};
ghost use Rattle.py_frames.specs.declared.state.Got.TheVariants as got;
ghost use Rattle.py_frames.specs.Doing.{came, give, stop};
ghost use Rattle.py_frames.specs.Asking.{answered, asked, request, function_called, if_taken, takes_value, takes_text, takes_list, takes_names, takes_call, takes_through};
ghost use Rattle.py_machine.specs.Replying.{text_given, list_given, call_told};
ghost use Rattle.py_frames.specs.Tables.{IsTable};
ghost use Rattle.py_frames.specs.Frames.{GoesOn};

use amh_host::{Place, Text};
use py_callables::call_enter::enter;
use py_calls::call_frame::{came, is_async};
use py_frames::frame::{CallFrame, Frame, Now};
use py_frames::functions::Functions;
use py_frames::going::Going;
use py_frames::request::{Act, Answer, Cause, NamedVals, Stop};
use py_frames::state::{Got, Halt};
use py_heap::Frozen;
use py_turns::call_leaf::{give, raise};
use py_turns::expr_values::{new_text, new_tuple};
use py_values::{Val, Vals};

// Which acts take a value.
fn takes_value(act: Act) -> bool
    ensures { result ≡ takes_value act }
{
    match act {
        Act::Iterate => false,
        Act::InitBase => false,
        _ => true,
    }
}

// Which acts take a text.
fn takes_text(act: Act) -> bool
    ensures { result ≡ takes_text act }
{
    match act {
        Act::Attribute => true,
        _ => false,
    }
}

// Which acts take a list.
fn takes_list(act: Act) -> bool
    ensures { result ≡ takes_list act }
{
    match act {
        Act::CallThing => true,
        Act::Iterate => true,
        Act::Await => true,
        _ => false,
    }
}

// Which acts take names.
fn takes_names(act: Act) -> bool
    ensures { result ≡ takes_names act }
{
    match act {
        Act::Import => true,
        Act::InitBase => true,
        _ => false,
    }
}

// Which acts take the call of a function.
fn takes_call(act: Act) -> bool
    ensures { result ≡ takes_call act }
{
    match act {
        Act::CallThing => true,
        Act::BodyEnd => true,
        _ => false,
    }
}

// Which acts take another value.
fn takes_through(act: Act) -> bool
    ensures { result ≡ takes_through act }
{
    match act {
        Act::Attribute => true,
        _ => false,
    }
}

// A refusal.
#[tactic(auto, using(py_frames::proofs::BeginLaws::turn_rules))]
fn refused(
    going: &mut Going,
    _functions: &Functions,
    _frozen: &Frozen,
    why: Cause,
    place: Place,
    _budget: u64,
) -> Result<Now, Halt>
    ensures moves { GoesOn _functions.now _frozen.now result going.old going.new _budget (λ k. stop why place) }
    ensures used { going.new.state.used ≡ going.old.state.used }
{
    Err(Halt::Stopped(Stop { cause: why, place }))
}

// A value.
#[tactic(auto, using(py_frames::proofs::CallLaws::choose_rules))]
fn value_given(
    going: &mut Going,
    functions: &Functions,
    frozen: &Frozen,
    act: Act,
    v: Val,
    place: Place,
    budget: u64,
) -> Result<Now, Halt>
    ensures moves { GoesOn functions.now frozen.now result going.old going.new budget (λ k. if_taken (takes_value act) place (give v)) }
    ensures used { going.new.state.used ≡ going.old.state.used }
{
    if takes_value(act) {
        give(going, functions, frozen, v, budget)
    } else {
        raise(going, functions, frozen, place, budget)
    }
}

// A list, as a tuple.
#[tactic(auto, using(py_frames::proofs::CallLaws::choose_rules))]
fn row_given(
    going: &mut Going,
    functions: &Functions,
    frozen: &Frozen,
    act: Act,
    vals: Vals,
    place: Place,
    budget: u64,
) -> Result<Now, Halt>
    ensures moves { GoesOn functions.now frozen.now result going.old going.new budget (λ k. if_taken (takes_list act) place (list_given k vals place)) }
    ensures used { going.new.state.used ≡ going.old.state.used }
{
    if takes_list(act) {
        new_tuple(going, functions, frozen, vals, place, budget)
    } else {
        raise(going, functions, frozen, place, budget)
    }
}

// Names.
#[tactic(auto, using(py_frames::proofs::CallLaws::choose_rules))]
fn names_given(
    going: &mut Going,
    functions: &Functions,
    frozen: &Frozen,
    act: Act,
    names: NamedVals,
    place: Place,
    budget: u64,
) -> Result<Now, Halt>
    ensures moves { GoesOn functions.now frozen.now result going.old going.new budget (λ k. if_taken (takes_names act) place (came (got.Bound names))) }
    ensures used { going.new.state.used ≡ going.old.state.used }
{
    if takes_names(act) {
        came(going, functions, frozen, Got::Bound(names), budget)
    } else {
        raise(going, functions, frozen, place, budget)
    }
}

// The value from which an attribute is to be taken.
#[tactic(auto, using(py_frames::proofs::CallLaws::choose_rules))]
fn through_given(
    going: &mut Going,
    functions: &Functions,
    frozen: &Frozen,
    act: Act,
    v: Val,
    place: Place,
    budget: u64,
) -> Result<Now, Halt>
    ensures moves { GoesOn functions.now frozen.now result going.old going.new budget (λ k. if_taken (takes_through act) place (came (got.Through v))) }
    ensures used { going.new.state.used ≡ going.old.state.used }
{
    if takes_through(act) {
        came(going, functions, frozen, Got::Through(v), budget)
    } else {
        raise(going, functions, frozen, place, budget)
    }
}

// A function begins; its end is told.
#[tactic(auto, using(crate::proofs::ReplyLaws::call_answer, py_frames::proofs::BeginLaws::turn_rules))]
fn call_begun(
    going: &mut Going,
    functions: &Functions,
    frozen: &Frozen,
    act: Act,
    callee: &Val,
    args: Vals,
    rounds: u64,
    place: Place,
    budget: u64,
) -> Result<Now, Halt>
    requires room { going.old.state.used < budget }
    requires table { IsTable functions.now }
    ensures moves { GoesOn functions.now frozen.now result going.old going.new budget (λ k. call_told k rounds act callee.now args place) }
    ensures left { OnOk result (going.new.state.used < budget) }
    ensures grows { going.old.state.used ≤ going.new.state.used }
{
    let frame = Frame::Call(CallFrame::Answering {
        act,
        place,
        callee: *callee,
        rounds,
    });
    let keywords = NamedVals::new(going.alloc);
    match going.frames.push(frame) {
        Ok(()) => enter(
            going, functions, frozen, *callee, args, keywords, place, budget,
        ),
        Err(_) => Err(Halt::NoMemory),
    }
}

// A function begins, unless it is `async`.
#[tactic(auto, using(crate::proofs::ReplyLaws::call_rules, py_frames::proofs::BeginLaws::turn_rules))]
fn function_called(
    going: &mut Going,
    functions: &Functions,
    frozen: &Frozen,
    act: Act,
    callee: &Val,
    args: Vals,
    rounds: u64,
    place: Place,
    budget: u64,
) -> Result<Now, Halt>
    requires room { going.old.state.used < budget }
    requires table { IsTable functions.now }
    ensures moves { GoesOn functions.now frozen.now result going.old going.new budget (λ k. function_called k (asked rounds k act) (request act [] [] place) callee.now args) }
    ensures left { OnOk result (going.new.state.used < budget) }
    ensures grows { going.old.state.used ≤ going.new.state.used }
{
    if is_async(going, functions, frozen, callee) {
        return raise(going, functions, frozen, place, budget);
    }
    call_begun(
        going, functions, frozen, act, callee, args, rounds, place, budget,
    )
}

// The call of a function.
#[tactic(auto, using(py_frames::proofs::CallLaws::choose_rules))]
fn call_given(
    going: &mut Going,
    functions: &Functions,
    frozen: &Frozen,
    act: Act,
    callee: Val,
    args: Vals,
    rounds: u64,
    place: Place,
    budget: u64,
) -> Result<Now, Halt>
    requires room { going.old.state.used < budget }
    requires table { IsTable functions.now }
    ensures moves { GoesOn functions.now frozen.now result going.old going.new budget (λ k. if_taken (takes_call act) place (function_called k (asked rounds k act) (request act [] [] place) callee args)) }
    ensures left { OnOk result (going.new.state.used < budget) }
    ensures grows { going.old.state.used ≤ going.new.state.used }
{
    if takes_call(act) {
        function_called(
            going, functions, frozen, act, &callee, args, rounds, place, budget,
        )
    } else {
        raise(going, functions, frozen, place, budget)
    }
}

// A text, as a string.
#[tactic(auto, using(py_frames::proofs::CallLaws::choose_rules))]
fn text_given(
    going: &mut Going,
    functions: &Functions,
    frozen: &Frozen,
    act: Act,
    text: &Text,
    place: Place,
    budget: u64,
) -> Result<Now, Halt>
    ensures moves { GoesOn functions.now frozen.now result going.old going.new budget (λ k. if_taken (takes_text act) place (text_given k text.now place)) }
    ensures used { going.new.state.used ≡ going.old.state.used }
{
    if takes_text(act) {
        new_text(going, functions, frozen, text, place, budget)
    } else {
        raise(going, functions, frozen, place, budget)
    }
}

/// An answer is taken.
pub fn answered(
    going: &mut Going,
    functions: &Functions,
    frozen: &Frozen,
    act: Act,
    place: Place,
    rounds: u64,
    answer: Answer,
    budget: u64,
) -> Result<Now, Halt>
    requires room { going.old.state.used < budget }
    requires table { IsTable functions.now }
    ensures moves { GoesOn functions.now frozen.now result going.old going.new budget (λ k. answered k (asked rounds k act) act (request act [] [] place) answer) }
    ensures left { OnOk result (going.new.state.used < budget) }
    ensures grows { going.old.state.used ≤ going.new.state.used }
{
    match answer {
        Answer::Begin => raise(going, functions, frozen, place, budget),
        Answer::Give(v) => value_given(going, functions, frozen, act, v, place, budget),
        Answer::GiveText(text) => text_given(going, functions, frozen, act, &text, place, budget),
        Answer::GiveList(vals) => row_given(going, functions, frozen, act, vals, place, budget),
        Answer::Bind(names) => names_given(going, functions, frozen, act, names, place, budget),
        Answer::Call { callee, args } => call_given(
            going, functions, frozen, act, callee, args, rounds, place, budget,
        ),
        Answer::Through(v) => through_given(going, functions, frozen, act, v, place, budget),
        Answer::Refuse(why) => refused(going, functions, frozen, why, place, budget),
    }
}
