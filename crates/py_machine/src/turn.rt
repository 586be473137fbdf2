// Turns: each begins a node, or hands what a node came to on to the frame that waits for it.
ghost use Rattle.std.specs.Prelude.{◌≡◌, ◌<◌, ◌≤◌, ◌∷◌, OnOk};
ghost use Rattle.py_frames.specs.Doing.{came, on_value};
ghost use Rattle.py_frames.specs.Expr_frames.{expr_goes};
ghost use Rattle.py_frames.specs.declared.frame.Frame.TheVariants as frame;
ghost use Rattle.py_frames.specs.Frames.{GoesOn, now_means};
ghost use Rattle.py_frames.specs.Statements.{value_left};
ghost use Rattle.py_frames.specs.Tables.{IsTable};
ghost use Rattle.py_frames.specs.Turns.{Rests, rests, is_call_end};
ghost use Rattle.py_machine.specs.Ends.{EndOf};

use crate::expr::begin;
use crate::stmt::run;
use amh_host::Steps;
use py_calls::call_frame::call_goes;
use py_definitions::def_goes::def_goes;
use py_expressions::expr_goes::expr_goes;
use py_frames::frame::{CallFrame, ExprFrame, Frame, Now};
use py_frames::functions::Functions;
use py_frames::going::{Going, MOST};
use py_frames::state::{Got, Halt, Here};
use py_heap::Frozen;
use py_statements::stmt_goes::stmt_goes;
use py_values::Val;
use py_walks::walk_goes::walk_goes;
use std::sync::ledger::Ledger;

/// Turns, until a request waits or all frames are done with. Each turn ticks `steps` once.
#[tactic(auto, using(crate::proofs::TurnLaws::turns_begin, crate::proofs::TurnLaws::turn_follows, py_frames::proofs::BeginLaws::no_memory))]
pub fn go<L: Ledger>(
    going: &mut Going,
    functions: &Functions,
    frozen: &Frozen,
    first: Now,
    budget: u64,
    steps: &mut Steps<L>,
) -> Result<Now, Halt>
    requires room { going.old.state.used < budget }
    requires table { IsTable functions.now }
    ensures moves { GoesOn functions.now frozen.now result going.old going.new budget (λ k. now_means k first) }
    ensures rests { OnOk result (Rests result going.new) }
    ensures left { OnOk result (going.new.state.used < budget) }
    ensures grows { going.old.state.used ≤ going.new.state.used }
    ensures ticks { steps.old ≤ steps.new }
{
    let mut now = first;
    let mut turns = MOST;
    while turns > 0 {
        if rests(going, &now) {
            return Ok(now);
        }
        turns -= 1;
        steps.tick();
        match turn(going, functions, frozen, now, budget) {
            Ok(next) => now = next,
            Err(halt) => return Err(halt),
        }
    }
    Err(Halt::NoMemory)
}

// Whether a request waits, or no frame waits for what came.
fn rests(going: &Going, now: &Now) -> bool
    ensures { result ≡ rests now.now going.now.frames }
{
    match now {
        Now::Waits { .. } => true,
        Now::Came(_) => going.frames.is_empty(),
        _ => false,
    }
}

// One turn.
#[tactic(auto, using(crate::proofs::TurnLaws::turns_begin))]
fn turn(
    going: &mut Going,
    functions: &Functions,
    frozen: &Frozen,
    now: Now,
    budget: u64,
) -> Result<Now, Halt>
    requires room { going.old.state.used < budget }
    requires table { IsTable functions.now }
    ensures moves { GoesOn functions.now frozen.now result going.old going.new budget (λ k. now_means k now) }
    ensures left { OnOk result (going.new.state.used < budget) }
    ensures grows { going.old.state.used ≤ going.new.state.used }
{
    match now {
        Now::Begin(e, purpose) => begin(going, functions, frozen, &e, purpose, budget),
        Now::Run(s) => run(going, functions, frozen, &s, budget),
        Now::Came(got) => hand_on(going, functions, frozen, got, budget),
        Now::Waits {
            request,
            act,
            rounds,
        } => Ok(Now::Waits {
            request,
            act,
            rounds,
        }),
    }
}

// What a node came to goes to the frame that waits for it.
#[tactic(auto, using(crate::proofs::TurnLaws::taken_out, crate::proofs::TurnLaws::came_none))]
fn hand_on(
    going: &mut Going,
    functions: &Functions,
    frozen: &Frozen,
    got: Got,
    budget: u64,
) -> Result<Now, Halt>
    requires room { going.old.state.used < budget }
    requires table { IsTable functions.now }
    ensures moves { GoesOn functions.now frozen.now result going.old going.new budget (λ k. came got) }
    ensures left { OnOk result (going.new.state.used < budget) }
    ensures grows { going.old.state.used ≤ going.new.state.used }
{
    match going.frames.pop() {
        None => Ok(Now::Came(got)),
        Some(frame) => frame_goes(going, functions, frozen, frame, got, budget),
    }
}

// A frame goes on, which waited for this.
#[tactic(auto, using(crate::proofs::TurnLaws::frames))]
fn frame_goes(
    going: &mut Going,
    functions: &Functions,
    frozen: &Frozen,
    frame: Frame,
    got: Got,
    budget: u64,
) -> Result<Now, Halt>
    requires room { going.old.state.used < budget }
    requires table { IsTable functions.now }
    ensures moves { GoesOn functions.now frozen.now result (record going.old { frames = frame ∷ going.old.frames }) going.new budget (λ k. came got) }
    ensures left { OnOk result (going.new.state.used < budget) }
    ensures grows { going.old.state.used ≤ going.new.state.used }
{
    match frame {
        Frame::Expr(f) => expr_came(going, functions, frozen, f, got, budget),
        Frame::Call(f) => call_came(going, functions, frozen, f, got, budget),
        Frame::Walk(f) => walk_goes(going, functions, frozen, f, got, budget),
        Frame::Stmt(f) => stmt_goes(going, functions, frozen, f, got, budget),
        Frame::Def(f) => def_goes(going, functions, frozen, f, got, budget),
    }
}

// A frame of expressions waits for a value; what else came is handed on.
#[tactic(auto, using(crate::proofs::TurnLaws::handed))]
fn expr_came(
    going: &mut Going,
    functions: &Functions,
    frozen: &Frozen,
    frame: ExprFrame,
    got: Got,
    budget: u64,
) -> Result<Now, Halt>
    requires room { going.old.state.used < budget }
    requires table { IsTable functions.now }
    ensures moves { GoesOn functions.now frozen.now result going.old going.new budget (λ k. on_value got (expr_goes k frame)) }
    ensures left { OnOk result (going.new.state.used < budget) }
    ensures grows { going.old.state.used ≤ going.new.state.used }
{
    match got {
        Got::Value(v) => expr_goes(going, functions, frozen, frame, v, budget),
        Got::Bound(names) => Ok(Now::Came(Got::Bound(names))),
        Got::Through(v) => Ok(Now::Came(Got::Through(v))),
        Got::Next => Ok(Now::Came(Got::Next)),
        Got::Broke => Ok(Now::Came(Got::Broke)),
        Got::Continued => Ok(Now::Came(Got::Continued)),
        Got::Returned(v) => Ok(Now::Came(Got::Returned(v))),
    }
}

// Back where the call stands, with the value that the function's body left.
#[tactic(auto, using(crate::proofs::TurnLaws::call_ended, py_frames::proofs::BeginLaws::no_memory))]
fn end_call(
    going: &mut Going,
    _functions: &Functions,
    _frozen: &Frozen,
    call: CallFrame,
    got: &Got,
    _budget: u64,
) -> Result<Now, Halt>
    requires room { going.old.state.used < _budget }
    ensures moves { GoesOn _functions.now _frozen.now result (record going.old { frames = frame.Call call ∷ going.old.frames }) going.new _budget (λ k. came got.now) }
    ensures left { OnOk result (going.new.state.used < _budget) }
    ensures grows { going.old.state.used ≤ going.new.state.used }
{
    match end_of(call) {
        CallCase::End(outer) => {
            going.state.here = outer;
            Ok(Now::Came(Got::Value(value_left(got))))
        }
        CallCase::Other => Err(Halt::NoMemory),
    }
}

// A frame of calls: the end of one goes back to where the call stands.
#[tactic(auto, using(crate::proofs::TurnLaws::frame_goes, crate::proofs::TurnLaws::keeps_room))]
fn call_came(
    going: &mut Going,
    functions: &Functions,
    frozen: &Frozen,
    call: CallFrame,
    got: Got,
    budget: u64,
) -> Result<Now, Halt>
    requires room { going.old.state.used < budget }
    requires table { IsTable functions.now }
    ensures moves { GoesOn functions.now frozen.now result (record going.old { frames = frame.Call call ∷ going.old.frames }) going.new budget (λ k. came got) }
    ensures left { OnOk result (going.new.state.used < budget) }
    ensures grows { going.old.state.used ≤ going.new.state.used }
{
    if is_call_end(&call) {
        end_call(going, functions, frozen, call, &got, budget)
    } else {
        call_goes(going, functions, frozen, call, got, budget)
    }
}

/// Where the call of a frame stands, where it is the end of one.
#[derive(Drop)]
pub enum CallCase {
    End(Here),
    Other,
}

fn end_of(call: CallFrame) -> CallCase
    ensures { EndOf result call }
{
    match call {
        CallFrame::CallEnd { outer } => CallCase::End(outer),
        _other => CallCase::Other,
    }
}

fn is_call_end(frame: &CallFrame) -> bool
    ensures { result ≡ is_call_end frame.now }
{
    match frame {
        CallFrame::CallEnd { .. } => true,
        _ => false,
    }
}

// What a function's body leaves, as its value.
fn value_left(got: &Got) -> Val
    ensures { result ≡ value_left got.now }
{
    match got {
        Got::Returned(v) => *v,
        _ => Val::None,
    }
}
