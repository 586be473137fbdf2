// Calls of functions with a body: a new scope, in which the parameters are bound and the body runs.
ghost use Rattle.std.specs.Prelude.{◌≡◌, ◌<◌, ◌≤◌, OnOk, IfOk, Some};
ghost use Rattle.py_tree.specs.Programs.{steps_of, body_of};
ghost use Rattle.py_heap.specs.Heaps.{seen, func_at};
ghost use Rattle.py_frames.specs.Functions.{function_at};
ghost use Rattle.py_frames.specs.Own.{function_names};
ghost use Rattle.py_frames.specs.Statements.{first_of, body_entered, code_entered, func_entered, entered};
ghost use Rattle.py_callables.specs.Entering.{runs_at, runs_under};
ghost use Rattle.py_frames.specs.Tables.{IsTable};
ghost use Rattle.py_frames.specs.Frames.{GoesOn};

use crate::call_kind::with_this;
use crate::call_meet::parameters_met;
use amh_host::{NoMemory, Place};
use py_frames::frame::{CallFrame, Frame, Now};
use py_frames::functions::{Functions, KnownFunction};
use py_frames::going::{Going, stopped, told};
use py_frames::request::{Cause, NamedVals};
use py_frames::state::{Halt, Here};
use py_heap::Frozen;
use py_tree::Block;
use py_turns::block::run_block;
use py_turns::call_leaf::{raise, vals_of};
use py_values::{Code, Func, FuncId, Val, Vals};
use py_walks::bound_names::names_bound;
use std::mem::replace;

/// The first of the arguments.
pub fn first_of(args: &[Val]) -> Option<Val>
    ensures { result ≡ first_of args.now }
{
    match args {
        [] => None,
        [v, ..] => Some(*v),
    }
}

// A function of the heap.
fn func_of(going: &Going, frozen: &Frozen, id: FuncId) -> Result<Option<Func>, NoMemory>
    ensures { IfOk result (λ f. f ≡ func_at (seen frozen.now going.now.state.heap) id.0) }
{
    let Some(f) = going.state.heap.func(frozen, id) else {
        return Ok(None);
    };
    match vals_of(going.alloc, f.defaults.as_slice()) {
        Ok(defaults) => Ok(Some(Func {
            code: f.code,
            this: f.this,
            home: f.home,
            defaults,
            scope: f.scope,
        })),
        Err(_) => Err(NoMemory),
    }
}

// The statements of a function begin elsewhere; a frame waits for what they leave.
#[tactic(auto, using(py_frames::proofs::BeginLaws::turn_rules))]
fn body_begun(
    going: &mut Going,
    functions: &Functions,
    frozen: &Frozen,
    here: Here,
    bound: u64,
    block: &Block,
    budget: u64,
) -> Result<Now, Halt>
    requires room { going.old.state.used < budget }
    requires table { IsTable functions.now }
    ensures moves { GoesOn functions.now frozen.now result going.old going.new budget (λ k. runs_under k here bound (steps_of block.now)) }
    ensures left { OnOk result (going.new.state.used < budget) }
    ensures grows { going.old.state.used ≤ going.new.state.used }
{
    let outer = replace(&mut going.state.here, here);
    going.state.bound = bound;
    match going.frames.push(Frame::Call(CallFrame::CallEnd { outer })) {
        Ok(()) => run_block(going, functions, frozen, block, budget),
        Err(_) => Err(Halt::NoMemory),
    }
}

// A function's body runs in a new scope, where its parameters are bound.
#[tactic(auto, using(crate::proofs::EnterLaws::body_rules, py_frames::proofs::BeginLaws::turn_rules))]
fn body_run(
    going: &mut Going,
    functions: &Functions,
    frozen: &Frozen,
    known: &KnownFunction,
    f: &Func,
    args: &Vals,
    met: &NamedVals,
    place: Place,
    budget: u64,
) -> Result<Now, Halt>
    requires room { going.old.state.used < budget }
    requires own { known.now.own ≡ function_names (body_of known.now.function.value) }
    requires table { IsTable functions.now }
    ensures moves { GoesOn functions.now frozen.now result going.old going.new budget (λ k. (runs_at k.program k.frozen going.old.state.here.room).run_body f.now args.now met.now (body_of known.now.function.value) place) }
    ensures left { OnOk result (going.new.state.used < budget) }
    ensures grows { going.old.state.used ≤ going.new.state.used }
{
    let Some(room) = going.state.here.room.checked_sub(1) else {
        return Err(stopped(Cause::Limit, place));
    };
    let Some(bound) = going.state.bound.checked_add(met.len() as u64) else {
        return Err(Halt::NoMemory);
    };
    let Ok(own) = known.own.share() else {
        return Err(Halt::NoMemory);
    };
    let scope = match going.state.heap.scope(frozen, f.scope, false, own) {
        Ok(scope) => scope,
        Err(e) => return told(Err(e), place),
    };
    let here = Here {
        scope,
        first: first_of(args.as_slice()),
        body: None,
        notes: NamedVals::new(going.alloc),
        room,
    };
    match names_bound(&mut going.state.heap, frozen, scope, met.as_slice()) {
        Ok(()) => body_begun(
            going,
            functions,
            frozen,
            here,
            bound,
            &known.function.body,
            budget,
        ),
        Err(e) => told(Err(e), place),
    }
}

// The arguments of a call meet the parameters of a function, whose body then runs.
#[tactic(auto, using(crate::proofs::EnterLaws::met_rules, py_frames::proofs::BeginLaws::turn_rules))]
fn body_entered(
    going: &mut Going,
    functions: &Functions,
    frozen: &Frozen,
    known: &KnownFunction,
    f: &Func,
    args: Vals,
    keywords: NamedVals,
    place: Place,
    budget: u64,
) -> Result<Now, Halt>
    requires room { going.old.state.used < budget }
    requires own { known.now.own ≡ function_names (body_of known.now.function.value) }
    requires table { IsTable functions.now }
    ensures moves { GoesOn functions.now frozen.now result going.old going.new budget (λ k. body_entered (runs_at k.program k.frozen going.old.state.here.room) (Some (body_of known.now.function.value)) f.now args keywords place) }
    ensures left { OnOk result (going.new.state.used < budget) }
    ensures grows { going.old.state.used ≤ going.new.state.used }
{
    let Ok(args) = with_this(going.alloc, f.this, args) else {
        return Err(Halt::NoMemory);
    };
    let Ok(met) = parameters_met(
        going.alloc,
        known.function.params.as_slice(),
        args.as_slice(),
        keywords,
        f.defaults.as_slice(),
    ) else {
        return Err(Halt::NoMemory);
    };
    match met {
        Some(met) => body_run(
            going, functions, frozen, known, f, &args, &met, place, budget,
        ),
        None => raise(going, functions, frozen, place, budget),
    }
}

// The function whose `def` statement stands at a place is entered.
fn def_entered(
    going: &mut Going,
    functions: &Functions,
    frozen: &Frozen,
    at: Place,
    f: &Func,
    args: Vals,
    keywords: NamedVals,
    place: Place,
    budget: u64,
) -> Result<Now, Halt>
    requires room { going.old.state.used < budget }
    requires table { IsTable functions.now }
    ensures moves { GoesOn functions.now frozen.now result going.old going.new budget (λ k. body_entered (runs_at k.program k.frozen going.old.state.here.room) (function_at at k.program) f.now args keywords place) }
    ensures left { OnOk result (going.new.state.used < budget) }
    ensures grows { going.old.state.used ≤ going.new.state.used }
{
    match functions.find(at) {
        Some(known) => body_entered(
            going, functions, frozen, known, f, args, keywords, place, budget,
        ),
        None => raise(going, functions, frozen, place, budget),
    }
}

// A function by its code.
fn code_entered(
    going: &mut Going,
    functions: &Functions,
    frozen: &Frozen,
    f: &Func,
    args: Vals,
    keywords: NamedVals,
    place: Place,
    budget: u64,
) -> Result<Now, Halt>
    requires room { going.old.state.used < budget }
    requires table { IsTable functions.now }
    ensures moves { GoesOn functions.now frozen.now result going.old going.new budget (λ k. code_entered (runs_at k.program k.frozen going.old.state.here.room) k.program f.now.code f.now args keywords place) }
    ensures left { OnOk result (going.new.state.used < budget) }
    ensures grows { going.old.state.used ≤ going.new.state.used }
{
    match f.code {
        Code::Def(at) => def_entered(
            going, functions, frozen, at, f, args, keywords, place, budget,
        ),
        Code::Builtin(_) => raise(going, functions, frozen, place, budget),
    }
}

// A function of the heap is entered.
#[tactic(auto, using(crate::proofs::EnterLaws::func_rules, py_frames::proofs::BeginLaws::turn_rules))]
fn func_entered(
    going: &mut Going,
    functions: &Functions,
    frozen: &Frozen,
    id: FuncId,
    args: Vals,
    keywords: NamedVals,
    place: Place,
    budget: u64,
) -> Result<Now, Halt>
    requires room { going.old.state.used < budget }
    requires table { IsTable functions.now }
    ensures moves { GoesOn functions.now frozen.now result going.old going.new budget (λ k. λ w s. func_entered (runs_at k.program k.frozen going.old.state.here.room) k.program (func_at (seen k.frozen s.heap) id.0) args keywords place w s) }
    ensures left { OnOk result (going.new.state.used < budget) }
    ensures grows { going.old.state.used ≤ going.new.state.used }
{
    let Ok(f) = func_of(going, frozen, id) else {
        return Err(Halt::NoMemory);
    };
    match f {
        Some(f) => code_entered(going, functions, frozen, &f, args, keywords, place, budget),
        None => raise(going, functions, frozen, place, budget),
    }
}

// What is called is a function.
fn val_entered(
    going: &mut Going,
    functions: &Functions,
    frozen: &Frozen,
    callee: Val,
    args: Vals,
    keywords: NamedVals,
    place: Place,
    budget: u64,
) -> Result<Now, Halt>
    requires room { going.old.state.used < budget }
    requires table { IsTable functions.now }
    ensures moves { GoesOn functions.now frozen.now result going.old going.new budget (λ k. entered (runs_at k.program k.frozen going.old.state.here.room) k.program k.frozen callee args keywords place) }
    ensures left { OnOk result (going.new.state.used < budget) }
    ensures grows { going.old.state.used ≤ going.new.state.used }
{
    match callee {
        Val::Func(id) => func_entered(going, functions, frozen, id, args, keywords, place, budget),
        _ => raise(going, functions, frozen, place, budget),
    }
}

/// Enters a function.
#[tactic(auto, using(crate::proofs::EnterLaws::enter_goes))]
pub fn enter(
    going: &mut Going,
    functions: &Functions,
    frozen: &Frozen,
    callee: Val,
    args: Vals,
    keywords: NamedVals,
    place: Place,
    budget: u64,
) -> Result<Now, Halt>
    requires room { going.old.state.used < budget }
    requires table { IsTable functions.now }
    ensures moves { GoesOn functions.now frozen.now result going.old going.new budget (λ k. k.call callee args keywords place) }
    ensures left { OnOk result (going.new.state.used < budget) }
    ensures grows { going.old.state.used ≤ going.new.state.used }
{
    val_entered(
        going, functions, frozen, callee, args, keywords, place, budget,
    )
}
