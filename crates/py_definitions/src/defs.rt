// `def`: the defaults, then the annotations, and then the function is bound.
ghost use Rattle.std.specs.Prelude.{◌≡◌, suc};
ghost use Rattle.py_tree.specs.Programs.{step_of, body_of};
ghost use Rattle.py_tree.specs.Steps.{Def};
ghost use Rattle.py_frames.specs.Stmt_begun.{run_after};
ghost use Rattle.py_frames.specs.Def_frames.{function_bound, annotated_from, defaults_from, default_came, annotation_came, result_came};
ghost use Rattle.py_definitions.specs.Def_begun.{result_then};
ghost use Rattle.py_frames.specs.Frames.{GoesOn};

use crate::def_parts::{
    function_name, function_params, function_place, function_result, next_annotation, next_default,
};
use py_frames::frame::{DefFrame, Frame, Now};
use py_frames::functions::Functions;
use py_frames::going::{Going, wait_for};
use py_frames::leaf::following;
use py_frames::scopes::seen_from;
use py_frames::state::{Got, Halt};
use py_heap::Frozen;
use py_tree::{Function, Stmt, StmtKind};
use py_turns::binds::name_bound;
use py_turns::stmt_plain::comes;
use py_values::{Code, Func, Vals};
use std::rc::Rc;

/// A function: its defaults first.
#[tactic(auto, using(crate::proofs::DefLaws::begin_rules))]
pub fn begun_def(
    going: &mut Going,
    functions: &Functions,
    frozen: &Frozen,
    s: &Stmt,
    f: &Rc<Function>,
    budget: u64,
) -> Result<Now, Halt>
    requires { step_of s.now ≡ Def s.now.place (body_of f.now.value) }
    ensures moves { GoesOn functions.now frozen.now result going.old going.new budget (λ k. run_after k (step_of s.now)) }
    ensures used { going.new.state.used ≡ going.old.state.used }
{
    let vals = Vals::new(going.alloc);
    defaults_turn(going, functions, frozen, s, f, 0, vals, budget)
}

// The defaults of the parameters from this number on, behind those before them.
#[tactic(auto, using(crate::proofs::DefLaws::default_rules))]
fn defaults_turn(
    going: &mut Going,
    functions: &Functions,
    frozen: &Frozen,
    s: &Stmt,
    f: &Function,
    n: u64,
    vals: Vals,
    budget: u64,
) -> Result<Now, Halt>
    requires { step_of s.now ≡ Def s.now.place (body_of f.now) }
    ensures moves { GoesOn functions.now frozen.now result going.old going.new budget (λ k. defaults_from k s.now.place n (body_of f.now) vals) }
    ensures used { going.new.state.used ≡ going.old.state.used }
{
    match next_default(function_params(f), n) {
        None => annotations_turn(going, functions, frozen, s, f, 0, vals, budget),
        Some((at, e)) => {
            let Ok(stmt) = s.share() else {
                return Err(Halt::NoMemory);
            };
            let frame = Frame::Def(DefFrame::Default { stmt, at, vals });
            wait_for(going, functions, frozen, e, frame, budget)
        }
    }
}

// The annotations of the parameters from this number on.
#[tactic(auto, using(crate::proofs::DefLaws::annotation_rules))]
fn annotations_turn(
    going: &mut Going,
    functions: &Functions,
    frozen: &Frozen,
    s: &Stmt,
    f: &Function,
    n: u64,
    defaults: Vals,
    budget: u64,
) -> Result<Now, Halt>
    requires { step_of s.now ≡ Def s.now.place (body_of f.now) }
    ensures moves { GoesOn functions.now frozen.now result going.old going.new budget (λ k. annotated_from k s.now.place n (body_of f.now) defaults) }
    ensures used { going.new.state.used ≡ going.old.state.used }
{
    match next_annotation(function_params(f), n) {
        None => result_turn(going, functions, frozen, s, f, defaults, budget),
        Some((at, e)) => {
            let Ok(stmt) = s.share() else {
                return Err(Halt::NoMemory);
            };
            let frame = Frame::Def(DefFrame::Annotation { stmt, at, defaults });
            wait_for(going, functions, frozen, e, frame, budget)
        }
    }
}

// The annotation of what the function gives.
#[tactic(auto, using(crate::proofs::DefLaws::result_rules))]
fn result_turn(
    going: &mut Going,
    functions: &Functions,
    frozen: &Frozen,
    s: &Stmt,
    f: &Function,
    defaults: Vals,
    budget: u64,
) -> Result<Now, Halt>
    requires { step_of s.now ≡ Def s.now.place (body_of f.now) }
    ensures moves { GoesOn functions.now frozen.now result going.old going.new budget (λ k. result_then k s.now.place (body_of f.now) defaults) }
    ensures used { going.new.state.used ≡ going.old.state.used }
{
    match function_result(f) {
        None => function_bound(going, functions, frozen, s, f, defaults, budget),
        Some(e) => {
            let Ok(stmt) = s.share() else {
                return Err(Halt::NoMemory);
            };
            let frame = Frame::Def(DefFrame::ResultType { stmt, defaults });
            wait_for(going, functions, frozen, e, frame, budget)
        }
    }
}

// The function is made, and bound.
#[tactic(auto, using(crate::proofs::DefLaws::bound_rules))]
fn function_bound(
    going: &mut Going,
    functions: &Functions,
    frozen: &Frozen,
    s: &Stmt,
    f: &Function,
    defaults: Vals,
    budget: u64,
) -> Result<Now, Halt>
    ensures moves { GoesOn functions.now frozen.now result going.old going.new budget (λ k. function_bound k s.now.place (body_of f.now) defaults) }
    ensures used { going.new.state.used ≡ going.old.state.used }
{
    let scope = seen_from(going, frozen);
    let made = Func {
        code: Code::Def(function_place(f)),
        this: None,
        home: None,
        defaults,
        scope,
    };
    match going.state.heap.function(frozen, made) {
        Ok(v) => name_bound(
            going,
            functions,
            frozen,
            function_name(f),
            v,
            s.place,
            budget,
        ),
        Err(_) => Err(Halt::NoMemory),
    }
}

/// The default of the parameter of this number has come.
#[tactic(auto, using(py_frames::proofs::BeginLaws::no_memory))]
pub fn default_came(
    going: &mut Going,
    functions: &Functions,
    frozen: &Frozen,
    s: &Stmt,
    at: u64,
    vals: Vals,
    budget: u64,
) -> Result<Now, Halt>
    ensures moves { GoesOn functions.now frozen.now result going.old going.new budget (λ k. default_came k (suc at) (step_of s.now) vals) }
    ensures used { going.new.state.used ≡ going.old.state.used }
{
    let Ok(next) = following(at) else {
        return Err(Halt::NoMemory);
    };
    match &*s.kind {
        StmtKind::Def(f) => defaults_turn(going, functions, frozen, s, f, next, vals, budget),
        _ => comes(going, functions, frozen, Got::Next, budget),
    }
}

/// The annotation of the parameter of this number has come.
#[tactic(auto, using(py_frames::proofs::BeginLaws::no_memory))]
pub fn parameter_came(
    going: &mut Going,
    functions: &Functions,
    frozen: &Frozen,
    s: &Stmt,
    at: u64,
    defaults: Vals,
    budget: u64,
) -> Result<Now, Halt>
    ensures moves { GoesOn functions.now frozen.now result going.old going.new budget (λ k. annotation_came k (suc at) (step_of s.now) defaults) }
    ensures used { going.new.state.used ≡ going.old.state.used }
{
    let Ok(next) = following(at) else {
        return Err(Halt::NoMemory);
    };
    match &*s.kind {
        StmtKind::Def(f) => {
            annotations_turn(going, functions, frozen, s, f, next, defaults, budget)
        }
        _ => comes(going, functions, frozen, Got::Next, budget),
    }
}

/// The annotation of what a function gives has come.
#[tactic(auto)]
pub fn result_came(
    going: &mut Going,
    functions: &Functions,
    frozen: &Frozen,
    s: &Stmt,
    defaults: Vals,
    budget: u64,
) -> Result<Now, Halt>
    ensures moves { GoesOn functions.now frozen.now result going.old going.new budget (λ k. result_came k (step_of s.now) defaults) }
    ensures used { going.new.state.used ≡ going.old.state.used }
{
    match &*s.kind {
        StmtKind::Def(f) => function_bound(going, functions, frozen, s, f, defaults, budget),
        _ => comes(going, functions, frozen, Got::Next, budget),
    }
}
