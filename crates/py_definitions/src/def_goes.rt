// Definitions: how their frames go on.
ghost use Rattle.std.specs.Prelude.{◌≡◌, ◌<◌, ◌≤◌, ◌++◌, ◌∷◌, [], IfOk, OnOk};
ghost use Rattle.std.specs.Prelude.{true};
ghost use Rattle.py_tree.specs.Programs.{step_of};
ghost use Rattle.py_frames.specs.Doing.{on_next};
ghost use Rattle.py_frames.specs.Whole.{body_ended};
ghost use Rattle.py_frames.specs.Def_frames.{def_goes, def_value_goes, class_given};
ghost use Rattle.py_definitions.specs.Def_begun.{GoesUnder, takes_more};
ghost use Rattle.py_frames.specs.Stmt_begun.{value_come};
ghost use Rattle.py_frames.specs.Frames.{GoesOn, def_room};

use crate::class_came::{class_argument_came, class_spread_came};
use crate::class_ends::{class_left, class_told};
use crate::class_words::{end_request, names_bound};
use crate::classes::class_given;
use crate::defs::{default_came, parameter_came, result_came};
use amh_host::{NoMemory, Place};
use py_frames::frame::{DefFrame, Now};
use py_frames::functions::Functions;
use py_frames::going::{Going, ask};
use py_frames::request::NamedVals;
use py_frames::state::{Got, Halt};
use py_heap::Frozen;
use py_tree::Stmt;
use py_turns::block::{leaves, value_come};
use py_turns::stmt_plain::comes;
use py_values::{ScopeId, Val, Vals};

// Whether a frame of a definition waits for more than a value.
fn takes_more(frame: &DefFrame) -> bool
    ensures { result ≡ takes_more frame.now }
{
    match frame {
        DefFrame::ClassBody {
            stmt: _,
            base: _,
            keywords: _,
            outer: _,
        } => true,
        DefFrame::FileBody => true,
        _ => false,
    }
}

// These values, and one more.
fn with_one(vals: Vals, v: Val) -> Result<Vals, NoMemory>
    ensures { IfOk result (λ all. all ≡ vals ++ v ∷ []) }
{
    let mut vals = vals;
    match vals.push(v) {
        Ok(()) => Ok(vals),
        Err(_) => Err(NoMemory),
    }
}

/// A frame of a definition goes on with what it waits for.
#[tactic(auto, using(crate::proofs::DefGoes::goes_rules))]
pub fn def_goes(
    going: &mut Going,
    functions: &Functions,
    frozen: &Frozen,
    frame: DefFrame,
    got: Got,
    budget: u64,
) -> Result<Now, Halt>
    requires { going.old.state.used < budget }
    ensures moves { GoesUnder (def_room going.old.state.here.room frame) functions.now frozen.now result going.old going.new budget (λ k. def_goes k frame got) }
    ensures left { OnOk result (going.new.state.used < budget) }
    ensures grows { going.old.state.used ≤ going.new.state.used }
{
    if takes_more(&frame) {
        return def_left(going, functions, frozen, frame, got, budget);
    }
    match value_come(&got) {
        Some(v) => def_value(going, functions, frozen, frame, v, budget),
        None => comes(going, functions, frozen, got, budget),
    }
}

// A frame that waits for what a body leaves.
#[tactic(auto, using(crate::proofs::DefGoes::left_rules))]
fn def_left(
    going: &mut Going,
    functions: &Functions,
    frozen: &Frozen,
    frame: DefFrame,
    got: Got,
    budget: u64,
) -> Result<Now, Halt>
    requires lives { going.old.state.used < budget }
    requires kind { takes_more frame ≡ true }
    ensures moves { GoesUnder (def_room going.old.state.here.room frame) functions.now frozen.now result going.old going.new budget (λ k. def_goes k frame got) }
    ensures left { OnOk result (going.new.state.used < budget) }
    ensures grows { going.old.state.used ≤ going.new.state.used }
{
    match frame {
        DefFrame::ClassBody {
            stmt,
            base,
            keywords,
            outer,
        } => class_left(
            going,
            functions,
            frozen,
            &stmt,
            base,
            keywords,
            outer.into_inner(),
            got,
            budget,
        ),
        DefFrame::FileBody => file_left(going, functions, frozen, got, budget),
        _ => Err(Halt::NoMemory),
    }
}

// What the file's body left.
#[tactic(auto, using(crate::proofs::DefGoes::file_rules))]
fn file_left(
    going: &mut Going,
    functions: &Functions,
    frozen: &Frozen,
    got: Got,
    budget: u64,
) -> Result<Now, Halt>
    ensures moves { GoesOn functions.now frozen.now result going.old going.new budget (λ k. on_next got (body_ended k)) }
    ensures state { going.new.state ≡ going.old.state }
{
    if leaves(&got) {
        return comes(going, functions, frozen, got, budget);
    }
    body_ended(going, functions, frozen, budget)
}

// The store is told of the end of the file's body.
#[tactic(auto, using(crate::proofs::DefGoes::end_rules))]
fn body_ended(
    going: &mut Going,
    functions: &Functions,
    frozen: &Frozen,
    budget: u64,
) -> Result<Now, Halt>
    ensures moves { GoesOn functions.now frozen.now result going.old going.new budget (λ k. body_ended k) }
    ensures state { going.new.state ≡ going.old.state }
{
    let Ok(names) = names_bound(going.alloc, &going.state.heap, frozen, ScopeId(0)) else {
        return Err(Halt::NoMemory);
    };
    let Ok(request) = end_request(going.alloc, &names, Place { line: 1, col: 1 }) else {
        return Err(Halt::NoMemory);
    };
    ask(going, functions, frozen, request, budget)
}

// A frame that waits for a value.
#[tactic(auto, using(crate::proofs::DefGoes::value_rules))]
fn def_value(
    going: &mut Going,
    functions: &Functions,
    frozen: &Frozen,
    frame: DefFrame,
    v: Val,
    budget: u64,
) -> Result<Now, Halt>
    requires { going.old.state.used < budget }
    ensures moves { GoesOn functions.now frozen.now result going.old going.new budget (λ k. def_value_goes k frame v) }
    ensures left { OnOk result (going.new.state.used < budget) }
    ensures grows { going.old.state.used ≤ going.new.state.used }
{
    match frame {
        DefFrame::Default { stmt, at, vals } => match with_one(vals, v) {
            Ok(vals) => default_came(going, functions, frozen, &stmt, at, vals, budget),
            Err(_) => Err(Halt::NoMemory),
        },
        DefFrame::Annotation { stmt, at, defaults } => {
            parameter_came(going, functions, frozen, &stmt, at, defaults, budget)
        }
        DefFrame::ResultType { stmt, defaults } => {
            result_came(going, functions, frozen, &stmt, defaults, budget)
        }
        DefFrame::ClassArgument {
            stmt,
            at,
            vals,
            keywords,
        } => class_argument_came(
            going, functions, frozen, &stmt, at, vals, keywords, v, budget,
        ),
        DefFrame::ClassSpread {
            stmt,
            at,
            vals,
            keywords,
        } => class_spread_came(
            going, functions, frozen, &stmt, at, vals, keywords, v, budget,
        ),
        DefFrame::ClassList { stmt } => class_listed(going, functions, frozen, &stmt, v, budget),
        DefFrame::ClassTold { stmt } => class_told(going, functions, frozen, &stmt, v, budget),
        DefFrame::ClassBody { .. } => comes(going, functions, frozen, Got::Next, budget),
        DefFrame::FileBody => comes(going, functions, frozen, Got::Next, budget),
    }
}

// The list that is the one argument of a class has come.
#[tactic(auto, using(crate::proofs::DefGoes::listed_rules))]
fn class_listed(
    going: &mut Going,
    functions: &Functions,
    frozen: &Frozen,
    s: &Stmt,
    v: Val,
    budget: u64,
) -> Result<Now, Halt>
    ensures moves { GoesOn functions.now frozen.now result going.old going.new budget (λ k. class_given k (step_of s.now) (v ∷ []) []) }
    ensures used { going.new.state.used ≡ going.old.state.used }
{
    match with_one(Vals::new(going.alloc), v) {
        Ok(vals) => {
            class_given(
                going,
                functions,
                frozen,
                s,
                vals,
                NamedVals::new(going.alloc),
                budget,
            )
        }
        Err(_) => Err(Halt::NoMemory),
    }
}
