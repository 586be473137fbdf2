// Statements: how their frames go on.
ghost use Rattle.std.specs.Prelude.{◌≡◌, ◌<◌, ◌≤◌, true, false, OnOk};
ghost use Rattle.py_frames.specs.Stmt_begun.{takes_any, value_come, changes};
ghost use Rattle.py_frames.specs.Stmt_frames.{stmt_goes, stmt_value_goes};
ghost use Rattle.py_frames.specs.Frames.{GoesOn};

use crate::annotate::{annotated_came, annotating_left, annotation_came};
use crate::augment::{index_came, new_came, old_came, right_came};
use crate::imports::import_came;
use crate::stmt_assign::{assign_came, assigning_left};
use crate::stmt_if::branch_came;
use crate::stmt_inside::{with_bound, with_entered};
use crate::stmt_while::{while_came, while_left};
use crate::stmt_with::{with_came, with_left};
use py_frames::frame::{Now, StmtFrame};
use py_frames::functions::Functions;
use py_frames::going::Going;
use py_frames::request::Cause;
use py_frames::state::{Got, Halt};
use py_heap::Frozen;
use py_turns::binds::names_came;
use py_turns::block::{block_came, value_come};
use py_turns::stmt_plain::{assert_came, comes, stops};
use py_values::Val;
use py_walks::for_turns::{for_bound_left, for_left, for_row_came, for_source_came};

// Whether a frame of a statement waits for more than a value.
fn takes_any(frame: &StmtFrame) -> bool
    ensures { result ≡ takes_any frame.now }
{
    match frame {
        StmtFrame::Block { block: _, next: _ } => true,
        StmtFrame::AllImported { place: _ } => true,
        StmtFrame::Assigning {
            stmt: _,
            next: _,
            val: _,
        } => true,
        StmtFrame::Annotating { stmt: _ } => true,
        StmtFrame::WhileBody { stmt: _, turns: _ } => true,
        StmtFrame::ForBound { stmt: _, walk: _ } => true,
        StmtFrame::ForBody { stmt: _, walk: _ } => true,
        StmtFrame::WithBound { stmt: _, thing: _ } => true,
        StmtFrame::WithBody { thing: _, place: _ } => true,
        _ => false,
    }
}

// Whether a frame waits for a part of an augmented assignment.
fn changes(frame: &StmtFrame) -> bool
    ensures { result ≡ changes frame.now }
{
    match frame {
        StmtFrame::AugmentIndex { stmt: _, over: _ } => true,
        StmtFrame::AugmentOld {
            stmt: _,
            changed: _,
        } => true,
        StmtFrame::AugmentRight {
            stmt: _,
            changed: _,
            old: _,
        } => true,
        StmtFrame::AugmentNew {
            stmt: _,
            changed: _,
        } => true,
        _ => false,
    }
}

/// A frame of a statement goes on with what it waits for.
#[tactic(auto, using(py_frames::proofs::StmtGoes::goes_rules))]
pub fn stmt_goes(
    going: &mut Going,
    functions: &Functions,
    frozen: &Frozen,
    frame: StmtFrame,
    got: Got,
    budget: u64,
) -> Result<Now, Halt>
    requires { going.old.state.used < budget }
    ensures moves { GoesOn functions.now frozen.now result going.old going.new budget (λ k. stmt_goes k frame got) }
    ensures left { OnOk result (going.new.state.used < budget) }
    ensures grows { going.old.state.used ≤ going.new.state.used }
{
    if takes_any(&frame) {
        return stmt_left(going, functions, frozen, frame, got, budget);
    }
    let Some(v) = value_come(&got) else {
        return comes(going, functions, frozen, got, budget);
    };
    if changes(&frame) {
        return change_goes(going, functions, frozen, frame, v, budget);
    }
    stmt_value(going, functions, frozen, frame, v, budget)
}

// A frame that waits for more than a value.
#[tactic(auto, using(py_frames::proofs::BeginLaws::no_memory))]
fn stmt_left(
    going: &mut Going,
    functions: &Functions,
    frozen: &Frozen,
    frame: StmtFrame,
    got: Got,
    budget: u64,
) -> Result<Now, Halt>
    requires lives { going.old.state.used < budget }
    requires kind { takes_any frame ≡ true }
    ensures moves { GoesOn functions.now frozen.now result going.old going.new budget (λ k. stmt_goes k frame got) }
    ensures left { OnOk result (going.new.state.used < budget) }
    ensures grows { going.old.state.used ≤ going.new.state.used }
{
    match frame {
        StmtFrame::Block { block, next } => {
            block_came(going, functions, frozen, block, next, got, budget)
        }
        StmtFrame::Assigning { stmt, next, val } => {
            assigning_left(going, functions, frozen, &stmt, next, val, got, budget)
        }
        StmtFrame::WithBody { thing, place } => {
            with_left(going, functions, frozen, thing, place, got, budget)
        }
        StmtFrame::WhileBody { stmt, turns } => {
            while_left(going, functions, frozen, &stmt, turns, got, budget)
        }
        StmtFrame::AllImported { place } => {
            names_came(going, functions, frozen, place, got, budget)
        }
        StmtFrame::Annotating { stmt } => {
            annotating_left(going, functions, frozen, &stmt, got, budget)
        }
        StmtFrame::WithBound { stmt, thing } => {
            with_bound(going, functions, frozen, &stmt, thing, got, budget)
        }
        StmtFrame::ForBound { stmt, walk } => {
            for_bound_left(going, functions, frozen, stmt, walk, got, budget)
        }
        StmtFrame::ForBody { stmt, walk } => {
            for_left(going, functions, frozen, &stmt, walk, got, budget)
        }
        _ => Err(Halt::NoMemory),
    }
}

// A frame that waits for a value.
#[tactic(auto, using(py_frames::proofs::BeginLaws::no_memory))]
fn stmt_value(
    going: &mut Going,
    functions: &Functions,
    frozen: &Frozen,
    frame: StmtFrame,
    v: Val,
    budget: u64,
) -> Result<Now, Halt>
    requires lives { going.old.state.used < budget }
    requires kind { (takes_any frame ≡ false) × (changes frame ≡ false) }
    ensures moves { GoesOn functions.now frozen.now result going.old going.new budget (λ k. stmt_value_goes k frame v) }
    ensures left { OnOk result (going.new.state.used < budget) }
    ensures grows { going.old.state.used ≤ going.new.state.used }
{
    match frame {
        StmtFrame::LetGo => comes(going, functions, frozen, Got::Next, budget),
        StmtFrame::Return => comes(going, functions, frozen, Got::Returned(v), budget),
        StmtFrame::Asserted { stmt } => assert_came(going, functions, frozen, &stmt, v, budget),
        StmtFrame::Message { place } => {
            stops(going, functions, frozen, Cause::Assert, place, budget)
        }
        StmtFrame::Assigned { stmt } => assign_came(going, functions, frozen, &stmt, v, budget),
        StmtFrame::With { stmt } => with_came(going, functions, frozen, &stmt, v, budget),
        StmtFrame::Branch { stmt, at } => {
            branch_came(going, functions, frozen, &stmt, at, v, budget)
        }
        StmtFrame::WhileTest { stmt, turns } => {
            while_came(going, functions, frozen, &stmt, turns, v, budget)
        }
        StmtFrame::Left { got } => comes(going, functions, frozen, got, budget),
        StmtFrame::Imported { stmt, at } => {
            import_came(going, functions, frozen, &stmt, at, v, budget)
        }
        StmtFrame::Annotated { stmt } => {
            annotated_came(going, functions, frozen, &stmt, v, budget)
        }
        StmtFrame::Noted { stmt } => annotation_came(going, functions, frozen, &stmt, v, budget),
        StmtFrame::Entered { stmt, thing } => {
            with_entered(going, functions, frozen, &stmt, thing, v, budget)
        }
        StmtFrame::ForSource { stmt } => {
            for_source_came(going, functions, frozen, &stmt, v, budget)
        }
        StmtFrame::ForRow { stmt } => for_row_came(going, functions, frozen, &stmt, v, budget),
        _ => Err(Halt::NoMemory),
    }
}

// A frame of an augmented assignment.
#[tactic(auto, using(py_frames::proofs::BeginLaws::no_memory))]
fn change_goes(
    going: &mut Going,
    functions: &Functions,
    frozen: &Frozen,
    frame: StmtFrame,
    v: Val,
    budget: u64,
) -> Result<Now, Halt>
    requires lives { going.old.state.used < budget }
    requires kind { changes frame ≡ true }
    ensures moves { GoesOn functions.now frozen.now result going.old going.new budget (λ k. stmt_value_goes k frame v) }
    ensures left { OnOk result (going.new.state.used < budget) }
    ensures grows { going.old.state.used ≤ going.new.state.used }
{
    match frame {
        StmtFrame::AugmentIndex { stmt, over } => {
            index_came(going, functions, frozen, stmt, &over, &v, budget)
        }
        StmtFrame::AugmentOld { stmt, changed } => {
            old_came(going, functions, frozen, stmt, changed, v, budget)
        }
        StmtFrame::AugmentRight { stmt, changed, old } => {
            right_came(going, functions, frozen, stmt, changed, old, v, budget)
        }
        StmtFrame::AugmentNew { stmt, changed } => {
            new_came(going, functions, frozen, &stmt, changed, v, budget)
        }
        _ => Err(Halt::NoMemory),
    }
}
