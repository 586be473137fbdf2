// Statements: how one begins.
ghost use Rattle.std.specs.Prelude.{◌≡◌, ◌<◌, ◌≤◌, OnOk};
ghost use Rattle.py_tree.specs.Programs.{step_of};
ghost use Rattle.py_frames.specs.Statements.{run};
ghost use Rattle.py_frames.specs.Stmt_begun.{step_cost, step_place, run_after};
ghost use Rattle.py_frames.specs.Frames.{GoesOn};

use amh_host::Place;
use py_definitions::class_arguments::begun_class;
use py_definitions::defs::begun_def;
use py_frames::frame::{Frame, Now, StmtFrame};
use py_frames::functions::Functions;
use py_frames::going::{Going, MOST, spend, wait_for};
use py_frames::request::Cause;
use py_frames::state::{Got, Halt};
use py_heap::Frozen;
use py_statements::annotate::begun_annotate;
use py_statements::augment_begin::augment_begun;
use py_statements::imports::{begun_import, begun_import_all};
use py_statements::stmt_assign::begun_assign;
use py_statements::stmt_if::branch_turn;
use py_statements::stmt_while::while_turn;
use py_statements::stmt_with::begun_with;
use py_tree::{Stmt, StmtKind};
use py_turns::stmt_plain::{begun_assert, begun_return, comes, stops};
use py_walks::loops::for_begun;

// How many units a statement spends where it begins.
fn step_cost(s: &Stmt) -> u64
    ensures { result ≡ step_cost (step_of s.now) }
{
    match &*s.kind {
        StmtKind::Augment(_, _, _) => 2,
        _ => 1,
    }
}

// The place of a statement.
fn step_place(s: &Stmt) -> Place
    ensures { result ≡ step_place (step_of s.now) }
{
    match &*s.kind {
        StmtKind::Pass => s.place,
        _ => s.place,
    }
}

/// Begins a statement: its units, and then what it is.
#[tactic(auto, using(py_frames::proofs::StmtLaws::run_rules))]
pub fn run(
    going: &mut Going,
    functions: &Functions,
    frozen: &Frozen,
    s: &Stmt,
    budget: u64,
) -> Result<Now, Halt>
    requires { going.old.state.used < budget }
    ensures moves { GoesOn functions.now frozen.now result going.old going.new budget (λ k. run k (step_of s.now)) }
    ensures left { OnOk result (going.new.state.used < budget) }
    ensures grows { going.old.state.used ≤ going.new.state.used }
{
    match spend(going, step_cost(s), step_place(s), budget) {
        Ok(()) => run_after(going, functions, frozen, s, budget),
        Err(halt) => Err(halt),
    }
}

// What a statement does, its units spent.
#[tactic(auto, using(py_frames::proofs::BeginLaws::no_memory))]
fn run_after(
    going: &mut Going,
    functions: &Functions,
    frozen: &Frozen,
    s: &Stmt,
    budget: u64,
) -> Result<Now, Halt>
    requires { going.old.state.used < budget }
    ensures moves { GoesOn functions.now frozen.now result going.old going.new budget (λ k. run_after k (step_of s.now)) }
    ensures left { OnOk result (going.new.state.used < budget) }
    ensures grows { going.old.state.used ≤ going.new.state.used }
{
    match &*s.kind {
        StmtKind::Pass => comes(going, functions, frozen, Got::Next, budget),
        StmtKind::Break => comes(going, functions, frozen, Got::Broke, budget),
        StmtKind::Continue => comes(going, functions, frozen, Got::Continued, budget),
        StmtKind::Return(value) => begun_return(going, functions, frozen, value, budget),
        StmtKind::Assert(test, message) => {
            begun_assert(going, functions, frozen, s, test, message, budget)
        },
        StmtKind::Raise(_) => stops(going, functions, frozen, Cause::Raised, s.place, budget),
        StmtKind::Evaluate(e) => {
            wait_for(
                going,
                functions,
                frozen,
                e,
                Frame::Stmt(StmtFrame::LetGo),
                budget,
            )
        }
        StmtKind::Assign(targets, e) => {
            begun_assign(going, functions, frozen, s, targets, e, budget)
        }
        StmtKind::If(tests, other) => {
            branch_turn(going, functions, frozen, s, tests, other, 0, budget)
        }
        StmtKind::While(test, body) => {
            while_turn(going, functions, frozen, s, test, body, MOST, budget)
        }
        StmtKind::With {
            context,
            target,
            body,
        } => begun_with(going, functions, frozen, s, context, target, body, budget),
        StmtKind::ImportAll(path) => begun_import_all(going, functions, frozen, s, path, budget),
        StmtKind::Import(path, names) => {
            begun_import(going, functions, frozen, s, path, names, budget)
        }
        StmtKind::Annotate {
            target,
            annotation,
            value,
        } => {
            begun_annotate(
                going, functions, frozen, s, target, annotation, value, budget,
            )
        }
        StmtKind::Augment(target, sign, e) => {
            augment_begun(going, functions, frozen, s, target, *sign, e, budget)
        }
        StmtKind::For {
            targets,
            source,
            body,
        } => for_begun(going, functions, frozen, s, targets, source, body, budget),
        StmtKind::Def(f) => begun_def(going, functions, frozen, s, f, budget),
        StmtKind::Class {
            name,
            arguments,
            body,
        } => begun_class(going, functions, frozen, s, name, arguments, body, budget),
    }
}
