// Annotated assignments: the value, and then the annotation where it is evaluated.
ghost use Rattle.std.specs.Prelude.{◌≡◌, ◌<◌, ◌≤◌, [], option_map, OnOk};
ghost use Rattle.std.specs.Option.{option_copied};
ghost use Rattle.py_tree.specs.Seen.{tree};
ghost use Rattle.py_tree.specs.Programs.{step_of};
ghost use Rattle.py_tree.specs.Tree.{perhaps, present, absent};
ghost use Rattle.py_tree.specs.Steps.{Annotate};
ghost use Rattle.py_heap.specs.Heaps.{seen};
ghost use Rattle.py_heap.specs.Names.{scope_at};
ghost use Rattle.py_frames.specs.declared.state.Got.TheVariants.{Next};
ghost use Rattle.py_frames.specs.Doing.{on_next};
ghost use Rattle.py_frames.specs.Statements.{annotated, evaluates_annotations, is_open, note, note_of};
ghost use Rattle.py_frames.specs.Stmt_begun.{run_after, note_named};
ghost use Rattle.py_frames.specs.Stmt_frames.{annotate_stored, annotates, notes};
ghost use Rattle.py_frames.specs.Frames.{GoesOn};

use crate::stmt_assign::wait_as;
use amh_host::Place;
use py_frames::frame::{Frame, Now, StmtFrame};
use py_frames::functions::Functions;
use py_frames::going::{Going, wait_for};
use py_frames::own::is_simple;
use py_frames::state::{Got, Halt};
use py_frames::stmt_purpose::target_purpose;
use py_heap::Frozen;
use py_tree::{Expr, ExprKind, Name, Stmt, StmtKind};
use py_turns::block::leaves;
use py_turns::expr_values::named_val;
use py_turns::stmt_plain::comes;
use py_values::{Scope, Val};
use py_walks::target_turns::assign;
use py_walks::targets::reach;

// Whether annotations are evaluated in a scope.
fn is_open(found: Option<&Scope>) -> bool
    ensures { result ≡ is_open (option_copied found.entry) }
{
    match found {
        Some(scope) => scope.is_class || scope.enclosing.is_none(),
        None => false,
    }
}

// Whether annotations are evaluated where the evaluation stands.
fn evaluates_annotations(going: &Going, frozen: &Frozen) -> bool
    ensures { result ≡ evaluates_annotations (seen frozen.now going.now.state.heap) going.now.state.here.scope }
{
    is_open(going.state.heap.scope_at(frozen, going.state.here.scope))
}

/// An annotated assignment: its value where it has one, else its target, and then its annotation.
#[tactic(auto, using(py_frames::proofs::BeginLaws::no_memory))]
pub fn begun_annotate(
    going: &mut Going,
    functions: &Functions,
    frozen: &Frozen,
    s: &Stmt,
    target: &Expr,
    annotation: &Expr,
    value: &Option<Expr>,
    budget: u64,
) -> Result<Now, Halt>
    requires room { going.old.state.used < budget }
    requires kind { step_of s.now ≡ Annotate s.now.place (tree target.now) (tree annotation.now) (perhaps (option_map tree value.now)) }
    ensures moves { GoesOn functions.now frozen.now result going.old going.new budget (λ k. run_after k (step_of s.now)) }
    ensures left { OnOk result (going.new.state.used < budget) }
    ensures grows { going.old.state.used ≤ going.new.state.used }
{
    match value {
        Some(e) => annotated_value(going, functions, frozen, s, target, annotation, e, budget),
        None => annotated_alone(going, functions, frozen, s, target, annotation, budget),
    }
}

// No value: the target is reached before the annotation.
#[tactic(auto, using(py_frames::proofs::BeginLaws::no_memory))]
fn annotated_alone(
    going: &mut Going,
    functions: &Functions,
    frozen: &Frozen,
    s: &Stmt,
    target: &Expr,
    _annotation: &Expr,
    budget: u64,
) -> Result<Now, Halt>
    requires room { going.old.state.used < budget }
    requires kind { step_of s.now ≡ Annotate s.now.place (tree target.now) (tree _annotation.now) absent }
    ensures moves { GoesOn functions.now frozen.now result going.old going.new budget (λ k. run_after k (step_of s.now)) }
    ensures left { OnOk result (going.new.state.used < budget) }
    ensures grows { going.old.state.used ≤ going.new.state.used }
{
    let Ok(outer) = s.share() else {
        return Err(Halt::NoMemory);
    };
    match going
        .frames
        .push(Frame::Stmt(StmtFrame::Annotating { stmt: outer }))
    {
        Ok(()) => reach(going, functions, frozen, target, budget),
        Err(_) => Err(Halt::NoMemory),
    }
}

// The value, which goes to the target before the annotation.
#[tactic(auto, using(crate::proofs::AnnotateLaws::value_rules))]
fn annotated_value(
    going: &mut Going,
    functions: &Functions,
    frozen: &Frozen,
    s: &Stmt,
    target: &Expr,
    _annotation: &Expr,
    e: &Expr,
    budget: u64,
) -> Result<Now, Halt>
    requires { step_of s.now ≡ Annotate s.now.place (tree target.now) (tree _annotation.now) (present (tree e.now)) }
    ensures moves { GoesOn functions.now frozen.now result going.old going.new budget (λ k. run_after k (step_of s.now)) }
    ensures state { going.new.state ≡ going.old.state }
{
    let Ok(purpose) = target_purpose(target) else {
        return Err(Halt::NoMemory);
    };
    let Ok(outer) = s.share() else {
        return Err(Halt::NoMemory);
    };
    let Ok(stmt) = s.share() else {
        return Err(Halt::NoMemory);
    };
    match going
        .frames
        .push(Frame::Stmt(StmtFrame::Annotating { stmt: outer }))
    {
        Ok(()) => wait_as(
            going,
            functions,
            frozen,
            e,
            purpose,
            Frame::Stmt(StmtFrame::Annotated { stmt }),
            budget,
        ),
        Err(_) => Err(Halt::NoMemory),
    }
}

// The annotation, where it is evaluated.
#[tactic(auto, using(crate::proofs::AnnotateLaws::annotation_rules))]
fn begin_annotation(
    going: &mut Going,
    functions: &Functions,
    frozen: &Frozen,
    s: &Stmt,
    _target: &Expr,
    annotation: &Expr,
    _value: &Option<Expr>,
    budget: u64,
) -> Result<Now, Halt>
    requires { step_of s.now ≡ Annotate s.now.place (tree _target.now) (tree annotation.now) (perhaps (option_map tree _value.now)) }
    ensures moves { GoesOn functions.now frozen.now result going.old going.new budget (λ k. annotated k s.now.place (tree _target.now) (tree annotation.now)) }
    ensures state { going.new.state ≡ going.old.state }
{
    let evaluated = evaluates_annotations(going, frozen);
    let Ok(stmt) = s.share() else {
        return Err(Halt::NoMemory);
    };
    if evaluated {
        return wait_for(
            going,
            functions,
            frozen,
            annotation,
            Frame::Stmt(StmtFrame::Noted { stmt }),
            budget,
        );
    }
    comes(going, functions, frozen, Got::Next, budget)
}

/// The value has come: it goes to the target.
#[tactic(auto)]
pub fn annotated_came(
    going: &mut Going,
    functions: &Functions,
    frozen: &Frozen,
    s: &Stmt,
    v: Val,
    budget: u64,
) -> Result<Now, Halt>
    requires { going.old.state.used < budget }
    ensures moves { GoesOn functions.now frozen.now result going.old going.new budget (λ k. annotate_stored k (step_of s.now) v) }
    ensures left { OnOk result (going.new.state.used < budget) }
    ensures grows { going.old.state.used ≤ going.new.state.used }
{
    match &*s.kind {
        StmtKind::Annotate {
            target,
            annotation: _,
            value: _,
        } => assign(going, functions, frozen, target, v, budget),
        _ => comes(going, functions, frozen, Got::Next, budget),
    }
}

/// The value went to the target: the annotation.
#[tactic(auto, using(crate::proofs::AnnotateLaws::stored_rules))]
pub fn annotating_left(
    going: &mut Going,
    functions: &Functions,
    frozen: &Frozen,
    s: &Stmt,
    got: Got,
    budget: u64,
) -> Result<Now, Halt>
    ensures moves { GoesOn functions.now frozen.now result going.old going.new budget (λ k. on_next got (annotates k (step_of s.now))) }
    ensures state { going.new.state ≡ going.old.state }
{
    if leaves(&got) {
        return comes(going, functions, frozen, got, budget);
    }
    annotating_on(going, functions, frozen, s, budget)
}

#[tactic(auto)]
fn annotating_on(
    going: &mut Going,
    functions: &Functions,
    frozen: &Frozen,
    s: &Stmt,
    budget: u64,
) -> Result<Now, Halt>
    ensures moves { GoesOn functions.now frozen.now result going.old going.new budget (λ k. annotates k (step_of s.now)) }
    ensures state { going.new.state ≡ going.old.state }
{
    match &*s.kind {
        StmtKind::Annotate {
            target,
            annotation,
            value,
        } => {
            begin_annotation(
                going, functions, frozen, s, target, annotation, value, budget,
            )
        }
        _ => comes(going, functions, frozen, Got::Next, budget),
    }
}

/// The annotation has come: that of a name without brackets is kept.
#[tactic(auto)]
pub fn annotation_came(
    going: &mut Going,
    functions: &Functions,
    frozen: &Frozen,
    s: &Stmt,
    v: Val,
    budget: u64,
) -> Result<Now, Halt>
    ensures moves { GoesOn functions.now frozen.now result going.old going.new budget (λ k. notes (step_of s.now) v) }
    ensures used { going.new.state.used ≡ going.old.state.used }
{
    match &*s.kind {
        StmtKind::Annotate {
            target,
            annotation: _,
            value: _,
        } => note(going, functions, frozen, s.place, target, v, budget),
        _ => comes(going, functions, frozen, Got::Next, budget),
    }
}

#[tactic(auto, using(crate::proofs::AnnotateLaws::simple_rules))]
fn note(
    going: &mut Going,
    functions: &Functions,
    frozen: &Frozen,
    place: Place,
    target: &Expr,
    v: Val,
    budget: u64,
) -> Result<Now, Halt>
    ensures moves { GoesOn functions.now frozen.now result going.old going.new budget (λ k. note place (tree target.now) v) }
    ensures used { going.new.state.used ≡ going.old.state.used }
{
    let simple = is_simple(place, target);
    if simple {
        return note_of(going, functions, frozen, target, v, budget);
    }
    comes(going, functions, frozen, Got::Next, budget)
}

#[tactic(auto)]
fn note_of(
    going: &mut Going,
    functions: &Functions,
    frozen: &Frozen,
    target: &Expr,
    v: Val,
    budget: u64,
) -> Result<Now, Halt>
    ensures moves { GoesOn functions.now frozen.now result going.old going.new budget (λ k. note_of (tree target.now) v) }
    ensures used { going.new.state.used ≡ going.old.state.used }
{
    match &*target.kind {
        ExprKind::Name(name) => note_named(going, functions, frozen, name, v, budget),
        _ => comes(going, functions, frozen, Got::Next, budget),
    }
}

// Keeps the annotation of a name.
#[tactic(auto, using(crate::proofs::AnnotateLaws::note_rules))]
fn note_named(
    going: &mut Going,
    functions: &Functions,
    frozen: &Frozen,
    name: &Name,
    v: Val,
    budget: u64,
) -> Result<Now, Halt>
    ensures moves { GoesOn functions.now frozen.now result going.old going.new budget (λ k. note_named name.now v) }
    ensures used { going.new.state.used ≡ going.old.state.used }
{
    let Ok(noted) = named_val(going.alloc, name.as_str(), v) else {
        return Err(Halt::NoMemory);
    };
    match going.state.here.notes.push(noted) {
        Ok(()) => comes(going, functions, frozen, Got::Next, budget),
        Err(_) => Err(Halt::NoMemory),
    }
}
