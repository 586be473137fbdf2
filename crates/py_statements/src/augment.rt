// Augmented assignments: what is changed is read, the right side comes, and what the operator gives is stored.
ghost use Rattle.std.specs.Prelude.{◌≡◌, ◌<◌, ◌≤◌, ◌∷◌, [], ◌||◌, IfOk, OnOk};
ghost use Rattle.py_tree.specs.Seen.{tree};
ghost use Rattle.py_tree.specs.Programs.{step_of};
ghost use Rattle.py_frames.specs.declared.request.Act.TheVariants as act;
ghost use Rattle.py_frames.specs.Asking.{ask, request};
ghost use Rattle.py_frames.specs.Doing.{came};
ghost use Rattle.py_frames.specs.Parts.{operator_of};
ghost use Rattle.py_frames.specs.Values.{is_thing};
ghost use Rattle.py_frames.specs.Statements.{augmented, augmented_sign, in_place, list_changed};
ghost use Rattle.py_frames.specs.Stmt_frames.{Change, change_of, with_change, index_came, old_came, right_came, new_stored, name_stored};
ghost use Rattle.py_statements.specs.Augmented.{change_seen, FoundChange, instead, is_a_name};
ghost use Rattle.py_frames.specs.Frames.{GoesOn};

use amh_host::{Budget, NoMemory, Place};
use py_builtins::builtin;
use py_frames::frame::{Changed, Frame, Now, StmtFrame};
use py_frames::functions::Functions;
use py_frames::going::{Going, ask, told, wait_for};
use py_frames::leaf::{PartAt, operator_of, place_of};
use py_frames::state::{Got, Halt};
use py_heap::Frozen;
use py_tree::{Expr, ExprKind, Name, Operator, Stmt, StmtKind};
use py_turns::attribute_store::{indexed, store_attribute, store_index};
use py_turns::binds::name_bound;
use py_turns::operators::{is_thing, operated, operator_request, two_vals, used_after};
use py_values::{Builtin, PyOp, Val, ValueStop};

/// The parts of an augmented assignment.
#[derive(Drop)]
pub struct Changing {
    pub target: Expr,
    pub at: Place,
    pub sign: PyOp,
    pub right: Expr,
}

fn parts_of(s: &Stmt, target: &Expr, sign: Operator, right: &Expr) -> Result<Changing, NoMemory>
    ensures { IfOk result (λ c. ◌≡◌ {A = Change} (change_seen c) (record { target = tree target.now; at = s.now.place; sign = operator_of sign; right = tree right.now })) }
{
    match (target.share(), right.share()) {
        (Ok(target), Ok(right)) => Ok(Changing {
            target,
            at: s.place,
            sign: operator_of(sign),
            right,
        }),
        _ => Err(NoMemory),
    }
}

/// The parts of a statement, where it is an augmented assignment.
pub fn change_of(s: &Stmt) -> PartAt<Changing>
    ensures { FoundChange result (change_of (step_of s.now)) }
{
    match &*s.kind {
        StmtKind::Augment(target, sign, right) => match parts_of(s, target, *sign, right) {
            Ok(parts) => PartAt::Part(parts),
            Err(_) => PartAt::NoMemory,
        },
        _ => PartAt::Past,
    }
}

// Whether a target is a name alone.
fn is_a_name(target: &Expr) -> bool
    ensures { result ≡ is_a_name (tree target.now) }
{
    match &*target.kind {
        ExprKind::Name(_) => true,
        _ => false,
    }
}

// The augmented sign of an operator.
fn augmented_sign(op: PyOp) -> &'static str
    ensures { result.now ≡ augmented_sign op }
{
    match op {
        PyOp::Add => "+=",
        PyOp::Sub => "-=",
        PyOp::Mul => "*=",
        PyOp::FloorDiv => "//=",
        PyOp::Rem => "%=",
        PyOp::Pow => "**=",
        PyOp::Shl => "<<=",
        PyOp::Shr => ">>=",
        PyOp::And => "&=",
        PyOp::Or => "|=",
        PyOp::Xor => "^=",
        PyOp::Neg => "-=",
        PyOp::Pos => "+=",
        PyOp::Invert => "~=",
        PyOp::Not => "not=",
        PyOp::Eq => "===",
        PyOp::Ne => "!==",
        PyOp::Lt => "<=",
        PyOp::Le => "<==",
        PyOp::Gt => ">=",
        PyOp::Ge => ">==",
        PyOp::In => "in=",
        PyOp::NotIn => "not in=",
        PyOp::Is => "is=",
        PyOp::IsNot => "is not=",
    }
}

// Whether one of two values is a thing of the store.
fn some_thing(x: &Val, y: &Val) -> bool
    ensures { result ≡ (is_thing x.now || is_thing y.now) }
{
    is_thing(x) || is_thing(y)
}

// What changes a list in place.
fn in_place(op: PyOp, x: &Val) -> Option<Builtin>
    ensures { result ≡ in_place op x.now }
{
    match (op, x) {
        (PyOp::Add, Val::List(_)) => Some(Builtin::Extend),
        (PyOp::Mul, Val::List(_)) => Some(Builtin::Repeat),
        _ => None,
    }
}

// This value in place of the one that came.
fn instead(v: Val, given: Result<Val, ValueStop>) -> Result<Val, ValueStop>
    ensures { result ≡ instead v given }
{
    match given {
        Ok(_) => Ok(v),
        Err(stop) => Err(stop),
    }
}

// A list that another value changes in place.
#[tactic(auto, using(crate::proofs::ChangeLaws::changed_told, py_turns::proofs::ExprCharged::charged_left, py_frames::proofs::BeginLaws::no_memory))]
fn list_changed(
    going: &mut Going,
    functions: &Functions,
    frozen: &Frozen,
    b: Builtin,
    x: &Val,
    y: &Val,
    place: Place,
    budget: u64,
) -> Result<Now, Halt>
    requires { going.old.state.used < budget }
    ensures moves { GoesOn functions.now frozen.now result going.old going.new budget (λ k. list_changed k b x.now y.now place) }
    ensures left { OnOk result (going.new.state.used < budget) }
    ensures grows { going.old.state.used ≤ going.new.state.used }
{
    let Ok(vals) = two_vals(going.alloc, *x, *y) else {
        return Err(Halt::NoMemory);
    };
    let mut left = Budget {
        left: budget - going.state.used,
    };
    let given = builtin(&mut going.state.heap, frozen, b, &vals, &mut left);
    going.state.used = used_after(going.state.used, budget, left.left);
    told(instead(*x, given), place)
}

// The store is asked for an augmented sign.
#[tactic(auto, using(py_frames::proofs::BeginLaws::no_memory))]
fn sign_asked(
    going: &mut Going,
    functions: &Functions,
    frozen: &Frozen,
    op: PyOp,
    x: &Val,
    y: &Val,
    place: Place,
    budget: u64,
) -> Result<Now, Halt>
    ensures moves { GoesOn functions.now frozen.now result going.old going.new budget (λ k. ask k (request act.Operator (x.now ∷ y.now ∷ []) (augmented_sign op ∷ []) place)) }
    ensures used { going.new.state.used ≡ going.old.state.used }
{
    let Ok(vals) = two_vals(going.alloc, *x, *y) else {
        return Err(Halt::NoMemory);
    };
    let Ok(request) = operator_request(going.alloc, augmented_sign(op), vals, place) else {
        return Err(Halt::NoMemory);
    };
    ask(going, functions, frozen, request, budget)
}

// An operator of an augmented assignment.
#[tactic(auto, using(crate::proofs::ChangeLaws::augmented_asks, crate::proofs::ChangeLaws::augmented_changes, crate::proofs::ChangeLaws::augmented_made))]
fn augmented(
    going: &mut Going,
    functions: &Functions,
    frozen: &Frozen,
    op: PyOp,
    x: &Val,
    y: &Val,
    place: Place,
    budget: u64,
) -> Result<Now, Halt>
    requires { going.old.state.used < budget }
    ensures moves { GoesOn functions.now frozen.now result going.old going.new budget (λ k. augmented k op x.now y.now place) }
    ensures left { OnOk result (going.new.state.used < budget) }
    ensures grows { going.old.state.used ≤ going.new.state.used }
{
    if some_thing(x, y) {
        return sign_asked(going, functions, frozen, op, x, y, place, budget);
    }
    match in_place(op, x) {
        Some(b) => list_changed(going, functions, frozen, b, x, y, place, budget),
        None => operated(going, functions, frozen, op, x, y, place, budget),
    }
}

// The same of a target that is a name.
#[tactic(auto, using(crate::proofs::ChangeLaws::stored_beside, py_frames::proofs::BeginLaws::no_memory))]
fn name_stored(
    going: &mut Going,
    functions: &Functions,
    frozen: &Frozen,
    target: &Expr,
    z: Val,
    budget: u64,
) -> Result<Now, Halt>
    ensures moves { GoesOn functions.now frozen.now result going.old going.new budget (λ k. name_stored k (tree target.now) z) }
    ensures used { going.new.state.used ≡ going.old.state.used }
{
    if !is_a_name(target) {
        return Ok(Now::Came(Got::Next));
    }
    match &*target.kind {
        ExprKind::Name(name) => {
            name_bound(
                going,
                functions,
                frozen,
                name.as_str(),
                z,
                target.place,
                budget,
            )
        }
        _ => Err(Halt::NoMemory),
    }
}

// What the operator gave is stored.
#[tactic(auto, using(crate::proofs::ChangeLaws::stored_rules))]
fn new_stored(
    going: &mut Going,
    functions: &Functions,
    frozen: &Frozen,
    change: &Changing,
    changed: Changed,
    z: Val,
    budget: u64,
) -> Result<Now, Halt>
    requires { going.old.state.used < budget }
    ensures moves { GoesOn functions.now frozen.now result going.old going.new budget (λ k. new_stored k (change_seen change.now) changed z) }
    ensures left { OnOk result (going.new.state.used < budget) }
    ensures grows { going.old.state.used ≤ going.new.state.used }
{
    let place = place_of(&change.target);
    match changed {
        Changed::Name => name_stored(going, functions, frozen, &change.target, z, budget),
        Changed::Attribute(over, name) => {
            store_attribute(
                going,
                functions,
                frozen,
                over,
                name.as_str(),
                z,
                place,
                budget,
            )
        }
        Changed::Index(over, index) => {
            store_index(going, functions, frozen, over, index, z, place, budget)
        }
    }
}

/// What the operator of an augmented assignment gave has come.
#[tactic(auto, using(crate::proofs::ChangeLaws::change_rules, py_frames::proofs::BeginLaws::no_memory))]
pub fn new_came(
    going: &mut Going,
    functions: &Functions,
    frozen: &Frozen,
    s: &Stmt,
    changed: Changed,
    z: Val,
    budget: u64,
) -> Result<Now, Halt>
    requires { going.old.state.used < budget }
    ensures moves { GoesOn functions.now frozen.now result going.old going.new budget (λ k. with_change (change_of (step_of s.now)) (λ c. new_stored k c changed z)) }
    ensures left { OnOk result (going.new.state.used < budget) }
    ensures grows { going.old.state.used ≤ going.new.state.used }
{
    match change_of(s) {
        PartAt::NoMemory => Err(Halt::NoMemory),
        PartAt::Past => Ok(Now::Came(Got::Next)),
        PartAt::Part(change) => {
            new_stored(going, functions, frozen, &change, changed, z, budget)
        }
    }
}

/// The right side of an augmented assignment has come.
#[tactic(auto, using(crate::proofs::ChangeLaws::right_rules, py_frames::proofs::BeginLaws::no_memory))]
pub fn right_came(
    going: &mut Going,
    functions: &Functions,
    frozen: &Frozen,
    s: Stmt,
    changed: Changed,
    old: Val,
    right: Val,
    budget: u64,
) -> Result<Now, Halt>
    requires { going.old.state.used < budget }
    ensures moves { GoesOn functions.now frozen.now result going.old going.new budget (λ k. with_change (change_of (step_of s)) (λ c. right_came k c changed old right)) }
    ensures left { OnOk result (going.new.state.used < budget) }
    ensures grows { going.old.state.used ≤ going.new.state.used }
{
    match change_of(&s) {
        PartAt::NoMemory => Err(Halt::NoMemory),
        PartAt::Past => Ok(Now::Came(Got::Next)),
        PartAt::Part(change) => {
            let frame = Frame::Stmt(StmtFrame::AugmentNew { stmt: s, changed });
            let Ok(()) = going.frames.push(frame) else {
                return Err(Halt::NoMemory);
            };
            augmented(
                going,
                functions,
                frozen,
                change.sign,
                &old,
                &right,
                change.at,
                budget,
            )
        }
    }
}

/// What an augmented assignment changes has come, as it was.
#[tactic(auto, using(crate::proofs::ChangeLaws::old_rules, py_frames::proofs::BeginLaws::no_memory))]
pub fn old_came(
    going: &mut Going,
    functions: &Functions,
    frozen: &Frozen,
    s: Stmt,
    changed: Changed,
    old: Val,
    budget: u64,
) -> Result<Now, Halt>
    ensures moves { GoesOn functions.now frozen.now result going.old going.new budget (λ k. with_change (change_of (step_of s)) (λ c. old_came k c changed old)) }
    ensures used { going.new.state.used ≡ going.old.state.used }
{
    match change_of(&s) {
        PartAt::NoMemory => Err(Halt::NoMemory),
        PartAt::Past => Ok(Now::Came(Got::Next)),
        PartAt::Part(change) => {
            let frame = Frame::Stmt(StmtFrame::AugmentRight {
                stmt: s,
                changed,
                old,
            });
            wait_for(going, functions, frozen, &change.right, frame, budget)
        }
    }
}

/// The index of what an augmented assignment changes has come.
#[tactic(auto, using(crate::proofs::ChangeLaws::index_rules, py_frames::proofs::BeginLaws::no_memory))]
pub fn index_came(
    going: &mut Going,
    functions: &Functions,
    frozen: &Frozen,
    s: Stmt,
    over: &Val,
    index: &Val,
    budget: u64,
) -> Result<Now, Halt>
    requires { going.old.state.used < budget }
    ensures moves { GoesOn functions.now frozen.now result going.old going.new budget (λ k. with_change (change_of (step_of s)) (λ c. index_came k c over.now index.now)) }
    ensures left { OnOk result (going.new.state.used < budget) }
    ensures grows { going.old.state.used ≤ going.new.state.used }
{
    match change_of(&s) {
        PartAt::NoMemory => Err(Halt::NoMemory),
        PartAt::Past => Ok(Now::Came(Got::Next)),
        PartAt::Part(change) => {
            let place = place_of(&change.target);
            let frame = Frame::Stmt(StmtFrame::AugmentOld {
                stmt: s,
                changed: Changed::Index(*over, *index),
            });
            let Ok(()) = going.frames.push(frame) else {
                return Err(Halt::NoMemory);
            };
            indexed(going, functions, frozen, *over, *index, place, budget)
        }
    }
}
