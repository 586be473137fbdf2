// Operators and builtins on values: of a thing the store is asked, and else the heap gives the value, at its cost.
ghost use Rattle.std.specs.Prelude.{◌≡◌, ◌<◌, ◌≤◌, ◌-◌, ◌∷◌, [], IfOk, OnOk};
ghost use Rattle.std.specs.List.{list_any};
ghost use Rattle.py_frames.specs.declared.request.Act.TheVariants as act;
ghost use Rattle.py_frames.specs.Asking.{request};
ghost use Rattle.py_frames.specs.Doing.{charging, give};
ghost use Rattle.py_frames.specs.Values.{is_thing, asks_operator, sign_of, operated, turned, built};
ghost use Rattle.py_operators.specs.Operators.{operate};
ghost use Rattle.py_frames.specs.Frames.{GoesOn};

use amh_host::{Budget, Names, NoMemory, Place};
use py_frames::frame::Now;
use py_frames::functions::Functions;
use py_frames::going::{Going, ask, told};
use py_frames::request::{Act, Request};
use py_frames::state::Halt;
use py_heap::Frozen;
use py_operators::operate;
use py_values::{Builtin, PyOp, Val, Vals};
use std::alloc::Global;

/// Whether a value is a thing of the store.
pub fn is_thing(v: &Val) -> bool
    ensures { result ≡ is_thing v.now }
{
    match v {
        Val::Hw(_) => true,
        _ => false,
    }
}

/// Whether there is a thing of the store among the values.
pub fn has_thing(vals: &[Val]) -> bool
    ensures { result ≡ list_any is_thing vals.now }
{
    for v in vals {
        if is_thing(v) {
            return true;
        }
    }
    false
}

/// Whether the store is asked for an operator.
pub fn asks_operator(op: PyOp, a: &Val, b: &Val) -> bool
    ensures { result ≡ asks_operator op a.now b.now }
{
    match op {
        PyOp::Is => false,
        PyOp::IsNot => false,
        PyOp::In => is_thing(b),
        PyOp::NotIn => is_thing(b),
        PyOp::Neg => is_thing(a),
        PyOp::Pos => is_thing(a),
        PyOp::Invert => is_thing(a),
        PyOp::Not => false,
        _ => is_thing(a) || is_thing(b),
    }
}

/// An operator by its sign.
pub fn sign_of(op: PyOp) -> &'static str
    ensures { result.now ≡ sign_of op }
{
    match op {
        PyOp::Add => "+",
        PyOp::Sub => "-",
        PyOp::Mul => "*",
        PyOp::FloorDiv => "//",
        PyOp::Rem => "%",
        PyOp::Pow => "**",
        PyOp::Shl => "<<",
        PyOp::Shr => ">>",
        PyOp::And => "&",
        PyOp::Or => "|",
        PyOp::Xor => "^",
        PyOp::Neg => "-",
        PyOp::Pos => "+",
        PyOp::Invert => "~",
        PyOp::Not => "not",
        PyOp::Eq => "==",
        PyOp::Ne => "!=",
        PyOp::Lt => "<",
        PyOp::Le => "<=",
        PyOp::Gt => ">",
        PyOp::Ge => ">=",
        PyOp::In => "in",
        PyOp::NotIn => "not in",
        PyOp::Is => "is",
        PyOp::IsNot => "is not",
    }
}

/// How many units were used, where so many of a budget are left.
pub fn used_after(used: u64, budget: u64, left: u64) -> u64
    ensures value { used ≤ budget - left → result ≡ budget - left }
    ensures grows { used ≤ result }
{
    let spent = budget.saturating_sub(left);
    if used <= spent { spent } else { used }
}

/// The request for a sign between these operands.
pub fn operator_request(
    alloc: Global,
    sign: &str,
    vals: Vals,
    place: Place,
) -> Result<Request, NoMemory>
    ensures { IfOk result (λ r. r ≡ request act.Operator vals (sign.now ∷ []) place) }
{
    let mut names = Names::new(alloc);
    match names.push(sign) {
        Ok(()) => Ok(Request {
            act: Act::Operator,
            vals,
            names,
            place,
        }),
        Err(_) => Err(NoMemory),
    }
}

/// One value as a list.
pub fn one_val(alloc: Global, a: Val) -> Result<Vals, NoMemory>
    ensures { IfOk result (λ vals. vals ≡ a ∷ []) }
{
    let mut vals = Vals::new(alloc);
    match vals.push(a) {
        Ok(()) => Ok(vals),
        Err(_) => Err(NoMemory),
    }
}

/// Two values as a list.
pub fn two_vals(alloc: Global, a: Val, b: Val) -> Result<Vals, NoMemory>
    ensures { IfOk result (λ vals. vals ≡ a ∷ b ∷ []) }
{
    let Ok(mut vals) = one_val(alloc, a) else {
        return Err(NoMemory);
    };
    match vals.push(b) {
        Ok(()) => Ok(vals),
        Err(_) => Err(NoMemory),
    }
}

// An operator on values of which none is asked about.
#[tactic(auto, using(crate::proofs::ExprCharged::operator_told, crate::proofs::ExprCharged::charged_left, py_frames::proofs::BeginLaws::no_memory))]
fn operator_made(
    going: &mut Going,
    functions: &Functions,
    frozen: &Frozen,
    op: PyOp,
    a: Val,
    b: Val,
    place: Place,
    budget: u64,
) -> Result<Now, Halt>
    requires { going.old.state.used < budget }
    ensures moves { GoesOn functions.now frozen.now result going.old going.new budget (λ k. charging (λ s. operate k.frozen s.heap op a b) place give) }
    ensures left { OnOk result (going.new.state.used < budget) }
    ensures grows { going.old.state.used ≤ going.new.state.used }
{
    let mut left = Budget {
        left: budget - going.state.used,
    };
    let given = operate(&mut going.state.heap, frozen, op, a, b, &mut left);
    going.state.used = used_after(going.state.used, budget, left.left);
    told(given, place)
}

/// An operator of two operands.
#[tactic(auto, using(crate::proofs::ExprCharged::operated_asks, crate::proofs::ExprCharged::operated_made, py_frames::proofs::BeginLaws::no_memory))]
pub fn operated(
    going: &mut Going,
    functions: &Functions,
    frozen: &Frozen,
    op: PyOp,
    a: &Val,
    b: &Val,
    place: Place,
    budget: u64,
) -> Result<Now, Halt>
    requires { going.old.state.used < budget }
    ensures moves { GoesOn functions.now frozen.now result going.old going.new budget (λ k. operated k op a.now b.now place) }
    ensures left { OnOk result (going.new.state.used < budget) }
    ensures grows { going.old.state.used ≤ going.new.state.used }
{
    if !asks_operator(op, a, b) {
        return operator_made(going, functions, frozen, op, *a, *b, place, budget);
    }
    let Ok(vals) = two_vals(going.alloc, *a, *b) else {
        return Err(Halt::NoMemory);
    };
    let Ok(request) = operator_request(going.alloc, sign_of(op), vals, place) else {
        return Err(Halt::NoMemory);
    };
    ask(going, functions, frozen, request, budget)
}

/// An operator of one operand.
#[tactic(auto, using(crate::proofs::ExprCharged::turned_asks, crate::proofs::ExprCharged::turned_made, py_frames::proofs::BeginLaws::no_memory))]
pub fn turned(
    going: &mut Going,
    functions: &Functions,
    frozen: &Frozen,
    op: PyOp,
    a: &Val,
    place: Place,
    budget: u64,
) -> Result<Now, Halt>
    requires { going.old.state.used < budget }
    ensures moves { GoesOn functions.now frozen.now result going.old going.new budget (λ k. turned k op a.now place) }
    ensures left { OnOk result (going.new.state.used < budget) }
    ensures grows { going.old.state.used ≤ going.new.state.used }
{
    if !asks_operator(op, a, &Val::None) {
        return operator_made(going, functions, frozen, op, *a, Val::None, place, budget);
    }
    let Ok(vals) = one_val(going.alloc, *a) else {
        return Err(Halt::NoMemory);
    };
    let Ok(request) = operator_request(going.alloc, sign_of(op), vals, place) else {
        return Err(Halt::NoMemory);
    };
    ask(going, functions, frozen, request, budget)
}

/// A builtin over values of which none is gone over as a thing.
#[tactic(auto, using(crate::proofs::ExprCharged::built_told, crate::proofs::ExprCharged::charged_left, py_frames::proofs::BeginLaws::no_memory))]
pub fn built(
    going: &mut Going,
    functions: &Functions,
    frozen: &Frozen,
    builtin: Builtin,
    vals: Vals,
    place: Place,
    budget: u64,
) -> Result<Now, Halt>
    requires { going.old.state.used < budget }
    ensures moves { GoesOn functions.now frozen.now result going.old going.new budget (λ k. built k builtin vals place) }
    ensures left { OnOk result (going.new.state.used < budget) }
    ensures grows { going.old.state.used ≤ going.new.state.used }
{
    let mut left = Budget {
        left: budget - going.state.used,
    };
    let given = py_builtins::builtin(&mut going.state.heap, frozen, builtin, &vals, &mut left);
    going.state.used = used_after(going.state.used, budget, left.left);
    told(given, place)
}
