// The operators.
ghost use Rattle.std.specs.Prelude.{◌≡◌, ◌<◌};
ghost use Rattle.py_heap.specs.Heaps.{seen};
ghost use Rattle.py_values.specs.Runs.{Charged, Answers, paired};
ghost use Rattle.py_operators.specs.Operators.{shown, shown_or, negated, is_none, one_thing, operated_free, ask_of, operated, operate};

use crate::sums::{added, multiplied, plain};
use crate::truths::truth;
use amh_host::Budget;
use py_heap::{Fresh, Frozen, Heap};
use py_values::{PyOp, Val, ValueStop, on_number, on_numbers};

/// Whether an operator asks for equality or for a member, and whether it shows the answer or its opposite.
#[derive(Clone, Copy, Drop)]
pub(crate) enum Ask {
    Equality(bool),
    Membership(bool),
    Neither,
}

fn ask_of(op: PyOp) -> Ask
    ensures { result ≡ ask_of op }
{
    match op {
        PyOp::Eq => Ask::Equality(true),
        PyOp::Ne => Ask::Equality(false),
        PyOp::In => Ask::Membership(true),
        PyOp::NotIn => Ask::Membership(false),
        _ => Ask::Neither,
    }
}

// A boolean, or its opposite.
fn shown(sign: bool, b: bool) -> Fresh
    ensures { result ≡ shown sign b }
{
    if sign {
        Fresh::Val(Val::Bool(b))
    } else {
        Fresh::Val(Val::Bool(!b))
    }
}

fn shown_or(sign: bool, r: Result<bool, ValueStop>) -> Result<Fresh, ValueStop>
    ensures { result ≡ shown_or sign r }
{
    match r {
        Ok(b) => Ok(shown(sign, b)),
        Err(stop) => Err(stop),
    }
}

fn negated(b: Option<bool>) -> Result<Fresh, ValueStop>
    ensures { Answers result (negated b) }
{
    match b {
        Some(b) => Ok(shown(false, b)),
        None => Err(ValueStop::Raised),
    }
}

fn is_none(v: Val) -> bool
    ensures { result ≡ is_none v }
{
    match v {
        Val::None => true,
        _ => false,
    }
}

// `is`, of two of which it is known whether they are None.
fn one_thing(sign: bool, a: bool, b: bool) -> Result<Fresh, ValueStop>
    ensures { Answers result (one_thing sign a b) }
{
    if a {
        Ok(shown(sign, b))
    } else if b {
        Ok(shown(sign, false))
    } else {
        Err(ValueStop::Raised)
    }
}

// An operator that costs nothing by itself.
fn operated_free(heap: &Heap, frozen: &Frozen, op: PyOp, a: Val, b: Val) -> Result<Fresh, ValueStop>
    ensures { Answers result (operated_free (seen frozen.now heap.now) op a b) }
{
    match op {
        PyOp::Add => added(heap, frozen, a, b),
        PyOp::Mul => multiplied(heap, frozen, a, b),
        PyOp::Neg => plain(on_number(PyOp::Neg, a)),
        PyOp::Pos => plain(on_number(PyOp::Pos, a)),
        PyOp::Invert => plain(on_number(PyOp::Invert, a)),
        PyOp::Not => negated(truth(heap, frozen, a)),
        PyOp::Is => one_thing(true, is_none(a), is_none(b)),
        PyOp::IsNot => one_thing(false, is_none(a), is_none(b)),
        _ => plain(on_numbers(op, a, b)),
    }
}

// What an operator gives, before it stands in the heap.
fn operated(
    heap: &Heap,
    frozen: &Frozen,
    op: PyOp,
    a: Val,
    b: Val,
    left: &mut Budget,
) -> Result<Fresh, ValueStop>
    requires { 0 < left.old.left }
    ensures { Charged result left.old.left left.new.left (operated (seen frozen.now heap.now) op a b) }
{
    match ask_of(op) {
        Ask::Equality(sign) => shown_or(sign, heap.equal(frozen, a, b, left)),
        Ask::Membership(sign) => shown_or(sign, heap.member(frozen, a, b, left)),
        Ask::Neither => operated_free(heap, frozen, op, a, b),
    }
}

/// An operator. For one operand the second is not looked at.
pub fn operate(
    heap: &mut Heap,
    frozen: &Frozen,
    op: PyOp,
    a: Val,
    b: Val,
    left: &mut Budget,
) -> Result<Val, ValueStop>
    requires { 0 < left.old.left }
    ensures { Charged (paired result heap.new) left.old.left left.new.left (operate frozen.now heap.old op a b) }
{
    match operated(heap, frozen, op, a, b, left) {
        Ok(fresh) => heap.place(frozen, fresh),
        Err(stop) => Err(stop),
    }
}
