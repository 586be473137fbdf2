// Values that are there at once: nothing is made for them, and they cost no unit.
ghost use Rattle.std.specs.Prelude.{◌≡◌};
ghost use Rattle.std.specs.Option.{option_and_then};
ghost use Rattle.py_heap.specs.Heaps.{seen, row_at};
ghost use Rattle.py_builtins.specs.Indices.{item_of};
ghost use Rattle.py_builtins.specs.At_once.{kept_value, integers_give, integer_of, integers_operated, item_at};

use amh_bits::Int;
use py_heap::{Frozen, Heap, index_place};
use py_values::{Number, NumberStop, PyOp, Val, calculated};

fn kept_value(v: Result<Val, NumberStop>) -> Option<Val>
    ensures { result ≡ kept_value v }
{
    match v {
        Ok(v) => Some(v),
        Err(_) => None,
    }
}

fn integers_give(op: PyOp, m: Int, n: Int) -> Option<Val>
    ensures { result ≡ integers_give op m n }
{
    match op {
        PyOp::Eq => Some(Val::Bool(m == n)),
        PyOp::Ne => {
            let same = m == n;
            Some(Val::Bool(!same))
        }
        _ => kept_value(calculated(op, m, n)),
    }
}

// The integer that a value is.
fn integer_of(v: Val) -> Option<Int>
    ensures { result ≡ integer_of v }
{
    match v {
        Val::Int(n) => Some(n.int()),
        _ => None,
    }
}

/// What an operator gives for two integers, where it gives a value.
pub fn integers_operated(op: PyOp, a: Val, b: Val) -> Option<Val>
    ensures { result ≡ integers_operated op a b }
{
    match (integer_of(a), integer_of(b)) {
        (Some(m), Some(n)) => integers_give(op, m, n),
        _ => None,
    }
}

// The item of a row at an index.
fn item_of(row: &[Val], n: Int) -> Option<Val>
    ensures { result ≡ item_of row.now n }
{
    match index_place(row.len(), n) {
        Some(i) => Some(row[i]),
        None => None,
    }
}

/// The item of a list or a tuple at an integer, where there is one.
pub fn item_at(heap: &Heap, frozen: &Frozen, a: Val, i: Val) -> Option<Val>
    ensures { result ≡ item_at (seen frozen.now heap.now) a i }
{
    match (a, i) {
        (Val::List(o), Val::Int(n)) => item_of(heap.row(frozen, o), n.int()),
        (Val::Tuple(o), Val::Int(n)) => item_of(heap.row(frozen, o), n.int()),
        _ => None,
    }
}
