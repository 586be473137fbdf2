// `+` and `*`.
ghost use Rattle.std.specs.Prelude.{◌≡◌, ◌++◌, Ok};
ghost use Rattle.py_heap.specs.Heaps.{seen, text_at, row_at};
ghost use Rattle.py_values.specs.Runs.{Answers};
ghost use Rattle.py_operators.specs.Sums.{plain, text_added, list_added, tuple_added, added, copies, repeated, multiplied_by, multiplied};

use amh_bits::Int;
use lists::Text;
use py_heap::{Fresh, Frozen, Heap};
use py_values::{NumberStop, PyOp, Val, Vals, ValueStop, number_of, on_numbers};
use std::alloc::Global;

/// What an operator on numbers gives, which is not new.
pub(crate) fn plain(v: Result<Val, NumberStop>) -> Result<Fresh, ValueStop>
    ensures { Answers result (plain v) }
{
    match v {
        Ok(v) => Ok(Fresh::Val(v)),
        Err(NumberStop::Raised) => Err(ValueStop::Raised),
        Err(NumberStop::Width) => Err(ValueStop::Width),
    }
}

/// One text and then another.
pub(crate) fn joined_text(alloc: Global, x: &str, y: &str) -> Result<Text, ValueStop>
    ensures { Answers result (Ok (x.now ++ y.now)) }
{
    let mut text = Text::new(alloc);
    let Ok(()) = text.push(x) else {
        return Err(ValueStop::NoMemory);
    };
    let Ok(()) = text.push(y) else {
        return Err(ValueStop::NoMemory);
    };
    Ok(text)
}

/// The values of one row and then of another.
pub(crate) fn joined_row(alloc: Global, x: &[Val], y: &[Val]) -> Result<Vals, ValueStop>
    ensures { Answers result (Ok (x.now ++ y.now)) }
{
    let mut row = Vals::new(alloc);
    let Ok(()) = row.extend(x) else {
        return Err(ValueStop::NoMemory);
    };
    let Ok(()) = row.extend(y) else {
        return Err(ValueStop::NoMemory);
    };
    Ok(row)
}

// A row so many times.
#[tactic(auto, using(crate::proofs::SumLaws::copies_rules))]
fn copies(alloc: Global, n: usize, row: &[Val]) -> Result<Vals, ValueStop>
    ensures { Answers result (Ok (copies n row.now)) }
{
    let mut all = Vals::new(alloc);
    for turn in 0..n {
        let _ = turn;
        let Ok(()) = all.extend(row) else {
            return Err(ValueStop::NoMemory);
        };
    }
    Ok(all)
}

/// A row so many times, where that is not too long.
pub fn repeated(alloc: Global, row: &[Val], n: Option<Int>) -> Result<Vals, ValueStop>
    ensures { Answers result (repeated row.now n) }
{
    let Some(n) = n else {
        return Err(ValueStop::Raised);
    };
    if row.len() == 0 {
        return Ok(Vals::new(alloc));
    }
    if n.negative {
        return Ok(Vals::new(alloc));
    }
    if n.size > 65_536 {
        return Err(ValueStop::Limit);
    }
    let n = n.size as usize;
    match n.checked_mul(row.len()) {
        Some(total) if total <= 65_536 => copies(alloc, n, row),
        _ => Err(ValueStop::Limit),
    }
}

fn text_added(heap: &Heap, frozen: &Frozen, text: &str, b: Val) -> Result<Fresh, ValueStop>
    ensures { Answers result (text_added (seen frozen.now heap.now) text.now b) }
{
    match b {
        Val::Str(y) => match joined_text(heap.alloc(), text, heap.text(frozen, y)) {
            Ok(text) => Ok(Fresh::Text(text)),
            Err(_) => Err(ValueStop::NoMemory),
        },
        _ => Err(ValueStop::Raised),
    }
}

fn list_added(heap: &Heap, frozen: &Frozen, row: &[Val], b: Val) -> Result<Fresh, ValueStop>
    ensures { Answers result (list_added (seen frozen.now heap.now) row.now b) }
{
    match b {
        Val::List(y) => match joined_row(heap.alloc(), row, heap.row(frozen, y)) {
            Ok(row) => Ok(Fresh::List(row)),
            Err(_) => Err(ValueStop::NoMemory),
        },
        _ => Err(ValueStop::Raised),
    }
}

fn tuple_added(heap: &Heap, frozen: &Frozen, row: &[Val], b: Val) -> Result<Fresh, ValueStop>
    ensures { Answers result (tuple_added (seen frozen.now heap.now) row.now b) }
{
    match b {
        Val::Tuple(y) => match joined_row(heap.alloc(), row, heap.row(frozen, y)) {
            Ok(row) => Ok(Fresh::Tuple(row)),
            Err(_) => Err(ValueStop::NoMemory),
        },
        _ => Err(ValueStop::Raised),
    }
}

/// `a + b`.
pub(crate) fn added(heap: &Heap, frozen: &Frozen, a: Val, b: Val) -> Result<Fresh, ValueStop>
    ensures { Answers result (added (seen frozen.now heap.now) a b) }
{
    match a {
        Val::Str(x) => text_added(heap, frozen, heap.text(frozen, x), b),
        Val::List(x) => list_added(heap, frozen, heap.row(frozen, x), b),
        Val::Tuple(x) => tuple_added(heap, frozen, heap.row(frozen, x), b),
        _ => plain(on_numbers(PyOp::Add, a, b)),
    }
}

fn multiplied_by(heap: &Heap, frozen: &Frozen, a: Val, b: Val) -> Result<Fresh, ValueStop>
    ensures { Answers result (multiplied_by (seen frozen.now heap.now) a b) }
{
    match b {
        Val::List(y) => as_list(repeated(heap.alloc(), heap.row(frozen, y), number_of(a))),
        Val::Tuple(y) => as_tuple(repeated(heap.alloc(), heap.row(frozen, y), number_of(a))),
        _ => plain(on_numbers(PyOp::Mul, a, b)),
    }
}

/// `a * b`.
pub(crate) fn multiplied(heap: &Heap, frozen: &Frozen, a: Val, b: Val) -> Result<Fresh, ValueStop>
    ensures { Answers result (multiplied (seen frozen.now heap.now) a b) }
{
    match a {
        Val::List(x) => as_list(repeated(heap.alloc(), heap.row(frozen, x), number_of(b))),
        Val::Tuple(x) => as_tuple(repeated(heap.alloc(), heap.row(frozen, x), number_of(b))),
        _ => multiplied_by(heap, frozen, a, b),
    }
}

ghost use Rattle.py_heap.specs.declared.fresh.Fresh.TheVariants as fresh;
ghost use Rattle.py_operators.specs.Sums.{made};

/// A row as a new list.
pub fn as_list(row: Result<Vals, ValueStop>) -> Result<Fresh, ValueStop>
    ensures { result ≡ made fresh.List row }
{
    match row {
        Ok(row) => Ok(Fresh::List(row)),
        Err(stop) => Err(stop),
    }
}

/// A row as a new tuple.
pub fn as_tuple(row: Result<Vals, ValueStop>) -> Result<Fresh, ValueStop>
    ensures { result ≡ made fresh.Tuple row }
{
    match row {
        Ok(row) => Ok(Fresh::Tuple(row)),
        Err(stop) => Err(stop),
    }
}
