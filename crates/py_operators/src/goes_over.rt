// What a builtin goes over.
ghost use Rattle.std.specs.Prelude.{◌≡◌, slice_get, length, Ok};
ghost use Rattle.py_heap.specs.Heaps.{seen};
ghost use Rattle.py_values.specs.Runs.{Answers};
ghost use Rattle.py_operators.specs.Elements.{keys_in, elements, element, counts_to, sized};

use crate::spans::{span_counts, span_element, span_listed, span_sized};
use py_heap::{Frozen, Heap};
use py_values::{Number, Val, Vals, ValueStop, span_of};
use std::alloc::Global;

/// The values of a row, again.
pub(crate) fn copied(alloc: Global, row: &[Val]) -> Result<Vals, ValueStop>
    ensures { Answers result (Ok row.now) }
{
    let mut all = Vals::new(alloc);
    match all.extend(row) {
        Ok(()) => Ok(all),
        Err(_) => Err(ValueStop::NoMemory),
    }
}

/// The keys in the row of a dict.
pub(crate) fn keys_in(alloc: Global, row: &[Val]) -> Result<Vals, ValueStop>
    ensures { Answers result (Ok (keys_in row.now)) }
{
    let mut keys = Vals::new(alloc);
    for i in 0..row.len() / 2 {
        let Ok(()) = keys.push(row[2 * i]) else {
            return Err(ValueStop::NoMemory);
        };
    }
    Ok(keys)
}

// A value of a row, by its place.
fn value_at(row: &[Val], i: usize) -> Option<Val>
    ensures { result ≡ slice_get row.now i }
{
    match row.get(i) {
        Some(v) => Some(*v),
        None => None,
    }
}

// A key in the row of a dict, by its number.
fn key_at(row: &[Val], i: usize) -> Option<Val>
    ensures { result ≡ slice_get (keys_in row.now) i }
{
    if i < row.len() / 2 {
        Some(row[2 * i])
    } else {
        None
    }
}

/// The elements of a value. Strings, things and other values that are no list, tuple, dict or range have none,
/// and a range that has more than 65,536 stands for no list.
pub fn elements(heap: &Heap, frozen: &Frozen, v: Val) -> Result<Vals, ValueStop>
    ensures { Answers result (elements (seen frozen.now heap.now) v) }
{
    match v {
        Val::List(o) | Val::Tuple(o) => copied(heap.alloc(), heap.row(frozen, o)),
        Val::Dict(o) => keys_in(heap.alloc(), heap.row(frozen, o)),
        Val::Range(o) => span_listed(heap.alloc(), &span_of(heap.row(frozen, o))),
        _ => Err(ValueStop::Raised),
    }
}

/// One element of a value, by its number; `None` past the last one, and where there are no elements.
pub fn element(heap: &Heap, frozen: &Frozen, v: Val, i: usize) -> Option<Val>
    ensures { result ≡ element (seen frozen.now heap.now) v i }
{
    match v {
        Val::List(o) | Val::Tuple(o) => value_at(heap.row(frozen, o), i),
        Val::Dict(o) => key_at(heap.row(frozen, o), i),
        Val::Range(o) => match span_element(&span_of(heap.row(frozen, o)), i as u128) {
            Some(n) => Some(Val::Int(Number::of(n))),
            None => None,
        },
        _ => None,
    }
}

/// Whether a value has so many elements.
pub fn counts_to(heap: &Heap, frozen: &Frozen, v: Val, n: usize) -> bool
    ensures { result ≡ counts_to (seen frozen.now heap.now) v n }
{
    match v {
        Val::List(o) | Val::Tuple(o) => heap.row(frozen, o).len() == n,
        Val::Dict(o) => heap.row(frozen, o).len() / 2 == n,
        Val::Range(o) => span_counts(&span_of(heap.row(frozen, o)), n),
        _ => false,
    }
}

/// How many elements a value has.
pub fn sized(heap: &Heap, frozen: &Frozen, v: Val) -> Result<usize, ValueStop>
    ensures { Answers result (sized (seen frozen.now heap.now) v) }
{
    match v {
        Val::List(o) | Val::Tuple(o) => Ok(heap.row(frozen, o).len()),
        Val::Dict(o) => Ok(heap.row(frozen, o).len() / 2),
        Val::Range(o) => span_sized(&span_of(heap.row(frozen, o))),
        _ => Err(ValueStop::Raised),
    }
}
