// `range`, `len`, `list`, `tuple` and `reversed`.
ghost use Rattle.std.specs.Prelude.{◌≡◌, Some};
ghost use Rattle.py_heap.specs.Heaps.{seen};
ghost use Rattle.py_values.specs.Runs.{Answers, paired};
ghost use Rattle.py_operators.specs.Elements.{elements, count_of};
ghost use Rattle.py_builtins.specs.Sequences.{span_between, span_given, range_of, measured, len_of, list_of, tuple_of, turned_round, reversed_of};

use amh_bits::Int;
use py_heap::{Fresh, Frozen, Heap, char_count};
use py_operators::{as_list, as_tuple, elements, span_count};
use py_values::{Number, Span, Val, Vals, ValueStop, is_zero, number_of, span_of};

fn span_between(start: Option<Int>, stop: Option<Int>, step: Option<Int>) -> Option<Span>
    ensures { result ≡ span_between start stop step }
{
    match (start, stop, step) {
        (Some(start), Some(stop), Some(step)) => {
            if is_zero(step) {
                None
            } else {
                Some(Span { start, stop, step })
            }
        }
        _ => None,
    }
}

// The range that these arguments ask for.
fn span_given(args: &[Val]) -> Option<Span>
    ensures { result ≡ span_given args.now }
{
    let zero = Some(Int::of_u128(0));
    let one = Some(Int::of_u128(1));
    match args {
        [b] => span_between(zero, number_of(*b), one),
        [a, b] => span_between(number_of(*a), number_of(*b), one),
        [a, b, c] => span_between(number_of(*a), number_of(*b), number_of(*c)),
        _ => None,
    }
}

// As many as there are, as an integer.
fn told(n: u128) -> Result<Fresh, ValueStop>
    ensures { Answers result (measured (Some n)) }
{
    Ok(Fresh::Val(Val::Int(Number::of_u128(n))))
}

/// `range(stop)`, `range(start, stop)` and `range(start, stop, step)`.
pub(crate) fn range_of(heap: &mut Heap, frozen: &Frozen, args: &[Val]) -> Result<Val, ValueStop>
    ensures { Answers (paired result heap.new) (range_of (seen frozen.now heap.old) args.now) }
{
    heap.new_range(frozen, span_given(args))
}

// As many elements or characters as a value has.
fn measured(heap: &Heap, frozen: &Frozen, v: Val) -> Result<Fresh, ValueStop>
    ensures { Answers result (measured (count_of (seen frozen.now heap.now) v)) }
{
    match v {
        Val::Str(x) => told(char_count(heap.text(frozen, x)) as u128),
        Val::List(o) | Val::Tuple(o) => told(heap.row(frozen, o).len() as u128),
        Val::Dict(o) => told(heap.row(frozen, o).len() as u128 / 2),
        Val::Range(o) => match span_count(&span_of(heap.row(frozen, o))) {
            Some(n) => told(n),
            None => Err(ValueStop::Width),
        },
        _ => Err(ValueStop::Raised),
    }
}

/// `len(v)`.
pub(crate) fn len_of(heap: &Heap, frozen: &Frozen, args: &[Val]) -> Result<Fresh, ValueStop>
    ensures { Answers result (len_of (seen frozen.now heap.now) args.now) }
{
    match args {
        [v] => measured(heap, frozen, *v),
        _ => Err(ValueStop::Raised),
    }
}

/// `list()` and `list(v)`.
pub(crate) fn list_of(heap: &Heap, frozen: &Frozen, args: &[Val]) -> Result<Fresh, ValueStop>
    ensures { Answers result (list_of (seen frozen.now heap.now) args.now) }
{
    match args {
        [] => Ok(Fresh::List(Vals::new(heap.alloc()))),
        [v] => as_list(elements(heap, frozen, *v)),
        _ => Err(ValueStop::Raised),
    }
}

/// `tuple()` and `tuple(v)`.
pub(crate) fn tuple_of(heap: &Heap, frozen: &Frozen, args: &[Val]) -> Result<Fresh, ValueStop>
    ensures { Answers result (tuple_of (seen frozen.now heap.now) args.now) }
{
    match args {
        [] => Ok(Fresh::Tuple(Vals::new(heap.alloc()))),
        [v] => as_tuple(elements(heap, frozen, *v)),
        _ => Err(ValueStop::Raised),
    }
}

// The elements of a value from the last to the first.
fn turned_round(heap: &Heap, frozen: &Frozen, v: Val) -> Result<Fresh, ValueStop>
    ensures { Answers result (turned_round (elements (seen frozen.now heap.now) v)) }
{
    match elements(heap, frozen, v) {
        Ok(row) => match Vals::reversed(heap.alloc(), row.as_slice()) {
            Ok(row) => Ok(Fresh::List(row)),
            Err(_) => Err(ValueStop::NoMemory),
        },
        Err(stop) => Err(stop),
    }
}

/// `reversed(v)`, as a list.
pub(crate) fn reversed_of(heap: &Heap, frozen: &Frozen, args: &[Val]) -> Result<Fresh, ValueStop>
    ensures { Answers result (reversed_of (seen frozen.now heap.now) args.now) }
{
    match args {
        [v] => turned_round(heap, frozen, *v),
        _ => Err(ValueStop::Raised),
    }
}
