// The methods of lists.
ghost use Rattle.std.specs.Prelude.{◌≡◌};
ghost use Rattle.py_heap.specs.Heaps.{seen};
ghost use Rattle.py_values.specs.Runs.{Answers, paired};
ghost use Rattle.py_operators.specs.Elements.{elements};
ghost use Rattle.py_builtins.specs.Lists.{append_to, extended, extend_to, repeated_in, repeat_to, inserted, insert_to, popped, pop_from};

use crate::indices::none_given;
use amh_bits::Int;
use py_heap::{Frozen, Heap, index_place};
use py_operators::{elements, repeated};
use py_values::{ObjId, Val, ValueStop, number_of};

/// `a.append(v)`.
pub(crate) fn append_to(heap: &mut Heap, frozen: &Frozen, args: &[Val]) -> Result<Val, ValueStop>
    ensures { Answers (paired result heap.new) (append_to (seen frozen.now heap.old) args.now) }
{
    match args {
        [Val::List(o), v] => none_given(heap.append(frozen, *o, *v)),
        _ => Err(ValueStop::Raised),
    }
}

// Adds the elements of a value to a list, as they were before.
fn extended(heap: &mut Heap, frozen: &Frozen, o: ObjId, b: Val) -> Result<(), ValueStop>
    ensures { Answers (paired result heap.new) (extended (seen frozen.now heap.old) o.0 (elements (seen frozen.now heap.old) b)) }
{
    let Some(i) = heap.own_place(frozen, o) else {
        return Err(ValueStop::Raised);
    };
    match elements(heap, frozen, b) {
        Ok(xs) => heap.extend_own(frozen, i, xs.as_slice()),
        Err(stop) => Err(stop),
    }
}

/// `a.extend(b)`.
pub(crate) fn extend_to(heap: &mut Heap, frozen: &Frozen, args: &[Val]) -> Result<Val, ValueStop>
    ensures { Answers (paired result heap.new) (extend_to (seen frozen.now heap.old) args.now) }
{
    match args {
        [Val::List(o), b] => none_given(extended(heap, frozen, *o, *b)),
        _ => Err(ValueStop::Raised),
    }
}

// The items of a list so many times, in its place.
fn repeat(heap: &mut Heap, frozen: &Frozen, o: ObjId, n: Option<Int>) -> Result<(), ValueStop>
    ensures { Answers (paired result heap.new) (repeated_in (seen frozen.now heap.old) o.0 n) }
{
    let Some(i) = heap.own_place(frozen, o) else {
        return Err(ValueStop::Raised);
    };
    match repeated(heap.alloc(), heap.own_row(i), n) {
        Ok(xs) => heap.replace_own(frozen, i, xs),
        Err(stop) => Err(stop),
    }
}

/// `a *= n`.
pub(crate) fn repeat_to(heap: &mut Heap, frozen: &Frozen, args: &[Val]) -> Result<Val, ValueStop>
    ensures { Answers (paired result heap.new) (repeat_to (seen frozen.now heap.old) args.now) }
{
    match args {
        [Val::List(o), n] => none_given(repeat(heap, frozen, *o, number_of(*n))),
        _ => Err(ValueStop::Raised),
    }
}

// Puts a value into a list before the one at a place.
fn inserted(
    heap: &mut Heap,
    frozen: &Frozen,
    o: ObjId,
    n: Option<Int>,
    v: Val,
) -> Result<(), ValueStop>
    ensures { Answers (paired result heap.new) (inserted (seen frozen.now heap.old) o.0 n v) }
{
    let Some(i) = heap.own_place(frozen, o) else {
        return Err(ValueStop::Raised);
    };
    match n {
        Some(n) => heap.insert_own(frozen, i, n, v),
        None => Err(ValueStop::Raised),
    }
}

/// `a.insert(i, v)`.
pub(crate) fn insert_to(heap: &mut Heap, frozen: &Frozen, args: &[Val]) -> Result<Val, ValueStop>
    ensures { Answers (paired result heap.new) (insert_to (seen frozen.now heap.old) args.now) }
{
    match args {
        [Val::List(o), n, v] => none_given(inserted(heap, frozen, *o, number_of(*n), *v)),
        _ => Err(ValueStop::Raised),
    }
}

// Takes the item at a place out of a list.
fn popped(heap: &mut Heap, frozen: &Frozen, o: ObjId, n: Option<Int>) -> Result<Val, ValueStop>
    ensures { Answers (paired result heap.new) (popped (seen frozen.now heap.old) o.0 n) }
{
    let Some(i) = heap.own_place(frozen, o) else {
        return Err(ValueStop::Raised);
    };
    match n {
        Some(n) => {
            let place = index_place(heap.own_row(i).len(), n);
            heap.take_own(i, place)
        }
        None => Err(ValueStop::Raised),
    }
}

/// `a.pop()` and `a.pop(i)`.
pub(crate) fn pop_from(heap: &mut Heap, frozen: &Frozen, args: &[Val]) -> Result<Val, ValueStop>
    ensures { Answers (paired result heap.new) (pop_from (seen frozen.now heap.old) args.now) }
{
    match args {
        [Val::List(o)] => popped(heap, frozen, *o, Some(Int::of_i128(-1))),
        [Val::List(o), n] => popped(heap, frozen, *o, number_of(*n)),
        _ => Err(ValueStop::Raised),
    }
}
