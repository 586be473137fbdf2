// `enumerate` and `zip`, which give lists of new tuples.
ghost use Rattle.std.specs.Prelude.{◌≡◌, ◌*◌, ◌↔◌, IsTrue, ◌<◌, ◌≤◌, ◌∷◌, [], ◌+ℤ◌, pos, reverse, length, true, unwrap_or, IfOk, IfErr, Ok};
ghost use Rattle.std.specs.List.{list_all};
ghost use Rattle.amh_bits.specs.Integers.{IsKept};
ghost use Rattle.py_values.specs.declared.val.Val.TheVariants as val;
ghost use Rattle.py_heap.specs.Heaps.{seen};
ghost use Rattle.py_values.specs.Runs.{Answers, paired};
ghost use Rattle.py_operators.specs.Elements.{elements, element};
ghost use Rattle.py_builtins.specs.Sequences.{tuples_onto, tuple_list, all_kept, numbered, enumerated_row, enumerated, enumerate_of, has_elements, least_size, shortest, column, columns, zip_of};

use amh_bits::Int;
use py_heap::{Fresh, Frozen, Heap};
use py_operators::{element, elements, note_kept, sized};
use py_values::{Number, Val, Vals, ValueStop, number_of};
use std::alloc::Global;

// A list of new tuples of these rows, the last row first.
fn tuple_list(heap: &mut Heap, frozen: &Frozen, mut rows: Vec<Vals>) -> Result<Val, ValueStop>
    ensures { Answers (paired result heap.new) (tuple_list (seen frozen.now heap.old) (reverse rows.items)) }
{
    let mut all = Vals::new(heap.alloc());
    while let Some(row) = rows.pop() {
        match heap.place(frozen, Fresh::Tuple(row)) {
            Ok(v) => {
                let Ok(()) = all.push(v) else {
                    return Err(ValueStop::NoMemory);
                };
            }
            Err(stop) => return Err(stop),
        }
    }
    heap.place(frozen, Fresh::List(all))
}

// ---- `enumerate`

// Whether so many numbers from one on are kept.
fn all_kept(n: Int, count: usize) -> bool
    ensures { result ≡ all_kept n count }
{
    if count == 0 {
        return true;
    }
    match n.add(Int::of_u128(count as u128 - 1)) {
        Ok(_) => true,
        Err(_) => false,
    }
}

// The number so far behind another.
fn number_behind(n: Int, k: usize) -> Int
    requires { IsKept (n +ℤ pos k) }
    ensures { result ≡ n +ℤ pos k }
{
    match n.add(Int::of_u128(k as u128)) {
        Ok(m) => m,
        Err(_) => unreachable!(),
    }
}

// Two values as a row.
fn pair_row(alloc: Global, first: Val, second: Val) -> Result<Vals, ValueStop>
    ensures { Answers result (Ok (first ∷ second ∷ [])) }
{
    let mut row = Vals::new(alloc);
    match row.push_pair(first, second) {
        Ok(()) => Ok(row),
        Err(_) => Err(ValueStop::NoMemory),
    }
}

// Each value behind its number, the last one first.
fn numbered_back(alloc: Global, n: Int, xs: &[Val]) -> Result<Vec<Vals>, ValueStop>
    requires { all_kept n (length xs.now) ≡ true }
    ensures rows { IfOk result (λ rows. reverse rows.items ≡ numbered n xs.now) }
    ensures memory { IfErr result (λ stop. stop ≡ ValueStop.NoMemory) }
{
    note_kept(n);
    let mut rows = Vec::new(alloc);
    for i in 0..xs.len() {
        let k = xs.len() - 1 - i;
        let number = Number::of(number_behind(n, k));
        let Ok(row) = pair_row(alloc, Val::Int(number), xs[k]) else {
            return Err(ValueStop::NoMemory);
        };
        let Ok(()) = rows.push(row) else {
            return Err(ValueStop::NoMemory);
        };
    }
    Ok(rows)
}

fn enumerated_row(heap: &mut Heap, frozen: &Frozen, n: Int, xs: &[Val]) -> Result<Val, ValueStop>
    ensures { Answers (paired result heap.new) (enumerated_row (seen frozen.now heap.old) n xs.now) }
{
    if !all_kept(n, xs.len()) {
        return Err(ValueStop::Width);
    }
    match numbered_back(heap.alloc(), n, xs) {
        Ok(rows) => tuple_list(heap, frozen, rows),
        Err(_) => Err(ValueStop::NoMemory),
    }
}

fn enumerated(heap: &mut Heap, frozen: &Frozen, v: Val, n: Option<Int>) -> Result<Val, ValueStop>
    ensures { Answers (paired result heap.new) (enumerated (seen frozen.now heap.old) (elements (seen frozen.now heap.old) v) n) }
{
    let Some(n) = n else {
        return Err(ValueStop::Raised);
    };
    match elements(heap, frozen, v) {
        Ok(xs) => enumerated_row(heap, frozen, n, xs.as_slice()),
        Err(stop) => Err(stop),
    }
}

/// `enumerate(v)` and `enumerate(v, start)`, as a list.
pub(crate) fn enumerate_of(heap: &mut Heap, frozen: &Frozen, args: &[Val]) -> Result<Val, ValueStop>
    ensures { Answers (paired result heap.new) (enumerate_of (seen frozen.now heap.old) args.now) }
{
    match args {
        [v] => enumerated(heap, frozen, *v, Some(Int::of_u128(0))),
        [v, n] => enumerated(heap, frozen, *v, number_of(*n)),
        _ => Err(ValueStop::Raised),
    }
}

// ---- `zip`

fn has_elements(v: Val) -> bool
    ensures { result ≡ has_elements v }
{
    match v {
        Val::List(_) | Val::Tuple(_) | Val::Dict(_) | Val::Range(_) => true,
        _ => false,
    }
}

// Whether so many rows of so many items pass the count of items by themselves.
fn are_too_many(rows: usize, items: usize) -> bool
    ensures { IsTrue result ↔ (4194304 < rows * items) }
{
    match rows.checked_mul(items) {
        Some(total) => total > 4_194_304,
        None => true,
    }
}

fn all_have_elements(vs: &[Val]) -> bool
    ensures { result ≡ list_all has_elements vs.now }
{
    vs.iter().all(|v| has_elements(*v))
}

// A number, or how many elements the value with the fewest has.
fn least_size(heap: &Heap, frozen: &Frozen, n: usize, vs: &[Val]) -> Result<usize, ValueStop>
    ensures { Answers result (least_size (seen frozen.now heap.now) n vs.now) }
{
    let mut least = n;
    for v in vs {
        match sized(heap, frozen, *v) {
            Ok(size) => least = least.min(size),
            Err(stop) => return Err(stop),
        }
    }
    Ok(least)
}

// How many elements the value with the fewest has.
fn shortest(heap: &Heap, frozen: &Frozen, vs: &[Val]) -> Result<usize, ValueStop>
    ensures { Answers result (shortest (seen frozen.now heap.now) vs.now) }
{
    match vs {
        [] => Ok(0),
        [first, rest @ ..] => match sized(heap, frozen, *first) {
            Ok(n) => least_size(heap, frozen, n, rest),
            Err(stop) => Err(stop),
        },
    }
}

// One element of a value, and None where there is none.
fn element_or_none(heap: &Heap, frozen: &Frozen, v: Val, i: usize) -> Val
    ensures { result ≡ unwrap_or (element (seen frozen.now heap.now) v i) val.None }
{
    match element(heap, frozen, v, i) {
        Some(x) => x,
        None => Val::None,
    }
}

// The element of each value that has this number.
fn column(heap: &Heap, frozen: &Frozen, vs: &[Val], i: usize) -> Result<Vals, ValueStop>
    ensures { Answers result (Ok (column (seen frozen.now heap.now) vs.now i)) }
{
    let mut row = Vals::new(heap.alloc());
    for v in vs {
        let Ok(()) = row.push(element_or_none(heap, frozen, *v, i)) else {
            return Err(ValueStop::NoMemory);
        };
    }
    Ok(row)
}

// The first columns, the last one first.
fn columns_back(heap: &Heap, frozen: &Frozen, vs: &[Val], n: usize) -> Result<Vec<Vals>, ValueStop>
    ensures rows { IfOk result (λ rows. reverse rows.items ≡ columns (seen frozen.now heap.now) vs.now n 0) }
    ensures memory { IfErr result (λ stop. stop ≡ ValueStop.NoMemory) }
{
    let mut rows = Vec::new(heap.alloc());
    for i in 0..n {
        let Ok(row) = column(heap, frozen, vs, n - 1 - i) else {
            return Err(ValueStop::NoMemory);
        };
        let Ok(()) = rows.push(row) else {
            return Err(ValueStop::NoMemory);
        };
    }
    Ok(rows)
}

// A list of the first columns as tuples. What passes the count of items anyway is not laid out first.
fn zipped(heap: &mut Heap, frozen: &Frozen, vs: &[Val], n: usize) -> Result<Val, ValueStop>
    ensures { Answers (paired result heap.new) (tuple_list (seen frozen.now heap.old) (columns (seen frozen.now heap.old) vs.now n 0)) }
{
    if are_too_many(n, vs.len()) {
        return Err(ValueStop::Limit);
    }
    match columns_back(heap, frozen, vs, n) {
        Ok(rows) => tuple_list(heap, frozen, rows),
        Err(_) => Err(ValueStop::NoMemory),
    }
}

/// `zip(v, ..)`, as a list.
pub(crate) fn zip_of(heap: &mut Heap, frozen: &Frozen, args: &[Val]) -> Result<Val, ValueStop>
    ensures { Answers (paired result heap.new) (zip_of (seen frozen.now heap.old) args.now) }
{
    if !all_have_elements(args) {
        return Err(ValueStop::Raised);
    }
    match shortest(heap, frozen, args) {
        Ok(n) => zipped(heap, frozen, args, n),
        Err(stop) => Err(stop),
    }
}
