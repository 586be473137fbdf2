// The elements of a range.
ghost use Rattle.std.specs.Prelude.{◌≡◌, ◌+◌, ◌==◌, ◌*◌, ◌^◌, ◌<◌, ◌≤◌, IsTrue, ◌∷◌, pos, ◌+ℤ◌, ◌-ℤ◌, if◌then◌else◌, map, SomeIff, Ok};
ghost use Rattle.std.specs.Int.{div_ceil};
ghost use Rattle.amh_bits.specs.Integers.{IsKept, sign_of};
ghost use Rattle.py_values.specs.declared.val.Val.TheVariants as val;
ghost use Rattle.py_values.specs.Runs.{Answers};
ghost use Rattle.py_operators.specs.Spans.{way, span_count, stepped, span_element, numbers_from, span_item, Hops};
ghost use Rattle.py_operators.specs.Elements.{span_listed, span_sized};

use amh_bits::Int;
use py_values::{Number, Span, Val, Vals, ValueStop, comes_before};
use std::alloc::Global;

// Two parts that together are the way from one number to another.
fn way_parts(step: Int, n: Int, m: Int) -> (u128, u128)
    ensures { result.0 + result.1 ≡ way step n m }
{
    if !comes_before(step, n, m) {
        return (0, 0);
    }
    if n.negative == m.negative {
        (n.size.abs_diff(m.size), 0)
    } else {
        (n.size, m.size)
    }
}

// The steps of a size for two rests of a way, each below one step.
fn steps_for_rests(a: u128, b: u128, size: u128) -> u128
    requires first { a < size }
    requires second { b < size }
    ensures { result ≡ div_ceil (a + b) size }
{
    if a == 0 && b == 0 {
        0
    } else if a <= size - b {
        1
    } else {
        2
    }
}

// The steps of a size for a way of two parts.
fn steps_for_way(a: u128, b: u128, size: u128) -> Option<u128>
    requires { 0 < size }
    ensures { SomeIff result (div_ceil (a + b) size < 2 ^ 128) (div_ceil (a + b) size) }
{
    let rests = steps_for_rests(a % size, b % size, size);
    match (a / size).checked_add(b / size) {
        Some(whole) => whole.checked_add(rests),
        None => None,
    }
}

/// How many elements a range has, where they are fewer than 2^128.
pub fn span_count(r: &Span) -> Option<u128>
    ensures { SomeIff result (span_count r.now < 2 ^ 128) (span_count r.now) }
{
    let step = r.step;
    if step.size == 0 {
        return Some(0);
    }
    let (a, b) = way_parts(step, r.start, r.stop);
    steps_for_way(a, b, step.size)
}

/// Whether a range has so many elements.
pub(crate) fn span_counts(r: &Span, n: usize) -> bool
    ensures { result ≡ (span_count r.now == n) }
{
    match span_count(r) {
        Some(count) => count == n as u128,
        None => false,
    }
}

/// Nothing is done; callers learn from it that an integer is kept.
pub fn note_kept(n: Int)
    ensures { IsKept n }
{
    let _size = n.size;
}

// The number so far before or behind another, where it is kept.
fn moved(n: Int, back: bool, way: u128) -> Option<Int>
    ensures { SomeIff result (IsKept (if back then n -ℤ pos way else n +ℤ pos way)) (if back then n -ℤ pos way else n +ℤ pos way) }
{
    let way = Int::of_u128(way);
    if back {
        match n.sub(way) {
            Ok(m) => Some(m),
            Err(_) => None,
        }
    } else {
        match n.add(way) {
            Ok(m) => Some(m),
            Err(_) => None,
        }
    }
}

// The number that so many steps lead to, unless it is not kept or the way is 2^128 or longer.
fn hop(n: Int, step: Int, count: u128) -> Option<Int>
    ensures { Hops n step count result }
{
    match count.checked_mul(step.size) {
        Some(way) => moved(n, step.negative, way),
        None => None,
    }
}

// The number that so many steps lead to, where it is kept. Half the way is never too long to be counted.
fn stepped(n: Int, step: Int, count: u128) -> Option<Int>
    ensures { SomeIff result (IsKept (stepped n step count)) (stepped n step count) }
{
    note_kept(n);
    note_kept(step);
    let half = count / 2;
    match hop(n, step, half) {
        Some(m) => hop(m, step, count - half),
        None => None,
    }
}

/// An element of a range, by its number.
pub(crate) fn span_element(r: &Span, i: u128) -> Option<Int>
    ensures { result ≡ span_element r.now i }
{
    note_kept(r.start);
    note_kept(r.stop);
    match stepped(r.start, r.step, i) {
        Some(n) => {
            if comes_before(r.step, n, r.stop) {
                Some(n)
            } else {
                None
            }
        }
        None => None,
    }
}

/// An element of a range that is there.
pub fn span_number(r: &Span, i: u128) -> Int
    requires { i < span_count r.now }
    ensures { result ≡ stepped r.now.start r.now.step i }
{
    match span_element(r, i) {
        Some(n) => n,
        None => unreachable!(),
    }
}

// The first elements of a range, as values.
fn numbers(alloc: Global, r: &Span, count: u128) -> Result<Vals, ValueStop>
    requires { count ≤ span_count r.now }
    ensures { Answers result (Ok (map val.Int (numbers_from count 0 r.now))) }
{
    let mut all = Vals::new(alloc);
    for i in 0..count {
        let Ok(()) = all.push(Val::Int(Number::of(span_number(r, i)))) else {
            return Err(ValueStop::NoMemory);
        };
    }
    Ok(all)
}

/// The list of its elements that a range stands for.
pub(crate) fn span_listed(alloc: Global, r: &Span) -> Result<Vals, ValueStop>
    ensures { Answers result (span_listed r.now) }
{
    match span_count(r) {
        Some(count) if count <= 65_536 => numbers(alloc, r, count),
        _ => Err(ValueStop::Limit),
    }
}

/// How many elements the list has that a range stands for.
pub(crate) fn span_sized(r: &Span) -> Result<usize, ValueStop>
    ensures { Answers result (span_sized r.now) }
{
    match span_count(r) {
        Some(count) if count <= 65_536 => Ok(count as usize),
        _ => Err(ValueStop::Limit),
    }
}

// The element at an index from the end of a range that has 2^128 elements or more, so that its step is 1 or -1.
fn far_item(r: &Span, n: Int) -> Option<Int>
    requires far { 2 ^ 128 ≤ span_count r.now }
    requires negative { IsTrue (sign_of n) }
    ensures { result ≡ span_item r.now n }
{
    let step = r.step;
    note_kept(r.start);
    note_kept(r.stop);
    note_kept(n);
    if step.negative {
        match r.stop.sub(n) {
            Ok(m) => Some(m),
            Err(_) => None,
        }
    } else {
        match r.stop.add(n) {
            Ok(m) => Some(m),
            Err(_) => None,
        }
    }
}

/// The element at an index of a range, counted from the end where it is negative.
pub fn span_item(r: &Span, n: Int) -> Option<Int>
    ensures { result ≡ span_item r.now n }
{
    if !n.negative {
        return span_element(r, n.size);
    }
    match span_count(r) {
        Some(count) => {
            if n.size <= count {
                span_element(r, count - n.size)
            } else {
                None
            }
        }
        None => far_item(r, n),
    }
}
