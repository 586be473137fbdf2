// Ranges as shapes: of all elements the first and the last one decide.
ghost use Rattle.std.specs.Prelude.{◌≡◌, ◌+◌, ◌-◌, ◌%◌, ◌<◌, ◌≤◌, ◌<ℤ◌, IsTrue, int_lt, max, slice_get, unsigned_abs, ◌∷◌, [], true, false};
ghost use Rattle.std.specs.Int.{int_gap};
ghost use Rattle.amh_bits.specs.Integers.{sign_of};
ghost use Rattle.py_heap.specs.Heaps.{seen};
ghost use Rattle.py_values.specs.Ranges.{number_in, span_of, comes_before};
ghost use Rattle.py_operators.specs.Spans.{span_count, span_numbers, stepped};
ghost use Rattle.amh_things.specs.Ranges.{magnitude, width_for, form_for_all, form_within, range_shape};

use crate::operand::{bit_length, note_kept, number_of};
use amh_bits::Int;
use py_frames::request::Cause;
use py_heap::{Frozen, Heap};
use py_values::{ObjId, Val};
use shape_rules::Shape;

// ---- the last element

fn is_less(n: Int, m: Int) -> bool
    ensures { result ≡ int_lt n m }
{
    n.less(m)
}

// Whether one number stands before another on the way of the step.
fn comes_before(step: Int, n: Int, m: Int) -> bool
    ensures { result ≡ comes_before step n m }
{
    if step.size == 0 {
        false
    } else if step.negative {
        is_less(m, n)
    } else {
        is_less(n, m)
    }
}

// Two parts of the way from a number to a greater one, of which one step of 1 is left.
fn way_parts(low: Int, high: Int) -> (u128, u128)
    requires { IsTrue (int_lt low high) }
    ensures { result.0 + result.1 + 1 ≡ int_gap low high }
{
    if low.negative == high.negative {
        (low.size.abs_diff(high.size) - 1, 0)
    } else {
        (low.size - 1, high.size)
    }
}

// What whole steps leave of a way of two parts.
fn rest_of(a: u128, b: u128, size: u128) -> u128
    requires { 0 < size }
    ensures value { result ≡ (a + b) % size }
    ensures below { result < size }
{
    let a = a % size;
    let b = b % size;
    if a >= size - b { a - (size - b) } else { a + b }
}

fn size_of(n: Int) -> u128
    ensures { result ≡ unsigned_abs n }
{
    n.size
}

// The last element of a range upwards: what whole steps leave lies between it and the stop.
fn last_up(start: Int, stop: Int, step: Int) -> Int
    requires before { IsTrue (comes_before step start stop) }
    requires up { sign_of step ≡ false }
    ensures { result ≡ stepped start step (span_count (record { start = start; stop = stop; step = step }) - 1) }
{
    note_kept(start);
    note_kept(stop);
    let (a, b) = way_parts(start, stop);
    let rest = rest_of(a, b, size_of(step));
    match stop.sub(Int::of_u128(rest + 1)) {
        Ok(last) => last,
        Err(_) => unreachable!(),
    }
}

// The last element of a range downwards.
fn last_down(start: Int, stop: Int, step: Int) -> Int
    requires before { IsTrue (comes_before step start stop) }
    requires down { sign_of step ≡ true }
    ensures { result ≡ stepped start step (span_count (record { start = start; stop = stop; step = step }) - 1) }
{
    note_kept(start);
    note_kept(stop);
    let (a, b) = way_parts(stop, start);
    let rest = rest_of(a, b, size_of(step));
    match stop.add(Int::of_u128(rest + 1)) {
        Ok(last) => last,
        Err(_) => unreachable!(),
    }
}

// The last element of a range that has one.
fn last_number(start: Int, stop: Int, step: Int) -> Int
    requires { IsTrue (comes_before step start stop) }
    ensures { result ≡ stepped start step (span_count (record { start = start; stop = stop; step = step }) - 1) }
{
    if step.negative {
        last_down(start, stop, step)
    } else {
        last_up(start, stop, step)
    }
}

// ---- shapes

fn magnitude(n: Int) -> u128
    ensures { result ≡ magnitude n }
{
    if n.negative { n.size - 1 } else { n.size }
}

/// The least width of a shape with or without a sign that has a number.
pub fn width_for(signed: bool, n: Int) -> u8
    ensures value { result ≡ width_for signed n }
    ensures most { result ≤ 129 }
{
    let bits = bit_length(magnitude(n));
    if signed { bits + 1 } else { bits }
}

// The shape of two numbers.
fn ends_shape(first: Int, last: Int) -> Result<Shape, Cause>
    ensures { result ≡ form_within (form_for_all (first ∷ last ∷ [])) }
{
    let signed = first.negative || last.negative;
    let width = width_for(signed, first).max(width_for(signed, last));
    if width > 128 {
        Err(Cause::Width)
    } else {
        Ok(Shape { width, signed })
    }
}

// The shape of a range.
fn span_shape(start: Int, stop: Int, step: Int) -> Result<Shape, Cause>
    ensures { result ≡ form_within (form_for_all (span_numbers (record { start = start; stop = stop; step = step }))) }
{
    if comes_before(step, start, stop) {
        ends_shape(start, last_number(start, stop, step))
    } else {
        Ok(Shape {
            width: 0,
            signed: false,
        })
    }
}

// The number that stands at a place of the row of a range.
fn number_at(row: &[Val], i: usize) -> Int
    ensures { result ≡ number_in (slice_get row.now i) }
{
    match row.get(i) {
        Some(v) => match number_of(v) {
            Some(n) => n,
            None => Int::of_u128(0),
        },
        None => Int::of_u128(0),
    }
}

/// The shape that a range of the heap is.
pub fn range_shape(heap: &Heap, frozen: &Frozen, o: ObjId) -> Result<Shape, Cause>
    ensures { result ≡ range_shape (seen frozen.now heap.now) o }
{
    let row = heap.row(frozen, o);
    span_shape(number_at(row, 0), number_at(row, 1), number_at(row, 2))
}
