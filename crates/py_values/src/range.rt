// Ranges.
ghost use Rattle.std.specs.Prelude.{◌≡◌, slice_get, int_lt};
ghost use Rattle.py_values.specs.Ranges.{number_in, span_of, comes_before, is_empty_range, in_range};

use crate::numbers::{is_less, number_of};
use crate::val::Val;
use amh_bits::Int;

/// From `start` on by steps of `step`, before `stop`.
#[derive(Clone, Copy, Drop)]
pub struct Span {
    pub start: Int,
    pub stop: Int,
    pub step: Int,
}

// The number that stands at a place of a row, and 0 where there is none.
fn number_at(row: &[Val], i: usize) -> Int
    ensures { result ≡ number_in (slice_get row.now i) }
{
    match row.get(i) {
        Some(v) => match number_of(*v) {
            Some(n) => n,
            None => Int::of_u128(0),
        },
        None => Int::of_u128(0),
    }
}

/// The range that a row holds.
pub fn span_of(row: &[Val]) -> Span
    ensures { result ≡ span_of row.now }
{
    Span {
        start: number_at(row, 0),
        stop: number_at(row, 1),
        step: number_at(row, 2),
    }
}

/// Whether one number stands before another on the way of the step.
pub fn comes_before(step: Int, n: Int, m: Int) -> bool
    ensures { result ≡ comes_before step n m }
{
    if step.size == 0 {
        false
    } else if step.negative {
        is_less(m, n)
    } else {
        is_less(n, m)
    }
}

/// Whether a range has no element.
pub fn is_empty_range(r: Span) -> bool
    ensures { result ≡ is_empty_range r }
{
    !comes_before(r.step, r.start, r.stop)
}

/// Whether a number is an element of a range.
pub fn in_range(r: Span, n: Int) -> bool
    ensures { result ≡ in_range r n }
{
    comes_before(r.step, n, r.stop)
        && !comes_before(r.step, n, r.start)
        && n.floor_rem(r.step) == r.start.floor_rem(r.step)
}
