// Builtins that give a number, a boolean, a string or None.
ghost use Rattle.std.specs.Prelude.{◌≡◌, ◌<◌, ◌≤◌, ◌^◌, nat_lt, pos, unsigned_abs, string_bytes, IfOk, Some, Ok, if◌then◌else◌};
ghost use Rattle.std.specs.List.{list_all, best_of};
ghost use Rattle.amh_bits.specs.Decimals.{int_text};
ghost use Rattle.py_heap.specs.Heaps.{seen, text_at};
ghost use Rattle.py_values.specs.Runs.{Answers, paired};
ghost use Rattle.py_builtins.specs.Scalars.{only, int_of, text_made, str_of, shown_text, bool_of, magnitude_of, nothing_printed, bit_length, log_of, ceil_log2, width_of, bits_for, is_number, worth, is_before, extreme, extreme_of, least_of, greatest_of, summed, sum_from, sum_of, only_number};

use amh_bits::Int;
use lists::{NoMemory, Text};
use py_heap::{Frozen, Heap};
use py_operators::{elements, truth};
use py_values::{Number, NumberStop, PyOp, StrId, Val, ValueStop, is_less, number_of, on_numbers};
use std::alloc::{AllocError, Global};

// The argument, where it is the only one.
fn only(args: &[Val]) -> Option<Val>
    ensures { result ≡ only args.now }
{
    match args {
        [v] => Some(*v),
        _ => None,
    }
}

// The number that the only argument is.
fn only_number(args: &[Val]) -> Option<Int>
    ensures { result ≡ only_number args.now }
{
    match args {
        [v] => number_of(*v),
        _ => None,
    }
}

// How far a number is from 0.
fn magnitude(n: Int) -> Int
    ensures { result ≡ pos (unsigned_abs n) }
{
    Int::of_u128(n.size)
}

fn power_of_two(k: u32) -> u128
    requires { k < 128 }
    ensures { result ≡ 2 ^ k }
{
    1 << k
}

// Whether a number is below 2^k.
fn is_below_power(n: u128, k: u32) -> bool
    requires { k < 128 }
    ensures { result ≡ nat_lt n (2 ^ k) }
{
    n < power_of_two(k)
}

// The least k with the number below 2^k.
fn bit_length(n: u128) -> u32
    ensures least { result ≡ bit_length n }
    ensures small { result ≤ 128 }
{
    for k in 0..128 {
        if is_below_power(n, k) {
            return k;
        }
    }
    128
}

// The least k with 2^k at least the number.
fn log_of(n: Int) -> Option<Val>
    ensures { result ≡ log_of n }
{
    if n.negative {
        return None;
    }
    if n.size == 0 {
        return Some(Val::Int(Number::of_u128(0)));
    }
    let bits = bit_length(n.size - 1);
    Some(Val::Int(Number::of_u128(bits as u128)))
}

// The least width that has the number.
fn width_of(n: Int) -> u32
    ensures { result ≡ width_of n }
{
    if n.negative {
        bit_length(n.size - 1) + 1
    } else {
        bit_length(n.size).max(1)
    }
}

/// `int(a)`, of a number.
pub(crate) fn int_of(_heap: &mut Heap, _frozen: &Frozen, args: &[Val]) -> Result<Val, ValueStop>
    ensures { Answers (paired result _heap.new) (int_of (seen _frozen.now _heap.old) args.now) }
{
    match only_number(args) {
        Some(n) => Ok(Val::Int(Number::of(n))),
        None => Err(ValueStop::Raised),
    }
}

/// `bool(a)`, and `bool()`, which is `False`.
pub(crate) fn bool_of(heap: &mut Heap, frozen: &Frozen, args: &[Val]) -> Result<Val, ValueStop>
    ensures { Answers (paired result heap.new) (bool_of (seen frozen.now heap.old) args.now) }
{
    match args {
        [] => Ok(Val::Bool(false)),
        [v] => match truth(heap, frozen, *v) {
            Some(b) => Ok(Val::Bool(b)),
            None => Err(ValueStop::Raised),
        },
        _ => Err(ValueStop::Raised),
    }
}

/// `abs(a)`, of a number.
pub(crate) fn magnitude_of(
    _heap: &mut Heap,
    _frozen: &Frozen,
    args: &[Val],
) -> Result<Val, ValueStop>
    ensures { Answers (paired result _heap.new) (magnitude_of (seen _frozen.now _heap.old) args.now) }
{
    match only_number(args) {
        Some(n) => Ok(Val::Int(Number::of(magnitude(n)))),
        None => Err(ValueStop::Raised),
    }
}

/// `print(..)`, which gives `None`.
pub(crate) fn nothing_printed(
    _heap: &mut Heap,
    _frozen: &Frozen,
    _args: &[Val],
) -> Result<Val, ValueStop>
    ensures { Answers (paired result _heap.new) (nothing_printed (seen _frozen.now _heap.old) _args.now) }
{
    Ok(Val::None)
}

/// `ceil_log2(n)`.
pub(crate) fn ceil_log2(_heap: &mut Heap, _frozen: &Frozen, args: &[Val]) -> Result<Val, ValueStop>
    ensures { Answers (paired result _heap.new) (ceil_log2 (seen _frozen.now _heap.old) args.now) }
{
    let Some(n) = only_number(args) else {
        return Err(ValueStop::Raised);
    };
    match log_of(n) {
        Some(v) => Ok(v),
        None => Err(ValueStop::Raised),
    }
}

/// `bits_for(n)`.
pub(crate) fn bits_for(_heap: &mut Heap, _frozen: &Frozen, args: &[Val]) -> Result<Val, ValueStop>
    ensures { Answers (paired result _heap.new) (bits_for (seen _frozen.now _heap.old) args.now) }
{
    match only_number(args) {
        Some(n) => Ok(Val::Int(Number::of_u128(width_of(n) as u128))),
        None => Err(ValueStop::Raised),
    }
}

/// `str(a)`, of an integer or a string.
pub(crate) fn str_of(heap: &mut Heap, frozen: &Frozen, args: &[Val]) -> Result<Val, ValueStop>
    ensures { Answers (paired result heap.new) (str_of (seen frozen.now heap.old) args.now) }
{
    match only(args) {
        Some(v) => text_made(heap, frozen, v),
        None => Err(ValueStop::Raised),
    }
}

// The text of an integer or a string, as a new string.
fn text_made(heap: &mut Heap, frozen: &Frozen, v: Val) -> Result<Val, ValueStop>
    ensures { Answers (paired result heap.new) (text_made (seen frozen.now heap.old) (Some v)) }
{
    match v {
        Val::Int(n) => match int_text(heap.alloc(), n.int()) {
            Ok(text) => heap.new_text(frozen, text.as_str()),
            Err(_) => Err(ValueStop::NoMemory),
        },
        Val::Str(x) => match text_again(heap, frozen, x) {
            Ok(text) => heap.new_text(frozen, text.as_str()),
            Err(_) => Err(ValueStop::NoMemory),
        },
        _ => Err(ValueStop::Raised),
    }
}

/// The text that a hole of a string shows for a value: of an integer its digits, of a string itself. There is none
/// for other values.
pub fn shown(heap: &Heap, frozen: &Frozen, v: Val) -> Result<Option<Text>, ValueStop>
    ensures { Answers result (Ok (shown_text (seen frozen.now heap.now) v)) }
{
    match v {
        Val::Int(n) => digits(heap, n.int()),
        Val::Str(x) => match text_again(heap, frozen, x) {
            Ok(text) => Ok(Some(text)),
            Err(_) => Err(ValueStop::NoMemory),
        },
        _ => Ok(None),
    }
}

// The decimal text of an integer.
fn digits(heap: &Heap, n: Int) -> Result<Option<Text>, ValueStop>
    ensures { Answers result (Ok (Some (int_text n))) }
{
    let Ok(digits) = int_text(heap.alloc(), n) else {
        return Err(ValueStop::NoMemory);
    };
    let mut text = Text::new(heap.alloc());
    match text.push(digits.as_str()) {
        Ok(()) => Ok(Some(text)),
        Err(_) => Err(ValueStop::NoMemory),
    }
}

// A string once more.
fn text_again(heap: &Heap, frozen: &Frozen, x: StrId) -> Result<Text, NoMemory>
    ensures { IfOk result (λ text. text ≡ text_at (seen frozen.now heap.now) x.0) }
{
    let mut text = Text::new(heap.alloc());
    text.push(heap.text(frozen, x))?;
    Ok(text)
}

// The decimal text of an integer.
fn int_text(alloc: Global, n: Int) -> Result<String, AllocError>
    ensures { IfOk result (λ text. string_bytes text ≡ int_text n) }
{
    format!(in alloc; "{n}")
}

// ---- `min`, `max`, `sum`

// Whether all are numbers.
fn all_numbers(row: &[Val]) -> bool
    ensures { result ≡ list_all is_number row.now }
{
    row.iter().all(|v| number_of(*v).is_some())
}

// The number of what is one.
fn worth(v: Val) -> Int
    ensures { result ≡ worth v }
{
    match number_of(v) {
        Some(n) => n,
        None => Int::of_u128(0),
    }
}

// Whether the first is to be taken before the second.
fn is_before(least: bool, v: Val, w: Val) -> bool
    ensures { result ≡ is_before least v w }
{
    if least {
        is_less(worth(v), worth(w))
    } else {
        is_less(worth(w), worth(v))
    }
}

// The first of two, where it is to be taken before the second.
fn better(least: bool, v: &Val, best: &Val) -> Val
    ensures { result ≡ (if is_before least v.now best.now then v.now else best.now) }
{
    if is_before(least, *v, *best) {
        *v
    } else {
        *best
    }
}

// The best of some numbers, the first of them at hand.
fn best_of(least: bool, first: Val, rest: &[Val]) -> Val
    ensures { result ≡ best_of (is_before least) first rest.now }
{
    let mut best = first;
    for v in rest {
        best = better(least, v, &best);
    }
    best
}

// The least of some numbers, or the greatest.
fn extreme(least: bool, row: &[Val]) -> Result<Val, ValueStop>
    ensures { result ≡ extreme least row.now }
{
    match row {
        [] => Err(ValueStop::Raised),
        [first, rest @ ..] => {
            if all_numbers(row) {
                Ok(best_of(least, *first, rest))
            } else {
                Err(ValueStop::Raised)
            }
        }
    }
}

// The sum of some numbers.
fn summed(start: Val, row: &[Val]) -> Result<Val, NumberStop>
    ensures { result ≡ summed start row.now }
{
    if !all_numbers(row) {
        return Err(NumberStop::Raised);
    }
    let mut sum = start;
    for v in row {
        match on_numbers(PyOp::Add, sum, *v) {
            Ok(next) => sum = next,
            Err(stop) => return Err(stop),
        }
    }
    Ok(sum)
}

// The least of the arguments or of the elements of the only one, or the greatest.
fn extreme_of(heap: &Heap, frozen: &Frozen, least: bool, args: &[Val]) -> Result<Val, ValueStop>
    ensures { Answers result (extreme_of least (seen frozen.now heap.now) args.now) }
{
    match args {
        [v] => match elements(heap, frozen, *v) {
            Ok(row) => extreme(least, row.as_slice()),
            Err(stop) => Err(stop),
        },
        _ => extreme(least, args),
    }
}

/// `min(a)` and `min(a, b, ..)`, of numbers.
pub(crate) fn least_of(heap: &mut Heap, frozen: &Frozen, args: &[Val]) -> Result<Val, ValueStop>
    ensures { Answers (paired result heap.new) (least_of (seen frozen.now heap.old) args.now) }
{
    extreme_of(heap, frozen, true, args)
}

/// `max(a)` and `max(a, b, ..)`, of numbers.
pub(crate) fn greatest_of(heap: &mut Heap, frozen: &Frozen, args: &[Val]) -> Result<Val, ValueStop>
    ensures { Answers (paired result heap.new) (greatest_of (seen frozen.now heap.old) args.now) }
{
    extreme_of(heap, frozen, false, args)
}

// The sum of the elements of a value, from a number on.
fn sum_from(heap: &Heap, frozen: &Frozen, v: Val, start: &Val) -> Result<Val, ValueStop>
    ensures { Answers (paired result heap.now) (sum_from (seen frozen.now heap.now) v start.now) }
{
    if number_of(*start).is_none() {
        return Err(ValueStop::Raised);
    }
    match elements(heap, frozen, v) {
        Ok(row) => match summed(*start, row.as_slice()) {
            Ok(sum) => Ok(sum),
            Err(NumberStop::Raised) => Err(ValueStop::Raised),
            Err(NumberStop::Width) => Err(ValueStop::Width),
        },
        Err(stop) => Err(stop),
    }
}

/// `sum(a)` and `sum(a, start)`, of numbers.
pub(crate) fn sum_of(heap: &mut Heap, frozen: &Frozen, args: &[Val]) -> Result<Val, ValueStop>
    ensures { Answers (paired result heap.new) (sum_of (seen frozen.now heap.old) args.now) }
{
    match args {
        [v] => sum_from(heap, frozen, *v, &Val::Int(Number::of_u128(0))),
        [v, start] => sum_from(heap, frozen, *v, start),
        _ => Err(ValueStop::Raised),
    }
}
