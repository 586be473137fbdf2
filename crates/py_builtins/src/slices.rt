// Slices.
ghost use Rattle.std.specs.Prelude.{◌≡◌, ◌≤◌, ◌<◌, pos, ◌-ℤ◌, ◌++◌, [], length, encode_utf8_all, OnOk, Ok};
ghost use Rattle.std.specs.String.{string_bytes};
ghost use Rattle.std.specs.List.{cons_option};
ghost use Rattle.std.specs.Option.{option_and_then};
ghost use Rattle.std.specs.Str.{chars};
ghost use Rattle.std.specs.Int.{int_min, int_max};
ghost use Rattle.py_values.specs.declared.val.Val.{Val};
ghost use Rattle.py_heap.specs.declared.fresh.Fresh.TheVariants as fresh;
ghost use Rattle.py_heap.specs.Heaps.{seen};
ghost use Rattle.py_values.specs.Runs.{Answers};
ghost use Rattle.py_operators.specs.Spans.{span_count, span_numbers, numbers_from};
ghost use Rattle.py_builtins.specs.Indices.{part_of, step_of, cut_between, cut_of, low_place, high_place, part_place, part_or, first_place, last_place, cut_span, item_at, picked, cut_items, cut_from, slice_of};

use crate::indices::characters;
use amh_bits::Int;
use lists::{NoMemory, Text};
use py_heap::{Fresh, Frozen, Heap};
use py_operators::{span_count, span_number};
use py_values::{Span, Val, Vals, ValueStop, is_less, is_zero, number_of};
use std::alloc::Global;

/// The parts of a slice, and its step.
#[derive(Clone, Copy, Drop)]
pub(crate) struct Cut {
    pub(crate) start: Option<Int>,
    pub(crate) stop: Option<Int>,
    pub(crate) step: Int,
}

// ---- the parts

// A part, where it is a number or absent.
fn part_of(v: Val) -> Option<Option<Int>>
    ensures { result ≡ part_of v }
{
    match v {
        Val::None => Some(None),
        _ => match number_of(v) {
            Some(n) => Some(Some(n)),
            None => None,
        },
    }
}

fn step_of(part: Option<Int>) -> Option<Int>
    ensures { result ≡ step_of part }
{
    match part {
        Some(n) => { if is_zero(n) { None } else { Some(n) } }
        None => Some(Int::of_u128(1)),
    }
}

// The step that a value asks for.
fn step_in(v: Val) -> Option<Int>
    ensures { result ≡ option_and_then step_of (part_of v) }
{
    match part_of(v) {
        Some(part) => step_of(part),
        None => None,
    }
}

fn cut_of(i: Val, j: Val, k: Val) -> Option<Cut>
    ensures { result ≡ cut_of i j k }
{
    match (part_of(i), part_of(j), step_in(k)) {
        (Some(start), Some(stop), Some(step)) => Some(Cut { start, stop, step }),
        _ => None,
    }
}

// ---- the places

// The place before the first one that the step may lead to, or the first one.
fn low_place(step: Int) -> Int
    ensures { result ≡ low_place step }
{
    if step.negative {
        Int::of_i128(-1)
    } else {
        Int::of_u128(0)
    }
}

// The last place, or the one behind it.
fn high_place(len: usize, step: Int) -> Int
    ensures { result ≡ high_place len step }
{
    if !step.negative {
        Int::of_u128(len as u128)
    } else if len == 0 {
        Int::of_i128(-1)
    } else {
        Int::of_u128(len as u128 - 1)
    }
}

// A place counted from the end, by how far it is from there; before the first one it is the lowest.
fn place_from_end(len: usize, step: Int, size: u128) -> Int
    requires { 0 < size }
    ensures { result ≡ int_max (pos len -ℤ pos size) (low_place step) }
{
    if size <= len as u128 {
        Int::of_u128(len as u128 - size)
    } else {
        low_place(step)
    }
}

fn part_place(len: usize, step: Int, n: Int) -> Int
    ensures { result ≡ part_place len step n }
{
    if n.negative {
        return place_from_end(len, step, n.size);
    }
    let high = high_place(len, step);
    if is_less(n, high) { n } else { high }
}

fn part_or(absent: Int, len: usize, step: Int, part: Option<Int>) -> Int
    ensures { result ≡ part_or absent len step part }
{
    match part {
        Some(n) => part_place(len, step, n),
        None => absent,
    }
}

fn first_place(len: usize, step: Int) -> Int
    ensures { result ≡ first_place len step }
{
    if step.negative {
        high_place(len, step)
    } else {
        low_place(step)
    }
}

fn last_place(len: usize, step: Int) -> Int
    ensures { result ≡ last_place len step }
{
    if step.negative {
        low_place(step)
    } else {
        high_place(len, step)
    }
}

// The places of a slice.
fn cut_span(len: usize, c: &Cut) -> Span
    ensures { result ≡ cut_span len c.now }
{
    Span {
        start: part_or(first_place(len, c.step), len, c.step, c.start),
        stop: part_or(last_place(len, c.step), len, c.step, c.stop),
        step: c.step,
    }
}

// ---- the items

fn value_at(row: &[Val], n: Int) -> Option<Val>
    ensures { result ≡ item_at row.now n }
{
    if !n.negative && n.size < row.len() as u128 {
        Some(row[n.size as usize])
    } else {
        None
    }
}

fn character_at(cs: &[char], n: Int) -> Option<char>
    ensures { result ≡ item_at cs.now n }
{
    if !n.negative && n.size < cs.len() as u128 {
        Some(cs[n.size as usize])
    } else {
        None
    }
}

// Adds a value at the end of a row, where there is one.
fn push_value(all: &mut Vals, v: Option<Val>) -> Result<(), NoMemory>
    ensures { OnOk result (all.new ≡ all.old ++ cons_option v []) }
{
    match v {
        Some(v) => all.push(v),
        None => Ok(()),
    }
}

// Adds a character at the end of a text, where there is one.
fn push_character(all: &mut String, c: Option<char>) -> Result<(), NoMemory>
    ensures { OnOk result (string_bytes all.new ≡ string_bytes all.old ++ encode_utf8_all (cons_option c [])) }
{
    let Some(c) = c else {
        return Ok(());
    };
    match all.push(c) {
        Ok(()) => Ok(()),
        Err(_) => Err(NoMemory),
    }
}

// The values at the first places of a range.
fn picked_values(alloc: Global, row: &[Val], r: &Span, count: u128) -> Result<Vals, ValueStop>
    requires { count ≤ span_count r.now }
    ensures { Answers result (Ok (picked row.now (numbers_from count 0 r.now))) }
{
    let mut all = Vals::new(alloc);
    for i in 0..count {
        let Ok(()) = push_value(&mut all, value_at(row, span_number(r, i))) else {
            return Err(ValueStop::NoMemory);
        };
    }
    Ok(all)
}

// The characters at the first places of a range.
fn picked_characters(alloc: Global, cs: &[char], r: &Span, count: u128) -> Result<Text, ValueStop>
    requires { count ≤ span_count r.now }
    ensures { Answers result (Ok (encode_utf8_all (picked cs.now (numbers_from count 0 r.now)))) }
{
    let mut all = String::new(alloc);
    for i in 0..count {
        let Ok(()) = push_character(&mut all, character_at(cs, span_number(r, i))) else {
            return Err(ValueStop::NoMemory);
        };
    }
    let mut text = Text::new(alloc);
    match text.push(all.as_str()) {
        Ok(()) => Ok(text),
        Err(_) => Err(ValueStop::NoMemory),
    }
}

// A slice of a row.
fn cut_row(alloc: Global, row: &[Val], c: &Cut) -> Result<Vals, ValueStop>
    ensures { Answers result (Ok (cut_items row.now c.now)) }
{
    let r = cut_span(row.len(), c);
    match span_count(&r) {
        Some(count) => picked_values(alloc, row, &r, count),
        None => Err(ValueStop::NoMemory),
    }
}

// A slice of a text.
fn cut_text(alloc: Global, text: &str, c: &Cut) -> Result<Fresh, ValueStop>
    ensures { Answers result (Ok (fresh.Text (encode_utf8_all (cut_items (chars text.now) c.now)))) }
{
    let Ok(cs) = characters(alloc, text) else {
        return Err(ValueStop::NoMemory);
    };
    let r = cut_span(cs.len(), c);
    let Some(count) = span_count(&r) else {
        return Err(ValueStop::NoMemory);
    };
    match picked_characters(alloc, &cs, &r, count) {
        Ok(text) => Ok(Fresh::Text(text)),
        Err(_) => Err(ValueStop::NoMemory),
    }
}

// A slice of a value.
fn cut_from(heap: &Heap, frozen: &Frozen, a: Val, c: &Cut) -> Result<Fresh, ValueStop>
    ensures { Answers result (cut_from (seen frozen.now heap.now) a c.now) }
{
    match a {
        Val::Str(x) => cut_text(heap.alloc(), heap.text(frozen, x), c),
        Val::List(o) => match cut_row(heap.alloc(), heap.row(frozen, o), c) {
            Ok(row) => Ok(Fresh::List(row)),
            Err(_) => Err(ValueStop::NoMemory),
        },
        Val::Tuple(o) => match cut_row(heap.alloc(), heap.row(frozen, o), c) {
            Ok(row) => Ok(Fresh::Tuple(row)),
            Err(_) => Err(ValueStop::NoMemory),
        },
        _ => Err(ValueStop::Raised),
    }
}

/// `a[i:j:k]`, with `None` for a part that is absent.
pub(crate) fn slice_of(heap: &Heap, frozen: &Frozen, args: &[Val]) -> Result<Fresh, ValueStop>
    ensures { Answers result (slice_of (seen frozen.now heap.now) args.now) }
{
    match args {
        [a, i, j, k] => match cut_of(*i, *j, *k) {
            Some(c) => cut_from(heap, frozen, *a, &c),
            None => Err(ValueStop::Raised),
        },
        _ => Err(ValueStop::Raised),
    }
}
