// The places that a slice takes, as Python counts them.
ghost use Rattle.std.specs.Prelude.{◌≡◌, ◌<◌, ◌≤◌, ◌++◌, pos, ◌-ℤ◌, OnOk, IfOk, IfSome, Some, int_lt, slice_get, []};
ghost use Rattle.std.specs.List.{cons_option};
ghost use Rattle.std.specs.Option.{option_and_then, option_map, unwrap_or};
ghost use Rattle.std.specs.Int.{int_min, int_max};
ghost use Rattle.py_values.specs.Numbers.{is_zero};
ghost use Rattle.py_values.specs.Ranges.{comes_before};
ghost use Rattle.py_builtins.specs.Indices.{part_of, step_of, low_place, high_place, part_place, part_or, first_place, last_place, item_at};
ghost use Rattle.value_acts.specs.Indices.{bits_below, bits_between, places_of, step_in, IsPlace};

use amh_bits::Int;
use amh_things::operand::{note_kept, number_of};
use lists::{Items, NoMemory};
use py_values::Val;
use std::alloc::Global;

/// From a place on by steps, before another place.
#[derive(Clone, Copy, Drop)]
pub struct Way {
    pub start: Int,
    pub stop: Int,
    pub step: Int,
}

// ---- the parts of a slice

// A part, where it is a number or absent.
fn part_of(v: &Val) -> Option<Option<Int>>
    ensures { result ≡ part_of v.now }
{
    match v {
        Val::None => Some(None),
        _ => match number_of(v) {
            Some(n) => Some(Some(n)),
            None => None,
        },
    }
}

fn step_of(part: Option<Int>) -> Option<Int>
    ensures { result ≡ step_of part }
{
    match part {
        Some(n) => { if n.size == 0 { None } else { Some(n) } }
        None => Some(Int::of_u128(1)),
    }
}

// The step that a value asks for.
fn step_in(v: &Val) -> Option<Int>
    ensures { result ≡ step_in v.now }
{
    match part_of(v) {
        Some(part) => step_of(part),
        None => None,
    }
}

// ---- places

fn low_place(step: Int) -> Int
    ensures { result ≡ low_place step }
{
    if step.negative {
        Int::of_i128(-1)
    } else {
        Int::of_u128(0)
    }
}

fn high_place(len: u8, step: Int) -> Int
    ensures { result ≡ high_place len step }
{
    if !step.negative {
        Int::of_u128(len as u128)
    } else if len == 0 {
        Int::of_i128(-1)
    } else {
        Int::of_u128(len as u128 - 1)
    }
}

// A place counted from the end, by how far it is from there; before the first one it is the lowest.
fn place_from_end(len: u8, step: Int, size: u128) -> Int
    requires { 0 < size }
    ensures { result ≡ int_max (pos len -ℤ pos size) (low_place step) }
{
    if size <= len as u128 {
        Int::of_u128(len as u128 - size)
    } else {
        low_place(step)
    }
}

fn is_less(a: Int, b: Int) -> bool
    ensures { result ≡ int_lt a b }
{
    a.less(b)
}

fn part_place(len: u8, step: Int, n: Int) -> Int
    ensures { result ≡ part_place len step n }
{
    if n.negative {
        return place_from_end(len, step, n.size);
    }
    let high = high_place(len, step);
    if is_less(n, high) { n } else { high }
}

fn part_or(absent: Int, len: u8, step: Int, part: Option<Int>) -> Int
    ensures { result ≡ part_or absent len step part }
{
    match part {
        Some(n) => part_place(len, step, n),
        None => absent,
    }
}

fn first_place(len: u8, step: Int) -> Int
    ensures { result ≡ first_place len step }
{
    if step.negative {
        high_place(len, step)
    } else {
        low_place(step)
    }
}

fn last_place(len: u8, step: Int) -> Int
    ensures { result ≡ last_place len step }
{
    if step.negative {
        low_place(step)
    } else {
        high_place(len, step)
    }
}

/// The way that a slice of so many bits takes.
pub fn way_of(width: u8, i: &Val, j: &Val, k: &Val) -> Option<Way>
    ensures places { places_of width i.now j.now k.now ≡ option_map (λ w. bits_between width w.start w.stop w.step) result }
    ensures step { IfSome result (λ w. step_in k.now ≡ Some w.step) }
    ensures start { IfSome result (λ w. IsPlace width w.step w.start) }
    ensures stop { IfSome result (λ w. IsPlace width w.step w.stop) }
{
    match (part_of(i), part_of(j), step_in(k)) {
        (Some(start), Some(stop), Some(step)) => Some(Way {
            start: part_or(first_place(width, step), width, step, start),
            stop: part_or(last_place(width, step), width, step, stop),
            step,
        }),
        _ => None,
    }
}

// ---- the bits of a way

// Whether one number stands before another on the way of the step.
fn comes_before(step: Int, n: Int, m: Int) -> bool
    ensures { result ≡ comes_before step n m }
{
    if step.size == 0 {
        false
    } else if step.negative {
        is_less(m, n)
    } else {
        is_less(n, m)
    }
}

// The bit at a place, where there is one.
fn bit_at(width: u8, n: Int) -> Option<u8>
    ensures { result ≡ item_at (bits_below width) n }
{
    if n.negative {
        None
    } else {
        bit_of(width, n.size)
    }
}

fn bit_of(width: u8, n: u128) -> Option<u8>
    ensures { result ≡ slice_get (bits_below width) n }
{
    if n < width as u128 {
        Some(n as u8)
    } else {
        None
    }
}

// Puts a bit behind others, where there is one.
fn push_bit(all: &mut Items<u8>, k: Option<u8>) -> Result<(), NoMemory>
    ensures { OnOk result (all.new ≡ all.old ++ cons_option k []) }
{
    match k {
        Some(k) => all.push(k),
        None => Ok(()),
    }
}

/// The bits of a way.
pub fn bits_between(alloc: Global, width: u8, way: Way) -> Result<Items<u8>, NoMemory>
    requires start { IsPlace width way.step way.start }
    requires stop { IsPlace width way.step way.stop }
    ensures { IfOk result (λ ks. ks ≡ bits_between width way.start way.stop way.step) }
{
    note_kept(way.start);
    note_kept(way.stop);
    let mut all = Items::new(alloc);
    let mut at = way.start;
    for _turn in 0..512u32 {
        if !comes_before(way.step, at, way.stop) {
            return Ok(all);
        }
        let Ok(()) = push_bit(&mut all, bit_at(width, at)) else {
            return Err(NoMemory);
        };
        match at.add(way.step) {
            Ok(next) => at = next,
            Err(_) => return Ok(all),
        }
    }
    Ok(all)
}
