// Patterns: what the bits of a value are matched with.
ghost use Rattle.std.specs.Prelude.{◌≡◌, ◌+◌, ◌-◌, ◌*◌, ◌^◌, ◌<◌, ◌≤◌, ◌++◌, length, bit_and, IfOk, IfSome, IsTrue, Some, None, if◌then◌else◌};
ghost use Rattle.std.specs.Option.{option_to_list};
ghost use Rattle.std.specs.List.{flat_map, list_all};
ghost use Rattle.amh_bits.specs.Patterns.{wrap, pattern};
ghost use Rattle.py_heap.specs.Heaps.{seen};
ghost use Rattle.amh_things.specs.Patterns.{is_blank, is_sign, is_any_sign, is_one_sign, is_text_pattern, text_pattern, is_held, number_patterns, is_pattern, patterns_of, patterns_meant, IsWithin, AreWithin};

use crate::operand::{number_of, wrapped};
use amh_bits::Int;
use design_ir::{Pattern, Patterns};
use lists::NoMemory;
use py_heap::{Frozen, Heap};
use py_values::Val;
use shape_rules::Shape;
use std::alloc::Global;

// ---- texts

fn is_any_sign(c: u8) -> bool
    ensures { result ≡ is_any_sign c }
{
    c == b'-'
}

fn is_one_sign(c: u8) -> bool
    ensures { result ≡ is_one_sign c }
{
    c == b'1'
}

fn is_sign(c: u8) -> bool
    ensures { result ≡ is_sign c }
{
    c == b'0' || is_one_sign(c) || is_any_sign(c)
}

fn is_blank(c: u8) -> bool
    ensures { result ≡ is_blank c }
{
    c == b' '
}

// Bits with one bit more below them.
fn with_bit(bits: u128, count: u8, bit: bool) -> u128
    requires few { count < 128 }
    requires below { bits < 2 ^ count }
    ensures value { result ≡ 2 * bits + (if bit then 1 else 0) }
    ensures below { result < 2 ^ (count + 1) }
{
    if bit { 2 * bits + 1 } else { 2 * bits }
}

// The pattern that a text is for so many bits.
fn text_pattern(width: u8, text: &[u8]) -> Option<Pattern>
    requires { width ≤ 128 }
    ensures pattern { result ≡ (if is_text_pattern width text.now then Some (text_pattern text.now) else None) }
    ensures within { IfSome result IsWithin }
{
    let mut count = 0u8;
    let mut mask = 0u128;
    let mut bits = 0u128;
    for c in text {
        if !is_blank(*c) {
            if !is_sign(*c) || count == width {
                return None;
            }
            mask = with_bit(mask, count, !is_any_sign(*c));
            bits = with_bit(bits, count, is_one_sign(*c));
            count += 1;
        }
    }
    if count == width {
        Some(Pattern { mask, bits })
    } else {
        None
    }
}

// ---- integers

fn is_held(shape: Shape, n: Int) -> bool
    ensures { result ≡ is_held shape n }
{
    wrapped(n, shape) == n
}

// So many bits that are all 1, which are those of -1.
fn ones(width: u8) -> u128
    requires { width ≤ 128 }
    ensures { result ≡ 2 ^ width - 1 }
{
    low_bits(Int::of_i128(-1), width)
}

// The low bits of an integer.
fn low_bits(n: Int, width: u8) -> u128
    requires { width ≤ 128 }
    ensures value { result ≡ pattern width n }
    ensures below { result < 2 ^ width }
{
    n.to_bits(width).bits
}

// The pattern of an integer: all bits are looked at.
#[tactic(auto, using(crate::proofs::PatternLaws::low_within))]
fn number_pattern(shape: Shape, n: Int) -> Pattern
    ensures pattern { result ≡ record { mask = 2 ^ shape.width - 1; bits = pattern shape.width n } }
    ensures within { IsWithin result }
{
    Pattern {
        mask: ones(shape.width),
        bits: low_bits(n, shape.width),
    }
}

// The patterns that an integer is: none where the shape does not hold it.
fn number_pattern_held(shape: Shape, n: Int) -> Option<Pattern>
    ensures pattern { option_to_list result ≡ number_patterns shape (Some n) }
    ensures within { IfSome result IsWithin }
{
    if is_held(shape, n) {
        Some(number_pattern(shape, n))
    } else {
        None
    }
}

// ---- values of the program

/// The heap of a machine, what stands before it, and the shape of the value that is matched.
#[derive(Clone, Copy, Drop)]
struct Matched<'a> {
    heap: &'a Heap,
    frozen: &'a Frozen,
    shape: Shape,
}

// Puts the patterns that a value is behind others, and says whether it is one.
fn put_patterns(of: &Matched<'_>, v: &Val, all: &mut Patterns) -> Result<bool, NoMemory>
    requires { AreWithin all.old }
    ensures is { IfOk result (λ is. is ≡ is_pattern (seen of.now.frozen.now of.now.heap.now) of.now.shape.width v.now) }
    ensures put { IfOk result (λ is. IsTrue is → all.new ≡ all.old ++ patterns_of (seen of.now.frozen.now of.now.heap.now) of.now.shape v.now) }
    ensures within { AreWithin all.new }
{
    let pattern = match v {
        Val::Str(x) => match text_pattern(of.shape.width, of.heap.text(of.frozen, *x).as_bytes()) {
            Some(pattern) => Some(pattern),
            None => return Ok(false),
        },
        _ => match number_of(v) {
            Some(n) => number_pattern_held(of.shape, n),
            None => return Ok(false),
        },
    };
    match pattern {
        Some(pattern) => match all.push(pattern) {
            Ok(()) => Ok(true),
            Err(_) => Err(NoMemory),
        },
        None => Ok(true),
    }
}

/// The patterns that values are for a value of this shape: none where one of them is no pattern.
pub fn patterns_meant(
    alloc: Global,
    heap: &Heap,
    frozen: &Frozen,
    shape: Shape,
    vals: &[Val],
) -> Result<Option<Patterns>, NoMemory>
    ensures meant { IfOk result (λ ps. ps ≡ patterns_meant (seen frozen.now heap.now) shape vals.now) }
    ensures within { IfOk result (λ ps. IfSome ps AreWithin) }
{
    let of = Matched {
        heap,
        frozen,
        shape,
    };
    let mut all = Patterns::new(alloc);
    for v in vals {
        match put_patterns(&of, v, &mut all) {
            Ok(is_pattern) => {
                if !is_pattern {
                    return Ok(None);
                }
            }
            Err(_) => return Err(NoMemory),
        }
    }
    Ok(Some(all))
}
