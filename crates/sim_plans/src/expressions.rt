// The integer of an expression, from those of the expressions that it names.
ghost use Rattle.std.specs.Prelude.{◌≡◌, ◌<◌, ◌≤◌, ◌*◌, ◌^◌, ◌≢◌, false, [], length, map, pos, slice_index_or, unsigned_abs, IfOk};
ghost use Rattle.std.specs.List.{list_any};
ghost use Rattle.amh_bits.specs.Integers.{floor_quotient};
ghost use Rattle.amh_bits.specs.Patterns.{pattern};
ghost use Rattle.shape_rules.specs.Operators.{truth};
ghost use Rattle.design_ir.specs.Named.{AllBelow};
ghost use Rattle.design_ir.specs.Values.{form, num, value_step, bits_from, joined, picked, matches, total_width};
ghost use Rattle.design_ir.proofs.NumbersFit.{FitsSignals};
ghost use Rattle.sim_plans.specs.Reading.{AreNumbers, IsReady};

use amh_bits::{Bits, Int};
use amh_host::NoMemory;
use design_ir::{Design, Expr, ExprId, Exprs, Ids, Patterns};
use shape_rules::{Shape, compute};
use std::alloc::Global;

/// What the integer of an expression comes to.
pub fn value(design: &Design, env: &[Int], nums: &[Int], e: &Expr) -> Int
    requires ready { IsReady design.now.pool env.now nums.now e.now }
    ensures { result ≡ value_step (form design.now.pool) env.now (λ k. slice_index_or nums.now k (pos 0)) e.now }
{
    match e {
        Expr::Const { value, .. } => *value,
        Expr::Sig(s) => env[s.0 as usize],
        Expr::Unary { op, a } => {
            compute(
                *op,
                design.shape(*a),
                at(nums, *a),
                no_bits(),
                Int::of_u128(0),
            )
        }
        Expr::Binary { op, a, b } => compute(
            *op,
            design.shape(*a),
            at(nums, *a),
            design.shape(*b),
            at(nums, *b),
        ),
        Expr::Mux { s, a, b } => {
            if at(nums, *s).size == 0 {
                at(nums, *b)
            } else {
                at(nums, *a)
            }
        }
        Expr::Slice { a, low, width } => {
            Int::of_u128(low_bits(at(nums, *a).shr(*low as u32), *width))
        }
        Expr::Cat(items) => Int::of_u128(joined(design, nums, items)),
        Expr::Part {
            a,
            offset,
            width,
            stride,
        } => {
            let bits = part(at(nums, *a), at(nums, *offset), *stride);
            Int::of_u128(low_bits(bits, *width))
        }
        Expr::Pick { index, items } => picked(nums, items, at(nums, *index)),
        Expr::Cast { a, signed } => at(nums, *a).wrap(design.shape(*a).width, *signed),
        Expr::Matches { a, patterns } => {
            truth(matched(patterns, low_bits(at(nums, *a), design.shape(*a).width)))
        }
        Expr::Reset { .. } => Int::of_u128(0),
    }
}

// The integer of an earlier expression.
fn at(nums: &[Int], e: ExprId) -> Int
    requires { e.0 < length nums.now }
    ensures { result ≡ slice_index_or nums.now e.0 (pos 0) }
{
    nums[e.0 as usize]
}

// The shape of the operand that an operator of one operand does not have.
fn no_bits() -> Shape
    ensures { result ≡ record { width = 0; signed = false } }
{
    Shape {
        width: 0,
        signed: false,
    }
}

// So many low bits, as a number.
fn low_bits(n: Int, width: u8) -> u128
    requires { width ≤ 128 }
    ensures { result ≡ pattern width n }
{
    n.to_bits(width).bits
}

// The integer from bit `offset * stride` on. Past 128 bits only the sign is left.
#[tactic(auto, using(amh_bits::proofs::Masks::far))]
fn part(n: Int, offset: Int, stride: u8) -> Int
    ensures { result ≡ floor_quotient n (2 ^ (unsigned_abs offset * stride)) }
{
    if let Some(by) = offset.size.checked_mul(stride as u128) {
        if by < 128 {
            return n.shr(by as u32);
        }
    }
    if n.negative {
        Int::of_i128(-1)
    } else {
        Int::of_i128(0)
    }
}

// How far an integer is from 0.
pub fn size_of(n: Int) -> u128
    ensures { result ≡ unsigned_abs n }
{
    n.size
}

// The patterns of expressions one above the other.
fn joined(design: &Design, nums: &[Int], items: &Ids) -> u128
    requires there { AllBelow (length nums.now) items.now }
    requires pool { length nums.now ≤ length design.now.pool.exprs }
    requires narrow { total_width (form design.now.pool) items.now ≤ 128 }
    ensures { result ≡ joined (form design.now.pool) (λ k. slice_index_or nums.now k (pos 0)) items.now }
{
    let all = items.as_slice();
    let mut bits = Bits { width: 0, bits: 0 };
    let mut left = all.len();
    while left > 0 {
        left -= 1;
        let low = at(nums, all[left]).to_bits(design.shape(all[left]).width);
        bits = match Bits::concat(low, bits) {
            Ok(more) => more,
            Err(_) => unreachable!(),
        };
    }
    bits.bits
}

// The item with this index, past the end the last one.
fn picked(nums: &[Int], items: &Ids, index: Int) -> Int
    requires some { items.now ≢ [] }
    requires there { AllBelow (length nums.now) items.now }
    ensures { result ≡ picked (pos 0) (map (λ e. slice_index_or nums.now e.0 (pos 0)) items.now) (unsigned_abs index) }
{
    let last = items.len() - 1;
    let place = size_of(index).min(last as u128) as usize;
    at(nums, *items.get(place))
}

// 1 where the test holds.
fn truth(holds: bool) -> Int
    ensures { result ≡ truth holds }
{
    Int::of_u128(holds as u128)
}

// Whether one of the patterns matches.
fn matched(patterns: &Patterns, bits: u128) -> bool
    ensures { result ≡ list_any (λ p. matches p bits) patterns.now }
{
    patterns.as_slice().iter().any(|p| p.mask & bits == p.bits)
}
