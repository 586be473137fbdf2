// Sets of places of a target: a place is in the set where its bit of the number is 1.
ghost use Rattle.std.specs.Prelude.{◌≡◌, ℕ, ◌+◌, ◌-◌, ◌*◌, ◌<◌, ◌≤◌, ◌==◌, ◌&&◌, nat_lt, nat_le, true};
ghost use Rattle.comb_graph.specs.Sets.{has, spread};

use crate::spans::Span;

/// The set of one place.
pub fn only(place: u8) -> u128
    requires { place < 128 }
    ensures { (k : ℕ) → has result k ≡ (place == k) }
{
    1 << place
}

/// The places so many higher.
pub fn up(set: u128, by: u8) -> u128
    requires { (k : ℕ) → has set k ≡ true → by + k < 128 }
    ensures { (k : ℕ) → has result k ≡ (nat_le by k && has set (k - by)) }
{
    if by >= 128 { 0 } else { set << by }
}

/// The places so many lower.
pub fn down(set: u128, by: u8) -> u128
    ensures { (k : ℕ) → has result k ≡ has set (by + k) }
{
    if by >= 128 { 0 } else { set >> by }
}

/// The places below a width.
pub fn below(set: u128, width: u8) -> u128
    ensures { (k : ℕ) → has result k ≡ (nat_lt k width && has set k) }
{
    if width >= 128 {
        set
    } else {
        set % (1 << width)
    }
}

// The places from which a number of an offset leads into the set.
fn shifted(set: u128, number: u128, stride: u8) -> u128
    ensures { (k : ℕ) → has result k ≡ has set (number * stride + k) }
{
    if stride == 0 {
        return set;
    }
    if number >= 128 {
        return 0;
    }
    let by = number as u16 * stride as u16;
    if by >= 128 { 0 } else { down(set, by as u8) }
}

/// The places from which some number of an offset leads into a set of places below a width.
pub fn spread(set: u128, offset: Span, wide: u8, stride: u8) -> u128
    requires { offset.least ≤ offset.greatest }
    ensures { (k : ℕ) → has result k ≡ spread offset wide stride (has set) k }
{
    let further = (offset.greatest - offset.least).min(wide as u128);
    let mut all = 0;
    for i in 0..further + 1 {
        all |= shifted(set, offset.least + i, stride);
    }
    all
}
