// Writing bits of signals.
ghost use Rattle.std.specs.Prelude.{◌≡◌, ◌+◌, ◌<◌, ◌≤◌, ◌^◌, length};
ghost use Rattle.amh_bits.specs.Patterns.{number, pattern, nat_bit};
ghost use Rattle.design_ir.specs.Put.{with_bit, put_bit, put_place};
ghost use Rattle.design_ir.specs.Values.{signal_form};
ghost use Rattle.sim_plans.specs.Reading.{IsInside};

use amh_bits::{Bits, Int};
use design_ir::{Design, SigId};
use shape_rules::Shape;
use std::marker::Model;

/// One bit of a signal.
#[derive(Clone, Copy, PartialEq, Eq, Drop)]
pub struct SignalBit {
    pub sig: SigId,
    pub index: u8,
}

impl Model for SignalBit {
    ghost use Rattle.design_ir.specs.Targets.{Bit};

    ghost Value = { Bit };

    ghost view = { λ a. record { sig = a.sig.0; index = a.index } };

    ghost inverse = { λ b. record { sig = record { 0 = b.sig }; index = b.index } };
}

// A bit of a vector, 0 past its width.
pub fn bit_at(bits: Bits, i: u32) -> u128
    requires { i < 128 }
    ensures { result ≡ nat_bit bits.bits i }
{
    (bits.bits >> i) % 2
}

// What is written to no bit is dropped.
pub fn put_place(design: &Design, place: Option<SignalBit>, bit: u128, cur: &mut [Int])
    requires bit { bit < 2 }
    requires inside { IsInside design.now.pool.signals place }
    requires signals { length cur.old ≡ length design.now.pool.signals }
    ensures { cur.new ≡ put_place design.now.pool place bit cur.old }
{
    if let Some(place) = place {
        put_bit(design, place, bit, cur);
    }
}

// Writes one bit of a signal.
fn put_bit(design: &Design, place: SignalBit, bit: u128, cur: &mut [Int])
    requires bit { bit < 2 }
    requires there { place.sig < length design.now.pool.signals }
    requires inside { place.index < (signal_form design.now.pool.signals place.sig).width }
    requires signals { length cur.old ≡ length design.now.pool.signals }
    ensures { cur.new ≡ put_bit design.now.pool place bit cur.old }
{
    let shape = design.sig_at(place.sig).shape;
    let s = place.sig.0 as usize;
    cur[s] = with_bit_of(cur[s], shape, place.index, bit);
}

// A number of a shape with one bit written.
fn with_bit_of(n: Int, shape: Shape, index: u8, bit: u128) -> Int
    requires bit { bit < 2 }
    requires inside { index < shape.width }
    ensures { result ≡ number shape.signed shape.width (with_bit index bit (pattern shape.width n)) }
{
    let width = shape.width;
    let old = n.to_bits(width);
    let bits = with_bit(index, bit, old.bits, width);
    Int::of_bits(Bits { width, bits }, shape.signed)
}

// Bits of a width with one of them written.
fn with_bit(index: u8, bit: u128, bits: u128, width: u8) -> u128
    requires bit { bit < 2 }
    requires inside { index < width }
    requires narrow { width ≤ 128 }
    requires fits { bits < 2 ^ width }
    ensures written { result ≡ with_bit index bit bits }
    ensures within { result < 2 ^ width }
{
    let low = power(index);
    let above = (bits >> index) >> 1;
    (above * 2 + bit) * low + bits % low
}

fn power(index: u8) -> u128
    requires { index < 128 }
    ensures { result ≡ 2 ^ index }
{
    1 << index
}
