// The parts of specs: bits of wires, and constants.
ghost use Rattle.std.specs.Prelude.{◌≡◌, ◌++◌, ◌≤◌, IfOk, OnOk, replicate, false};
ghost use Rattle.rtlil_text.specs.declared.sig.SigPart.TheVariants as parts;
ghost use Rattle.rtlil_text.specs.Cells.{number_bits};
ghost use Rattle.netlist_laws.specs.Operands.{wire_part, const_part, const_spec, filling, at_width};

use crate::ids::copied;
use amh_bits::Int;
use amh_host::{Items, NoMemory};
use rtlil_text::{RtlBits, SigPart, SigSpec};
use shape_rules::Shape;
use std::alloc::Global;
use std::marker::Model;

/// A width of any size, and whether the highest bit counts as minus.
#[derive(Clone, Copy)]
pub struct Form {
    pub width: u32,
    pub signed: bool,
}

impl Model for Form {
    ghost use Rattle.shape_rules.specs.Forms as forms;

    ghost Value = { forms.Form };

    ghost view = { λ a. record { width = a.width; signed = a.signed } };

    ghost inverse = { λ f. record { width = f.width; signed = f.signed } };
}

impl Form {
    /// The same shape.
    pub fn of(shape: Shape) -> Form
        ensures { result ≡ shape }
    {
        Form {
            width: shape.width as u32,
            signed: shape.signed,
        }
    }
}

/// The low bits of a number.
pub fn number_bits(alloc: Global, width: u8, number: u128) -> Result<RtlBits, NoMemory>
    ensures { IfOk result (λ bits. bits ≡ number_bits width number) }
{
    let mut bits = Items::new(alloc);
    let mut rest = number;
    for i in 0..width {
        bits.push(rest % 2 == 1)?;
        rest /= 2;
    }
    Ok(bits)
}

/// Some zeros.
pub fn zeros(alloc: Global, count: u32) -> Result<RtlBits, NoMemory>
    ensures { IfOk result (λ bits. bits ≡ replicate count false) }
{
    let mut bits = Items::new(alloc);
    for i in 0..count {
        bits.push(false)?;
    }
    Ok(bits)
}

/// A spec of a constant, which has no part where there are no bits.
#[tactic(auto, using(crate::proofs::LowerParts::const_part_some))]
pub fn const_part(alloc: Global, bits: RtlBits) -> Result<SigSpec, NoMemory>
    ensures { IfOk result (λ spec. spec ≡ const_part bits) }
{
    let mut spec = Items::new(alloc);
    if bits.len() > 0 {
        spec.push(SigPart::Const(bits))?;
    }
    Ok(spec)
}

/// Adds a constant below the bits of a spec.
#[tactic(auto, using(crate::proofs::LowerParts::const_part_some, crate::proofs::LowerParts::const_part_none))]
pub fn push_const_part(bits: RtlBits, spec: &mut SigSpec) -> Result<(), NoMemory>
    ensures { OnOk result (spec.new ≡ spec.old ++ const_part bits) }
{
    if bits.len() == 0 {
        return Ok(());
    }
    spec.push(SigPart::Const(bits))
}

/// A number as a constant.
pub fn const_spec(alloc: Global, width: u8, number: Int) -> Result<SigSpec, NoMemory>
    requires { width ≤ 128 }
    ensures { IfOk result (λ spec. spec ≡ const_spec width number) }
{
    let bits = number_bits(alloc, width, number.to_bits(width).bits)?;
    const_part(alloc, bits)
}

/// Bits of a wire, which have no part where there are none.
pub fn wire_part(alloc: Global, id: &str, low: u32, width: u32) -> Result<SigSpec, NoMemory>
    ensures { IfOk result (λ spec. spec ≡ wire_part id.now low width) }
{
    let mut spec = Items::new(alloc);
    push_wire_part(alloc, id, low, width, &mut spec)?;
    Ok(spec)
}

/// Adds bits of a wire below those of a spec.
#[tactic(auto, using(crate::proofs::LowerParts::wire_part_some, crate::proofs::LowerParts::wire_part_none))]
pub fn push_wire_part(
    alloc: Global,
    id: &str,
    low: u32,
    width: u32,
    spec: &mut SigSpec,
) -> Result<(), NoMemory>
    ensures { OnOk result (spec.new ≡ spec.old ++ wire_part id.now low width) }
{
    if width == 0 {
        return Ok(());
    }
    let id = copied(alloc, id)?;
    spec.push(SigPart::Wire { id, low, width })
}

// One bit of a wire, so many times.
fn repeated(alloc: Global, id: &str, low: u32, count: u32) -> Result<SigSpec, NoMemory>
    ensures { IfOk result (λ spec. spec ≡ replicate count (parts.Wire id.now low 1)) }
{
    let mut spec = Items::new(alloc);
    for i in 0..count {
        let id = copied(alloc, id)?;
        spec.push(SigPart::Wire { id, low, width: 1 })?;
    }
    Ok(spec)
}

// What stands above the highest bit of a number: its sign, or zeros.
fn filling(alloc: Global, id: &str, form: Form, count: u32) -> Result<SigSpec, NoMemory>
    ensures { IfOk result (λ spec. spec ≡ filling id.now form count) }
{
    if form.signed {
        repeated(alloc, id, form.width.saturating_sub(1), count)
    } else {
        let bits = zeros(alloc, count)?;
        const_part(alloc, bits)
    }
}

/// The number of a wire of a shape at a width: its low bits, or all of them behind its sign or zeros.
pub fn at_width(alloc: Global, id: &str, form: Form, width: u32) -> Result<SigSpec, NoMemory>
    ensures { IfOk result (λ spec. spec ≡ at_width id.now form width) }
{
    if width < form.width {
        return wire_part(alloc, id, 0, width);
    }
    let mut spec = filling(alloc, id, form, width - form.width)?;
    push_wire_part(alloc, id, 0, form.width, &mut spec)?;
    Ok(spec)
}
