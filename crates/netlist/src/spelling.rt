// Specs of bits, where neighbours of one wire stand together.
ghost use Rattle.std.specs.Prelude.{◌≡◌, ◌<◌, ◌≤◌, ℕ, List, map, length, IfOk};
ghost use Rattle.design_ir.specs.Designs.{IsDesign};
ghost use Rattle.netlist_laws.specs.Module.{wire_id};
ghost use Rattle.netlist_laws.specs.Spelled.{spec_of};
ghost use Rattle.netlist_cells.specs.Places.{AreColumnPlaces};
ghost use Rattle.netlist.specs.Tables.{source_of, joins, bit_of, run_of, source_id, source_place};

use crate::sources::BitSource;
use amh_host::{Items, NoMemory, Text};
use design_ir::{Design, SigId};
use netlist_cells::ids::{signal_id, value_id};
use netlist_cells::tables::wire_id;
use rtlil_text::{RtlBits, SigPart, SigSpec};
use std::alloc::Global;

// The id of a signal's wire; a number that no signal has is hidden.
#[tactic(auto, using(crate::proofs::LowerRuns::hidden_id))]
fn net_id(alloc: Global, design: &Design, columns: &[Option<u32>], s: u32) -> Result<Text, NoMemory>
    requires rules { IsDesign design.now }
    requires columns { AreColumnPlaces design.now columns.now }
    ensures { IfOk result (λ id. id ≡ wire_id design.now s) }
{
    if s < design.signals() {
        return wire_id(alloc, design, columns, SigId(s));
    }
    signal_id(alloc, s)
}

// The id of the wire of a bit; a constant has none.
fn source_id(
    alloc: Global,
    design: &Design,
    columns: &[Option<u32>],
    bit: BitSource,
) -> Result<Text, NoMemory>
    requires rules { IsDesign design.now }
    requires columns { AreColumnPlaces design.now columns.now }
    ensures { IfOk result (λ id. id ≡ source_id (source_of (wire_id design.now) bit)) }
{
    match bit {
        BitSource::Constant(_) => Ok(Text::new(alloc)),
        BitSource::Signal { sig, .. } => net_id(alloc, design, columns, sig),
        BitSource::Value { expr, .. } => value_id(alloc, expr),
    }
}

// The place of a bit in its wire, and `None` for a constant.
fn place(bit: BitSource) -> Option<u32>
    ensures { (ids : ℕ → List ℕ) → source_place (source_of ids bit) ≡ result }
{
    match bit {
        BitSource::Constant(_) => None,
        BitSource::Signal { bit, .. } | BitSource::Value { bit, .. } => Some(bit),
    }
}

// Whether a bit joins the part of the one above it.
#[tactic(auto, using(crate::proofs::LowerRuns::joins_none, crate::proofs::LowerRuns::joins_net))]
fn joins(
    alloc: Global,
    design: &Design,
    columns: &[Option<u32>],
    low: BitSource,
    high: BitSource,
) -> Result<bool, NoMemory>
    requires rules { IsDesign design.now }
    requires columns { AreColumnPlaces design.now columns.now }
    ensures { IfOk result (λ b. b ≡ joins (source_of (wire_id design.now) low) (source_of (wire_id design.now) high)) }
{
    match (place(low), place(high)) {
        (None, None) => Ok(true),
        (Some(i), Some(j)) => {
            let a = source_id(alloc, design, columns, low)?;
            let b = source_id(alloc, design, columns, high)?;
            Ok(a.is(b.as_str()) && i as u64 + 1 == j as u64)
        }
        _ => Ok(false),
    }
}

// The bit of a constant.
fn bit_of(x: BitSource) -> bool
    ensures { (ids : ℕ → List ℕ) → result ≡ bit_of (source_of ids x) }
{
    match x {
        BitSource::Constant(b) => b,
        BitSource::Signal { .. } | BitSource::Value { .. } => false,
    }
}

// The bits of constants.
fn constants(alloc: Global, run: &[BitSource]) -> Result<RtlBits, NoMemory>
    ensures { IfOk result (λ bits. (ids : ℕ → List ℕ) → bits ≡ map bit_of (map (source_of ids) run.now)) }
{
    let mut bits = Items::new(alloc);
    for x in run {
        bits.push(bit_of(*x))?;
    }
    Ok(bits)
}

// The part of bits that stand together.
fn part(
    alloc: Global,
    design: &Design,
    columns: &[Option<u32>],
    run: &[BitSource],
) -> Result<SigPart, NoMemory>
    requires rules { IsDesign design.now }
    requires columns { AreColumnPlaces design.now columns.now }
    requires some { 0 < length run.now }
    requires few { length run.now ≤ 128 }
    ensures { IfOk result (λ part. part ≡ run_of (map (source_of (wire_id design.now)) run.now)) }
{
    let lowest = run[0];
    match place(lowest) {
        None => Ok(SigPart::Const(constants(alloc, run)?)),
        Some(low) => Ok(SigPart::Wire {
            id: source_id(alloc, design, columns, lowest)?,
            low,
            width: run.len() as u32,
        }),
    }
}

/// The spec of these bits, the lowest first.
pub(crate) fn spec_of(
    alloc: Global,
    design: &Design,
    columns: &[Option<u32>],
    bits: &[BitSource],
) -> Result<SigSpec, NoMemory>
    requires rules { IsDesign design.now }
    requires columns { AreColumnPlaces design.now columns.now }
    requires few { length bits.now ≤ 128 }
    ensures { IfOk result (λ spec. spec ≡ spec_of (map (source_of (wire_id design.now)) bits.now)) }
{
    let mut spec = Items::new(alloc);
    let count = bits.len();
    if count == 0 {
        return Ok(spec);
    }
    let mut high = count;
    for j in 1..count {
        let low = count - j;
        if !joins(alloc, design, columns, bits[low - 1], bits[low])? {
            spec.push(part(alloc, design, columns, &bits[low..high])?)?;
            high = low;
        }
    }
    spec.push(part(alloc, design, columns, &bits[..high])?)?;
    Ok(spec)
}
