// Where each bit of each signal comes from.
ghost use Rattle.std.specs.Prelude.{◌≡◌, ◌<◌, ◌*◌, ℕ, List, length, true, false, if◌then◌else◌, slice_get, unwrap_or, IfOk, OnOk};
ghost use Rattle.std.specs.List.{AllByRecursion};
ghost use Rattle.design_ir.specs.declared.ids.ExprId.{ExprId};
ghost use Rattle.design_ir.specs.PoolRules.{IsPool};
ghost use Rattle.design_ir.specs.Guards.{block_exprs};
ghost use Rattle.design_ir.specs.Designs.{IsDesign};
ghost use Rattle.rtlil_text.specs.Sources as net;
ghost use Rattle.netlist_laws.specs.Ids.{value_id};
ghost use Rattle.netlist_laws.specs.Latest.{Latest, places, source_at, given, latest_of, is_plain};
ghost use Rattle.netlist_laws.specs.Module.{expr_value, wire_id, init_bits};
ghost use Rattle.netlist_laws.specs.Plain.{ArePlain};
ghost use Rattle.netlist_cells.specs.Places.{ArePortPlaces};
ghost use Rattle.netlist.specs.Tables.{AreDrivers, source_of, Shows, at_start, latest_of_all, IsBitOf, IsRow};

use crate::drivers::is_clocked;
use crate::targets::{Bit, places};
use amh_host::NoMemory;
use design_ir::{Design, ExprId, Exprs, SigId, Stmt, Stmts};
use netlist_cells::parts::number_bits;
use rtlil_text::RtlBits;
use shape_rules::Shape;
use std::alloc::Global;

/// Where one bit comes from: a constant, or a bit of the wire of a signal or of an expression.
#[derive(Clone, Copy)]
pub(crate) enum BitSource {
    Constant(bool),
    Signal { sig: u32, bit: u32 },
    Value { expr: u32, bit: u32 },
}

// A bit of an expression: behind its end its sign, or 0.
fn source_at(value: ExprId, shape: Shape, k: usize) -> BitSource
    ensures { (ids : ℕ → List ℕ) → source_of ids result ≡ source_at (record { id = value_id value.0; form = shape }) k }
{
    if k < shape.width as usize {
        BitSource::Value {
            expr: value.0,
            bit: k as u32,
        }
    } else if shape.signed {
        BitSource::Value {
            expr: value.0,
            bit: (shape.width as u32).saturating_sub(1),
        }
    } else {
        BitSource::Constant(false)
    }
}

// Gives the bits of an expression to places, one each.
fn give(value: ExprId, shape: Shape, count: usize, places: &[Bit], bits: &mut Vec<BitSource>)
    requires places { AllByRecursion (IsBitOf count) places.now }
    requires long { length bits.old.items ≡ count * 128 }
    ensures given { (ids : ℕ → List ℕ) (latest : Latest) → Shows ids count bits.old.items latest → Shows ids count bits.new.items (given (record { id = value_id value.0; form = shape }) places.now 0 latest) }
    ensures long { length bits.new.items ≡ length bits.old.items }
{
    for (k, b) in places.iter().enumerate() {
        bits[b.sig as usize * 128 + b.index as usize] = source_at(value, shape, k);
    }
}

// Gives the bits of a target the bits of a value.
#[tactic(auto, using(crate::proofs::LowerStarts::places_bits))]
fn assign(
    alloc: Global,
    design: &Design,
    target: ExprId,
    value: ExprId,
    bits: &mut Vec<BitSource>,
) -> Result<(), NoMemory>
    requires pool { IsPool design.now.pool }
    requires target { target.0 < length design.now.pool.exprs }
    requires value { value.0 < length design.now.pool.exprs }
    requires long { length bits.old.items ≡ length design.now.pool.signals * 128 }
    ensures given { OnOk result ((ids : ℕ → List ℕ) (latest : Latest) → Shows ids (length design.now.pool.signals) bits.old.items latest → Shows ids (length design.now.pool.signals) bits.new.items (given (expr_value design.now value.0) (places design.now.pool target.0) 0 latest)) }
    ensures long { OnOk result (length bits.new.items ≡ length bits.old.items) }
{
    let places = places(alloc, design, target)?;
    let count = design.signals() as usize;
    give(value, design.shape(value), count, places.as_slice(), bits);
    Ok(())
}

// Gives the bits that statements assign their sources, one statement after the other.
fn give_block(
    alloc: Global,
    design: &Design,
    body: &Stmts,
    bits: &mut Vec<BitSource>,
) -> Result<(), NoMemory>
    requires pool { IsPool design.now.pool }
    requires plain { is_plain design.now.pool body.now ≡ true }
    requires there { AllByRecursion (λ (e : ExprId). e.0 < length design.now.pool.exprs) (block_exprs body.now) }
    requires long { length bits.old.items ≡ length design.now.pool.signals * 128 }
    ensures given { OnOk result ((ids : ℕ → List ℕ) (latest : Latest) → Shows ids (length design.now.pool.signals) bits.old.items latest → Shows ids (length design.now.pool.signals) bits.new.items (latest_of design.now.pool (expr_value design.now) body.now latest)) }
    ensures long { OnOk result (length bits.new.items ≡ length bits.old.items) }
{
    for s in body.as_slice() {
        match s {
            Stmt::Assign { target, value, .. } => assign(alloc, design, *target, *value, bits)?,
            Stmt::Choose(_) => {}
        }
    }
    Ok(())
}

// Gives the bits that all processes assign their sources.
fn give_processes(alloc: Global, design: &Design, bits: &mut Vec<BitSource>) -> Result<(), NoMemory>
    requires pool { IsPool design.now.pool }
    requires rules { IsDesign design.now }
    requires plain { ArePlain design.now }
    requires long { length bits.old.items ≡ length design.now.pool.signals * 128 }
    ensures { OnOk result ((ids : ℕ → List ℕ) (latest : Latest) → Shows ids (length design.now.pool.signals) bits.old.items latest → Shows ids (length design.now.pool.signals) bits.new.items (latest_of_all design.now design.now.processes latest)) }
{
    for p in design.processes().as_slice() {
        give_block(alloc, design, &p.body, bits)?;
    }
    Ok(())
}

// ---- before any statement

/// The bits of a signal's first number.
pub(crate) fn init_bits(alloc: Global, design: &Design, s: SigId) -> Result<RtlBits, NoMemory>
    requires { s.0 < length design.now.pool.signals }
    ensures { IfOk result (λ bits. bits ≡ init_bits design.now s.0) }
{
    let sig = design.sig_at(s);
    let width = sig.shape.width;
    number_bits(alloc, width, sig.init.to_bits(width).bits)
}

// Where a bit of a signal comes from before any statement.
fn first_source(s: SigId, clocked: bool, init: &RtlBits, i: u32) -> BitSource
    ensures { (ids : ℕ → List ℕ) → source_of ids result ≡ (if clocked then net.Net (ids s.0) i else net.Constant (unwrap_or (slice_get init.now i) false)) }
{
    if clocked {
        BitSource::Signal { sig: s.0, bit: i }
    } else if (i as usize) < init.len() {
        BitSource::Constant(*init.get(i as usize))
    } else {
        BitSource::Constant(false)
    }
}

// The first sources of one signal.
fn row(alloc: Global, design: &Design, s: SigId, clocked: bool) -> Result<Vec<BitSource>, NoMemory>
    requires { s.0 < length design.now.pool.signals }
    ensures { IfOk result (λ row. IsRow design.now clocked s.0 128 row.items) }
{
    let init = init_bits(alloc, design, s)?;
    let mut row = Vec::new(alloc);
    for i in 0..128 {
        row.push(first_source(s, clocked, &init, i))?;
    }
    Ok(row)
}

// The first sources of all signals.
fn start(
    alloc: Global,
    design: &Design,
    ports: &[Option<u32>],
    drivers: &[Option<u32>],
) -> Result<Vec<BitSource>, NoMemory>
    requires rules { IsDesign design.now }
    requires ports { ArePortPlaces design.now ports.now }
    requires drivers { AreDrivers design.now drivers.now }
    ensures { IfOk result (λ bits. Shows (wire_id design.now) (length design.now.pool.signals) bits.items (at_start design.now)) }
{
    let mut bits = Vec::new(alloc);
    for i in 0..design.signals() {
        let s = SigId(i);
        let clocked = is_clocked(design, ports, drivers, s);
        let mut more = row(alloc, design, s, clocked)?;
        bits.append(&mut more)?;
    }
    Ok(bits)
}

/// The last sources of the bits of all signals, 128 for each signal.
pub(crate) fn sources(
    alloc: Global,
    design: &Design,
    ports: &[Option<u32>],
    drivers: &[Option<u32>],
) -> Result<Vec<BitSource>, NoMemory>
    requires pool { IsPool design.now.pool }
    requires rules { IsDesign design.now }
    requires plain { ArePlain design.now }
    requires ports { ArePortPlaces design.now ports.now }
    requires drivers { AreDrivers design.now drivers.now }
    ensures { IfOk result (λ bits. Shows (wire_id design.now) (length design.now.pool.signals) bits.items (latest_of_all design.now design.now.processes (at_start design.now))) }
{
    let mut bits = start(alloc, design, ports, drivers)?;
    give_processes(alloc, design, &mut bits)?;
    Ok(bits)
}
