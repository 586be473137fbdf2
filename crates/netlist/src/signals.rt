// What drives the wire of each signal.
ghost use Rattle.std.specs.Prelude.{◌≡◌, ◌<◌, ◌+◌, ◌*◌, ◌^◌, [], true, map, length, option_map, is_some, Some, None, IfOk, OnOk};
ghost use Rattle.std.specs.List.{range_with_len};
ghost use Rattle.design_ir.specs.declared.process.DesignProcess.{DesignProcess};
ghost use Rattle.design_ir.specs.PoolRules.{IsPool};
ghost use Rattle.design_ir.specs.Designs.{IsDesign, IsDomain};
ghost use Rattle.rtlil_text.specs.Sources.{Constant};
ghost use Rattle.design_ir.specs.Values.{signal_form};
ghost use Rattle.netlist_laws.specs.Ids.{step_id};
ghost use Rattle.netlist_laws.specs.Cells.{mux_cell};
ghost use Rattle.netlist_laws.specs.Operands.{wire_part};
ghost use Rattle.netlist_laws.specs.Operators.{whole};
ghost use Rattle.netlist_laws.specs.Expressions.{and_also};
ghost use Rattle.netlist_laws.specs.Spelled.{spec_of};
ghost use Rattle.netlist_laws.specs.Module.{signal_value, init_bits, clock_of, reset_of, is_async, NoReset, AtEdges, AtOnce, heeding_of, link_to, register_cell, register_drawing, bits_at_last, driving_at, driving, driving_drawing, undriven, signal_drawing};
ghost use Rattle.netlist_laws.specs.Plain.{IsPlain};
ghost use Rattle.netlist.specs.Tables.{AreTables, last_spec, together};

use crate::drivers::{driver_of, driver_places};
use crate::read_signals::{is_marked, read_signals};
use crate::sources::{BitSource, init_bits, sources};
use crate::spelling::spec_of;
use crate::targets::signal_width;
use amh_host::NoMemory;
use design_ir::{Design, DomainId, SigId};
use memory_cells::Clock;
use netlist_cells::cells::{ClearEnds, clear_cell, mux_cell, register_cell};
use netlist_cells::drawing::{Drawing, inner_wire, linked, one_cell};
use netlist_cells::expressions::signal_value;
use netlist_cells::ids::step_id;
use netlist_cells::parts::{const_part, wire_part};
use netlist_cells::tables::{column_places, is_input, port_places};
use rtlil_text::{RtlCell, SigSpec};
use std::alloc::Global;

/// For each signal the places of its column, its port and its driver, whether a port of a memory gives it, and where its bits
/// come from.
#[derive(Drop)]
pub(crate) struct Tables {
    pub columns: Vec<Option<u32>>,
    pub ports: Vec<Option<u32>>,
    pub drivers: Vec<Option<u32>>,
    pub reads: Vec<bool>,
    pub bits: Vec<BitSource>,
}

impl Tables {
    /// The tables of a design.
    pub fn of(alloc: Global, design: &Design) -> Result<Tables, NoMemory>
        requires pool { IsPool design.now.pool }
        requires rules { IsDesign design.now }
        requires plain { IsPlain design.now }
        ensures { IfOk result (AreTables design.now) }
    {
        let columns = column_places(alloc, design)?;
        let ports = port_places(alloc, design)?;
        let drivers = driver_places(alloc, design)?;
        let reads = read_signals(alloc, design)?;
        let bits = sources(alloc, design, ports.as_slice(), drivers.as_slice())?;
        Ok(Tables {
            columns,
            ports,
            drivers,
            reads,
            bits,
        })
    }
}

// The last sources of a signal's bits.
fn last_bits(alloc: Global, design: &Design, t: &Tables, s: SigId) -> Result<SigSpec, NoMemory>
    requires pool { IsPool design.now.pool }
    requires rules { IsDesign design.now }
    requires tables { AreTables design.now t.now }
    requires there { s.0 < length design.now.pool.signals }
    ensures { IfOk result (λ spec. spec ≡ last_spec design.now s.0) }
{
    let from = s.0 as usize * 128;
    let to = from + signal_width(design, s) as usize;
    spec_of(
        alloc,
        design,
        t.columns.as_slice(),
        &t.bits.as_slice()[from..to],
    )
}

// A signal's first number as a spec.
#[tactic(auto, using(crate::proofs::LowerRuns::spelled_constants))]
fn init_spec(alloc: Global, design: &Design, s: SigId) -> Result<SigSpec, NoMemory>
    requires { s.0 < length design.now.pool.signals }
    ensures { IfOk result (λ spec. spec ≡ spec_of (map Constant (init_bits design.now s.0))) }
{
    const_part(alloc, init_bits(alloc, design, s)?)
}

// Gives a signal these bits.
fn link_to(
    alloc: Global,
    design: &Design,
    t: &Tables,
    s: SigId,
    right: SigSpec,
) -> Result<Drawing, NoMemory>
    requires tables { AreTables design.now t.now }
    requires there { s.0 < length design.now.pool.signals }
    ensures { IfOk result (λ d. d ≡ link_to design.now s.0 right) }
{
    let y = signal_value(alloc, design, t.columns.as_slice(), s)?;
    linked(alloc, &y, right)
}

// ---- registers

// The reset that a register heeds.
fn reset_of(design: &Design, s: SigId, d: DomainId) -> Option<SigId>
    requires there { s.0 < length design.now.pool.signals }
    requires domain { d.0 < length design.now.domains }
    ensures { option_map (λ r. r.0) result ≡ reset_of design.now s.0 d }
{
    if design.sig_at(s).reset_less {
        return None;
    }
    design.domain(d).rst
}

// Whether a domain's reset acts at once.
fn is_async(design: &Design, d: DomainId) -> bool
    requires domain { d.0 < length design.now.domains }
    ensures { result ≡ is_async design.now d }
{
    design.domain(d).async_reset
}

// The bits of a signal's wire.
pub(crate) fn whole_signal(
    alloc: Global,
    design: &Design,
    t: &Tables,
    s: SigId,
) -> Result<SigSpec, NoMemory>
    requires tables { AreTables design.now t.now }
    requires there { s.0 < length design.now.pool.signals }
    ensures { IfOk result (λ spec. spec ≡ whole (signal_value design.now s.0)) }
{
    signal_value(alloc, design, t.columns.as_slice(), s)?.whole(alloc)
}

// The clock of a domain, at the domain's active edge.
#[tactic(auto, using(crate::proofs::LowerDomains::clock_there))]
pub(crate) fn clock_of(
    alloc: Global,
    design: &Design,
    t: &Tables,
    d: DomainId,
) -> Result<Clock, NoMemory>
    requires rules { IsDesign design.now }
    requires tables { AreTables design.now t.now }
    requires domain { d.0 < length design.now.domains }
    ensures { IfOk result (λ clock. clock ≡ clock_of design.now d) }
{
    let domain = design.domain(d);
    Ok(Clock {
        bit: whole_signal(alloc, design, t, domain.clk)?,
        falling: domain.falling,
    })
}

// The bits of the wire with this number.
pub(crate) fn step_bits(alloc: Global, n: u128, width: u32) -> Result<SigSpec, NoMemory>
    requires { n < 2 ^ 100 }
    ensures { IfOk result (λ spec. spec ≡ wire_part (step_id n) 0 width) }
{
    let id = step_id(alloc, n)?;
    wire_part(alloc, id.as_str(), 0, width)
}

// The register itself, which takes `next`.
fn register(
    alloc: Global,
    design: &Design,
    t: &Tables,
    s: SigId,
    d: DomainId,
    next: SigSpec,
) -> Result<RtlCell, NoMemory>
    requires rules { IsDesign design.now }
    requires tables { AreTables design.now t.now }
    requires there { s.0 < length design.now.pool.signals }
    requires domain { d.0 < length design.now.domains }
    ensures { IfOk result (λ c. c ≡ register_cell (step_id (3 * s.0)) (signal_form design.now.pool.signals s.0).width (clock_of design.now d) next (whole (signal_value design.now s.0))) }
{
    let clock = clock_of(alloc, design, t, d)?;
    let now = whole_signal(alloc, design, t, s)?;
    let id = step_id(alloc, 3 * s.0 as u128)?;
    register_cell(alloc, id, signal_width(design, s) as u32, clock, next, now)
}

// The choice of what a register takes: its first number where its reset is 1.
fn reset_choice(
    alloc: Global,
    design: &Design,
    t: &Tables,
    s: SigId,
    r: SigId,
) -> Result<RtlCell, NoMemory>
    requires pool { IsPool design.now.pool }
    requires rules { IsDesign design.now }
    requires tables { AreTables design.now t.now }
    requires there { s.0 < length design.now.pool.signals }
    requires reset { r.0 < length design.now.pool.signals }
    ensures { IfOk result (λ c. c ≡ mux_cell (step_id (3 * s.0 + 2)) (signal_form design.now.pool.signals s.0).width (last_spec design.now s.0) (spec_of (map Constant (init_bits design.now s.0))) (whole (signal_value design.now r.0)) (wire_part (step_id (3 * s.0 + 1)) 0 (signal_form design.now.pool.signals s.0).width)) }
{
    let width = signal_width(design, s) as u32;
    let own = last_bits(alloc, design, t, s)?;
    let first = init_spec(alloc, design, s)?;
    let reset = whole_signal(alloc, design, t, r)?;
    let output = step_bits(alloc, 3 * s.0 as u128 + 1, width)?;
    let id = step_id(alloc, 3 * s.0 as u128 + 2)?;
    mux_cell(alloc, id, width, own, first, reset, output)
}

// A register that heeds no reset.
fn bare_register(
    alloc: Global,
    design: &Design,
    t: &Tables,
    s: SigId,
    d: DomainId,
) -> Result<Drawing, NoMemory>
    requires pool { IsPool design.now.pool }
    requires rules { IsDesign design.now }
    requires tables { AreTables design.now t.now }
    requires there { s.0 < length design.now.pool.signals }
    requires domain { d.0 < length design.now.domains }
    ensures { IfOk result (λ x. (p : DesignProcess) → bits_at_last design.now true p s.0 ≡ last_spec design.now s.0 → x ≡ register_drawing design.now s.0 p d NoReset) }
{
    let next = last_bits(alloc, design, t, s)?;
    let cell = register(alloc, design, t, s, d, next)?;
    one_cell(alloc, cell)
}

// A register with a reset at edges.
fn reset_register(
    alloc: Global,
    design: &Design,
    t: &Tables,
    s: SigId,
    d: DomainId,
    r: SigId,
) -> Result<Drawing, NoMemory>
    requires pool { IsPool design.now.pool }
    requires rules { IsDesign design.now }
    requires tables { AreTables design.now t.now }
    requires there { s.0 < length design.now.pool.signals }
    requires domain { d.0 < length design.now.domains }
    requires reset { r.0 < length design.now.pool.signals }
    ensures { IfOk result (λ x. (p : DesignProcess) → bits_at_last design.now true p s.0 ≡ last_spec design.now s.0 → x ≡ register_drawing design.now s.0 p d (AtEdges r.0)) }
{
    let width = signal_width(design, s) as u32;
    let choice = reset_choice(alloc, design, t, s, r)?;
    let next = step_bits(alloc, 3 * s.0 as u128 + 1, width)?;
    let cell = register(alloc, design, t, s, d, next)?;
    let mut drawing = Drawing::new(alloc);
    let id = step_id(alloc, 3 * s.0 as u128 + 1)?;
    drawing.push(inner_wire(id, width))?;
    drawing.push_cell(choice)?;
    drawing.push_cell(cell)?;
    Ok(drawing)
}

// A register with a reset that acts at once.
fn clear_register(
    alloc: Global,
    design: &Design,
    t: &Tables,
    s: SigId,
    d: DomainId,
    r: SigId,
) -> Result<Drawing, NoMemory>
    requires pool { IsPool design.now.pool }
    requires rules { IsDesign design.now }
    requires tables { AreTables design.now t.now }
    requires there { s.0 < length design.now.pool.signals }
    requires domain { d.0 < length design.now.domains }
    requires reset { r.0 < length design.now.pool.signals }
    ensures { IfOk result (λ x. (p : DesignProcess) → bits_at_last design.now true p s.0 ≡ last_spec design.now s.0 → x ≡ register_drawing design.now s.0 p d (AtOnce r.0)) }
{
    let at = ClearEnds {
        clock: clock_of(alloc, design, t, d)?,
        reset: whole_signal(alloc, design, t, r)?,
        next: last_bits(alloc, design, t, s)?,
        now: whole_signal(alloc, design, t, s)?,
    };
    let first = init_bits(alloc, design, s)?;
    let id = step_id(alloc, 3 * s.0 as u128)?;
    let cell = clear_cell(alloc, id, signal_width(design, s) as u32, first, at)?;
    one_cell(alloc, cell)
}

// A register of a domain with this reset.
fn heeding_register(
    alloc: Global,
    design: &Design,
    t: &Tables,
    s: SigId,
    d: DomainId,
    r: SigId,
) -> Result<Drawing, NoMemory>
    requires pool { IsPool design.now.pool }
    requires rules { IsDesign design.now }
    requires tables { AreTables design.now t.now }
    requires there { s.0 < length design.now.pool.signals }
    requires domain { d.0 < length design.now.domains }
    requires reset { r.0 < length design.now.pool.signals }
    ensures { IfOk result (λ x. (p : DesignProcess) → bits_at_last design.now true p s.0 ≡ last_spec design.now s.0 → x ≡ register_drawing design.now s.0 p d (heeding_of (is_async design.now d) (Some r.0))) }
{
    if is_async(design, d) {
        clear_register(alloc, design, t, s, d, r)
    } else {
        reset_register(alloc, design, t, s, d, r)
    }
}

// ---- any signal

// The process that drives a signal is one of the design's, and what it gives the signal is known.
#[tactic(auto, using(crate::proofs::LowerDomains::reset_there))]
fn driven_drawing(
    alloc: Global,
    design: &Design,
    t: &Tables,
    s: SigId,
    domain: Option<DomainId>,
) -> Result<Drawing, NoMemory>
    requires pool { IsPool design.now.pool }
    requires rules { IsDesign design.now }
    requires tables { AreTables design.now t.now }
    requires there { s.0 < length design.now.pool.signals }
    requires domain { IsDomain design.now domain }
    ensures { IfOk result (λ x. (p : DesignProcess) → p.domain ≡ domain → bits_at_last design.now (is_some domain) p s.0 ≡ last_spec design.now s.0 → x ≡ driving_drawing design.now s.0 (driving_at p domain)) }
{
    let Some(d) = domain else {
        let bits = last_bits(alloc, design, t, s)?;
        return link_to(alloc, design, t, s, bits);
    };
    match reset_of(design, s, d) {
        None => bare_register(alloc, design, t, s, d),
        Some(r) => heeding_register(alloc, design, t, s, d, r),
    }
}

// What drives the wire of a signal that has bits.
fn wired_drawing(alloc: Global, design: &Design, t: &Tables, s: SigId) -> Result<Drawing, NoMemory>
    requires pool { IsPool design.now.pool }
    requires rules { IsDesign design.now }
    requires plain { IsPlain design.now }
    requires tables { AreTables design.now t.now }
    requires there { s.0 < length design.now.pool.signals }
    ensures { IfOk result (λ d. d ≡ driving_drawing design.now s.0 (driving design.now s.0)) }
{
    if is_input(design, t.ports.as_slice(), s) {
        return Ok(Drawing::new(alloc));
    }
    match driver_of(design, t.drivers.as_slice(), s) {
        Some(p) => driven_drawing(alloc, design, t, s, p.domain),
        None => undriven_drawing(alloc, design, t, s),
    }
}

// What gives a signal its number that neither events nor statements drive: a port of a memory, whose cell gives it, or nothing.
fn undriven_drawing(
    alloc: Global,
    design: &Design,
    t: &Tables,
    s: SigId,
) -> Result<Drawing, NoMemory>
    requires tables { AreTables design.now t.now }
    requires there { s.0 < length design.now.pool.signals }
    ensures { IfOk result (λ d. d ≡ driving_drawing design.now s.0 (undriven design.now s.0)) }
{
    if is_marked(t.reads.as_slice(), s) {
        return Ok(Drawing::new(alloc));
    }
    let bits = init_spec(alloc, design, s)?;
    link_to(alloc, design, t, s, bits)
}

/// What drives the wire of a signal; a signal without bits has none.
pub(crate) fn signal_drawing(
    alloc: Global,
    design: &Design,
    t: &Tables,
    s: SigId,
) -> Result<Drawing, NoMemory>
    requires pool { IsPool design.now.pool }
    requires rules { IsDesign design.now }
    requires plain { IsPlain design.now }
    requires tables { AreTables design.now t.now }
    requires there { s.0 < length design.now.pool.signals }
    ensures { IfOk result (λ d. d ≡ signal_drawing design.now s.0) }
{
    if signal_width(design, s) == 0 {
        return Ok(Drawing::new(alloc));
    }
    wired_drawing(alloc, design, t, s)
}

/// Adds the drawings of all signals.
pub(crate) fn push_signals(
    alloc: Global,
    design: &Design,
    t: &Tables,
    drawing: &mut Drawing,
) -> Result<(), NoMemory>
    requires pool { IsPool design.now.pool }
    requires rules { IsDesign design.now }
    requires plain { IsPlain design.now }
    requires tables { AreTables design.now t.now }
    ensures { OnOk result (drawing.new ≡ and_also drawing.old (together (map (signal_drawing design.now) (range_with_len 0 (length design.now.pool.signals))))) }
{
    for i in 0..design.signals() {
        drawing.also(signal_drawing(alloc, design, t, SigId(i))?)?;
    }
    Ok(())
}
