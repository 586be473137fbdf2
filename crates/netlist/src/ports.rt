// What the ports of a memory draw.
ghost use Rattle.std.specs.Prelude.{◌≡◌, ◌≤◌, ◌<◌, ◌+◌, ◌^◌, IsSome, Some, None, pos, length, map, IfOk, OnOk};
ghost use Rattle.design_ir.specs.Circuits.{domain_named};
ghost use Rattle.design_ir.specs.PoolRules.{IsPool};
ghost use Rattle.design_ir.specs.declared.ids.ExprId.{ExprId};
ghost use Rattle.design_ir.specs.Values.{form};
ghost use Rattle.design_ir.specs.Rows.{granules};
ghost use Rattle.design_ir.specs.Designs.{IsDesign, IsGranularity, IsWritePort, IsReadPort};
ghost use Rattle.memory_cells.specs.Cells as memory;
ghost use Rattle.netlist_laws.specs.Ids.{step_id};
ghost use Rattle.netlist_laws.specs.Cells.{mux_cell};
ghost use Rattle.netlist_laws.specs.Operands.{wire_part};
ghost use Rattle.netlist_laws.specs.Operators.{one_bit, whole};
ghost use Rattle.netlist_laws.specs.Module.{signal_value, expr_value, register_cell};
ghost use Rattle.netlist_laws.specs.MemoryDrawings.{port_clock, zeros_unless, is_row, guarded_address, names_rows, address_guard, enable_spec, writing, write_enable, write_behind, write_drawing, read_enable, reading, flag_wire, flagged, guarded_read, read_behind, read_drawing};
ghost use Rattle.netlist.specs.Tables.{AreTables};

use crate::port_guards::{address_guard, guarded_address, names_rows, row_bit};
use crate::signals::{Tables, clock_of, step_bits, whole_signal};
use amh_bits::Int;
use amh_host::{Items, NoMemory, Text};
use design_ir::{Design, ExprId, MemRead, MemWrite, Memory};
use memory_cells::{Clock, Plan, PortEnds, clocked_read, comb_read, spread, write_cell};
use netlist_cells::cells::{mux_cell, register_cell};
use netlist_cells::drawing::{Drawing, inner_wire, one_cell};
use netlist_cells::expressions::expr_value;
use netlist_cells::ids::{step_id, value_id};
use netlist_cells::parts::const_spec;
use rtlil_text::{RtlCell, RtlWire, SigSpec, WirePort};
use std::alloc::Global;

// ---- the ends of a port

// The clock of a domain, at the domain's active edge.
fn port_clock(alloc: Global, design: &Design, t: &Tables, name: &str) -> Result<Clock, NoMemory>
    requires rules { IsDesign design.now }
    requires tables { AreTables design.now t.now }
    ensures { IfOk result (λ clock. clock ≡ port_clock design.now name.now) }
{
    match design.domain_named(name) {
        Some(d) => clock_of(alloc, design, t, d),
        None => Ok(Clock {
            bit: SigSpec::new(alloc),
            falling: false,
        }),
    }
}

// All bits of an expression's wire.
fn whole_expr(alloc: Global, design: &Design, e: ExprId) -> Result<SigSpec, NoMemory>
    requires { e.0 < length design.now.pool.exprs }
    ensures { IfOk result (λ spec. spec ≡ whole (expr_value design.now e.0)) }
{
    expr_value(alloc, design, e)?.whole(alloc)
}

// These bits where the one bit of `s` is 1, else zeros.
fn zeros_unless(
    alloc: Global,
    n: u128,
    width: u8,
    bits: SigSpec,
    s: SigSpec,
    y: SigSpec,
) -> Result<RtlCell, NoMemory>
    requires few { n < 2 ^ 100 }
    requires narrow { width ≤ 128 }
    ensures { IfOk result (λ c. c ≡ zeros_unless (step_id n) width bits s y) }
{
    let zero = const_spec(alloc, width, Int::of_u128(0))?;
    let id = step_id(alloc, n)?;
    mux_cell(alloc, id, width as u32, zero, bits, s, y)
}

// ---- write ports

// What a write port lets through: each bit of its enable for its granule, and nothing past the depth.
#[tactic(auto, using(crate::proofs::LowerPorts::write_addr, crate::proofs::LowerPorts::write_word, crate::proofs::LowerPorts::write_granularity))]
fn write_enable(
    alloc: Global,
    design: &Design,
    m: &Memory,
    n: u128,
    w: &MemWrite,
) -> Result<SigSpec, NoMemory>
    requires few { n < 2 ^ 99 }
    requires port { IsWritePort design.now m.now w.now }
    requires narrow { (form design.now.pool w.now.addr.0).width ≤ 16 }
    ensures { IfOk result (λ spec. spec ≡ write_enable design.now m.now n w.now) }
{
    if names_rows(design, m.depth, w.addr) {
        return enable_spec(alloc, m, w);
    }
    step_bits(alloc, n + 5, m.shape.width as u32)
}

// How many bits the enable of a write port has.
#[tactic(auto, using(crate::proofs::LowerPorts::some_granule))]
fn granules(m: &Memory, w: &MemWrite) -> u32
    requires { IsGranularity m.now w.now.granularity }
    ensures { result ≡ granules m.now w.now }
{
    if w.granularity == m.shape.width {
        return 1;
    }
    (m.shape.width / w.granularity) as u32
}

// Each bit of the enable as often as its granule has bits.
fn enable_spec(alloc: Global, m: &Memory, w: &MemWrite) -> Result<SigSpec, NoMemory>
    requires { IsGranularity m.now w.now.granularity }
    ensures { IfOk result (λ spec. spec ≡ enable_spec m.now w.now) }
{
    let id = value_id(alloc, w.enable.0)?;
    spread(alloc, id.as_str(), w.granularity as u32, granules(m, w))
}

// The cell of write port k.
#[tactic(auto, using(crate::proofs::LowerPorts::write_addr, crate::proofs::LowerPorts::write_word, crate::proofs::LowerPorts::write_granularity))]
fn writing(
    alloc: Global,
    design: &Design,
    t: &Tables,
    plan: &Plan,
    m: &Memory,
    k: u32,
    n: u128,
    w: &MemWrite,
) -> Result<RtlCell, NoMemory>
    requires rules { IsDesign design.now }
    requires tables { AreTables design.now t.now }
    requires few { n < 2 ^ 99 }
    requires port { IsWritePort design.now m.now w.now }
    requires narrow { (form design.now.pool w.now.addr.0).width ≤ 16 }
    requires inside { k < plan.now.writes }
    ensures { IfOk result (λ c. c ≡ writing design.now plan.now m.now k n w.now (write_enable design.now m.now n w.now)) }
{
    let ends = PortEnds {
        clock: port_clock(alloc, design, t, w.domain.as_str())?,
        enable: write_enable(alloc, design, m, n, w)?,
        address: guarded_address(alloc, design, n, m.depth, w.addr)?,
        word: whole_expr(alloc, design, w.word)?,
    };
    let id = step_id(alloc, n + 6)?;
    write_cell(alloc, plan, id, k, ends)
}

// The write cell, and before it the multiplexer of its enable where an address may be past the depth.
#[tactic(auto, using(crate::proofs::LowerPorts::write_addr, crate::proofs::LowerPorts::write_word, crate::proofs::LowerPorts::write_granularity))]
fn write_behind(
    alloc: Global,
    design: &Design,
    t: &Tables,
    plan: &Plan,
    m: &Memory,
    k: u32,
    n: u128,
    w: &MemWrite,
) -> Result<Drawing, NoMemory>
    requires rules { IsDesign design.now }
    requires tables { AreTables design.now t.now }
    requires few { n < 2 ^ 99 }
    requires port { IsWritePort design.now m.now w.now }
    requires narrow { (form design.now.pool w.now.addr.0).width ≤ 16 }
    requires inside { k < plan.now.writes }
    ensures { IfOk result (λ d. d ≡ write_behind design.now plan.now m.now k n w.now) }
{
    let cell = writing(alloc, design, t, plan, m, k, n, w)?;
    if names_rows(design, m.depth, w.addr) {
        return one_cell(alloc, cell);
    }
    let mut drawing = one_cell(alloc, enable_choice(alloc, design, m, n, w)?)?;
    drawing.push(inner_wire(step_id(alloc, n + 5)?, m.shape.width as u32))?;
    drawing.push_cell(cell)?;
    Ok(drawing)
}

// The enable where the address is that of a row, else zeros.
#[tactic(auto, using(crate::proofs::LowerPorts::write_addr, crate::proofs::LowerPorts::write_word, crate::proofs::LowerPorts::write_granularity))]
fn enable_choice(
    alloc: Global,
    design: &Design,
    m: &Memory,
    n: u128,
    w: &MemWrite,
) -> Result<RtlCell, NoMemory>
    requires few { n < 2 ^ 99 }
    requires port { IsWritePort design.now m.now w.now }
    requires narrow { (form design.now.pool w.now.addr.0).width ≤ 16 }
    ensures { IfOk result (λ c. c ≡ zeros_unless (step_id (n + 4)) m.now.shape.width (enable_spec m.now w.now) (is_row design.now m.now n w.now.addr) (wire_part (step_id (n + 5)) 0 m.now.shape.width)) }
{
    let width = m.shape.width;
    let enable = enable_spec(alloc, m, w)?;
    let row = row_bit(alloc, design, n, m.depth, w.addr)?;
    let output = step_bits(alloc, n + 5, width as u32)?;
    zeros_unless(alloc, n + 4, width, enable, row, output)
}

/// What write port k draws, its ids numbered from n on.
#[tactic(auto, using(crate::proofs::LowerPorts::write_addr, crate::proofs::LowerPorts::write_word, crate::proofs::LowerPorts::write_granularity))]
pub(crate) fn write_drawing(
    alloc: Global,
    design: &Design,
    t: &Tables,
    plan: &Plan,
    m: &Memory,
    k: u32,
    n: u128,
    w: &MemWrite,
) -> Result<Drawing, NoMemory>
    requires rules { IsDesign design.now }
    requires tables { AreTables design.now t.now }
    requires few { n < 2 ^ 99 }
    requires port { IsWritePort design.now m.now w.now }
    requires narrow { (form design.now.pool w.now.addr.0).width ≤ 16 }
    requires inside { k < plan.now.writes }
    ensures { IfOk result (λ d. d ≡ write_drawing design.now plan.now m.now k n w.now) }
{
    let mut drawing = address_guard(alloc, design, n, m.depth, w.addr)?;
    drawing.also(write_behind(alloc, design, t, plan, m, k, n, w)?)?;
    Ok(drawing)
}

// ---- read ports

// The cell of a read port, which gives these bits.
#[tactic(auto, using(crate::proofs::LowerPorts::read_addr, crate::proofs::LowerPorts::read_word, crate::proofs::LowerPorts::enables_there))]
fn reading(
    alloc: Global,
    design: &Design,
    t: &Tables,
    plan: &Plan,
    m: &Memory,
    n: u128,
    r: &MemRead,
    word: SigSpec,
) -> Result<RtlCell, NoMemory>
    requires rules { IsDesign design.now }
    requires tables { AreTables design.now t.now }
    requires few { n < 2 ^ 99 }
    requires port { IsReadPort design.now m.now r.now }
    requires narrow { (form design.now.pool r.now.addr.0).width ≤ 16 }
    ensures { IfOk result (λ c. c ≡ reading design.now plan.now m.now n r.now r.now.domain word) }
{
    let address = guarded_address(alloc, design, n, m.depth, r.addr)?;
    let id = step_id(alloc, n + 4)?;
    match &r.domain {
        None => comb_read(alloc, plan, id, address, word),
        Some(name) => {
            let ends = PortEnds {
                clock: port_clock(alloc, design, t, name.as_str())?,
                enable: read_enable(alloc, design, r)?,
                address,
                word,
            };
            clocked_read(alloc, plan, id, &r.transparent, ends)
        }
    }
}

// The bit of the enable of a clocked port.
fn read_enable(alloc: Global, design: &Design, r: &MemRead) -> Result<SigSpec, NoMemory>
    requires { (e : ExprId) → r.now.enable ≡ Some e → e.0 < length design.now.pool.exprs }
    ensures { IfOk result (λ spec. spec ≡ read_enable design.now r.now.enable) }
{
    match r.enable {
        Some(e) => whole_expr(alloc, design, e),
        None => Ok(SigSpec::new(alloc)),
    }
}

// The wire of the flag that keeps whether the last address was one of a row.
fn flag_wire(alloc: Global, n: u128) -> Result<RtlWire, NoMemory>
    requires { n < 2 ^ 99 }
    ensures { IfOk result (λ w. w ≡ flag_wire n) }
{
    let mut init = Items::new(alloc);
    init.push(false)?;
    Ok(RtlWire {
        id: step_id(alloc, n + 8)?,
        width: 1,
        port: WirePort::Inner,
        init: Some(init),
    })
}

// The register of the flag.
#[tactic(auto, using(crate::proofs::LowerPorts::read_addr, crate::proofs::LowerPorts::read_word, crate::proofs::LowerPorts::enables_there))]
fn flag_register(
    alloc: Global,
    design: &Design,
    t: &Tables,
    n: u128,
    name: &str,
) -> Result<RtlCell, NoMemory>
    requires rules { IsDesign design.now }
    requires tables { AreTables design.now t.now }
    requires few { n < 2 ^ 99 }
    ensures { IfOk result (λ c. c ≡ register_cell (step_id (n + 7)) 1 (port_clock design.now name.now) (one_bit (step_id (n + 10))) (one_bit (step_id (n + 8)))) }
{
    let clock = port_clock(alloc, design, t, name)?;
    let next = step_bits(alloc, n + 10, 1)?;
    let now = step_bits(alloc, n + 8, 1)?;
    register_cell(alloc, step_id(alloc, n + 7)?, 1, clock, next, now)
}

// The multiplexer before it: a port that reads gives it whether its address is one of a row.
#[tactic(auto, using(crate::proofs::LowerPorts::read_addr, crate::proofs::LowerPorts::read_word, crate::proofs::LowerPorts::enables_there))]
fn flag_choice(
    alloc: Global,
    design: &Design,
    m: &Memory,
    n: u128,
    r: &MemRead,
) -> Result<RtlCell, NoMemory>
    requires rules { IsDesign design.now }
    requires few { n < 2 ^ 99 }
    requires port { IsReadPort design.now m.now r.now }
    requires narrow { (form design.now.pool r.now.addr.0).width ≤ 16 }
    ensures { IfOk result (λ c. c ≡ mux_cell (step_id (n + 9)) 1 (one_bit (step_id (n + 8))) (is_row design.now m.now n r.now.addr) (read_enable design.now r.now.enable) (one_bit (step_id (n + 10)))) }
{
    let row = row_bit(alloc, design, n, m.depth, r.addr)?;
    let enable = read_enable(alloc, design, r)?;
    let kept = step_bits(alloc, n + 8, 1)?;
    let output = step_bits(alloc, n + 10, 1)?;
    mux_cell(alloc, step_id(alloc, n + 9)?, 1, kept, row, enable, output)
}

// Raw data goes to the signal where this bit is 1, else zeros.
#[tactic(auto, using(crate::proofs::LowerPorts::read_addr, crate::proofs::LowerPorts::read_word, crate::proofs::LowerPorts::enables_there))]
fn shown(
    alloc: Global,
    design: &Design,
    t: &Tables,
    m: &Memory,
    n: u128,
    r: &MemRead,
    bit: SigSpec,
) -> Result<RtlCell, NoMemory>
    requires tables { AreTables design.now t.now }
    requires few { n < 2 ^ 99 }
    requires port { IsReadPort design.now m.now r.now }
    ensures { IfOk result (λ c. c ≡ zeros_unless (step_id (n + 6)) m.now.shape.width (wire_part (step_id (n + 5)) 0 m.now.shape.width) bit (whole (signal_value design.now r.now.word.0))) }
{
    let width = m.shape.width;
    let raw = step_bits(alloc, n + 5, width as u32)?;
    let word = whole_signal(alloc, design, t, r.word)?;
    zeros_unless(alloc, n + 6, width, raw, bit, word)
}

// A read port some of whose addresses may be past the depth: what its cell gives there is dropped, by the address where it
// reads at once, else by the flag.
#[tactic(auto, using(crate::proofs::LowerPorts::read_addr, crate::proofs::LowerPorts::read_word, crate::proofs::LowerPorts::enables_there))]
fn guarded_read(
    alloc: Global,
    design: &Design,
    t: &Tables,
    plan: &Plan,
    m: &Memory,
    n: u128,
    r: &MemRead,
) -> Result<Drawing, NoMemory>
    requires rules { IsDesign design.now }
    requires tables { AreTables design.now t.now }
    requires few { n < 2 ^ 99 }
    requires port { IsReadPort design.now m.now r.now }
    requires narrow { (form design.now.pool r.now.addr.0).width ≤ 16 }
    ensures { IfOk result (λ d. d ≡ guarded_read design.now plan.now m.now n r.now r.now.domain) }
{
    let width = m.shape.width as u32;
    let raw = step_bits(alloc, n + 5, width)?;
    let mut drawing = one_cell(alloc, reading(alloc, design, t, plan, m, n, r, raw)?)?;
    drawing.push(inner_wire(step_id(alloc, n + 5)?, width))?;
    match &r.domain {
        Some(name) => drawing.also(flagged(alloc, design, t, m, n, r, name.as_str())?)?,
        None => {
            let row = row_bit(alloc, design, n, m.depth, r.addr)?;
            drawing.push_cell(shown(alloc, design, t, m, n, r, row)?)?;
        }
    }
    Ok(drawing)
}

// The flag, and the data that it shows.
#[tactic(auto, using(crate::proofs::LowerPorts::read_addr, crate::proofs::LowerPorts::read_word, crate::proofs::LowerPorts::enables_there))]
fn flagged(
    alloc: Global,
    design: &Design,
    t: &Tables,
    m: &Memory,
    n: u128,
    r: &MemRead,
    name: &str,
) -> Result<Drawing, NoMemory>
    requires rules { IsDesign design.now }
    requires tables { AreTables design.now t.now }
    requires few { n < 2 ^ 99 }
    requires port { IsReadPort design.now m.now r.now }
    requires narrow { (form design.now.pool r.now.addr.0).width ≤ 16 }
    ensures { IfOk result (λ d. d ≡ flagged design.now m.now n r.now name.now) }
{
    let mut drawing = one_cell(alloc, flag_register(alloc, design, t, n, name)?)?;
    drawing.push_cell(flag_choice(alloc, design, m, n, r)?)?;
    let flag = step_bits(alloc, n + 8, 1)?;
    drawing.push_cell(shown(alloc, design, t, m, n, r, flag)?)?;
    drawing.push(flag_wire(alloc, n)?)?;
    drawing.push(inner_wire(step_id(alloc, n + 10)?, 1))?;
    Ok(drawing)
}

// The cell of a read port, with what stands behind it.
#[tactic(auto, using(crate::proofs::LowerPorts::read_addr, crate::proofs::LowerPorts::read_word, crate::proofs::LowerPorts::enables_there))]
fn read_behind(
    alloc: Global,
    design: &Design,
    t: &Tables,
    plan: &Plan,
    m: &Memory,
    n: u128,
    r: &MemRead,
) -> Result<Drawing, NoMemory>
    requires rules { IsDesign design.now }
    requires tables { AreTables design.now t.now }
    requires few { n < 2 ^ 99 }
    requires port { IsReadPort design.now m.now r.now }
    requires narrow { (form design.now.pool r.now.addr.0).width ≤ 16 }
    ensures { IfOk result (λ d. d ≡ read_behind design.now plan.now m.now n r.now) }
{
    if !names_rows(design, m.depth, r.addr) {
        return guarded_read(alloc, design, t, plan, m, n, r);
    }
    let word = whole_signal(alloc, design, t, r.word)?;
    one_cell(alloc, reading(alloc, design, t, plan, m, n, r, word)?)
}

/// What a read port draws, its ids numbered from n on.
#[tactic(auto, using(crate::proofs::LowerPorts::read_addr, crate::proofs::LowerPorts::read_word, crate::proofs::LowerPorts::enables_there))]
pub(crate) fn read_drawing(
    alloc: Global,
    design: &Design,
    t: &Tables,
    plan: &Plan,
    m: &Memory,
    n: u128,
    r: &MemRead,
) -> Result<Drawing, NoMemory>
    requires rules { IsDesign design.now }
    requires tables { AreTables design.now t.now }
    requires few { n < 2 ^ 99 }
    requires port { IsReadPort design.now m.now r.now }
    requires narrow { (form design.now.pool r.now.addr.0).width ≤ 16 }
    ensures { IfOk result (λ d. d ≡ read_drawing design.now plan.now m.now n r.now) }
{
    let mut drawing = address_guard(alloc, design, n, m.depth, r.addr)?;
    drawing.also(read_behind(alloc, design, t, plan, m, n, r)?)?;
    Ok(drawing)
}
