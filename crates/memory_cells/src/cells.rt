// The cells of a memory.
ghost use Rattle.std.specs.Prelude.{◌≡◌, ◌<◌, ◌≤◌, ◌++◌, ◌∷◌, [], true, false, replicate, codes, IfOk, max, length};
ghost use Rattle.memory_cells.specs.Plans.{planned, mask_bits, through_mask};
ghost use Rattle.memory_cells.specs.Cells as cells;

use crate::bits::{priority_mask, repeated, rows_bits, through_mask};
use crate::clock::Clock;
use crate::plan::Plan;
use amh_bits::Int;
use amh_host::{Items, NoMemory, Numbers, Text};
use rtlil_text::{
    RtlBits, RtlCell, RtlEnd, RtlMemory, RtlParameter, RtlParameters, RtlValue, SigPart, SigSpec,
};
use shape_rules::CellKind;
use std::alloc::Global;

/// What is at the ends of a port's cell.
#[derive(Drop)]
pub struct PortEnds {
    pub clock: Clock,
    pub enable: SigSpec,
    pub address: SigSpec,
    pub word: SigSpec,
}

// ---- parts of cells

pub(crate) fn copied(alloc: Global, text: &str) -> Result<Text, NoMemory>
    ensures { IfOk result (λ copy. copy ≡ text.now) }
{
    let mut copy = Text::new(alloc);
    copy.push(text)?;
    Ok(copy)
}

// Parameters with one behind them. What stands before is given up where memory lacks, so that a cell has few ends to
// give back.
fn and_parameter(
    alloc: Global,
    before: RtlParameters,
    name: &str,
    value: RtlValue,
) -> Result<RtlParameters, NoMemory>
    ensures { IfOk result (λ ps. ps ≡ before ++ record { name = name.now; value = value } ∷ []) }
{
    let mut all = before;
    let name = copied(alloc, name)?;
    all.push(RtlParameter { name, value })?;
    Ok(all)
}

fn and_number(
    alloc: Global,
    before: RtlParameters,
    name: &str,
    number: u32,
) -> Result<RtlParameters, NoMemory>
    ensures { IfOk result (λ ps. ps ≡ before ++ cells.number_at name.now number ∷ []) }
{
    and_parameter(alloc, before, name, RtlValue::Number(number))
}

fn and_bits(
    alloc: Global,
    before: RtlParameters,
    name: &str,
    bits: RtlBits,
) -> Result<RtlParameters, NoMemory>
    ensures { IfOk result (λ ps. ps ≡ before ++ cells.bits_at name.now bits ∷ []) }
{
    and_parameter(alloc, before, name, RtlValue::Bits(bits))
}

// Parameters with one behind them that is 0 at a width.
fn and_zeros(
    alloc: Global,
    before: RtlParameters,
    name: &str,
    width: u32,
) -> Result<RtlParameters, NoMemory>
    ensures { IfOk result (λ ps. ps ≡ before ++ cells.bits_at name.now (replicate width false) ∷ []) }
{
    let bits = repeated(alloc, false, width)?;
    and_bits(alloc, before, name, bits)
}

// Ends with one behind them.
fn and_end(
    alloc: Global,
    before: Items<RtlEnd>,
    name: &str,
    spec: SigSpec,
) -> Result<Items<RtlEnd>, NoMemory>
    ensures { IfOk result (λ es. es ≡ before ++ cells.end_at name.now spec ∷ []) }
{
    let mut all = before;
    let name = copied(alloc, name)?;
    all.push(RtlEnd { name, spec })?;
    Ok(all)
}

fn constant(alloc: Global, bits: RtlBits) -> Result<SigSpec, NoMemory>
    ensures { IfOk result (λ spec. spec ≡ cells.constant bits) }
{
    let mut spec = SigSpec::new(alloc);
    spec.push(SigPart::Const(bits))?;
    Ok(spec)
}

// Ends with one behind them that has constant bits.
fn and_constant(
    alloc: Global,
    before: Items<RtlEnd>,
    name: &str,
    bits: RtlBits,
) -> Result<Items<RtlEnd>, NoMemory>
    ensures { IfOk result (λ es. es ≡ before ++ cells.end_at name.now (cells.constant bits) ∷ []) }
{
    let spec = constant(alloc, bits)?;
    and_end(alloc, before, name, spec)
}

// Ends with one behind them that has one bit so many times.
fn and_repeated(
    alloc: Global,
    before: Items<RtlEnd>,
    name: &str,
    bit: bool,
    count: u32,
) -> Result<Items<RtlEnd>, NoMemory>
    ensures { IfOk result (λ es. es ≡ before ++ cells.end_at name.now (cells.constant (replicate count bit)) ∷ []) }
{
    let bits = repeated(alloc, bit, count)?;
    and_constant(alloc, before, name, bits)
}

// Which memory, and how wide its addresses and its rows are.
fn of_memory(alloc: Global, plan: &Plan) -> Result<RtlParameters, NoMemory>
    ensures { IfOk result (λ ps. ps ≡ cells.of_memory plan.now) }
{
    let id = RtlValue::Id(copied(alloc, plan.id.as_str())?);
    let all = and_parameter(alloc, Items::new(alloc), "\\MEMID", id)?;
    let all = and_number(alloc, all, "\\ABITS", plan.address)?;
    and_number(alloc, all, "\\WIDTH", plan.width as u32)
}

// Those of a memory, then whether its port has a clock, and at which edge it acts.
fn clock_parameters(
    alloc: Global,
    plan: &Plan,
    clocked: u32,
    edge: u32,
) -> Result<RtlParameters, NoMemory>
    ensures { IfOk result (λ ps. ps ≡ cells.clock_parameters plan.now clocked edge) }
{
    let all = of_memory(alloc, plan)?;
    let all = and_number(alloc, all, "\\CLK_ENABLE", clocked)?;
    and_number(alloc, all, "\\CLK_POLARITY", edge)
}

// The clock of a port and its enable.
fn clock_ends(alloc: Global, clock: SigSpec, enable: SigSpec) -> Result<Items<RtlEnd>, NoMemory>
    ensures { IfOk result (λ es. es ≡ cells.end_at (codes "\\CLK") clock ∷ cells.end_at (codes "\\EN") enable ∷ []) }
{
    let ends = and_end(alloc, Items::new(alloc), "\\CLK", clock)?;
    and_end(alloc, ends, "\\EN", enable)
}

// Ends with an address and a word behind them.
fn and_access(
    alloc: Global,
    before: Items<RtlEnd>,
    address: SigSpec,
    word: SigSpec,
) -> Result<Items<RtlEnd>, NoMemory>
    ensures { IfOk result (λ es. es ≡ before ++ cells.end_at (codes "\\ADDR") address ∷ cells.end_at (codes "\\DATA") word ∷ []) }
{
    let ends = and_end(alloc, before, "\\ADDR", address)?;
    and_end(alloc, ends, "\\DATA", word)
}

// ---- a memory and its cells

/// The memory of a module.
pub fn memory(alloc: Global, plan: &Plan) -> Result<RtlMemory, NoMemory>
    ensures { IfOk result (λ m. m ≡ planned plan.now) }
{
    Ok(RtlMemory {
        id: copied(alloc, plan.id.as_str())?,
        width: plan.width as u32,
        size: plan.depth,
    })
}

fn init_parameters(alloc: Global, plan: &Plan) -> Result<RtlParameters, NoMemory>
    ensures { IfOk result (λ ps. ps ≡ cells.init_parameters plan.now) }
{
    let all = of_memory(alloc, plan)?;
    let all = and_number(alloc, all, "\\WORDS", plan.depth)?;
    and_number(alloc, all, "\\PRIORITY", 0)
}

fn init_ends(alloc: Global, plan: &Plan, rows: &[Int]) -> Result<Items<RtlEnd>, NoMemory>
    requires { plan.now.width ≤ 128 }
    ensures { IfOk result (λ es. es ≡ cells.init_ends plan.now rows.now) }
{
    let none = Items::new(alloc);
    let ends = and_repeated(alloc, none, "\\ADDR", false, plan.address)?;
    let bits = rows_bits(alloc, plan.width, rows)?;
    let ends = and_constant(alloc, ends, "\\DATA", bits)?;
    and_repeated(alloc, ends, "\\EN", true, plan.width as u32)
}

/// The cell of the first rows.
pub fn init_cell(alloc: Global, plan: &Plan, id: Text, rows: &[Int]) -> Result<RtlCell, NoMemory>
    requires { plan.now.width ≤ 128 }
    ensures { IfOk result (λ c. c ≡ cells.init_cell plan.now id rows.now) }
{
    let parameters = init_parameters(alloc, plan)?;
    let ends = init_ends(alloc, plan, rows)?;
    Ok(RtlCell {
        kind: CellKind::MemoryInit,
        id,
        parameters,
        ends,
    })
}

// Those of write port `k`, which acts at an edge.
fn write_parameters(
    alloc: Global,
    plan: &Plan,
    k: u32,
    edge: u32,
) -> Result<RtlParameters, NoMemory>
    requires { k < plan.now.writes }
    ensures { IfOk result (λ ps. ps ≡ cells.write_parameters plan.now k edge) }
{
    let all = clock_parameters(alloc, plan, 1, edge)?;
    let all = and_number(alloc, all, "\\PORTID", k)?;
    let mask = priority_mask(alloc, plan.mask_bits(), k)?;
    and_bits(alloc, all, "\\PRIORITY_MASK", mask)
}

/// The cell of write port `k`, at the edge of its clock.
pub fn write_cell(
    alloc: Global,
    plan: &Plan,
    id: Text,
    k: u32,
    port: PortEnds,
) -> Result<RtlCell, NoMemory>
    requires { k < plan.now.writes }
    ensures { IfOk result (λ c. c ≡ cells.write_cell plan.now id k port.clock port.enable port.address port.word) }
{
    let parameters = write_parameters(alloc, plan, k, port.clock.polarity())?;
    let ends = clock_ends(alloc, port.clock.bit, port.enable)?;
    let ends = and_access(alloc, ends, port.address, port.word)?;
    Ok(RtlCell {
        kind: CellKind::MemoryWrite,
        id,
        parameters,
        ends,
    })
}

// The parameters of a read cell.
fn read_parameters(
    alloc: Global,
    plan: &Plan,
    clocked: u32,
    edge: u32,
    mask: RtlBits,
) -> Result<RtlParameters, NoMemory>
    ensures { IfOk result (λ ps. ps ≡ cells.read_parameters plan.now clocked edge mask) }
{
    let all = clock_parameters(alloc, plan, clocked, edge)?;
    let all = and_bits(alloc, all, "\\TRANSPARENCY_MASK", mask)?;
    let all = and_zeros(alloc, all, "\\COLLISION_X_MASK", plan.mask_bits())?;
    let all = and_zeros(alloc, all, "\\ARST_VALUE", plan.width as u32)?;
    let all = and_zeros(alloc, all, "\\SRST_VALUE", plan.width as u32)?;
    let all = and_zeros(alloc, all, "\\INIT_VALUE", plan.width as u32)?;
    and_number(alloc, all, "\\CE_OVER_SRST", 0)
}

// Ends with the resets of a read cell, which are never, its address and its word behind them.
fn and_read(
    alloc: Global,
    before: Items<RtlEnd>,
    address: SigSpec,
    word: SigSpec,
) -> Result<Items<RtlEnd>, NoMemory>
    ensures { IfOk result (λ es. es ≡ before ++ cells.bit_end (codes "\\ARST") false ∷ cells.bit_end (codes "\\SRST") false ∷ cells.end_at (codes "\\ADDR") address ∷ cells.end_at (codes "\\DATA") word ∷ []) }
{
    let ends = and_repeated(alloc, before, "\\ARST", false, 1)?;
    let ends = and_repeated(alloc, ends, "\\SRST", false, 1)?;
    and_access(alloc, ends, address, word)
}

fn comb_ends(alloc: Global, address: SigSpec, word: SigSpec) -> Result<Items<RtlEnd>, NoMemory>
    ensures { IfOk result (λ es. es ≡ cells.read_ends (cells.constant (false ∷ [])) (cells.constant (true ∷ [])) address word) }
{
    let ends = and_repeated(alloc, Items::new(alloc), "\\CLK", false, 1)?;
    let ends = and_repeated(alloc, ends, "\\EN", true, 1)?;
    and_read(alloc, ends, address, word)
}

/// The cell of a read port that reads at once.
pub fn comb_read(
    alloc: Global,
    plan: &Plan,
    id: Text,
    address: SigSpec,
    word: SigSpec,
) -> Result<RtlCell, NoMemory>
    ensures { IfOk result (λ c. c ≡ cells.comb_read plan.now id address word) }
{
    let ends = comb_ends(alloc, address, word)?;
    let mask = repeated(alloc, false, plan.mask_bits())?;
    let parameters = read_parameters(alloc, plan, 0, 1, mask)?;
    Ok(RtlCell {
        kind: CellKind::MemoryRead,
        id,
        parameters,
        ends,
    })
}

/// The cell of a read port that reads at the edge of its clock, and takes at once what the write ports of these
/// numbers write there.
pub fn clocked_read(
    alloc: Global,
    plan: &Plan,
    id: Text,
    through: &Numbers,
    port: PortEnds,
) -> Result<RtlCell, NoMemory>
    ensures { IfOk result (λ c. c ≡ cells.clocked_read plan.now id through.now port.clock port.enable port.address port.word) }
{
    let mask = through_mask(alloc, through, plan.mask_bits())?;
    let parameters = read_parameters(alloc, plan, 1, port.clock.polarity(), mask)?;
    let ends = clock_ends(alloc, port.clock.bit, port.enable)?;
    let ends = and_read(alloc, ends, port.address, port.word)?;
    Ok(RtlCell {
        kind: CellKind::MemoryRead,
        id,
        parameters,
        ends,
    })
}
