// Cells, with their parameters and ends.
ghost use Rattle.std.specs.Prelude.{◌≡◌, ◌++◌, ◌∷◌, [], IfOk};
ghost use Rattle.netlist_laws.specs.Cells.{number_parameter, bits_parameter, end_at, flag, unary_parameters, unary_cell, binary_parameters, binary_cell, mux_cell};
ghost use Rattle.netlist_laws.specs.Module.{edge_parameters, register_cell, clear_parameters, clear_cell};
ghost use Rattle.netlist_laws.specs.Operands.{at_form, const_operand};

use crate::ids::copied;
use crate::parts::{Form, at_width, const_spec};
use amh_bits::Int;
use amh_host::{Items, NoMemory, Text};
use memory_cells::Clock;
use rtlil_text::{RtlBits, RtlCell, RtlEnd, RtlParameter, RtlValue, SigSpec};
use shape_rules::{CellKind, Shape};
use std::alloc::Global;
use std::marker::Model;

/// An operand of a cell: its bits, and the shape that the cell reads.
#[derive(Drop)]
pub struct Operand {
    pub spec: SigSpec,
    pub form: Form,
}

impl Model for Operand {
    ghost use Rattle.netlist_laws.specs.Cells as cells;

    ghost Value = { cells.Operand };

    ghost view = { λ a. record { spec = a.spec; form = a.form } };
}

/// The number of a wire of one shape as an operand of another.
pub fn at_form(alloc: Global, id: &str, form: Form, wanted: Form) -> Result<Operand, NoMemory>
    ensures { IfOk result (λ o. o ≡ at_form id.now form wanted) }
{
    Ok(Operand {
        spec: at_width(alloc, id, form, wanted.width)?,
        form: wanted,
    })
}

/// A number as an operand.
pub fn const_operand(alloc: Global, shape: Shape, number: Int) -> Result<Operand, NoMemory>
    ensures { IfOk result (λ o. o ≡ const_operand shape number) }
{
    Ok(Operand {
        spec: const_spec(alloc, shape.width, number)?,
        form: Form::of(shape),
    })
}

// ---- parts of cells

fn number_parameter(alloc: Global, name: &str, number: u32) -> Result<RtlParameter, NoMemory>
    ensures { IfOk result (λ p. p ≡ number_parameter name.now number) }
{
    Ok(RtlParameter {
        name: copied(alloc, name)?,
        value: RtlValue::Number(number),
    })
}

fn bits_parameter(alloc: Global, name: &str, bits: RtlBits) -> Result<RtlParameter, NoMemory>
    ensures { IfOk result (λ p. p ≡ bits_parameter name.now bits) }
{
    Ok(RtlParameter {
        name: copied(alloc, name)?,
        value: RtlValue::Bits(bits),
    })
}

fn end_at(alloc: Global, name: &str, spec: SigSpec) -> Result<RtlEnd, NoMemory>
    ensures { IfOk result (λ e. e ≡ end_at name.now spec) }
{
    Ok(RtlEnd {
        name: copied(alloc, name)?,
        spec,
    })
}

fn flag(set: bool) -> u32
    ensures { result ≡ flag set }
{
    if set { 1 } else { 0 }
}

// Parameters with a number behind them. What stands before is given up where memory lacks, so that a cell has few ends to give back.
fn and_number(
    alloc: Global,
    before: Items<RtlParameter>,
    name: &str,
    number: u32,
) -> Result<Items<RtlParameter>, NoMemory>
    ensures { IfOk result (λ ps. ps ≡ before ++ number_parameter name.now number ∷ []) }
{
    let mut all = before;
    all.push(number_parameter(alloc, name, number)?)?;
    Ok(all)
}

// Ends with one behind them.
fn and_end(
    alloc: Global,
    before: Items<RtlEnd>,
    name: &str,
    spec: SigSpec,
) -> Result<Items<RtlEnd>, NoMemory>
    ensures { IfOk result (λ es. es ≡ before ++ end_at name.now spec ∷ []) }
{
    let mut all = before;
    all.push(end_at(alloc, name, spec)?)?;
    Ok(all)
}

fn unary_parameters(alloc: Global, a: Form, width: u32) -> Result<Items<RtlParameter>, NoMemory>
    ensures { IfOk result (λ ps. ps ≡ unary_parameters a width) }
{
    let all = and_number(alloc, Items::new(alloc), "\\A_SIGNED", flag(a.signed))?;
    let all = and_number(alloc, all, "\\A_WIDTH", a.width)?;
    and_number(alloc, all, "\\Y_WIDTH", width)
}

fn binary_parameters(
    alloc: Global,
    a: Form,
    b: Form,
    width: u32,
) -> Result<Items<RtlParameter>, NoMemory>
    ensures { IfOk result (λ ps. ps ≡ binary_parameters a b width) }
{
    let all = and_number(alloc, Items::new(alloc), "\\A_SIGNED", flag(a.signed))?;
    let all = and_number(alloc, all, "\\A_WIDTH", a.width)?;
    let all = and_number(alloc, all, "\\B_SIGNED", flag(b.signed))?;
    let all = and_number(alloc, all, "\\B_WIDTH", b.width)?;
    and_number(alloc, all, "\\Y_WIDTH", width)
}

// ---- cells

/// A cell of one operand, with an output of a width.
pub fn unary_cell(
    alloc: Global,
    kind: CellKind,
    id: Text,
    a: Operand,
    width: u32,
    y: SigSpec,
) -> Result<RtlCell, NoMemory>
    ensures { IfOk result (λ c. c ≡ unary_cell kind id a width y) }
{
    let parameters = unary_parameters(alloc, a.form, width)?;
    let ends = and_end(alloc, Items::new(alloc), "\\A", a.spec)?;
    let ends = and_end(alloc, ends, "\\Y", y)?;
    Ok(RtlCell {
        kind,
        id,
        parameters,
        ends,
    })
}

/// A cell of two operands, with an output of a width.
pub fn binary_cell(
    alloc: Global,
    kind: CellKind,
    id: Text,
    a: Operand,
    b: Operand,
    width: u32,
    y: SigSpec,
) -> Result<RtlCell, NoMemory>
    ensures { IfOk result (λ c. c ≡ binary_cell kind id a b width y) }
{
    let parameters = binary_parameters(alloc, a.form, b.form, width)?;
    let ends = and_end(alloc, Items::new(alloc), "\\A", a.spec)?;
    let ends = and_end(alloc, ends, "\\B", b.spec)?;
    let ends = and_end(alloc, ends, "\\Y", y)?;
    Ok(RtlCell {
        kind,
        id,
        parameters,
        ends,
    })
}

/// `b` where the one bit of `s` is 1, else `a`.
pub fn mux_cell(
    alloc: Global,
    id: Text,
    width: u32,
    a: SigSpec,
    b: SigSpec,
    s: SigSpec,
    y: SigSpec,
) -> Result<RtlCell, NoMemory>
    ensures { IfOk result (λ c. c ≡ mux_cell id width a b s y) }
{
    let parameters = and_number(alloc, Items::new(alloc), "\\WIDTH", width)?;
    let ends = and_end(alloc, Items::new(alloc), "\\A", a)?;
    let ends = and_end(alloc, ends, "\\B", b)?;
    let ends = and_end(alloc, ends, "\\S", s)?;
    let ends = and_end(alloc, ends, "\\Y", y)?;
    Ok(RtlCell {
        kind: CellKind::Mux,
        id,
        parameters,
        ends,
    })
}

// A register's width, and at which edge it acts.
fn edge_parameters(
    alloc: Global,
    width: u32,
    polarity: u32,
) -> Result<Items<RtlParameter>, NoMemory>
    ensures { IfOk result (λ ps. ps ≡ edge_parameters width polarity) }
{
    let all = and_number(alloc, Items::new(alloc), "\\WIDTH", width)?;
    and_number(alloc, all, "\\CLK_POLARITY", polarity)
}

/// A register at the edge of its clock.
pub fn register_cell(
    alloc: Global,
    id: Text,
    width: u32,
    clock: Clock,
    next: SigSpec,
    now: SigSpec,
) -> Result<RtlCell, NoMemory>
    ensures { IfOk result (λ c. c ≡ register_cell id width clock next now) }
{
    let parameters = edge_parameters(alloc, width, clock.polarity())?;
    let ends = and_end(alloc, Items::new(alloc), "\\CLK", clock.bit)?;
    let ends = and_end(alloc, ends, "\\D", next)?;
    let ends = and_end(alloc, ends, "\\Q", now)?;
    Ok(RtlCell {
        kind: CellKind::Dff,
        id,
        parameters,
        ends,
    })
}

/// What is at the ends of a register that a reset clears at once: its clock, the reset, and what it takes and gives.
#[derive(Drop)]
pub struct ClearEnds {
    pub clock: Clock,
    pub reset: SigSpec,
    pub next: SigSpec,
    pub now: SigSpec,
}

// Those of a register that a reset clears at once.
fn clear_parameters(
    alloc: Global,
    width: u32,
    polarity: u32,
    first: RtlBits,
) -> Result<Items<RtlParameter>, NoMemory>
    ensures { IfOk result (λ ps. ps ≡ clear_parameters width polarity first) }
{
    let all = edge_parameters(alloc, width, polarity)?;
    let mut all = and_number(alloc, all, "\\ARST_POLARITY", 1)?;
    all.push(bits_parameter(alloc, "\\ARST_VALUE", first)?)?;
    Ok(all)
}

/// A register at the edge of its clock, which has these first bits wherever its reset is 1.
pub fn clear_cell(
    alloc: Global,
    id: Text,
    width: u32,
    first: RtlBits,
    at: ClearEnds,
) -> Result<RtlCell, NoMemory>
    ensures { IfOk result (λ c. c ≡ clear_cell id width at.clock at.reset first at.next at.now) }
{
    let parameters = clear_parameters(alloc, width, at.clock.polarity(), first)?;
    let ends = and_end(alloc, Items::new(alloc), "\\ARST", at.reset)?;
    let ends = and_end(alloc, ends, "\\CLK", at.clock.bit)?;
    let ends = and_end(alloc, ends, "\\D", at.next)?;
    let ends = and_end(alloc, ends, "\\Q", at.now)?;
    Ok(RtlCell {
        kind: CellKind::Adff,
        id,
        parameters,
        ends,
    })
}
