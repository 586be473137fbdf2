// The guards of a memory's ports: an address past the depth is given to no cell.
ghost use Rattle.std.specs.Prelude.{◌≡◌, ◌≤◌, ◌<◌, ◌+◌, ◌^◌, pos, length, IfOk};
ghost use Rattle.shape_rules.specs.declared.cell.CellKind.TheVariants as kind;
ghost use Rattle.design_ir.specs.Values.{form};
ghost use Rattle.netlist_laws.specs.Ids.{step_id};
ghost use Rattle.netlist_laws.specs.Cells.{binary_cell, mux_cell};
ghost use Rattle.netlist_laws.specs.Operands.{wire_part, const_spec, at_width, const_operand};
ghost use Rattle.netlist_laws.specs.Operators.{one_bit, as_form};
ghost use Rattle.netlist_laws.specs.PortGuards.{is_exact, row_spec, address_spec, guard_drawing};
ghost use Rattle.netlist_laws.specs.MemoryDrawings.{port_address};

use crate::signals::step_bits;
use amh_bits::Int;
use amh_host::NoMemory;
use design_ir::{Design, ExprId, Exprs};
use netlist_cells::cells::{binary_cell, const_operand, mux_cell};
use netlist_cells::drawing::{Drawing, Value, inner_wire};
use netlist_cells::ids::{step_id, value_id};
use netlist_cells::parts::{Form, const_spec};
use rtlil_text::{RtlCell, SigSpec};
use shape_rules::{CellKind, Shape};
use std::alloc::Global;

/// Whether each number of an address of this width names a row.
fn is_exact(depth: u32, width: u32) -> bool
    requires { width ≤ 16 }
    ensures { result ≡ is_exact depth width }
{
    depth == 1 << width
}

/// Whether each number of the address names a row.
pub(crate) fn names_rows(design: &Design, depth: u32, e: ExprId) -> bool
    requires there { e.0 < length design.now.pool.exprs }
    requires narrow { (form design.now.pool e.0).width ≤ 16 }
    ensures { result ≡ is_exact depth (form design.now.pool e.0).width }
{
    is_exact(depth, design.shape(e).width as u32)
}

// An address, which is no signed number.
fn address_value(alloc: Global, design: &Design, e: ExprId) -> Result<Value, NoMemory>
    requires { e.0 < length design.now.pool.exprs }
    ensures { IfOk result (λ v. v ≡ port_address design.now e) }
{
    Ok(Value {
        id: value_id(alloc, e.0)?,
        shape: Shape {
            width: design.shape(e).width,
            signed: false,
        },
    })
}

/// Whether the address is one of a row, as one bit.
pub(crate) fn row_bit(
    alloc: Global,
    design: &Design,
    n: u128,
    depth: u32,
    e: ExprId,
) -> Result<SigSpec, NoMemory>
    requires few { n < 2 ^ 99 }
    requires there { e.0 < length design.now.pool.exprs }
    requires narrow { (form design.now.pool e.0).width ≤ 16 }
    ensures { IfOk result (λ spec. spec ≡ row_spec step_id n depth (port_address design.now e)) }
{
    if names_rows(design, depth, e) {
        return const_spec(alloc, 1, Int::of_u128(1));
    }
    step_bits(alloc, n + 1, 1)
}

/// What a cell gets for the address: itself, or 0 where it is past the depth.
pub(crate) fn guarded_address(
    alloc: Global,
    design: &Design,
    n: u128,
    depth: u32,
    e: ExprId,
) -> Result<SigSpec, NoMemory>
    requires few { n < 2 ^ 99 }
    requires there { e.0 < length design.now.pool.exprs }
    requires narrow { (form design.now.pool e.0).width ≤ 16 }
    ensures { IfOk result (λ spec. spec ≡ address_spec step_id n depth (port_address design.now e)) }
{
    let a = address_value(alloc, design, e)?;
    if names_rows(design, depth, e) {
        return a.at_width(alloc, a.width().max(1));
    }
    step_bits(alloc, n + 3, a.width())
}

// Whether the address is below the depth.
fn compared(alloc: Global, n: u128, depth: u32, a: &Value) -> Result<RtlCell, NoMemory>
    requires { n < 2 ^ 99 }
    ensures { IfOk result (λ x. x ≡ binary_cell kind.Lt (step_id n) (as_form a.now a.now.form) (const_operand a.now.form (pos depth)) 1 (one_bit (step_id (n + 1)))) }
{
    let left = a.as_form(alloc, Form::of(a.shape))?;
    let right = const_operand(alloc, a.shape, Int::of_u128(depth as u128))?;
    let bit = step_bits(alloc, n + 1, 1)?;
    let id = step_id(alloc, n)?;
    binary_cell(alloc, CellKind::Lt, id, left, right, 1, bit)
}

// The address where it is, else 0.
fn chosen(alloc: Global, n: u128, a: &Value) -> Result<RtlCell, NoMemory>
    requires { n < 2 ^ 99 }
    ensures { IfOk result (λ x. x ≡ mux_cell (step_id (n + 2)) a.now.form.width (const_spec a.now.form.width (pos 0)) (at_width a.now.id a.now.form a.now.form.width) (one_bit (step_id (n + 1))) (wire_part (step_id (n + 3)) 0 a.now.form.width)) }
{
    let width = a.width();
    let zero = const_spec(alloc, a.shape.width, Int::of_u128(0))?;
    let address = a.at_width(alloc, width)?;
    let bit = step_bits(alloc, n + 1, 1)?;
    let output = step_bits(alloc, n + 3, width)?;
    let id = step_id(alloc, n + 2)?;
    mux_cell(alloc, id, width, zero, address, bit, output)
}

/// The guard before a port's address, whose ids are numbered from n on.
pub(crate) fn address_guard(
    alloc: Global,
    design: &Design,
    n: u128,
    depth: u32,
    e: ExprId,
) -> Result<Drawing, NoMemory>
    requires few { n < 2 ^ 99 }
    requires there { e.0 < length design.now.pool.exprs }
    requires narrow { (form design.now.pool e.0).width ≤ 16 }
    ensures { IfOk result (λ d. d ≡ guard_drawing step_id n depth (port_address design.now e)) }
{
    let mut drawing = Drawing::new(alloc);
    if names_rows(design, depth, e) {
        return Ok(drawing);
    }
    let a = address_value(alloc, design, e)?;
    drawing.push_cell(compared(alloc, n, depth, &a)?)?;
    drawing.push_cell(chosen(alloc, n, &a)?)?;
    drawing.push(inner_wire(step_id(alloc, n + 1)?, 1))?;
    drawing.push(inner_wire(step_id(alloc, n + 3)?, a.width()))?;
    Ok(drawing)
}
