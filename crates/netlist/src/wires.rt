// The wires of columns, of other signals and of expressions.
ghost use Rattle.std.specs.Prelude.{◌≡◌, ◌<◌, ◌+◌, ◌^◌, ◌++◌, length, IfOk, OnOk};
ghost use Rattle.std.specs.List.{flat_map, range_with_len};
ghost use Rattle.design_ir.specs.Designs.{IsDesign};
ghost use Rattle.netlist_laws.specs.Module.{port_of, first_value, column_wire, column_wires, signal_wires, expr_wires};
ghost use Rattle.netlist.specs.Tables.{AreTables};

use crate::drivers::is_clocked;
use crate::signals::Tables;
use crate::sources::init_bits;
use crate::targets::signal_width;
use amh_host::NoMemory;
use design_ir::{Column, Design, ExprId, Exprs, SigId};
use netlist_cells::drawing::inner_wire;
use netlist_cells::ids::{public_id, signal_id, value_id};
use netlist_cells::tables::{column_of, port_of};
use rtlil_text::{RtlBits, RtlWire, WirePort};
use std::alloc::Global;

// Whether the wire of column k is a port of the module, and of which side.
fn side_of(design: &Design, t: &Tables, k: u32, s: SigId) -> WirePort
    requires tables { AreTables design.now t.now }
    requires there { s.0 < length design.now.pool.signals }
    requires column { k + 1 < 2 ^ 32 }
    ensures { result ≡ port_of design.now k s.0 }
{
    match port_of(design, t.ports.as_slice(), s) {
        None => WirePort::Inner,
        Some(p) if p.is_input => WirePort::Input(k + 1),
        Some(_) => WirePort::Output(k + 1),
    }
}

// The first value of a register's bits.
fn first_value(
    alloc: Global,
    design: &Design,
    t: &Tables,
    s: SigId,
) -> Result<Option<RtlBits>, NoMemory>
    requires rules { IsDesign design.now }
    requires tables { AreTables design.now t.now }
    requires there { s.0 < length design.now.pool.signals }
    ensures { IfOk result (λ bits. bits ≡ first_value design.now s.0) }
{
    if is_clocked(design, t.ports.as_slice(), t.drivers.as_slice(), s) {
        Ok(Some(init_bits(alloc, design, s)?))
    } else {
        Ok(None)
    }
}

// The wire of column k.
fn column_wire(
    alloc: Global,
    design: &Design,
    t: &Tables,
    k: u32,
    x: &Column,
) -> Result<RtlWire, NoMemory>
    requires rules { IsDesign design.now }
    requires tables { AreTables design.now t.now }
    requires there { x.now.sig.0 < length design.now.pool.signals }
    requires column { k + 1 < 2 ^ 32 }
    ensures { IfOk result (λ w. w ≡ column_wire design.now k x.now) }
{
    Ok(RtlWire {
        id: public_id(alloc, x.name.as_str())?,
        width: signal_width(design, x.sig) as u32,
        port: side_of(design, t, k, x.sig),
        init: first_value(alloc, design, t, x.sig)?,
    })
}

/// The wires of the columns, in order.
#[tactic(auto, using(netlist_cells::proofs::LowerPlaces::column_there))]
pub(crate) fn push_columns(
    alloc: Global,
    design: &Design,
    t: &Tables,
    wires: &mut Vec<RtlWire>,
) -> Result<(), NoMemory>
    requires rules { IsDesign design.now }
    requires tables { AreTables design.now t.now }
    ensures { OnOk result (wires.new.items ≡ wires.old.items ++ column_wires design.now 0 design.now.columns) }
{
    for k in 0..design.columns() {
        wires.push(column_wire(alloc, design, t, k, design.column(k))?)?;
    }
    Ok(())
}

// The wire of a signal with bits that no column shows.
fn push_hidden(
    alloc: Global,
    design: &Design,
    t: &Tables,
    s: SigId,
    wires: &mut Vec<RtlWire>,
) -> Result<(), NoMemory>
    requires rules { IsDesign design.now }
    requires tables { AreTables design.now t.now }
    requires there { s.0 < length design.now.pool.signals }
    ensures { OnOk result (wires.new.items ≡ wires.old.items ++ signal_wires design.now s.0) }
{
    let width = signal_width(design, s) as u32;
    if width == 0 || column_of(design, t.columns.as_slice(), s).is_some() {
        return Ok(());
    }
    wires.push(RtlWire {
        id: signal_id(alloc, s.0)?,
        width,
        port: WirePort::Inner,
        init: first_value(alloc, design, t, s)?,
    })?;
    Ok(())
}

/// The wires of the signals that no column shows.
pub(crate) fn push_others(
    alloc: Global,
    design: &Design,
    t: &Tables,
    wires: &mut Vec<RtlWire>,
) -> Result<(), NoMemory>
    requires rules { IsDesign design.now }
    requires tables { AreTables design.now t.now }
    ensures { OnOk result (wires.new.items ≡ wires.old.items ++ flat_map (signal_wires design.now) (range_with_len 0 (length design.now.pool.signals))) }
{
    for i in 0..design.signals() {
        push_hidden(alloc, design, t, SigId(i), wires)?;
    }
    Ok(())
}

// The wire of an expression with bits.
fn push_value(
    alloc: Global,
    design: &Design,
    k: ExprId,
    wires: &mut Vec<RtlWire>,
) -> Result<(), NoMemory>
    requires { k.0 < length design.now.pool.exprs }
    ensures { OnOk result (wires.new.items ≡ wires.old.items ++ expr_wires design.now k.0) }
{
    let width = design.shape(k).width as u32;
    if width == 0 {
        return Ok(());
    }
    let id = value_id(alloc, k.0)?;
    wires.push(inner_wire(id, width))?;
    Ok(())
}

/// The wires of the expressions.
pub(crate) fn push_values(
    alloc: Global,
    design: &Design,
    wires: &mut Vec<RtlWire>,
) -> Result<(), NoMemory>
    ensures { OnOk result (wires.new.items ≡ wires.old.items ++ flat_map (expr_wires design.now) (range_with_len 0 (length design.now.pool.exprs))) }
{
    for i in 0..design.count() {
        push_value(alloc, design, ExprId(i), wires)?;
    }
    Ok(())
}
