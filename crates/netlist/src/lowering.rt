// The module of a design.
ghost use Rattle.std.specs.Prelude.{◌≡◌, ◌<◌, ◌^◌, ◌++◌, [], map, length, IfOk};
ghost use Rattle.std.specs.List.{AllByRecursion, flat_map, range_with_len};
ghost use Rattle.comb_graph.specs.Orders.{IsOrder};
ghost use Rattle.comb_graph.specs.Rankings.{bit_of, IsRanking};
ghost use Rattle.design_ir.specs.PoolRules.{IsPool};
ghost use Rattle.design_ir.specs.Designs.{IsDesign};
ghost use Rattle.rtlil_text.specs.Rules.{IsModule};
ghost use Rattle.netlist_laws.specs.Expressions.{part_total};
ghost use Rattle.netlist_laws.specs.Module.{column_wires, signal_wires, expr_wires, module_of};
ghost use Rattle.netlist_laws.specs.Corresponds.{Corresponds};
ghost use Rattle.netlist_laws.specs.FirstValues.{HasFirstValues};
ghost use Rattle.netlist_laws.specs.Histories.{SameHistory};
ghost use Rattle.netlist_laws.specs.Made.{HasByteStride};
ghost use Rattle.netlist_laws.specs.Plain.{IsPlain};
ghost use Rattle.netlist_laws.specs.MemoryDrawings.{memories_of, all_parts};
ghost use Rattle.netlist.specs.Tables.{AreTables, drawn_module, drawn_signals};

use crate::drawings::push_expressions;
use crate::memories::push_memories;
use crate::signals::{Tables, push_signals};
use crate::wires::{push_columns, push_others, push_values};
use amh_host::{Items, NoMemory};
use cell_split::split_tangled;
use comb_graph::Ranks;
use design_ir::{Design, Expr, ExprId, Exprs};
use flat_design::{flat_has_the_history, flat_keeps_orders, flatten};
use memory_cells::cells_keep_the_rules;
use netlist_cells::drawing::Drawing;
use netlist_laws::modules_have_the_history;
use rtlil_text::{RtlMemory, RtlModule, RtlWire};
use std::alloc::Global;

/// The module of a design with its memories. It keeps the rules of RTLIL text, has the design's columns, and has the
/// design's history over all legal events, with a value on every bit of every wire. Wires have first values where registers
/// drive them, and nowhere else. Registers act at the edge of their domain, and where its reset acts at once they have an
/// asynchronous reset. Choices become multiplexers, and so do
/// targets with computed offsets and indices. Cells whose bits need each other in turn are cut into cells of one bit.
pub fn lower(alloc: Global, design: &Design, ranks: &Ranks) -> Result<RtlModule, NoMemory>
    requires ranked { IsRanking design.now ranks.now }
    ensures rules { IfOk result IsModule }
    ensures corresponds { IfOk result (Corresponds design.now) }
    ensures begins { IfOk result (HasFirstValues design.now) }
    ensures history { IfOk result (SameHistory design.now) }
{
    flat_keeps_orders();
    flat_has_the_history();
    let _ = design.count();
    let _ = design.processes();
    let flat = flatten(alloc, design)?;
    let _ = flat.count();
    let _ = flat.processes();
    lower_plain(alloc, &flat, ranks)
}

// The module of a design without choices and with fixed targets alone.
fn lower_plain(alloc: Global, design: &Design, ranks: &Ranks) -> Result<RtlModule, NoMemory>
    requires plain { IsPlain design.now }
    requires ordered { IsOrder design.now (map bit_of ranks.now.order) }
    ensures rules { IfOk result IsModule }
    ensures corresponds { IfOk result (Corresponds design.now) }
    ensures begins { IfOk result (HasFirstValues design.now) }
    ensures history { IfOk result (SameHistory design.now) }
{
    modules_have_the_history();
    strides_are_bytes(design);
    let _ = design.count();
    let _ = design.processes();
    let drawn = draw(alloc, design)?;
    split_tangled(alloc, drawn)
}

// Reads each expression, so that a caller knows of each stride that it is a byte.
fn strides_are_bytes(design: &Design)
    ensures { AllByRecursion HasByteStride design.now.pool.exprs }
{
    for k in 0..design.exprs() {
        stride_is_a_byte(design.at(ExprId(k)));
    }
}

fn stride_is_a_byte(e: &Expr)
    ensures { HasByteStride e.now }
{
    match e {
        Expr::Part { stride, .. } => is_a_byte(*stride),
        _ => {}
    }
}

fn is_a_byte(_n: u8)
    ensures { _n < 256 }
{}

// The module, in time that is linear in the numbers of expressions, statements and bits of signals.
pub(crate) fn draw(alloc: Global, design: &Design) -> Result<RtlModule, NoMemory>
    requires plain { IsPlain design.now }
    ensures module { IfOk result (λ m. m ≡ module_of design.now) }
    ensures few { IfOk result (λ m. part_total design.now.pool.exprs < 10 ^ 63) }
    ensures parts { IfOk result (λ m. length (all_parts (memories_of design.now)) < 10 ^ 18) }
    ensures sound { IfOk result IsModule }
    ensures columns { IfOk result (Corresponds design.now) }
    ensures begins { IfOk result (HasFirstValues design.now) }
{
    cells_keep_the_rules();
    let _ = design.count();
    let _ = design.processes();
    let tables = Tables::of(alloc, design)?;
    let mut drawing = drawing_of(alloc, design, &tables)?;
    let memories = push_memories(alloc, design, &tables, &mut drawing)?;
    module_from(alloc, memories, drawing)
}

// The wires of columns, of other signals and of expressions.
fn wires_of(alloc: Global, design: &Design, tables: &Tables) -> Result<Vec<RtlWire>, NoMemory>
    requires rules { IsDesign design.now }
    requires tables { AreTables design.now tables.now }
    ensures { IfOk result (λ wires. wires.items ≡ column_wires design.now 0 design.now.columns ++ flat_map (signal_wires design.now) (range_with_len 0 (length design.now.pool.signals)) ++ flat_map (expr_wires design.now) (range_with_len 0 (length design.now.pool.exprs))) }
{
    let mut wires = Vec::new(alloc);
    push_columns(alloc, design, tables, &mut wires)?;
    push_others(alloc, design, tables, &mut wires)?;
    push_values(alloc, design, &mut wires)?;
    Ok(wires)
}

// All wires, cells and links but those of memories.
fn drawing_of(alloc: Global, design: &Design, tables: &Tables) -> Result<Drawing, NoMemory>
    requires pool { IsPool design.now.pool }
    requires rules { IsDesign design.now }
    requires plain { IsPlain design.now }
    requires tables { AreTables design.now tables.now }
    ensures drawn { IfOk result (λ d. d ≡ drawn_signals design.now) }
    ensures few { IfOk result (λ d. part_total design.now.pool.exprs < 10 ^ 63) }
{
    let mut drawing = Drawing::of_wires(alloc, wires_of(alloc, design, tables)?);
    push_expressions(alloc, design, tables.columns.as_slice(), &mut drawing)?;
    push_signals(alloc, design, tables, &mut drawing)?;
    Ok(drawing)
}

// ---- the lists of a module

fn items_of<T: Drop>(alloc: Global, from: Vec<T>) -> Result<Items<T>, NoMemory>
    ensures { IfOk result (λ items. items ≡ from.items) }
{
    let mut items = Items::new(alloc);
    for x in from {
        items.push(x)?;
    }
    Ok(items)
}

// The module of these memories, wires, cells and links.
fn module_from(
    alloc: Global,
    memories: Items<RtlMemory>,
    drawing: Drawing,
) -> Result<RtlModule, NoMemory>
    ensures { IfOk result (λ m. m ≡ drawn_module memories drawing) }
{
    Ok(RtlModule {
        wires: items_of(alloc, drawing.wires)?,
        memories,
        cells: items_of(alloc, drawing.cells)?,
        links: items_of(alloc, drawing.links)?,
    })
}
