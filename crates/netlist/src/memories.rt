// The memories of a module, and what their parts draw.
ghost use Rattle.std.specs.Prelude.{◌≡◌, ◌≤◌, ◌<◌, ◌+◌, ◌*◌, ◌^◌, ◌++◌, [], true, map, length, IfOk, OnOk};
ghost use Rattle.std.specs.List.{filter};
ghost use Rattle.design_ir.specs.declared.memory.MemRead.{MemRead};
ghost use Rattle.design_ir.specs.declared.port.Column.{Column};
ghost use Rattle.design_ir.specs.Designs.{IsDesign, IsMemory};
ghost use Rattle.memory_cells.specs.Plans.{planned};
ghost use Rattle.netlist_laws.specs.Expressions.{and_also};
ghost use Rattle.netlist_laws.specs.Module.{is_there};
ghost use Rattle.netlist_laws.specs.MemoryDrawings.{row_width, plan_of, write_parts, parts_of, all_parts, drawn_parts, memories_of, memory_drawings, memory_lines, Placed, Reads};
ghost use Rattle.netlist.specs.Tables.{AreTables, names_with, own_parts, placed_one, together};

use crate::ports::{read_drawing, write_drawing};
use crate::signals::Tables;
use amh_host::{Items, NoMemory};
use design_ir::{Design, Memory};
use memory_cells::{Plan, init_cell, memory};
use netlist_cells::drawing::{Drawing, one_cell};
use netlist_cells::ids::{public_id, step_id};
use new_names::{NewNames, names_are_new};
use rtlil_text::RtlMemory;
use std::alloc::Global;

/// Whether a memory has rows and bits, and so is one of the module.
pub(crate) fn is_there(m: &Memory) -> bool
    ensures { result ≡ is_there m.now }
{
    0 < m.depth && 0 < m.shape.width
}

// The least width whose numbers name so many rows.
fn row_width(depth: u32) -> u32
    ensures { result ≡ row_width depth }
{
    for w in 0..17 {
        if depth <= 1 << w {
            return w;
        }
    }
    17
}

// How the cells of a memory see it.
fn plan_of(alloc: Global, name: &str, m: &Memory) -> Result<Plan, NoMemory>
    requires { length m.now.writes ≤ 64 }
    ensures plan { IfOk result (λ p. p ≡ plan_of name.now m.now) }
    ensures narrow { IfOk result (λ p. p.width ≤ 128) }
{
    Ok(Plan {
        id: public_id(alloc, name)?,
        address: row_width(m.depth).max(1),
        width: m.shape.width,
        depth: m.depth,
        writes: m.writes.len() as u32,
    })
}

// ---- the parts of one memory

// The drawings of its write ports, their ids numbered from n on.
fn push_writes(
    alloc: Global,
    design: &Design,
    t: &Tables,
    plan: &Plan,
    m: &Memory,
    n: u128,
    drawing: &mut Drawing,
) -> Result<(), NoMemory>
    requires rules { IsDesign design.now }
    requires tables { AreTables design.now t.now }
    requires few { n < 2 ^ 98 }
    requires memory { IsMemory design.now m.now }
    requires counted { plan.now.writes ≡ length m.now.writes }
    ensures { OnOk result (drawing.new ≡ and_also drawing.old (together (drawn_parts design.now n (own_parts plan.now m.now (write_parts 0 m.now.writes))))) }
{
    for k in 0..m.writes.len() {
        let first = n + 11 * k as u128;
        let port = m.writes.get(k);
        drawing.also(write_drawing(alloc, design, t, plan, m, k as u32, first, port)?)?;
    }
    Ok(())
}

// The drawings of its read ports, likewise.
fn push_reads(
    alloc: Global,
    design: &Design,
    t: &Tables,
    plan: &Plan,
    m: &Memory,
    n: u128,
    drawing: &mut Drawing,
) -> Result<(), NoMemory>
    requires rules { IsDesign design.now }
    requires tables { AreTables design.now t.now }
    requires few { n < 2 ^ 98 }
    requires memory { IsMemory design.now m.now }
    ensures { OnOk result (drawing.new ≡ and_also drawing.old (together (drawn_parts design.now n (own_parts plan.now m.now (map Reads m.now.reads))))) }
{
    for k in 0..m.reads.len() {
        let first = n + 11 * k as u128;
        let port = m.reads.get(k);
        drawing.also(read_drawing(alloc, design, t, plan, m, first, port)?)?;
    }
    Ok(())
}

// The drawings of its first rows, its write ports and its read ports.
fn push_parts(
    alloc: Global,
    design: &Design,
    t: &Tables,
    plan: &Plan,
    m: &Memory,
    n: u128,
    drawing: &mut Drawing,
) -> Result<(), NoMemory>
    requires rules { IsDesign design.now }
    requires tables { AreTables design.now t.now }
    requires few { n < 2 ^ 97 }
    requires memory { IsMemory design.now m.now }
    requires counted { plan.now.writes ≡ length m.now.writes }
    requires narrow { plan.now.width ≤ 128 }
    ensures { OnOk result (drawing.new ≡ and_also drawing.old (together (drawn_parts design.now n (own_parts plan.now m.now (parts_of m.now))))) }
{
    let rows = init_cell(alloc, plan, step_id(alloc, n)?, m.rows.as_slice())?;
    drawing.also(one_cell(alloc, rows)?)?;
    push_writes(alloc, design, t, plan, m, n + 11, drawing)?;
    let reads = n + 11 + 11 * m.writes.len() as u128;
    push_reads(alloc, design, t, plan, m, reads, drawing)?;
    Ok(())
}

// ---- all memories

// The names of the columns, which differ, so that each stays.
fn column_names(alloc: Global, design: &Design) -> Result<NewNames, NoMemory>
    ensures { IfOk result (λ names. names ≡ map (λ (x : Column). x.name) design.now.columns) }
{
    names_are_new();
    let _ = design.processes();
    let mut names = NewNames::new(alloc);
    for k in 0..design.columns() {
        names.give(design.column(k).name.as_str())?;
    }
    Ok(names)
}

// A memory of the design, behind those that have these names: the number behind its ids.
fn push_memory(
    alloc: Global,
    design: &Design,
    t: &Tables,
    m: &Memory,
    n: u128,
    names: &mut NewNames,
    lines: &mut Items<RtlMemory>,
    drawing: &mut Drawing,
) -> Result<u128, NoMemory>
    requires rules { IsDesign design.now }
    requires tables { AreTables design.now t.now }
    requires few { n < 2 ^ 97 }
    requires memory { IsMemory design.now m.now }
    ensures names { OnOk result (names.new ≡ names_with names.old m.now) }
    ensures lines { OnOk result (lines.new ≡ lines.old ++ map (λ (x : Placed). planned x.plan) (placed_one names.old m.now)) }
    ensures drawn { OnOk result (drawing.new ≡ and_also drawing.old (together (drawn_parts design.now n (all_parts (placed_one names.old m.now))))) }
    ensures count { IfOk result (λ k. k ≡ n + 11 * length (all_parts (placed_one names.old m.now))) }
    ensures few { IfOk result (λ k. k ≤ n + 11 * 65) }
{
    if !is_there(m) {
        return Ok(n);
    }
    let name = names.give(m.name.as_str())?;
    let plan = plan_of(alloc, name.as_str(), m)?;
    lines.push(memory(alloc, &plan)?)?;
    push_parts(alloc, design, t, &plan, m, n, drawing)?;
    Ok(n + 11 * (1 + m.writes.len() + m.reads.len()) as u128)
}

/// Adds the drawings of all memories behind those of the signals, and tells the memories of the module. Their parts are so few
/// that ids differ: 2^32 memories and more are refused as want of memory, since no such list fits into one.
pub(crate) fn push_memories(
    alloc: Global,
    design: &Design,
    t: &Tables,
    drawing: &mut Drawing,
) -> Result<Items<RtlMemory>, NoMemory>
    requires rules { IsDesign design.now }
    requires tables { AreTables design.now t.now }
    ensures lines { IfOk result (λ ms. ms ≡ memory_lines design.now) }
    ensures drawn { OnOk result (drawing.new ≡ and_also drawing.old (together (memory_drawings design.now))) }
    ensures few { OnOk result (length (all_parts (memories_of design.now)) < 10 ^ 18) }
{
    let memories = design.memories();
    if memories.len() > u32::MAX as usize {
        return Err(NoMemory);
    }
    let mut names = column_names(alloc, design)?;
    let mut lines = Items::new(alloc);
    let mut n = 3 * design.signals() as u128;
    for j in 0..memories.len() {
        let m = memories.get(j);
        n = push_memory(alloc, design, t, m, n, &mut names, &mut lines, drawing)?;
    }
    Ok(lines)
}
