// A module of which the cells that lie on a loop are cut.
ghost use Rattle.std.specs.Prelude.{◌≡◌, ◌<◌, ◌≤◌, ◌^◌, ◌+◌, ◌++◌, ◌∷◌, [], ℕ, true, false, length, take, All, codes, IfOk, OnOk, slice_get, Some};
ghost use Rattle.rtlil_text.specs.Rules.{IsModule, module_ids};
ghost use Rattle.rtlil_text.specs.Sources.{end_width, number_at};
ghost use Rattle.rtlil_text.specs.Inits.{register_bits};
ghost use Rattle.cell_split.specs.Split.{can_split, split_cell, split_cells, split_of};
ghost use Rattle.cell_split.specs.Kept.{KeepsHistory, AreFree};
ghost use Rattle.cell_split.specs.Loops.{LoopsAreOfBits};
ghost use Rattle.cell_split.specs.Needs.{is_marked};
ghost use Rattle.cell_split.specs.Short.{IsPlainCell, AreNarrow, width_name};

use crate::blocks::free_number;
use crate::copies::copied_cell;
use crate::laws::{splits_keep_the_history, splits_keep_the_registers, splits_keep_the_rules};
use crate::needs::number;
use crate::pieces::{is_bitwise, push_pieces};
use crate::tangled::tangled;
use amh_host::{Items, NoMemory};
use rtlil_text::{RtlCell, RtlCells, RtlModule, RtlWires};
use shape_rules::CellKind;
use std::alloc::Global;

/// The module with each bitwise cell cut into cells of one bit where it lies on a loop between cells, so that a reader
/// that takes cells whole sees loops only where bits need themselves. Its wires, memories and links stay, it keeps the
/// rules of RTLIL text, and every bit of every wire has the value of before after every event, or has none in both;
/// registers drive the same bits. Which cells lie on a loop is found in time that is linear in the bits of the module,
/// but for the look-up of wires by their ids. `NoMemory` comes where memory lacks, and for no other reason.
pub fn split_tangled(alloc: Global, rtl: RtlModule) -> Result<RtlModule, NoMemory>
    requires { IsModule rtl }
    ensures rules { IfOk result IsModule }
    ensures wires { IfOk result (λ m. m.wires ≡ rtl.wires) }
    ensures memories { IfOk result (λ m. m.memories ≡ rtl.memories) }
    ensures links { IfOk result (λ m. m.links ≡ rtl.links) }
    ensures registers { IfOk result (λ m. register_bits m ≡ register_bits rtl) }
    ensures history { IfOk result (KeepsHistory rtl) }
    ensures loops { IfOk result LoopsAreOfBits }
{
    let marks = tangled(alloc, &rtl)?;
    if !any(&marks) {
        return Ok(rtl);
    }
    let first = free_number(alloc, &rtl)?;
    splits_keep_the_rules();
    splits_keep_the_registers();
    splits_keep_the_history();
    split(alloc, first, &marks, rtl)
}

// Whether a cell is marked.
fn any(marks: &[bool]) -> bool
    ensures { result ≡ false → (p : ℕ) → is_marked marks.now p ≡ false }
{
    for marked in marks {
        if *marked {
            return true;
        }
    }
    false
}

/// The module of which the marked cells are cut, with new cells numbered from `first` on.
fn split(alloc: Global, first: u128, marks: &[bool], rtl: RtlModule) -> Result<RtlModule, NoMemory>
    requires rules { IsModule rtl }
    requires first { first < 2 ^ 127 }
    requires marks { length marks.now ≡ length rtl.cells }
    ensures split { IfOk result (λ m. m ≡ split_of first marks.now rtl) }
    ensures few { IfOk result (λ m. length (split_cells first marks.now rtl.cells) < 2 ^ 64) }
{
    let cells = split_cells(alloc, first, marks, &rtl)?;
    Ok(RtlModule {
        wires: rtl.wires,
        memories: rtl.memories,
        cells,
        links: rtl.links,
    })
}

// Reads the width of each wire, so that a caller knows that it is a number of 32 bits.
fn wires_are_narrow(wires: &RtlWires)
    ensures { AreNarrow wires.now }
{
    for wire in wires.as_slice() {
        is_narrow(wire.width);
    }
}

fn is_narrow(_width: u32)
    ensures { _width < 2 ^ 32 }
{}

// The width of the output of a bitwise cell, which a parameter has.
fn output_width(cell: &RtlCell) -> u32
    ensures { result ≡ number_at cell.now (width_name cell.now.kind) }
{
    match cell.kind {
        CellKind::Mux => number(cell, "\\WIDTH"),
        _ => number(cell, "\\Y_WIDTH"),
    }
}

// The cell, or the cells of its bits.
fn push_split(
    alloc: Global,
    first: u128,
    marked: bool,
    cell: &RtlCell,
    cells: &mut RtlCells,
) -> Result<(), NoMemory>
    requires plain { IsPlainCell cell.now }
    requires first { first < 2 ^ 127 }
    ensures { OnOk result (cells.new ≡ cells.old ++ split_cell (first + length cells.old) marked cell.now) }
{
    if marked && is_bitwise(cell.kind) {
        let width = output_width(cell);
        if 1 < width {
            return push_pieces(alloc, first, cell, width, cells);
        }
    }
    cells.push(copied_cell(alloc, cell)?)
}

fn split_cells(
    alloc: Global,
    first: u128,
    marks: &[bool],
    rtl: &RtlModule,
) -> Result<RtlCells, NoMemory>
    requires rules { IsModule rtl.now }
    requires first { first < 2 ^ 127 }
    requires marks { length marks.now ≡ length rtl.now.cells }
    ensures cells { IfOk result (λ cells. cells ≡ split_cells first marks.now rtl.now.cells) }
    ensures few { IfOk result (λ cells. length cells < 2 ^ 64) }
{
    wires_are_narrow(&rtl.wires);
    let mut cells = Items::new(alloc);
    for (k, marked) in marks.iter().enumerate() {
        push_split(alloc, first, *marked, rtl.cells.get(k), &mut cells)?;
    }
    let _ = cells.len();
    Ok(cells)
}
