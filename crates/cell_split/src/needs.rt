// Which cell needs which, as a graph of cells and of the bits of wires between them.
ghost use Rattle.std.specs.Prelude.{◌≡◌, ◌<◌, ◌≤◌, All, length, codes, IfOk, OnOk};
ghost use Rattle.lists.specs.Texts.{text_eq};
ghost use Rattle.rtlil_text.specs.Sources.{number_at};
ghost use Rattle.rtlil_text.specs.CellTables.{output_of};
ghost use Rattle.digraph.specs.Graphs.{Digraph, Leads};
ghost use Rattle.cell_split.specs.Loops.{is_comb};
ghost use Rattle.cell_split.specs.Needs.{node_of, Grows, Ties, LeadsAt, LeadAlong, HasEnd, HasCell, HasCells, HasLink, HasLinks, HasNeeds};

use crate::nodes::Nodes;
use crate::spec_nodes::spec_nodes;
use amh_host::NoMemory;
use digraph::Graph;
use rtlil_text::{RtlCell, RtlCells, RtlEnd, RtlLink, RtlLinks, RtlModule, RtlValue};
use shape_rules::CellKind;
use std::alloc::Global;

/// The graph in which a cell leads to the bits of its output, the bits at its other ends lead to it, and the bits on the
/// right side of a link lead to those on the left. The first nodes are the cells.
pub(crate) fn needs(alloc: Global, rtl: &RtlModule) -> Result<Graph, NoMemory>
    ensures { IfOk result (HasNeeds rtl.now) }
{
    let nodes = Nodes::of(alloc, rtl)?;
    let mut graph = Graph::new(alloc, nodes.count)?;
    add_cells(alloc, &nodes, &mut graph, &rtl.cells)?;
    add_links(alloc, &nodes, &mut graph, &rtl.links)?;
    Ok(graph)
}

// ---- edges

fn lead(graph: &mut Graph, from: usize, upto: usize) -> Result<(), NoMemory>
    requires from { from < graph.old.size }
    requires upto { upto < graph.old.size }
    ensures grows { OnOk result (Grows graph.old graph.new) }
    ensures leads { OnOk result (Leads graph.new from upto) }
{
    graph.add(from, upto)
}

fn tie(graph: &mut Graph, cell: usize, is_output: bool, bit: usize) -> Result<(), NoMemory>
    requires cell { cell < graph.old.size }
    requires bit { bit < graph.old.size }
    ensures grows { OnOk result (Grows graph.old graph.new) }
    ensures tied { OnOk result (Ties graph.new cell is_output bit) }
{
    if is_output {
        lead(graph, cell, bit)
    } else {
        lead(graph, bit, cell)
    }
}

fn tie_all(graph: &mut Graph, cell: usize, is_output: bool, bits: &[usize]) -> Result<(), NoMemory>
    requires cell { cell < graph.old.size }
    requires bits { All (λ n. n < graph.old.size) bits.now }
    ensures grows { OnOk result (Grows graph.old graph.new) }
    ensures tied { OnOk result (All (Ties graph.new cell is_output) bits.now) }
{
    for bit in bits {
        tie(graph, cell, is_output, *bit)?;
    }
    Ok(())
}

// Each node leads to that at its place.
fn lead_along(graph: &mut Graph, froms: &[usize], uptos: &[usize]) -> Result<(), NoMemory>
    requires froms { All (λ n. n < graph.old.size) froms.now }
    requires uptos { All (λ n. n < graph.old.size) uptos.now }
    ensures grows { OnOk result (Grows graph.old graph.new) }
    ensures leads { OnOk result (LeadAlong graph.new froms.now uptos.now) }
{
    for place in 0..froms.len() {
        lead_at(graph, froms, uptos, place)?;
    }
    Ok(())
}

fn lead_at(
    graph: &mut Graph,
    froms: &[usize],
    uptos: &[usize],
    place: usize,
) -> Result<(), NoMemory>
    requires froms { All (λ n. n < graph.old.size) froms.now }
    requires uptos { All (λ n. n < graph.old.size) uptos.now }
    requires place { place < length froms.now }
    ensures grows { OnOk result (Grows graph.old graph.new) }
    ensures leads { OnOk result (LeadsAt graph.new froms.now uptos.now place) }
{
    if place < uptos.len() {
        return lead(graph, froms[place], uptos[place]);
    }
    Ok(())
}

// ---- cells

/// The number under a parameter, or 0 where the cell has none there.
pub(crate) fn number(cell: &RtlCell, name: &str) -> u32
    ensures { result ≡ number_at cell.now name.now }
{
    match cell.parameter(name) {
        Some(RtlValue::Number(n)) => *n,
        _ => 0,
    }
}

// Registers and clocked reads take their operands at an edge of the clock alone; writes and first values drive nothing.
fn is_comb(cell: &RtlCell) -> bool
    ensures { result ≡ is_comb cell.now }
{
    match cell.kind {
        CellKind::Dff | CellKind::Adff | CellKind::MemoryWrite | CellKind::MemoryInit => false,
        CellKind::MemoryRead => number(cell, "\\CLK_ENABLE") != 1,
        _ => true,
    }
}

// The output of such a cell.
fn output_name(kind: CellKind) -> &'static str
    ensures { result.now ≡ output_of kind }
{
    match kind {
        CellKind::Dff | CellKind::Adff => "\\Q",
        CellKind::MemoryRead => "\\DATA",
        CellKind::MemoryWrite | CellKind::MemoryInit => "",
        _ => "\\Y",
    }
}

fn add_end(
    alloc: Global,
    nodes: &Nodes,
    graph: &mut Graph,
    place: usize,
    output: &str,
    end: &RtlEnd,
) -> Result<(), NoMemory>
    requires size { graph.old.size ≡ nodes.now.count }
    requires place { place < graph.old.size }
    ensures grows { OnOk result (Grows graph.old graph.new) }
    ensures end { OnOk result (HasEnd graph.new (node_of nodes.now) place output.now end.now) }
{
    let bits = spec_nodes(alloc, nodes, &end.spec)?;
    tie_all(graph, place, end.name.is(output), &bits)?;
    Ok(())
}

fn add_ends(
    alloc: Global,
    nodes: &Nodes,
    graph: &mut Graph,
    place: usize,
    cell: &RtlCell,
) -> Result<(), NoMemory>
    requires size { graph.old.size ≡ nodes.now.count }
    requires place { place < graph.old.size }
    ensures grows { OnOk result (Grows graph.old graph.new) }
    ensures ends { OnOk result (All (HasEnd graph.new (node_of nodes.now) place (output_of cell.now.kind)) cell.now.ends) }
{
    let output = output_name(cell.kind);
    for end in cell.ends.as_slice() {
        add_end(alloc, nodes, graph, place, output, end)?;
    }
    Ok(())
}

fn add_cell(
    alloc: Global,
    nodes: &Nodes,
    graph: &mut Graph,
    place: usize,
    cell: &RtlCell,
) -> Result<(), NoMemory>
    requires size { graph.old.size ≡ nodes.now.count }
    requires place { place < graph.old.size }
    ensures grows { OnOk result (Grows graph.old graph.new) }
    ensures cell { OnOk result (HasCell graph.new (node_of nodes.now) place cell.now) }
{
    if is_comb(cell) {
        return add_ends(alloc, nodes, graph, place, cell);
    }
    Ok(())
}

fn add_cells(
    alloc: Global,
    nodes: &Nodes,
    graph: &mut Graph,
    cells: &RtlCells,
) -> Result<(), NoMemory>
    requires size { graph.old.size ≡ nodes.now.count }
    requires few { length cells.now ≤ graph.old.size }
    ensures grows { OnOk result (Grows graph.old graph.new) }
    ensures cells { OnOk result (HasCells graph.new (node_of nodes.now) cells.now) }
{
    for place in 0..cells.len() {
        add_cell(alloc, nodes, graph, place, cells.get(place))?;
    }
    Ok(())
}

// ---- links

fn add_link(alloc: Global, nodes: &Nodes, graph: &mut Graph, link: &RtlLink) -> Result<(), NoMemory>
    requires size { graph.old.size ≡ nodes.now.count }
    ensures grows { OnOk result (Grows graph.old graph.new) }
    ensures link { OnOk result (HasLink graph.new (node_of nodes.now) link.now) }
{
    let left = spec_nodes(alloc, nodes, &link.left)?;
    let right = spec_nodes(alloc, nodes, &link.right)?;
    lead_along(graph, &right, &left)?;
    Ok(())
}

fn add_links(
    alloc: Global,
    nodes: &Nodes,
    graph: &mut Graph,
    links: &RtlLinks,
) -> Result<(), NoMemory>
    requires size { graph.old.size ≡ nodes.now.count }
    ensures grows { OnOk result (Grows graph.old graph.new) }
    ensures links { OnOk result (HasLinks graph.new (node_of nodes.now) links.now) }
{
    for place in 0..links.len() {
        add_link(alloc, nodes, graph, links.get(place))?;
    }
    Ok(())
}
