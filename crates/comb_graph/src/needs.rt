// The graph of a design: which bit needs which, through the nodes of expressions.
ghost use Rattle.std.specs.Prelude.{◌≡◌, ◌+◌, ◌-◌, ◌*◌, ◌<◌, ◌≤◌, ◌++◌, ◌∷◌, [], length, IfOk, OnOk};
ghost use Rattle.std.specs.List.{range_with_len};
ghost use Rattle.design_ir.specs.Guards.{block_exprs};
ghost use Rattle.design_ir.specs.Named.{AllBelow};
ghost use Rattle.design_ir.specs.PoolRules.{IsPool};
ghost use Rattle.design_ir.specs.Needed.{every, needed, needed_indices};
ghost use Rattle.design_ir.specs.Values.{form};
ghost use Rattle.comb_graph.specs.Meanings.{Extends, KeepsSignals, Means};
ghost use Rattle.comb_graph.specs.Rules.{Adds, all_rules, comb_part, comb_assignments, IsNeedsGraph};
ghost use Rattle.comb_graph.specs.Seen.{HasAims};
ghost use Rattle.comb_graph.specs.Places.{HasPlaces, HasBits, HasNode, AreBits, bit_nodes};

use crate::aims::{AimTable, all_aims};
use crate::blocks::add_block;
use crate::places::{Nodes, bit_targets, index_targets};
use crate::reads::add_memories;
use amh_host::{Items, NoMemory};
use design_ir::{Design, DesignProcess, ExprId, Exprs};
use digraph::Graph;
use std::alloc::Global;

// The numbers from one up to another.
fn range(alloc: Global, first: usize, end: usize) -> Result<Nodes, NoMemory>
    requires { first ≤ end }
    ensures { IfOk result (λ ns. ns ≡ range_with_len first (end - first)) }
{
    let mut out = Items::new(alloc);
    for node in first..end {
        out.push(node)?;
    }
    Ok(out)
}

// Adds a node for each bit of an expression.
fn place_bits(
    alloc: Global,
    design: &Design,
    graph: &mut Graph,
    firsts: &Nodes,
    e: ExprId,
) -> Result<(), NoMemory>
    requires rules { IsPool design.now.pool }
    requires places { HasPlaces graph.old design.now.pool firsts.now }
    requires next { e.0 ≡ length firsts.now }
    requires there { e.0 < length design.now.pool.exprs }
    ensures { IfOk result (λ _. HasBits graph.old graph.new design.now.pool e.0 (form design.now.pool e.0).width) }
{
    graph.known();
    let expr = design.at(e);
    for k in 0..design.shape(e).width {
        graph.known();
        let targets = bit_targets(alloc, design, firsts, expr, k)?;
        graph.join(targets.as_slice())?;
    }
    Ok(())
}

// Adds the node of all bits of an expression, whose own nodes are the last ones.
fn place_whole(
    alloc: Global,
    design: &Design,
    graph: &mut Graph,
    first: usize,
    e: ExprId,
) -> Result<(), NoMemory>
    requires there { e.0 < length design.now.pool.exprs }
    requires rules { IsPool design.now.pool }
    requires size { bit_nodes design.now.pool ≤ first }
    requires last { graph.old.size ≡ first + (form design.now.pool e.0).width }
    requires bits { AreBits graph.old design.now.pool e.0 first }
    ensures { IfOk result (λ _. HasNode graph.old graph.new design.now.pool (every (form design.now.pool e.0) (needed design.now.pool e.0))) }
{
    graph.known();
    let all = range(alloc, first, graph.size())?;
    graph.join(all.as_slice())?;
    Ok(())
}

// Adds the node of the offsets and indices of an expression.
fn place_indices(
    alloc: Global,
    design: &Design,
    graph: &mut Graph,
    firsts: &Nodes,
    e: ExprId,
) -> Result<(), NoMemory>
    requires rules { IsPool design.now.pool }
    requires places { HasPlaces graph.old design.now.pool firsts.now }
    requires next { e.0 ≡ length firsts.now }
    requires there { e.0 < length design.now.pool.exprs }
    ensures { IfOk result (λ _. HasNode graph.old graph.new design.now.pool (needed_indices design.now.pool e.0)) }
{
    graph.known();
    let targets = index_targets(alloc, design, firsts, design.at(e))?;
    graph.join(targets.as_slice())?;
    Ok(())
}

// Adds the nodes of the next expression.
fn place(
    alloc: Global,
    design: &Design,
    graph: &mut Graph,
    firsts: &mut Nodes,
    e: ExprId,
) -> Result<(), NoMemory>
    requires rules { IsPool design.now.pool }
    requires places { HasPlaces graph.old design.now.pool firsts.old }
    requires next { e.0 ≡ length firsts.old }
    requires there { e.0 < length design.now.pool.exprs }
    ensures places { OnOk result (HasPlaces graph.new design.now.pool firsts.new) }
    ensures count { OnOk result (length firsts.new ≡ length firsts.old + 1) }
    ensures extends { OnOk result (Extends graph.old graph.new (bit_nodes design.now.pool)) }
    ensures signals { OnOk result (KeepsSignals graph.old graph.new (bit_nodes design.now.pool)) }
{
    let first = graph.size();
    graph.known();
    place_bits(alloc, design, graph, firsts, e)?;
    graph.known();
    place_whole(alloc, design, graph, first, e)?;
    graph.known();
    place_indices(alloc, design, graph, firsts, e)?;
    firsts.push(first)?;
    Ok(())
}

/// Adds the nodes of all expressions, and tells the first node of each.
pub fn place_all(alloc: Global, design: &Design, graph: &mut Graph) -> Result<Nodes, NoMemory>
    requires { graph.old.size ≡ bit_nodes design.now.pool }
    ensures places { IfOk result (HasPlaces graph.new design.now.pool) }
    ensures count { IfOk result (λ firsts. length firsts ≡ length design.now.pool.exprs) }
    ensures extends { OnOk result (Extends graph.old graph.new (bit_nodes design.now.pool)) }
    ensures signals { OnOk result (KeepsSignals graph.old graph.new (bit_nodes design.now.pool)) }
{
    let mut firsts = Items::new(alloc);
    for e in 0..design.count() {
        place(alloc, design, graph, &mut firsts, ExprId(e))?;
    }
    Ok(firsts)
}

// Adds the edges of a process, where it is combinational.
fn add_process(
    alloc: Global,
    design: &Design,
    graph: &mut Graph,
    tables: (&Nodes, &AimTable),
    guard: usize,
    process: &DesignProcess,
) -> Result<(), NoMemory>
    requires rules { IsPool design.now.pool }
    requires places { HasPlaces graph.old design.now.pool tables.0.now }
    requires aims { HasAims design.now.pool tables.1.now }
    requires count { length tables.0.now ≡ length design.now.pool.exprs }
    requires guard { Means graph.old (bit_nodes design.now.pool) guard [] }
    requires names { AllBelow (length design.now.pool.exprs) (block_exprs process.now.body) }
    ensures { OnOk result (Adds graph.old graph.new design.now.pool (all_rules design.now.pool (comb_part process.now))) }
{
    match process.domain {
        Some(_) => Ok(()),
        None => {
            add_block(alloc, design, graph, tables, guard, &process.body)?;
            Ok(())
        }
    }
}

// Adds the edges of the combinational processes.
fn add_processes(
    alloc: Global,
    design: &Design,
    graph: &mut Graph,
    tables: (&Nodes, &AimTable),
    guard: usize,
) -> Result<(), NoMemory>
    requires rules { IsPool design.now.pool }
    requires places { HasPlaces graph.old design.now.pool tables.0.now }
    requires aims { HasAims design.now.pool tables.1.now }
    requires count { length tables.0.now ≡ length design.now.pool.exprs }
    requires guard { Means graph.old (bit_nodes design.now.pool) guard [] }
    ensures { OnOk result (Adds graph.old graph.new design.now.pool (all_rules design.now.pool (comb_assignments design.now.processes))) }
{
    graph.known();
    for process in design.processes().as_slice() {
        graph.known();
        add_process(alloc, design, graph, tables, guard, process)?;
    }
    Ok(())
}

/// The graph of a design: from the node of a bit one comes, past no other signal's, to those of the bits that it needs.
pub fn needs_graph(alloc: Global, design: &Design) -> Result<Graph, NoMemory>
    ensures { IfOk result (λ g. IsNeedsGraph g design.now) }
{
    let mut graph = Graph::new(alloc, 128 * design.signals() as usize)?;
    let firsts = place_all(alloc, design, &mut graph)?;
    let table = all_aims(alloc, design)?;
    graph.known();
    let guard = graph.join(&[])?;
    let _ = design.count();
    graph.known();
    add_processes(alloc, design, &mut graph, (&firsts, &table), guard)?;
    add_memories(design, &mut graph, &firsts)?;
    Ok(graph)
}
