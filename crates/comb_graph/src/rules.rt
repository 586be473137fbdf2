// The edges of the nodes of signals' bits: what the assignments ask.
ghost use Rattle.std.specs.Prelude.{◌≡◌, ◌+◌, ◌<◌, ◌≤◌, ◌∷◌, [], All, length, IfOk, OnOk};
ghost use Rattle.design_ir.specs.PoolRules.{IsPool};
ghost use Rattle.design_ir.specs.Values.{form};
ghost use Rattle.digraph.specs.Graphs.{joined};
ghost use Rattle.comb_graph.specs.Meanings.{Extends};
ghost use Rattle.comb_graph.specs.Places.{HasPlaces, IsTable, bit_nodes, first_of, indices_at};
ghost use Rattle.comb_graph.specs.Rules.{AddsAims, AddsAssignment, value_targets};
ghost use Rattle.comb_graph.specs.Seen.{HasAims};

use crate::aimed::{Aimed, fixed_place};
use crate::aims::AimTable;
use crate::places::{Nodes, indices, one, push_extended, two, whole};
use amh_host::NoMemory;
use design_ir::{Design, ExprId, Exprs};
use digraph::Graph;
use std::alloc::Global;

// Where the node of a bit that is written leads.
fn value_targets(
    alloc: Global,
    design: &Design,
    firsts: &Nodes,
    shared: usize,
    value: ExprId,
    source: Option<u8>,
) -> Result<Nodes, NoMemory>
    requires known { value.0 < length firsts.now }
    requires table { IsTable design.now.pool firsts.now }
    ensures { IfOk result (λ ns. ns ≡ value_targets (form design.now.pool) (first_of firsts.now) shared value source) }
{
    match source {
        None => two(alloc, shared, whole(design, firsts, value)),
        Some(k) => {
            let mut out = one(alloc, shared)?;
            push_extended(&mut out, design, firsts, value, k)?;
            Ok(out)
        }
    }
}

// The node of what each bit that an assignment may write needs: the guard's conditions, and the target's offsets and
// indices.
fn share(
    design: &Design,
    graph: &mut Graph,
    firsts: &Nodes,
    guard: usize,
    target: ExprId,
) -> Result<usize, NoMemory>
    requires places { HasPlaces graph.old design.now.pool firsts.now }
    requires target { target.0 < length firsts.now }
    requires guard { guard < graph.old.size }
    ensures node { IfOk result (λ n. n ≡ graph.old.size) }
    ensures graph { OnOk result (graph.new ≡ joined graph.old (guard ∷ indices_at (form design.now.pool) (first_of firsts.now) target ∷ [])) }
{
    graph.join(&[guard, indices(design, firsts, target)])
}

// Adds the edges of the bits that an assignment may write.
fn add_aims(
    alloc: Global,
    design: &Design,
    graph: &mut Graph,
    firsts: &Nodes,
    shared: usize,
    value: ExprId,
    aims: &[Aimed],
) -> Result<(), NoMemory>
    requires rules { IsPool design.now.pool }
    requires places { HasPlaces graph.old design.now.pool firsts.now }
    requires value { value.0 < length firsts.now }
    requires shared { shared < graph.old.size }
    requires aims { All (λ a. a.node < bit_nodes design.now.pool) aims.now }
    ensures extends { OnOk result (Extends graph.old graph.new (bit_nodes design.now.pool)) }
    ensures aims { OnOk result (AddsAims graph.old graph.new design.now.pool shared value aims.now (length aims.now)) }
{
    graph.known();
    for aim in aims {
        graph.known();
        let source = fixed_place(aim.at);
        let targets = value_targets(alloc, design, firsts, shared, value, source)?;
        graph.lead(aim.node, targets.as_slice())?;
    }
    Ok(())
}

// Adds the edges of an assignment.
pub fn add_assignment(
    alloc: Global,
    design: &Design,
    graph: &mut Graph,
    tables: (&Nodes, &AimTable),
    guard: usize,
    target: ExprId,
    value: ExprId,
) -> Result<(), NoMemory>
    requires rules { IsPool design.now.pool }
    requires places { HasPlaces graph.old design.now.pool tables.0.now }
    requires aims { HasAims design.now.pool tables.1.now }
    requires count { length tables.0.now ≡ length design.now.pool.exprs }
    requires target { target.0 < length design.now.pool.exprs }
    requires value { value.0 < length design.now.pool.exprs }
    requires guard { guard < graph.old.size }
    ensures extends { OnOk result (Extends graph.old graph.new (bit_nodes design.now.pool)) }
    ensures rules { OnOk result (AddsAssignment graph.old graph.new design.now.pool guard target value) }
{
    let (firsts, table) = tables;
    graph.known();
    let shared = share(design, graph, firsts, guard, target)?;
    let aims = table.get(target.0 as usize);
    add_aims(alloc, design, graph, firsts, shared, value, aims.as_slice())?;
    Ok(())
}
