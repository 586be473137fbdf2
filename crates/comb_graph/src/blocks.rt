// The edges of statements: each assignment under the conditions of the arms around it.
ghost use Rattle.std.specs.Prelude.{◌≡◌, ◌<◌, ◌∷◌, [], length, IfOk, OnOk};
ghost use Rattle.design_ir.specs.Guards.{statement_exprs, choices_exprs, block_exprs};
ghost use Rattle.design_ir.specs.Named.{AllBelow};
ghost use Rattle.design_ir.specs.PoolRules.{IsPool};
ghost use Rattle.design_ir.specs.Statements.{statement_of};
ghost use Rattle.design_ir.specs.Values.{form};
ghost use Rattle.digraph.specs.Graphs.{joined};
ghost use Rattle.comb_graph.specs.Meanings.{Extends};
ghost use Rattle.comb_graph.specs.Places.{HasPlaces, bit_nodes, first_of, whole_at};
ghost use Rattle.comb_graph.specs.Rules.{AddsBlock, AddsStatement, AddsArms};
ghost use Rattle.comb_graph.specs.Seen.{HasAims};

use crate::aims::AimTable;
use crate::places::{Nodes, whole};
use crate::rules::add_assignment;
use amh_host::NoMemory;
use design_ir::{Arms, Design, ExprId, Stmt, Stmts};
use digraph::Graph;
use std::alloc::Global;

// Adds the node of an arm's condition and of those for which the guard's node stands.
fn guard_arm(
    design: &Design,
    graph: &mut Graph,
    firsts: &Nodes,
    guard: usize,
    condition: ExprId,
) -> Result<usize, NoMemory>
    requires places { HasPlaces graph.old design.now.pool firsts.now }
    requires condition { condition.0 < length firsts.now }
    requires guard { guard < graph.old.size }
    ensures node { IfOk result (λ n. n ≡ graph.old.size) }
    ensures graph { OnOk result (graph.new ≡ joined graph.old (guard ∷ whole_at (form design.now.pool) (first_of firsts.now) condition ∷ [])) }
{
    graph.join(&[guard, whole(design, firsts, condition)])
}

/// Adds the edges of statements, under the conditions for which the guard's node stands.
#[cycle(blocks)]
pub fn add_block(
    alloc: Global,
    design: &Design,
    graph: &mut Graph,
    tables: (&Nodes, &AimTable),
    guard: usize,
    body: &Stmts,
) -> Result<(), NoMemory>
    requires rules { IsPool design.now.pool }
    requires places { HasPlaces graph.old design.now.pool tables.0.now }
    requires aims { HasAims design.now.pool tables.1.now }
    requires count { length tables.0.now ≡ length design.now.pool.exprs }
    requires names { AllBelow (length design.now.pool.exprs) (block_exprs body.now) }
    requires guard { guard < graph.old.size }
    ensures extends { OnOk result (Extends graph.old graph.new (bit_nodes design.now.pool)) }
    ensures rules { OnOk result (AddsBlock graph.old graph.new design.now.pool guard body.now) }
{
    graph.known();
    for statement in body.as_slice() {
        graph.known();
        add_statement(alloc, design, graph, tables, guard, statement)?;
    }
    Ok(())
}

// Adds the edges of a statement.
#[cycle(blocks)]
fn add_statement(
    alloc: Global,
    design: &Design,
    graph: &mut Graph,
    tables: (&Nodes, &AimTable),
    guard: usize,
    statement: &Stmt,
) -> Result<(), NoMemory>
    requires rules { IsPool design.now.pool }
    requires places { HasPlaces graph.old design.now.pool tables.0.now }
    requires aims { HasAims design.now.pool tables.1.now }
    requires count { length tables.0.now ≡ length design.now.pool.exprs }
    requires names { AllBelow (length design.now.pool.exprs) (statement_exprs (statement_of statement.now)) }
    requires guard { guard < graph.old.size }
    ensures extends { OnOk result (Extends graph.old graph.new (bit_nodes design.now.pool)) }
    ensures rules { OnOk result (AddsStatement graph.old graph.new design.now.pool guard (statement_of statement.now)) }
{
    match statement {
        Stmt::Assign { target, value, .. } => {
            add_assignment(alloc, design, graph, tables, guard, *target, *value)?;
            Ok(())
        }
        Stmt::Choose(arms) => {
            add_arms(alloc, design, graph, tables, guard, arms)?;
            Ok(())
        }
    }
}

// Adds the edges of the arms of a choice.
#[cycle(blocks)]
fn add_arms(
    alloc: Global,
    design: &Design,
    graph: &mut Graph,
    tables: (&Nodes, &AimTable),
    guard: usize,
    arms: &Arms,
) -> Result<(), NoMemory>
    requires rules { IsPool design.now.pool }
    requires places { HasPlaces graph.old design.now.pool tables.0.now }
    requires aims { HasAims design.now.pool tables.1.now }
    requires count { length tables.0.now ≡ length design.now.pool.exprs }
    requires names { AllBelow (length design.now.pool.exprs) (choices_exprs arms.now) }
    requires guard { guard < graph.old.size }
    ensures extends { OnOk result (Extends graph.old graph.new (bit_nodes design.now.pool)) }
    ensures rules { OnOk result (AddsArms graph.old graph.new design.now.pool guard arms.now) }
{
    let mut inner = guard;
    graph.known();
    for arm in arms.as_slice() {
        graph.known();
        inner = guard_arm(design, graph, tables.0, inner, arm.condition)?;
        graph.known();
        add_block(alloc, design, graph, tables, inner, &arm.body)?;
    }
    Ok(())
}
