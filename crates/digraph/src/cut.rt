// The nodes of a graph that are left once others were cut away, each when no node that was left led to it, or it to none.
ghost use Rattle.std.specs.Prelude.{◌≡◌, ◌<◌, ◌==◌, ◌&&◌, All, length, IsTrue, IfOk};
ghost use Rattle.digraph.specs.Graphs.{Digraph, IsRest};
ghost use Rattle.digraph.specs.Cuts.{turn_of, IsCutBefore, IsCut, IsReversed, IsLeft};

use crate::graph::{Edge, Graph};
use amh_host::NoMemory;
use std::alloc::Global;

// The count of edges into each node.
fn counts(alloc: Global, graph: &Graph) -> Result<Vec<usize>, NoMemory>
    ensures { IfOk result (λ v. length v.items ≡ graph.now.size) }
{
    let mut counts = vec![in alloc; 0; graph.size()]?;
    for place in 0..graph.count() {
        let node = graph.edge(place).upto;
        counts[node] += 1;
    }
    Ok(counts)
}

// The nodes whose count is 0.
fn free(alloc: Global, counts: &[usize]) -> Result<Vec<usize>, NoMemory>
    ensures { IfOk result (λ v. All (λ n. n < length counts.now) v.items) }
{
    let mut free = Vec::new(alloc);
    for node in 0..counts.len() {
        if counts[node] == 0 {
            free.push(node)?;
        }
    }
    Ok(free)
}

// Takes one from the count of a node, and lists the node where none is left.
fn release(counts: &mut [usize], free: &mut Vec<usize>, node: usize) -> Result<(), NoMemory>
    requires node { node < length counts.old }
    requires free { All (λ n. n < length counts.old) free.old.items }
    ensures size { length counts.new ≡ length counts.old }
    ensures free { All (λ n. n < length counts.old) free.new.items }
{
    if counts[node] == 1 {
        free.push(node)?;
    }
    counts[node] = counts[node].saturating_sub(1);
    Ok(())
}

// Takes away the edges of a node.
fn release_all(
    graph: &Graph,
    counts: &mut [usize],
    free: &mut Vec<usize>,
    from: usize,
) -> Result<(), NoMemory>
    requires from { from < graph.now.size }
    requires counts { length counts.old ≡ graph.now.size }
    requires free { All (λ n. n < graph.now.size) free.old.items }
    ensures size { length counts.new ≡ length counts.old }
    ensures free { All (λ n. n < graph.now.size) free.new.items }
{
    let mut rest = graph.last(from);
    while rest > 0 {
        let next = graph.next(rest);
        release(counts, free, next.upto)?;
        rest = next.others;
    }
    Ok(())
}

// The turns of the nodes that can be cut away, from 1 on.
fn turns(alloc: Global, graph: &Graph) -> Result<Vec<usize>, NoMemory>
    ensures { IfOk result (λ v. length v.items ≡ graph.now.size) }
{
    let mut turns = vec![in alloc; 0; graph.size()]?;
    let mut counts = counts(alloc, graph)?;
    let mut free = free(alloc, &counts)?;
    for turn in 0..graph.size() {
        let Some(node) = free.pop() else {
            return Ok(turns);
        };
        turns[node] = turn + 1;
        release_all(graph, &mut counts, &mut free, node)?;
    }
    Ok(turns)
}

// Whether the node from which an edge leads was cut away before the other, where that was.
fn is_cut_before(turns: &[usize], edge: Edge) -> bool
    requires from { edge.from < length turns.now }
    requires upto { edge.upto < length turns.now }
    ensures { IsTrue result → IsCutBefore turns.now edge.from edge.upto }
{
    let upto = turns[edge.upto];
    let from = turns[edge.from];
    upto == 0 || (0 < from && from < upto)
}

// Whether all nodes had their turns behind those that lead to them.
fn is_cut(graph: &Graph, turns: &[usize]) -> bool
    requires { length turns.now ≡ graph.now.size }
    ensures { IsTrue result → IsCut graph.now turns.now }
{
    for place in 0..graph.count() {
        if !is_cut_before(turns, graph.edge(place)) {
            return false;
        }
    }
    true
}

// The turn of each node that no loop leads to, from 1 on, and 0 for the others.
fn cut(alloc: Global, graph: &Graph) -> Result<Vec<usize>, NoMemory>
    ensures { IfOk result (λ v. IsCut graph.now v.items) }
{
    let turns = turns(alloc, graph)?;
    // One look at each edge shows whether the turns are right, so that nothing need be proved of how they were counted.
    if is_cut(graph, &turns) {
        return Ok(turns);
    }
    Ok(vec![in alloc; 0; graph.size()]?)
}

// The graph with each edge the other way round.
fn reversed(alloc: Global, graph: &Graph) -> Result<Graph, NoMemory>
    ensures { IfOk result (IsReversed graph.now) }
{
    let mut back = Graph::new(alloc, graph.size())?;
    for place in 0..graph.count() {
        let edge = graph.edge(place);
        back.add(edge.upto, edge.from)?;
    }
    Ok(back)
}

// Whether a node was cut away neither from one end nor from the other.
fn is_left(firsts: &[usize], lasts: &[usize], node: usize) -> bool
    requires first { node < length firsts.now }
    requires last { node < length lasts.now }
    ensures { result ≡ (turn_of firsts.now node == 0) && (turn_of lasts.now node == 0) }
{
    firsts[node] == 0 && lasts[node] == 0
}

/// Whether each node is left once those that no loop leads to were cut away, and those that lead to no loop.
pub fn left(alloc: Global, graph: &Graph) -> Result<Vec<bool>, NoMemory>
    ensures { IfOk result (λ v. IsLeft graph.now v.items) }
{
    let firsts = cut(alloc, graph)?;
    let back = reversed(alloc, graph)?;
    let lasts = cut(alloc, &back)?;
    let mut left = Vec::new(alloc);
    for node in 0..graph.size() {
        left.push(is_left(&firsts, &lasts, node))?;
    }
    Ok(left)
}
