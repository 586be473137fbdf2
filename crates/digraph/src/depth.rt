// The most counted nodes that stand on a path of a graph.
ghost use Rattle.std.specs.Prelude.{◌≡◌, ◌≤◌, ◌<◌, max, length, if◌then◌else◌, IfOk};
ghost use Rattle.digraph.specs.Graphs.{IsSorted};
ghost use Rattle.digraph.specs.Depths.{is_counted, IsDeepest, IsMost};

use crate::graph::Graph;
use amh_host::{Items, NoMemory};
use std::alloc::Global;

// The greater of two depths.
fn greater(a: usize, b: usize) -> usize
    ensures { result ≡ max a b }
{
    a.max(b)
}

// 1 for a node that counts.
fn weight(counted: &[bool], node: usize) -> usize
    ensures { result ≡ if is_counted counted.now node then 1 else 0 }
{
    if node < counted.len() && counted[node] {
        1
    } else {
        0
    }
}

// The greatest of the depths of the nodes to which a node leads.
fn deepest(graph: &Graph, depths: &[usize], node: usize) -> usize
    requires node { node < graph.now.size }
    requires depths { length depths.now ≡ graph.now.size }
    ensures { IsDeepest graph.now depths.now node result }
{
    let mut best = 0;
    let mut rest = graph.last(node);
    while rest > 0 {
        let next = graph.next(rest);
        best = greater(best, depths[next.upto]);
        rest = next.others;
    }
    best
}

/// The most counted nodes on a path of a sorted graph. Past the slice no node counts.
pub fn longest(
    alloc: Global,
    graph: &Graph,
    order: &Items<usize>,
    counted: &[bool],
) -> Result<usize, NoMemory>
    requires sorted { IsSorted graph.now order.now }
    requires few { length counted.now ≤ graph.now.size }
    ensures { IfOk result (IsMost graph.now counted.now) }
{
    let mut depths = vec![in alloc; 0; graph.size()]?;
    let mut longest = 0;
    for node in order.as_slice() {
        let below = deepest(graph, &depths, *node);
        let depth = below + weight(counted, *node);
        depths[*node] = depth;
        longest = greater(longest, depth);
    }
    Ok(longest)
}
