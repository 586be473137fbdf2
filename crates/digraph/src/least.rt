// The least node of a graph that reaches itself.
ghost use Rattle.std.specs.Prelude.{◌≡◌, ◌≤◌, ◌<◌, ◌↔◌, IsTrue, IfOk};
ghost use Rattle.digraph.specs.Graphs.{Digraph, Reaches};
ghost use Rattle.digraph.specs.Walks.{IsSeen};
ghost use Rattle.digraph.specs.Searches.{IsLeast};
ghost use Rattle.digraph.specs.Cuts.{IsLeft};

use crate::cut::left;
use crate::graph::Graph;
use crate::search::reaches_itself;
use crate::walk::Mark;
use amh_host::NoMemory;
use std::alloc::Global;

// Whether a node reaches itself, which none does that the walk left as done or that was cut away.
fn loops(
    alloc: Global,
    graph: &Graph,
    marks: &[Mark],
    left: &[bool],
    node: usize,
) -> Result<bool, NoMemory>
    requires seen { IsSeen graph.now marks.now }
    requires left { IsLeft graph.now left.now }
    requires node { node < graph.now.size }
    ensures { IfOk result (λ r. IsTrue r ↔ Reaches graph.now node node) }
{
    match marks[node] {
        Mark::Done => Ok(false),
        Mark::New | Mark::Open => {
            if !left[node] {
                return Ok(false);
            }
            reaches_itself(alloc, graph, node)
        }
    }
}

/// The least of the first so many nodes that reaches itself, where a walk met some node that does.
pub fn least_loop(
    alloc: Global,
    graph: &Graph,
    marks: &[Mark],
    count: usize,
) -> Result<Option<usize>, NoMemory>
    requires seen { IsSeen graph.now marks.now }
    requires count { count ≤ graph.now.size }
    ensures { IfOk result (IsLeast graph.now count) }
{
    let left = left(alloc, graph)?;
    for node in 0..count {
        if loops(alloc, graph, marks, &left, node)? {
            return Ok(Some(node));
        }
    }
    Ok(None)
}
