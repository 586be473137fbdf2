// Whether a node of a graph reaches itself.
ghost use Rattle.std.specs.Prelude.{◌≡◌, ◌≤◌, ◌<◌, ◌↔◌, ◌++◌, ◌∷◌, ℕ, [], length, IsTrue, IfOk, Contains};
ghost use Rattle.digraph.specs.Graphs.{Digraph, IsRest, IsNext, Reaches};
ghost use Rattle.digraph.specs.Searches.{Searching, IsSearch, IsSpreading, Reached, HasSpread, turns};

use crate::graph::Graph;
use amh_host::NoMemory;
use std::alloc::Global;
use std::marker::Model;

/// The node at which the search began, which nodes were reached, and the nodes whose edges are to be looked at.
#[derive(Drop)]
pub struct Search {
    root: usize,
    reached: Vec<bool>,
    todo: Vec<usize>,
}

impl Model for Search {
    ghost use Rattle.digraph.specs.Searches.{Searching};

    ghost Value = { Searching };

    ghost view = { λ a. record { root = a.root; reached = a.reached.items; todo = a.todo.items } };
}

impl Search {
    // A search that looks at the edges of this node first.
    fn new(alloc: Global, graph: &Graph, root: usize) -> Result<Search, NoMemory>
        requires { root < graph.now.size }
        ensures { IfOk result (λ s. (s.root ≡ root) × IsSearch graph.now s.root s.reached s.todo) }
    {
        Ok(Search {
            root,
            reached: vec![in alloc; false; graph.size()]?,
            todo: vec![in alloc; root]?,
        })
    }

    // Reaches a node.
    fn reach(&mut self, node: usize) -> Result<(), NoMemory>
        requires { node < length self.old.reached }
        ensures { IfOk result (λ _. Reached self.old node self.new) }
    {
        if !self.reached[node] {
            self.todo.push(node)?;
            self.reached[node] = true;
        }
        Ok(())
    }

    // Looks at all edges of a node.
    fn spread(&mut self, graph: &Graph, from: usize) -> Result<(), NoMemory>
        requires search { IsSearch graph.now self.old.root self.old.reached (self.old.todo ++ from ∷ []) }
        requires from { from < graph.now.size }
        ensures { IfOk result (λ _. HasSpread graph.now self.old self.new) }
    {
        let mut rest = graph.last(from);
        while rest > 0 {
            let next = graph.next(rest);
            self.reach(next.upto)?;
            rest = next.others;
        }
        Ok(())
    }
}

/// Whether edges, at least one, lead from a node to itself.
pub fn reaches_itself(alloc: Global, graph: &Graph, node: usize) -> Result<bool, NoMemory>
    requires { node < graph.now.size }
    ensures { IfOk result (λ r. IsTrue r ↔ Reaches graph.now node node) }
{
    let mut search = Search::new(alloc, graph, node)?;
    while let Some(from) = search.todo.pop() {
        search.spread(graph, from)?;
    }
    Ok(search.reached[node])
}
