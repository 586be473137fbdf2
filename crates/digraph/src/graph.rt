// A graph, with the edges of each node at hand.
ghost use Rattle.std.specs.Prelude.{◌≡◌, ℕ, ◌+◌, ◌^◌, ◌<◌, ◌≤◌, All, ◌++◌, ◌∷◌, [], length, OnOk, IfOk};
ghost use Rattle.digraph.specs.Graphs.{Digraph, IsGraph, joined, leading, IsEdge, EdgeAt, IsRest, IsNext, NoneWithin, edge};

use amh_host::{Items, NoMemory};
use std::alloc::Global;
use std::marker::Model;

/// An edge from a node to one that it leads to.
#[derive(Clone, Copy, PartialEq, Eq, Drop)]
pub struct Edge {
    pub from: usize,
    pub upto: usize,
}

/// An edge, and the count of edges up to the one before it of the same node.
#[derive(Clone, Copy, Drop)]
pub struct Link {
    pub edge: Edge,
    pub others: usize,
}

/// Nodes by number, and edges in the order in which they were added.
///
/// Contracts see the count of nodes and the list of edges.
#[derive(Drop)]
pub struct Graph {
    lasts: Vec<usize>,
    links: Vec<Link>,
}

impl Model for Graph {
    ghost use Rattle.digraph.specs.Graphs.{Digraph, IsGraph};
    ghost use Rattle.digraph.specs.Links.{graph_of, IsLinked};

    ghost Value = { Digraph };

    ghost view = { λ a. graph_of a.lasts.items a.links.items };

    ghost invariant = { λ a. IsLinked a.lasts.items a.links.items };
}

/// One edge of a node, and the count below which its others are.
#[derive(Clone, Copy, Drop)]
pub struct Next {
    pub upto: usize,
    pub others: usize,
}

impl Graph {
    /// So many nodes without edges.
    pub fn new(alloc: Global, size: usize) -> Result<Graph, NoMemory>
        ensures { IfOk result (λ g. g ≡ record { size = size; edges = [] }) }
    {
        Ok(Graph {
            lasts: vec![in alloc; 0; size]?,
            links: Vec::new(alloc),
        })
    }

    /// How many nodes there are.
    pub fn size(&self) -> usize
        ensures value { result ≡ self.now.size }
        ensures small { result < 2 ^ 63 }
    {
        self.lasts.len()
    }

    /// Adds a node without edges.
    fn node(&mut self) -> Result<usize, NoMemory>
        ensures { IfOk result (λ n. (n ≡ self.old.size) × (self.new ≡ record { size = self.old.size + 1; edges = self.old.edges })) }
    {
        let node = self.lasts.len();
        self.lasts.push(0)?;
        Ok(node)
    }

    /// Adds a node that leads to these.
    pub fn join(&mut self, targets: &[usize]) -> Result<usize, NoMemory>
        requires { All (λ t. t < self.old.size) targets.now }
        ensures { IfOk result (λ n. (n ≡ self.old.size) × (self.new ≡ joined self.old targets.now)) }
    {
        let node = self.node()?;
        for target in targets {
            self.add(node, *target)?;
        }
        Ok(node)
    }

    /// Adds edges from a node to these.
    pub fn lead(&mut self, from: usize, targets: &[usize]) -> Result<(), NoMemory>
        requires from { from < self.old.size }
        requires targets { All (λ t. t < self.old.size) targets.now }
        ensures { OnOk result (self.new ≡ leading self.old from targets.now) }
    {
        for target in targets {
            self.add(from, *target)?;
        }
        Ok(())
    }

    // Opens the graph, so that a caller knows that its edges lead to its nodes.
    pub fn known(&self)
        ensures { IsGraph self.now }
    {
        let _ = &self.lasts;
    }

    /// Adds an edge.
    pub fn add(&mut self, from: usize, upto: usize) -> Result<(), NoMemory>
        requires from { from < self.old.size }
        requires upto { upto < self.old.size }
        ensures added { OnOk result (self.new ≡ record { size = self.old.size; edges = self.old.edges ++ edge from upto ∷ [] }) }
        ensures size { self.new.size ≡ self.old.size }
    {
        let link = Link {
            edge: Edge { from, upto },
            others: self.lasts[from],
        };
        self.links.push(link)?;
        self.lasts[from] = self.links.len();
        Ok(())
    }

    /// How many edges there are.
    pub fn count(&self) -> usize
        ensures { result ≡ length self.now.edges }
    {
        self.links.len()
    }

    /// The edge at a place.
    pub fn edge(&self, place: usize) -> Edge
        requires { place < length self.now.edges }
        ensures at { EdgeAt self.now place result.from result.upto }
        ensures inside { IsEdge self.now.size result }
    {
        self.links[place].edge
    }

    /// The count of edges up to the node's last.
    pub fn last(&self, node: usize) -> usize
        requires { node < self.now.size }
        ensures rest { IsRest self.now node result }
        ensures none { NoneWithin self.now node result (length self.now.edges) }
    {
        self.lasts[node]
    }

    /// Of the edges below a count the node's last.
    pub fn next(&self, rest: usize) -> Next
        requires some { 0 < rest }
        requires within { rest ≤ length self.now.edges }
        ensures next { (n : ℕ) → IsRest self.now n rest → IsNext self.now n rest result.upto result.others }
        ensures node { result.upto < self.now.size }
    {
        let link = self.links[rest - 1];
        Next {
            upto: link.edge.upto,
            others: link.others,
        }
    }
}
