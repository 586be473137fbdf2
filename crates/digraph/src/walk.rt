// A walk through a graph, deepest node first: an order of its nodes, or one that reaches itself.
ghost use Rattle.std.specs.Prelude.{◌≡◌, ◌<◌, ◌≤◌, [], length, IfOk, OnOk};
ghost use Rattle.digraph.specs.Graphs.{Digraph, IsRest, NoneWithin, Reaches};
ghost use Rattle.digraph.specs.declared.walk.Mark.TheVariants.{New as new_mark};
ghost use Rattle.digraph.specs.Walks.{mark, IsWalked, Explored, Walking, Stands, IsIdle, Turned, work, finished, opened, waiting};

use crate::graph::Graph;
use amh_host::{Items, NoMemory};
use std::alloc::Global;
use std::marker::Model;

/// How far the walk is with a node.
#[derive(Clone, Copy, PartialEq, Eq, Drop)]
pub enum Mark {
    /// It was not reached yet.
    New,
    /// It leads to the node that is walked.
    Open,
    /// Everything that it leads to is done.
    Done,
}

/// A node, and the count below which its edges were not looked at.
#[derive(Clone, Copy, Drop)]
pub struct Frame {
    pub node: usize,
    pub rest: usize,
}

/// How the walk goes on.
#[derive(Clone, Copy, Drop)]
pub enum Turn {
    /// With this node.
    Goes(Frame),
    /// Everything that was reached is done.
    Ends,
    /// This node reaches itself.
    Loops(usize),
}

/// How far each node is, the nodes that wait, and those that are done, in order.
#[derive(Drop)]
pub struct Walk {
    marks: Vec<Mark>,
    path: Vec<Frame>,
    order: Items<usize>,
}

impl Model for Walk {
    ghost use Rattle.digraph.specs.Walks.{Walking};

    ghost Value = { Walking };

    ghost view = { λ a. record { marks = a.marks.items; path = a.path.items; order = a.order } };
}

impl Walk {
    // Marks a node as done.
    fn finish(&mut self, node: usize) -> Result<(), NoMemory>
        requires { node < length self.old.marks }
        ensures { OnOk result (self.new ≡ finished self.old node) }
    {
        self.order.push(node)?;
        self.marks[node] = Mark::Done;
        Ok(())
    }

    // Goes down to a node.
    fn open(&mut self, graph: &Graph, node: usize) -> Frame
        requires marked { node < length self.old.marks }
        requires node { node < graph.now.size }
        ensures opened { self.new ≡ opened self.old node }
        ensures node { result.node ≡ node }
        ensures rest { IsRest graph.now node result.rest }
        ensures none { NoneWithin graph.now node result.rest (length graph.now.edges) }
    {
        self.marks[node] = Mark::Open;
        Frame {
            node,
            rest: graph.last(node),
        }
    }

    // The node is done: back to the one that waits for it.
    fn back(&mut self, graph: &Graph, at: Frame) -> Result<Turn, NoMemory>
        requires stands { Stands graph.now self.old at }
        requires read { at.rest ≡ 0 }
        ensures { IfOk result (Turned graph.now self.old at self.new) }
    {
        let _ = graph;
        self.finish(at.node)?;
        let Some(below) = self.path.pop() else {
            return Ok(Turn::Ends);
        };
        Ok(Turn::Goes(below))
    }

    // Looks at the next edge of the node.
    fn on(&mut self, graph: &Graph, at: Frame) -> Result<Turn, NoMemory>
        requires stands { Stands graph.now self.old at }
        requires more { 0 < at.rest }
        ensures { IfOk result (Turned graph.now self.old at self.new) }
    {
        let next = graph.next(at.rest);
        let here = Frame {
            node: at.node,
            rest: next.others,
        };
        match self.marks[next.upto] {
            Mark::Done => Ok(Turn::Goes(here)),
            Mark::Open => Ok(Turn::Loops(next.upto)),
            Mark::New => {
                self.path.push(here)?;
                Ok(Turn::Goes(self.open(graph, next.upto)))
            }
        }
    }

    // A walk of a graph whose nodes are all new.
    fn new(alloc: Global, graph: &Graph) -> Result<Walk, NoMemory>
        ensures { IfOk result (λ w. IsIdle graph.now w × (w.order ≡ [])) }
    {
        Ok(Walk {
            marks: vec![in alloc; Mark::New; graph.size()]?,
            path: Vec::new(alloc),
            order: Items::new(alloc),
        })
    }

    // Walks all that is reached from a node, and tells a node that reaches itself.
    fn explore(&mut self, graph: &Graph, root: usize) -> Result<Option<usize>, NoMemory>
        requires idle { IsIdle graph.now self.old }
        requires new { mark self.old.marks root ≡ new_mark }
        requires root { root < graph.now.size }
        ensures { IfOk result (Explored graph.now root self.old self.new) }
    {
        let mut at = self.open(graph, root);
        loop {
            let turn = if at.rest == 0 {
                self.back(graph, at)?
            } else {
                self.on(graph, at)?
            };
            match turn {
                Turn::Goes(next) => at = next,
                Turn::Ends => return Ok(None),
                Turn::Loops(node) => return Ok(Some(node)),
            }
        }
    }

    // Walks all that is reached from a node, where that was not done before.
    fn visit(&mut self, graph: &Graph, root: usize) -> Result<Option<usize>, NoMemory>
        requires idle { IsIdle graph.now self.old }
        requires root { root < graph.now.size }
        ensures { IfOk result (Explored graph.now root self.old self.new) }
    {
        match self.marks[root] {
            Mark::New => self.explore(graph, root),
            Mark::Open | Mark::Done => Ok(None),
        }
    }
}

/// What a walk of a whole graph comes to.
#[derive(Drop)]
pub enum Walked {
    /// All nodes, each behind those that it leads to.
    Sorted(Items<usize>),
    /// Some node reaches itself: how far the walk was with each when it met one.
    Looping(Vec<Mark>),
}

/// An order of all nodes in which each stands behind those that it leads to; where there is none, how far the walk came.
pub fn sort(alloc: Global, graph: &Graph) -> Result<Walked, NoMemory>
    ensures { IfOk result (IsWalked graph.now) }
{
    let mut walk = Walk::new(alloc, graph)?;
    for root in 0..graph.size() {
        if let Some(_) = walk.visit(graph, root)? {
            return Ok(Walked::Looping(walk.marks));
        }
    }
    Ok(Walked::Sorted(walk.order))
}
