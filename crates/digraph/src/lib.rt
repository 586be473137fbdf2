//! Directed graphs: an order of the nodes, or the least one that reaches itself.
//!
//! A graph has nodes that are numbered from 0, and edges in the order in which they were added (specs/Graphs.antt, graph.rt).
//! `sort` walks it and gives an order in which each node stands behind all that it leads to, or tells that some node
//! reaches itself (walk.rt). `least_loop` then seeks the least such node (least.rt, search.rt) among those that `left` leaves
//! once the nodes that no loop leads to were cut away, and those that lead to no loop (cut.rt). `longest` counts the nodes of
//! a path (depth.rt). All but `least_loop` take time that is linear in nodes and edges.
#![tactic(auto)]

mod cut;
mod depth;
mod graph;
mod least;
mod search;
mod walk;

pub use cut::left;
pub use depth::longest;
pub use graph::{Edge, Graph, Link, Next};
pub use least::least_loop;
pub use search::reaches_itself;
pub use walk::{Mark, Walked, sort};
