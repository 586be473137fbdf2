//! Which bits of a design need which, and the order in which they settle.
//!
//! A bit that needs itself is a combinational loop, and a design with one has no meaning; which loop is told is
//! specs/Refusals.antt. Where the bits of combinational signals have an order in which each stands behind those that it
//! needs (specs/Orders.antt), every state has exactly one settled environment (specs/Laws.antt). Which bit needs which is
//! defined in design_ir.
//!
//! `rank` finds the order, or the least loop (ranking.rt). It makes the graph of a design's needs (needs.rt), in which a
//! signal's bit has a node of its own and comes, past nodes of expressions, to those of the bits that it needs. Which bits
//! an assignment may write stands in a table of aims (aims.rt): each with the place of the target where it stands, or the
//! set of places at which offsets and indices may put it (aimed.rt, sets.rt, spans.rt). `digraph` sorts the nodes, or finds
//! the least that reaches itself; the sorted nodes that are bits of combinational signals (comb.rt) are the order.
#![tactic(auto)]

mod aimed;
mod aims;
mod blocks;
mod comb;
mod drives;
mod laws;
mod needs;
mod places;
mod ranking;
mod ranks;
mod reads;
mod rules;
mod sets;
mod spans;
mod stop;
mod told;

pub use laws::{
    deltas_are_few, ordered_have_no_loop, ordered_have_one_history, ordered_settle_once,
    rounds_settle,
};
pub use ranking::rank;
pub use ranks::{RankedBit, RankedBits, Ranks};
pub use stop::GraphStop;
