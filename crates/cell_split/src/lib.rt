//! Cells cut into cells of one bit, where bits of one cell need each other in turn.
//!
//! A wide `$and` whose bits need each other has a meaning bit by bit, but a reader that takes each cell whole sees a
//! loop in it. `split_tangled` finds the cells that lie on such a loop, and cuts those that go bit by bit
//! (specs/Pieces.antt, specs/Split.antt). What loops are left are loops of bits (specs/Loops.antt): each cell that lies
//! on a loop is a node that reaches itself in the graph of cells and bits (needs.rt), and `digraph::left` leaves every
//! such node. Whichever cells are cut, the module keeps the rules of RTLIL text and its history; the functions of
//! `laws` carry that in their clauses.
#![tactic(auto)]

mod blocks;
mod copies;
mod laws;
mod needs;
mod nodes;
mod pieces;
mod spec_nodes;
mod split;
mod tangled;

pub use laws::{splits_keep_the_history, splits_keep_the_registers, splits_keep_the_rules};
pub use split::split_tangled;
