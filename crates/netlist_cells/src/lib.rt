//! The cells of expressions in a module of RTLIL.
//!
//! `drawn` gives an expression its wire, and what drives it: cells, or a link (specs/Expressions.antt and
//! specs/Operators.antt of netlist_laws, which this code is proved to follow). Under it stand operators, choices, elements
//! of arrays and patterns, each in a module of its own, over `cells` and `parts`. Signals, registers and memories are
//! drawn by the crate above (netlist).
#![tactic(auto)]

pub mod cells;
pub mod drawing;
pub mod expressions;
pub mod ids;
mod item_cells;
mod muxes;
mod operators;
pub mod parts;
mod pattern_cells;
pub mod tables;
