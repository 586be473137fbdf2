//! The lowering of a design to a module of RTLIL.
//!
//! netlist_laws says which module that is, and what holds of it; netlist_cells draws expressions. Here statements give
//! each bit of a signal one source, registers and memories get their cells, and wires their names. `lower` makes the module
//! in one pass over each list, and promises that it keeps the rules of RTLIL text, has the design's columns, and has the
//! design's history over all legal events; what it rests on is proved for every design (the laws of netlist_laws).
#![tactic(auto)]

mod drawings;
mod drivers;
mod lowering;
mod memories;
mod port_guards;
mod ports;
mod read_signals;
mod signals;
mod sources;
mod spelling;
mod targets;
mod wires;

pub use lowering::lower;
