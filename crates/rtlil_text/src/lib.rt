//! RTLIL text of one module: what it says, what it means, and how it is written.
//!
//! `RtlModule` is the content of a text: wires, memories, cells and links. specs/Reads.antt says which texts stand
//! for a module, by the grammar (specs/Grammar.antt) and the rules on a module (specs/Rules.antt), after the Yosys
//! manual; a text stands for one module at most (`texts_stand_for_one_module`). specs/Meaning.antt gives each bit of a wire
//! its value by the cell or link that drives it, and specs/History.antt the values after every event. `write` makes
//! a file of a text that stands for the module, for every module that keeps the rules, and the readers find what
//! stands in a module under a name.
#![tactic(auto)]

mod cell;
mod laws;
mod line;
mod module;
mod page;
mod read;
mod sig;
mod spell;
mod text;
mod widths;

pub use cell::{RtlCell, RtlCells, RtlEnd, RtlEnds, RtlParameter, RtlParameters, RtlValue};
pub use laws::texts_stand_for_one_module;
pub use module::{
    RtlLink, RtlLinks, RtlMemories, RtlMemory, RtlModule, RtlWire, RtlWires, WirePort,
};
pub use sig::{RtlBits, SigPart, SigSpec};
pub use text::write;
