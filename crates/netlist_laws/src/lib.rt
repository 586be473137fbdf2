//! The module that a design is lowered to, and its laws, without any code that makes it.
//!
//! specs/Module.antt says which module a design without choices is lowered to: each expression has a wire of its own, which
//! cells or a link drive (specs/Operators.antt, specs/Expressions.antt), statements give each bit of a signal one source
//! (specs/Latest.antt), and the ports of memories draw their cells with guards around them (specs/MemoryDrawings.antt).
//! The functions of `laws` do nothing: their clauses say that the module keeps the rules of RTLIL text, has the design's
//! columns, and has the design's history over all legal events (specs/Laws.antt). The crates above make that module.
#![tactic(auto)]

mod laws;

pub use laws::{
    expressions_are_made, guards_are_made, memory_ports_are_made, modules_are_sound,
    modules_have_the_history, operators_are_made,
};
