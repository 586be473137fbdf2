//! Designs: signals, expressions, statements, memories, domains, ports, and what all of these mean.
//!
//! A `Pool` holds signals and expressions by number; each expression names earlier ones alone, so the shape and
//! the integer of every one of them come from those before it (specs/Pools.antt, specs/Values.antt). Statements
//! are trees, and the last active assignment wins, bit by bit (specs/Put.antt). A `Fragment` is what one module
//! gives; a `Design` is the flat whole. Its meaning is the list of settled environments over a list of events
//! (specs/Settled.antt, specs/Steps.antt, specs/Histories.antt), and a bit that needs itself is a loop
//! (specs/Loops.antt): which bits an assignment may write is said by the aims of its target, which are exactly
//! those that some numbers of its offsets and indices choose (specs/Targets.antt, specs/Choices.antt, laws.rt).
//! What a design keeps to is specs/Designs.antt, and which events it takes is specs/Legal.antt.
#![tactic(auto)]

mod copies;
mod design;
mod domain;
mod event;
mod expr;
mod exprs;
mod fragment;
mod ids;
mod laws;
mod memory;
mod pool;
mod port;
mod process;
mod refusal;
mod signal;
mod stmt;

pub use design::Design;
pub use domain::{Domain, DomainDef, DomainDefs, Domains};
pub use event::Event;
pub use expr::{Expr, Pattern, Patterns};
pub use exprs::Exprs;
pub use fragment::{Fragment, Fragments};
pub use ids::{Clocks, DomainId, ExprId, Ids, MemId, SigId};
pub use laws::{aims_are_places, places_are_aims, resets_act, rising_steps};
pub use memory::{Ints, MemRead, MemReads, MemWrite, MemWrites, Memories, Memory};
pub use pool::Pool;
pub use port::{Column, Columns, Port, Ports};
pub use process::{DesignProcess, DesignProcesses, Process, Processes, Side};
pub use refusal::PoolStop;
pub use signal::{Sig, Sigs};
pub use stmt::{Arm, Arms, Stmt, Stmts};
