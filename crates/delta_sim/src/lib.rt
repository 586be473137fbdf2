//! The simulator of a design: the numbers of its signals and the rows of its memories, from event to event.
//!
//! A `Sim` stands for a list of legal events (specs/Standing.antt): its numbers are those of the settled environment
//! behind them, and its rows those of the state, as design_ir defines both. What is needed again and again was worked out
//! once, by sim_plans. An event changes what is held, and rows; the tasks that read what changed wait, and run in
//! the next delta, all from the numbers before it; what they change wakes others, until none waits. How many deltas there
//! were in which a process or a port ran, and how often one ran, is counted (specs/Woken.antt of sim_plans). No event takes
//! memory, and none copies rows.
//!
//! An expression that is put to a simulator is evaluated in the settled environment: what stands in it is found behind
//! what it names (specs/Evaluations.antt), in room that nothing is left in. The design may grow by expressions meanwhile
//! (specs/Growth.antt).
#![tactic(auto)]

mod bits;
mod clears;
mod clocks;
mod delta;
mod evaluation;
mod event;
mod first;
mod growth;
mod laws;
mod place;
mod ports;
mod room;
mod run;
mod settle;
mod sim;
mod statements;
mod wake;
mod write;

pub use clocks::{is_active, is_reset};
pub use growth::growth_keeps_simulators;
pub use laws::words_are_rows;
pub use settle::Counts;
pub use sim::Sim;
