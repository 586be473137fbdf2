//! A run of a file's simulator: its clocks and testbenches, event by event.
//!
//! `Run::start` stands before the run, and `next_row` gives the first row, then one for each event, then how the run ended. Moments come in
//! order. The clocks that are due toggle in one event; then the testbenches that this or the moment wakes go on in order of
//! addition, each to its next wait. What comes next at each point is `next_of` of specs/Runs.antt, and a run `IsRun`;
//! specs/Standing.antt says what a run stands for between two rows, in which the clauses of `next_row` speak.
#![tactic(auto)]

mod answers;
mod asking;
mod begin;
mod laws;
mod moments;
mod point;
mod rounds;
mod run;
mod setting;
mod testbench;
mod ticks;
mod turns;

pub use laws::runs_are_one;
pub use run::{Row, Run, RunTurn};
