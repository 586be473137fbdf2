//! A module as its statements and blocks come: each statement under a side, the combinational one or that of a clock domain.
//!
//! A `Builder` is seen as a name and all that it was told, step by step (specs/Builders.antt). The steps make blocks, in
//! which the statements of all sides stand together (specs/Blocks.antt); `assign`, `enter` and `leave` add a step at the end,
//! and refuse what is out of order, no target (target.rt) or too much. `finish` gives the fragment, which has one process for
//! each side, in the order of first statements, with the statements of that side in their blocks (specs/Sided.antt). What
//! holds of every fragment, its meaning among it, is in laws.rt.
#![tactic(auto)]

mod builder;
mod laws;
mod parting;
mod progress;
mod refusal;
mod sides;
mod step;
mod target;

pub use builder::Builder;
pub use laws::{blocks_are_meant, no_process_is_empty, one_process_each};
pub use refusal::BuildStop;
pub use step::{Block, OpenBlock, Opening, Step};
pub use target::is_target;
