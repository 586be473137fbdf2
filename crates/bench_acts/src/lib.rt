//! What a testbench asks, over the design and all that elaboration holds.
//!
//! `serve` answers a request of a testbench by elaboration's table, or says what the run has to do for it: to give the number of an
//! expression, to set an input, or to wait. Expressions that a testbench makes stand at the end of the design's pool, and one that is
//! there already is not made again (src/sharing.rt).
#![tactic(auto)]

mod arguments;
mod context;
mod serving;
mod sharing;
mod targets;

pub use serving::{Bench, Served, serve};
pub use targets::InputBits;
