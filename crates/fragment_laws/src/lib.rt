//! What a fragment means by itself; that a design means what its root does; and that both stay where a pool grows.
//!
//! A fragment is given its surroundings: the clock domain that each name stands for, and which signals come from outside
//! (specs/Surroundings.antt). Then each signal has one that gives it its number: the statements of a process, a read port
//! of a memory, or nobody (specs/Givers.antt). What they give says which environments are settled
//! (specs/Settling.antt) and what an event leaves (specs/Stepping.antt), signal by signal, for all that stands in the
//! fragment and below it (its processes by Walks of fragment_walks, its memories by specs/Parts.antt); events name the
//! domains whose clocks toggle. So a fragment has a first state and histories (specs/Lives.antt) before its domains have
//! numbers.
//!
//! A design whose domains were resolved means what its root does (specs/Roots.antt), and a design whose pool grew by
//! expressions means what it did (specs/Growth.antt): these are the clauses of the functions of laws.rt. Whatever holds
//! expressions grows by the laws of `Grows` (grows.rt).
#![tactic(auto)]

mod grows;
mod laws;

pub use grows::{Grows, put_both};
pub use laws::{
    designs_grow_on, designs_mean_their_roots, growth_keeps_meaning, growth_keeps_needs,
    resolved_means_its_root,
};
