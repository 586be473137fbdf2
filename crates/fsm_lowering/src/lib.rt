//! State machines in a module.
//!
//! An `Fsm` is seen as a `Machine` (specs/Machines.antt): its register, its states in the order of their first mentions, and
//! where it stands. State k has the number k. The calls tell a module's builder one choice over the register, with one case
//! for each state; what they refuse and what they leave is specs/Calls.antt. `finish` gives the register the shape of its
//! states' numbers and the number of the first state. What holds of every machine, its meaning among it, is in laws.rt.
#![tactic(auto)]

mod conditions;
mod laws;
mod machine;
mod refusal;
mod states;

pub use laws::{
    one_state_is_carried_out, register_stays_unsettled, states_are_numbered, states_make_one_choice,
};
pub use machine::Fsm;
pub use refusal::FsmStop;
pub use states::{Stage, State};
