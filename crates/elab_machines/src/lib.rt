//! State machines of modules: `m.FSM(..)`, `m.State(..)`, `m.next` and `ongoing`.
//!
//! Each act gives what specs/StateMachines.antt says of it (`part_called`, `part_entered`, `part_left`, `next_stored`); specs/Moves.antt says what
//! the innermost machine of a module does where a state begins or ends. It needs to know nothing of classes, interfaces or the top.
#![tactic(auto)]

pub mod machine_moves;
pub mod state_machines;

pub use machine_moves::Action;
pub use state_machines::MachineArguments;
