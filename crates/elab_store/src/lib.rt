//! What elaboration holds beside the heap of a program, and the words of its definition.
//!
//! `Store` has the things that a program may hold, modules with their statements, submodules, clock domains, wrappers of them, classes over
//! `Component`, state machines, the top and what the simulator was told;
//! `Elaboration` has the pool beside it. What they are is specs/Stores.antt, and what they keep to is specs/Sound.antt. The acts that change
//! them are a family each in elab_machines and elab_acts.
#![tactic(auto)]

pub mod calls;
pub mod components;
pub mod domains;
pub mod faces;
pub mod hierarchy;
pub mod kept;
pub mod leaves;
pub mod members;
pub mod memories;
pub mod names;
pub mod objects;
pub mod own_machine;
pub mod shapes;
pub mod simulation;
pub mod store;
pub mod wrappings;
