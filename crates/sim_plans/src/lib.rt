//! What a simulator of a design works out once.
//!
//! A plan (specs/Plans.antt) has tasks, each some statements of a process or a combinational read port, with the
//! expressions that stand in them in order (specs/Tasks.antt), the expressions of memory ports (specs/Ports.antt), and who
//! reads each signal (specs/Reads.antt). `plan_of` makes it, and `compute` evaluates a task's expressions. How statements are
//! carried out, in which order tasks run, and when, is a matter of the simulator above (delta_sim).
#![tactic(auto)]

pub mod agenda;
mod clearable;
mod compile;
pub mod compute;
mod driven;
pub mod expressions;
mod given;
mod group;
pub mod plan;
mod port_exprs;
mod port_tasks;
mod roots;
pub mod rows;
mod spread;
pub mod tables;
pub mod targets;
pub mod task;
pub mod written;
