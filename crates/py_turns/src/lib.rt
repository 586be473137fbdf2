//! The turns that all others use: names are read and bound, blocks begin, attributes are stored, operators are carried out.
//!
//! Each takes a `Going` of py_frames and promises `GoesOn` of its part of the meaning. Expressions that are there at once, and
//! statements that take one turn, need no frame. The crates above have the turns of targets and rows (py_walks), of expressions, calls and
//! statements, and py_machine has the loop of them all.
#![tactic(auto)]

pub mod asks;
pub mod at_once;
pub mod attribute_store;
pub mod binds;
pub mod block;
pub mod call_leaf;
pub mod expr_values;
pub mod operators;
pub mod stmt_plain;
