//! What a program of the Python subset means, the frames of the nodes that wait, and what all turns of the evaluator share.
//!
//! `ask_program` of specs/Whole.antt says what a program asks after a list of answers, or how it ends, and at what cost; below it
//! stand specs/Statements.antt, Expressions.antt, Values.antt (operators, attributes, calls) and Asking.antt (requests and answers),
//! in the terms of specs/Doing.antt. specs/Frames.antt says what is left to come out of a list of frames, in the words of that
//! meaning, and what a turn owes (`GoesOn`): it leaves that as it was, at its cost.
//!
//! A turn is a function over `Going`, which has the frames and the state. Those here spend units, put a frame, ask and make values. The turns
//! that all others use are in py_turns; the crates above have the turns of targets and rows (py_walks), of expressions, calls and
//! statements, and py_machine has the loop of them all.
#![tactic(auto)]

pub mod boxed;
pub mod expr_names;
pub mod frame;
pub mod functions;
pub mod going;
pub mod keyword;
pub mod leaf;
pub mod leaf_value;
pub mod own;
pub mod request;
pub mod scopes;
pub mod spots;
pub mod start;
pub mod state;
pub mod stmt_purpose;
pub mod trail_leaf;
