//! Expressions, read off the front of the words of a logical line.
//!
//! The readers are those of `py_grammar`, function by function (specs/Reading of that crate), and its laws tie them to the grammar as a
//! relation: what is read has a derivation, and what has one is read. `read_inner` and `read_items` read what stands in a bracket,
//! `read_tuple` expressions with commas between them, and `read_whole` all words of a list. What comes next tells each choice, so no
//! expression is read twice; the calls nest as deep as brackets do, and a chain of any length is read in a loop.
#![tactic(auto)]

pub mod reader;
pub mod whole;

pub use reader::{read_inner, read_items};
pub use whole::{read_tuple, read_whole};
