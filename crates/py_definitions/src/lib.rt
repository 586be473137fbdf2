//! Turns of definitions: `def` with its defaults and annotations, and `class` from its arguments to its end.
//!
//! Each takes a `Going` of py_frames and promises `GoesOn` of its part of the meaning. specs/Def_begun.antt says where
//! definitions begin.
#![tactic(auto)]

pub mod class_arguments;
pub mod class_came;
pub mod class_ends;
pub mod class_words;
pub mod classes;
pub mod def_goes;
pub mod def_parts;
pub mod defs;
