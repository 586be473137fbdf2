//! Turns of statements.
//!
//! Each takes a `Going` of py_frames and promises `GoesOn` of its part of the meaning: assignments, plain, annotated and
//! augmented, `if`, `while`, `with`, and imports. specs/Augmented.antt says what an augmented assignment changes.
//! Definitions have a crate of their own (py_definitions).
#![tactic(auto)]

pub mod annotate;
pub mod augment;
pub mod augment_begin;
pub mod import_words;
pub mod imports;
pub mod stmt_assign;
pub mod stmt_goes;
pub mod stmt_if;
pub mod stmt_inside;
pub mod stmt_while;
pub mod stmt_with;
