//! Turns of expressions: literals, names, displays, operators, chains, choices and format strings.
//!
//! Each takes a `Going` of py_frames and promises `GoesOn` of its part of the meaning, operands from left to right. Times are exact:
//! specs/Time_parts.antt says which numbers are a time in femtoseconds, and specs/Format_parts.antt what a format string shows.
#![tactic(auto)]

pub mod expr_chain;
pub mod expr_format;
pub mod expr_goes;
pub mod expr_items;
pub mod expr_kinds;
pub mod expr_operands;
pub mod seek;
pub mod times;
