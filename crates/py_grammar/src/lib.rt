//! The grammar of the Python subset, over words, and the reader of it.
//!
//! specs/Grammar.antt says which words stand for which expression, rule by rule. specs/Reading.antt is a reader that
//! takes an expression off the front of some words; the code of `py_parser` is that reader. specs/Statements.antt and
//! specs/Line_reading.antt are the same for logical lines: simple statements and the heads of compound ones;
//! specs/Blocks.antt and specs/Block_reading.antt for the lines of a file. The laws of `laws` say that what is read is
//! derived, that what is derived is read, and which line of a file is refused.
#![tactic(auto)]

mod laws;
mod word;

pub use laws::{expressions_are_exact, lines_are_exact, lists_are_exact, programs_are_exact};
pub use word::{Kind, Mark, Stop, Word};
