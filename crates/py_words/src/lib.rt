//! The words of tokens, and the nodes that are made of what was read.
//!
//! `words_of` gives each token its value (specs/Words_of.antt): numbers, strings, and the parts of format strings. `Take`
//! takes words off a line, operators stand in levels, and `node` makes the node of a tree, or refuses what the grammar of
//! py_grammar has no tree for. In which order words are read is a matter of the readers above (py_parser).
#![tactic(auto)]

mod format;
mod laws;
pub mod node;
mod number;
pub mod operator;
pub mod phrase;
mod strings;
pub mod take;
pub mod target;
mod words;

pub use laws::numbers_are_words;
pub use phrase::{Deep, Listed, Phrase, Rest};
pub use words::words_of;
