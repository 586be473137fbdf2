//! The program of a Python text, from its logical lines: `parse` gives the tree that the grammar derives from them, or the
//! place of the first line with which they are no front of a program.
//!
//! The grammar is the relation of `py_grammar`, and the readers of that crate are what the code is, function by
//! function; the laws there tie the two. py_words gives each token its value and makes the nodes, py_phrases reads expressions,
//! `read_line` reads all words of a logical line, and block_file.rt reads blocks off lines (specs/Files.antt). The calls nest
//! as deep as brackets and blocks may.
#![tactic(auto)]

mod block;
mod block_file;
mod block_parts;
mod head;
mod imports;
mod line;
mod line_reader;
mod params;
mod parsing;
mod simple;

pub use line::{Head, LineForm, Noted};
pub use line_reader::read_line;
pub use parsing::{ParseStop, parse};
