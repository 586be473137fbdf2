//! The logical lines of a Python text, each with its indent and its tokens, or the place of its first fault.
//!
//! `cut_lines` gives what the definition `logical_lines` says, want of memory aside. specs/Pieces.antt tells the piece at
//! the front of a text by its characters alone, with a page each for characters and places, names, numbers, strings and
//! signs, and cuts the whole text into pieces. specs/Lines.antt makes logical lines of the pieces: brackets, joined
//! lines, indents, and which fault is told.
//!
//! Beside it stands a grammar without widths, specs/Grammar.antt, and `cut_lines` promises in its words that the tokens
//! and the gaps between them are the text and that each token is the longest that begins at its place
//! (specs/Tiles.antt), and that each takes whole characters, in order (specs/Spans.antt). It knows nothing of the
//! grammar of statements, and of what a token means only that a number is below its limit.
#![tactic(auto)]

mod chars;
mod front;
mod going;
mod line;
mod names;
mod numbers;
mod piece;
mod signs;
mod strings;
mod token;
mod walk;

pub use line::{LexStop, Line, Lines};
pub use token::{Token, TokenForm, Tokens};
pub use walk::cut_lines;
