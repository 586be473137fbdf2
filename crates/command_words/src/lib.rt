//! The words of the command line, `DESIGN IL TRACE [--play FILE] [--top NAME] [--budget N] [--make N]`, read with `clap`.
//!
//! specs/Command.antt has the command as data of `clap`, whose own definition says which words are of it, and
//! specs/Request.antt what stands in them. `read_words` gives that, want of memory aside.
#![tactic(auto)]

mod command;
mod laws;
mod request;

pub use laws::plain_words_are_read;
pub use request::{Asked, read_words};
