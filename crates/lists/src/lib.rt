//! Lists and text as the contracts of every other crate see them: a list is the list of its elements,
//! a text is the list of its bytes, and a push refuses want of memory alone and then changes nothing.
//! The test of two texts is defined in specs/Texts.antt.
#![tactic(auto)]

mod items;
mod text;
mod words;

pub use items::{Items, NoMemory, Numbers};
pub use text::Text;
pub use words::{Names, Words};
