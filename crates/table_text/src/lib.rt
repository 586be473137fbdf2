//! How the programs of tables read and write their lines: bytes in escapes, words, and numbers.
//!
//! What a line spells is defined in specs/Escapes.antt, and what is added to an answer in specs/Lines.antt.
#![tactic(auto)]

mod escapes;
mod line;
mod spelling;
mod stop;
mod words;

pub use escapes::{bytes_of, text_of};
pub use line::Line;
pub use spelling::spelled;
pub use stop::{Stop, answered};
pub use words::{count, integer, natural, split_first, words_of};
