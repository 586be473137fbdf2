//! The whole program over any host: it reads a design file, writes the hardware as RTLIL, and writes a trace of every
//! port after every event of a script, or of the file's simulator and its testbenches.
//!
//! `run` is the whole of it. What is proved is what it promises: specs/Promises.antt, in the words of specs/Headline.antt.
//! specs/Outcome.antt says what the words and the files ask for, and specs/Designs.antt what a design file stands for.
#![tactic(auto)]

mod accept;
mod design_text;
mod laws;
mod perform;
mod plan;
mod playing;
mod refusal;
mod rejecting;
mod row_text;
mod run_rows;
mod running;
mod texts;
mod trace;
mod trace_ends;

pub use laws::outcomes_are_one;
pub use playing::play;
pub use running::{Status, run};
