//! The texts of a run that is played: the script that is read, and the trace that is written.
//!
//! A board (specs/Boards.antt) names what a design shows. `read_script` gives the events of a script's lines, or the first
//! line that is refused, as specs/Script.antt says; `trace_lines` and `Stripes` write the lines of a trace from the numbers
//! behind each event (specs/Trace.antt and specs/Stripes.antt). Files, words and the simulator's run are a matter of the
//! crate above (amh_tool).
#![tactic(auto)]

pub mod board;
pub mod script;
mod script_edge;
mod script_line;
mod script_names;
mod script_numbers;
mod script_saying;
mod script_words;
mod text_lines;
mod trace_columns;
mod trace_events;
pub mod trace_lines;
pub mod trace_stripes;
