//! Statements without choices: the same design, in which each signal that a process drives is assigned once.
//!
//! `flatten` makes of a design one with the same signals, ports, columns, domains and memories, in which no statement
//! chooses and no target is computed (specs/Flat.antt). A target is a list of writes of fixed bits, each at some numbers of
//! its offsets and indices (specs/Writes.antt, writes.rt, pieces.rt, spans.rt). Where the bits of each signal come from is
//! kept as a source for each bit (specs/Sources.antt, sources.rt); a write puts in their place a `Mux` of the new sources
//! over the old ones, whose condition says whether the statement is carried out (specs/Activity.antt, activity.rt). So a
//! choice touches only bits that one of its arms may assign, and no bit needs more than before. The laws of flat designs
//! are those of laws.rt.
#![tactic(auto)]

mod activity;
mod adding;
mod assignments;
mod blocks;
mod flattening;
mod found;
mod laws;
mod pieces;
mod plain;
mod processes;
mod sources;
mod spans;
mod writes;

pub use flattening::flatten;
pub use laws::{flat_has_the_history, flat_keeps_orders};
pub use sources::Source;
pub use writes::{Test, Write, Writes};
