//! The three wrappers of clock domains: what they make of a module and of all below it.
//!
//! `rename` gives domains other names (specs/Renamed.antt), `insert_reset` resets the registers of a domain where a control is
//! not 0 (specs/Resetting.antt), and `insert_enable` keeps registers and gates memory ports where a control is 0
//! (specs/Enabling.antt). Each says exactly which fragment and which pool it gives; expressions come one after another
//! (specs/Making.antt), in order of fragments, and `Limit` exactly where what comes of it passes a count (specs/Counted.antt).
//! What the inserters do to registers and memory ports, and that renamed expressions and statements mean what they meant, are
//! the clauses of laws.rt (specs/Laws.antt).
#![tactic(auto)]

mod controls;
mod copies;
mod counts;
mod driven;
mod enabling;
mod fragments;
mod inserting;
mod laws;
mod places;
mod remaking;
mod renames;
mod renaming;
mod resetting;
mod roots;
mod stop;

pub use controls::{Control, Controls, NamePair, NamePairs};
pub use inserting::{insert_enable, insert_reset};
pub use laws::{
    enables_keep_fragments, enables_keep_ports, enables_keep_registers, new_names_keep_meaning,
    resets_give_fragments_inits, resets_give_inits,
};
pub use renames::rename;
pub use stop::ControlStop;
