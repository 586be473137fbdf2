//! When the clocks of a simulation toggle.
//!
//! A clock toggles at its phase and then every half of its period, at moments below 2^63 femtoseconds (specs/Moments.antt).
//! `next_toggle` finds the next moment at which some clock does, and `due` the domains whose clocks toggle then, which are an
//! event (specs/Due.antt). Of whole lists of moments the laws say that none is passed over, and that those of one clock
//! begin at its phase and are a half apart (specs/Laws.antt, laws.rt).
#![tactic(auto)]

mod clock;
mod domains;
mod laws;
mod next;

pub use clock::Clock;
pub use domains::{due, is_due};
pub use laws::{due_are_events, moments_are_toggles};
pub use next::next_toggle;
