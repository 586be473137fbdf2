//! Which signals of two interfaces are connected.
//!
//! An interface is the list of its leaves: a path, a signal, and whether it leads out. `connect` links what leads in of one
//! interface with what leads out of the other at the same path, and refuses interfaces that do not fit together
//! (specs/Wiring.antt). The laws beside it say that it is the same from both sides, that an interface and one turned
//! against it are linked leaf by leaf, and that nothing is linked but what leads in from what leads out (specs/Laws.antt).
#![tactic(auto)]

mod laws;
mod leaf;
mod places;
mod wires;

pub use laws::wires_fit;
pub use leaf::{Interface, Leaf, Link, Links, WireStop};
pub use places::are_apart;
pub use wires::connect;
