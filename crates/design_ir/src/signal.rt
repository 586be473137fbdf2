// Signals.

use amh_bits::Int;
use amh_host::{Items, Text};
use shape_rules::Shape;

/// A signal. Its `init` is a number of its shape: what it has until something drives it, and what a reset gives
/// it back unless it is `reset_less`.
#[derive(Drop)]
pub struct Sig {
    pub name: Text,
    pub shape: Shape,
    pub init: Int,
    pub reset_less: bool,
}

/// A list of signals, in order of making.
pub type Sigs = Items<Sig>;
