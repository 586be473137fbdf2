// Events.

use crate::ids::{Clocks, SigId};
use amh_bits::Int;

/// What happens to a design from outside.
#[derive(Drop)]
pub enum Event {
    /// An input that is no clock takes a number of its shape.
    Set { sig: SigId, value: Int },
    /// The clocks of these domains toggle at once.
    Edge(Clocks),
}
