// Clocks.

use design_ir::DomainId;

/// The clock of a domain. It is low at first, toggles at `phase` and then every `half` femtoseconds, at moments below 2^63.
#[derive(Clone, Copy, PartialEq, Eq, Drop)]
pub struct Clock {
    pub domain: DomainId,
    pub half: u64,
    pub phase: u64,
}
