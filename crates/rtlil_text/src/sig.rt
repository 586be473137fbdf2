// Bits, and the specs that name them.

use amh_host::{Items, Text};

/// Bits, the least significant first.
pub type RtlBits = Items<bool>;

/// Some bits in a row: a constant, or `width` bits of a wire from bit `low` on.
#[derive(Drop)]
pub enum SigPart {
    Const(RtlBits),
    Wire { id: Text, low: u32, width: u32 },
}

/// Parts, the most significant first. Braces within braces of a text stand for one list.
pub type SigSpec = Items<SigPart>;
