// The ranks of a design.
ghost use Rattle.std.specs.Prelude.{◌≡◌};

use amh_host::Items;
use design_ir::SigId;
use std::marker::Model;

/// A bit of a combinational signal, or of the data of a combinational read port.
#[derive(Clone, Copy, PartialEq, Eq, Drop)]
pub struct RankedBit {
    pub sig: SigId,
    pub bit: u8,
}

/// Bits, each behind those that it needs.
pub type RankedBits = Items<RankedBit>;

/// The bits of a design's combinational signals, in an order in which each stands behind those that it needs.
#[derive(Drop)]
pub struct Ranks {
    order: RankedBits,
    longest: u32,
}

impl Model for Ranks {
    ghost use Rattle.comb_graph.specs.Rankings.{Ranking};

    ghost Value = { Ranking };

    ghost view = { λ a. record { order = a.order; longest = a.longest } };
}

impl Ranks {
    pub(crate) fn new(order: RankedBits, longest: u32) -> Ranks
        ensures { result ≡ record { order = order; longest = longest } }
    {
        Ranks { order, longest }
    }

    /// How many bits stand on the longest chain of needs.
    pub fn longest(&self) -> u32
        ensures { result ≡ self.now.longest }
    {
        self.longest
    }

    /// All bits of combinational signals and combinational read data, each once, behind those that it needs.
    pub fn order(&self) -> &RankedBits
        ensures { result.now ≡ self.now.order }
    {
        &self.order
    }
}
