// Why a design has no ranks.

use amh_host::{NoMemory, Place};
use design_ir::SigId;

/// Why a design is not ranked.
#[derive(Clone, Copy, PartialEq, Eq, Drop)]
pub enum GraphStop {
    /// This bit needs itself, and no lesser one does; the place is that of the first assignment that may write it.
    Loop { sig: SigId, bit: u8, place: Place },
    /// No memory was left.
    NoMemory,
}

impl From<NoMemory> for GraphStop {
    ghost use Rattle.std.specs.Prelude.{◌≡◌};
    ghost use Rattle.comb_graph.specs.declared.stop.GraphStop.TheVariants.{NoMemory as no_memory};

    ghost from_gives = { λ _ stop. stop ≡ no_memory };

    fn from(_: NoMemory) -> Self {
        GraphStop::NoMemory
    }
}
