// Why a design file gives no design.

use amh_host::{Kind, NoMemory, Place};

/// Why a design file is refused, and where.
#[derive(Clone, Copy, PartialEq, Eq, Drop)]
pub struct Refusal {
    pub place: Place,
    pub kind: Kind,
}

/// Why a design file gives no design.
#[derive(Clone, Copy, PartialEq, Eq, Drop)]
pub enum DesignStop {
    /// It is refused.
    Refused(Refusal),
    /// Its budget is spent here.
    Spent(Place),
    /// No memory was left.
    NoMemory,
}

impl From<NoMemory> for DesignStop {
    ghost use Rattle.std.specs.Prelude.{◌≡◌};
    ghost use Rattle.amh_tool.specs.declared.refusal.DesignStop.TheVariants.{NoMemory as no_memory};

    ghost from_gives = { λ _ stop. stop ≡ no_memory };

    fn from(_: NoMemory) -> Self {
        DesignStop::NoMemory
    }
}
