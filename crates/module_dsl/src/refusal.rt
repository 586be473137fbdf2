// Why a builder refuses.

use amh_host::NoMemory;

/// Why a builder refuses. Of several reasons the first in this order is told.
#[derive(Clone, Copy, PartialEq, Eq, Drop)]
pub enum BuildStop {
    /// A block is not open that should be, or is open that should not.
    Order,
    /// A statement drives something else than signals and their parts.
    NotTarget,
    /// There would be more than 65,536 statements.
    Limit,
    /// No memory was left.
    NoMemory,
}

impl From<NoMemory> for BuildStop {
    ghost use Rattle.std.specs.Prelude.{◌≡◌};
    ghost use Rattle.module_dsl.specs.declared.refusal.BuildStop.TheVariants.{NoMemory as no_memory};

    ghost from_gives = { λ _ stop. stop ≡ no_memory };

    fn from(_: NoMemory) -> Self {
        BuildStop::NoMemory
    }
}
