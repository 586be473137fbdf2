// Why a memory refuses.

use amh_host::NoMemory;

/// Why a memory refuses. Of several reasons the first in this order is told.
#[derive(Clone, Copy, PartialEq, Eq, Drop)]
pub enum MemStop {
    /// The domain of a write port is `comb`, or another than that of an earlier one.
    BadDomain,
    /// The granularity of a write port has no bits, or does not divide the row.
    BadGranularity,
    /// A read port would be transparent for a port that is not there or has another domain, or has no clock itself.
    BadTransparent,
    /// There are more rows than the depth.
    TooManyRows,
    /// A count of rows, bits or ports of the memory, or of signals, their bits or expressions of the pool would be passed.
    Limit,
    /// No memory was left.
    NoMemory,
}

impl From<NoMemory> for MemStop {
    ghost use Rattle.std.specs.Prelude.{◌≡◌};
    ghost use Rattle.memory_ports.specs.declared.refusal.MemStop.TheVariants.{NoMemory as no_memory};

    ghost from_gives = { λ _ stop. stop ≡ no_memory };

    fn from(_: NoMemory) -> Self {
        MemStop::NoMemory
    }
}
