// Why a wrapper refuses.

use amh_host::NoMemory;

/// Why a wrapper refuses.
#[derive(Clone, Copy, PartialEq, Eq, Drop)]
pub enum ControlStop {
    /// There would be more than 262,144 expressions or 65,536 statements.
    Limit,
    /// No memory was left.
    NoMemory,
}

impl From<NoMemory> for ControlStop {
    ghost use Rattle.std.specs.Prelude.{◌≡◌};
    ghost use Rattle.domain_transforms.specs.declared.stop.ControlStop.TheVariants.{NoMemory as no_memory};

    ghost from_gives = { λ _ stop. stop ≡ no_memory };

    fn from(_: NoMemory) -> Self {
        ControlStop::NoMemory
    }
}
