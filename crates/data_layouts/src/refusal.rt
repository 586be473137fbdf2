// Why a layout or an enumeration is refused.

use amh_host::NoMemory;

/// Why a layout or an enumeration is refused. Of several reasons `Repeated` is told before `NotFitting`, and `Width` last.
#[derive(Clone, Copy, PartialEq, Eq, Drop)]
pub enum LayoutStop {
    /// It would be wider than 128 bits.
    Width,
    /// A name stands twice.
    Repeated,
    /// A number is not of the shape.
    NotFitting,
    /// No memory was left.
    NoMemory,
}

impl From<NoMemory> for LayoutStop {
    ghost use Rattle.std.specs.Prelude.{◌≡◌};
    ghost use Rattle.data_layouts.specs.declared.refusal.LayoutStop.TheVariants.{NoMemory as no_memory};

    ghost from_gives = { λ _ stop. stop ≡ no_memory };

    fn from(_: NoMemory) -> Self {
        LayoutStop::NoMemory
    }
}
