// Why a module gives no design.

use amh_host::{NoMemory, Place};

/// Why a module gives no design, and where.
#[derive(Clone, Copy, PartialEq, Eq, Drop)]
pub enum ResolveStop {
    /// A name of a domain is defined again, or a domain under another name.
    DomainClash(Place),
    /// The reset of a domain that has none is read or driven.
    NoReset(Place),
    /// A signal is driven from two domains or modules.
    TwoDrivers(Place),
    /// A clock, or an input of the top, is driven.
    DrivenInput(Place),
    /// There would be too many domains, or too many signals or bits with those of the domains that are made.
    Limit(Place),
    /// No memory was left.
    NoMemory,
}

impl From<NoMemory> for ResolveStop {
    ghost use Rattle.std.specs.Prelude.{◌≡◌};
    ghost use Rattle.clock_domains.specs.declared.stop.ResolveStop.TheVariants.{NoMemory as no_memory};

    ghost from_gives = { λ _ stop. stop ≡ no_memory };

    fn from(_: NoMemory) -> Self {
        ResolveStop::NoMemory
    }
}
