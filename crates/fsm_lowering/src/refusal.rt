// Why a state machine refuses.

use amh_host::{NoMemory, Place};

/// Why a state machine refuses. `Order` is told first, then the first of the others in this order.
#[derive(Clone, Copy, PartialEq, Eq, Drop)]
pub enum FsmStop {
    /// A state that was never entered, at its first mention; the `init` that was never mentioned, at its machine.
    UndefinedState(Place),
    /// The state was entered before.
    Repeated,
    /// A state is open that should not, or none is that should; or a block of the module stands in the way.
    Order,
    /// There would be more than 256 states, or a count of the pool or the module would be passed.
    Limit,
    /// No memory was left.
    NoMemory,
}

impl From<NoMemory> for FsmStop {
    ghost use Rattle.std.specs.Prelude.{◌≡◌};
    ghost use Rattle.fsm_lowering.specs.declared.refusal.FsmStop.TheVariants.{NoMemory as no_memory};

    ghost from_gives = { λ _ stop. stop ≡ no_memory };

    fn from(_: NoMemory) -> Self {
        FsmStop::NoMemory
    }
}
