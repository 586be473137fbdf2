// The laws of targets, and of events. The functions do nothing: their clauses are the laws.
ghost use Rattle.design_ir.specs.Choices.{SignalsChoose, PlacesAreAims, AimsArePlaces, AimsStand, FixedAimsStay};
ghost use Rattle.design_ir.specs.Clearing.{ResetsAct};
ghost use Rattle.design_ir.specs.PoolRules.{IsPool};
ghost use Rattle.design_ir.specs.Pools.{Pooled};
ghost use Rattle.design_ir.specs.Rising.{ActiveIsRising, NothingIsCleared, StepsAreMoves};

/// Where the numbers of signals are of their shapes, a target stands for the places that some numbers of its offsets and
/// indices choose; and whatever these numbers are, each bit among the places is one of the target's aims.
pub fn places_are_aims()
    ensures chosen { (p : Pooled) → IsPool p → SignalsChoose p }
    ensures aims { (p : Pooled) → IsPool p → PlacesAreAims p }
{}

/// Each aim of a target stands somewhere; wherever it does, its bit is the one at that place for some numbers of the
/// offsets and indices, and for all of them where the place is fixed.
pub fn aims_are_places()
    ensures places { (p : Pooled) → IsPool p → AimsArePlaces p }
    ensures stand { (p : Pooled) → AimsStand p }
    ensures fixed { (p : Pooled) → IsPool p → FixedAimsStay p }
{}

/// After an event each register of a domain whose asynchronous reset is then 1 has its init, but where it is reset-less;
/// every other number is what the event left before that.
pub fn resets_act()
    ensures { ResetsAct }
{}

/// In a design all of whose domains are rising and reset at edges alone, a domain is active where it rises, no process is
/// cleared, and an event leaves what it does before asynchronous resets.
pub fn rising_steps()
    ensures active { ActiveIsRising }
    ensures cleared { NothingIsCleared }
    ensures moved { StepsAreMoves }
{}
