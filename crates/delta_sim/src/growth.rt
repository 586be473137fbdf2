// The law of designs that grow while they run. The function does nothing: its clause is the law.
ghost use Rattle.delta_sim.specs.Growth.{GrowthKeepsSimulators};

/// A simulator of a design is one of the design that it has grown to by expressions, and stands for the events that it
/// stood for. So `apply` and `eval` may be called with the design as it is now.
pub fn growth_keeps_simulators()
    ensures { GrowthKeepsSimulators }
{}
