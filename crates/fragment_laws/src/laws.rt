// The laws of fragments and of growth. The functions do nothing: their clauses are the laws.
ghost use Rattle.fragment_laws.specs.Growth.{GrowsOn, GrowthKeepsMeaning, GrowthKeepsNeeds};
ghost use Rattle.fragment_laws.specs.Roots.{DesignsMeanTheirRoots, ResolvedMeansItsRoot};

/// A design that is a fragment with its domains resolved means what the fragment does: its first state, its settled
/// environments, what an event leaves and its histories are the fragment's, over the design's domains by their names.
pub fn designs_mean_their_roots()
    ensures { DesignsMeanTheirRoots }
{}

/// So it is where `resolve` of clock_domains gives the design of a module with those below it, over the pool with the
/// signals of the domains that no module defines, in which resets are still resets.
pub fn resolved_means_its_root()
    ensures { ResolvedMeansItsRoot }
{}

/// What grows by expressions grows on: by none, by one, and by what comes after.
pub fn designs_grow_on()
    ensures { GrowsOn }
{}

/// A design whose pool grew by expressions has the values, the settled environments, the steps, the legal events and the
/// histories that it had.
pub fn growth_keeps_meaning()
    ensures { GrowthKeepsMeaning }
{}

/// The same bits of it need each other, so its ranks, or its loops, are those that it had.
pub fn growth_keeps_needs()
    ensures { GrowthKeepsNeeds }
{}
