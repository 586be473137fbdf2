// The laws of trees. The functions do nothing: their clauses are the laws.
ghost use Rattle.transform_laws.specs.Laws.{EnabledTrees, GrownTrees, RenamedTrees, ResetTrees, StandingTrees};

/// What stands in the statements and memory ports of a tree of modules is of its pool, and where each reset of the pool has the
/// name of a domain, each that stands in some of its expressions has.
pub fn trees_stand_in_pools()
    ensures { StandingTrees }
{}

/// A tree of modules of a pool is one of the pool that grew by expressions.
pub fn growth_keeps_trees()
    ensures { GrownTrees }
{}

/// So is the tree whose domains were renamed, each to a name.
pub fn renaming_keeps_trees()
    ensures { RenamedTrees }
{}

/// So is the tree whose registers a reset inserter resets.
pub fn resetting_keeps_trees()
    ensures { ResetTrees }
{}

/// So is the tree whose registers and memory ports an enable inserter gates.
pub fn enabling_keeps_trees()
    ensures { EnabledTrees }
{}
