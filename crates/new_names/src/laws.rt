// The laws of new names. The function does nothing: its clauses are the laws.
ghost use Rattle.new_names.specs.Laws.{FreshIsNew, FreshIsPublic, GivenAreDistinct, DistinctStay};

/// A name is given that none before it has; a path is given as a public name; all that are given one after another differ
/// from each other and from those before; and names that differ already are given as they are.
pub fn names_are_new()
    ensures new { FreshIsNew }
    ensures public { FreshIsPublic }
    ensures distinct { GivenAreDistinct }
    ensures stay { DistinctStay }
{}
