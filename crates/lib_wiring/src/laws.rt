// The laws of links. The function does nothing: its clauses are the laws.
ghost use Rattle.lib_wiring.specs.Laws.{ConnectableIsFitting, LinksLeadIn, LinksAreTheSame, FittingIsTheSame, TurnedAreLinked};

/// Interfaces are connectable exactly where they have the same paths and what meets fits; it is the same from both sides,
/// and so is the set of the links; each link leads from an `Out` leaf to an `In` leaf of the same path; and an interface
/// is linked leaf by leaf with one that is turned against it.
pub fn wires_fit()
    ensures fitting { ConnectableIsFitting }
    ensures leads_in { LinksLeadIn }
    ensures same_links { LinksAreTheSame }
    ensures same_fitting { FittingIsTheSame }
    ensures turned { TurnedAreLinked }
{}
