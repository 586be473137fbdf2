// The laws of memories. The functions do nothing: their clauses are the laws.
ghost use Rattle.memory_ports.specs.Laws.{AddressesAreLeast, NewHasPorts, WritesHavePorts, ReadsHavePorts, PortsStay, PoolsGrow, OthersLeavePorts, PortsFit, FittingStay, SpecsAreMemories, RenamesStay};

/// An address has the least width that names every row.
pub fn addresses_are_least()
    ensures { AddressesAreLeast }
{}

/// The pool has the signals of every port that was made, also where it has grown since, and whatever other signals are
/// settled.
pub fn ports_have_signals()
    ensures begun { NewHasPorts }
    ensures writes { WritesHavePorts }
    ensures reads { ReadsHavePorts }
    ensures grown { PortsStay }
    ensures pools { PoolsGrow }
    ensures others { OthersLeavePorts }
{}

/// The expressions of ports fit the memory, also where the pool has grown since. With a name, and where its domains are,
/// a memory whose ports fit is what a design asks for.
pub fn specs_are_memories()
    ensures fit { PortsFit }
    ensures stay { FittingStay }
    ensures memories { SpecsAreMemories }
{}

/// A memory whose domains get other names than `comb` stays one that is being made, and its ports fit as before.
pub fn renamed_are_specs()
    ensures { RenamesStay }
{}
