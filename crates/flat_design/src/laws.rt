// The laws of flat designs. The functions do nothing: their clauses are the laws.
ghost use Rattle.flat_design.specs.Laws.{FlatKeepsOrders, FlatHasTheHistory};

/// An order of the bits of a design is one of the flat design's.
pub fn flat_keeps_orders()
    ensures { FlatKeepsOrders }
{}

/// The flat design has the design's history.
pub fn flat_has_the_history()
    ensures { FlatHasTheHistory }
{}
