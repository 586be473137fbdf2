// The laws of read ports. The functions do nothing: their clauses are the laws.
ghost use Rattle.sim_plans.specs.PortValues.{WordsAreRows};

/// A delta leaves in the data of a combinational read port the row at its address.
pub fn words_are_rows()
    ensures { WordsAreRows }
{}
