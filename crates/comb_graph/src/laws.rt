// The laws of ordered bits. The functions do nothing: their clauses are the laws.
ghost use Rattle.comb_graph.specs.Laws.{OrderedHaveNoLoop, OrderedSettleOnce, OrderedHaveOneHistory, RoundsSettle, DeltasAreFew};

/// Where the bits of combinational signals have an order in which each stands behind those that it needs, no bit needs
/// itself.
pub fn ordered_have_no_loop()
    ensures { OrderedHaveNoLoop }
{}

/// Where they have one, each state whose numbers and rows are of their shapes has exactly one settled environment, and
/// its numbers are of their signals' shapes.
pub fn ordered_settle_once()
    ensures { OrderedSettleOnce }
{}

/// Where they have one, the design has exactly one history for any legal events.
pub fn ordered_have_one_history()
    ensures { OrderedHaveOneHistory }
{}

/// Computing every comb signal at once, again and again, settles a state from any numbers on, after one round more than
/// there are bits on the longest chain of needs.
pub fn rounds_settle()
    ensures { RoundsSettle }
{}

/// After an event a design settles in one list of deltas, of which no more change something than there are bits on the
/// longest chain of needs.
pub fn deltas_are_few()
    ensures { DeltasAreFew }
{}
