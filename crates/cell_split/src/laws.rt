// The laws of cut cells. The functions do nothing: their clauses are the laws.
ghost use Rattle.cell_split.specs.Laws.{SplitsKeepTheRules, SplitsKeepTheHistory, SplitsKeepTheRegisters};

/// Where no id of the module has one of the new numbers, it keeps the rules of RTLIL text, whichever cells are marked.
pub fn splits_keep_the_rules()
    ensures { SplitsKeepTheRules }
{}

/// Whichever cells are marked, the module has the same history: whatever inputs come, each bit of each wire has the
/// same value after every event, or has none in both.
pub fn splits_keep_the_history()
    ensures { SplitsKeepTheHistory }
{}

/// Whichever cells are marked, registers drive the same bits in the same order.
pub fn splits_keep_the_registers()
    ensures { SplitsKeepTheRegisters }
{}
