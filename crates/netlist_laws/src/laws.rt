// The laws of the lowering. The functions do nothing: their clauses are the laws.
ghost use Rattle.netlist_laws.specs.PortGuards.{GuardsAreMade};
ghost use Rattle.netlist_laws.specs.PortLaws.{WritePortsAreMade, CombReadsAreMade, ClockedReadsAreMade, FlagsAreMade, WordsAreShown};
ghost use Rattle.netlist_laws.specs.Laws.{OperatorsAreMade, ExpressionsAreMade, ModulesKeepTheRules, ModulesCorrespond, ModulesHaveTheHistory};

use memory_cells::{
    cells_keep_the_rules, clocked_reads_follow, ends_carry_the_port, guarded_reads_follow,
    guards_follow, guards_show_the_word, reads_follow, rows_begin, rows_follow,
};

/// Where the wires of its operands carry two integers, the cells of an operator give its wire the operator's integer:
/// for each of the operators, and all shapes that it takes.
pub fn operators_are_made()
    ensures { OperatorsAreMade }
{}

/// Bit by bit, where the bits of signals that a bit of an expression needs are on their wires, the expression's wire
/// has the bit of its integer.
pub fn expressions_are_made()
    ensures { ExpressionsAreMade }
{}

/// The module of a design keeps the rules of RTLIL text, its memories too, and has the design's columns.
pub fn modules_are_sound()
    ensures rules { ModulesKeepTheRules }
    ensures columns { ModulesCorrespond }
{
    cells_keep_the_rules();
}

/// Where the bits of combinational signals have an order, the module of a plain design has the design's history, and
/// every bit of it has a value, whatever legal events come: its memories begin, are written and are read as the design's.
pub fn modules_have_the_history()
    ensures { ModulesHaveTheHistory }
{
    cells_keep_the_rules();
    rows_begin();
    rows_follow();
    reads_follow();
    guards_follow();
    clocked_reads_follow();
    guarded_reads_follow();
    ends_carry_the_port();
    memory_ports_are_made();
}

/// Where the wire of a memory port's address carries a number, the guard's one bit says whether a row has it, and the cell
/// behind it reads that number, or 0 past the depth.
pub fn guards_are_made()
    ensures { GuardsAreMade }
{}

/// Where the wires of expressions carry their numbers and the wires obey the drawing of a memory's port, its cell carries what
/// the port of the design does: it writes the enabled bits of rows within the depth; it gives the row at once, and 0 past the
/// depth; or it reads at the clock, beside a flag that keeps whether the last address was one of a row.
pub fn memory_ports_are_made()
    ensures writes { WritePortsAreMade }
    ensures comb_reads { CombReadsAreMade }
    ensures clocked_reads { ClockedReadsAreMade }
    ensures flags { FlagsAreMade }
    ensures words { WordsAreShown }
{
    ends_carry_the_port();
    reads_follow();
    guards_follow();
    guards_show_the_word();
}
