// The laws of a memory's cells. The functions do nothing: their clauses are the laws.
ghost use Rattle.memory_cells.specs.Fits.{InitsFit, WritesFit, CombReadsFit, ClockedReadsFit, MemoriesFit};
ghost use Rattle.memory_cells.specs.Laws.{RowsBegin, EnablesSpread, RowsFollow, ReadsFollow, GuardsFollow, ClockedReadsFollow, GuardedReadsFollow, GuardsShowTheWord, SpreadsCarry, WriteCellsCarry, ReadCellsCarry};

/// Before any event a memory has its first rows.
pub fn rows_begin()
    ensures { RowsBegin }
{}

/// The bits of an enable, each repeated for its granule, let exactly the enabled bits through.
pub fn enables_spread()
    ensures { EnablesSpread }
{}

/// Where the write cells of a memory carry what the write ports of a design do, an event leaves the same rows in both.
pub fn rows_follow()
    ensures { RowsFollow }
{}

/// A read without a clock has the row at its guarded address.
pub fn reads_follow()
    ensures { ReadsFollow }
{}

/// Where the row at a guarded address is dropped past the depth, what is left is what a port reads.
pub fn guards_follow()
    ensures { GuardsFollow }
{}

/// A clocked read takes what its port takes, transparent writes among it, at an address within the depth; and it has a
/// value after every event.
pub fn clocked_reads_follow()
    ensures { ClockedReadsFollow }
{}

/// The same with a flag beside the read that keeps whether the last address was one of a row: where it is 0 the data is 0.
pub fn guarded_reads_follow()
    ensures { GuardedReadsFollow }
{}

/// What the flag lets through is the read data of the design.
pub fn guards_show_the_word()
    ensures { GuardsShowTheWord }
{}

/// A memory and its cells keep the rules of RTLIL text, where the bits at their ends are of the module and as many as they
/// must be, and a read is transparent for write cells of its own clock alone.
pub fn cells_keep_the_rules()
    ensures inits { InitsFit }
    ensures writes { WritesFit }
    ensures comb_reads { CombReadsFit }
    ensures clocked_reads { ClockedReadsFit }
    ensures memories { MemoriesFit }
{}

/// Where a wire has the bits of an enable, each of them for the bits of a granule at the end of a write cell, the cell gets
/// exactly the enabled bits; and a cell carries what its port does where the bits at its ends are the guarded address, the
/// word, and the enable.
pub fn ends_carry_the_port()
    ensures spreads { SpreadsCarry }
    ensures writes { WriteCellsCarry }
    ensures reads { ReadCellsCarry }
{}
