//! The cells of a memory in a module of RTLIL, and what they make of its rows.
//!
//! specs/Cells.antt has the cells: first rows, write ports and read ports. specs/Carried.antt says what the wires at their
//! ends carry where they stand for the ports of a design. Under that, the functions of `laws` carry in their clauses that
//! rows begin, are written and are read as those of the design, bit by bit. How the wires come to carry it is a matter of
//! the lowering above. `memory`, `init_cell`, `write_cell`, `comb_read` and `clocked_read` make
//! them, and `spread` what a write cell gets for an enable.
#![tactic(auto)]

mod bits;
mod cells;
mod clock;
mod granules;
mod laws;
mod plan;

pub use cells::{PortEnds, clocked_read, comb_read, init_cell, memory, write_cell};
pub use clock::Clock;
pub use granules::spread;
pub use laws::{
    cells_keep_the_rules, clocked_reads_follow, enables_spread, ends_carry_the_port,
    guarded_reads_follow, guards_follow, guards_show_the_word, reads_follow, rows_begin,
    rows_follow,
};
pub use plan::Plan;
