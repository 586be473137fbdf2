//! From a program to a design: what a program is answered when it asks about hardware, and what comes of it.
//!
//! `elaborate` runs a program with `Machine` of py_machine and answers each request by one table, `prim` of specs/Table.antt: shapes and
//! values are those of amh_values, state machines those of elab_machines, and imports, modules, signals, statements, blocks, classes, components, submodules,
//! clock domains, the top and the simulator those of elab_acts. When the program has ended, its modules become one tree from the top on (src/trees.rt), which
//! clock_domains resolves; then the clocks of the simulator are tested (src/clocks.rt).
//! Which answers a program gets is the relation `Reaches` of specs/Reaches.antt, and what then comes of it is `Elaborates` of
//! specs/Elaborates.antt, which `elaborate` meets exactly; there is one such outcome (`outcome_is_one`).
#![tactic(auto)]

mod answering;
mod clocks;
mod component_tops;
mod finish;
mod laws;
mod object_tops;
mod refusal;
mod running;
mod trees;

pub use elab_store::kept::{
    Begin, BlockName, DomainName, Equation, HdlName, Kept, MachineCall, MachinePart, StateCall, Top,
};
pub use elab_store::members::{ComponentClass, Member, Members, NamedMember};
pub use elab_store::shapes::Shaped;
pub use elab_store::store::Store;
pub use laws::outcome_is_one;
pub use refusal::ElabStop;
pub use running::{Elaborated, answer_request, elaborate};
