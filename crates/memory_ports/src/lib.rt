//! Memories with their ports, as they are made.
//!
//! A `MemorySpec` is seen as the `Memory` that it has come to, without a name as yet (specs/Memories.antt). Each port gets its
//! signals and an expression for each in the pool (specs/Ports.antt); what the calls refuse and what they leave is
//! specs/Calls.antt. That what is made is what a design asks of a memory, also where the pool has grown since, is in laws.rt.
#![tactic(auto)]

mod copies;
mod laws;
mod memory;
mod ports;
mod refusal;
mod rules;
mod signals;

pub use copies::copied_memory;
pub use laws::{addresses_are_least, ports_have_signals, renamed_are_specs, specs_are_memories};
pub use memory::MemorySpec;
pub use ports::{ReadPort, WritePort};
pub use refusal::MemStop;
