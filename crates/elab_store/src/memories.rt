// Memories of a program, in order of making.
use amh_things::thing::Reading;
use memory_ports::MemorySpec;

/// A memory as far as it is made, and what its data are read as.
#[derive(Drop)]
pub struct OwnMemory {
    pub spec: MemorySpec,
    pub reading: Reading,
}
