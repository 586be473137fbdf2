// Memories with their ports.

use crate::ids::{ExprId, SigId};
use amh_bits::Int;
use amh_host::{Items, Numbers, Text};
use shape_rules::Shape;

/// A write port: at its domain's active edge the row at `addr` takes the bits of `word` that `enable` lets
/// through. Each bit of `enable` stands for `granularity` bits of the row.
#[derive(Drop)]
pub struct MemWrite {
    pub domain: Text,
    pub addr: ExprId,
    pub word: ExprId,
    pub enable: ExprId,
    pub granularity: u8,
}

/// A read port: `word` is the row at `addr`, at once where there is no domain, else as it was before each active
/// edge at which `enable` is 1, with what the write ports of the numbers `transparent` write there put in.
/// A domain and an enable are there exactly for a clocked port.
#[derive(Drop)]
pub struct MemRead {
    pub domain: Option<Text>,
    pub addr: ExprId,
    pub word: SigId,
    pub enable: Option<ExprId>,
    pub transparent: Numbers,
}

/// The write ports of a memory, a later one winning.
pub type MemWrites = Items<MemWrite>;

/// The read ports of a memory.
pub type MemReads = Items<MemRead>;

/// A list of integers.
pub type Ints = Items<Int>;

/// A memory of `depth` rows of a shape, `rows` being what they are at first. The name is empty until the whole
/// design is known; then it is the path of the memory's fragment.
#[derive(Drop)]
pub struct Memory {
    pub name: Text,
    pub shape: Shape,
    pub depth: u32,
    pub rows: Ints,
    pub writes: MemWrites,
    pub reads: MemReads,
}

/// A list of memories.
pub type Memories = Items<Memory>;
