// What a machine shows of the program's strings and lists.

use py_heap::{Frozen, Heap};

/// The heap of a machine, and what stands before it.
#[derive(Clone, Copy, Drop)]
pub struct Shown<'a> {
    pub heap: &'a Heap,
    pub frozen: &'a Frozen,
}
