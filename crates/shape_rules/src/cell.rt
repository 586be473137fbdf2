// The kinds of cells that RTLIL text may have here.

/// A cell of the Yosys cell library, or that an operator takes several of them.
#[derive(Clone, Copy, PartialEq, Eq, Drop)]
pub enum CellKind {
    Not,
    And,
    Or,
    Xor,
    ReduceOr,
    ReduceAnd,
    ReduceXor,
    Add,
    Sub,
    Mul,
    Eq,
    Lt,
    Le,
    Shl,
    Shr,
    Sshr,
    DivFloor,
    ModFloor,
    Mux,
    Dff,
    Adff,
    MemoryRead,
    MemoryWrite,
    MemoryInit,
    Many,
}
