// Why a pool refuses.

/// Why a pool refuses a signal or an expression. Of several reasons the first in this order is told, but for
/// `Width`, which comes after `BadOperand`.
#[derive(Clone, Copy, PartialEq, Eq, Drop)]
pub enum PoolStop {
    /// The shape of the expression, or the work shape of its operator, would be wider than 128 bits.
    Width,
    /// A shift amount, an offset or an index is signed.
    BadOperand,
    /// A count of signals, of their bits or of expressions would be passed.
    Limit,
    /// No memory was left.
    NoMemory,
}
