// What a builder is told.

use amh_host::Place;
use design_ir::{ExprId, Patterns, Side};

/// A block that is to be entered.
#[derive(Drop)]
pub enum Block {
    /// Its statements are active where this is not 0.
    If(ExprId),
    /// Directly after an `If` or an `Elif`: active where none before it is, and this is not 0.
    Elif(ExprId),
    /// Directly after an `If` or an `Elif`: active where none before it is.
    Else,
    /// Holds cases of this value, and nothing else directly.
    Switch(ExprId),
    /// Directly in a `Switch`: active where none before it is, and one of the patterns matches.
    Case(Patterns),
    /// Directly in a `Switch`: active where none before it is.
    Default,
}

/// The begin of a block, with the expression of its condition or, for a `Switch`, its subject.
#[derive(Clone, Copy, PartialEq, Eq, Drop)]
pub enum Opening {
    If(ExprId),
    Elif(ExprId),
    Else(ExprId),
    Switch(ExprId),
    /// A `Case` or a `Default`.
    Case(ExprId),
}

/// One thing that a builder was told.
#[derive(Drop)]
pub enum Step {
    /// A statement of a side.
    Assign {
        side: Side,
        target: ExprId,
        value: ExprId,
        place: Place,
    },
    /// A block begins.
    Enter(Opening),
    /// The innermost block ends.
    Leave,
}

/// The block of a choice that is open.
#[derive(Clone, Copy, PartialEq, Eq, Drop)]
pub enum OpenBlock {
    /// An `If` or an `Elif` with this condition.
    Branch(ExprId),
    /// An `Else`.
    Last(ExprId),
    /// Directly a `Switch` over this subject.
    Switch(ExprId),
    /// A `Case` or a `Default` of a `Switch`.
    Case { subject: ExprId, condition: ExprId },
}
