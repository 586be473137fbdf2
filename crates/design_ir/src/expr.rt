// Expressions.

use crate::ids::{ExprId, Ids, SigId};
use amh_bits::Int;
use amh_host::{Items, Place, Text};
use shape_rules::{Op, Shape};

/// What a value is matched with: its bits, with zeros above its width, are to be `bits` under the mask.
/// The bits are within the mask.
#[derive(Clone, Copy, PartialEq, Eq, Drop)]
pub struct Pattern {
    pub mask: u128,
    pub bits: u128,
}

/// A list of patterns, of which one is to match.
pub type Patterns = Items<Pattern>;

/// An expression over signals and earlier expressions of its pool.
#[derive(Drop)]
pub enum Expr {
    /// A number of the shape.
    Const {
        value: Int,
        shape: Shape,
    },
    /// A signal.
    Sig(SigId),
    /// An operator of one operand.
    Unary {
        op: Op,
        a: ExprId,
    },
    /// An operator of two operands.
    Binary {
        op: Op,
        a: ExprId,
        b: ExprId,
    },
    /// `a` where `s` is not 0, else `b`.
    Mux {
        s: ExprId,
        a: ExprId,
        b: ExprId,
    },
    /// So many bits of `a` from bit `low` on.
    Slice {
        a: ExprId,
        low: u8,
        width: u8,
    },
    /// Expressions one above the other, the first least significant.
    Cat(Ids),
    /// So many bits of `a` from bit `offset * stride` on.
    Part {
        a: ExprId,
        offset: ExprId,
        width: u8,
        stride: u8,
    },
    /// The item with this index, past the end the last one.
    Pick {
        index: ExprId,
        items: Ids,
    },
    /// The bits of `a` read with or without a sign.
    Cast {
        a: ExprId,
        signed: bool,
    },
    /// 1 where one of the patterns matches.
    Matches {
        a: ExprId,
        patterns: Patterns,
    },
    /// The reset of the domain with this name, of the shape `unsigned(1)`. No process or memory of a design
    /// holds one: each is replaced by the domain's reset before.
    Reset {
        domain: Text,
        place: Place,
    },
}
