//! The syntax tree of the Python subset, as the parser makes it and the evaluator walks it.
//!
//! A node is a handle, so that a part can be held on to without the whole. Chains (operators of one level, what
//! trails a primary, items of a display) are lists, so a line may be as long as it likes while the tree stays as
//! deep as its brackets. Contracts see an expression by `tree` of specs/Seen.antt, as the pure tree of
//! specs/Tree.antt, in which nothing of memory shows. Each node has the place of its first token.
#![tactic(auto)]

mod expr;
mod name;
mod number;
mod stmt;

pub use expr::{
    Argument, Comprehension, Constant, Expr, ExprKind, Link, Operator, Pair, Sign, Trailer,
};
pub use name::{Name, Piece, Pieces};
pub use number::{Amount, Decimal};
pub use stmt::{Block, Branch, Function, Imported, Param, Program, Stmt, StmtKind};
