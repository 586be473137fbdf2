// What is computed at a time.
ghost use Rattle.std.specs.Prelude.{◌≡◌, ◌<◌, length, slice_index_or};

use crate::targets::SigIds;
use amh_host::Items;
use design_ir::{ExprId, Ids, Stmt};

/// Statements of one process by their places in it, the signals that they drive, and the expressions that stand in them,
/// each behind those that it names.
#[derive(Drop)]
pub struct Task {
    pub process: u32,
    pub statements: Items<usize>,
    pub outs: SigIds,
    pub exprs: Ids,
}

/// A combinational read port: the number of its memory, its address, the signal that has its data, and the expressions
/// that stand in the address, each behind those that it names.
#[derive(Drop)]
pub struct PortTask {
    pub memory: usize,
    pub addr: ExprId,
    pub outs: SigIds,
    pub exprs: Ids,
}

/// One of these statements.
pub fn statement(all: &[Stmt], i: usize) -> &Stmt
    requires { i < length all.now }
    ensures { result.now ≡ slice_index_or all.now i result.now }
{
    &all[i]
}
