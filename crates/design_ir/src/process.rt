// The statements of one side of a module, and those of a design.

use crate::ids::DomainId;
use crate::stmt::Stmts;
use amh_host::{Items, Text};

/// Where statements stand: in the combinational domain, or in a clocked one with this name.
#[derive(Drop)]
pub enum Side {
    Comb,
    Clocked(Text),
}

/// The statements of one side of a fragment.
#[derive(Drop)]
pub struct Process {
    pub side: Side,
    pub body: Stmts,
}

/// One process for each side that a fragment has, in order of their first statements.
pub type Processes = Items<Process>;

/// The statements of one side, with the number of its domain, `None` for the combinational one.
#[derive(Drop)]
pub struct DesignProcess {
    pub domain: Option<DomainId>,
    pub body: Stmts,
}

/// The processes of a design.
pub type DesignProcesses = Items<DesignProcess>;
