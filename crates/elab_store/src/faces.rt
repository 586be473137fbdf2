// Interfaces, as they stand over the signals that were made for them.

use design_ir::{ExprId, Ports, SigId};
use py_values::Val;

/// An interface: its signature, turned or not, whose leaves are the ends from the first on, one for each.
#[derive(Clone, Copy, PartialEq, Eq, Drop)]
pub struct Face {
    pub signature: u32,
    pub turned: bool,
    pub first: usize,
}

/// The signal that was made for a leaf, the expression that it is, and the value that stands for it.
#[derive(Clone, Copy, PartialEq, Eq, Drop)]
pub struct End {
    pub val: Val,
    pub sig: SigId,
    pub expr: ExprId,
}

/// A member of an interface: the number of the end that is its port, or an interface.
#[derive(Clone, Copy, PartialEq, Eq, Drop)]
pub enum FaceMember {
    Port(usize),
    Nested(Face),
}

/// What is kept of an object of a component class: its interface, and the ports that are its leaves.
#[derive(Drop)]
pub struct ComponentObject {
    pub face: Face,
    pub ports: Ports,
}
