// The leaves of an interface, and the links between two.

use amh_host::{Items, Text};
use design_ir::{ExprId, SigId};

/// A signal of an interface, with the expression that it is: the path that leads to it, and whether it leads out.
#[derive(Drop)]
pub struct Leaf {
    pub path: Text,
    pub sig: SigId,
    pub expr: ExprId,
    pub is_out: bool,
}

/// An interface: its leaves, in order. Where a path stands twice, its first leaf counts.
pub type Interface = Items<Leaf>;

/// A signal that is driven by another, each as the expression that it is.
#[derive(Clone, Copy, PartialEq, Eq, Drop)]
pub struct Link {
    pub target: ExprId,
    pub source: ExprId,
}

/// Links, in the order of the first interface.
pub type Links = Items<Link>;

/// Why interfaces are not connected.
#[derive(Clone, Copy, PartialEq, Eq, Drop)]
pub enum WireStop {
    /// A path is not of both, or at a path the widths or the inits differ, or both leaves lead out.
    Unconnectable,

    /// No memory was left.
    NoMemory,
}
