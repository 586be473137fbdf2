// Ports, and the columns of a trace.

use crate::ids::SigId;
use amh_host::{Items, Text};

/// A port of the whole design.
#[derive(Drop)]
pub struct Port {
    pub name: Text,
    pub sig: SigId,
    pub is_input: bool,
}

/// The ports of a design, in order.
pub type Ports = Items<Port>;

/// A signal that a trace shows: a port, or a named register.
#[derive(Drop)]
pub struct Column {
    pub name: Text,
    pub sig: SigId,
}

/// The columns of a design, the ports' first.
pub type Columns = Items<Column>;
