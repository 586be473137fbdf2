// The ports of the top.

use design_ir::Ports;

/// What the ports of a design are taken from.
#[derive(Drop)]
pub enum TopPorts {
    /// The members of a component's signature, each an input or an output.
    Members(Ports),
    /// The signals that an object holds, which are inputs where nothing drives them. Domains name their clocks and resets.
    Held(Ports),
    /// All signals that the top itself drives, and those that are read and driven nowhere.
    Loose,
}
