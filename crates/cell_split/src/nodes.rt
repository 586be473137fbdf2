// The nodes of a module: its cells by their places, a spare one, and the bits of its wires.
ghost use Rattle.std.specs.Prelude.{◌≡◌, ◌<◌, length, IfOk};

use amh_host::NoMemory;
use rtlil_text::RtlModule;
use std::alloc::Global;
use std::collections::BTreeMap;

/// The first node of each wire; constants and bits that no wire has share the spare node.
#[derive(Drop)]
pub(crate) struct Nodes {
    pub firsts: BTreeMap<String, usize>,
    pub spare: usize,
    pub count: usize,
    ghost within: { spare < count },
}

impl Nodes {
    /// The nodes of a module.
    pub(crate) fn of(alloc: Global, rtl: &RtlModule) -> Result<Nodes, NoMemory>
        ensures { IfOk result (λ n. length rtl.now.cells < n.count) }
    {
        let mut firsts = BTreeMap::new(alloc);
        let spare = rtl.cells.as_slice().len();
        let mut count = spare + 1;
        for wire in rtl.wires.as_slice() {
            firsts.insert(String::from_str(alloc, wire.id.as_str())?, count)?;
            count = count.saturating_add(wire.width as usize);
        }
        Ok(Nodes {
            firsts,
            spare,
            count,
        })
    }
}
