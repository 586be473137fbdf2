// The width of each wire, found by its id.
ghost use Rattle.std.specs.Prelude.{◌≡◌, IfOk};
ghost use Rattle.rtlil_text.specs.Written.{width_among};
ghost use Rattle.rtlil_text.specs.Widths.{width_in};

use crate::module::RtlWires;
use std::alloc::{AllocError, Global};
use std::collections::BTreeMap;

/// Widths by ids.
#[derive(Drop)]
pub(crate) struct Widths {
    by_id: BTreeMap<String, u32>,
}

impl Widths {
    /// The widths of these wires.
    pub(crate) fn of(alloc: Global, wires: &RtlWires) -> Result<Widths, AllocError>
        ensures { IfOk result (λ w. width_in w ≡ width_among wires.now) }
    {
        let mut by_id = BTreeMap::new(alloc);
        for wire in wires.as_slice() {
            by_id.insert(String::from_str(alloc, wire.id.as_str())?, wire.width)?;
        }
        Ok(Widths { by_id })
    }

    pub(crate) fn get(&self, id: &str) -> Option<u32>
        ensures { result ≡ width_in self.now id.now }
    {
        self.by_id.get(id).copied()
    }
}
