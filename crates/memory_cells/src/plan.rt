// A memory as its cells see it.
ghost use Rattle.std.specs.Prelude.{◌≡◌};
ghost use Rattle.memory_cells.specs.Plans.{mask_bits};

use amh_host::Text;

/// A memory of a module: its id, the bits of an address, the bits and the number of its rows, and how many write cells
/// it has.
#[derive(Drop)]
pub struct Plan {
    pub id: Text,
    pub address: u32,
    pub width: u8,
    pub depth: u32,
    pub writes: u32,
}

impl Plan {
    // How many bits a mask has.
    pub(crate) fn mask_bits(&self) -> u32
        ensures { result ≡ mask_bits self.now }
    {
        self.writes.max(1)
    }
}
