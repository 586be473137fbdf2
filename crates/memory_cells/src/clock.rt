// The clock of a cell.
ghost use Rattle.std.specs.Prelude.{◌≡◌};
ghost use Rattle.memory_cells.specs.Clocks.{polarity};

use rtlil_text::SigSpec;

/// The bit of a clock, and whether its falling edge is the one that a cell acts at.
#[derive(Drop)]
pub struct Clock {
    pub bit: SigSpec,
    pub falling: bool,
}

impl Clock {
    /// A cell's `\CLK_POLARITY`: 1, or 0 for the falling edge.
    pub fn polarity(&self) -> u32
        ensures { result ≡ polarity self.now }
    {
        if self.falling { 0 } else { 1 }
    }
}
