// Where a run stands.
ghost use Rattle.std.specs.Prelude.{◌≡◌};
ghost use Rattle.std.specs.Option.{option_map_or};

use crate::testbench::Running;
use amh_host::Budget;
use bench_acts::Bench;
use delta_sim::Sim;

/// The design, the simulator and the testbenches at a point of a run, whose turn it is, the moment once the first round is over, and the units
/// that are left.
#[derive(Drop)]
pub(crate) struct Point {
    pub bench: Bench,
    pub sim: Sim,
    pub testbenches: Vec<Running>,
    pub turn: usize,
    pub now: Option<u64>,
    pub left: Budget,
}

impl Point {
    /// The time in femtoseconds.
    pub(crate) fn time(&self) -> u64
        ensures { result ≡ option_map_or (λ t. t) self.entry.now.now 0 }
    {
        match self.now {
            Some(t) => t,
            None => 0,
        }
    }
}
