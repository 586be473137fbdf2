// What is worked out of a design once.
ghost use Rattle.std.specs.Prelude.{◌≡◌, ◌<◌, ◌+◌, length};
ghost use Rattle.sim_plans.specs.Driven.{numbers_of};
ghost use Rattle.sim_plans.specs.Plans.{outs_at};

use crate::targets::SigIds;
use crate::task::{PortTask, Task};
use amh_host::Items;
use design_ir::{Ids, SigId};

/// Which signals a state gives; for each process, by its number, the task that carries it out where it is clocked; the
/// tasks of the combinational ones; those of the combinational read ports, memory by memory, whose numbers follow; how
/// many tasks there are of both kinds, and how many processes and such ports; for each memory the expressions of its
/// ports in order; for each signal the tasks, and the processes and ports, that read it; and which processes an
/// asynchronous reset may clear.
#[derive(Drop)]
pub struct Plan {
    pub given: SigIds,
    pub clocked: Items<Task>,
    pub tasks: Items<Task>,
    pub reads: Items<PortTask>,
    pub jobs: usize,
    pub agents: usize,
    pub ports: Items<Ids>,
    pub readers: Items<Items<usize>>,
    pub processes: Items<Items<usize>>,
    pub clearable: Items<usize>,
}

impl Plan {
    /// The signals that a task drives.
    pub fn outs(&self, j: usize) -> &[SigId]
        requires { j < length self.now.tasks + length self.now.reads }
        ensures { numbers_of result.now ≡ outs_at self.now j }
    {
        let first = self.tasks.len();
        if j < first {
            self.tasks.get(j).outs.as_slice()
        } else {
            self.reads.get(j - first).outs.as_slice()
        }
    }
}
