// The flat design.
ghost use Rattle.std.specs.Prelude.{◌≡◌, true, IfOk};
ghost use Rattle.std.specs.List.{AllByRecursion};
ghost use Rattle.design_ir.specs.declared.process.DesignProcess.{DesignProcess};
ghost use Rattle.design_ir.specs.Fixed.{is_plain};
ghost use Rattle.flat_design.specs.Flat.{IsFlat};

use crate::processes::flat_body;
use amh_host::{Items, NoMemory};
use design_ir::{Design, DesignProcess};
use std::alloc::Global;

/// A design with this one's meaning, in which no statement chooses and no target is computed.
pub fn flatten(alloc: Global, design: &Design) -> Result<Design, NoMemory>
    ensures plain { IfOk result (λ d. AllByRecursion (λ (p : DesignProcess). is_plain d.pool p.body ≡ true) d.processes) }
    ensures flat { IfOk result (IsFlat design.now) }
{
    let mut pool = design.copied_pool(alloc)?;
    pool.known();
    let mut processes = Items::new(alloc);
    for p in design.processes().as_slice() {
        pool.known();
        let flat = flat_body(alloc, design, pool, p)?;
        pool = flat.pool;
        processes.push(DesignProcess {
            domain: p.domain,
            body: flat.body,
        })?;
    }
    design.with_processes(alloc, pool, processes)
}
