// Which processes an asynchronous reset may clear.
ghost use Rattle.std.specs.Prelude.{◌≡◌, ◌<◌, length, IfOk};
ghost use Rattle.sim_plans.specs.Plans.{is_clearable, clearable_processes};

use amh_host::{Items, NoMemory};
use design_ir::Design;
use std::alloc::Global;

/// The clocked processes whose domains are reset asynchronously.
pub fn clearable_processes(alloc: Global, design: &Design) -> Result<Items<usize>, NoMemory>
    ensures { IfOk result (λ list. list ≡ clearable_processes design.now) }
{
    let mut list = Items::new(alloc);
    for k in 0..design.processes().len() {
        if is_clearable(design, k) {
            list.push(k)?;
        }
    }
    Ok(list)
}

// Whether a process is clocked, and its domain is reset asynchronously.
fn is_clearable(design: &Design, k: usize) -> bool
    requires { k < length design.now.processes }
    ensures { result ≡ is_clearable design.now k }
{
    let p = design.processes().get(k);
    match p.domain {
        Some(d) => design.domain(d).async_reset,
        None => false,
    }
}
