// What asynchronous resets leave.
ghost use Rattle.std.specs.Prelude.{◌≡◌, ◌<◌, ℕ, length, fold, slice_get, Some};
ghost use Rattle.design_ir.specs.declared.process.DesignProcess.{DesignProcess};
ghost use Rattle.design_ir.specs.Steps.{is_cleared, cleared};
ghost use Rattle.sim_plans.specs.Plans.{IsPlan};

use crate::clocks::{is_reset, reset_all};
use amh_bits::Int;
use design_ir::{Design, DomainId};
use sim_plans::plan::Plan;

/// Gives the registers of domains whose asynchronous resets are 1 their inits.
pub fn clear_all(design: &Design, plan: &Plan, held: &mut [Int])
    requires plan { (count : ℕ) × IsPlan design.now count plan.now }
    requires signals { length held.old ≡ length design.now.pool.signals }
    ensures { held.new ≡ fold (cleared design.now held.old) held.old design.now.processes }
{
    let _ = design.processes();
    for k in plan.clearable.as_slice() {
        clear(design, plan, *k, held);
    }
}

// Clears a process where the asynchronous reset of its domain is 1. Such a reset is an input, so that it stays.
fn clear(design: &Design, plan: &Plan, k: usize, held: &mut [Int])
    requires there { k < length design.now.processes }
    requires plan { (count : ℕ) × IsPlan design.now count plan.now }
    requires signals { length held.old ≡ length design.now.pool.signals }
    ensures { (p : DesignProcess) → slice_get design.now.processes k ≡ Some p → held.new ≡ cleared design.now held.old held.old p }
{
    let p = design.processes().get(k);
    let Some(d) = p.domain else {
        return;
    };
    if is_cleared(design, held, d) {
        reset_all(design, plan.clocked.get(k).outs.as_slice(), held);
    }
}

// Whether a domain has an asynchronous reset that is 1.
fn is_cleared(design: &Design, held: &[Int], d: DomainId) -> bool
    requires { d.0 < length design.now.domains }
    ensures { result ≡ is_cleared design.now held.now d.0 }
{
    design.domain(d).async_reset && is_reset(design, held, d)
}
