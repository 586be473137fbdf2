// What does not change in a run.
ghost use Rattle.std.specs.Prelude.{◌≡◌, ◌<◌, ◌/◌, ◌^◌, IfOk, IfSome, None, length};
ghost use Rattle.calendar.specs.Moments.{AreClocks};
ghost use Rattle.calendar.specs.Due.{AreWithin};
ghost use Rattle.elab_eval.specs.Clocks.{clock_refused};
ghost use Rattle.bench_run.specs.Runs.{clock_of, clocks_of};

use calendar::Clock;
use design_ir::Design;
use elab_store::simulation::{ClockCall, RunEnd};
use lists::NoMemory;
use py_heap::Frozen;
use py_tree::Program;
use std::alloc::Global;

/// What does not change in a run: the program and what its body made, the clocks, and how the run ends.
#[derive(Drop)]
pub(crate) struct Setting {
    pub alloc: Global,
    pub program: Program,
    pub frozen: Frozen,
    pub clocks: Vec<Clock>,
    pub end: Option<RunEnd>,
}

/// The clocks of a simulator by the domains of the design.
pub(crate) fn clocks_of(
    alloc: Global,
    design: &Design,
    calls: &[ClockCall],
) -> Result<Vec<Clock>, NoMemory>
    requires { clock_refused design.now calls.now ≡ None }
    ensures clocks { IfOk result (λ v. v.items ≡ clocks_of design.now calls.now) }
    ensures are { IfOk result (λ v. AreClocks v.items) }
    ensures within { IfOk result (λ v. AreWithin (length design.now.domains) v.items) }
{
    let mut clocks = Vec::new(alloc);
    for call in calls {
        if let Some(clock) = clock_of(design, call) {
            clocks.push(clock)?;
        }
    }
    Ok(clocks)
}

fn clock_of(design: &Design, call: &ClockCall) -> Option<Clock>
    ensures clock { result ≡ clock_of design.now call.now }
    ensures within { IfSome result (λ c. c.domain.0 < length design.now.domains) }
    ensures below { IfSome result (λ c. c.half < 2 ^ 63) }
    ensures half { IfSome result (λ c. c.half ≡ call.now.period / 2) }
{
    match design.domain_named(call.domain.as_str()) {
        Some(domain) => Some(Clock {
            domain,
            half: call.period / 2,
            phase: call.phase,
        }),
        None => None,
    }
}
