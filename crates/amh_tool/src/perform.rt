// What an accepted design is owed: its RTLIL, its trace, and the closing text.
ghost use Rattle.std.specs.Prelude.{◌≡◌, ◌⊎◌, ◌≤◌, IfOk, OnErr, OnOk};
ghost use Rattle.amh_host.specs.Seen.{with_warned};
ghost use Rattle.amh_host.specs.Calls.{AddsFront};
ghost use Rattle.amh_host.specs.Causes.{HasCause};
ghost use Rattle.comb_graph.specs.Rankings.{IsRanking};
ghost use Rattle.amh_tool.specs.Designs.{Given};
ghost use Rattle.amh_tool.specs.Outcome.{end_by, end_status, end_told, end_warned};
ghost use Rattle.amh_tool.specs.Verdicts.{IsFitting, IsRunFitting, accepted_seen};
ghost use Rattle.amh_tool.specs.Views.{plan_seen};
ghost use Rattle.amh_tool.specs.Work.{CarriesPart, CarriesRun, ClosedFront, Performs, PerformsRun, WritesRtlil, WritesRtlilPart, closed};

use crate::accept::{Accepted, Runs};
use crate::plan::Plan;
use crate::run_rows::write_run;
use crate::running::Status;
use crate::texts::{done_text, stop_text};
use crate::trace::write_trace;
use amh_host::{Host, HostStop, Steps};
use comb_graph::Ranks;
use design_ir::Design;
use netlist::lower;
use py_frames::request::{Cause, Stop};
use rtlil_text::write;
use std::alloc::Global;
use std::sync::ledger::Ledger;

/// Writes RTLIL whole, then the trace of the script line by line, and says or warns how it ended.
pub fn perform<H: Host>(
    alloc: Global,
    host: &mut H,
    plan: &Plan<'_>,
    accepted: &Accepted,
) -> Result<Status, HostStop>
    requires { IsFitting accepted.now }
    ensures done { IfOk result (λ status. Performs (plan_seen plan.now) (accepted_seen accepted.now) status (H.seen host.old) (H.seen host.new)) }
    ensures err { OnErr result (CarriesPart (plan_seen plan.now) (accepted_seen accepted.now) (H.seen host.old) (H.seen host.new)) }
    ensures cause { HasCause (H.faults host.old) (H.faults host.new) result }
{
    let ranked = &accepted.ranked;
    put_rtlil(alloc, host, plan, &ranked.design, &ranked.ranks)?;
    write_trace(alloc, host, plan.trace, accepted)?;
    let columns = accepted.board.columns.len();
    close(alloc, host, plan, columns, accepted.within, accepted.stop())
}

/// Writes RTLIL whole, then the trace of the run line by line, and says or warns how it ended.
pub fn perform_run<H: Host, L: Ledger>(
    alloc: Global,
    host: &mut H,
    plan: &Plan<'_>,
    runs: &mut Runs,
    steps: &mut Steps<L>,
) -> Result<Status, HostStop>
    requires { (g : Given) × IsRunFitting g runs.old }
    ensures done { (g : Given) → IsRunFitting g runs.old → IfOk result (λ status. PerformsRun (plan_seen plan.now) g status (H.seen host.old) (H.seen host.new)) }
    ensures err { (g : Given) → IsRunFitting g runs.old → OnErr result (CarriesRun (plan_seen plan.now) g (H.seen host.old) (H.seen host.new)) }
    ensures cause { HasCause (H.faults host.old) (H.faults host.new) result }
    ensures counted { steps.old ≤ steps.new }
{
    put_rtlil(alloc, host, plan, runs.run.design(), &runs.ranks)?;
    let ending = write_run(alloc, host, plan.trace, runs, steps)?;
    let columns = runs.board.columns.len();
    close(alloc, host, plan, columns, ending.events, ending.stop)
}

// Writes RTLIL whole.
fn put_rtlil<H: Host>(
    alloc: Global,
    host: &mut H,
    plan: &Plan<'_>,
    design: &Design,
    ranks: &Ranks,
) -> Result<(), HostStop>
    requires { IsRanking design.now ranks.now }
    ensures done { OnOk result (WritesRtlil (plan_seen plan.now) design.now (H.seen host.old) (H.seen host.new)) }
    ensures err { OnErr result ((H.seen host.new ≡ H.seen host.old) ⊎ WritesRtlilPart (plan_seen plan.now) design.now (H.seen host.old) (H.seen host.new)) }
    ensures cause { HasCause (H.faults host.old) (H.faults host.new) result }
{
    let module = lower(alloc, design, ranks)?;
    write(alloc, &module, host, plan.il)
}

// The closing text, by what stopped the events if anything did, and the answer.
fn close<H: Host>(
    alloc: Global,
    host: &mut H,
    plan: &Plan<'_>,
    columns: usize,
    events: usize,
    stop: Option<Stop>,
) -> Result<Status, HostStop>
    ensures status { IfOk result (λ status. status ≡ end_status (end_told stop)) }
    ensures done { IfOk result (λ status. H.seen host.new ≡ closed (plan_seen plan.now) columns events (end_told stop) (H.seen host.old)) }
    ensures err { OnErr result (ClosedFront (plan_seen plan.now) columns events (end_told stop) (H.seen host.old) (H.seen host.new)) }
    ensures cause { HasCause (H.faults host.old) (H.faults host.new) result }
{
    match stop {
        Some(stop) => warn_stop(alloc, host, plan, stop),
        None => {
            let text = done_text(alloc, columns, events)?;
            host.say(text.as_str())?;
            Ok(Status::Done)
        }
    }
}

// Warns what stopped the events.
fn warn_stop<H: Host>(
    alloc: Global,
    host: &mut H,
    plan: &Plan<'_>,
    stop: Stop,
) -> Result<Status, HostStop>
    ensures status { IfOk result (λ status. status ≡ end_status (end_by stop.cause stop.place)) }
    ensures done { IfOk result (λ status. H.seen host.new ≡ with_warned (end_warned (plan_seen plan.now) (end_by stop.cause stop.place)) (H.seen host.old)) }
    ensures err { OnErr result (AddsFront with_warned (end_warned (plan_seen plan.now) (end_by stop.cause stop.place)) (H.seen host.old) (H.seen host.new)) }
    ensures cause { HasCause (H.faults host.old) (H.faults host.new) result }
{
    let text = stop_text(alloc, plan, stop)?;
    host.warn(text.as_str())?;
    Ok(stop_status(stop))
}

// How a run ends that was stopped.
fn stop_status(stop: Stop) -> Status
    ensures { result ≡ end_status (end_by stop.cause stop.place) }
{
    match stop.cause {
        Cause::Raised | Cause::Width | Cause::Limit => Status::Refused,
        Cause::Assert => Status::AssertFailed,
        Cause::Spent => Status::Spent,
    }
}
