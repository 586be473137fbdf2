// What is warned where nothing is accepted.
ghost use Rattle.std.specs.Prelude.{◌≡◌, IfOk, OnErr};
ghost use Rattle.amh_host.specs.Causes.{HasCause};
ghost use Rattle.amh_tool.specs.Outcome.{Refuses, Spends, BadLine, Rejects};
ghost use Rattle.amh_tool.specs.Verdicts.{rejection_seen};
ghost use Rattle.amh_tool.specs.Views.{plan_seen};
ghost use Rattle.amh_tool.specs.Work.{CarriesPart, Performs};

use crate::accept::Rejection;
use crate::plan::Plan;
use crate::refusal::Refusal;
use crate::running::Status;
use crate::texts::{bad_line, refusal, spent};
use amh_host::{Host, HostStop, Place};
use std::alloc::Global;

/// Warns why nothing is accepted, and answers so.
pub fn reject<H: Host>(
    alloc: Global,
    host: &mut H,
    plan: &Plan<'_>,
    why: Rejection,
) -> Result<Status, HostStop>
    ensures done { IfOk result (λ status. Performs (plan_seen plan.now) (Rejects (rejection_seen why)) status (H.seen host.old) (H.seen host.new)) }
    ensures err { OnErr result (CarriesPart (plan_seen plan.now) (Rejects (rejection_seen why)) (H.seen host.old) (H.seen host.new)) }
    ensures cause { HasCause (H.faults host.old) (H.faults host.new) result }
{
    match why {
        Rejection::Refused(why) => warn_refused(alloc, host, plan, why),
        Rejection::Spent(place) => warn_spent(alloc, host, plan, place),
        Rejection::BadLine(line) => warn_bad_line(alloc, host, plan, line),
    }
}

// Warns where and why a design is refused.
fn warn_refused<H: Host>(
    alloc: Global,
    host: &mut H,
    plan: &Plan<'_>,
    why: Refusal,
) -> Result<Status, HostStop>
    ensures done { IfOk result (λ status. Performs (plan_seen plan.now) (Rejects (Refuses why)) status (H.seen host.old) (H.seen host.new)) }
    ensures err { OnErr result (CarriesPart (plan_seen plan.now) (Rejects (Refuses why)) (H.seen host.old) (H.seen host.new)) }
    ensures cause { HasCause (H.faults host.old) (H.faults host.new) result }
{
    let text = refusal(alloc, plan.design, why)?;
    host.warn(text.as_str())?;
    Ok(Status::Refused)
}

// Warns that the budget is spent, wherever that is.
fn warn_spent<H: Host>(
    alloc: Global,
    host: &mut H,
    plan: &Plan<'_>,
    place: Place,
) -> Result<Status, HostStop>
    ensures done { IfOk result (λ status. Performs (plan_seen plan.now) (Rejects (Spends place)) status (H.seen host.old) (H.seen host.new)) }
    ensures err { OnErr result (CarriesPart (plan_seen plan.now) (Rejects (Spends place)) (H.seen host.old) (H.seen host.new)) }
    ensures cause { HasCause (H.faults host.old) (H.faults host.new) result }
{
    let _ = place;
    let text = spent(alloc, plan.budget)?;
    host.warn(text.as_str())?;
    Ok(Status::Spent)
}

// Warns which line of the script is bad.
fn warn_bad_line<H: Host>(
    alloc: Global,
    host: &mut H,
    plan: &Plan<'_>,
    line: u32,
) -> Result<Status, HostStop>
    ensures done { IfOk result (λ status. Performs (plan_seen plan.now) (Rejects (BadLine line)) status (H.seen host.old) (H.seen host.new)) }
    ensures err { OnErr result (CarriesPart (plan_seen plan.now) (Rejects (BadLine line)) (H.seen host.old) (H.seen host.new)) }
    ensures cause { HasCause (H.faults host.old) (H.faults host.new) result }
{
    let text = bad_line(alloc, plan.script_name(), line)?;
    host.warn(text.as_str())?;
    Ok(Status::Refused)
}
