// The whole program: what the words ask for, carried out.
ghost use Rattle.std.specs.Prelude.{◌≡◌, ◌⊎◌, ◌<◌, ◌≤◌, OnErr, IfOk};
ghost use Rattle.amh_host.specs.Causes.{HasCause};
ghost use Rattle.amh_tool.specs.Plan.{plan_of};
ghost use Rattle.amh_tool.specs.Designs.{Given};
ghost use Rattle.amh_tool.specs.Outcome.{code_of};
ghost use Rattle.amh_tool.specs.Promises.{Promises};
ghost use Rattle.amh_tool.specs.Verdicts.{IsFitting, IsRunFitting, accepted_seen};
ghost use Rattle.amh_tool.specs.Views.{plan_seen};
ghost use Rattle.amh_tool.specs.Work.{CarriesPart, CarriesRun, Fails, FailsFor, Performs, PerformsRun, Works, WorksFor};

use crate::accept::{Accepted, Runs, Verdict, accept};
use crate::laws::outcomes_are_one;
use crate::perform::{perform, perform_run};
use crate::plan::{Plan, plan_of};
use crate::rejecting::reject;
use crate::texts::{fault_text, usage_text};
use amh_host::{Host, HostStop, Steps, Words};
use std::alloc::Global;
use std::sync::ledger::Ledger;

/// How a run ends.
#[derive(Clone, Copy, PartialEq, Eq, Drop)]
pub enum Status {
    /// Both files are written.
    Done,
    /// The design or the script is refused.
    Refused,
    /// An assertion of a testbench is false.
    AssertFailed,
    /// The words are not of the command.
    Usage,
    /// The budget is spent.
    Spent,
    /// The host failed.
    Fault,
    /// No memory was left.
    NoMemory,
}

impl Status {
    /// The exit code of the program.
    pub fn code(self) -> u8
        ensures { result ≡ code_of self }
    {
        match self {
            Status::Done => 0,
            Status::Refused => 1,
            Status::AssertFailed => 2,
            Status::Usage => 3,
            Status::Spent => 4,
            Status::Fault => 5,
            Status::NoMemory => 6,
        }
    }
}

/// Does all that the words ask for: reads the design and the script, writes RTLIL whole, then the trace of the script or
/// of the file's simulator line by line, and says how it ended. What it promises is the record `Promises` of
/// specs/Promises.antt.
///
/// `steps` counts the turns of the machines that evaluate the design file and its testbenches.
pub fn run<H: Host, L: Ledger>(
    alloc: Global,
    words: &Words,
    host: &mut H,
    steps: &mut Steps<L>,
) -> Status
    ensures promised { Promises words.now result (H.seen host.old) (H.seen host.new) (H.faults host.old) (H.faults host.new) }
    ensures counted { steps.old ≤ steps.new }
{
    outcomes_are_one();
    match work(alloc, words, host, steps) {
        Ok(status) => status,
        Err(HostStop::NoMemory) => Status::NoMemory,
        Err(HostStop::Failed) => {
            let _ = host.warn(fault_text());
            Status::Fault
        }
    }
}

// All of it but for the warning of a fault.
fn work<H: Host, L: Ledger>(
    alloc: Global,
    words: &Words,
    host: &mut H,
    steps: &mut Steps<L>,
) -> Result<Status, HostStop>
    ensures done { IfOk result (λ status. Works (plan_of words.now) status (H.seen host.old) (H.seen host.new)) }
    ensures err { OnErr result (Fails (plan_of words.now) (H.seen host.old) (H.seen host.new)) }
    ensures cause { HasCause (H.faults host.old) (H.faults host.new) result }
    ensures counted { steps.old ≤ steps.new }
{
    let found = plan_of(alloc, words)?;
    match found {
        Some(plan) => work_for(alloc, host, &plan, steps),
        None => {
            host.warn(usage_text())?;
            Ok(Status::Usage)
        }
    }
}

// What a plan asks for: a text that is warned, or all that an accepted design is owed.
fn work_for<H: Host, L: Ledger>(
    alloc: Global,
    host: &mut H,
    plan: &Plan<'_>,
    steps: &mut Steps<L>,
) -> Result<Status, HostStop>
    requires { 0 < plan.now.budget }
    ensures done { IfOk result (λ status. WorksFor (plan_seen plan.now) status (H.seen host.old) (H.seen host.new)) }
    ensures err { OnErr result ((H.seen host.new ≡ H.seen host.old) ⊎ FailsFor (plan_seen plan.now) (H.seen host.old) (H.seen host.new)) }
    ensures cause { HasCause (H.faults host.old) (H.faults host.new) result }
    ensures counted { steps.old ≤ steps.new }
{
    match accept(alloc, host, plan, steps)? {
        Verdict::Rejected(why) => reject(alloc, host, plan, why),
        Verdict::Accepted(accepted) => carry_out(alloc, host, plan, accepted),
        Verdict::Runs(runs) => carry_out_run(alloc, host, plan, runs, steps),
    }
}

// Carries out what is accepted, and lets it go.
fn carry_out<H: Host>(
    alloc: Global,
    host: &mut H,
    plan: &Plan<'_>,
    accepted: Accepted,
) -> Result<Status, HostStop>
    requires { IsFitting accepted }
    ensures done { IfOk result (λ status. Performs (plan_seen plan.now) (accepted_seen accepted) status (H.seen host.old) (H.seen host.new)) }
    ensures err { OnErr result (CarriesPart (plan_seen plan.now) (accepted_seen accepted) (H.seen host.old) (H.seen host.new)) }
    ensures cause { HasCause (H.faults host.old) (H.faults host.new) result }
{
    let status = perform(alloc, host, plan, &accepted);
    drop(accepted);
    status
}

// Carries out a run, and lets it go.
fn carry_out_run<H: Host, L: Ledger>(
    alloc: Global,
    host: &mut H,
    plan: &Plan<'_>,
    runs: Runs,
    steps: &mut Steps<L>,
) -> Result<Status, HostStop>
    requires { (g : Given) × IsRunFitting g runs }
    ensures done { (g : Given) → IsRunFitting g runs → IfOk result (λ status. PerformsRun (plan_seen plan.now) g status (H.seen host.old) (H.seen host.new)) }
    ensures err { (g : Given) → IsRunFitting g runs → OnErr result (CarriesRun (plan_seen plan.now) g (H.seen host.old) (H.seen host.new)) }
    ensures cause { HasCause (H.faults host.old) (H.faults host.new) result }
    ensures counted { steps.old ≤ steps.new }
{
    let mut runs = runs;
    let status = perform_run(alloc, host, plan, &mut runs, steps);
    drop(runs);
    status
}
