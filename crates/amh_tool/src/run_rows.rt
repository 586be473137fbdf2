// The trace of a run, row by row.
ghost use Rattle.std.specs.Prelude.{◌≡◌, ◌≤◌, MatchResult};
ghost use Rattle.amh_host.specs.Causes.{HasCause};
ghost use Rattle.amh_tool.specs.Designs.{Given};
ghost use Rattle.amh_tool.specs.RunParts.{RowsAddedFront, RunEnds, RunPart, RunWritten};
ghost use Rattle.amh_tool.specs.Verdicts.{IsRunFitting};

use crate::accept::Runs;
use crate::row_text::RowText;
use crate::trace_ends::{put_end, put_head};
use amh_host::{Host, HostStop, Steps};
use bench_run::RunTurn;
use py_frames::request::Stop;
use std::alloc::Global;
use std::sync::ledger::Ledger;

/// How many events a run had, and what stopped it, if anything did.
#[derive(Clone, Copy, Drop)]
pub struct Ending {
    pub events: usize,
    pub stop: Option<Stop>,
}

/// Writes the trace of a run, and says how it ended. Each line is one `put`.
pub fn write_run<H: Host, L: Ledger>(
    alloc: Global,
    host: &mut H,
    name: &str,
    runs: &mut Runs,
    steps: &mut Steps<L>,
) -> Result<Ending, HostStop>
    requires { (g : Given) × IsRunFitting g runs.old }
    ensures text { (g : Given) → IsRunFitting g runs.old → MatchResult result (λ e. RunWritten g name.now e (H.seen host.old) (H.seen host.new)) (λ _. RunPart g name.now (H.seen host.old) (H.seen host.new)) }
    ensures board { runs.new.board ≡ runs.old.board }
    ensures cause { HasCause (H.faults host.old) (H.faults host.new) result }
    ensures counted { steps.old ≤ steps.new }
{
    put_head(alloc, host, name, &runs.board, runs.run.values())?;
    let ending = put_events(alloc, host, name, runs, steps)?;
    put_end(alloc, host, name, ending.stop)?;
    Ok(ending)
}

// A row for each event.
fn put_events<H: Host, L: Ledger>(
    alloc: Global,
    host: &mut H,
    name: &str,
    runs: &mut Runs,
    steps: &mut Steps<L>,
) -> Result<Ending, HostStop>
    requires { (g : Given) × IsRunFitting g runs.old }
    ensures rows { (g : Given) → IsRunFitting g runs.old → MatchResult result (λ e. RunEnds g name.now runs.old.run.point.sim.env e (H.seen host.old) (H.seen host.new)) (λ _. RowsAddedFront g name.now runs.old.run.point.sim.env (H.seen host.old) (H.seen host.new)) }
    ensures board { runs.new.board ≡ runs.old.board }
    ensures cause { HasCause (H.faults host.old) (H.faults host.new) result }
    ensures counted { steps.old ≤ steps.new }
{
    let mut text = RowText::of(alloc, runs.board.columns.as_slice(), runs.run.values())?;
    let mut events = 0;
    loop {
        let row = match runs.run.next_row(steps) {
            RunTurn::Row(row) => row,
            RunTurn::Ended => return Ok(Ending { events, stop: None }),
            RunTurn::Stopped(stop) => {
                return Ok(Ending {
                    events,
                    stop: Some(stop),
                });
            }
            RunTurn::NoMemory => return Err(HostStop::NoMemory),
        };
        // The first row has no event, and its line stands already.
        if let Some(event) = &row.event {
            let run = &runs.run;
            text.set_row(&runs.board, row.time, event, run.moved(), run.values())?;
            host.put(name, text.line.as_slice())?;
            events += 1;
        }
        drop(row);
    }
}
