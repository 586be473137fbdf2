// The trace of a script, row by row.
ghost use Rattle.std.specs.Prelude.{◌≡◌, ◌<◌, ◌++◌, ◌∷◌, [], List, ℕ, ℤ, MatchResult};
ghost use Rattle.amh_host.specs.Seen.{written};
ghost use Rattle.amh_host.specs.Calls.{Adds};
ghost use Rattle.amh_host.specs.Causes.{HasCause};
ghost use Rattle.amh_host.specs.Written.{Writes};
ghost use Rattle.design_ir.specs.declared.event.Event.{Event};
ghost use Rattle.design_ir.specs.Histories.{History};
ghost use Rattle.design_ir.specs.Legal.{IsLegal, AllLegal};
ghost use Rattle.comb_graph.specs.Laws.{HasOneHistory};
ghost use Rattle.delta_sim.specs.Standing.{IsSimOf, Stands, Tells};
ghost use Rattle.amh_tool.specs.Headline.{IsTrace};
ghost use Rattle.play_text.specs.Trace.{row_lines};
ghost use Rattle.amh_tool.specs.Verdicts.{IsFitting, ending_of, events_of, rows_of};

use crate::accept::Accepted;
use crate::trace_ends::{put_end, put_head};
use amh_host::{Host, HostStop, NoMemory, Steps};
use comb_graph::ordered_have_one_history;
use delta_sim::Sim;
use design_ir::{Design, Event, Exprs};
use play_text::trace_lines::push_front;
use play_text::trace_stripes::Stripes;
use std::alloc::Global;
use std::marker::Brand;
use std::sync::ledger::{Blank, Ledger};

/// Writes the trace of the events. Each line is one `put`.
pub fn write_trace<H: Host>(
    alloc: Global,
    host: &mut H,
    name: &str,
    accepted: &Accepted,
) -> Result<(), HostStop>
    requires { IsFitting accepted.now }
    ensures text { (text : List ℕ) × IsTrace text accepted.now.ranked.design (rows_of accepted.now) (ending_of accepted.now) × Writes name.now text result (H.seen host.old) (H.seen host.new) }
    ensures cause { HasCause (H.faults host.old) (H.faults host.new) result }
{
    has_one_history(accepted);
    let mut sim = Sim::start(alloc, &accepted.ranked.design, &accepted.ranked.ranks)?;
    write_lines(alloc, host, name, accepted, &mut sim)
}

// The lines of the trace, from the design before any event on. The simulator is lent, so that no end of this has to give
// back what it has.
fn write_lines<H: Host>(
    alloc: Global,
    host: &mut H,
    name: &str,
    accepted: &Accepted,
    sim: &mut Sim,
) -> Result<(), HostStop>
    requires fitting { IsFitting accepted.now }
    requires first { Stands accepted.now.ranked.design [] sim.old }
    ensures text { (text : List ℕ) × IsTrace text accepted.now.ranked.design (rows_of accepted.now) (ending_of accepted.now) × Writes name.now text result (H.seen host.old) (H.seen host.new) }
    ensures cause { HasCause (H.faults host.old) (H.faults host.new) result }
{
    has_one_history(accepted);
    put_head(alloc, host, name, &accepted.board, sim.values())?;
    put_rows(alloc, host, name, accepted, sim)?;
    put_end(alloc, host, name, accepted.stop())
}

// Whatever legal events come, an accepted design has one history. It does nothing: its clause is the law.
fn has_one_history(accepted: &Accepted)
    requires { IsFitting accepted.now }
    ensures { (events : List Event) → AllLegal accepted.now.ranked.design events → HasOneHistory accepted.now.ranked.design events }
{
    ordered_have_one_history();
    let _ = accepted.ranked.design.count();
    let _ = accepted.ranked.design.processes();
}

// A row for each event, from the design before any of them on. The room of a line serves for all of them, and so do the
// columns, which keep the numbers that they had last.
fn put_rows<H: Host>(
    alloc: Global,
    host: &mut H,
    name: &str,
    accepted: &Accepted,
    sim: &mut Sim,
) -> Result<(), HostStop>
    requires fitting { IsFitting accepted.now }
    requires first { Stands accepted.now.ranked.design [] sim.old }
    ensures done { (envs : List (List ℤ)) → History accepted.now.ranked.design (events_of accepted.now) (sim.old.env ∷ envs)
        → Adds (written name.now) (row_lines accepted.now.board (rows_of accepted.now) sim.old.env envs) result (H.seen host.old) (H.seen host.new) }
    ensures cause { HasCause (H.faults host.old) (H.faults host.new) result }
{
    has_one_history(accepted);
    let mut stripes = Stripes::of(alloc, accepted.board.columns.as_slice(), sim.values())?;
    let mut line = Vec::new(alloc);
    let mut time = 0;
    for event in accepted.played() {
        time += 1;
        line.clear();
        push_front(&mut line, &accepted.board, time, event, sim.values())?;
        apply(sim, &accepted.ranked.design, event)?;
        stripes.push_rest(&mut line, sim.moved(), sim.values())?;
        host.put(name, line.as_slice())?;
    }
    Ok(())
}

// What an event does, with a counter of steps of its own, which nobody reads here.
fn apply(sim: &mut Sim, design: &Design, event: &Event) -> Result<(), NoMemory>
    requires legal { IsLegal design.now event.now }
    requires of_design { IsSimOf design.now sim.old }
    ensures of_design { IsSimOf design.now sim.new }
    ensures lives { (events : List Event) → Stands design.now events sim.old → MatchResult result (λ _. Stands design.now (events ++ event.now ∷ []) sim.new) (λ _. Stands design.now events sim.new) }
    ensures moved { Tells design.now sim.old sim.new }
{
    counted_apply::<Brand>(sim, design, event, Blank::new(1))
}

// The ledger of the counter is picked at the call, so the counter is made below it.
fn counted_apply<L: Ledger>(
    sim: &mut Sim,
    design: &Design,
    event: &Event,
    blank: Blank,
) -> Result<(), NoMemory>
    requires blank { (blank.name ≡ L.name) × (blank.parts ≡ L.parts) × (0 < L.parts) }
    requires legal { IsLegal design.now event.now }
    requires of_design { IsSimOf design.now sim.old }
    ensures of_design { IsSimOf design.now sim.new }
    ensures lives { (events : List Event) → Stands design.now events sim.old → MatchResult result (λ _. Stands design.now (events ++ event.now ∷ []) sim.new) (λ _. Stands design.now events sim.new) }
    ensures moved { Tells design.now sim.old sim.new }
{
    let mut steps = Steps::<L>::new(blank);
    sim.apply(design, event, &mut steps)
}
