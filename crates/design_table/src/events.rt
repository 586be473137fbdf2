// The numbers of a design's signals behind events.
ghost use Rattle.std.specs.Prelude.{◌≡◌, ◌<◌, IfOk, IfSome};
ghost use Rattle.design_ir.specs.Legal.{IsLegal};
ghost use Rattle.comb_graph.specs.Rankings.{IsRanking};
ghost use Rattle.delta_sim.specs.Standing.{IsSimOf};

use crate::answer::signal_named;
use amh_host::{Items, NoMemory, Steps};
use comb_graph::Ranks;
use delta_sim::Sim;
use design_ir::{Design, DomainId, Event, ExprId, Exprs, SigId};
use std::alloc::Global;
use std::marker::Brand;
use std::sync::ledger::{Blank, Ledger};
use table_text::{Stop, integer, words_of};

/// What each line asks for, behind the events of the lines before it.
pub fn played(
    alloc: Global,
    design: &Design,
    asked: &[Option<ExprId>],
    ranks: &Ranks,
    lines: &[String],
) -> Result<String, Stop>
    requires { IsRanking design.now ranks.now }
{
    let mut sim = Sim::start(alloc, design, ranks)?;
    lines_said(alloc, &mut sim, design, asked, lines)
}

// The same over a simulator that is lent, so that no end of this has to give back what it has.
fn lines_said(
    alloc: Global,
    sim: &mut Sim,
    design: &Design,
    asked: &[Option<ExprId>],
    lines: &[String],
) -> Result<String, Stop>
    requires { IsSimOf design.now sim.old }
{
    let mut said = String::new(alloc);
    for k in 0..lines.len() {
        let words = words_of(alloc, lines[k].as_str())?;
        play_line(alloc, sim, design, words.as_slice())?;
        let e = asked_at(asked, k);
        said.push_str(line_said(alloc, sim, design, e, words.as_slice())?.as_str())?;
    }
    Ok(said)
}

// The expression that a line asks for.
fn asked_at(asked: &[Option<ExprId>], k: usize) -> Option<ExprId> {
    match asked.get(k) {
        Some(e) => *e,
        None => None,
    }
}

// What a line asks for: the integer of an expression, the numbers of all signals, or how much the last event took.
fn line_said(
    alloc: Global,
    sim: &mut Sim,
    design: &Design,
    e: Option<ExprId>,
    words: &[&str],
) -> Result<String, Stop>
    requires { IsSimOf design.now sim.old }
    ensures { IsSimOf design.now sim.new }
{
    if let Some(e) = e {
        return integer_said(alloc, sim, design, e);
    }
    match words {
        ["show", ..] => numbers_said(alloc, design, sim),
        ["counts"] => counts_said(alloc, sim),
        _ => Ok(String::new(alloc)),
    }
}

// The integer of an expression in the settled numbers.
fn integer_said(alloc: Global, sim: &mut Sim, design: &Design, e: ExprId) -> Result<String, Stop>
    requires { IsSimOf design.now sim.old }
    ensures { IsSimOf design.now sim.new }
{
    if e.0 >= design.count() || e.0 >= 262_144 {
        return Err(Stop::NoCase);
    }
    let n = sim.eval(design, e);
    Ok(format!(in alloc; " | eval={n}")?)
}

// In how many deltas of the last event a process ran, and how often processes ran in them.
fn counts_said(alloc: Global, sim: &Sim) -> Result<String, Stop> {
    let deltas = sim.deltas();
    let runs = sim.runs();
    Ok(format!(in alloc; " | deltas={deltas} runs={runs}")?)
}

// What the event of a line does, where it has one.
fn play_line(alloc: Global, sim: &mut Sim, design: &Design, words: &[&str]) -> Result<(), Stop>
    requires { IsSimOf design.now sim.old }
    ensures { IsSimOf design.now sim.new }
{
    match event_of(alloc, design, words)? {
        Some(event) => Ok(apply(sim, design, &event)?),
        None => Ok(()),
    }
}

// The numbers of all signals but the clock.
fn numbers_said(alloc: Global, design: &Design, sim: &Sim) -> Result<String, Stop> {
    let mut said = String::from_str(alloc, " |")?;
    for s in 1..design.signals() {
        let name = design.sig_at(SigId(s)).name.as_str();
        if let Some(number) = sim.values().get(s as usize) {
            said.push_str(format!(in alloc; " {name}={number}")?.as_str())?;
        }
    }
    Ok(said)
}

// The event of a line, where it has one, which has to be legal.
fn event_of(alloc: Global, design: &Design, words: &[&str]) -> Result<Option<Event>, Stop>
    ensures { IfOk result (λ e. IfSome e (IsLegal design.now)) }
{
    let event = match words {
        ["set", name, number] => set_event(design, name, number)?,
        ["edge", names @ ..] => edge_event(alloc, design, names)?,
        _ => return Ok(None),
    };
    if design.event_ok(&event) {
        Ok(Some(event))
    } else {
        Err(Stop::NoCase)
    }
}

fn set_event(design: &Design, name: &str, number: &str) -> Result<Event, Stop> {
    let Some(sig) = signal_named(design, name) else {
        return Err(Stop::NoCase);
    };
    let value = integer(number)?;
    Ok(Event::Set { sig, value })
}

// The clocks of these domains toggle, or that of the first one where none is named.
fn edge_event(alloc: Global, design: &Design, names: &[&str]) -> Result<Event, Stop> {
    let mut clocks = Items::new(alloc);
    if names.is_empty() {
        clocks.push(DomainId(0))?;
    }
    for name in names {
        let Some(d) = design.domain_named(name) else {
            return Err(Stop::NoCase);
        };
        clocks.push(d)?;
    }
    Ok(Event::Edge(clocks))
}

// What an event does, with a counter of steps of its own.
fn apply(sim: &mut Sim, design: &Design, event: &Event) -> Result<(), NoMemory>
    requires legal { IsLegal design.now event.now }
    requires of_design { IsSimOf design.now sim.old }
    ensures { IsSimOf design.now sim.new }
{
    counted_apply::<Brand>(sim, design, event, Blank::new(1))
}

// The ledger of the counter is picked at the call, so the counter is made below it.
fn counted_apply<L: Ledger>(
    sim: &mut Sim,
    design: &Design,
    event: &Event,
    blank: Blank,
) -> Result<(), NoMemory>
    requires blank { (blank.name ≡ L.name) × (blank.parts ≡ L.parts) × (0 < L.parts) }
    requires legal { IsLegal design.now event.now }
    requires of_design { IsSimOf design.now sim.old }
    ensures { IsSimOf design.now sim.new }
{
    let mut steps = Steps::<L>::new(blank);
    sim.apply(design, event, &mut steps)
}
