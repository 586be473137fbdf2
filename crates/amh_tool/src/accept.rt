// What the files ask for: the design is read and judged, then its script.
ghost use Rattle.std.specs.Prelude.{◌≡◌, ◌≤◌, ◌<◌, ◌-◌, length, min, [], Some, None, Ok, IfOk, IfSome};
ghost use Rattle.amh_host.specs.Seen.{Files};
ghost use Rattle.amh_host.specs.Causes.{HasCause};
ghost use Rattle.design_ir.specs.Legal.{AllLegal};
ghost use Rattle.play_text.specs.Boards.{board_of};
ghost use Rattle.amh_tool.specs.Outcome.{IsAsked, IsJudged, Plays, Takes, end_told, played};
ghost use Rattle.amh_tool.specs.DesignGives.{given_seen};
ghost use Rattle.amh_tool.specs.Designs.{gives, refusal, line_start};
ghost use Rattle.amh_tool.specs.Verdicts.{IsFitting, IsFound, IsFoundAs, IsReady, IsRunFitting, IsScript, ending_of, events_of, rows_of};
ghost use Rattle.play_text.specs.ScriptGives.{ReadsScript};
ghost use Rattle.amh_tool.specs.Views.{plan_seen};

use crate::design_text::{Ranked, read_design};
use crate::plan::Plan;
use crate::refusal::{DesignStop, Refusal};
use amh_host::{Host, HostStop, Items, Kind, NoMemory, Place, Steps, Whole, read_whole};
use bench_run::Run;
use comb_graph::Ranks;
use design_ir::{Design, Event};
use elab_eval::Elaborated;
use play_text::board::{Board, board_of};
use play_text::script::{ScriptStop, read_script};
use py_frames::request::{Cause, Stop};
use std::alloc::Global;
use std::sync::ledger::Ledger;

/// How many bytes a design file may have.
const MOST_DESIGN: usize = 1_048_576;

/// How many bytes a script may have.
const MOST_SCRIPT: usize = 16_777_216;

/// A design with its columns and the events of its script, if one is played, and for how many of them the budget is enough.
#[derive(Drop)]
pub struct Accepted {
    pub ranked: Ranked,
    pub board: Board,
    pub events: Items<Event>,
    pub within: usize,
}

impl Accepted {
    /// The events that take place.
    pub fn played(&self) -> &[Event]
        requires { self.now.within ≤ length self.now.events }
        ensures { result.now ≡ events_of self.now }
    {
        &self.events.as_slice()[..self.within]
    }

    /// What stops the script, if anything does. No line of the design file spends the budget.
    pub fn stop(&self) -> Option<Stop>
        ensures { end_told result ≡ ending_of self.now }
    {
        if self.within < self.events.len() {
            Some(Stop {
                cause: Cause::Spent,
                place: Place { line: 1, col: 1 },
            })
        } else {
            None
        }
    }
}

/// A run of the file's simulator over its design, with its columns.
#[derive(Drop)]
pub struct Runs {
    pub run: Run,
    pub ranks: Ranks,
    pub board: Board,
}

/// Why nothing is accepted.
#[derive(Drop)]
pub enum Rejection {
    Refused(Refusal),
    Spent(Place),
    BadLine(u32),
}

/// What the files ask for.
#[derive(Drop)]
pub enum Verdict {
    Rejected(Rejection),
    Accepted(Accepted),
    Runs(Runs),
}

/// Reads the design and then the script, and says what they ask for. It changes nothing.
pub fn accept<H: Host, L: Ledger>(
    alloc: Global,
    host: &mut H,
    plan: &Plan<'_>,
    steps: &mut Steps<L>,
) -> Result<Verdict, HostStop>
    requires { 0 < plan.now.budget }
    ensures found { IfOk result (IsFound (plan_seen plan.now) (H.seen host.old).files) }
    ensures same { H.seen host.new ≡ H.seen host.old }
    ensures cause { HasCause (H.faults host.old) (H.faults host.new) result }
    ensures counted { steps.old ≤ steps.new }
{
    let text = match read_whole(alloc, host, plan.design, MOST_DESIGN)? {
        Whole::Bytes(text) => text,
        Whole::TooLong(_) => return Ok(Verdict::Rejected(Rejection::Refused(too_long()))),
    };
    match read_design(alloc, &text, plan, steps) {
        Ok(ranked) => accept_script(alloc, host, plan, ranked),
        Err(DesignStop::Refused(why)) => Ok(Verdict::Rejected(Rejection::Refused(why))),
        Err(DesignStop::Spent(place)) => Ok(Verdict::Rejected(Rejection::Spent(place))),
        Err(DesignStop::NoMemory) => Err(HostStop::NoMemory),
    }
}

// A design file that is longer than it may be.
fn too_long() -> Refusal
    ensures { result ≡ refusal Kind.Limit (line_start 1) }
{
    Refusal {
        place: Place { line: 1, col: 1 },
        kind: Kind::Limit,
    }
}

// The script of a design that is one, where one is played.
fn accept_script<H: Host>(
    alloc: Global,
    host: &mut H,
    plan: &Plan<'_>,
    ranked: Ranked,
) -> Result<Verdict, HostStop>
    requires { IsReady ranked }
    ensures found { IfOk result (IsFoundAs (λ x. IfSome (H.seen host.old).files (λ files. IsJudged (plan_seen plan.now) files (gives (given_seen ranked)) x))) }
    ensures same { H.seen host.new ≡ H.seen host.old }
    ensures cause { HasCause (H.faults host.old) (H.faults host.new) result }
{
    match plan.script {
        Some(name) => accept_played(alloc, host, name, ranked),
        None => Ok(accept_unplayed(alloc, plan, ranked)?),
    }
}

// ---- without a script

// Where the words name the top there are no events, and else the file's simulator runs.
fn accept_unplayed(alloc: Global, plan: &Plan<'_>, ranked: Ranked) -> Result<Verdict, NoMemory>
    requires { IsReady ranked }
    ensures { (files : Files) → IfOk result (IsFoundAs (IsAsked None (plan_seen plan.now).top files (given_seen ranked))) }
{
    match plan.top {
        Some(_) => Ok(Verdict::Accepted(without_events(alloc, ranked)?)),
        None => Ok(Verdict::Runs(runs_of(alloc, ranked)?)),
    }
}

// A design without events.
fn without_events(alloc: Global, ranked: Ranked) -> Result<Accepted, NoMemory>
    requires { IsReady ranked }
    ensures fitting { IfOk result IsFitting }
    ensures ranked { IfOk result (λ a. a.ranked ≡ ranked) }
    ensures events { IfOk result (λ a. a.events ≡ []) }
    ensures within { IfOk result (λ a. a.within ≡ 0) }
{
    match board_of(alloc, &ranked.design) {
        Ok(board) => Ok(Accepted {
            ranked,
            board,
            events: Items::new(alloc),
            within: 0,
        }),
        Err(NoMemory) => {
            drop(ranked);
            Err(NoMemory)
        }
    }
}

// A design with the run of its simulator.
fn runs_of(alloc: Global, ranked: Ranked) -> Result<Runs, NoMemory>
    requires { IsReady ranked }
    ensures { IfOk result (IsRunFitting (given_seen ranked)) }
{
    let board = match board_of(alloc, &ranked.design) {
        Ok(board) => board,
        Err(NoMemory) => {
            drop(ranked);
            return Err(NoMemory);
        }
    };
    let Ranked {
        design,
        ranks,
        rest,
    } = ranked;
    let built = Elaborated {
        design,
        store: rest.store,
        frozen: rest.frozen,
    };
    let run = Run::start(alloc, rest.program, built, &ranks, rest.left)?;
    Ok(Runs { run, ranks, board })
}

// ---- a script

// The columns of a design and the events of a script.
#[derive(Drop)]
struct Script {
    board: Board,
    events: Items<Event>,
}

// A design with the events of this script.
fn accept_played<H: Host>(
    alloc: Global,
    host: &mut H,
    name: &str,
    ranked: Ranked,
) -> Result<Verdict, HostStop>
    requires { IsReady ranked }
    ensures found { IfOk result (IsFoundAs (λ x. IfSome (H.seen host.old).files (λ files. IsAsked (Some name.now) None files (given_seen ranked) x))) }
    ensures same { H.seen host.new ≡ H.seen host.old }
    ensures cause { HasCause (H.faults host.old) (H.faults host.new) result }
{
    match read_events(alloc, host, name, &ranked.design) {
        Ok(Ok(script)) => Ok(Verdict::Accepted(with_script(ranked, script))),
        Ok(Err(line)) => {
            drop(ranked);
            Ok(Verdict::Rejected(Rejection::BadLine(line)))
        }
        Err(stop) => {
            drop(ranked);
            Err(stop)
        }
    }
}

// A design with the events of a script, of which those take place for which the budget is enough.
fn with_script(ranked: Ranked, script: Script) -> Accepted
    requires ready { IsReady ranked }
    requires legal { AllLegal ranked.design script.events }
    requires board { script.board ≡ board_of ranked.design }
    ensures fitting { IsFitting result }
    ensures played { Takes (given_seen result.ranked) (Plays (rows_of result) (ending_of result)) ≡ played (given_seen ranked) (Ok script.events) }
{
    let within = enough_for(ranked.rest.left.left, script.events.len());
    Accepted {
        ranked,
        board: script.board,
        events: script.events,
        within,
    }
}

// The events of this script, or its first bad line. The design is its caller's: to give one back takes long to prove.
fn read_events<H: Host>(
    alloc: Global,
    host: &mut H,
    name: &str,
    design: &Design,
) -> Result<Result<Script, u32>, HostStop>
    ensures script { IfOk result (IsScript (H.seen host.old).files name.now design.now) }
    ensures same { H.seen host.new ≡ H.seen host.old }
    ensures cause { HasCause (H.faults host.old) (H.faults host.new) result }
{
    // A design numbers its domains, so there are few of them.
    let _ = design.domains();
    let board = board_of(alloc, design)?;
    let text = script_text(alloc, host, name)?;
    match read_script(alloc, &board, &text) {
        Ok(events) => Ok(Ok(Script { board, events })),
        Err(ScriptStop::Line(line)) => Ok(Err(line)),
        Err(ScriptStop::NoMemory) => Err(HostStop::NoMemory),
    }
}

// For how many events so many units are enough: each costs one before it takes place, and the last unit is not carried out.
fn enough_for(left: u64, events: usize) -> usize
    requires { 0 < left }
    ensures { result ≡ min (left - 1) events }
{
    (left - 1).min(events as u64) as usize
}

// The bytes of a script: all of them, or a front that is longer than a script may be, which is enough to tell the
// line that passes the limit.
fn script_text<H: Host>(alloc: Global, host: &mut H, name: &str) -> Result<Vec<u8>, HostStop>
    ensures bound { IfOk result (λ v. length v.items ≤ 16_781_312) }
    ensures bytes { IfOk result (λ v. ReadsScript (H.seen host.old).files name.now v.items) }
    ensures same { H.seen host.new ≡ H.seen host.old }
    ensures cause { HasCause (H.faults host.old) (H.faults host.new) result }
{
    match read_whole(alloc, host, name, MOST_SCRIPT)? {
        Whole::Bytes(text) => Ok(text),
        Whole::TooLong(front) => Ok(front),
    }
}
