// What the program says and warns.
ghost use Rattle.std.specs.Prelude.{◌≡◌, IfOk, string_bytes};
ghost use Rattle.play_text.specs.Trace.{end_line};
ghost use Rattle.amh_tool.specs.Outcome.{kind_text, refusal_text, assertion_text, spent_text, bad_line_text, done_text, fault_text, usage_text, end_by, end_told, end_warned};
ghost use Rattle.amh_tool.specs.Views.{plan_seen};

use crate::plan::Plan;
use crate::refusal::Refusal;
use amh_host::{Kind, Place};
use play_text::trace_lines::{done_line, spent_line, stop_line};
use py_frames::request::{Cause, Stop};
use std::alloc::{AllocError, Global};

const USAGE: &str =
    "usage: amh_tool DESIGN IL TRACE [--play FILE] [--top NAME] [--budget N] [--make N]\n";

/// How the words go.
#[tactic(auto, unfolding(crate::specs::Outcome::usage_text))]
pub fn usage_text() -> &'static str
    ensures { result.now ≡ usage_text }
{
    USAGE
}

/// Where and why a design is refused.
#[tactic(auto, unfolding(crate::specs::Outcome::refusal_text))]
pub fn refusal(alloc: Global, name: &str, why: Refusal) -> Result<String, AllocError>
    ensures { IfOk result (λ text. string_bytes text ≡ refusal_text name.now why) }
{
    let line = why.place.line;
    let col = why.place.col;
    let kind = kind_text(why.kind);
    format!(in alloc; "{name}:{line}:{col}: {kind}\n")
}

/// Where an assertion of a testbench is false.
#[tactic(auto, unfolding(crate::specs::Outcome::assertion_text))]
pub fn assertion(alloc: Global, name: &str, place: Place) -> Result<String, AllocError>
    ensures { IfOk result (λ text. string_bytes text ≡ assertion_text name.now place) }
{
    let line = place.line;
    let col = place.col;
    format!(in alloc; "{name}:{line}:{col}: assertion failed\n")
}

/// That a budget of so many units is spent.
#[tactic(auto, unfolding(crate::specs::Outcome::spent_text))]
pub fn spent(alloc: Global, budget: u64) -> Result<String, AllocError>
    ensures { IfOk result (λ text. string_bytes text ≡ spent_text budget) }
{
    format!(in alloc; "budget of {budget} spent\n")
}

/// Which line of a script is bad.
#[tactic(auto, unfolding(crate::specs::Outcome::bad_line_text))]
pub fn bad_line(alloc: Global, name: &str, line: u32) -> Result<String, AllocError>
    ensures { IfOk result (λ text. string_bytes text ≡ bad_line_text name.now line) }
{
    format!(in alloc; "{name}:{line}: script\n")
}

/// What stopped a run, and where.
pub fn stop_text(alloc: Global, plan: &Plan<'_>, stop: Stop) -> Result<String, AllocError>
    ensures { IfOk result (λ text. string_bytes text ≡ end_warned (plan_seen plan.now) (end_by stop.cause stop.place)) }
{
    let place = stop.place;
    let kind = match stop.cause {
        Cause::Raised => Kind::Raised,
        Cause::Width => Kind::Width,
        Cause::Limit => Kind::Limit,
        Cause::Assert => return assertion(alloc, plan.design, place),
        Cause::Spent => return spent(alloc, plan.budget),
    };
    refusal(alloc, plan.design, Refusal { place, kind })
}

/// The last line of a trace, by what stopped its events if anything did.
pub fn end_line(alloc: Global, stop: Option<Stop>) -> Result<String, AllocError>
    ensures { IfOk result (λ line. string_bytes line ≡ end_line (end_told stop)) }
{
    match stop {
        None => done_line(alloc),
        Some(stop) => stopped_line(alloc, stop),
    }
}

fn stopped_line(alloc: Global, stop: Stop) -> Result<String, AllocError>
    ensures { IfOk result (λ line. string_bytes line ≡ end_line (end_by stop.cause stop.place)) }
{
    match stop.cause {
        Cause::Raised => stop_line(alloc, "raised", stop.place),
        Cause::Width => stop_line(alloc, "width", stop.place),
        Cause::Limit => stop_line(alloc, "limit", stop.place),
        Cause::Assert => stop_line(alloc, "assert", stop.place),
        Cause::Spent => spent_line(alloc),
    }
}

/// That the files are whole.
#[tactic(auto, unfolding(crate::specs::Outcome::done_text))]
pub fn done_text(alloc: Global, columns: usize, events: usize) -> Result<String, AllocError>
    ensures { IfOk result (λ text. string_bytes text ≡ done_text columns events) }
{
    format!(in alloc; "done: {columns} columns, {events} events\n")
}

/// That the host failed.
#[tactic(auto, unfolding(crate::specs::Outcome::fault_text))]
pub fn fault_text() -> &'static str
    ensures { result.now ≡ fault_text }
{
    "host fault\n"
}

fn kind_text(kind: Kind) -> &'static str
    ensures { result.now ≡ kind_text kind }
{
    match kind {
        Kind::Text => "text",
        Kind::Subset => "subset",
        Kind::Raised => "raised",
        Kind::Width => "width",
        Kind::TwoDrivers => "two drivers",
        Kind::DrivenInput => "driven input",
        Kind::DomainClash => "domain clash",
        Kind::Loop => "loop",
        Kind::Limit => "limit",
        Kind::Script => "script",
    }
}
