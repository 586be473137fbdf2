// The answer of one run.

use crate::outcome::{is_front, lines_in};
use crate::question::Question;
use crate::running::{Finished, ran};
use amh_tool::Status;
use std::alloc::Global;
use table_text::{Stop, spelled};

/// How the run ended, what was said and warned, and what the trace and RTLIL are.
pub fn once(alloc: Global, question: &Question<'_>) -> Result<String, Stop> {
    let run = ran(alloc, question, question.faults.as_slice())?;
    let mut said = format!(in alloc; "{} {}", status_word(run.status), run.status.code())?;
    said.push_str(" | said ")?;
    said.push_str(spelled(alloc, run.host.said().as_bytes())?.as_str())?;
    said.push_str(" | warned ")?;
    said.push_str(spelled(alloc, run.host.warned().as_bytes())?.as_str())?;
    said.push_str(" | ")?;
    said.push_str(trace_said(alloc, question, &run)?.as_str())?;
    said.push_str(" | ")?;
    said.push_str(rtlil_said(alloc, question, &run)?.as_str())?;
    Ok(said)
}

/// The word for a status.
pub fn status_word(status: Status) -> &'static str {
    match status {
        Status::Done => "done",
        Status::Refused => "refused",
        Status::AssertFailed => "assert failed",
        Status::Usage => "usage",
        Status::Spent => "spent",
        Status::Fault => "fault",
        Status::NoMemory => "no memory",
    }
}

fn trace_said(alloc: Global, question: &Question<'_>, run: &Finished) -> Result<String, Stop> {
    let name = question.word(2);
    match run.host.bytes(name) {
        None => Ok(format!(in alloc; "{name} none")?),
        Some(bytes) => {
            let text = spelled(alloc, bytes)?;
            Ok(format!(in alloc; "{name} {text}")?)
        }
    }
}

fn rtlil_said(alloc: Global, question: &Question<'_>, run: &Finished) -> Result<String, Stop> {
    let name = question.word(1);
    let Some(bytes) = run.host.bytes(name) else {
        return Ok(format!(in alloc; "{name} none")?);
    };
    if question.faults.is_empty() {
        return Ok(format!(in alloc; "{name} there")?);
    }
    let sound = ran(alloc, question, &[])?;
    let whole = sound.host.bytes(name);
    if whole == Some(bytes) {
        return Ok(format!(in alloc; "{name} whole")?);
    }
    if !is_front(Some(bytes), whole) {
        return Ok(format!(in alloc; "{name} other")?);
    }
    Ok(format!(in alloc; "{name} {} lines", lines_in(bytes))?)
}
