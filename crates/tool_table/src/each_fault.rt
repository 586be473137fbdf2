// Every call of the host fails in turn.

use crate::outcome::is_front;
use crate::question::{Fault, Question};
use crate::running::{Finished, ran};
use amh_host::HostCall;
use amh_tool::Status;
use std::alloc::Global;
use table_text::Stop;

/// The most calls of one kind that are made to fail.
const MOST: u32 = 100_000;

/// How many calls of each kind and name a run has, each of which was made to fail, or that a run was not sound.
pub fn counted(alloc: Global, question: &Question<'_>) -> Result<String, Stop> {
    let sound = ran(alloc, question, &[])?;
    let mut said = String::new(alloc);
    for (word, call, name) in calls_of(question) {
        if !said.is_empty() {
            said.push_str(", ")?;
        }
        let told = match count_of(alloc, question, &sound, call, name)? {
            Some(count) => format!(in alloc; "{word} {name} {count}")?,
            None => format!(in alloc; "{word} {name} unsound")?,
        };
        said.push_str(told.as_str())?;
    }
    Ok(said)
}

// The kinds of calls of a run, each with its word and the name that it is on.
fn calls_of<'a>(question: &Question<'a>) -> [(&'static str, HostCall, &'a str); 8] {
    [
        ("read", HostCall::Read, question.word(0)),
        ("read", HostCall::Read, question.word(4)),
        ("start", HostCall::Start, question.word(1)),
        ("put", HostCall::Put, question.word(1)),
        ("start", HostCall::Start, question.word(2)),
        ("put", HostCall::Put, question.word(2)),
        ("say", HostCall::Say, ""),
        ("warn", HostCall::Warn, ""),
    ]
}

// How many calls of this kind on this name there are; none where a run in which one failed is not sound.
fn count_of(
    alloc: Global,
    question: &Question<'_>,
    sound: &Finished,
    call: HostCall,
    name: &str,
) -> Result<Option<u32>, Stop> {
    for nth in 1..=MOST {
        let run = ran(alloc, question, &[Fault { call, name, nth }])?;
        if run.status != Status::Fault {
            return Ok(Some(nth - 1));
        }
        if !is_sound(question, sound, &run) {
            return Ok(None);
        }
    }
    Ok(None)
}

// What a run in which a call failed left is a part of what the whole one left, in the order of the work.
fn is_sound(question: &Question<'_>, sound: &Finished, run: &Finished) -> bool {
    let (il, trace) = (question.word(1), question.word(2));
    let is_ordered = run.host.bytes(trace).is_none() || run.host.bytes(il) == sound.host.bytes(il);
    is_ordered
        && is_front(run.host.bytes(il), sound.host.bytes(il))
        && is_front(run.host.bytes(trace), sound.host.bytes(trace))
        && sound.host.said().starts_with(run.host.said())
        && is_told(run.host.warned(), sound.host.warned())
}

// What was warned is a front of the text without faults, and then `host fault`.
fn is_told(warned: &str, whole: &str) -> bool {
    match warned.strip_suffix("host fault\n") {
        Some(front) => whole.starts_with(front),
        None => false,
    }
}
