// What a program asks and how it ends, as text.
ghost use Rattle.std.specs.Prelude.{◌≡◌, ◌++◌, IfOk, codes, string_bytes};
ghost use Rattle.machine_table.specs.Words.{word_of, place_said};

use crate::shown::Shown;
use py_heap::Frozen;
use py_machine::{Act, Cause, Machine, Request};
use py_values::Val;
use std::alloc::Global;
use table_text::Stop;

/// What is asked, with its place.
pub fn request_said(
    alloc: Global,
    machine: &Machine,
    frozen: &Frozen,
    request: &Request,
) -> Result<String, Stop> {
    let mut shown = Shown::new(alloc, machine, frozen);
    shown.word(act_word(request.act))?;
    shown.word("(")?;
    if request.act == Act::BodyEnd {
        named(&mut shown, request)?;
    } else {
        apart(&mut shown, request)?;
    }
    let place = request.place;
    shown.word(format!(in alloc; ") {}:{}", place.line, place.col)?.as_str())?;
    Ok(shown.into_text())
}

/// The value at the end.
pub fn end_said(alloc: Global, machine: &Machine, frozen: &Frozen, v: Val) -> Result<String, Stop> {
    let mut shown = Shown::new(alloc, machine, frozen);
    shown.word("ended ")?;
    shown.value(v)?;
    Ok(shown.into_text())
}

/// Why and where a program stops.
pub fn stop_said(alloc: Global, stop: py_machine::Stop) -> Result<String, Stop>
    ensures { IfOk result (λ said. string_bytes said ≡ codes "stopped " ++ (word_of stop.cause ++ (codes " " ++ place_said stop.place))) }
{
    let (why, place) = (cause_word(stop.cause), stop.place);
    Ok(format!(in alloc; "stopped {why} {}:{}", place.line, place.col)?)
}

// The values of a request, each behind its name.
fn named(shown: &mut Shown, request: &Request) -> Result<(), Stop> {
    let vals = request.vals.as_slice();
    let mut between = "";
    for (name, v) in request.names.items().iter().zip(vals.iter()) {
        shown.word(between)?;
        shown.word(name.as_str())?;
        shown.word("=")?;
        shown.value(*v)?;
        between = ", ";
    }
    Ok(())
}

// The values of a request, and then its names, where there are any.
fn apart(shown: &mut Shown, request: &Request) -> Result<(), Stop> {
    shown.values(request.vals.as_slice())?;
    let mut between = "; ";
    for name in request.names.items() {
        shown.word(between)?;
        shown.quoted(name.as_str())?;
        between = ", ";
    }
    Ok(())
}

fn act_word(act: Act) -> &'static str {
    match act {
        Act::Import => "Import",
        Act::Attribute => "Attribute",
        Act::SetAttribute => "SetAttribute",
        Act::CallThing => "CallThing",
        Act::Index => "Index",
        Act::SetIndex => "SetIndex",
        Act::Operator => "Operator",
        Act::Length => "Length",
        Act::Iterate => "Iterate",
        Act::Enter => "Enter",
        Act::Leave => "Leave",
        Act::ClassMade => "ClassMade",
        Act::InitBase => "InitBase",
        Act::BodyEnd => "BodyEnd",
        Act::Returned => "Returned",
        Act::Await => "Await",
    }
}

fn cause_word(why: Cause) -> &'static str
    ensures { result.now ≡ word_of why }
{
    match why {
        Cause::Raised => "raised",
        Cause::Width => "width",
        Cause::Limit => "limit",
        Cause::Assert => "assert",
        Cause::Spent => "spent",
    }
}
