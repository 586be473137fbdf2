// The lines of a trace.
ghost use Rattle.std.specs.Prelude.{◌≡◌, ◌++◌, IfOk, OnOk, string_bytes};
ghost use Rattle.std.specs.List.{flat_map};
ghost use Rattle.amh_bits.specs.Decimals.{int_text};
ghost use Rattle.design_ir.specs.Circuits.{at};
ghost use Rattle.play_text.specs.Lanes.{row_head};
ghost use Rattle.play_text.specs.Trace.{head_line, done_line, stop_line, spent_line, column_line, shape_text, first_line, all_fields, field};

use crate::board::{Board, Shown};
use crate::trace_events::{number_of, push_event};
use amh_bits::Int;
use amh_host::Place;
use design_ir::Event;
use number_text::{push_decimal, push_int};
use shape_rules::Shape;
use std::alloc::{AllocError, Global};

/// The first line of every trace.
#[tactic(auto, unfolding(crate::specs::Trace::head_line))]
pub fn head_line() -> &'static [u8]
    ensures { result.now ≡ head_line }
{
    b"amh-trace 1\n"
}

/// The last line of a trace whose events all came to pass.
#[tactic(auto, unfolding(crate::specs::Trace::done_line))]
pub fn done_line(alloc: Global) -> Result<String, AllocError>
    ensures { IfOk result (λ line. string_bytes line ≡ done_line) }
{
    format!(in alloc; "end done\n")
}

/// The last line of a trace that was stopped at a place of the design file, for this reason.
#[tactic(auto, unfolding(crate::specs::Trace::stop_line))]
pub fn stop_line(alloc: Global, why: &str, place: Place) -> Result<String, AllocError>
    ensures { IfOk result (λ line. string_bytes line ≡ stop_line why.now place) }
{
    let line = place.line;
    let col = place.col;
    format!(in alloc; "end {why} {line}:{col}\n")
}

/// The last line of a trace behind which the budget is spent.
#[tactic(auto, unfolding(crate::specs::Trace::spent_line))]
pub fn spent_line(alloc: Global) -> Result<String, AllocError>
    ensures { IfOk result (λ line. string_bytes line ≡ spent_line) }
{
    format!(in alloc; "end spent\n")
}

/// The line of a column: its name and its shape.
#[tactic(auto, unfolding(crate::specs::Trace::column_line))]
pub fn column_line(alloc: Global, x: &Shown) -> Result<String, AllocError>
    ensures { IfOk result (λ line. string_bytes line ≡ column_line x.now) }
{
    let name = x.name.as_str();
    let shape = shape_text(alloc, x.shape)?;
    format!(in alloc; "col {name} {shape}\n")
}

#[tactic(auto, unfolding(crate::specs::Trace::shape_text))]
fn shape_text(alloc: Global, shape: Shape) -> Result<String, AllocError>
    ensures { IfOk result (λ text. string_bytes text ≡ shape_text shape) }
{
    let sign = if shape.signed { "s" } else { "u" };
    let width = shape.width;
    format!(in alloc; "{sign}{width}")
}

/// Adds the line of the numbers before any event: those of all columns.
#[tactic(auto, unfolding(crate::specs::Trace::first_line))]
pub fn push_first(text: &mut Vec<u8>, board: &Board, first: &[Int]) -> Result<(), AllocError>
    ensures { OnOk result (text.new.items ≡ text.old.items ++ first_line board.now first.now) }
{
    text.extend_from_slice(b"0 init |")?;
    push_fields(text, board.columns.as_slice(), first)?;
    text.push(b'\n')?;
    Ok(())
}

/// Adds the front of the line of an event: its time, and what happened.
pub fn push_front(
    text: &mut Vec<u8>,
    board: &Board,
    time: u64,
    event: &Event,
    before: &[Int],
) -> Result<(), AllocError>
    ensures { OnOk result (text.new.items ≡ text.old.items ++ row_head board.now (record { time = time; event = event.now }) before.now) }
{
    push_decimal(text, time as u128)?;
    text.push(b' ')?;
    push_event(text, board, before, event)?;
    text.extend_from_slice(b" |")?;
    Ok(())
}

fn push_fields(text: &mut Vec<u8>, columns: &[Shown], env: &[Int]) -> Result<(), AllocError>
    ensures { OnOk result (text.new.items ≡ text.old.items ++ all_fields columns.now env.now) }
{
    for x in columns {
        push_field(text, x.name.as_str(), number_of(env, x.sig))?;
    }
    Ok(())
}

#[tactic(auto, unfolding(crate::specs::Trace::field))]
fn push_field(text: &mut Vec<u8>, name: &str, value: Int) -> Result<(), AllocError>
    ensures { OnOk result (text.new.items ≡ text.old.items ++ field name.now value) }
{
    text.push(b' ')?;
    text.extend_from_slice(name.as_bytes())?;
    text.push(b'=')?;
    push_int(text, value)
}
