// The lines of a trace before its rows, and its last one.
ghost use Rattle.std.specs.Prelude.{◌≡◌, ◌∷◌, []};
ghost use Rattle.std.specs.List.{flat_map};
ghost use Rattle.amh_host.specs.Seen.{written};
ghost use Rattle.amh_host.specs.Calls.{Adds};
ghost use Rattle.amh_host.specs.Causes.{HasCause};
ghost use Rattle.amh_host.specs.Written.{Writes};
ghost use Rattle.play_text.specs.Trace.{column_line, end_line, front_text};
ghost use Rattle.amh_tool.specs.Outcome.{end_told};

use crate::texts::end_line;
use amh_bits::Int;
use amh_host::{Host, HostStop};
use play_text::board::{Board, Shown};
use play_text::trace_lines::{column_line, head_line, push_first};
use py_frames::request::Stop;
use std::alloc::Global;

/// Makes the trace anew, up to the line of the numbers before any event. Each line is one `put`.
pub fn put_head<H: Host>(
    alloc: Global,
    host: &mut H,
    name: &str,
    board: &Board,
    first: &[Int],
) -> Result<(), HostStop>
    ensures text { Writes name.now (front_text board.now [] (first.now ∷ [])) result (H.seen host.old) (H.seen host.new) }
    ensures cause { HasCause (H.faults host.old) (H.faults host.new) result }
{
    let mut line = Vec::new(alloc);
    push_first(&mut line, board, first)?;
    host.start(name)?;
    host.put(name, head_line())?;
    put_columns(alloc, host, name, board.columns.as_slice())?;
    host.put(name, line.as_slice())
}

fn put_columns<H: Host>(
    alloc: Global,
    host: &mut H,
    name: &str,
    columns: &[Shown],
) -> Result<(), HostStop>
    ensures done { Adds (written name.now) (flat_map column_line columns.now) result (H.seen host.old) (H.seen host.new) }
    ensures cause { HasCause (H.faults host.old) (H.faults host.new) result }
{
    for x in columns {
        let line = column_line(alloc, x)?;
        host.put(name, line.as_bytes())?;
    }
    Ok(())
}

/// Adds the last line, by what stopped the events if anything did.
pub fn put_end<H: Host>(
    alloc: Global,
    host: &mut H,
    name: &str,
    stop: Option<Stop>,
) -> Result<(), HostStop>
    ensures done { Adds (written name.now) (end_line (end_told stop)) result (H.seen host.old) (H.seen host.new) }
    ensures cause { HasCause (H.faults host.old) (H.faults host.new) result }
{
    let line = end_line(alloc, stop)?;
    host.put(name, line.as_bytes())
}
