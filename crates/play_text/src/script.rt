// Reading a script.
ghost use Rattle.std.specs.Prelude.{◌≡◌, ◌≤◌, length};
ghost use Rattle.play_text.specs.Script.{script_events};
ghost use Rattle.play_text.specs.ScriptGives.{ScriptGives};

use crate::board::Board;
use crate::script_line::says;
use crate::script_names::settable_numbers;
use crate::script_saying::Saying;
use crate::script_words::content;
use crate::text_lines::first_line;
use amh_host::{Items, NoMemory};
use design_ir::Event;
use std::alloc::Global;

/// How many bytes a script may have.
const MOST_BYTES: usize = 16_777_216;

/// How many events a script may have.
const MOST_EVENTS: usize = 1_000_000;

/// Why a script gives no events.
#[derive(Clone, Copy, PartialEq, Eq, Drop)]
pub enum ScriptStop {
    /// The first bad line, counted from 1.
    Line(u32),
    NoMemory,
}

impl From<NoMemory> for ScriptStop {
    ghost use Rattle.play_text.specs.declared.script.ScriptStop.TheVariants.{NoMemory};

    ghost from_gives = { λ _ stop. stop ≡ NoMemory };

    fn from(_: NoMemory) -> Self {
        ScriptStop::NoMemory
    }
}

/// Reads the events of a script, one a line, for the columns and the domains of a design.
///
/// The first line that says what no script says is refused, and so is the line that passes the most bytes or the
/// most events. Of a script that is longer than it may be, a longer front is enough.
#[tactic(auto, unfolding(crate::specs::Script::script_events))]
pub fn read_script<'a>(
    alloc: Global,
    board: &'a Board,
    text: &'a [u8],
) -> Result<Items<Event>, ScriptStop>
    requires text { length text.now ≤ 16_781_312 }
    requires domains { length board.now.domains ≤ 65_536 }
    ensures { ScriptGives result (script_events board.now text.now) }
{
    let numbers = settable_numbers(alloc, board.columns.as_slice())?;
    let mut events = Items::new(alloc);
    let mut line = 0u32;
    let mut room = MOST_BYTES;
    let mut left = MOST_EVENTS;
    let mut rest = text;
    while !rest.is_empty() {
        let (first, behind) = first_line(rest);
        rest = behind;
        line += 1;
        if first.len() > room {
            return Err(ScriptStop::Line(line));
        }
        room -= first.len();
        match says(alloc, board, &numbers, content(first))? {
            Saying::Nothing => {}
            Saying::Asks(event) => {
                if left == 0 {
                    return Err(ScriptStop::Line(line));
                }
                left -= 1;
                events.push(event)?;
            }
            Saying::Bad => return Err(ScriptStop::Line(line)),
        }
    }
    Ok(events)
}
