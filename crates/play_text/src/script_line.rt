// What a line of a script says.
ghost use Rattle.std.specs.Prelude.{◌≡◌, ◌≤◌, length, IfOk};
ghost use Rattle.play_text.specs.Script.{says, is_passed, event_of, set_event, words_in};
ghost use Rattle.play_text.specs.ScriptParts.{Numbers};

use crate::board::Board;
use crate::script_edge::edge_event;
use crate::script_names::settable;
use crate::script_numbers::number_in;
use crate::script_saying::Saying;
use crate::script_words::{first_word, two_words};
use amh_host::NoMemory;
use design_ir::Event;
use std::alloc::Global;
use std::collections::BTreeMap;

/// What a line says, which comes without its line feed.
pub fn says<'a>(
    alloc: Global,
    board: &'a Board,
    numbers: &BTreeMap<&'a [u8], usize>,
    line: &'a [u8],
) -> Result<Saying, NoMemory>
    requires numbers { Numbers numbers.now board.now.columns }
    requires domains { length board.now.domains ≤ 65_536 }
    ensures { IfOk result (λ saying. saying ≡ says board.now line.now) }
{
    if is_passed(line) {
        return Ok(Saying::Nothing);
    }
    match event_of(alloc, board, numbers, line)? {
        Some(event) => Ok(Saying::Asks(event)),
        None => Ok(Saying::Bad),
    }
}

// Whether a line is empty or begins with `#`.
fn is_passed(line: &[u8]) -> bool
    ensures { result ≡ is_passed line.now }
{
    match line {
        [] => true,
        [first, ..] => *first == b'#',
    }
}

// The event that the words of a line ask for.
fn event_of<'a>(
    alloc: Global,
    board: &'a Board,
    numbers: &BTreeMap<&'a [u8], usize>,
    line: &'a [u8],
) -> Result<Option<Event>, NoMemory>
    requires numbers { Numbers numbers.now board.now.columns }
    requires domains { length board.now.domains ≤ 65_536 }
    ensures { IfOk result (λ event. event ≡ event_of board.now (words_in line.now)) }
{
    let (kind, Some(words)) = first_word(line) else {
        return Ok(None);
    };
    if kind == b"set".as_slice() {
        Ok(set_event(board, numbers, words))
    } else if kind == b"edge".as_slice() {
        edge_event(alloc, board, words)
    } else {
        Ok(None)
    }
}

// The event that the words behind `set` ask for: a name of an input that is no clock, and a number of its shape.
fn set_event<'a>(
    board: &'a Board,
    numbers: &BTreeMap<&'a [u8], usize>,
    words: &'a [u8],
) -> Option<Event>
    requires { Numbers numbers.now board.now.columns }
    ensures { result ≡ set_event board.now (words_in words.now) }
{
    let (name, text) = two_words(words)?;
    let column = settable(board, numbers, name)?;
    let value = number_in(column.shape, text)?;
    Some(Event::Set {
        sig: column.sig,
        value,
    })
}
