// `edge NAME ..`: the clocks of these domains toggle.
ghost use Rattle.std.specs.Prelude.{◌≡◌, ◌≤◌, length, IfOk};
ghost use Rattle.play_text.specs.Script.{edge_event, words_in};
ghost use Rattle.play_text.specs.ScriptParts.{once_each};

use crate::board::Board;
use crate::script_names::are_domains;
use crate::script_words::times;
use amh_host::{Items, NoMemory};
use design_ir::{Clocks, DomainId, Event};
use std::alloc::Global;

/// The event that the words behind `edge` ask for, where they are distinct names of domains.
pub fn edge_event(alloc: Global, board: &Board, words: &[u8]) -> Result<Option<Event>, NoMemory>
    requires { length board.now.domains ≤ 65_536 }
    ensures { IfOk result (λ event. event ≡ edge_event board.now (words_in words.now)) }
{
    if !are_domains(board, words) {
        return Ok(None);
    }
    match once_each(alloc, board, words)? {
        Some(clocks) => Ok(Some(Event::Edge(clocks))),
        None => Ok(None),
    }
}

// The domains that the words name, in domain order, where they name none twice.
fn once_each(alloc: Global, board: &Board, words: &[u8]) -> Result<Option<Clocks>, NoMemory>
    requires { length board.now.domains ≤ 65_536 }
    ensures { IfOk result (λ clocks. clocks ≡ once_each board.now (words_in words.now)) }
{
    let mut clocks = Items::new(alloc);
    let domains = board.domains.as_slice();
    for (number, domain) in domains.iter().enumerate() {
        let times = times(domain.name.as_str().as_bytes(), words);
        if times > 1 {
            return Ok(None);
        }
        if times == 1 {
            clocks.push(DomainId(number as u16))?;
        }
    }
    Ok(Some(clocks))
}
