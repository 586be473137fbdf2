// The walk over a text.
ghost use Rattle.std.specs.Prelude.{◌≡◌, ◌≤◌, ◌<◌, ◌+◌, [], length, drop, All, IfOk, IfErr};
ghost use Rattle.std.specs.Str.{chars};
ghost use Rattle.py_lexer.specs.Lines.{before, last_line, logical_lines};
ghost use Rattle.py_lexer.specs.Gives.{Tells, Cuts};
ghost use Rattle.py_lexer.specs.Characters.{start};
ghost use Rattle.py_lexer.specs.Tiles.{Tiles, tokens_in};
ghost use Rattle.py_lexer.specs.Spans.{IsLineOf, IsInOrder};
ghost use Rattle.py_lexer.specs.Walks.{begun, owed, HasRoom};

use crate::chars::{after, all_chars, front, past, start};
use crate::front::front_of;
use crate::going::Going;
use crate::line::{LexStop, Line, Lines};
use crate::piece::{Mark, Placed};
use amh_host::Items;
use std::alloc::Global;

/// How far the walk has come: the lines so far, the line on its way, and the mark of the next character.
#[derive(Drop)]
pub struct Walk {
    pub lines: Items<Line>,
    pub going: Going,
    pub mark: Mark,
}

impl Walk {
    fn new(alloc: Global) -> Self
        ensures { result ≡ begun }
    {
        Walk {
            lines: Items::new(alloc),
            going: Going::new(alloc),
            mark: start(),
        }
    }

    // Takes the piece at the front, and says how many characters it has.
    fn turn(&mut self, alloc: Global, cs: &[char]) -> Result<usize, LexStop>
        requires some { 0 < length cs.now }
        requires bound { length cs.now ≤ 1048576 }
        requires room { HasRoom self.old cs.now }
        ensures told { IfOk result (λ width. owed self.new (drop width cs.now) ≡ owed self.old cs.now) }
        ensures begins { IfOk result (λ width. 0 < width) }
        ensures within { IfOk result (λ width. width ≤ length cs.now) }
        ensures room { IfOk result (λ width. HasRoom self.new (drop width cs.now)) }
        ensures err { IfErr result (λ stop. Tells stop (owed self.old cs.now)) }
    {
        let found = front_of(alloc, cs)?;
        let upto = past(self.mark, front(cs, found.width));
        if self.going.is_ended_by(found.piece) {
            self.going.end_line(alloc, &mut self.lines)?;
            self.mark = upto;
            return Ok(found.width);
        }
        let placed = Placed {
            piece: found.piece,
            from: self.mark,
            upto,
        };
        if let Err(stop) = self.going.meet(placed) {
            return Err(stop);
        }
        self.mark = upto;
        Ok(found.width)
    }

    // The lines, where the text ends.
    fn last(self, alloc: Global) -> Result<Lines, LexStop>
        requires { length self.lines ≤ 1048576 }
        ensures { Cuts result (before self.lines (last_line self.going)) }
    {
        self.going.expect_closed()?;
        let Walk {
            mut lines,
            mut going,
            mark: _,
        } = self;
        going.end_line(alloc, &mut lines)?;
        Ok(Lines::new(lines))
    }
}

/// The logical lines of a text, or its first fault.
#[tactic(auto, unfolding(crate::specs::Lines::logical_lines))]
pub fn cut_lines(alloc: Global, text: &str) -> Result<Lines, LexStop>
    requires { length text.now ≤ 1048576 }
    ensures cut { Cuts result (logical_lines (chars text.now)) }

    // The tokens and the gaps between them are the text, and each has its form.
    ensures tiles { IfOk result (λ lines. Tiles start (chars text.now) (tokens_in lines)) }

    // A line has a token, and each token takes whole characters of the text, in order.
    ensures lines { IfOk result (All (IsLineOf text.now)) }
    ensures order { IfOk result (λ lines. IsInOrder 0 (tokens_in lines)) }
{
    let all = all_chars(alloc, text)?;
    cut_chars(alloc, all.as_slice())
}

// The logical lines of these characters, or the first fault.
fn cut_chars(alloc: Global, cs: &[char]) -> Result<Lines, LexStop>
    requires { length cs.now ≤ 1048576 }
    ensures { Cuts result (owed begun cs.now) }
{
    let mut walk = Walk::new(alloc);
    let mut rest = cs;
    while !rest.is_empty() {
        let width = walk.turn(alloc, rest)?;
        rest = after(rest, width);
    }
    walk.last(alloc)
}
