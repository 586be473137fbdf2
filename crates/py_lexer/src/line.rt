// Logical lines.
ghost use Rattle.std.specs.Prelude.{◌≡◌, ◌<◌, ◌≤◌, length, Some, slice_get};

use crate::token::Tokens;
use amh_host::{Items, NoMemory, Place};
use std::marker::Model;

/// A logical line: the blanks before its first token, that token's place, and its tokens, of which it has at
/// least one.
#[derive(Drop)]
pub struct Line {
    pub indent: u32,
    pub place: Place,
    pub tokens: Tokens,
}

/// Why a text has no logical lines.
#[derive(Clone, Copy, PartialEq, Eq, Drop)]
pub enum LexStop {
    /// The first fault is here.
    Subset(Place),
    /// No memory was left.
    NoMemory,
}

impl From<NoMemory> for LexStop {
    ghost use Rattle.std.specs.Prelude.{◌≡◌};
    ghost use Rattle.py_lexer.specs.declared.line.LexStop.TheVariants.{NoMemory};

    ghost from_gives = { λ _ stop. stop ≡ NoMemory };

    fn from(_: NoMemory) -> Self {
        LexStop::NoMemory
    }
}

/// The logical lines of a text, in order. Contracts see the list of them.
#[derive(Drop)]
pub struct Lines {
    items: Items<Line>,
}

impl Model for Lines {
    ghost use Rattle.std.specs.Prelude.{List, ◌<◌, length};
    ghost use Rattle.py_lexer.specs.declared.line.Line.{Line};

    ghost Value = { List Line };

    ghost view = { λ a. a.items };

    ghost invariant = { λ a. length a.items < 4294967296 };
}

impl Lines {
    /// Lines that are few enough to be numbered.
    pub(crate) fn new(items: Items<Line>) -> Self
        requires { length items < 4294967296 }
        ensures { result ≡ items }
    {
        Lines { items }
    }

    /// How many lines there are.
    pub fn count(&self) -> u32
        ensures { result ≡ length self.now }
    {
        self.items.len() as u32
    }

    /// The line of this number, counted from 0.
    pub fn line(&self, i: u32) -> &Line
        requires { i < length self.now }
        ensures { slice_get self.now i ≡ Some result.now }
    {
        self.items.get(i as usize)
    }
}
