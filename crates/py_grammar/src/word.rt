// Words: tokens with their values.

use amh_host::{NoMemory, Place};
use py_tree::{Decimal, Name, Pieces};
use std::alloc::AllocFailed;

/// What a word is: a token with its value.
#[derive(Drop)]
pub enum Mark {
    Name(Name),
    Keyword(Name),
    Number(u128),
    Decimal(Decimal),
    Str(Name),
    Format(Pieces),
    Sign(Name),
    /// A token that stands in no line of the grammar.
    Other,
}

/// A word of a line, at the place of its first character.
#[derive(Drop)]
pub struct Word {
    pub mark: Mark,
    pub place: Place,
}

/// Why a reader read nothing.
#[derive(Clone, Copy, PartialEq, Eq, Drop)]
pub enum Stop {
    /// Nothing that it reads stands there.
    Unread,
    /// No memory was left.
    NoMemory,
}

/// The rules of the grammar that call themselves inside a bracket.
#[derive(Clone, Copy, PartialEq, Eq, Drop)]
pub enum Kind {
    Target,
    Unary,
    Not,
    Or,
    Expr,
}

impl From<NoMemory> for Stop {
    ghost use Rattle.py_grammar.specs.declared.word.Stop.TheVariants.{NoMemory as no_memory};
    ghost use Rattle.std.specs.Prelude.{◌≡◌};

    ghost from_gives = { λ _ e. e ≡ no_memory };

    fn from(_: NoMemory) -> Stop {
        Stop::NoMemory
    }
}

impl<T: Drop> From<AllocFailed<T>> for Stop {
    ghost use Rattle.py_grammar.specs.declared.word.Stop.TheVariants.{NoMemory as no_memory};
    ghost use Rattle.std.specs.Prelude.{◌≡◌};

    ghost from_gives = { λ _ e. e ≡ no_memory };

    fn from(_: AllocFailed<T>) -> Stop {
        Stop::NoMemory
    }
}
