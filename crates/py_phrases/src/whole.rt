// Whole expressions: what is read is what the grammar derives, and nothing is read where it derives nothing.
ghost use Rattle.std.specs.Prelude.{◌≡◌, ◌<◌, IfOk, Ok, Err, length, if◌then◌else◌};
ghost use Rattle.py_grammar.specs.declared.word.Stop.TheVariants.{Unread};
ghost use Rattle.py_grammar.specs.Laws.{Exprs, exprs};
ghost use Rattle.py_grammar.specs.Readers.{Reads};
ghost use Rattle.py_grammar.specs.Seen.{is_empty};
ghost use Rattle.py_words.specs.Phrases.{seen_of};
ghost use Rattle.py_phrases.specs.Answering.{Answers};

use crate::reader::read_items;
use py_grammar::{Kind, Stop, Word, lists_are_exact};
use py_words::node;
use py_words::phrase::Phrase;
use std::alloc::Global;

/// Expressions with a comma between each two, off the front of some words: one alone is itself, others are a tuple.
pub fn read_tuple(alloc: Global, words: &[Word], room: u32) -> Result<(Phrase, &[Word]), Stop>
    ensures reads { Reads (λ x. (seen_of x.0, x.1.now)) result (exprs room words.now) }
    ensures shorter { IfOk result (λ x. length x.1.now < length words.now) }
{
    let (first, others, rest) = read_items(alloc, words, Kind::Expr, room)?;
    Ok((node::tuple(alloc, first, others)?, rest))
}

fn if_none_left(phrase: Phrase, rest: &[Word]) -> Result<Phrase, Stop>
    ensures { result ≡ (if is_empty rest.now then Ok phrase else Err Unread) }
{
    match rest {
        [] => Ok(phrase),
        [_, ..] => Err(Stop::Unread),
    }
}

/// What all of these words stand for, as expressions with a comma between each two.
#[tactic(auto, using(crate::proofs::Wholes::nothing_stands))]
pub fn read_whole(alloc: Global, words: &[Word], room: u32) -> Result<Phrase, Stop>
    ensures { Answers (Exprs room words.now) result }
{
    lists_are_exact();
    let (phrase, rest) = read_tuple(alloc, words, room)?;
    if_none_left(phrase, rest)
}
