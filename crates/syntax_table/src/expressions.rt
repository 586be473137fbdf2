// What the expressions of a line are, as text.

use crate::forms::say_unread;
use crate::tree::head_of;
use py_grammar::Word;
use py_phrases::read_whole;
use py_tree::ExprKind;
use py_words::Phrase;
use std::alloc::Global;
use table_text::Line;

/// How many rules of the grammar may stand one in the other: one more than brackets round an expression.
const MOST_RULES: u32 = 65;

/// What all words of a line are as expressions with commas, and how deep their brackets nest, or `nothing`.
pub fn say_expressions(alloc: Global, said: &mut Line, words: &[Word]) {
    match read_whole(alloc, words, MOST_RULES) {
        Ok(phrase) => say_phrase(said, &phrase),
        Err(stop) => say_unread(said, stop),
    }
}

fn say_phrase(said: &mut Line, phrase: &Phrase) {
    said.word(head_of(&phrase.expr.kind));
    if is_of_each(&phrase.expr.kind) {
        said.word(" of each");
    }
    said.word(" at ");
    said.place(phrase.place);
    said.word(", ");
    said.number(phrase.depth as u128);
    said.word(" deep");
}

fn is_of_each(kind: &ExprKind) -> bool {
    matches!(kind, ExprKind::ListOf(_, _) | ExprKind::DictOf(_, _))
}
