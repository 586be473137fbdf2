// The words of a line, as text.

use crate::nodes::say_number;
use crate::tree::say_decimal;
use py_grammar::{Mark, Word};
use py_tree::Piece;
use table_text::{Line, Stop};

/// The words of a line: the place of each, what it is and what it stands for.
pub fn say_words(said: &mut Line, words: &[Word]) {
    for k in 0..words.len() {
        if k > 0 {
            said.word(", ");
        }
        said.place(words[k].place);
        say_mark(said, &words[k].mark);
    }
}

fn say_mark(said: &mut Line, mark: &Mark) {
    match mark {
        Mark::Name(text) => say_text(said, " name ", text.as_str()),
        Mark::Keyword(text) => say_text(said, " keyword ", text.as_str()),
        Mark::Sign(text) => say_text(said, " sign ", text.as_str()),
        Mark::Str(text) => say_string(said, " string ", text.as_str()),
        _ => say_other(said, mark),
    }
}

// A word that is no text.
fn say_other(said: &mut Line, mark: &Mark) {
    match mark {
        Mark::Number(n) => {
            said.word(" number");
            say_number(said, *n);
        }
        Mark::Decimal(d) => {
            said.word(" decimal");
            say_decimal(said, *d);
        }
        Mark::Format(pieces) => {
            said.word(" format");
            say_pieces(said, pieces.as_slice());
        }
        _ => said.word(" nothing"),
    }
}

fn say_text(said: &mut Line, what: &str, text: &str) {
    said.word(what);
    said.word(text);
}

// A string, between quotes.
fn say_string(said: &mut Line, what: &str, text: &str) {
    if write!(said.text, "{what}{text:?}").is_err() {
        said.give_up(Stop::NoMemory);
    }
}

fn say_pieces(said: &mut Line, pieces: &[Piece]) {
    for piece in pieces {
        match piece {
            Piece::Text(text) => say_string(said, " ", text.as_str()),
            Piece::Hole(name) => say_hole(said, name.as_str()),
        }
    }
}

fn say_hole(said: &mut Line, name: &str) {
    said.word(" {");
    said.word(name);
    said.word("}");
}
