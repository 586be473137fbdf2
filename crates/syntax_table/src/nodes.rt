// What all nodes of the notation of trees have: brackets, a head, a place, and words.

use amh_host::Place;
use table_text::Line;

/// The begin of a part without a place.
pub fn open(said: &mut Line, head: &str) {
    said.word(" (");
    said.word(head);
}

/// The begin of a node at this place.
pub fn open_at(said: &mut Line, head: &str, place: Place) {
    open(said, head);
    said.word(" ");
    said.place(place);
}

/// The end of a part.
pub fn close(said: &mut Line) {
    said.word(")");
}

/// A word of the notation.
pub fn say_word(said: &mut Line, word: &str) {
    said.word(" ");
    said.word(word);
}

/// A number.
pub fn say_number(said: &mut Line, number: u128) {
    said.word(" ");
    said.number(number);
}

/// A name of the text, in escapes.
pub fn say_name(said: &mut Line, name: &str) {
    said.word(" ");
    said.spelled(name.as_bytes());
}

/// A string of the text, in escapes between quotes.
pub fn say_quoted(said: &mut Line, text: &str) {
    said.word(" \"");
    said.spelled(text.as_bytes());
    said.word("\"");
}
