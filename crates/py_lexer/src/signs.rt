// Operators and delimiters.
ghost use Rattle.std.specs.Prelude.{◌≡◌, ◌<◌, ◌≤◌, IsTrue};
ghost use Rattle.py_lexer.specs.Signs.{is_in, opened_by, closed_by, is_sign_of_three, is_sign_of_two, is_sign_of_one, sign_width};

use crate::piece::Bracket;

/// The bracket that the character opens.
pub fn opened_by(c: char) -> Option<Bracket>
    ensures { result ≡ opened_by c }
{
    match c {
        '(' => Some(Bracket::Round),
        '[' => Some(Bracket::Square),
        '{' => Some(Bracket::Curly),
        _ => None,
    }
}

/// The bracket that the character closes.
pub fn closed_by(c: char) -> Option<Bracket>
    ensures { result ≡ closed_by c }
{
    match c {
        ')' => Some(Bracket::Round),
        ']' => Some(Bracket::Square),
        '}' => Some(Bracket::Curly),
        _ => None,
    }
}

// Whether the character is one of the text.
pub fn is_in(text: &[u8], c: char) -> bool
    ensures { result ≡ is_in text.now c }
{
    for b in text {
        if c == char::from(*b) {
            return true;
        }
    }
    false
}

fn is_sign_of_three(c: char, d: char, e: char) -> bool
    ensures value { result ≡ is_sign_of_three c d e }
    ensures first { IsTrue result → 0 < c }
    ensures second { IsTrue result → 0 < d }
    ensures third { IsTrue result → 0 < e }
{
    is_in(b"/<>", c) && d == c && e == '='
}

fn is_sign_of_two(c: char, d: char) -> bool
    ensures value { result ≡ is_sign_of_two c d }
    ensures first { IsTrue result → 0 < c }
    ensures second { IsTrue result → 0 < d }
{
    is_in(b"=!<>+-*%&|^", c) && d == '=' || is_in(b"/*<>", c) && d == c || c == '-' && d == '>'
}

fn is_sign_of_one(c: char) -> bool
    ensures value { result ≡ is_sign_of_one c }
    ensures first { IsTrue result → 0 < c }
{
    is_in(b",:.=<>+-*/%&|^~", c)
}

/// How many characters the longest sign takes that begins with these three, or 0.
#[tactic(auto, unfolding(crate::specs::Signs::sign_width))]
pub fn sign_width(c: char, d: char, e: char) -> usize
    ensures value { result ≡ sign_width c d e }
    ensures most { result ≤ 3 }
    ensures first { 0 < result → 0 < c }
    ensures second { 1 < result → 0 < d }
    ensures third { 2 < result → 0 < e }
{
    if is_sign_of_three(c, d, e) {
        3
    } else if is_sign_of_two(c, d) {
        2
    } else if is_sign_of_one(c) {
        1
    } else {
        0
    }
}
