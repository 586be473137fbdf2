// Characters, and marks behind them.
ghost use Rattle.std.specs.Prelude.{◌≡◌, ◌≤◌, ◌<◌, ◌+◌, ◌*◌, ◌^◌, length, drop, take, IfOk, slice_index};
ghost use Rattle.std.specs.Str.{chars};
ghost use Rattle.py_lexer.specs.Characters.{line_end, line_width, next, past, start};

use crate::piece::Mark;
use amh_host::{NoMemory, Place};
use std::alloc::Global;

/// The characters of a text.
pub fn all_chars(alloc: Global, text: &str) -> Result<Vec<char>, NoMemory>
    ensures { IfOk result (λ v. v.items ≡ chars text.now) }
{
    let mut all = Vec::new(alloc);
    for c in text.chars() {
        all.push(c)?;
    }
    Ok(all)
}

/// The character at a place, or NUL behind the last.
pub fn char_at(cs: &[char], i: usize) -> char
    ensures { result ≡ slice_index cs.now i }
{
    if i < cs.len() { cs[i] } else { '\0' }
}

/// The characters behind the first so many.
pub fn after(cs: &[char], n: usize) -> &[char]
    requires { n ≤ length cs.now }
    ensures { result.now ≡ drop n cs.now }
{
    &cs[n..]
}

/// The first so many characters.
pub fn front(cs: &[char], n: usize) -> &[char]
    requires { n ≤ length cs.now }
    ensures { result.now ≡ take n cs.now }
{
    &cs[..n]
}

/// How many characters end the line here.
pub fn line_end(cs: &[char]) -> usize
    ensures value { result ≡ line_end cs.now }
    ensures within { result ≤ length cs.now }
{
    match char_at(cs, 0) {
        '\n' => 1,
        '\r' if char_at(cs, 1) == '\n' => 2,
        _ => 0,
    }
}

/// How many characters stand before the end of the line.
#[tactic(auto, unfolding(crate::specs::Characters::line_width))]
pub fn line_width(cs: &[char]) -> usize
    ensures value { result ≡ line_width cs.now }
    ensures within { result ≤ length cs.now }
{
    for (i, _) in cs.iter().enumerate() {
        if line_end(after(cs, i)) > 0 {
            return i;
        }
    }
    cs.len()
}

/// Before the first character.
pub fn start() -> Mark
    ensures { result ≡ start }
{
    Mark {
        byte: 0,
        place: Place { line: 1, col: 1 },
    }
}

/// The mark behind a character.
pub fn next(mark: Mark, c: char) -> Mark
    requires byte { mark.byte < 2 ^ 31 }
    requires line { mark.place.line < 2 ^ 31 }
    requires col { mark.place.col < 2 ^ 31 }
    ensures value { result ≡ next mark c }
    ensures byte { result.byte ≤ mark.byte + 4 }
    ensures line { result.place.line ≤ mark.place.line + 1 }
    ensures col { result.place.col ≤ mark.place.col + 1 }
{
    let Place { line, col } = mark.place;
    Mark {
        byte: mark.byte + c.len_utf8() as u32,
        place: if c == '\n' {
            Place {
                line: line + 1,
                col: 1,
            }
        } else {
            Place { line, col: col + 1 }
        },
    }
}

/// The mark behind these characters.
#[tactic(auto, unfolding(crate::specs::Characters::past))]
pub fn past(mark: Mark, cs: &[char]) -> Mark
    requires byte { mark.byte + 4 * length cs.now < 2 ^ 31 }
    requires line { mark.place.line + length cs.now < 2 ^ 31 }
    requires col { mark.place.col + length cs.now < 2 ^ 31 }
    ensures value { result ≡ past mark cs.now }
    ensures byte { result.byte ≤ mark.byte + 4 * length cs.now }
    ensures line { result.place.line ≤ mark.place.line + length cs.now }
    ensures col { result.place.col ≤ mark.place.col + length cs.now }
{
    let mut at = mark;
    for c in cs {
        at = next(at, *c);
    }
    at
}
