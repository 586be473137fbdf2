// Operators between operands, by levels.
ghost use Rattle.std.specs.Prelude.{◌≡◌, ◌<◌, ◌≤◌, length, IfOk, is_some, ◌||◌, ◌&&◌, ◌==◌, Some, None, option_map};
ghost use Rattle.py_grammar.specs.Words.{keyword_of, sign_of, is_text, next, valued};
ghost use Rattle.py_grammar.specs.Values.{term_of, sum_of, shift_of, comparison_of, only, sign_at, key_at};
ghost use Rattle.py_grammar.specs.Readers.{Reads, one, sign, key, maybe, choose, made};
ghost use Rattle.py_grammar.specs.Reading.{starts_worded, is_operator, operator, worded, if_not};

use crate::take::{key_next, take_key};
use py_grammar::{Mark, Stop, Word};
use py_tree::{Name, Operator};

fn term(text: &Name) -> Option<Operator>
    ensures { result ≡ term_of text.now }
{
    if text.is("*") {
        return Some(Operator::Mul);
    }
    if text.is("//") {
        return Some(Operator::FloorDiv);
    }
    if text.is("%") {
        return Some(Operator::Mod);
    }
    None
}

fn sum(text: &Name) -> Option<Operator>
    ensures { result ≡ sum_of text.now }
{
    if text.is("+") {
        return Some(Operator::Add);
    }
    if text.is("-") {
        return Some(Operator::Sub);
    }
    None
}

fn shift(text: &Name) -> Option<Operator>
    ensures { result ≡ shift_of text.now }
{
    if text.is("<<") {
        return Some(Operator::ShiftLeft);
    }
    if text.is(">>") {
        return Some(Operator::ShiftRight);
    }
    None
}

fn comparison(text: &Name) -> Option<Operator>
    ensures { result ≡ comparison_of text.now }
{
    if text.is("<") {
        return Some(Operator::Less);
    }
    if text.is("<=") {
        return Some(Operator::LessEqual);
    }
    if text.is(">") {
        return Some(Operator::Greater);
    }
    if text.is(">=") {
        return Some(Operator::GreaterEqual);
    }
    if text.is("==") {
        return Some(Operator::Equal);
    }
    if text.is("!=") {
        return Some(Operator::NotEqual);
    }
    None
}

fn lone(text: &Name, this: &str, operator: Operator) -> Option<Operator>
    ensures { result ≡ only this.now operator text.now }
{
    if text.is(this) { Some(operator) } else { None }
}

/// The operator of a level that is this sign.
fn sign_of_level(k: u8, text: &Name) -> Option<Operator>
    ensures { result ≡ sign_at k text.now }
{
    match k {
        0 => term(text),
        1 => sum(text),
        2 => shift(text),
        3 => lone(text, "&", Operator::BitAnd),
        4 => lone(text, "^", Operator::BitXor),
        5 => lone(text, "|", Operator::BitOr),
        6 => comparison(text),
        _ => None,
    }
}

/// The operator of a level that is this keyword.
fn key_of_level(k: u8, text: &Name) -> Option<Operator>
    ensures { result ≡ key_at k text.now }
{
    match k {
        6 => lone(text, "in", Operator::In),
        7 => lone(text, "and", Operator::And),
        8 => lone(text, "or", Operator::Or),
        _ => None,
    }
}

fn sign_operator(k: u8, mark: &Mark) -> Option<Operator>
    ensures { result ≡ valued sign_of (sign_at k) mark.now }
{
    match mark {
        Mark::Sign(text) => sign_of_level(k, text),
        _ => None,
    }
}

fn key_operator(k: u8, mark: &Mark) -> Option<Operator>
    ensures { result ≡ valued keyword_of (key_at k) mark.now }
{
    match mark {
        Mark::Keyword(text) => key_of_level(k, text),
        _ => None,
    }
}

fn is_worded(mark: &Mark) -> bool
    ensures { result ≡ starts_worded mark.now }
{
    match mark {
        Mark::Keyword(text) => text.is("not") || text.is("is"),
        _ => false,
    }
}

fn mark_is_operator(k: u8, mark: &Mark) -> bool
    ensures { result ≡ (is_some (valued sign_of (sign_at k) mark.now) || is_some (valued keyword_of (key_at k) mark.now) || (k == 6 && starts_worded mark.now)) }
{
    sign_operator(k, mark).is_some()
        || key_operator(k, mark).is_some()
        || (k == 6 && is_worded(mark))
}

/// Whether an operator of this level comes next.
#[tactic(auto, unfolding(py_grammar::specs::Reading::is_operator))]
pub fn operator_next(words: &[Word], k: u8) -> bool
    ensures { result ≡ is_operator k words.now }
{
    match words {
        [] => false,
        [word, ..] => mark_is_operator(k, &word.mark),
    }
}

#[tactic(auto, unfolding(py_grammar::specs::Reading::worded))]
fn take_worded(words: &[Word]) -> Result<(Operator, &[Word]), Stop>
    ensures reads { Reads (λ x. (x.0, x.1.now)) result (worded words.now) }
    ensures shorter { IfOk result (λ x. length x.1.now < length words.now) }
{
    if key_next(words, "not") {
        let (_, rest) = take_key(words, "not")?;
        let (_, rest) = take_key(rest, "in")?;
        return Ok((Operator::NotIn, rest));
    }
    let (_, rest) = take_key(words, "is")?;
    if key_next(rest, "not") {
        let (_, rest) = take_key(rest, "not")?;
        return Ok((Operator::IsNot, rest));
    }
    Ok((Operator::Is, rest))
}

/// An operator of this level, which stands first.
#[tactic(auto, unfolding(py_grammar::specs::Reading::operator, py_grammar::specs::Reading::worded))]
pub fn take_operator(words: &[Word], k: u8) -> Result<(Operator, &[Word]), Stop>
    ensures reads { Reads (λ x. (x.0, x.1.now)) result (operator k words.now) }
    ensures shorter { IfOk result (λ x. length x.1.now < length words.now) }
{
    match words {
        [] => Err(Stop::Unread),
        [word, rest @ ..] => {
            if let Some(operator) = sign_operator(k, &word.mark) {
                return Ok((operator, rest));
            }
            if let Some(operator) = key_operator(k, &word.mark) {
                return Ok((operator, rest));
            }
            let (operator, rest) = take_worded(words)?;
            if k == 6 {
                Ok((operator, rest))
            } else {
                Err(Stop::Unread)
            }
        }
    }
}
