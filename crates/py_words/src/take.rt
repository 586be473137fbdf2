// What comes next, and what a single word is.
ghost use Rattle.std.specs.Prelude.{◌≡◌, ◌<◌, ◌≤◌, ℕ, Bool, length, IfOk, is_some, ◌||◌, ◌&&◌, ◌==◌, not, Some, option_map, codes, if◌then◌else◌};
ghost use Rattle.py_grammar.specs.Words.{name_of, keyword_of, sign_of, number_of, decimal_of, string_of, format_of, is_text, next, next_sign, next_key, valued};
ghost use Rattle.py_grammar.specs.Values.{constant_of, unary_of, term_of, sum_of, shift_of, comparison_of, only, sign_at, key_at};
ghost use Rattle.py_grammar.specs.Readers.{Reads, one, sign, key, maybe};
ghost use Rattle.py_grammar.specs.Reading.{begins_mark, begins, begins_argument, opens, leads, is_named, trails, starts_worded, is_operator, comma_then, amount};
ghost use Rattle.py_grammar.specs.Line_reading.{name_next, param_next, augmented_next};
ghost use Rattle.py_grammar.specs.Shapes.{augmented_of};

use amh_host::Place;
use py_grammar::{Mark, Stop, Word};
use py_tree::{Amount, Constant, Decimal, Name, Operator, Pieces, Sign};

fn sign_is(mark: &Mark, this: &str) -> bool
    ensures { result ≡ is_text this.now (sign_of mark.now) }
{
    match mark {
        Mark::Sign(text) => text.is(this),
        _ => false,
    }
}

/// Whether it is this keyword.
pub fn key_is(mark: &Mark, this: &str) -> bool
    ensures { result ≡ is_text this.now (keyword_of mark.now) }
{
    match mark {
        Mark::Keyword(text) => text.is(this),
        _ => false,
    }
}

/// Whether this sign comes next.
pub fn sign_next(words: &[Word], this: &str) -> bool
    ensures { result ≡ next_sign this.now words.now }
{
    match words {
        [] => false,
        [word, ..] => sign_is(&word.mark, this),
    }
}

/// Whether this keyword comes next.
pub fn key_next(words: &[Word], this: &str) -> bool
    ensures { result ≡ next_key this.now words.now }
{
    match words {
        [] => false,
        [word, ..] => key_is(&word.mark, this),
    }
}

/// The place of this sign, which stands first, and what follows it.
pub fn take_sign<'a>(words: &'a [Word], this: &str) -> Result<(Place, &'a [Word]), Stop>
    ensures reads { Reads (λ x. (x.0, x.1.now)) result (sign this.now words.now) }
    ensures shorter { IfOk result (λ x. length x.1.now < length words.now) }
{
    match words {
        [] => Err(Stop::Unread),
        [word, rest @ ..] => {
            if sign_is(&word.mark, this) {
                Ok((word.place, rest))
            } else {
                Err(Stop::Unread)
            }
        }
    }
}

/// The place of this keyword, which stands first, and what follows it.
pub fn take_key<'a>(words: &'a [Word], this: &str) -> Result<(Place, &'a [Word]), Stop>
    ensures reads { Reads (λ x. (x.0, x.1.now)) result (key this.now words.now) }
    ensures shorter { IfOk result (λ x. length x.1.now < length words.now) }
{
    match words {
        [] => Err(Stop::Unread),
        [word, rest @ ..] => {
            if key_is(&word.mark, this) {
                Ok((word.place, rest))
            } else {
                Err(Stop::Unread)
            }
        }
    }
}

/// A name, which stands first, with its place.
pub fn take_name(words: &[Word]) -> Result<((Place, Name), &[Word]), Stop>
    ensures reads { Reads (λ x. (x.0, x.1.now)) result (one name_of words.now) }
    ensures shorter { IfOk result (λ x. length x.1.now < length words.now) }
{
    match words {
        [
            Word {
                mark: Mark::Name(text),
                place,
            },
            rest @ ..,
        ] => Ok(((*place, text.share()?), rest)),
        _ => Err(Stop::Unread),
    }
}

/// The constant of this text.
pub fn constant(text: &Name) -> Option<Constant>
    ensures { result ≡ constant_of text.now }
{
    if text.is("None") {
        return Some(Constant::Nothing);
    }
    if text.is("True") {
        return Some(Constant::True);
    }
    if text.is("False") {
        return Some(Constant::False);
    }
    None
}

/// The sign before one operand that has this text.
pub fn unary(text: &Name) -> Option<Sign>
    ensures { result ≡ unary_of text.now }
{
    if text.is("-") {
        return Some(Sign::Minus);
    }
    if text.is("+") {
        return Some(Sign::Plus);
    }
    if text.is("~") {
        return Some(Sign::Invert);
    }
    None
}

/// A sign before one operand, which stands first, with its place.
pub fn take_unary(words: &[Word]) -> Result<((Place, Sign), &[Word]), Stop>
    ensures reads { Reads (λ x. (x.0, x.1.now)) result (one (valued sign_of unary_of) words.now) }
    ensures shorter { IfOk result (λ x. length x.1.now < length words.now) }
{
    match words {
        [] => Err(Stop::Unread),
        [word, rest @ ..] => match unary_mark(&word.mark) {
            Some(sign) => Ok(((word.place, sign), rest)),
            None => Err(Stop::Unread),
        },
    }
}

fn unary_mark(mark: &Mark) -> Option<Sign>
    ensures { result ≡ valued sign_of unary_of mark.now }
{
    match mark {
        Mark::Sign(text) => unary(text),
        _ => None,
    }
}

/// The operator of this sign of an augmented assignment.
fn augmented(text: &Name) -> Option<Operator>
    ensures { result ≡ augmented_of text.now }
{
    if text.is("+=") {
        return Some(Operator::Add);
    }
    if text.is("-=") {
        return Some(Operator::Sub);
    }
    if text.is("*=") {
        return Some(Operator::Mul);
    }
    if text.is("//=") {
        return Some(Operator::FloorDiv);
    }
    if text.is("%=") {
        return Some(Operator::Mod);
    }
    if text.is("&=") {
        return Some(Operator::BitAnd);
    }
    if text.is("|=") {
        return Some(Operator::BitOr);
    }
    if text.is("^=") {
        return Some(Operator::BitXor);
    }
    if text.is("<<=") {
        return Some(Operator::ShiftLeft);
    }
    if text.is(">>=") {
        return Some(Operator::ShiftRight);
    }
    None
}

fn augmented_mark(mark: &Mark) -> Option<Operator>
    ensures { result ≡ valued sign_of augmented_of mark.now }
{
    match mark {
        Mark::Sign(text) => augmented(text),
        _ => None,
    }
}

/// The operator of an augmented assignment, whose sign stands first, with its place.
pub fn take_augmented(words: &[Word]) -> Result<((Place, Operator), &[Word]), Stop>
    ensures reads { Reads (λ x. (x.0, x.1.now)) result (one (valued sign_of augmented_of) words.now) }
    ensures shorter { IfOk result (λ x. length x.1.now < length words.now) }
{
    match words {
        [] => Err(Stop::Unread),
        [word, rest @ ..] => match augmented_mark(&word.mark) {
            Some(operator) => Ok(((word.place, operator), rest)),
            None => Err(Stop::Unread),
        },
    }
}

/// Whether the sign of an augmented assignment comes next.
#[tactic(auto, unfolding(py_grammar::specs::Line_reading::augmented_next))]
pub fn augmented_next(words: &[Word]) -> bool
    ensures { result ≡ augmented_next words.now }
{
    match words {
        [] => false,
        [word, ..] => augmented_mark(&word.mark).is_some(),
    }
}

/// Whether a sign before one operand comes next.
pub fn unary_next(words: &[Word]) -> bool
    ensures { result ≡ next (λ m. is_some (valued sign_of unary_of m)) words.now }
{
    match words {
        [] => false,
        [word, ..] => unary_mark(&word.mark).is_some(),
    }
}

fn sign_opens(text: &Name) -> bool
    ensures { result ≡ opens text.now }
{
    text.is("(") || text.is("[") || text.is("{") || unary(text).is_some()
}

fn key_leads(text: &Name) -> bool
    ensures { result ≡ leads text.now }
{
    text.is("not") || text.is("await") || constant(text).is_some()
}

#[tactic(auto, unfolding(py_grammar::specs::Reading::begins_mark))]
fn mark_begins(mark: &Mark) -> bool
    ensures { result ≡ begins_mark mark.now }
{
    match mark {
        Mark::Name(_) | Mark::Number(_) | Mark::Decimal(_) | Mark::Str(_) | Mark::Format(_) => true,
        Mark::Keyword(text) => key_leads(text),
        Mark::Sign(text) => sign_opens(text),
        Mark::Other => false,
    }
}

/// Whether an expression can begin with what comes next.
#[tactic(auto, unfolding(py_grammar::specs::Reading::begins))]
pub fn begins_next(words: &[Word]) -> bool
    ensures { result ≡ begins words.now }
{
    match words {
        [] => false,
        [word, ..] => mark_begins(&word.mark),
    }
}

/// Whether an argument can begin with what comes next.
#[tactic(auto, unfolding(py_grammar::specs::Reading::begins_argument))]
pub fn argument_next(words: &[Word]) -> bool
    ensures { result ≡ begins_argument words.now }
{
    sign_next(words, "*") || begins_next(words)
}

/// Whether a comma comes next, and an expression can begin behind it.
#[tactic(auto, unfolding(py_grammar::specs::Reading::comma_then))]
pub fn comma_begins(words: &[Word]) -> bool
    ensures { result ≡ comma_then begins words.now }
{
    match words {
        [] => false,
        [_, rest @ ..] => sign_next(words, ",") && begins_next(rest),
    }
}

/// Whether a comma comes next, and an argument can begin behind it.
#[tactic(auto, unfolding(py_grammar::specs::Reading::comma_then))]
pub fn comma_argument(words: &[Word]) -> bool
    ensures { result ≡ comma_then begins_argument words.now }
{
    match words {
        [] => false,
        [_, rest @ ..] => sign_next(words, ",") && argument_next(rest),
    }
}

/// Whether a name comes next.
#[tactic(auto, unfolding(py_grammar::specs::Line_reading::name_next))]
pub fn name_next(words: &[Word]) -> bool
    ensures { result ≡ name_next words.now }
{
    match words {
        [] => false,
        [word, ..] => matches!(word.mark, Mark::Name(_)),
    }
}

/// Whether a comma comes next, and a name behind it.
#[tactic(auto, unfolding(py_grammar::specs::Reading::comma_then))]
pub fn comma_name(words: &[Word]) -> bool
    ensures { result ≡ comma_then name_next words.now }
{
    match words {
        [] => false,
        [_, rest @ ..] => sign_next(words, ",") && name_next(rest),
    }
}

#[tactic(auto, unfolding(py_grammar::specs::Line_reading::param_next))]
fn param_next(words: &[Word]) -> bool
    ensures { result ≡ param_next words.now }
{
    sign_next(words, "*") || name_next(words)
}

/// Whether a comma comes next, and a parameter can begin behind it.
#[tactic(auto, unfolding(py_grammar::specs::Reading::comma_then))]
pub fn comma_param(words: &[Word]) -> bool
    ensures { result ≡ comma_then param_next words.now }
{
    match words {
        [] => false,
        [_, rest @ ..] => sign_next(words, ",") && param_next(rest),
    }
}

/// Whether a name and `=` come next.
#[tactic(auto, unfolding(py_grammar::specs::Reading::is_named))]
pub fn named_next(words: &[Word]) -> bool
    ensures { result ≡ is_named words.now }
{
    match words {
        [] => false,
        [word, rest @ ..] => matches!(word.mark, Mark::Name(_)) && sign_next(rest, "="),
    }
}

/// Whether a primary goes on.
#[tactic(auto, unfolding(py_grammar::specs::Reading::trails))]
pub fn trail_next(words: &[Word]) -> bool
    ensures { result ≡ trails words.now }
{
    sign_next(words, ".") || sign_next(words, "(") || sign_next(words, "[")
}

/// A comma, which may be left out.
pub fn take_comma(words: &[Word]) -> Result<(Option<Place>, &[Word]), Stop>
    ensures reads { Reads (λ x. (x.0, x.1.now)) result (maybe (next_sign (codes ",")) (sign (codes ",")) words.now) }
    ensures shorter { IfOk result (λ x. length x.1.now ≤ length words.now) }
{
    if sign_next(words, ",") {
        let (comma, rest) = take_sign(words, ",")?;
        return Ok((Some(comma), rest));
    }
    Ok((None, words))
}

/// A whole number, which stands first, with its place.
pub fn take_number(words: &[Word]) -> Result<((Place, u128), &[Word]), Stop>
    ensures reads { Reads (λ x. (x.0, x.1.now)) result (one number_of words.now) }
    ensures shorter { IfOk result (λ x. length x.1.now < length words.now) }
{
    match words {
        [
            Word {
                mark: Mark::Number(n),
                place,
            },
            rest @ ..,
        ] => Ok(((*place, *n), rest)),
        _ => Err(Stop::Unread),
    }
}

/// A decimal, which stands first, with its place.
pub fn take_decimal(words: &[Word]) -> Result<((Place, Decimal), &[Word]), Stop>
    ensures reads { Reads (λ x. (x.0, x.1.now)) result (one decimal_of words.now) }
    ensures shorter { IfOk result (λ x. length x.1.now < length words.now) }
{
    match words {
        [
            Word {
                mark: Mark::Decimal(d),
                place,
            },
            rest @ ..,
        ] => Ok(((*place, *d), rest)),
        _ => Err(Stop::Unread),
    }
}

/// Whether a whole number comes next.
pub fn number_next(words: &[Word]) -> bool
    ensures { result ≡ next (λ m. is_some (number_of m)) words.now }
{
    match words {
        [] => false,
        [word, ..] => matches!(word.mark, Mark::Number(_)),
    }
}

/// A whole number or a decimal, which stands first.
#[tactic(auto, unfolding(py_grammar::specs::Reading::amount))]
pub fn take_amount(words: &[Word]) -> Result<(Amount, &[Word]), Stop>
    ensures reads { Reads (λ x. (x.0, x.1.now)) result (amount words.now) }
    ensures shorter { IfOk result (λ x. length x.1.now < length words.now) }
{
    if number_next(words) {
        let ((_, n), rest) = take_number(words)?;
        return Ok((Amount::Number(n), rest));
    }
    let ((_, d), rest) = take_decimal(words)?;
    Ok((Amount::Decimal(d), rest))
}
