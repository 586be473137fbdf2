// Reads the parameters of functions.
ghost use Rattle.std.specs.Prelude.{◌≡◌, ◌<◌, false, ◌≤◌, [], IfOk, not, ◌&&◌, length, map, option_map, codes};
ghost use Rattle.std.specs.List.{list_any};
ghost use Rattle.py_tree.specs.Programs.{parameter_of};
ghost use Rattle.py_grammar.specs.Readers.{Reads, many, made, sign, ◌▹◌};
ghost use Rattle.py_grammar.specs.Seen.{is_empty};
ghost use Rattle.py_grammar.specs.Reading.{inner, comma_then, inside};
ghost use Rattle.py_grammar.specs.Shapes.{is_star, has_name, defaults_last, star_fits, names_differ, params_fit};
ghost use Rattle.py_grammar.specs.Line_reading.{and_then, commas, param, param_next, params};
ghost use Rattle.py_parser.specs.Line_forms.{second};

use crate::simple::{expr_behind, read_behind};
use py_grammar::{Stop, Word};
use py_tree::{Name, Param};
use py_words::node::with_first;
use py_words::take::{comma_param, sign_next, take_comma, take_name, take_sign};
use std::alloc::Global;

fn is_star(param: &Param) -> bool
    ensures { result ≡ is_star (parameter_of param.now) }
{
    match param {
        Param::Named { .. } => false,
        Param::Star(_) => true,
    }
}

fn has_name(param: &Param, this: &Name) -> bool
    ensures { result ≡ has_name this.now (parameter_of param.now) }
{
    match param {
        Param::Named { name, .. } => name.is(this.as_str()),
        Param::Star(_) => false,
    }
}

fn some_star(params: &[Param]) -> bool
    ensures { result ≡ list_any is_star (map parameter_of params.now) }
{
    for param in params {
        if is_star(param) {
            return true;
        }
    }
    false
}

fn some_name(params: &[Param], this: &Name) -> bool
    ensures { result ≡ list_any (has_name this.now) (map parameter_of params.now) }
{
    for param in params {
        if has_name(param, this) {
            return true;
        }
    }
    false
}

/// Whether those before the star that have no default stand before those that have one.
#[tactic(auto, using(py_words::proofs::Lists::present_there))]
fn defaults_last(params: &[Param]) -> bool
    ensures { result ≡ defaults_last false (map parameter_of params.now) }
{
    let mut last = false;
    for param in params {
        let Param::Named { default, .. } = param else {
            return true;
        };
        let this = default.is_some();
        if last && !this {
            return false;
        }
        last = this;
    }
    true
}

/// Whether something stands behind a star, and no other star.
fn star_is_lone(behind: &[Param]) -> bool
    ensures { result ≡ (not (is_empty (map parameter_of behind.now)) && not (list_any is_star (map parameter_of behind.now))) }
{
    match behind {
        [] => false,
        [_, ..] => !some_star(behind),
    }
}

/// Whether one star stands there at most, and something behind it.
fn star_fits(params: &[Param]) -> bool
    ensures { result ≡ star_fits (map parameter_of params.now) }
{
    for (index, param) in params.iter().enumerate() {
        if is_star(param) {
            return star_is_lone(&params[index + 1..]);
        }
    }
    true
}

/// Whether no name stands there twice.
fn names_differ(params: &[Param]) -> bool
    ensures { result ≡ names_differ (map parameter_of params.now) }
{
    for (index, param) in params.iter().enumerate() {
        if let Param::Named { name, .. } = param {
            if some_name(&params[index + 1..], name) {
                return false;
            }
        }
    }
    true
}

fn params_fit(params: &[Param]) -> bool
    ensures { result ≡ params_fit (map parameter_of params.now) }
{
    defaults_last(params) && star_fits(params) && names_differ(params)
}

/// A parameter with its annotation and its default, or a star.
#[tactic(auto, unfolding(py_grammar::specs::Line_reading::param))]
fn read_param(alloc: Global, words: &[Word], room: u32) -> Result<(Param, &[Word]), Stop>
    ensures reads { Reads (λ x. (parameter_of x.0, x.1.now)) result (param (inner room) words.now) }
    ensures shorter { IfOk result (λ x. length x.1.now < length words.now) }
{
    if sign_next(words, "*") {
        let (place, rest) = take_sign(words, "*")?;
        return Ok((Param::Star(place), rest));
    }
    let ((place, name), rest) = take_name(words)?;
    let (annotation, rest) = read_behind(alloc, rest, ":", room)?;
    let (default, rest) = read_behind(alloc, rest, "=", room)?;
    let param = Param::Named {
        place,
        name,
        annotation: expr_behind(annotation),
        default: expr_behind(default),
    };
    Ok((param, rest))
}

#[tactic(auto, using(py_phrases::proofs::Loops::repeats))]
fn read_other_params(
    alloc: Global,
    words: &[Word],
    room: u32,
) -> Result<(Vec<Param>, &[Word]), Stop>
    ensures reads { Reads (λ x. (map parameter_of x.0.items, x.1.now)) result (many (comma_then param_next) (made second (sign (codes ",") ▹ param (inner room))) and_then [] words.now) }
    ensures shorter { IfOk result (λ x. length x.1.now ≤ length words.now) }
{
    let mut params = Vec::new(alloc);
    let mut rest = words;
    for _turn in 0..words.len() {
        if !comma_param(rest) {
            return Ok((params, rest));
        }
        let (_, after) = take_sign(rest, ",")?;
        let (param, after) = read_param(alloc, after, room)?;
        params.push(param)?;
        rest = after;
    }
    Ok((params, rest))
}

/// Parameters with a comma between each two.
fn read_listed(alloc: Global, words: &[Word], room: u32) -> Result<(Vec<Param>, &[Word]), Stop>
    ensures reads { Reads (λ x. (map parameter_of x.0.items, x.1.now)) result (commas param_next (param (inner room)) words.now) }
    ensures shorter { IfOk result (λ x. length x.1.now < length words.now) }
{
    let (first, rest) = read_param(alloc, words, room)?;
    let (others, rest) = read_other_params(alloc, rest, room)?;
    Ok((with_first(others, first)?, rest))
}

/// Parameters that fit one another.
#[tactic(auto, unfolding(py_grammar::specs::Line_reading::params))]
fn read_params(alloc: Global, words: &[Word], room: u32) -> Result<(Vec<Param>, &[Word]), Stop>
    ensures reads { Reads (λ x. (map parameter_of x.0.items, x.1.now)) result (params (inner room) words.now) }
    ensures shorter { IfOk result (λ x. length x.1.now < length words.now) }
{
    let (params, rest) = read_listed(alloc, words, room)?;
    let (_, rest) = take_comma(rest)?;
    if params_fit(params.as_slice()) {
        Ok((params, rest))
    } else {
        Err(Stop::Unread)
    }
}

/// What stands in the brackets of a function.
pub fn read_inside(
    alloc: Global,
    words: &[Word],
    room: u32,
) -> Result<(Option<Vec<Param>>, &[Word]), Stop>
    ensures reads { Reads (λ x. (option_map (λ v. map parameter_of v.items) x.0, x.1.now)) result (inside (codes ")") (params (inner room)) words.now) }
    ensures shorter { IfOk result (λ x. length x.1.now ≤ length words.now) }
{
    if sign_next(words, ")") {
        return Ok((None, words));
    }
    let (params, rest) = read_params(alloc, words, room)?;
    Ok((Some(params), rest))
}
