// Reads the heads of compound statements, each up to its colon. Parameters, and the arguments of a class, stand in one
// bracket more than what else stands there: `wide` is the room of the others, and `room` theirs.
ghost use Rattle.std.specs.Prelude.{◌≡◌, ◌<◌, ◌≤◌, IfOk, length, map, is_some, option_map, codes, ◌||◌};
ghost use Rattle.py_tree.specs.Seen.{tree, trailer_of};
ghost use Rattle.py_tree.specs.Programs.{parameter_of};
ghost use Rattle.py_grammar.specs.declared.word.Kind.TheVariants.{Expr as expr_kind, Target as target_kind};
ghost use Rattle.py_grammar.specs.Words.{next_sign, next_key};
ghost use Rattle.py_grammar.specs.Readers.{Reads, made, maybe, key, sign, ◌▹◌};
ghost use Rattle.py_grammar.specs.Reading.{inner};
ghost use Rattle.py_grammar.specs.Shapes.{if_seen, elif_seen, else_seen, while_seen, all_params};
ghost use Rattle.py_grammar.specs.Line_reading.{definition, bases_read, class_head, with_head, for_head, tested, head, head_next};
ghost use Rattle.py_words.specs.Phrases.{seen_of, deep_of};
ghost use Rattle.py_parser.specs.Line_forms.{behind_of, head_of};

use crate::line::Head;
use crate::params::read_inside;
use crate::simple::{expr_behind, read_behind, read_exprs, read_targets};
use amh_host::Place;
use py_grammar::{Kind, Stop, Word};
use py_phrases::reader::{read_call, read_inner};
use py_tree::{Param, Trailer};
use py_words::phrase::{Deep, Phrase};
use py_words::take::{key_next, sign_next, take_key, take_name, take_sign};
use std::alloc::Global;

/// A keyword, an expression and a colon.
fn read_tested<'a>(
    alloc: Global,
    words: &'a [Word],
    this: &str,
    room: u32,
) -> Result<((Place, Phrase, Place), &'a [Word]), Stop>
    ensures reads { Reads (λ x. ((x.0.0, (seen_of x.0.1, x.0.2)), x.1.now)) result ((key this.now ▹ (inner room expr_kind ▹ sign (codes ":"))) words.now) }
    ensures shorter { IfOk result (λ x. length x.1.now < length words.now) }
{
    let (place, rest) = take_key(words, this)?;
    let (test, rest) = read_inner(alloc, rest, Kind::Expr, room)?;
    let (colon, rest) = take_sign(rest, ":")?;
    Ok(((place, test, colon), rest))
}

#[tactic(auto, unfolding(py_grammar::specs::Line_reading::tested))]
fn read_if(alloc: Global, words: &[Word], room: u32) -> Result<(Head, &[Word]), Stop>
    ensures reads { Reads (λ x. (head_of x.0, x.1.now)) result (tested (codes "if") if_seen (inner room) words.now) }
    ensures shorter { IfOk result (λ x. length x.1.now < length words.now) }
{
    let ((place, test, _), rest) = read_tested(alloc, words, "if", room)?;
    Ok((Head::If(place, test.expr), rest))
}

#[tactic(auto, unfolding(py_grammar::specs::Line_reading::tested))]
fn read_elif(alloc: Global, words: &[Word], room: u32) -> Result<(Head, &[Word]), Stop>
    ensures reads { Reads (λ x. (head_of x.0, x.1.now)) result (tested (codes "elif") elif_seen (inner room) words.now) }
    ensures shorter { IfOk result (λ x. length x.1.now < length words.now) }
{
    let ((place, test, _), rest) = read_tested(alloc, words, "elif", room)?;
    Ok((Head::Elif(place, test.expr), rest))
}

#[tactic(auto, unfolding(py_grammar::specs::Line_reading::tested))]
fn read_while(alloc: Global, words: &[Word], room: u32) -> Result<(Head, &[Word]), Stop>
    ensures reads { Reads (λ x. (head_of x.0, x.1.now)) result (tested (codes "while") while_seen (inner room) words.now) }
    ensures shorter { IfOk result (λ x. length x.1.now < length words.now) }
{
    let ((place, test, _), rest) = read_tested(alloc, words, "while", room)?;
    Ok((Head::While(place, test.expr), rest))
}

fn read_else(words: &[Word]) -> Result<(Head, &[Word]), Stop>
    ensures reads { Reads (λ x. (head_of x.0, x.1.now)) result (made else_seen (key (codes "else") ▹ sign (codes ":")) words.now) }
    ensures shorter { IfOk result (λ x. length x.1.now < length words.now) }
{
    let (place, rest) = take_key(words, "else")?;
    let (_, rest) = take_sign(rest, ":")?;
    Ok((Head::Else(place), rest))
}

#[tactic(auto, unfolding(py_grammar::specs::Line_reading::for_head))]
fn read_for(alloc: Global, words: &[Word], room: u32) -> Result<(Head, &[Word]), Stop>
    ensures reads { Reads (λ x. (head_of x.0, x.1.now)) result (for_head (inner room) words.now) }
    ensures shorter { IfOk result (λ x. length x.1.now < length words.now) }
{
    let (place, rest) = take_key(words, "for")?;
    let (targets, rest) = read_targets(alloc, rest, room)?;
    let (_, rest) = take_key(rest, "in")?;
    let (source, rest) = read_exprs(alloc, rest, room)?;
    let (_, rest) = take_sign(rest, ":")?;
    let head = Head::For {
        place,
        targets: targets.expr,
        source: source.expr,
    };
    Ok((head, rest))
}

/// `as` and a target, which may both be left out.
fn read_as(
    alloc: Global,
    words: &[Word],
    room: u32,
) -> Result<(Option<(Place, Phrase)>, &[Word]), Stop>
    ensures reads { Reads (λ x. (option_map behind_of x.0, x.1.now)) result (maybe (next_key (codes "as")) (key (codes "as") ▹ inner room target_kind) words.now) }
    ensures shorter { IfOk result (λ x. length x.1.now ≤ length words.now) }
{
    if !key_next(words, "as") {
        return Ok((None, words));
    }
    let (place, rest) = take_key(words, "as")?;
    let (target, rest) = read_inner(alloc, rest, Kind::Target, room)?;
    Ok((Some((place, target)), rest))
}

#[tactic(auto, unfolding(py_grammar::specs::Line_reading::with_head))]
fn read_with(alloc: Global, words: &[Word], room: u32) -> Result<(Head, &[Word]), Stop>
    ensures reads { Reads (λ x. (head_of x.0, x.1.now)) result (with_head (inner room) words.now) }
    ensures shorter { IfOk result (λ x. length x.1.now < length words.now) }
{
    let (place, rest) = take_key(words, "with")?;
    let (context, rest) = read_inner(alloc, rest, Kind::Expr, room)?;
    let (target, rest) = read_as(alloc, rest, room)?;
    let (_, rest) = take_sign(rest, ":")?;
    let head = Head::With {
        place,
        context: context.expr,
        target: expr_behind(target),
    };
    Ok((head, rest))
}

/// The arguments of a class, which may be left out with their brackets.
#[tactic(auto, using(crate::proofs::Runs::bases_call))]
fn read_bases(
    alloc: Global,
    words: &[Word],
    room: u32,
) -> Result<(Option<Deep<Trailer>>, &[Word]), Stop>
    ensures reads { Reads (λ x. (option_map (deep_of trailer_of) x.0, x.1.now)) result (maybe (next_sign (codes "(")) (bases_read (inner room)) words.now) }
    ensures shorter { IfOk result (λ x. length x.1.now ≤ length words.now) }
{
    if !sign_next(words, "(") {
        return Ok((None, words));
    }
    let (arguments, rest) = read_call(alloc, words, room)?;
    Ok((Some(arguments), rest))
}

fn trailer_alone(part: Option<Deep<Trailer>>) -> Option<Trailer>
    ensures { option_map trailer_of result ≡ option_map (λ x. trailer_of x.item) part }
{
    match part {
        None => None,
        Some(trailer) => Some(trailer.item),
    }
}

#[tactic(auto, unfolding(py_grammar::specs::Line_reading::class_head))]
fn read_class(alloc: Global, words: &[Word], room: u32) -> Result<(Head, &[Word]), Stop>
    ensures reads { Reads (λ x. (head_of x.0, x.1.now)) result (class_head (inner room) words.now) }
    ensures shorter { IfOk result (λ x. length x.1.now < length words.now) }
{
    let (place, rest) = take_key(words, "class")?;
    let ((_, name), rest) = take_name(rest)?;
    let (bases, rest) = read_bases(alloc, rest, room)?;
    let arguments = trailer_alone(bases);
    match take_sign(rest, ":") {
        Ok((_, rest)) => {
            let head = Head::Class {
                place,
                name,
                arguments,
            };
            Ok((head, rest))
        }
        Err(stop) => {
            drop(arguments);
            Err(stop)
        }
    }
}

/// `async`, which may be left out.
fn take_async(words: &[Word]) -> Result<(Option<Place>, &[Word]), Stop>
    ensures reads { Reads (λ x. (x.0, x.1.now)) result (maybe (next_key (codes "async")) (key (codes "async")) words.now) }
    ensures shorter { IfOk result (λ x. length x.1.now ≤ length words.now) }
{
    if !key_next(words, "async") {
        return Ok((None, words));
    }
    let (place, rest) = take_key(words, "async")?;
    Ok((Some(place), rest))
}

/// The parameters in brackets, of which there may be none.
fn or_no_params(alloc: Global, params: Option<Vec<Param>>) -> Vec<Param>
    ensures { map parameter_of result.items ≡ all_params (option_map (λ v. map parameter_of v.items) params) }
{
    match params {
        None => Vec::new(alloc),
        Some(params) => params,
    }
}

#[tactic(auto, unfolding(py_grammar::specs::Line_reading::definition))]
fn read_definition(
    alloc: Global,
    words: &[Word],
    wide: u32,
    room: u32,
) -> Result<(Head, &[Word]), Stop>
    ensures reads { Reads (λ x. (head_of x.0, x.1.now)) result (definition (inner wide) (inner room) words.now) }
    ensures shorter { IfOk result (λ x. length x.1.now < length words.now) }
{
    let (first, rest) = take_async(words)?;
    let (def, rest) = take_key(rest, "def")?;
    let ((_, name), rest) = take_name(rest)?;
    let (_, rest) = take_sign(rest, "(")?;
    let (params, rest) = read_inside(alloc, rest, room)?;
    let (_, rest) = take_sign(rest, ")")?;
    let (result, rest) = read_behind(alloc, rest, "->", wide)?;
    let (_, rest) = take_sign(rest, ":")?;
    let head = Head::Def {
        place: first.unwrap_or(def),
        name,
        is_async: first.is_some(),
        params: or_no_params(alloc, params),
        result: expr_behind(result),
    };
    Ok((head, rest))
}

/// The head of a compound statement.
#[tactic(auto, unfolding(py_grammar::specs::Line_reading::head))]
pub fn read_head(
    alloc: Global,
    words: &[Word],
    wide: u32,
    room: u32,
) -> Result<(Head, &[Word]), Stop>
    ensures reads { Reads (λ x. (head_of x.0, x.1.now)) result (head (inner wide) (inner room) words.now) }
    ensures shorter { IfOk result (λ x. length x.1.now < length words.now) }
{
    if key_next(words, "if") {
        return read_if(alloc, words, wide);
    }
    if key_next(words, "elif") {
        return read_elif(alloc, words, wide);
    }
    if key_next(words, "else") {
        return read_else(words);
    }
    if key_next(words, "while") {
        return read_while(alloc, words, wide);
    }
    if key_next(words, "for") {
        return read_for(alloc, words, wide);
    }
    if key_next(words, "with") {
        return read_with(alloc, words, wide);
    }
    if key_next(words, "class") {
        return read_class(alloc, words, room);
    }
    read_definition(alloc, words, wide, room)
}

/// Whether a head comes next.
#[tactic(auto, unfolding(py_grammar::specs::Line_reading::head_next))]
pub fn head_next(words: &[Word]) -> bool
    ensures { result ≡ head_next words.now }
{
    key_next(words, "if")
        || key_next(words, "elif")
        || key_next(words, "else")
        || key_next(words, "while")
        || key_next(words, "for")
        || key_next(words, "with")
        || key_next(words, "class")
        || key_next(words, "async")
        || key_next(words, "def")
}
