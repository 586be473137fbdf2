// Reads simple statements: the first words tell which it is, and the words behind the first expressions what is done
// with them.
ghost use Rattle.std.specs.Prelude.{◌≡◌, ◌<◌, ◌≤◌, [], IfOk, length, map, option_map, codes};
ghost use Rattle.py_tree.specs.Tree.{trees};
ghost use Rattle.py_tree.specs.Seen.{tree};
ghost use Rattle.py_tree.specs.Steps.{Assign, Evaluate};
ghost use Rattle.py_tree.specs.Programs.{step_of, kind_step};
ghost use Rattle.py_grammar.specs.declared.word.Kind.TheVariants.{Expr as expr_kind};
ghost use Rattle.py_grammar.specs.Words.{next_sign};
ghost use Rattle.py_grammar.specs.Readers.{Reads, many, made, maybe, key, sign, ◌▹◌};
ghost use Rattle.py_grammar.specs.Reading.{inner};
ghost use Rattle.py_grammar.specs.Line_reading.{exprs, targets, returned, asserted, raised, is_one_target, assignment, annotation, augmentation, behind_first, by_first, simple};
ghost use Rattle.py_words.specs.Phrases.{seen_of, listed_of};
ghost use Rattle.py_parser.specs.Line_forms.{behind_of, one_more};

use crate::imports::read_import;
use amh_host::{NoMemory, Place};
use py_grammar::{Kind, Stop, Word};
use py_phrases::reader::{read_inner, read_items};
use py_tree::{Expr, Stmt, StmtKind};
use py_words::node::{lone, none_there, tuple};
use py_words::phrase::{Listed, Phrase};
use py_words::take::{
    augmented_next, begins_next, key_next, sign_next, take_augmented, take_key, take_sign,
};
use py_words::target::{are_targets, is_target};
use std::alloc::Global;

/// Expressions with a comma between each two.
#[tactic(auto, unfolding(py_grammar::specs::Line_reading::exprs))]
pub fn read_exprs(alloc: Global, words: &[Word], room: u32) -> Result<(Phrase, &[Word]), Stop>
    ensures reads { Reads (λ x. (seen_of x.0, x.1.now)) result (exprs (inner room) words.now) }
    ensures shorter { IfOk result (λ x. length x.1.now < length words.now) }
{
    let (first, others, rest) = read_items(alloc, words, Kind::Expr, room)?;
    Ok((tuple(alloc, first, others)?, rest))
}

/// Targets with a comma between each two.
#[tactic(auto, unfolding(py_grammar::specs::Line_reading::targets))]
pub fn read_targets(alloc: Global, words: &[Word], room: u32) -> Result<(Phrase, &[Word]), Stop>
    ensures reads { Reads (λ x. (seen_of x.0, x.1.now)) result (targets (inner room) words.now) }
    ensures shorter { IfOk result (λ x. length x.1.now < length words.now) }
{
    let (first, others, rest) = read_items(alloc, words, Kind::Target, room)?;
    Ok((tuple(alloc, first, others)?, rest))
}

/// A sign and an expression behind it, both of which may be left out.
pub fn read_behind<'a>(
    alloc: Global,
    words: &'a [Word],
    this: &str,
    room: u32,
) -> Result<(Option<(Place, Phrase)>, &'a [Word]), Stop>
    ensures reads { Reads (λ x. (option_map behind_of x.0, x.1.now)) result (maybe (next_sign this.now) (sign this.now ▹ inner room expr_kind) words.now) }
    ensures shorter { IfOk result (λ x. length x.1.now ≤ length words.now) }
{
    if !sign_next(words, this) {
        return Ok((None, words));
    }
    let (place, rest) = take_sign(words, this)?;
    let (e, rest) = read_inner(alloc, rest, Kind::Expr, room)?;
    Ok((Some((place, e)), rest))
}

/// The expression behind a sign.
pub fn expr_behind(part: Option<(Place, Phrase)>) -> Option<Expr>
    ensures { option_map tree result ≡ option_map (λ x. tree x.1.expr) part }
{
    match part {
        None => None,
        Some((_, e)) => Some(e.expr),
    }
}

#[tactic(auto, unfolding(py_grammar::specs::Line_reading::returned))]
fn read_return(alloc: Global, words: &[Word], room: u32) -> Result<(Stmt, &[Word]), Stop>
    ensures reads { Reads (λ x. (step_of x.0, x.1.now)) result (returned (inner room) words.now) }
    ensures shorter { IfOk result (λ x. length x.1.now < length words.now) }
{
    let (place, rest) = take_key(words, "return")?;
    if !begins_next(rest) {
        return Ok((Stmt::new(alloc, place, StmtKind::Return(None))?, rest));
    }
    let (e, rest) = read_exprs(alloc, rest, room)?;
    let kind = StmtKind::Return(Some(e.expr));
    Ok((Stmt::new(alloc, place, kind)?, rest))
}

#[tactic(auto, unfolding(py_grammar::specs::Line_reading::asserted))]
fn read_assert(alloc: Global, words: &[Word], room: u32) -> Result<(Stmt, &[Word]), Stop>
    ensures reads { Reads (λ x. (step_of x.0, x.1.now)) result (asserted (inner room) words.now) }
    ensures shorter { IfOk result (λ x. length x.1.now < length words.now) }
{
    let (place, rest) = take_key(words, "assert")?;
    let (test, rest) = read_inner(alloc, rest, Kind::Expr, room)?;
    let (message, rest) = read_behind(alloc, rest, ",", room)?;
    let kind = StmtKind::Assert(test.expr, expr_behind(message));
    Ok((Stmt::new(alloc, place, kind)?, rest))
}

#[tactic(auto, unfolding(py_grammar::specs::Line_reading::raised))]
fn read_raise(alloc: Global, words: &[Word], room: u32) -> Result<(Stmt, &[Word]), Stop>
    ensures reads { Reads (λ x. (step_of x.0, x.1.now)) result (raised (inner room) words.now) }
    ensures shorter { IfOk result (λ x. length x.1.now < length words.now) }
{
    let (place, rest) = take_key(words, "raise")?;
    let (e, rest) = read_inner(alloc, rest, Kind::Expr, room)?;
    Ok((Stmt::new(alloc, place, StmtKind::Raise(e.expr))?, rest))
}

/// Expressions with `=` before each, behind a first: those before the last, and the last.
#[tactic(auto, using(py_phrases::proofs::Loops::repeats))]
fn read_values(
    alloc: Global,
    first: Expr,
    words: &[Word],
    room: u32,
) -> Result<(Vec<Expr>, Expr, &[Word]), Stop>
    ensures reads { Reads (λ x. ((map tree x.0.items, tree x.1), x.2.now)) result (many (next_sign (codes "=")) (sign (codes "=") ▹ exprs (inner room)) one_more ([], tree first) words.now) }
    ensures shorter { IfOk result (λ x. length x.2.now ≤ length words.now) }
{
    let mut before = Vec::new(alloc);
    let mut last = first;
    let mut rest = words;
    for _turn in 0..words.len() {
        if !sign_next(rest, "=") {
            return Ok((before, last, rest));
        }
        let (_, after) = take_sign(rest, "=")?;
        let (next, after) = read_exprs(alloc, after, room)?;
        before.push(last)?;
        last = next.expr;
        rest = after;
    }
    Ok((before, last, rest))
}

fn evaluate(alloc: Global, place: Place, e: Expr) -> Result<Stmt, NoMemory>
    ensures { IfOk result (λ s. step_of s ≡ Evaluate place (tree e)) }
{
    Stmt::new(alloc, place, StmtKind::Evaluate(e))
}

fn assign(alloc: Global, place: Place, targets: Vec<Expr>, value: Expr) -> Result<Stmt, NoMemory>
    ensures { IfOk result (λ s. step_of s ≡ Assign place (trees (map tree targets.items)) (tree value)) }
{
    Stmt::new(alloc, place, StmtKind::Assign(targets, value))
}

/// What is assigned to the first expressions, or those alone.
fn read_assignment(
    alloc: Global,
    first: Phrase,
    words: &[Word],
    room: u32,
) -> Result<(Stmt, &[Word]), Stop>
    ensures reads { Reads (λ x. (step_of x.0, x.1.now)) result (assignment (inner room) (seen_of first) words.now) }
    ensures shorter { IfOk result (λ x. length x.1.now ≤ length words.now) }
{
    let place = first.place;
    let (targets, value, rest) = read_values(alloc, first.expr, words, room)?;
    if none_there(&targets) {
        return Ok((evaluate(alloc, place, value)?, rest));
    }
    if !are_targets(targets.as_slice()) {
        return Err(Stop::Unread);
    }
    Ok((assign(alloc, place, targets, value)?, rest))
}

/// A colon and an annotation, and perhaps a value, behind a target.
#[tactic(auto, unfolding(py_grammar::specs::Line_reading::annotation))]
fn read_annotation(
    alloc: Global,
    target: Phrase,
    words: &[Word],
    room: u32,
) -> Result<(Stmt, &[Word]), Stop>
    ensures reads { Reads (λ x. (step_of x.0, x.1.now)) result (annotation (inner room) (seen_of target) words.now) }
    ensures shorter { IfOk result (λ x. length x.1.now ≤ length words.now) }
{
    let place = target.place;
    let target = target.expr;
    let (_, rest) = take_sign(words, ":")?;
    let (annotation, rest) = read_inner(alloc, rest, Kind::Expr, room)?;
    let annotation = annotation.expr;
    if !sign_next(rest, "=") {
        let kind = StmtKind::Annotate {
            target,
            annotation,
            value: None,
        };
        return Ok((Stmt::new(alloc, place, kind)?, rest));
    }
    let (_, rest) = take_sign(rest, "=")?;
    let (value, rest) = read_exprs(alloc, rest, room)?;
    let kind = StmtKind::Annotate {
        target,
        annotation,
        value: Some(value.expr),
    };
    Ok((Stmt::new(alloc, place, kind)?, rest))
}

/// An operator with `=`, and a value, behind a target.
#[tactic(auto, unfolding(py_grammar::specs::Line_reading::augmentation))]
fn read_augmentation(
    alloc: Global,
    target: Phrase,
    words: &[Word],
    room: u32,
) -> Result<(Stmt, &[Word]), Stop>
    ensures reads { Reads (λ x. (step_of x.0, x.1.now)) result (augmentation (inner room) (seen_of target) words.now) }
    ensures shorter { IfOk result (λ x. length x.1.now ≤ length words.now) }
{
    let place = target.place;
    let ((_, operator), rest) = take_augmented(words)?;
    let (value, rest) = read_exprs(alloc, rest, room)?;
    let kind = StmtKind::Augment(target.expr, operator, value.expr);
    Ok((Stmt::new(alloc, place, kind)?, rest))
}

/// Whether they are one target, with no comma.
fn is_one_target(first: &Phrase, others: &Listed<Expr>) -> bool
    ensures { result ≡ is_one_target (seen_of first.now, listed_of tree others.now) }
{
    lone(others) && is_target(&first.expr)
}

/// What is done with the first expressions.
#[tactic(auto, unfolding(py_grammar::specs::Line_reading::behind_first))]
fn read_behind_first(
    alloc: Global,
    first: Phrase,
    others: Listed<Expr>,
    words: &[Word],
    room: u32,
) -> Result<(Stmt, &[Word]), Stop>
    ensures reads { Reads (λ x. (step_of x.0, x.1.now)) result (behind_first (inner room) (seen_of first, listed_of tree others) words.now) }
    ensures shorter { IfOk result (λ x. length x.1.now ≤ length words.now) }
{
    let one_target = is_one_target(&first, &others);
    if sign_next(words, ":") {
        let (stmt, rest) = read_annotation(alloc, first, words, room)?;
        return if one_target {
            Ok((stmt, rest))
        } else {
            Err(Stop::Unread)
        };
    }
    if augmented_next(words) {
        let (stmt, rest) = read_augmentation(alloc, first, words, room)?;
        return if one_target {
            Ok((stmt, rest))
        } else {
            Err(Stop::Unread)
        };
    }
    let first = tuple(alloc, first, others)?;
    read_assignment(alloc, first, words, room)
}

#[tactic(auto, unfolding(py_grammar::specs::Line_reading::by_first))]
fn read_by_first(alloc: Global, words: &[Word], room: u32) -> Result<(Stmt, &[Word]), Stop>
    ensures reads { Reads (λ x. (step_of x.0, x.1.now)) result (by_first (inner room) words.now) }
    ensures shorter { IfOk result (λ x. length x.1.now < length words.now) }
{
    let (first, others, rest) = read_items(alloc, words, Kind::Expr, room)?;
    read_behind_first(alloc, first, others, rest, room)
}

/// A keyword that is a statement.
fn read_lone<'a>(
    alloc: Global,
    words: &'a [Word],
    this: &str,
    kind: StmtKind,
) -> Result<(Stmt, &'a [Word]), Stop>
    ensures reads { Reads (λ x. (step_of x.0, x.1.now)) result (made (kind_step kind) (key this.now) words.now) }
    ensures shorter { IfOk result (λ x. length x.1.now < length words.now) }
{
    let (place, rest) = take_key(words, this)?;
    Ok((Stmt::new(alloc, place, kind)?, rest))
}

/// A simple statement.
#[tactic(auto, unfolding(py_grammar::specs::Line_reading::simple))]
pub fn read_simple(alloc: Global, words: &[Word], room: u32) -> Result<(Stmt, &[Word]), Stop>
    ensures reads { Reads (λ x. (step_of x.0, x.1.now)) result (simple (inner room) words.now) }
    ensures shorter { IfOk result (λ x. length x.1.now < length words.now) }
{
    if key_next(words, "pass") {
        return read_lone(alloc, words, "pass", StmtKind::Pass);
    }
    if key_next(words, "break") {
        return read_lone(alloc, words, "break", StmtKind::Break);
    }
    if key_next(words, "continue") {
        return read_lone(alloc, words, "continue", StmtKind::Continue);
    }
    if key_next(words, "return") {
        return read_return(alloc, words, room);
    }
    if key_next(words, "assert") {
        return read_assert(alloc, words, room);
    }
    if key_next(words, "raise") {
        return read_raise(alloc, words, room);
    }
    if key_next(words, "from") {
        return read_import(alloc, words);
    }
    read_by_first(alloc, words, room)
}
