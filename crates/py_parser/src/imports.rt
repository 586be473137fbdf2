// What `from` imports.
ghost use Rattle.std.specs.Prelude.{◌<◌, ◌≤◌, [], IfOk, length, map, option_map, codes};
ghost use Rattle.py_tree.specs.Programs.{step_of, import_of};
ghost use Rattle.py_grammar.specs.Words.{name_of, next_sign};
ghost use Rattle.py_grammar.specs.Readers.{Reads, many, made, one, sign, ◌▹◌};
ghost use Rattle.py_grammar.specs.Reading.{comma_then};
ghost use Rattle.py_grammar.specs.Line_reading.{and_then, dotted, name_next, import_name, names, imports, import};
ghost use Rattle.py_parser.specs.Line_forms.{second, name_behind};

use py_grammar::{Stop, Word};
use py_tree::{Imported, Name, Stmt, StmtKind};
use py_words::node::with_first;
use py_words::take::{comma_name, key_next, sign_next, take_comma, take_key, take_name, take_sign};
use std::alloc::Global;

/// Names with a dot before each.
#[tactic(auto, using(py_phrases::proofs::Loops::repeats))]
fn read_dots(alloc: Global, words: &[Word]) -> Result<(Vec<Name>, &[Word]), Stop>
    ensures reads { Reads (λ x. (x.0.items, x.1.now)) result (many (next_sign (codes ".")) (made name_behind (sign (codes ".") ▹ one name_of)) and_then [] words.now) }
    ensures shorter { IfOk result (λ x. length x.1.now ≤ length words.now) }
{
    let mut path = Vec::new(alloc);
    let mut rest = words;
    for _turn in 0..words.len() {
        if !sign_next(rest, ".") {
            return Ok((path, rest));
        }
        let (_, after) = take_sign(rest, ".")?;
        let ((_, name), after) = take_name(after)?;
        path.push(name)?;
        rest = after;
    }
    Ok((path, rest))
}

/// Names with a dot between each two.
fn read_dotted(alloc: Global, words: &[Word]) -> Result<(Vec<Name>, &[Word]), Stop>
    ensures reads { Reads (λ x. (x.0.items, x.1.now)) result (dotted words.now) }
    ensures shorter { IfOk result (λ x. length x.1.now < length words.now) }
{
    let ((_, first), rest) = take_name(words)?;
    let (others, rest) = read_dots(alloc, rest)?;
    Ok((with_first(others, first)?, rest))
}

/// A name, and the one that it is bound to.
#[tactic(auto, unfolding(py_grammar::specs::Line_reading::import_name))]
fn read_import_name(words: &[Word]) -> Result<(Imported, &[Word]), Stop>
    ensures reads { Reads (λ x. (import_of x.0, x.1.now)) result (import_name words.now) }
    ensures shorter { IfOk result (λ x. length x.1.now < length words.now) }
{
    let ((place, name), rest) = take_name(words)?;
    if !key_next(rest, "as") {
        let bound = None;
        return Ok((Imported { place, name, bound }, rest));
    }
    let (_, rest) = take_key(rest, "as")?;
    let ((_, bound), rest) = take_name(rest)?;
    let bound = Some(bound);
    Ok((Imported { place, name, bound }, rest))
}

#[tactic(auto, using(py_phrases::proofs::Loops::repeats))]
fn read_other_names(alloc: Global, words: &[Word]) -> Result<(Vec<Imported>, &[Word]), Stop>
    ensures reads { Reads (λ x. (map import_of x.0.items, x.1.now)) result (many (comma_then name_next) (made second (sign (codes ",") ▹ import_name)) and_then [] words.now) }
    ensures shorter { IfOk result (λ x. length x.1.now ≤ length words.now) }
{
    let mut names = Vec::new(alloc);
    let mut rest = words;
    for _turn in 0..words.len() {
        if !comma_name(rest) {
            return Ok((names, rest));
        }
        let (_, after) = take_sign(rest, ",")?;
        let (name, after) = read_import_name(after)?;
        names.push(name)?;
        rest = after;
    }
    Ok((names, rest))
}

/// Names with a comma between each two.
fn read_names(alloc: Global, words: &[Word]) -> Result<(Vec<Imported>, &[Word]), Stop>
    ensures reads { Reads (λ x. (map import_of x.0.items, x.1.now)) result (names words.now) }
    ensures shorter { IfOk result (λ x. length x.1.now < length words.now) }
{
    let (first, rest) = read_import_name(words)?;
    let (others, rest) = read_other_names(alloc, rest)?;
    Ok((with_first(others, first)?, rest))
}

/// The names that are imported, or none where all are.
#[tactic(auto, unfolding(py_grammar::specs::Line_reading::imports))]
fn read_imports(alloc: Global, words: &[Word]) -> Result<(Option<Vec<Imported>>, &[Word]), Stop>
    ensures reads { Reads (λ x. (option_map (λ v. map import_of v.items) x.0, x.1.now)) result (imports words.now) }
    ensures shorter { IfOk result (λ x. length x.1.now < length words.now) }
{
    if sign_next(words, "*") {
        let (_, rest) = take_sign(words, "*")?;
        return Ok((None, rest));
    }
    if !sign_next(words, "(") {
        let (names, rest) = read_names(alloc, words)?;
        return Ok((Some(names), rest));
    }
    let (_, rest) = take_sign(words, "(")?;
    let (names, rest) = read_names(alloc, rest)?;
    let (_, rest) = take_comma(rest)?;
    let (_, rest) = take_sign(rest, ")")?;
    Ok((Some(names), rest))
}

/// `from` a path `import` names.
#[tactic(auto, unfolding(py_grammar::specs::Line_reading::import))]
pub fn read_import(alloc: Global, words: &[Word]) -> Result<(Stmt, &[Word]), Stop>
    ensures reads { Reads (λ x. (step_of x.0, x.1.now)) result (import words.now) }
    ensures shorter { IfOk result (λ x. length x.1.now < length words.now) }
{
    let (place, rest) = take_key(words, "from")?;
    let (path, rest) = read_dotted(alloc, rest)?;
    let (_, rest) = take_key(rest, "import")?;
    let (names, rest) = read_imports(alloc, rest)?;
    let kind = match names {
        None => StmtKind::ImportAll(path),
        Some(names) => StmtKind::Import(path, names),
    };
    Ok((Stmt::new(alloc, place, kind)?, rest))
}
