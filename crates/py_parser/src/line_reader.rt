// Whole logical lines: a simple statement, or a head and perhaps a simple statement behind it.
ghost use Rattle.std.specs.Prelude.{◌≡◌, ◌+◌, ◌-◌, ◌^◌, ◌<◌, ◌≤◌, IfOk, length, take, not, option_map};
ghost use Rattle.py_tree.specs.Programs.{step_of};
ghost use Rattle.py_grammar.specs.Readers.{Reads, maybe};
ghost use Rattle.py_grammar.specs.Seen.{is_empty};
ghost use Rattle.py_grammar.specs.Reading.{inner};
ghost use Rattle.py_grammar.specs.Shapes.{awaits};
ghost use Rattle.py_grammar.specs.Line_reading.{simple, head, noting, headed, line, line_of};
ghost use Rattle.py_parser.specs.Line_forms.{noted_of, head_of, form_of};

use crate::head::{head_next, read_head};
use crate::line::{Head, LineForm, Noted};
use crate::simple::read_simple;
use py_grammar::{Stop, Word};
use py_tree::Stmt;
use py_words::take::key_is;
use std::alloc::Global;

fn some_await(words: &[Word]) -> bool
    ensures { result ≡ awaits words.now }
{
    for word in words {
        if key_is(&word.mark, "await") {
            return true;
        }
    }
    false
}

/// Whether `await` stands among the words before the rest.
fn await_before(words: &[Word], rest: &[Word]) -> bool
    requires { length rest.now ≤ length words.now }
    ensures { result ≡ awaits (take (length words.now - length rest.now) words.now) }
{
    some_await(&words[..words.len() - rest.len()])
}

fn read_noted_simple(
    alloc: Global,
    words: &[Word],
    wide: u32,
) -> Result<(Noted<Stmt>, &[Word]), Stop>
    ensures { Reads (λ x. (noted_of step_of x.0, x.1.now)) result (noting (simple (inner wide)) words.now) }
{
    let (item, rest) = read_simple(alloc, words, wide)?;
    let awaits = await_before(words, rest);
    Ok((Noted { item, awaits }, rest))
}

fn read_noted_head(
    alloc: Global,
    words: &[Word],
    wide: u32,
    room: u32,
) -> Result<(Noted<Head>, &[Word]), Stop>
    ensures { Reads (λ x. (noted_of head_of x.0, x.1.now)) result (noting (head (inner wide) (inner room)) words.now) }
{
    let (item, rest) = read_head(alloc, words, wide, room)?;
    let awaits = await_before(words, rest);
    Ok((Noted { item, awaits }, rest))
}

/// The simple statement behind a head, where there is one.
fn read_rest(
    alloc: Global,
    words: &[Word],
    wide: u32,
) -> Result<(Option<Noted<Stmt>>, &[Word]), Stop>
    ensures { Reads (λ x. (option_map (noted_of step_of) x.0, x.1.now)) result (maybe (λ ws. not (is_empty ws)) (noting (simple (inner wide))) words.now) }
{
    match words {
        [] => Ok((None, words)),
        [_, ..] => {
            let (stmt, rest) = read_noted_simple(alloc, words, wide)?;
            Ok((Some(stmt), rest))
        }
    }
}

#[tactic(auto, unfolding(py_grammar::specs::Line_reading::headed))]
fn read_headed(
    alloc: Global,
    words: &[Word],
    wide: u32,
    room: u32,
) -> Result<(LineForm, &[Word]), Stop>
    ensures { Reads (λ x. (form_of x.0, x.1.now)) result (headed (inner wide) (inner room) words.now) }
{
    let (head, rest) = read_noted_head(alloc, words, wide, room)?;
    match read_rest(alloc, rest, wide) {
        Ok((behind, rest)) => Ok((LineForm::Headed(head, behind), rest)),
        Err(stop) => {
            drop(head);
            Err(stop)
        }
    }
}

#[tactic(auto, unfolding(py_grammar::specs::Line_reading::line))]
fn read_form(
    alloc: Global,
    words: &[Word],
    wide: u32,
    room: u32,
) -> Result<(LineForm, &[Word]), Stop>
    ensures { Reads (λ x. (form_of x.0, x.1.now)) result (line (inner wide) (inner room) words.now) }
{
    if head_next(words) {
        return read_headed(alloc, words, wide, room);
    }
    let (stmt, rest) = read_noted_simple(alloc, words, wide)?;
    Ok((LineForm::Simple(stmt), rest))
}

/// What all words of a logical line say, within so many brackets, and one less in the parameters of a function and
/// the arguments of a class.
#[tactic(auto, unfolding(py_grammar::specs::Line_reading::line_of))]
pub fn read_line(alloc: Global, words: &[Word], room: u32) -> Result<LineForm, Stop>
    requires { room + 1 < 2 ^ 32 }
    ensures { Reads form_of result (line_of room words.now) }
{
    let (form, rest) = read_form(alloc, words, room + 1, room)?;
    match rest {
        [] => Ok(form),
        [_, ..] => {
            drop(form);
            Err(Stop::Unread)
        }
    }
}
