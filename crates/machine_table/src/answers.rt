// Answers of the table.
ghost use Rattle.std.specs.Prelude.{◌≡◌, MatchResult};
ghost use Rattle.py_frames.specs.declared.request.Cause.{Cause};
ghost use Rattle.machine_table.specs.Words.{word_of};

use crate::requests::Requests;
use crate::values::value_of;
use amh_host::Text;
use py_machine::{Answer, Cause, NamedVal, NamedVals};
use py_values::{Hw, Val, Vals};
use std::alloc::Global;
use table_text::{Stop, split_first, text_of, words_of};

/// What comes next: an answer, or a testbench that begins.
#[derive(Drop)]
pub enum Given {
    Answer(Answer),
    Bench { callee: Val, ctx: Hw },
}

/// What words stand for, behind these requests.
pub fn given_of(alloc: Global, requests: &Requests, spelled: &str) -> Result<Given, Stop> {
    let words = words_of(alloc, spelled)?;
    let Some((kind, rest)) = split_first(words.as_slice()) else {
        return Err(Stop::NoCase);
    };
    match (kind, rest) {
        ("bench", [callee, ctx]) => bench_of(value_of(requests, callee)?, value_of(requests, ctx)?),
        _ => Ok(Given::Answer(answer_of(alloc, requests, kind, rest)?)),
    }
}

// A testbench is called with a thing.
fn bench_of(callee: Val, ctx: Val) -> Result<Given, Stop> {
    match ctx {
        Val::Hw(ctx) => Ok(Given::Bench { callee, ctx }),
        _ => Err(Stop::NoCase),
    }
}

fn answer_of(
    alloc: Global,
    requests: &Requests,
    kind: &str,
    rest: &[&str],
) -> Result<Answer, Stop> {
    match (kind, rest) {
        ("begin", []) => Ok(Answer::Begin),
        ("give", [v]) => Ok(Answer::Give(value_of(requests, v)?)),
        ("text", [text]) => Ok(Answer::GiveText(text_named(alloc, text)?)),
        ("list", vals) => Ok(Answer::GiveList(values(alloc, requests, vals)?)),
        ("bind", names) => Ok(Answer::Bind(named_values(alloc, requests, names)?)),
        ("call", [callee, args @ ..]) => Ok(Answer::Call {
            callee: value_of(requests, callee)?,
            args: values(alloc, requests, args)?,
        }),
        ("through", [v]) => Ok(Answer::Through(value_of(requests, v)?)),
        ("refuse", [why]) => Ok(Answer::Refuse(cause_of(why)?)),
        _ => Err(Stop::NoCase),
    }
}

fn text_named(alloc: Global, spelled: &str) -> Result<Text, Stop> {
    let mut text = Text::new(alloc);
    text.push(text_of(alloc, spelled)?.as_str())?;
    Ok(text)
}

fn values(alloc: Global, requests: &Requests, words: &[&str]) -> Result<Vals, Stop> {
    let mut vals = Vals::new(alloc);
    for word in words {
        vals.push(value_of(requests, word)?)?;
    }
    Ok(vals)
}

// Names, each with its value behind it.
fn named_values(alloc: Global, requests: &Requests, words: &[&str]) -> Result<NamedVals, Stop> {
    let mut named = NamedVals::new(alloc);
    let mut rest = words;
    while let [name, v, behind @ ..] = rest {
        let name = text_named(alloc, name)?;
        let val = value_of(requests, v)?;
        named.push(NamedVal { name, val })?;
        rest = behind;
    }
    if rest.is_empty() {
        Ok(named)
    } else {
        Err(Stop::NoCase)
    }
}

fn cause_of(word: &str) -> Result<Cause, Stop>
    ensures { MatchResult result (λ why. word.now ≡ word_of why) (λ _. (why : Cause) → word.now ≡ word_of why → ⊥) }
{
    match word {
        "raised" => Ok(Cause::Raised),
        "width" => Ok(Cause::Width),
        "limit" => Ok(Cause::Limit),
        "assert" => Ok(Cause::Assert),
        "spent" => Ok(Cause::Spent),
        _ => Err(Stop::NoCase),
    }
}
