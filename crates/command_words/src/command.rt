// The command.
ghost use Rattle.std.specs.Prelude.{◌≡◌, false, IfOk};
ghost use Rattle.clap.specs.Words.{app_of, rule_of};
ghost use Rattle.command_words.specs.Command.{place, named, numbered, command};

use clap::builder::ValueParser;
use clap::{Arg, ArgAction, Command};
use lists::NoMemory;
use std::alloc::Global;

// A word that has to be given, at the next place.
fn place<'a>(alloc: Global, id: &'a str) -> Arg<'a>
    ensures rule { rule_of result ≡ place id.now }
    ensures local { result.global ≡ false }
{
    Arg::new(alloc, id).required(true).action(ArgAction::Set)
}

// An option with one value.
fn named<'a>(alloc: Global, id: &'a str) -> Arg<'a>
    ensures rule { rule_of result ≡ named id.now }
    ensures local { result.global ≡ false }
{
    Arg::new(alloc, id).long(id).action(ArgAction::Set)
}

// An option whose value is a number, from 1 to `most`.
fn numbered<'a>(alloc: Global, id: &'a str, most: u64) -> Arg<'a>
    ensures rule { rule_of result ≡ numbered id.now most }
    ensures local { result.global ≡ false }
{
    named(alloc, id).value_parser(ValueParser::unsigned(1, most))
}

/// The command, as `clap` takes it.
pub(crate) fn command<'a>(alloc: Global) -> Result<Command<'a>, NoMemory>
    ensures { IfOk result (λ c. app_of c ≡ command) }
{
    let bare = Command::new(alloc, "amh_tool")
        .no_binary_name(true)
        .disable_help_flag(true);
    let places = bare
        .arg(place(alloc, "DESIGN"))?
        .arg(place(alloc, "IL"))?
        .arg(place(alloc, "TRACE"))?;
    let texts = places.arg(named(alloc, "play"))?.arg(named(alloc, "top"))?;
    let numbers = texts
        .arg(numbered(alloc, "budget", 1_000_000_000))?
        .arg(numbered(alloc, "make", 1_000))?;
    Ok(numbers)
}
