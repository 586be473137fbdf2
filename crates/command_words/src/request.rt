// What the words ask for.
ghost use Rattle.std.specs.Prelude.{◌≡◌, IfOk, IfSome, option_map};
ghost use Rattle.clap.specs.Words.{found_of, rows_of};
ghost use Rattle.command_words.specs.Request.{are_apart, asked, names_of, request_of, HoldsNumbers, IsGiven};
ghost use Rattle.command_words.specs.Views.{asked_seen};

use crate::command::command;
use clap::ArgMatches;
use clap::error::ErrorKind;
use lists::{NoMemory, Words};
use std::alloc::Global;

/// What the words of the command line ask for.
#[derive(Clone, Copy, Drop)]
pub struct Asked<'a> {
    /// The design file.
    pub design: &'a str,
    /// The file that gets the RTLIL text.
    pub il: &'a str,
    /// The file that gets the trace.
    pub trace: &'a str,
    /// The script that is played.
    pub play: Option<&'a str>,
    /// The name of the top in the design file.
    pub top: Option<&'a str>,
    /// How many units the evaluation may cost.
    pub budget: u64,
    /// How many registers the design has that is made first.
    pub make: Option<u16>,
}

// Whether no two of the names of files are one.
fn are_apart(asked: &Asked<'_>) -> bool
    ensures { result ≡ are_apart (names_of (asked_seen asked.now)) }
{
    let (design, il, trace) = (asked.design, asked.il, asked.trace);
    let outputs = design != il && design != trace && il != trace;
    match asked.play {
        Some(play) => outputs && design != play && il != play && trace != play,
        None => outputs,
    }
}

// What the matches of the command hold.
fn asked_in<'a>(matches: &ArgMatches<'a>) -> Asked<'a>
    requires numbers { HoldsNumbers (rows_of (found_of matches.now)) }
    ensures { asked_seen result ≡ request_of (rows_of (found_of matches.now)) }
{
    Asked {
        design: matches.get_str("DESIGN").unwrap_or(""),
        il: matches.get_str("IL").unwrap_or(""),
        trace: matches.get_str("TRACE").unwrap_or(""),
        play: matches.get_str("play"),
        top: matches.get_str("top"),
        budget: matches.get_one::<u64>("budget").unwrap_or(10_000_000),
        make: matches.get_one::<u16>("make"),
    }
}

/// What the words, without the program's name, ask for: `None` where they are not of the command, or name one file twice.
pub fn read_words<'a>(alloc: Global, words: &'a Words) -> Result<Option<Asked<'a>>, NoMemory>
    ensures value { IfOk result (λ a. option_map asked_seen a ≡ asked words.now) }
    ensures given { IfOk result (λ a. IfSome a (λ s. IsGiven words.now (asked_seen s))) }
{
    let command = command(alloc)?;
    match command.try_get_matches_from(words.items()) {
        Ok(matches) => {
            let asked = asked_in(&matches);
            Ok(if are_apart(&asked) { Some(asked) } else { None })
        }
        Err(error) => match error.kind() {
            ErrorKind::OutOfMemory => Err(NoMemory),
            _ => Ok(None),
        },
    }
}
