// The line of an answer, as it grows.
ghost use Rattle.std.specs.Prelude.{◌≡◌, [], ◌++◌, None, Ok, IfOk, IsSome, codes, string_bytes};
ghost use Rattle.std.specs.Fmt.{decimal};
ghost use Rattle.table_text.specs.Lines.{Adds, AddsSpelled};

use crate::spelling::spelled;
use crate::stop::Stop;
use amh_host::Place;
use std::alloc::Global;

/// A text to which words are added, and why it is not told, once there is a reason. Who adds to it need not look whether
/// that came to pass: `whole` tells it.
#[derive(Drop)]
pub struct Line {
    pub text: String,
    pub stop: Option<Stop>,
    alloc: Global,
}

impl Line {
    /// The empty line.
    pub fn new(alloc: Global) -> Line
        ensures text { string_bytes result.text ≡ [] }
        ensures stop { result.stop ≡ None }
    {
        Line {
            text: String::new(alloc),
            stop: None,
            alloc,
        }
    }

    /// The line is not told, for this reason unless there was one before.
    pub fn give_up(&mut self, why: Stop)
        ensures text { string_bytes self.new.text ≡ string_bytes self.old.text }
        ensures stop { IsSome self.new.stop }
    {
        if self.stop.is_none() {
            self.stop = Some(why);
        }
    }

    /// Adds a text as it is.
    pub fn word(&mut self, word: &str)
        ensures { Adds self.old word.now self.new }
    {
        if self.text.push_str(word).is_err() {
            self.give_up(Stop::NoMemory);
        }
    }

    /// Adds the digits of a number.
    pub fn number(&mut self, number: u128)
        ensures { Adds self.old (decimal number) self.new }
    {
        if write!(self.text, "{number}").is_err() {
            self.give_up(Stop::NoMemory);
        }
    }

    /// Adds a place, as line and column.
    pub fn place(&mut self, place: Place)
        ensures { Adds self.old (decimal place.line ++ (codes ":" ++ decimal place.col)) self.new }
    {
        self.number(place.line as u128);
        self.word(":");
        self.number(place.col as u128);
    }

    /// Adds bytes in escapes.
    pub fn spelled(&mut self, bytes: &[u8])
        ensures { AddsSpelled self.old bytes.now self.new }
    {
        match spelled(self.alloc, bytes) {
            Ok(text) => self.word(text.as_str()),
            Err(_) => self.give_up(Stop::NoMemory),
        }
    }

    /// Adds a text that is told, or is not.
    pub fn told(&mut self, told: Result<String, Stop>)
        ensures { IfOk told (λ text. Adds self.old (string_bytes text) self.new) }
    {
        match told {
            Ok(text) => self.word(text.as_str()),
            Err(why) => self.give_up(why),
        }
    }

    /// The text, or why it is not told.
    pub fn whole(self) -> Result<String, Stop>
        ensures { self.stop ≡ None → result ≡ Ok self.text }
    {
        let Line { text, stop, .. } = self;
        match stop {
            None => Ok(text),
            Some(why) => Err(why),
        }
    }
}
