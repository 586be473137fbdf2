// Lists of text.
ghost use Rattle.std.specs.Prelude.{◌≡◌, ℕ, List, [], ◌∷◌, ◌++◌, map, length, OnOk, OnErr, string_bytes};

use crate::items::NoMemory;
use std::alloc::Global;
use std::marker::Model;

/// A list of texts: the words of a command line without the program's name, or names.
/// Contracts see the list of their bytes.
#[derive(Drop)]
pub struct Words {
    alloc: Global,
    items: Vec<String>,
}

/// A list of names.
pub type Names = Words;

impl Model for Words {
    ghost Value = { List (List ℕ) };

    ghost view = { λ w. map string_bytes w.items.items };
}

impl Words {
    /// The empty list, which takes no memory.
    pub fn new(alloc: Global) -> Self
        ensures { result ≡ [] }
    {
        Words {
            alloc,
            items: Vec::new(alloc),
        }
    }

    /// Adds a word at the end.
    pub fn push(&mut self, word: &str) -> Result<(), NoMemory>
        ensures ok { OnOk result (self.new ≡ self.old ++ word.now ∷ []) }
        ensures err { OnErr result (self.new ≡ self.old) }
    {
        let Ok(word) = String::from_str(self.alloc, word) else {
            return Err(NoMemory);
        };
        match self.items.push(word) {
            Ok(()) => Ok(()),
            Err(_) => Err(NoMemory),
        }
    }

    /// How many words there are.
    pub fn len(&self) -> usize
        ensures { result ≡ length self.now }
    {
        self.items.len()
    }

    /// The words, in order.
    pub fn items(&self) -> &[String]
        ensures { map string_bytes result.now ≡ self.now }
    {
        self.items.as_slice()
    }
}
