// Values, as text.

use py_heap::Frozen;
use py_machine::Machine;
use py_values::{Number, ObjId, Val};
use std::alloc::Global;
use table_text::Stop;

/// How many values a value may stand in, so that it is shown.
const DEEPEST: u32 = 7;

/// A text to which values are added.
#[derive(Drop)]
pub struct Shown<'a> {
    alloc: Global,
    machine: &'a Machine,
    frozen: &'a Frozen,
    text: String,
}

impl<'a> Shown<'a> {
    /// The empty text, for values of this machine.
    pub fn new(alloc: Global, machine: &'a Machine, frozen: &'a Frozen) -> Shown<'a> {
        Shown {
            alloc,
            machine,
            frozen,
            text: String::new(alloc),
        }
    }

    /// The text as it stands.
    pub fn into_text(self) -> String {
        let Shown { text, .. } = self;
        text
    }

    /// Adds a text as it is.
    pub fn word(&mut self, word: &str) -> Result<(), Stop> {
        Ok(self.text.push_str(word)?)
    }

    /// Adds a value.
    pub fn value(&mut self, v: Val) -> Result<(), Stop> {
        self.within(v, DEEPEST)
    }

    /// Adds values, with a comma between each two.
    pub fn values(&mut self, vals: &[Val]) -> Result<(), Stop> {
        self.listed(vals, DEEPEST)
    }

    // Adds a value that may have values in it so deep.
    #[cycle(shown)]
    fn within(&mut self, v: Val, depth: u32) -> Result<(), Stop> {
        if depth == 0 {
            return self.word("..");
        }
        match v {
            Val::List(o) => self.bracketed("[", o, "]", depth - 1),
            Val::Tuple(o) => self.tuple(o, depth - 1),
            Val::Dict(o) => self.dict(o, depth - 1),
            Val::Range(o) => self.range(o),
            Val::Class(o) => self.class(o, depth - 1),
            Val::Object(o) => self.object(o, depth - 1),
            _ => self.leaf(v),
        }
    }

    // Adds a value that has none in it.
    fn leaf(&mut self, v: Val) -> Result<(), Stop> {
        match v {
            Val::None => self.word("None"),
            Val::Bool(true) => self.word("True"),
            Val::Bool(false) => self.word("False"),
            Val::Int(n) => self.word(format!(in self.alloc; "{}", n.int())?.as_str()),
            Val::Time(t) => self.word(format!(in self.alloc; "{t}fs")?.as_str()),
            Val::Hw(h) => self.word(format!(in self.alloc; "#{}", h.0)?.as_str()),
            Val::Str(s) => self.quoted(self.machine.text(self.frozen, s)),
            _ => self.word("function"),
        }
    }

    /// Adds a text between quotes.
    pub fn quoted(&mut self, text: &str) -> Result<(), Stop> {
        self.word("'")?;
        for letter in text.chars() {
            match letter {
                '\'' => self.word("\\'")?,
                '\\' => self.word("\\\\")?,
                '\n' => self.word("\\n")?,
                '\t' => self.word("\\t")?,
                _ => self.text.push(letter)?,
            }
        }
        self.word("'")
    }

    fn items_of(&self, o: ObjId) -> &'a [Val] {
        self.machine.items(self.frozen, o)
    }

    // Adds values with a comma between each two.
    #[cycle(shown)]
    fn listed(&mut self, vals: &[Val], depth: u32) -> Result<(), Stop> {
        let mut between = "";
        for v in vals {
            self.word(between)?;
            self.within(*v, depth)?;
            between = ", ";
        }
        Ok(())
    }

    #[cycle(shown)]
    fn bracketed(&mut self, open: &str, o: ObjId, close: &str, depth: u32) -> Result<(), Stop> {
        self.word(open)?;
        self.listed(self.items_of(o), depth)?;
        self.word(close)
    }

    #[cycle(shown)]
    fn tuple(&mut self, o: ObjId, depth: u32) -> Result<(), Stop> {
        if self.items_of(o).len() == 1 {
            self.bracketed("(", o, ",)", depth)
        } else {
            self.bracketed("(", o, ")", depth)
        }
    }

    // Adds a dict, whose row has each key before its value.
    #[cycle(shown)]
    fn dict(&mut self, o: ObjId, depth: u32) -> Result<(), Stop> {
        self.word("{")?;
        let mut between = "";
        let mut rest = self.items_of(o);
        while let [key, v, behind @ ..] = rest {
            self.word(between)?;
            self.within(*key, depth)?;
            self.word(": ")?;
            self.within(*v, depth)?;
            between = ", ";
            rest = behind;
        }
        self.word("}")
    }

    // Adds a range; its step is left out where it is 1.
    fn range(&mut self, o: ObjId) -> Result<(), Stop> {
        let [first, end, step] = self.items_of(o) else {
            return Err(Stop::NoCase);
        };
        self.word("range(")?;
        self.leaf(*first)?;
        self.word(", ")?;
        self.leaf(*end)?;
        if *step != Val::Int(Number::of_u128(1)) {
            self.word(", ")?;
            self.leaf(*step)?;
        }
        self.word(")")
    }

    // Adds a class: its base, where there is one, and its attributes.
    #[cycle(shown)]
    fn class(&mut self, o: ObjId, depth: u32) -> Result<(), Stop> {
        let [base, rest @ ..] = self.items_of(o) else {
            return Err(Stop::NoCase);
        };
        self.word("class(")?;
        if *base != Val::None {
            self.within(*base, depth)?;
            self.word("; ")?;
        }
        self.attributes(rest, depth)?;
        self.word(")")
    }

    #[cycle(shown)]
    fn object(&mut self, o: ObjId, depth: u32) -> Result<(), Stop> {
        let [_, rest @ ..] = self.items_of(o) else {
            return Err(Stop::NoCase);
        };
        self.word("object(")?;
        self.attributes(rest, depth)?;
        self.word(")")
    }

    // Adds names, each with its value behind it.
    #[cycle(shown)]
    fn attributes(&mut self, row: &[Val], depth: u32) -> Result<(), Stop> {
        let mut between = "";
        let mut rest = row;
        while let [Val::Str(name), v, behind @ ..] = rest {
            self.word(between)?;
            self.word(self.machine.text(self.frozen, *name))?;
            self.word("=")?;
            self.within(*v, depth)?;
            between = ", ";
            rest = behind;
        }
        Ok(())
    }
}
