// Texts that several nodes of a tree may share.
ghost use Rattle.std.specs.Prelude.{◌≡◌, IfOk};
ghost use Rattle.lists.specs.Texts.{text_eq};

use amh_host::{Items, NoMemory, Text};
use std::alloc::Global;
use std::marker::Model;
use std::rc::Rc;

/// A handle of a text, which contracts see as its bytes.
#[derive(Drop)]
pub struct Name {
    text: Rc<Text>,
}

impl Model for Name {
    ghost use Rattle.std.specs.Prelude.{List, ℕ};

    ghost Value = { List ℕ };

    ghost view = { λ a. a.text.value };
}

impl Name {
    /// The handle of this text.
    pub fn new(alloc: Global, text: Text) -> Result<Name, NoMemory>
        ensures { IfOk result (λ name. name ≡ text) }
    {
        match Rc::new(alloc, text) {
            Ok(text) => Ok(Name { text }),
            Err(_) => Err(NoMemory),
        }
    }

    /// One handle more of the same text.
    pub fn share(&self) -> Result<Name, NoMemory>
        ensures { IfOk result (λ name. name ≡ self.now) }
    {
        match self.text.clone() {
            Ok(text) => Ok(Name { text }),
            Err(_) => Err(NoMemory),
        }
    }

    /// The text.
    pub fn as_str(&self) -> &str
        ensures { result.now ≡ self.now }
    {
        self.text.as_str()
    }

    /// Whether it is this text.
    pub fn is(&self, this: &str) -> bool
        ensures { result ≡ text_eq self.now this.now }
    {
        self.text.is(this)
    }
}

/// A part of a format string: text, or the name between braces.
#[derive(Drop)]
pub enum Piece {
    Text(Name),
    Hole(Name),
}

/// A handle of the parts of a format string, which contracts see as their list.
#[derive(Drop)]
pub struct Pieces {
    items: Rc<Items<Piece>>,
}

impl Model for Pieces {
    ghost use Rattle.std.specs.Prelude.{List};
    ghost use Rattle.py_tree.specs.declared.name.Piece.{Piece};

    ghost Value = { List Piece };

    ghost view = { λ a. a.items.value };
}

impl Pieces {
    /// The handle of these parts.
    pub fn new(alloc: Global, items: Items<Piece>) -> Result<Pieces, NoMemory>
        ensures { IfOk result (λ pieces. pieces ≡ items) }
    {
        match Rc::new(alloc, items) {
            Ok(items) => Ok(Pieces { items }),
            Err(_) => Err(NoMemory),
        }
    }

    /// One handle more of the same parts.
    pub fn share(&self) -> Result<Pieces, NoMemory>
        ensures { IfOk result (λ pieces. pieces ≡ self.now) }
    {
        match self.items.clone() {
            Ok(items) => Ok(Pieces { items }),
            Err(_) => Err(NoMemory),
        }
    }

    /// The parts, in order.
    pub fn as_slice(&self) -> &[Piece]
        ensures { result.now ≡ self.now }
    {
        self.items.as_slice()
    }
}
