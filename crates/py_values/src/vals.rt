// Lists of values.
ghost use Rattle.std.specs.Prelude.{◌≡◌, ◌++◌, ◌∷◌, [], ◌<◌, ◌≤◌, length, OnOk, OnErr, Some, slice_get, slice_set, insert, remove, reverse, IfOk};

use crate::val::Val;
use lists::NoMemory;
use std::alloc::Global;
use std::marker::Model;

/// A list of values, which contracts see as that list.
#[derive(Drop)]
pub struct Vals {
    items: Vec<Val>,
}

impl Model for Vals {
    ghost use Rattle.std.specs.Prelude.{List};
    ghost use Rattle.py_values.specs.declared.val.Val.{Val};

    ghost Value = { List Val };

    ghost view = { λ a. a.items.items };
}

impl Vals {
    /// The empty list, which takes no memory.
    pub fn new(alloc: Global) -> Vals
        ensures { result ≡ [] }
    {
        Vals {
            items: Vec::new(alloc),
        }
    }

    /// Adds a value at the end.
    pub fn push(&mut self, item: Val) -> Result<(), NoMemory>
        ensures ok { OnOk result (self.new ≡ self.old ++ item ∷ []) }
        ensures err { OnErr result (self.new ≡ self.old) }
    {
        match self.items.push(item) {
            Ok(()) => Ok(()),
            Err(_) => Err(NoMemory),
        }
    }

    /// How many values there are.
    pub fn len(&self) -> usize
        ensures { result ≡ length self.now }
    {
        self.items.len()
    }

    /// The value at a place, counted from 0.
    pub fn get(&self, i: usize) -> &Val
        requires { i < length self.now }
        ensures { slice_get self.now i ≡ Some result.now }
    {
        &self.items[i]
    }

    /// All values, in order.
    pub fn as_slice(&self) -> &[Val]
        ensures { result.now ≡ self.now }
    {
        self.items.as_slice()
    }

    /// Adds values at the end.
    pub fn extend(&mut self, items: &[Val]) -> Result<(), NoMemory>
        ensures ok { OnOk result (self.new ≡ self.old ++ items.now) }
        ensures err { OnErr result (self.new ≡ self.old) }
    {
        match self.items.extend_from_slice(items) {
            Ok(()) => Ok(()),
            Err(_) => Err(NoMemory),
        }
    }

    /// Adds two values at the end, or none.
    pub fn push_pair(&mut self, first: Val, second: Val) -> Result<(), NoMemory>
        ensures ok { OnOk result (self.new ≡ self.old ++ first ∷ second ∷ []) }
        ensures err { OnErr result (self.new ≡ self.old) }
    {
        match self.items.extend_from_slice(&[first, second]) {
            Ok(()) => Ok(()),
            Err(_) => Err(NoMemory),
        }
    }

    /// Puts a value in the place of another.
    pub fn set(&mut self, i: usize, item: Val)
        requires { i < length self.old }
        ensures { self.new ≡ slice_set self.old i item }
    {
        self.items[i] = item;
    }

    /// Puts a value before the one at a place.
    pub fn insert(&mut self, i: usize, item: Val) -> Result<(), NoMemory>
        requires { i ≤ length self.old }
        ensures ok { OnOk result (self.new ≡ insert self.old i item) }
        ensures err { OnErr result (self.new ≡ self.old) }
    {
        match self.items.insert(i, item) {
            Ok(()) => Ok(()),
            Err(_) => Err(NoMemory),
        }
    }

    /// Takes the value at a place out.
    pub fn remove(&mut self, i: usize) -> Val
        requires { i < length self.old }
        ensures taken { slice_get self.old i ≡ Some result }
        ensures rest { self.new ≡ remove self.old i }
    {
        self.items.remove(i)
    }

    /// The same values from the last to the first.
    pub fn reversed(alloc: Global, items: &[Val]) -> Result<Vals, NoMemory>
        ensures { IfOk result (λ v. v ≡ reverse items.now) }
    {
        match items.iter().rev().copied().collect(alloc) {
            Ok(items) => Ok(Vals { items }),
            Err(_) => Err(NoMemory),
        }
    }
}
