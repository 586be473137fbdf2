// Names, each with its value.
ghost use Rattle.std.specs.Prelude.{◌≡◌, ◌<◌, ◌^◌, ◌++◌, ◌∷◌, [], length, position, slice_get, OnOk, OnErr, IfOk, Some, string_bytes};
ghost use Rattle.std.specs.List.{list_any};
ghost use Rattle.std.specs.Str.{bytes_eq};
ghost use Rattle.py_values.specs.Bindings.{by_bytes, bound_in, bound_to, is_among};

use crate::val::Val;
use amh_host::{Names, NoMemory};
use indexmap::IndexMap;
use std::alloc::Global;
use std::marker::Model;
use std::rc::Rc;

/// Names and their values, in order of first binding. Contracts see the list of pairs of a name's bytes and its value.
#[derive(Drop)]
pub struct Bindings {
    alloc: Global,
    // The first names, which are compared one by one: most scopes have no others.
    few: Vec<(String, Val)>,
    // The names behind them, which are found by their hash.
    more: IndexMap<String, Val>,
}

// How many names come first.
const FEW: usize = 8;

// How many names the map has at most: more have no room in memory.
const MOST: usize = 4_611_686_018_427_387_903;

impl Model for Bindings {
    ghost use Rattle.std.specs.Prelude.{List, ◌++◌, length};
    ghost use Rattle.py_values.specs.Bindings.{Binding, by_bytes, IsSplit};

    ghost Value = { List Binding };

    ghost view = { λ b. by_bytes (b.few.items ++ b.more.entries) };

    ghost invariant = { λ b. IsSplit (length b.few.items) (length b.more.entries) };
}

impl Bindings {
    /// No names, which takes no memory.
    pub fn new(alloc: Global) -> Bindings
        ensures { result ≡ [] }
    {
        Bindings {
            alloc,
            few: Vec::new(alloc),
            more: IndexMap::new(alloc),
        }
    }

    /// How many names there are.
    pub fn len(&self) -> usize
        ensures len { result ≡ length self.now }
        ensures small { result < 2 ^ 63 }
    {
        self.few.len() + self.more.len()
    }

    /// The name and the value at a place, counted from 0.
    pub fn at(&self, i: usize) -> (&str, Val)
        requires { i < length self.now }
        ensures { slice_get self.now i ≡ Some (result.0.now, result.1) }
    {
        match self.few.get(i) {
            Some((name, v)) => (name.as_str(), *v),
            None => entry_at(&self.more, i - self.few.len()),
        }
    }

    /// The value of a name.
    pub fn get(&self, name: &str) -> Option<Val>
        ensures { result ≡ bound_in name.now self.now }
    {
        match place_in(&self.few, name) {
            Some(i) => Some(self.few[i].1),
            None => value_in(&self.more, name),
        }
    }

    /// Binds a name: one that stands keeps its place, and a new one comes last.
    pub fn bind(&mut self, name: &str, v: Val) -> Result<(), NoMemory>
        ensures ok { OnOk result (self.new ≡ bound_to name.now v self.old) }
        ensures err { OnErr result (self.new ≡ self.old) }
    {
        match place_in(&self.few, name) {
            Some(i) => {
                self.few[i].1 = v;
                Ok(())
            }
            None if self.few.len() < FEW => add_name(self.alloc, &mut self.few, name, v),
            None => bind_in(self.alloc, &mut self.more, name, v),
        }
    }
}

// Where a name stands.
fn place_in(few: &[(String, Val)], name: &str) -> Option<usize>
    ensures { result ≡ position (λ e. bytes_eq name.now (string_bytes e.0)) few.now }
{
    few.iter().position(|(own, _)| is_name(own.as_str(), name))
}

// Whether a text is this name. Most that differ have another length.
fn is_name(own: &str, name: &str) -> bool
    ensures { result ≡ bytes_eq name.now own.now }
{
    own.len() == name.len() && name == own
}

// Puts a name behind the others.
fn add_name(alloc: Global, few: &mut Vec<(String, Val)>, name: &str, v: Val) -> Result<(), NoMemory>
    ensures ok { OnOk result (by_bytes few.new.items ≡ by_bytes few.old.items ++ (name.now, v) ∷ []) }
    ensures err { OnErr result (few.new.items ≡ few.old.items) }
{
    let Ok(name) = String::from_str(alloc, name) else {
        return Err(NoMemory);
    };
    match few.push((name, v)) {
        Ok(()) => Ok(()),
        Err(_) => Err(NoMemory),
    }
}

// The name and the value at a place of the map.
fn entry_at(more: &IndexMap<String, Val>, i: usize) -> (&str, Val)
    requires { i < length more.now.entries }
    ensures { slice_get (by_bytes more.now.entries) i ≡ Some (result.0.now, result.1) }
{
    match more.get_index(i) {
        Some((name, v)) => (name.as_str(), *v),
        None => ("", Val::None),
    }
}

// The value of a name in the map. An empty one needs no hash.
fn value_in(more: &IndexMap<String, Val>, name: &str) -> Option<Val>
    ensures { result ≡ bound_in name.now (by_bytes more.now.entries) }
{
    if more.is_empty() {
        return None;
    }
    more.get(name).copied()
}

// Binds a name in the map.
fn bind_in(
    alloc: Global,
    more: &mut IndexMap<String, Val>,
    name: &str,
    v: Val,
) -> Result<(), NoMemory>
    ensures ok { OnOk result (by_bytes more.new.entries ≡ bound_to name.now v (by_bytes more.old.entries)) }
    ensures err { OnErr result (more.new.entries ≡ more.old.entries) }
    ensures small { OnOk result (length more.new.entries < 2 ^ 62) }
{
    if more.len() >= MOST {
        return Err(NoMemory);
    }
    let Ok(name) = String::from_str(alloc, name) else {
        return Err(NoMemory);
    };
    match more.insert(name, v) {
        Ok(_) => Ok(()),
        Err(_) => Err(NoMemory),
    }
}

/// A handle of the names that the code of a scope binds, which contracts see as their list.
#[derive(Drop)]
pub struct OwnNames {
    names: Rc<Names>,
}

impl Model for OwnNames {
    ghost use Rattle.std.specs.Prelude.{List, ℕ};

    ghost Value = { List (List ℕ) };

    ghost view = { λ a. a.names.value };
}

impl OwnNames {
    /// The handle of these names.
    pub fn new(alloc: Global, names: Names) -> Result<OwnNames, NoMemory>
        ensures { IfOk result (λ own. own ≡ names) }
    {
        match Rc::new(alloc, names) {
            Ok(names) => Ok(OwnNames { names }),
            Err(_) => Err(NoMemory),
        }
    }

    /// One handle more of the same names.
    pub fn share(&self) -> Result<OwnNames, NoMemory>
        ensures { IfOk result (λ own. own ≡ self.now) }
    {
        match self.names.clone() {
            Ok(names) => Ok(OwnNames { names }),
            Err(_) => Err(NoMemory),
        }
    }

    /// Whether a name is one of them.
    pub fn has(&self, name: &str) -> bool
        ensures { result ≡ is_among name.now self.now }
    {
        has_name(self.names.items(), name)
    }
}

fn has_name(names: &[String], name: &str) -> bool
    ensures { result ≡ list_any (λ own. bytes_eq name.now (string_bytes own)) names.now }
{
    names.iter().any(|own| name == own.as_str())
}
