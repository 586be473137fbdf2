// A row of values, whose first keys are found by an index.
ghost use Rattle.std.specs.Prelude.{◌≡◌, ◌++◌, ◌∷◌, [], ◌<◌, ◌*◌, ◌^◌, ◌≤◌, drop, insert, remove, slice_set, slice_get, Some, length, IfSome, OnOk, OnErr};
ghost use Rattle.py_heap.specs.Keys.{has_code, code_behind, codes_after, AddsAtMost};
ghost use Rattle.py_heap.specs.Members.{value_place};

use crate::codes::{Code, code_of};
use amh_host::NoMemory;
use indexmap::IndexSet;
use py_values::{Val, Vals};
use std::alloc::Global;
use std::marker::Model;

/// The values of a list, tuple, dict, range, class or object. Contracts see the list of them; beside them stand the
/// codes of the first keys, in their order, for the time that each is another one.
#[derive(Drop)]
pub(crate) struct Row {
    items: Vals,
    codes: IndexSet<Code>,
}

impl Model for Row {
    ghost use Rattle.std.specs.Prelude.{List};
    ghost use Rattle.py_values.specs.declared.val.Val.{Val};
    ghost use Rattle.py_heap.specs.Keys.{AreCoded};

    ghost Value = { List Val };

    ghost view = { λ r. r.items };

    ghost invariant = { λ r. AreCoded r.codes.keys r.items };
}

impl Row {
    /// The row of these values, with no index yet.
    pub(crate) fn of(alloc: Global, items: Vals) -> Row
        ensures { result ≡ items }
    {
        Row {
            items,
            codes: IndexSet::new(alloc),
        }
    }

    /// All values, in order.
    pub(crate) fn as_slice(&self) -> &[Val]
        ensures { result.now ≡ self.now }
    {
        self.items.as_slice()
    }

    /// The place of the value of the first key of this code.
    pub(crate) fn coded_place(&self, code: Code) -> Option<usize>
        ensures place { result ≡ value_place (has_code code) 0 self.now }
        ensures within { IfSome result (λ i. i < length self.now) }
    {
        let count = self.codes.len();
        match self.codes.get_index_of(&code) {
            Some(i) => Some(2 * i + 1),
            None => walked_place(code, self.items.as_slice(), count),
        }
    }

    /// Adds a key that no other key of the row equals, and its value.
    pub(crate) fn push_key(&mut self, k: &Val, v: Val) -> Result<(), NoMemory>
        ensures ok { OnOk result (self.new ≡ self.old ++ k.now ∷ v ∷ []) }
        ensures err { OnErr result (self.new ≡ self.old) }
    {
        let code = code_behind(&self.codes, self.items.as_slice(), *k);
        let Ok(()) = self.items.push_pair(*k, v) else {
            return Err(NoMemory);
        };
        add_code(&mut self.codes, code);
        Ok(())
    }

    /// How many values there are.
    pub(crate) fn len(&self) -> usize
        ensures { result ≡ length self.now }
    {
        self.items.len()
    }

    /// Puts a value in the place of another. Where it is a key that changes, no key is indexed any more.
    pub(crate) fn set(&mut self, i: usize, item: Val)
        requires { i < length self.old }
        ensures { self.new ≡ slice_set self.old i item }
    {
        clear_for(&mut self.codes, i);
        self.items.set(i, item);
    }

    /// Adds two values at the end, or none.
    pub(crate) fn push_pair(&mut self, first: Val, second: Val) -> Result<(), NoMemory>
        ensures ok { OnOk result (self.new ≡ self.old ++ first ∷ second ∷ []) }
        ensures err { OnErr result (self.new ≡ self.old) }
    {
        self.items.push_pair(first, second)
    }

    /// Puts other values in the place of all. No key is indexed any more.
    pub(crate) fn replace(&mut self, items: Vals)
        ensures { self.new ≡ items }
    {
        self.codes.clear();
        self.items = items;
    }

    /// Adds values at the end.
    pub(crate) fn extend(&mut self, items: &[Val]) -> Result<(), NoMemory>
        ensures ok { OnOk result (self.new ≡ self.old ++ items.now) }
        ensures err { OnErr result (self.new ≡ self.old) }
    {
        self.items.extend(items)
    }

    /// Puts a value before the one at a place. No key is indexed any more.
    pub(crate) fn insert(&mut self, i: usize, item: Val) -> Result<(), NoMemory>
        requires { i ≤ length self.old }
        ensures ok { OnOk result (self.new ≡ insert self.old i item) }
        ensures err { OnErr result (self.new ≡ self.old) }
    {
        self.codes.clear();
        self.items.insert(i, item)
    }

    /// Takes the value at a place out. No key is indexed any more.
    pub(crate) fn remove(&mut self, i: usize) -> Val
        requires { i < length self.old }
        ensures taken { slice_get self.old i ≡ Some result }
        ensures rest { self.new ≡ remove self.old i }
    {
        self.codes.clear();
        self.items.remove(i)
    }

    /// Adds a value at the end.
    pub(crate) fn push(&mut self, item: Val) -> Result<(), NoMemory>
        ensures ok { OnOk result (self.new ≡ self.old ++ item ∷ []) }
        ensures err { OnErr result (self.new ≡ self.old) }
    {
        self.items.push(item)
    }
}

// The place of the value of the first key of this code, from a pair on.
fn walked_place(code: Code, row: &[Val], from: usize) -> Option<usize>
    requires { 2 * from < 2 ^ 64 }
    ensures place { result ≡ value_place (has_code code) (2 * from) (drop (2 * from) row.now) }
    ensures within { IfSome result (λ i. i < length row.now) }
{
    for i in from..row.len() / 2 {
        if has_code(code, row[2 * i]) {
            return Some(2 * i + 1);
        }
    }
    None
}

// Whether a value has this code.
fn has_code(code: Code, k: Val) -> bool
    ensures { result ≡ has_code code k }
{
    match code_of(k) {
        Some(c) => code == c,
        None => false,
    }
}

// Takes all codes out, where a key stands at this place of the row.
fn clear_for(codes: &mut IndexSet<Code>, i: usize)
    ensures { codes.new.keys ≡ codes_after i codes.old.keys }
{
    if i % 2 == 0 {
        codes.clear();
    }
}

// The code of a key, where all keys before it have theirs.
fn code_behind(codes: &IndexSet<Code>, row: &[Val], k: Val) -> Option<Code>
    ensures { result ≡ code_behind codes.now.keys row.now k }
{
    if row.len() / 2 == codes.len() && row.len() % 2 == 0 {
        code_of(k)
    } else {
        None
    }
}

// Adds a code behind the others, where it is new and there is memory.
fn add_code(codes: &mut IndexSet<Code>, code: Option<Code>)
    ensures { AddsAtMost code codes.old.keys codes.new.keys }
{
    if let Some(code) = code {
        let _ = codes.insert(code);
    }
}
