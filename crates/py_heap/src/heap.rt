// What a machine made, and what stands before it.
ghost use Rattle.std.specs.Prelude.{◌≡◌, ◌+◌, ◌<◌, ◌≤◌, length, [], IfOk, IfErr, Some, slice_get, unwrap_or};
ghost use Rattle.std.specs.Option.{option_copied};
ghost use Rattle.py_heap.specs.Heaps.{Made, nothing, seen, text_of, row_of, text_at, row_at, func_at};

use crate::row::Row;
use lists::Words;
use py_values::{Func, FuncId, ObjId, Scope, StrId, Val, ValueStop};
use std::alloc::Global;
use std::marker::Model;

/// What one machine made: strings, rows of values, functions and scopes, by number, and two running counts.
#[derive(Drop)]
pub struct Heap {
    pub(crate) alloc: Global,
    pub(crate) texts: Words,
    pub(crate) rows: Vec<Row>,
    pub(crate) funcs: Vec<Func>,
    pub(crate) scopes: Vec<Scope>,
    pub(crate) chars: u32,
    pub(crate) items: u32,
}

impl Model for Heap {
    ghost use Rattle.py_heap.specs.Heaps.{Made};

    ghost Value = { Made };

    ghost view = { λ h. record { texts = h.texts; rows = h.rows.items; funcs = h.funcs.items; scopes = h.scopes.items; chars = h.chars; items = h.items } };
}

/// What stands before a machine, which no machine changes.
#[derive(Drop)]
pub struct Frozen {
    pub(crate) made: Heap,
}

impl Model for Frozen {
    ghost use Rattle.py_heap.specs.Heaps.{Made};

    ghost Value = { Made };

    ghost view = { λ f. f.made };
}

impl Frozen {
    /// Nothing, which takes no memory.
    pub fn empty(alloc: Global) -> Frozen
        ensures { result ≡ nothing }
    {
        Frozen {
            made: Heap::new(alloc),
        }
    }
}

impl Heap {
    /// Nothing yet, which takes no memory.
    pub fn new(alloc: Global) -> Heap
        ensures { result ≡ nothing }
    {
        Heap {
            alloc,
            texts: Words::new(alloc),
            rows: Vec::new(alloc),
            funcs: Vec::new(alloc),
            scopes: Vec::new(alloc),
            chars: 0,
            items: 0,
        }
    }

    /// All that was made, to stand before other machines.
    pub fn freeze(self) -> Frozen
        ensures { result ≡ self }
    {
        Frozen { made: self }
    }

    /// Where what is made gets its memory from.
    pub fn alloc(&self) -> Global {
        self.alloc
    }

    // A string of this heap by its place in it.
    fn own_text(&self, i: usize) -> &str
        ensures { result.now ≡ text_of self.now.texts i }
    {
        match self.texts.items().get(i) {
            Some(text) => text.as_str(),
            None => "",
        }
    }

    // A row of this heap by its place in it.
    pub fn own_row(&self, i: usize) -> &[Val]
        ensures { result.now ≡ row_of self.now.rows i }
    {
        match self.rows.get(i) {
            Some(row) => row.as_slice(),
            None => &[],
        }
    }

    /// A string. A number that stands for none reads as the empty one.
    pub fn text<'a>(&'a self, frozen: &'a Frozen, s: StrId) -> &'a str
        ensures { result.now ≡ text_at (seen frozen.now self.now) s.0 }
    {
        let before = frozen.made.texts.len();
        let i = s.0 as usize;
        if i < before {
            frozen.made.own_text(i)
        } else {
            self.own_text(i - before)
        }
    }

    /// The values of a list, tuple, dict, range, class or object. A number that stands for none reads as the
    /// empty row.
    pub fn row<'a>(&'a self, frozen: &'a Frozen, o: ObjId) -> &'a [Val]
        ensures { result.now ≡ row_at (seen frozen.now self.now) o.0 }
    {
        let before = frozen.made.rows.len();
        let i = o.0 as usize;
        if i < before {
            frozen.made.own_row(i)
        } else {
            self.own_row(i - before)
        }
    }

    /// The row of a number, with its index. `None` exactly for a number that stands for none.
    pub(crate) fn indexed_row<'a>(&'a self, frozen: &'a Frozen, o: ObjId) -> Option<&'a Row>
        ensures { unwrap_or (option_copied result) [] ≡ row_at (seen frozen.now self.now) o.0 }
    {
        let before = frozen.made.rows.len();
        let i = o.0 as usize;
        if i < before {
            frozen.made.rows.get(i)
        } else {
            self.rows.get(i - before)
        }
    }

    /// A function. `None` exactly for a number that stands for none.
    pub fn func<'a>(&'a self, frozen: &'a Frozen, f: FuncId) -> Option<&'a Func>
        ensures { option_copied result ≡ func_at (seen frozen.now self.now) f.0 }
    {
        let before = frozen.made.funcs.len();
        let i = f.0 as usize;
        if i < before {
            frozen.made.funcs.get(i)
        } else {
            self.funcs.get(i - before)
        }
    }
}

// The next number, where there is one.
pub(crate) fn next_number(before: usize, own: usize) -> Result<u32, ValueStop>
    ensures given { IfOk result (λ n. n ≡ before + own) }
    ensures refused { IfErr result (λ stop. stop ≡ ValueStop.NoMemory) }
{
    match before.checked_add(own) {
        Some(n) if n < 4_294_967_295 => Ok(n as u32),
        _ => Err(ValueStop::NoMemory),
    }
}
