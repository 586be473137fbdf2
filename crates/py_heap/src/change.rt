// Lists that grow in place.
ghost use Rattle.std.specs.Prelude.{◌≡◌, ◌<◌, ◌≤◌, length, IfSome, None, Some};
ghost use Rattle.py_heap.specs.Heaps.{seen, row_of};
ghost use Rattle.py_values.specs.Runs.{Answers, paired};
ghost use Rattle.py_heap.specs.Changes.{own_number, item_passes, appended_own, appended, index_place, row_set, item_set, pair_passes, key_set_in, key_set_at, key_set, items_pass, extended_own, replaced_own, insert_place, inserted_own, taken};

use crate::heap::{Frozen, Heap};
use crate::members::is_key;
use amh_bits::Int;
use py_values::{ObjId, Val, Vals, ValueStop};

/// The place in this heap of what a number stands for.
pub(crate) fn own_number(before: usize, count: usize, n: u32) -> Option<usize>
    ensures place { result ≡ own_number before count n }
    ensures within { IfSome result (λ i. i < count) }
{
    let n = n as usize;
    if n < before {
        return None;
    }
    if n - before < count {
        Some(n - before)
    } else {
        None
    }
}

impl Heap {
    /// Whether one item more passes a count.
    pub(crate) fn item_passes(&self, frozen: &Frozen, row: &[Val]) -> bool
        ensures { result ≡ item_passes (seen frozen.now self.now) row.now }
    {
        row.len() > 65_535 || frozen.made.items as u64 + self.items as u64 + 1 > 4_194_304
    }

    /// The place in this heap of a row. What was frozen has none.
    pub fn own_place(&self, frozen: &Frozen, o: ObjId) -> Option<usize>
        ensures place { result ≡ own_number (length frozen.now.rows) (length self.now.rows) o.0 }
        ensures within { IfSome result (λ i. i < length self.now.rows) }
    {
        own_number(frozen.made.rows.len(), self.rows.len(), o.0)
    }

    // Adds a value to a row of this heap, by its place in it.
    fn append_own(&mut self, frozen: &Frozen, i: usize, v: Val) -> Result<(), ValueStop>
        requires { i < length self.old.rows }
        ensures { Answers (paired result self.new) (appended_own (seen frozen.now self.old) i v) }
    {
        if self.item_passes(frozen, self.own_row(i)) {
            return Err(ValueStop::Limit);
        }
        let Ok(()) = self.rows[i].push(v) else {
            return Err(ValueStop::NoMemory);
        };
        self.items += 1;
        Ok(())
    }

    /// `a.append(v)`, of a list. One that was frozen refuses it.
    pub fn append(&mut self, frozen: &Frozen, o: ObjId, v: Val) -> Result<(), ValueStop>
        ensures { Answers (paired result self.new) (appended (seen frozen.now self.old) o.0 v) }
    {
        match own_number(frozen.made.rows.len(), self.rows.len(), o.0) {
            Some(i) => self.append_own(frozen, i, v),
            None => Err(ValueStop::Raised),
        }
    }
}

/// Python's place of an index in a row of so many values.
pub fn index_place(len: usize, n: Int) -> Option<usize>
    ensures place { result ≡ index_place len n }
    ensures within { IfSome result (λ i. i < len) }
{
    if n.negative {
        if n.size <= len as u128 {
            Some(len - n.size as usize)
        } else {
            None
        }
    } else if n.size < len as u128 {
        Some(n.size as usize)
    } else {
        None
    }
}

impl Heap {
    /// Puts a value at a place of a row of this heap.
    pub(crate) fn set_own(&mut self, i: usize, k: Option<usize>, v: Val) -> Result<(), ValueStop>
        requires row { i < length self.old.rows }
        requires within { IfSome k (λ k. k < length (row_of self.old.rows i)) }
        ensures { Answers (paired result self.new) (row_set self.old i (row_of self.old.rows i) k v) }
    {
        match k {
            Some(k) => {
                self.rows[i].set(k, v);
                Ok(())
            }
            None => Err(ValueStop::Raised),
        }
    }

    /// `a[n] = v`, of a list. One that was frozen refuses it.
    pub fn set_item(&mut self, frozen: &Frozen, o: ObjId, n: Int, v: Val) -> Result<(), ValueStop>
        ensures { Answers (paired result self.new) (item_set (seen frozen.now self.old) o.0 n v) }
    {
        match own_number(frozen.made.rows.len(), self.rows.len(), o.0) {
            Some(i) => {
                let k = index_place(self.own_row(i).len(), n);
                self.set_own(i, k, v)
            }
            None => Err(ValueStop::Raised),
        }
    }

    // Whether one pair more passes a count.
    fn pair_passes(&self, frozen: &Frozen, row: &[Val]) -> bool
        ensures { result ≡ pair_passes (seen frozen.now self.now) row.now }
    {
        row.len() / 2 > 65_535 || frozen.made.items as u64 + self.items as u64 + 1 > 4_194_304
    }

    // Adds a key and its value to a row of this heap.
    fn add_key(&mut self, frozen: &Frozen, i: usize, key: Val, v: Val) -> Result<(), ValueStop>
        requires { i < length self.old.rows }
        ensures { Answers (paired result self.new) (key_set_in (seen frozen.now self.old) i (row_of self.old.rows i) None key v) }
    {
        if self.pair_passes(frozen, self.own_row(i)) {
            return Err(ValueStop::Limit);
        }
        let Ok(()) = self.rows[i].push_key(&key, v) else {
            return Err(ValueStop::NoMemory);
        };
        self.items += 1;
        Ok(())
    }

    // Puts the value of a key into a row of this heap.
    fn set_own_key(&mut self, frozen: &Frozen, i: usize, key: &Val, v: Val) -> Result<(), ValueStop>
        requires { i < length self.old.rows }
        ensures { Answers (paired result self.new) (key_set_at (seen frozen.now self.old) (Some i) key.now v) }
    {
        match self.key_place(frozen, key, &self.rows[i]) {
            Some(k) => self.set_own(i, Some(k), v),
            None => self.add_key(frozen, i, *key, v),
        }
    }

    /// `d[key] = v`, of a dict. One that was frozen refuses it, and so does what may be no key.
    pub fn set_key(&mut self, frozen: &Frozen, o: ObjId, key: &Val, v: Val) -> Result<(), ValueStop>
        ensures { Answers (paired result self.new) (key_set (seen frozen.now self.old) o.0 key.now v) }
    {
        if !is_key(*key) {
            return Err(ValueStop::Raised);
        }
        match own_number(frozen.made.rows.len(), self.rows.len(), o.0) {
            Some(i) => self.set_own_key(frozen, i, key, v),
            None => Err(ValueStop::Raised),
        }
    }
}

// ---- the rows of lists, by their place in this heap

// The place before which a value comes.
fn insert_place(len: usize, n: Int) -> usize
    ensures place { result ≡ insert_place len n }
    ensures within { result ≤ len }
{
    if n.negative {
        if n.size <= len as u128 {
            len - n.size as usize
        } else {
            0
        }
    } else if n.size < len as u128 {
        n.size as usize
    } else {
        len
    }
}

impl Heap {
    // Whether so many items more pass a count.
    fn items_pass(&self, frozen: &Frozen, row: &[Val], n: usize) -> bool
        ensures { result ≡ items_pass (seen frozen.now self.now) row.now n }
    {
        row.len() as u128 + n as u128 > 65_536
            || frozen.made.items as u128 + self.items as u128 + n as u128 > 4_194_304
    }

    /// Adds values to a row of this heap, by its place in it.
    pub fn extend_own(&mut self, frozen: &Frozen, i: usize, xs: &[Val]) -> Result<(), ValueStop>
        requires { i < length self.old.rows }
        ensures { Answers (paired result self.new) (extended_own (seen frozen.now self.old) i xs.now) }
    {
        if self.items_pass(frozen, self.own_row(i), xs.len()) {
            return Err(ValueStop::Limit);
        }
        let Ok(()) = self.rows[i].extend(xs) else {
            return Err(ValueStop::NoMemory);
        };
        self.items += xs.len() as u32;
        Ok(())
    }

    /// Puts other values in the place of a row of this heap; what it grows by is counted.
    pub fn replace_own(&mut self, frozen: &Frozen, i: usize, xs: Vals) -> Result<(), ValueStop>
        requires { i < length self.old.rows }
        ensures { Answers (paired result self.new) (replaced_own (seen frozen.now self.old) i xs) }
    {
        let growth = xs.len().saturating_sub(self.own_row(i).len());
        if frozen.made.items as u128 + self.items as u128 + growth as u128 > 4_194_304 {
            return Err(ValueStop::Limit);
        }
        self.rows[i].replace(xs);
        self.items += growth as u32;
        Ok(())
    }

    /// Puts a value into a row of this heap, by its place in it.
    pub fn insert_own(&mut self, frozen: &Frozen, i: usize, n: Int, v: Val) -> Result<(), ValueStop>
        requires { i < length self.old.rows }
        ensures { Answers (paired result self.new) (inserted_own (seen frozen.now self.old) i n v) }
    {
        let row = self.own_row(i);
        if self.item_passes(frozen, row) {
            return Err(ValueStop::Limit);
        }
        let place = insert_place(row.len(), n);
        let Ok(()) = self.rows[i].insert(place, v) else {
            return Err(ValueStop::NoMemory);
        };
        self.items += 1;
        Ok(())
    }

    /// Takes the item at a place out of a row of this heap.
    pub fn take_own(&mut self, i: usize, place: Option<usize>) -> Result<Val, ValueStop>
        requires row { i < length self.old.rows }
        requires within { IfSome place (λ k. k < length (row_of self.old.rows i)) }
        ensures { Answers (paired result self.new) (taken self.old i (row_of self.old.rows i) place) }
    {
        match place {
            Some(k) => Ok(self.rows[i].remove(k)),
            None => Err(ValueStop::Raised),
        }
    }
}
