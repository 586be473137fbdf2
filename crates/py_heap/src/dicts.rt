// Dicts: making them, and their methods.
ghost use Rattle.std.specs.Prelude.{◌≡◌, ◌∷◌, [], Ok, Some};
ghost use Rattle.std.specs.Option.{option_copied};
ghost use Rattle.py_heap.specs.declared.fresh.Fresh.TheVariants as fresh;
ghost use Rattle.py_heap.specs.Heaps.{seen};
ghost use Rattle.py_values.specs.Runs.{Answers, paired, given};
ghost use Rattle.py_heap.specs.Places.{placed};
ghost use Rattle.py_heap.specs.Dicts.{all_keys, put, put_all, pairs_pass, dict_row, new_dict, pair_row, two_of, unpaired, pairs_in, dict_in, dict_of, only_dict, key_row, value_row, keys_of, values_of, tupled, items_in, items_of, got_or, get_of};

use crate::fresh::Fresh;
use crate::heap::{Frozen, Heap, next_number};
use crate::members::is_key;
use crate::row::Row;
use py_values::{ObjId, Val, Vals, ValueStop, is_empty_range, span_of};
use std::alloc::Global;

// Whether each key may be one.
fn all_keys(pairs: &[Val]) -> bool
    ensures { result ≡ all_keys pairs.now }
{
    for i in 0..pairs.len() / 2 {
        if !is_key(pairs[2 * i]) {
            return false;
        }
    }
    true
}

// The keys in the row of a dict.
fn key_row(alloc: Global, row: &[Val]) -> Result<Vals, ValueStop>
    ensures { Answers result (Ok (key_row row.now)) }
{
    let mut keys = Vals::new(alloc);
    for i in 0..row.len() / 2 {
        let Ok(()) = keys.push(row[2 * i]) else {
            return Err(ValueStop::NoMemory);
        };
    }
    Ok(keys)
}

// The values in the row of a dict.
fn value_row(alloc: Global, row: &[Val]) -> Result<Vals, ValueStop>
    ensures { Answers result (Ok (value_row row.now)) }
{
    let mut values = Vals::new(alloc);
    for i in 0..row.len() / 2 {
        let Ok(()) = values.push(row[2 * i + 1]) else {
            return Err(ValueStop::NoMemory);
        };
    }
    Ok(values)
}

// The values of a row, once more.
fn row_again(alloc: Global, row: &[Val]) -> Result<Vals, ValueStop>
    ensures { Answers result (Ok row.now) }
{
    let mut all = Vals::new(alloc);
    match all.extend(row) {
        Ok(()) => Ok(all),
        Err(_) => Err(ValueStop::NoMemory),
    }
}

// The key and the value of a pair.
fn two_of(row: &[Val]) -> Option<(Val, Val)>
    ensures { result ≡ two_of row.now }
{
    match row {
        [k, v] => Some((*k, *v)),
        _ => None,
    }
}

impl Heap {
    // Puts a key and its value into the row of a dict.
    fn put(&self, frozen: &Frozen, row: &mut Row, k: &Val, v: Val) -> Result<(), ValueStop>
        ensures { Answers (paired result row.new) (Ok (tt, put (seen frozen.now self.now) row.old k.now v)) }
    {
        match self.key_place(frozen, k, row) {
            Some(i) => {
                row.set(i, v);
                Ok(())
            }
            None => match row.push_key(k, v) {
                Ok(()) => Ok(()),
                Err(_) => Err(ValueStop::NoMemory),
            },
        }
    }

    // The row of a dict of these keys and values.
    fn put_all(&self, frozen: &Frozen, pairs: &[Val]) -> Result<Row, ValueStop>
        ensures { Answers result (Ok (put_all (seen frozen.now self.now) [] pairs.now)) }
    {
        let mut row = Row::of(self.alloc, Vals::new(self.alloc));
        for i in 0..pairs.len() / 2 {
            match self.put(frozen, &mut row, &pairs[2 * i], pairs[2 * i + 1]) {
                Ok(()) => {}
                Err(stop) => return Err(stop),
            }
        }
        Ok(row)
    }

    // Whether a new dict of so many pairs passes a count.
    fn pairs_pass(&self, frozen: &Frozen, n: usize) -> bool
        ensures { result ≡ pairs_pass (seen frozen.now self.now) n }
    {
        n > 65_536 || frozen.made.items as u64 + self.items as u64 + n as u64 > 4_194_304
    }

    // A new dict of this row.
    fn dict_row(&mut self, frozen: &Frozen, row: Row) -> Result<Val, ValueStop>
        ensures { Answers (paired result self.new) (dict_row (seen frozen.now self.old) row) }
    {
        let count = row.len() / 2;
        if self.pairs_pass(frozen, count) {
            return Err(ValueStop::Limit);
        }
        let Ok(id) = next_number(frozen.made.rows.len(), self.rows.len()) else {
            return Err(ValueStop::NoMemory);
        };
        let Ok(()) = self.rows.push(row) else {
            return Err(ValueStop::NoMemory);
        };
        self.items += count as u32;
        Ok(Val::Dict(ObjId(id)))
    }

    // A new dict of these keys and values.
    fn new_dict(&mut self, frozen: &Frozen, pairs: &[Val]) -> Result<Val, ValueStop>
        ensures { Answers (paired result self.new) (new_dict (seen frozen.now self.old) pairs.now) }
    {
        if !all_keys(pairs) {
            return Err(ValueStop::Raised);
        }
        match self.put_all(frozen, pairs) {
            Ok(row) => self.dict_row(frozen, row),
            Err(stop) => Err(stop),
        }
    }

    /// A new dict of keys and values, one after the other. A later value of a key stands in the place of the earlier
    /// one.
    pub fn dict(&mut self, frozen: &Frozen, pairs: Vals) -> Result<Val, ValueStop>
        ensures { Answers (paired result self.new) (new_dict (seen frozen.now self.old) pairs) }
    {
        self.new_dict(frozen, pairs.as_slice())
    }

    // The row of a list or tuple.
    fn pair_row<'a>(&'a self, frozen: &'a Frozen, p: Val) -> &'a [Val]
        ensures { result.now ≡ pair_row (seen frozen.now self.now) p }
    {
        match p {
            Val::List(o) | Val::Tuple(o) => self.row(frozen, o),
            _ => &[],
        }
    }

    // The keys and values of pairs.
    fn unpaired(&self, frozen: &Frozen, pairs: &[Val]) -> Result<Vals, ValueStop>
        ensures { Answers result (given (unpaired (seen frozen.now self.now) pairs.now)) }
    {
        let mut all = Vals::new(self.alloc);
        for p in pairs {
            let Some((k, v)) = two_of(self.pair_row(frozen, *p)) else {
                return Err(ValueStop::Raised);
            };
            let Ok(()) = all.push_pair(k, v) else {
                return Err(ValueStop::NoMemory);
            };
        }
        Ok(all)
    }

    // The keys and values that a value holds.
    fn pairs_in(&self, frozen: &Frozen, v: Val) -> Result<Vals, ValueStop>
        ensures { Answers result (given (pairs_in (seen frozen.now self.now) v)) }
    {
        match v {
            Val::Dict(o) => row_again(self.alloc, self.row(frozen, o)),
            Val::List(o) | Val::Tuple(o) => self.unpaired(frozen, self.row(frozen, o)),
            Val::Range(o) if is_empty_range(span_of(self.row(frozen, o))) => {
                Ok(Vals::new(self.alloc))
            }
            _ => Err(ValueStop::Raised),
        }
    }

    /// `dict()` and `dict(a)`, of a dict or of pairs.
    pub fn dict_of(&mut self, frozen: &Frozen, args: &[Val]) -> Result<Val, ValueStop>
        ensures { Answers (paired result self.new) (dict_of (seen frozen.now self.old) args.now) }
    {
        match args {
            [] => self.new_dict(frozen, &[]),
            [v] => self.dict_from(frozen, *v),
            _ => Err(ValueStop::Raised),
        }
    }

    // A new dict of what a value holds.
    fn dict_from(&mut self, frozen: &Frozen, v: Val) -> Result<Val, ValueStop>
        ensures { Answers (paired result self.new) (dict_in (seen frozen.now self.old) (pairs_in (seen frozen.now self.old) v)) }
    {
        match self.pairs_in(frozen, v) {
            Ok(pairs) => self.dict(frozen, pairs),
            Err(stop) => Err(stop),
        }
    }

    // The row of a dict that is the only argument.
    fn only_dict<'a>(&'a self, frozen: &'a Frozen, args: &[Val]) -> Option<&'a [Val]>
        ensures { option_copied result ≡ only_dict (seen frozen.now self.now) args.now }
    {
        match args {
            [Val::Dict(o)] => Some(self.row(frozen, *o)),
            _ => None,
        }
    }

    /// `d.keys()`, as a list.
    pub fn keys_of(&mut self, frozen: &Frozen, args: &[Val]) -> Result<Val, ValueStop>
        ensures { Answers (paired result self.new) (keys_of (seen frozen.now self.old) args.now) }
    {
        let Some(row) = self.only_dict(frozen, args) else {
            return Err(ValueStop::Raised);
        };
        match key_row(self.alloc, row) {
            Ok(keys) => self.place(frozen, Fresh::List(keys)),
            Err(stop) => Err(stop),
        }
    }

    /// `d.values()`, as a list.
    pub fn values_of(&mut self, frozen: &Frozen, args: &[Val]) -> Result<Val, ValueStop>
        ensures { Answers (paired result self.new) (values_of (seen frozen.now self.old) args.now) }
    {
        let Some(row) = self.only_dict(frozen, args) else {
            return Err(ValueStop::Raised);
        };
        match value_row(self.alloc, row) {
            Ok(values) => self.place(frozen, Fresh::List(values)),
            Err(stop) => Err(stop),
        }
    }

    // The value of a key of a dict, or another value.
    fn got_or(&mut self, frozen: &Frozen, d: Val, k: &Val, default: Val) -> Result<Val, ValueStop>
        ensures { Answers (paired result self.new) (got_or (seen frozen.now self.old) d k.now default) }
    {
        let Val::Dict(o) = d else {
            return Err(ValueStop::Raised);
        };
        if !is_key(*k) {
            return Err(ValueStop::Raised);
        }
        match self.dict_place(frozen, k, o) {
            Some(i) => Ok(self.row(frozen, o)[i]),
            None => Ok(default),
        }
    }

    /// `d.get(k)` and `d.get(k, default)`.
    pub fn get_of(&mut self, frozen: &Frozen, args: &[Val]) -> Result<Val, ValueStop>
        ensures { Answers (paired result self.new) (get_of (seen frozen.now self.old) args.now) }
    {
        match args {
            [d, k] => self.got_or(frozen, *d, k, Val::None),
            [d, k, default] => self.got_or(frozen, *d, k, *default),
            _ => Err(ValueStop::Raised),
        }
    }

    // Each pair of the row of a dict as a new tuple.
    fn tupled(&mut self, frozen: &Frozen, row: &[Val]) -> Result<Vals, ValueStop>
        ensures { Answers (paired result self.new) (tupled frozen.now self.old [] row.now) }
    {
        let mut all = Vals::new(self.alloc);
        for i in 0..row.len() / 2 {
            match self.pair_tuple(frozen, row[2 * i], row[2 * i + 1]) {
                Ok(t) => {
                    let Ok(()) = all.push(t) else {
                        return Err(ValueStop::NoMemory);
                    };
                }
                Err(stop) => return Err(stop),
            }
        }
        Ok(all)
    }

    // A new tuple of two values.
    fn pair_tuple(&mut self, frozen: &Frozen, k: Val, v: Val) -> Result<Val, ValueStop>
        ensures { Answers (paired result self.new) (placed (seen frozen.now self.old) (fresh.Tuple (k ∷ v ∷ []))) }
    {
        let mut row = Vals::new(self.alloc);
        match row.push_pair(k, v) {
            Ok(()) => self.place(frozen, Fresh::Tuple(row)),
            Err(_) => Err(ValueStop::NoMemory),
        }
    }

    /// `d.items()`, as a list of tuples.
    pub fn items_of(&mut self, frozen: &Frozen, args: &[Val]) -> Result<Val, ValueStop>
        ensures { Answers (paired result self.new) (items_of (seen frozen.now self.old) args.now) }
    {
        match self.dict_again(frozen, args) {
            Ok(pairs) => self.listed_items(frozen, pairs.as_slice()),
            Err(stop) => Err(stop),
        }
    }

    // The row of a dict that is the only argument, once more.
    fn dict_again(&self, frozen: &Frozen, args: &[Val]) -> Result<Vals, ValueStop>
        ensures { Answers result (given (only_dict (seen frozen.now self.now) args.now)) }
    {
        match self.only_dict(frozen, args) {
            Some(row) => row_again(self.alloc, row),
            None => Err(ValueStop::Raised),
        }
    }

    // The list of the pairs of a dict.
    fn listed_items(&mut self, frozen: &Frozen, row: &[Val]) -> Result<Val, ValueStop>
        ensures { Answers (paired result self.new) (items_in (seen frozen.now self.old) (Some row.now)) }
    {
        match self.tupled(frozen, row) {
            Ok(all) => self.place(frozen, Fresh::List(all)),
            Err(stop) => Err(stop),
        }
    }
}
