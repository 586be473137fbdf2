// What `in` asks.
ghost use Rattle.std.specs.Prelude.{◌≡◌, ◌<◌, ◌≤◌, nat_eq, length, drop, IfSome};
ghost use Rattle.std.specs.List.{starts_with};
ghost use Rattle.py_values.specs.Numbers.{number_of};
ghost use Rattle.py_values.specs.Ranges.{span_of};
ghost use Rattle.py_heap.specs.Heaps.{seen, text_at, row_at};
ghost use Rattle.py_values.specs.Runs.{Charged, later, free, given};
ghost use Rattle.py_heap.specs.Equality.{equal};
ghost use Rattle.py_heap.specs.Members.{has_part, in_text, any_equal, is_key, agrees, same_key, value_place, is_there, in_dict, in_span, member};

use crate::codes::code_of;
use crate::equality::{Pair, pair_of};
use crate::heap::{Frozen, Heap};
use crate::row::Row;
use crate::spend::spend;
use amh_host::Budget;
use py_values::{ObjId, Val, ValueStop, in_range, number_of, span_of};

// Whether a text begins with another at a place.
fn begins_at(text: &[u8], i: usize, part: &[u8]) -> bool
    requires { i ≤ length text.now }
    ensures { result ≡ starts_with nat_eq (drop i text.now) part.now }
{
    text[i..].starts_with(part)
}

// Whether a text has another as a part of it.
fn has_part(part: &[u8], text: &[u8]) -> bool
    ensures { result ≡ has_part part.now text.now }
{
    for i in 0..text.len() {
        if begins_at(text, i, part) {
            return true;
        }
    }
    begins_at(text, text.len(), part)
}

/// Whether a value may be a key of a dict.
pub fn is_key(v: Val) -> bool
    ensures { result ≡ is_key v }
{
    match v {
        Val::Bool(_) | Val::Int(_) | Val::Str(_) | Val::Hw(_) => true,
        _ => false,
    }
}

impl Heap {
    fn in_text(&self, frozen: &Frozen, a: Val, text: &str) -> Option<bool>
        ensures { free (given result) ≡ in_text (seen frozen.now self.now) a text.now }
    {
        match a {
            Val::Str(x) => Some(has_part(self.text(frozen, x).as_bytes(), text.as_bytes())),
            _ => None,
        }
    }

    // Whether a list has an element that equals this value.
    fn any_equal(
        &self,
        frozen: &Frozen,
        a: &Val,
        row: &[Val],
        left: &mut Budget,
    ) -> Result<bool, ValueStop>
        requires { 0 < left.old.left }
        ensures { Charged result left.old.left left.new.left (any_equal (equal (seen frozen.now self.now)) a.now row.now) }
    {
        for x in row {
            match self.one_equal(frozen, *a, *x, left) {
                Ok(true) => return Ok(true),
                Ok(false) => {}
                Err(stop) => return Err(stop),
            }
        }
        Ok(false)
    }

    // Whether an element equals this value, at one unit more.
    fn one_equal(
        &self,
        frozen: &Frozen,
        a: Val,
        b: Val,
        left: &mut Budget,
    ) -> Result<bool, ValueStop>
        requires { 0 < left.old.left }
        ensures { Charged result left.old.left left.new.left (later 1 (equal (seen frozen.now self.now) a b)) }
    {
        match spend(left) {
            Ok(()) => self.equal(frozen, a, b, left),
            Err(stop) => Err(stop),
        }
    }

    /// Whether two keys of a dict are one.
    pub(crate) fn same_key(&self, frozen: &Frozen, a: Val, b: Val) -> bool
        ensures { result ≡ same_key (seen frozen.now self.now) a b }
    {
        match pair_of(a, b) {
            Pair::Known(same) => same,
            Pair::Numbers(m, n) => m == n,
            Pair::Texts(x, y) => self.same_text(frozen, x, y),
            Pair::Rows(_, _) | Pair::Refused => false,
        }
    }

    /// The place of the value of a key in the row of a dict.
    #[tactic(auto, using(crate::proofs::KeyLaws::place_by_code))]
    pub(crate) fn key_place(&self, frozen: &Frozen, k: &Val, row: &Row) -> Option<usize>
        ensures place { result ≡ value_place (same_key (seen frozen.now self.now) k.now) 0 row.now }
        ensures within { IfSome result (λ i. i < length row.now) }
    {
        match code_of(*k) {
            Some(code) => row.coded_place(code),
            None => self.walked_key(frozen, k, row.as_slice()),
        }
    }

    /// The place of the value of a key in a dict.
    pub fn dict_place(&self, frozen: &Frozen, k: &Val, o: ObjId) -> Option<usize>
        ensures place { result ≡ value_place (same_key (seen frozen.now self.now) k.now) 0 (row_at (seen frozen.now self.now) o.0) }
        ensures within { IfSome result (λ i. i < length (row_at (seen frozen.now self.now) o.0)) }
    {
        match self.indexed_row(frozen, o) {
            Some(row) => self.key_place(frozen, k, row),
            None => None,
        }
    }

    // The same, by a walk.
    fn walked_key(&self, frozen: &Frozen, k: &Val, row: &[Val]) -> Option<usize>
        ensures place { result ≡ value_place (same_key (seen frozen.now self.now) k.now) 0 row.now }
        ensures within { IfSome result (λ i. i < length row.now) }
    {
        for i in 0..row.len() / 2 {
            if self.same_key(frozen, *k, row[2 * i]) {
                return Some(2 * i + 1);
            }
        }
        None
    }

    fn in_dict(&self, frozen: &Frozen, k: &Val, o: ObjId) -> Option<bool>
        ensures { free (given result) ≡ in_dict (seen frozen.now self.now) k.now (row_at (seen frozen.now self.now) o.0) }
    {
        if is_key(*k) {
            Some(self.dict_place(frozen, k, o).is_some())
        } else {
            None
        }
    }

    /// What `in` gives.
    pub fn member(
        &self,
        frozen: &Frozen,
        a: Val,
        b: Val,
        left: &mut Budget,
    ) -> Result<bool, ValueStop>
        requires { 0 < left.old.left }
        ensures { Charged result left.old.left left.new.left (member (seen frozen.now self.now) a b) }
    {
        match b {
            Val::Str(x) => given(self.in_text(frozen, a, self.text(frozen, x))),
            Val::List(o) | Val::Tuple(o) => self.any_equal(frozen, &a, self.row(frozen, o), left),
            Val::Dict(o) => given(self.in_dict(frozen, &a, o)),
            Val::Range(o) => given(in_span(a, self.row(frozen, o))),
            _ => Err(ValueStop::Raised),
        }
    }
}

fn in_span(a: Val, row: &[Val]) -> Option<bool>
    ensures { free (given result) ≡ in_span (number_of a) (span_of row.now) }
{
    match number_of(a) {
        Some(n) => Some(in_range(span_of(row), n)),
        None => None,
    }
}

// A value, or that there is none.
fn given(v: Option<bool>) -> Result<bool, ValueStop>
    ensures { result ≡ given v }
{
    match v {
        Some(v) => Ok(v),
        None => Err(ValueStop::Raised),
    }
}
