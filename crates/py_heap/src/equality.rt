// Equality.
ghost use Rattle.std.specs.Prelude.{◌≡◌, ◌<◌, length};
ghost use Rattle.lists.specs.Texts.{text_eq};
ghost use Rattle.py_values.specs.Numbers.{bit_number};
ghost use Rattle.py_heap.specs.Equality.{beside_none, beside_number, beside_text, beside_list, beside_tuple, beside_func, beside_class, beside_object, beside_thing, pair_of};

use crate::heap::{Frozen, Heap};
use crate::spend::spend;
use amh_bits::Int;
use amh_host::Budget;
use py_values::{FuncId, Hw, ObjId, StrId, Val, ValueStop, bit_number};

/// Two values side by side, as equality sees them.
#[derive(Clone, Copy, Drop)]
pub(crate) enum Pair {
    /// Whether they are equal is known.
    Known(bool),
    Numbers(Int, Int),
    Texts(StrId, StrId),
    /// Two lists, or two tuples.
    Rows(ObjId, ObjId),
    /// No equality of them is defined.
    Refused,
}

fn beside_none(b: Val) -> Pair
    ensures { result ≡ beside_none b }
{
    match b {
        Val::None => Pair::Known(true),
        Val::Time(_) | Val::Dict(_) | Val::Range(_) | Val::Hw(_) => Pair::Refused,
        _ => Pair::Known(false),
    }
}

fn beside_number(m: Int, b: Val) -> Pair
    ensures { result ≡ beside_number m b }
{
    match b {
        Val::Bool(y) => Pair::Numbers(m, bit_number(y)),
        Val::Int(n) => Pair::Numbers(m, n.int()),
        Val::Time(_) | Val::Dict(_) | Val::Range(_) | Val::Hw(_) => Pair::Refused,
        _ => Pair::Known(false),
    }
}

fn beside_text(x: StrId, b: Val) -> Pair
    ensures { result ≡ beside_text x b }
{
    match b {
        Val::Str(y) => Pair::Texts(x, y),
        Val::Time(_) | Val::Dict(_) | Val::Range(_) | Val::Hw(_) => Pair::Refused,
        _ => Pair::Known(false),
    }
}

fn beside_list(x: ObjId, b: Val) -> Pair
    ensures { result ≡ beside_list x b }
{
    match b {
        Val::List(y) => Pair::Rows(x, y),
        Val::Time(_) | Val::Dict(_) | Val::Range(_) | Val::Hw(_) => Pair::Refused,
        _ => Pair::Known(false),
    }
}

fn beside_tuple(x: ObjId, b: Val) -> Pair
    ensures { result ≡ beside_tuple x b }
{
    match b {
        Val::Tuple(y) => Pair::Rows(x, y),
        Val::Time(_) | Val::Dict(_) | Val::Range(_) | Val::Hw(_) => Pair::Refused,
        _ => Pair::Known(false),
    }
}

fn beside_func(x: FuncId, b: Val) -> Pair
    ensures { result ≡ beside_func x b }
{
    match b {
        Val::Func(y) => Pair::Known(x.0 == y.0),
        Val::Time(_) | Val::Dict(_) | Val::Range(_) | Val::Hw(_) => Pair::Refused,
        _ => Pair::Known(false),
    }
}

fn beside_class(x: ObjId, b: Val) -> Pair
    ensures { result ≡ beside_class x b }
{
    match b {
        Val::Class(y) => Pair::Known(x.0 == y.0),
        Val::Time(_) | Val::Dict(_) | Val::Range(_) | Val::Hw(_) => Pair::Refused,
        _ => Pair::Known(false),
    }
}

fn beside_object(x: ObjId, b: Val) -> Pair
    ensures { result ≡ beside_object x b }
{
    match b {
        Val::Object(y) => Pair::Known(x.0 == y.0),
        Val::Time(_) | Val::Dict(_) | Val::Range(_) | Val::Hw(_) => Pair::Refused,
        _ => Pair::Known(false),
    }
}

fn beside_thing(x: Hw, b: Val) -> Pair
    ensures { result ≡ beside_thing x b }
{
    match b {
        Val::Hw(y) => {
            if x.0 == y.0 {
                Pair::Known(true)
            } else {
                Pair::Refused
            }
        }
        _ => Pair::Refused,
    }
}

/// Two values side by side.
pub(crate) fn pair_of(a: Val, b: Val) -> Pair
    ensures { result ≡ pair_of a b }
{
    match a {
        Val::None => beside_none(b),
        Val::Bool(x) => beside_number(bit_number(x), b),
        Val::Int(m) => beside_number(m.int(), b),
        Val::Str(x) => beside_text(x, b),
        Val::List(x) => beside_list(x, b),
        Val::Tuple(x) => beside_tuple(x, b),
        Val::Func(x) => beside_func(x, b),
        Val::Class(x) => beside_class(x, b),
        Val::Object(x) => beside_object(x, b),
        Val::Hw(x) => beside_thing(x, b),
        Val::Time(_) | Val::Dict(_) | Val::Range(_) => Pair::Refused,
    }
}

ghost use Rattle.py_values.specs.Runs.{Charged, later};
ghost use Rattle.py_heap.specs.Heaps.{seen, text_at};
ghost use Rattle.py_heap.specs.Equality.{deeper, equal, equal_to, rows_equal};

impl Heap {
    /// Whether two strings are the same.
    pub(crate) fn same_text(&self, frozen: &Frozen, x: StrId, y: StrId) -> bool
        ensures { result ≡ text_eq (text_at (seen frozen.now self.now) x.0) (text_at (seen frozen.now self.now) y.0) }
    {
        same_bytes(self.text(frozen, x), self.text(frozen, y))
    }

    /// Whether two values are equal.
    pub fn equal(
        &self,
        frozen: &Frozen,
        a: Val,
        b: Val,
        left: &mut Budget,
    ) -> Result<bool, ValueStop>
        requires { 0 < left.old.left }
        ensures { Charged result left.old.left left.new.left (equal (seen frozen.now self.now) a b) }
    {
        self.equal_to(frozen, 64, a, b, left)
    }

    // Whether two values are equal whose elements may go so much deeper.
    #[cycle(equality)]
    fn equal_to(
        &self,
        frozen: &Frozen,
        depth: u32,
        a: Val,
        b: Val,
        left: &mut Budget,
    ) -> Result<bool, ValueStop>
        requires { 0 < left.old.left }
        ensures { Charged result left.old.left left.new.left (equal_to depth (seen frozen.now self.now) a b) }
    {
        match pair_of(a, b) {
            Pair::Known(same) => Ok(same),
            Pair::Numbers(m, n) => Ok(m == n),
            Pair::Texts(x, y) => Ok(self.same_text(frozen, x, y)),
            Pair::Rows(x, y) => self.rows_equal(frozen, depth, x, y, left),
            Pair::Refused => Err(ValueStop::Raised),
        }
    }

    // Whether two lists or two tuples are equal.
    #[cycle(equality)]
    fn rows_equal(
        &self,
        frozen: &Frozen,
        depth: u32,
        x: ObjId,
        y: ObjId,
        left: &mut Budget,
    ) -> Result<bool, ValueStop>
        requires { 0 < left.old.left }
        ensures { Charged result left.old.left left.new.left (rows_equal (seen frozen.now self.now) (deeper depth (seen frozen.now self.now)) x.0 y.0) }
    {
        if x.0 == y.0 {
            return Ok(true);
        }
        let xs = self.row(frozen, x);
        let ys = self.row(frozen, y);
        if xs.len() != ys.len() {
            return Ok(false);
        }
        self.elements_equal(frozen, depth, xs, ys, left)
    }

    // Whether the elements of two lists of one length are equal.
    #[cycle(equality)]
    fn elements_equal(
        &self,
        frozen: &Frozen,
        depth: u32,
        xs: &[Val],
        ys: &[Val],
        left: &mut Budget,
    ) -> Result<bool, ValueStop>
        requires some { 0 < left.old.left }
        requires lengths { length xs.now ≡ length ys.now }
        ensures { Charged result left.old.left left.new.left (deeper depth (seen frozen.now self.now) xs.now ys.now) }
    {
        if depth == 0 {
            return if xs.is_empty() {
                Ok(true)
            } else {
                Err(ValueStop::Raised)
            };
        }
        for i in 0..xs.len() {
            match self.pair_equal(frozen, depth - 1, xs[i], ys[i], left) {
                Ok(true) => {}
                Ok(false) => return Ok(false),
                Err(stop) => return Err(stop),
            }
        }
        Ok(true)
    }
}

impl Heap {
    // Whether two elements are equal, at one unit more.
    #[cycle(equality)]
    fn pair_equal(
        &self,
        frozen: &Frozen,
        depth: u32,
        a: Val,
        b: Val,
        left: &mut Budget,
    ) -> Result<bool, ValueStop>
        requires { 0 < left.old.left }
        ensures { Charged result left.old.left left.new.left (later 1 (equal_to depth (seen frozen.now self.now) a b)) }
    {
        match spend(left) {
            Ok(()) => self.equal_to(frozen, depth, a, b, left),
            Err(stop) => Err(stop),
        }
    }
}

// Whether two texts are the same.
pub(crate) fn same_bytes(x: &str, y: &str) -> bool
    ensures { result ≡ text_eq x.now y.now }
{
    x == y
}
