// Classes and objects: making them, and their attributes.
ghost use Rattle.std.specs.Prelude.{◌≡◌, ◌+◌, ◌<◌, ◌≤◌, ◌^◌, length, slice_get, IfSome, Some, Ok};
ghost use Rattle.std.specs.Option.{option_map};
ghost use Rattle.py_heap.specs.Heaps.{seen, row_at, row_of};
ghost use Rattle.py_values.specs.Runs.{Answers, paired};
ghost use Rattle.py_heap.specs.Members.{value_place};
ghost use Rattle.py_heap.specs.Objects.{attributes, is_named, attribute_in, name_listed, names_listed, base_of, new_object, attributes_pass, class_row, class_with, class_at, new_class, attribute_added, attribute_set_at, attribute_set, first_in, inherited};

use crate::change::own_number;
use crate::equality::same_bytes;
use crate::fresh::char_count;
use crate::heap::{Frozen, Heap, next_number};
use crate::row::Row;
use lists::Words;
use py_values::{Bindings, Hw, ObjId, ScopeId, StrId, Val, Vals, ValueStop};
use std::alloc::Global;

/// What a class has under a name, by itself or from its base.
#[derive(Clone, Copy, PartialEq, Eq, Drop)]
pub enum Inherited {
    /// This value, of this class.
    Found(Val, Val),
    /// No class has it, and the last one has this thing as its base.
    Thing(Hw),
    /// No class has it.
    Nowhere,
}

// What stands behind the first item.
fn attributes(row: &[Val]) -> &[Val]
    ensures { result.now ≡ attributes row.now }
{
    match row {
        [] => row,
        [_, rest @ ..] => rest,
    }
}

// The first item, and `None` where there is none.
fn first_in(row: &[Val]) -> Val
    ensures { result ≡ first_in row.now }
{
    match row {
        [] => Val::None,
        [first, ..] => *first,
    }
}

// A name and its value behind the items of a row, and the name's string behind the others.
fn list_name(
    texts: &mut Words,
    before: usize,
    row: &mut Vals,
    name: &str,
    v: Val,
) -> Result<(), ValueStop>
    ensures { Answers (paired result (texts.new, row.new)) (name_listed before texts.old row.old name.now v) }
{
    if char_count(name) > 4096 {
        return Err(ValueStop::Limit);
    }
    let Ok(id) = next_number(before, texts.len()) else {
        return Err(ValueStop::NoMemory);
    };
    let Ok(()) = texts.push(name) else {
        return Err(ValueStop::NoMemory);
    };
    match row.push_pair(Val::Str(StrId(id)), v) {
        Ok(()) => Ok(()),
        Err(_) => Err(ValueStop::NoMemory),
    }
}

// The same for each name of a scope.
fn list_names(
    texts: &mut Words,
    before: usize,
    row: &mut Vals,
    bindings: &Bindings,
) -> Result<(), ValueStop>
    ensures { Answers (paired result (texts.new, row.new)) (names_listed before texts.old row.old bindings.now) }
{
    for i in 0..bindings.len() {
        let (name, v) = bindings.at(i);
        match list_name(texts, before, row, name, v) {
            Ok(()) => {}
            Err(stop) => return Err(stop),
        }
    }
    Ok(())
}

// The row of a class; the strings of its names go behind the others.
fn class_row(
    alloc: Global,
    texts: &mut Words,
    before: usize,
    base: Option<Val>,
    bindings: &Bindings,
) -> Result<Vals, ValueStop>
    ensures { Answers (paired result texts.new) (class_row before texts.old base bindings.now) }
{
    let mut row = Vals::new(alloc);
    let Ok(()) = row.push(base_of(base)) else {
        return Err(ValueStop::NoMemory);
    };
    match list_names(texts, before, &mut row, bindings) {
        Ok(()) => Ok(row),
        Err(stop) => Err(stop),
    }
}

fn base_of(base: Option<Val>) -> Val
    ensures { result ≡ base_of base }
{
    match base {
        Some(base) => base,
        None => Val::None,
    }
}

impl Heap {
    // Whether a value is the string of this name.
    fn is_named(&self, frozen: &Frozen, name: &str, v: Val) -> bool
        ensures { result ≡ is_named (seen frozen.now self.now) name.now v }
    {
        match v {
            Val::Str(x) => same_bytes(self.text(frozen, x), name),
            _ => false,
        }
    }

    // The place of the value of a name.
    fn name_place(&self, frozen: &Frozen, name: &str, row: &[Val]) -> Option<usize>
        ensures place { result ≡ value_place (is_named (seen frozen.now self.now) name.now) 0 row.now }
        ensures within { IfSome result (λ i. i < length row.now) }
    {
        for i in 0..row.len() / 2 {
            if self.is_named(frozen, name, row[2 * i]) {
                return Some(2 * i + 1);
            }
        }
        None
    }

    // The value of a name in a row of names and their values.
    fn attribute_in(&self, frozen: &Frozen, name: &str, row: &[Val]) -> Option<Val>
        ensures { result ≡ attribute_in (seen frozen.now self.now) name.now row.now }
    {
        match self.name_place(frozen, name, row) {
            Some(i) => Some(row[i]),
            None => None,
        }
    }

    /// The value of an attribute that an object or a class itself has.
    pub fn attribute(&self, frozen: &Frozen, o: ObjId, name: &str) -> Option<Val>
        ensures { result ≡ attribute_in (seen frozen.now self.now) name.now (attributes (row_at (seen frozen.now self.now) o.0)) }
    {
        self.attribute_in(frozen, name, attributes(self.row(frozen, o)))
    }

    /// What a class has under a name, by itself or from its base.
    pub fn inherited(&self, frozen: &Frozen, class: ObjId, name: &str) -> Inherited
        ensures { result ≡ inherited (seen frozen.now self.now) name.now class }
    {
        let mut at = class;
        for _turn in 0..class.0 as u64 + 1 {
            if let Some(v) = self.attribute(frozen, at, name) {
                return Inherited::Found(v, Val::Class(at));
            }
            match first_in(self.row(frozen, at)) {
                Val::Class(base) => at = base,
                Val::Hw(thing) => return Inherited::Thing(thing),
                _ => return Inherited::Nowhere,
            }
        }
        Inherited::Nowhere
    }

    // Whether so many items more pass the count of all.
    pub(crate) fn attributes_pass(&self, frozen: &Frozen, n: usize) -> bool
        requires { n ≤ 2 ^ 63 }
        ensures { result ≡ attributes_pass (seen frozen.now self.now) n }
    {
        frozen.made.items as u64 + self.items as u64 + n as u64 > 4_194_304
    }

    /// A new object of a class, without attributes.
    pub fn object(&mut self, frozen: &Frozen, class: Val) -> Result<Val, ValueStop>
        ensures { Answers (paired result self.new) (new_object (seen frozen.now self.old) class) }
    {
        let mut row = Vals::new(self.alloc);
        let Ok(()) = row.push(class) else {
            return Err(ValueStop::NoMemory);
        };
        match self.new_row(frozen, row) {
            Ok(id) => Ok(Val::Object(ObjId(id))),
            Err(stop) => Err(stop),
        }
    }

    // A class of this row, which counts as so many items.
    fn add_class(&mut self, frozen: &Frozen, row: Vals, count: usize) -> Result<Val, ValueStop>
        requires { self.old.items + count < 2 ^ 32 }
        ensures { Answers (paired result self.new) (class_with (seen frozen.now self.old) count (Ok (row, self.old.texts))) }
    {
        let Ok(id) = next_number(frozen.made.rows.len(), self.rows.len()) else {
            return Err(ValueStop::NoMemory);
        };
        let Ok(()) = self.rows.push(Row::of(self.alloc, row)) else {
            return Err(ValueStop::NoMemory);
        };
        self.items += count as u32;
        Ok(Val::Class(ObjId(id)))
    }

    // How many items the class of a scope counts as.
    fn class_size(&self, i: usize) -> Option<usize>
        ensures size { result ≡ option_map (λ scope. 1 + length scope.bindings) (slice_get self.now.scopes i) }
        ensures small { IfSome result (λ n. n ≤ 2 ^ 63) }
    {
        match self.scopes.get(i) {
            Some(scope) => Some(1 + scope.bindings.len()),
            None => None,
        }
    }

    // The class of what a scope of this heap binds, by its place in it, at so many items.
    fn class_of_own(
        &mut self,
        frozen: &Frozen,
        base: Option<Val>,
        i: usize,
        count: usize,
    ) -> Result<Val, ValueStop>
        requires size { option_map (λ scope. 1 + length scope.bindings) (slice_get self.old.scopes i) ≡ Some count }
        requires small { count ≤ 2 ^ 63 }
        ensures { Answers (paired result self.new) (class_at (seen frozen.now self.old) base (slice_get self.old.scopes i)) }
    {
        if self.attributes_pass(frozen, count) {
            return Err(ValueStop::Limit);
        }
        let Some(scope) = self.scopes.get(i) else {
            return Err(ValueStop::Raised);
        };
        let texts = &mut self.texts;
        match class_row(
            self.alloc,
            texts,
            frozen.made.texts.len(),
            base,
            &scope.bindings,
        ) {
            Ok(row) => self.add_class(frozen, row, count),
            Err(stop) => Err(stop),
        }
    }

    /// A new class with this base, whose attributes are what a scope binds, in its order. A scope that was frozen
    /// refuses it.
    pub fn class(
        &mut self,
        frozen: &Frozen,
        base: Option<Val>,
        scope: ScopeId,
    ) -> Result<Val, ValueStop>
        ensures { Answers (paired result self.new) (new_class (seen frozen.now self.old) base scope.0) }
    {
        let before = frozen.made.scopes.len();
        let i = scope.0 as usize;
        if i < before {
            return Err(ValueStop::Raised);
        }
        match self.class_size(i - before) {
            Some(count) => self.class_of_own(frozen, base, i - before, count),
            None => Err(ValueStop::Raised),
        }
    }

    // Adds a name and its value to a row of this heap.
    fn add_attribute(
        &mut self,
        frozen: &Frozen,
        i: usize,
        name: &str,
        v: Val,
    ) -> Result<(), ValueStop>
        requires { i < length self.old.rows }
        ensures { Answers (paired result self.new) (attribute_added (seen frozen.now self.old) i (row_of self.old.rows i) name.now v) }
    {
        if char_count(name) > 4096 || self.attributes_pass(frozen, 1) {
            return Err(ValueStop::Limit);
        }
        let Ok(id) = next_number(frozen.made.texts.len(), self.texts.len()) else {
            return Err(ValueStop::NoMemory);
        };
        let Ok(()) = self.texts.push(name) else {
            return Err(ValueStop::NoMemory);
        };
        let Ok(()) = self.rows[i].push_pair(Val::Str(StrId(id)), v) else {
            return Err(ValueStop::NoMemory);
        };
        self.items += 1;
        Ok(())
    }

    // Puts the value of a name into a row of this heap.
    fn set_own_attribute(
        &mut self,
        frozen: &Frozen,
        i: usize,
        name: &str,
        v: Val,
    ) -> Result<(), ValueStop>
        requires { i < length self.old.rows }
        ensures { Answers (paired result self.new) (attribute_set_at (seen frozen.now self.old) (Some i) name.now v) }
    {
        match self.name_place(frozen, name, attributes(self.own_row(i))) {
            Some(k) => self.set_own(i, Some(k + 1), v),
            None => self.add_attribute(frozen, i, name, v),
        }
    }

    /// `o.name = v`, of an object or a class. One that was frozen refuses it.
    pub fn set_attribute(
        &mut self,
        frozen: &Frozen,
        o: ObjId,
        name: &str,
        v: Val,
    ) -> Result<(), ValueStop>
        ensures { Answers (paired result self.new) (attribute_set (seen frozen.now self.old) o.0 name.now v) }
    {
        match own_number(frozen.made.rows.len(), self.rows.len(), o.0) {
            Some(i) => self.set_own_attribute(frozen, i, name, v),
            None => Err(ValueStop::Raised),
        }
    }
}
