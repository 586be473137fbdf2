// What an operator or a builtin gives, before it stands in a heap.
ghost use Rattle.std.specs.Prelude.{◌≡◌, ◌++◌, length, Ok};
ghost use Rattle.std.specs.Str.{chars};
ghost use Rattle.py_heap.specs.Heaps.{seen};
ghost use Rattle.py_values.specs.Runs.{Answers, paired};
ghost use Rattle.py_heap.specs.Places.{new_text, new_row, placed, row_passes, text_passes, span_row, new_range};

use crate::heap::{Frozen, Heap, next_number};
use crate::row::Row;
use lists::Text;
use py_values::{Number, ObjId, Span, StrId, Val, Vals, ValueStop};
use std::alloc::Global;

/// A value that stands, or what a new one has in it.
#[derive(Drop)]
pub enum Fresh {
    Val(Val),
    Text(Text),
    List(Vals),
    Tuple(Vals),
}

// How many characters a text has.
pub fn char_count(text: &str) -> usize
    ensures { result ≡ length (chars text.now) }
{
    text.chars().count()
}

impl Heap {
    // Whether a new string of so many characters passes a count.
    fn text_passes(&self, frozen: &Frozen, n: usize) -> bool
        ensures { result ≡ text_passes (seen frozen.now self.now) n }
    {
        n > 4096 || frozen.made.chars as u64 + self.chars as u64 + n as u64 > 16_777_216
    }

    // Whether a new row of so many items passes a count.
    fn row_passes(&self, frozen: &Frozen, n: usize) -> bool
        ensures { result ≡ row_passes (seen frozen.now self.now) n }
    {
        n > 65_536 || frozen.made.items as u64 + self.items as u64 + n as u64 > 4_194_304
    }

    /// A new string.
    pub fn new_text(&mut self, frozen: &Frozen, text: &str) -> Result<Val, ValueStop>
        ensures { Answers (paired result self.new) (new_text (seen frozen.now self.old) text.now) }
    {
        let count = char_count(text);
        if self.text_passes(frozen, count) {
            return Err(ValueStop::Limit);
        }
        let Ok(id) = next_number(frozen.made.texts.len(), self.texts.len()) else {
            return Err(ValueStop::NoMemory);
        };
        let Ok(()) = self.texts.push(text) else {
            return Err(ValueStop::NoMemory);
        };
        self.chars += count as u32;
        Ok(Val::Str(StrId(id)))
    }

    /// A new row of values.
    pub(crate) fn new_row(&mut self, frozen: &Frozen, row: Vals) -> Result<u32, ValueStop>
        ensures { Answers (paired result self.new) (new_row (seen frozen.now self.old) row) }
    {
        let count = row.len();
        if self.row_passes(frozen, count) {
            return Err(ValueStop::Limit);
        }
        let Ok(id) = next_number(frozen.made.rows.len(), self.rows.len()) else {
            return Err(ValueStop::NoMemory);
        };
        let Ok(()) = self.rows.push(Row::of(self.alloc, row)) else {
            return Err(ValueStop::NoMemory);
        };
        self.items += count as u32;
        Ok(id)
    }

    /// The value of what is new.
    pub fn place(&mut self, frozen: &Frozen, fresh: Fresh) -> Result<Val, ValueStop>
        ensures { Answers (paired result self.new) (placed (seen frozen.now self.old) fresh) }
    {
        match fresh {
            Fresh::Val(v) => Ok(v),
            Fresh::Text(text) => self.new_text(frozen, text.as_str()),
            Fresh::List(row) => match self.new_row(frozen, row) {
                Ok(id) => Ok(Val::List(ObjId(id))),
                Err(stop) => Err(stop),
            },
            Fresh::Tuple(row) => match self.new_row(frozen, row) {
                Ok(id) => Ok(Val::Tuple(ObjId(id))),
                Err(stop) => Err(stop),
            },
        }
    }
}

// The row of a range.
fn span_row(alloc: Global, r: Span) -> Result<Vals, ValueStop>
    ensures { Answers result (Ok (span_row r)) }
{
    let mut row = Vals::new(alloc);
    let start = Val::Int(Number::of(r.start));
    let stop = Val::Int(Number::of(r.stop));
    let step = Val::Int(Number::of(r.step));
    match row.extend(&[start, stop, step]) {
        Ok(()) => Ok(row),
        Err(_) => Err(ValueStop::NoMemory),
    }
}

impl Heap {
    /// A new range, where one is asked for. It counts no items.
    pub fn new_range(&mut self, frozen: &Frozen, r: Option<Span>) -> Result<Val, ValueStop>
        ensures { Answers (paired result self.new) (new_range (seen frozen.now self.old) r) }
    {
        let Some(r) = r else {
            return Err(ValueStop::Raised);
        };
        let Ok(id) = next_number(frozen.made.rows.len(), self.rows.len()) else {
            return Err(ValueStop::NoMemory);
        };
        let Ok(row) = span_row(self.alloc, r) else {
            return Err(ValueStop::NoMemory);
        };
        let Ok(()) = self.rows.push(Row::of(self.alloc, row)) else {
            return Err(ValueStop::NoMemory);
        };
        Ok(Val::Range(ObjId(id)))
    }
}
