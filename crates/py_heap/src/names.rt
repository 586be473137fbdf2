// What a machine makes by itself.
ghost use Rattle.py_heap.specs.declared.fresh.Fresh.TheVariants as fresh;
ghost use Rattle.py_heap.specs.Heaps.{seen};
ghost use Rattle.py_values.specs.Runs.{Answers, paired};
ghost use Rattle.py_heap.specs.Places.{placed};
ghost use Rattle.py_heap.specs.Names.{literal, new_func};

use crate::fresh::{Fresh, char_count};
use crate::heap::{Frozen, Heap, next_number};
use py_values::{Func, FuncId, StrId, Val, Vals, ValueStop};

impl Heap {
    /// A string of the program's text, which counts among no strings that were made.
    pub fn literal(&mut self, frozen: &Frozen, text: &str) -> Result<Val, ValueStop>
        ensures { Answers (paired result self.new) (literal (seen frozen.now self.old) text.now) }
    {
        if char_count(text) > 4096 {
            return Err(ValueStop::Limit);
        }
        let Ok(id) = next_number(frozen.made.texts.len(), self.texts.len()) else {
            return Err(ValueStop::NoMemory);
        };
        let Ok(()) = self.texts.push(text) else {
            return Err(ValueStop::NoMemory);
        };
        Ok(Val::Str(StrId(id)))
    }

    /// A new list of these values.
    pub fn list(&mut self, frozen: &Frozen, row: Vals) -> Result<Val, ValueStop>
        ensures { Answers (paired result self.new) (placed (seen frozen.now self.old) (fresh.List row)) }
    {
        self.place(frozen, Fresh::List(row))
    }

    /// A new tuple of these values.
    pub fn tuple(&mut self, frozen: &Frozen, row: Vals) -> Result<Val, ValueStop>
        ensures { Answers (paired result self.new) (placed (seen frozen.now self.old) (fresh.Tuple row)) }
    {
        self.place(frozen, Fresh::Tuple(row))
    }

    /// A new function.
    pub fn function(&mut self, frozen: &Frozen, f: Func) -> Result<Val, ValueStop>
        ensures { Answers (paired result self.new) (new_func (seen frozen.now self.old) f) }
    {
        let Ok(id) = next_number(frozen.made.funcs.len(), self.funcs.len()) else {
            return Err(ValueStop::NoMemory);
        };
        let Ok(()) = self.funcs.push(f) else {
            return Err(ValueStop::NoMemory);
        };
        Ok(Val::Func(FuncId(id)))
    }
}
