// An index, and an assignment to one.
ghost use Rattle.std.specs.Prelude.{◌≡◌, slice_get, length, encode_utf8, IfOk, IfErr, Ok, Some};
ghost use Rattle.std.specs.Str.{chars};
ghost use Rattle.std.specs.Option.{option_map, option_and_then};
ghost use Rattle.py_values.specs.declared.val.Val.TheVariants as val;
ghost use Rattle.py_heap.specs.Heaps.{seen, text_at, row_at};
ghost use Rattle.py_values.specs.Runs.{Answers, paired};
ghost use Rattle.py_values.specs.Numbers.{number_of};
ghost use Rattle.py_values.specs.Ranges.{span_of};
ghost use Rattle.py_operators.specs.Spans.{span_item};
ghost use Rattle.py_builtins.specs.Indices.{item_of, value_shown, character_shown, key_item, indexed, index_of, none_given, item_put, index_set};

use amh_bits::Int;
use lists::Text;
use py_heap::{Fresh, Frozen, Heap, index_place, is_key};
use py_operators::span_item;
use py_values::{Number, ObjId, Val, ValueStop, number_of, span_of};
use std::alloc::Global;

/// The characters of a text.
pub(crate) fn characters(alloc: Global, text: &str) -> Result<Vec<char>, ValueStop>
    ensures all { IfOk result (λ cs. cs.items ≡ chars text.now) }
    ensures memory { IfErr result (λ stop. stop ≡ ValueStop.NoMemory) }
{
    match text.chars().collect(alloc) {
        Ok(cs) => Ok(cs),
        Err(_) => Err(ValueStop::NoMemory),
    }
}

// A string of one character.
fn character_text(alloc: Global, c: char) -> Result<Text, ValueStop>
    ensures { Answers result (Ok (encode_utf8 c)) }
{
    let mut bytes = String::new(alloc);
    let Ok(()) = bytes.push(c) else {
        return Err(ValueStop::NoMemory);
    };
    let mut text = Text::new(alloc);
    match text.push(bytes.as_str()) {
        Ok(()) => Ok(text),
        Err(_) => Err(ValueStop::NoMemory),
    }
}

// The character at an index of a text.
fn character_at(cs: &[char], n: Option<Int>) -> Option<char>
    ensures { result ≡ option_and_then (item_of cs.now) n }
{
    match n {
        Some(n) => match index_place(cs.len(), n) {
            Some(i) => Some(cs[i]),
            None => None,
        },
        None => None,
    }
}

// The value at an index of a row.
fn value_at(row: &[Val], n: Option<Int>) -> Option<Val>
    ensures { result ≡ option_and_then (item_of row.now) n }
{
    match n {
        Some(n) => match index_place(row.len(), n) {
            Some(i) => Some(row[i]),
            None => None,
        },
        None => None,
    }
}

// The element at an index of a range.
fn number_at(row: &[Val], n: Option<Int>) -> Option<Val>
    ensures { result ≡ option_map val.Int (option_and_then (span_item (span_of row.now)) n) }
{
    match n {
        Some(n) => match span_item(&span_of(row), n) {
            Some(m) => Some(Val::Int(Number::of(m))),
            None => None,
        },
        None => None,
    }
}

fn value_shown(v: Option<Val>) -> Result<Fresh, ValueStop>
    ensures { Answers result (value_shown v) }
{
    match v {
        Some(v) => Ok(Fresh::Val(v)),
        None => Err(ValueStop::Raised),
    }
}

// The character at an index of a text, as a string.
fn character_shown(alloc: Global, text: &str, n: Option<Int>) -> Result<Fresh, ValueStop>
    ensures { Answers result (character_shown (option_and_then (item_of (chars text.now)) n)) }
{
    let cs = match characters(alloc, text) {
        Ok(cs) => cs,
        Err(_) => return Err(ValueStop::NoMemory),
    };
    match character_at(&cs, n) {
        Some(c) => match character_text(alloc, c) {
            Ok(text) => Ok(Fresh::Text(text)),
            Err(_) => Err(ValueStop::NoMemory),
        },
        None => Err(ValueStop::Raised),
    }
}

// The value of a key in the row of a dict.
fn key_item(heap: &Heap, frozen: &Frozen, k: Val, o: ObjId) -> Option<Val>
    ensures { result ≡ key_item (seen frozen.now heap.now) k (row_at (seen frozen.now heap.now) o.0) }
{
    if !is_key(k) {
        return None;
    }
    match heap.dict_place(frozen, &k, o) {
        Some(i) => Some(heap.row(frozen, o)[i]),
        None => None,
    }
}

// What stands at an index of a value.
fn indexed(heap: &Heap, frozen: &Frozen, a: Val, i: Val) -> Result<Fresh, ValueStop>
    ensures { Answers result (indexed (seen frozen.now heap.now) a i) }
{
    match a {
        Val::Str(x) => character_shown(heap.alloc(), heap.text(frozen, x), number_of(i)),
        Val::List(o) | Val::Tuple(o) => value_shown(value_at(heap.row(frozen, o), number_of(i))),
        Val::Dict(o) => value_shown(key_item(heap, frozen, i, o)),
        Val::Range(o) => value_shown(number_at(heap.row(frozen, o), number_of(i))),
        _ => Err(ValueStop::Raised),
    }
}

/// `a[i]`.
pub(crate) fn index_of(heap: &Heap, frozen: &Frozen, args: &[Val]) -> Result<Fresh, ValueStop>
    ensures { Answers result (index_of (seen frozen.now heap.now) args.now) }
{
    match args {
        [a, i] => indexed(heap, frozen, *a, *i),
        _ => Err(ValueStop::Raised),
    }
}

// Puts a value at an index of a list.
fn item_put(
    heap: &mut Heap,
    frozen: &Frozen,
    o: ObjId,
    n: Option<Int>,
    v: Val,
) -> Result<(), ValueStop>
    ensures { Answers (paired result heap.new) (item_put (seen frozen.now heap.old) o.0 n v) }
{
    match n {
        Some(n) => heap.set_item(frozen, o, n, v),
        None => Err(ValueStop::Raised),
    }
}

/// `a[i] = v`.
pub(crate) fn index_set(heap: &mut Heap, frozen: &Frozen, args: &[Val]) -> Result<Val, ValueStop>
    ensures { Answers (paired result heap.new) (index_set (seen frozen.now heap.old) args.now) }
{
    match args {
        [Val::List(o), i, v] => none_given(item_put(heap, frozen, *o, number_of(*i), *v)),
        [Val::Dict(o), k, v] => none_given(heap.set_key(frozen, *o, k, *v)),
        _ => Err(ValueStop::Raised),
    }
}

/// A change gives `None`.
pub(crate) fn none_given(changed: Result<(), ValueStop>) -> Result<Val, ValueStop>
    ensures { result ≡ none_given changed }
{
    match changed {
        Ok(()) => Ok(Val::None),
        Err(stop) => Err(stop),
    }
}
