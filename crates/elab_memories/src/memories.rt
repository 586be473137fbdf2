// Memories that are made.
ghost use Rattle.std.specs.Prelude.{◌≡◌, ◌≤◌, ◌∷◌, [], length, map, drop, string_bytes, false, nat_lt, IfOk, None, Some, Err};
ghost use Rattle.std.specs.List.{AllByRecursion};
ghost use Rattle.amh_bits.specs.Patterns.{IsOf};
ghost use Rattle.py_heap.specs.Heaps.{seen};
ghost use Rattle.py_operators.specs.Elements.{elements};
ghost use Rattle.py_frames.specs.declared.request.Cause.TheVariants.{Limit};
ghost use Rattle.memory_ports.specs.Calls.{new_refusal};
ghost use Rattle.elab_store.specs.Seen.{called_of};
ghost use Rattle.elab_store.specs.Held.{held_of, Gives};
ghost use Rattle.elab_memories.specs.Memories.{no_arguments, once, with_keyword, with_keywords, memory_arguments, size_given, int_given, depth_given, shape_given, all_counted, counted_rows, listed_rows, rows_given, wrapped_rows, spec_where, memory_made, memory_shaped, memory_said, count_refusal, memory_called};

use amh_bits::Int;
use design_ir::Ints;
use elab_store::calls::Called;
use elab_store::kept::Kept;
use elab_store::memories::OwnMemory;
use elab_store::names::is_text;
use elab_store::shapes::Shaped;
use elab_store::store::{Elaboration, Store};
use lists::NoMemory;
use memory_ports::{MemStop, MemorySpec};
use py_frames::request::{Answer, Cause};
use py_heap::{Frozen, Heap};
use py_operators::elements;
use py_values::{Val, ValueStop};
use shape_rules::Shape;
use std::alloc::Global;

/// The arguments of a memory, where they are given.
#[derive(Clone, Copy, PartialEq, Eq, Drop)]
pub struct MemoryArguments {
    pub shape: Option<Val>,
    pub depth: Option<Val>,
    pub init: Option<Val>,
}

// An argument is given once.
fn once(before: Option<Val>, args: MemoryArguments) -> Option<MemoryArguments>
    ensures { result ≡ once before args }
{
    match before {
        None => Some(args),
        Some(_) => None,
    }
}

fn with_keyword(name: &str, v: Val, args: MemoryArguments) -> Option<MemoryArguments>
    ensures { result ≡ with_keyword name.now v args }
{
    let given = Some(v);
    if is_text(name, "shape") {
        let more = MemoryArguments {
            shape: given,
            ..args
        };
        once(args.shape, more)
    } else if is_text(name, "depth") {
        let more = MemoryArguments {
            depth: given,
            ..args
        };
        once(args.depth, more)
    } else if is_text(name, "init") {
        let more = MemoryArguments {
            init: given,
            ..args
        };
        once(args.init, more)
    } else {
        None
    }
}

// Arguments by keyword, each with its value.
fn with_keywords(
    keywords: &[String],
    vals: &[Val],
    args: MemoryArguments,
) -> Option<MemoryArguments>
    ensures { result ≡ with_keywords (map string_bytes keywords.now) vals.now args }
{
    let mut args = args;
    for i in 0..keywords.len() {
        if i >= vals.len() {
            return None;
        }
        args = with_keyword(keywords[i].as_str(), vals[i], args)?;
    }
    Some(args)
}

// All of them are given by keyword.
fn memory_arguments(call: &Called) -> Option<MemoryArguments>
    ensures { result ≡ memory_arguments (called_of call.now) }
{
    let none = MemoryArguments {
        shape: None,
        depth: None,
        init: None,
    };
    match call.placed {
        [] => with_keywords(call.keywords, call.keyword_vals, none),
        _ => None,
    }
}

// A number from 0.
fn size_of(n: Int) -> Option<u128>
    ensures { result ≡ size_given n }
{
    if n.negative { None } else { Some(n.size) }
}

fn int_of(v: &Val) -> Option<Int>
    ensures { result ≡ int_given v.now }
{
    match v {
        Val::Int(n) => Some(n.int()),
        _ => None,
    }
}

// How many rows there are.
fn depth_given(given: Option<Val>) -> Option<u128>
    ensures { result ≡ depth_given given }
{
    let v = given?;
    let n = int_of(&v)?;
    size_of(n)
}

fn shape_given(
    elaboration: &Elaboration,
    heap: &Heap,
    frozen: &Frozen,
    given: Option<Val>,
) -> Result<Shaped, Cause>
    ensures { result ≡ shape_given (seen frozen.now heap.now) (held_of elaboration.now) given }
{
    match given {
        None => Err(Cause::Raised),
        Some(v) => elaboration.store.shaped_meant(heap, frozen, &v),
    }
}

// The integers of all rows.
fn all_counted(store: &Store, alloc: Global, vals: &[Val]) -> Result<Option<Ints>, NoMemory>
    ensures { IfOk result (λ ns. ns ≡ all_counted store.now.things vals.now) }
{
    let mut numbers = Ints::new(alloc);
    for i in 0..vals.len() {
        match store.counted(&vals[i]) {
            Some(n) => numbers.push(n)?,
            None => return Ok(None),
        }
    }
    Ok(Some(numbers))
}

// The rows of a value with elements.
fn listed_rows(
    store: &Store,
    alloc: Global,
    heap: &Heap,
    frozen: &Frozen,
    v: Val,
) -> Result<Result<Ints, Cause>, NoMemory>
    ensures { IfOk result (λ rows. rows ≡ listed_rows store.now.things (elements (seen frozen.now heap.now) v)) }
{
    match elements(heap, frozen, v) {
        Ok(vals) => match all_counted(store, alloc, vals.as_slice())? {
            Some(numbers) => Ok(Ok(numbers)),
            None => Ok(Err(Cause::Raised)),
        },
        Err(ValueStop::NoMemory) => Err(NoMemory),
        Err(ValueStop::Limit) => Ok(Err(Cause::Limit)),
        Err(_) => Ok(Err(Cause::Raised)),
    }
}

fn rows_given(
    store: &Store,
    alloc: Global,
    heap: &Heap,
    frozen: &Frozen,
    given: Option<Val>,
) -> Result<Result<Ints, Cause>, NoMemory>
    ensures { IfOk result (λ rows. rows ≡ rows_given (seen frozen.now heap.now) store.now.things given) }
{
    match given {
        None => Ok(Ok(Ints::new(alloc))),
        Some(Val::List(o)) => listed_rows(store, alloc, heap, frozen, Val::List(o)),
        Some(Val::Tuple(o)) => listed_rows(store, alloc, heap, frozen, Val::Tuple(o)),
        Some(Val::Range(o)) => listed_rows(store, alloc, heap, frozen, Val::Range(o)),
        Some(_) => Ok(Err(Cause::Raised)),
    }
}

// Each integer as one of the shape.
fn wrapped_rows(alloc: Global, shape: Shape, rows: &[Int]) -> Result<Ints, NoMemory>
    ensures rows { IfOk result (λ ns. ns ≡ wrapped_rows shape rows.now) }
    ensures shapes { IfOk result (λ ns. AllByRecursion (IsOf shape.signed shape.width) ns) }
{
    let mut wrapped = Ints::new(alloc);
    for n in rows {
        wrapped.push(n.wrap(shape.width, shape.signed))?;
    }
    Ok(wrapped)
}

// A memory, where no count is passed.
fn memory_of_rows(
    alloc: Global,
    shape: Shape,
    depth: u128,
    rows: &[Int],
) -> Result<Option<MemorySpec>, NoMemory>
    requires { nat_lt depth (length rows.now) ≡ false }
    ensures { IfOk result (λ m. m ≡ spec_where (new_refusal shape depth (length rows.now)) shape depth rows.now) }
{
    let rows = wrapped_rows(alloc, shape, rows)?;
    if depth > 65_536 {
        return Ok(None);
    }
    match MemorySpec::new(alloc, shape, depth as u32, &rows) {
        Ok(spec) => Ok(Some(spec)),
        Err(MemStop::NoMemory) => Err(NoMemory),
        Err(_) => Ok(None),
    }
}

// A new memory is given.
fn give_memory(elaboration: &mut Elaboration, memory: OwnMemory) -> Result<Answer, NoMemory>
    ensures { Gives result elaboration.new (memory_made None memory (held_of elaboration.old)) }
{
    let number = elaboration.store.add_memory(memory)?;
    elaboration.give_kept(Kept::Memory(number))
}

// A memory of these rows, which are no more than its depth.
fn make_shaped(
    elaboration: &mut Elaboration,
    shape: Result<Shaped, Cause>,
    depth: u128,
    rows: &[Int],
) -> Result<Answer, NoMemory>
    requires { nat_lt depth (length rows.now) ≡ false }
    ensures { Gives result elaboration.new (memory_shaped depth rows.now shape (held_of elaboration.old)) }
{
    let shaped = match shape {
        Ok(shaped) => shaped,
        Err(why) => return elaboration.refuse(why),
    };
    match memory_of_rows(elaboration.alloc, shaped.form, depth, rows)? {
        Some(spec) => {
            let memory = OwnMemory {
                spec,
                reading: shaped.reading,
            };
            give_memory(elaboration, memory)
        }
        None => elaboration.refuse(Cause::Limit),
    }
}

// What is told where a count is passed: what the shape refuses comes before it.
fn count_refusal(shape: Result<Shaped, Cause>) -> Cause
    ensures { result ≡ count_refusal shape }
{
    match shape {
        Ok(_) => Cause::Limit,
        Err(why) => why,
    }
}

// There are more rows than may stand in a list.
fn refuse_long(
    elaboration: &mut Elaboration,
    shape: Result<Shaped, Cause>,
    depth: u128,
) -> Result<Answer, NoMemory>
    ensures { Gives result elaboration.new (memory_said (Some depth) (Err Limit) shape (held_of elaboration.old)) }
{
    if depth <= 65_536 {
        elaboration.refuse(Cause::Raised)
    } else {
        elaboration.refuse(count_refusal(shape))
    }
}

/// `Memory(..)`.
pub fn make_memory(
    elaboration: &mut Elaboration,
    heap: &Heap,
    frozen: &Frozen,
    call: &Called,
) -> Result<Answer, NoMemory>
    ensures { Gives result elaboration.new (memory_called (seen frozen.now heap.now) (called_of call.now) (held_of elaboration.old)) }
{
    let Some(args) = memory_arguments(call) else {
        return elaboration.refuse(Cause::Raised);
    };
    let Some(depth) = depth_given(args.depth) else {
        return elaboration.refuse(Cause::Raised);
    };
    let alloc = elaboration.alloc;
    let shape = shape_given(elaboration, heap, frozen, args.shape);
    let rows = match rows_given(&elaboration.store, alloc, heap, frozen, args.init)? {
        Ok(rows) => rows,
        Err(Cause::Limit) => return refuse_long(elaboration, shape, depth),
        Err(_) => return elaboration.refuse(Cause::Raised),
    };
    if rows.len() as u128 > depth {
        return elaboration.refuse(Cause::Raised);
    }
    make_shaped(elaboration, shape, depth, rows.as_slice())
}
