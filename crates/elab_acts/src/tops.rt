// What is elaborated: the top, and its submodules.
ghost use Rattle.std.specs.Prelude.{◌≡◌, map, string_bytes, Some, None, IfOk, OnOk, option_map};
ghost use Rattle.std.specs.Option.{option_copied};
ghost use Rattle.py_values.specs.declared.val.Val.TheVariants as val;
ghost use Rattle.py_heap.specs.Heaps.{seen, func_at};
ghost use Rattle.py_heap.specs.Objects.{first_in};
ghost use Rattle.elab_acts.specs.Tops.{is_unbound, is_method, method_calling, found_calling, class_calling, object_calling, elaborate_of, global, top_called, below_called, value_walked, with_wraps, with_root_wraps, walk, elaborated, top_of, named_top, body_taken, body_ended, ended_by, elaborate_ended, call_args};
ghost use Rattle.elab_store.specs.Stores.{object_in, first_object, kept_of, module_of, node_in, inner_of, wraps_in};
ghost use Rattle.elab_store.specs.Held.{held_of, Gives};

use elab_store::kept::{Kept, Top};
use elab_store::names::is_text;
use elab_store::store::Elaboration;
use lists::NoMemory;
use py_frames::request::{Answer, Cause, Request};
use py_heap::{Frozen, Heap, Inherited};
use py_values::{Code, FuncId, ObjId, Val, Vals};
use std::alloc::Global;

/// A design has so many submodules at most.
pub(crate) const MOST_SUBMODULES: usize = 4_096;

/// How deep they may stand in one another.
const DEEPEST_SUBMODULE: u32 = 64;

/// `elaborate` of an object: what is called, and whether with the object before the platform.
#[derive(Clone, Copy, PartialEq, Eq, Drop)]
pub struct Calling {
    pub callee: Val,
    pub first: Option<ObjId>,
}

// A function that `def` made and that is bound to no object yet.
fn is_method(heap: &Heap, frozen: &Frozen, f: FuncId) -> bool
    ensures { result ≡ is_method (func_at (seen frozen.now heap.now) f.0) }
{
    match heap.func(frozen, f) {
        Some(f) => is_unbound(&f.code, &f.this),
        None => false,
    }
}

fn is_unbound(code: &Code, this: &Option<Val>) -> bool
    ensures { result ≡ is_unbound code.now this.now }
{
    match (code, this) {
        (Code::Def(_), None) => true,
        _ => false,
    }
}

// What a class has as `elaborate`, for an object of it.
fn method_calling(heap: &Heap, frozen: &Frozen, o: ObjId, v: Val) -> Calling
    ensures { result ≡ method_calling (seen frozen.now heap.now) o v }
{
    let first = match v {
        Val::Func(f) if is_method(heap, frozen, f) => Some(o),
        _ => None,
    };
    Calling { callee: v, first }
}

fn class_calling(heap: &Heap, frozen: &Frozen, o: ObjId, class: Val) -> Option<Calling>
    ensures { result ≡ class_calling (seen frozen.now heap.now) o class }
{
    let Val::Class(class) = class else {
        return None;
    };
    match heap.inherited(frozen, class, "elaborate") {
        Inherited::Found(v, _) => Some(method_calling(heap, frozen, o, v)),
        _ => None,
    }
}

/// The first item of a row, which of an object is its class.
pub fn first_in(row: &[Val]) -> Val
    ensures { result ≡ first_in row.now }
{
    match row {
        [] => Val::None,
        [first, ..] => *first,
    }
}

// `elaborate` of an object: its own, or that of its class.
fn object_calling(heap: &Heap, frozen: &Frozen, o: ObjId) -> Option<Calling>
    ensures { result ≡ elaborate_of (seen frozen.now heap.now) (val.Object o) }
{
    match heap.attribute(frozen, o, "elaborate") {
        Some(v) => Some(Calling {
            callee: v,
            first: None,
        }),
        None => class_calling(heap, frozen, o, first_in(heap.row(frozen, o))),
    }
}

/// `elaborate` of a value, where it is an object that has it.
pub(crate) fn elaborate_of(heap: &Heap, frozen: &Frozen, v: Val) -> Option<Calling>
    ensures { result ≡ elaborate_of (seen frozen.now heap.now) v }
{
    match v {
        Val::Object(o) => object_calling(heap, frozen, o),
        _ => None,
    }
}

fn call_args(alloc: Global, first: Option<ObjId>) -> Result<Vals, NoMemory>
    ensures { IfOk result (λ vals. vals ≡ call_args first) }
{
    let mut args = Vals::new(alloc);
    if let Some(o) = first {
        args.push(Val::Object(o))?;
    }
    args.push(Val::None)?;
    Ok(args)
}

// The value of a global.
fn global(name: &str, vals: &[Val], names: &[String]) -> Option<Val>
    ensures { result ≡ global name.now vals.now (map string_bytes names.now) }
{
    for i in 0..names.len() {
        if i >= vals.len() {
            return None;
        }
        if is_text(names[i].as_str(), name) {
            return Some(vals[i]);
        }
    }
    None
}

// `elaborate` is called, and the object is noted where it is the first.
fn call_top(
    elaboration: &mut Elaboration,
    heap: &Heap,
    frozen: &Frozen,
    v: &Val,
) -> Result<Answer, NoMemory>
    ensures { Gives result elaboration.new (top_called v.now (elaborate_of (seen frozen.now heap.now) v.now) (held_of elaboration.old)) }
{
    let Some(calling) = elaborate_of(heap, frozen, *v) else {
        return elaboration.refuse(Cause::Raised);
    };
    let args = call_args(elaboration.alloc, calling.first)?;
    elaboration.store.ask_object(*v);
    Ok(Answer::Call {
        callee: calling.callee,
        args,
    })
}

// `elaborate` of a submodule is called.
fn call_below(
    elaboration: &mut Elaboration,
    heap: &Heap,
    frozen: &Frozen,
    v: Val,
) -> Result<Answer, NoMemory>
    ensures { Gives result elaboration.new (below_called (elaborate_of (seen frozen.now heap.now) v) (held_of elaboration.old)) }
{
    let Some(calling) = elaborate_of(heap, frozen, v) else {
        return elaboration.refuse(Cause::Raised);
    };
    let args = call_args(elaboration.alloc, calling.first)?;
    Ok(Answer::Call {
        callee: calling.callee,
        args,
    })
}

// What waits first is this value: its wrappers stand in the tree.
fn take_wraps(elaboration: &mut Elaboration, v: &Val) -> Result<(), NoMemory>
    ensures { OnOk result (held_of elaboration.new ≡ with_wraps (wraps_in elaboration.old.store v.now) (held_of elaboration.old)) }
{
    let bys = elaboration.store.wraps_in(elaboration.alloc, v)?;
    elaboration.store.take_wraps(bys.as_slice())
}

// The top is this value: its wrappers stand around it.
fn wrap_root(elaboration: &mut Elaboration, v: &Val) -> Result<(), NoMemory>
    ensures { OnOk result (held_of elaboration.new ≡ with_root_wraps (wraps_in elaboration.old.store v.now) (held_of elaboration.old)) }
{
    let bys = elaboration.store.wraps_in(elaboration.alloc, v)?;
    elaboration.store.wrap_root(bys.as_slice())
}

// What waits is elaborated, one after the other, until nothing does or `elaborate` has to be called.
fn walk(elaboration: &mut Elaboration, heap: &Heap, frozen: &Frozen) -> Result<Answer, NoMemory>
    ensures { Gives result elaboration.new (walk (seen frozen.now heap.now) (held_of elaboration.old)) }
{
    let room = MOST_SUBMODULES.saturating_sub(elaboration.store.hierarchy().taken());
    for i in 0..room {
        let Some(next) = elaboration.store.hierarchy().first_waiting() else {
            return elaboration.give(Val::None);
        };
        if next.depth > DEEPEST_SUBMODULE {
            return elaboration.refuse(Cause::Limit);
        }
        let Some(v) = elaboration.store.hierarchy().thing_waiting() else {
            return elaboration.refuse(Cause::Raised);
        };
        let inner = elaboration.store.inner_of(&v);
        let node = elaboration.store.node_of(&inner);
        take_wraps(elaboration, &v)?;
        let Some(node) = node else {
            return call_below(elaboration, heap, frozen, inner);
        };
        elaboration.store.take_node(node)?;
    }
    match elaboration.store.hierarchy().first_waiting() {
        Some(_) => elaboration.refuse(Cause::Limit),
        None => elaboration.give(Val::None),
    }
}

// A value is elaborated as the top: of a module the submodules follow, and of an object `elaborate` is called. Its wrappers are noted.
fn elaborate(
    elaboration: &mut Elaboration,
    heap: &Heap,
    frozen: &Frozen,
    v: Val,
) -> Result<Answer, NoMemory>
    ensures { Gives result elaboration.new (elaborated (seen frozen.now heap.now) v (held_of elaboration.old)) }
{
    let inner = elaboration.store.inner_of(&v);
    let module = elaboration.store.module_of(&inner);
    wrap_root(elaboration, &v)?;
    match module {
        Some(m) => {
            elaboration.store.enter_top(m)?;
            walk(elaboration, heap, frozen)
        }
        None => call_top(elaboration, heap, frozen, &inner),
    }
}

// `elaborate` of a submodule gave a value: a module or a memory stands in the tree behind its wrappers, and of an object `elaborate` is called
// again.
fn elaborate_below(
    elaboration: &mut Elaboration,
    heap: &Heap,
    frozen: &Frozen,
    v: Val,
) -> Result<Answer, NoMemory>
    ensures { let s = seen frozen.now heap.now in Gives result elaboration.new (value_walked s (walk s) v (held_of elaboration.old)) }
{
    let inner = elaboration.store.inner_of(&v);
    let node = elaboration.store.node_of(&inner);
    take_wraps(elaboration, &v)?;
    match node {
        Some(node) => {
            elaboration.store.take_node(node)?;
            walk(elaboration, heap, frozen)
        }
        None => call_below(elaboration, heap, frozen, inner),
    }
}

// What is simulated, and else the global.
fn top_of(subject: Option<Val>, global: Option<Val>) -> Option<Val>
    ensures { result ≡ top_of subject global }
{
    match subject {
        Some(v) => Some(v),
        None => global,
    }
}

// The top: the global of the name that the words give, where they give one.
fn named_top(name: Option<&str>, subject: Option<Val>, request: &Request) -> Option<Val>
    ensures { result ≡ named_top (option_copied name.entry) subject request.now.vals request.now.names }
{
    let (vals, names) = (request.vals.as_slice(), request.names.items());
    match name {
        Some(name) => global(name, vals, names),
        None => top_of(subject, global("top", vals, names)),
    }
}

/// The body of the program ended. The words may name the top.
pub fn end_body(
    elaboration: &mut Elaboration,
    heap: &Heap,
    frozen: &Frozen,
    name: Option<&str>,
    request: &Request,
) -> Result<Answer, NoMemory>
    ensures { Gives result elaboration.new (body_ended (option_copied name.entry) (seen frozen.now heap.now) request.now.vals request.now.names (held_of elaboration.old)) }
{
    match named_top(name, elaboration.store.simulation().subject(), request) {
        Some(v) => elaborate(elaboration, heap, frozen, v),
        None => elaboration.refuse(Cause::Raised),
    }
}

/// `elaborate` ended.
pub fn end_elaborate(
    elaboration: &mut Elaboration,
    heap: &Heap,
    frozen: &Frozen,
    request: &Request,
) -> Result<Answer, NoMemory>
    ensures { Gives result elaboration.new (elaborate_ended (seen frozen.now heap.now) request.now.vals (held_of elaboration.old)) }
{
    match (request.vals.as_slice(), elaboration.store.top.root) {
        ([v, ..], None) => elaborate(elaboration, heap, frozen, *v),
        ([v, ..], Some(_)) => elaborate_below(elaboration, heap, frozen, *v),
        ([], _) => elaboration.refuse(Cause::Raised),
    }
}
