// What attributes need of the heap alone.
ghost use Rattle.std.specs.Prelude.{◌≡◌, IfOk, Ok};
ghost use Rattle.py_heap.specs.Heaps.{seen, row_at, func_at};
ghost use Rattle.py_frames.specs.Values.{method_of, is_plain_code, list_method, dict_method, head_of, is_init};
ghost use Rattle.py_frames.specs.Calling.{bound_func, bound_method, is_super};

use amh_host::NoMemory;
use py_frames::going::Going;
use py_heap::{Frozen, Heap};
use py_turns::call_leaf::vals_of;
use py_values::{Builtin, Code, Func, FuncId, ObjId, Val};
use std::alloc::Global;

// Whether reading a function from a class binds it.
fn is_plain_code(code: Code, this: Option<Val>) -> bool
    ensures { result ≡ is_plain_code code this }
{
    match (code, this) {
        (Code::Def(_), None) => true,
        (Code::Builtin(Builtin::InitNothing), None) => true,
        _ => false,
    }
}

/// Whether `super()` gave a function.
pub fn is_super(code: Code) -> bool
    ensures { result ≡ is_super code }
{
    match code {
        Code::Builtin(Builtin::Super) => true,
        _ => false,
    }
}

/// Whether a name is `__init__`.
pub fn is_init(name: &str) -> bool
    ensures { result ≡ is_init name.now }
{
    name == "__init__"
}

// The method that a function of a class becomes.
fn method_of(alloc: Global, f: &Func, this: Option<Val>) -> Result<Func, NoMemory>
    ensures { IfOk result (λ method. method ≡ method_of f.now this) }
{
    let Ok(defaults) = vals_of(alloc, f.defaults.as_slice()) else {
        return Err(NoMemory);
    };
    Ok(Func {
        code: f.code,
        this,
        home: f.home,
        defaults,
        scope: f.scope,
    })
}

// A function that was found in a class, as a method.
fn method_func(
    heap: &mut Heap,
    frozen: &Frozen,
    alloc: Global,
    id: FuncId,
    this: Option<Val>,
) -> Result<Val, NoMemory>
    ensures { IfOk result (λ m. bound_func (seen frozen.now heap.old) (func_at (seen frozen.now heap.old) id.0) (Val.Func id) this ≡ Ok (m, heap.new)) }
{
    let Some(f) = heap.func(frozen, id) else {
        return Ok(Val::Func(id));
    };
    if !is_plain_code(f.code, f.this) {
        return Ok(Val::Func(id));
    }
    let Ok(method) = method_of(alloc, f, this) else {
        return Err(NoMemory);
    };
    match heap.function(frozen, method) {
        Ok(v) => Ok(v),
        Err(_) => Err(NoMemory),
    }
}

/// A value that was found in a class, as it is read.
pub fn method_val(
    heap: &mut Heap,
    frozen: &Frozen,
    alloc: Global,
    v: Val,
    this: Option<Val>,
) -> Result<Val, NoMemory>
    ensures { IfOk result (λ m. bound_method (seen frozen.now heap.old) v this ≡ Ok (m, heap.new)) }
{
    match v {
        Val::Func(id) => method_func(heap, frozen, alloc, id, this),
        _ => Ok(v),
    }
}

/// The method of a list that has this name.
pub fn list_method(name: &str) -> Option<Builtin>
    ensures { result ≡ list_method name.now }
{
    match name {
        "append" => Some(Builtin::Append),
        "extend" => Some(Builtin::Extend),
        "insert" => Some(Builtin::Insert),
        "pop" => Some(Builtin::Pop),
        _ => None,
    }
}

/// The method of a dict that has this name.
pub fn dict_method(name: &str) -> Option<Builtin>
    ensures { result ≡ dict_method name.now }
{
    match name {
        "items" => Some(Builtin::Items),
        "keys" => Some(Builtin::Keys),
        "values" => Some(Builtin::Values),
        "get" => Some(Builtin::Get),
        _ => None,
    }
}

fn head_of(row: &[Val]) -> Val
    ensures { result ≡ head_of row.now }
{
    match row {
        [] => Val::None,
        [v, ..] => *v,
    }
}

/// The class of an object, or the base of a class.
pub fn first_of_row(going: &Going, frozen: &Frozen, o: ObjId) -> Val
    ensures { result ≡ head_of (row_at (seen frozen.now going.now.state.heap) o.0) }
{
    head_of(going.state.heap.row(frozen, o))
}
