// What stands in a machine before the body of its program: the builtins, the module's name and the module's scope.
ghost use Rattle.std.specs.Prelude.{◌≡◌, ◌++◌, [], ◌∷◌, map, IfOk, OnOk};
ghost use Rattle.py_frames.specs.Whole.{builtin_func, builtin_funcs, module_scope, first_heap, first_here, first_state};

use crate::request::NamedVals;
use crate::state::{Here, State};
use amh_host::{Names, NoMemory};
use py_heap::{Frozen, Heap};
use py_values::{Builtin, Code, Func, OwnNames, ScopeId, Vals};
use std::alloc::Global;

/// How many calls may stand in one another.
const DEEPEST: u32 = 200;

/// The state before the body.
pub fn first_state(alloc: Global) -> Result<State, NoMemory>
    ensures { IfOk result (λ s. s ≡ first_state) }
{
    match first_heap(alloc) {
        Ok(heap) => Ok(State {
            heap,
            here: first_here(alloc),
            used: 0,
            bound: 0,
            taken: 0,
        }),
        Err(_) => Err(NoMemory),
    }
}

// Where the body stands.
fn first_here(alloc: Global) -> Here
    ensures { result ≡ first_here }
{
    Here {
        scope: ScopeId(0),
        first: None,
        body: None,
        notes: NamedVals::new(alloc),
        room: DEEPEST,
    }
}

// The heap before the body.
fn first_heap(alloc: Global) -> Result<Heap, NoMemory>
    ensures { IfOk result (λ h. h ≡ first_heap) }
{
    let frozen = Frozen::empty(alloc);
    let mut heap = Heap::new(alloc);
    let Ok(_) = heap.literal(&frozen, "__main__") else {
        return Err(NoMemory);
    };
    let Ok(()) = add_all(&mut heap, &frozen, alloc) else {
        return Err(NoMemory);
    };
    match add_scope(&mut heap, &frozen, alloc) {
        Ok(()) => Ok(heap),
        Err(_) => Err(NoMemory),
    }
}

// The module's scope.
fn add_scope(heap: &mut Heap, frozen: &Frozen, alloc: Global) -> Result<(), NoMemory>
    ensures { OnOk result (heap.new ≡ record heap.old { scopes = heap.old.scopes ++ module_scope ∷ [] }) }
{
    let Ok(own) = OwnNames::new(alloc, Names::new(alloc)) else {
        return Err(NoMemory);
    };
    match heap.scope(frozen, None, false, own) {
        Ok(_) => Ok(()),
        Err(_) => Err(NoMemory),
    }
}

// All builtins, in the order of their names, and behind them those that are imported.
fn add_all(heap: &mut Heap, frozen: &Frozen, alloc: Global) -> Result<(), NoMemory>
    ensures { OnOk result (heap.new ≡ record heap.old { funcs = heap.old.funcs ++ builtin_funcs }) }
{
    let which = [
        Builtin::Range,
        Builtin::Len,
        Builtin::Int,
        Builtin::Str,
        Builtin::Bool,
        Builtin::List,
        Builtin::Tuple,
        Builtin::Dict,
        Builtin::Enumerate,
        Builtin::Zip,
        Builtin::Reversed,
        Builtin::Min,
        Builtin::Max,
        Builtin::Sum,
        Builtin::Abs,
        Builtin::Print,
        Builtin::Super,
        Builtin::CeilLog2,
        Builtin::BitsFor,
    ];
    add_builtins(heap, frozen, alloc, &which)
}

fn add_builtins(
    heap: &mut Heap,
    frozen: &Frozen,
    alloc: Global,
    which: &[Builtin],
) -> Result<(), NoMemory>
    ensures { OnOk result (heap.new ≡ record heap.old { funcs = heap.old.funcs ++ map builtin_func which.now }) }
{
    for builtin in which {
        let Ok(()) = add_builtin(heap, frozen, alloc, *builtin) else {
            return Err(NoMemory);
        };
    }
    Ok(())
}

fn add_builtin(
    heap: &mut Heap,
    frozen: &Frozen,
    alloc: Global,
    builtin: Builtin,
) -> Result<(), NoMemory>
    ensures { OnOk result (heap.new ≡ record heap.old { funcs = heap.old.funcs ++ builtin_func builtin ∷ [] }) }
{
    let f = Func {
        code: Code::Builtin(builtin),
        this: None,
        home: None,
        defaults: Vals::new(alloc),
        scope: None,
    };
    match heap.function(frozen, f) {
        Ok(_) => Ok(()),
        Err(_) => Err(NoMemory),
    }
}
