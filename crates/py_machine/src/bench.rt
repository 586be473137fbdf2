// The begin of a testbench.
ghost use Rattle.std.specs.Prelude.{◌≡◌, ◌<◌, ◌≤◌, [], ◌∷◌, OnOk};
ghost use Rattle.py_values.specs.declared.val.Val.TheVariants as val;
ghost use Rattle.py_heap.specs.Heaps.{seen};
ghost use Rattle.py_frames.specs.Asking.{callee_place};
ghost use Rattle.py_frames.specs.Tables.{IsTable};
ghost use Rattle.py_frames.specs.Frames.{GoesOn};
ghost use Rattle.py_frames.specs.Whole.{origin};
ghost use Rattle.py_machine.specs.Starts.{bench_called, bench_state};

use amh_host::Place;
use py_callables::call_enter::enter;
use py_calls::call_frame::is_async;
use py_frames::frame::Now;
use py_frames::functions::Functions;
use py_frames::going::Going;
use py_frames::request::NamedVals;
use py_frames::state::{Halt, Here, State};
use py_heap::{Frozen, Heap};
use py_turns::call_leaf::{raise, vals_of};
use py_values::{Code, Hw, ScopeId, Val};
use std::alloc::Global;

/// How many calls may stand in one another.
const DEEPEST: u32 = 200;

/// The state before a testbench: nothing was made yet, but what is frozen.
pub fn bench_state(alloc: Global) -> State
    ensures { result ≡ bench_state }
{
    State {
        heap: Heap::new(alloc),
        here: Here {
            scope: ScopeId(0),
            first: None,
            body: None,
            notes: NamedVals::new(alloc),
            room: DEEPEST,
        },
        used: 0,
        bound: 0,
        taken: 0,
    }
}

/// A testbench begins: its function is called with a thing, unless it is none that is `async`.
pub fn bench_begun(
    going: &mut Going,
    functions: &Functions,
    frozen: &Frozen,
    callee: &Val,
    ctx: Hw,
    budget: u64,
) -> Result<Now, Halt>
    requires room { going.old.state.used < budget }
    requires table { IsTable functions.now }
    ensures moves { GoesOn functions.now frozen.now result going.old going.new budget (λ k. bench_called k callee.now ctx) }
    ensures left { OnOk result (going.new.state.used < budget) }
    ensures grows { going.old.state.used ≤ going.new.state.used }
{
    let place = bench_place(going, frozen, callee);
    if is_async(going, functions, frozen, callee) {
        called_with(going, functions, frozen, callee, ctx, place, budget)
    } else {
        raise(going, functions, frozen, place, budget)
    }
}

// A function is called with a thing alone.
#[tactic(auto, using(crate::proofs::BenchLaws::called_alone, py_frames::proofs::BeginLaws::no_memory))]
fn called_with(
    going: &mut Going,
    functions: &Functions,
    frozen: &Frozen,
    callee: &Val,
    ctx: Hw,
    place: Place,
    budget: u64,
) -> Result<Now, Halt>
    requires room { going.old.state.used < budget }
    requires table { IsTable functions.now }
    ensures moves { GoesOn functions.now frozen.now result going.old going.new budget (λ k. k.call callee.now (val.Hw ctx ∷ []) [] place) }
    ensures left { OnOk result (going.new.state.used < budget) }
    ensures grows { going.old.state.used ≤ going.new.state.used }
{
    let Ok(args) = vals_of(going.alloc, &[Val::Hw(ctx)]) else {
        return Err(Halt::NoMemory);
    };
    let keywords = NamedVals::new(going.alloc);
    enter(
        going, functions, frozen, *callee, args, keywords, place, budget,
    )
}

// Where the call stands: at the `def` statement of a function of the file, and else at the file's begin.
fn bench_place(going: &Going, frozen: &Frozen, callee: &Val) -> Place
    ensures { result ≡ callee_place (seen frozen.now going.now.state.heap) origin callee.now }
{
    let origin = Place { line: 1, col: 1 };
    let Val::Func(id) = *callee else {
        return origin;
    };
    let Some(f) = going.state.heap.func(frozen, id) else {
        return origin;
    };
    match f.code {
        Code::Def(at) => at,
        Code::Builtin(_) => origin,
    }
}
