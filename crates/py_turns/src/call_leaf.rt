// What calls and attributes have in common: requests, and the plain ends of a turn.
ghost use Rattle.std.specs.Prelude.{◌≡◌, [], ◌∷◌, IfOk};
ghost use Rattle.py_frames.specs.declared.request.Cause.TheVariants.{Raised, Spent};
ghost use Rattle.py_frames.specs.Doing.{give, stop, making, heap_seen};
ghost use Rattle.py_frames.specs.Asking.{request, ask};
ghost use Rattle.py_frames.specs.Calling.{told_done};
ghost use Rattle.py_frames.specs.Frames.{GoesOn, KeepsRoom, within};
ghost use Rattle.py_heap.specs.Names.{new_func};

use amh_host::{Names, NoMemory, Place};
use py_frames::frame::{Frame, Now};
use py_frames::functions::Functions;
use py_frames::going::{Going, ask, told};
use py_frames::request::{Act, Cause, Request, Stop};
use py_frames::state::{Got, Halt};
use py_heap::Frozen;
use py_values::{Func, Val, Vals, ValueStop};
use std::alloc::Global;

/// A list of these values.
pub fn vals_of(alloc: Global, items: &[Val]) -> Result<Vals, NoMemory>
    ensures { IfOk result (λ vals. vals ≡ items.now) }
{
    let mut vals = Vals::new(alloc);
    match vals.extend(items) {
        Ok(()) => Ok(vals),
        Err(_) => Err(NoMemory),
    }
}

/// A request about values alone.
pub fn about(alloc: Global, act: Act, items: &[Val], place: Place) -> Result<Request, NoMemory>
    ensures { IfOk result (λ r. r ≡ request act items.now [] place) }
{
    let Ok(vals) = vals_of(alloc, items) else {
        return Err(NoMemory);
    };
    Ok(Request {
        act,
        vals,
        names: Names::new(alloc),
        place,
    })
}

/// A request about values and one name.
pub fn about_name(
    alloc: Global,
    act: Act,
    items: &[Val],
    name: &str,
    place: Place,
) -> Result<Request, NoMemory>
    ensures { IfOk result (λ r. r ≡ request act items.now (name.now ∷ []) place) }
{
    let Ok(vals) = vals_of(alloc, items) else {
        return Err(NoMemory);
    };
    let mut names = Names::new(alloc);
    match names.push(name) {
        Ok(()) => Ok(Request {
            act,
            vals,
            names,
            place,
        }),
        Err(_) => Err(NoMemory),
    }
}

/// What a change of the heap gave, as the machine tells it.
pub fn told_done(given: Result<(), ValueStop>, place: Place) -> Result<Now, Halt>
    ensures { result ≡ told_done given place }
{
    match given {
        Ok(()) => Ok(Now::Came(Got::Next)),
        Err(e) => told(Err(e), place),
    }
}

/// A value.
#[tactic(auto, using(py_frames::proofs::BeginLaws::turn_rules))]
pub fn give(
    going: &Going,
    _functions: &Functions,
    _frozen: &Frozen,
    v: Val,
    _budget: u64,
) -> Result<Now, Halt>
    ensures { GoesOn _functions.now _frozen.now result going.now going.now _budget (λ k. give v) }
{
    Ok(Now::Came(Got::Value(v)))
}

/// Python raises.
#[tactic(auto, using(py_frames::proofs::BeginLaws::turn_rules))]
pub fn raise(
    going: &Going,
    _functions: &Functions,
    _frozen: &Frozen,
    place: Place,
    _budget: u64,
) -> Result<Now, Halt>
    ensures { GoesOn _functions.now _frozen.now result going.now going.now _budget (λ k. stop Raised place) }
{
    Err(Halt::Stopped(Stop {
        cause: Cause::Raised,
        place,
    }))
}

/// The turns that a loop or a list of answers may take are used up.
#[tactic(auto, using(py_frames::proofs::BeginLaws::turn_rules))]
pub fn run_out(
    going: &Going,
    _functions: &Functions,
    _frozen: &Frozen,
    place: Place,
    _budget: u64,
) -> Result<Now, Halt>
    ensures { GoesOn _functions.now _frozen.now result going.now going.now _budget (λ k. stop Spent place) }
{
    Err(Halt::Stopped(Stop {
        cause: Cause::Spent,
        place,
    }))
}

/// Asks; a frame waits for the answer.
#[tactic(auto, using(py_frames::proofs::BeginLaws::turn_rules))]
pub fn ask_under(
    going: &mut Going,
    functions: &Functions,
    frozen: &Frozen,
    frame: Frame,
    request: Request,
    budget: u64,
) -> Result<Now, Halt>
    requires { KeepsRoom frame going.old.state.here.room }
    ensures moves { GoesOn functions.now frozen.now result going.old going.new budget (within frame (λ k. ask k request)) }
    ensures state { going.new.state ≡ going.old.state }
{
    match going.frames.push(frame) {
        Ok(()) => ask(going, functions, frozen, request, budget),
        Err(_) => Err(Halt::NoMemory),
    }
}

/// A new function.
#[tactic(auto, using(py_frames::proofs::CallLaws::func_told))]
pub fn new_func(
    going: &mut Going,
    functions: &Functions,
    frozen: &Frozen,
    f: Func,
    place: Place,
    budget: u64,
) -> Result<Now, Halt>
    ensures moves { GoesOn functions.now frozen.now result going.old going.new budget (λ k. making (λ s. new_func (heap_seen k s) f) place give) }
    ensures used { going.new.state.used ≡ going.old.state.used }
{
    let given = going.state.heap.function(frozen, f);
    told(given, place)
}
