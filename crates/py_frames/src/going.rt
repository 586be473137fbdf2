// What a turn works on, and what turns have in common: units that are spent, and values that are made in the heap.
ghost use Rattle.std.specs.Prelude.{◌≡◌, ◌<◌, ◌+◌, ◌∷◌, MatchResult};
ghost use Rattle.py_frames.specs.declared.state.Halt.TheVariants as halt;
ghost use Rattle.py_frames.specs.Expressions.{value_of, list_made};
ghost use Rattle.py_frames.specs.Begun.{Spends};
ghost use Rattle.py_tree.specs.Seen.{tree};
ghost use Rattle.py_tree.specs.Programs.{step_of};
ghost use Rattle.py_frames.specs.declared.frame.Purpose.TheVariants.{Plain};
ghost use Rattle.py_frames.specs.Asking.{ask};
ghost use Rattle.py_frames.specs.Statements.{run};
ghost use Rattle.py_frames.specs.Frames.{GoesOn, KeepsRoom, within, told};

use crate::boxed::Boxed;
use crate::frame::{Frame, Frames, Now, Purpose};
use crate::functions::Functions;
use crate::request::{Cause, Request, Stop};
use crate::state::{Got, Halt, State};
use amh_host::{NoMemory, Place};
use py_heap::Frozen;
use py_tree::{Expr, Stmt};
use py_values::{Val, Vals, ValueStop};
use std::alloc::Global;

/// How many turns a loop may have, and how many functions answers may begin one after the other: no budget and no list
/// of answers is as long.
pub const MOST: u64 = 18_446_744_073_709_551_615;

/// The frames that wait, and the state.
#[derive(Drop)]
pub struct Going {
    pub alloc: Global,
    pub frames: Frames,
    pub state: State,
}

impl From<NoMemory> for Halt {
    ghost use Rattle.py_frames.specs.declared.state.Halt.TheVariants.{NoMemory};
    ghost use Rattle.std.specs.Prelude.{◌≡◌};

    ghost from_gives = { λ _ e. e ≡ NoMemory };

    fn from(_: NoMemory) -> Halt {
        Halt::NoMemory
    }
}

/// What the heap gave, as the machine tells it.
pub fn told(given: Result<Val, ValueStop>, place: Place) -> Result<Now, Halt>
    ensures { result ≡ told given place }
{
    match given {
        Ok(v) => Ok(Now::Came(Got::Value(v))),
        Err(ValueStop::Raised) => Err(stopped(Cause::Raised, place)),
        Err(ValueStop::Width) => Err(stopped(Cause::Width, place)),
        Err(ValueStop::Limit) => Err(stopped(Cause::Limit, place)),
        Err(ValueStop::Spent) => Err(stopped(Cause::Spent, place)),
        Err(ValueStop::NoMemory) => Err(Halt::NoMemory),
    }
}

/// A stop, as a halt.
pub fn stopped(cause: Cause, place: Place) -> Halt
    ensures { result ≡ halt.Stopped (record { cause = cause; place = place }) }
{
    Halt::Stopped(Stop { cause, place })
}

/// So many units, unless with them the cost reaches the budget.
pub fn spend(going: &mut Going, n: u64, place: Place, budget: u64) -> Result<(), Halt>
    requires { going.old.state.used < budget }
    ensures { Spends result n place going.old going.new budget }
{
    if n >= budget - going.state.used {
        going.state.used = budget;
        return Err(stopped(Cause::Spent, place));
    }
    going.state.used += n;
    Ok(())
}

/// A new list.
#[tactic(auto, using(crate::proofs::BeginLaws::list_told))]
pub fn new_list(
    going: &mut Going,
    functions: &Functions,
    frozen: &Frozen,
    vals: Vals,
    place: Place,
    budget: u64,
) -> Result<Now, Halt>
    ensures moves { GoesOn functions.now frozen.now result going.old going.new budget (λ k. list_made k place vals) }
    ensures used { going.new.state.used ≡ going.old.state.used }
{
    let given = going.state.heap.list(frozen, vals);
    told(given, place)
}

/// Begins a part of a node; a frame waits for its value.
#[tactic(auto, using(crate::proofs::BeginLaws::turn_rules))]
pub fn wait_for(
    going: &mut Going,
    functions: &Functions,
    frozen: &Frozen,
    part: &Expr,
    frame: Frame,
    budget: u64,
) -> Result<Now, Halt>
    requires { KeepsRoom frame going.old.state.here.room }
    ensures moves { GoesOn functions.now frozen.now result going.old going.new budget (within frame (λ k. value_of k Plain (tree part.now))) }
    ensures state { going.new.state ≡ going.old.state }
{
    let Ok(part) = part.share() else {
        drop(frame);
        return Err(Halt::NoMemory);
    };
    match going.frames.push(frame) {
        Ok(()) => Ok(Now::Begin(part, Purpose::Plain)),
        Err(_) => Err(Halt::NoMemory),
    }
}

/// Begins a statement; a frame waits for what it comes to.
#[tactic(auto, using(crate::proofs::BeginLaws::turn_rules))]
pub fn wait_for_step(
    going: &mut Going,
    functions: &Functions,
    frozen: &Frozen,
    part: &Stmt,
    frame: Frame,
    budget: u64,
) -> Result<Now, Halt>
    requires { KeepsRoom frame going.old.state.here.room }
    ensures moves { GoesOn functions.now frozen.now result going.old going.new budget (within frame (λ k. run k (step_of part.now))) }
    ensures state { going.new.state ≡ going.old.state }
{
    let Ok(part) = part.share() else {
        drop(frame);
        return Err(Halt::NoMemory);
    };
    match going.frames.push(frame) {
        Ok(()) => Ok(Now::Run(part)),
        Err(_) => Err(Halt::NoMemory),
    }
}

/// Puts a frame within the others; what waits for it goes on from there.
pub fn push(going: &mut Going, frame: Frame) -> Result<(), Halt>
    ensures { MatchResult result (λ _. going.new ≡ record going.old { frames = frame ∷ going.old.frames }) (λ e. e ≡ halt.NoMemory) }
{
    match going.frames.push(frame) {
        Ok(()) => Ok(()),
        Err(_) => Err(Halt::NoMemory),
    }
}

/// Waits for the answer to a request.
#[tactic(auto, unfolding(crate::specs::Frames::GoesOn))]
pub fn ask(
    going: &mut Going,
    _functions: &Functions,
    _frozen: &Frozen,
    request: Request,
    _budget: u64,
) -> Result<Now, Halt>
    ensures moves { GoesOn _functions.now _frozen.now result going.old going.new _budget (λ k. ask k request) }
    ensures state { going.new ≡ going.old }
{
    let act = request.act;
    match Boxed::new(going.alloc, request) {
        Ok(request) => Ok(Now::Waits {
            request,
            act,
            rounds: MOST,
        }),
        Err(_) => Err(Halt::NoMemory),
    }
}
