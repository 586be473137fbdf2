// The machine: a program from its begin to its end, by the answers that it is given.
ghost use Rattle.std.specs.Prelude.{◌≡◌, ◌<◌, ◌≤◌, ◌+◌, ◌-◌, [], IfOk, OnOk, MatchResult, None, Some, Ok};
ghost use Rattle.py_frames.specs.declared.state.Halt.TheVariants as halt;
ghost use Rattle.py_frames.specs.declared.request.Turn.TheVariants as turn;
ghost use Rattle.py_machine.specs.declared.machine.Stage.TheVariants as stage;
ghost use Rattle.py_frames.specs.declared.frame.Now.TheVariants.{Waits};
ghost use Rattle.py_machine.specs.Starts.{Start, body_means};
ghost use Rattle.py_machine.specs.Brought.{meant_by, took, turn_of, stage_of, KeepsTaken};
ghost use Rattle.py_frames.specs.Frames.{GoesOn, now_means};
ghost use Rattle.py_frames.specs.Tables.{IsTable};
ghost use Rattle.py_frames.specs.Turns.{Rests};
ghost use Rattle.py_tree.specs.Programs.{program_of, steps_of};
ghost use Rattle.py_heap.specs.Heaps.{nothing, seen, row_at, text_at};
ghost use Rattle.py_machine.specs.Lives.{AreOf, IsOf, IsOfAny, Stands, StandsBeforeBench, Resumed, BenchResumed, ResumedFrom, KeepsBudget, again, worth};

use crate::bench::{bench_begun, bench_state};
use crate::reply::answered;
use crate::turn::go;
use amh_host::{Budget, NoMemory, Place, Steps};
use py_frames::frame::{DefFrame, Frame, Frames, Now};
use py_frames::functions::Functions;
use py_frames::going::Going;
use py_frames::leaf::copied;
use py_frames::request::{Act, Answer, Cause, Request, Stop, Turn};
use py_frames::start::first_state;
use py_frames::state::{Got, Halt, State};
use py_heap::Frozen;
use py_tree::Program;
use py_turns::block::block_under;
use py_values::{Hw, ObjId, StrId, Val};
use std::alloc::Global;
use std::mem::replace;
use std::sync::ledger::Ledger;

/// Where a machine stands between two answers.
#[derive(Drop)]
pub enum Stage {
    Before,
    /// Before a testbench: this function is to be called with this thing.
    BeforeBench { callee: Val, ctx: Hw },
    /// A request of this act at this place waits; so many functions may still be begun for it.
    Waiting { act: Act, place: Place, rounds: u64 },
    Ended(Val),
    Stopped(Stop),
    NoMemory,
}

/// An evaluation of a program that goes on where it stopped.
#[derive(Drop)]
pub struct Machine {
    /// None before the first answer to a testbench, with which its program comes.
    pub functions: Option<Functions>,
    pub going: Going,
    pub stage: Stage,
}

impl Machine {
    /// A machine before the body of a program.
    pub fn start(alloc: Global, program: &Program) -> Result<Machine, NoMemory>
        ensures of { IfOk result (IsOf (program_of program.now)) }
        ensures stands { IfOk result (Stands (program_of program.now) nothing []) }
        ensures before { IfOk result (λ m. m.stage ≡ stage.Before) }
        ensures unused { IfOk result (λ m. m.going.state.used ≡ 0) }
    {
        let Ok(functions) = Functions::of(alloc, &program.body) else {
            return Err(NoMemory);
        };
        match first_state(alloc) {
            Ok(state) => Ok(Machine {
                functions: Some(functions),
                going: Going {
                    alloc,
                    frames: Frames::new(alloc),
                    state,
                },
                stage: Stage::Before,
            }),
            Err(_) => Err(NoMemory),
        }
    }

    /// A machine before a testbench: a function of what stands before it, which is called with the thing `ctx`.
    pub fn bench(alloc: Global, _frozen: &Frozen, callee: Val, ctx: Hw) -> Result<Machine, NoMemory>
        ensures of { IfOk result IsOfAny }
        ensures stands { IfOk result (StandsBeforeBench _frozen.now callee ctx) }
        ensures before { IfOk result (λ m. m.stage ≡ stage.BeforeBench callee ctx) }
        ensures unused { IfOk result (λ m. m.going.state.used ≡ 0) }
    {
        Ok(Machine {
            functions: None,
            going: Going {
                alloc,
                frames: Frames::new(alloc),
                state: bench_state(alloc),
            },
            stage: Stage::BeforeBench { callee, ctx },
        })
    }

    /// Goes on by an answer, to the next request or to the end. The first answer begins the program's body or the testbench,
    /// and each later one is that of the request that waits. The program of a testbench is the one whose body made what is
    /// frozen. What is spent is taken from `left`; `Stopped` with `Spent` comes where the cost reaches it. After the end, a
    /// stop or want of memory each call answers the same. Each answer that is taken ticks `steps`, and so does each turn.
    #[tactic(auto, using(crate::proofs::LifeLaws::resume_rules))]
    pub fn resume<L: Ledger>(
        &mut self,
        program: &Program,
        frozen: &Frozen,
        answer: Answer,
        left: &mut Budget,
        steps: &mut Steps<L>,
    ) -> Turn
        requires of { IsOf (program_of program.now) self.old }
        requires units { again self.old.stage ≡ None → 0 < left.old.left }
        ensures of { IsOf (program_of program.now) self.new }
        ensures comes { Resumed (again self.old.stage) (program_of program.now) frozen.now answer result self.old self.new left.old.left }
        ensures bench { BenchResumed (again self.old.stage) (program_of program.now) frozen.now answer result self.old self.new left.old.left }
        ensures left { left.new.left ≡ self.old.going.state.used + left.old.left - self.new.going.state.used }
        ensures ticks { steps.old ≤ steps.new }
        ensures answer { again self.old.stage ≡ None → steps.old < steps.new }
        ensures kept { KeepsBudget result (self.old.going.state.used + left.old.left) (self.new.going.state.used + left.new.left) }
    {
        if let Some(turn) = self.again() {
            return turn;
        }
        steps.tick();
        let Ok(functions) = self.functions_of(program) else {
            self.stage = Stage::NoMemory;
            return Turn::NoMemory;
        };
        let turn = self.goes_on(&functions, frozen, answer, left, steps);
        self.functions = Some(functions);
        turn
    }

    // The functions of the program, which a testbench is told by its first answer. They are to be put back.
    fn functions_of(&mut self, program: &Program) -> Result<Functions, NoMemory>
        requires { IsOf (program_of program.now) self.old }
        ensures of { IfOk result (λ f. AreOf (program_of program.now) (Some f)) }
        ensures taken_out { self.new ≡ record self.old { functions = None } }
    {
        match replace(&mut self.functions, None) {
            Some(functions) => Ok(functions),
            None => Functions::of(self.going.alloc, &program.body),
        }
    }

    // The turns that an answer brings, and what is told of them.
    #[tactic(auto, using(crate::proofs::LifeLaws::turned_rules))]
    fn goes_on<L: Ledger>(
        &mut self,
        functions: &Functions,
        frozen: &Frozen,
        answer: Answer,
        left: &mut Budget,
        steps: &mut Steps<L>,
    ) -> Turn
        requires table { IsTable functions.now }
        requires over { again self.old.stage ≡ None }
        requires units { 0 < left.old.left }
        ensures comes { (start : Start) → ResumedFrom start None (steps_of functions.now.program) frozen.now answer result self.old self.new left.old.left }
        ensures left { left.new.left ≡ self.old.going.state.used + left.old.left - self.new.going.state.used }
        ensures ticks { steps.old ≤ steps.new }
        ensures kept { KeepsBudget result (self.old.going.state.used + left.old.left) (self.new.going.state.used + left.new.left) }
    {
        let Some(budget) = self.going.state.used.checked_add(left.left) else {
            self.stage = Stage::NoMemory;
            return Turn::NoMemory;
        };
        let rest = replied(
            &mut self.going,
            functions,
            frozen,
            &self.stage,
            answer,
            budget,
            steps,
        );
        left.left = budget.saturating_sub(self.going.state.used);
        self.rested(rest)
    }

    // What is answered once it is over: the same again.
    fn again(&self) -> Option<Turn>
        ensures { result ≡ again self.now.stage }
    {
        match &self.stage {
            Stage::Before => None,
            Stage::BeforeBench { .. } => None,
            Stage::Waiting { .. } => None,
            Stage::Ended(v) => Some(Turn::Ended(*v)),
            Stage::Stopped(stop) => Some(Turn::Stopped(*stop)),
            Stage::NoMemory => Some(Turn::NoMemory),
        }
    }

    // Turns came to rest: where the machine stands, and what is told of it.
    fn rested(&mut self, rest: Result<Now, Halt>) -> Turn
        ensures told { result ≡ turn_of rest }
        ensures stands { self.new ≡ record self.old { stage = stage_of rest } }
    {
        match rest {
            Ok(
                Now::Waits {
                    request,
                    act,
                    rounds,
                },
            ) => self.asks(request.into_inner(), act, rounds),
            Ok(Now::Came(got)) => self.ended(&got),
            Err(Halt::Stopped(stop)) => self.stopped(&stop),
            _ => {
                self.stage = Stage::NoMemory;
                Turn::NoMemory
            }
        }
    }

    // A request waits.
    fn asks(&mut self, request: Request, act: Act, rounds: u64) -> Turn
        ensures told { result ≡ turn_of (Ok (Waits request act rounds)) }
        ensures stands { self.new ≡ record self.old { stage = stage_of (Ok (Waits request act rounds)) } }
    {
        let place = request.place;
        if rounds == 0 {
            return self.stopped(&Stop {
                cause: Cause::Spent,
                place,
            });
        }
        self.stage = Stage::Waiting {
            act,
            place,
            rounds: rounds - 1,
        };
        Turn::Asks(request)
    }

    // The program ended.
    fn ended(&mut self, got: &Got) -> Turn
        ensures told { result ≡ turn.Ended (worth got.now) }
        ensures stands { self.new ≡ record self.old { stage = stage.Ended (worth got.now) } }
    {
        let v = worth(got);
        self.stage = Stage::Ended(copied(&v));
        Turn::Ended(v)
    }

    // The program stopped.
    fn stopped(&mut self, stop: &Stop) -> Turn
        ensures told { result ≡ turn.Stopped stop.now }
        ensures stands { self.new ≡ record self.old { stage = stage.Stopped stop.now } }
    {
        self.stage = Stage::Stopped(*stop);
        Turn::Stopped(*stop)
    }

    /// A string of the machine or of what stood before it.
    pub fn text<'a>(&'a self, frozen: &'a Frozen, s: StrId) -> &'a str
        ensures { result.now ≡ text_at (seen frozen.now self.now.going.state.heap) s.0 }
    {
        self.going.state.heap.text(frozen, s)
    }

    /// The values of a list, tuple, dict, range, class or object, as `Heap::row` says.
    pub fn items<'a>(&'a self, frozen: &'a Frozen, o: ObjId) -> &'a [Val]
        ensures { result.now ≡ row_at (seen frozen.now self.now.going.state.heap) o.0 }
    {
        self.going.state.heap.row(frozen, o)
    }

    /// All that was made, to stand before other machines.
    pub fn freeze(self) -> Frozen
        ensures { result ≡ self.going.state.heap }
    {
        let Machine { going, .. } = self;
        let Going { state, .. } = going;
        let State { heap, .. } = state;
        heap.freeze()
    }
}

// One answer more is taken.
fn take(going: &mut Going) -> Result<(), Halt>
    ensures taken { MatchResult result (λ _. going.new ≡ took going.old) (λ e. e ≡ halt.NoMemory) }
    ensures used { going.new.state.used ≡ going.old.state.used }
{
    match going.state.taken.checked_add(1) {
        Some(taken) => {
            going.state.taken = taken;
            Ok(())
        }
        None => Err(Halt::NoMemory),
    }
}

// The file's body begins.
#[tactic(auto, using(crate::proofs::LifeLaws::body_goes, py_frames::proofs::BeginLaws::no_memory))]
fn file_begun(
    going: &mut Going,
    functions: &Functions,
    frozen: &Frozen,
    budget: u64,
) -> Result<Now, Halt>
    ensures moves { GoesOn functions.now frozen.now result going.old going.new budget body_means }
    ensures state { going.new.state ≡ going.old.state }
{
    let Ok(body) = functions.program.share() else {
        return Err(Halt::NoMemory);
    };
    block_under(
        going,
        functions,
        frozen,
        &body,
        Frame::Def(DefFrame::FileBody),
        budget,
    )
}

// What an answer begins.
#[tactic(auto, using(crate::proofs::LifeLaws::meant_rules, py_frames::proofs::BeginLaws::no_memory))]
fn answer_goes(
    going: &mut Going,
    functions: &Functions,
    frozen: &Frozen,
    stage: &Stage,
    answer: Answer,
    budget: u64,
) -> Result<Now, Halt>
    requires room { going.old.state.used < budget }
    requires table { IsTable functions.now }
    ensures moves { GoesOn functions.now frozen.now result going.old going.new budget (meant_by stage.now answer) }
    ensures left { OnOk result (going.new.state.used < budget) }
    ensures grows { going.old.state.used ≤ going.new.state.used }
{
    match stage {
        Stage::Waiting { act, place, rounds } => {
            answered(
                going, functions, frozen, *act, *place, *rounds, answer, budget,
            )
        }
        Stage::Before => file_begun(going, functions, frozen, budget),
        Stage::BeforeBench { callee, ctx } => bench_begun(
            going, functions, frozen, callee, *ctx, budget,
        ),
        _ => Err(Halt::NoMemory),
    }
}

// The turns that an answer brings.
#[tactic(auto, using(crate::proofs::LifeLaws::reply_rules, py_frames::proofs::BeginLaws::no_memory))]
fn replied<L: Ledger>(
    going: &mut Going,
    functions: &Functions,
    frozen: &Frozen,
    stage: &Stage,
    answer: Answer,
    budget: u64,
    steps: &mut Steps<L>,
) -> Result<Now, Halt>
    requires room { going.old.state.used < budget }
    requires table { IsTable functions.now }
    ensures moves { GoesOn functions.now frozen.now result (took going.old) going.new budget (meant_by stage.now answer) }
    ensures rests { OnOk result (Rests result going.new) }
    ensures left { OnOk result (going.new.state.used < budget) }
    ensures grows { going.old.state.used ≤ going.new.state.used }
    ensures taken { KeepsTaken result going.old going.new }
    ensures ticks { steps.old ≤ steps.new }
{
    let before = going.state.taken;
    let Ok(()) = take(going) else {
        return Err(Halt::NoMemory);
    };
    match answer_goes(going, functions, frozen, stage, answer, budget) {
        Err(halt) => Err(halt),
        Ok(now) => rest_of(going, functions, frozen, now, before, budget, steps),
    }
}

// Turns until they come to rest. No turn takes an answer, which no clause of theirs says: so it is looked at here.
#[tactic(auto, using(py_frames::proofs::BeginLaws::no_memory))]
fn rest_of<L: Ledger>(
    going: &mut Going,
    functions: &Functions,
    frozen: &Frozen,
    now: Now,
    before: u64,
    budget: u64,
    steps: &mut Steps<L>,
) -> Result<Now, Halt>
    requires room { going.old.state.used < budget }
    requires table { IsTable functions.now }
    ensures moves { GoesOn functions.now frozen.now result going.old going.new budget (λ k. now_means k now) }
    ensures rests { OnOk result (Rests result going.new) }
    ensures left { OnOk result (going.new.state.used < budget) }
    ensures grows { going.old.state.used ≤ going.new.state.used }
    ensures taken { OnOk result (going.new.state.taken ≡ before + 1) }
    ensures ticks { steps.old ≤ steps.new }
{
    match go(going, functions, frozen, now, budget, steps) {
        Err(halt) => Err(halt),
        Ok(now) => {
            if going.state.taken.checked_sub(before) == Some(1) {
                Ok(now)
            } else {
                Err(Halt::NoMemory)
            }
        }
    }
}

// What a program that ended is worth.
fn worth(got: &Got) -> Val
    ensures { result ≡ worth got.now }
{
    match got {
        Got::Value(v) => *v,
        _ => Val::None,
    }
}
