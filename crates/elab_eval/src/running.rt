// Elaboration: a program is run, and each of its requests is answered.
ghost use Rattle.std.specs.Prelude.{◌≡◌, ◌<◌, ◌≤◌, ◌^◌, IfOk, OnOk, length, Ok, Err};
ghost use Rattle.std.specs.Option.{option_copied};
ghost use Rattle.py_tree.specs.Programs.{program_of};
ghost use Rattle.py_heap.specs.Heaps.{nothing, seen};
ghost use Rattle.py_frames.specs.declared.request.Answer.TheVariants.{Begin};
ghost use Rattle.py_machine.specs.Lives.{IsOf};
ghost use Rattle.amh_values.specs.Acts.{acted, Acts};
ghost use Rattle.amh_things.specs.Held.{AreHeld};
ghost use Rattle.elab_eval.specs.Elaborates.{IsElaborated, stop_of, told_at, without_simulation};
ghost use Rattle.elab_eval.specs.Fit.{IsFit};
ghost use Rattle.elab_eval.specs.Running.{IsRunning, Steps_to, Runs_to};
ghost use Rattle.elab_eval.specs.Table.{prim};
ghost use Rattle.elab_store.specs.Sound.{IsSound};
ghost use Rattle.elab_store.specs.Held.{held_of, Gives};

use crate::answering::answer_own;
use crate::finish::finish;
use crate::refusal::ElabStop;
use amh_host::{Budget, Kind, Place, Steps};
use amh_values::{Acted, act};
use design_ir::{Design, Pool};
use elab_store::simulation::Simulation;
use elab_store::store::{Elaboration, Store};
use lists::NoMemory;
use py_frames::request::{Answer, Cause, Request, Stop, Turn};
use py_heap::Frozen;
use py_machine::Machine;
use py_tree::Program;
use std::alloc::Global;
use std::sync::ledger::Ledger;

/// What a program is elaborated to: the design, the store without its pool, which the design has, and all that the program made.
#[derive(Drop)]
pub struct Elaborated {
    pub design: Design,
    pub store: Store,
    pub frozen: Frozen,
}

/// What one answer brings: the next answer, or the end of the program.
#[derive(Drop)]
pub enum Step {
    Next(Answer),
    Ended,
}

// The table of shapes and values.
fn serve(
    store: &mut Store,
    alloc: Global,
    pool: &mut Pool,
    machine: &Machine,
    frozen: &Frozen,
    request: &Request,
) -> Result<Acted, NoMemory>
    requires { AreHeld (length pool.old.exprs) store.old.things }
    ensures acts { IfOk result (λ a. Acts (acted (seen frozen.now machine.now.going.state.heap) pool.old store.old.things request.now) a pool.old pool.new store.old.things store.new.things) }
    ensures held { OnOk result (AreHeld (length pool.new.exprs) store.new.things) }
    ensures rest { OnOk result (store.new ≡ record store.old { things = store.new.things }) }
{
    act(alloc, pool, &mut store.things, machine, frozen, request)
}

// What a request is answered.
pub fn answer_request(
    elaboration: &mut Elaboration,
    machine: &Machine,
    frozen: &Frozen,
    top: Option<&str>,
    request: &Request,
) -> Result<Answer, NoMemory>
    requires { IsSound (held_of elaboration.old) }
    ensures gives { Gives result elaboration.new (prim (option_copied top.entry) (seen frozen.now machine.now.going.state.heap) (held_of elaboration.old) request.now) }
    ensures sound { OnOk result (IsSound (held_of elaboration.new)) }
{
    match serve(
        &mut elaboration.store,
        elaboration.alloc,
        &mut elaboration.pool,
        machine,
        frozen,
        request,
    )? {
        Acted::Answer(answer) => Ok(answer),
        Acted::Other => {
            elaboration.pool.known();
            answer_own(elaboration, &machine.going.state.heap, frozen, top, request)
        }
    }
}

// Takes an answer, and answers what comes next.
fn take_answer<L: Ledger>(
    elaboration: &mut Elaboration,
    machine: &mut Machine,
    program: &Program,
    frozen: &Frozen,
    top: Option<&str>,
    answer: Answer,
    left: &mut Budget,
    steps: &mut Steps<L>,
    _budget: u64,
) -> Result<Step, ElabStop>
    requires of { IsOf (program_of program.now) machine.old }
    requires frozen { frozen.now ≡ nothing }
    requires running { IsRunning (program_of program.now) (option_copied top) _budget machine.old (held_of elaboration.old) answer left.old.left }
    ensures of { IsOf (program_of program.now) machine.new }
    ensures comes { Steps_to (program_of program.now) (option_copied top.entry) _budget result machine.old machine.new (held_of elaboration.new) left.new.left }
    ensures ticks { steps.old ≤ steps.new }
{
    match machine.resume(program, frozen, answer, left, steps) {
        Turn::Asks(request) => match answer_request(elaboration, machine, frozen, top, &request) {
            Ok(next) => {
                note_taken(machine);
                Ok(Step::Next(next))
            }
            Err(_) => Err(ElabStop::NoMemory),
        },
        Turn::Ended(_) => Ok(Step::Ended),
        Turn::Stopped(stop) => Err(stop_of(told_at(elaboration.store.told(), stop))),
        Turn::NoMemory => Err(ElabStop::NoMemory),
    }
}

// Answers from the first one on, until the program ends.
fn run<L: Ledger>(
    elaboration: &mut Elaboration,
    machine: &mut Machine,
    program: &Program,
    frozen: &Frozen,
    top: Option<&str>,
    left: &mut Budget,
    steps: &mut Steps<L>,
) -> Result<(), ElabStop>
    requires of { IsOf (program_of program.now) machine.old }
    requires frozen { frozen.now ≡ nothing }
    requires running { IsRunning (program_of program.now) (option_copied top) left.old.left machine.old (held_of elaboration.old) Begin left.old.left }
    ensures of { IsOf (program_of program.now) machine.new }
    ensures comes { Runs_to (program_of program.now) (option_copied top.entry) left.old.left result machine.new (held_of elaboration.new) left.new.left }
    ensures ticks { steps.old ≤ steps.new }
{
    let budget = left.left;
    let mut answer = Answer::Begin;
    loop {
        match take_answer(
            elaboration,
            machine,
            program,
            frozen,
            top,
            answer,
            left,
            steps,
            budget,
        ) {
            Ok(Step::Next(next)) => answer = next,
            Ok(Step::Ended) => return Ok(()),
            Err(stop) => return Err(stop),
        }
    }
}

// Nothing is done; callers learn from it that the answers taken are counted in 64 bits.
fn note_taken(machine: &Machine)
    ensures { machine.now.going.state.taken < 2 ^ 64 }
{
    let _taken = machine.going.state.taken;
}

// Where a stop is told.
fn told_at(told: Option<Place>, stop: Stop) -> Stop
    ensures { result ≡ told_at told stop }
{
    match (told, stop.cause) {
        (Some(place), Cause::Raised) => Stop {
            cause: Cause::Raised,
            place,
        },
        _ => stop,
    }
}

// What a stop of the program is told as: a false `assert` raises.
fn stop_of(stop: Stop) -> ElabStop
    ensures { result ≡ stop_of stop }
{
    match stop.cause {
        Cause::Raised | Cause::Assert => ElabStop::Refused(Kind::Raised, stop.place),
        Cause::Width => ElabStop::Refused(Kind::Width, stop.place),
        Cause::Limit => ElabStop::Refused(Kind::Limit, stop.place),
        Cause::Spent => ElabStop::Spent(stop.place),
    }
}

// Where the words name the top, what the file's simulator was told is let go.
fn leave_simulation(elaboration: &mut Elaboration, top: Option<&str>)
    requires { IsSound (held_of elaboration.old) }
    ensures held { held_of elaboration.new ≡ without_simulation (option_copied top.entry) (held_of elaboration.old) }
    ensures sound { IsSound (held_of elaboration.new) }
{
    if let Some(_) = top {
        elaboration.store.simulation = Simulation::new(elaboration.alloc);
    }
}

/// Elaborates a program: the design that it makes, or why it makes none, exactly as `Elaborates` says within what is left, of which what
/// it used is taken. What a run needs of the two stands: the store is sound over the design's pool, which has 262,144 expressions at most, the
/// design has all of its clocks, and some unit is left. The words may name the top. Want of memory may come at any time.
pub fn elaborate<L: Ledger>(
    alloc: Global,
    program: &Program,
    top: Option<&str>,
    left: &mut Budget,
    steps: &mut Steps<L>,
) -> Result<Elaborated, ElabStop>
    requires { 0 < left.old.left }
    ensures comes { IsElaborated (program_of program.now) (option_copied top.entry) left.old.left left.new.left result }
    ensures fit { IfOk result IsFit }
    ensures units { IfOk result (λ _. 0 < left.new.left) }
    ensures ticks { steps.old ≤ steps.new }
{
    let frozen = Frozen::empty(alloc);
    let Ok(machine) = Machine::start(alloc, program) else {
        return Err(ElabStop::NoMemory);
    };
    let mut machine = machine;
    let mut held = Elaboration::new(alloc);
    match run(&mut held, &mut machine, program, &frozen, top, left, steps) {
        Ok(()) => {
            leave_simulation(&mut held, top);
            finish(held, machine, &frozen)
        }
        Err(stop) => Err(stop),
    }
}
