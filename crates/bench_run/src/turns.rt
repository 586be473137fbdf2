// From one point of a run to what comes next.
ghost use Rattle.std.specs.Prelude.{◌≡◌, ◌<◌, ◌≤◌, ◌^◌, List, Some, None, IsTrue, IsSome, IfSome, IfOk, length, slice_get};
ghost use Rattle.std.specs.List.{AllByRecursion};
ghost use Rattle.design_ir.specs.Legal.{IsLegal};
ghost use Rattle.delta_sim.specs.Standing.{IsSimOf};
ghost use Rattle.bench_acts.specs.Held.{IsBench};
ghost use Rattle.play_text.specs.Trace.{Row};
ghost use Rattle.bench_run.specs.Runs.{Run, Point as Abstract, is_ready, next_ready};
ghost use Rattle.bench_run.specs.Standing.{IsSafe, IsAt, IsAsking, IsRefused, IsMoving, IsWaiting, IsLive, IsDue, IsStop, IfGoes, Owed, StaysSafe, StepMoves, StepCosts, IsCloser, IsBehind, IsDone, MayBeDone, TakesAnswer, all_left, happened, stands_in};

use crate::asking::{event_served, refusal, stand_behind};
use crate::point::Point;
use crate::rounds::round_over;
use crate::setting::Setting;
use crate::testbench::{Running, Stand, next_ready};
use amh_host::{Budget, Place, Steps};
use bench_acts::{Served, serve};
use calendar::next_toggle;
use delta_sim::growth_keeps_simulators;
use design_ir::{Event, Exprs};
use fragment_laws::{designs_grow_on, growth_keeps_meaning};
use lists::NoMemory;
use py_frames::request::{Answer, Cause, Request, Stop, Turn};
use py_machine::Machine;
use std::sync::ledger::Ledger;

/// What comes next in a run.
#[derive(Drop)]
pub(crate) enum Step {
    /// It goes on.
    Goes,
    /// An event took place.
    Happens(Event),
    Ends,
    Stops(Stop),
}

/// What comes next: the next testbench that is ready goes on, or the round is over.
pub(crate) fn next_step<L: Ledger>(
    setting: &Setting,
    point: &mut Point,
    steps: &mut Steps<L>,
) -> Result<Step, NoMemory>
    requires { IsSafe setting.now point.old }
    ensures safe { StaysSafe result setting.now point.new }
    ensures comes { (x : Run) (first : Abstract) (rows : List Row) → IsAt setting.now point.old x first rows → Owed result setting.now point.new x first rows }
    ensures closer { IsCloser result point.old point.new }
    ensures moved { StepMoves result point.old point.new }
    ensures costs { StepCosts result point.old point.new }
    ensures counted { steps.old ≤ steps.new }
{
    let Some(end) = setting.end else {
        // Without a run call nothing comes; which clock would be next is only what the definition names.
        let _ = next_toggle(setting.clocks.as_slice(), point.now);
        return Ok(Step::Ends);
    };
    match next_ready(point.testbenches.as_slice(), point.turn) {
        Some(i) => go_on(setting, point, i, steps),
        None => round_over(setting, point, end, steps),
    }
}

// ---- testbenches

// A testbench that is ready goes on by its answer.
fn go_on<L: Ledger>(
    setting: &Setting,
    point: &mut Point,
    i: usize,
    steps: &mut Steps<L>,
) -> Result<Step, NoMemory>
    requires safe { IsSafe setting.now point.old }
    requires ready { next_ready point.old.turn (stands_in point.old.testbenches.items) ≡ Some i }
    requires there { i < length point.old.testbenches.items }
    requires end { IsSome setting.now.end }
    ensures safe { StaysSafe result setting.now point.new }
    ensures comes { (x : Run) (first : Abstract) (rows : List Row) → IsAt setting.now point.old x first rows → Owed result setting.now point.new x first rows }
    ensures closer { IsCloser result point.old point.new }
    ensures moved { StepMoves result point.old point.new }
    ensures costs { StepCosts result point.old point.new }
    ensures counted { steps.old ≤ steps.new }
{
    point.turn = i;
    match take_answer(setting, &mut point.testbenches[i], &mut point.left, steps) {
        Turn::Asks(request) => asked(setting, point, i, &request, steps),
        Turn::Ended(_) => Ok(Step::Goes),
        Turn::Stopped(stop) => Ok(Step::Stops(stop)),
        Turn::NoMemory => Err(NoMemory),
    }
}

// A testbench takes the answer by which it goes on.
fn take_answer<L: Ledger>(
    setting: &Setting,
    running: &mut Running,
    left: &mut Budget,
    steps: &mut Steps<L>,
) -> Turn
    requires live { IsLive setting.now running.old }
    requires ready { IsTrue (is_ready running.old.stand) }
    requires units { 0 < left.old.left }
    ensures took { TakesAnswer setting.now running.old running.new left.old.left left.new.left result }
    ensures counted { steps.old ≤ steps.new }
{
    let answer = running.take();
    note_taken(&running.machine);
    let turn = running
        .machine
        .resume(&setting.program, &setting.frozen, answer, left, steps);
    note_taken(&running.machine);
    turn
}

// Nothing is done; callers learn from it that the answers taken are counted in 64 bits.
fn note_taken(machine: &Machine)
    ensures { machine.now.going.state.taken < 2 ^ 64 }
{
    let _taken = machine.going.state.taken;
}

// What a testbench asks is done.
fn asked<L: Ledger>(
    setting: &Setting,
    point: &mut Point,
    i: usize,
    request: &Request,
    steps: &mut Steps<L>,
) -> Result<Step, NoMemory>
    requires safe { IsSafe setting.now point.old }
    requires waits { IfSome (slice_get point.old.testbenches.items i) IsWaiting }
    requires there { i < length point.old.testbenches.items }
    requires end { IsSome setting.now.end }
    ensures safe { StaysSafe result setting.now point.new }
    ensures comes { (x : Run) (first : Abstract) (rows : List Row) → IsAsking setting.now point.old i request.now x first rows → Owed result setting.now point.new x first rows }
    ensures answers { IfGoes result (all_left point.new.testbenches.items ≡ all_left point.old.testbenches.items) }
    ensures moved { StepMoves result point.old point.new }
    ensures costs { StepCosts result point.old point.new }
    ensures counted { steps.old ≤ steps.new }
{
    designs_grow_on();
    growth_keeps_meaning();
    growth_keeps_simulators();
    let _ = point.bench.design.count();
    let _ = point.bench.design.processes();
    let served = serve(
        &mut point.bench,
        &point.testbenches[i].machine,
        &setting.frozen,
        request,
    )?;
    match refusal(&served) {
        Some(why) => refused(setting, point, i, why, steps),
        None => Ok(done(point, i, request.place, served, steps)),
    }
}

// What was served is done: a testbench stands behind it, and an event takes place where it is one.
fn done<L: Ledger>(
    point: &mut Point,
    i: usize,
    place: Place,
    served: Served,
    steps: &mut Steps<L>,
) -> Step
    requires there { i < length point.old.testbenches.items }
    requires bench { IsBench point.old.bench }
    requires sim { IsSimOf point.old.bench.design point.old.sim }
    requires may { MayBeDone point.old.bench.design served }
    requires now { IfSome point.old.now (λ t. t < 2 ^ 63) }
    ensures done { IsDone result i place served point.old point.new }
    ensures counted { steps.old ≤ steps.new }
{
    let event = event_served(&point.bench.design, &point.sim, &served);
    let now = point.time();
    let stand = stand_behind(&point.bench, &mut point.sim, now, served);
    point.testbenches[i].stand = stand;
    match event {
        Some(event) => happen(point, place, event, steps),
        None => Step::Goes,
    }
}

// A testbench that is refused stops.
fn refused<L: Ledger>(
    setting: &Setting,
    point: &mut Point,
    i: usize,
    why: Cause,
    steps: &mut Steps<L>,
) -> Result<Step, NoMemory>
    requires there { i < length point.old.testbenches.items }
    requires units { 0 < point.old.left.left }
    requires live { AllByRecursion (IsLive setting.now) point.old.testbenches.items }
    requires waits { IfSome (slice_get point.old.testbenches.items i) IsWaiting }
    ensures comes { (x : Run) (first : Abstract) (rows : List Row) → IsRefused setting.now point.old i why x first rows → Owed result setting.now point.new x first rows }
    ensures stops { IfOk result (λ step. IsStop step) }
    ensures counted { steps.old ≤ steps.new }
{
    point.testbenches[i].stand = Stand::Ready(Answer::Refuse(why));
    match take_answer(setting, &mut point.testbenches[i], &mut point.left, steps) {
        Turn::Stopped(stop) => Ok(Step::Stops(stop)),
        Turn::NoMemory => Err(NoMemory),
        Turn::Asks(_) => unreachable!(),
        Turn::Ended(_) => unreachable!(),
    }
}

// ---- events

// An event, which costs a unit before it takes place.
pub(crate) fn happen<L: Ledger>(
    point: &mut Point,
    place: Place,
    event: Event,
    steps: &mut Steps<L>,
) -> Step
    requires sim { IsSimOf point.old.bench.design point.old.sim }
    requires legal { IsLegal point.old.bench.design event }
    ensures step { result ≡ happened point.old.left.left place event }
    ensures behind { IsBehind result event point.old point.new }
    ensures counted { steps.old ≤ steps.new }
{
    if point.left.left <= 1 {
        return Step::Stops(Stop {
            cause: Cause::Spent,
            place,
        });
    }
    point.left.left -= 1;
    let _ = point.sim.apply(&point.bench.design, &event, steps);
    Step::Happens(event)
}
